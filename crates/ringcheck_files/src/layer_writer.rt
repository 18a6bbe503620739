//! A legal layer that is rewritten as it is read, a piece at a time.

ghost use Rattle.std.specs.Prelude.{◌≡◌, ◌++◌, [], ℕ, List, Ok, OnOk, IfErr};
ghost use Rattle.grid_units.specs.Results.{Answers, IfFault};
ghost use Rattle.gerber_text.specs.Writing.{canonical_text, without_places};

use crate::lines::Lines;
use gerber_text::WordReader;
use grid_units::Fail;
use std::alloc::Global;

/// Holds the canonical lines of the items that have ended so far. Their commands are dropped.
#[derive(Drop)]
pub(crate) struct LayerWriter {
    alloc: Global,
    words: WordReader,
    lines: Lines,
}

impl LayerWriter {
    ghost use Rattle.layer_image.specs.Layers.{LayerImage, ReadsLayer};
    ghost use Rattle.ringcheck_files.specs.Inner.Writing.{IsWriterAfter, ShowsReadFault};

    /// A writer that has read nothing.
    pub(crate) fn new(alloc: Global) -> LayerWriter
        ensures { IsWriterAfter result [] }
    {
        LayerWriter {
            alloc,
            words: WordReader::new(alloc),
            lines: Lines::new(alloc),
        }
    }

    /// Takes the next piece of the text.
    pub(crate) fn take(&mut self, piece: &[u8]) -> Result<(), Fail>
        ensures ok { (text : List ℕ) → IsWriterAfter self.old text → OnOk result (IsWriterAfter self.new (text ++ piece.now)) }
        ensures err { (text : List ℕ) → IsWriterAfter self.old text → IfErr result (IfFault (ShowsReadFault (text ++ piece.now))) }
    {
        self.words.feed(piece)?;
        self.lines.add(self.alloc, self.words.commands())?;
        self.words.clear_commands();
        Ok(())
    }

    /// The canonical text of the whole layer, after its last piece.
    pub(crate) fn finish(self) -> Result<Vec<u8>, Fail>
        ensures { (text : List ℕ) (image : LayerImage) → IsWriterAfter self text → ReadsLayer text (Ok image) → Answers (λ v. v.items) (λ answer. answer ≡ canonical_text (without_places image.commands)) result }
    {
        let LayerWriter {
            alloc,
            words,
            mut lines,
        } = self;
        let commands = words.finish()?;
        lines.add(alloc, &commands)?;
        lines.finish()
    }
}
