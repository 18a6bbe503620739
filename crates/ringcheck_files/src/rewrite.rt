//! A text, rewritten as its canonical text.

ghost use Rattle.std.specs.Prelude.{◌≡◌, Ok, Err, OnOk, IfErr};
ghost use Rattle.drill_text.specs.Outcome.{file_of};
ghost use Rattle.drill_text.specs.Texts.{ReadsAs};
ghost use Rattle.drill_text.specs.declared.kept.Keep.TheVariants as drill_keep;
ghost use Rattle.drill_text.specs.declared.platings.PlatingKind.TheVariants as plating;
ghost use Rattle.grid_units.specs.Results.{Answers, IfFault};
ghost use Rattle.gerber_text.specs.Writing.{canonical_text, without_places};
ghost use Rattle.layer_image.specs.Layers.{LayerImage, ReadsLayer};
ghost use Rattle.ringcheck_files.specs.Rewriting.{Rewrites, RewritesDrill, RewritesLayer};

use crate::layer_writer::LayerWriter;
use drill_text::laws::faults_stay;
use drill_text::{Drill, DrillReader};
use grid_units::{Fail, Profile};
use layer_image::{Keep, LayerReader, readings_in_profiles};
use std::alloc::Global;

/// How many bytes of a layer are read at a time, so that no more of its commands are held.
const PIECE: usize = 65_536;

/// Reads a layer, and returns its first fault, if it has one.
fn check_layer(alloc: Global, bytes: &[u8]) -> Result<(), Fail>
    ensures ok { OnOk result ((image : LayerImage) × ReadsLayer bytes.now (Ok image)) }
    ensures err { IfErr result (IfFault (λ f. ReadsLayer bytes.now (Err f))) }
{
    readings_in_profiles();
    let mut reader = LayerReader::in_profile(alloc, Keep::Pads, Profile::Strict);
    for piece in bytes.chunks(PIECE) {
        reader.feed(piece)?;
    }
    let _layer = reader.finish()?;
    Ok(())
}

/// The canonical text of a legal layer, which is read again piece by piece.
fn write_layer(alloc: Global, bytes: &[u8]) -> Result<Vec<u8>, Fail>
    ensures { (image : LayerImage) → ReadsLayer bytes.now (Ok image) → Answers (λ text. text.items) (λ answer. answer ≡ canonical_text (without_places image.commands)) result }
{
    let mut writer = LayerWriter::new(alloc);
    for piece in bytes.chunks(PIECE) {
        writer.take(piece)?;
    }
    writer.finish()
}

/// The canonical text of a layer. The bytes are read twice, and nothing is kept of the first reading. So only the commands of
/// one piece are held at a time.
fn rewrite_layer(alloc: Global, bytes: &[u8]) -> Result<Vec<u8>, Fail>
    ensures { Answers (λ text. text.items) (RewritesLayer bytes.now) result }
{
    check_layer(alloc, bytes)?;
    write_layer(alloc, bytes)
}

/// A drill file with the canonical text of its commands, of which none is kept.
fn read_drill(alloc: Global, bytes: &[u8]) -> Result<Drill, Fail>
    ensures { Answers (λ drill. drill) (ReadsAs (file_of plating.Stated drill_keep.Text) bytes.now) result }
{
    faults_stay();
    let mut reader = DrillReader::keeping(alloc, drill_text::Keep::Text);
    reader.feed(bytes)?;
    reader.finish()
}

/// The canonical text of a drill file.
fn rewrite_drill(alloc: Global, bytes: &[u8]) -> Result<Vec<u8>, Fail>
    ensures { Answers (λ text. text.items) (RewritesDrill bytes.now) result }
{
    let drill = read_drill(alloc, bytes)?;
    drill.into_text()
}

/// The canonical text of what the bytes spell, as a layer or as a drill file. It takes memory for that text, for what the
/// layer's flashes or the drill file's holes take, and for the commands of 65,536 bytes, but not for all commands.
///
/// # Errors
///
/// The first fault of the bytes, as [`layer_image::read_layer`] or [`drill_text::read_drill`] gives it;
/// [`grid_units::Reason::TooLong`] at place 0 and byte 0 where the text would be above 268,435,456 bytes; `Memory` where an
/// allocation failed.
pub fn rewrite_bytes(alloc: Global, kind: Kind, bytes: &[u8]) -> Result<Vec<u8>, Fail>
    ensures exact { Answers (λ text. text.items) (Rewrites kind bytes.now) result }
{
    match kind {
        Kind::Layer => rewrite_layer(alloc, bytes),
        Kind::Drill => rewrite_drill(alloc, bytes),
    }
}

/// What a text is read as.
#[derive(Clone, Copy, Debug)]
pub enum Kind {
    /// A Gerber layer.
    Layer,
    /// An Excellon drill file.
    Drill,
}
