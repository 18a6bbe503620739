//! The canonical lines of a layer's commands, which come some at a time.

ghost use Rattle.std.specs.Prelude.{◌≡◌, ◌++◌, [], OnOk};
ghost use Rattle.grid_units.specs.Results.{AnswersAlways};
ghost use Rattle.gerber_text.specs.Reading.{Entries};
ghost use Rattle.gerber_text.specs.Writing.{canonical_text, without_places, vec_bytes};

use gerber_text::{Command, Placed, write_placed};
use grid_units::{Fail, Fault, Reason, TEXT_LIMIT};
use std::alloc::{AllocError, Global};

/// The canonical lines of some commands, or just that they are longer than a text may be.
#[derive(Drop)]
pub(crate) struct Lines {
    text: Vec<u8>,
    is_long: bool,
}

impl Lines {
    ghost use Rattle.std.specs.Prelude.{List, ℕ, true, false};
    ghost use Rattle.ringcheck_files.specs.Inner.Writing.{HoldsLines, HoldsText};

    /// No lines.
    pub(crate) fn new(alloc: Global) -> Lines
        ensures { HoldsLines result [] }
    {
        Lines {
            text: Vec::new(alloc),
            is_long: false,
        }
    }

    /// Adds the lines of commands.
    pub(crate) fn add(
        &mut self,
        alloc: Global,
        commands: &[Placed<Command>],
    ) -> Result<(), AllocError>
        ensures { (before : Entries) → HoldsLines self.old before → OnOk result (HoldsLines self.new (before ++ commands.now)) }
    {
        if self.is_long {
            return Ok(());
        }
        match write_placed(alloc, commands) {
            Ok(lines) => self.append(&lines),
            Err(Fail::Memory) => Err(AllocError),
            Err(Fail::Refused(_)) => {
                self.is_long = true;
                Ok(())
            }
        }
    }

    /// Appends lines. Where the text is too long with them, it holds none any more.
    fn append(&mut self, lines: &[u8]) -> Result<(), AllocError>
        requires { self.old.is_long ≡ false }
        ensures { (text : List ℕ) → HoldsText self.old text → OnOk result (HoldsText self.new (text ++ lines.now)) }
    {
        self.text.extend_from_slice(lines)?;
        if self.text.len() > TEXT_LIMIT {
            self.is_long = true;
            self.text.clear();
        }
        Ok(())
    }

    /// The text of the lines, or TooLong at place 0 and byte 0.
    pub(crate) fn finish(self) -> Result<Vec<u8>, Fail>
        ensures { (commands : Entries) → HoldsLines self commands → AnswersAlways vec_bytes (λ answer. answer ≡ canonical_text (without_places commands)) result }
    {
        if self.is_long {
            return Err(Fail::Refused(Fault {
                place: 0,
                byte: 0,
                reason: Reason::TooLong,
            }));
        }
        Ok(self.text)
    }
}
