//! Where a run prints, why it cannot go on, and the line of a refused word.

ghost use Rattle.std.specs.Prelude.{◌≡◌, OnOk};
ghost use Rattle.std.specs.Io.KnownBytes.{Appends};
ghost use Rattle.ringcheck_files.specs.Words.{usage_line};
ghost use Rattle.ringcheck_files.specs.declared.outcomes.Failure.TheVariants as failures;

use grid_units::Reason;
use std::alloc::AllocError;
use std::io;
use std::io::Write;

/// Where a run prints: its answer to `out`, and to `err` the sentences that have no place in the answer.
#[derive(Drop)]
pub struct Streams<W, E> {
    /// What gets the answer, as standard output does.
    pub out: W,
    /// What gets sentences beside the answer, as standard error does.
    pub err: E,
}

/// Why a run cannot go on.
#[derive(Clone, Copy)]
pub enum Failure {
    /// Memory ran out.
    Memory,
    /// A writer failed, and it is not known what was written.
    Writer,
}

impl From<AllocError> for Failure {
    ghost from_gives = { λ _ failure. failure ≡ failures.Memory };

    fn from(_error: AllocError) -> Failure {
        Failure::Memory
    }
}

impl From<io::Error> for Failure {
    ghost from_gives = { λ _ failure. failure ≡ failures.Writer };

    fn from(_error: io::Error) -> Failure {
        Failure::Writer
    }
}

/// Prints the line of a refused word, such as `usage reason=BadRole`.
///
/// # Errors
///
/// [`Failure::Writer`] where the writer fails.
pub fn refuse_word<W: Write>(out: &mut W, reason: Reason) -> Result<(), Failure>
    ensures { OnOk result (Appends (W.contents out.old) (W.contents out.new) (usage_line reason)) }
{
    write!(out, "usage reason={}\n", reason.name())?;
    Ok(())
}
