//! Counted reads, and whether one of them failed.

ghost use Rattle.std.specs.Prelude.{◌≡◌, ◌<◌, ◌+◌, ◌-◌, ◌^◌, true, false, OnOk, IfErr};
ghost use Rattle.ringcheck_files.specs.Inner.{IsNextRead, IsFresh};

use crate::ReadFail;
use std::io::{ErrorKind, Read};

/// How many reads in a row may be interrupted. One more in a row counts as a failed read, so that a reader which is interrupted each
/// time is left soon, however large the limit is.
const MAX_INTERRUPTIONS: u32 = 65_535;

/// The reads of a reader so far: how many there were, how many of the last ones were interrupted, and whether one of them failed.
#[derive(Drop)]
pub(crate) struct ReadCounter {
    made: u64,
    interrupted: u32,
    has_failed: bool,
}

impl ReadCounter {
    /// No read so far.
    pub(crate) fn new() -> ReadCounter
        ensures { IsFresh result }
    {
        ReadCounter {
            made: 0,
            interrupted: 0,
            has_failed: false,
        }
    }

    /// How many reads there were.
    pub(crate) fn made(&self) -> u64
        ensures { result ≡ self.now.made }
    {
        self.made
    }

    /// Reads once more, counts the read, and returns how many bytes it gave; `None` means that it was interrupted. Only this
    /// body says what a failed read is, as no clause of `Read` mentions failures.
    pub(crate) fn read<R: Read>(
        &mut self,
        reader: &mut R,
        block: &mut [u8],
    ) -> Result<Option<usize>, ReadFail>
        requires { self.old.made < 2 ^ 64 - 1 }
        ensures gives { IsNextRead (R.remaining reader.old) (R.remaining reader.new) block.new result }
        ensures made { self.new.made ≡ self.old.made + 1 }
        ensures goes_on { OnOk result (self.new.has_failed ≡ self.old.has_failed) }
        ensures fails { IfErr result (λ e. e ≡ ReadFail.ReadFault → self.new.has_failed ≡ true) }
    {
        self.made += 1;
        match reader.read(block) {
            Ok(count) => {
                self.interrupted = 0;
                Ok(Some(count))
            }
            Err(error)
                if error.kind() == ErrorKind::Interrupted && self.interrupted < MAX_INTERRUPTIONS =>
                {
                    self.interrupted += 1;
                    Ok(None)
                }
            Err(_) => {
                self.has_failed = true;
                Err(ReadFail::ReadFault)
            }
        }
    }
}
