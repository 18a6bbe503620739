//! A digest of printed texts, by which answers are compared. It takes no memory.

use std::fmt;

/// The digest of the texts that were written to it.
#[derive(Drop)]
pub(crate) struct Digest {
    state: u64,
}

impl Digest {
    pub(crate) fn new() -> Digest {
        Digest {
            state: 14_695_981_039_346_656_037,
        }
    }

    pub(crate) fn take(&mut self, bytes: &[u8]) {
        for byte in bytes {
            self.state = (self.state ^ u64::from(*byte)).wrapping_mul(1_099_511_628_211);
        }
    }

    pub(crate) fn value(&self) -> u64 {
        self.state
    }
}

impl fmt::Write for Digest {
    fn write_str(&mut self, s: &str) -> fmt::Result {
        self.take(s.as_bytes());
        Ok(())
    }
}
