//! The trait of a loader, which gives the bytes of files by their names, and the limit of a file.

ghost use Rattle.std.specs.Prelude.{◌≡◌, ◌++◌, ◌<◌, ◌≤◌, ◌⊎◌, ◌↔◌, ◌-◌, ◌^◌, ℕ, List, IfOk, IfErr, OnOk, length};
ghost use Rattle.ringcheck_files.specs.LoaderRelation.{path_in};

use crate::Sink;
use grid_units::{Fault, Reason};
use std::alloc::Global;
use thiserror::Error;

/// The most bytes of a file.
pub const FILE_LIMIT: u64 = 268_435_456;

/// The fault of a text above its limit: TooLong at place 0 and byte 0.
pub const ABOVE_LIMIT: Fault = Fault {
    place: 0,
    byte: 0,
    reason: Reason::TooLong,
};

/// Why a file was not loaded.
#[derive(Clone, Copy, Debug, Error)]
pub enum LoadFault {
    /// The file cannot be read.
    #[error("the file cannot be read")]
    Device,
    /// The file has more bytes than the limit.
    #[error("too many bytes")]
    TooLong,
    /// There is no memory.
    #[error("out of memory")]
    Memory,
}

/// Gives the bytes of files by their names. Which bytes a name may stand for is one relation, which no call changes.
pub trait Loader {
    /// The bytes that a name may stand for.
    ghost has: { Self → List ℕ → List ℕ → Type 0 };

    /// How many loads have failed so far.
    ghost failed: { Self → ℕ };

    /// Hands all bytes of a file to a sink, in order and in pieces of any size, if there are at most `limit`. After an error the sink may
    /// have taken the first of them.
    ///
    /// # Errors
    ///
    /// [`LoadFault::Device`] where the file cannot be read, which is then counted as a failure; [`LoadFault::TooLong`] where it
    /// has more than `limit` bytes; [`LoadFault::Memory`] where there is no memory, also where the sink has none.
    fn load_into<S: Sink>(
        &mut self,
        alloc: Global,
        name: &str,
        limit: u64,
        sink: &mut S,
    ) -> Result<(), LoadFault>
        ensures keeps { (n b : List ℕ) → has self.new n b ↔ has self.old n b }
        ensures gives { OnOk result ((bytes : List ℕ) × has self.old name.now bytes × (length bytes ≤ limit) × ((start : S) (text : List ℕ) → S.has_taken start sink.old text → S.has_taken start sink.new (text ++ bytes))) }
        ensures too_long { IfErr result (λ e. e ≡ LoadFault.TooLong → (b : List ℕ) × has self.old name.now b × (limit < length b)) }
        ensures counts { failed self.old ≤ failed self.new }
        ensures device { IfErr result (λ e. e ≡ LoadFault.Device → (failed self.old < failed self.new) ⊎ (failed self.new ≡ 2 ^ 64 - 1)) };

    /// All bytes of a file, if there are at most `limit`. A loader needs no body of its own.
    ///
    /// # Errors
    ///
    /// [`LoadFault::Device`] where the file cannot be read, which is then counted as a failure; [`LoadFault::TooLong`] where it
    /// has more than `limit` bytes; [`LoadFault::Memory`] where there is no memory.
    fn load(&mut self, alloc: Global, name: &str, limit: u64) -> Result<Vec<u8>, LoadFault>
        ensures keeps { (n b : List ℕ) → has self.new n b ↔ has self.old n b }
        ensures gives { IfOk result (λ v. has self.old name.now v.items × (length v.items ≤ limit)) }
        ensures too_long { IfErr result (λ e. e ≡ LoadFault.TooLong → (b : List ℕ) × has self.old name.now b × (limit < length b)) }
        ensures counts { failed self.old ≤ failed self.new }
        ensures device { IfErr result (λ e. e ≡ LoadFault.Device → (failed self.old < failed self.new) ⊎ (failed self.new ≡ 2 ^ 64 - 1)) }
    {
        let mut bytes = Vec::new(alloc);
        self.load_into(alloc, name, limit, &mut bytes)?;
        Ok(bytes)
    }

    /// From now on names are taken from this folder, as [`path_in`](crate::path_in) says. A loader without folders needs no body of its own.
    ///
    /// # Errors
    ///
    /// [`LoadFault::Memory`] where there is no memory, and [`LoadFault::Device`] where the loader has no folders.
    fn enter(&mut self, _alloc: Global, folder: &str) -> Result<(), LoadFault>
        ensures entered { OnOk result ((n b : List ℕ) → has self.new n b ↔ has self.old (path_in folder.now n) b) }
        ensures counts { failed self.new ≡ failed self.old }
    {
        let _folder = folder;
        Err(LoadFault::Device)
    }

    /// The folder that was entered, so that it can be named. A loader without folders needs no body of its own.
    fn folder(&self) -> Option<&str> {
        None
    }

    /// Whether a name is that of a folder, as far as the loader knows. It is asked where nothing can be done with a file, so that this can be
    /// said. A loader without folders needs no body of its own.
    fn is_folder(&self, _name: &str) -> bool {
        false
    }

    /// How many loads have failed, up to the greatest `u64`.
    fn failures(&self) -> u64
        ensures { result ≡ failed self.now };
}
