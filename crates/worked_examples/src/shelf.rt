//! The files of an example, as a loader.

ghost use Rattle.std.specs.Prelude.{◌≡◌, ◌≢◌, ◌≤◌, ◌<◌, ◌++◌, ℕ, List, IfErr, OnOk, length};

use crate::draft::Draft;
use ringcheck::{LoadFault, Loader, Sink, path_in};
use std::alloc::{AllocError, Global};

/// A file and its text.
#[derive(Drop)]
struct Held {
    name: String,
    draft: Draft,
}

/// The files of an example, after the base texts that all examples share. The last file is the one being written.
#[derive(Drop)]
pub(crate) struct Shelf {
    files: Vec<Held>,
    bases: usize,
    /// The folder that was entered.
    folder: Option<String>,
    failures: u64,
}

impl Shelf {
    pub(crate) fn new(alloc: Global) -> Shelf {
        Shelf {
            files: Vec::new(alloc),
            bases: 0,
            folder: None,
            failures: 0,
        }
    }

    /// Begins a file with a text.
    pub(crate) fn begin(
        &mut self,
        alloc: Global,
        name: &str,
        draft: Draft,
    ) -> Result<(), AllocError> {
        let name = String::from_str(alloc, name)?;
        self.files.push(Held { name, draft })?;
        Ok(())
    }

    /// Makes all files so far base texts.
    pub(crate) fn keep_as_bases(&mut self) {
        self.bases = self.files.len();
    }

    /// Removes all files but the base texts, and leaves the folder that was entered.
    pub(crate) fn clear(&mut self) {
        self.files.truncate(self.bases);
        self.folder = None;
    }

    /// The name under which a file is looked for.
    fn path_of(&self, alloc: Global, name: &str) -> Result<String, AllocError> {
        match &self.folder {
            Some(folder) => path_in(alloc, folder.as_str(), name),
            None => String::from_str(alloc, name),
        }
    }

    /// The file that is being written.
    pub(crate) fn last(&mut self) -> Option<&mut Draft> {
        match self.files.last_mut() {
            Some(held) => Some(&mut held.draft),
            None => None,
        }
    }

    /// The text of the last file begun under this name.
    pub(crate) fn text_of(&self, alloc: Global, name: &str) -> Result<Option<Vec<u8>>, AllocError> {
        for held in self.files.iter().rev() {
            if held.name.as_str() == name {
                return Ok(Some(held.draft.text(alloc)?));
            }
        }
        Ok(None)
    }
}

/// Hands a text to a sink in two pieces.
fn take_in_two<S: Sink>(text: &[u8], sink: &mut S) -> Result<(), AllocError>
    ensures { (start : S) (before : List ℕ) → S.has_taken start sink.old before → OnOk result (S.has_taken start sink.new (before ++ text.now)) }
{
    let (first, rest) = text.split_at(text.len() / 2);
    sink.take(first)?;
    sink.take(rest)
}

/// Hands a text to a sink in two pieces, if it has at most `limit` bytes.
fn hand_over<S: Sink>(text: &[u8], limit: u64, sink: &mut S) -> Result<(), LoadFault>
    ensures gives { OnOk result ((length text.now ≤ limit) × ((start : S) (before : List ℕ) → S.has_taken start sink.old before → S.has_taken start sink.new (before ++ text.now))) }
    ensures fails { IfErr result (λ e. e ≢ LoadFault.Device) }
    ensures too_long { IfErr result (λ e. e ≡ LoadFault.TooLong → limit < length text.now) }
{
    if text.len() as u64 > limit {
        return Err(LoadFault::TooLong);
    }
    match take_in_two(text, sink) {
        Ok(()) => Ok(()),
        Err(_) => Err(LoadFault::Memory),
    }
}

impl Loader for Shelf {
    ghost has = { λ s n b. Unit {0} };

    ghost failed = { λ s. s.failures };

    fn load_into<S: Sink>(
        &mut self,
        alloc: Global,
        name: &str,
        limit: u64,
        sink: &mut S,
    ) -> Result<(), LoadFault> {
        let Ok(path) = self.path_of(alloc, name) else {
            return Err(LoadFault::Memory);
        };
        match self.text_of(alloc, path.as_str()) {
            Ok(Some(text)) => hand_over(text.as_slice(), limit, sink),
            Ok(None) => {
                self.failures = self.failures.saturating_add(1);
                Err(LoadFault::Device)
            }
            Err(_) => Err(LoadFault::Memory),
        }
    }

    fn enter(&mut self, alloc: Global, folder: &str) -> Result<(), LoadFault> {
        match self.path_of(alloc, folder) {
            Ok(folder) => {
                self.folder = Some(folder);
                Ok(())
            }
            Err(_) => Err(LoadFault::Memory),
        }
    }

    fn folder(&self) -> Option<&str> {
        match &self.folder {
            Some(folder) => Some(folder.as_str()),
            None => None,
        }
    }

    fn failures(&self) -> u64 {
        self.failures
    }
}
