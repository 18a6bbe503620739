//! The names in a manifest.

ghost use Rattle.std.specs.Prelude.{◌≡◌, IfOk, ℕ, List, string_bytes};

use std::alloc::{AllocError, Global};
use std::marker::Model;

/// A name in a manifest: what reports call a file, or the name by which it is loaded. Contracts see the list of its bytes.
#[derive(Drop)]
pub struct Name {
    string: String,
}

impl Model for Name {
    ghost Value = { List ℕ };

    ghost view = { λ name. string_bytes name.string };
}

impl Name {
    /// A name with a copy of this text.
    ///
    /// # Errors
    ///
    /// An `AllocError` where there is no memory for the copy.
    pub fn new(alloc: Global, text: &str) -> Result<Name, AllocError>
        ensures { IfOk result (λ name. name ≡ text.now) }
    {
        Ok(Name {
            string: String::from_str(alloc, text)?,
        })
    }

    /// The name as a text.
    pub fn as_str(&self) -> &str
        ensures { result.now ≡ self.now }
    {
        self.string.as_str()
    }
}
