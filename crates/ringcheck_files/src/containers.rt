//! Folders and zip archives: names in a folder, and what stands where a file is wanted, and holds files.

ghost use Rattle.std.specs.Prelude.{◌≡◌, Some, IfOk, string_bytes};
ghost use Rattle.ringcheck_files.specs.Containers as containers;
ghost use Rattle.ringcheck_files.specs.Containers.{container_sentence};
ghost use Rattle.ringcheck_files.specs.LoaderRelation as relations;

use std::alloc::{AllocError, Global};
use std::fmt;
use std::fmt::{Display, Formatter};

/// What holds files, by the name under which one file was looked for. Its text is a sentence that says so, and what to do.
#[derive(Clone, Copy)]
pub enum Container<'a> {
    /// A folder.
    Folder(&'a str),
    /// A zip archive.
    Archive(&'a str),
}

/// The slash between a folder's path and what stands in the folder; none after a path that ends with one.
pub(crate) fn slash_after(path: &str) -> &'static str
    ensures { result.now ≡ containers.slash_after path.now }
{
    if path.as_bytes().ends_with(b"/") {
        ""
    } else {
        "/"
    }
}

impl Display for Container<'_> {
    ghost output = { λ it. Some (container_sentence it) };

    fn fmt<W: fmt::Write>(&self, f: &mut Formatter<W>) -> fmt::Result {
        match self {
            Container::Folder(path) => {
                let slash = slash_after(path);
                write!(
                    f,
                    "{path} is a folder, but ringcheck reads files: name the files in it, as in ringcheck manifest {path}{slash}*"
                )
            }
            Container::Archive(path) => write!(
                f,
                "{path} is a zip archive: unpack it, and name the files in it"
            ),
        }
    }
}

/// Whether a name is taken from a folder: it is not empty, and does not begin with a slash.
fn is_relative(name: &str) -> bool
    ensures { result ≡ relations.is_relative name.now }
{
    match name.as_bytes() {
        [] => false,
        [first, ..] => *first != b'/',
    }
}

/// The name under which a file is looked for that is named in a folder. A name that is absolute, or empty, stays as it is, and so does each
/// name in a folder with an empty name.
///
/// # Errors
///
/// An `AllocError` where there is no memory.
pub fn path_in(alloc: Global, folder: &str, name: &str) -> Result<String, AllocError>
    ensures { IfOk result (λ path. string_bytes path ≡ relations.path_in folder.now name.now) }
{
    if folder.is_empty() || !is_relative(name) {
        return String::from_str(alloc, name);
    }
    format!(in alloc; "{folder}{}{name}", slash_after(folder))
}
