//! The check of a package: each file is read, and the rules are applied to what the files say.
#![tactic(auto)]

mod boards;
mod checking;
mod contents;
mod fewer;
mod indexed_holes;
pub mod laws;
mod lines;
mod measure;
mod open_copper;
mod open_file;
mod package;
mod package_reader;
mod package_report;
mod pad_size;
mod readers;
mod slots;
mod source_file;
mod text;

pub use board::{Board, FileSum, Numbered, hole_count};
pub use checking::PackageCheck;
pub use fewer::fewer_in_wide;
use grid_units::Fault;
pub use layer_features::Keep;
pub use lines::FileLines;
pub use manifest::{Role, Said};
pub use measure::measure_bytes;
pub use open_copper::OpenCopper;
pub use open_file::OpenFile;
pub use package::{check_bytes, check_pieces, layer_count, read_package};
pub use package_reader::PackageReader;
pub use package_report::Report;
pub use ring_rules::Span;
pub use text::{CheckText, write_report};
use thiserror::Error;

/// A file of a package.
#[derive(Clone, Copy)]
pub struct File<'a> {
    pub role: Role,
    pub name: &'a str,
    /// What else is said of it beside its text: of a copper file nothing.
    pub said: Said,
    pub bytes: &'a [u8],
}

/// A file of a package whose bytes come in pieces.
#[derive(Clone, Copy)]
pub struct PiecedFile<'a> {
    pub role: Role,
    pub name: &'a str,
    /// What else is said of it beside its text: of a copper file nothing.
    pub said: Said,
    pub pieces: &'a [&'a [u8]],
}

/// Why a package has no report.
#[derive(Clone, Copy, Debug, PartialEq, Eq, Error)]
pub enum PackageFault {
    /// Memory ran out.
    #[error("out of memory")]
    Memory,
    /// The file at this index of the list, from 0, is refused.
    #[error("the file at index {index} is refused")]
    File { index: usize, fault: Fault },
}
