//! The program: packages, layers and drill files from a loader, and what is printed of them to a writer.
#![tactic(auto)]

mod certificates;
mod checks;
mod digests;
mod jobs;
mod load_package;
mod measures;
mod outlines;
mod packages;
mod parsed_words;
mod program;
mod refusals;
mod reports;
mod sentences;
mod tables;

pub use manifest::{Entry, Name, Role, read_manifest};
pub use package_check::{
    CheckText, File, FileSum, Numbered, PackageFault, PackageReader, PiecedFile, Report, Span,
    check_bytes, check_pieces, laws, write_report,
};
pub use parsed_words::{MeasureFormat, MeasureOrder, ReportFormat};
pub use program::run;
pub use ringcheck_files::{
    Kind, LoadFault, Loader, MAX_LIMIT, ReadFail, Sink, Status, Streams, path_in, read_all,
    read_into, rewrite_bytes, show_drill, show_drill_in, show_layer, show_layer_in,
};
