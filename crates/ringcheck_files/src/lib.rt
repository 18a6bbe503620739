//! What the program does with single files (their tables and canonical texts) and with words (their pages), and how a run ends.
#![tactic(auto)]

ghost use Rattle.std.specs.Prelude.{◌≡◌};
ghost use Rattle.ringcheck_files.specs.ExitCodes.{code_of};

mod containers;
mod explanation_pages;
mod fields;
mod file_jobs;
pub mod laws;
mod layer_writer;
mod lines;
mod loader;
mod outcomes;
mod pages;
mod proposed_manifest;
mod read_counter;
mod reader_bytes;
mod rewrite;
mod show;
mod sides;
mod sink;
mod word_list;

pub use containers::{Container, path_in};
pub use explanation_pages::explain;
pub use file_jobs::{FileJob, place_of_names, print, print_unread};
pub use loader::{ABOVE_LIMIT, FILE_LIMIT, LoadFault, Loader};
pub use outcomes::{Failure, Streams, refuse_word};
pub use proposed_manifest::print_manifest;
pub use reader_bytes::{MAX_LIMIT, ReadFail, read_all, read_into};
pub use rewrite::{Kind, rewrite_bytes};
pub use show::{show_drill, show_drill_in, show_layer, show_layer_in};
pub use sink::Sink;
pub use word_list::{explanation, explanation_in_any_case, near_word, words};

/// How a run ended.
#[derive(Clone, Copy, PartialEq, Eq)]
pub enum Status {
    /// Nothing was found, each finding is waived, or a command that looks for no findings is done.
    Pass,
    /// Some ring or gap is lacking, and is not waived.
    Findings,
    /// The manifest or a file is refused.
    Refused,
    /// The words are no command.
    Usage,
    /// Something cannot be read or written, or memory ran out.
    Device,
}

impl Status {
    /// The exit status of the program: 0 for `Pass`, 1 for `Findings`, 2 for `Refused`, 3 for `Usage` and 4 for `Device`.
    pub fn code(self) -> u8
        ensures { result ≡ code_of self }
    {
        match self {
            Status::Pass => 0,
            Status::Findings => 1,
            Status::Refused => 2,
            Status::Usage => 3,
            Status::Device => 4,
        }
    }
}
