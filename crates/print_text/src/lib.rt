//! The text of a report for people: each ring or gap of a package that is below its rule, and why.
//!
//! All lengths are whole picometres (pm), and are printed in millimetres without zeros at the end.
#![tactic(auto)]

mod drilling;
mod fewer;
mod kind;
mod lines;
mod measure_lines;
mod measures;
mod met_lines;
mod report_text;
mod runs;
mod summary;
mod tallies;
mod words;

pub use drilling::Drilling;
pub use fewer::FewerWords;
pub use kind::words_for_cause;
pub use lines::{RulesWords, WaivedWords};
pub use measures::MeasureText;
pub use report_text::{Particulars, ReportText};
pub use tallies::no_acceptances;
