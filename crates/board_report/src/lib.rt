//! The report on a board, and its measure: the least ring of each layer, drill file and diameter, the least gap, the drill files whose
//! coordinates seem to be off by a factor, and the greatest ring and the greatest gap under which its check has no findings.
//!
//! All lengths are whole picometres (pm).
#![tactic(auto)]

mod board_report;
mod gaps;
mod heads;
mod measure;
mod places;
mod rings;
mod rows;
mod units;

pub use board_report::report_on;
pub use measure::measure_board;
pub use places::{FileHoles, files_with_holes, place_among, place_of};
pub use report::{BoardReport, Measure};
