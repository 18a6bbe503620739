//! Tests of the check of a package, and of what is measured, reported and drawn of a whole board.
#![tactic(auto)]

#[cfg(test)]
mod board_report_calls;
#[cfg(test)]
mod flashes_calls;
#[cfg(test)]
mod measure_calls;
#[cfg(test)]
mod package_check_calls;
#[cfg(test)]
mod unplated_calls;
