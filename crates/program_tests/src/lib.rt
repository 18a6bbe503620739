//! Tests of the program, and of its commands on single files and on words.
#![tactic(auto)]

#[cfg(test)]
mod explanations_calls;
#[cfg(test)]
mod rewrite_calls;
#[cfg(test)]
mod ringcheck_calls;
#[cfg(test)]
mod ringcheck_files_calls;
