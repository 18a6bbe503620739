//! Tests of what is read beside layers: the command line, drill files, manifests, and what is proposed for one.
#![tactic(auto)]

#[cfg(test)]
mod command_line_calls;
#[cfg(test)]
mod contradicted_roles;
#[cfg(test)]
mod drill_pieces;
#[cfg(test)]
mod drill_profiles;
#[cfg(test)]
mod drill_text_calls;
#[cfg(test)]
mod drill_writing;
#[cfg(test)]
mod file_kinds_calls;
#[cfg(test)]
mod manifest_calls;
#[cfg(test)]
mod mixed_files;
#[cfg(test)]
mod proposals_calls;
#[cfg(test)]
mod proposed_roles_calls;
#[cfg(test)]
mod unplated_files;
