//! Excellon drill files: their commands, and the holes that these drill.
#![tactic(auto)]

mod drill;
mod fast_path;
mod kept;
pub mod laws;
mod platings;
mod reader;
mod state;
mod writer;

pub use drill::Drill;
pub use drill_lines::{Coordinates, DrillCommand, DrillFormat, Plating};
pub use kept::Keep;
pub use laws::{
    drill_texts, drilled_holes, equal_commands, faults_stay, first_faults, mixed_files,
    readings_in_profiles, readings_of_kinds, sayable_texts, strict_profile, text_grammar,
    unique_reading, unplated_files, wide_grammar, wide_reads_more,
};
pub use platings::{PlatingKind, Tool};
pub use reader::{DrillReader, read_drill};
pub use writer::{drill_sayable, write_drill};
