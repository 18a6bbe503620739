//! The lines of an Excellon drill file, and the commands that they spell.
#![tactic(auto)]

mod canonical;
mod command;
mod header;
mod hole_lines;
mod laws;
mod line;
mod line_reader;
mod plating;
mod repeat;
mod route;
mod tools;

pub use canonical::{is_sayable, write_line};
pub use command::{
    CoordinateFormat, Coordinates, DrillCommand, DrillFormat, OptionalDec, Part, Repeat, Settings,
};
pub use header::{file_format, read_digits};
pub use hole_lines::coordinate_of;
pub use laws::line_grammar;
pub use line::read_line;
pub use line_reader::LineReader;
pub use plating::{Plating, said_plating, says_plated, says_unplated};
