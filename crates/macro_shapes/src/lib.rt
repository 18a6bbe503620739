//! Macros of a Gerber text: the exact values of their variables, expressions and primitives.
//!
//! A value is a whole number of 10^-8 of the file's unit. What has no exact value is not judged, and never refused.
#![tactic(auto)]

mod arithmetic;
mod expression;
mod fields;
pub mod laws;
mod outline;
mod piece;
mod polygon;
mod primitive;
mod reading;
mod shape;
mod sign;
mod variables;

pub use expression::value;
pub use fields::{Fields, Macro, Values, read_macro};
pub use outline::{has_many_stops, polygon_round};
pub use piece::Code;
pub use polygon::polygon as regular_polygon;
pub use primitive::{Primitive, Primitives, read_primitives, turned_rectangle};
pub use shape::{is_centred_disc, macro_shape};
pub use sign::{Addition, Multiplication, Sign};
pub use variables::{MAX_VARIABLES, Variables};
