//! Numbers, units, points, holes, rules and refusals, on a grid of whole picometres, and how lengths, holes and lists of lines are printed.
//!
//! All lengths are whole picometres (pm): 1 mm is 1,000,000,000 pm and 1 inch is 25,400,000,000 pm.
#![tactic(auto)]

mod decimal;
mod fault;
mod hole_words;
mod holes;
mod item_fail;
pub mod laws;
mod length_words;
mod lengths;
mod limits;
mod lines;
pub mod numbers;
mod optional;
mod points;
mod prefix;
mod profile;
mod rules;
mod span;
mod spelling;
mod text;
mod zero_filling;

pub use decimal::Dec;
pub use fault::{Fail, Fault, Reason, both};
pub use hole_words::{DrilledWords, name_of};
pub use holes::Hole;
pub use item_fail::ItemFail;
pub use length_words::{Millimetres, ShortMillimetres};
pub use lengths::{Unit, exact_lengths, from_digits, is_too_far, picometres, power_of_ten};
pub use limits::{ITEM_LIMIT, LINE_LIMIT, TEXT_LIMIT};
pub use lines::{Line, Lines};
pub use optional::OptionalInteger;
pub use points::{MAX_COORDINATE, Point, square, square_distance, square_length};
pub use profile::Profile;
pub use rules::Rules;
pub use span::{Span, is_in_span};
pub use spelling::write_mm;
pub use text::{Text, split_first};
pub use zero_filling::{Zeros, from_zeros};
