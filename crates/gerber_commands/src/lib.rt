//! The commands of a Gerber text: how each is written, and what an item spells, a word without its `*` or what stands between `%` and `*%`.
#![tactic(auto)]

mod aperture;
mod canonical;
mod command;
mod fields;
mod laws;
mod negative;
mod number;
mod piece;
mod word;

pub use aperture::{is_name, max_sizes, min_sizes, standard_template};
pub use canonical::write_item;
pub use command::{
    Action, AttributeKind, Boxed, Command, Format, Interpolation, ItemCommands, ItemParts, Pieces,
    QuadrantMode, Sizes, Standard, StepRepeat, Template,
};
pub use laws::{
    answered_pieces, exact_words, items_in_profiles, wide_reads_more, written_pieces, written_words,
};
pub use negative::{contains, is_negative_comment, is_negative_image};
pub use number::{first_digits, signed};
pub use piece::read_extended_in;
pub use word::read_word;
