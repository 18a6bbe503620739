//! A Gerber text and the commands that it spells: exactly these, or exactly its first fault, whole or in
//! pieces.
#![tactic(auto)]

mod fast_path;
mod item;
pub mod laws;
mod operation_fields;
mod placed;
mod reader;
mod sayable_items;
mod text_items;
mod writer;

pub use fast_path::{LeadingOperation, is_plot, leading_operation};
pub use gerber_commands::{
    Action, AttributeKind, Boxed, Command, Format, Interpolation, ItemCommands, ItemParts, Pieces,
    QuadrantMode, Sizes, Standard, StepRepeat, Template, is_name, is_negative_comment,
    is_negative_image, max_sizes, min_sizes, standard_template, write_item,
};
pub use item::{end_byte, is_end_item, is_ended, read_item_in};
pub use laws::{
    canonical_items, exact_texts, sayable_texts, spelled_commands, unique_reading, wide_reads_more,
};
pub use placed::{PassedOperation, PassedText, Placed};
pub use reader::{Kept, WordReader, read_kept, read_words};
pub use sayable_items::{is_sayable, sayable};
pub use text_items::{LeadingText, TextKind, leading_text};
pub use writer::{write_commands, write_placed};
