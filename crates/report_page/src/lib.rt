//! A report as one page of HTML, which loads nothing: the verdict, the picture of the board, and beside it a table of the findings and the tool
//! table.
//!
//! All lengths are whole picometres (pm), and are printed in millimetres.
#![tactic(auto)]

mod cells;
mod files;
mod frame;
mod laws;
mod page;
mod particulars;
mod rows;
mod script;
mod style;
mod tools;
mod verdict;

pub use frame::{
    BEFORE_RULES, BEFORE_SCRIPT, BEFORE_STYLE, BODY, CAPTION, COLUMNS, END, FIGURE, HEAD,
    TOOL_COLUMNS, TOOLS,
};
pub use laws::{each_number_once, each_row_has_its_marker};
pub use page::HtmlReport;
pub use script::SCRIPT;
pub use style::STYLE;
