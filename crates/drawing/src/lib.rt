//! A board drawn as a page: a title, a panel for each copper file, a scale and a legend, as SVG.
//!
//! All lengths are whole picometres (pm), and are printed in millimetres.
#![tactic(auto)]

mod bounds;
mod columns;
mod draw;
mod edge_bounds;
mod extent;
mod layout;
mod page;
mod page_layout;
mod panels;
mod places;
mod words;

pub use draw::{Drawing, Svg};
