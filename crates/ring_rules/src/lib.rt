//! The rules for the holes of a board: a ring of copper round each plated hole, and a gap between each two holes.
//!
//! All lengths are whole picometres (pm).
#![tactic(auto)]

mod cell_size;
mod cells;
mod clashes;
mod cores;
mod finding;
mod gaps;
mod index;
pub mod laws;
mod layer_search;
mod layout;
mod limits;
mod marks;
mod near;
mod pads;
mod regions;
mod ring_index;
mod rings;
mod spot_list;
mod spots;
mod tree;
mod tree_search;

pub use cores::{clear_of, core_distance_x, core_distance_y};
pub use finding::{Drilled, Finding, is_oblique, is_refused_slot};
pub use gaps::gap_findings;
pub use grid_units::Span;
pub use index::HoleIndex;
pub use layer_search::LayerSearch;
pub use layout::entry_zone;
pub use limits::Limits;
pub use near::{limits_of, near_zone};
pub use ring_index::RingIndex;
pub use rings::{layer_findings, mean_zone_size, ring_findings};
