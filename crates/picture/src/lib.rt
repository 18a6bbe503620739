//! The panel of a copper layer, as SVG: what it draws, its pads, its flashes that are no pads, the holes, and the findings under the rules.
//!
//! All lengths are whole picometres (pm), and are printed in millimetres.
#![tactic(auto)]

mod copper;
mod cut;
mod elements;
mod findings;
mod frame;
mod holes;
mod laws;
mod names;
mod outlines;
mod pads;
mod panel;
mod rounded_pads;
mod scene;
mod titles;

pub use frame::{Frame, Pen, Place};
pub use laws::{crosses_of_rows, escaped_names, one_path_per_size, strict_layers};
pub use names::Escaped;
pub use outlines::{long_radius, shown_outline};
pub use panel::Panel;
pub use scene::{DrawnFinding, LayerCopper, Scene, scene_of};
