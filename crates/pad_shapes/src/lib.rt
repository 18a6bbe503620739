//! Shapes of pads: discs, rectangles, obrounds, and rounded polygons; and what a layer is listed and drawn as beside them.
//!
//! A shape is a set of points of the grid of whole picometres (pm). Whether it covers a centre with a reach is a
//! test of distances; where it does, each point within the reach is a point of the shape. So a pad that covers both ends of a hole holds each
//! point of the hole and of the ring round it, whatever the hole's angle.
#![tactic(auto)]

mod disc;
mod drawn;
mod edges;
mod holding;
pub mod hole_laws;
pub mod laws;
mod obround;
mod pad;
mod placed;
mod polygon;
mod rect;
mod relative;
mod rounded;
mod row;
mod shape;
mod shared;
mod wide_pad;
mod zone;

pub use disc::Disc;
pub use drawn::Drawn;
pub use holding::{SlotShape, covers_hole};
pub use obround::Obround;
pub use pad::Pad;
pub use placed::PlacedRounded;
pub use rect::Rect;
pub use rounded::{MAX_CORNERS, Rounded};
pub use row::{FeatureRow, RowKind, Why};
pub use shape::{MAX_HALF_SIDE, PadShape};
pub use shared::SharedRounded;
pub use wide_pad::WidePad;
pub use zone::Zone;
