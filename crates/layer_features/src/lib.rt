//! What a Gerber layer has: what its commands flash, draw and enclose, as features in a profile.
//! In the wide profile further copper counts as pads: flashes of macros that have a shape, and convex contours of regions.
#![tactic(auto)]

mod arc;
mod clearing;
mod contour;
mod copies;
mod copper;
mod counts;
mod drawing;
mod feature;
mod forget;
mod keep;
mod kept_features;
mod laws;
mod part;
mod plotter;
mod turns;

pub use copper::{Copper, CopperParts};
pub use counts::FeatureCounts;
pub use feature::{Feature, FeatureKind, into_pads, strict_view};
pub use keep::Keep;
pub use laws::{
    contours_are_inside_edges, flashed_shapes_are_in_primitives, uncleared_positions, wide_pads,
};
pub use plotter::Setting;
