//! Lengths that no hole of a list exceeds.

ghost use Rattle.std.specs.Prelude.{◌≤◌};

/// Lengths that no hole of a list exceeds, in pm: the radius, and the length of the core along each axis.
#[derive(Clone, Copy)]
pub struct Limits {
    pub(crate) radius: u64,
    pub(crate) x: u64,
    pub(crate) y: u64,
    ghost radius_in_range: { radius ≤ 5000000000000 },
    ghost x_in_range: { x ≤ 20000000000000 },
    ghost y_in_range: { y ≤ 20000000000000 },
}
