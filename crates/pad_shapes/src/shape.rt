//! The trait of pad shapes: their points, what they cover, and how far they extend.

ghost use Rattle.std.specs.Prelude.{◌≡◌, ◌≤◌, ℕ, ℤ, Bool, false, ◌↔◌, IsTrue, IfSome, unsigned_abs};
ghost use Rattle.grid_units.specs.Points.{GridPoint};
ghost use Rattle.pad_shapes.specs.Shapes.{IsHalfSide, IsReach, max_reach, IsAxisAligned, covers_both_ends, ContainsCovered, ContainsCoveredSlots, CoveredIsBetween, HasExtent};
ghost use Rattle.pad_shapes.specs.Zones.{BoundsCentres, CoversNone};

use crate::zone::Zone;
use grid_units::Point;

/// The largest radius of a pad and the largest half of a side, in pm: five metres.
pub const MAX_HALF_SIDE: i64 = 5_000_000_000_000;

/// A shape of copper.
///
/// Its meaning is its points, the centres that it covers with a reach round them, and the least and the
/// greatest x of its points. It holds each point within the reach of a centre that it covers. It also holds each
/// point within the reach of a slot along an axis, where it covers both ends of the slot.
pub trait PadShape {
    /// The grid points of the shape.
    ghost points: { Self → GridPoint → Type 0 };

    /// Whether it covers a centre with a reach round it, in pm.
    ghost covers: { Self → GridPoint → ℕ → Bool };

    /// The least x of its points.
    ghost left: { Self → ℤ };

    /// The greatest x of its points.
    ghost right: { Self → ℤ };

    /// Whether it covers the hole's centre with this reach round it, in pm. The reach is from 0 to
    /// 20,000,000,000,000 pm, twenty metres.
    fn covers(&self, hole: Point, reach: i64) -> bool
        requires { IsReach reach }
        ensures { result ≡ covers self.now hole (unsigned_abs reach) };

    /// Whether it covers both ends of a slot along an axis with this reach round them, in pm. The reach is from 0
    /// to 20,000,000,000,000 pm, twenty metres.
    fn covers_slot(&self, from: Point, to: Point, reach: i64) -> bool
        requires along { IsAxisAligned from to }
        requires reach { IsReach reach }
        ensures { result ≡ covers_both_ends covers self.now from to (unsigned_abs reach) }
    {
        self.covers(from, reach) && self.covers(to, reach)
    }

    /// The least x of its points, in pm.
    fn left(&self) -> i64
        ensures { result ≡ left self.now };

    /// The greatest x of its points, in pm.
    fn right(&self) -> i64
        ensures { result ≡ right self.now };

    /// A zone that holds each centre that it covers with this reach or a greater one; `None` where it names none. The
    /// reach is in pm, at most 20,000,000,000,000.
    fn zone(&self, reach: u64) -> Option<Zone>
        requires { reach ≤ max_reach }
        ensures { IfSome result (BoundsCentres covers self.now reach) }
    {
        None
    }

    /// Whether it may cover a centre in the zone with this reach or a greater one. `true` promises nothing.
    fn may_cover(&self, zone: &Zone, reach: u64) -> bool
        ensures { result ≡ false → CoversNone covers self.now reach zone.now }
    {
        true
    }

    /// Each point within the reach of a covered centre is a point of the shape.
    ghost holds: { ContainsCovered points covers };

    /// Each point within the reach of a slot along an axis is a point of the shape, where both ends are covered.
    ghost holds_slots: { ContainsCoveredSlots points covers };

    /// A covered centre lies between the least and the greatest x.
    ghost between: { CoveredIsBetween covers left right };

    /// The least and the greatest x are those of its points.
    ghost extent: { HasExtent points left right };
}

/// Whether a length is from 1 pm to five metres.
pub fn is_half_side(length: i64) -> bool
    ensures { IsTrue result ↔ IsHalfSide length }
{
    1 <= length && length <= MAX_HALF_SIDE
}
