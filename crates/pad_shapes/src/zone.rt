//! Zones: boxes along the axes that say where a shape may cover a centre.

ghost use Rattle.std.specs.Prelude.{◌≡◌, ◌+◌, ◌≤◌, ◌&&◌, nat_le, true};
ghost use Rattle.grid_units.specs.Points.{GridPoint, abs_diff, square};
ghost use Rattle.pad_shapes.specs.Zones.{IsInZone, IsInset};

use grid_units::{Point, square, square_length};

/// A box along the axes: the least and the greatest coordinates of its points, in pm.
#[derive(Clone, Copy)]
pub struct Zone {
    /// The least x.
    pub left: i64,
    /// The greatest x.
    pub right: i64,
    /// The least y.
    pub bottom: i64,
    /// The greatest y.
    pub top: i64,
}

/// The zone of the points that lie at least a reach deep in the box round this centre with these half sides.
pub(crate) fn inset_zone(centre: Point, half_x: u64, half_y: u64, reach: u64) -> Zone
    requires x { half_x ≤ 5000000000000 }
    requires y { half_y ≤ 5000000000000 }
    requires reach { reach ≤ 20000000000000 }
    ensures { (p : GridPoint) → IsInset (abs_diff p.x centre.x) (abs_diff p.y centre.y) reach half_x half_y → IsInZone result p }
{
    let deep_x = half_x as i64 - reach as i64;
    let deep_y = half_y as i64 - reach as i64;
    Zone {
        left: centre.x() - deep_x,
        right: centre.x() + deep_x,
        bottom: centre.y() - deep_y,
        top: centre.y() + deep_y,
    }
}

/// The least distance of a zone's points from a centre along x, in pm.
pub(crate) fn distance_x(zone: &Zone, centre: Point) -> u64
    ensures { (p : GridPoint) → IsInZone zone.now p → result ≤ abs_diff p.x centre.x }
{
    let x = centre.x();
    if x < zone.left {
        zone.left.abs_diff(x)
    } else if zone.right < x {
        x.abs_diff(zone.right)
    } else {
        0
    }
}

/// The least distance of a zone's points from a centre along y, in pm.
pub(crate) fn distance_y(zone: &Zone, centre: Point) -> u64
    ensures { (p : GridPoint) → IsInZone zone.now p → result ≤ abs_diff p.y centre.y }
{
    let y = centre.y();
    if y < zone.bottom {
        zone.bottom.abs_diff(y)
    } else if zone.top < y {
        y.abs_diff(zone.top)
    } else {
        0
    }
}

/// Whether a step of `dx` along one axis and `dy` along the other is no longer than a length.
pub(crate) fn is_step_within(dx: u64, dy: u64, length: u64) -> bool
    requires { length ≤ 5000000000000 }
    ensures { result ≡ (nat_le dx length && (nat_le dy length && nat_le (square dx + square dy) (square length))) }
{
    dx <= length && dy <= length && square_length(dx, dy) <= square(length)
}

/// Whether no point lies in both zones.
pub(crate) fn are_apart(first: &Zone, second: &Zone) -> bool
    ensures { result ≡ true → (p : GridPoint) → IsInZone first.now p → IsInZone second.now p → ⊥ }
{
    if first.right < second.left {
        return true;
    }
    if second.right < first.left {
        return true;
    }
    if first.top < second.bottom {
        return true;
    }
    second.top < first.bottom
}
