//! Which sides of a contour are arcs. Lengths are in pm.

ghost use Rattle.std.specs.Prelude.{◌≡◌, ◌≤◌, ◌+◌, ◌-ℤ◌, unsigned_abs, Some};
ghost use Rattle.grid_units.specs.Laws.{square_length};
ghost use Rattle.grid_units.specs.Points.{IsCoordinate, square, square_distance};
ghost use Rattle.macro_shapes.specs.Primitives.{is_same};
ghost use Rattle.layer_features.specs.Arcs.{are_ends, are_radii, differ_little, end_square, is_arc, is_beside_chord, start_square};
ghost use Rattle.gerber_commands.specs.declared.command.QuadrantMode.TheVariants as quadrant;

use gerber_text::QuadrantMode;
use grid_units::{Point, square_distance, square_length};

/// How much the radii at the two ends of an arc may differ: 2 um.
const RADIUS_SLACK: u128 = 2_000_000;

/// The square of the longest radius of an arc that counts: 1 m.
const MAX_RADIUS_SQUARE: u128 = 1_000_000_000_000_000_000_000_000;

/// More than the roots of two squares that differ by the slack can make of their difference, the square of the slack left out.
const MOST_LEFT: u128 = 4_000_000_000_000_000_000;

/// Whether the roots of two numbers differ by at most the slack.
fn differ_little(more: u128, less: u128) -> bool
    requires { less ≤ square 1000000000000 }
    ensures { result ≡ differ_little more less }
{
    let rest = more.saturating_sub(less + RADIUS_SLACK * RADIUS_SLACK);
    rest <= MOST_LEFT && rest * rest <= 4 * RADIUS_SLACK * RADIUS_SLACK * less
}

/// Whether these are the squares of the radii of an arc at its ends.
fn are_radii(a: u128, b: u128) -> bool
    ensures { result ≡ are_radii a b }
{
    let (more, less) = (a.max(b), a.min(b));
    0 < less && more <= MAX_RADIUS_SQUARE && differ_little(more, less)
}

/// How far along an axis the end of an arc lies from the centre, where both are seen from its start.
fn offset(from: i64, to: i64, centre: i64) -> u64
    requires from { IsCoordinate from }
    requires to { IsCoordinate to }
    requires centre { IsCoordinate centre }
    ensures value { result ≡ unsigned_abs ((to -ℤ from) -ℤ centre) }
    ensures in_range { result ≤ 30000000000000 }
{
    (to - from - centre).unsigned_abs()
}

/// The square of the distance of two points that lie so far apart along the axes.
fn square_of(across: u64, up: u64) -> u128
    requires x { across ≤ 30000000000000 }
    requires y { up ≤ 30000000000000 }
    ensures { result ≡ square across + square up }
{
    square_length(across, up) as u128
}

/// The square of the radius of an arc at its start.
fn start_radius_square(centre: Point) -> u128
    ensures { result ≡ start_square centre }
{
    square_of(centre.x().unsigned_abs(), centre.y().unsigned_abs())
}

/// The square of the radius of an arc at its end.
fn end_radius_square(from: Point, to: Point, centre: Point) -> u128
    ensures { result ≡ end_square from to centre }
{
    let across = offset(from.x(), to.x(), centre.x());
    let up = offset(from.y(), to.y(), centre.y());
    square_of(across, up)
}

/// Whether an arc with these squares of its radii at its ends, and of its chord, leaves and reaches the chord on its outer side.
fn is_beside_chord(a: u128, b: u128, chord: u128) -> bool
    ensures { result ≡ is_beside_chord a b chord }
{
    a.max(b) - a.min(b) <= chord
}

/// The square of an arc's chord.
fn chord_square(from: Point, to: Point) -> u128
    ensures { result ≡ square_distance from to }
{
    square_distance(from, to) as u128
}

/// Whether both ends of an arc lie equally far from a centre at this offset from its start, and it lies beside its chord.
fn are_ends(from: Point, to: Point, centre: Point) -> bool
    ensures { result ≡ are_ends from to centre }
{
    let start = start_radius_square(centre);
    let end = end_radius_square(from, to, centre);
    are_radii(start, end) && is_beside_chord(start, end, chord_square(from, to))
}

/// Whether two points are one.
fn is_same(a: Point, b: Point) -> bool
    ensures { result ≡ is_same a b }
{
    a.x() == b.x() && a.y() == b.y()
}

/// Whether there is an arc from one point to another point in this mode of quadrants, round a centre that its start sees there.
pub(crate) fn is_arc(
    quadrant: Option<QuadrantMode>,
    from: Point,
    to: Point,
    centre: Option<Point>,
) -> bool
    ensures { result ≡ is_arc quadrant from to centre }
{
    match (quadrant, centre) {
        (Some(QuadrantMode::Multi), Some(centre)) => {
            !is_same(from, to) && are_ends(from, to, centre)
        }
        _ => false,
    }
}
