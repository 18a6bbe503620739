//! Why one hole lacks its ring.

ghost use Rattle.std.specs.Prelude.{◌≡◌, ◌+◌, ◌≤◌, IfOk};
ghost use Rattle.grid_units.specs.Points.{IsCoordinate, abs_diff, max_coordinate};
ghost use Rattle.pad_shapes.specs.Pads.{pad_covers};
ghost use Rattle.report.specs.Causes.{half_apart, hole_shape, is_small};

use board::DepthShape;
use grid_units::{Hole, Point, Rules};
use pad_shapes::{Pad, PadShape, Rounded};
use std::alloc::{AllocError, Global};

/// The points of a hole as a rounded polygon: of one corner where the hole is round, of two where it is a slot.
pub(crate) fn hole_shape(alloc: Global, hole: &Hole) -> Result<Rounded, AllocError>
    ensures { IfOk result (λ shape. shape ≡ hole_shape hole.now) }
{
    let mut others = Vec::new(alloc);
    if !hole.is_round() {
        others.push(hole.to())?;
    }
    Ok(Rounded::new(hole.from(), others, hole.radius()).unwrap())
}

/// Half the distance of two coordinates in pm, rounded up.
fn half_apart(a: i64, b: i64) -> u64
    requires a { IsCoordinate a }
    requires b { IsCoordinate b }
    ensures value { result ≡ half_apart a b }
    ensures in_range { result ≤ max_coordinate }
{
    a.abs_diff(b).div_ceil(2)
}

/// Of the two coordinates at this distance from a middle, the one nearer to 0.
fn inner_end(middle: i64, half: u64) -> i64
    requires middle { IsCoordinate middle }
    requires half { half ≤ max_coordinate }
    ensures away { abs_diff result middle ≡ half }
    ensures in_range { IsCoordinate result }
{
    if middle < 0 {
        middle + half as i64
    } else {
        middle - half as i64
    }
}

/// One end of a hole along an axis if its middle stood at a point: of the coordinates of its two ends, those
/// nearer to 0. The other end may lie beyond the grid.
fn end_at(hole: &Hole, at: Point) -> Point
    ensures x { abs_diff result.x at.x ≡ half_apart hole.now.from.x hole.now.to.x }
    ensures y { abs_diff result.y at.y ≡ half_apart hole.now.from.y hole.now.to.y }
{
    let (from, to) = (hole.from(), hole.to());
    let x = inner_end(at.x(), half_apart(from.x(), to.x()));
    let y = inner_end(at.y(), half_apart(from.y(), to.y()));
    Point::new(x, y).unwrap()
}

/// Whether a pad covers a point with a reach of the hole's radius and the ring together.
fn covers_ring(pad: &Pad, at: Point, hole: &Hole, rules: Rules) -> bool
    ensures { result ≡ pad_covers pad.now at (hole.now.radius + rules.ring) }
{
    pad.covers(at, hole.radius() + rules.ring())
}

/// Whether a pad is too small for a hole with its ring, wherever the hole stands. A pad reaches as far on each side of its middle, so
/// with the hole's middle there it covers both ends where it covers one.
pub(crate) fn is_small(pad: &Pad, hole: &Hole, rules: Rules) -> bool
    ensures { result ≡ is_small rules.ring hole.now pad.now }
{
    !covers_ring(pad, end_at(hole, pad.middle()), hole, rules)
}
