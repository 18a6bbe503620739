//! How deep a point and a hole lie in a shape.

ghost use Rattle.std.specs.Prelude.{◌≡◌, ◌<ℤ◌, pos, IfSome};
ghost use Rattle.grid_units.specs.Points.{GridPoint};
ghost use Rattle.pad_shapes.specs.Shapes.{max_reach};
ghost use Rattle.board.specs.Depths.{IsDepth, IsDepthOfHole, CoversLess};
ghost use Rattle.board.specs.Hulls.{IsHullOf};

use crate::hull::Hull;
use grid_units::{Hole, Point};
use pad_shapes::PadShape;

/// A shape with a depth of each point.
///
/// The depth of a point is the greatest reach with which the shape covers it, in whole pm. What is covered with a
/// reach is covered with each lesser one. Below 0 the point is covered with no reach at all.
pub trait DepthShape: PadShape {
    /// Its middle, such as the centre of a pad.
    ghost middle: { Self → GridPoint };

    /// How deep the point lies in it, in pm: less than twenty metres. Below 0 the point is not covered, and the number says no more.
    fn depth(&self, at: Point) -> i64
        ensures exact { IsDepth Self.covers self.now at result }
        ensures in_range { result <ℤ pos max_reach };

    /// Its middle, such as the centre of a pad.
    fn middle(&self) -> Point
        ensures { result ≡ middle self.now };

    /// How deep its own middle lies in it, in pm.
    fn depth_at_middle(&self) -> i64
        ensures { IsDepth Self.covers self.now (middle self.now) result }
    {
        self.depth(self.middle())
    }

    /// A hull of it; `None` where it names none. It changes no answer: many large shapes are tried quickly by their hulls.
    fn hull(&self) -> Option<Hull>
        ensures { IfSome result (IsHullOf Self.covers self.now) }
    {
        None
    }

    /// What it covers with a reach it covers with each lesser reach.
    ghost covers_less: { CoversLess Self.covers };
}

/// How deep a hole lies in a shape, in pm: the lesser of the depths of its two ends, which are one point where it is round.
pub fn depth_of_hole<S: DepthShape>(pad: &S, hole: &Hole) -> i64
    ensures exact { IsDepthOfHole S.covers pad.now hole.now result }
    ensures in_range { result <ℤ pos max_reach }
{
    let from = pad.depth(hole.from());
    if hole.is_round() {
        return from;
    }
    let to = pad.depth(hole.to());
    from.min(to)
}
