//! The better of two pads for a hole.

ghost use Rattle.std.specs.Prelude.{◌≡◌, ◌<◌, ◌≤◌, ℕ, Some, true, pos, length, get_or};
ghost use Rattle.pad_shapes.specs.Shapes.{covers_both_ends, IsReach};
ghost use Rattle.board.specs.Inner.BestPads.{required_depth, IsDepthInPad, IsNoBetter, Improves, IsTriedAt};

use crate::best::BestPad;
use crate::deep::{DepthShape, depth_of_hole};
use grid_units::Hole;

/// How deep a hole must lie at least in the pad at a place that is better than its best so far, in pm: deeper than
/// there, or as deep where the pad comes before it.
pub(crate) fn required(best: Option<BestPad>, place: usize) -> i64
    ensures value { result ≡ pos (required_depth best place) }
    ensures in_range { IsReach result }
{
    match best {
        Some(held) if place < held.pad => held.depth as i64,
        Some(held) => held.depth as i64 + 1,
        None => 0,
    }
}

/// Whether the pad at a place is better for a hole than its best so far. No root is taken, and one end of a round hole is asked for.
pub(crate) fn is_better<S: DepthShape>(
    pad: &S,
    place: usize,
    hole: &Hole,
    best: Option<BestPad>,
) -> bool
    ensures { result ≡ covers_both_ends S.covers pad.now hole.now.from hole.now.to (required_depth best place) }
{
    let reach = required(best, place);
    pad.covers(hole.from(), reach) && (hole.is_round() || pad.covers(hole.to(), reach))
}

/// A pad that is better for a hole, as its best pad.
fn best_in<S: DepthShape>(
    pads: &[S],
    place: usize,
    pad: &S,
    hole: &Hole,
    best: Option<BestPad>,
) -> BestPad
    requires listed { (s : S) → get_or pads.now place s ≡ pad.now }
    requires inside { place < length pads.now }
    requires better { covers_both_ends S.covers pad.now hole.now.from hole.now.to (required_depth best place) ≡ true }
    ensures held { IsDepthInPad S.covers pads.now hole.now result }
    ensures more { (other : ℕ) → required_depth best other ≤ required_depth (Some result) other }
    ensures below { IsNoBetter S.covers pads.now place hole.now (Some result) }
{
    BestPad {
        pad: place,
        depth: depth_of_hole(pad, hole).unsigned_abs(),
    }
}

/// The better of the best pad so far and the pad at a place.
pub(crate) fn better<S: DepthShape>(
    best: Option<BestPad>,
    pads: &[S],
    place: usize,
    hole: &Hole,
) -> Option<BestPad>
    requires { place < length pads.now }
    ensures { IsTriedAt S.covers pads.now place hole.now best result }
{
    let pad = &pads[place];
    if !is_better(pad, place, hole, best) {
        return best;
    }
    Some(best_in(pads, place, pad, hole, best))
}
