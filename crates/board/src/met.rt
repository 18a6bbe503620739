//! The greatest ring and the greatest gap that a whole board meets.

ghost use Rattle.std.specs.Prelude.{◌≡◌, ◌+◌, ◌<◌, [], length, map, get_or};
ghost use Rattle.board.specs.BestPads.{AreBestPads};
ghost use Rattle.board.specs.NearestHoles.{IsNearestOf, IsPair};
ghost use Rattle.board.specs.Meets.{needs_ring, MeetsOnLayers, MeetsGaps, GapsPass};
ghost use Rattle.board.specs.Rows.{ring_from_best};
ghost use Rattle.board.specs.Inner.Meets.{with_length, with_length_in_pads};

use crate::best::BestPad;
use crate::deep::DepthShape;
use crate::nearest::Nearest;
use crate::row::ring_of;
use grid_units::{Profile, is_in_span};
use ring_rules::Drilled;

/// The rules that a board meets.
#[derive(Clone, Copy, PartialEq, Eq)]
pub enum Met {
    /// All of them: no hole, or no two holes, are asked for anything.
    Any,
    /// Those up to this length, in pm. A length below 0 allows no rule.
    UpTo(i64),
    /// None, however small.
    None,
}

/// The rings that a board meets.
#[derive(Clone, Copy)]
pub struct RingsMet {
    /// Those that all holes have: none where a hole is bare on a layer where it needs a ring.
    pub ring: Met,
    /// Those that the holes have that are not bare: none where each hole is bare on each layer where it needs a ring.
    pub in_pads: Met,
}

/// Whether a hole needs a ring on a layer, by its place from 0: it is plated and goes through the layer.
pub fn needs_ring(layer: usize, drilled: &Drilled) -> bool
    ensures { result ≡ needs_ring layer drilled.now }
{
    drilled.plated && is_in_span(layer, drilled.span)
}

/// The rings that are met with one more hole that needs one.
fn least(met: Met, ring: Option<i64>) -> Met
    ensures { result ≡ with_length met ring }
{
    match (met, ring) {
        (Met::Any, Some(ring)) => Met::UpTo(ring),
        (Met::UpTo(held), Some(ring)) => Met::UpTo(held.min(ring)),
        _ => Met::None,
    }
}

/// The rings that are met with one more hole that needs one, bare holes skipped.
fn with_ring_in_pads(met: Met, ring: Option<i64>) -> Met
    ensures { result ≡ with_length_in_pads met ring }
{
    match (met, ring) {
        (Met::UpTo(held), Some(ring)) => Met::UpTo(held.min(ring)),
        (Met::UpTo(held), None) => Met::UpTo(held),
        (_, Some(ring)) => Met::UpTo(ring),
        (_, None) => Met::None,
    }
}

/// What a board without a layer meets.
pub fn met_without_layers<S: DepthShape>(layers: &[&[S]], holes: &[Drilled]) -> RingsMet
    ensures { (profile : Profile) → MeetsOnLayers S.covers profile (map (λ pads. pads.now) layers.now) holes.now 0 result }
{
    RingsMet {
        ring: Met::Any,
        in_pads: Met::Any,
    }
}

/// What the layers of a board up to and with one of them meet, by the best pads there and by what the layers before it meet.
pub fn met_with_layer<S: DepthShape>(
    layers: &[&[S]],
    layer: usize,
    bests: &[Option<BestPad>],
    holes: &[Drilled],
    profile: Profile,
    met: RingsMet,
) -> RingsMet
    requires inside { layer < length layers.now }
    requires bests { AreBestPads S.covers (get_or (map (λ pads. pads.now) layers.now) layer []) holes.now bests.now }
    requires so_far { MeetsOnLayers S.covers profile (map (λ pads. pads.now) layers.now) holes.now layer met }
    ensures { MeetsOnLayers S.covers profile (map (λ pads. pads.now) layers.now) holes.now (layer + 1) result }
{
    let mut met = met;
    for (hole, drilled) in holes.iter().enumerate() {
        if needs_ring(layer, drilled) {
            let ring = ring_of(profile, bests[hole], &drilled.hole);
            met = RingsMet {
                ring: least(met.ring, ring),
                in_pads: with_ring_in_pads(met.in_pads, ring),
            };
        }
    }
    met
}

/// The greatest gap that a board meets, by its nearest holes: any where there are none, else their gap. Under just
/// these gaps nothing is found.
pub fn gap_met_of_nearest(holes: &[Drilled], nearest: Option<Nearest>) -> Met
    requires { IsNearestOf holes.now (IsPair holes.now) nearest }
    ensures exact { MeetsGaps holes.now result }
    ensures passes { GapsPass holes.now result }
{
    match nearest {
        Some(nearest) => Met::UpTo(nearest.gap),
        None => Met::Any,
    }
}
