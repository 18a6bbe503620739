//! How many round holes are bare, where they are, and with their coordinates times a factor.

ghost use Rattle.std.specs.Prelude.{◌≡◌, ◌&&◌, ◌≤◌, length, List, map, IfOk};
ghost use Rattle.grid_units.specs.Holes.{is_round};
ghost use Rattle.pad_shapes.specs.WidePads.{wide_pad_covers};
ghost use Rattle.pad_shapes.specs.declared.wide_pad.WidePad.{WidePad as ThePad};
ghost use Rattle.board.specs.BestPads.{AreBare};
ghost use Rattle.board.specs.Rows.{has_no_best_pad};
ghost use Rattle.report.specs.UnitMistakes.{bare_count, round_count};
ghost use Rattle.report.specs.Inner.RescaledCounts.{AreRescaled, IsRescaled};

use crate::UnitFactor;
use crate::scaled::scaled_point;
use board::BestPad;
use grid_units::{Hole, Point};
use ring_rules::Drilled;
use std::alloc::{AllocError, Global};

/// How many of some holes are round.
pub(crate) fn round_among(holes: &[Drilled]) -> usize
    ensures { result ≡ round_count holes.now }
{
    holes
        .iter()
        .filter(|drilled| drilled.hole.is_round())
        .count()
}

/// Whether each of some holes is bare, by their best pads.
pub(crate) fn bare_by_bests(
    alloc: Global,
    bests: &[Option<BestPad>],
) -> Result<Vec<bool>, AllocError>
    ensures { IfOk result (λ bare. bare.items ≡ map has_no_best_pad bests.now) }
{
    bests.iter().map(|best| best.is_none()).collect(alloc)
}

/// Whether a hole is round and, as is given, bare.
fn is_round_and_bare(drilled: &Drilled, is_bare: bool) -> bool
    ensures { result ≡ (is_round drilled.now.hole && is_bare) }
{
    drilled.hole.is_round() && is_bare
}

/// How many of some holes are round and bare, given of each whether it is bare.
pub(crate) fn round_bare_count(bare: &[bool], holes: &[Drilled]) -> usize
    requires { length bare.now ≡ length holes.now }
    ensures exact { (pads : List ThePad) → AreBare wide_pad_covers pads holes.now bare.now → result ≡ bare_count pads holes.now }
    ensures few { result ≤ length holes.now }
{
    let mut count = 0;
    for (place, drilled) in holes.iter().enumerate() {
        if is_round_and_bare(drilled, bare[place]) {
            count += 1;
        }
    }
    count
}

/// The hole as a round one at another centre.
fn at_centre(drilled: &Drilled, centre: Point) -> Drilled
    ensures from { result.hole.from ≡ centre }
    ensures to { result.hole.to ≡ centre }
{
    Drilled {
        hole: Hole::new(centre, centre, drilled.hole.radius()).unwrap(),
        plated: drilled.plated,
        span: drilled.span,
    }
}

/// A round hole with its coordinates times a factor; none for a slot, or where its place would be beyond ten metres.
fn rescaled(drilled: &Drilled, factor: UnitFactor) -> Option<Drilled>
    ensures { IsRescaled factor drilled.now result }
{
    if !drilled.hole.is_round() {
        return None;
    }
    match scaled_point(drilled.hole.from(), factor) {
        Some(centre) => Some(at_centre(drilled, centre)),
        None => None,
    }
}

/// The round holes that have a place with their coordinates times a factor, at these places.
pub(crate) fn all_rescaled(
    alloc: Global,
    holes: &[Drilled],
    factor: UnitFactor,
) -> Result<Vec<Drilled>, AllocError>
    ensures { IfOk result (λ rescaled. AreRescaled factor holes.now rescaled.items) }
{
    let mut all = Vec::new(alloc);
    for drilled in holes {
        if let Some(hole) = rescaled(drilled, factor) {
            all.push(hole)?;
        }
    }
    Ok(all)
}
