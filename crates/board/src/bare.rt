//! Which holes are bare.

ghost use Rattle.std.specs.Prelude.{◌≡◌, ◌<◌, None, length, map, IfOk, IfSome};
ghost use Rattle.std.specs.List.{list_all};
ghost use Rattle.pad_shapes.specs.Shapes.{covers_both_ends};
ghost use Rattle.board.specs.BestPads.{AreBare};
ghost use Rattle.board.specs.Rows.{has_no_best_pad};
ghost use Rattle.board.specs.Inner.Zones.{CoversNothing};

use crate::best::BestPad;
use crate::bests::best_pads;
use crate::better::is_better;
use crate::deep::DepthShape;
use pad_shapes::Zone;
use ring_rules::{Drilled, entry_zone};
use std::alloc::{AllocError, Global};

/// Which holes have no best pad.
fn without_best_pad(alloc: Global, bests: &[Option<BestPad>]) -> Result<Vec<bool>, AllocError>
    ensures { IfOk result (λ without_best_pad. without_best_pad.items ≡ map has_no_best_pad bests.now) }
{
    bests.iter().map(|best| best.is_none()).collect(alloc)
}

/// The place of the first of some pads that may cover a point of a zone. Where there is none, no pad covers one.
fn first_near<S: DepthShape>(pads: &[S], zone: &Zone) -> Option<usize>
    ensures place { IfSome result (λ place. place < length pads.now) }
    ensures none { result ≡ None → CoversNothing S.covers pads.now (length pads.now) zone.now }
{
    for (place, pad) in pads.iter().enumerate() {
        if pad.may_cover(zone, 0) {
            return Some(place);
        }
    }
    None
}

/// Whether a pad covers both ends of all of some holes.
fn covers_all<S: DepthShape>(pad: &S, holes: &[Drilled]) -> bool
    ensures { result ≡ list_all (λ d. covers_both_ends S.covers pad.now d.hole.from d.hole.to 0) holes.now }
{
    holes
        .iter()
        .all(|drilled| is_better(pad, 0, &drilled.hole, None))
}

/// Whether each of some holes is bare, by their best pads.
fn bare_by_bests<S: DepthShape>(
    alloc: Global,
    pads: &[S],
    holes: &[Drilled],
) -> Result<Vec<bool>, AllocError>
    ensures { IfOk result (λ bare. AreBare S.covers pads.now holes.now bare.items) }
{
    let bests = best_pads(alloc, pads, holes)?;
    without_best_pad(alloc, &bests)
}

/// Whether each of some holes is bare, in their order: covered by no pad at both ends with any reach. No best pad is searched for where
/// no pad is near, or where the first that is covers all holes.
///
/// # Errors
///
/// Where there is no memory.
pub fn bare_holes<S: DepthShape>(
    alloc: Global,
    pads: &[S],
    holes: &[Drilled],
) -> Result<Vec<bool>, AllocError>
    ensures { IfOk result (λ bare. AreBare S.covers pads.now holes.now bare.items) }
{
    match first_near(pads, &entry_zone(holes)) {
        None => vec![in alloc; true; holes.len()],
        Some(place) if covers_all(&pads[place], holes) => vec![in alloc; false; holes.len()],
        Some(_) => bare_by_bests(alloc, pads, holes),
    }
}
