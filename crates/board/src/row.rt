//! The rings that some of the holes of a board have on one layer.

ghost use Rattle.std.specs.Prelude.{◌≡◌, ◌-ℤ◌, ◌<◌, pos, length};
ghost use Rattle.std.specs.List.{All};
ghost use Rattle.board.specs.Rows.{ring_from_best, has_no_ring, IsRingRow};
ghost use Rattle.board.specs.Inner.Rows.{IsLesser};

use crate::best::BestPad;
use crate::roots::less;
use grid_units::{Hole, Profile};
use ring_rules::{Drilled, is_refused_slot};

/// The least ring of some holes on a layer.
#[derive(Clone, Copy, PartialEq, Eq)]
pub struct RowLeast {
    /// The ring, in pm: below 0 where the hole is wider than the copper round its centre.
    pub ring: i64,
    /// The first of the holes that has it, by its place in the list of all holes, from 0.
    pub hole: usize,
}

/// What rings some holes have on a layer.
#[derive(Clone, Copy, PartialEq, Eq)]
pub struct RingRow {
    /// How many holes these are.
    pub holes: usize,
    /// How many of them have no ring at all: they are bare, or slots that the profile refuses.
    pub bare: usize,
    /// The least ring, if one of them has a ring.
    pub least: Option<RowLeast>,
}

/// The ring of a hole in its best pad, in pm.
pub(crate) fn ring_in(best: &BestPad, hole: &Hole) -> i64
    ensures { result ≡ pos best.now.depth -ℤ pos hole.now.radius }
{
    less(best.depth, hole.radius().unsigned_abs())
}

/// The ring of a hole by its best pad; none where it is bare, or a slot that the profile refuses.
pub(crate) fn ring_of(profile: Profile, best: Option<BestPad>, hole: &Hole) -> Option<i64>
    ensures { result ≡ ring_from_best profile best hole.now }
{
    match best {
        Some(best) if !is_refused_slot(profile, hole) => Some(ring_in(&best, hole)),
        _ => None,
    }
}

/// Whether a hole has no ring.
fn has_none(ring: Option<i64>) -> bool
    ensures { result ≡ has_no_ring ring }
{
    ring.is_none()
}

/// The lesser of the least ring so far and that of one more hole. Of equal rings the first stays.
fn lesser(least: Option<RowLeast>, hole: usize, ring: Option<i64>) -> Option<RowLeast>
    ensures { IsLesser least hole ring result }
{
    match (least, ring) {
        (_, None) => least,
        (Some(held), Some(ring)) if held.ring <= ring => least,
        (_, Some(ring)) => Some(RowLeast { ring, hole }),
    }
}

/// What rings some holes have on a layer: how many holes they are, how many of them have none, and the least ring with
/// the first hole that has it. The best pads are those of all holes on this layer; the holes are chosen by their
/// places, from 0. Only the chosen holes are looked at.
pub fn ring_row(
    profile: Profile,
    bests: &[Option<BestPad>],
    holes: &[Drilled],
    chosen: &[usize],
) -> RingRow
    requires bests { length bests.now ≡ length holes.now }
    requires chosen { All (λ k. k < length holes.now) chosen.now }
    ensures { IsRingRow profile bests.now holes.now chosen.now result }
{
    let mut bare = 0;
    let mut least = None;
    for hole in chosen {
        let ring = ring_of(profile, bests[*hole], &holes[*hole].hole);
        if has_none(ring) {
            bare += 1;
        }
        least = lesser(least, *hole, ring);
    }
    RingRow {
        holes: chosen.len(),
        bare,
        least,
    }
}
