//! The data that is kept of a layer, to find why its holes lack their rings.

ghost use Rattle.std.specs.Prelude.{◌≡◌, ◌<◌, ◌+◌, ◌-ℤ◌, ◌≤ℤ◌, List, pos, neg_ℤ, false, IfOk, length, get_or};
ghost use Rattle.pad_shapes.specs.WidePads.{wide_pad_covers};
ghost use Rattle.pad_shapes.specs.declared.wide_pad.WidePad.{WidePad as TheWidePad};
ghost use Rattle.ring_rules.specs.Findings.{is_refused_slot};
ghost use Rattle.ring_rules.specs.Places.{hole_at};
ghost use Rattle.pad_shapes.specs.Rows.{is_pad_row};
ghost use Rattle.board.specs.BestPads.{AreBestPads, IsBestPad, IsDeepest};
ghost use Rattle.report.specs.Causes.{HoldsRows, HoldsRowsAndBests, IsCause, UncountedPads, other_in, pad_place, pad_places, uncounted_pads};
ghost use Rattle.report.specs.Inner.CauseParts.{cause_without_pad, other_cause, plain_cause, uncounted_cause};

use crate::cause::{hole_shape, is_small};
use crate::cover::UncountedCover;
use crate::groups::{Group, first_in, groups_of};
use crate::other::{Other, others};
use crate::{FurtherCopper, RingAtEdge, RingCause, RingInPad};
use board::{BestPad, best_pads};
use grid_units::{Hole, Rules};
use pad_shapes::{FeatureRow, RowKind, WidePad};
use ring_rules::{Drilled, is_refused_slot};
use std::alloc::{AllocError, Global};

/// The data of a layer: the places of its rows that are pads, its other rows, and of each hole the best pad (the one in which it lies deepest) and
/// whether it lies in pads that the profile does not count.
#[derive(Drop)]
pub struct CauseFinder {
    places: Vec<usize>,
    others: Vec<Other>,
    groups: Vec<Group>,
    bests: Vec<Option<BestPad>>,
    cover: UncountedCover,
}

/// The place of a row that is a pad.
fn pad_place(place: usize, row: &FeatureRow) -> Option<usize>
    ensures { result ≡ pad_place (place, row.now) }
{
    if row.what.is_pad() { Some(place) } else { None }
}

fn pad_places(alloc: Global, rows: &[FeatureRow]) -> Result<Vec<usize>, AllocError>
    ensures { IfOk result (λ places. places.items ≡ pad_places rows.now) }
{
    rows.iter()
        .enumerate()
        .filter_map(|(place, row)| pad_place(place, row))
        .collect(alloc)
}

/// The ring of a hole in its best pad, in pm; below 0 where the hole's edge lies outside the pad.
fn ring_of(best: BestPad, hole: &Hole) -> i64
    ensures value { result ≡ pos best.depth -ℤ pos hole.now.radius }
    ensures least { neg_ℤ (pos 5000000000000) ≤ℤ result }
    ensures most { result ≤ℤ pos 20000000000000 }
{
    best.depth as i64 - hole.radius()
}

/// What a ring lacks of the required one, in pm.
fn lack_of(rules: Rules, ring: i64) -> i64
    requires least { neg_ℤ (pos 5000000000000) ≤ℤ ring }
    requires most { ring ≤ℤ pos 20000000000000 }
    ensures { result ≡ pos rules.ring -ℤ ring }
{
    rules.ring() - ring
}

/// Why a hole lacks its ring, by its best pad, which is plain.
fn plain_cause(in_best_pad: RingInPad, hole: &Hole, rules: Rules) -> RingCause
    ensures { result ≡ plain_cause rules.ring hole.now in_best_pad }
{
    if is_small(&in_best_pad.pad, hole, rules) {
        RingCause::TooSmall(in_best_pad)
    } else {
        RingCause::OffCentre(in_best_pad)
    }
}

/// Why a hole that no pad covers lacks its ring, by the first other row in it.
fn other_cause(what: RowKind, flash: usize) -> RingCause
    requires { is_pad_row what ≡ false }
    ensures { result ≡ other_cause what flash }
{
    match what {
        RowKind::Other(why) => RingCause::Other { why, flash },
        RowKind::Clear => RingCause::Clear { flash },
        RowKind::Cleared => RingCause::Cleared { flash },
        RowKind::Pad | RowKind::Contour => unreachable!(),
    }
}

impl CauseFinder {
    /// The data of the layer of these rows, by the best of its pads for these holes, and of the pads that its profile does not count.
    fn of(
        alloc: Global,
        rows: &[FeatureRow],
        bests: Vec<Option<BestPad>>,
        uncounted: FurtherCopper,
        holes: &[Drilled],
    ) -> Result<CauseFinder, AllocError>
        ensures { (pads : List TheWidePad) → AreBestPads wide_pad_covers pads holes.now bests.items → IfOk result (HoldsRowsAndBests rows.now pads (uncounted_pads uncounted.entry) holes.now) }
    {
        let others = others(alloc, rows)?;
        Ok(CauseFinder {
            places: pad_places(alloc, rows)?,
            groups: groups_of(alloc, &others)?,
            others,
            bests,
            cover: UncountedCover::of(alloc, uncounted, holes)?,
        })
    }

    /// The data of the layer of these rows and pads, and of the pads that its profile does not count, for these holes. The best pads are searched
    /// for, which takes long.
    ///
    /// # Errors
    ///
    /// An `AllocError` when memory runs out.
    pub fn new(
        alloc: Global,
        rows: &[FeatureRow],
        pads: &[WidePad],
        uncounted: FurtherCopper,
        holes: &[Drilled],
    ) -> Result<CauseFinder, AllocError>
        ensures { IfOk result (HoldsRowsAndBests rows.now pads.now (uncounted_pads uncounted.entry) holes.now) }
    {
        let bests = best_pads(alloc, pads, holes)?;
        CauseFinder::of(alloc, rows, bests, uncounted, holes)
    }

    /// The data of the layer of these rows, by copies of the best of its pads for these holes, and of the pads that its profile does not count.
    ///
    /// # Errors
    ///
    /// An `AllocError` when memory runs out.
    pub fn with_bests(
        alloc: Global,
        rows: &[FeatureRow],
        bests: &[Option<BestPad>],
        uncounted: FurtherCopper,
        holes: &[Drilled],
    ) -> Result<CauseFinder, AllocError>
        ensures { (pads : List TheWidePad) → AreBestPads wide_pad_covers pads holes.now bests.now → IfOk result (HoldsRowsAndBests rows.now pads (uncounted_pads uncounted.entry) holes.now) }
    {
        let copied = bests.to_vec(alloc)?;
        CauseFinder::of(alloc, rows, copied, uncounted, holes)
    }

    /// The number on the layer, from 1, of the row of a pad; 1 where the rows have no such pad.
    fn flash_of(&self, rows: &[FeatureRow], pad: usize) -> usize
        requires { HoldsRows rows.now self.now }
        ensures { result ≡ get_or (pad_places rows.now) pad 0 + 1 }
    {
        match self.places.get(pad) {
            Some(place) => *place + 1,
            None => 1,
        }
    }

    /// Why a hole that has a best pad lacks its ring.
    fn cause_in_best(
        &self,
        rows: &[FeatureRow],
        pads: &[WidePad],
        hole: &Hole,
        best: BestPad,
        rules: Rules,
    ) -> RingCause
        requires known { HoldsRows rows.now self.now }
        requires holds { is_refused_slot rules.profile hole.now ≡ false }
        requires best { IsDeepest wide_pad_covers pads.now (length pads.now) hole.now best }
        ensures { (uncounted : UncountedPads) → IsCause rules.profile rows.now pads.now uncounted rules.ring hole.now result }
    {
        let flash = self.flash_of(rows, best.pad);
        let ring = ring_of(best, hole);
        let lack = lack_of(rules, ring);
        match &pads[best.pad] {
            WidePad::Plain(pad) => {
                let pad = *pad;
                plain_cause(
                    RingInPad {
                        flash,
                        pad,
                        ring,
                        lack,
                    },
                    hole,
                    rules,
                )
            }
            WidePad::Rounded(_) => RingCause::Edge(RingAtEdge { flash, ring, lack }),
        }
    }

    /// The first row that is no pad and whose point lies in a hole.
    fn other_in(&self, rows: &[FeatureRow], hole: &Hole) -> Result<Option<Other>, AllocError>
        requires { HoldsRows rows.now self.now }
        ensures { IfOk result (λ other. other ≡ other_in rows.now hole.now) }
    {
        let shape = hole_shape(*self.others.allocator(), hole)?;
        Ok(first_in(&self.others, &self.groups, &shape))
    }

    /// Why a hole that no pad covers lacks its ring: by the first other row in it, if there is one, and otherwise as is given.
    fn cause_without_pad(
        &self,
        rows: &[FeatureRow],
        hole: &Hole,
        otherwise: RingCause,
    ) -> Result<RingCause, AllocError>
        requires { HoldsRows rows.now self.now }
        ensures { IfOk result (λ why. why ≡ cause_without_pad (other_in rows.now hole.now) otherwise) }
    {
        match self.other_in(rows, hole)? {
            Some(other) => Ok(other_cause(other.what, other.place + 1)),
            None => Ok(otherwise),
        }
    }

    /// Why a hole lacks its ring, by its best pad; where it has none and no other flash, as is given.
    fn cause_of(
        &self,
        rows: &[FeatureRow],
        pads: &[WidePad],
        hole: &Hole,
        best: Option<BestPad>,
        otherwise: RingCause,
        rules: Rules,
    ) -> Result<RingCause, AllocError>
        requires known { HoldsRows rows.now self.now }
        requires best { IsBestPad wide_pad_covers pads.now hole.now best }
        ensures { (uncounted : UncountedPads) → otherwise ≡ uncounted_cause uncounted hole.now → IfOk result (IsCause rules.profile rows.now pads.now uncounted rules.ring hole.now) }
    {
        if is_refused_slot(rules.profile(), hole) {
            return Ok(RingCause::Oblique);
        }
        match best {
            Some(best) => Ok(self.cause_in_best(rows, pads, hole, best, rules)),
            None => self.cause_without_pad(rows, hole, otherwise),
        }
    }

    /// Why the hole at a place, from 0, lacks the ring of these rules on the layer. The rows, the pads, those that the profile does not
    /// count, and the holes must be those of the data; the pads are those of the rows that are pads, or a flash has no number of its own.
    ///
    /// # Errors
    ///
    /// An `AllocError` when memory runs out.
    pub fn cause(
        &self,
        rows: &[FeatureRow],
        pads: &[WidePad],
        uncounted: FurtherCopper,
        holes: &[Drilled],
        place: usize,
        rules: Rules,
    ) -> Result<RingCause, AllocError>
        requires known { HoldsRowsAndBests rows.now pads.now (uncounted_pads uncounted) holes.now self.now }
        requires place { place < length holes.now }
        ensures { IfOk result (IsCause rules.profile rows.now pads.now (uncounted_pads uncounted.entry) rules.ring (hole_at holes.now place)) }
    {
        let otherwise = self.cover.cause_at(uncounted, holes, place);
        let hole = &holes[place].hole;
        self.cause_of(rows, pads, hole, self.bests[place], otherwise, rules)
    }
}
