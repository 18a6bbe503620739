//! The pads of a layer in which holes lie deepest.

ghost use Rattle.std.specs.Prelude.{◌≡◌, ℕ, ◌+◌, ◌<◌, true, None, length, get_or, IfOk, OnOk};
ghost use Rattle.std.specs.List.{All, Contains};
ghost use Rattle.pad_shapes.specs.Zones.{IsInZone};
ghost use Rattle.pad_shapes.specs.declared.zone.Zone.{Zone};
ghost use Rattle.ring_rules.specs.Index.{IsIndexOf};
ghost use Rattle.ring_rules.specs.Places.{entry_at};
ghost use Rattle.board.specs.BestPads.{AreBestPads};
ghost use Rattle.board.specs.Inner.BestPads.{AllImprove, IsNoBetterAt, IsNoBetterForAll, AreTriedOrLarge, AreAllCovered};

use crate::best::BestPad;
use crate::better::better;
use crate::deep::DepthShape;
use crate::large::try_large;
use pad_shapes::Zone;
use ring_rules::{Drilled, HoleIndex, entry_zone, mean_zone_size};
use std::alloc::{AllocError, Global};

/// Pads of a layer, and the holes of the board at which they are tried.
#[derive(Drop)]
struct PadsOnBoard<'a, S> {
    pads: &'a [S],
    holes: &'a [Drilled],
    index: &'a HoleIndex,
    /// A zone that contains the entry points of all holes.
    whole: Zone,
    /// A pad is large if more cells or more holes lie in its zone. Any number is right: only the time depends on it.
    few: usize,
}

impl<S: DepthShape> PadsOnBoard<'_, S> {
    /// Tries the pad at a place at the holes at some places.
    fn try_near(&self, place: usize, near: &[usize], bests: &mut [Option<BestPad>])
        requires place { place < length self.now.pads.now }
        requires near { All (λ k. k < length self.now.holes.now) near.now }
        requires size { length bests.old ≡ length self.now.holes.now }
        ensures improves { AllImprove S.covers self.now.pads.now self.now.holes.now bests.old bests.new }
        ensures below { IsNoBetterAt S.covers self.now.pads.now place self.now.holes.now near.now (length near.now) bests.new }
    {
        for hole in near {
            bests[*hole] = better(bests[*hole], self.pads, place, &self.holes[*hole].hole);
        }
    }

    /// Replaces `near` by the places of the holes that a pad may cover, or answers that the pad is large.
    fn finds_few(&self, pad: &S, near: &mut Vec<usize>) -> Result<bool, AllocError>
        requires { IsIndexOf self.now.holes.now self.now.index.now }
        ensures places { IfOk result (λ few. few ≡ true → All (λ k. k < length self.now.holes.now) near.new.items) }
        ensures all { IfOk result (λ few. few ≡ true → AreAllCovered S.covers pad.now self.now.holes.now near.new.items) }
    {
        match pad.zone(0) {
            Some(zone) if self.index.cells_in(&zone) <= self.few => {
                self.index.find(self.holes, &zone, near)?;
                Ok(near.len() <= self.few)
            }
            _ => Ok(false),
        }
    }

    /// Tries the pad at a place at the holes that it may cover, or lists it as a large one.
    fn try_or_list(
        &self,
        place: usize,
        near: &mut Vec<usize>,
        large: &mut Vec<usize>,
        bests: &mut [Option<BestPad>],
    ) -> Result<(), AllocError>
        requires index { IsIndexOf self.now.holes.now self.now.index.now }
        requires whole { (k : ℕ) → k < length self.now.holes.now → IsInZone self.now.whole (entry_at self.now.holes.now k) }
        requires place { place < length self.now.pads.now }
        requires size { length bests.old ≡ length self.now.holes.now }
        requires large { All (λ k. k < length self.now.pads.now) large.old.items }
        requires before { AreTriedOrLarge S.covers self.now.pads.now place self.now.holes.now large.old.items bests.old }
        ensures improves { OnOk result (AllImprove S.covers self.now.pads.now self.now.holes.now bests.old bests.new) }
        ensures large { OnOk result (All (λ k. k < length self.now.pads.now) large.new.items) }
        ensures tried { OnOk result (AreTriedOrLarge S.covers self.now.pads.now (place + 1) self.now.holes.now large.new.items bests.new) }
    {
        let pad = &self.pads[place];
        if !pad.may_cover(&self.whole, 0) {
            return Ok(());
        }
        if self.finds_few(pad, near)? {
            self.try_near(place, near, bests);
        } else {
            large.push(place)?;
        }
        Ok(())
    }

    /// Tries all pads but the large ones, and returns the places of these.
    fn try_small(
        &self,
        alloc: Global,
        bests: &mut [Option<BestPad>],
    ) -> Result<Vec<usize>, AllocError>
        requires index { IsIndexOf self.now.holes.now self.now.index.now }
        requires whole { (k : ℕ) → k < length self.now.holes.now → IsInZone self.now.whole (entry_at self.now.holes.now k) }
        requires size { length bests.old ≡ length self.now.holes.now }
        ensures improves { OnOk result (AllImprove S.covers self.now.pads.now self.now.holes.now bests.old bests.new) }
        ensures large { IfOk result (λ large. All (λ k. k < length self.now.pads.now) large.items) }
        ensures tried { IfOk result (λ large. AreTriedOrLarge S.covers self.now.pads.now (length self.now.pads.now) self.now.holes.now large.items bests.new) }
    {
        let mut near = Vec::new(alloc);
        let mut large = Vec::new(alloc);
        for place in 0..self.pads.len() {
            self.try_or_list(place, &mut near, &mut large, bests)?;
        }
        Ok(large)
    }

    /// Tries all pads, at holes that have no best pad so far.
    fn try_pads(&self, alloc: Global, bests: &mut [Option<BestPad>]) -> Result<(), AllocError>
        requires index { IsIndexOf self.now.holes.now self.now.index.now }
        requires whole { (k : ℕ) → k < length self.now.holes.now → IsInZone self.now.whole (entry_at self.now.holes.now k) }
        requires size { length bests.old ≡ length self.now.holes.now }
        requires none { (k : ℕ) → k < length self.now.holes.now → get_or bests.old k None ≡ None }
        ensures { OnOk result (AreBestPads S.covers self.now.pads.now self.now.holes.now bests.new) }
    {
        let large = self.try_small(alloc, bests)?;
        try_large(alloc, self.pads, large, self.holes, bests)?;
        Ok(())
    }

    /// The best pad of each hole.
    fn best_pads(&self, alloc: Global) -> Result<Vec<Option<BestPad>>, AllocError>
        requires index { IsIndexOf self.now.holes.now self.now.index.now }
        requires whole { (k : ℕ) → k < length self.now.holes.now → IsInZone self.now.whole (entry_at self.now.holes.now k) }
        ensures { IfOk result (λ bests. AreBestPads S.covers self.now.pads.now self.now.holes.now bests.items) }
    {
        let mut bests = vec![in alloc; None; self.holes.len()]?;
        self.try_pads(alloc, &mut bests)?;
        Ok(bests)
    }
}

/// The best pad of each hole, in the order of the holes, by an index of these: one serves for all layers.
///
/// # Errors
///
/// Where there is no memory.
pub fn best_pads_by<S: DepthShape>(
    alloc: Global,
    index: &HoleIndex,
    pads: &[S],
    holes: &[Drilled],
) -> Result<Vec<Option<BestPad>>, AllocError>
    requires { IsIndexOf holes.now index.now }
    ensures { IfOk result (λ bests. AreBestPads S.covers pads.now holes.now bests.items) }
{
    let board = PadsOnBoard {
        pads,
        holes,
        index,
        whole: entry_zone(holes),
        few: holes.len().isqrt(),
    };
    board.best_pads(alloc)
}

/// The best pad of each hole, in the order of the holes.
///
/// # Errors
///
/// Where there is no memory.
pub fn best_pads<S: DepthShape>(
    alloc: Global,
    pads: &[S],
    holes: &[Drilled],
) -> Result<Vec<Option<BestPad>>, AllocError>
    ensures { IfOk result (λ bests. AreBestPads S.covers pads.now holes.now bests.items) }
{
    let (width, height) = mean_zone_size(&[pads]);
    let index = HoleIndex::new(alloc, holes, width, height)?;
    best_pads_by(alloc, &index, pads, holes)
}
