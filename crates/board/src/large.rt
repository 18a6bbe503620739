//! Large pads in an order in which near ones stand together, so that a hole passes over many of them at once.

ghost use Rattle.std.specs.Prelude.{◌≡◌, ℕ, ◌<◌, ◌≤◌, true, None, length, get_or, IfSome, IsSomeAnd, IfOk, OnOk};
ghost use Rattle.std.specs.List.{All, Contains};
ghost use Rattle.std.specs.List.Sorted.{IsPermutation};
ghost use Rattle.ring_rules.specs.Places.{hole_at};
ghost use Rattle.board.specs.Hulls.{IsHullOf, IsWiderThan};
ghost use Rattle.board.specs.Inner.BestPads.{required_depth, IsNoBetterForAll, Improves, AllImprove, IsGroup, AreGroups, HoldsNone, AreNoBetter};

use crate::best::BestPad;
use crate::better::{better, required};
use crate::deep::DepthShape;
use crate::hull::Hull;
use crate::order::order_key;
use grid_units::Hole;
use ring_rules::Drilled;
use std::alloc::{AllocError, Global};

/// How many pads the smallest groups have at most. Any number is right: only the time depends on it.
const FEW: usize = 8;

/// How many pads the groups of each level have at most, the largest first. Any numbers are right.
const SIZES: [usize; 6] = [262_144, 32_768, 4_096, 512, 64, FEW];

/// Pads that come one after another in an order.
#[derive(Clone, Copy)]
pub(crate) struct Group {
    /// Where they begin in the order.
    start: usize,
    /// Where they end, this place excluded.
    end: usize,
    /// No pad of them comes before this place in the list of all pads.
    first: usize,
    /// A hull of all of them, if there is one.
    hull: Option<Hull>,
}

/// Groups that come one after another, all of one size but the last.
#[derive(Drop)]
pub(crate) struct Level {
    size: usize,
    groups: Vec<Group>,
}

/// The large pads of a layer: their places in an order, in groups.
#[derive(Drop)]
struct LargePads<'a, S> {
    pads: &'a [S],
    order: &'a [usize],
    levels: Vec<Level>,
}

/// The end of a run of at most so many places that begins at a place.
fn end_of(start: usize, size: usize, count: usize) -> usize
    requires { start < count }
    ensures more { start < result }
    ensures within { result ≤ count }
{
    start + size.max(1).min(count - start)
}

/// A hull that contains another one and that of a pad, if there is one.
fn hull_around<S: DepthShape>(hull: Option<Hull>, pad: &S) -> Option<Hull>
    ensures wider { IfSome result (λ outer. IsSomeAnd hull (IsWiderThan outer)) }
    ensures pad { IfSome result (IsHullOf S.covers pad.now) }
{
    hull?.around(&pad.hull()?)
}

/// The group of the pads from a place of the order to another.
fn group_of<S: DepthShape>(pads: &[S], order: &[usize], start: usize, end: usize) -> Group
    requires order { All (λ k. k < length pads.now) order.now }
    requires start { start < end }
    requires end { end ≤ length order.now }
    ensures { IsGroup S.covers pads.now order.now result }
{
    let mut first = usize::MAX;
    let mut hull = pads[order[start]].hull();
    for i in start..end {
        let place = order[i];
        first = first.min(place);
        hull = hull_around(hull, &pads[place]);
    }
    Group {
        start,
        end,
        first,
        hull,
    }
}

/// The level of the groups of a size.
fn level_of<S: DepthShape>(
    alloc: Global,
    pads: &[S],
    order: &[usize],
    size: usize,
) -> Result<Level, AllocError>
    requires order { All (λ k. k < length pads.now) order.now }
    ensures { IfOk result (AreGroups S.covers pads.now order.now) }
{
    let mut groups = Vec::new(alloc);
    let mut start = 0;
    while start < order.len() {
        let end = end_of(start, size, order.len());
        groups.push(group_of(pads, order, start, end))?;
        start = end;
    }
    Ok(Level { size, groups })
}

/// The levels whose groups have fewer pads than all.
fn levels_of<S: DepthShape>(
    alloc: Global,
    pads: &[S],
    order: &[usize],
) -> Result<Vec<Level>, AllocError>
    requires order { All (λ k. k < length pads.now) order.now }
    ensures { IfOk result (λ levels. All (AreGroups S.covers pads.now order.now) levels.items) }
{
    let mut levels = Vec::new(alloc);
    for size in SIZES {
        if size < order.len() {
            levels.push(level_of(alloc, pads, order, size)?)?;
        }
    }
    Ok(levels)
}

/// Whether a hull, if there is one, does not hold both ends of a hole so deep, in pm. `false` says nothing.
fn holds_none(hull: &Option<Hull>, hole: &Hole, depth: u64) -> bool
    ensures { result ≡ true → HoldsNone hull.now depth hole.now }
{
    match hull {
        Some(hull) => !hull.holds(hole.from(), depth) || !hull.holds(hole.to(), depth),
        None => false,
    }
}

impl Group {
    /// Whether none of the pads is better for a hole than its best so far. `false` says nothing.
    fn is_no_better(&self, hole: &Hole, best: Option<BestPad>) -> bool
        ensures { result ≡ true → HoldsNone self.now.hull (required_depth best self.now.first) hole.now }
    {
        holds_none(&self.hull, hole, required(best, self.first).unsigned_abs())
    }
}

impl<S: DepthShape> LargePads<'_, S> {
    /// Where the group of a level ends that begins at a place of the order, if none of its pads is better for a hole than
    /// its best so far; else that place.
    fn passed_in(&self, level: &Level, done: usize, hole: &Hole, best: Option<BestPad>) -> usize
        requires groups { AreGroups S.covers self.now.pads.now self.now.order.now level.now }
        requires done { done ≤ length self.now.order.now }
        ensures within { result ≤ length self.now.order.now }
        ensures below { AreNoBetter S.covers self.now.pads.now self.now.order.now done result hole.now best }
    {
        match level.groups.get(done / level.size.max(1)) {
            Some(group) if group.start == done && group.is_no_better(hole, best) => group.end,
            _ => done,
        }
    }

    /// Where the largest group ends that begins at a place of the order and has no better pad; else that place.
    fn passed(&self, done: usize, hole: &Hole, best: Option<BestPad>) -> usize
        requires levels { All (AreGroups S.covers self.now.pads.now self.now.order.now) self.now.levels.items }
        requires done { done ≤ length self.now.order.now }
        ensures within { result ≤ length self.now.order.now }
        ensures below { AreNoBetter S.covers self.now.pads.now self.now.order.now done result hole.now best }
    {
        for level in &self.levels {
            let passed = self.passed_in(level, done, hole, best);
            if done < passed {
                return passed;
            }
        }
        done
    }

    /// Tries the pads from a place of the order to another at a hole.
    fn try_run(
        &self,
        start: usize,
        end: usize,
        hole: &Hole,
        best: Option<BestPad>,
    ) -> Option<BestPad>
        requires order { All (λ k. k < length self.now.pads.now) self.now.order.now }
        requires end { end ≤ length self.now.order.now }
        ensures improves { Improves S.covers self.now.pads.now hole.now best result }
        ensures below { AreNoBetter S.covers self.now.pads.now self.now.order.now start end hole.now result }
    {
        let mut held = best;
        for i in start..end {
            held = better(held, self.pads, self.order[i], hole);
        }
        held
    }

    /// Tries a few pads from a place of the order on, or passes over more that are no better. Returns the place where it
    /// stopped, and the best pad.
    fn step(&self, done: usize, hole: &Hole, best: Option<BestPad>) -> (usize, Option<BestPad>)
        requires order { All (λ k. k < length self.now.pads.now) self.now.order.now }
        requires levels { All (AreGroups S.covers self.now.pads.now self.now.order.now) self.now.levels.items }
        requires done { done < length self.now.order.now }
        ensures further { done < result.0 }
        ensures within { result.0 ≤ length self.now.order.now }
        ensures improves { Improves S.covers self.now.pads.now hole.now best result.1 }
        ensures below { AreNoBetter S.covers self.now.pads.now self.now.order.now done result.0 hole.now result.1 }
    {
        let passed = self.passed(done, hole, best);
        if done < passed {
            return (passed, best);
        }
        let end = end_of(done, FEW, self.order.len());
        (end, self.try_run(done, end, hole, best))
    }

    /// Tries all pads of the order at a hole.
    fn try_order(&self, hole: &Hole, best: Option<BestPad>) -> Option<BestPad>
        requires order { All (λ k. k < length self.now.pads.now) self.now.order.now }
        requires levels { All (AreGroups S.covers self.now.pads.now self.now.order.now) self.now.levels.items }
        ensures improves { Improves S.covers self.now.pads.now hole.now best result }
        ensures below { AreNoBetter S.covers self.now.pads.now self.now.order.now 0 (length self.now.order.now) hole.now result }
    {
        let mut held = best;
        let mut done = 0;
        while done < self.order.len() {
            let step = self.step(done, hole, held);
            done = step.0;
            held = step.1;
        }
        held
    }

    /// Tries first a pad that may well be the best of a hole, and then all pads of the order.
    fn try_guess(&self, guess: usize, hole: &Hole, best: Option<BestPad>) -> Option<BestPad>
        requires order { All (λ k. k < length self.now.pads.now) self.now.order.now }
        requires levels { All (AreGroups S.covers self.now.pads.now self.now.order.now) self.now.levels.items }
        ensures improves { Improves S.covers self.now.pads.now hole.now best result }
        ensures below { AreNoBetter S.covers self.now.pads.now self.now.order.now 0 (length self.now.order.now) hole.now result }
    {
        if guess < self.pads.len() {
            let best = better(best, self.pads, guess, hole);
            return self.try_order(hole, best);
        }
        self.try_order(hole, best)
    }

    /// Tries the pads at all holes. What was the best of one hole is the first guess for the next one.
    fn try_all(&self, holes: &[Drilled], bests: &mut [Option<BestPad>])
        requires order { All (λ k. k < length self.now.pads.now) self.now.order.now }
        requires levels { All (AreGroups S.covers self.now.pads.now self.now.order.now) self.now.levels.items }
        requires size { length bests.old ≡ length holes.now }
        ensures improves { AllImprove S.covers self.now.pads.now holes.now bests.old bests.new }
        ensures below { (k : ℕ) → k < length holes.now → AreNoBetter S.covers self.now.pads.now self.now.order.now 0 (length self.now.order.now) (hole_at holes.now k) (get_or bests.new k None) }
    {
        let mut guess = 0;
        for k in 0..holes.len() {
            let best = self.try_guess(guess, &holes[k].hole, bests[k]);
            guess = best.map_or(guess, |best| best.pad);
            bests[k] = best;
        }
    }
}

/// The places of large pads, in their order.
fn ordered<S: DepthShape>(pads: &[S], large: Vec<usize>) -> Result<Vec<usize>, AllocError>
    ensures { IfOk result (λ order. IsPermutation large.items order.items) }
{
    let mut order = large;
    order.sort_by_cached_key(|place| order_key(pads.get(*place)))?;
    Ok(order)
}

/// Tries large pads in their order at all holes.
fn try_ordered<S: DepthShape>(
    alloc: Global,
    pads: &[S],
    order: &[usize],
    holes: &[Drilled],
    bests: &mut [Option<BestPad>],
) -> Result<(), AllocError>
    requires order { All (λ k. k < length pads.now) order.now }
    requires size { length bests.old ≡ length holes.now }
    ensures improves { OnOk result (AllImprove S.covers pads.now holes.now bests.old bests.new) }
    ensures below { OnOk result ((place : ℕ) → Contains order.now place → IsNoBetterForAll S.covers pads.now place holes.now bests.new) }
{
    let levels = levels_of(alloc, pads, order)?;
    let large = LargePads {
        pads,
        order,
        levels,
    };
    large.try_all(holes, bests);
    Ok(())
}

/// Tries large pads at all holes. Where there are none, no hole is looked at.
///
/// # Errors
///
/// Where there is no memory.
pub(crate) fn try_large<S: DepthShape>(
    alloc: Global,
    pads: &[S],
    large: Vec<usize>,
    holes: &[Drilled],
    bests: &mut [Option<BestPad>],
) -> Result<(), AllocError>
    requires large { All (λ k. k < length pads.now) large.items }
    requires size { length bests.old ≡ length holes.now }
    ensures improves { OnOk result (AllImprove S.covers pads.now holes.now bests.old bests.new) }
    ensures below { OnOk result ((place : ℕ) → Contains large.items place → IsNoBetterForAll S.covers pads.now place holes.now bests.new) }
{
    if large.is_empty() {
        return Ok(());
    }
    let order = ordered(pads, large)?;
    try_ordered(alloc, pads, &order, holes, bests)?;
    Ok(())
}
