//! The two holes of a board that are nearest to each other.
//!
//! Each hole is tried with those that are no larger and that may be nearer to it than the nearest pair so far. An
//! index finds these. As that pair becomes nearer, fewer are tried. There may be very many pairs at just its gap, as
//! of holes at one point. They are looked for only where they may come before it. Holes up to its first one look for
//! them; so do later ones, once all others were tried, among the holes up to that one, which have an index of their
//! own.

ghost use Rattle.std.specs.Prelude.{◌≡◌, ◌+◌, ◌<◌, ◌≤◌, ◌+ℤ◌, ◌<ℤ◌, ◌≤ℤ◌, ◌⊎◌, ℤ, pos, length, true, false, IfOk};
ghost use Rattle.ring_rules.specs.Near.{IsGapBound};
ghost use Rattle.ring_rules.specs.Places.{hole_at};
ghost use Rattle.board.specs.Gaps.{IsGap};
ghost use Rattle.board.specs.NearestHoles.{IsNoFurther, IsNearest, IsNearestOf, IsPair};
ghost use Rattle.board.specs.Inner.NearestHoles.{IsGapInRange, IsPairAt, IsPairInRange, IsNearerPair, IsNearestAmong, IsPrefix, IsNearestForHole, IsNearestForAll, IsNearestForLater};

use crate::gap::{gap_between, has_gap};
use ring_rules::{Drilled, HoleIndex, Limits, limits_of, near_zone};
use std::alloc::{AllocError, Global};

/// Two holes that are nearest to each other, by their places in the list, from 0.
#[derive(Clone, Copy, PartialEq, Eq)]
pub struct Nearest {
    /// The hole that comes first in the list.
    pub first: usize,
    /// The hole that comes later.
    pub second: usize,
    /// The gap between them, in pm; below 0 where they overlap.
    pub gap: i64,
}

/// The first holes of a list, with an index of them and lengths that none of them exceeds.
#[derive(Drop)]
struct Prefix {
    count: usize,
    index: HoleIndex,
    limits: Limits,
}

/// Whether a pair is no further than another one: by the gap, then by the first hole, then by the second.
fn is_no_further(a: &Nearest, b: &Nearest) -> bool
    ensures first { result ≡ true → IsNoFurther a.now b.now.first b.now.second b.now.gap }
    ensures other { result ≡ false → IsNoFurther b.now a.now.first a.now.second a.now.gap }
{
    if a.gap != b.gap {
        a.gap < b.gap
    } else if a.first != b.first {
        a.first < b.first
    } else {
        a.second <= b.second
    }
}

/// The pair of the holes at two places.
fn pair_at(holes: &[Drilled], first: usize, second: usize) -> Nearest
    requires ordered { first < second }
    requires inside { second < length holes.now }
    ensures { IsPairAt holes.now first second result }
{
    let gap = gap_between(&holes[first].hole, &holes[second].hole);
    Nearest { first, second, gap }
}

/// The least gap at which the holes at two places are no nearer than a pair: its own where it comes before them, else one more.
fn gap_to_beat(pair: &Nearest, first: usize, second: usize) -> i64
    requires { IsGapInRange pair.now.gap }
    ensures gap_to_beat { (gap : ℤ) → result ≤ℤ gap → IsNoFurther pair.now first second gap }
    ensures in_range { IsGapBound result }
{
    if pair.first < first || pair.first == first && pair.second <= second {
        pair.gap
    } else {
        pair.gap + 1
    }
}

/// Whether the holes at two places are no nearer than a pair. No root is taken.
fn is_further(holes: &[Drilled], first: usize, second: usize, pair: &Nearest) -> bool
    requires ordered { first < second }
    requires inside { second < length holes.now }
    requires possible { IsGapInRange pair.now.gap }
    ensures { result ≡ true → (gap : ℤ) → IsGap (hole_at holes.now first) (hole_at holes.now second) gap → IsNoFurther pair.now first second gap }
{
    let gap = gap_to_beat(pair, first, second);
    has_gap(&holes[first].hole, &holes[second].hole, gap)
}

/// The nearer of the nearest pair so far and the holes at two places, if these are a pair of the list in order.
fn tried(holes: &[Drilled], first: usize, second: usize, best: Nearest) -> Nearest
    requires { IsPairInRange holes.now best }
    ensures { IsNearerPair holes.now first second best result }
{
    if second <= first || holes.len() <= second {
        return best;
    }
    if is_further(holes, first, second, &best) {
        return best;
    }
    let next = pair_at(holes, first, second);
    if is_no_further(&best, &next) {
        best
    } else {
        next
    }
}

/// The nearest of a pair and of a hole with each of the holes at some places.
fn nearest_among(holes: &[Drilled], place: usize, near: &[usize], best: Nearest) -> Nearest
    requires { IsPairInRange holes.now best }
    ensures { IsNearestAmong holes.now place near.now (length near.now) best result }
{
    let mut nearest = best;
    for other in near {
        nearest = tried(holes, place.min(*other), place.max(*other), nearest);
    }
    nearest
}

/// The first `count` holes of a list, with their index and their limits.
fn prefix_of(alloc: Global, holes: &[Drilled], count: usize) -> Result<Prefix, AllocError>
    requires { count ≤ length holes.now }
    ensures prefix { IfOk result (IsPrefix holes.now) }
    ensures count { IfOk result (λ prefix. prefix.count ≡ count) }
{
    let first = &holes[..count];
    let index = HoleIndex::new(alloc, first, 0, 0)?;
    let limits = limits_of(first);
    Ok(Prefix {
        count,
        index,
        limits,
    })
}

/// The nearest of a pair and of a hole with each of the first holes that is no larger and has less than a gap from it.
fn nearest_for_hole(
    prefix: &Prefix,
    holes: &[Drilled],
    place: usize,
    gap: i64,
    near: &mut Vec<usize>,
    best: Nearest,
) -> Result<Nearest, AllocError>
    requires prefix { IsPrefix holes.now prefix.now }
    requires place { place < length holes.now }
    requires gap { IsGapBound gap }
    requires held { IsPairInRange holes.now best }
    ensures { IfOk result (IsNearestForHole holes.now prefix.now.count place gap best) }
{
    let zone = near_zone(&holes[place].hole, gap, prefix.limits);
    prefix.index.find(&holes[..prefix.count], &zone, near)?;
    Ok(nearest_among(holes, place, near, best))
}

/// The gap below which a hole looks for pairs after all before it have done so: one more than that of the nearest
/// pair so far, or just that where the hole comes after the first of the pair.
fn gap_below(pair: &Nearest, place: usize) -> i64
    requires { IsGapInRange pair.now.gap }
    ensures rest { (gap : ℤ) → result ≤ℤ gap → (pair.now.gap <ℤ gap) ⊎ ((pair.now.gap ≤ℤ gap) × (pair.now.first < place)) }
    ensures in_range { IsGapBound result }
{
    if place <= pair.first {
        pair.gap + 1
    } else {
        pair.gap
    }
}

/// The nearest of a pair and of each hole with those that are no larger. A pair at the gap of the answer may still
/// come before it, if its larger hole comes after the first hole of the answer.
fn nearest_for_all(
    prefix: &Prefix,
    holes: &[Drilled],
    near: &mut Vec<usize>,
    best: Nearest,
) -> Result<Nearest, AllocError>
    requires prefix { IsPrefix holes.now prefix.now }
    requires all { prefix.now.count ≡ length holes.now }
    requires held { IsPairInRange holes.now best }
    ensures { IfOk result (IsNearestForAll holes.now (length holes.now)) }
{
    let mut nearest = best;
    for place in 0..holes.len() {
        let gap = gap_below(&nearest, place);
        nearest = nearest_for_hole(prefix, holes, place, gap, near, nearest)?;
    }
    Ok(nearest)
}

/// The nearest of a pair and of each hole after the first ones with one of those that is no larger and no further away.
fn nearest_for_later(
    prefix: &Prefix,
    holes: &[Drilled],
    near: &mut Vec<usize>,
    best: Nearest,
) -> Result<Nearest, AllocError>
    requires prefix { IsPrefix holes.now prefix.now }
    requires held { IsPairInRange holes.now best }
    ensures { IfOk result (IsNearestForLater holes.now prefix.now.count (length holes.now) best) }
{
    let mut nearest = best;
    for place in prefix.count..holes.len() {
        nearest = nearest_for_hole(prefix, holes, place, best.gap + 1, near, nearest)?;
    }
    Ok(nearest)
}

/// One of the nearest pairs of a list. Others at the same gap may come before it.
fn some_nearest(alloc: Global, holes: &[Drilled]) -> Result<Nearest, AllocError>
    requires { 2 ≤ length holes.now }
    ensures { IfOk result (IsNearestForAll holes.now (length holes.now)) }
{
    let mut near = Vec::new(alloc);
    let all = prefix_of(alloc, holes, holes.len())?;
    nearest_for_all(&all, holes, &mut near, pair_at(holes, 0, 1))
}

/// The first of the nearest pairs of a list, given any of them.
fn first_nearest(alloc: Global, holes: &[Drilled], nearest: Nearest) -> Result<Nearest, AllocError>
    requires { IsNearestForAll holes.now (length holes.now) nearest }
    ensures { IfOk result (IsNearest holes.now (IsPair holes.now)) }
{
    let mut near = Vec::new(alloc);
    let early = prefix_of(alloc, holes, nearest.first + 1)?;
    nearest_for_later(&early, holes, &mut near, nearest)
}

/// The two holes with the least gap; of equal pairs the first by the first hole, then by the second. There is none
/// where there are fewer than two holes.
///
/// # Errors
///
/// Where there is no memory.
pub fn nearest_holes(alloc: Global, holes: &[Drilled]) -> Result<Option<Nearest>, AllocError>
    ensures { IfOk result (IsNearestOf holes.now (IsPair holes.now)) }
{
    if holes.len() < 2 {
        return Ok(None);
    }
    let nearest = some_nearest(alloc, holes)?;
    Ok(Some(first_nearest(alloc, holes, nearest)?))
}
