//! The factor by which the fewest holes would be bare.

ghost use Rattle.std.specs.Prelude.{◌≡◌, ◌++◌, ◌∷◌, [], ◌⊎◌, ℕ, List, length, map, IfOk};
ghost use Rattle.pad_shapes.specs.declared.wide_pad.WidePad.{WidePad as ThePad};
ghost use Rattle.ring_rules.specs.declared.finding.Drilled.{Drilled as TheDrilled};
ghost use Rattle.report.specs.declared.UnitFactor.{UnitFactor as TheFactor};
ghost use Rattle.report.specs.UnitMistakes.{factors};
ghost use Rattle.report.specs.Inner.RescaledCounts.{AreCounted, AreHoleRanges, AreTried, IsFewest, open_part};
ghost use Rattle.report.specs.declared.counts.HoleRange.{HoleRange as TheRange};

use crate::UnitFactor;
use crate::counts::{HoleRange, counts_by};
use pad_shapes::WidePad;
use ring_rules::Drilled;
use std::alloc::{AllocError, Global};

/// A factor, and how many holes would be bare by it.
#[derive(Clone, Copy)]
pub(crate) struct Fewest {
    pub(crate) factor: UnitFactor,
    pub(crate) bare: usize,
}

/// A stretch of holes, and the first of the factors tried so far by which the fewest of them would be bare.
#[derive(Clone, Copy)]
pub(crate) struct Tried {
    pub(crate) range: HoleRange,
    pub(crate) fewest: Fewest,
}

/// The holes of a stretch that a further factor is tried at: none where none would be bare by a factor before, since no factor leaves fewer.
fn open_part(tried: &Tried) -> HoleRange
    ensures { result ≡ open_part tried.now }
{
    let HoleRange { start, end } = tried.range;
    let end = if tried.fewest.bare == 0 { start } else { end };
    HoleRange { start, end }
}

/// The holes of each stretch that a further factor is tried at.
fn open_parts(alloc: Global, tried: &[Tried]) -> Result<Vec<HoleRange>, AllocError>
    ensures { IfOk result (λ parts. parts.items ≡ map open_part tried.now) }
{
    tried.iter().map(|one| open_part(one)).collect(alloc)
}

/// The factor with the fewest so far, or the next one where it has fewer. Where none would be bare so far, the next need not be counted.
fn lesser(fewest: Fewest, next: Fewest) -> Fewest
    ensures { (count : TheFactor → ℕ) (tried : List TheFactor) → IsFewest count tried fewest → (next.bare ≡ count next.factor) ⊎ (fewest.bare ≡ 0) → IsFewest count (tried ++ next.factor ∷ []) result }
{
    if next.bare < fewest.bare {
        next
    } else {
        fewest
    }
}

/// Each stretch with the first factor.
fn with_first(
    alloc: Global,
    ranges: &[HoleRange],
    counts: &[usize],
) -> Result<Vec<Tried>, AllocError>
    requires { length counts.now ≡ length ranges.now }
    ensures { IfOk result (λ tried. (pads : List ThePad) (holes : List TheDrilled) → AreCounted pads holes ranges.now UnitFactor.Ten counts.now
        → AreTried pads holes ranges.now (UnitFactor.Ten ∷ []) tried.items) }
{
    let mut tried = Vec::new(alloc);
    for (place, range) in ranges.iter().enumerate() {
        let fewest = Fewest {
            factor: UnitFactor::Ten,
            bare: counts[place],
        };
        tried.push(Tried {
            range: *range,
            fewest,
        })?;
    }
    Ok(tried)
}

/// Each stretch with one more factor, given how many of its open holes would be bare by it.
fn with_next(
    alloc: Global,
    tried: &[Tried],
    factor: UnitFactor,
    counts: &[usize],
) -> Result<Vec<Tried>, AllocError>
    requires { length counts.now ≡ length tried.now }
    ensures { IfOk result (λ all. (pads : List ThePad) (holes : List TheDrilled) (ranges : List TheRange) (earlier : List TheFactor) → AreTried pads holes ranges earlier tried.now
        → AreCounted pads holes (map open_part tried.now) factor counts.now → AreTried pads holes ranges (earlier ++ factor ∷ []) all.items) }
{
    let mut all = Vec::new(alloc);
    for (place, one) in tried.iter().enumerate() {
        let next = Fewest {
            factor,
            bare: counts[place],
        };
        all.push(Tried {
            range: one.range,
            fewest: lesser(one.fewest, next),
        })?;
    }
    Ok(all)
}

/// Tries one more factor at the stretches that it could still leave fewer bare of.
fn try_next(
    alloc: Global,
    pads: &[WidePad],
    holes: &[Drilled],
    tried: &[Tried],
    factor: UnitFactor,
) -> Result<Vec<Tried>, AllocError>
    requires { (ranges : List TheRange) × (earlier : List TheFactor) × AreHoleRanges holes.now ranges × AreTried pads.now holes.now ranges earlier tried.now }
    ensures { IfOk result (λ all. (ranges : List TheRange) (earlier : List TheFactor) → AreTried pads.now holes.now ranges earlier tried.now
        → AreTried pads.now holes.now ranges (earlier ++ factor ∷ []) all.items) }
{
    let parts = open_parts(alloc, tried)?;
    let counts = counts_by(alloc, pads, holes, &parts, factor)?;
    with_next(alloc, tried, factor, &counts)
}

/// Each stretch with the first of the factors by which the fewest of its holes would be bare.
pub(crate) fn try_factors(
    alloc: Global,
    pads: &[WidePad],
    holes: &[Drilled],
    ranges: &[HoleRange],
) -> Result<Vec<Tried>, AllocError>
    requires { AreHoleRanges holes.now ranges.now }
    ensures { IfOk result (λ tried. AreTried pads.now holes.now ranges.now factors tried.items) }
{
    let counts = counts_by(alloc, pads, holes, ranges, UnitFactor::Ten)?;
    let ten = with_first(alloc, ranges, &counts)?;
    let tenth = try_next(alloc, pads, holes, &ten, UnitFactor::Tenth)?;
    let inch = try_next(alloc, pads, holes, &tenth, UnitFactor::Inch)?;
    try_next(alloc, pads, holes, &inch, UnitFactor::PerInch)
}
