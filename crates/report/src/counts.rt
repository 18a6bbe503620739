//! How many holes of some drill files would be bare with their coordinates times a factor. All files are looked at together.

ghost use Rattle.std.specs.Prelude.{◌≡◌, ◌∷◌, [], ◌≤◌, List, length, IfOk, OnOk};
ghost use Rattle.pad_shapes.specs.WidePads.{wide_pad_covers};
ghost use Rattle.pad_shapes.specs.declared.wide_pad.WidePad.{WidePad as ThePad};
ghost use Rattle.board.specs.BestPads.{AreBare};
ghost use Rattle.report.specs.declared.UnitFactor.{UnitFactor as TheFactor};
ghost use Rattle.report.specs.UnitMistakes.{bare_count_with, round_count};
ghost use Rattle.report.specs.Inner.RescaledCounts.{AreCounted, AreRescaled, AreHoleRanges, AreRescaledRanges, AddsRange};

use crate::UnitFactor;
use crate::bare::{all_rescaled, round_among, round_bare_count};
use board::bare_holes;
use pad_shapes::WidePad;
use ring_rules::Drilled;
use std::alloc::{AllocError, Global};

/// Some consecutive holes of a list.
#[derive(Clone, Copy)]
pub(crate) struct HoleRange {
    /// The place of the first hole, from 0.
    pub(crate) start: usize,
    /// The place after the last hole.
    pub(crate) end: usize,
}

/// The round holes of some stretches with their coordinates times a factor; and where those of each stretch begin,
/// with the end of the last.
#[derive(Drop)]
struct RescaledHoles {
    holes: Vec<Drilled>,
    bounds: Vec<usize>,
}

impl RescaledHoles {
    /// No holes so far.
    fn new(alloc: Global) -> Result<RescaledHoles, AllocError>
        ensures { IfOk result (λ gathered. (gathered.holes.items ≡ []) × (gathered.bounds.items ≡ 0 ∷ [])) }
    {
        Ok(RescaledHoles {
            holes: Vec::new(alloc),
            bounds: vec![in alloc; 0]?,
        })
    }

    /// Adds the round holes of one more stretch.
    fn add(
        &mut self,
        alloc: Global,
        holes: &[Drilled],
        factor: UnitFactor,
    ) -> Result<(), AllocError>
        ensures { OnOk result (AddsRange factor holes.now self.old self.new) }
    {
        let rescaled = all_rescaled(alloc, holes, factor)?;
        self.holes.extend_from_slice(&rescaled)?;
        self.bounds.push(self.holes.len())?;
        Ok(())
    }
}

/// The round holes of all stretches with their coordinates times a factor.
fn rescale_ranges(
    alloc: Global,
    holes: &[Drilled],
    ranges: &[HoleRange],
    factor: UnitFactor,
) -> Result<RescaledHoles, AllocError>
    requires { AreHoleRanges holes.now ranges.now }
    ensures { IfOk result (AreRescaledRanges factor holes.now ranges.now) }
{
    let mut all = RescaledHoles::new(alloc)?;
    for range in ranges {
        all.add(alloc, &holes[range.start..range.end], factor)?;
    }
    Ok(all)
}

/// Whether each hole is bare. Where there are no holes, no pad is looked at.
fn bare_of(alloc: Global, pads: &[WidePad], holes: &[Drilled]) -> Result<Vec<bool>, AllocError>
    ensures { IfOk result (λ bare. AreBare wide_pad_covers pads.now holes.now bare.items) }
{
    if holes.is_empty() {
        return Ok(Vec::new(alloc));
    }
    bare_holes(alloc, pads, holes)
}

/// How many of some holes are round and would be bare. Those with a place are at their new places, with whether each
/// is bare there; a place beyond ten metres counts as bare.
fn count_of(holes: &[Drilled], rescaled: &[Drilled], bare: &[bool]) -> usize
    requires few { length rescaled.now ≤ round_count holes.now }
    requires bare { length bare.now ≡ length rescaled.now }
    ensures { (factor : TheFactor) (pads : List ThePad) → AreRescaled factor holes.now rescaled.now → AreBare wide_pad_covers pads rescaled.now bare.now → result ≡ bare_count_with pads holes.now factor }
{
    round_among(holes) - rescaled.len() + round_bare_count(bare, rescaled)
}

/// How many holes of each stretch would be bare, given of each round one whether it is bare at its new place.
fn counts_in(
    alloc: Global,
    holes: &[Drilled],
    ranges: &[HoleRange],
    all: &RescaledHoles,
    bare: &[bool],
) -> Result<Vec<usize>, AllocError>
    requires ranges { AreHoleRanges holes.now ranges.now }
    requires gathered { (factor : TheFactor) × AreRescaledRanges factor holes.now ranges.now all.now }
    requires bare { length bare.now ≡ length all.now.holes.items }
    ensures { (factor : TheFactor) (pads : List ThePad) → AreRescaledRanges factor holes.now ranges.now all.now → AreBare wide_pad_covers pads all.now.holes.items bare.now
        → IfOk result (λ counts. AreCounted pads holes.now ranges.now factor counts.items) }
{
    let mut counts = Vec::new(alloc);
    for (place, range) in ranges.iter().enumerate() {
        let (from, to) = (all.bounds[place], all.bounds[place + 1]);
        let own = &holes[range.start..range.end];
        counts.push(count_of(own, &all.holes[from..to], &bare[from..to]))?;
    }
    Ok(counts)
}

/// How many holes of each stretch are round and would be bare among the pads with their coordinates times a factor,
/// rounded down. The round holes of all stretches are looked at once, together.
pub(crate) fn counts_by(
    alloc: Global,
    pads: &[WidePad],
    holes: &[Drilled],
    ranges: &[HoleRange],
    factor: UnitFactor,
) -> Result<Vec<usize>, AllocError>
    requires { AreHoleRanges holes.now ranges.now }
    ensures { IfOk result (λ counts. AreCounted pads.now holes.now ranges.now factor counts.items) }
{
    let all = rescale_ranges(alloc, holes, ranges, factor)?;
    let bare = bare_of(alloc, pads, &all.holes)?;
    counts_in(alloc, holes, ranges, &all, &bare)
}
