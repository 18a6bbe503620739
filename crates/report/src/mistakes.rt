//! The lines of drill files whose coordinates seem to be off by a factor.

ghost use Rattle.std.specs.Prelude.{◌≡◌, ◌≤◌, List, length, map, IfOk};
ghost use Rattle.pad_shapes.specs.WidePads.{wide_pad_covers};
ghost use Rattle.pad_shapes.specs.declared.wide_pad.WidePad.{WidePad as ThePad};
ghost use Rattle.ring_rules.specs.declared.finding.Drilled.{Drilled as TheDrilled};
ghost use Rattle.board.specs.BestPads.{AreBare, AreBestPads};
ghost use Rattle.report.specs.UnitMistakes.{AreFileRanges, AreUnitMistakes, IsUnitMistakeOrNone, bare_count_with, factors, holes_in};
ghost use Rattle.report.specs.Inner.RescaledCounts.{AreSuspects, AreTried, IsSuspect, IsFewest, holes_of};
ghost use Rattle.report.specs.declared.mistakes.FileRange.{FileRange as TheFileRange};

use crate::UnitMistake;
use crate::bare::{bare_by_bests, round_among, round_bare_count};
use crate::counts::HoleRange;
use crate::fewest::{Fewest, Tried, try_factors};
use board::BestPad;
use pad_shapes::WidePad;
use ring_rules::Drilled;
use std::alloc::{AllocError, Global};

/// A drill file, and where its holes are in a list of holes.
#[derive(Clone, Copy)]
pub struct FileRange {
    /// The index of the drill file, from 0.
    pub drill: usize,
    /// The place of its first hole, from 0.
    pub start: usize,
    /// The place after its last hole.
    pub end: usize,
}

/// The holes of a file that are to be tried at other places: all of them where more than half of the round ones are bare, else none.
#[derive(Clone, Copy)]
struct Suspect {
    range: HoleRange,
    /// How many of them are round and bare.
    bare: usize,
}

/// Which holes of a file are to be tried at other places, given of each hole whether it is bare.
fn suspect_of(holes: &[Drilled], bare: &[bool], file: FileRange) -> Suspect
    requires ordered { file.start ≤ file.end }
    requires inside { file.end ≤ length holes.now }
    requires size { length bare.now ≡ length holes.now }
    ensures { (pads : List ThePad) → AreBare wide_pad_covers pads holes.now bare.now → IsSuspect pads holes.now file result }
{
    let (start, end) = (file.start, file.end);
    let own = &holes[start..end];
    let bare = round_bare_count(&bare[start..end], own);
    if (round_among(own) as u128) < 2 * (bare as u128) {
        let range = HoleRange { start, end };
        return Suspect { range, bare };
    }
    let range = HoleRange { start, end: start };
    Suspect { range, bare: 0 }
}

/// Which holes of each file are to be tried at other places.
fn suspects_of(
    alloc: Global,
    holes: &[Drilled],
    bare: &[bool],
    files: &[FileRange],
) -> Result<Vec<Suspect>, AllocError>
    requires files { AreFileRanges holes.now files.now }
    requires size { length bare.now ≡ length holes.now }
    ensures { IfOk result (λ suspects. (pads : List ThePad) → AreBare wide_pad_covers pads holes.now bare.now → AreSuspects pads holes.now files.now suspects.items) }
{
    let mut suspects = Vec::new(alloc);
    for file in files {
        suspects.push(suspect_of(holes, bare, *file))?;
    }
    Ok(suspects)
}

/// The stretches of holes that are to be tried at other places.
fn ranges_of(alloc: Global, suspects: &[Suspect]) -> Result<Vec<HoleRange>, AllocError>
    ensures { IfOk result (λ ranges. ranges.items ≡ map (λ suspect. suspect.range) suspects.now) }
{
    suspects.iter().map(|suspect| suspect.range).collect(alloc)
}

/// The line of a file, given the factor by which the fewest of its holes would be bare.
fn line_of(drill: usize, suspect: Suspect, fewest: Fewest) -> Option<UnitMistake>
    ensures { (pads : List ThePad) (holes : List TheDrilled) (file : TheFileRange) → file.drill ≡ drill → IsSuspect pads holes file suspect
        → IsFewest (bare_count_with pads (holes_of holes suspect.range)) factors fewest → IsUnitMistakeOrNone pads (holes_in holes file) drill result }
{
    if 2 * (fewest.bare as u128) < (suspect.bare as u128) {
        return Some(UnitMistake {
            drill,
            bare: suspect.bare,
            factor: fewest.factor,
            then: fewest.bare,
        });
    }
    None
}

/// The line of each file, given the factor by which the fewest of its holes would be bare.
fn lines_by(
    alloc: Global,
    files: &[FileRange],
    suspects: &[Suspect],
    tried: &[Tried],
) -> Result<Vec<Option<UnitMistake>>, AllocError>
    requires suspects { length suspects.now ≡ length files.now }
    requires tried { length tried.now ≡ length files.now }
    ensures { (pads : List ThePad) (holes : List TheDrilled) → AreSuspects pads holes files.now suspects.now → AreTried pads holes (map (λ suspect. suspect.range) suspects.now) factors tried.now
        → IfOk result (λ lines. AreUnitMistakes pads holes files.now lines.items) }
{
    let mut lines = Vec::new(alloc);
    for (place, file) in files.iter().enumerate() {
        let fewest = tried[place].fewest;
        lines.push(line_of(file.drill, suspects[place], fewest))?;
    }
    Ok(lines)
}

/// The line of each of some drill files, in their order, by the pads of the first layer, all holes and their best
/// pads there. A file has a line where more than half of its round holes are bare, and less than half of these would
/// be by a factor. The line names the first of the factors by which the fewest would be. Bare holes are looked for
/// at most once for each of the four factors, among the holes of all files that have more than half of theirs bare; those of a
/// file no more once none of them would be by a factor.
///
/// # Errors
///
/// Where there is no memory.
pub fn unit_mistakes(
    alloc: Global,
    pads: &[WidePad],
    holes: &[Drilled],
    bests: &[Option<BestPad>],
    files: &[FileRange],
) -> Result<Vec<Option<UnitMistake>>, AllocError>
    requires files { AreFileRanges holes.now files.now }
    requires bests { AreBestPads wide_pad_covers pads.now holes.now bests.now }
    ensures { IfOk result (λ lines. AreUnitMistakes pads.now holes.now files.now lines.items) }
{
    let bare = bare_by_bests(alloc, bests)?;
    let suspects = suspects_of(alloc, holes, &bare, files)?;
    let ranges = ranges_of(alloc, &suspects)?;
    let tried = try_factors(alloc, pads, holes, &ranges)?;
    lines_by(alloc, files, &suspects, &tried)
}
