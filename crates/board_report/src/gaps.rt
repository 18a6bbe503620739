//! The entries of holes that lack their gap.

ghost use Rattle.std.specs.Prelude.{◌<◌, IfOk, OnOk, length};
ghost use Rattle.std.specs.List.{All, AllZip, filter};
ghost use Rattle.ring_rules.specs.WithoutFindings.{NamesPlaces};
ghost use Rattle.board_report.specs.Rows.{AreFilesWithHoles};
ghost use Rattle.board_report.specs.Inner.EntriesSoFar.{AddsEntry};
ghost use Rattle.board_report.specs.BoardReport.{IsGapEntry, IsGapEntryOf};
ghost use Rattle.board_report.specs.BoardReport.{is_gap};

use crate::FileHoles;
use crate::places::hole_at;
use board::{Board, gap_between};
use grid_units::Rules;
use report::GapLack;
use ring_rules::Finding;
use std::alloc::{AllocError, Global};

/// The entry of two holes that lack their gap.
fn gap_lack(
    board: &Board,
    files: &[FileHoles],
    first: usize,
    second: usize,
    rules: Rules,
) -> GapLack
    requires files { AreFilesWithHoles board.now files.now }
    requires first { first < length board.now.holes }
    requires second { second < length board.now.holes }
    ensures { IsGapEntryOf board.now rules.gap first second result }
{
    let first = hole_at(board, files, first);
    let second = hole_at(board, files, second);
    let gap = gap_between(&first.hole, &second.hole);
    GapLack {
        first,
        second,
        gap,
        lack: rules.gap() - gap,
    }
}

/// Appends the entry of a finding, if it is one of a gap.
fn push(
    board: &Board,
    files: &[FileHoles],
    finding: Finding,
    rules: Rules,
    output: &mut Vec<GapLack>,
) -> Result<(), AllocError>
    requires files { AreFilesWithHoles board.now files.now }
    requires places { NamesPlaces (length board.now.layers) (length board.now.holes) finding }
    ensures { OnOk result (AddsEntry (is_gap finding) (IsGapEntry board.now rules.gap) finding output.old.items output.new.items) }
{
    match finding {
        Finding::Gap { first, second } => {
            output.push(gap_lack(board, files, first, second, rules))?;
            Ok(())
        }
        Finding::Ring { .. } | Finding::Oblique { .. } => Ok(()),
    }
}

/// The entries of those findings that are of gaps, in order.
pub(crate) fn gap_lacks(
    alloc: Global,
    board: &Board,
    files: &[FileHoles],
    findings: &[Finding],
    rules: Rules,
) -> Result<Vec<GapLack>, AllocError>
    requires files { AreFilesWithHoles board.now files.now }
    requires named { All (NamesPlaces (length board.now.layers) (length board.now.holes)) findings.now }
    ensures { IfOk result (λ output. AllZip (IsGapEntry board.now rules.gap) (filter is_gap findings.now) output.items) }
{
    let mut output = Vec::new(alloc);
    for finding in findings {
        push(board, files, *finding, rules, &mut output)?;
    }
    Ok(output)
}
