//! The report on a package.

ghost use Rattle.std.specs.Prelude.{◌≡◌, IfOk, length, true};
ghost use Rattle.std.specs.List.{All};
ghost use Rattle.ring_rules.specs.WithoutFindings.{NamesPlaces};
ghost use Rattle.ring_rules.specs.Findings.{gap_findings};
ghost use Rattle.board.specs.Boards.{board_findings};
ghost use Rattle.board.specs.Meets.{MeetsGaps, allows};
ghost use Rattle.board_report.specs.Inner.EntriesSoFar.{AreBoardBests};
ghost use Rattle.board_report.specs.BoardReport.{IsBoardReport};

use crate::files_with_holes;
use crate::gaps::gap_lacks;
use crate::heads::{heads, role_conflicts};
use crate::measure::measure_of;
use crate::rings::ring_lacks;
use board::laws::gaps_pass;
use board::{BestPad, Board, Met, ring_findings_from_bests};
use grid_units::Rules;
use pad_shapes::WidePad;
use report::BoardReport;
use ring_rules::laws::findings_name_places;
use ring_rules::{Drilled, Finding, gap_findings};
use std::alloc::{AllocError, Global};

/// Whether the gap that is met allows that of the rules.
fn allows_gap(met: Met, rules: Rules) -> bool
    ensures { result ≡ true → allows met rules.gap }
{
    match met {
        Met::Any => true,
        Met::UpTo(length) => rules.gap() <= length,
        Met::None => false,
    }
}

/// The findings of gaps, by the greatest gap that the holes meet: where that allows the rule there is none, and none is searched for.
fn gaps_beyond(
    alloc: Global,
    holes: &[Drilled],
    met: Met,
    rules: Rules,
) -> Result<Vec<Finding>, AllocError>
    requires { MeetsGaps holes.now met }
    ensures { IfOk result (λ findings. findings.items ≡ gap_findings rules.gap holes.now) }
{
    gaps_pass();
    if allows_gap(met, rules) {
        return Ok(Vec::new(alloc));
    }
    gap_findings(alloc, holes, rules)
}

/// The findings of a board: those of rings, by the best pads of its layers, then those of gaps, by the greatest gap that it meets. They name
/// layers and holes of the board.
fn findings_on(
    alloc: Global,
    board: &Board,
    bests: &[Vec<Option<BestPad>>],
    gap: Met,
    rules: Rules,
) -> Result<Vec<Finding>, AllocError>
    requires bests { AreBoardBests board.now bests.now }
    requires gap { MeetsGaps board.now.holes gap }
    ensures are { IfOk result (λ found. found.items ≡ board_findings rules board.now) }
    ensures places { IfOk result (λ found. All (NamesPlaces (length board.now.layers) (length board.now.holes)) found.items) }
{
    findings_name_places::<WidePad>();
    let layers = board.layers(alloc)?;
    let holes = board.holes();
    let mut findings = ring_findings_from_bests(alloc, &layers, holes, bests, rules)?;
    let gaps = gaps_beyond(alloc, holes, gap, rules)?;
    findings.extend_from_slice(&gaps)?;
    Ok(findings)
}

/// The report on a board under these rules, in the profile that they name.
///
/// # Errors
///
/// An `AllocError` when memory runs out.
pub fn report_on(alloc: Global, board: &Board, rules: Rules) -> Result<BoardReport, AllocError>
    ensures { IfOk result (IsBoardReport rules board.now) }
{
    let (measure, bests) = measure_of(alloc, board, rules.profile(), true)?;
    let findings = findings_on(alloc, board, &bests, measure.meets.gap, rules)?;
    let files = files_with_holes(alloc, board)?;
    Ok(BoardReport {
        rules,
        layers: heads(alloc, board)?,
        rings: ring_lacks(alloc, board, &bests, &files, &findings, rules)?,
        gaps: gap_lacks(alloc, board, &files, &findings, rules)?,
        scales: measure.scales,
        conflicts: role_conflicts(alloc, board)?,
        meets: measure.meets,
    })
}
