//! How many findings of a report the wide profile does not have.

ghost use Rattle.std.specs.Prelude.{◌≡◌, ◌++◌, IfOk, OnOk, not};
ghost use Rattle.std.specs.List.{list_any};
ghost use Rattle.ring_rules.specs.Search.{IsRingIndexOf};
ghost use Rattle.package_check.specs.WiderProfile.{layer_rings, wide_rings};
ghost use Rattle.package_check.specs.BoardReports.{HasFewer};

use crate::laws;
use board::Board;
use grid_units::{Profile, Rules};
use report::{BoardReport, RoleConflict};
use ring_rules::{Finding, LayerSearch, RingIndex, mean_zone_size};
use std::alloc::{AllocError, Global};

/// Whether the comments of a drill file say that holes are plated, though its role says that none is.
fn some_are_called_plated(conflicts: &[RoleConflict]) -> bool
    ensures { result ≡ list_any (λ conflict. not conflict.plated) conflicts.now }
{
    conflicts.iter().any(|conflict| !conflict.plated)
}

/// Appends the rings that lack on one layer, by the index of its file, where each pad counts that the file has.
fn push_layer(
    alloc: Global,
    index: &RingIndex,
    board: &Board,
    layer: usize,
    file: usize,
    findings: &mut Vec<Finding>,
) -> Result<(), AllocError>
    requires { IsRingIndexOf board.now.holes index.now }
    ensures { OnOk result (findings.new.items ≡ findings.old.items ++ layer_rings index.now.rules board.now (layer, file)) }
{
    let holes = board.holes();
    let mut search = LayerSearch::new(alloc, index, holes, layer)?;
    search.try_pads(index, board.pads_of(layer));
    search.try_pads(index, board.macros_of(file));
    search.try_pads(index, board.contours_of(file));
    search.push_findings(alloc, index, holes, findings)
}

/// The rings that lack on a board in the wide profile, layer by layer.
fn wide_rings(alloc: Global, board: &Board, rules: Rules) -> Result<Vec<Finding>, AllocError>
    ensures { IfOk result (λ rings. rings.items ≡ wide_rings rules board.now) }
{
    let layers = board.layers(alloc)?;
    let (width, height) = mean_zone_size(&layers);
    let rules = rules.in_profile(Profile::Wide);
    let index = RingIndex::new(alloc, board.holes(), rules, width, height)?;
    let mut rings = Vec::new(alloc);
    for (layer, file) in board.layer_indexes().iter().enumerate() {
        push_layer(alloc, &index, board, layer, *file, &mut rings)?;
    }
    Ok(rings)
}

/// How many findings of a report on a board that was read in the strict profile the wide profile does not have; 0 where that refuses one of
/// the files. The board has all pads that this takes, so no file is read again.
///
/// # Errors
///
/// An `AllocError` when memory runs out.
pub fn fewer_in_wide(
    alloc: Global,
    board: &Board,
    report: &BoardReport,
) -> Result<usize, AllocError>
    ensures { IfOk result (HasFewer board.now report.now) }
{
    laws::wide_answers_by_board();
    if some_are_called_plated(&report.conflicts) {
        return Ok(0);
    }
    let rings = wide_rings(alloc, board, report.rules)?;
    Ok(report.rings.len().saturating_sub(rings.len()))
}
