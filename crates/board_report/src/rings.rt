//! The entries of holes that lack their rings.

ghost use Rattle.std.specs.Prelude.{◌≡◌, ◌<◌, ◌++◌, ◌∷◌, [], IfOk, IfSome, OnOk, Ok, length};
ghost use Rattle.std.specs.List.{All, AllZip, filter};
ghost use Rattle.ring_rules.specs.WithoutFindings.{NamesPlaces};
ghost use Rattle.board_report.specs.Rows.{AreFilesWithHoles};
ghost use Rattle.report.specs.Causes.{uncounted_pads};
ghost use Rattle.board_report.specs.Inner.EntriesSoFar.{AddsEntry, AreBoardBests, HoldsLayer, IsCurrentLayer, IsBoardData};
ghost use Rattle.board_report.specs.BoardReport.{IsRingEntry, IsRingEntryAt, is_of_ring, layer_rows, layer_uncounted};

use crate::FileHoles;
use crate::places::hole_at;
use crate::rows::layer_index;
use board::{BestPad, Board};
use grid_units::Rules;
use pad_shapes::FeatureRow;
use report::{CauseFinder, FurtherCopper, RingLack};
use ring_rules::Finding;
use std::alloc::{AllocError, Global};

/// The data made once for a board, for all entries of its rings.
#[derive(Drop)]
pub(crate) struct BoardData<'a> {
    /// The best pad of each layer for each hole.
    pub(crate) bests: &'a [Vec<Option<BestPad>>],
    /// The drill files that have holes.
    pub(crate) files: &'a [FileHoles],
    /// The ring that the holes need, and their gap.
    pub(crate) rules: Rules,
}

/// The data of one layer, for the causes of its holes.
#[derive(Drop)]
pub(crate) struct CurrentLayer {
    /// The place of the layer among the copper files.
    pub(crate) layer: usize,
    pub(crate) causes: CauseFinder,
}

/// The rows of a layer.
fn layer_rows(board: &Board, layer: usize) -> &[FeatureRow]
    ensures { result.now ≡ layer_rows board.now layer }
{
    board.rows_of(layer_index(board, layer))
}

/// The pads of a layer that its profile does not count.
fn layer_uncounted(board: &Board, layer: usize) -> FurtherCopper<'_>
    ensures { uncounted_pads result ≡ layer_uncounted board.now layer }
{
    let file = layer_index(board, layer);
    FurtherCopper {
        macros: board.macros_of(file),
        contours: board.contours_of(file),
    }
}

/// The data of a layer for its causes, by its rows, its pads and the best of them for each hole, and those that do not count.
fn cause_finder_on(
    alloc: Global,
    board: &Board,
    board_data: &BoardData,
    layer: usize,
) -> Result<CauseFinder, AllocError>
    requires { IsBoardData board.now board_data.now }
    ensures { IfOk result (HoldsLayer board.now layer) }
{
    let rows = layer_rows(board, layer);
    let uncounted = layer_uncounted(board, layer);
    let holes = board.holes();
    match board_data.bests.get(layer) {
        Some(bests) => CauseFinder::with_bests(alloc, rows, bests, uncounted, holes),
        None => CauseFinder::new(alloc, rows, board.pads_of(layer), uncounted, holes),
    }
}

/// The data of a layer: those at hand, if they are of this layer.
fn switch_layer(
    alloc: Global,
    board: &Board,
    board_data: &BoardData,
    current: Option<CurrentLayer>,
    layer: usize,
) -> Result<CurrentLayer, AllocError>
    requires board_data { IsBoardData board.now board_data.now }
    requires current { IfSome current (IsCurrentLayer board.now) }
    ensures current { IfOk result (IsCurrentLayer board.now) }
    ensures layer { IfOk result (λ current. current.layer ≡ layer) }
{
    if let Some(current) = current {
        if current.layer == layer {
            return Ok(current);
        }
    }
    let causes = cause_finder_on(alloc, board, board_data, layer)?;
    Ok(CurrentLayer { layer, causes })
}

/// The entry of a hole that lacks its ring, by the data of the layer.
fn ring_lack(
    board: &Board,
    board_data: &BoardData,
    current: &CurrentLayer,
    hole: usize,
) -> Result<RingLack, AllocError>
    requires board_data { IsBoardData board.now board_data.now }
    requires current { IsCurrentLayer board.now current.now }
    requires hole { hole < length board.now.holes }
    ensures { IfOk result (IsRingEntryAt board.now board_data.now.rules current.now.layer hole) }
{
    let rows = layer_rows(board, current.layer);
    let pads = board.pads_of(current.layer);
    let uncounted = layer_uncounted(board, current.layer);
    let holes = board.holes();
    let causes = &current.causes;
    Ok(RingLack {
        layer: current.layer,
        at: hole_at(board, board_data.files, hole),
        cause: causes.cause(rows, pads, uncounted, holes, hole, board_data.rules)?,
    })
}

/// Appends an item, where there was memory for it.
fn add<T: Copy>(all: &mut Vec<T>, item: Result<T, AllocError>) -> Result<(), AllocError>
    ensures { OnOk result ((one : T) × (item ≡ Ok one) × (all.new.items ≡ all.old.items ++ one ∷ [])) }
{
    all.push(item?)?;
    Ok(())
}

/// Appends the entry of a hole that lacks its ring on a layer.
fn push_at(
    alloc: Global,
    board: &Board,
    board_data: &BoardData,
    current: Option<CurrentLayer>,
    layer: usize,
    hole: usize,
    output: &mut Vec<RingLack>,
) -> Result<Option<CurrentLayer>, AllocError>
    requires board_data { IsBoardData board.now board_data.now }
    requires current { IfSome current (IsCurrentLayer board.now) }
    requires hole { hole < length board.now.holes }
    ensures current { IfOk result (λ some. IfSome some (IsCurrentLayer board.now)) }
    ensures adds { OnOk result ((lack : RingLack) × IsRingEntryAt board.now board_data.now.rules layer hole lack × (output.new.items ≡ output.old.items ++ lack ∷ [])) }
{
    let current = switch_layer(alloc, board, board_data, current, layer)?;
    add(output, ring_lack(board, board_data, &current, hole))?;
    Ok(Some(current))
}

/// Appends the entry of a finding, if it is one of a ring.
fn push(
    alloc: Global,
    board: &Board,
    board_data: &BoardData,
    current: Option<CurrentLayer>,
    finding: Finding,
    output: &mut Vec<RingLack>,
) -> Result<Option<CurrentLayer>, AllocError>
    requires board_data { IsBoardData board.now board_data.now }
    requires current { IfSome current (IsCurrentLayer board.now) }
    requires places { NamesPlaces (length board.now.layers) (length board.now.holes) finding }
    ensures current { IfOk result (λ some. IfSome some (IsCurrentLayer board.now)) }
    ensures adds { OnOk result (AddsEntry (is_of_ring finding) (IsRingEntry board.now board_data.now.rules) finding output.old.items output.new.items) }
{
    match finding {
        Finding::Ring { layer, hole } | Finding::Oblique { layer, hole } => {
            push_at(alloc, board, board_data, current, layer, hole, output)
        }
        Finding::Gap { .. } => Ok(current),
    }
}

/// The entries of those findings that are of rings, in order, by the best pads of each layer and the drill files that have holes. The data of
/// a layer are kept until a finding names another layer.
pub(crate) fn ring_lacks(
    alloc: Global,
    board: &Board,
    bests: &[Vec<Option<BestPad>>],
    files: &[FileHoles],
    findings: &[Finding],
    rules: Rules,
) -> Result<Vec<RingLack>, AllocError>
    requires bests { AreBoardBests board.now bests.now }
    requires files { AreFilesWithHoles board.now files.now }
    requires places { All (NamesPlaces (length board.now.layers) (length board.now.holes)) findings.now }
    ensures { IfOk result (λ output. AllZip (IsRingEntry board.now rules) (filter is_of_ring findings.now) output.items) }
{
    let board_data = BoardData {
        bests,
        files,
        rules,
    };
    let mut output = Vec::new(alloc);
    let mut current = None;
    for finding in findings {
        current = push(alloc, board, &board_data, current, *finding, &mut output)?;
    }
    Ok(output)
}
