//! The extent of a board.

ghost use Rattle.std.specs.Prelude.{◌≡◌, ◌++◌, map};
ghost use Rattle.std.specs.List.{flat_map, fold};
ghost use Rattle.drawing.specs.Boxes.{cross_extent, cross_extents, extents, hole_extent, joined_to, pad_extent, whole_extent};

use crate::extent::{Extent, extent_round, hole_extent, joined_to, pad_extent};
use board::Board;
use pad_shapes::{FeatureRow, WidePad};
use ring_rules::Drilled;

/// Half a millimetre in pm: a flash that is no pad reaches this far from its point.
const HALF_MILLIMETRE: u64 = 500_000_000;

/// The extent so far, joined with those of some pads.
fn with_pads(before: Option<Extent>, pads: &[WidePad]) -> Option<Extent>
    ensures { result ≡ fold joined_to before (map pad_extent pads.now) }
{
    let mut all = before;
    for pad in pads {
        all = joined_to(all, pad_extent(pad));
    }
    all
}

/// The extent so far, joined with those of the pads of some layers.
fn with_layers(before: Option<Extent>, layers: &[&[WidePad]]) -> Option<Extent>
    ensures { result ≡ fold joined_to before (flat_map (λ layer. map pad_extent layer) (map (λ layer. layer.now) layers.now)) }
{
    let mut all = before;
    for layer in layers {
        all = with_pads(all, layer);
    }
    all
}

/// The extent so far, joined with those of some holes.
fn with_holes(before: Option<Extent>, holes: &[Drilled]) -> Option<Extent>
    ensures { result ≡ fold joined_to before (map (λ drilled. hole_extent drilled.hole) holes.now) }
{
    let mut all = before;
    for drilled in holes {
        all = joined_to(all, hole_extent(&drilled.hole));
    }
    all
}

/// The extent so far, joined with that of a row that is no pad.
fn with_row(before: Option<Extent>, row: &FeatureRow) -> Option<Extent>
    ensures { result ≡ fold joined_to before (cross_extent row.now) }
{
    if row.what.is_pad() {
        before
    } else {
        joined_to(
            before,
            extent_round(row.at, HALF_MILLIMETRE, HALF_MILLIMETRE),
        )
    }
}

/// The extent so far, joined with those of the rows of a file that are no pads.
fn with_rows(before: Option<Extent>, rows: &[FeatureRow]) -> Option<Extent>
    ensures { result ≡ fold joined_to before (flat_map cross_extent rows.now) }
{
    let mut all = before;
    for row in rows {
        all = with_row(all, row);
    }
    all
}

/// The extent so far, joined with those of the rows of some files that are no pads.
fn with_crosses(before: Option<Extent>, board: &Board, files: &[usize]) -> Option<Extent>
    ensures { result ≡ fold joined_to before (cross_extents board.now.rows files.now) }
{
    let mut all = before;
    for file in files {
        all = with_rows(all, board.rows_of(*file));
    }
    all
}

/// The extent of a board: of the pads of its layers, of its holes and of its other flashes, if it has any of these.
pub(crate) fn board_extent(layers: &[&[WidePad]], board: &Board) -> Option<Extent>
    ensures { result ≡ whole_extent (extents (map (λ layer. layer.now) layers.now) board.now.holes ++ cross_extents board.now.rows board.now.layer_indexes) }
{
    let pads_and_holes = with_holes(with_layers(None, layers), board.holes());
    with_crosses(pads_and_holes, board, board.layer_indexes())
}
