//! The lines of rings: one for each layer, drill file and diameter at which holes need rings.

ghost use Rattle.std.specs.Prelude.{◌≡◌, ◌==◌, ◌&&◌, ◌||◌, ◌++◌, ◌∷◌, ◌+◌, ◌<◌, ◌≤◌, [], ℕ, length, get_or, IfOk, OnOk, if◌then◌else◌};
ghost use Rattle.std.specs.List.{All};
ghost use Rattle.pad_shapes.specs.WidePads.{wide_pad_covers};
ghost use Rattle.board.specs.BestPads.{AreBestPads};
ghost use Rattle.board.specs.Meets.{needs_ring};
ghost use Rattle.board_report.specs.Rows.{AreFilesWithHoles, AreRowLines, IsRowLine, places_of};
ghost use Rattle.board_report.specs.Inner.Tables.{IsRowOf, IsLayerFileHoles, IsTableOf, IsNumberedLeast, FitsFile, has_radius, items_at, row_of};

use crate::places::FileHoles;
use board::{BestPad, Board, RingRow, needs_ring, ring_row};
use grid_units::Profile;
use report::{LeastRing, RingLine};
use ring_rules::Drilled;
use std::alloc::{AllocError, Global};
use std::collections::BTreeMap;

/// The holes of a drill file, on one layer.
#[derive(Clone, Copy)]
pub(crate) struct LayerFileHoles {
    /// The place of the layer among the copper files.
    pub(crate) layer: usize,
    /// The index of the drill file.
    pub(crate) drill: usize,
    /// The place of the first hole.
    pub(crate) start: usize,
    /// The end of their places: one past the last hole.
    pub(crate) end: usize,
}

/// Adds the place of a hole after those of its radius.
fn push_place(
    alloc: Global,
    table: &mut BTreeMap<u64, Vec<usize>>,
    radius: u64,
    place: usize,
) -> Result<(), AllocError>
    ensures items { OnOk result ((other : ℕ) → items_at table.new other ≡ (if radius == other then items_at table.old other ++ place ∷ [] else items_at table.old other)) }
    ensures there { OnOk result ((other : ℕ) → has_radius table.new other ≡ (radius == other || has_radius table.old other)) }
{
    let places = table.entry(radius)?.or_insert(Vec::new(alloc));
    places.push(place)?;
    Ok(())
}

/// Adds the place of a hole after those of its radius, if it needs a ring.
fn push_needed(
    alloc: Global,
    table: &mut BTreeMap<u64, Vec<usize>>,
    layer: usize,
    drilled: &Drilled,
    place: usize,
) -> Result<(), AllocError>
    ensures items { OnOk result ((other : ℕ) → items_at table.new other ≡ (if needs_ring layer drilled.now && (drilled.now.hole.radius == other) then items_at table.old other ++ place ∷ [] else items_at table.old other)) }
    ensures there { OnOk result ((other : ℕ) → has_radius table.new other ≡ ((needs_ring layer drilled.now && (drilled.now.hole.radius == other)) || has_radius table.old other)) }
{
    if needs_ring(layer, drilled) {
        return push_place(alloc, table, drilled.hole.radius().unsigned_abs(), place);
    }
    Ok(())
}

/// The places of the holes that need a ring, by their radius.
fn table_of(
    alloc: Global,
    board: &Board,
    file_holes: &LayerFileHoles,
) -> Result<BTreeMap<u64, Vec<usize>>, AllocError>
    requires { IsLayerFileHoles board.now file_holes.now }
    ensures { IfOk result (IsTableOf board.now file_holes.now) }
{
    let holes = board.holes();
    let mut table = BTreeMap::new(alloc);
    for place in file_holes.start..file_holes.end {
        push_needed(alloc, &mut table, file_holes.layer, &holes[place], place)?;
    }
    Ok(table)
}

/// The index of the file of a layer, by its place among the copper files; 0 past the last.
pub(crate) fn layer_index(board: &Board, layer: usize) -> usize
    ensures { result ≡ get_or board.now.layer_indexes layer 0 }
{
    board.layer_indexes().get(layer).copied().unwrap_or(0)
}

/// The least ring of a row, with the number of its hole in its file.
fn numbered_least(row: &RingRow, start: usize) -> Option<LeastRing>
    requires { FitsFile row.now start }
    ensures { IsNumberedLeast row.now.least start result }
{
    match row.least {
        Some(least) => Some(LeastRing {
            ring: least.ring,
            hole: least.hole - start + 1,
        }),
        None => None,
    }
}

/// The line of a row, by the places of its holes.
fn row_line(
    board: &Board,
    profile: Profile,
    bests: &[Option<BestPad>],
    file_holes: &LayerFileHoles,
    places: &[usize],
) -> RingLine
    requires file_holes { IsLayerFileHoles board.now file_holes.now }
    requires bests { AreBestPads wide_pad_covers (get_or board.now.layers file_holes.now.layer []) board.now.holes bests.now }
    requires some { 0 < length places.now }
    requires inside { All (λ place. (file_holes.now.start ≤ place) × (place < file_holes.now.end)) places.now }
    ensures { (radius : ℕ) → places.now ≡ places_of board.now (row_of file_holes.now radius) → IsRowLine profile board.now (row_of file_holes.now radius) result }
{
    let holes = board.holes();
    let row = ring_row(profile, bests, holes, places);
    RingLine {
        layer: layer_index(board, file_holes.layer),
        drill: file_holes.drill,
        diameter: 2 * holes[places[0]].hole.radius(),
        holes: row.holes,
        bare: row.bare,
        least: numbered_least(&row, file_holes.start),
    }
}

/// The lines of a drill file on a layer, by the table of its holes.
fn lines_of_table(
    alloc: Global,
    board: &Board,
    profile: Profile,
    bests: &[Option<BestPad>],
    file_holes: &LayerFileHoles,
    table: &BTreeMap<u64, Vec<usize>>,
) -> Result<Vec<RingLine>, AllocError>
    requires file_holes { IsLayerFileHoles board.now file_holes.now }
    requires bests { AreBestPads wide_pad_covers (get_or board.now.layers file_holes.now.layer []) board.now.holes bests.now }
    requires table { IsTableOf board.now file_holes.now table.now }
    ensures { IfOk result (λ lines. AreRowLines profile board.now (IsRowOf file_holes.now) lines.items) }
{
    let mut lines = Vec::new(alloc);
    for places in table.values() {
        lines.push(row_line(board, profile, bests, file_holes, places))?;
    }
    Ok(lines)
}

/// The lines of a drill file on a layer.
fn file_lines(
    alloc: Global,
    board: &Board,
    profile: Profile,
    bests: &[Option<BestPad>],
    file_holes: &LayerFileHoles,
) -> Result<Vec<RingLine>, AllocError>
    requires file_holes { IsLayerFileHoles board.now file_holes.now }
    requires bests { AreBestPads wide_pad_covers (get_or board.now.layers file_holes.now.layer []) board.now.holes bests.now }
    ensures { IfOk result (λ lines. AreRowLines profile board.now (IsRowOf file_holes.now) lines.items) }
{
    let table = table_of(alloc, board, file_holes)?;
    lines_of_table(alloc, board, profile, bests, file_holes, &table)
}

/// Appends the lines of a layer, by the drill files that have holes and the best pads of the holes there.
pub(crate) fn push_layer_lines(
    alloc: Global,
    board: &Board,
    files: &[FileHoles],
    profile: Profile,
    bests: &[Option<BestPad>],
    layer: usize,
    lines: &mut Vec<RingLine>,
) -> Result<(), AllocError>
    requires files { AreFilesWithHoles board.now files.now }
    requires bests { AreBestPads wide_pad_covers (get_or board.now.layers layer []) board.now.holes bests.now }
    requires so_far { AreRowLines profile board.now (λ key. key.layer < layer) lines.old.items }
    ensures { OnOk result (AreRowLines profile board.now (λ key. key.layer < layer + 1) lines.new.items) }
{
    for file in files {
        let file_holes = LayerFileHoles {
            layer,
            drill: file.drill,
            start: file.start,
            end: file.end,
        };
        let its = file_lines(alloc, board, profile, bests, &file_holes)?;
        lines.extend_from_slice(&its)?;
    }
    Ok(())
}
