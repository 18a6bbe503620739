//! The lines of drill files whose coordinates seem to be off by a factor.

ghost use Rattle.std.specs.Prelude.{◌≡◌, ◌++◌, ◌<◌, length, IfOk, OnOk};
ghost use Rattle.pad_shapes.specs.WidePads.{wide_pad_covers};
ghost use Rattle.board.specs.BestPads.{AreBestPads};
ghost use Rattle.board_report.specs.Rows.{AreUnitMistakes, first_pads, is_plated};
ghost use Rattle.board_report.specs.Inner.Tables.{AreSearched, AreFoundMistakes, IsSearched, IsLayerFileHoles, mistake_list};

use crate::places::end_of;
use crate::rows::LayerFileHoles;
use board::{BestPad, Board, FileSum};
use pad_shapes::WidePad;
use report::{FileRange, UnitMistake};
use std::alloc::{AllocError, Global};

/// Whether a file is a drill file of plated holes.
fn is_plated(file: &FileSum) -> bool
    ensures { result ≡ is_plated file.now }
{
    matches!(file, FileSum::Drill { plated: true, .. })
}

/// The holes that are searched for a scale: those of a file if they are plated, else none.
fn searched_holes(board: &Board, file_holes: &LayerFileHoles) -> FileRange
    requires inside { file_holes.now.drill < length board.now.files }
    requires file_holes { IsLayerFileHoles board.now file_holes.now }
    ensures { IsSearched board.now file_holes.now.drill result }
{
    let end = if is_plated(&board.files()[file_holes.drill]) {
        file_holes.end
    } else {
        file_holes.start
    };
    FileRange {
        drill: file_holes.drill,
        start: file_holes.start,
        end,
    }
}

/// For each file the holes that are searched for a scale.
fn all_searched(alloc: Global, board: &Board) -> Result<Vec<FileRange>, AllocError>
    ensures { IfOk result (λ searched. AreSearched board.now (length board.now.files) searched.items) }
{
    let files = board.files();
    let mut searched = Vec::new(alloc);
    let mut start = 0;
    for drill in 0..files.len() {
        let end = end_of(board, drill, start);
        let file_holes = LayerFileHoles {
            layer: 0,
            drill,
            start,
            end,
        };
        searched.push(searched_holes(board, &file_holes))?;
        start = end;
    }
    Ok(searched)
}

fn push_line(lines: &mut Vec<UnitMistake>, line: Option<UnitMistake>) -> Result<(), AllocError>
    ensures { OnOk result (lines.new.items ≡ lines.old.items ++ mistake_list line) }
{
    if let Some(line) = line {
        lines.push(line)?;
    }
    Ok(())
}

/// The lines that are there, in order.
fn all_listed(
    alloc: Global,
    board: &Board,
    found: &[Option<UnitMistake>],
) -> Result<Vec<UnitMistake>, AllocError>
    requires { AreFoundMistakes board.now found.now }
    ensures { IfOk result (λ lines. AreUnitMistakes board.now (length board.now.files) lines.items) }
{
    let mut lines = Vec::new(alloc);
    for line in found {
        push_line(&mut lines, *line)?;
    }
    Ok(lines)
}

/// The lines of a board's scales, by the pads of its first layer and the best of these for each hole.
pub(crate) fn unit_mistakes(
    alloc: Global,
    board: &Board,
    pads: &[WidePad],
    bests: &[Option<BestPad>],
) -> Result<Vec<UnitMistake>, AllocError>
    requires bests { AreBestPads wide_pad_covers pads.now board.now.holes bests.now }
    requires pads { pads.now ≡ first_pads board.now }
    requires layer { 0 < length board.now.layers }
    ensures { IfOk result (λ lines. AreUnitMistakes board.now (length board.now.files) lines.items) }
{
    let searched = all_searched(alloc, board)?;
    let found = report::unit_mistakes(alloc, pads, board.holes(), bests, &searched)?;
    all_listed(alloc, board, &found)
}
