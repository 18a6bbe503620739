//! The drill file of a hole and the hole's number there, from its place in the list of all holes.

ghost use Rattle.std.specs.Prelude.{◌≡◌, ◌+◌, ◌<◌, ◌≤◌, length, IfOk};
ghost use Rattle.std.specs.List.{Contains};
ghost use Rattle.board.specs.NearestHoles.{IsNearestOf, IsPair};
ghost use Rattle.board.specs.Boards.{BoardView, holes_before};
ghost use Rattle.board_report.specs.Rows.{AreFilesWithHoles, IsPlace, IsGapLine};
ghost use Rattle.board_report.specs.BoardReport.{IsPlacedHole};

use board::{Board, Nearest, hole_count};
use report::{GapLine, HolePlace, PlacedHole};
use std::alloc::{AllocError, Global};

/// The holes of a drill file that has some, as places in the list of all holes of a board.
#[derive(Clone, Copy)]
pub struct FileHoles {
    /// The index of the drill file.
    pub drill: usize,
    /// The place of its first hole.
    pub start: usize,
    /// The end of these places: one past its last hole.
    pub end: usize,
}

/// The end of a file's holes in the list of all holes, by their start.
pub(crate) fn end_of(board: &Board, drill: usize, start: usize) -> usize
    requires inside { drill < length board.now.files }
    requires starts { start ≡ holes_before board.now.files drill }
    ensures ends { result ≡ holes_before board.now.files (drill + 1) }
    ensures in_list { result ≤ length board.now.holes }
    ensures ordered { start ≤ result }
{
    let files = board.files();
    let rest = board.holes().len() - start;
    start + hole_count(&files[drill], rest)
}

/// The drill file of a hole, and the hole's number there from 1, by its place in the list of all holes, from 0. It walks
/// over the files; for many holes [`place_among`] is faster.
pub fn place_of(board: &Board, hole: usize) -> HolePlace
    requires { hole < length board.now.holes }
    ensures { IsPlace board.now.files hole result }
{
    let files = board.files();
    let mut start = 0;
    for drill in 0..files.len() {
        let end = end_of(board, drill, start);
        if hole < end {
            return HolePlace {
                drill,
                number: hole - start + 1,
            };
        }
        start = end;
    }
    unreachable!()
}

/// The drill files of a board that have holes, in order, for [`place_among`].
///
/// # Errors
///
/// An `AllocError` when memory runs out.
pub fn files_with_holes(alloc: Global, board: &Board) -> Result<Vec<FileHoles>, AllocError>
    ensures { IfOk result (λ with_holes. AreFilesWithHoles board.now with_holes.items) }
{
    let files = board.files();
    let mut with_holes = Vec::new(alloc);
    let mut start = 0;
    for drill in 0..files.len() {
        let end = end_of(board, drill, start);
        if start < end {
            with_holes.push(FileHoles { drill, start, end })?;
        }
        start = end;
    }
    Ok(with_holes)
}

/// The drill file of a hole, among those that have holes.
fn file_of(files: &[FileHoles], hole: usize) -> FileHoles
    requires { (board : BoardView) × AreFilesWithHoles board files.now × (hole < length board.holes) }
    ensures among { Contains files.now result }
    ensures starts { result.start ≤ hole }
    ensures ends { hole < result.end }
{
    let index = files.partition_point(|file| file.end <= hole);
    files[index]
}

/// The drill file of a hole and the hole's number there, as [`place_of`] gives them. It searches by halves among the drill files
/// that have holes.
pub fn place_among(files: &[FileHoles], hole: usize) -> HolePlace
    requires { (board : BoardView) × AreFilesWithHoles board files.now × (hole < length board.holes) }
    ensures { (board : BoardView) → AreFilesWithHoles board files.now → IsPlace board.files hole result }
{
    let file = file_of(files, hole);
    HolePlace {
        drill: file.drill,
        number: hole - file.start + 1,
    }
}

/// The line of the least gap, if there are two holes.
pub(crate) fn gap_line(board: &Board, nearest: Option<Nearest>) -> Option<GapLine>
    requires { IsNearestOf board.now.holes (IsPair board.now.holes) nearest }
    ensures { IsGapLine board.now result }
{
    match nearest {
        Some(pair) => Some(GapLine {
            gap: pair.gap,
            first: place_of(board, pair.first),
            second: place_of(board, pair.second),
        }),
        None => None,
    }
}

/// A hole of a board, by its place in the list of all holes, with its drill file and its number there.
pub(crate) fn hole_at(board: &Board, files: &[FileHoles], place: usize) -> PlacedHole
    requires files { AreFilesWithHoles board.now files.now }
    requires place { place < length board.now.holes }
    ensures { IsPlacedHole board.now place result }
{
    PlacedHole {
        place: place_among(files, place),
        hole: board.holes()[place].hole,
    }
}
