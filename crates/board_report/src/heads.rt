//! The layers of a board, with the number of holes that need a ring on each.

ghost use Rattle.std.specs.Prelude.{◌≡◌, IfOk, map};
ghost use Rattle.std.specs.List.{enumerate_from, filter_map};
ghost use Rattle.board_report.specs.BoardReport.{head_of, conflict_in};

use board::{Board, FileSum, needs_ring};
use report::{LayerHead, RoleConflict};
use ring_rules::Drilled;
use std::alloc::{AllocError, Global};

/// The head of a layer, by its place from 0 and the index of its file.
fn head_of(holes: &[Drilled], layer: usize, file: usize) -> LayerHead
    ensures { result ≡ head_of holes.now (layer, file) }
{
    let needed = holes
        .iter()
        .filter(|drilled| needs_ring(layer, drilled))
        .count();
    LayerHead { file, needed }
}

/// The heads of a board's layers.
pub(crate) fn heads(alloc: Global, board: &Board) -> Result<Vec<LayerHead>, AllocError>
    ensures { IfOk result (λ heads. heads.items ≡ map (head_of board.now.holes) (enumerate_from 0 board.now.layer_indexes)) }
{
    let holes = board.holes();
    board
        .layer_indexes()
        .iter()
        .enumerate()
        .map(|(layer, file)| head_of(holes, layer, *file))
        .collect(alloc)
}

/// The conflict of a file, by its index: of a drill file whose own comments contradict its role.
fn conflict_in(drill: usize, file: &FileSum) -> Option<RoleConflict>
    ensures { result ≡ conflict_in (drill, file.now) }
{
    match *file {
        FileSum::Drill {
            plated,
            contradicted: true,
            ..
        } => Some(RoleConflict { drill, plated }),
        FileSum::Layer { .. } | FileSum::Drill { .. } | FileSum::Mixed { .. } => None,
    }
}

/// The drill files of a board whose own comments contradict their role, in order.
pub(crate) fn role_conflicts(alloc: Global, board: &Board) -> Result<Vec<RoleConflict>, AllocError>
    ensures { IfOk result (λ conflicts. conflicts.items ≡ filter_map conflict_in (enumerate_from 0 board.now.files)) }
{
    board
        .files()
        .iter()
        .enumerate()
        .filter_map(|(drill, file)| conflict_in(drill, file))
        .collect(alloc)
}
