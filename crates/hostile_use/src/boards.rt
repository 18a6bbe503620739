//! Each call on a package that takes memory.

use crate::answer::Answer;
use crate::inputs::Board;
use drill_text::read_drill;
use grid_units::{Fail, Hole, Rules, Span};
use layer_image::read_layer;
use manifest::{Role, Said};
use package_check::{
    File, PackageFault, PiecedFile, Report, check_bytes, check_pieces, write_report,
};
use ring_rules::{Drilled, Finding, gap_findings, ring_findings};
use std::alloc::{AllocError, Global};

/// A call on a package.
#[derive(Clone, Copy, Debug)]
pub(crate) enum BoardCall {
    Bytes,
    Whole,
    TwoPieces,
    BytePieces,
    Report,
    Rings,
    Gaps,
}

pub(crate) const ON_BOARDS: [BoardCall; 7] = [
    BoardCall::Bytes,
    BoardCall::Whole,
    BoardCall::TwoPieces,
    BoardCall::BytePieces,
    BoardCall::Report,
    BoardCall::Rings,
    BoardCall::Gaps,
];

/// The answer of the call.
pub(crate) fn ask(call: BoardCall, alloc: Global, board: &Board) -> Answer {
    let Ok(rules) = Rules::new(125_000_000, 250_000_000) else {
        return Answer::Changed;
    };
    match call {
        BoardCall::Bytes => whole(alloc, board, rules, false),
        BoardCall::Report => whole(alloc, board, rules, true),
        BoardCall::Whole => in_pieces(alloc, board, rules, 1_000_000),
        BoardCall::TwoPieces => in_pieces(alloc, board, rules, 30),
        BoardCall::BytePieces => in_pieces(alloc, board, rules, 1),
        BoardCall::Rings => found(rings(alloc, board, rules)),
        BoardCall::Gaps => found(gaps(alloc, board, rules)),
    }
}

fn span_of(board: &Board) -> Option<Span> {
    let (first, last) = board.span?;
    Span::new(first, last)
}

fn file(role: Role, name: &'static str, span: Option<Span>, text: &'static str) -> File<'static> {
    File {
        role,
        name,
        said: Said { span, format: None },
        bytes: text.as_bytes(),
    }
}

/// The answer of a check of whole files, or its report.
fn whole(alloc: Global, board: &Board, rules: Rules, is_report: bool) -> Answer {
    let top = file(Role::Copper, "top", None, board.top.text());
    let drill = file(board.role, "pth", span_of(board), board.drill.text());
    match board.bottom {
        None => judged(alloc, &[top, drill], rules, is_report),
        Some(copper) => {
            let bottom = file(Role::Copper, "bot", None, copper.text());
            judged(alloc, &[top, bottom, drill], rules, is_report)
        }
    }
}

fn judged(alloc: Global, files: &[File], rules: Rules, is_report: bool) -> Answer {
    match check_bytes(alloc, files, rules) {
        Ok(report) if is_report => written(alloc, files, &report),
        outcome => checked(outcome),
    }
}

fn written(alloc: Global, files: &[File], report: &Report) -> Answer {
    if report.files().len() != files.len() {
        return Answer::Changed;
    }
    match write_report(alloc, files, report) {
        Ok(text) => Answer::of_text(&text),
        Err(_) => Answer::Failed(Fail::Memory),
    }
}

fn checked(outcome: Result<Report, PackageFault>) -> Answer {
    match outcome {
        Ok(report) => Answer::of_report(&report),
        Err(PackageFault::Memory) => Answer::Failed(Fail::Memory),
        Err(PackageFault::File { fault, .. }) => Answer::Failed(Fail::Refused(fault)),
    }
}

/// The pieces of a text, each of `length` bytes but the last.
fn pieces_of(
    alloc: Global,
    text: &'static str,
    length: usize,
) -> Result<Vec<&'static [u8]>, AllocError> {
    let mut pieces = Vec::new(alloc);
    for piece in text.as_bytes().chunks(length.max(1)) {
        pieces.push(piece)?;
    }
    Ok(pieces)
}

/// The answer of a check of files in pieces of `length` bytes.
fn in_pieces(alloc: Global, board: &Board, rules: Rules, length: usize) -> Answer {
    match pieced(alloc, board, rules, length) {
        Ok(answer) => answer,
        Err(_) => Answer::Failed(Fail::Memory),
    }
}

fn pieced(alloc: Global, board: &Board, rules: Rules, length: usize) -> Result<Answer, AllocError> {
    let top = pieces_of(alloc, board.top.text(), length)?;
    let drill = pieces_of(alloc, board.drill.text(), length)?;
    let Some(bottom) = board.bottom else {
        return Ok(of_two(alloc, board, rules, &top, &drill));
    };
    let bottom = pieces_of(alloc, bottom.text(), length)?;
    Ok(of_three(alloc, board, rules, &top, &bottom, &drill))
}

/// The answer of a check of one copper file and a drill file.
fn of_two<'a>(
    alloc: Global,
    board: &Board,
    rules: Rules,
    top: &'a [&'static [u8]],
    drill: &'a [&'static [u8]],
) -> Answer {
    let top = pieced_file(Role::Copper, "top", None, top);
    let drill = pieced_file(board.role, "pth", span_of(board), drill);
    checked(check_pieces(alloc, &[top, drill], rules))
}

/// The answer of a check of two copper files and a drill file.
fn of_three<'a>(
    alloc: Global,
    board: &Board,
    rules: Rules,
    top: &'a [&'static [u8]],
    bottom: &'a [&'static [u8]],
    drill: &'a [&'static [u8]],
) -> Answer {
    let top = pieced_file(Role::Copper, "top", None, top);
    let bottom = pieced_file(Role::Copper, "bot", None, bottom);
    let drill = pieced_file(board.role, "pth", span_of(board), drill);
    checked(check_pieces(alloc, &[top, bottom, drill], rules))
}

fn pieced_file<'a>(
    role: Role,
    name: &'static str,
    span: Option<Span>,
    pieces: &'a [&'static [u8]],
) -> PiecedFile<'a> {
    PiecedFile {
        role,
        name,
        said: Said { span, format: None },
        pieces,
    }
}

fn found(outcome: Result<Vec<Finding>, Fail>) -> Answer {
    match outcome {
        Ok(findings) => Answer::of_findings(&findings),
        Err(fail) => Answer::Failed(fail),
    }
}

/// The holes of the drill file.
fn drilled(alloc: Global, board: &Board) -> Result<Vec<Drilled>, Fail> {
    let plated = matches!(board.role, Role::Plated);
    let drill = read_drill(alloc, board.drill.text().as_bytes())?;
    all_drilled(alloc, drill.holes(), plated, &span_of(board)).map_err(|_| Fail::Memory)
}

fn all_drilled(
    alloc: Global,
    holes: &[Hole],
    plated: bool,
    span: &Option<Span>,
) -> Result<Vec<Drilled>, AllocError> {
    let mut all = Vec::new(alloc);
    for hole in holes {
        all.push(Drilled {
            hole: *hole,
            plated,
            span: *span,
        })?;
    }
    Ok(all)
}

/// The findings of rings of the first layer.
fn rings(alloc: Global, board: &Board, rules: Rules) -> Result<Vec<Finding>, Fail> {
    let layer = read_layer(alloc, board.top.text().as_bytes())?;
    let holes = drilled(alloc, board)?;
    ring_findings(alloc, &[layer.pads()], &holes, rules).map_err(|_| Fail::Memory)
}

fn gaps(alloc: Global, board: &Board, rules: Rules) -> Result<Vec<Finding>, Fail> {
    let holes = drilled(alloc, board)?;
    gap_findings(alloc, &holes, rules).map_err(|_| Fail::Memory)
}
