//! The calls over one input, each made twice, with their answers, a line a call.

use crate::boards::{self, ON_BOARDS};
use crate::calls::{self, Call, ON_DRILLS, ON_LAYERS, ON_MANIFESTS};
use crate::inputs::{BOARDS, Board, DRILLS, FOLDERS, Held, LAYERS, LINES, MANIFESTS};
use crate::small::{self, ON_FOLDERS};
use std::io;

/// Makes the calls over the input of this number. After the last input nothing is made or printed.
pub(crate) fn run(rt: &HostRuntime, number: usize) -> io::Result<()> {
    const DRILLS_BEGIN: usize = LAYERS.len();
    const MANIFESTS_BEGIN: usize = DRILLS_BEGIN + DRILLS.len();
    const BOARDS_BEGIN: usize = MANIFESTS_BEGIN + MANIFESTS.len();
    const FOLDERS_BEGIN: usize = BOARDS_BEGIN + BOARDS.len();
    const LINES_BEGIN: usize = FOLDERS_BEGIN + FOLDERS.len();
    if number < DRILLS_BEGIN {
        on_layer(rt, number)
    } else if number < MANIFESTS_BEGIN {
        on_drill(rt, number - DRILLS_BEGIN)
    } else if number < BOARDS_BEGIN {
        on_manifest(rt, number - MANIFESTS_BEGIN)
    } else if number < FOLDERS_BEGIN {
        on_board(rt, number - BOARDS_BEGIN)
    } else if number < LINES_BEGIN {
        on_folder(rt, number - FOLDERS_BEGIN)
    } else {
        on_words(rt, number - LINES_BEGIN)
    }
}

fn on_layer(rt: &HostRuntime, number: usize) -> io::Result<()> {
    match LAYERS.get(number) {
        Some(text) => on_text(rt, text, &ON_LAYERS),
        None => Ok(()),
    }
}

fn on_drill(rt: &HostRuntime, number: usize) -> io::Result<()> {
    match DRILLS.get(number) {
        Some(text) => on_text(rt, text, &ON_DRILLS),
        None => Ok(()),
    }
}

fn on_manifest(rt: &HostRuntime, number: usize) -> io::Result<()> {
    match MANIFESTS.get(number) {
        Some(text) => on_text(rt, text, &ON_MANIFESTS),
        None => Ok(()),
    }
}

fn on_board(rt: &HostRuntime, number: usize) -> io::Result<()> {
    match BOARDS.get(number) {
        Some(board) => ask_of_board(rt, board),
        None => Ok(()),
    }
}

fn on_folder(rt: &HostRuntime, number: usize) -> io::Result<()> {
    match FOLDERS.get(number) {
        Some(files) => ask_of_folder(rt, files),
        None => Ok(()),
    }
}

fn on_words(rt: &HostRuntime, number: usize) -> io::Result<()> {
    match LINES.get(number) {
        Some(words) => ask_of_words(rt, words),
        None => Ok(()),
    }
}

fn on_text(rt: &HostRuntime, text: &str, all: &[Call]) -> io::Result<()> {
    for call in all {
        let first = calls::ask(*call, rt.alloc(), text.as_bytes());
        let again = calls::ask(*call, rt.alloc(), text.as_bytes());
        println!(rt; "{call:?}: {first}; again {again}")?;
    }
    Ok(())
}

fn ask_of_board(rt: &HostRuntime, board: &Board) -> io::Result<()> {
    for call in ON_BOARDS {
        let first = boards::ask(call, rt.alloc(), board);
        let again = boards::ask(call, rt.alloc(), board);
        println!(rt; "{call:?}: {first}; again {again}")?;
    }
    Ok(())
}

fn ask_of_folder(rt: &HostRuntime, files: &[Held]) -> io::Result<()> {
    for call in ON_FOLDERS {
        let first = small::proposed(call, rt.alloc(), files);
        let again = small::proposed(call, rt.alloc(), files);
        println!(rt; "{call:?}: {first}; again {again}")?;
    }
    Ok(())
}

fn ask_of_words(rt: &HostRuntime, words: &[&str]) -> io::Result<()> {
    let first = small::asked(rt.alloc(), words);
    let again = small::asked(rt.alloc(), words);
    println!(rt; "Words: {first}; again {again}")
}
