//! Lists of commands that some text spells, and other lists.

use crate::plain_commands::Plain::*;
use crate::plain_commands::{Bytes, Plain, command};
use gerber_text::{Action, Command, sayable};
use std::alloc::Global;

/// Adds a command to a list, and returns whether there was one to add and room for it.
fn add(alloc: Global, commands: &mut Vec<Command>, plain: Plain) -> bool {
    match command(alloc, plain) {
        Some(command) => commands.push(command).is_ok(),
        None => false,
    }
}

/// Whether a list of commands is sayable.
fn is_said(alloc: Global, list: &[Plain]) -> Option<bool> {
    let mut commands = Vec::new(alloc);
    for &plain in list {
        if !add(alloc, &mut commands, plain) {
            return None;
        }
    }
    Some(sayable(&commands))
}

/// Lists of commands, and whether they are sayable.
const LISTS: [(&[Plain], bool); 21] = [
    (&[], false),
    (&[Finish], true),
    (&[Finish, Finish], false),
    (&[Dark], false),
    (&[Dark, Finish], true),
    // Only the wide profile reads it.
    (&[Clear, Finish], false),
    (&[Select(9), Finish], false),
    (&[Named(b"C"), Finish], false),
    (&[Operation(Action::Move, Some(1), 2), Finish], false),
    (
        &[
            Comment(Bytes::These(b" #@! TF.FilePolarity,Negative")),
            Finish,
        ],
        false,
    ),
    (&[Format(0, 0), Finish], false),
    (&[BareMacro(b"R"), Finish], false),
    (&[Comment(Bytes::These(b"a*")), Finish], false),
    (&[Comment(Bytes::Letters(1_048_573)), Finish], false),
    (&[Select(10), Finish], true),
    (&[Operation(Action::Plot, Some(1), 2), Finish], true),
    (&[Format(6, 0), Finish], true),
    (&[Turn(-1), Finish], true),
    (&[Scale(0), Finish], true),
    (&[Repeat(0, 2_147_483_647, -1, 0), Finish], true),
    (&[Comment(Bytes::Letters(1_048_572)), Finish], true),
];

#[test]
fn lists_that_texts_spell_and_others(rt: HostRuntime) {
    let rows = &LISTS;
    for (i, &(list, expected)) in rows.iter().enumerate() {
        assert!(rt; is_said(rt.alloc(), list) == Some(expected), "of row {i}");
    }
}
