//! Each call on one text that takes memory.

use crate::answer::Answer;
use crate::readers::Reader;
use crate::small;
use drill_text::{drill_sayable, read_drill, write_drill};
use gerber_text::{Command, Kept, Placed, read_kept, read_words, write_commands, write_placed};
use grid_units::{Fail, Profile};
use manifest::read_manifest;
use ringcheck_files::{Kind, ReadFail, read_all, rewrite_bytes, show_drill_in, show_layer_in};
use std::alloc::{AllocError, Global};

/// A call on one text.
#[derive(Clone, Copy, Debug)]
pub(crate) enum Call {
    Whole(Reader),
    InTwo(Reader),
    InBytes(Reader),
    Kept,
    Items,
    WriteCommands,
    WritePlaced,
    Lines,
    WriteDrill,
    Show(Profile, Kind),
    Rewrite(Kind),
    Manifest,
    ReadAll,
    Copy,
    Name,
}

pub(crate) const ON_LAYERS: [Call; 15] = [
    Call::Whole(Reader::Words),
    Call::InTwo(Reader::Words),
    Call::InBytes(Reader::Words),
    Call::Whole(Reader::Layer),
    Call::InTwo(Reader::Layer),
    Call::InBytes(Reader::Layer),
    Call::InTwo(Reader::Sum),
    Call::InBytes(Reader::Sum),
    Call::Kept,
    Call::Items,
    Call::WriteCommands,
    Call::WritePlaced,
    Call::Show(Profile::Strict, Kind::Layer),
    Call::Show(Profile::Wide, Kind::Layer),
    Call::Rewrite(Kind::Layer),
];

pub(crate) const ON_DRILLS: [Call; 10] = [
    Call::Whole(Reader::Drill),
    Call::InTwo(Reader::Drill),
    Call::InBytes(Reader::Drill),
    Call::InTwo(Reader::Holes),
    Call::InBytes(Reader::Holes),
    Call::Lines,
    Call::WriteDrill,
    Call::Show(Profile::Strict, Kind::Drill),
    Call::Show(Profile::Wide, Kind::Drill),
    Call::Rewrite(Kind::Drill),
];

pub(crate) const ON_MANIFESTS: [Call; 4] = [Call::Manifest, Call::ReadAll, Call::Copy, Call::Name];

/// The answer of the call. Where a reader's text comes in two pieces, it is cut after 30 bytes.
pub(crate) fn ask(call: Call, alloc: Global, text: &[u8]) -> Answer {
    match call {
        Call::Whole(reader) => reader.whole(alloc, text),
        Call::InTwo(reader) => reader.in_two(alloc, text, 30),
        Call::InBytes(reader) => reader.in_bytes(alloc, text),
        Call::Kept => kept(alloc, text),
        Call::Items => Answer::of_bytes(small::items(alloc, text).map_err(|_| Fail::Memory)),
        Call::Lines => Answer::of_bytes(small::lines(alloc, text)),
        Call::Copy => or_memory(small::copied(alloc, text)),
        Call::Name => or_memory(small::named(alloc, text)),
        Call::WriteCommands => Answer::of_bytes(commands_written(alloc, text)),
        Call::WritePlaced => Answer::of_bytes(placed_written(alloc, text)),
        Call::WriteDrill => Answer::of_bytes(drill_written(alloc, text)),
        Call::Show(profile, Kind::Layer) => Answer::of_bytes(show_layer_in(alloc, profile, text)),
        Call::Show(profile, Kind::Drill) => Answer::of_bytes(show_drill_in(alloc, profile, text)),
        Call::Rewrite(kind) => Answer::of_bytes(rewrite_bytes(alloc, kind, text)),
        Call::Manifest => Answer::of_manifest(read_manifest(alloc, text)),
        Call::ReadAll => all_read(alloc, text),
    }
}

fn or_memory(outcome: Result<Answer, AllocError>) -> Answer {
    outcome.unwrap_or(Answer::Failed(Fail::Memory))
}

/// The commands before a fault; or that memory ran out, whatever was kept.
fn kept(alloc: Global, text: &[u8]) -> Answer {
    let Kept { commands, outcome } = read_kept(alloc, text);
    match outcome {
        Err(Fail::Memory) => Answer::Failed(Fail::Memory),
        _ => Answer::of_words(Ok(commands)),
    }
}

fn without_places(alloc: Global, placed: Vec<Placed<Command>>) -> Result<Vec<Command>, AllocError> {
    let mut commands = Vec::new(alloc);
    for entry in placed {
        commands.push(entry.what)?;
    }
    Ok(commands)
}

fn commands_written(alloc: Global, text: &[u8]) -> Result<Vec<u8>, Fail> {
    let placed = read_words(alloc, text)?;
    let commands = without_places(alloc, placed).map_err(|_| Fail::Memory)?;
    write_commands(alloc, &commands)
}

fn placed_written(alloc: Global, text: &[u8]) -> Result<Vec<u8>, Fail> {
    let placed = read_words(alloc, text)?;
    write_placed(alloc, &placed)
}

/// The canonical text of a drill file's commands, which can be written.
fn drill_written(alloc: Global, text: &[u8]) -> Result<Vec<u8>, Fail> {
    let drill = read_drill(alloc, text)?;
    if !drill_sayable(drill.commands()) {
        return Ok(Vec::new(alloc));
    }
    write_drill(alloc, drill.commands())
}

fn all_read(alloc: Global, text: &[u8]) -> Answer {
    let mut reader = text;
    match read_all(alloc, &mut reader, 1_048_576) {
        Ok(bytes) => Answer::of_text(&bytes),
        Err(ReadFail::Memory) => Answer::Failed(Fail::Memory),
        Err(_) => Answer::Changed,
    }
}
