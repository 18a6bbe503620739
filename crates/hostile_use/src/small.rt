//! The calls that take memory on an item, a line, a name, the words of a command line and the files of a folder.

use crate::answer::Answer;
use crate::digest::Digest;
use crate::inputs::Held;
use command_line::{Refusal, Request, parse};
use drill_lines::write_line;
use drill_text::{DrillCommand, read_drill};
use gerber_text::{Action, ItemCommands, ItemParts, is_ended, read_item_in, write_item};
use grid_units::{Fail, ItemFail, Profile, Reason, Text};
use manifest::{FileContent, InputFile, Name, Proposal, propose, write_proposal, write_reasons};
use std::alloc::{AllocError, Global};
use std::fmt::Write;

/// Each line of a text read as an item after a plot, and written again.
pub(crate) fn items(alloc: Global, text: &[u8]) -> Result<Vec<u8>, AllocError> {
    let mut out = Vec::new(alloc);
    for line in text.split(|byte| *byte == b'\n') {
        let item = if is_ended(line) {
            read_item_in(alloc, Profile::Strict, Some(Action::Plot), line)
        } else {
            Err(ItemFail::Refused(Reason::BadWord))
        };
        put_item(&mut out, item)?;
    }
    Ok(out)
}

/// Appends an item as it is written, or the name of the reason where it is refused.
fn put_item(out: &mut Vec<u8>, item: Result<ItemCommands, ItemFail>) -> Result<(), AllocError> {
    match item {
        Ok(spelled) => match spelled.into_parts() {
            ItemParts::Few(_, Some(command)) => write_item(out, &command),
            _ => Ok(()),
        },
        Err(ItemFail::Refused(reason)) => out.extend_from_slice(reason.name().as_bytes()),
        Err(ItemFail::Memory) => Err(AllocError),
    }
}

/// The commands of a drill file, written one by one.
pub(crate) fn lines(alloc: Global, text: &[u8]) -> Result<Vec<u8>, Fail> {
    let drill = read_drill(alloc, text)?;
    put_lines(alloc, drill.commands()).map_err(|_| Fail::Memory)
}

fn put_lines(alloc: Global, commands: &[DrillCommand]) -> Result<Vec<u8>, AllocError> {
    let mut out = Vec::new(alloc);
    for command in commands {
        write_line(&mut out, command)?;
    }
    Ok(out)
}

/// The answer for a copy of a copy of a text.
pub(crate) fn copied(alloc: Global, text: &[u8]) -> Result<Answer, AllocError> {
    let copy = Text::from_slice(alloc, text)?.copy()?;
    Ok(Answer::of_text(copy.bytes()))
}

/// The answer for a text as a name.
pub(crate) fn named(alloc: Global, text: &[u8]) -> Result<Answer, AllocError> {
    let name = Name::new(alloc, str::from_utf8(text).unwrap_or(""))?;
    Ok(Answer::of_text(name.as_str().as_bytes()))
}

/// The answer for the words of a command line.
pub(crate) fn asked(alloc: Global, words: &[&str]) -> Answer {
    match parse(alloc, words) {
        Ok(line) => of_request(&line.request),
        Err(Refusal::Help(text)) | Err(Refusal::Usage(text)) => {
            Answer::of_text(text.as_str().as_bytes())
        }
        Err(Refusal::Version) => Answer::of_text(b"version"),
        Err(Refusal::Memory) => Answer::Failed(Fail::Memory),
    }
}

fn of_request(request: &Request) -> Answer {
    let mut digest = Digest::new();
    let _ = write!(digest, "{request:?}");
    Answer::Given {
        first: 0,
        second: 0,
        digest: digest.value(),
    }
}

/// A call on the files of a folder.
#[derive(Clone, Copy, Debug)]
pub(crate) enum FolderCall {
    Propose,
    WriteProposal,
    WriteReasons,
}

pub(crate) const ON_FOLDERS: [FolderCall; 3] = [
    FolderCall::Propose,
    FolderCall::WriteProposal,
    FolderCall::WriteReasons,
];

/// The answer of the call.
pub(crate) fn proposed(call: FolderCall, alloc: Global, files: &[Held]) -> Answer {
    match answered(call, alloc, files) {
        Ok(answer) => answer,
        Err(_) => Answer::Failed(Fail::Memory),
    }
}

fn of_folder(alloc: Global, files: &[Held]) -> Result<Vec<InputFile<'static>>, AllocError> {
    let mut folder = Vec::new(alloc);
    for (name, text) in files {
        let content = match text {
            Some(text) => FileContent::Bytes(text.as_bytes()),
            None => FileContent::NotRead,
        };
        folder.push(InputFile { name, content })?;
    }
    Ok(folder)
}

fn answered(call: FolderCall, alloc: Global, files: &[Held]) -> Result<Answer, AllocError> {
    let folder = of_folder(alloc, files)?;
    of_call(call, alloc, &propose(alloc, Profile::Strict, &folder)?)
}

fn of_call(call: FolderCall, alloc: Global, proposals: &[Proposal]) -> Result<Answer, AllocError> {
    match call {
        FolderCall::Propose => Ok(of_proposals(proposals)),
        FolderCall::WriteProposal => Ok(Answer::of_text(&write_proposal(alloc, proposals)?)),
        FolderCall::WriteReasons => Ok(Answer::of_text(&write_reasons(alloc, proposals)?)),
    }
}

fn of_proposals(proposals: &[Proposal]) -> Answer {
    let mut digest = Digest::new();
    for Proposal {
        file,
        role,
        because,
    } in proposals {
        digest.take(file.as_str().as_bytes());
        let _ = write!(digest, "{role:?} {because:?}");
    }
    Answer::Given {
        first: proposals.len(),
        second: 0,
        digest: digest.value(),
    }
}
