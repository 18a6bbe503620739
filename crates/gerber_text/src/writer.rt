//! The canonical text of commands.

ghost use Rattle.std.specs.Prelude.{◌≡◌, ◌++◌, [], ◌∷◌, true, OnOk, IfOk};
ghost use Rattle.grid_units.specs.Results.{Answers, AnswersAlways};
ghost use Rattle.gerber_text.specs.Writing.{lines, limited_text, canonical_text, without_places, sayable, ReadsAs, vec_bytes};
ghost use Rattle.gerber_commands.specs.Canonical.{canonical};

use crate::placed::Placed;
use crate::{Command, write_item};
use grid_units::{Fail, Fault, Reason, TEXT_LIMIT};
use std::alloc::{AllocError, Global};

/// Appends the canonical item of a command, and an LF.
fn put_line(out: &mut Vec<u8>, command: &Command) -> Result<(), AllocError>
    ensures { OnOk result (out.new.items ≡ out.old.items ++ (canonical command.now ++ 10 ∷ [])) }
{
    write_item(out, command)?;
    out.push(b'\n')?;
    Ok(())
}

/// The text, or the refusal of one above 268,435,456 bytes.
fn limited_text(text: Vec<u8>) -> Result<Vec<u8>, Fail>
    ensures { AnswersAlways vec_bytes (λ answer. answer ≡ limited_text text.items) result }
{
    if text.len() > TEXT_LIMIT {
        Err(Fail::Refused(Fault {
            place: 0,
            byte: 0,
            reason: Reason::TooLong,
        }))
    } else {
        Ok(text)
    }
}

/// The canonical items of commands, each with an LF.
fn lines_of(alloc: Global, commands: &[Command]) -> Result<Vec<u8>, AllocError>
    ensures { IfOk result (λ text. text.items ≡ lines commands.now) }
{
    let mut out = Vec::new(alloc);
    for command in commands {
        put_line(&mut out, command)?;
    }
    Ok(out)
}

/// The canonical text of commands. Where the list is sayable, it spells just this list.
///
/// # Errors
///
/// [`Reason::TooLong`] at place 0 where the text would be above 268,435,456 bytes; `Memory` where an
/// allocation failed.
pub fn write_commands(alloc: Global, commands: &[Command]) -> Result<Vec<u8>, Fail>
    ensures exact { Answers vec_bytes (λ answer. answer ≡ canonical_text commands.now) result }
    ensures reads_back { sayable commands.now ≡ true → IfOk result (λ t. ReadsAs t.items commands.now) }
{
    limited_text(lines_of(alloc, commands)?)
}

/// The canonical items of commands with places, each with an LF.
fn lines_of_placed(alloc: Global, commands: &[Placed<Command>]) -> Result<Vec<u8>, AllocError>
    ensures { IfOk result (λ text. text.items ≡ lines (without_places commands.now)) }
{
    let mut out = Vec::new(alloc);
    for command in commands {
        put_line(&mut out, &command.what)?;
    }
    Ok(out)
}

/// The canonical text of commands without their places. Where the list is sayable, it spells just this list.
///
/// # Errors
///
/// [`Reason::TooLong`] at place 0 where the text would be above 268,435,456 bytes; `Memory` where an
/// allocation failed.
pub fn write_placed(alloc: Global, commands: &[Placed<Command>]) -> Result<Vec<u8>, Fail>
    ensures exact { Answers vec_bytes (λ answer. answer ≡ canonical_text (without_places commands.now)) result }
    ensures reads_back { sayable (without_places commands.now) ≡ true → IfOk result (λ text. ReadsAs text.items (without_places commands.now)) }
{
    limited_text(lines_of_placed(alloc, commands)?)
}
