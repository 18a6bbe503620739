//! The canonical text of a list of commands.

ghost use Rattle.std.specs.Prelude.{◌≡◌, ◌≤◌, ◌++◌, ◌∷◌, [], true, length, vec_len, IfOk, IfErr, OnOk, Ok, Err};
ghost use Rattle.grid_units.specs.Results.{Answers, fault};
ghost use Rattle.grid_units.specs.declared.fault.Fail.TheVariants.{Refused};
ghost use Rattle.grid_units.specs.declared.fault.Reason.TheVariants.{TooLong};
ghost use Rattle.drill_lines.specs.Writing.{canonical, IsInRange};
ghost use Rattle.drill_text.specs.Texts.{SpellsText};
ghost use Rattle.drill_text.specs.Writing.{part_with, is_after_end, drill_sayable, rewritten_text, vec_bytes};

use drill_lines::{DrillCommand, Part, is_sayable, write_line};
use grid_units::{Fail, Fault, Reason, TEXT_LIMIT};
use std::alloc::{AllocError, Global};

/// The part of a file after one more command.
fn part_with(part: Part, command: &DrillCommand) -> Part
    ensures { result ≡ part_with part command.now }
{
    match command {
        DrillCommand::Start => Part::Header,
        DrillCommand::HeaderEnd => Part::Body,
        DrillCommand::Finish => Part::After,
        _ => part,
    }
}

fn is_after_end(part: Part) -> bool
    ensures { result ≡ is_after_end part }
{
    matches!(part, Part::After)
}

/// Whether a list is comments, `Start`, commands of the header, `HeaderEnd`, commands of the body and `Finish`, each one that some line spells.
pub fn drill_sayable(commands: &[DrillCommand]) -> bool
    ensures { result ≡ drill_sayable commands.now }
{
    let mut part = Part::Before;
    for command in commands {
        if !is_sayable(part, command) {
            return false;
        }
        part = part_with(part, command);
    }
    is_after_end(part)
}

/// Appends the canonical line of a command, and an LF.
pub(crate) fn put_line(text: &mut Vec<u8>, command: &DrillCommand) -> Result<(), AllocError>
    ensures items { OnOk result (text.new.items ≡ text.old.items ++ (canonical command.now ++ 10 ∷ [])) }
    ensures typed { OnOk result (IsInRange command.now) }
{
    write_line(text, command)?;
    text.push(b'\n')?;
    Ok(())
}

/// The refusal of a text above 268,435,456 bytes.
pub(crate) fn too_long() -> Fail
    ensures { result ≡ Refused (fault 0 0 TooLong) }
{
    Fail::Refused(Fault {
        place: 0,
        byte: 0,
        reason: Reason::TooLong,
    })
}

/// The canonical text of a sayable list. The text spells just this list.
///
/// # Errors
///
/// [`Reason::TooLong`] at place 0 and byte 0 where the text would be above 268,435,456 bytes, or `Memory`.
pub fn write_drill(alloc: Global, commands: &[DrillCommand]) -> Result<Vec<u8>, Fail>
    requires { drill_sayable commands.now ≡ true }
    ensures exact { Answers vec_bytes (λ answer. answer ≡ rewritten_text commands.now) result }
    ensures reads_back { IfOk result (λ text. SpellsText text.items commands.now) }
{
    let mut text = Vec::new(alloc);
    for command in commands {
        put_line(&mut text, command)?;
        if text.len() > TEXT_LIMIT {
            return Err(too_long());
        }
    }
    Ok(text)
}
