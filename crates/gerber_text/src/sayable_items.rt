//! Whether some item of a Gerber text spells a command, and some text a list of commands.

ghost use Rattle.std.specs.Prelude.{◌≡◌, ◌+◌, ◌≤◌, ◌++◌, true, nat_le, length, codes, decimal};
ghost use Rattle.std.specs.List.{flat_map};
ghost use Rattle.gerber_commands.specs.declared.command.Command.TheVariants.{Define};
ghost use Rattle.gerber_commands.specs.declared.command.Template.TheVariants.{Named};
ghost use Rattle.grid_units.specs.Limits.{item_limit};
ghost use Rattle.gerber_text.specs.Sayable.{has_valid_fields, is_short, is_sayable, is_finish};
ghost use Rattle.gerber_text.specs.Writing.{sayable};

use crate::operation_fields::{
    is_aperture_number, is_attribute, is_block, is_comment, is_dec, is_definition, is_format,
    is_macro, is_operation, is_text,
};
use crate::{Command, Template};
use grid_units::{ITEM_LIMIT, Text};
use itoa::Buffer;

/// Whether the fields of a command are those that some item of the strict profile spells.
#[tactic(auto, unfolding(crate::specs::Sayable::has_valid_fields))]
fn has_valid_fields(command: &Command) -> bool
    ensures { result ≡ has_valid_fields command.now }
{
    match command {
        Command::Comment(text) => is_comment(text),
        Command::FormatIs(format) => is_format(*format),
        Command::Define { number, template } => is_definition(*number, template),
        Command::Macro(name, pieces) => is_macro(name, pieces),
        Command::Select(number) => is_aperture_number(*number),
        Command::Operate { action, x, y, i, j } => is_operation(
            *action,
            x.get(),
            y.get(),
            i.get(),
            j.get(),
        ),
        Command::Turn(dec) | Command::Scale(dec) => is_dec(*dec),
        Command::Repeat(block) => is_block(*block),
        Command::Attribute(kind, text) => is_attribute(*kind, text.bytes()),
        Command::Remove(text) => is_text(text.bytes()),
        Command::Clear => false,
        _ => true,
    }
}

/// How many decimal digits a number has, at most 10.
fn digits_len(number: u32) -> usize
    ensures value { result ≡ length (decimal number) }
    ensures few { result ≤ 10 }
{
    let mut buffer = Buffer::new();
    buffer.format(number).len()
}

/// Whether these texts fit into so many bytes, each with one byte after it.
fn fit_in(room: usize, texts: &[Text]) -> bool
    ensures { result ≡ nat_le (length (flat_map (λ text. text ++ codes "*") texts.now)) room }
{
    let mut left = room;
    for text in texts {
        if text.bytes().len() >= left {
            return false;
        }
        left -= text.bytes().len() + 1;
    }
    true
}

/// Whether the canonical item of a macro is within the limit.
fn is_macro_short(name: &[u8], pieces: &[Text]) -> bool
    requires { length name.now ≤ 127 }
    ensures { result ≡ nat_le (5 + (length name.now + length (flat_map (λ piece. piece ++ codes "*") pieces.now))) item_limit }
{
    fit_in(ITEM_LIMIT - 5 - name.len(), pieces)
}

/// Whether the canonical item of a macro aperture with a text is within the limit.
fn is_text_short(number: u32, name: &[u8], text: &[u8]) -> bool
    requires { length name.now ≤ 127 }
    ensures { result ≡ nat_le (7 + (length (decimal number) + (length name.now + length text.now))) item_limit }
{
    text.len() <= ITEM_LIMIT - 7 - name.len() - digits_len(number)
}

/// Whether the canonical item of a macro aperture is within the limit.
fn is_named_short(number: u32, name: &[u8], parameters: &Option<Text>) -> bool
    requires { has_valid_fields (Define number (Named name.now parameters.now)) ≡ true }
    ensures { result ≡ is_short (Define number (Named name.now parameters.now)) }
{
    match parameters {
        Some(text) => is_text_short(number, name, text.bytes()),
        None => true,
    }
}

/// Whether the canonical item of an aperture's definition is within the limit.
fn is_define_short(number: u32, template: &Template) -> bool
    requires { has_valid_fields (Define number template.now) ≡ true }
    ensures { result ≡ is_short (Define number template.now) }
{
    match template {
        Template::Standard(_, _) => true,
        Template::Named(name, parameters) => is_named_short(number, name.bytes(), parameters),
    }
}

/// Whether the canonical item of a command is at most 1,048,576 bytes without its line breaks.
fn is_short(command: &Command) -> bool
    requires { has_valid_fields command.now ≡ true }
    ensures { result ≡ is_short command.now }
{
    match command {
        Command::Comment(text) => text.bytes().len() <= ITEM_LIMIT - 4,
        Command::Attribute(_, text) | Command::Remove(text) => {
            text.bytes().len() <= ITEM_LIMIT - 5
        }
        Command::Define { number, template } => is_define_short(*number, template.get()),
        Command::Macro(name, pieces) => is_macro_short(name.bytes(), pieces.get().texts()),
        _ => true,
    }
}

/// Whether some item of a Gerber text in the strict profile spells the command, and its canonical item is at most 1,048,576
/// bytes without its line breaks. It takes no memory.
pub fn is_sayable(command: &Command) -> bool
    ensures { result ≡ is_sayable command.now }
{
    has_valid_fields(command) && is_short(command)
}

fn is_finish(command: &Command) -> bool
    ensures { result ≡ is_finish command.now }
{
    matches!(command, Command::Finish)
}

/// Whether `Finish` is the last command of a list and stands nowhere else, each command is one that some
/// item of a Gerber text spells, and each canonical item is at most 1,048,576 bytes without its line breaks.
/// It takes no memory.
pub fn sayable(commands: &[Command]) -> bool
    ensures { result ≡ sayable commands.now }
{
    let mut ended = false;
    for command in commands {
        if ended || !is_sayable(command) {
            return false;
        }
        ended = is_finish(command);
    }
    ended
}
