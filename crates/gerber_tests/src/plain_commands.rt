//! Commands as plain data, which a table can hold.

use gerber_text::{
    Action, AttributeKind, Boxed, Command, Format, Pieces, Sizes, Standard, StepRepeat, Template,
};
use grid_units::{Dec, OptionalInteger, Text};
use std::alloc::Global;

/// The bytes of a text: these, or the letter `a` so many times.
#[derive(Clone, Copy)]
pub(crate) enum Bytes {
    These(&'static [u8]),
    Letters(usize),
}

/// A command. Sizes, steps and angles are in units of 10^-8.
#[derive(Clone, Copy)]
pub(crate) enum Plain {
    Comment(Bytes),
    Remove(Bytes),
    Attribute(AttributeKind, &'static [u8]),
    /// A macro with this name, without pieces.
    BareMacro(&'static [u8]),
    /// A macro `a` with one piece.
    Macro(Bytes),
    /// The aperture 10, of the macro with this name.
    Named(&'static [u8]),
    /// A standard aperture with its number and one parameter.
    Aperture(u32, Standard, i64),
    /// An operation with its X, if there is one, and its I.
    Operation(Action, Option<i64>, i64),
    /// How many digits coordinates have before and after the point.
    Format(u8, u8),
    /// A step and repeat block: its columns, its rows, and their steps.
    Repeat(u32, u32, i64, i64),
    RepeatEnd,
    Select(u32),
    Dark,
    Clear,
    Turn(i64),
    Scale(i64),
    Finish,
}

/// A text of the letter `a` so many times.
fn letters(alloc: Global, count: usize) -> Option<Text> {
    match vec![in alloc; b'a'; count] {
        Ok(bytes) => Some(Text::new(bytes)),
        Err(_) => None,
    }
}

/// The text of these bytes.
fn text(alloc: Global, bytes: Bytes) -> Option<Text> {
    match bytes {
        Bytes::These(bytes) => Text::from_slice(alloc, bytes).ok(),
        Bytes::Letters(count) => letters(alloc, count),
    }
}

/// The definition of an aperture with its number and template.
fn definition(alloc: Global, number: u32, template: Template) -> Option<Command> {
    let template = Boxed::new(alloc, template).ok()?;
    Some(Command::Define { number, template })
}

/// The definition of a standard aperture with one parameter.
fn aperture(alloc: Global, number: u32, standard: Standard, size: i64) -> Option<Command> {
    let mut sizes = Sizes::new();
    sizes.push(Dec::from_units(size)?);
    definition(alloc, number, Template::Standard(standard, sizes))
}

/// A macro with these pieces.
fn macro_of(alloc: Global, name: &[u8], pieces: Vec<Text>) -> Option<Command> {
    let pieces = Boxed::new(alloc, Pieces::new(pieces)).ok()?;
    match Text::from_slice(alloc, name) {
        Ok(name) => Some(Command::Macro(name, pieces)),
        Err(_) => None,
    }
}

/// A list of one piece.
fn one_piece(alloc: Global, piece: Bytes) -> Option<Vec<Text>> {
    let piece = text(alloc, piece)?;
    Vec::from_array(alloc, [piece]).ok()
}

/// An operation with an X, if there is one, and an I.
fn operation(action: Action, x: Option<i64>, i: i64) -> Option<Command> {
    Some(Command::Operate {
        action,
        x: OptionalInteger::new(x)?,
        y: OptionalInteger::none(),
        i: OptionalInteger::new(Some(i))?,
        j: OptionalInteger::none(),
    })
}

/// The start of a step and repeat block.
fn repeat(columns: u32, rows: u32, step_x: i64, step_y: i64) -> Option<Command> {
    Some(Command::Repeat(StepRepeat {
        columns,
        rows,
        step_x: Dec::from_units(step_x)?,
        step_y: Dec::from_units(step_y)?,
    }))
}

/// The command with this text.
fn of_text(alloc: Global, plain: Plain) -> Option<Command> {
    match plain {
        Plain::Comment(bytes) => Some(Command::Comment(text(alloc, bytes)?)),
        Plain::Remove(bytes) => Some(Command::Remove(text(alloc, bytes)?)),
        Plain::Attribute(kind, bytes) => {
            Some(Command::Attribute(kind, text(alloc, Bytes::These(bytes))?))
        }
        Plain::BareMacro(name) => macro_of(alloc, name, Vec::new(alloc)),
        Plain::Macro(piece) => macro_of(alloc, b"a", one_piece(alloc, piece)?),
        Plain::Named(name) => {
            let name = text(alloc, Bytes::These(name))?;
            definition(alloc, 10, Template::Named(name, None))
        }
        _ => None,
    }
}

/// The command that plain data stands for.
pub(crate) fn command(alloc: Global, plain: Plain) -> Option<Command> {
    match plain {
        Plain::Aperture(number, standard, size) => aperture(alloc, number, standard, size),
        Plain::Operation(action, x, i) => operation(action, x, i),
        Plain::Format(whole, decimals) => Some(Command::FormatIs(Format { whole, decimals })),
        Plain::Repeat(columns, rows, step_x, step_y) => repeat(columns, rows, step_x, step_y),
        Plain::RepeatEnd => Some(Command::RepeatEnd),
        Plain::Select(number) => Some(Command::Select(number)),
        Plain::Dark => Some(Command::Dark),
        Plain::Clear => Some(Command::Clear),
        Plain::Turn(angle) => Some(Command::Turn(Dec::from_units(angle)?)),
        Plain::Scale(factor) => Some(Command::Scale(Dec::from_units(factor)?)),
        Plain::Finish => Some(Command::Finish),
        _ => of_text(alloc, plain),
    }
}
