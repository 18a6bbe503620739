//! The canonical line of a command, as `T1C0.4`.

ghost use Rattle.std.specs.Prelude.{◌≡◌, ◌++◌, ◌∷◌, ◌==◌, OnOk, decimal, replicate};
ghost use Rattle.std.specs.List.{list_any};
ghost use Rattle.grid_units.specs.Spellings.{spelling_with_point};
ghost use Rattle.drill_lines.specs.declared.command.Part.TheVariants as part;
ghost use Rattle.drill_lines.specs.declared.command.DrillCommand.TheVariants as command;
ghost use Rattle.drill_lines.specs.Formats.{AreDigitCounts};
ghost use Rattle.drill_lines.specs.Writing.{unit_word, zeros_text, pattern_text, unit_code, coordinate_text, point_text, canonical, is_comment_text, can_give_zeros, is_tool_number, has_coordinate, is_sayable, IsDec, IsOptionalDec, IsPoint, IsInRange};

use crate::command::{Coordinates, DrillCommand, DrillFormat, Part};
use crate::line::trimmed_len;
use grid_units::{Dec, Unit, Zeros};
use itoa::Buffer;
use std::alloc::AllocError;

/// Appends a decimal in its pointed spelling, as `1.0`.
fn put_dec(text: &mut Vec<u8>, value: Dec) -> Result<(), AllocError>
    ensures items { OnOk result (text.new.items ≡ text.old.items ++ spelling_with_point value) }
    ensures typed { IsDec value }
{
    text.extend_from_slice(value.write_pointed().as_bytes())
}

/// Appends a number in decimal digits.
fn put_number(text: &mut Vec<u8>, number: u16) -> Result<(), AllocError>
    ensures { OnOk result (text.new.items ≡ text.old.items ++ decimal number) }
{
    let mut buffer = Buffer::new();
    text.extend_from_slice(buffer.format(number).as_bytes())
}

/// Appends so many zeros.
fn put_zeros(text: &mut Vec<u8>, count: u8) -> Result<(), AllocError>
    ensures { OnOk result (text.new.items ≡ text.old.items ++ replicate count 48) }
{
    for _i in 0..count {
        text.push(b'0')?;
    }
    Ok(())
}

fn unit_word(unit: Unit) -> &'static [u8]
    ensures { result.now ≡ unit_word unit }
{
    match unit {
        Unit::Inch => b"INCH",
        Unit::Millimetre => b"METRIC",
    }
}

fn zeros_text(zeros: Option<Zeros>) -> &'static [u8]
    ensures { result.now ≡ zeros_text zeros }
{
    match zeros {
        Some(Zeros::Leading) => b",LZ",
        Some(Zeros::Trailing) => b",TZ",
        Some(Zeros::Full) | None => b"",
    }
}

fn unit_code(unit: Unit) -> &'static [u8]
    ensures { result.now ≡ unit_code unit }
{
    match unit {
        Unit::Millimetre => b"M71",
        Unit::Inch => b"M72",
    }
}

/// Appends the pattern of a format, as `,00.0000` for 2:4.
fn put_format(text: &mut Vec<u8>, format: DrillFormat) -> Result<(), AllocError>
    ensures items { OnOk result (text.new.items ≡ text.old.items ++ (44 ∷ (replicate format.whole 48 ++ 46 ∷ replicate format.decimals 48))) }
    ensures typed { AreDigitCounts format.whole format.decimals }
{
    let (whole, decimals) = (format.whole(), format.decimals());
    text.push(b',')?;
    put_zeros(text, whole)?;
    text.push(b'.')?;
    put_zeros(text, decimals)
}

/// Appends a unit line, as `METRIC,TZ,000.000`.
fn put_unit_line(
    text: &mut Vec<u8>,
    unit: Unit,
    zeros: Option<Zeros>,
    format: Option<DrillFormat>,
) -> Result<(), AllocError>
    ensures items { OnOk result (text.new.items ≡ text.old.items ++ (unit_word unit ++ (zeros_text zeros ++ pattern_text format))) }
    ensures typed { OnOk result (IsInRange (command.UnitLine unit zeros format)) }
{
    text.extend_from_slice(unit_word(unit))?;
    text.extend_from_slice(zeros_text(zeros))?;
    match format {
        Some(format) => put_format(text, format),
        None => Ok(()),
    }
}

/// Appends a letter and its coordinate, or nothing where it is left out.
fn put_coordinate(text: &mut Vec<u8>, letter: u8, value: Option<Dec>) -> Result<(), AllocError>
    ensures items { OnOk result (text.new.items ≡ text.old.items ++ coordinate_text letter value) }
    ensures typed { OnOk result (IsOptionalDec value) }
{
    match value {
        Some(value) => {
            text.push(letter)?;
            put_dec(text, value)
        }
        None => Ok(()),
    }
}

/// Appends the coordinates of a point, as `X1.0Y-0.5`.
fn put_point(text: &mut Vec<u8>, point: &Coordinates) -> Result<(), AllocError>
    ensures items { OnOk result (text.new.items ≡ text.old.items ++ point_text point.now) }
    ensures typed { OnOk result (IsPoint point.now) }
{
    put_coordinate(text, b'X', point.x.get())?;
    put_coordinate(text, b'Y', point.y.get())
}

/// Appends a tool's definition, as `T1C0.4`.
fn put_tool(text: &mut Vec<u8>, number: u16, diameter: Dec) -> Result<(), AllocError>
    ensures items { OnOk result (text.new.items ≡ text.old.items ++ (84 ∷ (decimal number ++ 67 ∷ spelling_with_point diameter))) }
    ensures typed { OnOk result (IsDec diameter) }
{
    text.push(b'T')?;
    put_number(text, number)?;
    text.push(b'C')?;
    put_dec(text, diameter)
}

/// Appends a pick, as `T1`.
fn put_pick(text: &mut Vec<u8>, number: u16) -> Result<(), AllocError>
    ensures { OnOk result (text.new.items ≡ text.old.items ++ (84 ∷ decimal number)) }
{
    text.push(b'T')?;
    put_number(text, number)
}

/// Appends a slot, as `X2.0G85Y1.0`.
fn put_slot(text: &mut Vec<u8>, first: &Coordinates, second: &Coordinates) -> Result<(), AllocError>
    ensures items { OnOk result (text.new.items ≡ text.old.items ++ (point_text first.now ++ (71 ∷ 56 ∷ 53 ∷ point_text second.now))) }
    ensures typed { OnOk result (IsPoint first.now × IsPoint second.now) }
{
    put_point(text, first)?;
    text.extend_from_slice(b"G85")?;
    put_point(text, second)
}

/// Appends a comment, `;` and its text.
fn put_comment(text: &mut Vec<u8>, comment: &[u8]) -> Result<(), AllocError>
    ensures { OnOk result (text.new.items ≡ text.old.items ++ (59 ∷ comment.now)) }
{
    text.push(b';')?;
    text.extend_from_slice(comment)
}

/// Appends the canonical line of a command, without its LF.
///
/// # Errors
///
/// An `AllocError` where there is no memory for it.
pub fn write_line(text: &mut Vec<u8>, command: &DrillCommand) -> Result<(), AllocError>
    ensures items { OnOk result (text.new.items ≡ text.old.items ++ canonical command.now) }
    ensures typed { OnOk result (IsInRange command.now) }
{
    match command {
        DrillCommand::Comment(comment) => put_comment(text, comment.bytes()),
        DrillCommand::Start => text.extend_from_slice(b"M48"),
        DrillCommand::UnitLine(unit, zeros, format) => {
            put_unit_line(text, *unit, *zeros, *format)
        }
        DrillCommand::Tool(number, diameter) => put_tool(text, *number, *diameter),
        DrillCommand::HeaderEnd => text.extend_from_slice(b"%"),
        DrillCommand::UnitCode(unit) => text.extend_from_slice(unit_code(*unit)),
        DrillCommand::Pick(number) => put_pick(text, *number),
        DrillCommand::Hit(point) => put_point(text, point),
        DrillCommand::Slot(first, second) => put_slot(text, first, second),
        DrillCommand::Finish => text.extend_from_slice(b"M30"),
    }
}

/// Whether a text has an LF.
fn has_break(text: &[u8]) -> bool
    ensures { result ≡ list_any (λ b. b == 10) text.now }
{
    text.iter().any(|byte| *byte == b'\n')
}

/// Whether a line can spell a comment with this text.
fn is_comment_text(text: &[u8]) -> bool
    ensures { result ≡ is_comment_text text.now }
{
    !has_break(text) && trimmed_len(text) == text.len() && text.len() < 1_048_576
}

fn can_give_zeros(zeros: Option<Zeros>) -> bool
    ensures { result ≡ can_give_zeros zeros }
{
    !matches!(zeros, Some(Zeros::Full))
}

fn is_tool_number(number: u16) -> bool
    ensures { result ≡ is_tool_number number }
{
    1 <= number && number <= 999
}

fn has_coordinate(point: &Coordinates) -> bool
    ensures { result ≡ has_coordinate point.now }
{
    point.x.get().is_some() || point.y.get().is_some()
}

fn is_sayable_before(command: &DrillCommand) -> bool
    ensures { result ≡ is_sayable part.Before command.now }
{
    match command {
        DrillCommand::Start => true,
        DrillCommand::Comment(text) => is_comment_text(text.bytes()),
        _ => false,
    }
}

fn is_sayable_in_header(command: &DrillCommand) -> bool
    ensures { result ≡ is_sayable part.Header command.now }
{
    match command {
        DrillCommand::Comment(text) => is_comment_text(text.bytes()),
        DrillCommand::UnitLine(_, zeros, _) => can_give_zeros(*zeros),
        DrillCommand::Tool(number, _) => is_tool_number(*number),
        DrillCommand::HeaderEnd | DrillCommand::UnitCode(_) => true,
        _ => false,
    }
}

fn is_sayable_in_body(command: &DrillCommand) -> bool
    ensures { result ≡ is_sayable part.Body command.now }
{
    match command {
        DrillCommand::Comment(text) => is_comment_text(text.bytes()),
        DrillCommand::UnitCode(_) | DrillCommand::Finish => true,
        DrillCommand::Pick(number) => *number <= 999,
        DrillCommand::Hit(point) => has_coordinate(point),
        DrillCommand::Slot(first, second) => has_coordinate(first) && has_coordinate(second),
        _ => false,
    }
}

/// Whether some line of this part of a file spells the command.
pub fn is_sayable(part: Part, command: &DrillCommand) -> bool
    ensures { result ≡ is_sayable part command.now }
{
    match part {
        Part::Before => is_sayable_before(command),
        Part::Header => is_sayable_in_header(command),
        Part::Body => is_sayable_in_body(command),
        Part::After => false,
    }
}
