//! The canonical item of a command, as `%ADD10C,0.65*%`.

ghost use Rattle.std.specs.Prelude.{◌≡◌, ◌++◌, [], ◌∷◌, OnOk, decimal, List, ℕ};
ghost use Rattle.std.specs.List.{flat_map};
ghost use Rattle.grid_units.specs.Spellings.{canonical as canonical_dec, minus};
ghost use Rattle.gerber_commands.specs.declared.command.Command.TheVariants.{FormatIs, Define, Macro, Operate, Repeat};
ghost use Rattle.gerber_commands.specs.Canonical.{integer, mode_word, quadrant_word, unit_item, action_code, coordinate_text, digits_text, mirror_item, standard_name, sizes_text, template_text, attribute_prefix, pieces_text, canonical};

use crate::command::{
    Action, AttributeKind, Command, Format, Interpolation, QuadrantMode, Sizes, Standard,
    StepRepeat, Template,
};
use grid_units::{Dec, OptionalInteger, Text, Unit};
use itoa::Buffer;
use std::alloc::AllocError;

/// Appends bytes.
fn put(out: &mut Vec<u8>, bytes: &[u8]) -> Result<(), AllocError>
    ensures { OnOk result (out.new.items ≡ out.old.items ++ bytes.now) }
{
    out.extend_from_slice(bytes)
}

/// Appends a number in decimal digits.
fn put_number(out: &mut Vec<u8>, number: u64) -> Result<(), AllocError>
    ensures { OnOk result (out.new.items ≡ out.old.items ++ decimal number) }
{
    let mut buffer = Buffer::new();
    put(out, buffer.format(number).as_bytes())
}

/// Appends a decimal in its canonical spelling, as `0.65`.
fn put_dec(out: &mut Vec<u8>, dec: Dec) -> Result<(), AllocError>
    ensures { OnOk result (out.new.items ≡ out.old.items ++ canonical_dec dec) }
{
    put(out, dec.write().as_str().as_bytes())
}

/// Appends a text between two others.
fn put_between(
    out: &mut Vec<u8>,
    before: &[u8],
    text: &[u8],
    after: &[u8],
) -> Result<(), AllocError>
    ensures { OnOk result (out.new.items ≡ out.old.items ++ (before.now ++ (text.now ++ after.now))) }
{
    put(out, before)?;
    put(out, text)?;
    put(out, after)
}

/// Appends a number between two texts.
fn put_number_between(
    out: &mut Vec<u8>,
    before: &[u8],
    number: u64,
    after: &[u8],
) -> Result<(), AllocError>
    ensures { OnOk result (out.new.items ≡ out.old.items ++ (before.now ++ (decimal number ++ after.now))) }
{
    let mut buffer = Buffer::new();
    put_between(out, before, buffer.format(number).as_bytes(), after)
}

/// Appends a decimal between two texts.
fn put_dec_between(
    out: &mut Vec<u8>,
    before: &[u8],
    dec: Dec,
    after: &[u8],
) -> Result<(), AllocError>
    ensures { OnOk result (out.new.items ≡ out.old.items ++ (before.now ++ (canonical_dec dec ++ after.now))) }
{
    put_between(out, before, dec.write().as_str().as_bytes(), after)
}

fn mode_word(mode: Interpolation) -> &'static [u8]
    ensures { result.now ≡ mode_word mode }
{
    match mode {
        Interpolation::Linear => b"G01*",
        Interpolation::Clockwise => b"G02*",
        Interpolation::Counterclockwise => b"G03*",
    }
}

fn quadrant_word(mode: QuadrantMode) -> &'static [u8]
    ensures { result.now ≡ quadrant_word mode }
{
    match mode {
        QuadrantMode::Single => b"G74*",
        QuadrantMode::Multi => b"G75*",
    }
}

fn unit_item(unit: Unit) -> &'static [u8]
    ensures { result.now ≡ unit_item unit }
{
    match unit {
        Unit::Inch => b"%MOIN*%",
        Unit::Millimetre => b"%MOMM*%",
    }
}

fn mirror_item(x: bool, y: bool) -> &'static [u8]
    ensures { result.now ≡ mirror_item x y }
{
    match (x, y) {
        (false, false) => b"%LMN*%",
        (true, false) => b"%LMX*%",
        (false, true) => b"%LMY*%",
        (true, true) => b"%LMXY*%",
    }
}

fn action_code(action: Action) -> &'static [u8]
    ensures { result.now ≡ action_code action }
{
    match action {
        Action::Plot => b"D01*",
        Action::Move => b"D02*",
        Action::Flash => b"D03*",
    }
}

fn attribute_prefix(kind: AttributeKind) -> &'static [u8]
    ensures { result.now ≡ attribute_prefix kind }
{
    match kind {
        AttributeKind::File => b"%TF",
        AttributeKind::Aperture => b"%TA",
        AttributeKind::Object => b"%TO",
    }
}

fn standard_name(aperture: Standard) -> &'static [u8]
    ensures { result.now ≡ standard_name aperture }
{
    match aperture {
        Standard::Circle => b"C,",
        Standard::Rectangle => b"R,",
        Standard::Obround => b"O,",
        Standard::Polygon => b"P,",
    }
}

/// `-` for a number below zero, else nothing.
fn sign(number: i64) -> &'static [u8]
    ensures { result.now ≡ minus number }
{
    if number < 0 { b"-" } else { b"" }
}

/// Appends a coordinate after its letter, or nothing where it is left out.
fn put_coordinate(out: &mut Vec<u8>, letter: u8, number: Option<i64>) -> Result<(), AllocError>
    ensures { OnOk result (out.new.items ≡ out.old.items ++ coordinate_text letter number) }
{
    match number {
        Some(number) => {
            let mut buffer = Buffer::new();
            let digits = buffer.format(number.unsigned_abs()).as_bytes();
            put_between(out, &[letter], sign(number), digits)
        }
        None => Ok(()),
    }
}

/// Appends the digits of one axis, as `46`.
fn put_digits(out: &mut Vec<u8>, format: Format) -> Result<(), AllocError>
    ensures { OnOk result (out.new.items ≡ out.old.items ++ digits_text format.whole format.decimals) }
{
    put_number(out, u64::from(format.whole))?;
    put_number(out, u64::from(format.decimals))
}

/// Appends the item of a format.
#[tactic(auto, unfolding(crate::specs::Canonical::canonical))]
fn put_format(out: &mut Vec<u8>, format: Format) -> Result<(), AllocError>
    ensures { OnOk result (out.new.items ≡ out.old.items ++ canonical (FormatIs format)) }
{
    put(out, b"%FSLAX")?;
    put_digits(out, format)?;
    put(out, b"Y")?;
    put_digits(out, format)?;
    put(out, b"*%")
}

/// Appends an `X` and one more parameter.
fn put_size(out: &mut Vec<u8>, size: Dec) -> Result<(), AllocError>
    ensures { OnOk result (out.new.items ≡ out.old.items ++ 88 ∷ canonical_dec size) }
{
    out.push(b'X')?;
    put_dec(out, size)
}

/// Appends parameters, joined by `X`.
fn put_sizes(out: &mut Vec<u8>, sizes: &[Dec]) -> Result<(), AllocError>
    ensures { OnOk result (out.new.items ≡ out.old.items ++ sizes_text sizes.now) }
{
    match sizes {
        [] => Ok(()),
        [first, rest @ ..] => {
            put_dec(out, *first)?;
            put_further_sizes(out, rest)
        }
    }
}

/// Appends the parameters after the first one.
fn put_further_sizes(out: &mut Vec<u8>, rest: &[Dec]) -> Result<(), AllocError>
    ensures { OnOk result (out.new.items ≡ out.old.items ++ flat_map (λ size. 88 ∷ canonical_dec size) rest.now) }
{
    for size in rest {
        put_size(out, *size)?;
    }
    Ok(())
}

/// Appends a template and its parameters, as `C,0.65`.
fn put_template(out: &mut Vec<u8>, template: &Template) -> Result<(), AllocError>
    ensures { OnOk result (out.new.items ≡ out.old.items ++ template_text template.now) }
{
    match template {
        Template::Standard(aperture, sizes) => {
            put(out, standard_name(*aperture))?;
            put_sizes(out, sizes.as_slice())
        }
        Template::Named(name, None) => put(out, name.bytes()),
        Template::Named(name, Some(text)) => put_between(out, name.bytes(), b",", text.bytes()),
    }
}

/// Appends the item of an aperture's definition, as `%ADD10C,0.65*%`.
#[tactic(auto, unfolding(crate::specs::Canonical::canonical))]
fn put_define(out: &mut Vec<u8>, number: u32, template: &Template) -> Result<(), AllocError>
    ensures { OnOk result (out.new.items ≡ out.old.items ++ canonical (Define number template.now)) }
{
    put(out, b"%ADD")?;
    put_number(out, u64::from(number))?;
    put_template(out, template)?;
    put(out, b"*%")
}

/// Appends the pieces of a macro, each after an LF.
fn put_pieces(out: &mut Vec<u8>, pieces: &[Text]) -> Result<(), AllocError>
    ensures { OnOk result (out.new.items ≡ out.old.items ++ pieces_text pieces.now) }
{
    for piece in pieces {
        put_between(out, b"\n", piece.bytes(), b"*")?;
    }
    Ok(())
}

/// Appends the item of a macro.
#[tactic(auto, unfolding(crate::specs::Canonical::canonical))]
fn put_macro(out: &mut Vec<u8>, name: &[u8], pieces: &[Text]) -> Result<(), AllocError>
    ensures { OnOk result (out.new.items ≡ out.old.items ++ canonical (Macro name.now pieces.now)) }
{
    put_between(out, b"%AM", name, b"*")?;
    put_pieces(out, pieces)?;
    put(out, b"%")
}

/// Appends the word of an operation, as `X10Y20D01*`.
#[tactic(auto, unfolding(crate::specs::Canonical::canonical))]
fn put_operation(
    out: &mut Vec<u8>,
    action: Action,
    x: OptionalInteger,
    y: OptionalInteger,
    i: OptionalInteger,
    j: OptionalInteger,
) -> Result<(), AllocError>
    ensures { OnOk result (out.new.items ≡ out.old.items ++ canonical (Operate action x y i j)) }
{
    put_coordinate(out, b'X', x.get())?;
    put_coordinate(out, b'Y', y.get())?;
    put_coordinate(out, b'I', i.get())?;
    put_coordinate(out, b'J', j.get())?;
    put(out, action_code(action))
}

/// Appends the item of a step and repeat block, as `%SRX2Y1I5J0*%`.
#[tactic(auto, unfolding(crate::specs::Canonical::canonical))]
fn put_block(out: &mut Vec<u8>, block: StepRepeat) -> Result<(), AllocError>
    ensures { OnOk result (out.new.items ≡ out.old.items ++ canonical (Repeat block)) }
{
    put_number_between(out, b"%SRX", u64::from(block.columns), b"Y")?;
    put_number_between(out, b"", u64::from(block.rows), b"I")?;
    put_dec_between(out, b"", block.step_x, b"J")?;
    put_dec_between(out, b"", block.step_y, b"*%")
}

/// Appends the canonical item of a command, without the LF after it.
///
/// # Errors
///
/// An `AllocError` where there is no memory for it.
#[tactic(auto, unfolding(crate::specs::Canonical::canonical))]
pub fn write_item(out: &mut Vec<u8>, command: &Command) -> Result<(), AllocError>
    ensures { OnOk result (out.new.items ≡ out.old.items ++ canonical command.now) }
{
    match command {
        Command::Comment(text) => put_between(out, b"G04", text.bytes(), b"*"),
        Command::Mode(mode) => put(out, mode_word(*mode)),
        Command::Quadrant(mode) => put(out, quadrant_word(*mode)),
        Command::RegionStart => put(out, b"G36*"),
        Command::RegionEnd => put(out, b"G37*"),
        Command::UnitIs(unit) => put(out, unit_item(*unit)),
        Command::FormatIs(format) => put_format(out, *format),
        Command::Define { number, template } => put_define(out, *number, template.get()),
        Command::Macro(name, pieces) => put_macro(out, name.bytes(), pieces.get().texts()),
        Command::Select(number) => put_number_between(out, b"D", u64::from(*number), b"*"),
        Command::Operate { action, x, y, i, j } => put_operation(out, *action, *x, *y, *i, *j),
        Command::Dark => put(out, b"%LPD*%"),
        Command::Clear => put(out, b"%LPC*%"),
        Command::Mirror { x, y } => put(out, mirror_item(*x, *y)),
        Command::Turn(degrees) => put_dec_between(out, b"%LR", *degrees, b"*%"),
        Command::Scale(factor) => put_dec_between(out, b"%LS", *factor, b"*%"),
        Command::Repeat(block) => put_block(out, *block),
        Command::RepeatEnd => put(out, b"%SR*%"),
        Command::Attribute(kind, text) => {
            put_between(out, attribute_prefix(*kind), text.bytes(), b"*%")
        }
        Command::Remove(text) => put_between(out, b"%TD", text.bytes(), b"*%"),
        Command::Finish => put(out, b"M02*"),
    }
}
