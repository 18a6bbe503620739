//! Extended items: the rows of the table of pieces, in its order.

ghost use Rattle.std.specs.Prelude.{◌≡◌, ◌==◌, ◌||◌, ◌&&◌, not, is_some, [], IfSome, IfNone, codes, map, true, false};
ghost use Rattle.std.specs.Str.{bytes_eq};
ghost use Rattle.std.specs.List.{list_all};
ghost use Rattle.std.specs.Option.{option_copied};
ghost use Rattle.grid_units.specs.Results.{Gives};
ghost use Rattle.grid_units.specs.Numbers.{is_number_char, is_digit};
ghost use Rattle.grid_units.specs.Rows.{strip_prefix, split_by};
ghost use Rattle.gerber_commands.specs.Rows.{first_match};
ghost use Rattle.gerber_commands.specs.Profiles.{extended_in, piece_among, spelled_in_turn, wide_piece, wide_pieces};
ghost use Rattle.gerber_commands.specs.Pieces.{refused_format_row, format, format_fields, format_row, unit_piece_row, polarity_row, mirror_row, run_after, turn, scale, transform_row, block_fields, repeat, repeat_start, repeat_row, file_attribute, attribute, removal, is_omitted_or, is_zero_rotation, axes_equal, has_no_effect, no_effect_piece_row, neutral_axes_row, negative_row, deprecated_piece_row, block_aperture_row, deprecated_pieces, pieces_from_attributes, pieces_from_polarity, has_several_pieces, last_byte, before_last, pieces, piece, extended_meaning};

use crate::aperture::{read_define, read_macro};
use crate::command::{
    AttributeKind, Command, Format, ItemCommands, ItemRow, StepRepeat, item_answer,
};
use crate::fields::{digits_field, number_field, strip_prefix};
use crate::negative::{contains, is_negative_image};
use crate::number::read_nat;
use grid_units::numbers::{is_digit, is_number_char};
use grid_units::{Dec, ItemFail, Profile, Reason, Text, Unit, both, split_first};
use std::alloc::Global;

/// Refuses trailing zeros left out (`FST`) and incremental coordinates (`FSLI`).
#[tactic(auto, unfolding(crate::specs::Pieces::refused_format_row))]
fn read_system(text: &[u8]) -> ItemRow
    ensures { result ≡ refused_format_row text.now }
{
    if strip_prefix(b"FST", text).is_some() {
        Some(Err(Reason::TrailingZeros))
    } else if strip_prefix(b"FSLI", text).is_some() {
        Some(Err(Reason::Incremental))
    } else {
        None
    }
}

/// The format of i whole digits and d decimals, alike on both axes.
fn format_of(i: u8, d: u8, j: u8, e: u8) -> Result<ItemCommands, Reason>
    requires whole { is_digit i ≡ true }
    requires decimals { is_digit d ≡ true }
    ensures { result ≡ format i d j e }
{
    if i == j && d == e && i <= b'6' && d <= b'6' && u16::from(i) + u16::from(d) > 96 {
        Ok(ItemCommands::one(Command::FormatIs(Format {
            whole: i - b'0',
            decimals: d - b'0',
        })))
    } else {
        Err(Reason::BadNumber)
    }
}

/// The digits of both axes with `Y` between them, as `46Y46`.
fn format_fields(text: &[u8]) -> ItemRow
    ensures { result ≡ format_fields text.now }
{
    match text {
        [i, d, y, j, e] => {
            if *y == b'Y' && is_digit(*i) && is_digit(*d) && is_digit(*j) && is_digit(*e) {
                Some(format_of(*i, *d, *j, *e))
            } else {
                None
            }
        }
        _ => None,
    }
}

/// Reads how many digits coordinates have, as `FSLAX46Y46`.
#[tactic(auto, unfolding(crate::specs::Pieces::format_row))]
fn read_format(text: &[u8]) -> ItemRow
    ensures { result ≡ format_row text.now }
{
    match strip_prefix(b"FSLAX", text) {
        Some(rest) => format_fields(rest),
        None => None,
    }
}

/// Reads the unit, `MOIN` or `MOMM`.
#[tactic(auto, unfolding(crate::specs::Pieces::unit_piece_row))]
fn read_unit(text: &[u8]) -> ItemRow
    ensures { result ≡ unit_piece_row text.now }
{
    match text {
        b"MOIN" => Some(Ok(ItemCommands::one(Command::UnitIs(Unit::Inch)))),
        b"MOMM" => Some(Ok(ItemCommands::one(Command::UnitIs(Unit::Millimetre)))),
        _ => None,
    }
}

/// Reads the polarity: `LPD` is dark, and `LPC`, clear, is refused.
#[tactic(auto, unfolding(crate::specs::Pieces::polarity_row))]
fn read_polarity(text: &[u8]) -> ItemRow
    ensures { result ≡ polarity_row text.now }
{
    match text {
        b"LPD" => Some(Ok(ItemCommands::one(Command::Dark))),
        b"LPC" => Some(Err(Reason::ClearPolarity)),
        _ => None,
    }
}

/// Reads the axes of mirroring, as `LMXY`.
#[tactic(auto, unfolding(crate::specs::Pieces::mirror_row))]
fn read_mirror(text: &[u8]) -> ItemRow
    ensures { result ≡ mirror_row text.now }
{
    let x = text == b"LMX".as_slice() || text == b"LMXY".as_slice();
    let y = text == b"LMY".as_slice() || text == b"LMXY".as_slice();
    if x || y || text == b"LMN".as_slice() {
        Some(Ok(ItemCommands::one(Command::Mirror { x, y })))
    } else {
        None
    }
}

fn are_number_bytes(text: &[u8]) -> bool
    ensures { result ≡ list_all is_number_char text.now }
{
    text.iter().all(|byte| is_number_char(*byte))
}

/// The run after a prefix, if nothing else follows it.
fn run_after<'a>(prefix: &[u8], text: &'a [u8]) -> Option<&'a [u8]>
    ensures { option_copied result ≡ run_after prefix.now text.now }
{
    match strip_prefix(prefix, text) {
        Some(run) if are_number_bytes(run) => Some(run),
        _ => None,
    }
}

#[tactic(auto, unfolding(crate::specs::Pieces::turn))]
fn read_turn(run: &[u8]) -> Result<ItemCommands, Reason>
    ensures { result ≡ turn run.now }
{
    Ok(ItemCommands::one(Command::Turn(Dec::read(run)?)))
}

#[tactic(auto, unfolding(crate::specs::Pieces::scale))]
fn read_scale(run: &[u8]) -> Result<ItemCommands, Reason>
    ensures { result ≡ scale run.now }
{
    Ok(ItemCommands::one(Command::Scale(Dec::read(run)?)))
}

/// Reads a rotation, as `LR90`, or a scaling, as `LS0.5`.
#[tactic(auto, unfolding(crate::specs::Pieces::transform_row))]
fn read_transform(text: &[u8]) -> ItemRow
    ensures { result ≡ transform_row text.now }
{
    if let Some(run) = run_after(b"LR", text) {
        Some(read_turn(run))
    } else if let Some(run) = run_after(b"LS", text) {
        Some(read_scale(run))
    } else {
        None
    }
}

/// The counts of columns and rows, and the steps along x and y.
type BlockFields = ((u32, u32), (Dec, Dec));

/// The counts and steps of a block.
#[tactic(auto, unfolding(crate::specs::Pieces::block_fields))]
fn block_fields(x: &[u8], y: &[u8], i: &[u8], j: &[u8]) -> Result<BlockFields, Reason>
    ensures { result ≡ block_fields x.now y.now i.now j.now }
{
    let counts = both(read_nat(x), read_nat(y));
    both(counts, both(Dec::read(i), Dec::read(j)))
}

/// A step and repeat block with these counts and steps.
#[tactic(auto, unfolding(crate::specs::Pieces::repeat))]
fn read_block(x: &[u8], y: &[u8], i: &[u8], j: &[u8]) -> Result<ItemCommands, Reason>
    ensures { result ≡ repeat x.now y.now i.now j.now }
{
    let ((columns, rows), (step_x, step_y)) = block_fields(x, y, i, j)?;
    Ok(ItemCommands::one(Command::Repeat(StepRepeat {
        columns,
        rows,
        step_x,
        step_y,
    })))
}

/// Reads the start of a step and repeat block, as `X2Y1I5J0` after `SR`.
#[tactic(auto, unfolding(crate::specs::Pieces::repeat_start))]
fn read_repeat_start(text: &[u8]) -> ItemRow
    ensures { result ≡ repeat_start text.now }
{
    let (x, rest) = digits_field(b'X', text);
    let (y, rest) = digits_field(b'Y', rest);
    let (i, rest) = number_field(b'I', rest);
    let (j, rest) = number_field(b'J', rest);
    match (x, y, i, j, rest) {
        (Some(x), Some(y), Some(i), Some(j), []) => Some(read_block(x, y, i, j)),
        _ => None,
    }
}

/// Reads the start of a step and repeat block, or its end, `SR`.
#[tactic(auto, unfolding(crate::specs::Pieces::repeat_row))]
fn read_repeat(text: &[u8]) -> ItemRow
    ensures { result ≡ repeat_row text.now }
{
    match text {
        b"SR" => Some(Ok(ItemCommands::one(Command::RepeatEnd))),
        [b'S', b'R', rest @ ..] => read_repeat_start(rest),
        _ => read_repeat_start(&[]),
    }
}

/// A file attribute, which must not make the image negative.
#[tactic(auto, unfolding(crate::specs::Pieces::file_attribute))]
fn read_file_attribute(alloc: Global, text: &[u8]) -> Result<ItemCommands, ItemFail>
    ensures { Gives result (file_attribute text.now) }
{
    if is_negative_image(text) {
        return Err(ItemFail::Refused(Reason::NegativeImage));
    }
    let text = Text::from_slice(alloc, text)?;
    Ok(ItemCommands::one(Command::Attribute(AttributeKind::File, text)))
}

/// An attribute of an aperture or of an object.
#[tactic(auto, unfolding(crate::specs::Pieces::attribute))]
fn read_attribute(alloc: Global, kind: AttributeKind, text: &[u8]) -> Result<ItemCommands, ItemFail>
    ensures { Gives result (attribute kind text.now) }
{
    let text = Text::from_slice(alloc, text)?;
    Ok(ItemCommands::one(Command::Attribute(kind, text)))
}

/// The deletion of attributes.
#[tactic(auto, unfolding(crate::specs::Pieces::removal))]
fn read_removal(alloc: Global, text: &[u8]) -> Result<ItemCommands, ItemFail>
    ensures { Gives result (removal text.now) }
{
    let text = Text::from_slice(alloc, text)?;
    Ok(ItemCommands::one(Command::Remove(text)))
}

/// Whether a run is a decimal of so many units of 10^-8, or is left out.
fn is_omitted_or(units: i64, run: Option<&[u8]>) -> bool
    ensures { result ≡ is_omitted_or units (option_copied run.entry) }
{
    match run {
        None => true,
        Some(run) => match Dec::read(run) {
            Ok(dec) => dec.units() == units,
            Err(_) => false,
        },
    }
}

/// Whether a text is `IR` and a decimal of 0.
fn is_zero_rotation(text: &[u8]) -> bool
    ensures { result ≡ is_zero_rotation text.now }
{
    let run = strip_prefix(b"IR", text);
    run.is_some() && is_omitted_or(0, run)
}

/// Whether a text is a decimal of so many units on each axis that stands, as `A0B0`.
#[tactic(auto, unfolding(crate::specs::Pieces::axes_equal))]
fn axes_equal(units: i64, text: &[u8]) -> bool
    ensures { result ≡ axes_equal units text.now }
{
    let (a, rest) = number_field(b'A', text);
    let (b, rest) = number_field(b'B', rest);
    rest.is_empty() && is_omitted_or(units, a) && is_omitted_or(units, b)
}

/// Whether a text is a parameter with so many units on each axis that stands, as `OFA0B0`.
fn has_no_effect(prefix: &[u8], units: i64, text: &[u8]) -> bool
    ensures { result ≡ has_no_effect prefix.now units text.now }
{
    match strip_prefix(prefix, text) {
        Some(rest) => axes_equal(units, rest),
        None => false,
    }
}

fn begins(prefix: &[u8], text: &[u8]) -> bool
    ensures { result ≡ is_some (strip_prefix prefix.now text.now) }
{
    strip_prefix(prefix, text).is_some()
}

/// Reads parameters without effect, as `IPPOS` or `LN` and a text.
#[tactic(auto, unfolding(crate::specs::Pieces::no_effect_piece_row))]
fn read_no_effect_piece(text: &[u8]) -> ItemRow
    ensures { result ≡ no_effect_piece_row text.now }
{
    if text == b"IPPOS".as_slice()
        || is_zero_rotation(text)
        || text == b"ASAXBY".as_slice()
        || begins(b"IN", text)
        || begins(b"LN", text)
    {
        Some(Ok(ItemCommands::nothing()))
    } else {
        None
    }
}

/// Reads `OF` and `MI` with zeros and `SF` with ones, which have no effect.
#[tactic(auto, unfolding(crate::specs::Pieces::neutral_axes_row))]
fn read_neutral_axes(text: &[u8]) -> ItemRow
    ensures { result ≡ neutral_axes_row text.now }
{
    if has_no_effect(b"OF", 0, text)
        || has_no_effect(b"MI", 0, text)
        || has_no_effect(b"SF", 100_000_000, text)
    {
        Some(Ok(ItemCommands::nothing()))
    } else {
        None
    }
}

/// Refuses a negative image, `IPNEG`.
#[tactic(auto, unfolding(crate::specs::Pieces::negative_row))]
fn read_negative(text: &[u8]) -> ItemRow
    ensures { result ≡ negative_row text.now }
{
    match text {
        b"IPNEG" => Some(Err(Reason::NegativeImage)),
        _ => None,
    }
}

/// Refuses older parameters with an effect, as `IR90`.
#[tactic(auto, unfolding(crate::specs::Pieces::deprecated_piece_row))]
fn read_deprecated(text: &[u8]) -> ItemRow
    ensures { result ≡ deprecated_piece_row text.now }
{
    if begins(b"OF", text)
        || begins(b"MI", text)
        || begins(b"SF", text)
        || begins(b"AS", text)
        || begins(b"IR", text)
    {
        Some(Err(Reason::OldParameter))
    } else {
        None
    }
}

/// Refuses a block aperture, as `ABD12`.
#[tactic(auto, unfolding(crate::specs::Pieces::block_aperture_row))]
fn read_block_aperture(text: &[u8]) -> ItemRow
    ensures { result ≡ block_aperture_row text.now }
{
    if begins(b"AB", text) {
        Some(Err(Reason::BlockAperture))
    } else {
        None
    }
}

/// Reads the rows of the older parameters, and of block apertures.
fn read_deprecated_pieces(text: &[u8]) -> Result<ItemCommands, Reason>
    ensures { result ≡ first_match (deprecated_pieces text.now) }
{
    if let Some(answer) = read_no_effect_piece(text) {
        answer
    } else if let Some(answer) = read_neutral_axes(text) {
        answer
    } else if let Some(answer) = read_negative(text) {
        answer
    } else if let Some(answer) = read_deprecated(text) {
        answer
    } else if let Some(answer) = read_block_aperture(text) {
        answer
    } else {
        Err(Reason::BadWord)
    }
}

/// Reads the rows from file attributes on.
fn read_from_attributes(alloc: Global, text: &[u8]) -> Result<ItemCommands, ItemFail>
    ensures { Gives result (first_match (pieces_from_attributes text.now)) }
{
    if let Some(rest) = strip_prefix(b"TF", text) {
        read_file_attribute(alloc, rest)
    } else if let Some(rest) = strip_prefix(b"TA", text) {
        read_attribute(alloc, AttributeKind::Aperture, rest)
    } else if let Some(rest) = strip_prefix(b"TO", text) {
        read_attribute(alloc, AttributeKind::Object, rest)
    } else if let Some(rest) = strip_prefix(b"TD", text) {
        read_removal(alloc, rest)
    } else {
        item_answer(read_deprecated_pieces(text))
    }
}

/// Reads the rows from polarity on.
fn read_from_polarity(alloc: Global, text: &[u8]) -> Result<ItemCommands, ItemFail>
    ensures { Gives result (first_match (pieces_from_polarity text.now)) }
{
    if let Some(answer) = read_polarity(text) {
        item_answer(answer)
    } else if let Some(answer) = read_mirror(text) {
        item_answer(answer)
    } else if let Some(answer) = read_transform(text) {
        item_answer(answer)
    } else if let Some(answer) = read_repeat(text) {
        item_answer(answer)
    } else {
        read_from_attributes(alloc, text)
    }
}

/// Reads all rows of pieces.
fn read_pieces(alloc: Global, text: &[u8]) -> Result<ItemCommands, ItemFail>
    ensures { Gives result (first_match (pieces text.now)) }
{
    if let Some(answer) = read_system(text) {
        item_answer(answer)
    } else if let Some(answer) = read_format(text) {
        item_answer(answer)
    } else if let Some(answer) = read_unit(text) {
        item_answer(answer)
    } else if let Some(rest) = strip_prefix(b"ADD", text) {
        read_define(alloc, rest)
    } else if let Some(rest) = strip_prefix(b"AM", text) {
        read_macro(alloc, rest)
    } else {
        read_from_polarity(alloc, text)
    }
}

/// Whether there is more than one piece, and no macro is defined.
fn has_several_pieces(text: &[u8]) -> bool
    ensures { result ≡ has_several_pieces text.now }
{
    contains(text, b'*') && !begins(b"AM", text)
}

/// Reads what stands before the last `*`: one piece, or a macro with its pieces.
#[tactic(auto, unfolding(crate::specs::Pieces::piece))]
fn read_piece(alloc: Global, text: &[u8]) -> Result<ItemCommands, ItemFail>
    ensures { Gives result (piece text.now) }
{
    if has_several_pieces(text) {
        return Err(ItemFail::Refused(Reason::SeveralInOne));
    }
    read_pieces(alloc, text)
}

/// The bytes before the last `*`, if the text ends with it.
fn before_asterisk(text: &[u8]) -> Option<&[u8]>
    ensures none { IfNone result (bytes_eq (last_byte text.now) (codes "*") ≡ false) }
    ensures some { IfSome result (λ prefix. (bytes_eq (last_byte text.now) (codes "*") ≡ true) × (prefix.now ≡ before_last text.now)) }
{
    match text {
        [prefix @ .., b'*'] => Some(prefix),
        _ => None,
    }
}

/// Reads one piece in the wide profile, where `LPC` is clear polarity and `ICAS` spells nothing.
#[tactic(auto, unfolding(crate::specs::Profiles::wide_piece))]
fn read_wide_piece(alloc: Global, text: &[u8]) -> Result<ItemCommands, ItemFail>
    ensures { Gives result (wide_piece text.now) }
{
    if text == b"LPC".as_slice() {
        Ok(ItemCommands::one(Command::Clear))
    } else if text == b"ICAS".as_slice() {
        Ok(ItemCommands::nothing())
    } else {
        read_pieces(alloc, text)
    }
}

/// Reads a piece that stands among others, so it defines no macro.
#[tactic(auto, unfolding(crate::specs::Profiles::piece_among))]
fn read_piece_among(alloc: Global, text: &[u8]) -> Result<ItemCommands, ItemFail>
    ensures { Gives result (piece_among text.now) }
{
    if begins(b"AM", text) {
        return Err(ItemFail::Refused(Reason::BadWord));
    }
    read_wide_piece(alloc, text)
}

/// Reads pieces one after the other, each as if it stood alone.
fn read_in_turn(alloc: Global, text: &[u8]) -> Result<ItemCommands, ItemFail>
    ensures { Gives result (spelled_in_turn (map piece_among (split_by 42 text.now))) }
{
    let mut commands = Vec::new(alloc);
    let mut left = Some(text);
    while let Some(rest) = left {
        let (piece, more) = split_first(b'*', rest);
        read_piece_among(alloc, piece)?.append_to(&mut commands)?;
        left = more;
    }
    Ok(ItemCommands::several(commands))
}

/// Reads what stands before the last `*` in the wide profile: pieces one after the other, a macro with its pieces, or one piece.
#[tactic(auto, unfolding(crate::specs::Profiles::wide_pieces))]
fn read_wide_pieces(alloc: Global, text: &[u8]) -> Result<ItemCommands, ItemFail>
    ensures { Gives result (wide_pieces text.now) }
{
    if has_several_pieces(text) {
        return read_in_turn(alloc, text);
    }
    read_wide_piece(alloc, text)
}

/// Reads what stands between the two `%` of an extended item in a profile.
#[tactic(auto, unfolding(crate::specs::Pieces::extended_meaning))]
pub fn read_extended_in(
    alloc: Global,
    profile: Profile,
    text: &[u8],
) -> Result<ItemCommands, ItemFail>
    ensures { Gives result (extended_in profile text.now) }
{
    let Some(prefix) = before_asterisk(text) else {
        return Err(ItemFail::Refused(Reason::BadWord));
    };
    match profile {
        Profile::Strict => read_piece(alloc, prefix),
        Profile::Wide => read_wide_pieces(alloc, prefix),
    }
}
