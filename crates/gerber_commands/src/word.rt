//! Words: the rows of the table of words, in its order.

ghost use Rattle.std.specs.Prelude.{◌≡◌, ◌≤◌, ◌==◌, ◌||◌, not, length, is_some, Some, Ok, true};
ghost use Rattle.std.specs.List.{list_any, list_all, prefix_len};
ghost use Rattle.std.specs.Option.{option_copied, option_map};
ghost use Rattle.grid_units.specs.Results.{both, Gives};
ghost use Rattle.grid_units.specs.Numbers.{is_digit};
ghost use Rattle.gerber_commands.specs.Negative.{is_negative_image, is_negative_comment};
ghost use Rattle.gerber_commands.specs.Words.{no_effect_row, comment, split_mode, mode_row, quadrant_row, region_row, unit_row, incremental_row, action, digits_after, d_word, g54_word, select_row, coordinate, kind, fields, is_action_code, is_operation, has_offsets, operands, operate, operation_row, finish_row, deprecated_row, words_after_comment, word};
ghost use Rattle.gerber_commands.specs.Rows.{first_match};
ghost use Rattle.gerber_commands.specs.Inner.Runs.{fields_of};

use crate::command::{
    Action, Command, Interpolation, ItemCommands, ItemRow, QuadrantMode, item_answer,
};
use crate::fields::{digits_field, number_field, strip_prefix};
use crate::negative::{contains, is_negative_comment};
use crate::number::{read_int, read_nat};
use grid_units::numbers::{are_all_digits, len_before, repeat_len};
use grid_units::{ItemFail, OptionalInteger, Reason, Text, Unit, both};
use std::alloc::Global;

/// Reads the empty word and `G90`, which spell nothing.
#[tactic(auto, unfolding(crate::specs::Words::no_effect_row))]
fn read_no_effect(text: &[u8]) -> ItemRow
    ensures { result ≡ no_effect_row text.now }
{
    match text {
        b"" | b"G90" => Some(Ok(ItemCommands::nothing())),
        _ => None,
    }
}

/// Reads the text of a comment, which must not make the image negative.
#[tactic(auto, unfolding(crate::specs::Words::comment))]
fn read_comment(alloc: Global, text: &[u8]) -> Result<ItemCommands, ItemFail>
    ensures { Gives result (comment text.now) }
{
    if is_negative_comment(text) {
        return Err(ItemFail::Refused(Reason::NegativeImage));
    }
    let text = Text::from_slice(alloc, text)?;
    Ok(ItemCommands::one(Command::Comment(text)))
}

/// The interpolation at the start of a word, if there is one, and the bytes after it.
#[tactic(auto, unfolding(crate::specs::Words::split_mode))]
fn split_mode(text: &[u8]) -> (Option<Interpolation>, &[u8])
    ensures mode { result.0 ≡ (split_mode text.now).0 }
    ensures rest { result.1.now ≡ (split_mode text.now).1 }
{
    match text {
        [b'G', b'0', b'1', rest @ ..] => (Some(Interpolation::Linear), rest),
        [b'G', b'1', rest @ ..] => (Some(Interpolation::Linear), rest),
        [b'G', b'0', b'2', rest @ ..] => (Some(Interpolation::Clockwise), rest),
        [b'G', b'2', rest @ ..] => (Some(Interpolation::Clockwise), rest),
        [b'G', b'0', b'3', rest @ ..] => (Some(Interpolation::Counterclockwise), rest),
        [b'G', b'3', rest @ ..] => (Some(Interpolation::Counterclockwise), rest),
        _ => (None, text),
    }
}

/// Reads an interpolation alone, as `G02`.
#[tactic(auto, unfolding(crate::specs::Words::mode_row))]
fn read_mode(text: &[u8]) -> ItemRow
    ensures { result ≡ mode_row text.now }
{
    match split_mode(text) {
        (Some(mode), []) => Some(Ok(ItemCommands::mode(mode))),
        _ => None,
    }
}

/// Reads how the centre of an arc is found, `G74` or `G75`.
#[tactic(auto, unfolding(crate::specs::Words::quadrant_row))]
fn read_quadrant(text: &[u8]) -> ItemRow
    ensures { result ≡ quadrant_row text.now }
{
    match text {
        b"G74" => Some(Ok(ItemCommands::one(Command::Quadrant(QuadrantMode::Single)))),
        b"G75" => Some(Ok(ItemCommands::one(Command::Quadrant(QuadrantMode::Multi)))),
        _ => None,
    }
}

/// Reads the start or end of a region, `G36` or `G37`.
#[tactic(auto, unfolding(crate::specs::Words::region_row))]
fn read_region(text: &[u8]) -> ItemRow
    ensures { result ≡ region_row text.now }
{
    match text {
        b"G36" => Some(Ok(ItemCommands::one(Command::RegionStart))),
        b"G37" => Some(Ok(ItemCommands::one(Command::RegionEnd))),
        _ => None,
    }
}

/// Reads the unit by an older code, `G70` or `G71`.
#[tactic(auto, unfolding(crate::specs::Words::unit_row))]
fn read_unit(text: &[u8]) -> ItemRow
    ensures { result ≡ unit_row text.now }
{
    match text {
        b"G70" => Some(Ok(ItemCommands::one(Command::UnitIs(Unit::Inch)))),
        b"G71" => Some(Ok(ItemCommands::one(Command::UnitIs(Unit::Millimetre)))),
        _ => None,
    }
}

/// Refuses incremental coordinates, `G91`.
#[tactic(auto, unfolding(crate::specs::Words::incremental_row))]
fn read_incremental(text: &[u8]) -> ItemRow
    ensures { result ≡ incremental_row text.now }
{
    match text {
        b"G91" => Some(Err(Reason::Incremental)),
        _ => None,
    }
}

/// The operation of a D code of 1, 2 or 3.
fn action_of(number: u32) -> Result<Action, Reason>
    ensures { result ≡ action number }
{
    match number {
        1 => Ok(Action::Plot),
        2 => Ok(Action::Move),
        3 => Ok(Action::Flash),
        _ => Err(Reason::BadWord),
    }
}

/// The digits after a prefix, if nothing else follows it.
fn digits_after<'a>(prefix: &[u8], text: &'a [u8]) -> Option<&'a [u8]>
    ensures { option_copied result ≡ digits_after prefix.now text.now }
{
    match strip_prefix(prefix, text) {
        Some(digits) if are_all_digits(digits) => Some(digits),
        _ => None,
    }
}

/// Reads the number of `D`: an aperture from 10 on, or an operation.
#[tactic(auto, unfolding(crate::specs::Words::d_word))]
fn read_d_word(digits: &[u8]) -> Result<ItemCommands, Reason>
    ensures { result ≡ d_word digits.now }
{
    let number = read_nat(digits)?;
    if number >= 10 {
        return Ok(ItemCommands::one(Command::Select(number)));
    }
    let action = action_of(number)?;
    let none = OptionalInteger::none();
    Ok(ItemCommands::one(Command::Operate {
        action,
        x: none,
        y: none,
        i: none,
        j: none,
    }))
}

/// Reads the number of `G54D`: an aperture from 10 on.
#[tactic(auto, unfolding(crate::specs::Words::g54_word))]
fn read_g54_word(digits: &[u8]) -> Result<ItemCommands, Reason>
    ensures { result ≡ g54_word digits.now }
{
    let number = read_nat(digits)?;
    if number >= 10 {
        Ok(ItemCommands::one(Command::Select(number)))
    } else {
        Err(Reason::BadWord)
    }
}

/// Reads a D code without coordinates, as `D10` or `G54D10`.
#[tactic(auto, unfolding(crate::specs::Words::select_row))]
fn read_select(text: &[u8]) -> ItemRow
    ensures { result ≡ select_row text.now }
{
    if let Some(digits) = digits_after(b"D", text) {
        Some(read_d_word(digits))
    } else if let Some(digits) = digits_after(b"G54D", text) {
        Some(read_g54_word(digits))
    } else {
        None
    }
}

/// A coordinate, which may be left out.
#[tactic(auto, unfolding(crate::specs::Words::coordinate))]
fn coordinate_of(run: Option<&[u8]>) -> Result<OptionalInteger, Reason>
    ensures { result ≡ coordinate (option_copied run.entry) }
{
    match run {
        None => Ok(OptionalInteger::none()),
        Some(run) => Ok(OptionalInteger::of(Some(read_int(run)?))),
    }
}

/// The operation of a word with coordinates. Without a D code it repeats the last one. Only a plot may have offsets.
#[tactic(auto, unfolding(crate::specs::Words::kind))]
fn word_action(last: Option<Action>, offsets: bool, digits: Option<&[u8]>) -> Result<Action, Reason>
    ensures { result ≡ kind last offsets (option_copied digits.entry) }
{
    let action = match digits {
        Some(digits) => action_of(read_nat(digits)?)?,
        None => last.ok_or(Reason::BareCoordinate)?,
    };
    if offsets && !matches!(action, Action::Plot) {
        Err(Reason::BadWord)
    } else {
        Ok(action)
    }
}

/// The fields of an operation: the run of each letter that stands, and the bytes left over.
#[derive(Clone, Copy)]
struct Runs<'a> {
    x: Option<&'a [u8]>,
    y: Option<&'a [u8]>,
    i: Option<&'a [u8]>,
    j: Option<&'a [u8]>,
    d: Option<&'a [u8]>,
    rest: &'a [u8],
}

/// The fields X, Y, I, J and D, in this order.
#[tactic(auto, unfolding(crate::specs::Words::fields))]
fn fields(text: &[u8]) -> Runs<'_>
    ensures { fields_of result ≡ fields text.now }
{
    let (x, rest) = number_field(b'X', text);
    let (y, rest) = number_field(b'Y', rest);
    let (i, rest) = number_field(b'I', rest);
    let (j, rest) = number_field(b'J', rest);
    let (d, rest) = digits_field(b'D', rest);
    Runs {
        x,
        y,
        i,
        j,
        d,
        rest,
    }
}

/// Whether a D code stands, of 1, 2 or 3.
#[tactic(auto, unfolding(crate::specs::Words::is_action_code))]
fn is_action_code(digits: Option<&[u8]>) -> bool
    ensures { result ≡ is_action_code (option_copied digits.entry) }
{
    match digits {
        Some(digits) => match read_nat(digits) {
            Ok(number) => action_of(number).is_ok(),
            Err(_) => false,
        },
        None => false,
    }
}

/// Whether nothing is left over, and a coordinate stands or a D code of 1, 2 or 3.
fn is_operation(f: &Runs<'_>) -> bool
    ensures { result ≡ is_operation (fields_of f.now) }
{
    f.rest.is_empty()
        && (f.x.is_some() || f.y.is_some() || f.i.is_some() || f.j.is_some() || is_action_code(f.d))
}

/// The values of two coordinates, each of which may be left out.
type CoordinatePair = (OptionalInteger, OptionalInteger);

/// The values of X and Y, of I and J, and the operation.
type Operands = ((CoordinatePair, CoordinatePair), Action);

/// Whether an offset I or J stands.
fn has_offsets(f: &Runs<'_>) -> bool
    ensures { result ≡ has_offsets (fields_of f.now) }
{
    f.i.is_some() || f.j.is_some()
}

/// The values of these fields, or the first reason in the reading order.
#[tactic(auto, unfolding(crate::specs::Words::operands))]
fn read_operands(last: Option<Action>, f: &Runs<'_>) -> Result<Operands, Reason>
    ensures { result ≡ operands last (fields_of f.now) }
{
    let point = both(coordinate_of(f.x), coordinate_of(f.y));
    let coordinates = both(point, both(coordinate_of(f.i), coordinate_of(f.j)));
    both(coordinates, word_action(last, has_offsets(f), f.d))
}

/// The interpolation, if there is one, and the operation of these fields.
#[tactic(auto, unfolding(crate::specs::Words::operate))]
fn read_operate(
    last: Option<Action>,
    mode: Option<Interpolation>,
    f: &Runs<'_>,
) -> Result<ItemCommands, Reason>
    ensures { result ≡ operate last mode (fields_of f.now) }
{
    let (((x, y), (i, j)), action) = read_operands(last, f)?;
    Ok(ItemCommands::both(mode, Command::Operate { action, x, y, i, j }))
}

/// Reads an operation, optionally after an interpolation, as `G01X10Y20D01`.
#[tactic(auto, unfolding(crate::specs::Words::operation_row))]
fn read_operation(last: Option<Action>, text: &[u8]) -> ItemRow
    ensures { result ≡ operation_row last text.now }
{
    let (mode, rest) = split_mode(text);
    let f = fields(rest);
    if is_operation(&f) {
        Some(read_operate(last, mode, &f))
    } else {
        None
    }
}

/// Reads the end of the text, `M02` or `M2`.
#[tactic(auto, unfolding(crate::specs::Words::finish_row))]
fn read_finish(text: &[u8]) -> ItemRow
    ensures { result ≡ finish_row text.now }
{
    match text {
        b"M02" | b"M2" => Some(Ok(ItemCommands::one(Command::Finish))),
        _ => None,
    }
}

/// Refuses the stops `M00` and `M01`, and line numbers.
#[tactic(auto, unfolding(crate::specs::Words::deprecated_row))]
fn read_deprecated(text: &[u8]) -> ItemRow
    ensures { result ≡ deprecated_row text.now }
{
    match text {
        b"M00" | b"M01" | [b'N', ..] => Some(Err(Reason::OldParameter)),
        _ => None,
    }
}

/// Reads the rows after that of comments, in their order.
fn read_after_comment(last: Option<Action>, text: &[u8]) -> Result<ItemCommands, Reason>
    ensures { result ≡ first_match (words_after_comment last text.now) }
{
    if let Some(answer) = read_mode(text) {
        answer
    } else if let Some(answer) = read_quadrant(text) {
        answer
    } else if let Some(answer) = read_region(text) {
        answer
    } else if let Some(answer) = read_unit(text) {
        answer
    } else if let Some(answer) = read_incremental(text) {
        answer
    } else if let Some(answer) = read_select(text) {
        answer
    } else if let Some(answer) = read_operation(last, text) {
        answer
    } else if let Some(answer) = read_finish(text) {
        answer
    } else if let Some(answer) = read_deprecated(text) {
        answer
    } else {
        Err(Reason::BadWord)
    }
}

/// Reads a word without its `*`, given the last operation, where coordinates alone repeat it.
#[tactic(auto, unfolding(crate::specs::Words::word))]
pub fn read_word(alloc: Global, last: Option<Action>, text: &[u8]) -> Result<ItemCommands, ItemFail>
    ensures { Gives result (word last text.now) }
{
    if contains(text, b'%') {
        Err(ItemFail::Refused(Reason::BadWord))
    } else if let Some(answer) = read_no_effect(text) {
        item_answer(answer)
    } else if let Some(comment) = strip_prefix(b"G04", text) {
        read_comment(alloc, comment)
    } else {
        item_answer(read_after_comment(last, text))
    }
}
