//! The lines that define a tool and that pick one.

ghost use Rattle.std.specs.Prelude.{◌≡◌, ◌||◌, count_by};
ghost use Rattle.std.specs.List.{list_all, list_any, after_first};
ghost use Rattle.grid_units.specs.Numbers.{is_number_char};
ghost use Rattle.drill_lines.specs.Tools.{is_point, is_diameter_letter, is_skipped_letter, is_tool_letter, are_fields, tool_number, diameter_of, diameter_run, tool_fields, tool_line, pick_fields, pick_line};

use crate::command::DrillCommand;
use grid_units::numbers::{
    capped_value, digit_run_len, is_digits, is_number_char, len_before, number_run_len,
};
use grid_units::{Dec, Reason, both};

fn is_diameter_letter(byte: u8) -> bool
    ensures { result ≡ is_diameter_letter byte }
{
    byte == b'C'
}

fn is_skipped_letter(byte: u8) -> bool
    ensures { result ≡ is_skipped_letter byte }
{
    byte == b'F' || byte == b'S' || byte == b'B' || byte == b'H' || byte == b'Z'
}

fn is_tool_letter(byte: u8) -> bool
    ensures { result ≡ is_tool_letter byte }
{
    is_diameter_letter(byte) || is_skipped_letter(byte)
}

/// Whether a run has a point.
pub(crate) fn has_point(run: &[u8]) -> bool
    ensures { result ≡ list_any is_point run.now }
{
    run.iter().any(|byte| *byte == b'.')
}

fn is_tool_byte(byte: u8) -> bool
    ensures { result ≡ (is_tool_letter byte || is_number_char byte) }
{
    is_tool_letter(byte) || is_number_char(byte)
}

fn is_pick_byte(byte: u8) -> bool
    ensures { result ≡ (is_skipped_letter byte || is_number_char byte) }
{
    is_skipped_letter(byte) || is_number_char(byte)
}

fn are_tool_bytes(fields: &[u8]) -> bool
    ensures { result ≡ list_all (λ b. is_tool_letter b || is_number_char b) fields.now }
{
    fields.iter().all(|byte| is_tool_byte(*byte))
}

fn are_pick_bytes(fields: &[u8]) -> bool
    ensures { result ≡ list_all (λ b. is_skipped_letter b || is_number_char b) fields.now }
{
    fields.iter().all(|byte| is_pick_byte(*byte))
}

/// Whether these are letters of a tool's definition, each with a run, as `F200C0.4`.
fn are_tool_fields(fields: &[u8]) -> bool
    ensures { result ≡ are_fields is_tool_letter fields.now }
{
    match fields.first() {
        Some(first) => is_tool_letter(*first) && are_tool_bytes(fields),
        None => true,
    }
}

/// Whether these are letters of a pick, each with a run, as `F200S65`.
fn are_pick_fields(fields: &[u8]) -> bool
    ensures { result ≡ are_fields is_skipped_letter fields.now }
{
    match fields.first() {
        Some(first) => is_skipped_letter(*first) && are_pick_bytes(fields),
        None => true,
    }
}

/// How many `C` there are.
fn diameter_count(fields: &[u8]) -> usize
    ensures { result ≡ count_by is_diameter_letter fields.now }
{
    fields
        .iter()
        .filter(|byte| is_diameter_letter(**byte))
        .count()
}

/// The number of a tool, from `least` to 999.
#[tactic(auto, unfolding(crate::specs::Tools::tool_number))]
fn tool_number(least: u64, digits: &[u8]) -> Result<u16, Reason>
    ensures { result ≡ tool_number least digits.now }
{
    if !is_digits(digits) {
        return Err(Reason::BadNumber);
    }
    let number = capped_value(digits, 1_000);
    if least <= number && number <= 999 {
        Ok(number as u16)
    } else {
        Err(Reason::BadNumber)
    }
}

/// The diameter of a tool: a decimal with a point.
#[tactic(auto, unfolding(crate::specs::Tools::diameter_of))]
fn diameter_of(run: &[u8]) -> Result<Dec, Reason>
    ensures { result ≡ diameter_of run.now }
{
    if has_point(run) {
        Dec::read(run)
    } else {
        Err(Reason::BadNumber)
    }
}

/// The bytes after the first `C`.
fn after_diameter_letter(fields: &[u8]) -> &[u8]
    ensures { result.now ≡ after_first is_diameter_letter fields.now }
{
    let start = fields.len().min(len_before(b'C', fields) + 1);
    &fields[start..]
}

/// A tool's definition, by the digits of its number and its fields.
#[tactic(auto, unfolding(crate::specs::Tools::tool_fields))]
fn tool_fields(digits: &[u8], fields: &[u8]) -> Result<DrillCommand, Reason>
    ensures { result ≡ tool_fields digits.now fields.now }
{
    if !are_tool_fields(fields) || diameter_count(fields) != 1 {
        return Err(Reason::BadLine);
    }
    let rest = after_diameter_letter(fields);
    let run = &rest[..number_run_len(rest)];
    let (number, diameter) = both(tool_number(1, digits), diameter_of(run))?;
    Ok(DrillCommand::Tool(number, diameter))
}

/// Reads a tool's definition, after its `T`: `1C0.4`.
#[tactic(auto, unfolding(crate::specs::Tools::tool_line))]
pub(crate) fn tool_line(line: &[u8]) -> Result<DrillCommand, Reason>
    ensures { result ≡ tool_line line.now }
{
    let (digits, fields) = line.split_at(digit_run_len(line));
    tool_fields(digits, fields)
}

/// A pick, by the digits of its number and its fields.
#[tactic(auto, unfolding(crate::specs::Tools::pick_fields))]
fn pick_fields(digits: &[u8], fields: &[u8]) -> Result<DrillCommand, Reason>
    ensures { result ≡ pick_fields digits.now fields.now }
{
    if !are_pick_fields(fields) {
        return Err(Reason::BadLine);
    }
    Ok(DrillCommand::Pick(tool_number(0, digits)?))
}

/// Reads a pick, after its `T`: `1`.
#[tactic(auto, unfolding(crate::specs::Tools::pick_line))]
pub(crate) fn pick_line(line: &[u8]) -> Result<DrillCommand, Reason>
    ensures { result ≡ pick_line line.now }
{
    let (digits, fields) = line.split_at(digit_run_len(line));
    pick_fields(digits, fields)
}
