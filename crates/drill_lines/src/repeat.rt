//! The lines that repeat a hit.

ghost use Rattle.std.specs.Prelude.{◌≡◌};
ghost use Rattle.drill_lines.specs.Repeats.{no_step, repeat_count, repeat_fields, repeat_row, step_row};

use crate::command::{Coordinates, Part, Repeat, Settings};
use crate::hole_lines::point_line;
use grid_units::numbers::{capped_value, digit_run_len, is_digits};
use grid_units::{Reason, both};

/// How many further holes there are, from 1 to 10,000.
#[tactic(auto, unfolding(crate::specs::Repeats::repeat_count))]
fn repeat_count(digits: &[u8]) -> Result<u16, Reason>
    ensures { result ≡ repeat_count digits.now }
{
    if !is_digits(digits) {
        return Err(Reason::BadNumber);
    }
    let count = capped_value(digits, 10_001);
    if 1 <= count && count <= 10_000 {
        Ok(count as u16)
    } else {
        Err(Reason::BadNumber)
    }
}

/// The step that bytes name, or the first reason in the reading order; `None` where they are no step.
fn step_line(settings: &Settings, text: &[u8]) -> Option<Result<Coordinates, Reason>>
    ensures { result ≡ step_row settings.now text.now }
{
    if text.is_empty() {
        Some(Ok(Coordinates::new(None, None)))
    } else {
        point_line(settings, text)
    }
}

/// The repeat of these digits and what follows them.
#[tactic(auto, unfolding(crate::specs::Repeats::repeat_fields))]
fn repeat_fields(settings: &Settings, digits: &[u8], text: &[u8]) -> Option<Result<Repeat, Reason>>
    ensures { result ≡ repeat_fields settings.now digits.now text.now }
{
    let step = step_line(settings, text)?;
    match both(repeat_count(digits), step) {
        Ok((count, step)) => Some(Ok(Repeat { count, step })),
        Err(reason) => Some(Err(reason)),
    }
}

/// How a line of the body repeats a hit, as `R3X2.54`, or the first reason in the reading order; `None` for any other line.
#[tactic(auto, unfolding(crate::specs::Repeats::repeat_row))]
pub(crate) fn repeat_line(settings: &Settings, line: &[u8]) -> Option<Result<Repeat, Reason>>
    ensures { result ≡ repeat_row settings.now.part settings.now line.now }
{
    if !matches!(settings.part, Part::Body) {
        return None;
    }
    let rest = line.strip_prefix(b"R".as_slice())?;
    let (digits, text) = rest.split_at(digit_run_len(rest));
    repeat_fields(settings, digits, text)
}
