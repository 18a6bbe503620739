//! The lines that drill: a hit at a point, a slot from one point to another.

ghost use Rattle.std.specs.Prelude.{◌≡◌};
ghost use Rattle.std.specs.Option.{option_copied};
ghost use Rattle.drill_lines.specs.Formats.{AreDigitCounts};
ghost use Rattle.drill_lines.specs.HoleLines.{default_format, format_in, zeros_in, coordinate_of, coordinate, field, coordinates, point_line, slot_line, hole_from, hole_line};

use crate::command::{Coordinates, DrillCommand, DrillFormat, Settings};
use crate::tools::has_point;
use grid_units::numbers::number_run_len;
use grid_units::{Dec, Reason, Unit, Zeros, both, from_zeros};

/// The format where a header gives none: 2:4 for inch, else 3:3.
fn default_format(unit: Option<Unit>) -> (u8, u8)
    ensures whole { result.0 ≡ (default_format unit).whole }
    ensures decimals { result.1 ≡ (default_format unit).decimals }
    ensures digit_counts { AreDigitCounts result.0 result.1 }
{
    match unit {
        Some(Unit::Inch) => (2, 4),
        _ => (3, 3),
    }
}

/// The format by which a coordinate without a point is read.
fn digits_in(settings: &Settings) -> (u8, u8)
    ensures whole { result.0 ≡ (format_in settings.now).whole }
    ensures decimals { result.1 ≡ (format_in settings.now).decimals }
    ensures digit_counts { AreDigitCounts result.0 result.1 }
{
    match &settings.format {
        Some(format) => (format.whole(), format.decimals()),
        None => default_format(settings.unit),
    }
}

/// The value of a coordinate, by its run: with a point it is a decimal, without one it is read in the format.
///
/// # Errors
///
/// The first reason of `Dec::read` where the run has a point, else that of `from_zeros`.
#[tactic(auto, unfolding(crate::specs::HoleLines::coordinate_of))]
pub fn coordinate_of(settings: &Settings, run: &[u8]) -> Result<Dec, Reason>
    ensures { result ≡ coordinate_of settings.now run.now }
{
    if !has_point(run) {
        let (whole, decimals) = digits_in(settings);
        return from_zeros(run, whole, decimals, settings.zeros.unwrap_or(Zeros::Full));
    }
    let (value, rest) = Dec::read_prefix(run);
    match value {
        Some(value) if rest.is_empty() => Ok(value),
        _ => Dec::read(run),
    }
}

/// The value of a coordinate that may be left out.
#[tactic(auto, unfolding(crate::specs::HoleLines::coordinate))]
fn coordinate(settings: &Settings, run: Option<&[u8]>) -> Result<Option<Dec>, Reason>
    ensures { result ≡ coordinate settings.now (option_copied run.entry) }
{
    match run {
        None => Ok(None),
        Some(run) => Ok(Some(coordinate_of(settings, run)?)),
    }
}

/// The run after a letter, if the letter stands, and the rest.
fn field(letter: u8, bytes: &[u8]) -> (Option<&[u8]>, &[u8])
    ensures run { option_copied result.0 ≡ (field letter bytes.now).0 }
    ensures rest { result.1.now ≡ (field letter bytes.now).1 }
{
    match bytes {
        [first, rest @ ..] if *first == letter => {
            let (run, rest) = rest.split_at(number_run_len(rest));
            (Some(run), rest)
        }
        _ => (None, bytes),
    }
}

/// The coordinates of these runs, or the first reason in the reading order.
#[tactic(auto, unfolding(crate::specs::HoleLines::coordinates))]
fn coordinates(
    settings: &Settings,
    x: Option<&[u8]>,
    y: Option<&[u8]>,
) -> Result<Coordinates, Reason>
    ensures { result ≡ coordinates settings.now (record { x = option_copied x.entry; y = option_copied y.entry }) }
{
    let (x, y) = both(coordinate(settings, x), coordinate(settings, y))?;
    Ok(Coordinates::new(x, y))
}

/// The point that bytes name, or the first reason in the reading order; `None` where they are no point.
#[tactic(auto, unfolding(crate::specs::HoleLines::point_line))]
pub(crate) fn point_line(settings: &Settings, line: &[u8]) -> Option<Result<Coordinates, Reason>>
    ensures { result ≡ point_line settings.now line.now }
{
    let (x, rest) = field(b'X', line);
    let (y, rest) = field(b'Y', rest);
    if (x.is_none() && y.is_none()) || !rest.is_empty() {
        return None;
    }
    Some(coordinates(settings, x, y))
}

/// A slot from a point, by what follows its `G85`.
#[tactic(auto, unfolding(crate::specs::HoleLines::slot_line, crate::specs::HoleLines::point_line))]
fn slot_line(
    settings: &Settings,
    x: Option<&[u8]>,
    y: Option<&[u8]>,
    line: &[u8],
) -> Result<DrillCommand, Reason>
    ensures { result ≡ slot_line settings.now (record { x = option_copied x.entry; y = option_copied y.entry }) line.now }
{
    match point_line(settings, line) {
        Some(to) => {
            let (from, to) = both(coordinates(settings, x, y), to)?;
            Ok(DrillCommand::Slot(from, to))
        }
        None => Err(Reason::BadLine),
    }
}

/// A hit or a slot, by what follows its first point: nothing, or `G85` and a second point.
#[tactic(auto, unfolding(crate::specs::HoleLines::hole_from))]
fn hole_from(
    settings: &Settings,
    x: Option<&[u8]>,
    y: Option<&[u8]>,
    rest: &[u8],
) -> Result<DrillCommand, Reason>
    ensures { result ≡ hole_from settings.now (record { x = option_copied x.entry; y = option_copied y.entry }) rest.now }
{
    if rest.is_empty() {
        return Ok(DrillCommand::Hit(coordinates(settings, x, y)?));
    }
    match rest.strip_prefix(b"G85".as_slice()) {
        Some(line) => slot_line(settings, x, y, line),
        None => Err(Reason::BadLine),
    }
}

/// Reads a hit, as `X1.0Y-0.5`, or a slot, as `X2.0G85Y1.0`.
#[tactic(auto, unfolding(crate::specs::HoleLines::hole_line))]
pub(crate) fn hole_line(settings: Settings, line: &[u8]) -> Result<DrillCommand, Reason>
    ensures { result ≡ hole_line settings line.now }
{
    let (x, rest) = field(b'X', line);
    let (y, rest) = field(b'Y', rest);
    hole_from(&settings, x, y, rest)
}
