//! The fast path for hits, as most lines are. They are read in one pass, from the first byte of a line to its LF.

ghost use Rattle.std.specs.Prelude.{ℕ, List, IfSome};
ghost use Rattle.drill_lines.specs.declared.command.Settings.{Settings as TheSettings};
ghost use Rattle.drill_text.specs.Inner.FastPath.{MayLead, HasLineEnd, HasLeadingHit};

use drill_lines::{Coordinates, Settings, coordinate_of};
use grid_units::Dec;
use grid_units::numbers::number_run_len;

/// The decimal with a point after a letter, if both stand, and the bytes after it: all of them where it is not found.
fn leading_decimal(letter: u8, bytes: &[u8]) -> (Option<Dec>, &[u8])
    ensures { (settings : TheSettings) → MayLead settings letter result.0 result.1.now bytes.now }
{
    match bytes.split_first() {
        Some((first, tail)) if *first == letter => match Dec::read_prefix(tail) {
            (Some(value), rest) => (Some(value), rest),
            _ => (None, bytes),
        },
        _ => (None, bytes),
    }
}

/// The coordinate after a letter, by its run, if both stand, and the bytes after it: all of them where it is not found. It takes runs of
/// at most 16 bytes.
fn leading_coordinate<'a>(
    settings: &Settings,
    letter: u8,
    bytes: &'a [u8],
) -> (Option<Dec>, &'a [u8])
    ensures { MayLead settings.now letter result.0 result.1.now bytes.now }
{
    let Some((first, tail)) = bytes.split_first() else {
        return (None, bytes);
    };
    if *first != letter {
        return (None, bytes);
    }
    let (run, rest) = tail.split_at(number_run_len(tail));
    match coordinate_of(settings, run) {
        Ok(value) if run.len() <= 16 => (Some(value), rest),
        _ => (None, bytes),
    }
}

/// How many blanks stand before the LF at the start of the bytes: none, or one CR.
fn line_end_blanks(bytes: &[u8]) -> Option<usize>
    ensures { IfSome result (λ count. HasLineEnd count bytes.now) }
{
    let Some((first, tail)) = bytes.split_first() else {
        return None;
    };
    match tail.split_first() {
        _ if *first == b'\n' => Some(0),
        Some((second, _)) if *first == b'\r' && *second == b'\n' => Some(1),
        _ => None,
    }
}

/// The coordinates of a point at the start of the bytes, each if it is found, and the bytes after them. Most have points, and are tried first.
fn leading_point<'a>(settings: &Settings, bytes: &'a [u8]) -> (Option<Dec>, Option<Dec>, &'a [u8])
    ensures { (after_x : List ℕ) × MayLead settings.now 88 result.0 after_x bytes.now × MayLead settings.now 89 result.1 result.2.now after_x }
{
    let (x, after_x) = leading_decimal(b'X', bytes);
    let (y, rest) = leading_decimal(b'Y', after_x);
    if rest.len() < bytes.len() {
        return (x, y, rest);
    }
    let (x, after_x) = leading_coordinate(settings, b'X', bytes);
    let (y, rest) = leading_coordinate(settings, b'Y', after_x);
    (x, y, rest)
}

/// The hit that the line at the start of the bytes spells in the body, and how many bytes stand before its LF. `None`
/// only means that this fast path does not find one.
pub(crate) fn leading_hit(settings: &Settings, bytes: &[u8]) -> Option<(Coordinates, usize)>
    ensures { IfSome result (λ hit. HasLeadingHit settings.now hit.0 hit.1 bytes.now) }
{
    let (x, y, rest) = leading_point(settings, bytes);
    let blanks = line_end_blanks(rest)?;
    let len = bytes.len().saturating_sub(rest.len());
    if len == 0 {
        return None;
    }
    Some((Coordinates::new(x, y), len + blanks))
}
