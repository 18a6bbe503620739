//! The units, the zeros and the formats of a header.

ghost use Rattle.std.specs.Prelude.{◌≡◌};
ghost use Rattle.std.specs.List.{list_all};
ghost use Rattle.grid_units.specs.Numbers.{is_number_char};
ghost use Rattle.drill_lines.specs.Header.{is_zero, is_digit_count, digit_counts, pattern, pattern_from, unit_format, unit_line, is_format_digit, parse_format, file_format};

use crate::command::{DrillCommand, DrillFormat};
use grid_units::numbers::{is_number_char, repeat_len};
use grid_units::{Reason, Unit, Zeros};

fn are_zeros(run: &[u8]) -> bool
    ensures { result ≡ list_all is_zero run.now }
{
    run.iter().all(|byte| *byte == b'0')
}

fn is_digit_count(count: usize) -> bool
    ensures { result ≡ is_digit_count count }
{
    (1..=6).contains(&count)
}

/// The format with these numbers of digits, or `BadNumber` where one of them is not 1 to 6.
fn digit_counts(whole: usize, decimals: usize) -> Result<DrillFormat, Reason>
    ensures { result ≡ digit_counts whole decimals }
{
    if !is_digit_count(whole) || !is_digit_count(decimals) {
        return Err(Reason::BadNumber);
    }
    DrillFormat::new(whole as u8, decimals as u8).ok_or(Reason::BadNumber)
}

/// The format of a pattern with so many zeros before its point, by what follows these.
fn pattern_from(whole: usize, rest: &[u8]) -> Result<DrillFormat, Reason>
    ensures { result ≡ pattern_from whole rest.now }
{
    match rest.split_first() {
        Some((first, decimals)) if *first == b'.' && are_zeros(decimals) => {
            digit_counts(whole, decimals.len())
        }
        _ => Err(Reason::BadNumber),
    }
}

/// The format that a pattern shows: `00.0000` is 2:4.
#[tactic(auto, unfolding(crate::specs::Header::pattern))]
fn pattern(run: &[u8]) -> Result<DrillFormat, Reason>
    ensures { result ≡ pattern run.now }
{
    let (zeros, rest) = run.split_at(repeat_len(b'0', run));
    pattern_from(zeros.len(), rest)
}

fn are_number_bytes(run: &[u8]) -> bool
    ensures { result ≡ list_all is_number_char run.now }
{
    run.iter().all(|byte| is_number_char(*byte))
}

/// A unit line, by what follows its unit and its zeros.
#[tactic(auto, unfolding(crate::specs::Header::unit_format))]
fn unit_format(unit: Unit, zeros: Option<Zeros>, rest: &[u8]) -> Result<DrillCommand, Reason>
    ensures { result ≡ unit_format unit zeros rest.now }
{
    let Some((first, run)) = rest.split_first() else {
        return Ok(DrillCommand::UnitLine(unit, zeros, None));
    };
    if *first != b',' || !are_number_bytes(run) {
        return Err(Reason::BadLine);
    }
    let format = pattern(run)?;
    Ok(DrillCommand::UnitLine(unit, zeros, Some(format)))
}

/// A unit line, by what follows its unit.
#[tactic(auto, unfolding(crate::specs::Header::unit_line))]
pub(crate) fn unit_line(unit: Unit, line: &[u8]) -> Result<DrillCommand, Reason>
    ensures { result ≡ unit_line unit line.now }
{
    if let Some(rest) = line.strip_prefix(b",LZ".as_slice()) {
        return unit_format(unit, Some(Zeros::Leading), rest);
    }
    if let Some(rest) = line.strip_prefix(b",TZ".as_slice()) {
        return unit_format(unit, Some(Zeros::Trailing), rest);
    }
    unit_format(unit, None, line)
}

fn is_format_digit(byte: u8) -> bool
    ensures { result ≡ is_format_digit byte }
{
    (b'1'..=b'6').contains(&byte)
}

/// The format of `i:d`, two digits from 1 to 6.
pub fn read_digits(text: &[u8]) -> Option<DrillFormat>
    ensures { result ≡ parse_format text.now }
{
    match text {
        [i, b':', d] if is_format_digit(*i) && is_format_digit(*d) => DrillFormat::new(
            *i - b'0',
            *d - b'0',
        ),
        _ => None,
    }
}

/// The format that the text of a comment gives, if it is exactly `FILE_FORMAT=i:d` with digits i and d from 1 to 6.
#[tactic(auto, unfolding(crate::specs::Header::file_format))]
pub fn file_format(text: &[u8]) -> Option<DrillFormat>
    ensures { result ≡ file_format text.now }
{
    read_digits(text.strip_prefix(b"FILE_FORMAT=".as_slice())?)
}
