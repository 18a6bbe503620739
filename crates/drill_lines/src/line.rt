//! A line of a drill file, and what it spells.

ghost use Rattle.std.specs.Prelude.{◌≡◌, ◌≤◌, ◌∷◌, [], length, take, Ok, Some, codes};
ghost use Rattle.std.specs.Str.{bytes_eq};
ghost use Rattle.grid_units.specs.declared.fault.Reason.TheVariants.{OldFormat, BadLine};
ghost use Rattle.grid_units.specs.Rows.{first_match_or, literal_row, prefix_row};
ghost use Rattle.grid_units.specs.Results.{Gives};
ghost use Rattle.drill_lines.specs.declared.command.DrillCommand.TheVariants.{Finish};
ghost use Rattle.drill_lines.specs.Lines.{is_blank, without_end_blanks};
ghost use Rattle.drill_lines.specs.Meaning.{meaning, lines_before, common_lines, common_rows, header_ends, header_rows, body_prefixes, body_rows, line_in, begins_comment};

use crate::command::{DrillCommand, Part, Settings};
use crate::header::unit_line;
use crate::hole_lines::hole_line;
use crate::tools::{pick_line, tool_line};
use grid_units::{ItemFail, Reason, Text, Unit};
use std::alloc::Global;

fn is_blank(byte: u8) -> bool
    ensures { result ≡ is_blank byte }
{
    byte == b' ' || byte == b'\t' || byte == b'\r'
}

/// How many bytes a line has without the blanks at its end.
pub(crate) fn trimmed_len(line: &[u8]) -> usize
    ensures within { result ≤ length line.now }
    ensures exact { take result line.now ≡ without_end_blanks line.now }
{
    let mut len = line.len();
    while len > 0 && is_blank(line[len - 1]) {
        len -= 1;
    }
    len
}

/// Whether a line begins with these bytes.
pub(crate) fn begins(word: &[u8], line: &[u8]) -> bool
    ensures { result ≡ bytes_eq (take (length word.now) line.now) word.now }
{
    line.strip_prefix(word).is_some()
}

/// A row of the table of drill lines: what a line that fits it spells.
type Row = Option<Result<Option<DrillCommand>, Reason>>;

/// Reads a line before `M48`.
#[tactic(auto, unfolding(crate::specs::Meaning::lines_before))]
fn line_before(line: &[u8]) -> Result<Option<DrillCommand>, Reason>
    ensures { result ≡ first_match_or OldFormat (literal_row lines_before line.now ∷ []) }
{
    if line == b"%".as_slice() {
        Ok(None)
    } else if line == b"M48".as_slice() {
        Ok(Some(DrillCommand::Start))
    } else {
        Err(Reason::OldFormat)
    }
}

/// Reads a line that is just one of those of both the header and the body, as `M71`.
#[tactic(auto, unfolding(crate::specs::Meaning::common_lines))]
fn common_line(line: &[u8]) -> Row
    ensures { result ≡ literal_row common_lines line.now }
{
    if line == b"M71".as_slice() {
        Some(Ok(Some(DrillCommand::UnitCode(Unit::Millimetre))))
    } else if line == b"M72".as_slice() {
        Some(Ok(Some(DrillCommand::UnitCode(Unit::Inch))))
    } else if line == b"G90".as_slice()
        || line == b"G05".as_slice()
        || line == b"FMAT,2".as_slice()
        || line == b"VER,1".as_slice()
        || line == b"ICI,OFF".as_slice()
    {
        Some(Ok(None))
    } else if line == b"FMAT,1".as_slice() {
        Some(Err(Reason::OldFormat))
    } else if line == b"G91".as_slice() || line == b"ICI,ON".as_slice() {
        Some(Err(Reason::Incremental))
    } else {
        None
    }
}

/// Reads a line by the rows that the header and the body share.
fn common_rows(line: &[u8]) -> Result<Option<DrillCommand>, Reason>
    ensures { result ≡ first_match_or BadLine (common_rows line.now) }
{
    if let Some(answer) = common_line(line) {
        answer
    } else if begins(b"G93", line) {
        Err(Reason::OldFormat)
    } else {
        Err(Reason::BadLine)
    }
}

/// Reads a line that ends the header, `%` or `M95`.
#[tactic(auto, unfolding(crate::specs::Meaning::header_ends))]
fn header_end(line: &[u8]) -> Row
    ensures { result ≡ literal_row header_ends line.now }
{
    if line == b"%".as_slice() || line == b"M95".as_slice() {
        Some(Ok(Some(DrillCommand::HeaderEnd)))
    } else {
        None
    }
}

/// Reads a line of the header.
fn header_line(line: &[u8]) -> Result<Option<DrillCommand>, Reason>
    ensures { result ≡ first_match_or BadLine (header_rows line.now) }
{
    if let Some(answer) = header_end(line) {
        return answer;
    }
    if let Some(rest) = line.strip_prefix(b"INCH".as_slice()) {
        return Ok(Some(unit_line(Unit::Inch, rest)?));
    }
    if let Some(rest) = line.strip_prefix(b"METRIC".as_slice()) {
        return Ok(Some(unit_line(Unit::Millimetre, rest)?));
    }
    if let Some(rest) = line.strip_prefix(b"T".as_slice()) {
        return Ok(Some(tool_line(rest)?));
    }
    common_rows(line)
}

/// Refuses a line of the body by its beginning: a routed path, a repeat or a pattern.
#[tactic(auto, unfolding(crate::specs::Meaning::body_prefixes))]
fn body_prefix(line: &[u8]) -> Row
    ensures { result ≡ prefix_row body_prefixes line.now }
{
    if begins(b"G00", line)
        || begins(b"G01", line)
        || begins(b"G02", line)
        || begins(b"G03", line)
        || begins(b"M15", line)
        || begins(b"M16", line)
    {
        Some(Err(Reason::Routed))
    } else if begins(b"R", line)
        || begins(b"M01", line)
        || begins(b"M02", line)
        || begins(b"M08", line)
        || begins(b"M25", line)
    {
        Some(Err(Reason::Repeat))
    } else {
        None
    }
}

/// Reads a line of the body that neither drills nor picks a tool.
fn body_word(line: &[u8]) -> Result<Option<DrillCommand>, Reason>
    ensures { result ≡ first_match_or BadLine (literal_row ((codes "M30", Ok (Some Finish)) ∷ []) line.now ∷ prefix_row body_prefixes line.now ∷ common_rows line.now) }
{
    if line == b"M30".as_slice() {
        Ok(Some(DrillCommand::Finish))
    } else if let Some(answer) = body_prefix(line) {
        answer
    } else {
        common_rows(line)
    }
}

/// Reads a line of the body.
fn body_line(settings: Settings, line: &[u8]) -> Result<Option<DrillCommand>, Reason>
    ensures { result ≡ first_match_or BadLine (body_rows settings line.now) }
{
    if begins(b"X", line) || begins(b"Y", line) {
        return Ok(Some(hole_line(settings, line)?));
    }
    if let Some(rest) = line.strip_prefix(b"T".as_slice()) {
        return Ok(Some(pick_line(rest)?));
    }
    body_word(line)
}

/// Reads a line by the part of the file in which it stands.
#[tactic(auto, unfolding(crate::specs::Meaning::line_in))]
fn line_in(settings: Settings, line: &[u8]) -> Result<Option<DrillCommand>, Reason>
    ensures { result ≡ line_in settings.part settings line.now }
{
    match settings.part {
        Part::Before => line_before(line),
        Part::Header => header_line(line),
        Part::Body => body_line(settings, line),
        Part::After => Err(Reason::AfterEnd),
    }
}

/// Whether a line that begins with this byte is a comment in this part of the file.
fn begins_comment(part: Part, first: u8) -> bool
    ensures { result ≡ begins_comment part first }
{
    match part {
        Part::After => false,
        Part::Before | Part::Header | Part::Body => first == b';',
    }
}

/// A reading that is refused as that of an item.
pub(crate) fn as_item<T: Drop>(read: Result<T, Reason>) -> Result<T, ItemFail>
    ensures { Gives result read }
{
    match read {
        Ok(value) => Ok(value),
        Err(reason) => Err(ItemFail::Refused(reason)),
    }
}

/// The command that a line without blanks at its end spells, if it spells one.
#[tactic(auto, unfolding(crate::specs::Meaning::meaning))]
pub(crate) fn read_trimmed(
    alloc: Global,
    settings: Settings,
    line: &[u8],
) -> Result<Option<DrillCommand>, ItemFail>
    ensures { Gives result (meaning settings line.now) }
{
    let Some((first, text)) = line.split_first() else {
        return Ok(None);
    };
    if begins_comment(settings.part, *first) {
        let text = Text::from_slice(alloc, text)?;
        return Ok(Some(DrillCommand::Comment(text)));
    }
    as_item(line_in(settings, line))
}

/// The command that a line spells, if it spells one. Blanks at its end are dropped.
///
/// # Errors
///
/// The first reason of the reading order ("docs/FORMATS.md", Drill lines), or `Memory`.
pub fn read_line(
    alloc: Global,
    settings: Settings,
    line: &[u8],
) -> Result<Option<DrillCommand>, ItemFail>
    ensures { Gives result (meaning settings (without_end_blanks line.now)) }
{
    read_trimmed(alloc, settings, &line[..trimmed_len(line)])
}
