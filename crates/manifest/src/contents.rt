//! What the text of a file says of itself.

ghost use Rattle.std.specs.Prelude.{◌≡◌, option_map};
ghost use Rattle.std.specs.List.{after_first, before_first, list_all, list_any};
ghost use Rattle.manifest.specs.Contents as says;
ghost use Rattle.manifest.specs.Contents.{ends_function, is_comma, lines};

use memchr::memmem;

/// What kind of file a text is.
#[derive(Clone, Copy, PartialEq, Eq)]
pub enum FileKind {
    /// A Gerber file.
    Gerber,
    /// A drill file.
    Drill,
    /// A drill file without a hole.
    Empty,
    /// A zip archive.
    Archive,
    /// Neither of these.
    Neither,
}

/// Whether bytes begin as a zip archive that holds a file does: with `PK` and the bytes 3 and 4.
pub fn is_archive(bytes: &[u8]) -> bool
    ensures { result ≡ says.is_archive bytes.now }
{
    bytes.starts_with(b"PK\x03\x04")
}

/// Whether a line is this word and then nothing but spaces, tabs and CR.
fn is_line_of(word: &[u8], line: &[u8]) -> bool
    ensures { result ≡ says.is_line_of word.now line.now }
{
    match line.strip_prefix(word) {
        Some(after) => after
            .iter()
            .all(|byte| matches!(*byte, b' ' | b'\t' | b'\r')),
        None => false,
    }
}

/// Whether some line of a text is this word and then nothing but spaces, tabs and CR.
pub fn has_line(word: &[u8], text: &[u8]) -> bool
    ensures { result ≡ says.has_line word.now text.now }
{
    text.split(|byte| *byte == b'\n')
        .any(|line| is_line_of(word, line))
}

/// Whether a line has no hole: it is empty, `M30` or `%`.
fn has_no_hole(line: &[u8]) -> bool
    ensures { result ≡ says.has_no_hole line.now }
{
    is_line_of(b"", line) || is_line_of(b"M30", line) || is_line_of(b"%", line)
}

fn has_no_holes(text: &[u8]) -> bool
    ensures { result ≡ list_all says.has_no_hole (lines text.now) }
{
    text.split(|byte| *byte == b'\n')
        .all(|line| has_no_hole(line))
}

/// Whether these bytes stand somewhere in a text.
pub(crate) fn contains(text: &[u8], part: &[u8]) -> bool
    ensures { result ≡ says.contains text.now part.now }
{
    memmem::find(text, part).is_some()
}

/// The kind of a text: an archive where it begins as one, Gerber where it contains `%FS`, `D02*`, `D03*` or `M02*`, drill where a
/// line is `M48` or `M30`. A drill file without `M48` is empty where each line is empty, `M30` or `%`.
pub fn kind_of(text: &[u8]) -> FileKind
    ensures { result ≡ says.kind_of text.now }
{
    if is_archive(text) {
        return FileKind::Archive;
    }
    let is_gerber = contains(text, b"%FS")
        || contains(text, b"D02*")
        || contains(text, b"D03*")
        || contains(text, b"M02*");
    if is_gerber {
        return FileKind::Gerber;
    }
    if has_line(b"M48", text) {
        return FileKind::Drill;
    }
    if !has_line(b"M30", text) {
        return FileKind::Neither;
    }
    if has_no_holes(text) {
        FileKind::Empty
    } else {
        FileKind::Drill
    }
}

/// Whether a byte ends a file function.
fn ends_function(byte: u8) -> bool
    ensures { result ≡ says.ends_function byte }
{
    byte == b'*' || byte == b'%' || byte == b'\r' || byte == b'\n'
}

/// The bytes before the first one that ends a file function.
fn before_function_end(text: &[u8]) -> &[u8]
    ensures { result.now ≡ before_first ends_function text.now }
{
    for (i, byte) in text.iter().enumerate() {
        if ends_function(*byte) {
            return &text[..i];
        }
    }
    text
}

/// The fields of a text's last file function: what follows the last `.FileFunction,` up to an asterisk, a percent sign, CR, LF
/// or the end (Gerber Layer Format Specification 2024.05, section 5.6.3).
pub fn function_of(text: &[u8]) -> Option<&[u8]>
    ensures { option_map (λ fields. fields.now) result ≡ says.function_of text.now }
{
    match memmem::rfind(text, b".FileFunction,") {
        Some(at) => Some(before_function_end(&text[at + 14..])),
        None => None,
    }
}

/// The bytes before the first comma, and those after it; all and none where there is no comma.
fn split_at_comma(text: &[u8]) -> (&[u8], &[u8])
    ensures before { result.0.now ≡ before_first is_comma text.now }
    ensures after { result.1.now ≡ after_first is_comma text.now }
{
    for (i, byte) in text.iter().enumerate() {
        if *byte == b',' {
            return (&text[..i], &text[i + 1..]);
        }
    }
    (text, &[])
}

/// The first four fields of a file function, empty where there are fewer.
#[derive(Clone, Copy)]
pub struct FunctionFields<'a> {
    pub first: &'a [u8],
    pub second: &'a [u8],
    pub third: &'a [u8],
    pub fourth: &'a [u8],
}

/// The first four fields of a file function: `Plated`, `1`, `2` and `PTH` of `Plated,1,2,PTH`.
pub fn fields_of(function: &[u8]) -> FunctionFields<'_>
    ensures first { result.first.now ≡ says.field 0 function.now }
    ensures second { result.second.now ≡ says.field 1 function.now }
    ensures third { result.third.now ≡ says.field 2 function.now }
    ensures fourth { result.fourth.now ≡ says.field 3 function.now }
{
    let (first, after) = split_at_comma(function);
    let (second, after) = split_at_comma(after);
    let (third, after) = split_at_comma(after);
    let (fourth, _) = split_at_comma(after);
    FunctionFields {
        first,
        second,
        third,
        fourth,
    }
}

/// Whether the text of a drill file says that holes are plated: in a file function, in a line `;TYPE=PLATED`, or in the function
/// of a tool, as `TA.AperFunction,Plated,PTH,ViaDrill`.
pub(crate) fn says_plated_holes(text: &[u8]) -> bool
    ensures { result ≡ says.says_plated_holes text.now }
{
    contains(text, b".FileFunction,Plated")
        || has_line(b";TYPE=PLATED", text)
        || contains(text, b"TA.AperFunction,Plated")
}

/// Whether the text of a drill file says that holes are not plated: in a file function, in a line `;TYPE=NON_PLATED`, or in the
/// function of a tool.
pub(crate) fn says_unplated_holes(text: &[u8]) -> bool
    ensures { result ≡ says.says_unplated_holes text.now }
{
    contains(text, b".FileFunction,NonPlated")
        || has_line(b";TYPE=NON_PLATED", text)
        || contains(text, b"TA.AperFunction,NonPlated")
}
