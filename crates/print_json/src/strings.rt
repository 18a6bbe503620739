//! Text in strings of JSON.

ghost use Rattle.std.specs.Prelude.{◌≡◌, ◌<◌, ◌/◌, ◌%◌, ◌∷◌, [], Some};
ghost use Rattle.std.specs.Char.{digit_char, encode_utf8};
ghost use Rattle.std.specs.Fmt.{DisplaysOnOk};
ghost use Rattle.json.specs.Print.{escape};

use std::fmt;
use std::fmt::{Display, Formatter};

/// A hexadecimal digit: `0` to `9`, `a` to `f`.
fn hex(digit: u8) -> char
    requires { digit < 16 }
    ensures { result ≡ digit_char digit }
{
    if digit < 10 {
        (b'0' + digit) as char
    } else {
        (b'a' - 10 + digit) as char
    }
}

/// Writes a byte in two hexadecimal digits of lower case: `1f`.
pub(crate) fn write_digits<W: fmt::Write>(f: &mut Formatter<W>, byte: u8) -> fmt::Result
    ensures { DisplaysOnOk W.write_str_gives f.old result (Some (digit_char (byte / 16) ∷ digit_char (byte % 16) ∷ [])) f.new }
{
    let (high, low) = (hex(byte / 16), hex(byte % 16));
    write!(f, "{high}{low}")
}

/// Writes a byte below 32 by its code: `\u001f`.
fn write_code<W: fmt::Write>(f: &mut Formatter<W>, byte: u8) -> fmt::Result
    requires { byte < 32 }
    ensures { DisplaysOnOk W.write_str_gives f.old result (Some (92 ∷ 117 ∷ 48 ∷ 48 ∷ digit_char (byte / 16) ∷ digit_char (byte % 16) ∷ [])) f.new }
{
    f.write_str("\\u00")?;
    write_digits(f, byte)
}

/// Writes a character of a string, after a backslash or by its code where JSON asks for that.
#[tactic(auto, unfolding(json::specs::Print::escape_byte))]
fn write_letter<W: fmt::Write>(f: &mut Formatter<W>, letter: char) -> fmt::Result
    ensures { DisplaysOnOk W.write_str_gives f.old result (Some (escape (encode_utf8 letter))) f.new }
{
    match letter {
        '"' => f.write_str("\\\""),
        '\\' => f.write_str("\\\\"),
        '\u{8}' => f.write_str("\\b"),
        '\u{c}' => f.write_str("\\f"),
        '\n' => f.write_str("\\n"),
        '\r' => f.write_str("\\r"),
        '\t' => f.write_str("\\t"),
        _ if letter < ' ' => write_code(f, letter as u8),
        _ => f.write_char(letter),
    }
}

/// Writes a text as it stands in a string.
fn write_letters<W: fmt::Write>(f: &mut Formatter<W>, text: &str) -> fmt::Result
    ensures { DisplaysOnOk W.write_str_gives f.old result (Some (escape text.now)) f.new }
{
    for letter in text.chars() {
        write_letter(f, letter)?;
    }
    Ok(())
}

/// A text as it stands in a string of JSON, without the quotes: `a\"b` for `a"b`.
#[derive(Clone, Copy)]
pub(crate) struct Escaped<'a>(pub(crate) &'a str);

impl Display for Escaped<'_> {
    ghost output = { λ text. Some (escape text.0.now) };

    fn fmt<W: fmt::Write>(&self, f: &mut Formatter<W>) -> fmt::Result {
        write_letters(f, self.0)
    }
}
