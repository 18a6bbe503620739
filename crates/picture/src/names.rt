//! Names of files as XML.

ghost use Rattle.std.specs.Prelude.{Some, encode_utf8};
ghost use Rattle.std.specs.Fmt.{DisplaysOnOk};
ghost use Rattle.picture.specs.Escapes.{escaped_name};

use std::fmt;
use std::fmt::{Display, Formatter};

/// Writes a character of a name: `&`, `<` and `>` as entities, U+FFFE and U+FFFF as U+FFFD.
fn write_character<W: fmt::Write>(f: &mut Formatter<W>, character: char) -> fmt::Result
    ensures { DisplaysOnOk W.write_str_gives f.old result (Some (escaped_name (encode_utf8 character))) f.new }
{
    match character {
        '&' => f.write_str("&amp;"),
        '<' => f.write_str("&lt;"),
        '>' => f.write_str("&gt;"),
        '\u{FFFE}' | '\u{FFFF}' => f.write_char('\u{FFFD}'),
        _ => f.write_char(character),
    }
}

/// A name, printed as XML: `a<b` as `a&lt;b`. The characters `&`, `<` and `>` become entities; U+FFFE and U+FFFF, which XML forbids,
/// become U+FFFD.
#[derive(Clone, Copy)]
pub struct Escaped<'a>(pub &'a str);

impl Display for Escaped<'_> {
    ghost output = { λ name. Some (escaped_name name.0.now) };

    fn fmt<W: fmt::Write>(&self, f: &mut Formatter<W>) -> fmt::Result {
        for character in self.0.chars() {
            write_character(f, character)?;
        }
        Ok(())
    }
}
