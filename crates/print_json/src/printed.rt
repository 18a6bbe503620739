//! Values that are printed as JSON: numbers, texts, and those that may be missing.

ghost use Rattle.std.specs.Prelude.{Some};
ghost use Rattle.std.specs.Fmt.{DisplaysOnOk};
ghost use Rattle.json.specs.Json.{Json};
ghost use Rattle.json.specs.Tree.{HasNumbers};
ghost use Rattle.print_json.specs.Inner.Texts.{value_text};
ghost use Rattle.print_json.specs.Values.{json_text, or_null, picometres, whole, word};

use crate::strings::Escaped;
use std::fmt;
use std::fmt::{Display, Formatter};

/// A value that is printed as JSON.
pub(crate) trait Value {
    /// Its JSON.
    ghost value: { Self → Json };

    /// Writes the text of its JSON.
    fn write<W: fmt::Write>(&self, f: &mut Formatter<W>) -> fmt::Result
        ensures { DisplaysOnOk W.write_str_gives f.old result (Some (value_text (value self.now))) f.new };

    /// Its JSON holds numbers of RFC 8259 alone. This does nothing but give its clause.
    fn numbers(&self)
        ensures { HasNumbers (value self.now) };
}

/// A value as it is printed.
#[derive(Drop)]
pub(crate) struct Text<'a, V>(pub(crate) &'a V);

impl<V: Value> Display for Text<'_, V> {
    ghost output = { λ text. Some (value_text (V.value text.0.now)) };

    fn fmt<W: fmt::Write>(&self, f: &mut Formatter<W>) -> fmt::Result {
        self.0.write(f)
    }
}

/// Writes the line of a value, with its line end.
pub(crate) fn write_line<V: Value, W: fmt::Write>(f: &mut Formatter<W>, value: &V) -> fmt::Result
    ensures { DisplaysOnOk W.write_str_gives f.old result (Some (json_text (V.value value.now))) f.new }
{
    write!(f, "{}\n", Text(value))
}

/// A natural number.
impl Value for u128 {
    ghost value = { whole };

    fn write<W: fmt::Write>(&self, f: &mut Formatter<W>) -> fmt::Result {
        write!(f, "{self}")
    }

    #[tactic(auto, using(crate::proofs::Numerals::decimal_number))]
    fn numbers(&self) {
        let _number = *self;
    }
}

/// A natural number.
impl Value for usize {
    ghost value = { whole };

    fn write<W: fmt::Write>(&self, f: &mut Formatter<W>) -> fmt::Result {
        write!(f, "{self}")
    }

    fn numbers(&self) {
        (*self as u128).numbers();
    }
}

/// A length in pm.
impl Value for i64 {
    ghost value = { picometres };

    fn write<W: fmt::Write>(&self, f: &mut Formatter<W>) -> fmt::Result {
        write!(f, "{self}")
    }

    #[tactic(auto, using(crate::proofs::Numerals::length_number))]
    fn numbers(&self) {
        let _length = *self;
    }
}

/// A text, as a string.
impl Value for &str {
    ghost value = { λ text. word text.now };

    fn write<W: fmt::Write>(&self, f: &mut Formatter<W>) -> fmt::Result {
        write!(f, "\"{}\"", Escaped(self))
    }

    fn numbers(&self) {}
}

/// A value, or null where it is missing.
impl<V: Value> Value for Option<V> {
    ghost value = { or_null V.value };

    fn write<W: fmt::Write>(&self, f: &mut Formatter<W>) -> fmt::Result {
        match self {
            Some(value) => value.write(f),
            None => f.write_str("null"),
        }
    }

    fn numbers(&self) {
        if let Some(value) = self {
            value.numbers();
        }
    }
}
