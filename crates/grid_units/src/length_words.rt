//! Lengths in millimetres.

ghost use Rattle.std.specs.Prelude.{◌≡◌, ◌≤◌, ◌<◌, ◌∷◌, ◌^◌, Some};
ghost use Rattle.std.specs.Fmt.{DisplaysOnOk};
ghost use Rattle.grid_units.specs.Spellings.{fraction_text, millimetres, minus, places, without_end_zeros};
ghost use Rattle.grid_units.specs.LengthWords.{short_millimetres};

use crate::spelling::{push_decimals, write_mm};
use arrayvec::ArrayString;
use std::fmt;
use std::fmt::{Display, Formatter};

/// How many pm are a millimetre.
const MILLIMETRE: u64 = 1_000_000_000;

/// The sign of a length: `-` below zero.
fn minus(length: i64) -> &'static str
    ensures { result.now ≡ minus length }
{
    if length < 0 { "-" } else { "" }
}

/// Writes a point and the nine decimals of so many pm, less than a millimetre.
fn write_decimals<W: fmt::Write>(f: &mut Formatter<W>, below: u32) -> fmt::Result
    requires { below < 10 ^ 9 }
    ensures { DisplaysOnOk W.write_str_gives f.old result (Some (46 ∷ places 9 below)) f.new }
{
    let spelled = write_mm(i64::from(below));
    match spelled.as_str().strip_prefix('0') {
        Some(decimals) => f.write_str(decimals),
        None => Ok(()),
    }
}

/// A length in pm, printed in millimetres with nine decimals: `-0.125000000`.
#[derive(Clone, Copy)]
pub struct Millimetres(pub i64);

impl Display for Millimetres {
    ghost output = { λ length. Some (millimetres length.0) };

    fn fmt<W: fmt::Write>(&self, f: &mut Formatter<W>) -> fmt::Result {
        let size = self.0.unsigned_abs();
        write!(f, "{}{}", minus(self.0), size / MILLIMETRE)?;
        write_decimals(f, (size % MILLIMETRE) as u32)
    }
}

/// Writes a point and the decimals of so many pm, less than a millimetre, without the zeros at their end; nothing where none is left.
fn write_short_decimals<W: fmt::Write>(f: &mut Formatter<W>, below: u64) -> fmt::Result
    ensures { DisplaysOnOk W.write_str_gives f.old result (Some (fraction_text (without_end_zeros (places 9 below)))) f.new }
{
    let mut text = ArrayString::new();
    push_decimals(&mut text, below, 9);
    f.write_str(text.as_str())
}

/// A length in pm, printed in millimetres without the zeros at the end of its decimals, and without a point where none is left: `0.125`.
#[derive(Clone, Copy)]
pub struct ShortMillimetres(pub i64);

impl Display for ShortMillimetres {
    ghost output = { λ length. Some (short_millimetres length.0) };

    fn fmt<W: fmt::Write>(&self, f: &mut Formatter<W>) -> fmt::Result {
        let size = self.0.unsigned_abs();
        write!(f, "{}{}", minus(self.0), size / MILLIMETRE)?;
        write_short_decimals(f, size % MILLIMETRE)
    }
}
