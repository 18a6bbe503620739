//! Decimals of eight places.

ghost use Rattle.std.specs.Prelude.{◌≡◌, ◌≤◌, ◌+◌, ◌-◌, ◌*◌, ◌^◌, ◌*ℤ◌, ◌↔◌, ◌&&◌, ◌==◌, not, pos, neg_ℤ, length, take, drop, All, true, IsSome, IfSome, IfOk, unsigned_abs, if◌then◌else◌, ℤ};
ghost use Rattle.std.specs.List.{list_all, position_or_len};
ghost use Rattle.grid_units.specs.Numbers.{is_digit, value, whole, fraction, signed_value, fits_eight_decimals, value_without_point, parse_decimal, max_units, unit_length, picometres, within_limit};
ghost use Rattle.grid_units.specs.Spellings.{canonical, spelling_with_point};

use crate::fault::Reason;
use crate::lengths::{Unit, power_of_ten, units_to_picometres, within_ten_metres};
use crate::numbers::{are_all_digits, capped_value, is_negative, without_sign};
use crate::spelling::{push_decimals, push_decimals_or_zero, signed_whole};
use arrayvec::ArrayString;
use std::marker::Model;

/// The largest absolute value of a decimal, in units of 10^-8.
const MAX_UNITS: u64 = 99_999_999_999_999;

/// A decimal of at most eight places: a whole number of 10^-8, at most 99,999,999,999,999 in absolute
/// value. Contracts see that whole number.
#[derive(Clone, Copy, PartialEq, Eq)]
pub struct Dec {
    units: i64,
}

impl Model for Dec {
    ghost use Rattle.std.specs.Prelude.{ℤ, ◌≤◌, unsigned_abs};
    ghost use Rattle.grid_units.specs.Numbers.{max_units};

    ghost Value = { ℤ };

    ghost view = { λ d. d.units };

    ghost invariant = { λ d. unsigned_abs d.units ≤ max_units };

    ghost inverse = { λ z. record { units = z } };
}

impl Dec {
    /// The decimal that a text spells: an optional sign, and digits with at most one point among them.
    ///
    /// # Errors
    ///
    /// In this order: [`Reason::BadNumber`] for another text, [`Reason::TooFine`] where a decimal after the
    /// eighth is not 0, [`Reason::TooFar`] where the whole part is above 999,999.
    #[tactic(auto, unfolding(crate::specs::Numbers::parse_decimal))]
    pub fn read(text: &[u8]) -> Result<Dec, Reason>
        ensures exact { result ≡ parse_decimal text.now }
        ensures equation { IfOk result (λ v. v *ℤ pos (10 ^ length (fraction text.now)) ≡ signed_value text.now (value_without_point text.now * 10 ^ 8)) }
    {
        let (whole, fraction) = split_at_point(text);
        if !has_only_digits(whole, fraction) {
            return Err(Reason::BadNumber);
        }
        if !fits_eight_decimals(fraction) {
            return Err(Reason::TooFine);
        }
        let whole = capped_value(whole, 1_000_000);
        if whole > 999_999 {
            return Err(Reason::TooFar);
        }
        Ok(signed(is_negative(text), units_of(whole, fraction)))
    }

    /// The decimal as a whole number of 10^-8.
    pub fn units(self) -> i64
        ensures value { result ≡ self }
        ensures in_range { unsigned_abs result ≤ max_units }
    {
        self.units
    }

    /// The decimal of a whole number of 10^-8, or `None` out of range.
    pub fn from_units(units: i64) -> Option<Dec>
        ensures valid { IsSome result ↔ (unsigned_abs units ≤ max_units) }
        ensures value { IfSome result (λ d. d ≡ units) }
    {
        if units.unsigned_abs() <= MAX_UNITS {
            Some(Dec { units })
        } else {
            None
        }
    }

    /// The canonical spelling: `-` below zero, and the whole part without leading zeros (`0` for none).
    /// Where the fraction is not zero, a point and its digits without trailing zeros follow: `0.05`.
    #[tactic(auto, unfolding(crate::specs::Spellings::canonical))]
    pub fn write(self) -> ArrayString<16>
        ensures spelling { result.bytes ≡ canonical self }
        ensures reads_back { parse_decimal result.bytes ≡ Ok self }
    {
        let mut text = signed_whole(self.units, 100_000_000);
        push_decimals(&mut text, self.units.unsigned_abs() % 100_000_000, 8);
        text
    }

    /// The canonical spelling, always with a point: with `.0` where there is no fraction.
    #[tactic(auto, unfolding(crate::specs::Spellings::spelling_with_point))]
    pub fn write_pointed(self) -> ArrayString<16>
        ensures spelling { result.bytes ≡ spelling_with_point self }
        ensures reads_back { parse_decimal result.bytes ≡ Ok self }
    {
        let mut text = signed_whole(self.units, 100_000_000);
        push_decimals_or_zero(&mut text, self.units.unsigned_abs() % 100_000_000);
        text
    }

    /// The decimal as a length of this unit, in pm: the `p` of `p * 10^8 = units * unit`.
    ///
    /// # Errors
    ///
    /// [`Reason::TooFar`] above 10 m.
    pub fn picometres(self, unit: Unit) -> Result<i64, Reason>
        ensures exact { result ≡ within_limit (picometres unit 8 self) }
        ensures equation { IfOk result (λ p. p *ℤ pos (10 ^ 8) ≡ self *ℤ pos (unit_length unit)) }
        ensures even { IfOk result (λ p. (half : ℤ) × (p ≡ half *ℤ pos 2)) }
    {
        within_ten_metres(units_to_picometres(self.units(), unit))
    }
}

/// The digits before the point, and those after it.
fn split_at_point(text: &[u8]) -> (&[u8], &[u8])
    ensures whole { result.0.now ≡ whole text.now }
    ensures fraction { result.1.now ≡ fraction text.now }
{
    let digits = without_sign(text);
    let at = point_at(digits);
    let after = digits.len().min(at + 1);
    (&digits[..at], &digits[after..])
}

fn is_not_point(byte: u8) -> bool
    ensures { result ≡ not (byte == 46) }
{
    byte != b'.'
}

/// Where the point stands, or the length where there is none.
fn point_at(digits: &[u8]) -> usize
    ensures within { result ≤ length digits.now }
    ensures len { result ≡ position_or_len (λ b. b == 46) digits.now }
{
    for (i, byte) in digits.iter().enumerate() {
        if !is_not_point(*byte) {
            return i;
        }
    }
    digits.len()
}

/// Whether both parts are digits alone, and at least one part is not empty.
fn has_only_digits(whole: &[u8], fraction: &[u8]) -> bool
    ensures { result ≡ ((list_all is_digit whole.now && list_all is_digit fraction.now) && not (length whole.now + length fraction.now == 0)) }
{
    are_all_digits(whole) && are_all_digits(fraction) && !(whole.is_empty() && fraction.is_empty())
}

/// Whether the decimals after the eighth are zeros.
fn fits_eight_decimals(decimals: &[u8]) -> bool
    ensures { result ≡ fits_eight_decimals decimals.now }
{
    after_eighth(decimals).iter().all(|byte| *byte == b'0')
}

/// The decimals after the eighth.
fn after_eighth(decimals: &[u8]) -> &[u8]
    ensures { result.now ≡ drop 8 decimals.now }
{
    if decimals.len() <= 8 {
        &[]
    } else {
        &decimals[8..]
    }
}

/// The first eight decimals, or all.
pub(crate) fn first_eight(decimals: &[u8]) -> &[u8]
    ensures value { result.now ≡ take 8 decimals.now }
    ensures short { length result.now ≤ 8 }
{
    if decimals.len() <= 8 {
        decimals
    } else {
        &decimals[..8]
    }
}

/// A whole part and its first eight decimals, in units of 10^-8.
fn units_of(whole: u64, decimals: &[u8]) -> u64
    requires whole { whole ≤ 999999 }
    requires digits { All (λ b. is_digit b ≡ true) decimals.now }
    ensures value { result ≡ whole * 10 ^ 8 + value (take 8 decimals.now) * 10 ^ (8 - length (take 8 decimals.now)) }
    ensures bound { result ≤ max_units }
{
    let first = first_eight(decimals);
    let zeros_to_fill = (8 - first.len()) as u8;
    whole * 100_000_000 + capped_value(first, 100_000_000) * power_of_ten(zeros_to_fill)
}

/// The decimal of so many units of 10^-8, with its sign.
pub(crate) fn signed(negative: bool, units: u64) -> Dec
    requires { units ≤ max_units }
    ensures { result ≡ (if negative then neg_ℤ (pos units) else pos units) }
{
    let units = units as i64;
    Dec {
        units: if negative { -units } else { units },
    }
}
