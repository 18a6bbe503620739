//! Units of length, and numbers of a unit as whole picometres.

ghost use Rattle.std.specs.Prelude.{◌≡◌, ◌≤◌, ◌<◌, ◌^◌, ◌/◌, ◌*ℤ◌, pos, ℕ, ℤ, unsigned_abs, IfOk};
ghost use Rattle.grid_units.specs.declared.lengths.Unit.{Unit as Units};
ghost use Rattle.grid_units.specs.Numbers.{unit_length, picometres, within_limit, is_too_far, max_units};

use crate::fault::Reason;
use crate::points::MAX_COORDINATE;

/// The unit of a file's lengths.
#[derive(Clone, Copy, PartialEq, Eq)]
pub enum Unit {
    /// An inch, 25,400,000,000 pm.
    Inch,
    /// A millimetre, 1,000,000,000 pm.
    Millimetre,
}

/// One unit in pm.
fn unit_length(unit: Unit) -> u64
    ensures { result ≡ unit_length unit }
{
    match unit {
        Unit::Inch => 25_400_000_000,
        Unit::Millimetre => 1_000_000_000,
    }
}

/// A power of ten, at most 10^12.
pub fn power_of_ten(exponent: u8) -> u64
    requires { exponent ≤ 12 }
    ensures value { result ≡ 10 ^ exponent }
    ensures positive { 0 < result }
{
    match exponent {
        0 => 1,
        1 => 10,
        2 => 100,
        3 => 1_000,
        4 => 10_000,
        5 => 100_000,
        6 => 1_000_000,
        7 => 10_000_000,
        8 => 100_000_000,
        9 => 1_000_000_000,
        10 => 10_000_000_000,
        11 => 100_000_000_000,
        _ => 1_000_000_000_000,
    }
}

/// A number with so many decimals of a unit, in pm. No limit is asked: it may lie beyond 10 m.
pub fn picometres(n: i64, decimals: u8, unit: Unit) -> i128
    requires { decimals ≤ 8 }
    ensures value { result ≡ picometres unit decimals n }
    ensures bound { unsigned_abs result ≤ 2 ^ 98 }
{
    i128::from(n) * i128::from(unit_length(unit) / power_of_ten(decimals))
}

/// So many times 10^-8 of a unit, in pm.
pub(crate) fn units_to_picometres(units: i64, unit: Unit) -> i64
    requires { unsigned_abs units ≤ max_units }
    ensures { result ≡ picometres unit 8 units }
{
    match unit {
        Unit::Inch => units * 254,
        Unit::Millimetre => units * 10,
    }
}

/// Whether a length in pm is beyond 10 m.
pub fn is_too_far(length: i128) -> bool
    ensures { result ≡ is_too_far length }
{
    length.unsigned_abs() > u128::from(MAX_COORDINATE)
}

/// A length in pm, refused beyond 10 m.
#[tactic(auto, unfolding(crate::specs::Numbers::within_limit))]
fn within_limit(length: i128) -> Result<i64, Reason>
    ensures { result ≡ within_limit length }
{
    if is_too_far(length) {
        Err(Reason::TooFar)
    } else {
        Ok(length as i64)
    }
}

/// A length in pm that fits 64 bits, refused beyond 10 m.
#[tactic(auto, unfolding(crate::specs::Numbers::within_limit))]
pub(crate) fn within_ten_metres(length: i64) -> Result<i64, Reason>
    ensures { result ≡ within_limit length }
{
    if length.unsigned_abs() > MAX_COORDINATE {
        Err(Reason::TooFar)
    } else {
        Ok(length)
    }
}

/// A coordinate, written as an integer with so many decimals of a unit, in pm: the `p` of `p * 10^decimals = n * unit`.
///
/// # Errors
///
/// [`Reason::TooFar`] above 10 m.
pub fn from_digits(n: i64, decimals: u8, unit: Unit) -> Result<i64, Reason>
    requires n { unsigned_abs n < 10 ^ 12 }
    requires decimals { decimals ≤ 6 }
    ensures exact { result ≡ within_limit (picometres unit decimals n) }
    ensures equation { IfOk result (λ p. p *ℤ pos (10 ^ decimals) ≡ n *ℤ pos (unit_length unit)) }
{
    within_limit(picometres(n, decimals, unit))
}

/// A length in pm times the power of ten of its decimals is the number times the unit: no digit is lost.
pub fn exact_lengths()
    ensures { (unit : Units) (decimals : ℕ) (n : ℤ) → decimals ≤ 8 → picometres unit decimals n *ℤ pos (10 ^ decimals) ≡ n *ℤ pos (unit_length unit) }
{}
