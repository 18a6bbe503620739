//! Lengths of a layer, and the digits of its coordinates.

ghost use Rattle.std.specs.Prelude.{◌≡◌, ◌≤◌, ◌^◌, ◌/◌, unsigned_abs, nat_le};
ghost use Rattle.grid_units.specs.Numbers.{picometres, unit_length};
ghost use Rattle.layer_state.specs.Numbers.{dec_length};
ghost use Rattle.layer_state.specs.Rules.{is_long_coordinate};

use gerber_text::Format;
use grid_units::{Dec, Unit, power_of_ten};

/// A coordinate with so many decimals of a unit, in pm.
pub(crate) fn coordinate(n: i64, decimals: u8, unit: Unit) -> i128
    ensures value { result ≡ picometres unit decimals n }
    ensures bound { unsigned_abs result ≤ 2 ^ 98 }
{
    i128::from(n) * i128::from(step_length(decimals, unit))
}

/// The pm of one step of a coordinate, rounded down. It is looked up: a division would take most of the time of a coordinate.
pub fn step_length(decimals: u8, unit: Unit) -> u64
    ensures value { result ≡ unit_length unit / 10 ^ decimals }
    ensures small { result ≤ 25400000000 }
{
    match unit {
        Unit::Inch => inch_step(decimals),
        Unit::Millimetre => millimetre_step(decimals),
    }
}

fn inch_step(decimals: u8) -> u64
    ensures value { result ≡ 25400000000 / 10 ^ decimals }
    ensures small { result ≤ 25400000000 }
{
    match decimals {
        0 => 25_400_000_000,
        1 => 2_540_000_000,
        2 => 254_000_000,
        3 => 25_400_000,
        4 => 2_540_000,
        5 => 254_000,
        6 => 25_400,
        7 => 2_540,
        8 => 254,
        9 => 25,
        10 => 2,
        _ => 0,
    }
}

fn millimetre_step(decimals: u8) -> u64
    ensures value { result ≡ 1000000000 / 10 ^ decimals }
    ensures small { result ≤ 25400000000 }
{
    match decimals {
        0 => 1_000_000_000,
        1 => 100_000_000,
        2 => 10_000_000,
        3 => 1_000_000,
        4 => 100_000,
        5 => 10_000,
        6 => 1_000,
        7 => 100,
        8 => 10,
        9 => 1,
        _ => 0,
    }
}

/// A length in units of 10^-8 inch or mm, in pm.
pub fn dec_length(length: Dec, unit: Unit) -> i128
    ensures value { result ≡ dec_length unit length }
    ensures bound { unsigned_abs result ≤ 2 ^ 71 }
{
    match unit {
        Unit::Inch => i128::from(length.units()) * 254,
        Unit::Millimetre => i128::from(length.units()) * 10,
    }
}

/// Whether a number has more digits than the format, if there is one.
pub(crate) fn is_long(format: Format, named: Option<i64>) -> bool
    ensures { result ≡ is_long_coordinate format named }
{
    let digits = u16::from(format.whole) + u16::from(format.decimals);
    match named {
        Some(n) => has_more_digits(n.unsigned_abs(), digits),
        None => false,
    }
}

/// Whether a number has more than so many digits.
fn has_more_digits(n: u64, digits: u16) -> bool
    ensures { result ≡ nat_le (10 ^ digits) n }
{
    if digits <= 12 {
        n >= power_of_ten(digits as u8)
    } else if digits <= 19 {
        n / power_of_ten(12) >= power_of_ten((digits - 12) as u8)
    } else {
        false
    }
}
