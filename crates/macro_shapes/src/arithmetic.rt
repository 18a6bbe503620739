//! Exact arithmetic of values: what would have to be rounded, or is out of range, has none.

ghost use Rattle.std.specs.Prelude.{◌≡◌};
ghost use Rattle.macro_shapes.specs.Values.{in_range, exact_quotient, have_other_signs, product, product_below, quotient};
ghost use Rattle.macro_shapes.specs.Inner.Reading.{sum_with, product_with};

use crate::sign::{Addition, Multiplication};
use grid_units::Dec;

/// One, in units of 10^-8.
const ONE: u128 = 100_000_000;

/// The largest absolute value, in units of 10^-8.
const MAX_UNITS: u128 = 99_999_999_999_999;

/// The value of so many units of 10^-8, or `None` out of range.
fn in_range(units: i64) -> Option<Dec>
    ensures { result ≡ in_range units }
{
    Dec::from_units(units)
}

/// The quotient with a sign, or `None` where the division leaves a rest, the divisor is 0 or the quotient is out of range.
#[tactic(auto, unfolding(crate::specs::Values::exact_quotient))]
fn exact_quotient(negative: bool, dividend: u128, divisor: u128) -> Option<Dec>
    ensures { result ≡ exact_quotient negative dividend divisor }
{
    if divisor == 0 {
        return None;
    }
    if dividend % divisor != 0 {
        return None;
    }
    let magnitude = dividend / divisor;
    if MAX_UNITS < magnitude {
        return None;
    }
    let units = magnitude as i64;
    in_range(if negative { -units } else { units })
}

/// Whether the signs of two numbers differ.
fn have_other_signs(a: i64, b: i64) -> bool
    ensures { result ≡ have_other_signs a b }
{
    if a < 0 { !(b < 0) } else { b < 0 }
}

/// The exact product of two values.
fn product(a: Dec, b: Dec) -> Option<Dec>
    ensures { result ≡ product a b }
{
    let a = a.units();
    let b = b.units();
    let dividend = u128::from(a.unsigned_abs()) * u128::from(b.unsigned_abs());
    exact_quotient(have_other_signs(a, b), dividend, ONE)
}

/// The product of two values rounded down, where their signs are the same.
pub(crate) fn product_below(a: Dec, b: Dec) -> Option<Dec>
    ensures { result ≡ product_below a b }
{
    let a = a.units();
    let b = b.units();
    if have_other_signs(a, b) {
        return None;
    }
    let product = u128::from(a.unsigned_abs()) * u128::from(b.unsigned_abs()) / ONE;
    if MAX_UNITS < product {
        return None;
    }
    in_range(product as i64)
}

/// The exact quotient of two values.
fn quotient(a: Dec, b: Dec) -> Option<Dec>
    ensures { result ≡ quotient a b }
{
    let a = a.units();
    let b = b.units();
    let dividend = u128::from(a.unsigned_abs()) * ONE;
    exact_quotient(
        have_other_signs(a, b),
        dividend,
        u128::from(b.unsigned_abs()),
    )
}

/// The value of a term after what stands before it.
pub(crate) fn added(before: Option<(Dec, Addition)>, term: Dec) -> Option<Dec>
    ensures { result ≡ sum_with before term }
{
    match before {
        None => Some(term),
        Some((sum, Addition::Plus)) => in_range(sum.units() + term.units()),
        Some((sum, Addition::Minus)) => in_range(sum.units() - term.units()),
    }
}

/// The value of a factor after what stands before it.
pub(crate) fn multiplied(before: Option<(Dec, Multiplication)>, factor: Dec) -> Option<Dec>
    ensures { result ≡ product_with before factor }
{
    match before {
        None => Some(factor),
        Some((value, Multiplication::Times)) => product(value, factor),
        Some((value, Multiplication::Over)) => quotient(value, factor),
    }
}
