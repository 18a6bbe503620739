//! Coordinates of a drill file that are written without a point.

ghost use Rattle.std.specs.Prelude.{◌≡◌, ◌≤◌, ◌<◌, ◌+◌, ◌*◌, ◌^◌, ◌*ℤ◌, pos, length, IfOk, All, true};
ghost use Rattle.grid_units.specs.Numbers.{is_digit, without_sign, signed_value, to_units, zeros_to_fill, zero_filled, parse_zero_filled};

use crate::decimal::{Dec, signed};
use crate::fault::Reason;
use crate::lengths::power_of_ten;
use crate::numbers::{capped_value, is_digits, is_negative, without_sign};

/// Which zeros the coordinates of a drill file keep, where they have no point.
#[derive(Clone, Copy, PartialEq, Eq)]
pub enum Zeros {
    /// Leading zeros are kept (`LZ`): digits left out at the end are zeros.
    Leading,
    /// Trailing zeros are kept (`TZ`): digits left out at the start are zeros.
    Trailing,
    /// Neither is named: every digit of the format must be written.
    Full,
}

/// A coordinate without a point, in a format of `i` digits before the point and `d` after it: the `v` of
/// `v * 10^d = s * N * 10^8`, where `N` is the number of the digits after filling and `s` the sign.
///
/// # Errors
///
/// In this order: [`Reason::BadNumber`] where the text is no optional sign and digits;
/// [`Reason::NoZeros`] where the file names no zeros and there are not just `i + d` digits;
/// [`Reason::TooManyDigits`] where it names some and there are more than `i + d` digits.
#[tactic(auto, unfolding(crate::specs::Numbers::parse_zero_filled))]
pub fn from_zeros(text: &[u8], i: u8, d: u8, zeros: Zeros) -> Result<Dec, Reason>
    requires whole { (1 ≤ i) × (i ≤ 6) }
    requires decimals { (1 ≤ d) × (d ≤ 6) }
    ensures exact { result ≡ parse_zero_filled text.now i d zeros }
    ensures equation { IfOk result (λ v. IfOk (zeros_to_fill zeros (i + d) (length (without_sign text.now))) (λ k. v *ℤ pos (10 ^ d) ≡ signed_value text.now (zero_filled (without_sign text.now) k * 10 ^ 8))) }
{
    let digits = without_sign(text);
    if !is_digits(digits) {
        return Err(Reason::BadNumber);
    }
    let zeros = zeros_to_fill(zeros, i + d, digits.len())?;
    Ok(signed(
        is_negative(text),
        units_of(zero_filled(digits, zeros), i, d),
    ))
}

/// How many zeros to fill in after so many digits.
fn zeros_to_fill(zeros: Zeros, places: u8, digits: usize) -> Result<u8, Reason>
    requires { places ≤ 12 }
    ensures value { result ≡ zeros_to_fill zeros places digits }
    ensures fits { IfOk result (λ k. digits + k ≤ places) }
{
    let all = usize::from(places);
    match zeros {
        Zeros::Leading if digits <= all => Ok((all - digits) as u8),
        Zeros::Trailing if digits <= all => Ok(0),
        Zeros::Full if digits == all => Ok(0),
        Zeros::Leading | Zeros::Trailing => Err(Reason::TooManyDigits),
        Zeros::Full => Err(Reason::NoZeros),
    }
}

/// The number that digits spell with so many zeros after them.
fn zero_filled(digits: &[u8], zeros: u8) -> u64
    requires digits { All (λ b. is_digit b ≡ true) digits.now }
    requires places { length digits.now + zeros ≤ 12 }
    ensures value { result ≡ zero_filled digits.now zeros }
    ensures bound { result < 10 ^ (length digits.now + zeros) }
{
    capped_value(digits, 1_000_000_000_000) * power_of_ten(zeros)
}

/// A number with `d` decimals, in units of 10^-8.
fn units_of(number: u64, i: u8, d: u8) -> u64
    requires whole { i ≤ 6 }
    requires decimals { d ≤ 8 }
    requires number { number < 10 ^ (i + d) }
    ensures value { result ≡ to_units number d }
    ensures bound { result < 10 ^ 14 }
{
    number * power_of_ten(8 - d)
}
