//! The fast path for a decimal at the start of a text: most coordinates are of this kind.

ghost use Rattle.std.specs.Prelude.{◌≡◌, ◌≤◌, ◌<◌, ◌+◌, ◌-◌, ◌*◌, ◌^◌, true, not, ◌==◌, length, take, IfSome};
ghost use Rattle.std.specs.List.{list_all, prefix_len};
ghost use Rattle.grid_units.specs.Numbers.{is_digit, is_number_char, value, max_units};
ghost use Rattle.grid_units.specs.ReadPrefix.{IsPrefixDecimal};

use crate::decimal::{Dec, first_eight, signed};
use crate::lengths::power_of_ten;
use crate::numbers::{is_digit, is_negative, is_number_char, without_sign};

/// How many digits stand at the start, eight at most, and the number that they spell.
fn leading_digits(bytes: &[u8]) -> (usize, u64)
    ensures within { result.0 ≤ length bytes.now }
    ensures short { result.0 ≤ 8 }
    ensures digits { list_all is_digit (take result.0 bytes.now) ≡ true }
    ensures value { result.1 ≡ value (take result.0 bytes.now) }
{
    let digits = first_eight(bytes);
    let mut n: u64 = 0;
    for (i, byte) in digits.iter().enumerate() {
        if !is_digit(*byte) {
            return (i, n);
        }
        n = n * 10 + u64::from(*byte - b'0');
    }
    (digits.len(), n)
}

fn starts_with_number_char(bytes: &[u8]) -> bool
    ensures { result ≡ not (prefix_len is_number_char bytes.now == 0) }
{
    match bytes.first() {
        Some(first) => is_number_char(*first),
        None => false,
    }
}

/// A whole part and the number that its decimals spell, in units of 10^-8.
fn units_of(whole: u64, decimals: u64, places: usize) -> u64
    requires whole { whole ≤ 999999 }
    requires places { places ≤ 8 }
    requires decimals { decimals * 10 ^ (8 - places) < 10 ^ 8 }
    ensures value { result ≡ whole * 10 ^ 8 + decimals * 10 ^ (8 - places) }
    ensures bound { result ≤ max_units }
{
    whole * 100_000_000 + decimals * power_of_ten((8 - places) as u8)
}

impl Dec {
    /// The decimal with a point at the start of these bytes, and what follows it. `None` says only that this fast
    /// path finds none: it takes up to six digits before the point and up to eight after it.
    pub fn read_prefix(bytes: &[u8]) -> (Option<Dec>, &[u8])
        ensures { IfSome result.0 (λ found. IsPrefixDecimal found result.1.now bytes.now) }
    {
        let digits = without_sign(bytes);
        let (places, whole) = leading_digits(digits);
        let Some((point, after)) = digits[places..].split_first() else {
            return (None, bytes);
        };
        if places > 6 || *point != b'.' {
            return (None, bytes);
        }
        let (len, decimals) = leading_digits(after);
        let rest = &after[len..];
        if places + len == 0 || starts_with_number_char(rest) {
            return (None, bytes);
        }
        let units = units_of(whole, decimals, len);
        (Some(signed(is_negative(bytes), units)), rest)
    }
}
