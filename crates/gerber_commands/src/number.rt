//! The integers of a Gerber text: a signed Int of at most 12 digits, and a Nat.

ghost use Rattle.std.specs.Prelude.{◌≡◌, ◌≢◌, IfOk, IfSome, ◌<◌, ◌^◌, ◌≤◌, ◌==◌, length, take, All, true, neg_ℤ, pos, if◌then◌else◌};
ghost use Rattle.std.specs.List.{list_all, prefix_len};
ghost use Rattle.grid_units.specs.Numbers.{is_digit, omitted_integer, value};
ghost use Rattle.gerber_commands.specs.Numbers.{int_of, nat_of};

use grid_units::Reason;
use grid_units::numbers::{
    capped_value, is_digit, is_digits, is_negative, repeat_len, without_sign,
};

/// The value of at most 12 digits.
fn value_of(digits: &[u8]) -> u64
    requires short { length digits.now ≤ 12 }
    requires digits { All (λ b. is_digit b ≡ true) digits.now }
    ensures value { result ≡ value digits.now }
    ensures small { result < 10 ^ length digits.now }
    ensures bound { result < 10 ^ 12 }
{
    let mut n = 0;
    for byte in digits {
        n = n * 10 + u64::from(*byte - b'0');
    }
    n
}

/// Whether these are all digits. No byte ends the loop, so that many can be compared at once.
fn are_digits(bytes: &[u8]) -> bool
    ensures { result ≡ list_all is_digit bytes.now }
{
    let mut all = true;
    for byte in bytes {
        all &= is_digit(*byte);
    }
    all
}

/// The value of the first eight bytes, if these are digits.
fn eight_digits(bytes: &[u8]) -> Option<u64>
    ensures within { IfSome result (λ n. 8 ≤ length bytes.now) }
    ensures digits { IfSome result (λ n. All (λ b. is_digit b ≡ true) (take 8 bytes.now)) }
    ensures value { IfSome result (λ n. n ≡ value (take 8 bytes.now)) }
    ensures bound { IfSome result (λ n. n < 10 ^ 8) }
{
    if bytes.len() < 8 {
        return None;
    }
    let prefix = &bytes[..8];
    if !are_digits(prefix) {
        return None;
    }
    Some(value_of(prefix))
}

/// The value of the first digits, at most 12, and how many these are. The value of the first `known` ones is given.
fn more_digits(bytes: &[u8], known: usize, number: u64) -> (u64, usize)
    requires within { known ≤ length bytes.now }
    requires short { known ≤ 12 }
    requires digits { All (λ b. is_digit b ≡ true) (take known bytes.now) }
    requires value { number ≡ value (take known bytes.now) }
    requires bound { number < 10 ^ known }
    ensures within { result.1 ≤ length bytes.now }
    ensures short { result.1 ≤ 12 }
    ensures digits { All (λ b. is_digit b ≡ true) (take result.1 bytes.now) }
    ensures value { result.0 ≡ value (take result.1 bytes.now) }
    ensures bound { result.0 < 10 ^ 12 }
{
    let end = bytes.len().min(12);
    let mut n = number;
    for i in known..end {
        if !is_digit(bytes[i]) {
            return (n, i);
        }
        n = n * 10 + u64::from(bytes[i] - b'0');
    }
    (n, end)
}

/// The value of the first digits, at most 12, and how many these are.
#[inline(always)]
pub fn first_digits(bytes: &[u8]) -> (u64, usize)
    ensures within { result.1 ≤ length bytes.now }
    ensures short { result.1 ≤ 12 }
    ensures digits { All (λ b. is_digit b ≡ true) (take result.1 bytes.now) }
    ensures value { result.0 ≡ value (take result.1 bytes.now) }
    ensures bound { result.0 < 10 ^ 12 }
{
    match eight_digits(bytes) {
        Some(number) => more_digits(bytes, 8, number),
        None => more_digits(bytes, 0, 0),
    }
}

/// Reads an Int: an optional sign and digits, at most 12 after leading zeros.
#[tactic(auto, unfolding(crate::specs::Numbers::int_of))]
pub fn read_int(run: &[u8]) -> Result<i64, Reason>
    ensures value { result ≡ int_of run.now }
    ensures kept { IfOk result (λ n. n ≢ omitted_integer) }
{
    let digits = without_sign(run);
    let (magnitude, len) = first_digits(digits);
    if len > 0 && len == digits.len() {
        return Ok(signed(is_negative(run), magnitude));
    }
    if !is_digits(digits) {
        return Err(Reason::BadNumber);
    }
    let significant_digits = &digits[repeat_len(b'0', digits)..];
    if significant_digits.len() > 12 {
        return Err(Reason::TooManyDigits);
    }
    Ok(signed(is_negative(run), value_of(significant_digits)))
}

/// A magnitude with its sign.
pub fn signed(negative: bool, magnitude: u64) -> i64
    requires { magnitude < 10 ^ 12 }
    ensures value { result ≡ (if negative then neg_ℤ (pos magnitude) else pos magnitude) }
    ensures kept { result ≢ omitted_integer }
{
    if negative {
        -(magnitude as i64)
    } else {
        magnitude as i64
    }
}

/// Reads a Nat: digits with a value of at most 2,147,483,647.
#[tactic(auto, unfolding(crate::specs::Numbers::nat_of))]
pub fn read_nat(digits: &[u8]) -> Result<u32, Reason>
    ensures { result ≡ nat_of digits.now }
{
    if !is_digits(digits) {
        return Err(Reason::BadNumber);
    }
    let n = capped_value(digits, 2_147_483_648);
    if n <= 2_147_483_647 {
        Ok(n as u32)
    } else {
        Err(Reason::BadNumber)
    }
}
