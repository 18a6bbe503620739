//! How numbers are written.

ghost use Rattle.std.specs.Prelude.{◌≡◌, ◌≤◌, ◌<◌, ◌+◌, ◌^◌, ◌%◌, ◌/◌, ◌++◌, ◌∷◌, [], unsigned_abs, decimal};
ghost use Rattle.arrayvec.specs.ArrayString.{array_string_len};
ghost use Rattle.grid_units.specs.Spellings.{places, without_end_zeros, minus, signed_whole, fraction_text, fraction_text_or_zero, millimetres};

use crate::lengths::power_of_ten;
use arrayvec::ArrayString;
use itoa::Buffer;

/// The sign and the whole part of a number, where `one` of its units are 1.
pub(crate) fn signed_whole(number: i64, one: u64) -> ArrayString<16>
    requires one { 0 < one }
    requires small { unsigned_abs number / one < 10 ^ 6 }
    ensures text { result.bytes ≡ signed_whole one number }
    ensures short { array_string_len result ≤ 7 }
    ensures shorter { unsigned_abs number / one < 10 ^ 5 → array_string_len result ≤ 6 }
{
    let mut text = minus(number);
    push_whole(&mut text, number.unsigned_abs() / one);
    text
}

/// Appends a number of at most six digits.
fn push_whole(text: &mut ArrayString<16>, number: u64)
    requires number { number < 10 ^ 6 }
    requires room { array_string_len text.old ≤ 1 }
    ensures text { text.new.bytes ≡ text.old.bytes ++ decimal number }
    ensures short { array_string_len text.new ≤ array_string_len text.old + 6 }
    ensures shorter { number < 10 ^ 5 → array_string_len text.new ≤ array_string_len text.old + 5 }
{
    let mut buffer = Buffer::new();
    text.push_str(buffer.format(number));
}

/// `-` below zero, else nothing.
fn minus(number: i64) -> ArrayString<16>
    ensures text { result.bytes ≡ minus number }
    ensures short { array_string_len result ≤ 1 }
{
    let mut text = ArrayString::new();
    if number < 0 {
        text.push('-');
    }
    text
}

/// Appends an ASCII character.
fn push_ascii(text: &mut ArrayString<16>, byte: u8)
    requires ascii { byte < 128 }
    requires room { array_string_len text.old < 16 }
    ensures bytes { text.new.bytes ≡ text.old.bytes ++ byte ∷ [] }
    ensures len { array_string_len text.new ≡ array_string_len text.old + 1 }
{
    text.push(char::from(byte));
}

/// Appends a digit.
fn push_digit(text: &mut ArrayString<16>, digit: u8)
    requires digit { digit < 10 }
    requires room { array_string_len text.old < 16 }
    ensures { text.new.bytes ≡ text.old.bytes ++ (48 + digit) ∷ [] }
{
    push_ascii(text, b'0' + digit);
}

/// The digit of a number at 10^`exponent`.
fn digit_of(number: u64, exponent: u8) -> u8
    requires { exponent ≤ 12 }
    ensures value { result ≡ number / 10 ^ exponent % 10 }
    ensures digit { result < 10 }
{
    (number / power_of_ten(exponent) % 10) as u8
}

/// Appends the last so many digits of a number.
fn push_places(text: &mut ArrayString<16>, number: u64, width: u8)
    requires width { width ≤ 9 }
    requires room { array_string_len text.old + width ≤ 16 }
    ensures { text.new.bytes ≡ text.old.bytes ++ places width number }
{
    for exponent in (0..width).rev() {
        push_digit(text, digit_of(number, exponent));
    }
}

/// The number without the zeros at its end, and how many of its last `digits` digits are left.
fn without_zeros(number: u64, digits: u8) -> (u64, u8)
    ensures places { places result.1 result.0 ≡ without_end_zeros (places digits number) }
    ensures width { result.1 ≤ digits }
{
    let mut rest = number;
    let mut width = digits;
    while width > 0 && rest % 10 == 0 {
        rest /= 10;
        width -= 1;
    }
    (rest, width)
}

/// Appends a point and the last `width` digits of a number, without the zeros at their end; nothing where there are
/// none.
pub(crate) fn push_decimals(text: &mut ArrayString<16>, part: u64, width: u8)
    requires width { width ≤ 9 }
    requires room { array_string_len text.old + width < 16 }
    ensures { text.new.bytes ≡ text.old.bytes ++ fraction_text (without_end_zeros (places width part)) }
{
    let (number, left) = without_zeros(part, width);
    if left > 0 {
        push_ascii(text, b'.');
        push_places(text, number, left);
    }
}

/// Appends a point and the decimals of a number of 10^-8, `.0` where there are none.
pub(crate) fn push_decimals_or_zero(text: &mut ArrayString<16>, fraction: u64)
    requires { array_string_len text.old ≤ 7 }
    ensures { text.new.bytes ≡ text.old.bytes ++ fraction_text_or_zero (without_end_zeros (places 8 fraction)) }
{
    let (number, width) = without_zeros(fraction, 8);
    push_ascii(text, b'.');
    if width > 0 {
        push_places(text, number, width);
    } else {
        push_digit(text, 0);
    }
}

/// A length in pm as millimetres with nine decimals: `0.125000000`.
#[tactic(auto, unfolding(crate::specs::Spellings::millimetres))]
pub fn write_mm(length: i64) -> ArrayString<16>
    requires { unsigned_abs length ≤ 10 ^ 13 }
    ensures { result.bytes ≡ millimetres length }
{
    let mut text = signed_whole(length, 1_000_000_000);
    push_ascii(&mut text, b'.');
    push_places(&mut text, length.unsigned_abs() % 1_000_000_000, 9);
    text
}
