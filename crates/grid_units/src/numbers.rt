//! Runs of digits, and the numbers that they spell.

ghost use Rattle.std.specs.Prelude.{◌≡◌, ◌≤◌, ◌<◌, ◌^◌, ◌==◌, not, min, length, All, true};
ghost use Rattle.std.specs.List.{list_all, prefix_len};
ghost use Rattle.grid_units.specs.Numbers.{is_digit, is_number_char, is_digits, value, without_sign, is_negative};

/// Whether a byte is `0` to `9`.
pub fn is_digit(byte: u8) -> bool
    ensures { result ≡ is_digit byte }
{
    byte >= b'0' && byte <= b'9'
}

/// Whether a byte is a digit, a sign or a point.
pub fn is_number_char(byte: u8) -> bool
    ensures { result ≡ is_number_char byte }
{
    is_digit(byte) || byte == b'+' || byte == b'-' || byte == b'.'
}

/// How many times a text repeats this byte at its start.
pub fn repeat_len(sought: u8, text: &[u8]) -> usize
    ensures within { result ≤ length text.now }
    ensures len { result ≡ prefix_len (λ b. b == sought) text.now }
{
    for (i, byte) in text.iter().enumerate() {
        if *byte != sought {
            return i;
        }
    }
    text.len()
}

/// How many bytes come before the first byte of this value, all of them where there is none.
pub fn len_before(sought: u8, text: &[u8]) -> usize
    ensures within { result ≤ length text.now }
    ensures len { result ≡ prefix_len (λ b. not (b == sought)) text.now }
{
    for (i, byte) in text.iter().enumerate() {
        if *byte == sought {
            return i;
        }
    }
    text.len()
}

/// How many digits stand at the start: the length of the digit run.
pub fn digit_run_len(bytes: &[u8]) -> usize
    ensures within { result ≤ length bytes.now }
    ensures len { result ≡ prefix_len is_digit bytes.now }
{
    for (i, byte) in bytes.iter().enumerate() {
        if !is_digit(*byte) {
            return i;
        }
    }
    bytes.len()
}

/// How many number characters stand at the start: the length of the run.
pub fn number_run_len(bytes: &[u8]) -> usize
    ensures within { result ≤ length bytes.now }
    ensures len { result ≡ prefix_len is_number_char bytes.now }
{
    for (i, byte) in bytes.iter().enumerate() {
        if !is_number_char(*byte) {
            return i;
        }
    }
    bytes.len()
}

/// Whether there are one or more digits and nothing else.
pub fn is_digits(bytes: &[u8]) -> bool
    ensures { result ≡ is_digits bytes.now }
{
    !bytes.is_empty() && are_all_digits(bytes)
}

/// Whether there is nothing but digits; true of no bytes.
pub fn are_all_digits(bytes: &[u8]) -> bool
    ensures { result ≡ list_all is_digit bytes.now }
{
    bytes.iter().all(|byte| is_digit(*byte))
}

/// The number that digits spell, or the limit where it is greater.
pub fn capped_value(digits: &[u8], limit: u64) -> u64
    requires digits { All (λ b. is_digit b ≡ true) digits.now }
    requires limit { limit ≤ 10 ^ 18 }
    ensures { result ≡ min (value digits.now) limit }
{
    let mut n: u64 = 0;
    for byte in digits {
        n = (n * 10 + u64::from(*byte - b'0')).min(limit);
    }
    n
}

/// What follows an optional sign.
pub fn without_sign(text: &[u8]) -> &[u8]
    ensures { result.now ≡ without_sign text.now }
{
    match text {
        [b'+' | b'-', rest @ ..] => rest,
        _ => text,
    }
}

/// Whether a text begins with `-`.
pub fn is_negative(text: &[u8]) -> bool
    ensures { result ≡ is_negative text.now }
{
    match text {
        [first, ..] => *first == b'-',
        [] => false,
    }
}
