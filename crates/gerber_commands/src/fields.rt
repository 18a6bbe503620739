//! Fields of a row: what follows a prefix, and the run after a letter.

ghost use Rattle.std.specs.Prelude.{◌≡◌, ◌==◌, ◌≤◌, length};
ghost use Rattle.std.specs.List.{prefix_len};
ghost use Rattle.std.specs.Option.{option_copied};
ghost use Rattle.grid_units.specs.Rows.{strip_prefix};
ghost use Rattle.gerber_commands.specs.Rows.{field};
ghost use Rattle.grid_units.specs.Numbers.{is_digit, is_number_char};

use grid_units::numbers::{digit_run_len, number_run_len};

/// What follows a prefix, if a text begins with it.
pub fn strip_prefix<'a>(prefix: &[u8], text: &'a [u8]) -> Option<&'a [u8]>
    ensures { option_copied result ≡ strip_prefix prefix.now text.now }
{
    text.strip_prefix(prefix)
}

/// The run after a letter, if the letter stands, and the rest.
pub fn number_field(letter: u8, text: &[u8]) -> (Option<&[u8]>, &[u8])
    ensures run { option_copied result.0 ≡ (field is_number_char letter text.now).0 }
    ensures rest { result.1.now ≡ (field is_number_char letter text.now).1 }
{
    match text {
        [first, rest @ ..] if *first == letter => {
            let (run, rest) = rest.split_at(number_run_len(rest));
            (Some(run), rest)
        }
        _ => (None, text),
    }
}

/// The digits after a letter, if the letter stands, and the rest.
pub fn digits_field(letter: u8, text: &[u8]) -> (Option<&[u8]>, &[u8])
    ensures run { option_copied result.0 ≡ (field is_digit letter text.now).0 }
    ensures rest { result.1.now ≡ (field is_digit letter text.now).1 }
{
    match text {
        [first, rest @ ..] if *first == letter => {
            let (run, rest) = rest.split_at(digit_run_len(rest));
            (Some(run), rest)
        }
        _ => (None, text),
    }
}
