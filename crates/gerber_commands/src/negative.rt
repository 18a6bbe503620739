//! Which attributes make the image of a layer negative.

ghost use Rattle.std.specs.Prelude.{◌≡◌, ◌==◌};
ghost use Rattle.std.specs.List.{list_any};
ghost use Rattle.gerber_commands.specs.Negative.{is_negative_image, is_negative_comment};

use crate::fields::strip_prefix;
use grid_units::numbers::{len_before, repeat_len};

/// Whether the text of a file attribute makes the image negative (Gerber format, .FilePolarity).
pub fn is_negative_image(attribute: &[u8]) -> bool
    ensures { result ≡ is_negative_image attribute.now }
{
    match strip_prefix(b".FilePolarity,", attribute) {
        Some(value) => value.split_at(len_before(b',', value)).0 == b"Negative".as_slice(),
        None => false,
    }
}

/// Whether the text of a comment holds such a file attribute.
pub fn is_negative_comment(text: &[u8]) -> bool
    ensures { result ≡ is_negative_comment text.now }
{
    let (_spaces, rest) = text.split_at(repeat_len(b' ', text));
    match strip_prefix(b"#@! TF", rest) {
        Some(attribute) => is_negative_image(attribute),
        None => false,
    }
}

/// Whether a byte stands in a text. No byte ends the loop, so that many can be compared at once.
pub fn contains(text: &[u8], sought: u8) -> bool
    ensures { result ≡ list_any (λ b. b == sought) text.now }
{
    let mut found = false;
    for byte in text {
        found |= *byte == sought;
    }
    found
}
