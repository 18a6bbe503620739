//! The comments that say whether holes are plated: those of a tool, or those of the whole file.

ghost use Rattle.std.specs.Prelude.{◌≡◌, drop};
ghost use Rattle.std.specs.List.{after_first, before_first, prefix_len};
ghost use Rattle.std.specs.Str.{bytes_eq};
ghost use Rattle.drill_lines.specs.Plating as says;
ghost use Rattle.drill_lines.specs.Plating.{is_comma, is_space, said_plating, says_plated, says_unplated};

use crate::line::begins;
use grid_units::numbers::{len_before, repeat_len};

/// What the comments of a mixed drill file say of the tools that are defined after them.
#[derive(Clone, Copy)]
pub enum Plating {
    /// Their holes are plated.
    Plated,
    /// Their holes are not plated.
    Unplated,
    /// Nothing, or no longer what was said before.
    Unsaid,
}

/// The text without the spaces before it.
fn without_spaces(text: &[u8]) -> &[u8]
    ensures { result.now ≡ drop (prefix_len is_space text.now) text.now }
{
    &text[repeat_len(b' ', text)..]
}

/// The bytes before the first comma.
fn before_comma(text: &[u8]) -> &[u8]
    ensures { result.now ≡ before_first is_comma text.now }
{
    &text[..len_before(b',', text)]
}

/// The bytes after the first comma, none where there is no comma.
fn after_comma(text: &[u8]) -> &[u8]
    ensures { result.now ≡ after_first is_comma text.now }
{
    let start = text.len().min(len_before(b',', text) + 1);
    &text[start..]
}

/// Whether the bytes before the first comma are this name. Few texts begin so, and no other one is searched for a comma.
fn is_named(name: &[u8], text: &[u8]) -> bool
    ensures { result ≡ bytes_eq (before_first is_comma text.now) name.now }
{
    begins(name, text) && before_comma(text) == name
}

/// What the word of an aperture function says: `Plated`, `NonPlated` or another.
fn function_plating(word: &[u8]) -> Plating
    ensures { result ≡ says.function_plating word.now }
{
    if word == b"Plated".as_slice() {
        Plating::Plated
    } else if word == b"NonPlated".as_slice() {
        Plating::Unplated
    } else {
        Plating::Unsaid
    }
}

/// Whether an attribute is taken back that may have said it: each of them, or the aperture function.
fn takes_back(text: &[u8]) -> bool
    ensures { result ≡ says.takes_back text.now }
{
    text == b"#@! TD".as_slice() || begins(b"#@! TD.AperFunction", text)
}

/// What an attribute in a comment says of the tools after it, `None` where it says nothing of that.
fn attribute_plating(text: &[u8]) -> Option<Plating>
    ensures { result ≡ says.attribute_plating text.now }
{
    if takes_back(text) {
        Some(Plating::Unsaid)
    } else if is_named(b"#@! TA.AperFunction", text) {
        Some(function_plating(before_comma(after_comma(text))))
    } else {
        None
    }
}

/// What the text of a comment says of the tools after it: that their holes are plated (`TYPE=PLATED`), that they are not, or that
/// neither is said any longer. `None` where it says nothing of that.
#[tactic(auto, unfolding(crate::specs::Plating::said_plating))]
pub fn said_plating(text: &[u8]) -> Option<Plating>
    ensures { result ≡ said_plating text.now }
{
    if text == b"TYPE=PLATED".as_slice() {
        Some(Plating::Plated)
    } else if text == b"TYPE=NON_PLATED".as_slice() {
        Some(Plating::Unplated)
    } else {
        attribute_plating(without_spaces(text))
    }
}

/// What a file function in a comment says of all holes of the file, `None` where the comment is none.
fn file_plating(text: &[u8]) -> Option<Plating>
    ensures { result ≡ says.file_plating text.now }
{
    if is_named(b"#@! TF.FileFunction", text) {
        Some(function_plating(before_comma(after_comma(text))))
    } else {
        None
    }
}

/// Whether it is said that holes are plated.
fn is_plated_said(said: Option<Plating>) -> bool
    ensures { result ≡ says.is_plated_said said }
{
    matches!(said, Some(Plating::Plated))
}

/// Whether it is said that holes are not plated.
fn is_unplated_said(said: Option<Plating>) -> bool
    ensures { result ≡ says.is_unplated_said said }
{
    matches!(said, Some(Plating::Unplated))
}

/// Whether the text of a comment says that holes are plated: those of the tools after it, as [`said_plating`] says, or those of the
/// whole file, as `#@! TF.FileFunction,Plated,1,2,PTH` does.
#[tactic(auto, unfolding(crate::specs::Plating::says_plated))]
pub fn says_plated(text: &[u8]) -> bool
    ensures { result ≡ says_plated text.now }
{
    is_plated_said(said_plating(text)) || is_plated_said(file_plating(without_spaces(text)))
}

/// Whether the text of a comment says that holes are not plated: those of the tools after it, as [`said_plating`] says, or those of
/// the whole file, as `#@! TF.FileFunction,NonPlated,1,2,NPTH` does.
#[tactic(auto, unfolding(crate::specs::Plating::says_unplated))]
pub fn says_unplated(text: &[u8]) -> bool
    ensures { result ≡ says_unplated text.now }
{
    is_unplated_said(said_plating(text)) || is_unplated_said(file_plating(without_spaces(text)))
}
