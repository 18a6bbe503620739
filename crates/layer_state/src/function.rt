//! The file function of a layer.

ghost use Rattle.std.specs.Prelude.{◌≡◌, ◌==◌, codes};
ghost use Rattle.std.specs.Option.{option_copied};
ghost use Rattle.grid_units.specs.Rows.{strip_prefix};
ghost use Rattle.gerber_commands.specs.Negative.{after_spaces};
ghost use Rattle.gerber_text.specs.FastPath.{text_command};
ghost use Rattle.layer_state.specs.FileFunction.{file_function_in, function_set};

use gerber_text::{AttributeKind, Command, TextKind};
use grid_units::numbers::{len_before, repeat_len};

/// The file function in a file attribute, or in a comment that holds one.
pub(crate) fn function_set(command: &Command) -> Option<&[u8]>
    ensures { option_copied result ≡ function_set command.now }
{
    match command {
        Command::Attribute(AttributeKind::File, text) => file_function_in(text.bytes()),
        Command::Comment(text) => file_function_in(attribute_in(text.bytes())?),
        _ => None,
    }
}

/// The file function in a text of this kind, if it holds one.
pub(crate) fn function_in_text(kind: TextKind, text: &[u8]) -> Option<&[u8]>
    ensures { option_copied result ≡ function_set (text_command kind text.now) }
{
    match kind {
        TextKind::Comment => file_function_in(attribute_in(text)?),
        TextKind::Attribute(AttributeKind::File) => file_function_in(text),
        TextKind::Attribute(AttributeKind::Aperture | AttributeKind::Object) | TextKind::Remove =>
            None,
    }
}

/// What follows `#@! TF`, which makes a comment a file attribute, in a comment that begins with it after any spaces.
fn attribute_in(comment: &[u8]) -> Option<&[u8]>
    ensures { option_copied result ≡ strip_prefix (codes "#@! TF") (after_spaces comment.now) }
{
    comment[repeat_len(b' ', comment)..].strip_prefix(b"#@! TF")
}

/// What follows the name `.FileFunction` and its comma.
fn file_function_in(attribute: &[u8]) -> Option<&[u8]>
    ensures { option_copied result ≡ file_function_in attribute.now }
{
    let len = len_before(b',', attribute);
    if &attribute[..len] == b".FileFunction".as_slice() {
        Some(&attribute[attribute.len().min(len + 1)..])
    } else {
        None
    }
}
