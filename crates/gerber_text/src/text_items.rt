//! The fast path for comments and attributes: one pass over their bytes, and no copy of their text.

ghost use Rattle.std.specs.Prelude.{◌≡◌, ◌+◌, ◌≤◌, ◌++◌, IfSome, length};
ghost use Rattle.gerber_text.specs.FastPath.{HasLeadingText, is_negative_text, text_code, text_end};

use crate::reader::inside_len;
use gerber_commands::{AttributeKind, contains, is_negative_comment, is_negative_image};
use grid_units::ITEM_LIMIT;

/// What a text is in: a comment, an attribute, or the removal of attributes.
#[derive(Clone, Copy)]
pub enum TextKind {
    /// `G04`, the text and `*`.
    Comment,
    /// `%TF`, `%TA` or `%TO`, the text and `*%`.
    Attribute(AttributeKind),
    /// `%TD`, the text and `*%`.
    Remove,
}

/// A comment or an attribute, the length of its text, and how many bytes its item takes.
#[derive(Clone, Copy)]
pub struct LeadingText {
    pub kind: TextKind,
    pub text_len: usize,
    pub len: usize,
}

/// What the first three bytes begin, and the bytes after them.
fn after_code(bytes: &[u8]) -> Option<(TextKind, &[u8])>
    ensures { IfSome result (λ found. bytes.now ≡ text_code found.0 ++ found.1.now) }
{
    match bytes {
        [b'G', b'0', b'4', rest @ ..] => Some((TextKind::Comment, rest)),
        [b'%', b'T', b'F', rest @ ..] => Some((TextKind::Attribute(AttributeKind::File), rest)),
        [b'%', b'T', b'A', rest @ ..] => Some((TextKind::Attribute(AttributeKind::Aperture), rest)),
        [b'%', b'T', b'O', rest @ ..] => Some((TextKind::Attribute(AttributeKind::Object), rest)),
        [b'%', b'T', b'D', rest @ ..] => Some((TextKind::Remove, rest)),
        _ => None,
    }
}

/// How many bytes end an item after its text.
fn end_len(kind: TextKind) -> usize
    ensures { result ≡ length (text_end kind) }
{
    match kind {
        TextKind::Comment => 1,
        TextKind::Attribute(_) | TextKind::Remove => 2,
    }
}

/// The bytes after the end of an item, if it stands at the start of these.
fn after_end(kind: TextKind, bytes: &[u8]) -> Option<&[u8]>
    ensures { IfSome result (λ rest. bytes.now ≡ text_end kind ++ rest.now) }
{
    match kind {
        TextKind::Comment => match bytes {
            [b'*', rest @ ..] => Some(rest),
            _ => None,
        },
        TextKind::Attribute(_) | TextKind::Remove => match bytes {
            [b'*', b'%', rest @ ..] => Some(rest),
            _ => None,
        },
    }
}

/// Whether a text makes the image negative.
fn is_negative(kind: TextKind, text: &[u8]) -> bool
    ensures { result ≡ is_negative_text kind text.now }
{
    match kind {
        TextKind::Comment => is_negative_comment(text),
        TextKind::Attribute(AttributeKind::File) => is_negative_image(text),
        TextKind::Attribute(AttributeKind::Aperture | AttributeKind::Object) | TextKind::Remove =>
            false,
    }
}

/// The comment or the attribute at the start of these bytes, if its item stands there whole, with no line break in it and
/// within the limit. Where it answers none, [`read_item_in`](crate::read_item_in) reads it.
pub fn leading_text(bytes: &[u8]) -> Option<LeadingText>
    ensures within { IfSome result (λ found. found.len ≤ length bytes.now) }
    ensures begins { IfSome result (λ found. HasLeadingText bytes.now found) }
{
    let (kind, rest) = after_code(bytes)?;
    let text_len = inside_len(rest, b'*');
    let (text, end) = rest.split_at(text_len);
    after_end(kind, end)?;
    if contains(text, b'%') || is_negative(kind, text) {
        return None;
    }
    let len = 3 + text_len + end_len(kind);
    if len > ITEM_LIMIT {
        return None;
    }
    Some(LeadingText {
        kind,
        text_len,
        len,
    })
}
