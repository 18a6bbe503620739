//! An item of a Gerber text: its end, and the commands that it spells.

ghost use Rattle.std.specs.Prelude.{◌≡◌, ◌↔◌, IsTrue};
ghost use Rattle.gerber_text.specs.Items.{is_end_item, end_byte, IsEnded};
ghost use Rattle.gerber_text.specs.Meaning.{meaning_in, repeated_in, without_end};
ghost use Rattle.grid_units.specs.Results.{Gives};

use gerber_commands::{Action, ItemCommands, read_extended_in, read_word};
use grid_units::{ItemFail, Profile, Reason};
use std::alloc::Global;

/// Whether the item is `M02*` or `M2*`, the end of the text.
pub fn is_end_item(bytes: &[u8]) -> bool
    ensures { result ≡ is_end_item bytes.now }
{
    bytes == b"M02*".as_slice() || bytes == b"M2*".as_slice()
}

/// The byte that ends an item with this beginning: `%` after `%`, else `*`.
pub fn end_byte(bytes: &[u8]) -> u8
    ensures { result ≡ end_byte bytes.now }
{
    match bytes {
        [b'%', ..] => b'%',
        _ => b'*',
    }
}

/// Whether the last byte ends an item with this beginning.
pub fn is_ended(bytes: &[u8]) -> bool
    ensures { IsTrue result ↔ IsEnded bytes.now }
{
    match bytes.split_last() {
        Some((last, prefix)) => *last == end_byte(prefix),
        None => false,
    }
}

/// All bytes but the last one.
fn prefix(bytes: &[u8]) -> &[u8]
    ensures { result.now ≡ without_end bytes.now }
{
    match bytes {
        [prefix @ .., _] => prefix,
        [] => bytes,
    }
}

/// The operation that coordinates alone repeat in a profile: the last one, but in the strict profile only a plot.
fn repeated_in(profile: Profile, latest: Option<Action>) -> Option<Action>
    ensures { result ≡ repeated_in profile latest }
{
    match (profile, latest) {
        (Profile::Strict, Some(Action::Move | Action::Flash)) => None,
        _ => latest,
    }
}

/// The commands of an item in a profile, given the last operation before it. An item has no line breaks, and its last byte
/// is its end: a `%` where it begins with `%`, else a `*` ([`is_ended`]).
///
/// # Errors
///
/// `Memory` where an allocation failed, else the first reason of the reading order.
#[tactic(auto, unfolding(crate::specs::Meaning::meaning_in))]
pub fn read_item_in(
    alloc: Global,
    profile: Profile,
    latest: Option<Action>,
    bytes: &[u8],
) -> Result<ItemCommands, ItemFail>
    requires item { IsEnded bytes.now }
    ensures { Gives result (meaning_in profile latest bytes.now) }
{
    match bytes {
        [] => Err(ItemFail::Refused(Reason::BadWord)),
        [b'%', rest @ ..] => read_extended_in(alloc, profile, prefix(rest)),
        _ => read_word(alloc, repeated_in(profile, latest), prefix(bytes)),
    }
}
