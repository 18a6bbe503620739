use crate::plain_commands::{Bytes, Plain, command};
use gerber_text::{
    Action, AttributeKind, Command, Standard, canonical_items, is_sayable, spelled_commands,
};
use std::alloc::Global;

/// Commands, and whether an item spells them.
const COMMANDS: [(Plain, bool); 47] = [
    (Plain::Select(9), false),
    (Plain::Select(10), true),
    (Plain::Select(2_147_483_647), true),
    (Plain::Select(2_147_483_648), false),
    (Plain::Named(b"C"), false),
    (Plain::Named(b"C0.5"), true),
    (Plain::Operation(Action::Move, None, 5), false),
    (Plain::Operation(Action::Plot, None, 5), true),
    (Plain::Operation(Action::Plot, None, -999_999_999_999), true),
    (
        Plain::Operation(Action::Plot, None, -1_000_000_000_000),
        false,
    ),
    (
        Plain::Comment(Bytes::These(b"#@! TF.FilePolarity,Negative")),
        false,
    ),
    (
        Plain::Comment(Bytes::These(b"  #@! TF.FilePolarity,Negative,x")),
        false,
    ),
    (
        Plain::Comment(Bytes::These(b"#@! TF.FilePolarity,Positive")),
        true,
    ),
    (Plain::Comment(Bytes::These(b"")), true),
    (Plain::Comment(Bytes::These(b"a*")), false),
    (Plain::Comment(Bytes::These(b"%")), false),
    (Plain::Comment(Bytes::These(b"a\nb")), false),
    (Plain::Comment(Bytes::These(b"\r")), false),
    (Plain::Comment(Bytes::Letters(1_048_572)), true),
    (Plain::Comment(Bytes::Letters(1_048_573)), false),
    (Plain::Remove(Bytes::These(b"a*")), false),
    (Plain::Remove(Bytes::These(b"%")), false),
    (Plain::Remove(Bytes::These(b"a\nb")), false),
    (Plain::Remove(Bytes::These(b"\r")), false),
    (Plain::Remove(Bytes::Letters(1_048_571)), true),
    (Plain::Remove(Bytes::Letters(1_048_572)), false),
    (Plain::Attribute(AttributeKind::Object, b"a*"), false),
    (Plain::Attribute(AttributeKind::Object, b"%"), false),
    (Plain::Attribute(AttributeKind::Object, b"a\nb"), false),
    (Plain::Attribute(AttributeKind::Object, b"\r"), false),
    (
        Plain::Attribute(AttributeKind::Object, b".FilePolarity,Negative"),
        true,
    ),
    (
        Plain::Attribute(AttributeKind::File, b".FilePolarity,Negative"),
        false,
    ),
    (Plain::Format(0, 0), false),
    (Plain::Format(0, 6), true),
    (Plain::Format(6, 6), true),
    (Plain::Format(2, 7), false),
    (Plain::Repeat(2_147_483_647, 0, -1, -1), true),
    (Plain::Repeat(2_147_483_648, 0, -1, -1), false),
    (Plain::Repeat(0, 2_147_483_648, -1, -1), false),
    (Plain::RepeatEnd, true),
    (Plain::Aperture(10, Standard::Circle, 65_000_000), true),
    (Plain::Aperture(9, Standard::Circle, 65_000_000), false),
    (Plain::Aperture(10, Standard::Rectangle, 65_000_000), false),
    (Plain::Macro(Bytes::These(b"1,1,$1")), true),
    (Plain::Macro(Bytes::These(b"1,1*")), false),
    (Plain::Macro(Bytes::Letters(1_048_569)), true),
    (Plain::Macro(Bytes::Letters(1_048_570)), false),
];

/// Whether a command is sayable: an item within the limit spells it.
fn is_spelled(alloc: Global, plain: Plain) -> Option<bool> {
    match command(alloc, plain) {
        Some(command) => Some(is_sayable(&command)),
        None => None,
    }
}

#[test]
fn commands_that_items_spell_and_others(rt: HostRuntime) {
    let rows = &COMMANDS;
    for (i, &(plain, expected)) in rows.iter().enumerate() {
        assert!(rt;
            is_spelled(rt.alloc(), plain) == Some(expected),
            "of row {i}"
        );
    }
}

#[test]
fn laws(rt: HostRuntime) {
    canonical_items();
    spelled_commands();
    assert!(rt; is_sayable(&Command::Finish));
}
