//! What the names and the texts of files say of them.

use manifest::*;
use std::alloc::Global;

/// A text, and the kind of file that it is.
const KINDS: [(&str, FileKind); 8] = [
    ("%FSLAX46Y46*%\nM02*\n", FileKind::Gerber),
    (
        "M48\r\nT1C0.4\r\n%\r\nT1\r\nX0Y0\r\nM30\r\n",
        FileKind::Drill,
    ),
    ("M30\n", FileKind::Empty),
    ("%\nX0Y0\nM30\n", FileKind::Drill),
    ("role,name,file\n", FileKind::Neither),
    ("PK\u{3}\u{4}\u{14}\0", FileKind::Archive),
    ("PK\u{3}\u{4}%FSLAX46Y46*%\nM02*\n", FileKind::Archive),
    ("PK\u{5}\u{6}", FileKind::Neither),
];

#[test]
fn texts_have_their_kinds(rt: HostRuntime) {
    for &(text, kind) in &KINDS {
        assert!(rt; kind_of(text.as_bytes()) == kind, "of {text}");
    }
}

/// Whether the file function of a text has these fields.
fn has_valid_fields(text: &[u8], fields: (&[u8], &[u8], &[u8], &[u8])) -> bool {
    match function_of(text) {
        Some(function) => {
            let found = fields_of(function);
            (found.first, found.second, found.third, found.fourth) == fields
        }
        None => false,
    }
}

#[test]
fn the_last_file_function_counts(rt: HostRuntime) {
    let text = b"G04 #@! TF.FileFunction,Legend,Top*\n%TF.FileFunction,Copper,L2,Bot*%\nM02*\n";
    assert!(rt; has_valid_fields(text, (b"Copper", b"L2", b"Bot", b"")));
}

#[test]
fn a_file_function_has_four_fields_that_count(rt: HostRuntime) {
    let text = b"; #@! TF.FileFunction,Plated,1,2,Blind,Drill\nM30\n";
    assert!(rt; has_valid_fields(text, (b"Plated", b"1", b"2", b"Blind")));
}

/// Digits, and the number of the layer.
const NUMBERS: [(&str, Option<u32>); 2] = [("12", Some(12)), ("1234567890", None)];

#[test]
fn layers_have_numbers_of_at_most_nine_digits(rt: HostRuntime) {
    for &(digits, number) in &NUMBERS {
        assert!(rt; layer_number(digits.as_bytes()) == number, "of {digits}");
    }
}

#[test]
fn names_have_a_short_form(rt: HostRuntime) {
    assert!(rt; base_name(b"a/b/Board-F_Cu.gbr") == b"Board-F_Cu.gbr".as_slice());
}

/// A name, and whether its short form has a point.
const POINTS: [(&str, bool); 2] = [("a.b/c.d", true), ("a.b/c", false)];

#[test]
fn names_have_a_point(rt: HostRuntime) {
    for &(name, is_there) in &POINTS {
        assert!(rt; has_dot(name.as_bytes()) == is_there, "of {name}");
    }
}

/// Whether these are the four words of a copper layer in Gerber, the last of them after the point.
fn are_copper_words(words: &[&[u8]]) -> bool {
    let stem = stem_of(true, words);
    words.len() == 4
        && extension_of(true, words) == b"gbr".as_slice()
        && last_other_word(stem) == b"f".as_slice()
        && ends_in_copper(stem)
        && !says_unplated(words)
}

/// Whether the words of a name are such.
fn has_copper_words(alloc: Global, name: &[u8]) -> bool {
    match word_runs(alloc, name) {
        Ok(words) => are_copper_words(words.as_slice()),
        Err(_) => false,
    }
}

/// Whether the words of the short form of a name are such, in small letters.
fn has_lower_copper_words(alloc: Global, name: &[u8]) -> bool {
    match lower_base_name(alloc, name) {
        Ok(lower) => has_copper_words(alloc, lower.as_slice()),
        Err(_) => false,
    }
}

/// Whether a name is this text once it is cut before its capitals, in small letters.
fn is_cut_to(alloc: Global, name: &str, text: &str) -> bool {
    match lower_base_name(alloc, name.as_bytes()) {
        Ok(lower) => lower.as_slice() == text.as_bytes(),
        Err(_) => false,
    }
}

/// A name, and what it is once it is cut.
const CUT_NAMES: [(&str, &str); 5] = [
    ("out/SolderMaskTop.gbr", "solder mask top.gbr"),
    ("board-F_Cu.gbr", "board-f_cu.gbr"),
    ("PCBTop.GTL", "pcbtop.gtl"),
    ("L1Top", "l1top"),
    ("copperBottom", "copper bottom"),
];

#[test]
fn names_are_cut_before_capitals(rt: HostRuntime) {
    for &(name, text) in &CUT_NAMES {
        assert!(rt; is_cut_to(rt.alloc(), name, text), "{name}");
    }
}

#[test]
fn names_have_words(rt: HostRuntime) {
    assert!(rt; has_lower_copper_words(rt.alloc(), b"a/Board-F_Cu.gbr"));
}

#[test]
fn words_have_a_number(rt: HostRuntime) {
    assert!(rt; number_suffix(&["in", "group"], b"group2") == Some(2));
}

#[test]
fn lines_are_looked_for(rt: HostRuntime) {
    assert!(rt; has_line(b";TYPE=PLATED", b"M48\n;TYPE=PLATED\r\n"));
}
