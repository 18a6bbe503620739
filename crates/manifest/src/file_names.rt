//! What the name of a file says.

ghost use Rattle.std.specs.Prelude.{◌≡◌, ◌≤◌, IfOk, map};
ghost use Rattle.std.specs.List.{list_any};
ghost use Rattle.grid_units.specs.Numbers as numbers;
ghost use Rattle.manifest.specs.Names as says;

use crate::contents::contains;
use grid_units::numbers::{capped_value, is_digit, is_digits};
use memchr::memrchr;
use std::alloc::{AllocError, Global};

/// What follows the last slash of a name, or the whole name where it has none.
pub fn base_name(name: &[u8]) -> &[u8]
    ensures { result.now ≡ says.base_name name.now }
{
    match memrchr(b'/', name) {
        Some(at) => &name[at + 1..],
        None => name,
    }
}

/// The runs of small letters and digits.
///
/// # Errors
///
/// An `AllocError` where there is no memory.
pub fn word_runs(alloc: Global, name: &[u8]) -> Result<Vec<&[u8]>, AllocError>
    ensures { IfOk result (λ words. map (λ word. word.now) words.items ≡ says.word_runs name.now) }
{
    name.split(|byte| !(byte.is_ascii_digit() || byte.is_ascii_lowercase()))
        .filter(|run| !run.is_empty())
        .collect(alloc)
}

/// Whether a name has a point after its last slash.
pub fn has_dot(name: &[u8]) -> bool
    ensures { result ≡ says.has_dot name.now }
{
    base_name(name).iter().any(|byte| *byte == b'.')
}

/// The last of these words, empty where there is none.
fn last<'a>(words: &[&'a [u8]]) -> &'a [u8]
    ensures { result.now ≡ says.last_word_or_empty (map (λ word. word.now) words.now) }
{
    match words.last() {
        Some(word) => *word,
        None => &[],
    }
}

/// Whether a name has an end: it has a point, and its last word is not `top` or `bot`.
pub(crate) fn has_end(point: bool, words: &[&[u8]]) -> bool
    ensures { result ≡ says.has_end point (map (λ word. word.now) words.now) }
{
    point && !is_one_of(last(words), &["top", "bot"])
}

/// The end of a name: the last of its words where it has a point, else empty.
pub fn extension_of<'a>(point: bool, words: &[&'a [u8]]) -> &'a [u8]
    ensures { result.now ≡ says.extension_of point (map (λ word. word.now) words.now) }
{
    if point { last(words) } else { &[] }
}

/// The stem of a name: its words without its end, all of them where it has no point.
pub fn stem_of<'w, 'a>(point: bool, words: &'w [&'a [u8]]) -> &'w [&'a [u8]]
    ensures { map (λ word. word.now) result.now ≡ says.stem_of point (map (λ word. word.now) words.now) }
{
    let ends = if point { 1 } else { 0 };
    &words[..words.len().saturating_sub(ends)]
}

/// Whether a word is one of these.
pub fn is_one_of(word: &[u8], these: &[&str]) -> bool
    ensures { result ≡ says.is_one_of word.now (map (λ one. one.now) these.now) }
{
    these.iter().any(|one| one.as_bytes() == word)
}

/// The number that a text spells, if it is one to `limit` digits; at most nine are allowed.
fn number_within(limit: usize, text: &[u8]) -> Option<u32>
    requires { limit ≤ 9 }
    ensures { result ≡ says.number_within limit text.now }
{
    if !is_digits(text) || text.len() > limit {
        return None;
    }
    Some(capped_value(text, 999_999_999) as u32)
}

/// The number that a text spells, if it is one to nine digits.
pub fn layer_number(text: &[u8]) -> Option<u32>
    ensures { result ≡ says.number_within 9 text.now }
{
    number_within(9, text)
}

/// A word before its first digit, and from that digit on.
fn split_at_digit(word: &[u8]) -> (&[u8], &[u8])
    ensures letters { result.0.now ≡ says.letters_of word.now }
    ensures digits { result.1.now ≡ says.digits_of word.now }
{
    for (i, byte) in word.iter().enumerate() {
        if is_digit(*byte) {
            return word.split_at(i);
        }
    }
    (word, &[])
}

/// The number of a word that is one of these and then one or two digits: 2 of `in2`.
pub fn number_suffix(these: &[&str], word: &[u8]) -> Option<u32>
    ensures { result ≡ says.number_suffix (map (λ one. one.now) these.now) word.now }
{
    let (letters, digits) = split_at_digit(word);
    if is_one_of(letters, these) {
        number_within(2, digits)
    } else {
        None
    }
}

/// Whether a word is one for copper: `cu`, `copper` or `layer`.
fn is_copper_word(word: &[u8]) -> bool
    ensures { result ≡ says.is_copper_word word.now }
{
    is_one_of(word, &["cu", "copper", "layer"])
}

/// Whether a stem ends in a word for copper.
pub fn ends_in_copper(stem: &[&[u8]]) -> bool
    ensures { result ≡ says.ends_in_copper (map (λ word. word.now) stem.now) }
{
    is_copper_word(last(stem))
}

/// The last word of a stem that is no word for copper, empty where there is none.
pub fn last_other_word<'a>(stem: &[&'a [u8]]) -> &'a [u8]
    ensures { result.now ≡ says.last_other_word (map (λ word. word.now) stem.now) }
{
    match stem.iter().rev().find(|word| !is_copper_word(word)) {
        Some(word) => *word,
        None => &[],
    }
}

/// Whether `non` stands right before `plated`.
fn has_non_plated(words: &[&[u8]]) -> bool
    ensures { result ≡ says.has_non_plated (map (λ word. word.now) words.now) }
{
    match words {
        [word, next, ..] => (*word == b"non".as_slice() && *next == b"plated".as_slice())
            || has_non_plated(&words[1..]),
        _ => false,
    }
}

/// Whether one of these words says that holes are not plated.
fn has_unplated_word(words: &[&[u8]]) -> bool
    ensures { result ≡ list_any (λ word. says.is_one_of word says.unplated_words) (map (λ word. word.now) words.now) }
{
    words.iter().any(|word| is_one_of(word, &["npth", "unplated", "nonplated", "nplt"]))
}

/// Whether the words of a name say that holes are not plated: one of them does, or `non` stands right before `plated`.
pub fn says_unplated(words: &[&[u8]]) -> bool
    ensures { result ≡ says.says_unplated (map (λ word. word.now) words.now) }
{
    has_unplated_word(words) || has_non_plated(words)
}

/// Whether a word says that holes are plated; `after_non` says whether `non` stands right before it.
fn is_plated_word(after_non: bool, word: &[u8]) -> bool
    ensures { result ≡ says.is_plated_word after_non word.now }
{
    is_one_of(word, &["pth", "plated", "plt", "via", "vias"]) && !after_non
}

/// Whether one of these words says that holes are plated: `pth`, `plated`, `plt`, `via` or `vias`, but not right after `non`.
pub(crate) fn says_plated(words: &[&[u8]]) -> bool
    ensures { result ≡ says.says_plated (map (λ word. word.now) words.now) }
{
    let mut after_non = false;
    for word in words {
        if is_plated_word(after_non, *word) {
            return true;
        }
        after_non = *word == b"non".as_slice();
    }
    false
}

/// Whether one of these parts stands in a word.
fn has_part(word: &[u8], parts: &[&str]) -> bool
    ensures { result ≡ says.has_part word.now (map (λ part. part.now) parts.now) }
{
    parts.iter().any(|part| contains(word, part.as_bytes()))
}

/// The parts of words that stand in the names of layers without copper.
const OTHER_PARTS: [&str; 24] = [
    "mask",
    "paste",
    "silk",
    "legend",
    "overlay",
    "outline",
    "contour",
    "courtyard",
    "crtyd",
    "adhes",
    "keepout",
    "stencil",
    "stiffen",
    "mechanic",
    "dimension",
    "document",
    "drawing",
    "assembl",
    "placement",
    "profile",
    "cream",
    "milling",
    "drillmap",
    "vcut",
];

/// The words of layers without copper, with or without a number after them.
const OTHER_WORDS: [&str; 56] = [
    "crt",
    "yd",
    "cover",
    "edge",
    "edges",
    "cut",
    "cuts",
    "border",
    "fab",
    "fabrication",
    "user",
    "margin",
    "comments",
    "cmts",
    "dwg",
    "dwgs",
    "eco",
    "note",
    "notes",
    "doc",
    "docu",
    "dim",
    "dims",
    "mech",
    "assy",
    "asm",
    "place",
    "glue",
    "tglue",
    "bglue",
    "stop",
    "tstop",
    "bstop",
    "resist",
    "keep",
    "map",
    "guide",
    "marking",
    "ident",
    "score",
    "vscore",
    "sm",
    "smt",
    "smb",
    "ss",
    "sst",
    "ssb",
    "sp",
    "spt",
    "spb",
    "tsm",
    "bsm",
    "tss",
    "bss",
    "tsp",
    "bsp",
];

/// Whether a word is one of a layer without copper, with or without a number: by a part of it, as `soldermask` by `mask`, or
/// up to its first digit, as `user1`.
pub(crate) fn is_other_word(word: &[u8]) -> bool
    ensures { result ≡ says.is_other_word word.now }
{
    let (letters, _) = split_at_digit(word);
    has_part(word, &OTHER_PARTS) || is_one_of(letters, &OTHER_WORDS)
}

/// Whether a word may be one of a layer without copper, with or without a number: `solder`, `plane2`.
pub(crate) fn is_unclear_word(word: &[u8]) -> bool
    ensures { result ≡ says.is_unclear_word word.now }
{
    let (letters, _) = split_at_digit(word);
    is_one_of(
        letters,
        &[
            "solder", "pad", "pads", "plane", "planes", "drill", "drills", "hole", "holes", "via",
            "vias", "slot", "slots", "route", "routing", "rout",
        ],
    )
}

/// Whether a word names copper: `cu`, one with `copper` in it, or that of an inner layer with its number.
pub(crate) fn names_copper(word: &[u8]) -> bool
    ensures { result ≡ says.names_copper word.now }
{
    has_part(word, &["copper"])
        || word == b"cu".as_slice()
        || number_suffix(
            &["in", "inner", "innerlayer", "l", "layer", "group", "signal"],
            word,
        )
        .is_some()
}

/// What follows the last slash of a name, with a space before each capital that follows a small letter, and `A` to `Z` in lower
/// case. Its runs are the words of the name.
///
/// # Errors
///
/// An `AllocError` where there is no memory.
pub fn lower_base_name(alloc: Global, name: &[u8]) -> Result<Vec<u8>, AllocError>
    ensures { IfOk result (λ lower. lower.items ≡ says.lower_base_name name.now) }
{
    let mut lower = Vec::new(alloc);
    let mut before: u8 = 0;
    for byte in base_name(name) {
        if before.is_ascii_lowercase() && byte.is_ascii_uppercase() {
            lower.push(b' ')?;
        }
        lower.push(byte.to_ascii_lowercase())?;
        before = *byte;
    }
    Ok(lower)
}
