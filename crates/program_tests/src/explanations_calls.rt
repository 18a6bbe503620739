//! Every word has a page that fits a screen.

use ringcheck_files::{explanation, words};

/// Whether a page begins with its word and a colon.
fn is_headed(page: &str, word: &str) -> bool {
    match page.split_once(": ") {
        Some((head, _)) => head == word,
        None => false,
    }
}

/// Whether a page has at most 12 lines of at most 78 printed characters, each ended.
fn fits(page: &str) -> bool {
    page.lines().count() <= 12
        && page.lines().all(|line| line.len() <= 78)
        && page
            .bytes()
            .all(|byte| byte == b'\n' || byte >= 32 && byte < 127)
        && page.ends_with("\n")
}

/// Whether a word has a page, which begins with it and fits.
fn has_page(word: &str) -> bool {
    match explanation(word) {
        Some(page) => is_headed(page, word) && fits(page),
        None => false,
    }
}

/// Whether a line of the list of words begins with a word that has a page, and a colon.
fn names_page(line: &str) -> bool {
    match line.split_once(": ") {
        Some((word, _)) => has_page(word),
        None => false,
    }
}

#[test]
fn each_word_has_a_page(rt: HostRuntime) {
    for line in words().lines() {
        assert!(rt; names_page(line), "{line}");
    }
}

#[test]
fn there_are_so_many_words(rt: HostRuntime) {
    assert!(rt; words().lines().count() == 48 + 18);
}

/// A word, and a setting that its page names.
const SETTINGS: [(&str, &str); 9] = [
    ("Routed", "use alternate drill mode"),
    ("ring", "minus 0.001 mm"),
    ("none", "keep pads on all layers"),
    ("none", "no flash lies in the hole"),
    ("BadManifest", "as in ringcheck manifest gerbers/*"),
    ("oblique", "OBLIQUE"),
    ("RING", "What to do"),
    ("GAP", "What to do"),
    ("OBLIQUE", "What to do"),
];

/// Whether a word has a page that names this setting.
fn names_setting(word: &str, setting: &str) -> bool {
    match explanation(word) {
        Some(page) => page.contains(setting),
        None => false,
    }
}

#[test]
fn pages_name_settings(rt: HostRuntime) {
    for &(word, setting) in &SETTINGS {
        assert!(rt; names_setting(word, setting), "{word}");
    }
}

const OTHER_WORDS: [&str; 7] = ["", "routed", "Routed ", "Routed:", "Ring", "gap", "pass"];

#[test]
fn other_words_have_none(rt: HostRuntime) {
    for &word in &OTHER_WORDS {
        assert!(rt; explanation(word).is_none(), "{word}");
    }
}
