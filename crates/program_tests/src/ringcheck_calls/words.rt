//! Words that no line of the worked cases can write, and what is read first.

use super::limits::SINGLE_FILES;
use super::*;
use std::test::Fail as Failure;

const NO_NAMES: [&str; 5] = ["a\tb.gbr", "a\u{7F}", "\n", "", "top\u{1F}"];

#[test]
fn words_that_name_no_file_are_told(rt: HostRuntime) {
    let refusal =
        "usage reason=BadManifest\n  a file name must not be empty, or contain a line end, a tab or another control character\n";
    for &word in &NO_NAMES {
        let words = ["manifest", "top.gbr", word];
        let mut shelf = Shelf::new(&[("top.gbr", LAYER)]);
        assert!(rt; prints(rt.alloc(), &mut shelf, &words, Status::Usage, refusal, ""));
    }
}

const HELP: [&[&str]; 3] = [
    &["--help", "check"],
    &["check", "--help"],
    &["help", "check"],
];

/// Whether a run passes and prints some text that is no refusal of its words.
fn gives_help(alloc: Global, words: &[&str]) -> bool {
    let mut to = streams(alloc);
    let status = run(alloc, words, &mut Shelf::new(&[]), &mut to);
    status == Status::Pass && !to.out.is_empty() && !to.out.as_slice().starts_with(b"usage\n")
}

#[test]
fn help_is_given(rt: HostRuntime) {
    for &words in &HELP {
        assert!(rt; gives_help(rt.alloc(), words), "{words:?}");
    }
}

const CODES: [(Status, u8); 5] = [
    (Status::Pass, 0),
    (Status::Findings, 1),
    (Status::Refused, 2),
    (Status::Usage, 3),
    (Status::Device, 4),
];

#[test]
fn each_status_has_its_number(rt: HostRuntime) {
    for &(status, code) in &CODES {
        assert!(rt; status.code() == code, "{code}");
    }
}

/// Appends a line, two spaces to the right.
pub(super) fn push_indented(text: &mut String, line: &str) -> Result<(), AllocError> {
    text.push_str("  ")?;
    text.push_str(line)?;
    text.push('\n')
}

/// The refusal of a layer without a format, and below it the page of its reason.
fn refusal_with_page(alloc: Global, page: &str) -> Result<String, AllocError> {
    let mut text = String::from_str(
        alloc,
        "refused file=1 place=1 byte=0 reason=NoFormat name=top\n",
    )?;
    for line in page.lines() {
        push_indented(&mut text, line)?;
    }
    Ok(text)
}

/// Whether a report on a layer without a format prints just this.
fn refuses_bare(alloc: Global, text: &str) -> bool {
    let files = &[("m.csv", MANIFEST), ("top.gbr", BARE), ("pth.drl", DRILL)];
    let mut shelf = Shelf::new(files);
    prints(alloc, &mut shelf, &REPORT_WORDS, Status::Refused, text, "")
}

/// A report's refusal has the page of its reason below.
#[test]
fn refusals_come_with_their_page(rt: HostRuntime) -> Result<(), Failure> {
    let page = ringcheck_files::explanation("NoFormat").ok_or("no page")?;
    let text = refusal_with_page(rt.alloc(), page)?;
    assert!(rt; refuses_bare(rt.alloc(), text.as_str()));
    Ok(())
}

const NO_PROFILES: [&str; 6] = ["", "Strict", "WIDE", "loose", "wide ", "strict,wide"];

/// Whether a check refuses the word of a profile, says just this beside its line, and loads no file.
fn refuses_profile(alloc: Global, word: &str, said: &str) -> bool {
    let mut shelf = Shelf::new(&[("m.csv", MANIFEST)]);
    let words = [
        "check",
        "--profile",
        word,
        "--ring",
        "x",
        "--gap",
        "0",
        "m.csv",
    ];
    let text = "usage reason=BadRole\n";
    prints(alloc, &mut shelf, &words, Status::Usage, text, said) && shelf.calls == 0
}

/// A line, and below it what is said where a word names no profile.
fn with_profile(alloc: Global, line: &str, word: &str) -> Result<String, AllocError> {
    format!(in alloc; "{line}  --profile must be strict or wide, not {word}\n")
}

#[test]
fn a_profile_is_read_before_the_rules(rt: HostRuntime) -> Result<(), Failure> {
    for &word in &NO_PROFILES {
        let said = with_profile(rt.alloc(), "", word)?;
        assert!(rt; refuses_profile(rt.alloc(), word, said.as_str()), "{word}");
    }
    Ok(())
}

/// Whether a table in the profile of a word, of a kind that there is not, prints just this as usage, and loads no file.
fn refuses_table(alloc: Global, word: &str, text: &str) -> bool {
    let mut shelf = Shelf::new(&[("top.gbr", LAYER)]);
    let words = ["show", "--kind", "via", "--profile", word, "top.gbr"];
    prints(alloc, &mut shelf, &words, Status::Usage, text, "") && shelf.calls == 0
}

#[test]
fn the_profile_of_a_table_is_read_before_its_kind(rt: HostRuntime) -> Result<(), Failure> {
    for &word in &NO_PROFILES {
        let text = with_profile(rt.alloc(), "usage reason=BadRole\n", word)?;
        assert!(rt; refuses_table(rt.alloc(), word, text.as_str()), "{word}");
    }
    assert!(rt; refuses_table(rt.alloc(), "wide", "usage reason=BadRole\n"));
    Ok(())
}

/// Whether a manifest in the profile of a word, of a name that no file may have, prints just this as usage, and loads no file.
fn refuses_manifest(alloc: Global, word: &str, text: &str) -> bool {
    let mut shelf = Shelf::new(&[("top.gbr", LAYER)]);
    let words = ["manifest", "--profile", word, "top.gbr", ""];
    prints(alloc, &mut shelf, &words, Status::Usage, text, "") && shelf.calls == 0
}

#[test]
fn the_profile_of_a_manifest_is_read_before_its_names(rt: HostRuntime) -> Result<(), Failure> {
    for &word in &NO_PROFILES {
        let text = with_profile(rt.alloc(), "usage reason=BadRole\n", word)?;
        assert!(rt; refuses_manifest(rt.alloc(), word, text.as_str()), "{word}");
    }
    let names =
        "usage reason=BadManifest\n  a file name must not be empty, or contain a line end, a tab or another control character\n";
    assert!(rt; refuses_manifest(rt.alloc(), "wide", names));
    Ok(())
}

/// A drill file that says of each tool whether its holes are plated.
const MERGED: &str =
    "M48\nMETRIC\n;TYPE=PLATED\nT1C0.4\n;TYPE=NON_PLATED\nT2C1.0\n%\nT1\nX0.0Y0.0\nT2\nX3.0Y0.0\nM30\n";

/// Words of which each asks for a manifest of a layer and a merged drill file, and what is printed.
const MANIFESTS: [(&[&str], &str); 5] = [
    (
        &["manifest", "top.gbr", "all.drl"],
        "role,name,file\ncopper,top.gbr,top.gbr\n?,all.drl,all.drl\n",
    ),
    (
        &["manifest", "--profile", "strict", "top.gbr", "all.drl"],
        "role,name,file\ncopper,top.gbr,top.gbr\n?,all.drl,all.drl\n",
    ),
    (
        &["manifest", "--profile", "wide", "all.drl", "top.gbr"],
        "role,name,file\ncopper,top.gbr,top.gbr\nmixed,all.drl,all.drl\n",
    ),
    (
        &["manifest", "--why", "--profile=wide", "all.drl"],
        "file,role,because\nall.drl,mixed,its comments say which holes are plated\n",
    ),
    (
        &["manifest", "--why", "all.drl"],
        "file,role,because\nall.drl,?,\"mixed: role mixed with --profile wide, or export two files\"\n",
    ),
];

#[test]
fn a_manifest_is_proposed_in_the_profile_that_is_named(rt: HostRuntime) {
    for &(words, text) in &MANIFESTS {
        let mut shelf = Shelf::new(&[("top.gbr", LAYER), ("all.drl", MERGED)]);
        assert!(rt;
            prints(rt.alloc(), &mut shelf, words, Status::Pass, text, ""),
            "{words:?}"
        );
    }
}

/// Whether a run asks once for its file, which is not there, and says so.
fn lacks_file(alloc: Global, words: &[&str]) -> bool {
    let mut shelf = Shelf::new(&[]);
    let said = "  cannot read file: file names are taken from the working directory\n";
    prints(alloc, &mut shelf, words, Status::Device, "device\n", said)
        && shelf.calls == 1
        && shelf.failures() == 1
}

#[test]
fn a_file_that_is_not_loaded_is_told(rt: HostRuntime) {
    for words in &SINGLE_FILES {
        assert!(rt; lacks_file(rt.alloc(), words), "{words:?}");
    }
}

#[test]
fn out_of_memory_changes_no_proposal(rt: HostRuntime) {
    let files = &[("top.gbr", LAYER), ("pth.drl", DRILL)];
    let mut to = streams(rt.alloc());
    let words = &["manifest", "top.gbr", "pth.drl"];
    let status = run(rt.alloc(), words, &mut Shelf::new(files), &mut to);
    let text = "role,name,file\ncopper,top.gbr,top.gbr\nplated,pth.drl,pth.drl\n";
    let is_text = status == Status::Pass && to.out.as_slice() == text.as_bytes();
    assert!(rt; is_text || status == Status::Device);
}
