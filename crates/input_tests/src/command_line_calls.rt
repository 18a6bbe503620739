//! What words of the command line ask for, and what is printed where they ask for nothing.

use command_line::*;
use std::alloc::AllocError;

/// Parts of a text.
type Parts = &'static [&'static str];

/// The words of a command line, with a space between any two.
fn words_of(rt: HostRuntime, line: &str) -> Result<Vec<&str>, AllocError> {
    line.split_whitespace().collect(rt.alloc())
}

/// Whether words ask for what is printed so.
fn words_ask(rt: HostRuntime, words: &[&str], request: &str) -> bool {
    let Ok(asked) = parse(rt.alloc(), words) else {
        return false;
    };
    let request_asked = asked.request;
    match format!(in rt.alloc(); "{request_asked:?}") {
        Ok(text) => text.as_str() == request,
        Err(_) => false,
    }
}

/// Whether the words of a line ask for what is printed so.
fn asks(rt: HostRuntime, line: &str, request: &str) -> bool {
    match words_of(rt, line) {
        Ok(words) => words_ask(rt, &words, request),
        Err(_) => false,
    }
}

/// What is printed where words ask for nothing.
#[derive(Clone, Copy)]
enum Answer<'a> {
    Usage,
    Version,
    /// Help with these parts.
    Help(&'a [&'a str]),
    /// Help that fits 24 lines of 79 columns, and whose usage begins with the program's name.
    Screen,
}

fn is_refusal(refusal: &Refusal, answer: Answer) -> bool {
    match (refusal, answer) {
        (Refusal::Usage(_), Answer::Usage) => true,
        (Refusal::Version, Answer::Version) => true,
        (Refusal::Help(text), Answer::Help(parts)) => has_parts(text.as_str(), parts),
        (Refusal::Help(text), Answer::Screen) => fits_a_screen(text.as_str()),
        _ => false,
    }
}

fn has_parts(text: &str, parts: &[&str]) -> bool {
    for part in parts {
        if !text.contains(*part) {
            return false;
        }
    }
    true
}

fn fits_a_screen(text: &str) -> bool {
    text.lines().count() <= 24
        && text.lines().all(|line| line.len() < 80)
        && text.contains("Usage: ringcheck ")
}

fn words_give(rt: HostRuntime, words: &[&str], answer: Answer) -> bool {
    match parse(rt.alloc(), words) {
        Ok(_) => false,
        Err(refusal) => is_refusal(&refusal, answer),
    }
}

/// Whether the words of a line are answered so.
fn gives(rt: HostRuntime, line: &str, answer: Answer) -> bool {
    match words_of(rt, line) {
        Ok(words) => words_give(rt, &words, answer),
        Err(_) => false,
    }
}

const CHECKS: [&str; 6] = [
    "check --ring 1 --gap 2 m.csv",
    "check --gap 2 --ring 1 m.csv",
    "check m.csv --gap 2 --ring 1",
    "check --ring 1 m.csv --gap 2",
    "check --gap=2 --ring=1 m.csv",
    "check --gap=2 --ring=1 -- m.csv",
];

#[test]
fn options_of_a_check_stand_in_any_order(rt: HostRuntime) {
    for &line in &CHECKS {
        let request =
            "Check { options: CheckWords { ring: \"1\", gap: \"2\", profile: None }, manifest: \"m.csv\" }";
        assert!(rt; asks(rt, line, request), "{line}");
    }
}

/// A value may begin with a minus after an equals sign; elsewhere it is refused (below).
#[test]
fn a_value_may_begin_with_a_minus(rt: HostRuntime) {
    let line = "check --ring=-1 --gap 2 m.csv";
    let request =
        "Check { options: CheckWords { ring: \"-1\", gap: \"2\", profile: None }, manifest: \"m.csv\" }";
    assert!(rt; asks(rt, line, request));
}

/// Words of a check with a profile, and the word for it: any is kept as it is.
const PROFILES: [(&str, &str); 11] = [
    ("check --ring 1 --gap 2 --profile strict m.csv", "strict"),
    ("check --ring 1 --gap 2 --profile wide m.csv", "wide"),
    ("check --ring 1 --gap 2 --profile=wide m.csv", "wide"),
    ("check --profile wide --ring 1 --gap 2 m.csv", "wide"),
    ("check m.csv --gap 2 --profile wide --ring 1", "wide"),
    ("check --ring=1 --gap=2 m.csv --profile=wide", "wide"),
    ("check --ring=1 --gap=2 --profile=wide -- m.csv", "wide"),
    ("check --ring 1 --gap 2 --profile WIDE m.csv", "WIDE"),
    ("check --ring 1 --gap 2 --profile loose m.csv", "loose"),
    ("check --ring 1 --gap 2 --profile=-wide m.csv", "-wide"),
    ("check --ring 1 --gap 2 --profile= m.csv", ""),
];

/// Whether the words of a line ask for a check in the profile of this word.
fn asks_in_profile(rt: HostRuntime, line: &str, profile: &str) -> bool {
    let asked = format!(in rt.alloc();
        "Check {{ options: CheckWords {{ ring: \"1\", gap: \"2\", profile: Some({profile:?}) }}, manifest: \"m.csv\" }}"
    );
    match asked {
        Ok(request) => asks(rt, line, request.as_str()),
        Err(_) => false,
    }
}

#[test]
fn a_profile_is_kept_as_it_is_written(rt: HostRuntime) {
    for &(line, profile) in &PROFILES {
        assert!(rt; asks_in_profile(rt, line, profile), "{line}");
    }
}

/// Words of a certificate and of its verification, and what they ask for.
const CERTIFICATES: [(&str, &str); 11] = [
    (
        "certify --ring 1 --gap 2 m.csv",
        "Certify { options: CheckWords { ring: \"1\", gap: \"2\", profile: None }, manifest: \"m.csv\" }",
    ),
    (
        "certify m.csv --gap 2 --ring 1",
        "Certify { options: CheckWords { ring: \"1\", gap: \"2\", profile: None }, manifest: \"m.csv\" }",
    ),
    (
        "certify --gap=2 --ring=-1 -- m.csv",
        "Certify { options: CheckWords { ring: \"-1\", gap: \"2\", profile: None }, manifest: \"m.csv\" }",
    ),
    (
        "certify --profile wide --ring 1 --gap 2 m.csv",
        "Certify { options: CheckWords { ring: \"1\", gap: \"2\", profile: Some(\"wide\") }, manifest: \"m.csv\" }",
    ),
    (
        "certify --ring=1 --gap=2 m.csv --profile=loose",
        "Certify { options: CheckWords { ring: \"1\", gap: \"2\", profile: Some(\"loose\") }, manifest: \"m.csv\" }",
    ),
    (
        "certify --ring 1 --gap 2 --in boards m.csv",
        "Certify { options: CheckWords { ring: \"1\", gap: \"2\", profile: None }, manifest: \"m.csv\" }",
    ),
    (
        "certify --ring= --gap 2 --profile= m.csv",
        "Certify { options: CheckWords { ring: \"\", gap: \"2\", profile: Some(\"\") }, manifest: \"m.csv\" }",
    ),
    ("verify c.json", "Verify { certificate: \"c.json\" }"),
    ("verify -- -c.json", "Verify { certificate: \"-c.json\" }"),
    (
        "verify --in boards c.json",
        "Verify { certificate: \"c.json\" }",
    ),
    (
        "verify c.json --in=boards",
        "Verify { certificate: \"c.json\" }",
    ),
];

#[test]
fn a_certificate_and_its_verification_are_asked_for(rt: HostRuntime) {
    for &(line, request) in &CERTIFICATES {
        assert!(rt; asks(rt, line, request), "{line}");
    }
}

/// Words, and what they ask for.
const FILES: [(&str, &str); 9] = [
    (
        "show --kind layer top.gbr",
        "Show { kind: \"layer\", profile: None, file: \"top.gbr\" }",
    ),
    (
        "show top.gbr --kind layer",
        "Show { kind: \"layer\", profile: None, file: \"top.gbr\" }",
    ),
    (
        "show --kind board x",
        "Show { kind: \"board\", profile: None, file: \"x\" }",
    ),
    (
        "show --kind layer --profile wide top.gbr",
        "Show { kind: \"layer\", profile: Some(\"wide\"), file: \"top.gbr\" }",
    ),
    (
        "show --profile=wide top.gbr --kind=drill",
        "Show { kind: \"drill\", profile: Some(\"wide\"), file: \"top.gbr\" }",
    ),
    (
        "show top.gbr --kind layer --profile loose",
        "Show { kind: \"layer\", profile: Some(\"loose\"), file: \"top.gbr\" }",
    ),
    (
        "show --kind layer --profile= -- top.gbr",
        "Show { kind: \"layer\", profile: Some(\"\"), file: \"top.gbr\" }",
    ),
    (
        "rewrite --kind drill pth.drl",
        "Rewrite { kind: \"drill\", file: \"pth.drl\" }",
    ),
    (
        "rewrite pth.drl --kind drill",
        "Rewrite { kind: \"drill\", file: \"pth.drl\" }",
    ),
];

/// Words, and the folder that they name.
const FOLDERS: [(&str, Option<&str>); 18] = [
    ("check --ring 1 --gap 2 m.csv", None),
    ("check --ring 1 --gap 2 --in boards m.csv", Some("boards")),
    ("check --in=/a/b/ --ring 1 --gap 2 m.csv", Some("/a/b/")),
    ("check m.csv --ring 1 --gap 2 --in=", Some("")),
    ("report --ring 1 --gap 2 m.csv --in boards", Some("boards")),
    ("measure --in boards m.csv", Some("boards")),
    ("draw m.csv --in boards --profile wide", Some("boards")),
    ("certify --ring 1 --gap 2 m.csv", None),
    ("certify --ring 1 --gap 2 --in boards m.csv", Some("boards")),
    ("verify c.json", None),
    ("verify --in boards c.json", Some("boards")),
    ("verify c.json --in=/a/b/", Some("/a/b/")),
    ("verify c.json --in=", Some("")),
    ("show --kind layer --in boards top.gbr", Some("boards")),
    ("rewrite --kind drill --in boards pth.drl", Some("boards")),
    ("manifest --in boards top.gbr pth.drl", Some("boards")),
    ("manifest top.gbr --why pth.drl --in=boards", Some("boards")),
    ("explain Routed", None),
];

/// Whether the words of a line name this folder.
fn names_folder(rt: HostRuntime, line: &str, folder: Option<&str>) -> bool {
    match words_of(rt, line) {
        Ok(words) => match parse(rt.alloc(), &words) {
            Ok(asked) => asked.folder == folder,
            Err(_) => false,
        },
        Err(_) => false,
    }
}

#[test]
fn a_folder_is_kept_as_it_is_written(rt: HostRuntime) {
    for &(line, folder) in &FOLDERS {
        assert!(rt; names_folder(rt, line, folder), "{line}");
    }
}

#[test]
fn a_table_and_a_canonical_text_are_asked_for(rt: HostRuntime) {
    for &(line, request) in &FILES {
        assert!(rt; asks(rt, line, request), "{line}");
    }
}

const REFUSED: [&str; 92] = [
    "check --ring -1 --gap 2 m.csv",
    // a folder is named once, with its value, and not of explain
    "check --ring=1 --gap=2 m.csv --in",
    "check --ring=1 --gap=2 --in a --in b m.csv",
    "manifest --in boards",
    "explain --in boards Routed",
    // other words
    "",
    "Check --ring 1 --gap 2 m.csv",
    "--ring 1 --gap 2 m.csv",
    "show top.gbr",
    "rewrite --kind layer",
    "plot top.gbr",
    "manifest",
    "manifest --why",
    "manifest --why --why top.gbr",
    "manifest --fast top.gbr",
    "explain Routed ring",
    "check --version",
    // a check with other words
    "check",
    "check --ring 1 m.csv",
    "check --gap 2 m.csv",
    "check --ring 1 --gap 2",
    "check --ring=1 --ring=1 --gap=2 m.csv",
    "check --ring=1 --gap=2 m.csv n.csv",
    "check --ring=1 --gap=2 --fast m.csv",
    // a profile is named once, with its value, and not of every command
    "check --ring=1 --gap=2 m.csv --profile",
    "check --ring=1 --gap=2 --profile m.csv",
    "check --ring=1 --gap=2 --profile -wide m.csv",
    "check --ring=1 --gap=2 --profile wide --profile wide m.csv",
    "check --profile=strict --ring=1 --gap=2 --profile=wide m.csv",
    "check --profile wide m.csv",
    "report --profile wide --profile wide --ring=1 --gap=2 m.csv",
    "measure m.csv --profile",
    "measure --profile m.csv",
    "measure --profile wide --profile wide m.csv",
    "draw --profile wide --profile wide m.csv",
    "manifest top.gbr --profile",
    "manifest --profile wide",
    "manifest --profile wide --profile wide top.gbr",
    "manifest --profile --why top.gbr",
    "show --kind layer top.gbr --profile",
    "show --kind layer --profile top.gbr",
    "show --kind layer --profile wide --profile wide top.gbr",
    "show --profile wide top.gbr",
    "rewrite --profile wide --kind layer top.gbr",
    // measures, reports and pictures with other words
    "measure",
    "measure m.csv n.csv",
    "measure --ring 1 m.csv",
    "measure --max 2 m.csv",
    "report m.csv",
    "report --ring 1 m.csv",
    "report --ring=1 --gap=2 --max m.csv",
    "draw",
    "draw --max 2 m.csv",
    "draw --outline edge.gbr",
    "draw --outline=edge.gbr --outline=edge.gbr m.csv",
    "report --ring=1 --gap=2 --outline m.csv",
    "measure --outline=edge.gbr m.csv",
    // a certificate and its verification with other words
    "certify",
    "certify m.csv",
    "certify --ring 1 m.csv",
    "certify --gap 2 m.csv",
    "certify --ring 1 --gap 2",
    "certify --ring -1 --gap 2 m.csv",
    "certify --ring=1 --ring=1 --gap=2 m.csv",
    "certify --ring=1 --gap=2 m.csv n.csv",
    "certify --ring=1 --gap=2 m.csv --profile",
    "certify --profile wide --profile wide --ring=1 --gap=2 m.csv",
    "certify --ring=1 --gap=2 --in a --in b m.csv",
    "certify --waive=w.csv --ring=1 --gap=2 m.csv",
    "certify --exit-zero --ring=1 --gap=2 m.csv",
    "Certify --ring 1 --gap 2 m.csv",
    "verify",
    "verify --in boards",
    "verify c.json --in",
    "verify --in a --in b c.json",
    "verify c.json d.json",
    "verify -c.json",
    "verify --ring 1 --gap 2 c.json",
    "verify --profile wide c.json",
    // a format is named once, and of two commands
    "measure m.csv --format",
    "measure --format json",
    "measure --format json --format json m.csv",
    "report --ring=1 --gap=2 m.csv --format",
    "report --format=text --ring=1 --gap=2 --format=json m.csv",
    "check --format=json --ring=1 --gap=2 m.csv",
    "draw --format json m.csv",
    // the status 0 for findings is asked for once, without a value, and of a report alone
    "report --exit-zero --exit-zero --ring=1 --gap=2 m.csv",
    "report --exit-zero=true --ring=1 --gap=2 m.csv",
    "report --exit-zero m.csv",
    "check --exit-zero --ring=1 --gap=2 m.csv",
    "measure --exit-zero m.csv",
    "draw --exit-zero m.csv",
];

#[test]
fn other_words_are_refused(rt: HostRuntime) {
    for &line in &REFUSED {
        assert!(rt; gives(rt, line, Answer::Usage), "{line}");
    }
}

/// The commands and their options that help names.
const COMMANDS: [&str; 12] = [
    "check",
    "report",
    "measure",
    "draw",
    "certify",
    "verify",
    "manifest",
    "explain",
    "show",
    "rewrite",
    "help",
    "--version",
];

/// The values of a check.
const VALUES: [&str; 8] = [
    "--ring <MM>",
    "--gap <MM>",
    "[--profile <strict|wide>]",
    "--profile <NAME>  strict (default): ",
    "--in <FOLDER>     Folder that file names are relative to",
    "<MANIFEST>",
    "in mm",
    "role,name,file",
];

/// Words that ask for help, and parts of it.
const HELP: [(&str, Parts); 12] = [
    ("--help", &COMMANDS),
    ("-h", &COMMANDS),
    ("help", &COMMANDS),
    ("check --help", &VALUES),
    ("help check", &VALUES),
    (
        "show --help",
        &[
            "ringcheck show --kind <layer|drill> [--profile <strict|wide>]\n",
            " [--in <FOLDER>] <FILE>\n",
            "--kind <layer|drill>  ",
            "--profile <NAME>      strict (default): ",
        ],
    ),
    ("rewrite -h", &["--kind <layer|drill>", "<FILE>"]),
    (
        "measure --help",
        &[
            "ringcheck measure [--profile <strict|wide>] [--format <text|json>]\n",
            " [--in <FOLDER>] <MANIFEST>",
            "--profile <NAME>      strict (default): ",
            "--format <text|json>  text for people, or json, one JSON object\n",
            "Example:  ringcheck measure ",
        ],
    ),
    (
        "report --help",
        &[
            "ringcheck report --ring <MM> --gap <MM> [OPTIONS] <MANIFEST>\n",
            "Explain each finding: how far below the rule, and why",
            "--ring <MM>        Minimum annular ring in mm, e.g. 0.125\n",
            "--gap <MM>         Minimum distance between hole edges, in mm, e.g. 0.25\n",
            "--drill-off <MM>   How far a hole may be drilled off its place, in mm\n",
            "--drill-wide <MM>  How much wider in radius, in mm: give both, or neither\n",
            "--max <N>          Show at most N findings (default: all)\n",
            "--waive <FILE>     File of waivers: the findings that are accepted\n",
            "--outline <FILE>   Gerber file of the board outline, for --format html\n",
            "--format <NAME>    text (default), for people; html, a page for browsers;\n",
            "--exit-zero        Exit with status 0 even if there are findings\n",
            "--in <FOLDER>      Folder that file names are relative to\n",
        ],
    ),
    (
        "draw --help",
        &[
            "ringcheck draw [--ring <MM> --gap <MM>] [--profile <strict|wide>]",
            "--outline <FILE>  Gerber file of the board outline, drawn as a thin line\n",
            "Draw a package as an SVG picture",
        ],
    ),
    (
        "certify --help",
        &[
            "Check a package, and print a certificate if it passes",
            "ringcheck certify --ring <MM> --gap <MM> [--profile <strict|wide>]\n",
            " [--in <FOLDER>] <MANIFEST>\n",
            "--ring <MM>       Minimum annular ring in mm, e.g. 0.125\n",
            "--profile <NAME>  strict (default): ",
            "Example:  ringcheck certify ",
        ],
    ),
    (
        "verify --help",
        &[
            "Check that a certificate still holds for its package",
            "ringcheck verify [--in <FOLDER>] <CERTIFICATE>\n",
            "<CERTIFICATE>  Certificate of the package, as certify prints it\n",
            "--in <FOLDER>  Folder that file names are relative to\n",
            "NOT CERTIFIED",
            "Example:  ringcheck verify ",
        ],
    ),
];

#[test]
fn help_names_commands_and_options(rt: HostRuntime) {
    for &(line, parts) in &HELP {
        assert!(rt; gives(rt, line, Answer::Help(parts)), "{line}");
    }
}

const PAGES: [&str; 11] = [
    "--help",
    "check --help",
    "report --help",
    "measure --help",
    "draw --help",
    "certify --help",
    "verify --help",
    "manifest --help",
    "explain --help",
    "show --help",
    "rewrite --help",
];

#[test]
fn help_fits_a_screen(rt: HostRuntime) {
    for &line in &PAGES {
        assert!(rt; gives(rt, line, Answer::Screen), "{line}");
    }
}

const MANIFESTS: [(&str, &str); 10] = [
    (
        "manifest top.gbr pth.drl",
        "Manifest { why: false, profile: None, files: [\"top.gbr\", \"pth.drl\"] }",
    ),
    (
        "manifest --why top.gbr pth.drl",
        "Manifest { why: true, profile: None, files: [\"top.gbr\", \"pth.drl\"] }",
    ),
    (
        "manifest top.gbr --why pth.drl",
        "Manifest { why: true, profile: None, files: [\"top.gbr\", \"pth.drl\"] }",
    ),
    (
        "manifest top.gbr pth.drl --why",
        "Manifest { why: true, profile: None, files: [\"top.gbr\", \"pth.drl\"] }",
    ),
    // with a profile, which may be any word
    (
        "manifest --profile wide top.gbr pth.drl",
        "Manifest { why: false, profile: Some(\"wide\"), files: [\"top.gbr\", \"pth.drl\"] }",
    ),
    (
        "manifest --why --profile wide top.gbr",
        "Manifest { why: true, profile: Some(\"wide\"), files: [\"top.gbr\"] }",
    ),
    (
        "manifest --profile strict --why top.gbr",
        "Manifest { why: true, profile: Some(\"strict\"), files: [\"top.gbr\"] }",
    ),
    (
        "manifest top.gbr --profile=wide pth.drl",
        "Manifest { why: false, profile: Some(\"wide\"), files: [\"top.gbr\", \"pth.drl\"] }",
    ),
    (
        "manifest --profile loose top.gbr",
        "Manifest { why: false, profile: Some(\"loose\"), files: [\"top.gbr\"] }",
    ),
    (
        "manifest --profile= top.gbr",
        "Manifest { why: false, profile: Some(\"\"), files: [\"top.gbr\"] }",
    ),
];

#[test]
fn a_manifest_is_asked_for(rt: HostRuntime) {
    for &(line, request) in &MANIFESTS {
        assert!(rt; asks(rt, line, request), "{line}");
    }
}

const MEASURES: [(&str, &str); 11] = [
    (
        "measure m.csv",
        "Measure { profile: None, format: None, manifest: \"m.csv\" }",
    ),
    (
        "measure --format json m.csv",
        "Measure { profile: None, format: Some(\"json\"), manifest: \"m.csv\" }",
    ),
    (
        "measure m.csv --format json",
        "Measure { profile: None, format: Some(\"json\"), manifest: \"m.csv\" }",
    ),
    (
        "measure --format=json m.csv",
        "Measure { profile: None, format: Some(\"json\"), manifest: \"m.csv\" }",
    ),
    (
        "measure --format=json -- m.csv",
        "Measure { profile: None, format: Some(\"json\"), manifest: \"m.csv\" }",
    ),
    (
        "measure --format xml m.csv",
        "Measure { profile: None, format: Some(\"xml\"), manifest: \"m.csv\" }",
    ),
    (
        "measure --format= m.csv",
        "Measure { profile: None, format: Some(\"\"), manifest: \"m.csv\" }",
    ),
    // in a profile, which is kept as it is written
    (
        "measure --profile wide m.csv",
        "Measure { profile: Some(\"wide\"), format: None, manifest: \"m.csv\" }",
    ),
    (
        "measure m.csv --format json --profile=strict",
        "Measure { profile: Some(\"strict\"), format: Some(\"json\"), manifest: \"m.csv\" }",
    ),
    (
        "measure --profile loose m.csv",
        "Measure { profile: Some(\"loose\"), format: None, manifest: \"m.csv\" }",
    ),
    (
        "measure --profile= m.csv",
        "Measure { profile: Some(\"\"), format: None, manifest: \"m.csv\" }",
    ),
];

#[test]
fn a_measure_is_asked_for(rt: HostRuntime) {
    for &(line, request) in &MEASURES {
        assert!(rt; asks(rt, line, request), "{line}");
    }
}

const REPORTS: [(&str, &str); 18] = [
    (
        "report --ring 1 --gap 2 m.csv",
        "Report { options: ReportWords { ring: \"1\", gap: \"2\", drill_off: None, drill_wide: None, profile: None, limit: None, waive: None, outline: None, format: None, exit_zero: false }, manifest: \"m.csv\" }",
    ),
    (
        "report --ring 1 --gap 2 --max 2 m.csv",
        "Report { options: ReportWords { ring: \"1\", gap: \"2\", drill_off: None, drill_wide: None, profile: None, limit: Some(\"2\"), waive: None, outline: None, format: None, exit_zero: false }, manifest: \"m.csv\" }",
    ),
    (
        "report --max 2 m.csv --gap 2 --ring 1",
        "Report { options: ReportWords { ring: \"1\", gap: \"2\", drill_off: None, drill_wide: None, profile: None, limit: Some(\"2\"), waive: None, outline: None, format: None, exit_zero: false }, manifest: \"m.csv\" }",
    ),
    // in a format
    (
        "report --ring 1 --gap 2 --format json m.csv",
        "Report { options: ReportWords { ring: \"1\", gap: \"2\", drill_off: None, drill_wide: None, profile: None, limit: None, waive: None, outline: None, format: Some(\"json\"), exit_zero: false }, manifest: \"m.csv\" }",
    ),
    (
        "report --ring 1 --gap 2 --max 2 --format json m.csv",
        "Report { options: ReportWords { ring: \"1\", gap: \"2\", drill_off: None, drill_wide: None, profile: None, limit: Some(\"2\"), waive: None, outline: None, format: Some(\"json\"), exit_zero: false }, manifest: \"m.csv\" }",
    ),
    (
        "report --format=json m.csv --gap 2 --max=2 --ring 1",
        "Report { options: ReportWords { ring: \"1\", gap: \"2\", drill_off: None, drill_wide: None, profile: None, limit: Some(\"2\"), waive: None, outline: None, format: Some(\"json\"), exit_zero: false }, manifest: \"m.csv\" }",
    ),
    (
        "report m.csv --gap 2 --ring 1 --format text",
        "Report { options: ReportWords { ring: \"1\", gap: \"2\", drill_off: None, drill_wide: None, profile: None, limit: None, waive: None, outline: None, format: Some(\"text\"), exit_zero: false }, manifest: \"m.csv\" }",
    ),
    // with waivers
    (
        "report --ring 1 --gap 2 --waive w.csv m.csv",
        "Report { options: ReportWords { ring: \"1\", gap: \"2\", drill_off: None, drill_wide: None, profile: None, limit: None, waive: Some(\"w.csv\"), outline: None, format: None, exit_zero: false }, manifest: \"m.csv\" }",
    ),
    (
        "report --ring 1 --gap 2 --max 2 --waive w.csv --format json m.csv",
        "Report { options: ReportWords { ring: \"1\", gap: \"2\", drill_off: None, drill_wide: None, profile: None, limit: Some(\"2\"), waive: Some(\"w.csv\"), outline: None, format: Some(\"json\"), exit_zero: false }, manifest: \"m.csv\" }",
    ),
    (
        "report m.csv --format=waivers --waive=w.csv --gap 2 --ring 1",
        "Report { options: ReportWords { ring: \"1\", gap: \"2\", drill_off: None, drill_wide: None, profile: None, limit: None, waive: Some(\"w.csv\"), outline: None, format: Some(\"waivers\"), exit_zero: false }, manifest: \"m.csv\" }",
    ),
    // with an outline
    (
        "report --outline edge.gbr --format html --ring 1 --gap 2 m.csv",
        "Report { options: ReportWords { ring: \"1\", gap: \"2\", drill_off: None, drill_wide: None, profile: None, limit: None, waive: None, outline: Some(\"edge.gbr\"), format: Some(\"html\"), exit_zero: false }, manifest: \"m.csv\" }",
    ),
    // in a profile
    (
        "report --profile wide --ring 1 --gap 2 m.csv",
        "Report { options: ReportWords { ring: \"1\", gap: \"2\", drill_off: None, drill_wide: None, profile: Some(\"wide\"), limit: None, waive: None, outline: None, format: None, exit_zero: false }, manifest: \"m.csv\" }",
    ),
    (
        "report m.csv --gap=2 --ring=1 --max=2 --profile=strict",
        "Report { options: ReportWords { ring: \"1\", gap: \"2\", drill_off: None, drill_wide: None, profile: Some(\"strict\"), limit: Some(\"2\"), waive: None, outline: None, format: None, exit_zero: false }, manifest: \"m.csv\" }",
    ),
    // with what drilling leaves of the rules, or with one half of that
    (
        "report --ring 1 --gap 2 --drill-off 3 --drill-wide 4 m.csv",
        "Report { options: ReportWords { ring: \"1\", gap: \"2\", drill_off: Some(\"3\"), drill_wide: Some(\"4\"), profile: None, limit: None, waive: None, outline: None, format: None, exit_zero: false }, manifest: \"m.csv\" }",
    ),
    (
        "report m.csv --drill-wide=4 --gap 2 --ring 1",
        "Report { options: ReportWords { ring: \"1\", gap: \"2\", drill_off: None, drill_wide: Some(\"4\"), profile: None, limit: None, waive: None, outline: None, format: None, exit_zero: false }, manifest: \"m.csv\" }",
    ),
    // with the status 0 for findings too
    (
        "report --exit-zero --ring 1 --gap 2 m.csv",
        "Report { options: ReportWords { ring: \"1\", gap: \"2\", drill_off: None, drill_wide: None, profile: None, limit: None, waive: None, outline: None, format: None, exit_zero: true }, manifest: \"m.csv\" }",
    ),
    (
        "report m.csv --max=2 --exit-zero --gap 2 --profile wide --ring 1",
        "Report { options: ReportWords { ring: \"1\", gap: \"2\", drill_off: None, drill_wide: None, profile: Some(\"wide\"), limit: Some(\"2\"), waive: None, outline: None, format: None, exit_zero: true }, manifest: \"m.csv\" }",
    ),
    (
        "report --ring 1 --gap 2 --format json m.csv --exit-zero",
        "Report { options: ReportWords { ring: \"1\", gap: \"2\", drill_off: None, drill_wide: None, profile: None, limit: None, waive: None, outline: None, format: Some(\"json\"), exit_zero: true }, manifest: \"m.csv\" }",
    ),
];

#[test]
fn a_report_is_asked_for(rt: HostRuntime) {
    for &(line, request) in &REPORTS {
        assert!(rt; asks(rt, line, request), "{line}");
    }
}

const PICTURES: [(&str, &str); 7] = [
    (
        "draw m.csv",
        "Draw { options: PictureWords { ring: None, gap: None, profile: None, outline: None }, manifest: \"m.csv\" }",
    ),
    (
        "draw --ring 1 --gap 2 m.csv",
        "Draw { options: PictureWords { ring: Some(\"1\"), gap: Some(\"2\"), profile: None, outline: None }, manifest: \"m.csv\" }",
    ),
    (
        "draw --ring 1 m.csv",
        "Draw { options: PictureWords { ring: Some(\"1\"), gap: None, profile: None, outline: None }, manifest: \"m.csv\" }",
    ),
    (
        "draw --outline edge.gbr m.csv",
        "Draw { options: PictureWords { ring: None, gap: None, profile: None, outline: Some(\"edge.gbr\") }, manifest: \"m.csv\" }",
    ),
    (
        "draw m.csv --gap 2 --outline=edge.gbr --ring 1",
        "Draw { options: PictureWords { ring: Some(\"1\"), gap: Some(\"2\"), profile: None, outline: Some(\"edge.gbr\") }, manifest: \"m.csv\" }",
    ),
    (
        "draw --profile wide m.csv",
        "Draw { options: PictureWords { ring: None, gap: None, profile: Some(\"wide\"), outline: None }, manifest: \"m.csv\" }",
    ),
    (
        "draw m.csv --gap 2 --profile=loose --ring 1",
        "Draw { options: PictureWords { ring: Some(\"1\"), gap: Some(\"2\"), profile: Some(\"loose\"), outline: None }, manifest: \"m.csv\" }",
    ),
];

#[test]
fn a_picture_is_asked_for(rt: HostRuntime) {
    for &(line, request) in &PICTURES {
        assert!(rt; asks(rt, line, request), "{line}");
    }
}

const EXPLAINED: [(&str, &str); 2] = [
    ("explain Routed", "Explain { word: Some(\"Routed\") }"),
    ("explain", "Explain { word: None }"),
];

#[test]
fn an_explanation_is_asked_for(rt: HostRuntime) {
    for &(line, request) in &EXPLAINED {
        assert!(rt; asks(rt, line, request), "{line}");
    }
}

#[test]
fn the_version_is_asked_for(rt: HostRuntime) {
    for &word in &["--version", "-V"] {
        assert!(rt; gives(rt, word, Answer::Version), "{word}");
    }
}

#[test]
fn the_line_of_the_version_has_it(rt: HostRuntime) {
    assert!(rt; VERSION_LINE.starts_with("ringcheck ") && VERSION_LINE.contains(VERSION));
}
