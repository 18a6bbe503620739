//! The command line of the program.
//!
//! ```text
//! ringcheck check --ring MM --gap MM [--profile strict|wide] [--in FOLDER] MANIFEST
//! ringcheck report --ring MM --gap MM [--drill-off MM --drill-wide MM] [--profile strict|wide] [--max N] [--waive FILE] [--outline FILE] [--format text|html|json|waivers] [--exit-zero] [--in FOLDER] MANIFEST
//! ringcheck measure [--profile strict|wide] [--format text|json] [--in FOLDER] MANIFEST
//! ringcheck draw [--ring MM --gap MM] [--profile strict|wide] [--outline FILE] [--in FOLDER] MANIFEST
//! ringcheck certify --ring MM --gap MM [--profile strict|wide] [--in FOLDER] MANIFEST
//! ringcheck verify [--in FOLDER] CERTIFICATE
//! ringcheck manifest [--why] [--profile strict|wide] [--in FOLDER] FILE..
//! ringcheck explain [WORD]
//! ringcheck show --kind layer|drill [--profile strict|wide] [--in FOLDER] FILE
//! ringcheck rewrite --kind layer|drill [--in FOLDER] FILE
//! ```
#![tactic(auto)]

ghost use Rattle.std.specs.Prelude.{◌≡◌, ◌∷◌, [], Bool, IfOk, IfSome, Some, None, List, Option, true, codes, length, map, option_map, string_bytes};
ghost use Rattle.std.specs.List.{list_any};
ghost use Rattle.clap.specs.Words.{Row, Text, first_of, found_of, kind_of, one_of, rows_of, subcommand_rows_of};
ghost use Rattle.command_line.specs.ProgramArgs.{ParsesAs, ParsesLine, ParsesAsVersion, IsLineOf, IsRequestOf, IsCertify, IsCheck, IsDraw, IsExplain, IsManifest, IsMeasure, IsReport, IsRewrite, IsShow, IsVerify, IsFlagValue, AreOptionsOf, are_plain_rules, are_plain_words, certify_words, check_words, draw_words, explain_words, is_plain_if_some, is_plain_word, manifest_words, measure_words, report_words, rewrite_words, show_words, verify_words};
ghost use Rattle.command_line.specs.RefusalTexts as texts;
ghost use Rattle.command_line.specs.RefusalTexts.{EndsUsageWith, EndsWith, TellsFault};
ghost use Rattle.command_line.specs.Inner.RequestSteps.{IsRefusalFor};

mod commands;

use clap::error::ErrorKind;
use clap::{ArgMatches, Error};
pub use commands::{PROGRAM, VERSION, VERSION_LINE};
use std::alloc::{AllocError, Global};

/// The words of the options of a check, as they stand.
#[derive(Clone, Copy, Debug)]
pub struct CheckWords<'a> {
    /// The ring in mm.
    pub ring: &'a str,
    /// The gap in mm.
    pub gap: &'a str,
    /// The word for the profile that the files are read in, where one is given: it may be any word, though only `strict` and `wide`
    /// name a profile.
    pub profile: Option<&'a str>,
}

/// The words of the options of a report, as they stand.
#[derive(Clone, Copy, Debug)]
pub struct ReportWords<'a> {
    /// The ring in mm.
    pub ring: &'a str,
    /// The gap in mm.
    pub gap: &'a str,
    /// How far in mm a hole may be drilled off its place, where it is given. It may be there without the other.
    pub drill_off: Option<&'a str>,
    /// How much wider in radius, in mm, a hole may be drilled, where it is given. It may be there without the other.
    pub drill_wide: Option<&'a str>,
    /// The word for the profile that the files are read in, where one is given.
    pub profile: Option<&'a str>,
    /// The most findings to show; without it all of them are shown.
    pub limit: Option<&'a str>,
    /// The name of a file of waivers, where one is given.
    pub waive: Option<&'a str>,
    /// The name of a file with the board's edge, where one is given.
    pub outline: Option<&'a str>,
    /// The word for a format, where one is given.
    pub format: Option<&'a str>,
    /// Whether the exit status is to be 0 wherever a verdict is printed, findings or not.
    pub exit_zero: bool,
}

/// The words of the options of a picture, as they stand.
#[derive(Clone, Copy, Debug)]
pub struct PictureWords<'a> {
    /// The ring in mm. It may be there without the gap.
    pub ring: Option<&'a str>,
    /// The gap in mm. It may be there without the ring.
    pub gap: Option<&'a str>,
    /// The word for the profile that the files are read in, where one is given.
    pub profile: Option<&'a str>,
    /// The name of a file with the board's edge, where one is given.
    pub outline: Option<&'a str>,
}

/// What the words ask for. The texts are words of the command line as they stand; no number in them has been read yet.
#[derive(Debug, Drop)]
pub enum Request<'a> {
    /// Check the package of a manifest.
    Check {
        options: CheckWords<'a>,
        manifest: &'a str,
    },
    /// Check the package of a manifest, and print a certificate of it where it passes.
    Certify {
        options: CheckWords<'a>,
        manifest: &'a str,
    },
    /// Check the package of a certificate again, and compare its files. `certificate` is the name of a file.
    Verify {
        certificate: &'a str,
    },
    /// Print the greatest ring and gap that the package of a manifest meets. `profile` is the word for the profile that the files
    /// are read in, and `format` that for a format, where they are given.
    Measure {
        profile: Option<&'a str>,
        format: Option<&'a str>,
        manifest: &'a str,
    },
    /// Print each finding under the ring and the gap, by how much it lacks, and why.
    Report {
        options: ReportWords<'a>,
        manifest: &'a str,
    },
    /// Draw the package of a manifest, with the findings under a ring and a gap where they are given.
    Draw {
        options: PictureWords<'a>,
        manifest: &'a str,
    },
    /// Print the table of a file, read as a layer or as a drill file. `profile` is the word for the profile that it is read in, where one
    /// is given.
    Show {
        kind: &'a str,
        profile: Option<&'a str>,
        file: &'a str,
    },
    /// Print the canonical text of a file, read as a layer or as a drill file.
    Rewrite {
        kind: &'a str,
        file: &'a str,
    },
    /// Print a manifest of files, or the table of what each of them is, and why. `profile` is the word for the profile that the manifest is
    /// for, where one is given.
    Manifest {
        why: bool,
        profile: Option<&'a str>,
        files: Vec<&'a str>,
    },
    /// Print the page of a word, or the list of the words that have one.
    Explain {
        word: Option<&'a str>,
    },
}

/// What a line asks for, and where its files are.
#[derive(Drop)]
pub struct CommandLine<'a> {
    /// The folder from which the names of files are taken, on the line and in a manifest, where one is given.
    pub folder: Option<&'a str>,
    pub request: Request<'a>,
}

/// Why the words ask for nothing that can be done, with the text for the user.
#[derive(Drop)]
pub enum Refusal {
    /// Help was asked for.
    Help(String),
    /// The version was asked for.
    Version,
    /// The words are no command of the program.
    Usage(String),
    /// Memory ran out.
    Memory,
}

/// What the words of a line ask for, without the program's name. The options of a command may stand in any order, before and
/// after its file, as `--ring MM` or `--ring=MM`.
///
/// # Errors
///
/// [`Refusal::Help`] where help is asked for, [`Refusal::Version`] where the version is, and [`Refusal::Memory`] where memory
/// runs out. [`Refusal::Usage`] where the words are no command of the program; its text is the help where there are none.
// It is not inlined: clap's values would otherwise lie in the frame of a caller for as long as that runs.
#[inline(never)]
pub fn parse<'a>(alloc: Global, words: &'a [&'a str]) -> Result<CommandLine<'a>, Refusal>
    ensures exact { ParsesLine (map (λ w. w.now) words.entry.now) result }
    ensures check { (r g : Text) (profile folder : Option Text) (m : Text) → map (λ w. w.now) words.entry.now ≡ check_words r g profile folder m → is_plain_word r ≡ true
        → is_plain_word g ≡ true → is_plain_if_some profile ≡ true → is_plain_if_some folder ≡ true → is_plain_word m ≡ true → ParsesAs folder (IsCheck r g profile m) result }
    ensures certify { (r g : Text) (profile folder : Option Text) (m : Text) → map (λ w. w.now) words.entry.now ≡ certify_words r g profile folder m → is_plain_word r ≡ true
        → is_plain_word g ≡ true → is_plain_if_some profile ≡ true → is_plain_if_some folder ≡ true → is_plain_word m ≡ true → ParsesAs folder (IsCertify r g profile m) result }
    ensures verify { (folder : Option Text) (c : Text) → map (λ w. w.now) words.entry.now ≡ verify_words folder c → is_plain_if_some folder ≡ true → is_plain_word c ≡ true
        → ParsesAs folder (IsVerify c) result }
    ensures measure { (profile format folder : Option Text) (m : Text) → map (λ w. w.now) words.entry.now ≡ measure_words profile format folder m → is_plain_if_some profile ≡ true
        → is_plain_if_some format ≡ true → is_plain_if_some folder ≡ true → is_plain_word m ≡ true → ParsesAs folder (IsMeasure profile format m) result }
    ensures report { (exit_zero : Bool) (r g : Text) (off wide profile limit waive outline format folder : Option Text) (m : Text)
        → map (λ w. w.now) words.entry.now ≡ report_words exit_zero r g off wide profile limit waive outline format folder m
        → is_plain_word r ≡ true → is_plain_word g ≡ true → is_plain_if_some off ≡ true → is_plain_if_some wide ≡ true → is_plain_if_some profile ≡ true → is_plain_if_some limit ≡ true → is_plain_if_some waive ≡ true → is_plain_if_some outline ≡ true
        → is_plain_if_some format ≡ true → is_plain_if_some folder ≡ true → is_plain_word m ≡ true → ParsesAs folder (IsReport exit_zero r g off wide profile limit waive outline format m) result }
    ensures draw { (rules : Option (Text × Text)) (profile outline folder : Option Text) (m : Text) → map (λ w. w.now) words.entry.now ≡ draw_words rules profile outline folder m
        → are_plain_rules rules ≡ true → is_plain_if_some profile ≡ true → is_plain_if_some outline ≡ true → is_plain_if_some folder ≡ true → is_plain_word m ≡ true → ParsesAs folder (IsDraw rules profile outline m) result }
    ensures show { (k : Text) (profile folder : Option Text) (f : Text) → map (λ w. w.now) words.entry.now ≡ show_words k profile folder f → is_plain_word k ≡ true
        → is_plain_if_some profile ≡ true → is_plain_if_some folder ≡ true → is_plain_word f ≡ true → ParsesAs folder (IsShow k profile f) result }
    ensures rewrite { (k : Text) (folder : Option Text) (f : Text) → map (λ w. w.now) words.entry.now ≡ rewrite_words k folder f → is_plain_word k ≡ true
        → is_plain_if_some folder ≡ true → is_plain_word f ≡ true → ParsesAs folder (IsRewrite k f) result }
    ensures manifest { (why : Bool) (profile folder : Option Text) (fs : List Text) → map (λ w. w.now) words.entry.now ≡ manifest_words why profile folder fs → is_plain_if_some profile ≡ true
        → is_plain_if_some folder ≡ true → are_plain_words fs ≡ true → ParsesAs folder (IsManifest why profile fs) result }
    ensures list { map (λ w. w.now) words.entry.now ≡ explain_words None → ParsesAs None (IsExplain None) result }
    ensures explain { (w : Text) → map (λ w. w.now) words.entry.now ≡ explain_words (Some w) → is_plain_word w ≡ true
        → ParsesAs None (IsExplain (Some w)) result }
    ensures version { map (λ w. w.now) words.entry.now ≡ codes "--version" ∷ [] → ParsesAsVersion result }
    ensures below { TellsFault (map (λ w. w.now) words.entry.now) result }
{
    let count = word_count(words);
    prove!(count <= usize::MAX);
    let Ok(command) = commands::ringcheck(alloc) else {
        return Err(Refusal::Memory);
    };
    match command.try_get_matches_from(words) {
        Ok(matches) => match line_of(alloc, &matches) {
            Some(line) => Ok(line),
            // Each value is required, so that only running out of memory takes this arm.
            None => Err(Refusal::Memory),
        },
        Err(error) => Err(refusal_for(alloc, words, &error)),
    }
}

/// The number of words.
fn word_count(words: &[&str]) -> usize
    ensures { result ≡ length words.now }
{
    words.len()
}

/// The request of a parsed line, with its folder.
fn line_of<'a>(alloc: Global, matches: &ArgMatches<'a>) -> Option<CommandLine<'a>>
    ensures { IfSome result (λ line. IsLineOf (subcommand_rows_of matches.now) line) }
{
    let (name, values) = matches.subcommand()?;
    let folder = value(values, "in");
    let request = request_of(alloc, name, values)?;
    Some(CommandLine { folder, request })
}

/// The request of the command of this name, with these values.
fn request_of<'a>(alloc: Global, name: &str, values: &ArgMatches<'a>) -> Option<Request<'a>>
    ensures { IfSome result (λ request. IsRequestOf (Some (name.now, rows_of (found_of values.now))) request) }
{
    match name {
        "check" => check_request(values),
        "report" => report_request(values),
        "measure" => measure_request(values),
        "draw" => draw_request(values),
        "certify" => certify_request(values),
        "verify" => verify_request(values),
        "manifest" => manifest_request(alloc, values),
        "explain" => Some(explain_request(values)),
        "show" => show_request(values),
        "rewrite" => rewrite_request(values),
        _ => None,
    }
}

fn check_request<'a>(values: &ArgMatches<'a>) -> Option<Request<'a>>
    ensures { IfSome result (λ request. IsRequestOf (Some (codes "check", rows_of (found_of values.now))) request) }
{
    let options = check_options(values)?;
    let manifest = value(values, "manifest")?;
    Some(Request::Check { options, manifest })
}

fn certify_request<'a>(values: &ArgMatches<'a>) -> Option<Request<'a>>
    ensures { IfSome result (λ request. IsRequestOf (Some (codes "certify", rows_of (found_of values.now))) request) }
{
    let options = check_options(values)?;
    let manifest = value(values, "manifest")?;
    Some(Request::Certify { options, manifest })
}

/// The options of a check.
fn check_options<'a>(values: &ArgMatches<'a>) -> Option<CheckWords<'a>>
    ensures { IfSome result (AreOptionsOf (rows_of (found_of values.now))) }
{
    let (ring, gap) = (value(values, "ring")?, value(values, "gap")?);
    let profile = value(values, "profile");
    Some(CheckWords { ring, gap, profile })
}

fn verify_request<'a>(values: &ArgMatches<'a>) -> Option<Request<'a>>
    ensures { IfSome result (λ request. IsRequestOf (Some (codes "verify", rows_of (found_of values.now))) request) }
{
    let certificate = value(values, "certificate")?;
    Some(Request::Verify { certificate })
}

fn measure_request<'a>(values: &ArgMatches<'a>) -> Option<Request<'a>>
    ensures { IfSome result (λ request. IsRequestOf (Some (codes "measure", rows_of (found_of values.now))) request) }
{
    let (profile, format) = (value(values, "profile"), value(values, "format"));
    Some(Request::Measure {
        profile,
        format,
        manifest: value(values, "manifest")?,
    })
}

fn report_request<'a>(values: &ArgMatches<'a>) -> Option<Request<'a>>
    ensures { IfSome result (λ request. IsRequestOf (Some (codes "report", rows_of (found_of values.now))) request) }
{
    let options = ReportWords {
        ring: value(values, "ring")?,
        gap: value(values, "gap")?,
        drill_off: value(values, "drill-off"),
        drill_wide: value(values, "drill-wide"),
        profile: value(values, "profile"),
        limit: value(values, "max"),
        waive: value(values, "waive"),
        outline: value(values, "outline"),
        format: value(values, "format"),
        exit_zero: is_flag_set(values, "exit-zero"),
    };
    let manifest = value(values, "manifest")?;
    Some(Request::Report { options, manifest })
}

fn draw_request<'a>(values: &ArgMatches<'a>) -> Option<Request<'a>>
    ensures { IfSome result (λ request. IsRequestOf (Some (codes "draw", rows_of (found_of values.now))) request) }
{
    let options = PictureWords {
        ring: value(values, "ring"),
        gap: value(values, "gap"),
        profile: value(values, "profile"),
        outline: value(values, "outline"),
    };
    let manifest = value(values, "manifest")?;
    Some(Request::Draw { options, manifest })
}

fn show_request<'a>(values: &ArgMatches<'a>) -> Option<Request<'a>>
    ensures { IfSome result (λ request. IsRequestOf (Some (codes "show", rows_of (found_of values.now))) request) }
{
    let profile = value(values, "profile");
    Some(Request::Show {
        kind: value(values, "kind")?,
        profile,
        file: value(values, "file")?,
    })
}

fn manifest_request<'a>(alloc: Global, values: &ArgMatches<'a>) -> Option<Request<'a>>
    ensures { IfSome result (λ request. IsRequestOf (Some (codes "manifest", rows_of (found_of values.now))) request) }
{
    let row_of_value = values.get_strs("file")?;
    let Ok(files) = Vec::from_slice(alloc, row_of_value) else {
        return None;
    };
    let (why, profile) = (is_flag_set(values, "why"), value(values, "profile"));
    Some(Request::Manifest {
        why,
        profile,
        files,
    })
}

fn rewrite_request<'a>(values: &ArgMatches<'a>) -> Option<Request<'a>>
    ensures { IfSome result (λ request. IsRequestOf (Some (codes "rewrite", rows_of (found_of values.now))) request) }
{
    Some(Request::Rewrite {
        kind: value(values, "kind")?,
        file: value(values, "file")?,
    })
}

fn explain_request<'a>(values: &ArgMatches<'a>) -> Request<'a>
    ensures { IsRequestOf (Some (codes "explain", rows_of (found_of values.now))) result }
{
    Request::Explain {
        word: value(values, "word"),
    }
}

/// Whether an option without a value is given.
fn is_flag_set(values: &ArgMatches<'_>, id: &str) -> bool
    ensures { IsFlagValue (one_of id.now (rows_of (found_of values.now))) result }
{
    values.get_flag(id)
}

/// The first value of an argument.
fn value<'a>(values: &ArgMatches<'a>, id: &str) -> Option<&'a str>
    ensures { option_map (λ s. s.now) result ≡ first_of id.now (rows_of (found_of values.now)) }
{
    values.get_str(id)
}

/// What is said below the text of `clap` to a check, or a certificate that is asked for, with waivers.
const WAIVERS_IN_CHECK: &str = "
Only report takes waivers; it prints why each finding is accepted:
  ringcheck report --ring MM --gap MM --waive FILE MANIFEST
";

/// Whether a word is the option for a file of waivers, alone or with its value.
fn is_waive_option(word: &str) -> bool
    ensures { result ≡ texts.is_waive_option word.now }
{
    word == "--waive" || word.as_bytes().starts_with(b"--waive=")
}

/// Whether one of these words is the option for a file of waivers.
fn has_waive_option(words: &[&str]) -> bool
    ensures { result ≡ list_any texts.is_waive_option (map (λ w. w.now) words.now) }
{
    words.iter().any(|word| is_waive_option(word))
}

/// Whether the words are those of a check that is given waivers, or of a certificate that is asked for with some.
fn is_check_with_waivers(words: &[&str]) -> bool
    ensures { result ≡ texts.is_check_with_waivers (map (λ w. w.now) words.now) }
{
    match words {
        [command, others @ ..] => {
            (*command == "check" || *command == "certify") && has_waive_option(others)
        }
        [] => false,
    }
}

/// What stands below the text for an error of this kind in these words.
fn below_text(kind: ErrorKind, words: &[&str]) -> &'static str
    ensures { result.now ≡ texts.below_text kind (map (λ w. w.now) words.now) }
{
    if kind == ErrorKind::UnknownArgument && is_check_with_waivers(words) {
        WAIVERS_IN_CHECK
    } else {
        ""
    }
}

/// The text for an error of `clap` in these words: the help where there is no command, and else the text of `clap`, with what is
/// said below it.
fn text_for(alloc: Global, words: &[&str], error: &Error) -> Result<String, AllocError>
    ensures { IfOk result (λ text. EndsWith (texts.below_text (kind_of error.now) (map (λ w. w.now) words.now)) (string_bytes text)) }
{
    let mut text = if error.kind() == ErrorKind::MissingSubcommand {
        commands::ringcheck(alloc)?.render_help()?
    } else {
        error.to_string(alloc)?
    };
    text.push_str(below_text(error.kind(), words))?;
    Ok(text)
}

/// The refusal for an error of `clap` in these words, with its text.
fn refusal_for(alloc: Global, words: &[&str], error: &Error) -> Refusal
    ensures kind { IsRefusalFor (kind_of error.now) result }
    ensures memory { kind_of error.now ≡ ErrorKind.OutOfMemory → result ≡ Refusal.Memory }
    ensures below { EndsUsageWith (texts.below_text (kind_of error.now) (map (λ w. w.now) words.now)) result }
{
    let kind = error.kind();
    if kind == ErrorKind::OutOfMemory {
        return Refusal::Memory;
    }
    if kind == ErrorKind::DisplayVersion {
        return Refusal::Version;
    }
    match text_for(alloc, words, error) {
        Ok(text) if kind == ErrorKind::DisplayHelp => Refusal::Help(text),
        Ok(text) => Refusal::Usage(text),
        Err(_) => Refusal::Memory,
    }
}
