//! The whole program, over a loader and a writer.

ghost use Rattle.std.specs.Prelude.{◌≡◌, ◌++◌, ◌∷◌, ◌⊎◌, [], map, true, ℕ, Bool, IfOk, IfSome, OnOk, List, Option, Some, None, codes, is_some, option_map};
ghost use Rattle.std.specs.Io.KnownBytes.{Appends};
ghost use Rattle.command_line.specs.ProgramArgs.{are_plain_rules, are_plain_words, certify_words, check_words, draw_words, explain_words, is_plain_if_some, is_plain_word, manifest_words, measure_words, report_words, rewrite_words, show_words, verify_words};
ghost use Rattle.ringcheck.specs.Inner.Exits.{exit_of};
ghost use Rattle.ringcheck.specs.RequestStatus.{IsExitOf, IsLineStatus, IsProgramStatus, IsRequestStatus};
ghost use Rattle.ringcheck_files.specs.LoaderRelation.{in_folder};
ghost use Rattle.ringcheck.specs.DrawStatus.{IsParsedDrawStatus};
ghost use Rattle.ringcheck_files.specs.Outcomes.{HasCause};
ghost use Rattle.ringcheck_files.specs.ManifestStatus.{IsExplainStatus, IsVersionStatus};
ghost use Rattle.ringcheck.specs.ManifestStatus.{IsParsedManifestStatus};
ghost use Rattle.ringcheck.specs.MeasureStatus.{IsParsedMeasureStatus};
ghost use Rattle.ringcheck.specs.ParsedWords as named;
ghost use Rattle.ringcheck.specs.ParsedWords.{word_bytes};
ghost use Rattle.ringcheck_files.specs.FileStatus.{IsParsedFileStatus, parse_kind};
ghost use Rattle.ringcheck.specs.ReportStatus.{IsParsedReportStatus};
ghost use Rattle.ringcheck.specs.CertificateStatus.{IsParsedCertificateStatus, IsVerifyStatus};
ghost use Rattle.ringcheck.specs.CheckStatus.{IsParsedCheckStatus};
ghost use Rattle.ringcheck.specs.Sentences.{check_sentence, draw_sentence, is_for_people, measure_sentence, profile_sentence, report_sentence};
ghost use Rattle.ringcheck_files.specs.Writers.{texts};
ghost use Rattle.ringcheck.specs.ShowStatus.{IsParsedShowStatus};

use crate::certificates::verify;
use crate::packages::{check, draw, make_certificate, measure, report};
use crate::tables::{manifest, show};
use crate::{LoadFault, Loader};
use command_line::{CommandLine, Refusal, Request, VERSION_LINE, parse};
use ringcheck_files::{Failure, FileJob, Status, Streams, explain, print};
use std::alloc::Global;
use std::fmt;
use std::fmt::{Display, Formatter};
use std::io::Write;

/// The status of a report by its flag: with `--exit-zero` Pass in place of Findings.
fn exit_of(exit_zero: bool, status: Status) -> Status
    ensures { result ≡ exit_of exit_zero status }
{
    match status {
        Status::Findings if exit_zero => Status::Pass,
        status => status,
    }
}

/// Does what a request asks for.
fn carry_out<L: Loader, W: Write, E: Write>(
    alloc: Global,
    request: &Request,
    loader: &mut L,
    to: &mut Streams<W, E>,
) -> Result<Status, Failure>
    ensures says { IfOk result (IsRequestStatus request.now (L.has loader.old) (L.failed loader.old) (L.failed loader.new) (texts W.contents E.contents to.old) (texts W.contents E.contents to.new)) }
    ensures cause { IfOk result (HasCause (L.failed loader.old) (L.failed loader.new)) }
{
    match request {
        Request::Check { options, manifest } => check(alloc, options, manifest, loader, to),
        Request::Certify { options, manifest } => {
            make_certificate(alloc, options, manifest, loader, to)
        }
        Request::Verify { certificate } => verify(alloc, certificate, loader, to),
        Request::Report { options, manifest } => {
            let status = report(alloc, options, manifest, loader, to)?;
            Ok(exit_of(options.exit_zero, status))
        }
        Request::Measure {
            profile,
            format,
            manifest,
        } => measure(alloc, *profile, *format, manifest, loader, to),
        Request::Draw { options, manifest } => draw(alloc, options, manifest, loader, to),
        Request::Show {
            kind,
            profile,
            file,
        } => show(alloc, kind, *profile, file, loader, to),
        Request::Rewrite { kind, file } => print(alloc, FileJob::Rewrite, kind, file, loader, to),
        Request::Manifest {
            why,
            profile,
            files,
        } => manifest(alloc, *profile, *why, files, loader, to),
        Request::Explain { word } => explain(*word, &mut to.out),
    }
}

/// Prints a text, and returns this status, or Device where the writer fails.
fn write_text<T: Display, W: Write>(out: &mut W, text: &T, status: Status) -> Status
    ensures { ((result ≡ status) × IfSome (T.output text.now) (λ bs. Appends (W.contents out.old) (W.contents out.new) bs)) ⊎ (result ≡ Status.Device) }
{
    match write!(out, "{text}") {
        Ok(()) => status,
        Err(_) => Status::Device,
    }
}

/// Takes names from a folder from now on, if there is one.
fn enter<L: Loader>(alloc: Global, folder: Option<&str>, loader: &mut L) -> Result<(), LoadFault>
    ensures entered { OnOk result ((n b : List ℕ) → L.has loader.new n b → in_folder (word_bytes folder.entry) (L.has loader.old) n b) }
    ensures counts { L.failed loader.new ≡ L.failed loader.old }
{
    match folder {
        Some(folder) => loader.enter(alloc, folder),
        None => Ok(()),
    }
}

/// The line of a folder that could not be entered.
fn line_of(fault: LoadFault) -> &'static str {
    match fault {
        LoadFault::Memory => "memory\n",
        LoadFault::Device | LoadFault::TooLong => "device\n",
    }
}

/// Does what a line asks for, with names from its folder, if it has one.
fn answer<L: Loader, W: Write, E: Write>(
    alloc: Global,
    line: &CommandLine,
    loader: &mut L,
    to: &mut Streams<W, E>,
) -> Status
    ensures { IsLineStatus line.now (L.has loader.old) (L.failed loader.old) (L.failed loader.new) (texts W.contents E.contents to.old) (texts W.contents E.contents to.new) result }
{
    match enter(alloc, line.folder, loader) {
        Ok(()) => answer_there(alloc, &line.request, loader, to),
        Err(fault) => write_text(&mut to.out, &line_of(fault), Status::Device),
    }
}

/// Does what a request asks for, and prints the line `memory` where memory runs out.
fn answer_there<L: Loader, W: Write, E: Write>(
    alloc: Global,
    request: &Request,
    loader: &mut L,
    to: &mut Streams<W, E>,
) -> Status
    ensures { IsRequestStatus request.now (L.has loader.old) (L.failed loader.old) (L.failed loader.new) (texts W.contents E.contents to.old) (texts W.contents E.contents to.new) result }
{
    match carry_out(alloc, request, loader, to) {
        Ok(status) => status,
        Err(Failure::Memory) => write_text(&mut to.out, &"memory\n", Status::Device),
        Err(Failure::Writer) => Status::Device,
    }
}

/// Words that are no command, as they are reported: `usage`, and below it what is wrong with them.
#[derive(Clone, Copy)]
struct UsageText<'a>(&'a str);

impl Display for UsageText<'_> {
    ghost output = { λ text. Some (codes "usage\n" ++ text.0.now) };

    fn fmt<W: fmt::Write>(&self, f: &mut Formatter<W>) -> fmt::Result {
        write!(f, "usage\n{}", self.0)
    }
}

/// The whole program: does what the words ask for, which come without the program's name. The answer is printed to `to.out`, a
/// long report in many small writes, and to `to.err` a sentence that says why there is none, where the answer has no place for it. Where a
/// write to either fails the status is Device, and it is not known what was written.
pub fn run<L: Loader, W: Write, E: Write>(
    alloc: Global,
    words: &[&str],
    loader: &mut L,
    to: &mut Streams<W, E>,
) -> Status
    ensures check { (r g : List ℕ) (profile folder : Option (List ℕ)) (m : List ℕ) → map (λ w. w.now) words.now ≡ check_words r g profile folder m → is_plain_word r ≡ true → is_plain_word g ≡ true
        → is_plain_if_some profile ≡ true → is_plain_if_some folder ≡ true → is_plain_word m ≡ true → IsParsedCheckStatus (in_folder folder (L.has loader.old)) m (named.parse_check profile r g) (check_sentence profile r g) (texts W.contents E.contents to.old) (texts W.contents E.contents to.new) result }
    ensures certify { (r g : List ℕ) (profile folder : Option (List ℕ)) (m : List ℕ) → map (λ w. w.now) words.now ≡ certify_words r g profile folder m → is_plain_word r ≡ true → is_plain_word g ≡ true
        → is_plain_if_some profile ≡ true → is_plain_if_some folder ≡ true → is_plain_word m ≡ true → IsParsedCertificateStatus (in_folder folder (L.has loader.old)) m (named.parse_check profile r g) (check_sentence profile r g) (texts W.contents E.contents to.old) (texts W.contents E.contents to.new) result }
    ensures verify { (folder : Option (List ℕ)) (c : List ℕ) → map (λ w. w.now) words.now ≡ verify_words folder c → is_plain_if_some folder ≡ true → is_plain_word c ≡ true
        → IsVerifyStatus (in_folder folder (L.has loader.old)) c (texts W.contents E.contents to.old) (texts W.contents E.contents to.new) result }
    ensures report { (exit_zero : Bool) (r g : List ℕ) (off wide profile limit waive outline format folder : Option (List ℕ)) (m : List ℕ) → map (λ w. w.now) words.now ≡ report_words exit_zero r g off wide profile limit waive outline format folder m → is_plain_word r ≡ true → is_plain_word g ≡ true
        → is_plain_if_some off ≡ true → is_plain_if_some wide ≡ true → is_plain_if_some profile ≡ true → is_plain_if_some limit ≡ true → is_plain_if_some waive ≡ true → is_plain_if_some outline ≡ true → is_plain_if_some format ≡ true → is_plain_if_some folder ≡ true → is_plain_word m ≡ true
        → IsExitOf exit_zero (IsParsedReportStatus (in_folder folder (L.has loader.old)) m (named.parse_report profile r g off wide limit waive outline format) (is_for_people format) (report_sentence profile r g off wide limit (is_some outline) format) waive outline (texts W.contents E.contents to.old) (texts W.contents E.contents to.new)) result }
    ensures measure { (profile format folder : Option (List ℕ)) (m : List ℕ) → map (λ w. w.now) words.now ≡ measure_words profile format folder m → is_plain_if_some profile ≡ true → is_plain_if_some format ≡ true
        → is_plain_if_some folder ≡ true → is_plain_word m ≡ true → IsParsedMeasureStatus (in_folder folder (L.has loader.old)) m (named.parse_measure profile format) (measure_sentence profile format) (texts W.contents E.contents to.old) (texts W.contents E.contents to.new) result }
    ensures draw { (rules : Option (List ℕ × List ℕ)) (profile outline folder : Option (List ℕ)) (m : List ℕ) → map (λ w. w.now) words.now ≡ draw_words rules profile outline folder m → are_plain_rules rules ≡ true → is_plain_if_some profile ≡ true
        → is_plain_if_some outline ≡ true → is_plain_if_some folder ≡ true → is_plain_word m ≡ true → IsParsedDrawStatus (in_folder folder (L.has loader.old)) m (named.parse_draw profile (option_map (λ both. both.0) rules) (option_map (λ both. both.1) rules)) (draw_sentence profile (option_map (λ both. both.0) rules) (option_map (λ both. both.1) rules)) outline (texts W.contents E.contents to.old) (texts W.contents E.contents to.new) result }
    ensures show { (k : List ℕ) (profile folder : Option (List ℕ)) (f : List ℕ) → map (λ w. w.now) words.now ≡ show_words k profile folder f → is_plain_word k ≡ true → is_plain_if_some profile ≡ true
        → is_plain_if_some folder ≡ true → is_plain_word f ≡ true → IsParsedShowStatus (named.profile_of profile) (profile_sentence profile) (parse_kind k) (in_folder folder (L.has loader.old)) f (texts W.contents E.contents to.old) (texts W.contents E.contents to.new) result }
    ensures rewrite { (k : List ℕ) (folder : Option (List ℕ)) (f : List ℕ) → map (λ w. w.now) words.now ≡ rewrite_words k folder f → is_plain_word k ≡ true → is_plain_if_some folder ≡ true → is_plain_word f ≡ true
        → IsParsedFileStatus FileJob.Rewrite (parse_kind k) (in_folder folder (L.has loader.old)) f (texts W.contents E.contents to.old) (texts W.contents E.contents to.new) result }
    ensures manifest { (why : Bool) (profile folder : Option (List ℕ)) (fs : List (List ℕ)) → map (λ w. w.now) words.now ≡ manifest_words why profile folder fs → is_plain_if_some profile ≡ true → is_plain_if_some folder ≡ true → are_plain_words fs ≡ true
        → IsParsedManifestStatus (named.profile_of profile) (profile_sentence profile) why (in_folder folder (L.has loader.old)) (L.failed loader.old) (L.failed loader.new) fs (texts W.contents E.contents to.old) (texts W.contents E.contents to.new) result }
    ensures list { map (λ w. w.now) words.now ≡ explain_words None → IsExplainStatus None (W.contents to.old.out) (W.contents to.new.out) result }
    ensures explain { (w : List ℕ) → map (λ w. w.now) words.now ≡ explain_words (Some w) → is_plain_word w ≡ true
        → IsExplainStatus (Some w) (W.contents to.old.out) (W.contents to.new.out) result }
    ensures version { map (λ w. w.now) words.now ≡ codes "--version" ∷ [] → IsVersionStatus (W.contents to.old.out) (W.contents to.new.out) result }
    ensures line { IsProgramStatus (map (λ w. w.now) words.now) (L.has loader.old) (L.failed loader.old) (L.failed loader.new) (texts W.contents E.contents to.old) (texts W.contents E.contents to.new) result }
{
    match parse(alloc, words) {
        Ok(line) => answer(alloc, &line, loader, to),
        Err(Refusal::Memory) => write_text(&mut to.out, &"memory\n", Status::Device),
        Err(Refusal::Version) => write_text(&mut to.out, &VERSION_LINE, Status::Pass),
        Err(Refusal::Help(text)) => write_text(&mut to.out, &text, Status::Pass),
        Err(Refusal::Usage(text)) => write_text(
            &mut to.out,
            &UsageText(text.as_str()),
            Status::Usage,
        ),
    }
}
