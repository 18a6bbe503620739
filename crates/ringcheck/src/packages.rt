//! The commands on the package of a manifest: each does a job on it, or prints why it cannot be done.

ghost use Rattle.std.specs.Prelude.{◌≡◌, IfErr, IfOk, List, false, is_some, map, option_map};
ghost use Rattle.std.specs.List.{AllByRecursion};
ghost use Rattle.sha2.specs.Sha256.{sha256};
ghost use Rattle.package_check.specs.Package.{FileView};
ghost use Rattle.ringcheck_files.specs.Words.{IsExplainedUsage};
ghost use Rattle.ringcheck_files.specs.Outcomes.{HasCause, HasRisen};
ghost use Rattle.ringcheck.specs.DrawStatus.{IsParsedDrawStatus};
ghost use Rattle.ringcheck.specs.Inner.Halting.{OfFiles};
ghost use Rattle.ringcheck.specs.Inner.Jobs.{Holds, HoldsOfBoard, SaysJob, board_keep, board_profile, given_text, job_profile};
ghost use Rattle.ringcheck.specs.Inner.Loading.{IsKeptBoard};
ghost use Rattle.ringcheck.specs.MeasureStatus.{IsParsedMeasureStatus};
ghost use Rattle.ringcheck.specs.ParsedWords as named;
ghost use Rattle.ringcheck.specs.Outlining.{IsOutlinedStatus};
ghost use Rattle.ringcheck.specs.ReportStatus.{IsParsedReportStatus};
ghost use Rattle.ringcheck.specs.ParsedWords.{word_bytes};
ghost use Rattle.ringcheck.specs.CertificateStatus.{Certifies, IsParsedCertificateStatus};
ghost use Rattle.ringcheck.specs.CheckStatus.{IsParsedCheckStatus, status_of};
ghost use Rattle.ringcheck.specs.Sentences.{check_sentence, draw_sentence, is_for_people, measure_sentence, report_sentence};
ghost use Rattle.ringcheck_files.specs.Writers.{texts};

use crate::jobs::{BoardJob, Job, Order, report_style};
use crate::load_package::{check_files, load_board, load_table};
use crate::outlines::{load_outline, print_no_outline};
use crate::parsed_words::{parse_check, parse_draw, parse_measure, parse_report};
use crate::refusals::{Halt, Subject, print_halt, print_no_table};
use crate::sentences::{NoMeasure, NoPicture, NoReport, is_for_people, refuse};
use crate::{Entry, Loader, certificates, checks, measures, reports};
use command_line::{CheckWords, PictureWords, ReportWords};
use grid_units::{Reason, Rules};
use package_check::Board;
use pad_shapes::Drawn;
use print_json::FileDigest;
use ringcheck_files::{Failure, Status, Streams};
use sha2::{Digest, Sha256};
use std::alloc::{AllocError, Global};
use std::io::Write;
use waivers::Waiver;

/// The manifest of a package, under its name.
#[derive(Clone, Copy)]
pub(crate) struct Manifest<'a> {
    pub(crate) name: &'a str,
    pub(crate) text: &'a [u8],
    pub(crate) entries: &'a [Entry],
}

impl<'a> Manifest<'a> {
    /// Its name, and the digest of its text.
    pub(crate) fn digest(&self) -> FileDigest<'a>
        ensures name { result.name.now ≡ self.now.name.now }
        ensures digest { result.sha256 ≡ sha256 self.now.text.now }
    {
        FileDigest {
            name: self.name,
            sha256: Sha256::digest(self.text),
        }
    }
}

/// The names of the files of these entries.
fn names_of<'a>(alloc: Global, entries: &'a [Entry]) -> Result<Vec<&'a str>, AllocError>
    ensures { IfOk result (λ names. map (λ name. name.now) names.items ≡ map (λ entry. entry.name) entries.now) }
{
    let mut names = Vec::new(alloc);
    for entry in entries {
        names.push(entry.name.as_str())?;
    }
    Ok(names)
}

/// The text of a certificate that is given, if one is.
fn text_of(given: &Option<Vec<u8>>) -> Option<&[u8]>
    ensures { option_map (λ text. text.now) result ≡ given_text given.now }
{
    match given {
        Some(text) => Some(text.as_slice()),
        None => None,
    }
}

/// Checks the files of the entries of a manifest under these rules, and makes a certificate of them, or compares it with the one that is
/// given; returns whether it passes.
fn certify<'a, L: Loader, W: Write>(
    alloc: Global,
    rules: Rules,
    given: Option<&[u8]>,
    names: &[&str],
    manifest: Manifest<'a>,
    loader: &mut L,
    out: &mut W,
) -> Result<Result<bool, Halt<'a>>, Failure>
    ensures answers { map (λ name. name.now) names.now ≡ map (λ entry. entry.name) manifest.entry.entries.now → IfOk result (OfFiles (L.has loader.old) rules.profile manifest.entry.entries.now (HasRisen (L.failed loader.old) (L.failed loader.new)) (Certifies rules (option_map (λ text. text.now) given.entry) manifest.entry.name.now (W.contents out.old) (W.contents out.new) manifest.entry.text.now manifest.entry.entries.now)) }
    ensures silent { IfOk result (λ done. IfErr done (λ h. W.contents out.new ≡ W.contents out.old)) }
{
    let entries = manifest.entries;
    let mut digests = vec![in alloc; [0; 32]; entries.len()]?;
    match check_files(alloc, rules, loader, entries, digests.as_mut_slice())? {
        Ok(report) => {
            let digests = digests.as_slice();
            let passes = certificates::certify(
                alloc, &report, names, manifest, digests, given, out,
            )?;
            Ok(Ok(passes))
        }
        Err(halt) => Ok(Err(halt)),
    }
}

/// Does what is asked with the board of the files of these names, which the manifest under a name lists, with an outline of these parts, and
/// returns whether it passes.
fn print_board<W: Write>(
    alloc: Global,
    job: &BoardJob,
    board: &Board,
    names: &[&str],
    manifest: &str,
    outline: &[Drawn],
    out: &mut W,
) -> Result<bool, Failure>
    ensures { (all : List FileView) → map (λ name. name.now) names.now ≡ map (λ source. source.name) all → AllByRecursion (λ source. source.setting.profile ≡ board_profile job.now) all
        → IsKeptBoard (board_keep job.now) board.now all → IfOk result (λ passes. HoldsOfBoard job.now outline.now manifest.now (W.contents out.old) (W.contents out.new) passes all) }
{
    match job {
        BoardJob::Measure(order) => measures::measure(alloc, board, names, *order, out),
        BoardJob::Report(order) => {
            reports::report(alloc, board, names, manifest, order, outline, out)
        }
        BoardJob::Draw(_, rules) => checks::draw(alloc, board, names, *rules, outline, out),
    }
}

/// Reads the files of the entries of a manifest, which have these names, as a board, does what is asked with it, and returns whether it passes.
fn answer_with_board<'a, L: Loader, W: Write>(
    alloc: Global,
    job: &BoardJob,
    outline: &[Drawn],
    names: &[&str],
    manifest: Manifest<'a>,
    loader: &mut L,
    out: &mut W,
) -> Result<Result<bool, Halt<'a>>, Failure>
    ensures answers { map (λ name. name.now) names.now ≡ map (λ entry. entry.name) manifest.entry.entries.now → IfOk result (OfFiles (L.has loader.old) (board_profile job.now) manifest.entry.entries.now (HasRisen (L.failed loader.old) (L.failed loader.new)) (HoldsOfBoard job.now outline.now manifest.entry.name.now (W.contents out.old) (W.contents out.new))) }
    ensures silent { IfOk result (λ done. IfErr done (λ h. W.contents out.new ≡ W.contents out.old)) }
{
    match load_board(alloc, job.profile(), job.keep(), loader, manifest.entries)? {
        Ok(board) => {
            let passes = print_board(alloc, job, &board, names, manifest.name, outline, out)?;
            Ok(Ok(passes))
        }
        Err(halt) => Ok(Err(halt)),
    }
}

/// Loads the files of the entries of a manifest, does a job on them with an outline of these parts, and returns whether it passes.
fn answer<'a, L: Loader, W: Write>(
    alloc: Global,
    job: &Job,
    outline: &[Drawn],
    manifest: Manifest<'a>,
    loader: &mut L,
    out: &mut W,
) -> Result<Result<bool, Halt<'a>>, Failure>
    ensures answers { IfOk result (OfFiles (L.has loader.old) (job_profile job.now) manifest.entry.entries.now (HasRisen (L.failed loader.old) (L.failed loader.new)) (Holds job.now outline.now manifest.entry.name.now (W.contents out.old) (W.contents out.new) manifest.entry.text.now manifest.entry.entries.now)) }
    ensures silent { IfOk result (λ done. IfErr done (λ h. W.contents out.new ≡ W.contents out.old)) }
{
    let entries = manifest.entries;
    let names = names_of(alloc, entries)?;
    let names = names.as_slice();
    match job {
        Job::Check(rules) => match check_files(alloc, *rules, loader, entries, &mut [])? {
            Ok(report) => Ok(Ok(checks::check(&report, names, out)?)),
            Err(halt) => Ok(Err(halt)),
        },
        Job::Certify(rules, given) => {
            let given = text_of(given);
            certify(alloc, *rules, given, names, manifest, loader, out)
        }
        Job::Board(job) => answer_with_board(alloc, job, outline, names, manifest, loader, out),
    }
}

/// The status of a job: Pass, or Findings where it does not pass.
fn status_of(passes: bool) -> Status
    ensures { result ≡ status_of passes }
{
    if passes {
        Status::Pass
    } else {
        Status::Findings
    }
}

/// Does a job on the package of a manifest, with an outline of these parts.
pub(crate) fn run_job<L: Loader, W: Write, E: Write>(
    alloc: Global,
    job: &Job,
    outline: &[Drawn],
    name: &str,
    loader: &mut L,
    to: &mut Streams<W, E>,
) -> Result<Status, Failure>
    ensures says { IfOk result (SaysJob job.now outline.now (L.has loader.old) name.now (texts W.contents E.contents to.old) (texts W.contents E.contents to.new)) }
    ensures cause { IfOk result (HasCause (L.failed loader.old) (L.failed loader.new)) }
{
    let profile = job.profile();
    let table = match load_table::<L, Entry>(alloc, profile, loader, name, Subject::Manifest)? {
        Ok(table) => table,
        Err(no_table) => return print_no_table(to, job.style(), &no_table, loader),
    };
    let manifest = Manifest {
        name,
        text: table.text.as_slice(),
        entries: table.rows.as_slice(),
    };
    match answer(alloc, job, outline, manifest, loader, &mut to.out)? {
        Ok(passes) => Ok(status_of(passes)),
        Err(halt) => print_halt(to, job.style(), halt, loader),
    }
}

/// Does a job on the package of a manifest, with an outline if one is named. The file of the outline is loaded first.
fn run_outlined<L: Loader, W: Write, E: Write>(
    alloc: Global,
    job: &Job,
    outline: Option<&str>,
    name: &str,
    loader: &mut L,
    to: &mut Streams<W, E>,
) -> Result<Status, Failure>
    ensures says { IfOk result (IsOutlinedStatus (L.has loader.old) (word_bytes outline.entry) (λ parts. SaysJob job.now parts (L.has loader.old) name.now (texts W.contents E.contents to.old) (texts W.contents E.contents to.new)) (texts W.contents E.contents to.old) (texts W.contents E.contents to.new)) }
    ensures cause { IfOk result (HasCause (L.failed loader.old) (L.failed loader.new)) }
{
    match load_outline(alloc, loader, outline)? {
        Ok(outline) => run_job(alloc, job, outline.as_slice(), name, loader, to),
        Err(why) => print_no_outline(&mut to.out, why),
    }
}

/// Says why the rules or the profile that words name are refused.
fn refuse_rules<W: Write, E: Write>(
    to: &mut Streams<W, E>,
    reason: Reason,
    unparsed: &CheckWords,
) -> Result<Status, Failure>
    ensures says { IfOk result (IsExplainedUsage false reason (check_sentence (word_bytes unparsed.now.profile) unparsed.now.ring.now unparsed.now.gap.now) (texts W.contents E.contents to.old) (texts W.contents E.contents to.new)) }
    ensures usage { IfOk result (λ status. status ≡ Status.Usage) }
{
    let (ring, gap) = (Some(unparsed.ring), Some(unparsed.gap));
    let profile = unparsed.profile;
    refuse(to, false, reason, &NoPicture { profile, ring, gap })
}

/// Checks the package of a manifest under the rules and in the profile that words name.
pub(crate) fn check<L: Loader, W: Write, E: Write>(
    alloc: Global,
    unparsed: &CheckWords,
    name: &str,
    loader: &mut L,
    to: &mut Streams<W, E>,
) -> Result<Status, Failure>
    ensures says { IfOk result (IsParsedCheckStatus (L.has loader.old) name.now (named.parse_check (word_bytes unparsed.now.profile) unparsed.now.ring.now unparsed.now.gap.now) (check_sentence (word_bytes unparsed.now.profile) unparsed.now.ring.now unparsed.now.gap.now) (texts W.contents E.contents to.old) (texts W.contents E.contents to.new)) }
    ensures cause { IfOk result (HasCause (L.failed loader.old) (L.failed loader.new)) }
{
    match parse_check(unparsed.profile, unparsed.ring, unparsed.gap) {
        Ok(rules) => run_job(alloc, &Job::Check(rules), &[], name, loader, to),
        Err(reason) => refuse_rules(to, reason, unparsed),
    }
}

/// Makes a certificate of the package of a manifest, checked under the rules and in the profile that words name.
pub(crate) fn make_certificate<L: Loader, W: Write, E: Write>(
    alloc: Global,
    unparsed: &CheckWords,
    name: &str,
    loader: &mut L,
    to: &mut Streams<W, E>,
) -> Result<Status, Failure>
    ensures says { IfOk result (IsParsedCertificateStatus (L.has loader.old) name.now (named.parse_check (word_bytes unparsed.now.profile) unparsed.now.ring.now unparsed.now.gap.now) (check_sentence (word_bytes unparsed.now.profile) unparsed.now.ring.now unparsed.now.gap.now) (texts W.contents E.contents to.old) (texts W.contents E.contents to.new)) }
    ensures cause { IfOk result (HasCause (L.failed loader.old) (L.failed loader.new)) }
{
    match parse_check(unparsed.profile, unparsed.ring, unparsed.gap) {
        Ok(rules) => run_job(alloc, &Job::Certify(rules, None), &[], name, loader, to),
        Err(reason) => refuse_rules(to, reason, unparsed),
    }
}

/// Measures the package of a manifest in the profile that a word names, and prints the measure in the format that another one names.
pub(crate) fn measure<L: Loader, W: Write, E: Write>(
    alloc: Global,
    profile: Option<&str>,
    format: Option<&str>,
    name: &str,
    loader: &mut L,
    to: &mut Streams<W, E>,
) -> Result<Status, Failure>
    ensures says { IfOk result (IsParsedMeasureStatus (L.has loader.old) name.now (named.parse_measure (word_bytes profile.entry) (word_bytes format.entry)) (measure_sentence (word_bytes profile.entry) (word_bytes format.entry)) (texts W.contents E.contents to.old) (texts W.contents E.contents to.new)) }
    ensures cause { IfOk result (HasCause (L.failed loader.old) (L.failed loader.new)) }
{
    match parse_measure(profile, format) {
        Ok(order) => run_job(
            alloc,
            &Job::Board(BoardJob::Measure(order)),
            &[],
            name,
            loader,
            to,
        ),
        Err(reason) => refuse(to, true, reason, &NoMeasure { profile, format }),
    }
}

/// Prints the picture of the package of a manifest, with what is found under the rules, and with an outline, if these are named. The file
/// of the outline is loaded first.
pub(crate) fn draw<L: Loader, W: Write, E: Write>(
    alloc: Global,
    unparsed: &PictureWords,
    name: &str,
    loader: &mut L,
    to: &mut Streams<W, E>,
) -> Result<Status, Failure>
    ensures says { IfOk result (IsParsedDrawStatus (L.has loader.old) name.now (named.parse_draw (word_bytes unparsed.now.profile) (word_bytes unparsed.now.ring) (word_bytes unparsed.now.gap)) (draw_sentence (word_bytes unparsed.now.profile) (word_bytes unparsed.now.ring) (word_bytes unparsed.now.gap)) (word_bytes unparsed.now.outline) (texts W.contents E.contents to.old) (texts W.contents E.contents to.new)) }
    ensures cause { IfOk result (HasCause (L.failed loader.old) (L.failed loader.new)) }
{
    match parse_draw(unparsed) {
        Ok((profile, rules)) => {
            let job = Job::Board(BoardJob::Draw(profile, rules));
            run_outlined(alloc, &job, unparsed.outline, name, loader, to)
        }
        Err(reason) => {
            let (profile, ring, gap) = (unparsed.profile, unparsed.ring, unparsed.gap);
            refuse(to, false, reason, &NoPicture { profile, ring, gap })
        }
    }
}

/// Reports on the package of a manifest as these words ask: each finding under the rules, what is lacking, why, and whether it is
/// waived. A file of waivers is loaded first, and then the file of an outline.
pub(crate) fn report<L: Loader, W: Write, E: Write>(
    alloc: Global,
    unparsed: &ReportWords,
    name: &str,
    loader: &mut L,
    to: &mut Streams<W, E>,
) -> Result<Status, Failure>
    ensures says { IfOk result (IsParsedReportStatus (L.has loader.old) name.now (named.parse_report (word_bytes unparsed.now.profile) unparsed.now.ring.now unparsed.now.gap.now (word_bytes unparsed.now.drill_off) (word_bytes unparsed.now.drill_wide) (word_bytes unparsed.now.limit) (word_bytes unparsed.now.waive) (word_bytes unparsed.now.outline) (word_bytes unparsed.now.format)) (is_for_people (word_bytes unparsed.now.format)) (report_sentence (word_bytes unparsed.now.profile) unparsed.now.ring.now unparsed.now.gap.now (word_bytes unparsed.now.drill_off) (word_bytes unparsed.now.drill_wide) (word_bytes unparsed.now.limit) (is_some (word_bytes unparsed.now.outline)) (word_bytes unparsed.now.format)) (word_bytes unparsed.now.waive) (word_bytes unparsed.now.outline) (texts W.contents E.contents to.old) (texts W.contents E.contents to.new)) }
    ensures cause { IfOk result (HasCause (L.failed loader.old) (L.failed loader.new)) }
{
    let (below, outline) = (is_for_people(unparsed.format), unparsed.outline);
    let (rules, drilling, limit, format) = match parse_report(unparsed) {
        Ok(named) => named,
        Err(reason) => return refuse(to, below, reason, &NoReport(unparsed)),
    };
    let (profile, what) = (rules.profile(), Subject::Waivers);
    match unparsed.waive {
        None => {
            let order = Order {
                rules,
                drilling,
                limit,
                format,
                waivers: None,
            };
            let job = Job::Board(BoardJob::Report(order));
            run_outlined(alloc, &job, outline, name, loader, to)
        }
        Some(file) => match load_table::<L, Waiver>(alloc, profile, loader, file, what)? {
            Ok(table) => {
                let order = Order {
                    rules,
                    drilling,
                    limit,
                    format,
                    waivers: Some(table.rows),
                };
                let job = Job::Board(BoardJob::Report(order));
                run_outlined(alloc, &job, outline, name, loader, to)
            }
            Err(no_table) => print_no_table(to, report_style(format), &no_table, loader),
        },
    }
}
