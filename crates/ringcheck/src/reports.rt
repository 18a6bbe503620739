//! Reports on a package: each finding under the rules, what is lacking, why, and whether it is waived.

ghost use Rattle.std.specs.Prelude.{◌≡◌, ◌&&◌, List, IfOk, OnOk, map};
ghost use Rattle.std.specs.List.{AllByRecursion};
ghost use Rattle.board_report.specs.BoardReport.{IsBoardReport};
ghost use Rattle.package_check.specs.Boards.{IsFlashedBoard};
ghost use Rattle.package_check.specs.Package.{FileView};
ghost use Rattle.report.specs.declared.Acceptances.{Acceptances as TheAcceptances};
ghost use Rattle.ringcheck.specs.Inner.Jobs.{given_waivers};
ghost use Rattle.ringcheck.specs.Inner.Loading.{IsKeptBoard};
ghost use Rattle.ringcheck.specs.ReportStatus.{IsFewer, Judges, PrintsPage, PrintsReport, Reports, asks_wide, has_none, kept_for, said_drilling, says_fewer};

use crate::jobs::Order;
use crate::parsed_words::ReportFormat;
use board_report::report_on;
use command_line::PROGRAM;
use grid_units::Profile;
use package_check::{Board, fewer_in_wide, laws};
use pad_shapes::Drawn;
use print_json::ReportJson;
use print_text::{Drilling, Particulars, ReportText};
use report::{Acceptances, BoardReport};
use report_page::HtmlReport;
use ringcheck_files::Failure;
use std::alloc::Global;
use std::io::Write;
use waivers::{Waiver, WaiverText, idle, reasons, waive};

/// What is printed of a package: the names of its files, its board, an outline, the report on it, and the particulars of that.
#[derive(Clone, Copy)]
struct Reported<'a> {
    names: &'a [&'a str],
    board: &'a Board,
    outline: &'a [Drawn],
    report: &'a BoardReport,
    about: &'a Particulars<'a>,
}

/// Prints the page of a report on a board, with its outline and the reasons why findings are waived.
fn print_page<W: Write>(
    alloc: Global,
    reported: &Reported,
    accepted: &Acceptances,
    out: &mut W,
) -> Result<(), Failure>
    ensures { OnOk result (PrintsPage (map (λ name. name.now) reported.now.names.now) reported.now.about.now reported.now.board.now reported.now.outline.now reported.now.report.now accepted.now (W.contents out.old) (W.contents out.new)) }
{
    let Reported {
        names,
        board,
        outline,
        report,
        about,
    } = *reported;
    let page = HtmlReport::new(alloc, names, about, board, outline, report, accepted)?;
    let written = write!(out, "{page}");
    drop(page);
    Ok(written?)
}

/// Prints a report, with the reasons why findings are waived, in its format. Only the text has a limit of findings.
fn print<W: Write>(
    alloc: Global,
    reported: &Reported,
    options: &Order,
    accepted: &Acceptances,
    out: &mut W,
) -> Result<(), Failure>
    ensures { OnOk result (PrintsReport options.now.format (map (λ name. name.now) reported.now.names.now) reported.now.board.now reported.now.outline.now reported.now.report.now reported.now.about.now options.now.limit accepted.now (W.contents out.old) (W.contents out.new)) }
{
    let Reported {
        names,
        board,
        report,
        about,
        ..
    } = *reported;
    match options.format {
        ReportFormat::Text => {
            let text = ReportText::new(
                alloc,
                names,
                report,
                about.fewer,
                about.drilling,
                options.limit,
                accepted,
            )?;
            write!(out, "{text}")?;
        }
        ReportFormat::Html => print_page(alloc, reported, accepted, out)?,
        ReportFormat::Json => {
            let json = ReportJson {
                about,
                names,
                files: board.files(),
                report,
                accepted,
            };
            write!(out, "{json}")?;
        }
        ReportFormat::Waivers => write!(out, "{}", WaiverText { names, report })?,
    }
    Ok(())
}

/// Whether a report has no finding.
fn has_none(report: &BoardReport) -> bool
    ensures { result ≡ has_none report.now }
{
    report.rings.is_empty() && report.gaps.is_empty()
}

/// Whether a report in this format and profile says how many of its findings the wide profile does not have.
fn says_fewer(format: ReportFormat, profile: Profile) -> bool
    ensures { result ≡ says_fewer format profile }
{
    match (format, profile) {
        (ReportFormat::Text | ReportFormat::Html | ReportFormat::Json, Profile::Strict) => true,
        _ => false,
    }
}

/// Whether a report has to ask how many of its findings the wide profile does not have.
fn asks_wide(options: &Order, report: &BoardReport) -> bool
    ensures { result ≡ asks_wide options.now.format options.now.rules report.now }
{
    says_fewer(options.format, options.rules.profile()) && !has_none(report)
}

/// The drilling of which a report says what it leaves of the rules: that which is asked for, where the report has no finding.
fn said_drilling(options: &Order, report: &BoardReport) -> Option<Drilling>
    ensures { result ≡ said_drilling options.now.drilling report.now }
{
    if has_none(report) {
        options.drilling
    } else {
        None
    }
}

/// How many findings of the report on a board the wide profile does not have, where the report asks for that; else 0.
fn fewer_findings(
    alloc: Global,
    options: &Order,
    board: &Board,
    report: &BoardReport,
) -> Result<u128, Failure>
    ensures { (all : List FileView) → AllByRecursion (λ source. source.setting.profile ≡ options.now.rules.profile) all → IsFlashedBoard all board.now → IsBoardReport options.now.rules board.now report.now
        → IfOk result (IsFewer (asks_wide options.now.format options.now.rules report.now) all report.now) }
{
    if !asks_wide(options, report) {
        return Ok(0);
    }
    let fewer = fewer_in_wide(alloc, board, report)?;
    Ok(fewer as u128)
}

/// Prints a report with these waivers, and returns whether each finding is waived.
fn print_waived<W: Write>(
    alloc: Global,
    reported: &Reported,
    options: &Order,
    waivers: &[Waiver],
    out: &mut W,
) -> Result<bool, Failure>
    ensures { IfOk result (λ passes. (accepted : TheAcceptances) × Judges (Some waivers.now) (map (λ name. name.now) reported.now.names.now) reported.now.report.now passes accepted
        × PrintsReport options.now.format (map (λ name. name.now) reported.now.names.now) reported.now.board.now reported.now.outline.now reported.now.report.now reported.now.about.now options.now.limit accepted (W.contents out.old) (W.contents out.new)) }
{
    let waived = waive(alloc, reported.names, reported.report, waivers)?;
    let rings = reasons(alloc, waivers, waived.rings.as_slice())?;
    let gaps = reasons(alloc, waivers, waived.gaps.as_slice())?;
    let idle = idle(alloc, &waived, waivers)?;
    let accepted = Acceptances {
        rings: rings.as_slice(),
        gaps: gaps.as_slice(),
        idle: idle.as_slice(),
    };
    print(alloc, reported, options, &accepted, out)?;
    Ok(waived.all())
}

/// Prints a report with the waivers that it is asked for, if there are any, and returns whether it passes.
fn print_judged<W: Write>(
    alloc: Global,
    reported: &Reported,
    options: &Order,
    out: &mut W,
) -> Result<bool, Failure>
    ensures { IfOk result (λ passes. (accepted : TheAcceptances) × Judges (given_waivers options.now.waivers) (map (λ name. name.now) reported.now.names.now) reported.now.report.now passes accepted
        × PrintsReport options.now.format (map (λ name. name.now) reported.now.names.now) reported.now.board.now reported.now.outline.now reported.now.report.now reported.now.about.now options.now.limit accepted (W.contents out.old) (W.contents out.new)) }
{
    match &options.waivers {
        Some(waivers) => print_waived(alloc, reported, options, waivers.as_slice(), out),
        None => {
            let accepted = Acceptances {
                rings: &[],
                gaps: &[],
                idle: &[],
            };
            print(alloc, reported, options, &accepted, out)?;
            Ok(has_none(reported.report))
        }
    }
}

/// Prints the report on the board of the files of these names, which a manifest lists, with an outline of these parts, and returns
/// whether it passes.
pub(crate) fn report<W: Write>(
    alloc: Global,
    board: &Board,
    names: &[&str],
    manifest: &str,
    options: &Order,
    outline: &[Drawn],
    out: &mut W,
) -> Result<bool, Failure>
    ensures { (all : List FileView) → map (λ name. name.now) names.now ≡ map (λ source. source.name) all → AllByRecursion (λ source. source.setting.profile ≡ options.now.rules.profile) all
        → IsKeptBoard (kept_for options.now.format) board.now all → IfOk result (λ passes. Reports manifest.now options.now.rules options.now.drilling options.now.limit options.now.format (given_waivers options.now.waivers) outline.now (W.contents out.old) (W.contents out.new) passes all) }
{
    laws::report_agrees_with_check();
    let report = report_on(alloc, board, options.rules)?;
    let fewer = fewer_findings(alloc, options, board, &report)?;
    let drilling = said_drilling(options, &report);
    let about = Particulars {
        manifest,
        program: PROGRAM,
        fewer,
        drilling,
    };
    let reported = Reported {
        names,
        board,
        outline,
        report: &report,
        about: &about,
    };
    print_judged(alloc, &reported, options, out)
}
