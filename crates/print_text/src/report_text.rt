//! The text of a report.

ghost use Rattle.std.specs.Prelude.{◌≡◌, ◌+◌, ◌++◌, ℕ, IfOk, List, Some, length, map};
ghost use Rattle.std.specs.Fmt.{DisplaysOnOk};
ghost use Rattle.std.specs.List.{enumerate_from, flat_map};
ghost use Rattle.print_text.specs.Inner.{AreRuns, IsRun, gap_lines, ring_lines};
ghost use Rattle.print_text.specs.Texts.{causes_text, gaps_text, groups_text, head_text, last_lines, layer_text, summary_text, waived_report_text};

use crate::drilling::{Drilling, DrillingText};
use crate::fewer::{FewerLine, FewerWords};
use crate::kind::CAUSE_KINDS;
use crate::lines::{
    FileNames, GapLine, GapsLine, LastLine, LayerLine, MoreLine, ProfileRings, RingLine, RulesLine,
    SmallestLine,
};
use crate::measure_lines::NoPage;
use crate::met_lines::MeetsLine;
use crate::runs::{Run, runs_of};
use crate::summary::write_groups;
use crate::tallies::{
    gaps_hidden_count, is_on, is_shown, rings_hidden, rings_on, rings_without_pad, smallest_gap,
    smallest_ring, waived_on,
};
use grid_units::{Lines, Rules, name_of};
use report::{
    Acceptances, BoardReport, GapLack, LayerHead, RingLack, acceptance_of, count_waived,
    count_waived_first,
};
use std::alloc::{AllocError, Global};
use std::fmt;
use std::fmt::{Display, Formatter};
use std::marker::Model;

/// The rings of a report, and what their lines need.
#[derive(Clone, Copy)]
struct RingPage<'a> {
    /// The names of the files of the package.
    names: &'a [&'a str],
    rules: &'a Rules,
    /// All holes that lack their ring.
    rings: &'a [RingLack],
    /// The reasons why they are accepted.
    accepted: &'a [Option<&'a str>],
    /// How many findings are shown at most.
    limit: Option<usize>,
}

/// Writes the lines of those rings on the layer of a run that are shown.
fn write_rings<W: fmt::Write>(f: &mut Formatter<W>, page: &RingPage, run: Run) -> fmt::Result
    requires { IsRun page.now.rings.now (length page.now.rings.now) run.layer run }
    ensures { DisplaysOnOk W.write_str_gives f.old result (Some (ring_lines (map (λ name. name.now) page.now.names.now) page.now.rules.now page.now.accepted.now page.now.limit run.layer (enumerate_from 0 page.now.rings.now))) f.new }
{
    let (names, rules, rings) = (page.names, page.rules, page.rings);
    for i in run.first..run.end {
        let lack = &rings[i];
        if !is_on(lack, run.layer, is_shown(page.limit, i as u128)) {
            continue;
        }
        let why = acceptance_of(page.accepted, i);
        let number = i as u128 + 1;
        let line = RingLine {
            names,
            rules,
            number,
            lack,
            why,
        };
        write!(f, "{line}")?;
    }
    Ok(())
}

/// Writes a layer, by its run and its head: its line, the lines of its rings that are shown, and how many others there are.
fn write_layer<W: fmt::Write>(
    f: &mut Formatter<W>,
    page: &RingPage,
    run: Run,
    head: &LayerHead,
) -> fmt::Result
    requires { IsRun page.now.rings.now (length page.now.rings.now) run.layer run }
    ensures { DisplaysOnOk W.write_str_gives f.old result (Some (layer_text (map (λ name. name.now) page.now.names.now) page.now.rules.now page.now.limit page.now.rings.now page.now.accepted.now (run.layer, head.now))) f.new }
{
    let line = LayerLine {
        name: name_of(page.names, head.file),
        below: rings_on(page.rings, run),
        needed: head.needed,
        waived: waived_on(page.accepted, run, page.rings),
    };
    write!(f, "{line}")?;
    write_rings(f, page, run)?;
    write!(f, "{}", MoreLine(rings_hidden(page.rings, run, page.limit)))
}

/// Writes the layers, by their runs and their heads.
fn write_layers<W: fmt::Write>(
    f: &mut Formatter<W>,
    page: &RingPage,
    runs: &[Run],
    layers: &[LayerHead],
) -> fmt::Result
    requires length { length runs.now ≡ length layers.now }
    requires runs { AreRuns page.now.rings.now (length page.now.rings.now) runs.now }
    ensures { DisplaysOnOk W.write_str_gives f.old result (Some (flat_map (layer_text (map (λ name. name.now) page.now.names.now) page.now.rules.now page.now.limit page.now.rings.now page.now.accepted.now) (enumerate_from 0 layers.now))) f.new }
{
    for i in 0..layers.len() {
        write_layer(f, page, runs[i], &layers[i])?;
    }
    Ok(())
}

/// Writes the rings of the layers summed up by diameter.
fn write_all_groups<W: fmt::Write>(
    f: &mut Formatter<W>,
    page: &RingPage,
    runs: &[Run],
    layers: &[LayerHead],
) -> fmt::Result
    requires length { length runs.now ≡ length layers.now }
    requires runs { AreRuns page.now.rings.now (length page.now.rings.now) runs.now }
    ensures { DisplaysOnOk W.write_str_gives f.old result (Some (flat_map (groups_text (map (λ name. name.now) page.now.names.now) page.now.rings.now) (enumerate_from 0 layers.now))) f.new }
{
    for i in 0..layers.len() {
        let name = name_of(page.names, layers[i].file);
        write_groups(f, page.rings, runs[i], name)?;
    }
    Ok(())
}

/// Writes the rings summed up by layer and diameter, if there are more than ten findings.
fn write_summary<W: fmt::Write>(
    f: &mut Formatter<W>,
    page: &RingPage,
    runs: &[Run],
    layers: &[LayerHead],
    findings: u128,
) -> fmt::Result
    requires length { length runs.now ≡ length layers.now }
    requires runs { AreRuns page.now.rings.now (length page.now.rings.now) runs.now }
    ensures { DisplaysOnOk W.write_str_gives f.old result (Some (summary_text (map (λ name. name.now) page.now.names.now) findings layers.now page.now.rings.now)) f.new }
{
    if findings > 10 {
        write_all_groups(f, page, runs, layers)
    } else {
        Ok(())
    }
}

/// The gaps that are too small, after the rings: their number, the lines of those that are shown, and how many others there are.
#[derive(Clone, Copy)]
struct GapsText<'a> {
    /// The names of the files of the package.
    names: &'a [&'a str],
    rules: &'a Rules,
    gaps: &'a [GapLack],
    /// The reasons why they are accepted.
    accepted: &'a [Option<&'a str>],
    /// How many rings come before them.
    rings: usize,
    /// How many findings are shown at most.
    limit: Option<usize>,
}

/// Writes the lines of the gaps that are shown.
fn write_gaps<W: fmt::Write>(f: &mut Formatter<W>, text: &GapsText) -> fmt::Result
    ensures { DisplaysOnOk W.write_str_gives f.old result (Some (gap_lines (map (λ name. name.now) text.now.names.now) text.now.rules.now text.now.accepted.now text.now.limit text.now.rings (enumerate_from text.now.rings text.now.gaps.now))) f.new }
{
    let (names, rules, gaps) = (text.names, text.rules, text.gaps);
    for i in 0..gaps.len() {
        let lack = &gaps[i];
        let position = text.rings as u128 + i as u128;
        if !is_shown(text.limit, position) {
            continue;
        }
        let why = acceptance_of(text.accepted, i);
        let number = position + 1;
        let line = GapLine {
            names,
            rules,
            number,
            lack,
            why,
        };
        write!(f, "{line}")?;
    }
    Ok(())
}

impl Display for GapsText<'_> {
    ghost output = { λ text. Some (gaps_text (map (λ name. name.now) text.names.now) text.rules.now text.limit text.rings text.gaps.now text.accepted.now) };

    fn fmt<W: fmt::Write>(&self, f: &mut Formatter<W>) -> fmt::Result {
        let gaps = self.gaps.len();
        let waived = count_waived_first(self.accepted, gaps);
        write!(f, "{}", GapsLine { gaps, waived })?;
        write_gaps(f, self)?;
        let left = gaps_hidden_count(self.gaps, self.rings, self.limit);
        write!(f, "{}", MoreLine(left))
    }
}

/// The drill files whose coordinates seem to be off by a factor, those whose own comments contradict their role, the rules, and what drilling
/// leaves of them, where that is said.
#[derive(Clone, Copy)]
struct HeadText<'a> {
    /// The names of the files of the package.
    names: &'a [&'a str],
    report: &'a BoardReport,
    drilling: Option<Drilling>,
}

impl Display for HeadText<'_> {
    ghost output = { λ text. Some (head_text (map (λ name. name.now) text.names.now) text.report.now text.drilling) };

    fn fmt<W: fmt::Write>(&self, f: &mut Formatter<W>) -> fmt::Result {
        let page = FileNames(self.names);
        let scales = Lines {
            page: &page,
            lines: &self.report.scales,
        };
        let conflicts = Lines {
            page: &page,
            lines: &self.report.conflicts,
        };
        let drilled = DrillingText {
            rules: &self.report.rules,
            drilling: self.drilling,
        };
        let rules = RulesLine(&self.report.rules);
        write!(f, "{scales}{conflicts}{rules}{drilled}")
    }
}

/// Writes the findings: the layers, by their runs and their heads, the gaps, and the rings summed up if there are many findings.
fn write_findings<W: fmt::Write>(
    f: &mut Formatter<W>,
    page: &RingPage,
    gaps: &GapsText,
    runs: &[Run],
    layers: &[LayerHead],
) -> fmt::Result
    requires length { length runs.now ≡ length layers.now }
    requires runs { AreRuns page.now.rings.now (length page.now.rings.now) runs.now }
    ensures { DisplaysOnOk W.write_str_gives f.old result (Some (flat_map (layer_text (map (λ name. name.now) page.now.names.now) page.now.rules.now page.now.limit page.now.rings.now page.now.accepted.now) (enumerate_from 0 layers.now)
        ++ (gaps_text (map (λ name. name.now) gaps.now.names.now) gaps.now.rules.now gaps.now.limit gaps.now.rings gaps.now.gaps.now gaps.now.accepted.now
        ++ summary_text (map (λ name. name.now) page.now.names.now) (length page.now.rings.now + length gaps.now.gaps.now) layers.now page.now.rings.now))) f.new }
{
    write_layers(f, page, runs, layers)?;
    write!(f, "{gaps}")?;
    let findings = page.rings.len() as u128 + gaps.gaps.len() as u128;
    write_summary(f, page, runs, layers, findings)
}

/// The causes, and the smallest ring and gap.
#[derive(Clone, Copy)]
struct CausesText<'a>(&'a BoardReport);

impl Display for CausesText<'_> {
    ghost output = { λ text. Some (causes_text text.0.now) };

    fn fmt<W: fmt::Write>(&self, f: &mut Formatter<W>) -> fmt::Result {
        let rings = self.0.rings.as_slice();
        let page = ProfileRings {
            profile: self.0.rules.profile(),
            rings,
        };
        let kinds = Lines {
            page: &page,
            lines: &CAUSE_KINDS,
        };
        let ring = SmallestLine {
            words: "smallest ring ",
            rule: self.0.rules.ring(),
            least: smallest_ring(rings),
        };
        let gap = SmallestLine {
            words: "smallest gap ",
            rule: self.0.rules.gap(),
            least: smallest_gap(&self.0.gaps),
        };
        write!(f, "{kinds}{ring}{gap}")
    }
}

/// The last lines: the rules that the package meets, the waivers that match no finding, how many findings the wide profile does not have, and
/// the result.
#[derive(Clone, Copy)]
struct LastLines<'a> {
    report: &'a BoardReport,
    fewer: u128,
    accepted: &'a Acceptances<'a>,
}

impl Display for LastLines<'_> {
    ghost output = { λ text. Some (last_lines text.report.now text.fewer text.accepted.now.rings.now text.accepted.now.gaps.now text.accepted.now.idle.now) };

    fn fmt<W: fmt::Write>(&self, f: &mut Formatter<W>) -> fmt::Result {
        let (rings, gaps) = (self.report.rings.len(), self.report.gaps.len());
        let findings = rings as u128 + gaps as u128;
        let waived = count_waived(self.report, self.accepted);
        let idle = Lines {
            page: &NoPage,
            lines: self.accepted.idle,
        };
        let last = LastLine { findings, waived };
        let meets = MeetsLine {
            without: rings_without_pad(&self.report.rings),
            meets: self.report.meets,
        };
        let fewer = FewerWords {
            findings,
            fewer: self.fewer,
        };
        write!(f, "{meets}{idle}{}{last}", FewerLine(fewer))
    }
}

/// The text of a report for people, for clauses the bytes that are printed. A finding with a reason has it in its line, and is not
/// counted in the last line, which is `WAIVED 6` where each of the 6 findings has a reason. Without findings it is `PASS`.
#[derive(Drop)]
pub struct ReportText<'a> {
    names: &'a [&'a str],
    report: &'a BoardReport,
    fewer: u128,
    drilling: Option<Drilling>,
    limit: Option<usize>,
    accepted: &'a Acceptances<'a>,
    runs: Vec<Run>,
}

impl<'a> Model for ReportText<'a> {
    ghost Value = { List ℕ };

    ghost view = { λ text. waived_report_text (map (λ name. name.now) text.names.now) text.report.now text.fewer text.drilling text.limit text.accepted.now };

    ghost invariant = { λ text. (length text.runs.items ≡ length text.report.now.layers.items) × AreRuns text.report.now.rings.items (length text.report.now.rings.items) text.runs.items };
}

impl<'a> ReportText<'a> {
    /// The text of a report for people, with the reasons why findings are accepted. `names` are those of the package's files, `fewer`
    /// is how many of the findings the wide profile does not have, `drilling` how holes may be drilled, where it is said what that leaves of the rules,
    /// `limit` how many findings are shown at most. The rings may be in any order: what is allocated is a place for each layer, with the
    /// range from its first to its last ring, and only these are visited for its lines. Printing allocates nothing.
    ///
    /// # Errors
    ///
    /// An `AllocError` when memory runs out.
    pub fn new(
        alloc: Global,
        names: &'a [&'a str],
        report: &'a BoardReport,
        fewer: u128,
        drilling: Option<Drilling>,
        limit: Option<usize>,
        accepted: &'a Acceptances<'a>,
    ) -> Result<ReportText<'a>, AllocError>
        ensures { IfOk result (λ text. text ≡ waived_report_text (map (λ name. name.now) names.now) report.now fewer drilling limit accepted.now) }
    {
        let runs = runs_of(alloc, report.layers.len(), &report.rings)?;
        Ok(ReportText {
            names,
            report,
            fewer,
            drilling,
            limit,
            accepted,
            runs,
        })
    }
}

impl Display for ReportText<'_> {
    ghost output = { λ text. Some text };

    fn fmt<W: fmt::Write>(&self, f: &mut Formatter<W>) -> fmt::Result {
        let rings = RingPage {
            names: self.names,
            rules: &self.report.rules,
            rings: &self.report.rings,
            accepted: self.accepted.rings,
            limit: self.limit,
        };
        let gaps = GapsText {
            names: self.names,
            rules: &self.report.rules,
            gaps: &self.report.gaps,
            accepted: self.accepted.gaps,
            rings: self.report.rings.len(),
            limit: self.limit,
        };
        let head = HeadText {
            names: self.names,
            report: self.report,
            drilling: self.drilling,
        };
        let last = LastLines {
            report: self.report,
            fewer: self.fewer,
            accepted: self.accepted,
        };
        write!(f, "{head}")?;
        write_findings(f, &rings, &gaps, &self.runs, &self.report.layers)?;
        write!(f, "{}{last}", CausesText(self.report))
    }
}

/// What a report says beside its findings: on which manifest, by which program, how many findings the wide profile does not have, and how holes
/// may be drilled.
#[derive(Clone, Copy)]
pub struct Particulars<'a> {
    /// The name of the manifest, as the program was given it.
    pub manifest: &'a str,
    /// The program and its version: `ringcheck 0.1.0`.
    pub program: &'a str,
    /// How many of the findings of a report in the strict profile disappear in the wide one.
    pub fewer: u128,
    /// How far off and how much wider holes may be drilled, where the report says what that leaves of the rules.
    pub drilling: Option<Drilling>,
}
