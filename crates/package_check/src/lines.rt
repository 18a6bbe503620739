//! The lines of a report.

ghost use Rattle.std.specs.Prelude.{◌≡◌, Some, map, slice_get};
ghost use Rattle.std.specs.Fmt.{DisplaysOnOk};
ghost use Rattle.package_check.specs.Texts.{contour_words, drill_words, yes_or_no, file_line, file_lines, finding_line, gap_line, hole_line, last_line, lengths_of, line_if_found, profile_words, rules_line, span_words};

use crate::{FileSum, Report};
use grid_units::{Hole, Line, Profile, Rules, write_mm};
use ring_rules::{Finding, Span};
use std::fmt;
use std::fmt::{Display, Formatter};

/// The profile at the end of the first line: ` profile=wide`; nothing of the strict one.
fn profile_words(profile: Profile) -> &'static str
    ensures { result.now ≡ profile_words profile }
{
    match profile {
        Profile::Strict => "",
        Profile::Wide => " profile=wide",
    }
}

/// Writes the first line, of the rules in millimetres: `rules ring=0.125000000 gap=0.250000000`.
pub(crate) fn write_rules<W: fmt::Write>(f: &mut Formatter<W>, rules: Rules) -> fmt::Result
    ensures { DisplaysOnOk W.write_str_gives f.old result (Some (rules_line rules)) f.new }
{
    let (ring, gap) = (write_mm(rules.ring()), write_mm(rules.gap()));
    let profile = profile_words(rules.profile());
    write!(f, "rules ring={ring} gap={gap}{profile}\n")
}

fn yes_or_no(plated: bool) -> &'static str
    ensures { result.now ≡ yes_or_no plated }
{
    if plated { "yes" } else { "no" }
}

/// The span of a drill file: ` span=1-2`; nothing where it has none.
#[derive(Clone, Copy)]
struct SpanWords(Option<Span>);

impl Display for SpanWords {
    ghost output = { λ words. Some (span_words words.0) };

    fn fmt<W: fmt::Write>(&self, f: &mut Formatter<W>) -> fmt::Result {
        match self.0 {
            Some(span) => write!(f, " span={}-{}", span.first(), span.last()),
            None => Ok(()),
        }
    }
}

/// The contours of a layer: ` contours=0`; nothing in the strict profile.
#[derive(Clone, Copy)]
struct ContourWords {
    profile: Profile,
    contours: usize,
}

impl Display for ContourWords {
    ghost output = { λ words. Some (contour_words words.profile words.contours) };

    fn fmt<W: fmt::Write>(&self, f: &mut Formatter<W>) -> fmt::Result {
        match self.profile {
            Profile::Strict => Ok(()),
            Profile::Wide => write!(f, " contours={}", self.contours),
        }
    }
}

/// The line of a drill file up to its counts, by its number, whether it is plated, its round holes and its slots.
#[derive(Clone, Copy)]
struct DrillHead(usize, &'static str, usize, usize);

impl Display for DrillHead {
    ghost output = { λ it. Some (drill_words it.0 it.1.now it.2 it.3) };

    #[tactic(auto, unfolding(crate::specs::Texts::drill_words))]
    fn fmt<W: fmt::Write>(&self, f: &mut Formatter<W>) -> fmt::Result {
        let DrillHead(number, plated, round, slots) = *self;
        write!(
            f,
            "file {number} drill plated={plated} round={round} slots={slots}"
        )
    }
}

/// Writes the line of a file, by its number from 1.
#[tactic(auto, unfolding(crate::specs::Texts::layer_words))]
fn write_file<W: fmt::Write>(
    f: &mut Formatter<W>,
    profile: Profile,
    number: usize,
    name: &str,
    sum: FileSum,
) -> fmt::Result
    ensures { DisplaysOnOk W.write_str_gives f.old result (Some (file_line profile number name.now sum)) f.new }
{
    match sum {
        FileSum::Layer {
            pads,
            other,
            contours,
        } => {
            let contours = ContourWords { profile, contours };
            write!(f, "file {number} layer pads={pads} other={other}{contours}")?;
            write!(f, " name={name}\n")
        }
        FileSum::Drill {
            plated,
            span,
            round,
            slots,
            ..
        } => {
            let plated = yes_or_no(plated);
            let (words, span) = (DrillHead(number, plated, round, slots), SpanWords(span));
            write!(f, "{words}{span} name={name}\n")
        }
        FileSum::Mixed {
            span,
            round,
            slots,
            unplated,
        } => {
            let (words, span) = (DrillHead(number, "mixed", round, slots), SpanWords(span));
            write!(f, "{words} unplated={unplated}{span} name={name}\n")
        }
    }
}

/// The lines of the files of a package, numbered from 1, as long as there is both a name and a count:
/// `file 1 layer pads=1 other=0 name=top`, `file 2 drill plated=yes round=1 slots=0 name=pth`.
#[derive(Clone, Copy)]
pub struct FileLines<'a> {
    /// The profile in which the files were read.
    pub profile: Profile,
    /// The names of the files.
    pub names: &'a [&'a str],
    /// The counts of the files.
    pub files: &'a [FileSum],
}

impl Display for FileLines<'_> {
    ghost output = { λ lines. Some (file_lines lines.profile 1 (map (λ name. name.now) lines.names.now) lines.files.now) };

    fn fmt<W: fmt::Write>(&self, f: &mut Formatter<W>) -> fmt::Result {
        for (index, name) in self.names.iter().enumerate() {
            if index >= self.files.len() {
                return Ok(());
            }
            write_file(f, self.profile, index + 1, name, self.files[index])?;
        }
        Ok(())
    }
}

/// Writes the centre of a round hole or the ends of a slot, and the diameter, in millimetres, with a line end.
#[tactic(auto, unfolding(crate::specs::Texts::length_words, crate::specs::Texts::slot_words))]
fn write_lengths<W: fmt::Write>(f: &mut Formatter<W>, hole: &Hole) -> fmt::Result
    ensures { DisplaysOnOk W.write_str_gives f.old result (Some (lengths_of hole.now)) f.new }
{
    let (from, to) = (hole.from(), hole.to());
    let (x, y) = (write_mm(from.x()), write_mm(from.y()));
    let diameter = write_mm(2 * hole.radius());
    if hole.is_round() {
        return write!(f, " x={x} y={y} diameter={diameter}\n");
    }
    let (x2, y2) = (write_mm(to.x()), write_mm(to.y()));
    write!(f, " x1={x} y1={y} x2={x2} y2={y2} diameter={diameter}\n")
}

/// Writes the line of a hole that lacks its ring on a layer: `RING layer=1 drill=2 hole=1`, and the lengths of the hole. Writes nothing
/// where the report has no such layer or hole.
#[tactic(auto, unfolding(crate::specs::Texts::place_words))]
fn write_hole<W: fmt::Write>(
    f: &mut Formatter<W>,
    kind: &str,
    report: &Report,
    layer: usize,
    hole: usize,
) -> fmt::Result
    ensures { DisplaysOnOk W.write_str_gives f.old result (Some (line_if_found (hole_line kind.now) (slice_get report.now.layers layer) (slice_get report.now.holes hole))) f.new }
{
    let Some(layer) = report.layers().get(layer).copied() else {
        return Ok(());
    };
    let Some(hole) = &report.hole(hole) else {
        return Ok(());
    };
    let (layer, drill) = (layer as u128 + 1, hole.file as u128 + 1);
    let number = hole.number;
    write!(f, "{kind} layer={layer} drill={drill} hole={number}")?;
    write_lengths(f, &hole.drilled.hole)
}

/// Writes the line of two holes that lack their gap. Writes nothing where the report has no such hole.
fn write_gap<W: fmt::Write>(
    f: &mut Formatter<W>,
    report: &Report,
    first: usize,
    second: usize,
) -> fmt::Result
    ensures { DisplaysOnOk W.write_str_gives f.old result (Some (line_if_found gap_line (slice_get report.now.holes first) (slice_get report.now.holes second))) f.new }
{
    let Some(first) = report.hole(first) else {
        return Ok(());
    };
    let Some(second) = report.hole(second) else {
        return Ok(());
    };
    let (drill, hole) = (first.file as u128 + 1, first.number);
    let (other_drill, other_hole) = (second.file as u128 + 1, second.number);
    write!(
        f,
        "GAP drill={drill} hole={hole} drill={other_drill} hole={other_hole}\n"
    )
}

/// The line of a finding; nothing where it names no layer or hole of the report.
impl Line<Report> for Finding {
    ghost text = { λ report finding. finding_line report.layers report.holes finding };

    #[tactic(auto, unfolding(crate::specs::Texts::finding_line))]
    fn fmt_on<W: fmt::Write>(&self, report: &Report, f: &mut Formatter<W>) -> fmt::Result {
        match *self {
            Finding::Ring { layer, hole } => write_hole(f, "RING", report, layer, hole),
            Finding::Oblique { layer, hole } => write_hole(f, "OBLIQUE", report, layer, hole),
            Finding::Gap { first, second } => write_gap(f, report, first, second),
        }
    }
}

/// Writes the last line, by how many findings there are: `PASS` where there is none, else for example `FINDINGS 2`.
pub(crate) fn write_last<W: fmt::Write>(f: &mut Formatter<W>, findings: usize) -> fmt::Result
    ensures { DisplaysOnOk W.write_str_gives f.old result (Some (last_line findings)) f.new }
{
    if findings == 0 {
        return f.write_str("PASS\n");
    }
    write!(f, "FINDINGS {findings}\n")
}
