//! The rows of the table: one for each finding.

ghost use Rattle.std.specs.Prelude.{pos, length, map, slice_get, Some};
ghost use Rattle.std.specs.Fmt.{DisplaysOnOk};
ghost use Rattle.std.specs.List.{enumerate_from};
ghost use Rattle.picture.specs.Escapes.{escaped_name};
ghost use Rattle.report_page.specs.Pages.{cause_words, gap_end, gap_place, gap_row, gap_rows, hole_words, layer_name, reason_words, ring_end, ring_place, ring_row, ring_rows, ring_words, table_rows};

use crate::cells::{
    CauseCell, DiameterWords, HoleCell, ReasonWords, RingCell, layer_name, write_start,
};
use grid_units::{Rules, ShortMillimetres};
use picture::Escaped;
use report::{Acceptances, BoardReport, GapLack, LayerHead, RingCause, RingLack, acceptance_of};
use std::fmt;
use std::fmt::{Display, Formatter};

/// Writes the cells of a ring to its diameter: the layer, the hole and the diameter.
#[tactic(auto, unfolding(crate::specs::Pages::ring_place))]
fn write_ring_place<W: fmt::Write>(
    f: &mut Formatter<W>,
    names: &[&str],
    layers: &[LayerHead],
    lack: &RingLack,
) -> fmt::Result
    ensures { DisplaysOnOk W.write_str_gives f.old result (Some (ring_place (escaped_name (layer_name (map (λ name. name.now) names.now) (slice_get layers.now lack.now.layer))) (hole_words (map (λ name. name.now) names.now) lack.now.at) lack.now.at.hole)) f.new }
{
    let layer = Escaped(layer_name(names, layers, lack.layer));
    let at = &lack.at;
    let (hole, diameter) = (HoleCell { names, at }, DiameterWords(&at.hole));
    write!(f, "{layer}</td><td>{hole}</td><td>{diameter}</td><td>")
}

/// Writes the last cells of a ring: the ring that it has, the rule, the cause and the reason why it is waived.
#[tactic(auto, unfolding(crate::specs::Pages::ring_end))]
fn write_ring_end<W: fmt::Write>(
    f: &mut Formatter<W>,
    rules: &Rules,
    cause: &RingCause,
    why: Option<&str>,
) -> fmt::Result
    ensures { DisplaysOnOk W.write_str_gives f.old result (Some (ring_end (ring_words cause.now) (pos rules.now.ring) (cause_words cause.now) (reason_words why.entry))) f.new }
{
    let (ring, rule) = (RingCell(cause), ShortMillimetres(rules.ring()));
    let (cause, why) = (CauseCell(cause), ReasonWords(why));
    write!(
        f,
        "{ring}</td><td>{rule}</td><td>{cause}</td><td>{why}</td></tr>\n"
    )
}

/// Writes the row of a hole that lacks its ring, by the number of the finding, from 1.
fn write_ring<W: fmt::Write>(
    f: &mut Formatter<W>,
    names: &[&str],
    layers: &[LayerHead],
    rules: &Rules,
    number: u128,
    lack: &RingLack,
    why: Option<&str>,
) -> fmt::Result
    ensures { DisplaysOnOk W.write_str_gives f.old result (Some (ring_row (map (λ name. name.now) names.now) layers.now rules.now number lack.now why.entry)) f.new }
{
    write_start(f, number, "annular ring")?;
    write_ring_place(f, names, layers, lack)?;
    write_ring_end(f, rules, &lack.cause, why)
}

/// Writes the cells of a gap to the diameters: all layers, the two holes and their diameters.
#[tactic(auto, unfolding(crate::specs::Pages::gap_place))]
fn write_gap_place<W: fmt::Write>(
    f: &mut Formatter<W>,
    names: &[&str],
    lack: &GapLack,
) -> fmt::Result
    ensures { DisplaysOnOk W.write_str_gives f.old result (Some (gap_place (hole_words (map (λ name. name.now) names.now) lack.now.first) (hole_words (map (λ name. name.now) names.now) lack.now.second) lack.now.first.hole lack.now.second.hole)) f.new }
{
    let (first, second) = (&lack.first, &lack.second);
    let (one, other) = (DiameterWords(&first.hole), DiameterWords(&second.hole));
    let first = HoleCell { names, at: first };
    let second = HoleCell { names, at: second };
    write!(
        f,
        "all</td><td>{first}, and {second}</td><td>{one}, {other}</td><td>"
    )
}

/// Writes the last cells of a gap, in pm: the gap, the rule, no cause, and the reason why it is waived.
fn write_gap_end<W: fmt::Write>(
    f: &mut Formatter<W>,
    gap: i64,
    rule: i64,
    why: Option<&str>,
) -> fmt::Result
    ensures { DisplaysOnOk W.write_str_gives f.old result (Some (gap_end gap rule (reason_words why.entry))) f.new }
{
    let (gap, rule, why) = (
        ShortMillimetres(gap),
        ShortMillimetres(rule),
        ReasonWords(why),
    );
    write!(f, "{gap}</td><td>{rule}</td><td></td><td>{why}</td></tr>\n")
}

/// Writes the row of two holes that lack their gap, by the number of the finding, from 1.
fn write_gap<W: fmt::Write>(
    f: &mut Formatter<W>,
    names: &[&str],
    rules: &Rules,
    number: u128,
    lack: &GapLack,
    why: Option<&str>,
) -> fmt::Result
    ensures { DisplaysOnOk W.write_str_gives f.old result (Some (gap_row (map (λ name. name.now) names.now) rules.now number lack.now why.entry)) f.new }
{
    write_start(f, number, "hole to hole")?;
    write_gap_place(f, names, lack)?;
    write_gap_end(f, lack.gap, rules.gap(), why)
}

/// The rows of a report: those of the rings, then those of the gaps.
#[derive(Clone, Copy)]
pub(crate) struct Rows<'a> {
    /// The names of the files of the package.
    pub(crate) names: &'a [&'a str],
    pub(crate) report: &'a BoardReport,
    pub(crate) accepted: &'a Acceptances<'a>,
}

/// Writes the rows of the rings.
fn write_ring_rows<W: fmt::Write>(f: &mut Formatter<W>, rows: &Rows) -> fmt::Result
    ensures { DisplaysOnOk W.write_str_gives f.old result (Some (ring_rows (map (λ name. name.now) rows.now.names.now) rows.now.report.now.layers.items rows.now.report.now.rules rows.now.accepted.now.rings.now (enumerate_from 0 rows.now.report.now.rings.items))) f.new }
{
    let (names, report) = (rows.names, rows.report);
    let rings = report.rings.as_slice();
    for i in 0..rings.len() {
        let (lack, number) = (&rings[i], i as u128 + 1);
        let why = acceptance_of(rows.accepted.rings, i);
        write_ring(f, names, &report.layers, &report.rules, number, lack, why)?;
    }
    Ok(())
}

/// Writes the rows of the gaps.
fn write_gap_rows<W: fmt::Write>(f: &mut Formatter<W>, rows: &Rows) -> fmt::Result
    ensures { DisplaysOnOk W.write_str_gives f.old result (Some (gap_rows (map (λ name. name.now) rows.now.names.now) rows.now.report.now.rules rows.now.accepted.now.gaps.now (length rows.now.report.now.rings.items) (enumerate_from (length rows.now.report.now.rings.items) rows.now.report.now.gaps.items))) f.new }
{
    let (names, report) = (rows.names, rows.report);
    let rings = report.rings.as_slice();
    let gaps = report.gaps.as_slice();
    let before = rings.len() as u128;
    for i in 0..gaps.len() {
        let (lack, number) = (&gaps[i], before + i as u128 + 1);
        let why = acceptance_of(rows.accepted.gaps, i);
        write_gap(f, names, &report.rules, number, lack, why)?;
    }
    Ok(())
}

impl Display for Rows<'_> {
    ghost output = { λ all. Some (table_rows (map (λ name. name.now) all.names.now) all.report.now all.accepted.now.rings.now all.accepted.now.gaps.now) };

    fn fmt<W: fmt::Write>(&self, f: &mut Formatter<W>) -> fmt::Result {
        write_ring_rows(f, self)?;
        write_gap_rows(f, self)
    }
}
