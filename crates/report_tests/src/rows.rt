//! Flashes, holes and reports as rows of figures, in pm.

use grid_units::{Hole, Point, Profile, Reason, Rules};
use layer_state::What;
use pad_shapes::{Disc, Obround, Pad, Rect, Why};
use report::{
    BoardReport, GapLack, HolePlace, LayerHead, Meets, Met, PlacedHole, RingAtEdge, RingCause,
    RingInPad, RingLack,
};
use std::alloc::{AllocError, Global};

/// Why a row could not be tried.
#[derive(Clone, Copy, Debug, PartialEq, Eq)]
pub(crate) enum RowFail {
    /// Memory ran out.
    Memory,
    /// Its figures are those of no point, pad, hole or rule.
    Figures,
}

impl From<AllocError> for RowFail {
    fn from(_error: AllocError) -> RowFail {
        RowFail::Memory
    }
}

impl From<Reason> for RowFail {
    fn from(_reason: Reason) -> RowFail {
        RowFail::Figures
    }
}

/// What is flashed: a disc of a radius, a pad of two half sides, or what is no pad.
#[derive(Clone, Copy)]
pub(crate) enum Form {
    Disc(i64),
    Rect(i64, i64),
    Obround(i64, i64),
    Other(Why),
}

pub(crate) fn what_at(form: Form, at: Point) -> Option<What> {
    match form {
        Form::Disc(radius) => Some(What::Pad(Pad::Disc(Disc::new(at, radius)?))),
        Form::Rect(x, y) => Some(What::Pad(Pad::Rect(Rect::new(at, x, y)?))),
        Form::Obround(x, y) => Some(What::Pad(Pad::Obround(Obround::new(at, x, y)?))),
        Form::Other(why) => Some(What::Other(why)),
    }
}

/// The pad of this form round a point.
pub(crate) fn pad_at(form: Form, centre: (i64, i64)) -> Option<Pad> {
    match what_at(form, Point::new(centre.0, centre.1)?)? {
        What::Pad(pad) => Some(pad),
        What::Other(_) => None,
    }
}

/// Why a hole lacks its ring. For a hole in a pad: the number of its flash, its form and centre unless it is rounded, the ring and the lack.
#[derive(Clone, Copy)]
pub(crate) enum CauseRow {
    OffCentre(usize, Form, (i64, i64), i64, i64),
    Edge(usize, i64, i64),
    Other(Why, usize),
    Clear(usize),
    Cleared(usize),
    NoFlash,
    Oblique,
}

/// A hole in the pad of a flash, with its ring and what that lacks.
fn in_pad(flash: usize, pad: Option<Pad>, ring: i64, lack: i64) -> Option<RingInPad> {
    Some(RingInPad {
        flash,
        pad: pad?,
        ring,
        lack,
    })
}

fn cause_of(row: CauseRow) -> Option<RingCause> {
    match row {
        CauseRow::OffCentre(flash, form, centre, ring, lack) => {
            Some(RingCause::OffCentre(in_pad(flash, pad_at(form, centre), ring, lack)?))
        }
        CauseRow::Edge(flash, ring, lack) => {
            Some(RingCause::Edge(RingAtEdge { flash, ring, lack }))
        }
        CauseRow::Other(why, flash) => Some(RingCause::Other { why, flash }),
        CauseRow::Clear(flash) => Some(RingCause::Clear { flash }),
        CauseRow::Cleared(flash) => Some(RingCause::Cleared { flash }),
        CauseRow::NoFlash => Some(RingCause::NoFlash),
        CauseRow::Oblique => Some(RingCause::Oblique),
    }
}

/// A hole: the index of its drill file, its number there, its two ends, and its diameter.
pub(crate) type HoleRow = (usize, usize, (i64, i64), (i64, i64), i64);

fn hole_of(row: HoleRow) -> Option<PlacedHole> {
    let (drill, number, from, to, diameter) = row;
    let (from, to) = (Point::new(from.0, from.1)?, Point::new(to.0, to.1)?);
    Some(PlacedHole {
        place: HolePlace { drill, number },
        hole: Hole::new(from, to, diameter / 2)?,
    })
}

/// A hole that lacks its ring: the layer, the hole, and why.
pub(crate) type RingRow = (usize, HoleRow, CauseRow);

/// Two holes that lack their gap, the gap, and the lack.
pub(crate) type GapRow = (HoleRow, HoleRow, i64, i64);

fn gap_of(row: GapRow) -> Option<GapLack> {
    let (first, second, gap, lack) = row;
    Some(GapLack {
        first: hole_of(first)?,
        second: hole_of(second)?,
        gap,
        lack,
    })
}

/// A report: the required ring and gap, the profile, the layers, the findings, and the ring, the gap and the ring of holes in pads that the
/// package meets.
#[derive(Clone, Copy)]
pub(crate) struct ReportRow<'a> {
    pub(crate) rules: (i64, i64),
    pub(crate) profile: Profile,
    pub(crate) layers: &'a [LayerHead],
    pub(crate) rings: &'a [RingRow],
    pub(crate) gaps: &'a [GapRow],
    pub(crate) meets: (Met, Met, Met),
}

/// A report of these rules, without layers and findings.
fn report_under(alloc: Global, rules: Rules, (ring, gap, in_pads): (Met, Met, Met)) -> BoardReport {
    BoardReport {
        rules,
        layers: Vec::new(alloc),
        rings: Vec::new(alloc),
        gaps: Vec::new(alloc),
        scales: Vec::new(alloc),
        conflicts: Vec::new(alloc),
        meets: Meets { ring, gap, in_pads },
    }
}

pub(crate) fn add_ring(report: &mut BoardReport, row: RingRow) -> Result<(), RowFail> {
    let (layer, hole, cause) = row;
    let at = hole_of(hole).ok_or(RowFail::Figures)?;
    let cause = cause_of(cause).ok_or(RowFail::Figures)?;
    match report.rings.push(RingLack { layer, at, cause }) {
        Ok(_) => Ok(()),
        Err(_) => Err(RowFail::Memory),
    }
}

fn add_gap(report: &mut BoardReport, row: GapRow) -> Result<(), RowFail> {
    let gap = gap_of(row).ok_or(RowFail::Figures)?;
    match report.gaps.push(gap) {
        Ok(_) => Ok(()),
        Err(_) => Err(RowFail::Memory),
    }
}

fn add_findings(report: &mut BoardReport, row: &ReportRow) -> Result<(), RowFail> {
    for ring in row.rings {
        add_ring(report, *ring)?;
    }
    for gap in row.gaps {
        add_gap(report, *gap)?;
    }
    Ok(())
}

fn fill(report: &mut BoardReport, row: &ReportRow) -> Result<(), RowFail> {
    report.layers.extend_from_slice(row.layers)?;
    add_findings(report, row)
}

/// The report of a row.
pub(crate) fn report_of(alloc: Global, row: &ReportRow) -> Result<BoardReport, RowFail> {
    let rules = Rules::new(row.rules.0, row.rules.1)?;
    let mut report = report_under(alloc, rules.in_profile(row.profile), row.meets);
    fill(&mut report, row)?;
    Ok(report)
}
