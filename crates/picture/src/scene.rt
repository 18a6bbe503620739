//! The contents of a layer's panel.

ghost use Rattle.std.specs.Prelude.{◌≡◌, ◌<◌, ◌^◌, ◌++◌, slice_get, IfOk, IsPermutation, OnOk};
ghost use Rattle.picture.specs.Scenes.{AreSortedBySize, cross_of, crosses_of, drawn_gap, is_crowded, kind_of, drawn_finding, drawn_findings, plain_pad, plain_pads, drawn_ring, round_pad, rounded_pads, shown_copper, unless_crowded};

use grid_units::{Hole, Point};
use pad_shapes::{Drawn, FeatureRow, Pad, Rounded, WidePad};
use ring_rules::{Drilled, Finding};
use std::alloc::{AllocError, Global};

/// The most rows and holes that a panel draws, and the most parts of what its layer draws.
const DRAWN_LIMIT: usize = 100_000;

/// An insufficient ring or gap, with the number of its finding, from 1.
#[derive(Clone, Copy)]
pub enum DrawnFinding {
    /// The ring of a hole.
    Ring {
        /// The number of the finding.
        number: usize,
        /// The hole.
        hole: Hole,
    },
    /// The gap between two holes.
    Gap {
        /// The number of the finding.
        number: usize,
        /// The one hole.
        first: Hole,
        /// The other hole.
        second: Hole,
    },
}

/// What a panel shows of a layer, in either profile.
#[derive(Clone, Copy)]
pub struct LayerCopper<'a> {
    /// Its rows: its flashes, and the contours that are pads, in the order of the text.
    pub rows: &'a [FeatureRow],
    /// Its pads: those of the rows that are pads, in the same order.
    pub pads: &'a [WidePad],
    /// What it draws, in order.
    pub drawn: &'a [Drawn],
}

/// The contents of a panel.
#[derive(Drop)]
pub struct Scene<'a> {
    /// Whether there are more than 100,000 rows and holes: then none of them is drawn.
    pub crowded: bool,
    /// What the layer draws, in order; nothing in a crowded panel, or where it is more than 100,000 parts.
    pub drawn: &'a [Drawn],
    /// The outline of the board: what a file of its edge draws, in order.
    pub outline: &'a [Drawn],
    /// The plain pads in order of kind and size, so that pads alike stand next to each other.
    pub pads: Vec<Pad>,
    /// The pads that are rounded polygons, in the order of the rows.
    pub rounded: Vec<Rounded>,
    /// The points of the rows that are no pads.
    pub crosses: Vec<Point>,
    /// The holes.
    pub holes: &'a [Drilled],
    /// The insufficient rings and gaps, in the order of the findings.
    pub lacks: Vec<DrawnFinding>,
}

/// Whether there are more rows and holes than a panel draws.
fn is_crowded(rows: &[FeatureRow], holes: &[Drilled]) -> bool
    ensures { result ≡ is_crowded rows.now holes.now }
{
    match rows.len().checked_add(holes.len()) {
        Some(count) => count > DRAWN_LIMIT,
        None => true,
    }
}

/// The rows, pads or holes that are drawn: none in a crowded panel.
fn unless_crowded<T>(crowded: bool, items: &[T]) -> &[T]
    ensures { result.now ≡ unless_crowded crowded items.now }
{
    if crowded { &[] } else { items }
}

/// What a panel shows of what its layer draws: nothing in a crowded panel, or above the limit.
pub(crate) fn shown_copper(crowded: bool, drawn: &[Drawn]) -> &[Drawn]
    ensures { result.now ≡ shown_copper crowded drawn.now }
{
    if crowded || drawn.len() > DRAWN_LIMIT {
        &[]
    } else {
        drawn
    }
}

/// The kind of a pad (0 disc, 1 rectangle, 2 obround), and its half sides in pm.
fn kind_of(pad: &Pad) -> (u8, u64, u64)
    ensures { result ≡ kind_of pad.now }
{
    match pad {
        Pad::Disc(disc) => {
            let radius = disc.radius().unsigned_abs();
            (0, radius, radius)
        }
        Pad::Rect(rect) => (
            1,
            rect.half_x().unsigned_abs(),
            rect.half_y().unsigned_abs(),
        ),
        Pad::Obround(obround) => (
            2,
            obround.half_x().unsigned_abs(),
            obround.half_y().unsigned_abs(),
        ),
    }
}

/// Adds a pad, if it is a plain one.
fn push_plain(pads: &mut Vec<Pad>, pad: &WidePad) -> Result<(), AllocError>
    ensures { OnOk result (pads.new.items ≡ pads.old.items ++ plain_pad pad.now) }
{
    if let WidePad::Plain(plain) = pad {
        pads.push(*plain)?;
    }
    Ok(())
}

/// Adds a pad on the board, if it is a rounded polygon.
fn push_rounded(alloc: Global, pads: &mut Vec<Rounded>, pad: &WidePad) -> Result<(), AllocError>
    ensures { OnOk result (pads.new.items ≡ pads.old.items ++ round_pad pad.now) }
{
    if let WidePad::Rounded(placed) = pad {
        pads.push(placed.on_board(alloc)?)?;
    }
    Ok(())
}

/// Adds the point of a row that is no pad.
fn push_cross(points: &mut Vec<Point>, row: &FeatureRow) -> Result<(), AllocError>
    ensures { OnOk result (points.new.items ≡ points.old.items ++ cross_of row.now) }
{
    if !row.what.is_pad() {
        points.push(row.at)?;
    }
    Ok(())
}

/// The plain ones among some pads, in order.
fn plain_pads(alloc: Global, all: &[WidePad]) -> Result<Vec<Pad>, AllocError>
    ensures { IfOk result (λ pads. pads.items ≡ plain_pads all.now) }
{
    let mut pads = Vec::new(alloc);
    for pad in all {
        push_plain(&mut pads, pad)?;
    }
    Ok(pads)
}

/// The rounded polygons among some pads, in order.
fn rounded_pads(alloc: Global, all: &[WidePad]) -> Result<Vec<Rounded>, AllocError>
    ensures { IfOk result (λ pads. pads.items ≡ rounded_pads all.now) }
{
    let mut pads = Vec::new(alloc);
    for pad in all {
        push_rounded(alloc, &mut pads, pad)?;
    }
    Ok(pads)
}

/// The plain ones among some pads, in order of kind and size.
fn sorted_pads(alloc: Global, all: &[WidePad]) -> Result<Vec<Pad>, AllocError>
    ensures all { IfOk result (λ pads. IsPermutation (plain_pads all.now) pads.items) }
    ensures order { IfOk result (λ pads. AreSortedBySize pads.items) }
{
    let mut pads = plain_pads(alloc, all)?;
    pads.sort_by_key(|pad| kind_of(pad))?;
    Ok(pads)
}

/// The points of the rows that are no pads, in order.
fn crosses_of(alloc: Global, rows: &[FeatureRow]) -> Result<Vec<Point>, AllocError>
    ensures { IfOk result (λ points. points.items ≡ crosses_of rows.now) }
{
    let mut points = Vec::new(alloc);
    for row in rows {
        push_cross(&mut points, row)?;
    }
    Ok(points)
}

/// The hole at a place, if there is one.
fn hole_at(holes: &[Drilled], place: usize) -> Option<Drilled>
    ensures { result ≡ slice_get holes.now place }
{
    holes.get(place).copied()
}

/// Adds the insufficient ring of a hole, if there is such a hole.
fn push_ring(
    lacks: &mut Vec<DrawnFinding>,
    number: usize,
    hole: Option<Drilled>,
) -> Result<(), AllocError>
    ensures { OnOk result (lacks.new.items ≡ lacks.old.items ++ drawn_ring number hole) }
{
    if let Some(drilled) = hole {
        lacks.push(DrawnFinding::Ring {
            number,
            hole: drilled.hole,
        })?;
    }
    Ok(())
}

/// Adds the insufficient gap between two holes, if there are both.
fn push_gap(
    lacks: &mut Vec<DrawnFinding>,
    number: usize,
    first: Option<Drilled>,
    second: Option<Drilled>,
) -> Result<(), AllocError>
    ensures { OnOk result (lacks.new.items ≡ lacks.old.items ++ drawn_gap number first second) }
{
    if let (Some(first), Some(second)) = (first, second) {
        lacks.push(DrawnFinding::Gap {
            number,
            first: first.hole,
            second: second.hole,
        })?;
    }
    Ok(())
}

/// Adds what a finding shows in the panel of a layer, by the finding's place in the list.
#[tactic(auto, unfolding(crate::specs::Scenes::drawn_finding))]
fn push_lack(
    lacks: &mut Vec<DrawnFinding>,
    layer: usize,
    holes: &[Drilled],
    place: usize,
    finding: Finding,
) -> Result<(), AllocError>
    requires { place < 2 ^ 63 }
    ensures { OnOk result (lacks.new.items ≡ lacks.old.items ++ drawn_finding layer holes.now (place, finding)) }
{
    match finding {
        Finding::Ring { layer: l, hole } | Finding::Oblique { layer: l, hole } => {
            if l == layer {
                push_ring(lacks, place + 1, hole_at(holes, hole))?;
            }
            Ok(())
        }
        Finding::Gap { first, second } => push_gap(
            lacks,
            place + 1,
            hole_at(holes, first),
            hole_at(holes, second),
        ),
    }
}

/// What the findings show in the panel of a layer.
fn drawn_findings(
    alloc: Global,
    layer: usize,
    holes: &[Drilled],
    findings: &[Finding],
) -> Result<Vec<DrawnFinding>, AllocError>
    ensures { IfOk result (λ lacks. lacks.items ≡ drawn_findings layer holes.now findings.now) }
{
    let mut lacks = Vec::new(alloc);
    for (place, finding) in findings.iter().enumerate() {
        push_lack(&mut lacks, layer, holes, place, *finding)?;
    }
    Ok(lacks)
}

/// The contents of a layer's panel, by the layer's place among the copper files, from 0: what it draws, unless that is more than 100,000
/// parts; its plain pads in order of kind and size, its rounded ones, the points of its rows that are no pads, and all holes, or none of all
/// these where the rows and holes are more than 100,000; and the insufficient rings and gaps, numbered from 1 in the order of the findings.
/// A layer or a hole in a finding is a place in the lists that were checked. The parts of the board's outline stand there as they are.
///
/// # Errors
///
/// An `AllocError` when memory runs out.
pub fn scene_of<'a>(
    alloc: Global,
    layer: usize,
    copper: LayerCopper<'a>,
    outline: &'a [Drawn],
    holes: &'a [Drilled],
    findings: &[Finding],
) -> Result<Scene<'a>, AllocError>
    ensures crowded { IfOk result (λ s. s.crowded ≡ is_crowded copper.entry.rows.now holes.now) }
    ensures drawn { IfOk result (λ scene. scene.drawn.now ≡ shown_copper scene.crowded copper.entry.drawn.now) }
    ensures outline { IfOk result (λ scene. scene.outline.now ≡ outline.entry.now) }
    ensures pads { IfOk result (λ scene. IsPermutation (plain_pads (unless_crowded scene.crowded copper.entry.pads.now)) scene.pads.items) }
    ensures order { IfOk result (λ scene. AreSortedBySize scene.pads.items) }
    ensures rounded { IfOk result (λ scene. scene.rounded.items ≡ rounded_pads (unless_crowded scene.crowded copper.entry.pads.now)) }
    ensures crosses { IfOk result (λ scene. scene.crosses.items ≡ crosses_of (unless_crowded scene.crowded copper.entry.rows.now)) }
    ensures holes { IfOk result (λ scene. scene.holes.now ≡ unless_crowded scene.crowded holes.now) }
    ensures lacks { IfOk result (λ scene. scene.lacks.items ≡ drawn_findings layer holes.now findings.now) }
{
    let crowded = is_crowded(copper.rows, holes);
    let pads = unless_crowded(crowded, copper.pads);
    Ok(Scene {
        crowded,
        drawn: shown_copper(crowded, copper.drawn),
        outline,
        pads: sorted_pads(alloc, pads)?,
        rounded: rounded_pads(alloc, pads)?,
        crosses: crosses_of(alloc, unless_crowded(crowded, copper.rows))?,
        holes: unless_crowded(crowded, holes),
        lacks: drawn_findings(alloc, layer, holes, findings)?,
    })
}
