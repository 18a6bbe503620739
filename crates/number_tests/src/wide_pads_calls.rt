//! Holes at any angle in the pads of the wide profile, and the greatest rings with which they are covered.

use self::Copper::*;
use grid_units::{Hole, Point, Rules};
use pad_shapes::{
    Disc, Obround, Pad, PadShape, PlacedRounded, Rect, Rounded, SharedRounded, SlotShape, WidePad,
    Zone, covers_hole,
};
use ring_rules::{Drilled, Finding, ring_findings};
use std::alloc::Global;
use std::test::Fail;

/// A micrometre in pm.
const MICROMETRE: i64 = 1_000_000;

/// A place in micrometres.
type Place = (i16, i16);

/// A pad of the tests, about the origin.
#[derive(Clone, Copy)]
enum Copper {
    /// A disc of 2.5 mm.
    Disc,
    /// A rectangle of 2.0 mm by 1.6 mm.
    Rect,
    /// An obround of 3.0 mm by 1.0 mm.
    Obround,
    /// A square of 1 mm whose corners have a radius of 0.25 mm.
    RoundSquare,
    /// A line from -0.5,-0.5 mm to 0.5,0.5 mm, with round ends of a radius of 0.5 mm.
    ObliqueOval,
    /// A diamond whose edges are 1.2 mm from its centre.
    Diamond,
}

/// A length in micrometres, in pm.
fn micrometres(length: i16) -> i64 {
    i64::from(length) * MICROMETRE
}

/// The point at a place.
fn point(at: Place) -> Result<Point, Fail> {
    Ok(Point::new(micrometres(at.0), micrometres(at.1)).ok_or("point")?)
}

/// A hole between these ends, with this radius in micrometres.
fn hole(from: Place, to: Place, radius: i16) -> Result<Hole, Fail> {
    Ok(Hole::new(point(from)?, point(to)?, micrometres(radius)).ok_or("hole")?)
}

/// The disc of the tests.
fn disc() -> Result<Disc, Fail> {
    Ok(Disc::new(point((0, 0))?, micrometres(1_250)).ok_or("disc")?)
}

/// The rectangle of the tests.
fn rect() -> Result<Rect, Fail> {
    Ok(Rect::new(point((0, 0))?, micrometres(1_000), micrometres(800)).ok_or("rectangle")?)
}

/// The obround of the tests.
fn obround() -> Result<Obround, Fail> {
    Ok(Obround::new(point((0, 0))?, micrometres(1_500), micrometres(500)).ok_or("obround")?)
}

/// The rounded polygon of these corners and this radius in micrometres.
fn rounded(alloc: Global, first: Place, others: &[Place], radius: i16) -> Result<Rounded, Fail> {
    let mut corners = Vec::new(alloc);
    for corner in others {
        corners.push(point(*corner)?)?;
    }
    Ok(Rounded::new(point(first)?, corners, micrometres(radius)).ok_or("rounded")?)
}

/// A rounded polygon of the tests; a diamond for every plain pad.
fn polygon(alloc: Global, copper: Copper) -> Result<Rounded, Fail> {
    match copper {
        RoundSquare => {
            let others = [(-250, 250), (-250, -250), (250, -250)];
            rounded(alloc, (250, 250), &others, 250)
        }
        ObliqueOval => rounded(alloc, (-500, -500), &[(500, 500)], 500),
        _ => rounded(
            alloc,
            (1_500, 0),
            &[(0, 2_000), (-1_500, 0), (0, -2_000)],
            0,
        ),
    }
}

/// A rounded polygon that is moved nowhere.
fn placed(alloc: Global, shape: Rounded) -> Result<PlacedRounded, Fail> {
    let shape = SharedRounded::new(alloc, shape)?;
    Ok(PlacedRounded::new(&shape, 0, 0)?.ok_or("placed")?)
}

/// A pad of the tests.
fn pad(alloc: Global, copper: Copper) -> Result<WidePad, Fail> {
    match copper {
        Disc => Ok(WidePad::Plain(Pad::Disc(disc()?))),
        Rect => Ok(WidePad::Plain(Pad::Rect(rect()?))),
        Obround => Ok(WidePad::Plain(Pad::Obround(obround()?))),
        _ => Ok(WidePad::Rounded(placed(alloc, polygon(alloc, copper)?)?)),
    }
}

/// Whether a pad of any kind covers a hole with this ring in pm.
fn is_covered<S: SlotShape>(pad: &S, hole: &Hole, ring: i64) -> Result<bool, Fail> {
    let rules = Rules::new(ring, 1).ok().ok_or("rules")?;
    Ok(covers_hole(pad, hole, rules))
}

/// A pad, the ends of a hole and its radius, and the greatest ring with which the pad covers the hole, in micrometres. `None`: it does
/// not cover it without a ring.
type Row = (Copper, Place, Place, i16, Option<i16>);

/// A disc of radius 1.25 mm: 0.75 mm are left at a distance of 0.5 mm, of 0.3 and 0.4 mm along the axes, and 0.25 mm at 1.0 mm. Of the
/// three holes with no ring, one has its first end in the disc, one its second, and one its middle.
const IN_DISC: [Row; 8] = [
    (Disc, (-300, -400), (300, 400), 500, Some(250)),
    (Disc, (300, 400), (-400, 300), 500, Some(250)),
    (Disc, (300, 400), (300, 400), 500, Some(250)),
    (Disc, (-600, -800), (600, 800), 250, Some(0)),
    (Disc, (0, 0), (-600, 800), 200, Some(50)),
    (Disc, (-300, -400), (900, 1_200), 500, None),
    (Disc, (-900, -1_200), (300, 400), 500, None),
    (Disc, (-900, -1_200), (900, 1_200), 500, None),
];

/// A rectangle: 0.5 mm are left at x = 0.5 mm and at y = 0.3 mm, 0.4 mm at x = 0.6 mm.
const IN_RECT: [Row; 3] = [
    (Rect, (-500, -300), (400, 300), 300, Some(200)),
    (Rect, (-500, -300), (600, 300), 300, Some(100)),
    (Rect, (-500, -300), (600, 600), 300, None),
];

/// An obround whose axis ends at x = 1.0 mm: 0.3 mm are left at 0.2 mm from the axis, as at 0.12 and 0.16 mm past its end; less at
/// 0.2 and 0.2 mm, where the rectangle of its sides would have 0.3 mm.
const IN_OBROUND: [Row; 4] = [
    (Obround, (-1_120, -160), (1_120, 160), 200, Some(100)),
    (Obround, (-1_120, -160), (500, 200), 200, Some(100)),
    (Obround, (-1_120, -160), (1_200, 200), 300, None),
    (Obround, (-1_120, -160), (1_400, 0), 200, None),
];

/// A rounded square: 0.325 mm are left 0.075 mm inside of its corners' box, and 0.225 mm at 0.015 and 0.02 mm past a corner, or 0.025 mm
/// past an edge. The oval: its radius is left at its two ends. The diamond: 0.72 mm are left 0.48 mm from its centre, across an edge.
const IN_ROUNDED: [Row; 8] = [
    (RoundSquare, (-175, -100), (175, 100), 200, Some(125)),
    (RoundSquare, (-265, -270), (265, 270), 100, Some(125)),
    (RoundSquare, (-175, -100), (275, 0), 100, Some(125)),
    (ObliqueOval, (-500, -500), (500, 500), 375, Some(125)),
    (ObliqueOval, (-500, -500), (600, 600), 375, None),
    (ObliqueOval, (-600, -600), (600, 600), 375, None),
    (Diamond, (300, -400), (-300, 400), 600, Some(120)),
    (Diamond, (300, -400), (-900, 1_200), 600, None),
];

/// Whether a pad covers a hole with this ring in micrometres, and not with one that is greater by 1 pm.
fn is_greatest_ring(pad: &WidePad, hole: &Hole, greatest: Option<i16>) -> Result<bool, Fail> {
    let Some(greatest) = greatest else {
        return Ok(!is_covered(pad, hole, 0)?);
    };
    let ring = micrometres(greatest);
    Ok(is_covered(pad, hole, ring)? && !is_covered(pad, hole, ring.saturating_add(1))?)
}

#[test]
fn holes_are_covered_up_to_a_greatest_ring(rt: HostRuntime) -> Result<(), Fail> {
    for rows in [IN_DISC.as_slice(), &IN_RECT, &IN_OBROUND, &IN_ROUNDED] {
        for &(copper, from, to, radius, greatest) in rows {
            let pad = pad(rt.alloc(), copper)?;
            let hole = hole(from, to, radius)?;
            assert!(rt;
                is_greatest_ring(&pad, &hole, greatest)?,
                "to {},{}",
                to.0,
                to.1
            );
        }
    }
    Ok(())
}

#[test]
fn each_shape_covers_an_oblique_slot(rt: HostRuntime) -> Result<(), Fail> {
    let slot = hole((-300, -100), (300, 100), 200)?;
    let ring = micrometres(100);
    let covered = [
        is_covered(&disc()?, &slot, ring)?,
        is_covered(&rect()?, &slot, ring)?,
        is_covered(&obround()?, &slot, ring)?,
        is_covered(&Pad::Obround(obround()?), &slot, ring)?,
        is_covered(&polygon(rt.alloc(), Diamond)?, &slot, ring)?,
    ];
    assert!(rt; covered.iter().all(|it| *it));
    Ok(())
}

/// Pads, and their least and greatest x in micrometres.
const EXTENTS: [(Copper, i16, i16); 6] = [
    (Disc, -1_250, 1_250),
    (Rect, -1_000, 1_000),
    (Obround, -1_500, 1_500),
    (RoundSquare, -500, 500),
    (ObliqueOval, -1_000, 1_000),
    (Diamond, -1_500, 1_500),
];

/// The zone of the origin alone.
const ORIGIN: Zone = Zone {
    left: 0,
    right: 0,
    bottom: 0,
    top: 0,
};

#[test]
fn wide_pads_extend_as_the_pads_in_them(rt: HostRuntime) -> Result<(), Fail> {
    for &(copper, left, right) in &EXTENTS {
        let pad = pad(rt.alloc(), copper)?;
        assert!(rt;
            pad.left() == micrometres(left) && pad.right() == micrometres(right),
            "to {right}"
        );
        assert!(rt; pad.may_cover(&ORIGIN, 0) && pad.zone(0).is_some());
    }
    Ok(())
}

/// A slot along an axis in the disc, a round hole in the diamond alone, and one in neither of them with the ring.
const DRILLED: [(Place, Place, i16); 3] = [
    ((-500, 0), (500, 0), 500),
    ((0, 1_400), (0, 1_400), 200),
    ((1_250, 0), (1_250, 0), 200),
];

#[test]
fn the_search_of_rings_takes_wide_pads(rt: HostRuntime) -> Result<(), Fail> {
    let disc = pad(rt.alloc(), Disc)?;
    let diamond = pad(rt.alloc(), Diamond)?;
    let mut holes = Vec::new(rt.alloc());
    for &(from, to, radius) in &DRILLED {
        holes.push(Drilled {
            hole: hole(from, to, radius)?,
            plated: true,
            span: None,
        })?;
    }
    let rules = Rules::new(micrometres(125), 1).ok().ok_or("rules")?;
    let pads = [disc, diamond];
    let found = ring_findings(rt.alloc(), &[pads.as_slice()], &holes, rules)?;
    let lacking = [Finding::Ring { layer: 0, hole: 2 }];
    assert!(rt; found.as_slice() == lacking.as_slice());
    Ok(())
}
