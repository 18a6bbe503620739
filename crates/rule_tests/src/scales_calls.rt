//! Scales of small files, in pm.

use crate::rows::{add_round, disc, drilled, point};
use board::best_pads;
use pad_shapes::WidePad;
use report::UnitFactor::*;
use report::{UnitFactor, UnitMistake, *};
use ring_rules::Drilled;
use std::alloc::Global;
use std::test::Fail;

/// A millimetre, in pm.
const MM: i64 = 1_000_000_000;

/// A disc of 0.6 mm diameter at a place in millimetres.
fn disc_at(x: i64, y: i64) -> Result<WidePad, Fail> {
    let disc = disc(x.saturating_mul(MM), y.saturating_mul(MM), 300_000_000)?;
    Ok(WidePad::Plain(disc))
}

/// A hole of 0.4 mm between two points, in pm.
fn slot(from: (i64, i64), to: (i64, i64)) -> Result<Drilled, Fail> {
    drilled(from, to, 200_000_000)
}

/// A round hole at a place in millimetres.
fn hit(x: i64, y: i64) -> Result<Drilled, Fail> {
    let (x, y) = (x.saturating_mul(MM), y.saturating_mul(MM));
    slot((x, y), (x, y))
}

/// The line of a drill file with the index 1, if it has one.
fn line(alloc: Global, pads: &[WidePad], holes: &[Drilled]) -> Result<Option<UnitMistake>, Fail> {
    let bests = best_pads(alloc, pads, holes)?;
    let file = FileRange {
        drill: 1,
        start: 0,
        end: holes.len(),
    };
    let lines = unit_mistakes(alloc, pads, holes, &bests, &[file])?;
    Ok(*lines.first().ok_or("no line")?)
}

fn told(bare: usize, factor: UnitFactor, then: usize) -> Option<UnitMistake> {
    Some(UnitMistake {
        drill: 1,
        bare,
        factor,
        then,
    })
}

/// What a line says of bare holes: how many there are, the factor, and how many there are then.
type LineRow = (usize, UnitFactor, usize);

/// Places in millimetres.
type Places = &'static [(i64, i64)];

/// Discs of 0.6 mm diameter at places in millimetres.
fn discs_at(alloc: Global, places: Places) -> Result<Vec<WidePad>, Fail> {
    let mut pads = Vec::new(alloc);
    for &(x, y) in places {
        pads.push(disc_at(x, y)?)?;
    }
    Ok(pads)
}

/// Round holes of 0.4 mm at places in millimetres.
fn hits_at(alloc: Global, places: Places) -> Result<Vec<Drilled>, Fail> {
    let mut holes = Vec::new(alloc);
    for &(x, y) in places {
        add_round(
            &mut holes,
            x.saturating_mul(MM),
            y.saturating_mul(MM),
            200_000_000,
        )?;
    }
    Ok(holes)
}

/// The line of a drill file with round holes at these places, over discs at others.
fn line_at(alloc: Global, discs: Places, hits: Places) -> Result<Option<UnitMistake>, Fail> {
    line(alloc, &discs_at(alloc, discs)?, &hits_at(alloc, hits)?)
}

/// Discs, holes, and the line. All holes have their pads by ten, or there is no pad; a hole has its pad by ten and by an inch, and the
/// line names ten, or it has its pad by an inch alone; one hole of two is bare, and has its pad by ten; both are bare, and one of them
/// has its pad by ten; then two of three.
const LINES: [(Places, Places, Option<LineRow>); 7] = [
    (
        &[(10, 0), (20, 0), (30, 10)],
        &[(1, 0), (2, 0), (3, 1)],
        Some((3, Ten, 0)),
    ),
    (&[], &[(1, 0), (2, 0), (3, 1)], None),
    (&[(254, 0), (100, 0)], &[(10, 0)], Some((1, Ten, 0))),
    (&[(254, 0)], &[(10, 0)], Some((1, Inch, 0))),
    (&[(5, 5), (10, 0)], &[(5, 5), (1, 0)], None),
    (&[(5, 5), (10, 0)], &[(1, 0), (3, 3)], None),
    (
        &[(5, 5), (10, 0)],
        &[(1, 0), (3, 3), (1, 0)],
        Some((3, Ten, 1)),
    ),
];

#[test]
fn lines_of_round_holes(rt: HostRuntime) -> Result<(), Fail> {
    for &(discs, hits, row) in &LINES {
        let wanted = match row {
            Some((bare, factor, then)) => told(bare, factor, then),
            None => None,
        };
        assert!(rt; line_at(rt.alloc(), discs, hits)? == wanted);
    }
    Ok(())
}

/// Two slots have their pads, and all round holes are bare.
#[test]
fn slots_do_not_count(rt: HostRuntime) -> Result<(), Fail> {
    let pads = [disc_at(0, 0)?, disc_at(10, 0)?];
    let long = slot((0, 0), (1, 0))?;
    let holes = [long, hit(1, 0)?, long];
    assert!(rt; line(rt.alloc(), &pads, &holes)? == told(1, Ten, 0));
    Ok(())
}

/// The second hole lies in its pad, and the others would by ten. The files have the first hole, the second, both, the last two, and none.
#[test]
fn files_of_shared_holes(rt: HostRuntime) -> Result<(), Fail> {
    let pads = [disc_at(10, 0)?, disc_at(5, 5)?];
    let holes = [hit(1, 0)?, hit(5, 5)?, hit(1, 0)?, hit(1, 0)?];
    let bests = best_pads(rt.alloc(), &pads, &holes)?;
    let files = &[
        FileRange {
            drill: 1,
            start: 0,
            end: 1,
        },
        FileRange {
            drill: 2,
            start: 1,
            end: 2,
        },
        FileRange {
            drill: 3,
            start: 0,
            end: 2,
        },
        FileRange {
            drill: 1,
            start: 2,
            end: 4,
        },
        FileRange {
            drill: 5,
            start: 4,
            end: 4,
        },
    ];
    let lines = unit_mistakes(rt.alloc(), &pads, &holes, &bests, files)?;
    let wanted = &[told(1, Ten, 0), None, None, told(2, Ten, 0), None];
    assert!(rt; lines.as_slice() == wanted.as_slice());
    Ok(())
}

/// The x of a point with this x, scaled.
fn scaled_x(x: i64, factor: UnitFactor) -> Result<Option<i64>, Fail> {
    Ok(scaled_point(point(x, -10)?, factor).map(|place| place.x()))
}

#[test]
fn rounded_down(rt: HostRuntime) -> Result<(), Fail> {
    for &(x, factor, scaled) in &[
        (1, Ten, 10),
        (19, Tenth, 1),
        (-1, Tenth, -1),
        (-1, Inch, -26),
        (5, Inch, 127),
        (254, PerInch, 10),
        (-255, PerInch, -11),
    ] {
        assert!(rt; scaled_x(x, factor)? == Some(scaled), "of {x}");
    }
    Ok(())
}

/// Ten metres is a place; 10 pm more is not, and a hole with its place beyond is bare by each factor.
#[test]
fn beyond_ten_metres(rt: HostRuntime) -> Result<(), Fail> {
    let metre = 1_000 * MM;
    let near = scaled_point(point(0, metre)?, Ten).is_some();
    let beyond = scaled_point(point(0, metre + 1)?, Ten).is_some();
    let far = slot((2 * metre, 0), (2 * metre, 0))?;
    let line = line(rt.alloc(), &[disc_at(0, 0)?], &[far])?;
    assert!(rt; (near, beyond) == (true, false) && line.is_none());
    Ok(())
}
