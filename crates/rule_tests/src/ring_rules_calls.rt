//! The findings of small boards, and how often pads are asked.

ghost use Rattle.std.specs.Prelude.{◌≡◌, pos, ◌+ℤ◌, ◌-ℤ◌};
ghost use Rattle.pad_shapes.specs.Shapes.{IsInDisc, disc_covers};
ghost use Rattle.pad_shapes.specs.Inner.ShapeLaws.{disc_contains_covered, disc_contains_slots, disc_between, disc_extent};

use crate::rows::{
    HOLE, HoleRow, PadRow, Shape, add_holes, add_pads, add_round, disc, drilled, point, rect, round,
};
use grid_units::{Point, Rules};
use pad_shapes::{Disc, Pad, PadShape, Zone};
use ring_rules::*;
use std::alloc::{AllocError, Global};
use std::cell::Cell;
use std::rc::Rc;
use std::test::Fail;

/// A millimetre in pm.
const MM: i64 = 1_000_000_000;

/// A disc that counts how often it is asked.
#[derive(Drop)]
struct Counted {
    disc: Disc,
    calls: Rc<Cell<u64>>,
}

impl PadShape for Counted {
    ghost points = { λ s. IsInDisc s.disc };

    ghost covers = { λ s. disc_covers s.disc };

    ghost left = { λ s. s.disc.centre.x -ℤ pos s.disc.radius };

    ghost right = { λ s. s.disc.centre.x +ℤ pos s.disc.radius };

    ghost holds = { λ s. disc_contains_covered s.disc };

    ghost holds_slots = { λ s. disc_contains_slots s.disc };

    ghost between = { λ s. disc_between s.disc };

    ghost extent = { λ s. disc_extent s.disc };

    fn covers(&self, hole: Point, reach: i64) -> bool {
        self.calls.set(self.calls.get().saturating_add(1));
        self.disc.covers(hole, reach)
    }

    fn left(&self) -> i64 {
        self.disc.left()
    }

    fn right(&self) -> i64 {
        self.disc.right()
    }
}

/// A ring of 0.125 mm and a gap of 0.25 mm.
fn usual_rules() -> Result<Rules, Fail> {
    Ok(Rules::new(125_000_000, 250_000_000).ok().ok_or("rules")?)
}

/// Whether these are just the findings of rings on some layers.
fn rings_are(alloc: Global, layers: &[&[Pad]], holes: &[Drilled], expected: &[Finding]) -> bool {
    let Ok(rules) = Rules::new(125_000_000, 250_000_000) else {
        return false;
    };
    match ring_findings(alloc, layers, holes, rules) {
        Ok(found) => found.as_slice() == expected,
        Err(_) => false,
    }
}

/// Whether these are just the findings of rings on a layer, or on two, of holes that are plated or not.
fn finds_rings(
    alloc: Global,
    top: &[PadRow],
    bottom: Option<&[PadRow]>,
    holes: &[HoleRow],
    plated: bool,
    expected: &[Finding],
) -> bool {
    let mut first = Vec::new(alloc);
    let mut second = Vec::new(alloc);
    let mut drills = Vec::new(alloc);
    let is_made = add_pads(&mut first, top).is_some()
        && add_pads(&mut second, bottom.unwrap_or(&[])).is_some()
        && add_holes(&mut drills, holes, plated).is_some();
    match bottom {
        None => is_made && rings_are(alloc, &[first.as_slice()], &drills, expected),
        Some(_) => {
            let layers = [first.as_slice(), second.as_slice()];
            is_made && rings_are(alloc, &layers, &drills, expected)
        }
    }
}

/// A slot of 2 mm along x.
const SLOT: HoleRow = ((0, 0), (2 * MM, 0), 250_000_000);

const OBLIQUE: HoleRow = ((0, 5 * MM), (2 * MM, 6 * MM), 250_000_000);

const LARGE: PadRow = (Shape::Rect, 0, 0, 50 * MM, 50 * MM);

const RING: Finding = Finding::Ring { layer: 0, hole: 0 };

/// Pads of a layer, holes, and the findings. Discs, obrounds and rectangles hold up to equality. Two pads together
/// hold nothing. A wide pad holds a hole far from its centre. A slot along an axis needs one pad at both ends, from
/// whichever of them it is drilled.
const RINGS: [(&[PadRow], &[HoleRow], &[Finding]); 17] = [
    (&[(Shape::Disc, 0, 0, 325_000_000, 0)], &[HOLE], &[]),
    (&[(Shape::Disc, 1_000, 0, 325_000_000, 0)], &[HOLE], &[RING]),
    (
        &[(Shape::Disc, 0, 0, 825_000_000, 0)],
        &[(
            (300_000_000, 400_000_000),
            (300_000_000, 400_000_000),
            200_000_000,
        )],
        &[],
    ),
    (
        &[(Shape::Disc, 0, 0, 825_000_000, 0)],
        &[(
            (300_001_000, 400_000_000),
            (300_001_000, 400_000_000),
            200_000_000,
        )],
        &[RING],
    ),
    (
        &[(Shape::Obround, 0, 0, 1_000_000_000, 500_000_000)],
        &[(
            (605_000_000, 140_000_000),
            (605_000_000, 140_000_000),
            200_000_000,
        )],
        &[],
    ),
    (
        &[(Shape::Obround, 0, 0, 1_000_000_000, 500_000_000)],
        &[(
            (605_000_000, 150_000_000),
            (605_000_000, 150_000_000),
            200_000_000,
        )],
        &[RING],
    ),
    (
        &[(Shape::Rect, 0, 0, 1_000_000_000, 350_000_000)],
        &[((0, 600_000_000), (0, 600_000_000), 200_000_000)],
        &[RING],
    ),
    (
        &[(Shape::Rect, 0, 0, 350_000_000, 1_000_000_000)],
        &[((0, 600_000_000), (0, 600_000_000), 200_000_000)],
        &[],
    ),
    (
        &[
            (Shape::Rect, -500_000_000, 0, 500_000_000, 1_000_000_000),
            (Shape::Rect, 500_000_000, 0, 500_000_000, 1_000_000_000),
        ],
        &[HOLE],
        &[RING],
    ),
    (
        &[(Shape::Rect, 0, 0, 100 * MM, MM)],
        &[((95 * MM, 0), (95 * MM, 0), 200_000_000)],
        &[],
    ),
    (
        &[(Shape::Rect, 0, 0, 100 * MM, MM)],
        &[((99_700_000_000, 0), (99_700_000_000, 0), 200_000_000)],
        &[RING],
    ),
    (
        &[(Shape::Obround, MM, 0, 1_375_000_000, 375_000_000)],
        &[SLOT],
        &[],
    ),
    (
        &[(Shape::Obround, MM, 0, 1_370_000_000, 375_000_000)],
        &[SLOT],
        &[RING],
    ),
    (
        &[
            (Shape::Disc, 0, 0, 375_000_000, 0),
            (Shape::Disc, 2 * MM, 0, 375_000_000, 0),
        ],
        &[SLOT],
        &[RING],
    ),
    (
        &[
            (Shape::Obround, MM, 0, 1_375_000_000, 375_000_000),
            (Shape::Obround, 21 * MM, 0, 1_375_000_000, 375_000_000),
        ],
        &[
            SLOT,
            ((10 * MM, 0), (12 * MM, 0), 250_000_000),
            ((22 * MM, 0), (20 * MM, 0), 250_000_000),
        ],
        &[Finding::Ring { layer: 0, hole: 1 }],
    ),
    (
        &[LARGE],
        &[OBLIQUE],
        &[Finding::Oblique { layer: 0, hole: 0 }],
    ),
    (&[], &[HOLE], &[RING]),
];

#[test]
fn rings_on_a_layer(rt: HostRuntime) {
    for &(pads, holes, expected) in &RINGS {
        assert!(rt; finds_rings(rt.alloc(), pads, None, holes, true, expected));
    }
}

/// Findings come by layer and then by hole, oblique slots among rings.
#[test]
fn rings_on_two_layers(rt: HostRuntime) {
    let holes = &[HOLE, OBLIQUE, ((MM, 0), (MM, 0), 200_000_000)];
    let expected = &[
        Finding::Ring { layer: 0, hole: 0 },
        Finding::Oblique { layer: 0, hole: 1 },
        Finding::Ring { layer: 0, hole: 2 },
        Finding::Oblique { layer: 1, hole: 1 },
    ];
    assert!(rt; finds_rings(rt.alloc(), &[], Some(&[LARGE]), holes, true, expected));
    let expected = &[
        Finding::Ring { layer: 0, hole: 0 },
        Finding::Ring { layer: 1, hole: 0 },
    ];
    assert!(rt; finds_rings(rt.alloc(), &[], Some(&[]), &[HOLE], true, expected));
}

#[test]
fn no_layers_have_no_rings(rt: HostRuntime) -> Result<(), Fail> {
    assert!(rt; rings_are(rt.alloc(), &[], &[round(0, 0, 200_000_000)?], &[]));
    Ok(())
}

#[test]
fn unplated_holes_and_slots_need_no_ring(rt: HostRuntime) {
    let holes = &[
        HOLE,
        ((0, 0), (MM, 0), 200_000_000),
        ((0, 0), (MM, MM), 200_000_000),
    ];
    assert!(rt; finds_rings(rt.alloc(), &[], None, holes, false, &[]));
    assert!(rt; finds_rings(rt.alloc(), &[LARGE], None, &[OBLIQUE], false, &[]));
}

/// Whether these are just the findings of gaps.
fn finds_gaps(alloc: Global, rows: &[HoleRow], expected: &[Finding]) -> bool {
    let mut holes = Vec::new(alloc);
    let is_made = add_holes(&mut holes, rows, true).is_some();
    let Ok(rules) = Rules::new(125_000_000, 250_000_000) else {
        return false;
    };
    match gap_findings(alloc, &holes, rules) {
        Ok(found) => is_made && found.as_slice() == expected,
        Err(_) => false,
    }
}

const FIRST_TWO: Finding = Finding::Gap {
    first: 0,
    second: 1,
};

const FIRST_AND_THIRD: Finding = Finding::Gap {
    first: 0,
    second: 2,
};

const LAST_TWO: Finding = Finding::Gap {
    first: 1,
    second: 2,
};

/// Holes, and the findings: by the first and then by the second hole; a hole far off in y hides none; holes are clear
/// up to equality; a slot is measured along its whole length.
const GAPS: [(&[HoleRow], &[Finding]); 7] = [
    (
        &[
            HOLE,
            ((100_000_000, 0), (100_000_000, 0), 200_000_000),
            ((200_000_000, 0), (200_000_000, 0), 200_000_000),
        ],
        &[FIRST_TWO, FIRST_AND_THIRD, LAST_TWO],
    ),
    (
        &[
            HOLE,
            ((100_000_000, 5 * MM), (100_000_000, 5 * MM), 200_000_000),
            ((200_000_000, 0), (200_000_000, 0), 200_000_000),
        ],
        &[FIRST_AND_THIRD],
    ),
    (
        &[
            HOLE,
            (
                (390_000_000, 520_000_000),
                (390_000_000, 520_000_000),
                200_000_000,
            ),
        ],
        &[],
    ),
    (&[HOLE, HOLE], &[FIRST_TWO]),
    (
        &[SLOT, ((MM, 750_000_000), (MM, 750_000_000), 250_000_000)],
        &[],
    ),
    (
        &[SLOT, ((MM, 749_000_000), (MM, 749_000_000), 250_000_000)],
        &[FIRST_TWO],
    ),
    (
        &[OBLIQUE, ((0, 6 * MM), (0, 6 * MM), 250_000_000)],
        &[FIRST_TWO],
    ),
];

#[test]
fn gaps_of_holes(rt: HostRuntime) {
    for &(holes, expected) in &GAPS {
        assert!(rt; finds_gaps(rt.alloc(), holes, expected));
    }
}

#[test]
fn holes_are_clear_up_to_equality(rt: HostRuntime) -> Result<(), Fail> {
    let near = round(0, 0, 200_000_000)?;
    let far = round(390_000_000, 520_000_000, 200_000_000)?;
    assert!(rt; clear_of(&near.hole, &far.hole, usual_rules()?));
    Ok(())
}

/// A hundred times a hundred discs, a millimetre apart.
fn grid_of_discs(alloc: Global, calls: &Rc<Cell<u64>>) -> Result<Vec<Counted>, Fail> {
    let mut pads = Vec::new(alloc);
    for column in 0..100u8 {
        for row in 0..100u8 {
            let at = point(i64::from(column) * MM, i64::from(row) * MM)?;
            let disc = Disc::new(at, 325_000_000).ok_or("disc")?;
            let calls = calls.clone()?;
            pads.push(Counted { disc, calls })?;
        }
    }
    Ok(pads)
}

/// A plated hole of 0.4 mm at each of these points.
fn plated_at(alloc: Global, centres: &[Point]) -> Result<Vec<Drilled>, Fail> {
    let mut holes = Vec::new(alloc);
    for centre in centres {
        add_round(&mut holes, centre.x(), centre.y(), 200_000_000)?;
    }
    Ok(holes)
}

/// The centres of the discs, in descending order of x and then of y.
fn centres(alloc: Global) -> Result<Vec<Point>, Fail> {
    let mut centres = Vec::new(alloc);
    for column in (0..100u8).rev() {
        for row in (0..100u8).rev() {
            centres.push(point(i64::from(column) * MM, i64::from(row) * MM)?)?;
        }
    }
    Ok(centres)
}

#[test]
fn few_pads_are_asked(rt: HostRuntime) -> Result<(), Fail> {
    let calls = Rc::new(rt.alloc(), Cell::new(0))?;
    let pads = grid_of_discs(rt.alloc(), &calls)?;
    let holes = plated_at(rt.alloc(), &centres(rt.alloc())?)?;
    let found = ring_findings(rt.alloc(), &[pads.as_slice()], &holes, usual_rules()?)?;
    assert!(rt; found.is_empty() && calls.get() <= 1_000_000);
    Ok(())
}

/// How many findings there are, and the first of them.
fn count_and_first(found: &[Finding]) -> (usize, Option<Finding>) {
    (found.len(), found.first().copied())
}

/// The number of findings of rings of ten thousand holes on a pad, and the first of them.
fn rings_in(alloc: Global, pad: Pad) -> Result<(usize, Option<Finding>), Fail> {
    let holes = plated_at(alloc, &centres(alloc)?)?;
    let found = ring_findings(alloc, &[[pad].as_slice()], &holes, usual_rules()?)?;
    Ok(count_and_first(&found))
}

#[test]
fn a_large_pad_holds_what_lies_in_it(rt: HostRuntime) -> Result<(), Fail> {
    let all = rect(50 * MM, 50 * MM, 51 * MM, 51 * MM)?;
    assert!(rt; rings_in(rt.alloc(), all)? == (0, None));
    let less = rect(49 * MM, 50 * MM, 49_400_000_000, 51 * MM)?;
    assert!(rt; rings_in(rt.alloc(), less)? == (100, Some(RING)));
    Ok(())
}

/// A thousand points in a crowd and a thousand others spread over 18 m, by turns.
fn crowd(alloc: Global) -> Result<Vec<Point>, Fail> {
    let mut points = Vec::new(alloc);
    for number in 0..1_000u16 {
        let k = i64::from(number);
        points.push(point(k % 32 * MM, k / 32 * MM)?)?;
        let x = k % 40 * 450_000_000_000 - 9_000_000_000_000;
        let y = k / 40 * 700_000_000_000 - 9_000_000_000_000;
        points.push(point(x, y)?)?;
    }
    Ok(points)
}

/// The number of findings of rings on two layers of holes at these points, and the first of them. The first layer has a disc at each
/// point, and the second at the first thousand.
fn rings_at(alloc: Global, points: &[Point]) -> Result<(usize, Option<Finding>), Fail> {
    let mut pads = Vec::new(alloc);
    for point in points {
        pads.push(Disc::new(*point, 325_000_000).ok_or("disc")?)?;
    }
    let layers = [pads.as_slice(), &pads[..pads.len().min(1_000)]];
    let found = ring_findings(alloc, &layers, &plated_at(alloc, points)?, usual_rules()?)?;
    Ok(count_and_first(&found))
}

/// The number of findings of gaps between holes at these points, and the first of them.
fn gaps_at(alloc: Global, points: &[Point]) -> Result<(usize, Option<Finding>), Fail> {
    let found = gap_findings(alloc, &plated_at(alloc, points)?, usual_rules()?)?;
    Ok(count_and_first(&found))
}

#[test]
fn a_crowd_hides_no_ring(rt: HostRuntime) -> Result<(), Fail> {
    let wanted = Finding::Ring {
        layer: 1,
        hole: 1_000,
    };
    assert!(rt; rings_at(rt.alloc(), &crowd(rt.alloc())?)? == (1_000, Some(wanted)));
    Ok(())
}

#[test]
fn a_crowd_hides_no_gap(rt: HostRuntime) -> Result<(), Fail> {
    let mut points = crowd(rt.alloc())?;
    assert!(rt; gaps_at(rt.alloc(), &points)? == (0, None));
    points.push(point(5 * MM, 5 * MM)?)?;
    let wanted = Finding::Gap {
        first: 330,
        second: 2_000,
    };
    assert!(rt; gaps_at(rt.alloc(), &points)? == (1, Some(wanted)));
    Ok(())
}

#[test]
fn a_hole_drilled_twice_is_two_holes(rt: HostRuntime) -> Result<(), Fail> {
    let mut centres = centres(rt.alloc())?;
    assert!(rt; gaps_at(rt.alloc(), &centres)? == (0, None));
    centres.push(point(0, 0)?)?;
    let wanted = Finding::Gap {
        first: 9_999,
        second: 10_000,
    };
    assert!(rt; gaps_at(rt.alloc(), &centres)? == (1, Some(wanted)));
    Ok(())
}

/// The findings of rings of a hole of 0.4 mm through these of two layers; only the first of the two holds it.
fn rings_through(alloc: Global, span: Option<Span>) -> Result<Vec<Finding>, Fail> {
    let top = [disc(0, 0, 325_000_000)?];
    let bottom = [disc(1_000, 0, 325_000_000)?];
    let hole = Drilled {
        span,
        ..round(0, 0, 200_000_000)?
    };
    let layers = [top.as_slice(), bottom.as_slice()];
    Ok(ring_findings(alloc, &layers, &[hole], usual_rules()?)?)
}

/// Spans, and the findings of rings on two layers.
const SPANS: [(Option<(u32, u32)>, &[Finding]); 3] = [
    (Some((1, 1)), &[]),
    (Some((1, 2)), &[Finding::Ring { layer: 1, hole: 0 }]),
    (None, &[Finding::Ring { layer: 1, hole: 0 }]),
];

#[test]
fn a_span_names_the_layers_that_need_a_ring(rt: HostRuntime) -> Result<(), Fail> {
    for &(span, wanted) in &SPANS {
        let span = match span {
            Some((first, last)) => Span::new(first, last),
            None => None,
        };
        assert!(rt; rings_through(rt.alloc(), span)?.as_slice() == wanted);
    }
    Ok(())
}

#[test]
fn a_span_changes_no_gap(rt: HostRuntime) -> Result<(), Fail> {
    let upper = Drilled {
        span: Span::new(1, 2),
        ..round(0, 0, 200_000_000)?
    };
    let lower = Drilled {
        span: Span::new(3, 4),
        ..round(100_000_000, 0, 200_000_000)?
    };
    let found = gap_findings(rt.alloc(), &[upper, lower], usual_rules()?)?;
    assert!(rt; found.as_slice() == [FIRST_TWO].as_slice());
    Ok(())
}

#[test]
fn spans_run_from_1_upwards(rt: HostRuntime) {
    for &(first, last) in &[(0, 1), (2, 1)] {
        assert!(rt; Span::new(first, last).is_none(), "of {first},{last}");
    }
}

#[test]
fn a_hole_needs_its_ring_on_the_layers_of_its_span(rt: HostRuntime) -> Result<(), Fail> {
    let span = Span::new(2, 3).ok_or("span")?;
    let ends = (span.first(), span.last());
    let hole = Drilled {
        span: Some(span),
        ..round(0, 0, 200_000_000)?
    };
    let none: [Pad; 0] = [];
    let layers = [none.as_slice(); 4];
    let found = ring_findings(rt.alloc(), &layers, &[hole], usual_rules()?)?;
    let wanted = &[
        Finding::Ring { layer: 1, hole: 0 },
        Finding::Ring { layer: 2, hole: 0 },
    ];
    assert!(rt; ends == (2, 3) && found.as_slice() == wanted.as_slice());
    Ok(())
}

/// The places of the holes that an index finds in a zone, in ascending order.
fn found(
    alloc: Global,
    holes: &[Drilled],
    zone: &Zone,
    size: u64,
) -> Result<Vec<usize>, AllocError> {
    let index = HoleIndex::new(alloc, holes, size, size)?;
    let mut places = Vec::new(alloc);
    index.find(holes, zone, &mut places)?;
    places.sort_unstable();
    Ok(places)
}

/// A zone has the holes with their entry point on its border, for a slot its first end; the sizes that the index is
/// made for change nothing.
#[test]
fn holes_of_a_zone(rt: HostRuntime) -> Result<(), Fail> {
    let holes = [
        round(0, 0, MM)?,
        round(2 * MM, 0, MM)?,
        drilled((MM, MM), (9 * MM, MM), MM)?,
        drilled((9 * MM, MM), (MM, MM), MM)?,
        round(0, 0, MM)?,
        round(-1, 0, MM)?,
    ];
    let zone = Zone {
        left: 0,
        right: 2 * MM,
        bottom: 0,
        top: MM,
    };
    let near = &[0, 1, 2, 4];
    for &(held, size, places) in &[
        (holes.as_slice(), 0, near.as_slice()),
        (holes.as_slice(), 1_000_000_000_000, near.as_slice()),
        (&[], 1, &[]),
    ] {
        assert!(rt; found(rt.alloc(), held, &zone, size)?.as_slice() == places);
    }
    Ok(())
}
