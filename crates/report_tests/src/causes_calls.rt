//! Causes of worked examples, in pm.

ghost use Rattle.std.specs.Prelude.{IfOk};
ghost use Rattle.report.specs.Causes.{HoldsRowsAndBests, uncounted_pads};

use crate::rows::{Form, RowFail, what_at};
use board::best_pads;
use grid_units::{Hole, Point, Profile, Rules};
use layer_state::What;
use pad_shapes::{FeatureRow, RowKind, Why, WidePad};
use report::{RingCause, *};
use ring_rules::Drilled;
use std::alloc::{AllocError, Global};

/// What is flashed, and where.
type FlashRow = (Form, i64, i64);

/// A hole: the point that it goes from, the point that it goes to, and its radius.
type HoleRow = ((i64, i64), (i64, i64), i64);

/// The word for a cause, the number of its flash, the ring and the lack.
type CauseRow = (&'static str, usize, i64, i64);

const NO_CAUSE: CauseRow = ("nothing", 0, 0, 0);

/// The copper of a layer: its rows, and the pads of those that are pads.
#[derive(Drop)]
struct Copper {
    rows: Vec<FeatureRow>,
    pads: Vec<WidePad>,
}

impl Copper {
    fn new(alloc: Global) -> Copper {
        Copper {
            rows: Vec::new(alloc),
            pads: Vec::new(alloc),
        }
    }

    /// Adds what is flashed at a point to the rows, and to the pads where it is one.
    fn push(&mut self, row: FlashRow) -> Result<(), RowFail> {
        let (form, x, y) = row;
        let at = Point::new(x, y).ok_or(RowFail::Figures)?;
        match what_at(form, at).ok_or(RowFail::Figures)? {
            What::Pad(pad) => {
                self.push_pad(WidePad::Plain(pad))?;
                self.push_row(at, RowKind::Pad)
            }
            What::Other(why) => self.push_row(at, RowKind::Other(why)),
        }
    }

    fn push_pad(&mut self, pad: WidePad) -> Result<(), RowFail> {
        match self.pads.push(pad) {
            Ok(_) => Ok(()),
            Err(_) => Err(RowFail::Memory),
        }
    }

    fn push_row(&mut self, at: Point, what: RowKind) -> Result<(), RowFail> {
        match self.rows.push(FeatureRow { at, what }) {
            Ok(_) => Ok(()),
            Err(_) => Err(RowFail::Memory),
        }
    }
}

fn copper_of(alloc: Global, rows: &[FlashRow]) -> Result<Copper, RowFail> {
    let mut copper = Copper::new(alloc);
    for row in rows {
        copper.push(*row)?;
    }
    Ok(copper)
}

/// A plated hole.
fn drilled(row: HoleRow) -> Option<Drilled> {
    let (from, to, radius) = row;
    let hole = Hole::new(Point::new(from.0, from.1)?, Point::new(to.0, to.1)?, radius)?;
    Some(Drilled {
        hole,
        plated: true,
        span: None,
    })
}

fn row_of(cause: RingCause) -> CauseRow {
    match cause {
        RingCause::TooSmall(pad) => ("small", pad.flash, pad.ring, pad.lack),
        RingCause::OffCentre(pad) => ("off", pad.flash, pad.ring, pad.lack),
        RingCause::Edge(pad) => ("edge", pad.flash, pad.ring, pad.lack),
        RingCause::Other { why, flash } => match why {
            Why::Macro => ("macro", flash, 0, 0),
            _ => ("another", flash, 0, 0),
        },
        RingCause::Clear { flash } => ("clear", flash, 0, 0),
        RingCause::Cleared { flash } => ("cleared", flash, 0, 0),
        RingCause::MacroShape | RingCause::DrawnCopper | RingCause::NoFlash => NO_CAUSE,
        RingCause::Oblique => ("oblique", 0, 0, 0),
    }
}

/// Adds an item, where there was memory for it.
fn add<T: Copy>(all: &mut Vec<T>, item: Result<T, AllocError>) -> Result<(), AllocError> {
    all.push(item?)?;
    Ok(())
}

/// The first of some causes as a row.
fn first_row(causes: &[RingCause]) -> Result<CauseRow, RowFail> {
    match causes.first() {
        Some(cause) => Ok(row_of(*cause)),
        None => Err(RowFail::Figures),
    }
}

/// The cause of a hole among some flashes, for a required ring.
fn cause_of(
    alloc: Global,
    copper: &Copper,
    hole: HoleRow,
    ring: i64,
    profile: Profile,
) -> Result<CauseRow, RowFail> {
    let rules = Rules::new(ring, 1)?.in_profile(profile);
    let holes = [drilled(hole).ok_or(RowFail::Figures)?];
    let further = FurtherCopper {
        macros: &[],
        contours: &[],
    };
    let known = CauseFinder::new(alloc, &copper.rows, &copper.pads, further, &holes)?;
    let mut causes = Vec::new(alloc);
    add(
        &mut causes,
        known.cause(&copper.rows, &copper.pads, further, &holes, 0, rules),
    )?;
    first_row(&causes)
}

/// The cause of a hole among the flashes of some rows.
fn cause_in(
    alloc: Global,
    rows: &[FlashRow],
    hole: HoleRow,
    ring: i64,
    profile: Profile,
) -> Result<CauseRow, RowFail> {
    let copper = copper_of(alloc, rows)?;
    cause_of(alloc, &copper, hole, ring, profile)
}

/// A square that is 1 nm off the origin.
const MOVED: FlashRow = (Form::Rect(325_000_000, 325_000_000), 1_000, 0);

/// A slot of 1 um along x.
const SHORT_SLOT: HoleRow = ((0, 0), (1_000_000, 0), 200_000_000);

/// A slot of 0.5 mm from 0,0 to 2,0.
const SLOT: HoleRow = ((0, 0), (2_000_000_000, 0), 250_000_000);

/// Flashes, a hole, the required ring, and the cause.
const CAUSES: [(&[FlashRow], HoleRow, i64, CauseRow); 10] = [
    // A hole off the centre of its pad.
    (
        &[MOVED],
        ((0, 0), (0, 0), 200_000_000),
        125_000_000,
        ("off", 1, 124_999_000, 1_000),
    ),
    // A hole of the worked example in a disc that is too small, beside a macro flash and a disc elsewhere.
    (
        &[
            (Form::Other(Why::Macro), 0, 0),
            (Form::Disc(1_000_000_000), 0, 0),
            (Form::Disc(203_200_000), 50_546_000_000, 67_310_000_000),
        ],
        (
            (50_546_000_000, 67_310_000_000),
            (50_546_000_000, 67_310_000_000),
            304_800_000,
        ),
        100_000_000,
        ("small", 3, -101_600_000, 201_600_000),
    ),
    // A pad elsewhere, and three other flashes: one 1 pm outside the hole, one at its rim, one at its middle.
    (
        &[
            (Form::Disc(500_000_000), 5_000_000_000, 0),
            (Form::Other(Why::Polygon), 400_000_001, 0),
            (Form::Other(Why::Macro), 0, 400_000_000),
            (Form::Other(Why::Turned), 0, 0),
        ],
        ((0, 0), (0, 0), 400_000_000),
        100_000_000,
        ("macro", 3, 0, 0),
    ),
    // A hole with no flash in it.
    (
        &[(Form::Other(Why::Macro), 2_000_000_000, 0)],
        ((0, 0), (0, 0), 400_000_000),
        100_000_000,
        NO_CAUSE,
    ),
    // A slot that lies along no axis.
    (
        &[(Form::Disc(5_000_000_000), 0, 0)],
        ((0, 0), (1_000_000, 1_000_000), 200_000_000),
        100_000_000,
        ("oblique", 0, 0, 0),
    ),
    // A flash at the right rim of a slot, and at its left rim.
    (
        &[
            (Form::Other(Why::Polygon), -200_000_001, 0),
            (Form::Other(Why::Macro), 201_000_000, 0),
            (Form::Other(Why::Turned), 500_000, 0),
            (Form::Other(Why::Turned), -200_000_000, 0),
        ],
        SHORT_SLOT,
        100_000_000,
        ("macro", 2, 0, 0),
    ),
    (
        &[
            (Form::Other(Why::Polygon), 201_000_001, 0),
            (Form::Other(Why::Macro), -200_000_000, 0),
        ],
        SHORT_SLOT,
        100_000_000,
        ("macro", 2, 0, 0),
    ),
    // A slot in the middle of a pad that is too short.
    (
        &[(Form::Obround(1_370_000_000, 375_000_000), 1_000_000_000, 0)],
        SLOT,
        125_000_000,
        ("small", 1, 120_000_000, 5_000_000),
    ),
    // A slot off the middle of a large pad.
    (
        &[(Form::Disc(2_000_000_000), 0, 0)],
        SLOT,
        125_000_000,
        ("off", 1, -250_000_000, 375_000_000),
    ),
    // A slot off a pad at the rim of the grid.
    (
        &[(
            Form::Rect(1_500_000_000, 500_000_000),
            10_000_000_000_000,
            0,
        )],
        ((9_998_600_000_000, 0), (9_999_900_000_000, 0), 250_000_000),
        125_000_000,
        ("off", 1, -150_000_000, 275_000_000),
    ),
];

#[test]
fn causes_of_holes(rt: HostRuntime) {
    for &(rows, hole, ring, cause) in &CAUSES {
        assert!(rt;
            cause_in(rt.alloc(), rows, hole, ring, Profile::Strict) == Ok(cause),
            "{}",
            cause.0
        );
    }
}

/// A slot of 0.1 mm from 0,0 to 4,3, of which 0.03,-0.04 is the radius to its right and 0.04,0.03 the radius on from its end.
const OBLIQUE_SLOT: HoleRow = ((0, 0), (4_000_000_000, 3_000_000_000), 50_000_000);

/// Flashes, and the cause of a slot at an angle among them, in the wide profile.
const OBLIQUE_CAUSES: [(&[FlashRow], HoleRow, CauseRow); 4] = [
    // A flash 0.57 mm beside the slot, in the box round it.
    (
        &[(Form::Other(Why::Polygon), 1_400_000_000, 600_000_000)],
        ((0, 0), (2_000_000_000, 2_000_000_000), 50_000_000),
        NO_CAUSE,
    ),
    // Flashes 1 pm outside the slot: beside it, past its end and before its start.
    (
        &[
            (Form::Other(Why::Polygon), 2_030_000_000, 1_459_999_999),
            (Form::Other(Why::Polygon), 4_040_000_001, 3_030_000_000),
            (Form::Other(Why::Polygon), -40_000_000, -30_000_001),
        ],
        OBLIQUE_SLOT,
        NO_CAUSE,
    ),
    // Flashes at the rim: beside it, and past its end.
    (
        &[
            (Form::Other(Why::Polygon), 2_030_000_000, 1_459_999_999),
            (Form::Other(Why::Macro), 2_030_000_000, 1_460_000_000),
            (Form::Other(Why::Polygon), 4_040_000_000, 3_030_000_000),
        ],
        OBLIQUE_SLOT,
        ("macro", 2, 0, 0),
    ),
    (
        &[
            (Form::Other(Why::Polygon), 4_040_000_001, 3_030_000_000),
            (Form::Other(Why::Macro), 4_040_000_000, 3_030_000_000),
        ],
        OBLIQUE_SLOT,
        ("macro", 2, 0, 0),
    ),
];

#[test]
fn causes_of_oblique_slots(rt: HostRuntime) {
    for &(rows, slot, cause) in &OBLIQUE_CAUSES {
        assert!(rt;
            cause_in(rt.alloc(), rows, slot, 100_000_000, Profile::Wide) == Ok(cause),
            "{}",
            cause.0
        );
    }
}

/// Adds 40 macro flashes along x, a millimetre apart, from 39 mm down to 0.
fn push_row_of_flashes(copper: &mut Copper) -> Result<(), RowFail> {
    for place in (0..40_u8).rev() {
        let x = i64::from(place) * 1_000_000_000;
        copper.push((Form::Other(Why::Macro), x, 0))?;
    }
    Ok(())
}

/// The cause of a hole in a row of flashes, for a required ring of 0.1 mm.
fn cause_in_a_row(alloc: Global, hole: HoleRow) -> Result<CauseRow, RowFail> {
    let mut copper = Copper::new(alloc);
    push_row_of_flashes(&mut copper)?;
    cause_of(alloc, &copper, hole, 100_000_000, Profile::Wide)
}

/// Holes over a row of flashes, and their causes. Those with one, some and all of the flashes in them, where the flashes from 30 mm to
/// 34 mm are in two groups of 32; and one beside the row, whose line is 1 pm further from its centre than its radius.
const IN_A_ROW: [(i64, i64, i64, CauseRow); 6] = [
    (35_000_000_000, 0, 400_000_000, ("macro", 5, 0, 0)),
    (2_000_000_000, 0, 400_000_000, ("macro", 38, 0, 0)),
    (20_000_000_000, 0, 2_500_000_000, ("macro", 18, 0, 0)),
    (32_000_000_000, 0, 2_500_000_000, ("macro", 6, 0, 0)),
    (20_000_000_000, 0, 50_000_000_000, ("macro", 1, 0, 0)),
    (20_000_000_000, 400_000_001, 400_000_000, NO_CAUSE),
];

#[test]
fn holes_in_a_row_of_flashes(rt: HostRuntime) {
    for &(x, y, radius, cause) in &IN_A_ROW {
        let hole = ((x, y), (x, y), radius);
        assert!(rt;
            cause_in_a_row(rt.alloc(), hole) == Ok(cause),
            "{radius} at {x},{y}"
        );
    }
}

/// Slots at an angle over a row of flashes, and their causes: one crosses it between two flashes, one holds all, one ends on both sides between two.
const SLOTS_IN_A_ROW: [(HoleRow, CauseRow); 3] = [
    (
        (
            (0, -20_000_000_000),
            (40_000_000_000, 20_000_000_000),
            1_000_000_000,
        ),
        ("macro", 19, 0, 0),
    ),
    (
        (
            (-1_000_000_000, -1_000_000_000),
            (40_000_000_000, 1_000_000_000),
            5_000_000_000,
        ),
        ("macro", 1, 0, 0),
    ),
    (
        (
            (20_400_000_000, -1_000_000_000),
            (20_600_000_000, 1_000_000_000),
            100_000_000,
        ),
        NO_CAUSE,
    ),
];

#[test]
fn slots_in_a_row_of_flashes(rt: HostRuntime) {
    for &(slot, cause) in &SLOTS_IN_A_ROW {
        assert!(rt;
            cause_in_a_row(rt.alloc(), slot) == Ok(cause),
            "{}",
            cause.0
        );
    }
}

/// The data of a layer for its causes, by best pads that are given.
fn known_by_bests(
    alloc: Global,
    rows: &[FeatureRow],
    pads: &[WidePad],
    further: FurtherCopper,
    holes: &[Drilled],
) -> Result<CauseFinder, AllocError>
    ensures { IfOk result (HoldsRowsAndBests rows.now pads.now (uncounted_pads further.entry) holes.now) }
{
    let bests = best_pads(alloc, pads, holes)?;
    CauseFinder::with_bests(alloc, rows, &bests, further, holes)
}

/// The cause of the first of these holes on a layer, for a ring of 0.125 mm, by best pads that are given.
fn cause_by_pads(
    alloc: Global,
    rows: &[FeatureRow],
    pads: &[WidePad],
    holes: &[Drilled; 1],
) -> Result<CauseRow, RowFail> {
    let rules = Rules::new(125_000_000, 1)?;
    let further = FurtherCopper {
        macros: &[],
        contours: &[],
    };
    let known = known_by_bests(alloc, rows, pads, further, holes)?;
    let mut causes = Vec::new(alloc);
    add(
        &mut causes,
        known.cause(rows, pads, further, holes, 0, rules),
    )?;
    first_row(&causes)
}

/// The cause of a hole of 0.4 mm at the origin in a square 1 nm off it, by best pads that are given.
fn cause_by_best(alloc: Global) -> Result<CauseRow, RowFail> {
    let hole = drilled(((0, 0), (0, 0), 200_000_000)).ok_or(RowFail::Figures)?;
    let copper = copper_of(alloc, &[MOVED])?;
    cause_by_pads(alloc, &copper.rows, &copper.pads, &[hole])
}

#[test]
fn best_pads_are_known(rt: HostRuntime) {
    assert!(rt; cause_by_best(rt.alloc()) == Ok(("off", 1, 124_999_000, 1_000)));
}
