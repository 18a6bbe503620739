//! Depths and gaps of small boards, in pm, and how often pads are asked.

ghost use Rattle.std.specs.Prelude.{◌≡◌, pos, ◌+ℤ◌, ◌-ℤ◌};
ghost use Rattle.pad_shapes.specs.Shapes.{IsInDisc, disc_covers};
ghost use Rattle.pad_shapes.specs.Inner.ShapeLaws.{disc_contains_covered, disc_contains_slots, disc_between, disc_extent};
ghost use Rattle.board.specs.Inner.DepthLaws.{disc_covers_less};

use crate::rows::{
    HOLE, HoleRow, PadRow, Shape, add_holes, add_pads, add_round, disc, drilled, pad, point, rect,
    round, slot,
};
use board::*;
use grid_units::{Point, Profile};
use pad_shapes::{Disc, Pad, PadShape, Zone};
use ring_rules::Drilled;
use std::alloc::{AllocError, Global};
use std::cell::Cell;
use std::rc::Rc;
use std::test::Fail;

/// A disc that counts how often it is asked.
#[derive(Drop)]
struct Counted {
    disc: Disc,
    calls: Rc<Cell<u64>>,
}

impl Counted {
    fn count(&self) {
        self.calls.set(self.calls.get().saturating_add(1));
    }
}

impl PadShape for Counted {
    ghost points = { λ s. IsInDisc s.disc };

    ghost covers = { λ s. disc_covers s.disc };

    ghost left = { λ s. s.disc.centre.x -ℤ pos s.disc.radius };

    ghost right = { λ s. s.disc.centre.x +ℤ pos s.disc.radius };

    ghost holds = { λ s. disc_contains_covered s.disc };

    ghost holds_slots = { λ s. disc_contains_slots s.disc };

    ghost between = { λ s. disc_between s.disc };

    ghost extent = { λ s. disc_extent s.disc };

    fn covers(&self, hole: Point, reach: i64) -> bool {
        self.count();
        self.disc.covers(hole, reach)
    }

    fn left(&self) -> i64 {
        self.disc.left()
    }

    fn right(&self) -> i64 {
        self.disc.right()
    }

    fn zone(&self, reach: u64) -> Option<Zone> {
        self.count();
        self.disc.zone(reach)
    }

    fn may_cover(&self, zone: &Zone, reach: u64) -> bool {
        self.count();
        self.disc.may_cover(zone, reach)
    }
}

impl DepthShape for Counted {
    ghost middle = { λ s. s.disc.centre };

    ghost covers_less = { λ s. disc_covers_less s.disc };

    fn depth(&self, at: Point) -> i64 {
        self.count();
        self.disc.depth(at)
    }

    fn middle(&self) -> Point {
        self.disc.centre()
    }

    fn hull(&self) -> Option<Hull> {
        self.count();
        self.disc.hull()
    }
}

/// A hole with its middle 0.5 mm from there.
const BESIDE: HoleRow = (
    (300_000_000, 400_000_000),
    (300_000_000, 400_000_000),
    200_000_000,
);

/// A hole further off.
const FURTHER: HoleRow = (
    (1_000_000_000, 1_000_000_000),
    (1_000_000_000, 1_000_000_000),
    200_000_000,
);

/// The ring that a hole of 0.4 mm with its middle at this point has in a pad.
fn ring_at(row: PadRow, x: i64, y: i64) -> Option<i64> {
    let hole = slot((x, y), (x, y), 200_000_000)?;
    Some(depth_of_hole(&pad(row)?, &hole).saturating_sub(200_000_000))
}

/// Pads, the middles of holes of 0.4 mm, and their rings.
const RINGS: [(PadRow, i64, i64, i64); 9] = [
    (
        (Shape::Rect, 0, 0, 325_000_000, 325_000_000),
        0,
        0,
        125_000_000,
    ),
    (
        (Shape::Rect, -1_000, 0, 325_000_000, 325_000_000),
        0,
        0,
        124_999_000,
    ),
    (
        (Shape::Disc, 0, 0, 825_000_000, 0),
        300_000_000,
        400_000_000,
        125_000_000,
    ),
    (
        (Shape::Disc, 0, 0, 825_000_000, 0),
        300_001_000,
        400_000_000,
        124_999_399,
    ),
    ((Shape::Disc, 0, 0, 150_000_000, 0), 0, 0, -50_000_000),
    ((Shape::Disc, 100_000_000, 0, 300_000_000, 0), 0, 0, 0),
    (
        (Shape::Disc, 0, 0, 2_000_000_000, 0),
        1_000_000_000,
        1_000_000_000,
        385_786_437,
    ),
    (
        (Shape::Obround, 0, 0, 1_000_000_000, 500_000_000),
        605_000_000,
        140_000_000,
        125_000_000,
    ),
    (
        (Shape::Obround, 0, 0, 1_000_000_000, 500_000_000),
        605_000_000,
        150_000_000,
        116_901_665,
    ),
];

#[test]
fn rings_of_holes(rt: HostRuntime) {
    for &(row, x, y, ring) in &RINGS {
        assert!(rt; ring_at(row, x, y) == Some(ring), "at {x},{y}");
    }
}

/// How deep the middle of a pad lies in it, and its middle.
fn room_of(row: PadRow) -> Option<(i64, Point)> {
    let pad = pad(row)?;
    Some((pad.depth_at_middle(), pad.middle()))
}

#[test]
fn rooms_of_pads(rt: HostRuntime) {
    for &(row, room) in &[
        ((Shape::Rect, 0, 0, 325_000_000, 325_000_000), 325_000_000),
        ((Shape::Disc, 0, 0, 2_000_000_000, 0), 2_000_000_000),
        (
            (Shape::Obround, 0, 0, 1_000_000_000, 500_000_000),
            500_000_000,
        ),
    ] {
        let expected = match Point::new(0, 0) {
            Some(middle) => Some((room, middle)),
            None => None,
        };
        assert!(rt; room_of(row) == expected, "of {room}");
    }
}

/// How deep a hole lies in a disc of 1 mm with its middle 5 mm right of the origin: no depth below 0.
fn depth_in_disc(row: HoleRow) -> Option<Option<i64>> {
    let disc = pad((Shape::Disc, 5_000_000_000, 0, 500_000_000, 0))?;
    let depth = depth_of_hole(&disc, &slot(row.0, row.1, row.2)?);
    Some((depth >= 0).then_some(depth))
}

/// What lies outside a pad is covered with no reach, and a slot is no deeper than either of its ends.
#[test]
fn holes_outside(rt: HostRuntime) {
    for &(row, depth) in &[
        (HOLE, None),
        (
            (
                (5_000_000_000, 0),
                (5_000_000_000, 300_000_000),
                100_000_000,
            ),
            Some(200_000_000),
        ),
        (
            (
                (5_000_000_000, 0),
                (5_000_000_000, 600_000_000),
                100_000_000,
            ),
            None,
        ),
    ] {
        assert!(rt; depth_in_disc(row) == Some(depth));
    }
}

fn gap_of(first: HoleRow, second: HoleRow) -> Option<i64> {
    let first = slot(first.0, first.1, first.2)?;
    Some(gap_between(&first, &slot(second.0, second.1, second.2)?))
}

#[test]
fn gaps(rt: HostRuntime) {
    for &(first, second, gap) in &[
        (HOLE, HOLE, -400_000_000),
        (HOLE, BESIDE, 100_000_000),
        (HOLE, FURTHER, 1_014_213_562),
        (FURTHER, HOLE, 1_014_213_562),
        (
            ((0, 0), (2_000_000_000, 0), 250_000_000),
            (
                (1_000_000_000, 750_000_000),
                (1_000_000_000, 750_000_000),
                250_000_000,
            ),
            250_000_000,
        ),
    ] {
        assert!(rt; gap_of(first, second) == Some(gap), "of {gap}");
    }
}

const WIDE: PadRow = (Shape::Rect, 0, 0, 325_000_000, 325_000_000);

const LEFT: PadRow = (Shape::Disc, -100_000_000, 0, 300_000_000, 0);

const RIGHT: PadRow = (Shape::Disc, 100_000_000, 0, 300_000_000, 0);

/// The place of the best pad of a hole, and how deep the hole lies in it.
fn best_in(alloc: Global, rows: &[PadRow], row: HoleRow) -> Option<Option<(usize, u64)>> {
    let (mut pads, mut holes) = (Vec::new(alloc), Vec::new(alloc));
    add_pads(&mut pads, rows)?;
    add_holes(&mut holes, &[row], true)?;
    let bests = best_pads(alloc, &pads, &holes).ok()?;
    Some(best_at(&bests, 0))
}

/// Of two pads in which a hole lies equally deep the first is the best. A hole without a pad is bare. An oblique slot lies as deep as its
/// less deep end.
#[test]
fn best_pads_of_holes(rt: HostRuntime) {
    let rows: &[(&[PadRow], HoleRow, Option<(usize, u64)>); 3] = &[
        (&[RIGHT, LEFT], HOLE, Some((0, 200_000_000))),
        (&[], HOLE, None),
        (
            &[WIDE],
            ((0, 0), (1_000, 1_000), 100_000_000),
            Some((0, 324_999_000)),
        ),
    ];
    for &(pads, hole, best) in rows {
        assert!(rt; best_in(rt.alloc(), pads, hole) == Some(best));
    }
}

/// The place of the best pad of the hole at a place, and how deep the hole lies in it. `None` for a hole without a pad.
fn best_at(bests: &[Option<BestPad>], hole: usize) -> Option<(usize, u64)> {
    let best = (*bests.get(hole)?)?;
    Some((best.pad, best.depth))
}

/// A deeper pad is better wherever it stands.
#[test]
fn deepest_pad(rt: HostRuntime) -> Result<(), Fail> {
    let pads = [
        disc(5_000_000_000, 0, 500_000_000)?,
        disc(-100_000_000, 0, 300_000_000)?,
        rect(0, 0, 325_000_000, 325_000_000)?,
    ];
    let holes = [
        round(0, 0, 200_000_000)?,
        round(9_000_000_000, 0, 200_000_000)?,
    ];
    let bests = best_pads(rt.alloc(), &pads, &holes)?;
    let found = (bests.len(), best_at(&bests, 0), best_at(&bests, 1));
    assert!(rt; found == (2, Some((2, 325_000_000)), None));
    Ok(())
}

/// Which of some holes are bare.
fn are_bare(alloc: Global, pads: &[PadRow], holes: &[HoleRow], expected: &[bool]) -> bool {
    let (mut layer, mut drills) = (Vec::new(alloc), Vec::new(alloc));
    if add_pads(&mut layer, pads).is_none() || add_holes(&mut drills, holes, true).is_none() {
        return false;
    }
    match bare_holes(alloc, &layer, &drills) {
        Ok(bare) => bare.as_slice() == expected,
        Err(_) => false,
    }
}

/// A hole is bare where two pads cover one of its ends each, and not where one covers its centre, however small that pad is.
#[test]
fn bare_and_covered_holes(rt: HostRuntime) {
    let pads = &[
        (Shape::Disc, 0, 0, 100_000_000, 0),
        (Shape::Disc, 1_000_000_000, 0, 100_000_000, 0),
    ];
    let holes = &[
        (
            (60_000_000, 80_000_000),
            (60_000_000, 80_000_000),
            200_000_000,
        ),
        (
            (60_000_001, 80_000_000),
            (60_000_001, 80_000_000),
            200_000_000,
        ),
        ((0, 0), (1_000_000_000, 0), 200_000_000),
        ((0, 0), (1_000, 1_000), 200_000_000),
    ];
    assert!(rt; are_bare(rt.alloc(), pads, holes, &[false, true, true, false]));
}

/// The places of the two nearest of some holes, and the gap between them.
fn nearest_of(alloc: Global, rows: &[HoleRow]) -> Option<Option<(usize, usize, i64)>> {
    let mut holes = Vec::new(alloc);
    match (
        add_holes(&mut holes, rows, true),
        nearest_holes(alloc, &holes),
    ) {
        (Some(()), Ok(Some(near))) => Some(Some((near.first, near.second, near.gap))),
        (Some(()), Ok(None)) => Some(None),
        _ => None,
    }
}

const MIDDLE: HoleRow = ((1_000_000_000, 0), (1_000_000_000, 0), 200_000_000);

const END: HoleRow = ((2_000_000_000, 0), (2_000_000_000, 0), 200_000_000);

/// Of pairs with the same gap the first is named, by the first of its holes and then by the second; a hole that is drilled twice
/// overlaps itself; and holes further apart than any rule are tried too.
const NEAREST: [(&[HoleRow], Option<(usize, usize, i64)>); 6] = [
    (&[HOLE], None),
    (&[FURTHER, HOLE, BESIDE], Some((1, 2, 100_000_000))),
    (&[HOLE, MIDDLE, END], Some((0, 1, 600_000_000))),
    (
        &[
            HOLE,
            MIDDLE,
            END,
            ((2_900_000_000, 0), (2_900_000_000, 0), 200_000_000),
        ],
        Some((2, 3, 500_000_000)),
    ),
    (&[FURTHER, HOLE, HOLE, HOLE], Some((1, 2, -400_000_000))),
    (
        &[
            ((-9_000_000_000_000, 0), (-9_000_000_000_000, 0), 1),
            ((9_000_000_000_000, 0), (9_000_000_000_000, 0), 1),
        ],
        Some((0, 1, 17_999_999_999_998)),
    ),
];

#[test]
fn nearest_pairs(rt: HostRuntime) {
    for &(holes, near) in &NEAREST {
        assert!(rt; nearest_of(rt.alloc(), holes) == Some(near));
    }
}

/// A pair whose holes stand far apart in a long list is found.
#[test]
fn nearest_of_many(rt: HostRuntime) -> Result<(), Fail> {
    let mut holes = Vec::new(rt.alloc());
    for place in 0..200 {
        let x = i64::from(place) * 1_000_000_000;
        add_round(&mut holes, x, x, 200_000_000)?;
    }
    add_round(&mut holes, 5_000_000_000, 4_500_000_000, 1_000)?;
    let near = nearest_holes(rt.alloc(), &holes)?;
    let expected = Nearest {
        first: 5,
        second: 200,
        gap: 299_999_000,
    };
    assert!(rt; near == Some(expected));
    Ok(())
}

/// What a board of one layer meets: rings; rings of the holes that are not bare; and gaps.
type BoardMeets = (Met, Met, Met);

/// What a board of one layer meets.
fn met_by(
    alloc: Global,
    pads: &[PadRow],
    holes: &[HoleRow],
    plated: bool,
    profile: Profile,
) -> Option<BoardMeets> {
    let (mut layer, mut drills) = (Vec::new(alloc), Vec::new(alloc));
    if add_pads(&mut layer, pads).is_none() || add_holes(&mut drills, holes, plated).is_none() {
        return None;
    }
    let only = [layer.as_slice()];
    let (layers, holes) = (only.as_slice(), drills.as_slice());
    let bests = best_pads(alloc, layers[0], holes).ok()?;
    let none = met_without_layers(layers, holes);
    let rings = met_with_layer(layers, 0, &bests, holes, profile, none);
    let nearest = nearest_holes(alloc, &drills).ok()?;
    let gap = gap_met_of_nearest(&drills, nearest);
    Some((rings.ring, rings.in_pads, gap))
}

const BARE: HoleRow = ((5_000_000_000, 0), (5_000_000_000, 0), 200_000_000);

/// Pads, holes, whether they are plated, and what is met. The least ring counts, and the greatest rule with no finding is just that;
/// a hole wider than its pad meets no ring, and it is said by how much; a bare hole meets no ring, and is passed over where only those
/// count that are held; where nothing is drilled, or nothing is plated, any ring is met.
const MET: [(&[PadRow], &[HoleRow], bool, BoardMeets); 7] = [
    (
        &[(Shape::Disc, 0, 0, 1_000_000_000, 0)],
        &[HOLE, BESIDE],
        true,
        (
            Met::UpTo(300_000_000),
            Met::UpTo(300_000_000),
            Met::UpTo(100_000_000),
        ),
    ),
    (
        &[(Shape::Disc, 0, 0, 150_000_000, 0)],
        &[HOLE],
        true,
        (Met::UpTo(-50_000_000), Met::UpTo(-50_000_000), Met::Any),
    ),
    (
        &[(Shape::Disc, 5_000_000_000, 0, 500_000_000, 0)],
        &[HOLE],
        true,
        (Met::None, Met::None, Met::Any),
    ),
    (
        &[(Shape::Disc, 5_000_000_000, 0, 500_000_000, 0)],
        &[HOLE],
        false,
        (Met::Any, Met::Any, Met::Any),
    ),
    (
        &[(Shape::Disc, 5_000_000_000, 0, 500_000_000, 0)],
        &[],
        true,
        (Met::Any, Met::Any, Met::Any),
    ),
    (
        &[(Shape::Disc, 0, 0, 1_000_000_000, 0)],
        &[BARE, HOLE, BARE],
        true,
        (Met::None, Met::UpTo(800_000_000), Met::UpTo(-400_000_000)),
    ),
    (
        &[(Shape::Disc, 0, 0, 1_000_000_000, 0)],
        &[BARE],
        true,
        (Met::None, Met::None, Met::Any),
    ),
];

#[test]
fn rules_that_boards_meet(rt: HostRuntime) {
    for &(pads, holes, plated, met) in &MET {
        assert!(rt; met_by(rt.alloc(), pads, holes, plated, Profile::Strict) == Some(met));
    }
}

/// The row of some holes names the first hole with the least ring, by its place among all.
#[test]
fn rows_of_rings(rt: HostRuntime) -> Result<(), Fail> {
    let pads = [disc(0, 0, 2_000_000_000)?];
    let beside = round(1_000_000_000, 1_000_000_000, 200_000_000)?;
    let holes = [round(0, 0, 200_000_000)?, beside, beside];
    let bests = best_pads(rt.alloc(), &pads, &holes)?;
    let all = ring_row(Profile::Strict, &bests, &holes, &[0, 1, 2]);
    let first = ring_row(Profile::Strict, &bests, &holes, &[0]);
    assert!(rt; all == row_of(3, 0, Some((385_786_437, 1))));
    assert!(rt; first == row_of(1, 0, Some((1_800_000_000, 0))));
    Ok(())
}

/// An oblique slot has no ring in the strict profile, and that of its less deep end in the wide one.
#[test]
fn rings_of_an_oblique_slot(rt: HostRuntime) -> Result<(), Fail> {
    let pads = [disc(0, 0, 2_000_000_000)?];
    let holes = [drilled((0, 0), (1_000_000_000, 1_000_000_000), 200_000_000)?];
    let bests = best_pads(rt.alloc(), &pads, &holes)?;
    let rows = [
        (Profile::Strict, row_of(1, 1, None)),
        (Profile::Wide, row_of(1, 0, Some((385_786_437, 0)))),
    ];
    for (profile, row) in rows {
        assert!(rt; ring_row(profile, &bests, &holes, &[0]) == row);
    }
    Ok(())
}

/// A row: how many holes, how many of them are bare, the least ring, and the place of the first hole that has it.
fn row_of(holes: usize, bare: usize, least: Option<(i64, usize)>) -> RingRow {
    let least = match least {
        Some((ring, hole)) => Some(RowLeast { ring, hole }),
        None => None,
    };
    RingRow { holes, bare, least }
}

/// Holes with coordinates that are ten times too small are all bare.
#[test]
fn row_of_bare_holes(rt: HostRuntime) -> Result<(), Fail> {
    let pads = [
        disc(10_000_000_000, 0, 300_000_000)?,
        disc(20_000_000_000, 0, 300_000_000)?,
        disc(30_000_000_000, 10_000_000_000, 300_000_000)?,
    ];
    let holes = [
        round(1_000_000_000, 0, 200_000_000)?,
        round(2_000_000_000, 0, 200_000_000)?,
        round(3_000_000_000, 1_000_000_000, 200_000_000)?,
    ];
    let bests = best_pads(rt.alloc(), &pads, &holes)?;
    assert!(rt; ring_row(Profile::Strict, &bests, &holes, &[0, 1, 2]) == row_of(3, 3, None));
    Ok(())
}

/// On a board of many pads each hole has its own pad as its best, or the pad over all of them where that is deeper.
#[test]
fn best_of_many_pads(rt: HostRuntime) -> Result<(), Fail> {
    let mut pads = Vec::new(rt.alloc());
    let mut holes = Vec::new(rt.alloc());
    for place in 0..100 {
        let x = i64::from(place) * 1_000_000_000;
        pads.push(disc(x, 0, 300_000_000)?)?;
        add_round(&mut holes, x, 0, 200_000_000)?;
    }
    pads.push(rect(50_000_000_000, 0, 60_000_000_000, 250_000_000)?)?;
    add_round(&mut holes, 500_000_000, 0, 200_000_000)?;
    let bests = best_pads(rt.alloc(), &pads, &holes)?;
    let found = (best_at(&bests, 37), best_at(&bests, 100));
    assert!(rt; found == (Some((37, 300_000_000)), Some((100, 250_000_000))));
    Ok(())
}

/// 2,000 discs of 50 mm radius, centred nearly at the origin; the first one is larger by `more`.
fn counted_discs(alloc: Global, calls: &Rc<Cell<u64>>, more: i64) -> Result<Vec<Counted>, Fail> {
    let mut pads = Vec::new(alloc);
    for number in 0..2_000u16 {
        let at = point(i64::from(number % 90), i64::from(number % 70))?;
        let more = if number == 0 { more } else { 0 };
        let disc = Disc::new(at, more.saturating_add(50_000_000_000)).ok_or("disc")?;
        let calls = calls.clone()?;
        pads.push(Counted { disc, calls })?;
    }
    Ok(pads)
}

/// A square of 2,000 holes, from 37 mm to 49 mm along each axis, moved by `off`.
fn square_of_holes(alloc: Global, off: i64) -> Result<Vec<Drilled>, Fail> {
    let mut holes = Vec::new(alloc);
    for number in 0..2_000u16 {
        let x = i64::from(number % 45) * 270_000_000 + 37_000_000_000;
        let y = i64::from(number / 45) * 270_000_000 + 37_000_000_000;
        let (x, y) = (x.saturating_add(off), y.saturating_add(off));
        add_round(&mut holes, x, y, 1_000)?;
    }
    Ok(holes)
}

/// How many best pads are the first pad.
fn count_of_first(bests: &[Option<BestPad>]) -> usize {
    let mut count: usize = 0;
    for best in bests {
        match *best {
            Some(best) if best.pad == 0 => count = count.saturating_add(1),
            _ => {}
        }
    }
    count
}

/// Discs that have all holes in their boxes and none in themselves are skipped for whole zones of holes.
#[test]
fn holes_in_corners_are_passed_over(rt: HostRuntime) -> Result<(), Fail> {
    let calls = Rc::new(rt.alloc(), Cell::new(0))?;
    let pads = counted_discs(rt.alloc(), &calls, 0)?;
    let holes = square_of_holes(rt.alloc(), 0)?;
    let bests = best_pads(rt.alloc(), &pads, &holes)?;
    let found = bests.iter().filter(|best| best.is_some()).count();
    assert!(rt; found == 0 && calls.get() <= 400_000);
    Ok(())
}

/// Discs over all holes that are no deeper there than the first one are skipped in the same way.
#[test]
fn pads_that_are_no_deeper_are_passed_over(rt: HostRuntime) -> Result<(), Fail> {
    let calls = Rc::new(rt.alloc(), Cell::new(0))?;
    let pads = counted_discs(rt.alloc(), &calls, 30_000_000_000)?;
    let holes = square_of_holes(rt.alloc(), -43_000_000_000)?;
    let bests = best_pads(rt.alloc(), &pads, &holes)?;
    assert!(rt; count_of_first(&bests) == 2_000 && calls.get() <= 400_000);
    Ok(())
}

/// Discs about one centre that lie over a square of holes: the radius of the first ten, by how much that of each further ten is
/// larger, and by how much the square is moved.
type Heap = (i64, i64, i64);

/// Equal discs; discs of 200 sizes that grow; and the same with the largest first.
const HEAPS: [Heap; 3] = [
    (50_000_000_000, 0, -33_300_000_000),
    (2_000_000_000, 240_000_000, -33_300_000_000),
    (50_000_000_000, -240_000_000, -33_300_000_000),
];

/// The 2,000 discs of a heap.
fn discs_of(alloc: Global, calls: &Rc<Cell<u64>>, heap: Heap) -> Result<Vec<Counted>, Fail> {
    let mut pads = Vec::new(alloc);
    for number in 0..2_000u16 {
        let at = point(
            i64::from(number % 97) * 1_000,
            i64::from(number % 89) * 1_000,
        )?;
        let more = i64::from(number / 10).saturating_mul(heap.1);
        let disc = Disc::new(at, heap.0.saturating_add(more)).ok_or("disc")?;
        let calls = calls.clone()?;
        pads.push(Counted { disc, calls })?;
    }
    Ok(pads)
}

/// Whether each hundredth best pad is that of a hole alone.
fn are_best(
    alloc: Global,
    pads: &[Counted],
    holes: &[Drilled],
    bests: &[Option<BestPad>],
) -> Result<bool, AllocError> {
    for (drilled, best) in holes.iter().zip(bests).step_by(100) {
        let alone = best_pads(alloc, pads, &[*drilled])?;
        if alone.first() != Some(best) {
            return Ok(false);
        }
    }
    Ok(true)
}

/// Many discs that lie about as deep over many holes are not asked for each of them.
#[test]
fn heaps_of_pads_are_passed_over(rt: HostRuntime) -> Result<(), Fail> {
    for &heap in &HEAPS {
        let calls = Rc::new(rt.alloc(), Cell::new(0))?;
        let pads = discs_of(rt.alloc(), &calls, heap)?;
        let holes = square_of_holes(rt.alloc(), heap.2)?;
        let bests = best_pads(rt.alloc(), &pads, &holes)?;
        assert!(rt; calls.get() <= 400_000, "asked {} times", calls.get());
        assert!(rt; are_best(rt.alloc(), &pads, &holes, &bests)?);
    }
    Ok(())
}

/// The best pads of the first and the last of a square of holes, and how deep these lie in them.
fn bests_at_ends(alloc: Global, pads: &[Pad]) -> Result<[Option<(usize, u64)>; 2], Fail> {
    let bests = best_pads(alloc, pads, &square_of_holes(alloc, 0)?)?;
    Ok([best_at(&bests, 0), best_at(&bests, 1_999)])
}

/// Of equal pads that lie over many holes the first is the best of each, and a deeper one after them is better.
#[test]
fn first_of_equal_pads_over_many_holes(rt: HostRuntime) -> Result<(), Fail> {
    let mut pads = Vec::new(rt.alloc());
    for _ in 0..20u8 {
        pads.push(rect(
            43_000_000_000,
            43_000_000_000,
            20_000_000_000,
            20_000_000_000,
        )?)?;
    }
    let last = Some((0, 14_120_000_000));
    assert!(rt; bests_at_ends(rt.alloc(), &pads)? == [Some((0, 14_000_000_000)), last]);
    pads.push(disc(37_000_000_000, 37_000_000_000, 14_000_000_001)?)?;
    assert!(rt; bests_at_ends(rt.alloc(), &pads)? == [Some((20, 14_000_000_001)), last]);
    Ok(())
}
