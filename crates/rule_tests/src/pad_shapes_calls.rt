//! What pads cover, and the ranges of their sizes.

use crate::rows::Shape::{Disc, Obround, Rect};
use crate::rows::{Shape, pad};
use grid_units::Point;
use pad_shapes::*;

/// The reach of a hole of radius 0.2 mm with a ring of 0.125 mm, in pm.
const REACH: i64 = 325_000_000;

/// The reach of a slot of radius 0.25 mm with a ring of 0.125 mm, in pm.
const SLOT_REACH: i64 = 375_000_000;

/// Whether a shape covers a hole, asked through the trait. `None` where the pad with this shape inside answers otherwise.
fn covers<S: PadShape>(shape: &S, pad: &Pad, hole: Point) -> Option<bool> {
    let is_covered = shape.covers(hole, REACH);
    (pad.covers(hole, REACH) == is_covered).then_some(is_covered)
}

/// Whether a pad covers a hole. `None` where the shape inside answers otherwise.
fn covers_hole(pad: Option<Pad>, x: i64, y: i64) -> Option<bool> {
    let hole = Point::new(x, y)?;
    let pad = pad?;
    match &pad {
        Pad::Disc(disc) => covers(disc, &pad, hole),
        Pad::Rect(rect) => covers(rect, &pad, hole),
        Pad::Obround(obround) => covers(obround, &pad, hole),
    }
}

#[test]
fn pads_cover_holes_up_to_equality(rt: HostRuntime) {
    for &(shape, half_x, half_y, x, y, is_covered) in &[
        (Disc, 825_000_000, 0, 300_000_000, 400_000_000, true),
        (Disc, 825_000_000, 0, 300_001_000, 400_000_000, false),
        (
            Obround,
            1_000_000_000,
            500_000_000,
            605_000_000,
            140_000_000,
            true,
        ),
        (
            Obround,
            1_000_000_000,
            500_000_000,
            605_000_000,
            150_000_000,
            false,
        ),
        (
            Rect,
            1_000_000_000,
            500_000_000,
            605_000_000,
            150_000_000,
            true,
        ),
        (Rect, 1_000_000_000, 350_000_000, 0, 600_000_000, false),
        (Rect, 350_000_000, 1_000_000_000, 0, 600_000_000, true),
    ] {
        let pad = pad((shape, 0, 0, half_x, half_y));
        assert!(rt; covers_hole(pad, x, y) == Some(is_covered), "at {x},{y}");
    }
}

#[test]
fn pads_elsewhere_cover_holes_up_to_equality(rt: HostRuntime) {
    for &(shape, half_y, x, y, is_covered) in &[
        (Disc, 0, 5_000, 7_000, true),
        (Obround, REACH, 5_000, 7_000, true),
        (Rect, 2 * REACH, 5_000, 7_000, true),
        (Rect, 2 * REACH, 5_000, 325_007_000, true),
        (Disc, 0, 5_001, 7_000, false),
    ] {
        let pad = pad((shape, 5_000, 7_000, REACH, half_y));
        assert!(rt; covers_hole(pad, x, y) == Some(is_covered), "at {x},{y}");
    }
}

/// The least and the greatest x of a pad, its half sides, and its centre. The half sides of a disc are its radius.
fn sides_of(pad: Option<Pad>) -> Option<(i64, i64, i64, i64, Point)> {
    let pad = pad?;
    let (half_x, half_y, centre) = match &pad {
        Pad::Disc(disc) => (disc.radius(), disc.radius(), disc.centre()),
        Pad::Rect(rect) => (rect.half_x(), rect.half_y(), rect.centre()),
        Pad::Obround(obround) => (obround.half_x(), obround.half_y(), obround.centre()),
    };
    Some((pad.left(), pad.right(), half_x, half_y, centre))
}

#[test]
fn pads_have_their_sides(rt: HostRuntime) {
    for &(shape, x, half_x, half_y, left, right) in &[
        (Disc, 0, 825_000_000, 825_000_000, -825_000_000, 825_000_000),
        (
            Obround,
            0,
            1_000_000_000,
            500_000_000,
            -1_000_000_000,
            1_000_000_000,
        ),
        (
            Rect,
            0,
            350_000_000,
            1_000_000_000,
            -350_000_000,
            350_000_000,
        ),
        (Disc, 5_000, REACH, REACH, 5_000 - REACH, 5_000 + REACH),
        (Rect, 5_000, REACH, 2 * REACH, 5_000 - REACH, 5_000 + REACH),
    ] {
        let wanted = Point::new(x, 7_000).map(|centre| (left, right, half_x, half_y, centre));
        let sides = sides_of(pad((shape, x, 7_000, half_x, half_y)));
        assert!(rt; sides == wanted, "of {half_x} at {x}");
    }
}

#[test]
fn lengths_out_of_range_are_refused(rt: HostRuntime) {
    for &(shape, half_x, half_y, is_pad) in &[
        (Disc, 0, 0, true),
        (Disc, -1, 0, false),
        (Disc, MAX_HALF_SIDE + 1, 0, false),
        (Rect, 0, 1, false),
        (Rect, 1, MAX_HALF_SIDE, true),
        (Obround, 1, 0, false),
    ] {
        assert!(rt;
            pad((shape, 0, 0, half_x, half_y)).is_some() == is_pad,
            "of {half_x},{half_y}"
        );
    }
}

/// Whether a pad covers both ends of a slot along x.
fn covers_slot(pad: Option<Pad>, from: i64, to: i64) -> Option<bool> {
    let from = Point::new(from, 0)?;
    let to = Point::new(to, 0)?;
    Some(from.y() == to.y() && pad?.covers_slot(from, to, SLOT_REACH))
}

#[test]
fn a_slot_is_covered_by_its_two_ends(rt: HostRuntime) {
    for &(shape, x, half_x, from, to, is_covered) in &[
        (
            Obround,
            1_000_000_000,
            1_375_000_000,
            0,
            2_000_000_000,
            true,
        ),
        (
            Obround,
            1_000_000_000,
            1_375_000_000,
            2_000_000_000,
            0,
            true,
        ),
        (Obround, 1_000_000_000, 1_375_000_000, 0, 0, true),
        (
            Obround,
            1_000_000_000,
            1_370_000_000,
            0,
            2_000_000_000,
            false,
        ),
        (Disc, 0, SLOT_REACH, 0, 2_000_000_000, false),
        (Disc, 0, SLOT_REACH, 2_000_000_000, 0, false),
        (Rect, 1_000_000_000, 1_375_000_000, 0, 2_000_000_000, true),
    ] {
        let pad = pad((shape, x, 0, half_x, SLOT_REACH));
        assert!(rt;
            covers_slot(pad, from, to) == Some(is_covered),
            "of {half_x}"
        );
    }
}

/// A disc at the origin, and the zone of the centres that it may cover.
fn disc_and_zone() -> Option<(pad_shapes::Disc, Zone)> {
    let disc = pad_shapes::Disc::new(Point::new(0, 0)?, 825_000_000)?;
    let zone = disc.zone(325_000_000)?;
    Some((disc, zone))
}

/// Whether the disc may cover a centre in the corner of its zone that begins at this left and this bottom.
fn may_cover_from(left: i64, bottom: i64) -> Option<bool> {
    let (disc, zone) = disc_and_zone()?;
    let corner = Zone {
        left,
        bottom,
        ..zone
    };
    Some(disc.may_cover(&corner, 325_000_000))
}

#[test]
fn a_zone_holds_what_may_be_covered(rt: HostRuntime) {
    let sides = disc_and_zone().map(|(_, zone)| (zone.left, zone.right, zone.bottom, zone.top));
    assert!(rt; sides == Some((-500_000_000, 500_000_000, -500_000_000, 500_000_000)));
    for &(left, bottom, may_cover) in &[
        (-500_000_000, -500_000_000, true),
        (300_000_000, 400_000_000, true),
        (300_001_000, 400_000_000, false),
    ] {
        assert!(rt;
            may_cover_from(left, bottom) == Some(may_cover),
            "from {left}"
        );
    }
}
