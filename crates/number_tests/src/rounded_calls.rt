//! Rounded polygons: what they cover, their extents, and the corners that are refused.

use grid_units::Point;
use pad_shapes::{MAX_HALF_SIDE, PadShape, Rounded};
use std::alloc::{AllocError, Global};
use std::test::Fail;

/// A rounded polygon of the tests.
#[derive(Clone, Copy)]
enum Outline {
    /// A square of 1 mm with rounded corners.
    RoundSquare,
    /// A diamond whose sides are 1.2 mm from its centre.
    Diamond,
    /// A square on its tip.
    TippedSquare,
    /// An oblique line with round ends.
    ObliqueOval,
    /// A square of 1 mm.
    SharpSquare,
    /// A square of 1 mm with discs of 0.4 mm at its corners.
    DiscSquare,
    /// A house on its side.
    House,
    /// A triangle at the origin.
    Triangle,
    /// The common part of two arms, with discs at its corners.
    TwoArms,
    /// A disc.
    Disc,
    /// A rectangle that is taller than wide.
    Tall,
    /// A contour that is a plane.
    Plane,
    /// A triangle as large as a layer.
    Largest,
}

const ROUND_SQUARE: [(i64, i64); 4] = [
    (250_000, 250_000),
    (-250_000, 250_000),
    (-250_000, -250_000),
    (250_000, -250_000),
];

const DIAMOND: [(i64, i64); 4] = [
    (1_500_000, 0),
    (0, 2_000_000),
    (-1_500_000, 0),
    (0, -2_000_000),
];

const TIPPED_SQUARE: [(i64, i64); 4] = [
    (1_000_000, 0),
    (0, 1_000_000),
    (-1_000_000, 0),
    (0, -1_000_000),
];

const OBLIQUE_OVAL: [(i64, i64); 2] = [(-500_000, -500_000), (500_000, 500_000)];

const SQUARE: [(i64, i64); 4] = [
    (-500_000, -500_000),
    (500_000, -500_000),
    (500_000, 500_000),
    (-500_000, 500_000),
];

const HOUSE: [(i64, i64); 5] = [
    (1_000_000, 0),
    (500_000, 750_000),
    (-500_000, 750_000),
    (-500_000, -750_000),
    (500_000, -750_000),
];

const TRIANGLE: [(i64, i64); 3] = [(0, 0), (3_000_000, 0), (0, 2_000_000)];

const TWO_ARMS: [(i64, i64); 4] = [
    (-300_000, -300_000),
    (300_000, -300_000),
    (300_000, 300_000),
    (-300_000, 300_000),
];

const DISC: [(i64, i64); 1] = [(0, 0)];

const TALL: [(i64, i64); 4] = [
    (-325_000, -1_000_000),
    (325_000, -1_000_000),
    (325_000, 1_000_000),
    (-325_000, 1_000_000),
];

const PLANE: [(i64, i64); 4] = [
    (-50_000_000, -50_000_000),
    (50_000_000, -50_000_000),
    (50_000_000, 50_000_000),
    (-50_000_000, 50_000_000),
];

const LARGEST: [(i64, i64); 3] = [
    (-10_000_000_000, -10_000_000_000),
    (10_000_000_000, -9_999_000_000),
    (9_999_000_000, 10_000_000_000),
];

impl Outline {
    /// The corners in nm, counterclockwise.
    fn corners(self) -> &'static [(i64, i64)] {
        match self {
            Outline::RoundSquare => &ROUND_SQUARE,
            Outline::Diamond => &DIAMOND,
            Outline::TippedSquare => &TIPPED_SQUARE,
            Outline::ObliqueOval => &OBLIQUE_OVAL,
            Outline::SharpSquare | Outline::DiscSquare => &SQUARE,
            Outline::House => &HOUSE,
            Outline::Triangle => &TRIANGLE,
            Outline::TwoArms => &TWO_ARMS,
            Outline::Disc => &DISC,
            Outline::Tall => &TALL,
            Outline::Plane => &PLANE,
            Outline::Largest => &LARGEST,
        }
    }

    /// The radius in nm.
    fn radius(self) -> i64 {
        match self {
            Outline::RoundSquare => 250_000,
            Outline::ObliqueOval => 500_000,
            Outline::DiscSquare => 200_000,
            Outline::TwoArms => 200_000,
            Outline::Disc => 850_000,
            _ => 0,
        }
    }
}

/// The point at these coordinates in nm.
fn point(x: i64, y: i64) -> Option<Point> {
    Point::new(x.checked_mul(1_000)?, y.checked_mul(1_000)?)
}

/// The rounded polygon of these corners and this radius, in nm. `None` where it is refused.
fn rounded(
    alloc: Global,
    corners: &[(i64, i64)],
    radius: i64,
) -> Result<Option<Rounded>, AllocError> {
    let mut first = None;
    let mut others = Vec::new(alloc);
    for &(x, y) in corners {
        let Some(corner) = point(x, y) else {
            return Ok(None);
        };
        if first.is_none() {
            first = Some(corner);
        } else {
            others.push(corner)?;
        }
    }
    let (Some(first), Some(radius)) = (first, radius.checked_mul(1_000)) else {
        return Ok(None);
    };
    Ok(Rounded::new(first, others, radius))
}

/// Whether a shape covers a hole with this reach, all in nm and the reach in pm.
fn covers(rounded: &Option<Rounded>, reach: i64, x: i64, y: i64) -> Option<bool> {
    let hole = point(x, y)?;
    match rounded {
        Some(rounded) if 0 <= reach && reach <= 20_000_000_000_000 => {
            Some(rounded.covers(hole, reach))
        }
        _ => None,
    }
}

/// Shapes, a reach in pm, a place in nm, and whether the hole there is covered.
const HOLES: [(Outline, i64, i64, i64, bool); 38] = [
    (Outline::RoundSquare, 325_000_000, 175_000, 175_000, true),
    (Outline::RoundSquare, 325_000_000, 175_001, 0, false),
    (Outline::RoundSquare, 325_000_000, 0, -175_001, false),
    (Outline::RoundSquare, 225_000_000, 265_000, 270_000, true),
    (Outline::RoundSquare, 225_000_000, 265_000, 270_001, false),
    (Outline::RoundSquare, 225_000_000, 275_000, 0, true),
    (Outline::RoundSquare, 225_000_000, 275_001, 0, false),
    (Outline::Diamond, 1_200_000_000, 0, 0, true),
    (Outline::Diamond, 1_200_001_000, 0, 0, false),
    (Outline::TippedSquare, 707_106_780, 0, 0, true),
    (Outline::TippedSquare, 707_106_785, 0, 0, false),
    (Outline::ObliqueOval, 325_000_000, 605_000, 640_000, true),
    (Outline::ObliqueOval, 325_000_000, 605_000, 640_001, false),
    (Outline::ObliqueOval, 325_000_000, 123_740, -123_740, true),
    (Outline::ObliqueOval, 325_000_000, 123_750, -123_750, false),
    (Outline::ObliqueOval, 500_000_000, 500_000, 500_000, true),
    (Outline::ObliqueOval, 500_000_000, 600_000, 600_000, false),
    (Outline::ObliqueOval, 500_001_000, 0, 0, false),
    (Outline::DiscSquare, 700_000_000, 0, 0, true),
    (Outline::DiscSquare, 700_001_000, 0, 0, false),
    (Outline::SharpSquare, 500_000_000, 0, 0, true),
    (Outline::SharpSquare, 500_001_000, 0, 0, false),
    (Outline::House, 500_000_000, 0, 0, true),
    (Outline::House, 500_001_000, 0, 0, false),
    (Outline::Triangle, 325_000_000, 400_000, 400_000, true),
    (Outline::Triangle, 325_000_000, -400_000, 400_000, false),
    (Outline::TwoArms, 500_000_000, 0, 0, true),
    (Outline::TwoArms, 500_001_000, 0, 0, false),
    (Outline::TwoArms, 200_000_000, 300_000, 300_000, true),
    (Outline::TwoArms, 225_000_000, 310_500, 314_000, false),
    (Outline::Disc, 850_000_000, 0, 0, true),
    (Outline::Disc, 850_000_000, 1, 0, false),
    (Outline::Tall, 325_000_000, 0, 600_000, true),
    (Outline::Tall, 325_000_000, 600_000, 0, false),
    (Outline::Plane, 325_000_000, 49_675_000, 49_675_000, true),
    (Outline::Plane, 325_000_000, 49_675_001, 49_675_000, false),
    (Outline::Largest, 353_562_225, 0, 0, true),
    (Outline::Largest, 353_562_230, 0, 0, false),
];

#[test]
fn rounded_polygons_cover_holes_up_to_equality(rt: HostRuntime) -> Result<(), Fail> {
    for &(outline, reach, x, y, is_covered) in &HOLES {
        let shape = rounded(rt.alloc(), outline.corners(), outline.radius())?;
        assert!(rt;
            covers(&shape, reach, x, y) == Some(is_covered),
            "with {reach} at {x},{y}"
        );
    }
    Ok(())
}

/// Shapes, a place in nm, and the greatest reach in pm that is covered there.
const REACHES: [(Outline, i64, i64, Option<u64>); 9] = [
    (Outline::RoundSquare, 0, 0, Some(500_000_000)),
    (Outline::RoundSquare, 175_000, 0, Some(325_000_000)),
    (Outline::Diamond, 0, 0, Some(1_200_000_000)),
    (Outline::TippedSquare, 0, 0, Some(707_106_781)),
    (Outline::ObliqueOval, 123_740, -123_740, Some(325_005_213)),
    (Outline::ObliqueOval, 900_000, 0, None),
    (Outline::House, 0, 0, Some(500_000_000)),
    (Outline::Disc, 0, 0, Some(850_000_000)),
    (Outline::Largest, 0, 0, Some(353_562_229)),
];

#[test]
fn rounded_polygons_have_a_greatest_reach(rt: HostRuntime) -> Result<(), Fail> {
    for &(outline, x, y, greatest) in &REACHES {
        let shape = rounded(rt.alloc(), outline.corners(), outline.radius())?;
        let reach = match (&shape, point(x, y)) {
            (Some(rounded), Some(hole)) => rounded.greatest_reach(hole),
            _ => None,
        };
        assert!(rt; reach == greatest, "at {x},{y}");
    }
    Ok(())
}

/// Shapes, and their least and greatest x in pm.
const EXTENTS: [(Outline, i64, i64); 4] = [
    (Outline::RoundSquare, -500_000_000, 500_000_000),
    (Outline::Triangle, 0, 3_000_000_000),
    (Outline::ObliqueOval, -1_000_000_000, 1_000_000_000),
    (Outline::Disc, -850_000_000, 850_000_000),
];

#[test]
fn rounded_polygons_have_their_extents(rt: HostRuntime) -> Result<(), Fail> {
    for &(outline, left, right) in &EXTENTS {
        let sides = match rounded(rt.alloc(), outline.corners(), outline.radius())? {
            Some(rounded) => Some((rounded.left(), rounded.right())),
            None => None,
        };
        assert!(rt; sides == Some((left, right)), "from {left}");
    }
    Ok(())
}

/// Corners in nm, and whether they make a polygon: clockwise, dented, flat, twice the same, one corner amid a side.
const OUTLINES: [(&[(i64, i64)], bool); 9] = [
    (&[(0, 0)], true),
    (&[(0, 0), (1, 0)], true),
    (&[(0, 0), (0, 0)], false),
    (&[(0, 0), (1, 0), (1, 1), (0, 1)], true),
    (&[(0, 0), (0, 1), (1, 1), (1, 0)], false),
    (&[(0, 0), (4, 0), (1, 1), (0, 4)], false),
    (&[(0, 0), (1, 0), (2, 0)], false),
    (&[(0, 0), (1, 0), (2, 0), (2, 2), (0, 2)], true),
    (&[], false),
];

#[test]
fn outlines_are_convex_and_counterclockwise(rt: HostRuntime) -> Result<(), Fail> {
    for &(corners, is_outline) in &OUTLINES {
        let shape = rounded(rt.alloc(), corners, 1)?;
        assert!(rt;
            shape.is_some() == is_outline,
            "of {} corners",
            corners.len()
        );
    }
    Ok(())
}

#[test]
fn radii_are_in_range(rt: HostRuntime) -> Result<(), Fail> {
    let limit = MAX_HALF_SIDE / 1_000;
    for &(radius, is_radius) in &[(-1, false), (0, true), (limit, true), (limit + 1, false)] {
        let shape = rounded(rt.alloc(), &[(0, 0)], radius)?;
        assert!(rt; shape.is_some() == is_radius, "of {radius}");
    }
    Ok(())
}

/// A square of 2 mm whose lower side has so many corners from its left end on.
fn with_parts(alloc: Global, parts: i64) -> Result<Option<Rounded>, AllocError> {
    let mut corners = Vec::new(alloc);
    corners.push((1_000_000, -1_000_000))?;
    corners.push((1_000_000, 1_000_000))?;
    corners.push((-1_000_000, 1_000_000))?;
    for step in 0..parts {
        let x = step.saturating_mul(2_000).saturating_sub(1_000_000);
        corners.push((x, -1_000_000))?;
    }
    rounded(alloc, &corners, 0)
}

#[test]
fn there_are_256_corners_at_most(rt: HostRuntime) -> Result<(), Fail> {
    let most = with_parts(rt.alloc(), 253)?;
    assert!(rt; covers(&most, 325_000_000, 0, 0) == Some(true));
    assert!(rt; with_parts(rt.alloc(), 254)?.is_none());
    Ok(())
}
