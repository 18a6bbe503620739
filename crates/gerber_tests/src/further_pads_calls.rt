//! The further pads of layers: mirrored, turned and repeated macros, and contours that count and that do not.

use crate::texts::layer_of;
use grid_units::{Point, Profile};
use layer_image::{Feature, FeatureKind, Keep};
use pad_shapes::{PlacedRounded, Rounded};
use std::alloc::Global;

/// A pad: its radius, and its corners in µm.
type Pad = (i64, &'static [(i64, i64)]);

/// A triangle with a right angle at the point of the flash, 3 mm along x and 2 mm along y.
const TRIANGLE: &[u8] = b"%AMT*4,1,3,0,0,3,0,0,2,0,0,0*%\n%ADD10T*%\nD10*\n";

/// What is written after the triangle, and the further pads in the order of the text.
const FLASHES: [(&[u8], &[Pad]); 16] = [
    (b"X0Y0D03*\n", &[(0, &[(3_000, 0), (0, 2_000), (0, 0)])]),
    // A flash elsewhere.
    (
        b"X1000000Y2000000D03*\n",
        &[(0, &[(4_000, 2_000), (1_000, 4_000), (1_000, 2_000)])],
    ),
    // Turned by quarters counterclockwise: (x, y) goes to (-y, x).
    (
        b"%LR90*%\nX0Y0D03*\n",
        &[(0, &[(0, 3_000), (-2_000, 0), (0, 0)])],
    ),
    (
        b"%LR180*%\nX0Y0D03*\n",
        &[(0, &[(-3_000, 0), (0, -2_000), (0, 0)])],
    ),
    (
        b"%LR-90*%\nX0Y0D03*\n",
        &[(0, &[(0, -3_000), (2_000, 0), (0, 0)])],
    ),
    // Mirrored along one axis: the corners after the first are taken in the other order.
    (
        b"%LMX*%\nX0Y0D03*\n",
        &[(0, &[(-3_000, 0), (0, 0), (0, 2_000)])],
    ),
    (
        b"%LMY*%\nX0Y0D03*\n",
        &[(0, &[(3_000, 0), (0, 0), (0, -2_000)])],
    ),
    (
        b"%LMXY*%\nX0Y0D03*\n",
        &[(0, &[(-3_000, 0), (0, -2_000), (0, 0)])],
    ),
    // Mirrored first, and then turned: (x, y) goes to (-x, y) and to (-y, -x).
    (
        b"%LMX*%\n%LR90*%\nX0Y0D03*\n",
        &[(0, &[(0, -3_000), (0, 0), (-2_000, 0)])],
    ),
    // Mirrored no longer.
    (
        b"%LMX*%\n%LMN*%\nX0Y0D03*\n",
        &[(0, &[(3_000, 0), (0, 2_000), (0, 0)])],
    ),
    // Turned by another angle, or scaled.
    (b"%LR45*%\nX0Y0D03*\n", &[]),
    (b"%LS0.5*%\nX0Y0D03*\n", &[]),
    // Repeated twice along x and twice along y: column by column.
    (
        b"%SRX2Y2I5J4*%\nX0Y0D03*\n%SR*%\n",
        &[
            (0, &[(3_000, 0), (0, 2_000), (0, 0)]),
            (0, &[(3_000, 4_000), (0, 6_000), (0, 4_000)]),
            (0, &[(8_000, 0), (5_000, 2_000), (5_000, 0)]),
            (0, &[(8_000, 4_000), (5_000, 6_000), (5_000, 4_000)]),
        ],
    ),
    // A corner may lie as far as 10 m from zero. A copy with one farther is left out.
    (
        b"X9997000000Y0D03*\n",
        &[(0, &[(10_000_000, 0), (9_997_000, 2_000), (9_997_000, 0)])],
    ),
    (
        b"%SRX2Y1I1J0*%\nX9996500000Y0D03*\n%SR*%\n",
        &[(0, &[(9_999_500, 0), (9_996_500, 2_000), (9_996_500, 0)])],
    ),
    // A move and a plot leave no pad.
    (b"X0Y0D02*\nX5000000D02*\n", &[]),
];

/// The commands of a layer, and the further pads in the order of the text.
const LAYERS: [(&[u8], &[Pad]); 36] = [
    // A square of 2 mm, from its lower left corner.
    (
        b"G36*\nX-1000000Y-1000000D02*\nX1000000D01*\nY1000000D01*\nX-1000000D01*\nY-1000000D01*\nG37*\n",
        &[(0, &SQUARE)],
    ),
    // Clockwise.
    (
        b"G36*\nX-1000000Y-1000000D02*\nY1000000D01*\nX1000000D01*\nY-1000000D01*\nX-1000000D01*\nG37*\n",
        &[(0, &SQUARE)],
    ),
    // Moves before the contour and after it.
    (
        b"G36*\nX5000000Y5000000D02*\nX-1000000Y-1000000D02*\nX1000000D01*\nY1000000D01*\nX-1000000D01*\nY-1000000D01*\nX0Y0D02*\nG37*\n",
        &[(0, &SQUARE)],
    ),
    // A point that is written twice.
    (
        b"G36*\nX-1000000Y-1000000D02*\nX1000000D01*\nX1000000D01*\nY1000000D01*\nX-1000000D01*\nY-1000000D01*\nG37*\n",
        &[(0, &SQUARE)],
    ),
    // A corner amid a side.
    (
        b"G36*\nX-1000000Y-1000000D02*\nX0D01*\nX1000000D01*\nY1000000D01*\nX-1000000D01*\nY-1000000D01*\nG37*\n",
        &[(
            0,
            &[
                (0, -1_000),
                (1_000, -1_000),
                (1_000, 1_000),
                (-1_000, 1_000),
                (-1_000, -1_000),
            ],
        )],
    ),
    // Not closed.
    (
        b"G36*\nX-1000000Y-1000000D02*\nX1000000D01*\nY1000000D01*\nX-1000000D01*\nG37*\n",
        &[],
    ),
    // Two contours.
    (
        b"G36*\nX-1000000Y-1000000D02*\nX1000000D01*\nY1000000D01*\nX-1000000D01*\nY-1000000D01*\nX5000000Y5000000D02*\nX6000000D01*\nY6000000D01*\nX5000000Y5000000D01*\nG37*\n",
        &[],
    ),
    // A dent.
    (
        b"G36*\nX-1000000Y-1000000D02*\nX1000000D01*\nX0Y0D01*\nX1000000Y1000000D01*\nX-1000000D01*\nY-1000000D01*\nG37*\n",
        &[],
    ),
    // A cross of twelve sides, which turns both ways, and a square after it.
    (
        b"G36*\nX-1000000Y-3000000D02*\nX1000000Y-3000000D01*\nX1000000Y-1000000D01*\nX3000000Y-1000000D01*\nX3000000Y1000000D01*\nX1000000Y1000000D01*\nX1000000Y3000000D01*\nX-1000000Y3000000D01*\nX-1000000Y1000000D01*\nX-3000000Y1000000D01*\nX-3000000Y-1000000D01*\nX-1000000Y-1000000D01*\nX-1000000Y-3000000D01*\nG37*\nG36*\nX-1000000Y-1000000D02*\nX1000000D01*\nY1000000D01*\nX-1000000D01*\nY-1000000D01*\nG37*\n",
        &[(0, &SQUARE)],
    ),
    // Eight sides.
    (
        b"G36*\nX400000Y-1000000D02*\nX1000000Y-400000D01*\nX1000000Y400000D01*\nX400000Y1000000D01*\nX-400000Y1000000D01*\nX-1000000Y400000D01*\nX-1000000Y-400000D01*\nX-400000Y-1000000D01*\nX400000Y-1000000D01*\nG37*\n",
        &[(
            0,
            &[
                (1_000, -400),
                (1_000, 400),
                (400, 1_000),
                (-400, 1_000),
                (-1_000, 400),
                (-1_000, -400),
                (-400, -1_000),
                (400, -1_000),
            ],
        )],
    ),
    // Sides that cross.
    (
        b"G36*\nX-1000000Y-1000000D02*\nX1000000Y1000000D01*\nX1000000Y-1000000D01*\nX-1000000Y1000000D01*\nX-1000000Y-1000000D01*\nG37*\n",
        &[],
    ),
    // Flat.
    (
        b"G36*\nX-1000000Y-1000000D02*\nX1000000D01*\nX-1000000D01*\nG37*\n",
        &[],
    ),
    // Twice round.
    (
        b"G36*\nX-1000000Y-1000000D02*\nX1000000D01*\nY1000000D01*\nX-1000000D01*\nY-1000000D01*\nX1000000D01*\nY1000000D01*\nX-1000000D01*\nY-1000000D01*\nG37*\n",
        &[],
    ),
    // No move before the first plot: readers differ in where such a contour begins.
    (
        b"X-1000000Y-1000000D02*\nG36*\nX1000000D01*\nY1000000D01*\nX-1000000D01*\nY-1000000D01*\nG37*\n",
        &[],
    ),
    // A circle painted with four arcs counterclockwise: the square of its chords.
    (
        b"G75*\nG36*\nX1000000Y0D02*\nG03*\nX0Y1000000I-1000000J0D01*\nX-1000000Y0I0J-1000000D01*\nX0Y-1000000I1000000J0D01*\nX1000000Y0I0J1000000D01*\nG37*\n",
        &[(0, &[(0, 1_000), (-1_000, 0), (0, -1_000), (1_000, 0)])],
    ),
    // The circle clockwise, with arcs clockwise.
    (
        b"G75*\nG36*\nX1000000Y0D02*\nG02*\nX0Y-1000000I-1000000J0D01*\nX-1000000Y0I0J1000000D01*\nX0Y1000000I1000000J0D01*\nX1000000Y0I0J-1000000D01*\nG37*\n",
        &[(0, &[(0, 1_000), (-1_000, 0), (0, -1_000), (1_000, 0)])],
    ),
    // Arcs that turn the other way.
    (
        b"G75*\nG36*\nX1000000Y0D02*\nG02*\nX0Y1000000I-1000000J0D01*\nX-1000000Y0I0J-1000000D01*\nX0Y-1000000I1000000J0D01*\nX1000000Y0I0J1000000D01*\nG37*\n",
        &[],
    ),
    // Arcs without a mode of quadrants, and in that of a single one.
    (
        b"G36*\nX1000000Y0D02*\nG03*\nX0Y1000000I-1000000J0D01*\nX-1000000Y0I0J-1000000D01*\nX0Y-1000000I1000000J0D01*\nX1000000Y0I0J1000000D01*\nG37*\n",
        &[],
    ),
    (
        b"G74*\nG36*\nX1000000Y0D02*\nG03*\nX0Y1000000I-1000000J0D01*\nX-1000000Y0I0J-1000000D01*\nX0Y-1000000I1000000J0D01*\nX1000000Y0I0J1000000D01*\nG37*\n",
        &[],
    ),
    // The radii at both ends of an arc differ by 2 um, and by a nanometre more.
    (
        b"G75*\nG36*\nX1000000Y0D02*\nG03*\nX0Y1002000I-1000000J0D01*\nG01*\nX-1000000Y0D01*\nX0Y-1000000D01*\nX1000000Y0D01*\nG37*\n",
        &[(0, &[(0, 1_002), (-1_000, 0), (0, -1_000), (1_000, 0)])],
    ),
    (
        b"G75*\nG36*\nX1000000Y0D02*\nG03*\nX0Y1002001I-1000000J0D01*\nG01*\nX-1000000Y0D01*\nX0Y-1000000D01*\nX1000000Y0D01*\nG37*\n",
        &[],
    ),
    (
        b"G75*\nG36*\nX1000000Y0D02*\nG03*\nX0Y998000I-1000000J0D01*\nG01*\nX-1000000Y0D01*\nX0Y-1000000D01*\nX1000000Y0D01*\nG37*\n",
        &[(0, &[(0, 998), (-1_000, 0), (0, -1_000), (1_000, 0)])],
    ),
    (
        b"G75*\nG36*\nX1000000Y0D02*\nG03*\nX0Y997999I-1000000J0D01*\nG01*\nX-1000000Y0D01*\nX0Y-1000000D01*\nX1000000Y0D01*\nG37*\n",
        &[],
    ),
    (
        b"G75*\nG36*\nX1000000Y0D02*\nG02*\nX0Y-1002001I-1000000J0D01*\nG01*\nX-1000000Y0D01*\nX0Y1000000D01*\nX1000000Y0D01*\nG37*\n",
        &[],
    ),
    // A centre 1 mm from the start of an arc, and more than 4 mm from its end.
    (
        b"G75*\nG36*\nX-2000000Y-2000000D02*\nG01*\nX2000000D01*\nG03*\nX2000000Y2000000I1000000J0D01*\nG01*\nX-2000000D01*\nY-2000000D01*\nG37*\n",
        &[],
    ),
    // The offsets of a centre exchanged, and left out.
    (
        b"G75*\nG36*\nX1000000Y0D02*\nG03*\nX0Y1000000I0J-1000000D01*\nG01*\nX-1000000Y0D01*\nX0Y-1000000D01*\nX1000000Y0D01*\nG37*\n",
        &[],
    ),
    (
        b"G75*\nG36*\nX1000000Y0D02*\nG03*\nX0Y1000000D01*\nG01*\nX-1000000Y0D01*\nX0Y-1000000D01*\nX1000000Y0D01*\nG37*\n",
        &[],
    ),
    // A radius of less than 1 m, and one above it.
    (
        b"G75*\nG36*\nX1000000Y-1000000D02*\nG03*\nX1000000Y1000000I-999000000J1000000D01*\nG01*\nX-1000000D01*\nY-1000000D01*\nX1000000D01*\nG37*\n",
        &[(
            0,
            &[
                (1_000, 1_000),
                (-1_000, 1_000),
                (-1_000, -1_000),
                (1_000, -1_000),
            ],
        )],
    ),
    (
        b"G75*\nG36*\nX1000000Y-1000000D02*\nG03*\nX1000000Y1000000I-1000000000J1000000D01*\nG01*\nX-1000000D01*\nY-1000000D01*\nX1000000D01*\nG37*\n",
        &[],
    ),
    // A full circle, alone and amid a square.
    (
        b"G75*\nG36*\nX1000000Y0D02*\nG03*\nX1000000Y0I-1000000J0D01*\nG37*\n",
        &[],
    ),
    (
        b"G75*\nG36*\nX-1000000Y-1000000D02*\nX1000000D01*\nG03*\nX1000000Y-1000000I-500000J500000D01*\nG01*\nY1000000D01*\nX-1000000D01*\nY-1000000D01*\nG37*\n",
        &[],
    ),
    // Regions one after the other.
    (
        b"G36*\nX-1000000Y-1000000D02*\nX1000000D01*\nY1000000D01*\nX-1000000D01*\nY-1000000D01*\nG37*\nG36*\nX0Y0D02*\nX1000000D01*\nG37*\nG36*\nX-1000000Y-1000000D02*\nX1000000D01*\nY1000000D01*\nX-1000000D01*\nY-1000000D01*\nG37*\n",
        &[(0, &SQUARE), (0, &SQUARE)],
    ),
    // Repeated along x.
    (
        b"%SRX2Y1I5J0*%\nG36*\nX-1000000Y-1000000D02*\nX1000000D01*\nY1000000D01*\nX-1000000D01*\nY-1000000D01*\nG37*\n%SR*%\n",
        &[
            (0, &SQUARE),
            (
                0,
                &[
                    (6_000, -1_000),
                    (6_000, 1_000),
                    (4_000, 1_000),
                    (4_000, -1_000),
                ],
            ),
        ],
    ),
    // Turning, mirroring and scaling change no contour.
    (
        b"%LR90*%\n%LMX*%\n%LS2*%\nG36*\nX-1000000Y-1000000D02*\nX1000000D01*\nY1000000D01*\nX-1000000D01*\nY-1000000D01*\nG37*\n",
        &[(0, &SQUARE)],
    ),
    // Two macros, in order, and a contour between them: each aperture has the macro of its own name.
    (
        b"%AMA*1,1,$1,0,0*%\n%AMB*1,1,$1,1,0*%\n%ADD10A,0.6*%\n%ADD11B,0.4*%\nD11*\nX0Y0D03*\nG36*\nX-1000000Y-1000000D02*\nX1000000D01*\nY1000000D01*\nX-1000000D01*\nY-1000000D01*\nG37*\nD10*\nX0Y0D03*\n",
        &[
            (200_000_000, &[(1_000, 0)]),
            (0, &SQUARE),
            (300_000_000, &[(0, 0)]),
        ],
    ),
    // Pads of standard apertures are no further ones, and a macro that is not judged leaves none.
    (
        b"%AMA*7,0,0,1,0.5,0.1,0*%\n%ADD10C,0.6*%\n%ADD11A*%\nD10*\nX0Y0D03*\nD11*\nX0Y0D03*\n",
        &[],
    ),
];

/// The corners of a square of 2 mm about (0, 0), from the lower right one.
const SQUARE: [(i64, i64); 4] = [
    (1_000, -1_000),
    (1_000, 1_000),
    (-1_000, 1_000),
    (-1_000, -1_000),
];

/// Whether a point lies at these coordinates in µm.
fn is_at(point: Point, (x, y): (i64, i64)) -> bool {
    Some(point.x()) == x.checked_mul(1_000_000) && Some(point.y()) == y.checked_mul(1_000_000)
}

/// Whether points lie at these coordinates in µm.
fn are_at(points: &[Point], expected: &[(i64, i64)]) -> bool {
    points.len() == expected.len()
        && points
            .iter()
            .zip(expected)
            .all(|(point, wanted)| is_at(*point, *wanted))
}

/// Whether a rounded polygon has this radius and these corners.
fn is_pad(found: &Rounded, &(radius, corners): &Pad) -> bool {
    match corners {
        [] => false,
        [first, others @ ..] => {
            found.radius() == radius
                && is_at(found.first(), *first)
                && are_at(found.others(), others)
        }
    }
}

/// The rounded polygon of a flash of a macro or of a contour.
fn rounded(what: &FeatureKind) -> Option<&PlacedRounded> {
    match what {
        FeatureKind::Shape(pad, _) | FeatureKind::Contour(pad) => Some(pad),
        _ => None,
    }
}

/// Whether the rounded polygons among flashes and contours are these, in order.
fn are_pads(alloc: Global, features: &[Feature], expected: &[Pad]) -> bool {
    let mut left = expected;
    for feature in features {
        if let Some(pad) = rounded(&feature.what) {
            let [next, rest @ ..] = left else {
                return false;
            };
            match pad.on_board(alloc) {
                Ok(found) if is_pad(&found, next) => left = rest,
                _ => return false,
            }
        }
    }
    left.is_empty()
}

/// Whether these are the further pads of the layer of a text in millimetres.
fn has_pads(alloc: Global, pieces: [&[u8]; 2], expected: &[Pad]) -> bool {
    let [before, body] = pieces;
    let pieces: [&[u8]; 4] = [b"%FSLAX46Y46*%\n%MOMM*%\nG01*\n", before, body, b"M02*\n"];
    let Ok(text) = pieces.concat(alloc) else {
        return false;
    };
    match layer_of(alloc, Keep::Rows, Profile::Strict, &text) {
        Ok(layer) => are_pads(alloc, layer.features(), expected),
        Err(_) => false,
    }
}

#[test]
fn flashes_of_macros_are_mirrored_turned_and_repeated(rt: HostRuntime) {
    for (place, &(body, expected)) in FLASHES.iter().enumerate() {
        assert!(rt;
            has_pads(rt.alloc(), [TRIANGLE, body], expected),
            "at {place}"
        );
    }
}

#[test]
fn contours_count_where_they_are_closed_and_convex(rt: HostRuntime) {
    for (place, &(body, expected)) in LAYERS.iter().enumerate() {
        assert!(rt; has_pads(rt.alloc(), [b"", body], expected), "at {place}");
    }
}
