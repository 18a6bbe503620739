//! What layers draw: lines and arcs, flashes of macros, and the contours of regions.

use crate::texts::{joined, layer_of};
use grid_units::{Point, Profile};
use layer_image::{Drawn, Keep};
use pad_shapes::Rounded;
use std::alloc::Global;

/// A part of what is drawn, with its points and its width in pm.
#[derive(Clone, Copy, Debug, PartialEq, Eq)]
enum Part {
    /// A line: the x and y of its ends, and its width.
    Line(i64, i64, i64, i64, i64),
    /// An arc: the x and y of its ends and of its centre, its width, and whether it goes clockwise.
    Arc(i64, i64, i64, i64, i64, i64, i64, bool),
    /// A flash of a macro: the x and y of its point, the radius, and the corners about the point.
    Flash(i64, i64, i64, &'static [(i64, i64)]),
    /// The first corner of a contour.
    Contour(i64, i64),
    /// The next corner.
    Corner(i64, i64),
    /// The next part, an arc: the x and y of its ends and of its centre, and whether it goes clockwise.
    Bend(i64, i64, i64, i64, i64, i64, bool),
}

/// A part with its points as numbers; of a flash without its corners.
fn part_of(drawn: &Drawn) -> Part {
    match drawn {
        Drawn::Line { from, to, width } => Part::Line(from.x(), from.y(), to.x(), to.y(), *width),
        Drawn::Arc {
            from,
            to,
            centre,
            width,
            clockwise,
        } => Part::Arc(
            from.x(),
            from.y(),
            to.x(),
            to.y(),
            centre.x(),
            centre.y(),
            *width,
            *clockwise,
        ),
        Drawn::Flash { at, shape } => Part::Flash(at.x(), at.y(), shape.get().radius(), &[]),
        Drawn::Contour(at) => Part::Contour(at.x(), at.y()),
        Drawn::Corner(at) => Part::Corner(at.x(), at.y()),
        Drawn::Bend {
            from,
            to,
            centre,
            clockwise,
        } => Part::Bend(
            from.x(),
            from.y(),
            to.x(),
            to.y(),
            centre.x(),
            centre.y(),
            *clockwise,
        ),
    }
}

/// Whether a point has these coordinates.
fn is_at(point: Point, expected: (i64, i64)) -> bool {
    (point.x(), point.y()) == expected
}

/// Whether points have these coordinates.
fn are_at(points: &[Point], expected: &[(i64, i64)]) -> bool {
    points.len() == expected.len()
        && points
            .iter()
            .zip(expected)
            .all(|(point, wanted)| is_at(*point, *wanted))
}

/// Whether a shape has these corners.
fn has_corners(shape: &Rounded, expected: &[(i64, i64)]) -> bool {
    match expected {
        [] => false,
        [first, others @ ..] => is_at(shape.first(), *first) && are_at(shape.others(), others),
    }
}

/// Whether this part is drawn.
fn is_part(drawn: &Drawn, expected: &Part) -> bool {
    match (drawn, expected) {
        (Drawn::Flash { shape, .. }, Part::Flash(x, y, radius, corners)) => {
            part_of(drawn) == Part::Flash(*x, *y, *radius, &[]) && has_corners(shape.get(), corners)
        }
        _ => part_of(drawn) == *expected,
    }
}

/// Whether these parts are drawn, in this order.
fn are_parts(drawn: &[Drawn], expected: &[Part]) -> bool {
    drawn.len() == expected.len()
        && drawn
            .iter()
            .zip(expected)
            .all(|(part, wanted)| is_part(part, wanted))
}

/// Whether the layer of a text draws these parts.
fn draws(alloc: Global, text: &[u8], expected: &[Part]) -> bool {
    match layer_of(alloc, Keep::RowsAndDrawn, Profile::Strict, text) {
        Ok(layer) => are_parts(layer.drawn(), expected),
        Err(_) => false,
    }
}

/// Texts, and what they draw. In most of them a step is 1 nm, so 1,000,000 is 1 mm, which is 1,000,000,000 pm.
const DRAWN: [(&[u8], &[Part]); 28] = [
    // Lines from point to point: a coordinate that is left out is the last one.
    (
        b"%FSLAX46Y46*%\n%MOMM*%\n%ADD10C,0.2*%\nD10*\nG01*\nX0Y0D02*\nX1000000Y0D01*\nY2000000D01*\nM02*\n",
        &[
            Part::Line(0, 0, 1_000_000_000, 0, 200_000_000),
            Part::Line(1_000_000_000, 0, 1_000_000_000, 2_000_000_000, 200_000_000),
        ],
    ),
    // Without a plot state they are straight. The first begins at the origin.
    (
        b"%FSLAX24Y24*%\n%MOIN*%\n%ADD10C,0.01*%\nD10*\nX10000Y-20000D01*\nM02*\n",
        &[Part::Line(0, 0, 25_400_000_000, -50_800_000_000, 254_000_000)],
    ),
    // No rectangle and no disc with a hole draws a line.
    (
        b"%FSLAX46Y46*%\n%MOMM*%\n%ADD10R,1X2*%\n%ADD11C,0.5X0.2*%\nD10*\nX1000000Y0D01*\nD11*\nX0D01*\nM02*\n",
        &[],
    ),
    // A scaled disc draws none.
    (
        b"%FSLAX46Y46*%\n%MOMM*%\n%ADD10C,0.2*%\nD10*\n%LS2*%\nX1000000Y0D01*\n%LS1*%\nX0D01*\nM02*\n",
        &[Part::Line(1_000_000_000, 0, 0, 0, 200_000_000)],
    ),
    // A turned disc is the same disc.
    (
        b"%FSLAX46Y46*%\n%MOMM*%\n%ADD10C,0.2*%\nD10*\n%LR45*%\nX1000000Y0D01*\nM02*\n",
        &[Part::Line(0, 0, 1_000_000_000, 0, 200_000_000)],
    ),
    // An arc clockwise: its centre is half a millimetre right of its start. Then a line.
    (
        b"%FSLAX46Y46*%\n%MOMM*%\n%ADD10C,0.2*%\nD10*\nG75*\nG02*\nX1000000Y0I500000J0D01*\nG01*\nX0D01*\nM02*\n",
        &[
            Part::Arc(0, 0, 1_000_000_000, 0, 500_000_000, 0, 200_000_000, true),
            Part::Line(1_000_000_000, 0, 0, 0, 200_000_000),
        ],
    ),
    // An arc counterclockwise, a quarter of a circle round the origin.
    (
        b"%FSLAX46Y46*%\n%MOMM*%\n%ADD10C,0.2*%\nD10*\nX1000000Y0D02*\nG75*\nG03*\nX0Y1000000I-1000000J0D01*\nM02*\n",
        &[Part::Arc(1_000_000_000, 0, 0, 1_000_000_000, 0, 0, 200_000_000, false)],
    ),
    // An arc in inches: a step is 2,540,000 pm. Its centre is an inch above its start.
    (
        b"%FSLAX24Y24*%\n%MOIN*%\n%ADD10C,0.01*%\nD10*\nG75*\nG03*\nX10000Y10000I0J10000D01*\nM02*\n",
        &[Part::Arc(
            0,
            0,
            25_400_000_000,
            25_400_000_000,
            0,
            25_400_000_000,
            254_000_000,
            false,
        )],
    ),
    // An offset that is left out is 0: J of the first arc, I of the second.
    (
        b"%FSLAX46Y46*%\n%MOMM*%\n%ADD10C,0.2*%\nD10*\nG75*\nG02*\nX2000000Y0I1000000D01*\nG03*\nY2000000J1000000D01*\nM02*\n",
        &[
            Part::Arc(0, 0, 2_000_000_000, 0, 1_000_000_000, 0, 200_000_000, true),
            Part::Arc(
                2_000_000_000,
                0,
                2_000_000_000,
                2_000_000_000,
                2_000_000_000,
                1_000_000_000,
                200_000_000,
                false,
            ),
        ],
    ),
    // A full circle ends where it begins.
    (
        b"%FSLAX46Y46*%\n%MOMM*%\n%ADD10C,0.2*%\nD10*\nX1000000Y0D02*\nG75*\nG03*\nX1000000Y0I-1000000J0D01*\nM02*\n",
        &[Part::Arc(1_000_000_000, 0, 1_000_000_000, 0, 0, 0, 200_000_000, false)],
    ),
    // In a single quadrant, and where no mode is named, no arc is drawn. Lines are.
    (
        b"%FSLAX46Y46*%\n%MOMM*%\n%ADD10C,0.2*%\nD10*\nG02*\nX1000000Y1000000I1000000J0D01*\nG74*\nX2000000Y0I0J1000000D01*\nG01*\nX0D01*\nM02*\n",
        &[Part::Line(2_000_000_000, 0, 0, 0, 200_000_000)],
    ),
    // A centre may be as far as 10 m, and an arc round one a nanometre farther is not drawn.
    (
        b"%FSLAX46Y46*%\n%MOMM*%\n%ADD10C,0.2*%\nD10*\nX1Y0D02*\nG75*\nG02*\nX2I9999999999D01*\nX0I9999999999D01*\nM02*\n",
        &[Part::Arc(1_000, 0, 2_000, 0, 10_000_000_000_000, 0, 200_000_000, true)],
    ),
    // Moves and flashes of pads draw nothing.
    (
        b"%FSLAX46Y46*%\n%MOMM*%\n%ADD10C,0.2*%\nD10*\nX1000000Y0D02*\nX0D03*\nM02*\n",
        &[],
    ),
    // A contour for each move in a region, and one where the region begins.
    (
        b"%FSLAX46Y46*%\n%MOMM*%\nX9000000Y0D02*\nG36*\nX0D02*\nX1000000D01*\nY1000000D01*\nX0Y0D01*\nX5000000D02*\nX6000000D01*\nG37*\nM02*\n",
        &[
            Part::Contour(9_000_000_000, 0),
            Part::Contour(0, 0),
            Part::Corner(1_000_000_000, 0),
            Part::Corner(1_000_000_000, 1_000_000_000),
            Part::Corner(0, 0),
            Part::Contour(5_000_000_000, 0),
            Part::Corner(6_000_000_000, 0),
        ],
    ),
    // A region without a move has its contour from the current point on.
    (
        b"%FSLAX46Y46*%\n%MOMM*%\nX5000000Y0D02*\nG36*\nX6000000D01*\nY1000000D01*\nX5000000Y0D01*\nG37*\nM02*\n",
        &[
            Part::Contour(5_000_000_000, 0),
            Part::Corner(6_000_000_000, 0),
            Part::Corner(6_000_000_000, 1_000_000_000),
            Part::Corner(5_000_000_000, 0),
        ],
    ),
    // An arc of a contour, and after a region a plot is a line again.
    (
        b"%FSLAX46Y46*%\n%MOMM*%\n%ADD10C,0.2*%\nD10*\nG36*\nX0Y0D02*\nG75*\nG03*\nX1000000I500000J0D01*\nG37*\nG01*\nX0D01*\nM02*\n",
        &[
            Part::Contour(0, 0),
            Part::Contour(0, 0),
            Part::Bend(0, 0, 1_000_000_000, 0, 500_000_000, 0, false),
            Part::Line(1_000_000_000, 0, 0, 0, 200_000_000),
        ],
    ),
    // An arc of a contour is drawn as its chord in a single quadrant, and where its centre is beyond 10 m.
    (
        b"%FSLAX46Y46*%\n%MOMM*%\nG36*\nG74*\nG02*\nX1000000Y1000000I1000000J0D01*\nG75*\nX2000000Y0I0J-1000000D01*\nX0I9999999999D01*\nG37*\nM02*\n",
        &[
            Part::Contour(0, 0),
            Part::Corner(1_000_000_000, 1_000_000_000),
            Part::Bend(
                1_000_000_000,
                1_000_000_000,
                2_000_000_000,
                0,
                1_000_000_000,
                0,
                true,
            ),
            Part::Corner(0, 0),
        ],
    ),
    // Of a block the first copy alone is drawn.
    (
        b"%FSLAX46Y46*%\n%MOMM*%\n%ADD10C,0.2*%\nD10*\n%SRX2Y3I5J5*%\nX0Y0D02*\nX1000000D01*\n%SR*%\nM02*\n",
        &[Part::Line(0, 0, 1_000_000_000, 0, 200_000_000)],
    ),
    // A line wider than 10 m is not drawn; one of no width is.
    (
        b"%FSLAX46Y46*%\n%MOMM*%\n%ADD10C,10000.1*%\n%ADD11C,0*%\nD10*\nX1000000Y0D01*\nD11*\nX0D01*\nM02*\n",
        &[Part::Line(1_000_000_000, 0, 0, 0, 0)],
    ),
    // A rectangle with round corners, as exporters write it: its corners from the second point on, and the border at them.
    (
        b"%FSLAX46Y46*%\n%MOMM*%\n%AMRoundRect*\n0 Rectangle with rounded corners*\n0 $1 Rounding radius*\n0 $2 $3 $4 $5 $6 $7 $8 $9 X,Y pos of 4 corners*\n0 Add a 4 corners polygon primitive as box body*\n4,1,4,$2,$3,$4,$5,$6,$7,$8,$9,$2,$3,0*\n0 Add four circle primitives for the rounded corners*\n1,1,$1+$1,$2,$3*\n1,1,$1+$1,$4,$5*\n1,1,$1+$1,$6,$7*\n1,1,$1+$1,$8,$9*\n0 Add four rect primitives between the rounded corners*\n20,1,$1+$1,$2,$3,$4,$5,0*\n20,1,$1+$1,$4,$5,$6,$7,0*\n20,1,$1+$1,$6,$7,$8,$9,0*\n20,1,$1+$1,$8,$9,$2,$3,0*%\n%ADD10RoundRect,0.250000X-0.300000X-0.450000X0.300000X-0.450000X0.300000X0.450000X-0.300000X0.450000X0*%\nD10*\nX1000000Y2000000D03*\nM02*\n",
        &[Part::Flash(
            1_000_000_000,
            2_000_000_000,
            250_000_000,
            &[
                (300_000_000, -450_000_000),
                (300_000_000, 450_000_000),
                (-300_000_000, 450_000_000),
                (-300_000_000, -450_000_000),
            ],
        )],
    ),
    // A thermal is not judged, and a parameter that lacks has no value.
    (
        b"%FSLAX46Y46*%\n%MOMM*%\n%AMTHERMAL*7,0,0,1,0.5,0.1,0*%\n%AMDOT*1,1,$1,0,0*%\n%ADD10THERMAL*%\n%ADD11DOT*%\nD10*\nX0Y0D03*\nD11*\nX0Y0D03*\nM02*\n",
        &[],
    ),
    // Nothing is shown while it is scaled, turned or mirrored.
    (
        b"%FSLAX46Y46*%\n%MOMM*%\n%AMDOT*1,1,$1,0,0*%\n%ADD10DOT,0.6*%\nD10*\n%LS2*%\nX0Y0D03*\n%LS1*%\n%LR90*%\nX0D03*\n%LR0*%\n%LMY*%\nX0D03*\n%LMN*%\nX7000000D03*\nM02*\n",
        &[Part::Flash(7_000_000_000, 0, 300_000_000, &[(0, 0)])],
    ),
    // Each aperture has the macro of its own name, with its own parameters. One that is defined a second time is refused.
    (
        b"%FSLAX46Y46*%\n%MOMM*%\n%AMDOT*1,1,$1,0,0*%\n%AMBOX*21,1,$1,$2,0,0,0*%\n%ADD10DOT,0.6*%\n%ADD11BOX,1X2*%\n%ADD12DOT,0.8*%\nD11*\nX0Y0D03*\nD10*\nX0D03*\nD12*\nX0D03*\nM02*\n",
        &[
            Part::Flash(
                0,
                0,
                0,
                &[
                    (-500_000_000, -1_000_000_000),
                    (500_000_000, -1_000_000_000),
                    (500_000_000, 1_000_000_000),
                    (-500_000_000, 1_000_000_000),
                ],
            ),
            Part::Flash(0, 0, 300_000_000, &[(0, 0)]),
            Part::Flash(0, 0, 400_000_000, &[(0, 0)]),
        ],
    ),
    // A macro in inches.
    (
        b"%FSLAX24Y24*%\n%MOIN*%\n%AMDOT*1,1,$1,0.1,0*%\n%ADD10DOT,0.01*%\nD10*\nX10000Y0D03*\nM02*\n",
        &[Part::Flash(25_400_000_000, 0, 127_000_000, &[(2_540_000_000, 0)])],
    ),
    // An aperture numbered 9,999 may have the shape of a macro, and one numbered 10,000 has none.
    (
        b"%FSLAX46Y46*%\n%MOMM*%\n%AMDOT*1,1,$1,0,0*%\n%ADD9999DOT,0.6*%\n%ADD10000DOT,0.8*%\nD10000*\nX0Y0D03*\nD9999*\nX1000000D03*\nM02*\n",
        &[Part::Flash(1_000_000_000, 0, 300_000_000, &[(0, 0)])],
    ),
    // An aperture that is defined before the unit has no shape.
    (
        b"%FSLAX46Y46*%\n%AMDOT*1,1,$1,0,0*%\n%ADD10DOT,0.6*%\n%MOMM*%\n%ADD11DOT,0.6*%\nD10*\nX0Y0D03*\nD11*\nX0D03*\nM02*\n",
        &[Part::Flash(0, 0, 300_000_000, &[(0, 0)])],
    ),
    // A corner may lie as far as 10 m from zero, and a flash with one a nanometre farther is not shown.
    (
        b"%FSLAX46Y46*%\n%MOMM*%\n%AMDOT*1,1,0.2,1,0*%\n%ADD10DOT*%\nD10*\nX9999000000Y0D03*\nX9999000001D03*\nM02*\n",
        &[Part::Flash(9_999_000_000_000, 0, 100_000_000, &[(1_000_000_000, 0)])],
    ),
    // Of a block the first copy alone is drawn. A macro draws no line.
    (
        b"%FSLAX46Y46*%\n%MOMM*%\n%AMDOT*1,1,$1,0,0*%\n%ADD10DOT,0.6*%\nD10*\n%SRX2Y1I5J0*%\nX0Y0D03*\n%SR*%\nX1000000D01*\nM02*\n",
        &[Part::Flash(0, 0, 300_000_000, &[(0, 0)])],
    ),
];

#[test]
fn layers_draw_lines_arcs_flashes_and_contours(rt: HostRuntime) {
    for (place, &(text, expected)) in DRAWN.iter().enumerate() {
        assert!(rt; draws(rt.alloc(), text, expected), "at {place}");
    }
}

/// Whether a layer draws these parts that flashes a disc of 1 mm by a macro, whose comment goes on with these bytes after its `0`.
fn draws_disc(alloc: Global, comment: &[u8], expected: &[Part]) -> bool {
    let before = b"%FSLAX46Y46*%\n%MOMM*%\n%AMDOT*0".as_slice();
    let after = b"*1,1,1,0,0*%\n%ADD10DOT*%\nD10*\nX0Y0D03*\nM02*\n".as_slice();
    match joined(alloc, &[before, comment, after]) {
        Some(text) => draws(alloc, &text, expected),
        None => false,
    }
}

/// `0`, the comment, `*`, and `1,1,1,0,0*`: with 4,084 bytes of comment the macro has 4,096, the most that it may have.
#[test]
fn macros_of_more_than_4096_bytes_have_no_shape(rt: HostRuntime) {
    let comment = [b' '; 4_085];
    let disc = [Part::Flash(0, 0, 500_000_000, &[(0, 0)])];
    assert!(rt; draws_disc(rt.alloc(), &comment[1..], &disc), "4,096 bytes");
    assert!(rt; draws_disc(rt.alloc(), &comment, &[]), "4,097 bytes");
}
