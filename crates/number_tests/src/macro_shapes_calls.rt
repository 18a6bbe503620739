//! The shapes of macros: what they cover, and the macros that are not judged.

use crate::macro_pieces_calls::texts;
use grid_units::{Point, Unit};
use macro_shapes::{macro_shape, read_macro, read_primitives};
use pad_shapes::{PadShape, Rounded};
use std::alloc::{AllocError, Global};
use std::test::Fail;

/// A rectangle with rounded corners, as exporters write it.
const ROUNDED: &[&str] = &[
    "0 Rectangle with rounded corners",
    "4,1,4,$2,$3,$4,$5,$6,$7,$8,$9,$2,$3,0",
    "1,1,$1+$1,$2,$3",
    "1,1,$1+$1,$4,$5",
    "1,1,$1+$1,$6,$7",
    "1,1,$1+$1,$8,$9",
    "20,1,$1+$1,$2,$3,$4,$5,0",
    "20,1,$1+$1,$4,$5,$6,$7,0",
    "20,1,$1+$1,$6,$7,$8,$9,0",
    "20,1,$1+$1,$8,$9,$2,$3,0",
];

/// The parameters of a square of 1 mm with corners of a radius of 0.25 mm.
const SQUARE: Option<&str> = Some("0.25X-0.25X0.25X-0.25X-0.25X0.25X-0.25X0.25X0.25X0");

/// A line with round ends, as exporters write it.
const OVAL: &[&str] = &["20,1,$1,$2,$3,$4,$5,0", "1,1,$1,$2,$3", "1,1,$1,$4,$5"];

/// The parameters of an oblique line.
const OBLIQUE: Option<&str> = Some("1.0X-0.5X-0.5X0.5X0.5X0");

/// The parameters of a line without a length.
const POINT: Option<&str> = Some("1.7X0.0X0.0X0.0X0.0X0");

/// A line along the x axis.
const BAR: &[&str] = &["20,1,1.0,-1,0,1,0,0"];

/// A diamond whose sides are 1.2 mm from its centre.
const DIAMOND: &[&str] = &["4,1,4,1.5,0,0,2,-1.5,0,0,-2,1.5,0,0"];

/// A square whose border is 0.4 mm at one corner, and 0.5 mm everywhere else.
const BORDERED: &[&str] = &[
    "4,1,4,-0.5,-0.5,0.5,-0.5,0.5,0.5,-0.5,0.5,-0.5,-0.5,0",
    "20,1,0.5,-0.5,-0.5,0.5,-0.5,0",
    "20,1,0.5,0.5,-0.5,0.5,0.5,0",
    "20,1,0.5,0.5,0.5,-0.5,0.5,0",
    "20,1,0.5,-0.5,0.5,-0.5,-0.5,0",
    "1,1,0.5,-0.5,-0.5",
    "1,1,0.5,0.5,-0.5",
    "1,1,0.5,0.5,0.5",
    "1,1,0.4,-0.5,0.5",
];

/// That square without a circle, and without a line.
const NO_CIRCLE: &[&str] = &[
    "4,1,4,-0.5,-0.5,0.5,-0.5,0.5,0.5,-0.5,0.5,-0.5,-0.5,0",
    "20,1,0.5,-0.5,-0.5,0.5,-0.5,0",
    "20,1,0.5,0.5,-0.5,0.5,0.5,0",
    "20,1,0.5,0.5,0.5,-0.5,0.5,0",
    "20,1,0.5,-0.5,0.5,-0.5,-0.5,0",
    "1,1,0.5,-0.5,-0.5",
    "1,1,0.5,0.5,-0.5",
    "1,1,0.5,0.5,0.5",
];

const NO_LINE: &[&str] = &[
    "4,1,4,-0.5,-0.5,0.5,-0.5,0.5,0.5,-0.5,0.5,-0.5,-0.5,0",
    "20,1,0.5,-0.5,-0.5,0.5,-0.5,0",
    "20,1,0.5,0.5,-0.5,0.5,0.5,0",
    "20,1,0.5,0.5,0.5,-0.5,0.5,0",
    "1,1,0.5,-0.5,-0.5",
    "1,1,0.5,0.5,-0.5",
    "1,1,0.5,0.5,0.5",
    "1,1,0.5,-0.5,0.5",
];

/// A dented outline.
const ARROW: &[&str] = &["4,1,5,0.5,-0.75,-0.65,-0.75,-0.15,0,-0.65,0.75,0.5,0.75,0.5,-0.75,0"];

/// A house on its side, with a corner that stands twice, turned by a parameter.
const HOUSE: &[&str] = &[
    "4,1,6,1.0,0.0,0.5,-0.75,-0.5,-0.75,-0.5,0.75,0.5,0.75,1.0,0.0,1.0,0.0,$1",
];

/// A rectangle that is turned by a parameter.
const TURNED: &[&str] = &["21,1,$1,$2,0,0,$3"];

/// The parameters of a rectangle that stands upright.
const UPRIGHT: Option<&str> = Some("2.0X0.65X90.0");

/// The parameters of that rectangle as it lies.
const LEVEL: Option<&str> = Some("2.0X0.65X0.0");

/// Two rectangles, the second maybe beside the first one's centre, and circles at the corners of the common part of two that cross.
const CROSS: &[&str] = &[
    "21,1,$1,$2,0,0,0",
    "21,1,$3,$4,$5,0,0",
    "1,1,0.4,-0.3,-0.3",
    "1,1,0.4,0.3,-0.3",
    "1,1,$6,0.3,$7",
    "1,1,0.4,-0.3,0.3",
];

/// The parameters of two rectangles that cross, and of the same with the tall one first.
const WIDE_FIRST: Option<&str> = Some("1.0X0.6X0.6X1.0X0X0.4X0.3");

const TALL_FIRST: Option<&str> = Some("0.6X1.0X1.0X0.6X0X0.4X0.3");

/// Those of a cross with one circle beside its corner, one whose least circle is 0.2 mm, one whose heights differ by 0.2 mm, and one
/// whose widths do.
const CIRCLE_BESIDE: Option<&str> = Some("1.0X0.6X0.6X1.0X0X0.4X0.31");

const SMALL_CIRCLE: Option<&str> = Some("1.0X0.6X0.6X1.0X0X0.2X0.3");

const SHORT_ARM: Option<&str> = Some("1.0X0.6X0.6X0.8X0X0.4X0.3");

const NARROW_ARM: Option<&str> = Some("0.8X0.6X0.6X1.0X0X0.4X0.3");

/// Those of two rectangles of equal height, of one about another centre, and of one that holds the other.
const EQUAL_HEIGHTS: Option<&str> = Some("1.0X0.6X0.6X0.6X0X0.4X0.3");

const OTHER_CENTRE: Option<&str> = Some("1.0X0.6X0.6X1.0X0.01X0.4X0.3");

const HELD: Option<&str> = Some("1.0X1.0X0.6X0.6X0X0.4X0.3");

/// A square with rounded corners, whose circles stand first, as one exporter writes it.
const CIRCLES_FIRST: &[&str] = &[
    "1,1,$1,$2,$3",
    "1,1,$1,0-$2,$3",
    "1,1,$1,0-$2,0-$3",
    "1,1,$1,$2,0-$3",
    "20,1,$1,$2,$3,0-$2,$3,0",
    "20,1,$1,0-$2,$3,0-$2,0-$3,0",
    "20,1,$1,0-$2,0-$3,$2,0-$3,0",
    "20,1,$1,$2,0-$3,$2,$3,0",
    "4,1,4,$2,$3,0-$2,$3,0-$2,0-$3,$2,0-$3,$2,$3,0",
];

/// Circles before a square: one in it, one about the point of the flash, and one that is partly outside of it.
const CIRCLE_INSIDE: &[&str] = &["1,1,0.4,0.1,0", "21,1,1,1,0,0,0"];

const CENTRED: &[&str] = &["1,1,0.4,0,0", "21,1,1,1,0,0,0"];

const PARTLY_OUTSIDE: &[&str] = &["1,1,0.4,0.4,0", "21,1,1,1,0,0,0"];

/// The radius of a hole of 0.4 mm and a ring of 0.125 mm, in pm.
const REACH: i64 = 325_000_000;

/// The parameters of the square whose circles stand first.
const FAR_CORNERS: Option<&str> = Some("0.2X0.65X0.65");

/// Pieces and the parameters of an aperture, in millimetres, a place in nm, a reach in pm, and whether a hole there is covered;
/// `None` where the macro is not judged.
const HOLES: [(&[&str], Option<&str>, i64, i64, i64, Option<bool>); 81] = [
    (ROUNDED, SQUARE, 175_000, 175_000, REACH, Some(true)),
    (ROUNDED, SQUARE, 175_001, 0, REACH, Some(false)),
    (ROUNDED, SQUARE, 265_000, 270_000, 225_000_000, Some(true)),
    (ROUNDED, SQUARE, 265_000, 270_001, 225_000_000, Some(false)),
    (ROUNDED, SQUARE, 275_000, 0, 225_000_000, Some(true)),
    (ROUNDED, SQUARE, 275_001, 0, 225_000_000, Some(false)),
    (DIAMOND, None, 0, 0, 1_200_000_000, Some(true)),
    (DIAMOND, None, 0, 0, 1_200_001_000, Some(false)),
    (OVAL, OBLIQUE, 605_000, 640_000, REACH, Some(true)),
    (OVAL, OBLIQUE, 605_000, 640_001, REACH, Some(false)),
    (OVAL, OBLIQUE, 123_740, -123_740, REACH, Some(true)),
    (OVAL, OBLIQUE, 123_750, -123_750, REACH, Some(false)),
    (OVAL, POINT, 0, 0, 850_000_000, Some(true)),
    (OVAL, POINT, 0, 0, 850_001_000, Some(false)),
    (BORDERED, None, 0, 0, 700_000_000, Some(true)),
    (BORDERED, None, 0, 0, 700_001_000, Some(false)),
    (NO_CIRCLE, None, 0, 0, 500_000_000, Some(true)),
    (NO_CIRCLE, None, 0, 0, 500_001_000, Some(false)),
    (NO_LINE, None, 0, 0, 500_000_000, Some(true)),
    (NO_LINE, None, 0, 0, 500_001_000, Some(false)),
    (ARROW, None, 200_000, 0, 225_000_000, None),
    (HOUSE, Some("0.0"), 0, 0, 500_000_000, Some(true)),
    (HOUSE, Some("0.0"), 0, 0, 500_001_000, Some(false)),
    (HOUSE, Some("90.0"), 0, 0, 500_000_000, Some(true)),
    (HOUSE, Some("90.0"), 0, 800_000, 20_000_000, Some(true)),
    (HOUSE, Some("90.0"), 800_000, 0, 20_000_000, Some(false)),
    (HOUSE, Some("45.0"), 0, 0, 225_000_000, None),
    (&["1,1,0.65,0,0", "1,0,0.1,3,3"], None, 0, 0, REACH, None),
    (&["1,1,0.65,0,0"], None, 0, 0, REACH, Some(true)),
    (&["1,1,0.65,0,0"], None, 0, 0, 325_000_001, Some(false)),
    (&["1,1,0.65,1,0,90"], None, 0, 1_000_000, REACH, Some(true)),
    (
        &["1,1,0.65,0,0", "7,0,0,1,0.5,0.1,0"],
        None,
        0,
        0,
        REACH,
        None,
    ),
    (
        &["$3=$1x$2", "1,1,$3,0,0"],
        Some("1.3X0.5"),
        0,
        0,
        REACH,
        Some(true),
    ),
    (
        &["1,1,(1.3+$1)/2-0.0,0,0"],
        Some("0.0"),
        0,
        0,
        REACH,
        Some(true),
    ),
    (&["1,1,2/3+1,0,0"], None, 0, 0, REACH, None),
    (
        &["4,1,3,0,0,3,0,0,2,0,0,0"],
        None,
        400_000,
        400_000,
        REACH,
        Some(true),
    ),
    (
        &["4,1,3,0,0,0,2,3,0,0,0,0"],
        None,
        400_000,
        400_000,
        REACH,
        Some(true),
    ),
    (
        &["4,1,3,0,0,3,0,0,2,0,1,0"],
        None,
        400_000,
        400_000,
        REACH,
        None,
    ),
    (
        &["4,1,4,0,0,3,0,0,2,0,0,0"],
        None,
        400_000,
        400_000,
        REACH,
        None,
    ),
    (
        &["4,1,6,0,0,3,0,0,2,0,0,3,0,0,2,0,0,0"],
        None,
        400_000,
        400_000,
        REACH,
        None,
    ),
    (BAR, None, 500_000, 0, 500_000_000, Some(true)),
    (BAR, None, 500_001, 0, 500_000_000, Some(false)),
    (&["20,1,1.0,-1,-1,1,1,0"], None, 0, 0, REACH, None),
    (&["20,1,1.0,0,0,0,0,0"], None, 0, 0, REACH, None),
    (TURNED, UPRIGHT, 0, 600_000, REACH, Some(true)),
    (TURNED, LEVEL, 0, 600_000, REACH, Some(false)),
    (TURNED, Some("2X0.65X335"), 0, 0, REACH, Some(true)),
    (TURNED, Some("0X0.65X0.0"), 0, 0, REACH, None),
    (&["1,1,99999.0,0,0"], None, 0, 0, REACH, None),
    (&["1,1,10000.0,0,0"], None, 0, 0, REACH, Some(true)),
    (CROSS, WIDE_FIRST, 0, 0, 500_000_000, Some(true)),
    (CROSS, WIDE_FIRST, 0, 0, 500_001_000, Some(false)),
    (CROSS, WIDE_FIRST, 300_000, 300_000, 200_000_000, Some(true)),
    (
        CROSS,
        WIDE_FIRST,
        300_000,
        300_000,
        200_001_000,
        Some(false),
    ),
    (CROSS, TALL_FIRST, 0, 0, 500_000_000, Some(true)),
    (CROSS, TALL_FIRST, 0, 0, 500_001_000, Some(false)),
    (CROSS, CIRCLE_BESIDE, 0, 0, 300_000_000, Some(true)),
    (CROSS, CIRCLE_BESIDE, 0, 0, 300_001_000, Some(false)),
    (CROSS, CIRCLE_BESIDE, 200_000, 0, 300_000_000, Some(true)),
    (CROSS, CIRCLE_BESIDE, 200_001, 0, 300_000_000, Some(false)),
    (CROSS, SMALL_CIRCLE, 0, 0, 400_000_000, Some(true)),
    (CROSS, SMALL_CIRCLE, 0, 0, 400_001_000, Some(false)),
    (CROSS, SHORT_ARM, 0, 0, 400_000_000, Some(true)),
    (CROSS, SHORT_ARM, 0, 0, 400_001_000, Some(false)),
    (CROSS, NARROW_ARM, 0, 0, 400_000_000, Some(true)),
    (CROSS, NARROW_ARM, 0, 0, 400_001_000, Some(false)),
    (CROSS, EQUAL_HEIGHTS, 200_000, 0, 300_000_000, Some(true)),
    (CROSS, EQUAL_HEIGHTS, 200_001, 0, 300_000_000, Some(false)),
    (CROSS, OTHER_CENTRE, 0, 0, 300_000_000, Some(true)),
    (CROSS, OTHER_CENTRE, 0, 0, 300_001_000, Some(false)),
    (CROSS, HELD, 0, 0, 500_000_000, Some(true)),
    (CROSS, HELD, 500_000, 500_000, 0, Some(true)),
    (CROSS, HELD, 500_001, 500_000, 0, Some(false)),
    (CIRCLES_FIRST, FAR_CORNERS, 0, 0, 750_000_000, Some(true)),
    (CIRCLES_FIRST, FAR_CORNERS, 0, 0, 750_000_001, Some(false)),
    (CIRCLE_INSIDE, None, 0, 0, 500_000_000, Some(true)),
    (CENTRED, None, 0, 0, 200_000_000, Some(true)),
    (CENTRED, None, 0, 0, 200_000_001, Some(false)),
    (PARTLY_OUTSIDE, None, 400_000, 0, 200_000_000, Some(true)),
    (PARTLY_OUTSIDE, None, 0, 0, 0, Some(false)),
    (&[], None, 0, 0, REACH, None),
];

/// Polygons and circles in mm with the parameter 0.0236, and their radii in pm, at metres 1 less than by a cosine rounded up; or `None`.
const POLYGONS: [(&str, Option<i64>); 34] = [
    ("5,1,3,0,0,2,0", Some(500_000_000)),
    ("5,1,4,0,0,9999.99388127,45", Some(3_535_531_742_634)),
    ("5,1,5,0,0,9999.9982833,0", Some(4_045_084_277_454)),
    ("5,1,6,0,0,9999.99695453,0", Some(4_330_125_700_194)),
    ("5,1,7,0,0,2,0", Some(900_968_867)),
    ("5,1,8,0,0,2,22.5", Some(923_879_532)),
    ("5,1,9,0,0,2,0", Some(939_692_620)),
    ("5,1,10,0,0,2,0", Some(951_056_516)),
    ("5,1,11,0,0,2,0", Some(959_492_973)),
    ("5,1,12,0,0,10000,-7.5", Some(4_829_629_131_445)),
    ("5,1,8,0,0,0,0", Some(0)),
    ("5,1,8,0,0,1.08239X$1,22.5", Some(11_799_974)),
    ("5,1,8,0,0,$1x1.08239,22.5", Some(11_799_974)),
    ("5,1,8,0,0,$1/1x1.08239,22.5", Some(11_799_974)),
    ("5,1,8,0,0,(1.08239X$1),22.5", None),
    ("5,1,8,0,0,1-1.08239X$1,22.5", None),
    ("5,1,8,0,0,+1.08239X$1,22.5", None),
    ("5,1,8,0,0,1.08239X$1X1,22.5", None),
    ("5,1,8,0,0,(0-1.08239)X$1,0", None),
    ("5,1,8,0,0,1/3,0", None),
    ("5,1,8,0,0,2,1/3", None),
    ("5,1,8,0,0,2", None),
    ("5,1,8,0,0,2,0,0", None),
    ("5,0,8,0,0,2,0", None),
    ("5,1,2,0,0,2,0", None),
    ("5,1,13,0,0,2,0", None),
    ("5,1,8.5,0,0,2,0", None),
    ("5,1,-8,0,0,2,0", None),
    ("5,1,8,0.00000001,0,2,0", None),
    ("5,1,8,0,-0.00000001,2,0", None),
    ("5,1,8,0,0,-2,0", None),
    ("5,1,8,0,0,10000.00000001,0", None),
    ("1,1,1.08239X$1,0,0", Some(12_772_200)),
    ("1,1,1,1.08239X$1,0", None),
];

/// The shape of a macro in lengths of this unit, where it is judged.
fn shape(
    alloc: Global,
    unit: Unit,
    pieces: &[&str],
    parameters: Option<&str>,
) -> Result<Option<Rounded>, AllocError> {
    let texts = texts(alloc, pieces)?;
    let parameters = match parameters {
        Some(text) => Some(text.as_bytes()),
        None => None,
    };
    let Some(fields) = read_macro(alloc, &texts, parameters)? else {
        return Ok(None);
    };
    let Some(primitives) = read_primitives(alloc, unit, fields.primitives())? else {
        return Ok(None);
    };
    macro_shape(alloc, primitives.as_slice())
}

/// Whether a shape covers a hole at a place in nm with this reach in pm.
fn covers(shape: &Option<Rounded>, x: i64, y: i64, reach: i64) -> Option<bool> {
    let hole = Point::new(x.checked_mul(1_000)?, y.checked_mul(1_000)?)?;
    match shape {
        Some(shape) if 0 <= reach && reach <= 20_000_000_000_000 => Some(shape.covers(hole, reach)),
        _ => None,
    }
}

#[test]
fn macros_cover_holes_up_to_equality(rt: HostRuntime) -> Result<(), Fail> {
    for &(pieces, parameters, x, y, reach, is_covered) in &HOLES {
        let found = shape(rt.alloc(), Unit::Millimetre, pieces, parameters)?;
        assert!(rt;
            covers(&found, x, y, reach) == is_covered,
            "of {} pieces with {reach} at {x},{y}",
            pieces.len()
        );
    }
    Ok(())
}

#[test]
fn polygons_are_the_discs_inside_of_them(rt: HostRuntime) -> Result<(), Fail> {
    for &(piece, radius) in &POLYGONS {
        let disc = shape(rt.alloc(), Unit::Millimetre, &[piece], Some("0.0236"))?;
        let found = match &disc {
            Some(disc) => Some(disc.radius()),
            None => None,
        };
        assert!(rt; found == radius, "of {piece}");
    }
    Ok(())
}

#[test]
fn macros_in_inches_have_whole_lengths(rt: HostRuntime) -> Result<(), Fail> {
    let parameters = Some("0.01X-0.01X0.01X-0.01X-0.01X0.01X-0.01X0.01X0.01X0");
    let found = shape(rt.alloc(), Unit::Inch, ROUNDED, parameters)?;
    for (reach, is_covered) in [(508_000_000, true), (508_001_000, false)] {
        assert!(rt;
            covers(&found, 0, 0, reach) == Some(is_covered),
            "with {reach}"
        );
    }
    let octagon = &["5,1,8,0,0,1.08239X$1,22.5"];
    let found = shape(rt.alloc(), Unit::Inch, octagon, Some("0.0520"))?;
    assert!(rt; covers(&found, 0, 0, 660_398_657) == Some(true));
    assert!(rt; covers(&found, 0, 0, 660_398_658) == Some(false));
    Ok(())
}
