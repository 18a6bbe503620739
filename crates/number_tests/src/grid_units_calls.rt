use grid_units::Reason::*;
use grid_units::Zeros::*;
use grid_units::*;
use std::alloc::{AllocError, Global};

fn read(text: &str) -> Result<i64, Reason> {
    match Dec::read(text.as_bytes()) {
        Ok(decimal) => Ok(decimal.units()),
        Err(reason) => Err(reason),
    }
}

/// Decimals, and their value in units of 10^-8 or the first reason why they are refused.
const DECIMALS: [(&str, Result<i64, Reason>); 40] = [
    ("0", Ok(0)),
    ("0.4", Ok(40_000_000)),
    ("0.65", Ok(65_000_000)),
    (".0500", Ok(5_000_000)),
    ("-.5", Ok(-50_000_000)),
    ("+1.25", Ok(125_000_000)),
    ("5.", Ok(500_000_000)),
    ("-5.", Ok(-500_000_000)),
    (".5", Ok(50_000_000)),
    ("-0", Ok(0)),
    ("-0.0", Ok(0)),
    ("+0.00000000", Ok(0)),
    ("0.00000001", Ok(1)),
    ("-0.00000001", Ok(-1)),
    ("0.12345678", Ok(12_345_678)),
    ("0.123456780000", Ok(12_345_678)),
    ("999999", Ok(99_999_900_000_000)),
    ("999999.99999999", Ok(99_999_999_999_999)),
    ("-999999.99999999", Ok(-99_999_999_999_999)),
    ("000000000000999999.5", Ok(99_999_950_000_000)),
    ("0254", Ok(25_400_000_000)),
    ("00.3937", Ok(39_370_000)),
    ("", Err(BadNumber)),
    ("+", Err(BadNumber)),
    ("-", Err(BadNumber)),
    (".", Err(BadNumber)),
    ("+.", Err(BadNumber)),
    ("--1", Err(BadNumber)),
    ("1.2.3", Err(BadNumber)),
    ("1-", Err(BadNumber)),
    ("1e3", Err(BadNumber)),
    (" 1", Err(BadNumber)),
    ("1+.123456789", Err(BadNumber)),
    ("0.123456789", Err(TooFine)),
    ("1000000.000000001", Err(TooFine)),
    ("0.000000001", Err(TooFine)),
    ("1000000", Err(TooFar)),
    ("1000000.0000000000", Err(TooFar)),
    ("-1000000", Err(TooFar)),
    ("99999999999999999999999999", Err(TooFar)),
];

#[test]
fn decimals_have_their_value_or_their_first_reason(rt: HostRuntime) {
    for &(text, expected) in &DECIMALS {
        assert!(rt; read(text) == expected, "of {text}");
    }
}

/// Units of 10^-8, and the two spellings of the decimal.
const SPELLINGS: [(i64, &str, &str); 11] = [
    (0, "0", "0.0"),
    (1, "0.00000001", "0.00000001"),
    (-1, "-0.00000001", "-0.00000001"),
    (5_000_000, "0.05", "0.05"),
    (40_000_000, "0.4", "0.4"),
    (100_000_000, "1", "1.0"),
    (-50_000_000, "-0.5", "-0.5"),
    (-200_000_000, "-2", "-2.0"),
    (1_000_000_000, "10", "10.0"),
    (99_999_999_999_999, "999999.99999999", "999999.99999999"),
    (-99_999_999_999_999, "-999999.99999999", "-999999.99999999"),
];

/// Whether so many units are written so, plainly and with a point.
fn are_spellings(units: i64, plain: &str, pointed: &str) -> bool {
    match Dec::from_units(units) {
        Some(decimal) => {
            decimal.write().as_str() == plain && decimal.write_pointed().as_str() == pointed
        }
        None => false,
    }
}

#[test]
fn decimals_are_written_in_two_spellings(rt: HostRuntime) {
    for &(units, plain, pointed) in &SPELLINGS {
        assert!(rt; are_spellings(units, plain, pointed), "of {plain}");
    }
}

#[test]
fn decimals_out_of_range_are_none(rt: HostRuntime) {
    for &units in &[100_000_000_000_000, -100_000_000_000_000] {
        assert!(rt; Dec::from_units(units).is_none());
    }
}

fn length(text: &str, unit: Unit) -> Result<i64, Reason> {
    match Dec::read(text.as_bytes()) {
        Ok(decimal) => decimal.picometres(unit),
        Err(reason) => Err(reason),
    }
}

#[test]
fn decimals_are_lengths_in_both_units(rt: HostRuntime) {
    for &(text, unit, expected) in &[
        ("0.00000001", Unit::Millimetre, Ok(10)),
        ("0.00000001", Unit::Inch, Ok(254)),
        ("1", Unit::Millimetre, Ok(1_000_000_000)),
        ("-1", Unit::Inch, Ok(-25_400_000_000)),
        ("0.4", Unit::Millimetre, Ok(400_000_000)),
        ("0.0256", Unit::Inch, Ok(650_240_000)),
        ("10000", Unit::Millimetre, Ok(10_000_000_000_000)),
        ("10000.00000001", Unit::Millimetre, Err(TooFar)),
        ("-10000.00000001", Unit::Millimetre, Err(TooFar)),
        // 393.70078740 in is 9,999,999,999,960 pm, and 10^-8 in more is 10,000,000,000,214 pm.
        ("393.70078740", Unit::Inch, Ok(9_999_999_999_960)),
        ("393.70078741", Unit::Inch, Err(TooFar)),
        ("393.8", Unit::Inch, Err(TooFar)),
    ] {
        assert!(rt; length(text, unit) == expected, "of {text}");
    }
}

/// Digits, how many of them are decimals, the unit, and the length in pm.
const INTEGERS: [(i64, u8, Unit, Result<i64, Reason>); 14] = [
    (1_000_000, 6, Unit::Millimetre, Ok(1_000_000_000)),
    (1, 6, Unit::Millimetre, Ok(1_000)),
    (1, 6, Unit::Inch, Ok(25_400)),
    (10_000_000_000, 6, Unit::Millimetre, Ok(10_000_000_000_000)),
    (10_000_000_001, 6, Unit::Millimetre, Err(TooFar)),
    (393_800_000, 6, Unit::Inch, Err(TooFar)),
    (393_700_000, 6, Unit::Inch, Ok(9_999_980_000_000)),
    (999_999_999_999, 6, Unit::Inch, Err(TooFar)),
    (1000, 4, Unit::Inch, Ok(2_540_000_000)),
    (-500, 4, Unit::Inch, Ok(-1_270_000_000)),
    (1, 0, Unit::Inch, Ok(25_400_000_000)),
    (10_000, 0, Unit::Millimetre, Ok(10_000_000_000_000)),
    (10_001, 0, Unit::Millimetre, Err(TooFar)),
    (-10_001, 0, Unit::Millimetre, Err(TooFar)),
];

/// The length of these digits. `None` where they or their decimals are more than the function takes.
fn length_of(digits: i64, decimals: u8, unit: Unit) -> Option<Result<i64, Reason>> {
    if decimals > 6 || digits.unsigned_abs() >= 1_000_000_000_000 {
        return None;
    }
    Some(from_digits(digits, decimals, unit))
}

#[test]
fn integers_are_lengths(rt: HostRuntime) {
    for &(digits, decimals, unit, expected) in &INTEGERS {
        assert!(rt;
            length_of(digits, decimals, unit) == Some(expected),
            "of {digits}"
        );
    }
}

/// A coordinate without a point in the format i:d, in units of 10^-8. `None` where there is no such format.
fn coordinate(text: &str, i: u8, d: u8, zeros: Zeros) -> Option<Result<i64, Reason>> {
    if i < 1 || i > 6 || d < 1 || d > 6 {
        return None;
    }
    match from_zeros(text.as_bytes(), i, d, zeros) {
        Ok(decimal) => Some(Ok(decimal.units())),
        Err(reason) => Some(Err(reason)),
    }
}

/// Coordinates, their formats, and their values in units of 10^-8.
const COORDINATES: [(&str, u8, u8, Zeros, Result<i64, Reason>); 30] = [
    // 2.54, written in three ways.
    ("2540", 3, 3, Trailing, Ok(254_000_000)),
    ("00254", 3, 3, Leading, Ok(254_000_000)),
    ("002540", 3, 3, Full, Ok(254_000_000)),
    ("-002540", 3, 3, Full, Ok(-254_000_000)),
    ("2540", 3, 3, Full, Err(NoZeros)),
    ("0000001", 3, 3, Full, Err(NoZeros)),
    ("1234567", 3, 3, Trailing, Err(TooManyDigits)),
    ("1234567", 3, 3, Leading, Err(TooManyDigits)),
    // 2.54 in the formats 2:2 and 2:4.
    ("0254", 2, 2, Leading, Ok(254_000_000)),
    ("25400", 2, 4, Trailing, Ok(254_000_000)),
    // One inch by its first two digits, and -0.5 inch by three.
    ("01", 2, 4, Leading, Ok(100_000_000)),
    ("-005", 2, 4, Leading, Ok(-50_000_000)),
    // The narrowest format.
    ("1", 1, 1, Leading, Ok(100_000_000)),
    ("1", 1, 1, Trailing, Ok(10_000_000)),
    ("11", 1, 1, Full, Ok(110_000_000)),
    ("111", 1, 1, Leading, Err(TooManyDigits)),
    // The widest formats.
    ("999999999999", 6, 6, Full, Ok(99_999_999_999_900)),
    ("-999999999999", 6, 6, Trailing, Ok(-99_999_999_999_900)),
    ("1", 6, 6, Leading, Ok(10_000_000_000_000)),
    ("1", 6, 6, Trailing, Ok(100)),
    ("9999999999999", 6, 6, Trailing, Err(TooManyDigits)),
    ("1", 1, 6, Leading, Ok(100_000_000)),
    ("1", 6, 1, Leading, Ok(10_000_000_000_000)),
    // No digits.
    ("", 3, 3, Full, Err(BadNumber)),
    ("+", 3, 3, Full, Err(BadNumber)),
    ("-", 3, 3, Full, Err(BadNumber)),
    ("1.5", 3, 3, Full, Err(BadNumber)),
    ("1-", 3, 3, Full, Err(BadNumber)),
    ("--1", 3, 3, Full, Err(BadNumber)),
    ("x", 3, 3, Full, Err(BadNumber)),
];

#[test]
fn coordinates_without_a_point_are_filled(rt: HostRuntime) {
    for &(text, i, d, zeros, expected) in &COORDINATES {
        assert!(rt;
            coordinate(text, i, d, zeros) == Some(expected),
            "of {text}"
        );
    }
}

#[test]
fn lengths_are_written_in_millimetres(rt: HostRuntime) {
    for &(length, text) in &[
        (0, "0.000000000"),
        (1, "0.000000001"),
        (-1, "-0.000000001"),
        (125_000_000, "0.125000000"),
        (300_001_000, "0.300001000"),
        (2_000_000_000, "2.000000000"),
        (-10_000_000_000_000, "-10000.000000000"),
        (9_999_999_999_999, "9999.999999999"),
    ] {
        assert!(rt; write_mm(length).as_str() == text, "of {text}");
    }
}

/// The farthest that a coordinate, a ring or a gap may be, in pm.
const LIMIT: i64 = 10_000_000_000_000;

#[test]
fn points_have_their_range(rt: HostRuntime) {
    for &(x, y, is_point) in &[
        (LIMIT, -LIMIT, true),
        (LIMIT + 1, 0, false),
        (0, -LIMIT - 1, false),
    ] {
        assert!(rt; Point::new(x, y).is_some() == is_point, "of {x}");
    }
}

/// A hole from the origin to this y, of this radius.
fn hole_to(y: i64, radius: i64) -> Option<Hole> {
    Hole::new(Point::new(0, 0)?, Point::new(0, y)?, radius)
}

/// Whether the hole with these ends and this radius is round. `None` where it is out of range or read back otherwise.
fn is_round_hole(y: i64, radius: i64) -> Option<bool> {
    let hole = hole_to(y, radius)?;
    let is_same = hole.from() == Point::new(0, 0)?
        && hole.to() == Point::new(0, y)?
        && hole.radius() == radius;
    is_same.then_some(hole.is_round())
}

#[test]
fn holes_have_their_range(rt: HostRuntime) {
    for &(y, radius, is_round) in &[
        (1, 0, None),
        (1, 5_000_000_000_001, None),
        (1, 5_000_000_000_000, Some(false)),
        (0, 1, Some(true)),
    ] {
        assert!(rt; is_round_hole(y, radius) == is_round, "of {radius}");
    }
}

#[test]
fn rules_have_their_ranges(rt: HostRuntime) {
    for &(ring, gap, refusal) in &[
        (-1, 1, Some(BadRule)),
        (0, 0, Some(BadRule)),
        (LIMIT + 1, 1, Some(BadRule)),
        (0, LIMIT + 1, Some(BadRule)),
        (0, 1, None),
        (LIMIT, LIMIT, None),
    ] {
        assert!(rt; Rules::new(ring, gap).err() == refusal, "of {ring}");
    }
}

/// The square of the distance of two points, in pm. `None` where a point is out of range.
fn square_between(from: (i64, i64), to: (i64, i64)) -> Option<i128> {
    let from = Point::new(from.0, from.1)?;
    Some(square_distance(from, Point::new(to.0, to.1)?))
}

#[test]
fn squares_of_distances_are_exact(rt: HostRuntime) {
    for &(from, to, square) in &[
        ((-300_000_000, 400_000_000), (0, 0), 250_000_000_000_000_000),
        ((0, 0), (-300_000_000, 400_000_000), 250_000_000_000_000_000),
        ((-300_000_000, 400_000_000), (-300_000_000, 400_000_000), 0),
    ] {
        assert!(rt; square_between(from, to) == Some(square));
    }
}

#[test]
fn reasons_have_their_numbers(rt: HostRuntime) {
    for &(reason, number) in &[
        (TooLong, 1),
        (BadWord, 14),
        (TooManyHoles, 37),
        (NotCopper, 45),
        (BadSpan, 46),
        (NoPlating, 47),
        (PlatingConflict, 48),
    ] {
        assert!(rt; reason.number() == number, "of {number}");
    }
}

#[test]
fn reasons_have_their_names(rt: HostRuntime) {
    for &(reason, name) in &[
        (TooLong, "TooLong"),
        (BareCoordinate, "BareCoordinate"),
        (NotCopper, "NotCopper"),
        (BadSpan, "BadSpan"),
        (NoPlating, "NoPlating"),
        (PlatingConflict, "PlatingConflict"),
    ] {
        assert!(rt; reason.name() == name, "of {name}");
    }
}

const BAD: Result<u8, Reason> = Err(BadNumber);

const FAR: Result<u8, Reason> = Err(TooFar);

#[test]
fn of_two_fields_the_first_reason_is_told(rt: HostRuntime) {
    for &(first, second, expected) in &[
        (FAR, BAD, Err(BadNumber)),
        (BAD, FAR, Err(BadNumber)),
        (Ok(7), FAR, Err(TooFar)),
        (Ok(7), Ok(7), Ok((7, 7))),
    ] {
        assert!(rt; both(first, second) == expected);
    }
}

/// Whether two texts are equal, and whether a copy of the first equals it.
fn are_equal(alloc: Global, first: &[u8], second: &[u8]) -> Result<(bool, bool), AllocError> {
    let text = Text::from_slice(alloc, first)?;
    let copy = text.copy()?;
    let is_copy = text == copy && copy.bytes() == first;
    Ok((text == Text::from_slice(alloc, second)?, is_copy))
}

#[test]
fn texts_are_equal_by_their_bytes(rt: HostRuntime) {
    for &(second, is_equal) in &[("top", true), ("bot", false)] {
        assert!(rt; are_equal(rt.alloc(), b"top", second.as_bytes()) == Ok((is_equal, true)));
    }
}
