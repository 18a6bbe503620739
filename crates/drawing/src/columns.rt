//! The number of columns in which the panels of a board stand.

ghost use Rattle.std.specs.Prelude.{◌≡◌, ◌≤◌, ◌^◌};
ghost use Rattle.drawing.specs.Layouts.{AreColumns, boxes_height, boxes_width, square_error, capped_times, unit_of};

use picture::Frame;

/// A thousand kilometres in pm: no product of a length is longer.
const LENGTH_LIMIT: u64 = 1_000_000_000_000_000_000;

/// Ten metres in pm: no unit is longer.
const UNIT_LIMIT: u64 = 10_000_000_000_000;

/// The number of units in the longer side of all boxes together.
const UNITS_PER_SIDE: u64 = 75;

/// A length in pm times a count, at most 1,000 km.
pub(crate) fn capped_times(length: u64, count: usize) -> u64
    ensures value { result ≡ capped_times length count }
    ensures within { result ≤ 10 ^ 18 }
{
    length.saturating_mul(count as u64).min(LENGTH_LIMIT)
}

/// The width of this many boxes side by side, in pm.
fn boxes_width(frame: &Frame, columns: usize) -> u64
    ensures { result ≡ boxes_width frame.now columns }
{
    capped_times(frame.width.unsigned_abs(), columns)
}

/// The height of `count` boxes in this many columns, in pm.
fn boxes_height(frame: &Frame, count: usize, columns: usize) -> u64
    requires { 1 ≤ columns }
    ensures { result ≡ boxes_height frame.now count columns }
{
    capped_times(frame.height.unsigned_abs(), count.div_ceil(columns))
}

/// The difference of that width and that height, in pm.
fn square_error(frame: &Frame, count: usize, columns: usize) -> u64
    requires { 1 ≤ columns }
    ensures { result ≡ square_error frame.now count columns }
{
    boxes_width(frame, columns).abs_diff(boxes_height(frame, count, columns))
}

/// The number of columns with which the boxes together are nearest to a square, at least 1.
pub(crate) fn columns_of(frame: &Frame, count: usize) -> usize
    ensures { AreColumns frame.now count result }
{
    let mut best = 1;
    for before in 1..count {
        if square_error(frame, count, before + 1) < square_error(frame, count, best) {
            best = before + 1;
        }
    }
    best
}

/// The unit of a page, in pm: a 75th of the longer side of all boxes together.
pub(crate) fn unit_of(frame: &Frame, count: usize, columns: usize) -> u64
    requires { 1 ≤ columns }
    ensures value { result ≡ unit_of frame.now count columns }
    ensures small { result ≤ 10 ^ 13 }
{
    let whole = boxes_width(frame, columns).max(boxes_height(frame, count, columns));
    (whole / UNITS_PER_SIDE).min(UNIT_LIMIT)
}
