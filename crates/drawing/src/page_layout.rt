//! The layout of a page, from the extent of the board.

ghost use Rattle.std.specs.Prelude.{◌≡◌, ◌≤◌, ◌^◌, ◌*◌, ◌≤ℤ◌, pos, unsigned_abs, ◌<◌, ℕ};
ghost use Rattle.drawing.specs.Boxes.{IsBox, side};
ghost use Rattle.drawing.specs.Layouts.{IsLayout, ring_of, IsBar};

use crate::columns::{columns_of, unit_of};
use crate::extent::Extent;
use crate::layout::Layout;
use grid_units::Rules;
use picture::{Frame, Pen};

/// A millimetre in pm.
const MILLIMETRE: i64 = 1_000_000_000;

/// A nanometre in pm: no side of a box is shorter.
const NANOMETRE: i64 = 1_000;

/// A side of a box in pm, between two coordinates.
fn side(least: i64, greatest: i64) -> i64
    requires least { unsigned_abs least ≤ 2 * 10 ^ 13 }
    requires greatest { unsigned_abs greatest ≤ 2 * 10 ^ 13 }
    ensures value { result ≡ side least greatest }
    ensures some { pos 1000 ≤ℤ result }
    ensures near { unsigned_abs result ≤ 10 ^ 14 }
{
    (greatest - least).max(NANOMETRE)
}

/// The box of an extent; where there is none, a square millimetre.
fn box_of(extent: Option<Extent>) -> Frame
    ensures is { IsBox extent result }
    ensures left { unsigned_abs result.left ≤ 10 ^ 14 }
    ensures some { 1000 ≤ unsigned_abs result.width }
    ensures wide { unsigned_abs result.width ≤ 10 ^ 14 }
    ensures high { unsigned_abs result.height ≤ 10 ^ 14 }
{
    match extent {
        Some(all) => Frame {
            left: all.left(),
            top: all.top(),
            width: side(all.left(), all.right()),
            height: side(all.bottom(), all.top()),
        },
        None => Frame {
            left: 0,
            top: MILLIMETRE,
            width: MILLIMETRE,
            height: MILLIMETRE,
        },
    }
}

/// The required ring, in pm; 0 without rules.
fn ring_of(rules: &Option<Rules>) -> u64
    ensures value { result ≡ ring_of rules.now }
    ensures near { result ≤ 10 ^ 13 }
{
    match rules {
        Some(rules) => rules.ring().unsigned_abs(),
        None => 0,
    }
}

/// The layout of a page with this many panels, by the extent of the board and the rules.
pub(crate) fn layout_of(extent: Option<Extent>, count: usize, rules: &Option<Rules>) -> Layout
    ensures { IsLayout extent count rules.now result }
{
    let frame = box_of(extent);
    let columns = columns_of(&frame, count);
    Layout {
        frame,
        pen: Pen {
            unit: unit_of(&frame, count, columns),
            ring: ring_of(rules),
            has_rules: rules.is_some(),
        },
        columns,
        rows: count.div_ceil(columns),
        bar: bar_of(frame.width.unsigned_abs()),
    }
}

/// The greatest of 1, 2 or 5 times a power of ten that is at most a quarter of a width, in pm.
pub(crate) fn bar_of(width: u64) -> u64
    requires some { 4 ≤ width }
    requires near { width ≤ 10 ^ 14 }
    ensures { IsBar width result }
{
    let limit = width / 4;
    let power = power_within(limit);
    if 5 * power <= limit {
        5 * power
    } else if 2 * power <= limit {
        2 * power
    } else {
        power
    }
}

/// The greatest power of ten that is no more than `limit`.
fn power_within(limit: u64) -> u64
    requires some { 1 ≤ limit }
    requires near { limit ≤ 10 ^ 14 }
    ensures { (k : ℕ) × ((result ≡ 10 ^ k) × ((10 ^ k ≤ limit) × (limit < 10 * 10 ^ k))) }
{
    10_u64.pow(limit.ilog10())
}
