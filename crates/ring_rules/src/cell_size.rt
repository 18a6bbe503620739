//! How wide and how high the cells of a board are. Any answer is right: only the time depends on it.

ghost use Rattle.std.specs.Prelude.{◌^◌, ◌<◌, ◌≤◌, unsigned_abs};

use crate::finding::Drilled;
use std::alloc::{AllocError, Global};

/// Places on an axis, of 2^shift pm each, from the low end up. What lies below that is at the first place, and what lies past the last
/// place is at the last.
#[derive(Clone, Copy)]
pub(crate) struct Axis {
    pub low: i64,
    pub shift: u32,
    pub last: usize,
    ghost step: { shift < 64 },
    ghost count: { last ≤ 2 ^ 60 },
}

/// Where most holes lie along an axis: from `low` up, over `span` pm.
#[derive(Clone, Copy)]
pub(crate) struct Spread {
    pub low: i64,
    pub span: u64,
    ghost start: { unsigned_abs low ≤ 2 ^ 60 },
    ghost length: { span ≤ 2 ^ 60 },
}

/// The range of most values of a sample, with a margin on both sides.
fn spread_of(values: &mut Vec<i64>) -> Spread {
    values.sort_unstable();
    let cut = values.len() / 64;
    let (low, high) = match (
        values.get(cut),
        values.get(values.len().saturating_sub(cut + 1)),
    ) {
        (Some(low), Some(high)) => (*low, *high),
        _ => (0, 0),
    };
    widened(low, high)
}

/// The range from one number to another, with a margin of a sixteenth on both sides.
fn widened(low: i64, high: i64) -> Spread {
    if low < -20_000_000_000_000 || high < low || 20_000_000_000_000 < high {
        return Spread { low: 0, span: 0 };
    }
    let span = high.abs_diff(low);
    let more = span / 16;
    Spread {
        low: low - more as i64,
        span: span + 2 * more,
    }
}

/// The place that a draw of a sample takes in a list of `count` elements. The draws are spread evenly, and follow no period.
pub(crate) fn sample_index(draw: u64, count: usize) -> usize {
    let part = draw.wrapping_mul(0x9E37_79B9_7F4A_7C15);
    ((u128::from(part) * count as u128) >> 64) as usize
}

/// Where most holes lie along x, and along y.
pub(crate) fn spreads(alloc: Global, holes: &[Drilled]) -> Result<(Spread, Spread), AllocError> {
    let (mut across, mut along) = (Vec::new(alloc), Vec::new(alloc));
    for draw in 0..(holes.len() as u64).min(1024) {
        if let Some(drilled) = holes.get(sample_index(draw, holes.len())) {
            let from = drilled.hole.from();
            across.push(from.x())?;
            along.push(from.y())?;
        }
    }
    Ok((spread_of(&mut across), spread_of(&mut along)))
}

/// The least bits of a row's height that leave no more cells than holes, with so many columns.
fn height_bits(columns: u64, span: u64, count: usize) -> u32 {
    for shift in 0..63 {
        if u128::from(columns) * (u128::from(span >> shift) + 1) <= count as u128 {
            return shift;
        }
    }
    63
}

/// An estimate of the work to look for what is `width` wide and `height` high, in cells of so many bits. A visit to a cell counts 16.
fn search_cost(
    x: &Spread,
    y: &Spread,
    shift_x: u32,
    shift_y: u32,
    width: u64,
    height: u64,
    count: usize,
) -> u128 {
    let columns = u128::from((x.span >> shift_x.min(63)) + 1);
    let rows = u128::from((y.span >> shift_y.min(63)) + 1);
    let across = u128::from(width.min(x.span) >> shift_x.min(63)) + 1;
    let along = u128::from(height.min(y.span) >> shift_y.min(63)) + 1;
    let each = 16 + (count as u128).saturating_mul(16) / columns.saturating_mul(rows).max(1);
    let skew = 20 + u128::from(shift_x.abs_diff(shift_y));
    across
        .saturating_mul(along)
        .saturating_mul(each)
        .saturating_mul(skew)
}

/// The bits of the width and of the height of a cell that suit zones about so wide and so high.
pub(crate) fn shifts(x: &Spread, y: &Spread, count: usize, width: u64, height: u64) -> (u32, u32) {
    let mut best = (63, 63);
    let mut least = u128::MAX;
    for shift_x in 0..46 {
        let columns = (x.span >> shift_x) + 1;
        if u128::from(columns) <= count as u128 {
            let shift_y = height_bits(columns, y.span, count);
            let cost = search_cost(x, y, shift_x, shift_y, width, height, count);
            if cost < least {
                least = cost;
                best = (shift_x, shift_y);
            }
        }
    }
    best
}
