//! The rows of a layer that are no pads, and the first of them in a hole.

ghost use Rattle.std.specs.Prelude.{◌≡◌, ◌++◌, ◌∷◌, [], List, nat_lt, IfOk, if◌then◌else◌};
ghost use Rattle.std.specs.List.Sorted.{IsPermutation};
ghost use Rattle.std.specs.Option.{option_map_or};
ghost use Rattle.report.specs.Causes.{other_row, others};
ghost use Rattle.report.specs.Inner.CauseParts.{IsFirstIn};

use grid_units::Point;
use pad_shapes::{FeatureRow, PadShape, Rounded, RowKind};
use std::alloc::{AllocError, Global};
use std::cmp::Ordering;

/// A row that is no pad.
#[derive(Clone, Copy)]
pub(crate) struct Other {
    /// Its place on the layer, from 0.
    pub(crate) place: usize,
    /// Its coordinates.
    pub(crate) at: Point,
    /// What it is, such as a flash in clear polarity.
    pub(crate) what: RowKind,
}

/// A row with its place, if it is no pad.
fn other_row(place: usize, row: &FeatureRow) -> Option<Other>
    ensures { result ≡ other_row (place, row.now) }
{
    if row.what.is_pad() {
        return None;
    }
    Some(Other {
        place,
        at: row.at,
        what: row.what,
    })
}

/// The rows that are no pads, in order.
fn in_order(alloc: Global, rows: &[FeatureRow]) -> Result<Vec<Other>, AllocError>
    ensures { IfOk result (λ found. found.items ≡ others rows.now) }
{
    rows.iter()
        .enumerate()
        .filter_map(|(place, row)| other_row(place, row))
        .collect(alloc)
}

/// The distance of a coordinate from `i64::MIN`: as unsigned numbers, two coordinates can be compared bit by bit.
fn from_least(coordinate: i64) -> u64 {
    coordinate.abs_diff(i64::MIN)
}

/// The order of two points along a curve through ever smaller squares (Z-order), on which neighbours mostly stand together: that of the
/// coordinates that differ in the higher bit. The answers do not depend on it, so no clause speaks of it.
fn along_curve(a: Point, b: Point) -> Ordering {
    let (ax, bx) = (from_least(a.x()), from_least(b.x()));
    let (ay, by) = (from_least(a.y()), from_least(b.y()));
    let (x, y) = (ax ^ bx, ay ^ by);
    if x < y && x < x ^ y {
        ay.cmp(&by)
    } else {
        ax.cmp(&bx)
    }
}

/// The rows that are no pads, ordered so that neighbours mostly stand together.
pub(crate) fn others(alloc: Global, rows: &[FeatureRow]) -> Result<Vec<Other>, AllocError>
    ensures { IfOk result (λ found. IsPermutation (others rows.now) found.items) }
{
    let mut found = in_order(alloc, rows)?;
    found.sort_by(|a, b| along_curve(a.at, b.at))?;
    Ok(found)
}

/// The flash of the lesser place: of the first so far, if there is one, and another.
pub(crate) fn earlier_flash(first: Option<Other>, other: Other) -> Other
    ensures { result ≡ option_map_or (λ held. if nat_lt other.place held.place then other else held) first other }
{
    match first {
        Some(held) => {
            if other.place < held.place {
                other
            } else {
                held
            }
        }
        None => other,
    }
}

/// The earliest flash in a hole, of those so far and one more.
fn earlier_in_hole(first: Option<Other>, other: Other, hole: &Rounded) -> Option<Other>
    ensures { (seen : List Other) → IsFirstIn seen hole.now first → IsFirstIn (seen ++ other ∷ []) hole.now result }
{
    if !hole.covers(other.at, 0) {
        return first;
    }
    Some(earlier_flash(first, other))
}

/// The earliest flash in a hole, of those so far and some more.
pub(crate) fn first_in_hole(first: Option<Other>, others: &[Other], hole: &Rounded) -> Option<Other>
    ensures { (seen : List Other) → IsFirstIn seen hole.now first → IsFirstIn (seen ++ others.now) hole.now result }
{
    let mut first = first;
    for other in others {
        first = earlier_in_hole(first, *other, hole);
    }
    first
}
