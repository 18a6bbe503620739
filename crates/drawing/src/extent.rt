//! How far pads, holes and crosses reach.

ghost use Rattle.std.specs.Prelude.{◌≡◌, ◌≤◌, ◌^◌, ◌*◌, ◌+ℤ◌, ◌-ℤ◌, pos, unsigned_abs};
ghost use Rattle.std.specs.Int.{int_min, int_max};
ghost use Rattle.drawing.specs.Boxes.{extent_round, hole_extent, joint_extent, joined_to, pad_extent, plain_extent, rounded_extent};

use grid_units::{Hole, Point};
use pad_shapes::{Pad, PlacedRounded, WidePad};
use std::marker::Model;

/// How far something reaches along both axes, in pm.
#[derive(Clone, Copy)]
pub(crate) struct Extent {
    left: i64,
    right: i64,
    bottom: i64,
    top: i64,
}

impl Model for Extent {
    ghost use Rattle.std.specs.Prelude.{◌≤◌, ◌^◌, ◌*◌, unsigned_abs};
    ghost use Rattle.drawing.specs.Boxes.{GridExtent};

    ghost Value = { GridExtent };

    ghost view = { λ e. record { left = e.left; right = e.right; bottom = e.bottom; top = e.top } };

    ghost invariant = { λ e. (unsigned_abs e.left ≤ 2 * 10 ^ 13) × ((unsigned_abs e.right ≤ 2 * 10 ^ 13) × ((unsigned_abs e.bottom ≤ 2 * 10 ^ 13) × (unsigned_abs e.top ≤ 2 * 10 ^ 13))) };

    ghost inverse = { λ e. record { left = e.left; right = e.right; bottom = e.bottom; top = e.top } };
}

impl Extent {
    /// The least x in pm, at most 20 m from 0.
    pub(crate) fn left(&self) -> i64
        ensures value { result ≡ self.now.left }
        ensures near { unsigned_abs result ≤ 2 * 10 ^ 13 }
    {
        self.left
    }

    /// The greatest x in pm, at most 20 m from 0.
    pub(crate) fn right(&self) -> i64
        ensures value { result ≡ self.now.right }
        ensures near { unsigned_abs result ≤ 2 * 10 ^ 13 }
    {
        self.right
    }

    /// The least y in pm, at most 20 m from 0.
    pub(crate) fn bottom(&self) -> i64
        ensures value { result ≡ self.now.bottom }
        ensures near { unsigned_abs result ≤ 2 * 10 ^ 13 }
    {
        self.bottom
    }

    /// The greatest y in pm, at most 20 m from 0.
    pub(crate) fn top(&self) -> i64
        ensures value { result ≡ self.now.top }
        ensures near { unsigned_abs result ≤ 2 * 10 ^ 13 }
    {
        self.top
    }

    /// The least extent that holds both.
    fn joined(&self, other: &Extent) -> Extent
        ensures { result ≡ joint_extent self.now other.now }
    {
        Extent {
            left: lesser(self.left, other.left),
            right: greater(self.right, other.right),
            bottom: lesser(self.bottom, other.bottom),
            top: greater(self.top, other.top),
        }
    }
}

fn lesser(first: i64, second: i64) -> i64
    requires first { unsigned_abs first ≤ 2 * 10 ^ 13 }
    requires second { unsigned_abs second ≤ 2 * 10 ^ 13 }
    ensures value { result ≡ int_min first second }
    ensures near { unsigned_abs result ≤ 2 * 10 ^ 13 }
{
    first.min(second)
}

fn greater(first: i64, second: i64) -> i64
    requires first { unsigned_abs first ≤ 2 * 10 ^ 13 }
    requires second { unsigned_abs second ≤ 2 * 10 ^ 13 }
    ensures value { result ≡ int_max first second }
    ensures near { unsigned_abs result ≤ 2 * 10 ^ 13 }
{
    first.max(second)
}

/// The least and the greatest coordinate this far from another.
fn around(at: i64, far: u64) -> (i64, i64)
    requires at { unsigned_abs at ≤ 10 ^ 13 }
    requires far { far ≤ 10000000000000 }
    ensures least { result.0 ≡ at -ℤ pos far }
    ensures greatest { result.1 ≡ at +ℤ pos far }
    ensures near { unsigned_abs result.0 ≤ 2 * 10 ^ 13 }
    ensures also { unsigned_abs result.1 ≤ 2 * 10 ^ 13 }
{
    (at - far as i64, at + far as i64)
}

/// The extent that reaches this far from a point along each axis, in pm.
pub(crate) fn extent_round(centre: Point, far_x: u64, far_y: u64) -> Extent
    requires x { far_x ≤ 10000000000000 }
    requires y { far_y ≤ 10000000000000 }
    ensures { result ≡ extent_round centre far_x far_y }
{
    let (left, right) = around(centre.x(), far_x);
    let (bottom, top) = around(centre.y(), far_y);
    Extent {
        left,
        right,
        bottom,
        top,
    }
}

/// The extent of a pad of a standard aperture: its half sides, or its radius, round its centre.
fn plain_extent(pad: &Pad) -> Extent
    ensures { result ≡ plain_extent pad.now }
{
    match pad {
        Pad::Disc(disc) => {
            let radius = disc.radius().unsigned_abs();
            extent_round(disc.centre(), radius, radius)
        }
        Pad::Rect(rect) => extent_round(
            rect.centre(),
            rect.half_x().unsigned_abs(),
            rect.half_y().unsigned_abs(),
        ),
        Pad::Obround(obround) => extent_round(
            obround.centre(),
            obround.half_x().unsigned_abs(),
            obround.half_y().unsigned_abs(),
        ),
    }
}

/// The extent of a rounded polygon: its least and its greatest x and y.
fn rounded_extent(rounded: &PlacedRounded) -> Extent
    ensures { result ≡ rounded_extent rounded.now }
{
    let bounds = rounded.bounds();
    Extent {
        left: bounds.left,
        right: bounds.right,
        bottom: bounds.bottom,
        top: bounds.top,
    }
}

/// The extent of a pad.
pub(crate) fn pad_extent(pad: &WidePad) -> Extent
    ensures { result ≡ pad_extent pad.now }
{
    match pad {
        WidePad::Plain(pad) => plain_extent(pad),
        WidePad::Rounded(rounded) => rounded_extent(rounded),
    }
}

/// The extent of a hole: its radius round both of its ends.
pub(crate) fn hole_extent(hole: &Hole) -> Extent
    ensures { result ≡ hole_extent hole.now }
{
    let radius = hole.radius().unsigned_abs();
    extent_round(hole.from(), radius, radius).joined(&extent_round(hole.to(), radius, radius))
}

/// The extent so far, if there is one, joined with another.
pub(crate) fn joined_to(all: Option<Extent>, extent: Extent) -> Option<Extent>
    ensures { result ≡ joined_to all extent }
{
    match all {
        Some(all) => Some(all.joined(&extent)),
        None => Some(extent),
    }
}
