//! An order of pads in which those of about one size and place stand together. Any order is right: only the time depends on it.

ghost use Rattle.std.specs.Prelude.{◌<◌, ◌≤◌};
ghost use Rattle.grid_units.specs.Points.{IsCoordinate};
ghost use Rattle.pad_shapes.specs.Shapes.{max_half_side};

use crate::deep::DepthShape;
use crate::hull::Hull;

/// A number of at most 16 bits, with three bits of 0 before each of its bits.
fn spread(number: u64) -> u64 {
    let bytes = (number | number << 24) & 0x0000_00FF_0000_00FF;
    let halves = (bytes | bytes << 12) & 0x000F_000F_000F_000F;
    let pairs = (halves | halves << 6) & 0x0303_0303_0303_0303;
    (pairs | pairs << 3) & 0x1111_1111_1111_1111
}

/// A side of a hull, by its middle and half of its width along an axis, which may point either way.
fn side(middle: i64, half: u64) -> u64
    requires middle { IsCoordinate middle }
    requires half { half ≤ max_half_side }
{
    ((1 << 46) + (middle - half as i64)).unsigned_abs()
}

/// The sides of a hull: left, right, bottom and top, each a number of at most 48 bits that is less where the hull is wider there.
fn sides_of(hull: &Hull) -> [u64; 4] {
    let (x, y) = (hull.centre.x(), hull.centre.y());
    [
        side(x, hull.half_x),
        side(-x, hull.half_x),
        side(y, hull.half_y),
        side(-y, hull.half_y),
    ]
}

/// The bits of four numbers from a place on, 16 of each, in turn.
fn in_turn(sides: &[u64; 4], place: u32) -> u64
    requires { place < 64 }
{
    let [left, right, bottom, top] = *sides;
    spread(left >> place & 0xFFFF) << 3
        | spread(right >> place & 0xFFFF) << 2
        | spread(bottom >> place & 0xFFFF) << 1
        | spread(top >> place & 0xFFFF)
}

/// Where a pad stands in the order: by the bits of its four sides in turn, the greatest first.
pub(crate) fn order_key<S: DepthShape>(pad: Option<&S>) -> [u64; 3] {
    match pad.and_then(|pad| pad.hull()) {
        Some(hull) => {
            let sides = sides_of(&hull);
            [in_turn(&sides, 32), in_turn(&sides, 16), in_turn(&sides, 0)]
        }
        None => [0; 3],
    }
}
