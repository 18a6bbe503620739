//! Shapes as they are flashed: mirrored, and then turned.

ghost use Rattle.std.specs.Prelude.{◌≡◌, IfOk, map};
ghost use Rattle.grid_units.specs.Points.{IsCoordinate};
ghost use Rattle.macro_shapes.specs.Primitives.{quarter_turns};
ghost use Rattle.layer_state.specs.Placing.{in_order, is_turned_over, mirrored_point, negated_where, no_mirroring, oriented_point, oriented_shape, turned_point, turned_shape};

use grid_units::{Dec, Point};
use macro_shapes::is_centred_disc;
use pad_shapes::{Rounded, SharedRounded};
use std::alloc::{AllocError, Global};

/// The axes along which flashes are mirrored.
#[derive(Clone, Copy)]
pub struct Mirroring {
    /// Whether the sign of x changes.
    pub x: bool,
    /// Whether the sign of y changes.
    pub y: bool,
}

impl Mirroring {
    /// Nothing is mirrored.
    pub fn none() -> Mirroring
        ensures { result ≡ no_mirroring }
    {
        Mirroring { x: false, y: false }
    }

    /// Whether one axis alone is mirrored, which turns a shape over.
    fn is_turned_over(self) -> bool
        ensures { result ≡ is_turned_over self }
    {
        self.x != self.y
    }
}

/// A coordinate with its sign changed where this is so.
fn negated_where(changed: bool, n: i64) -> i64
    requires { IsCoordinate n }
    ensures value { result ≡ negated_where changed n }
    ensures in_range { IsCoordinate result }
{
    if changed { -n } else { n }
}

/// A point with the signs of its mirrored coordinates changed.
fn mirrored_point(mirroring: Mirroring, p: Point) -> Point
    ensures { result ≡ mirrored_point mirroring p }
{
    let x = negated_where(mirroring.x, p.x());
    let y = negated_where(mirroring.y, p.y());
    Point::new(x, y).unwrap()
}

/// A point turned counterclockwise about (0, 0) by a quarter.
fn quarter_turned(p: Point) -> Point
    ensures { result ≡ turned_point 1 p }
{
    Point::new(-p.y(), p.x()).unwrap()
}

/// A point turned counterclockwise about (0, 0) by so many quarters.
fn turned_point(turns: u8, p: Point) -> Point
    ensures { result ≡ turned_point turns p }
{
    match turns {
        0 => p,
        1 => quarter_turned(p),
        2 => quarter_turned(quarter_turned(p)),
        _ => quarter_turned(quarter_turned(quarter_turned(p))),
    }
}

/// A corner of an aperture as it is flashed.
fn oriented_point(mirroring: Mirroring, turns: u8, p: Point) -> Point
    ensures { result ≡ oriented_point mirroring turns p }
{
    turned_point(turns, mirrored_point(mirroring, p))
}

/// The corners of an aperture as they are flashed.
fn oriented_points(
    alloc: Global,
    mirroring: Mirroring,
    turns: u8,
    points: &[Point],
) -> Result<Vec<Point>, AllocError>
    ensures { IfOk result (λ found. found.items ≡ map (oriented_point mirroring turns) points.now) }
{
    let mut found = Vec::new(alloc);
    for point in points {
        found.push(oriented_point(mirroring, turns, *point))?;
    }
    Ok(found)
}

/// The corners after the first one, counterclockwise again.
fn in_order(mirroring: Mirroring, others: Vec<Point>) -> Vec<Point>
    ensures { result.items ≡ in_order mirroring others.items }
{
    let mut found = others;
    if mirroring.is_turned_over() {
        found.reverse();
    }
    found
}

/// The shape of an aperture as it is flashed, about the point of the flash.
fn oriented_shape(
    alloc: Global,
    mirroring: Mirroring,
    turns: u8,
    shape: &Rounded,
) -> Result<Option<Rounded>, AllocError>
    ensures { IfOk result (λ answer. answer ≡ oriented_shape mirroring turns shape.now) }
{
    let first = oriented_point(mirroring, turns, shape.first());
    let others = oriented_points(alloc, mirroring, turns, shape.others())?;
    let others = in_order(mirroring, others);
    Ok(Rounded::new(first, others, shape.radius()))
}

/// A shape that is neither mirrored nor turned, in the same memory.
fn unchanged(shape: &SharedRounded) -> Result<Option<SharedRounded>, AllocError>
    ensures { IfOk result (λ answer. answer ≡ oriented_shape no_mirroring 0 shape.now) }
{
    // Its corners are those of a rounded polygon.
    let _ = shape.get().others();
    Ok(Some(shape.share()?))
}

/// The shape of an aperture as it is flashed, in the memory of the aperture's own where it is neither mirrored nor turned.
fn oriented(
    alloc: Global,
    mirroring: Mirroring,
    turns: u8,
    shape: &SharedRounded,
) -> Result<Option<SharedRounded>, AllocError>
    ensures { IfOk result (λ answer. answer ≡ oriented_shape mirroring turns shape.now) }
{
    if turns == 0 && !mirroring.x && !mirroring.y {
        return unchanged(shape);
    }
    match oriented_shape(alloc, mirroring, turns, shape.get())? {
        Some(found) => Ok(Some(SharedRounded::new(alloc, found)?)),
        None => Ok(None),
    }
}

/// The shape of an aperture as it is flashed at a turn in units of 10^-8 degrees: at any if it is a disc about the point of the flash, else at quarters.
pub fn turned_shape(
    alloc: Global,
    mirroring: Mirroring,
    turn: Dec,
    shape: &SharedRounded,
) -> Result<Option<SharedRounded>, AllocError>
    ensures { IfOk result (λ answer. answer ≡ turned_shape mirroring turn shape.now) }
{
    match quarter_turns(turn) {
        Some(turns) => oriented(alloc, mirroring, turns, shape),
        None if is_centred_disc(shape.get()) => Ok(Some(shape.share()?)),
        None => Ok(None),
    }
}

/// The number of quarter turns counterclockwise, 0 to 3, of a turn in units of 10^-8 degrees, or `None` where it is by another angle.
pub fn quarter_turns(turn: Dec) -> Option<u8>
    ensures { result ≡ quarter_turns turn }
{
    let units = turn.units();
    let angle = units.unsigned_abs();
    if angle % 9_000_000_000 != 0 {
        return None;
    }
    let turns = (angle / 9_000_000_000 % 4) as u8;
    Some(if units < 0 { (4 - turns) % 4 } else { turns })
}
