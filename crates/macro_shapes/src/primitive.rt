//! The primitives of a macro that are judged: circles, vector lines, centre lines, outlines and regular polygons.

ghost use Rattle.std.specs.Prelude.{◌≡◌, IfOk, pos};
ghost use Rattle.std.specs.Ordering.{int_eq};
ghost use Rattle.macro_shapes.specs.Primitives.{quarter_turns, turned_x, turned_y, grid_point, size_of, side_of, dark_turns, point_of_values, circle_at, line_at, with_sides, rectangle_at, turned_rectangle, primitive_by_code, primitives_of};
ghost use Rattle.macro_shapes.specs.Inner.Steps.{length_of, point_of};
ghost use Rattle.macro_shapes.specs.declared.piece.Code.TheVariants as code;

use crate::fields::Fields;
use crate::outline::outline;
use crate::piece::Code;
use crate::polygon::polygon;
use grid_units::{Dec, Point, Unit};
use pad_shapes::Rounded;
use std::alloc::{AllocError, Global};
use std::marker::Model;

/// A dark primitive of a macro (Gerber format, Aperture macro AM). Lengths are in pm, and points lie about the point of the flash.
#[derive(Drop)]
pub enum Primitive {
    /// All points no further from the centre than half of the diameter.
    Circle {
        centre: Point,
        diameter: u64,
    },
    /// A rectangle of this width with the line between the two points in its middle.
    VectorLine {
        from: Point,
        to: Point,
        width: u64,
    },
    /// A rectangle along the axes.
    CentreLine {
        centre: Point,
        width: u64,
        height: u64,
    },
    /// The area of a convex polygon. The radius of the corners says nothing.
    Outline(Rounded),
    /// A regular polygon about the point of the flash, or a rectangle about it, turned by any angle, by the diameter of the disc inside of it,
    /// rounded down.
    Turned(u64),
}

/// The primitives of a macro. Contracts see the list of them.
#[derive(Drop)]
pub struct Primitives {
    primitives: Vec<Primitive>,
}

impl Model for Primitives {
    ghost use Rattle.std.specs.Prelude.{List};
    ghost use Rattle.macro_shapes.specs.declared.primitive.Primitive.{Primitive};

    ghost Value = { List Primitive };

    ghost view = { λ p. p.primitives.items };
}

impl Primitives {
    ghost use Rattle.std.specs.Prelude.{◌≡◌};

    /// The primitives in order.
    pub fn as_slice(&self) -> &[Primitive]
        ensures { result.now ≡ self.now }
    {
        self.primitives.as_slice()
    }
}

/// The quarter turns of a rotation, counterclockwise and 0 to 3, or `None` of another angle.
fn quarter_turns(rotation: Dec) -> Option<u8>
    ensures { result ≡ quarter_turns rotation }
{
    let units = rotation.units();
    let angle = units.unsigned_abs();
    if angle % 9_000_000_000 != 0 {
        return None;
    }
    let turns = (angle / 9_000_000_000 % 4) as u8;
    Some(if units < 0 { (4 - turns) % 4 } else { turns })
}

/// The x and the y in pm of a point that is turned by so many quarters about the point of the flash.
fn turned_coordinates(turns: u8, point: Point) -> (i64, i64)
    ensures { result ≡ (turned_x turns point, turned_y turns point) }
{
    match turns {
        0 => (point.x(), point.y()),
        1 => (-point.y(), point.x()),
        2 => (-point.x(), -point.y()),
        _ => (point.y(), -point.x()),
    }
}

/// A point of the grid, where it is no further than 10 m along each axis.
pub(crate) fn grid_point(x: i64, y: i64) -> Option<Point>
    ensures { result ≡ grid_point x y }
{
    Point::new(x, y)
}

/// A point that is turned by so many quarters about the point of the flash.
fn turned(turns: u8, point: Point) -> Option<Point>
    ensures { result ≡ grid_point (turned_x turns point) (turned_y turns point) }
{
    let (x, y) = turned_coordinates(turns, point);
    grid_point(x, y)
}

/// A value as a length in pm, or `None` beyond 10 m.
fn length_of(unit: Unit, value: Dec) -> Option<i64>
    ensures { result ≡ length_of unit value }
{
    value.picometres(unit).ok()
}

/// A value as a size in pm, or `None` below 0 or beyond 10 m.
pub(crate) fn size_of(unit: Unit, value: Dec) -> Option<u64>
    ensures { result ≡ size_of unit value }
{
    if value.units() < 0 {
        return None;
    }
    Some(length_of(unit, value)?.unsigned_abs())
}

/// A value as the side of a rectangle in pm, or `None` where it is not above 0 or beyond 10 m.
fn side_of(unit: Unit, value: Dec) -> Option<u64>
    ensures { result ≡ side_of unit value }
{
    if 0 < value.units() {
        size_of(unit, value)
    } else {
        None
    }
}

/// Two values as a point.
fn point_of(unit: Unit, x: Dec, y: Dec) -> Option<Point>
    ensures { result ≡ point_of unit x y }
{
    let x = length_of(unit, x)?;
    let y = length_of(unit, y)?;
    grid_point(x, y)
}

/// Two values as a point that is turned.
pub(crate) fn placed(unit: Unit, turns: u8, x: Dec, y: Dec) -> Option<Point>
    ensures { result ≡ point_of_values unit turns x y }
{
    let point = point_of(unit, x, y)?;
    turned(turns, point)
}

/// Whether the exposure is on.
pub(crate) fn is_dark(exposure: Dec) -> bool
    ensures { result ≡ int_eq exposure (pos 100000000) }
{
    exposure.units() == 100_000_000
}

/// The quarter turns of a primitive whose exposure is on.
pub(crate) fn dark_turns(exposure: Dec, rotation: Dec) -> Option<u8>
    ensures { result ≡ dark_turns exposure rotation }
{
    if is_dark(exposure) {
        quarter_turns(rotation)
    } else {
        None
    }
}

/// A circle.
fn circle_at(unit: Unit, turns: u8, diameter: Dec, x: Dec, y: Dec) -> Option<Primitive>
    ensures { result ≡ circle_at unit diameter x y turns }
{
    let diameter = size_of(unit, diameter)?;
    let centre = placed(unit, turns, x, y)?;
    Some(Primitive::Circle { centre, diameter })
}

/// The circle that values spell.
fn circle(unit: Unit, values: &[Dec]) -> Option<Primitive>
    ensures { result ≡ primitive_by_code code.Circle unit values.now }
{
    match values {
        [exposure, diameter, x, y] if is_dark(*exposure) => circle_at(unit, 0, *diameter, *x, *y),
        [exposure, diameter, x, y, rotation] => {
            let turns = dark_turns(*exposure, *rotation)?;
            circle_at(unit, turns, *diameter, *x, *y)
        }
        _ => None,
    }
}

/// A vector line.
fn line_at(
    unit: Unit,
    turns: u8,
    width: Dec,
    x1: Dec,
    y1: Dec,
    x2: Dec,
    y2: Dec,
) -> Option<Primitive>
    ensures { result ≡ line_at unit width x1 y1 x2 y2 turns }
{
    let width = size_of(unit, width)?;
    let from = placed(unit, turns, x1, y1)?;
    let to = placed(unit, turns, x2, y2)?;
    Some(Primitive::VectorLine { from, to, width })
}

/// The vector line that values spell.
fn vector_line(unit: Unit, values: &[Dec]) -> Option<Primitive>
    ensures { result ≡ primitive_by_code code.VectorLine unit values.now }
{
    match values {
        [exposure, width, x1, y1, x2, y2, rotation] => {
            let turns = dark_turns(*exposure, *rotation)?;
            line_at(unit, turns, *width, *x1, *y1, *x2, *y2)
        }
        _ => None,
    }
}

/// The rectangle with its sides exchanged by an odd number of quarter turns.
fn with_sides(turns: u8, centre: Point, width: u64, height: u64) -> Primitive
    ensures { result ≡ with_sides turns centre width height }
{
    let (width, height) = if turns % 2 == 0 {
        (width, height)
    } else {
        (height, width)
    };
    Primitive::CentreLine {
        centre,
        width,
        height,
    }
}

/// A centre line.
fn rectangle_at(unit: Unit, turns: u8, width: Dec, height: Dec, x: Dec, y: Dec) -> Option<Primitive>
    ensures { result ≡ rectangle_at unit width height x y turns }
{
    let width = side_of(unit, width)?;
    let height = side_of(unit, height)?;
    let centre = placed(unit, turns, x, y)?;
    Some(with_sides(turns, centre, width, height))
}

/// A centre line about the point of the flash that is turned by any angle (Gerber format, Center line, code 21).
pub fn turned_rectangle(unit: Unit, width: Dec, height: Dec, x: Dec, y: Dec) -> Option<Primitive>
    ensures { result ≡ turned_rectangle unit width height x y }
{
    if x.units() != 0 || y.units() != 0 {
        return None;
    }
    let width = side_of(unit, width)?;
    let height = side_of(unit, height)?;
    Some(Primitive::Turned(width.min(height)))
}

/// The centre line that values spell.
fn centre_line(unit: Unit, values: &[Dec]) -> Option<Primitive>
    ensures { result ≡ primitive_by_code code.CentreLine unit values.now }
{
    match values {
        [exposure, width, height, x, y, rotation] if is_dark(*exposure) => {
            match quarter_turns(*rotation) {
                Some(turns) => rectangle_at(unit, turns, *width, *height, *x, *y),
                None => turned_rectangle(unit, *width, *height, *x, *y),
            }
        }
        _ => None,
    }
}

/// The primitive that values spell with a code, or `None` where it is not judged.
fn coded(
    alloc: Global,
    code: Code,
    unit: Unit,
    values: &[Dec],
) -> Result<Option<Primitive>, AllocError>
    ensures { IfOk result (λ answer. answer ≡ primitive_by_code code unit values.now) }
{
    match code {
        Code::Circle => Ok(circle(unit, values)),
        Code::VectorLine => Ok(vector_line(unit, values)),
        Code::CentreLine => Ok(centre_line(unit, values)),
        Code::Outline => outline(alloc, unit, values),
        Code::Polygon => Ok(polygon(unit, values)),
    }
}

/// The primitives that fields spell in lengths of this unit, or `None` where one of them is not judged: where it is not dark, is
/// turned by another angle than quarters, has a coordinate or a size beyond 10 m, another number of fields than its code asks
/// for, or is an outline that is not convex, or a regular polygon about another point than that of the flash or of another number of
/// corners than 3 to 12. Any angle may turn a polygon, and a centre line about the point of the flash (Gerber format, Aperture macro AM).
///
/// # Errors
///
/// An `AllocError` where there is no memory for them.
pub fn read_primitives(
    alloc: Global,
    unit: Unit,
    fields: &[Fields],
) -> Result<Option<Primitives>, AllocError>
    ensures { IfOk result (λ answer. answer ≡ primitives_of unit fields.now) }
{
    let mut primitives = Vec::new(alloc);
    for spelled in fields {
        let Some(primitive) = coded(alloc, spelled.code, unit, spelled.values.as_slice())? else {
            return Ok(None);
        };
        primitives.push(primitive)?;
    }
    Ok(Some(Primitives { primitives }))
}
