//! The shape of a macro: a rounded polygon that is inside of its primitives.

ghost use Rattle.std.specs.Prelude.{◌≡◌, IfOk, max, option_and_then, unwrap_or};
ghost use Rattle.std.specs.List.{list_all};
ghost use Rattle.pad_shapes.specs.Rounded.{rounded_covers};
ghost use Rattle.macro_shapes.specs.Primitives.{rounded_of};
ghost use Rattle.macro_shapes.specs.Shapes.{diameter_at, width_along, disc_at, line_along, border, rectangle_of, rectangle_about, rectangle_along, segment, line_shape, with_border, crossing_sides, cross_border, with_arms, cross_shape, centre_shape, do_cross, holds, is_centred_disc, shape_from, shape_of, wider};
ghost use Rattle.macro_shapes.specs.Inner.Steps.{second_crossing};
ghost use Rattle.macro_shapes.specs.Inner.Borders.{chosen, least, discs_in_turn, border_in_turn};

use crate::outline::{is_same, rounded_of};
use crate::primitive::{Primitive, grid_point};
use grid_units::Point;
use pad_shapes::{PadShape, Rounded};
use std::alloc::{AllocError, Global};

/// The largest side of a primitive in pm: ten metres.
const MAX_SIDE: u64 = 10_000_000_000_000;

/// The diameter of a primitive that is a circle at this point.
fn diameter_at(point: Point, primitive: &Primitive) -> Option<u64>
    ensures { result ≡ diameter_at point primitive.now }
{
    match primitive {
        Primitive::Circle { centre, diameter } if is_same(*centre, point) => Some(*diameter),
        _ => None,
    }
}

/// The width of a primitive that is a vector line along an edge, in either direction.
fn width_along(start: Point, end: Point, primitive: &Primitive) -> Option<u64>
    ensures { result ≡ width_along (record { from = start; to = end }) primitive.now }
{
    match primitive {
        Primitive::VectorLine { from, to, width } => {
            let is_along = (is_same(*from, start) && is_same(*to, end))
                || (is_same(*from, end) && is_same(*to, start));
            if is_along { Some(*width) } else { None }
        }
        _ => None,
    }
}

/// The greater of two sizes, of which one or both may lack.
fn greatest(a: Option<u64>, b: Option<u64>) -> Option<u64>
    ensures { result ≡ chosen max a b }
{
    match (a, b) {
        (None, b) => b,
        (Some(a), None) => Some(a),
        (Some(a), Some(b)) => Some(a.max(b)),
    }
}

/// The lesser of two sizes, where none lacks.
fn least(a: Option<u64>, b: Option<u64>) -> Option<u64>
    ensures { result ≡ least a b }
{
    match (a, b) {
        (None, _) => None,
        (Some(_), None) => None,
        (Some(a), Some(b)) => Some(a.min(b)),
    }
}

/// The greatest diameter of the circles at a point.
fn disc_at(primitives: &[Primitive], point: Point) -> Option<u64>
    ensures { result ≡ disc_at primitives.now point }
{
    let mut found = None;
    for primitive in primitives {
        found = greatest(found, diameter_at(point, primitive));
    }
    found
}

/// The greatest width of the vector lines along an edge.
fn line_along(primitives: &[Primitive], start: Point, end: Point) -> Option<u64>
    ensures { result ≡ line_along primitives.now (record { from = start; to = end }) }
{
    let mut found = None;
    for primitive in primitives {
        found = greatest(found, width_along(start, end, primitive));
    }
    found
}

/// The least of the circles at the corners, where none lacks.
fn discs_at(primitives: &[Primitive], first: Point, others: &[Point]) -> Option<u64>
    ensures { result ≡ discs_in_turn primitives.now (record { first = first; others = others.now; radius = 0 }) }
{
    let mut found = disc_at(primitives, first);
    for corner in others {
        found = least(found, disc_at(primitives, *corner));
    }
    found
}

/// The least of the circles at the corners and of the vector lines along the edges, where none of them lacks.
fn border(primitives: &[Primitive], first: Point, others: &[Point]) -> Option<u64>
    ensures { result ≡ border_in_turn primitives.now (record { first = first; others = others.now; radius = 0 }) }
{
    let mut found = discs_at(primitives, first, others);
    if others.is_empty() {
        return found;
    }
    let mut from = first;
    for to in others {
        found = least(found, line_along(primitives, from, *to));
        from = *to;
    }
    least(found, line_along(primitives, from, first))
}

/// The rectangle with these sides in pm, where there is one.
fn rectangle_of(
    alloc: Global,
    left: i64,
    bottom: i64,
    right: i64,
    top: i64,
) -> Result<Option<Rounded>, AllocError>
    ensures { IfOk result (λ answer. answer ≡ rectangle_of left bottom right top) }
{
    let Some(first) = grid_point(left, bottom) else {
        return Ok(None);
    };
    let Some(second) = grid_point(right, bottom) else {
        return Ok(None);
    };
    let Some(third) = grid_point(right, top) else {
        return Ok(None);
    };
    let Some(fourth) = grid_point(left, top) else {
        return Ok(None);
    };
    let others = Vec::from_array(alloc, [second, third, fourth])?;
    Ok(rounded_of(first, others, 0))
}

/// The rectangle about a centre.
fn rectangle_about(
    alloc: Global,
    centre: Point,
    width: u64,
    height: u64,
) -> Result<Option<Rounded>, AllocError>
    ensures { IfOk result (λ answer. answer ≡ rectangle_about centre width height) }
{
    if MAX_SIDE < width || MAX_SIDE < height {
        return Ok(None);
    }
    let x = (width / 2) as i64;
    let y = (height / 2) as i64;
    rectangle_of(
        alloc,
        centre.x() - x,
        centre.y() - y,
        centre.x() + x,
        centre.y() + y,
    )
}

/// The rectangle about a line along an axis.
fn rectangle_along(
    alloc: Global,
    a: Point,
    b: Point,
    width: u64,
) -> Result<Option<Rounded>, AllocError>
    ensures { IfOk result (λ answer. answer ≡ rectangle_along a b width) }
{
    if MAX_SIDE < width {
        return Ok(None);
    }
    let half = (width / 2) as i64;
    if a.y() == b.y() {
        let left = a.x().min(b.x());
        let right = a.x().max(b.x());
        return rectangle_of(alloc, left, a.y() - half, right, a.y() + half);
    }
    if a.x() == b.x() {
        let bottom = a.y().min(b.y());
        let top = a.y().max(b.y());
        return rectangle_of(alloc, a.x() - half, bottom, a.x() + half, top);
    }
    Ok(None)
}

/// The ends of a line after the first one: none where they are equal.
fn other_end(alloc: Global, a: Point, b: Point) -> Result<Vec<Point>, AllocError>
    ensures { IfOk result (λ others. others.items ≡ (segment a b).others) }
{
    let mut others = Vec::new(alloc);
    if !is_same(a, b) {
        others.push(b)?;
    }
    Ok(others)
}

/// The shape of a vector line.
fn line_shape(
    alloc: Global,
    primitives: &[Primitive],
    from: Point,
    to: Point,
    width: u64,
) -> Result<Option<Rounded>, AllocError>
    ensures { IfOk result (λ answer. answer ≡ line_shape primitives.now from to width) }
{
    let others = other_end(alloc, from, to)?;
    match border(primitives, from, &others) {
        Some(size) => Ok(rounded_of(from, others, size)),
        None => rectangle_along(alloc, from, to, width),
    }
}

/// The polygon of these corners with half of a size for its radius, where there is one.
fn rounded_by(alloc: Global, corners: &Rounded, size: u64) -> Result<Option<Rounded>, AllocError>
    ensures { IfOk result (λ answer. answer ≡ rounded_of corners.now.first corners.now.others size) }
{
    let others = corners.others().iter().copied().collect(alloc)?;
    Ok(rounded_of(corners.first(), others, size))
}

/// The outline with a border of this size.
fn with_border(alloc: Global, corners: &Rounded, size: u64) -> Result<Option<Rounded>, AllocError>
    ensures { IfOk result (λ answer. answer ≡ with_border corners.now size) }
{
    let others = corners.others();
    if others.len() <= 1 && size == 0 {
        return Ok(None);
    }
    rounded_by(alloc, corners, size)
}

/// The shape of an outline.
#[tactic(auto, using(crate::proofs::BordersInTurn::border_is))]
fn outline_shape(
    alloc: Global,
    primitives: &[Primitive],
    corners: &Rounded,
) -> Result<Option<Rounded>, AllocError>
    ensures { IfOk result (λ answer. answer ≡ with_border corners.now (unwrap_or (border primitives.now corners.now) 0)) }
{
    let size = border(primitives, corners.first(), corners.others()).unwrap_or(0);
    with_border(alloc, corners, size)
}

/// Whether two rectangles about one centre cross: one of them is no wider, and the other no taller.
fn do_cross(width: u64, height: u64, other_width: u64, other_height: u64) -> bool
    ensures { result ≡ do_cross width height other_width other_height }
{
    (other_width <= width && height <= other_height)
        || (width <= other_width && other_height <= height)
}

/// The sides of a primitive that is a rectangle about this centre and crosses the one with these sides.
fn crossing(centre: Point, width: u64, height: u64, primitive: &Primitive) -> Option<(u64, u64)>
    ensures { result ≡ crossing_sides centre width height primitive.now }
{
    match primitive {
        Primitive::CentreLine {
            centre: other,
            width: other_width,
            height: other_height,
        } if is_same(*other, centre) && do_cross(width, height, *other_width, *other_height) => {
            Some((*other_width, *other_height))
        }
        _ => None,
    }
}

/// The sides of the second primitive, where that is a rectangle which crosses the first one.
fn second_crossing(
    centre: Point,
    width: u64,
    height: u64,
    primitives: &[Primitive],
) -> Option<(u64, u64)>
    ensures { result ≡ second_crossing centre width height primitives.now }
{
    match primitives {
        [_, second, ..] => crossing(centre, width, height, second),
        _ => None,
    }
}

/// The least of the circles at the corners of the common part of two rectangles and of the differences of their widths and
/// heights, where no circle lacks.
#[tactic(auto, using(crate::proofs::BordersInTurn::cross_border_is))]
fn cross_border(
    primitives: &[Primitive],
    common: &Rounded,
    widths: u64,
    heights: u64,
) -> Option<u64>
    ensures { result ≡ cross_border primitives.now common.now widths heights }
{
    let discs = discs_at(primitives, common.first(), common.others());
    least(least(discs, Some(widths)), Some(heights))
}

/// The common part of two rectangles with a border of this size, which is above 0.
fn with_arms(alloc: Global, common: &Rounded, size: u64) -> Result<Option<Rounded>, AllocError>
    ensures { IfOk result (λ answer. answer ≡ with_arms common.now size) }
{
    if 0 < size {
        rounded_by(alloc, common, size)
    } else {
        Ok(None)
    }
}

/// The shape of two rectangles about a centre that cross.
fn cross_shape(
    alloc: Global,
    primitives: &[Primitive],
    centre: Point,
    width: u64,
    height: u64,
    other: (u64, u64),
) -> Result<Option<Rounded>, AllocError>
    ensures { IfOk result (λ answer. answer ≡ cross_shape primitives.now centre width height other) }
{
    let (other_width, other_height) = other;
    let narrow = width.min(other_width);
    let low = height.min(other_height);
    let Some(common) = rectangle_about(alloc, centre, narrow, low)? else {
        return Ok(None);
    };
    let widths = width.abs_diff(other_width);
    let heights = height.abs_diff(other_height);
    let size = cross_border(primitives, &common, widths, heights).unwrap_or(0);
    with_arms(alloc, &common, size)
}

/// The shape of a centre line and the one that crosses it, where one does.
fn crossed_shape(
    alloc: Global,
    primitives: &[Primitive],
    centre: Point,
    width: u64,
    height: u64,
) -> Result<Option<Rounded>, AllocError>
    ensures { IfOk result (λ answer. answer ≡ option_and_then (cross_shape primitives.now centre width height) (second_crossing centre width height primitives.now)) }
{
    match second_crossing(centre, width, height, primitives) {
        Some(other) => cross_shape(alloc, primitives, centre, width, height, other),
        None => Ok(None),
    }
}

/// The shape of a centre line: with the one that crosses it, and else the rectangle alone.
fn centre_shape(
    alloc: Global,
    primitives: &[Primitive],
    centre: Point,
    width: u64,
    height: u64,
) -> Result<Option<Rounded>, AllocError>
    ensures { IfOk result (λ answer. answer ≡ centre_shape primitives.now centre width height) }
{
    match crossed_shape(alloc, primitives, centre, width, height)? {
        Some(shape) => Ok(Some(shape)),
        None => rectangle_about(alloc, centre, width, height),
    }
}

/// The shape of a macro by one of its primitives.
fn shape_from(
    alloc: Global,
    primitives: &[Primitive],
    one: &Primitive,
) -> Result<Option<Rounded>, AllocError>
    ensures { IfOk result (λ answer. answer ≡ shape_from primitives.now one.now) }
{
    match one {
        Primitive::Circle { centre, diameter } => {
            Ok(rounded_of(*centre, Vec::new(alloc), *diameter))
        }
        Primitive::VectorLine { from, to, width } => {
            line_shape(alloc, primitives, *from, *to, *width)
        }
        Primitive::CentreLine {
            centre,
            width,
            height,
        } => centre_shape(alloc, primitives, *centre, *width, *height),
        Primitive::Outline(corners) => outline_shape(alloc, primitives, corners),
        Primitive::Turned(diameter) => match grid_point(0, 0) {
            Some(centre) => Ok(rounded_of(centre, Vec::new(alloc), *diameter)),
            None => Ok(None),
        },
    }
}

/// Whether a shape covers the disc about a corner of another one, of that one's radius.
fn covers_corner(shape: &Rounded, other: &Rounded, corner: Point) -> bool
    ensures { result ≡ rounded_covers shape.now corner other.now.radius }
{
    shape.covers(corner, other.radius())
}

/// Whether a shape covers so each of these corners.
fn covers_each(shape: &Rounded, other: &Rounded, corners: &[Point]) -> bool
    ensures { result ≡ list_all (λ c. rounded_covers shape.now c other.now.radius) corners.now }
{
    corners
        .iter()
        .all(|corner| covers_corner(shape, other, *corner))
}

/// Whether a shape holds another one: the disc about each of its corners, of its radius.
fn holds(shape: &Rounded, other: &Rounded) -> bool
    ensures { result ≡ holds shape.now other.now }
{
    covers_corner(shape, other, other.first()) && covers_each(shape, other, other.others())
}

/// Whether a shape is a disc about the point of the flash.
pub fn is_centred_disc(shape: &Rounded) -> bool
    ensures { result ≡ is_centred_disc shape.now }
{
    let first = shape.first();
    shape.others().is_empty() && first.x() == 0 && first.y() == 0
}

/// The later of two shapes where it holds the earlier one and that is no disc about the point of the flash, else the earlier; each may lack.
fn wider(earlier: Option<Rounded>, later: Option<Rounded>) -> Option<Rounded>
    ensures { result ≡ chosen wider earlier later }
{
    match (earlier, later) {
        (None, later) => later,
        (Some(earlier), None) => Some(earlier),
        (Some(earlier), Some(later)) => {
            if !is_centred_disc(&earlier) && holds(&later, &earlier) {
                Some(later)
            } else {
                Some(earlier)
            }
        }
    }
}

/// The shape of a macro with these primitives, by the first of them that gives one, or, in turn, by each later one whose shape holds the one
/// before it (a disc about the point of the flash stays); `None` where it is not judged. A circle is a disc, a vector
/// line with circles at both ends a line with round ends, a vector line along an axis or a centre line a rectangle, and an
/// outline a convex polygon: rounded by half of the least of the circles at its corners and of the vector lines along its edges,
/// where none of them lacks. A centre line that a second one about the same centre crosses is their common part, rounded by half
/// of the least of the circles at its corners, the difference of the widths and that of the heights, where this is above 0. A regular
/// polygon, and a rectangle that is turned by other than quarters, is the disc inside of it.
///
/// # Errors
///
/// An `AllocError` where there is no memory for it.
pub fn macro_shape(alloc: Global, primitives: &[Primitive]) -> Result<Option<Rounded>, AllocError>
    ensures { IfOk result (λ answer. answer ≡ shape_of primitives.now) }
{
    let mut found = None;
    for primitive in primitives {
        found = wider(found, shape_from(alloc, primitives, primitive)?);
    }
    Ok(found)
}
