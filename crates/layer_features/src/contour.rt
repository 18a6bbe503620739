//! The contour of a region, where it counts as a pad.

ghost use Rattle.std.specs.Prelude.{◌≡◌, ◌≤◌, ◌∷◌, IfOk, option_map, length};
ghost use Rattle.std.specs.List.{list_all, list_any, prefix_len};
ghost use Rattle.std.specs.Option.{option_copied};
ghost use Rattle.layer_features.specs.Contours.{contour_of, ends_of, is_clockwise, is_counterclockwise, is_move, points_of, polygon_by, sides_of};
ghost use Rattle.layer_features.specs.Inner.Steps.{clockwise_round, counterclockwise_round, is_move_or_none, polygon_of_sides};

use crate::part::Part;
use grid_units::Point;
use macro_shapes::polygon_round;
use pad_shapes::Rounded;
use std::alloc::{AllocError, Global};

/// How many parts stand first that are moves, or that are none.
fn leading(moves: bool, parts: &[Part]) -> usize
    ensures within { result ≤ length parts.now }
    ensures len { result ≡ prefix_len (is_move_or_none moves) parts.now }
{
    for (i, part) in parts.iter().enumerate() {
        if part.is_move() != moves {
            return i;
        }
    }
    parts.len()
}

/// Whether all parts are moves.
fn are_moves(parts: &[Part]) -> bool
    ensures { result ≡ list_all is_move parts.now }
{
    parts.iter().all(|part| part.is_move())
}

/// The sides of a region's one contour.
fn sides_of(parts: &[Part]) -> Option<&[Part]>
    ensures { option_copied result ≡ sides_of parts.now }
{
    let moves = leading(true, parts);
    let rest = &parts[moves..];
    let sides = leading(false, rest);
    if moves == 0 || !are_moves(&rest[sides..]) {
        return None;
    }
    Some(&rest[..sides])
}

/// The start of a contour and the points where its sides end, where each part is a side.
#[tactic(auto, using(crate::proofs::EndsLemmas::next_end))]
fn ends_of(alloc: Global, start: Point, sides: &[Part]) -> Result<Option<Vec<Point>>, AllocError>
    ensures { IfOk result (λ answer. option_map (λ points. points.items) answer ≡ option_map (λ rest. start ∷ rest) (ends_of sides.now)) }
{
    let mut points = Vec::new(alloc);
    points.push(start)?;
    let mut left = sides;
    while let [side, rest @ ..] = left {
        let Some(end) = side.end() else {
            return Ok(None);
        };
        points.push(end)?;
        left = rest;
    }
    Ok(Some(points))
}

/// The points of a contour, from the start of its first side.
#[tactic(auto, using(crate::proofs::EndsLemmas::first_start))]
pub(crate) fn points_of(alloc: Global, sides: &[Part]) -> Result<Option<Vec<Point>>, AllocError>
    ensures { IfOk result (λ answer. option_map (λ points. points.items) answer ≡ points_of sides.now) }
{
    let Some(first) = sides.first() else {
        return Ok(None);
    };
    match first.start() {
        Some(start) => ends_of(alloc, start, sides),
        None => Ok(None),
    }
}

/// Whether some part is an arc clockwise.
fn has_clockwise(sides: &[Part]) -> bool
    ensures { result ≡ list_any is_clockwise sides.now }
{
    sides.iter().any(|side| side.is_clockwise())
}

/// Whether some part is an arc counterclockwise.
fn has_counterclockwise(sides: &[Part]) -> bool
    ensures { result ≡ list_any is_counterclockwise sides.now }
{
    sides.iter().any(|side| side.is_counterclockwise())
}

/// The polygon that points go round counterclockwise, where no side is an arc the other way.
fn counterclockwise_round(
    alloc: Global,
    sides: &[Part],
    points: &[Point],
) -> Result<Option<Rounded>, AllocError>
    ensures { IfOk result (λ answer. answer ≡ counterclockwise_round sides.now points.now) }
{
    if has_clockwise(sides) {
        return Ok(None);
    }
    polygon_round(alloc, points)
}

/// The polygon that points go round clockwise, where no side is an arc the other way.
fn clockwise_round(
    alloc: Global,
    sides: &[Part],
    points: &[Point],
) -> Result<Option<Rounded>, AllocError>
    ensures { IfOk result (λ answer. answer ≡ clockwise_round sides.now points.now) }
{
    if has_counterclockwise(sides) {
        return Ok(None);
    }
    let mut back = Vec::from_slice(alloc, points)?;
    back.reverse();
    polygon_round(alloc, &back)
}

/// The polygon that points go round either way.
fn polygon_by(
    alloc: Global,
    sides: &[Part],
    points: &[Point],
) -> Result<Option<Rounded>, AllocError>
    ensures { IfOk result (λ answer. answer ≡ polygon_by sides.now points.now) }
{
    match counterclockwise_round(alloc, sides, points)? {
        Some(found) => Ok(Some(found)),
        None => clockwise_round(alloc, sides, points),
    }
}

/// The convex polygon that these sides go round once.
fn polygon_of_sides(alloc: Global, sides: &[Part]) -> Result<Option<Rounded>, AllocError>
    ensures { IfOk result (λ answer. answer ≡ polygon_of_sides sides.now) }
{
    match points_of(alloc, sides)? {
        Some(points) => polygon_by(alloc, sides, &points),
        None => Ok(None),
    }
}

/// The convex polygon of a region with these parts, where its one contour goes round one.
pub(crate) fn contour_of(alloc: Global, parts: &[Part]) -> Result<Option<Rounded>, AllocError>
    ensures { IfOk result (λ answer. answer ≡ contour_of parts.now) }
{
    match sides_of(parts) {
        Some(sides) => polygon_of_sides(alloc, sides),
        None => Ok(None),
    }
}
