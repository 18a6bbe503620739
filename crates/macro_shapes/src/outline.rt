//! Outlines of a macro: the polygons that closed runs of points go round.

ghost use Rattle.std.specs.Prelude.{◌≡◌, ◌<◌, ◌∷◌, IfOk, None, if◌then◌else◌, nat_lt, option_map, length, zip};
ghost use Rattle.pad_shapes.specs.Rounded.{max_corners};
ghost use Rattle.macro_shapes.specs.Primitives.{is_same, is_count, run_of, is_closed, point_at, moves, stops, are_different, rounded_of, polygon_of, either_way, outline_of, outline_at, primitive_by_code, polygon_round};
ghost use Rattle.macro_shapes.specs.Inner.Steps.{other_point};
ghost use Rattle.macro_shapes.specs.declared.piece.Code.TheVariants as code;
ghost use Rattle.std.specs.List.{filter_map, list_any};

use crate::primitive::{Primitive, dark_turns, placed};
use grid_units::{Dec, Point, Unit};
use pad_shapes::{MAX_CORNERS, Rounded};
use std::alloc::{AllocError, Global};

/// Whether two points are equal.
pub(crate) fn is_same(a: Point, b: Point) -> bool
    ensures { result ≡ is_same a b }
{
    a.x() == b.x() && a.y() == b.y()
}

/// Whether these are the coordinates of 3 to 4096 points and of the first one again, and the count says of how many.
fn is_count(count: Dec, coordinates: usize) -> bool
    ensures { result ≡ is_count count coordinates }
{
    if coordinates < 8 || 8_194 < coordinates {
        return false;
    }
    let sides = (coordinates / 2 - 1) as i64;
    coordinates % 2 == 0 && count.units() == sides * 100_000_000
}

/// The points of values by twos, or `None` where one is no point or a value is left over.
fn run_of(
    alloc: Global,
    unit: Unit,
    turns: u8,
    values: &[Dec],
) -> Result<Option<Vec<Point>>, AllocError>
    ensures { IfOk result (λ answer. option_map (λ run. run.items) answer ≡ run_of unit turns values.now) }
{
    let mut run = Vec::new(alloc);
    let mut left = values;
    while let [x, y, rest @ ..] = left {
        let Some(point) = placed(unit, turns, *x, *y) else {
            return Ok(None);
        };
        run.push(point)?;
        left = rest;
    }
    if left.is_empty() {
        Ok(Some(run))
    } else {
        Ok(None)
    }
}

/// Whether the last point of a run is the first one.
fn is_closed(run: &[Point]) -> bool
    ensures { result ≡ is_closed run.now }
{
    if run.is_empty() {
        return false;
    }
    is_same(run[0], run[run.len() - 1])
}

/// Those points that are not the same as the one before them.
fn moves_from(alloc: Global, before: Point, run: &[Point]) -> Result<Vec<Point>, AllocError>
    ensures { IfOk result (λ kept. kept.items ≡ filter_map other_point (zip (before ∷ run.now) run.now)) }
{
    let mut kept = Vec::new(alloc);
    let mut last = before;
    for point in run {
        if !is_same(*point, last) {
            kept.push(*point)?;
        }
        last = *point;
    }
    Ok(kept)
}

/// The points of a closed run, each once, or its one point.
#[tactic(auto, using(crate::proofs::RunsOfPoints::moves_from_first))]
fn stops(alloc: Global, run: &[Point]) -> Result<Vec<Point>, AllocError>
    requires { 0 < length run.now }
    ensures { IfOk result (λ found. found.items ≡ stops run.now) }
{
    let mut found = moves_from(alloc, run[0], run)?;
    if found.is_empty() {
        found.push(run[0])?;
    }
    Ok(found)
}

/// Whether more of these points than a polygon may have corners are not the same as the one before them. It reads no further than that.
fn has_many_moves(before: Point, run: &[Point]) -> bool
    ensures { result ≡ nat_lt max_corners (length (filter_map other_point (zip (before ∷ run.now) run.now))) }
{
    let mut count = 0;
    let mut last = before;
    for next in run {
        if !is_same(*next, last) {
            if count == MAX_CORNERS {
                return true;
            }
            count += 1;
        }
        last = *next;
    }
    false
}

/// Whether a closed run has more different points, one after the other, than a polygon may have corners.
pub fn has_many_stops(run: &[Point]) -> bool
    ensures { result ≡ nat_lt max_corners (length (stops run.now)) }
{
    match run {
        [] => false,
        [first, ..] => has_many_moves(*first, run),
    }
}

/// Whether a point is among others.
fn is_among(point: Point, others: &[Point]) -> bool
    ensures { result ≡ list_any (is_same point) others.now }
{
    for other in others {
        if is_same(point, *other) {
            return true;
        }
    }
    false
}

/// Whether no two points are equal.
fn are_different(points: &[Point]) -> bool
    ensures { result ≡ are_different points.now }
{
    let mut left = points;
    while let [point, rest @ ..] = left {
        if is_among(*point, rest) {
            return false;
        }
        left = rest;
    }
    true
}

/// The rounded polygon of these corners with half of a size for its radius, where there is one.
pub(crate) fn rounded_of(first: Point, others: Vec<Point>, size: u64) -> Option<Rounded>
    ensures { result ≡ rounded_of first others.items size }
{
    Rounded::new(first, others, (size / 2) as i64)
}

/// The polygon of corners in this order, where there is one.
fn polygon_of(alloc: Global, corners: &[Point]) -> Result<Option<Rounded>, AllocError>
    ensures { IfOk result (λ answer. answer ≡ polygon_of corners.now) }
{
    match corners {
        [] => Ok(None),
        [first, others @ ..] => {
            let others = others.iter().copied().collect(alloc)?;
            Ok(rounded_of(*first, others, 0))
        }
    }
}

/// The polygon of corners in this order, where no two of them are equal. That is asked last, since it takes a square of their number.
fn polygon_of_different(alloc: Global, corners: &[Point]) -> Result<Option<Rounded>, AllocError>
    ensures { IfOk result (λ answer. answer ≡ (if are_different corners.now then polygon_of corners.now else None)) }
{
    match polygon_of(alloc, corners)? {
        Some(found) if are_different(corners) => Ok(Some(found)),
        _ => Ok(None),
    }
}

/// The polygon that different corners go round once, in this order or the other way.
fn either_way(alloc: Global, corners: &[Point]) -> Result<Option<Rounded>, AllocError>
    ensures { IfOk result (λ answer. answer ≡ either_way corners.now) }
{
    if MAX_CORNERS < corners.len() || !are_different(corners) {
        return Ok(None);
    }
    match polygon_of(alloc, corners)? {
        Some(found) => Ok(Some(found)),
        None => {
            let back: Vec<Point> = corners.iter().rev().copied().collect(alloc)?;
            polygon_of(alloc, &back)
        }
    }
}

/// The polygon that a closed run of points, the last one being the first again, goes round once and counterclockwise: it is
/// convex and has 3 to 256 corners. `None` of any other run.
///
/// # Errors
///
/// An `AllocError` where there is no memory for it.
pub fn polygon_round(alloc: Global, run: &[Point]) -> Result<Option<Rounded>, AllocError>
    ensures { IfOk result (λ answer. answer ≡ polygon_round run.now) }
{
    if !is_closed(run) {
        return Ok(None);
    }
    if has_many_stops(run) {
        return Ok(None);
    }
    let corners = stops(alloc, run)?;
    if corners.len() < 3 {
        return Ok(None);
    }
    polygon_of_different(alloc, &corners)
}

/// The outline of a run of points, where it is judged.
fn outline_of(alloc: Global, run: &[Point]) -> Result<Option<Primitive>, AllocError>
    ensures { IfOk result (λ answer. answer ≡ outline_of run.now) }
{
    if !is_closed(run) {
        return Ok(None);
    }
    let corners = stops(alloc, run)?;
    match either_way(alloc, &corners)? {
        Some(found) => Ok(Some(Primitive::Outline(found))),
        None => Ok(None),
    }
}

/// An outline.
fn outline_at(
    alloc: Global,
    unit: Unit,
    exposure: Dec,
    count: Dec,
    coordinates: &[Dec],
    rotation: Dec,
) -> Result<Option<Primitive>, AllocError>
    ensures { IfOk result (λ answer. answer ≡ outline_at unit exposure count coordinates.now rotation) }
{
    if !is_count(count, coordinates.len()) {
        return Ok(None);
    }
    let Some(turns) = dark_turns(exposure, rotation) else {
        return Ok(None);
    };
    let Some(run) = run_of(alloc, unit, turns, coordinates)? else {
        return Ok(None);
    };
    outline_of(alloc, &run)
}

/// The outline that values spell.
pub(crate) fn outline(
    alloc: Global,
    unit: Unit,
    values: &[Dec],
) -> Result<Option<Primitive>, AllocError>
    ensures { IfOk result (λ answer. answer ≡ primitive_by_code code.Outline unit values.now) }
{
    match values {
        [exposure, count, rest @ ..] => {
            if rest.is_empty() {
                return Ok(None);
            }
            let last = rest.len() - 1;
            outline_at(alloc, unit, *exposure, *count, &rest[..last], rest[last])
        }
        _ => Ok(None),
    }
}
