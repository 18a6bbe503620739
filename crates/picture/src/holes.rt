//! Holes and crosses in a picture. Lengths and coordinates are in pm.

ghost use Rattle.std.specs.Prelude.{◌≡◌, ◌*◌, ◌≤◌, ◌<◌, ◌^◌, ◌+ℤ◌, neg_ℤ, pos, length, Some, unsigned_abs};
ghost use Rattle.std.specs.Fmt.{DisplaysOnOk};
ghost use Rattle.picture.specs.Elements.{are_alike_holes, arm, begins_holes, cross, cross_bar, cross_post, crosses, ends_holes, half_circle, hole, hole_class, hole_paths, hole_words, holes_end, holes_end_at, holes_start, holes_start_at, left_side, long_hole, round_hole, slot, way_back, way_there};

use crate::elements::{arm, down, mark_line_width, rim, write_corner, write_line, write_straight};
use crate::frame::Pen;
use grid_units::{Hole, Line, Lines, Point, ShortMillimetres};
use ring_rules::Drilled;
use std::fmt;
use std::fmt::{Display, Formatter};

/// The most holes in a path or a group. A browser is done with paths of some hundreds each sooner than with a circle for each hole.
const MOST_HOLES: usize = 250;

/// Writes the horizontal line of a cross.
fn write_bar<W: fmt::Write>(f: &mut Formatter<W>, pen: &Pen, at: &Point) -> fmt::Result
    ensures { DisplaysOnOk W.write_str_gives f.old result (Some (cross_bar pen.now at.now)) f.new }
{
    let arm = arm(pen);
    write_straight(f, "h", at.x() - arm, down(at.y()), 2 * arm)
}

/// The y in a picture of the upper end of a cross.
fn upper_end(at: &Point, arm: i64) -> i64
    requires { unsigned_abs arm ≤ 10 ^ 13 }
    ensures { result ≡ neg_ℤ (at.now.y +ℤ arm) }
{
    down(at.y() + arm)
}

/// Writes the vertical line of a cross.
fn write_post<W: fmt::Write>(f: &mut Formatter<W>, pen: &Pen, at: &Point) -> fmt::Result
    ensures { DisplaysOnOk W.write_str_gives f.old result (Some (cross_post pen.now at.now)) f.new }
{
    let arm = arm(pen);
    write_straight(f, "v", at.x(), upper_end(at, arm), 2 * arm)
}

/// The two lines of a cross.
impl Line<Pen> for Point {
    ghost text = { cross };

    #[tactic(auto, unfolding(crate::specs::Elements::cross))]
    fn fmt_on<W: fmt::Write>(&self, pen: &Pen, f: &mut Formatter<W>) -> fmt::Result {
        write_bar(f, pen, self)?;
        write_post(f, pen, self)
    }
}

/// Writes the path of crosses; nothing where there are none.
#[tactic(auto, unfolding(crate::specs::Elements::crosses_start))]
pub(crate) fn write_crosses<W: fmt::Write>(
    f: &mut Formatter<W>,
    pen: &Pen,
    points: &[Point],
) -> fmt::Result
    ensures { DisplaysOnOk W.write_str_gives f.old result (Some (crosses pen.now points.now)) f.new }
{
    if points.is_empty() {
        return Ok(());
    }
    let width = ShortMillimetres(mark_line_width(pen));
    let lines = Lines {
        page: pen,
        lines: points,
    };
    write!(
        f,
        "<path class=\"other\" stroke-width=\"{width}\" d=\"{lines}\"><title>flash not counted as a pad</title></path>\n"
    )
}

/// The class of a round hole: `plated` or `unplated`.
fn hole_class(plated: bool) -> &'static str
    ensures { result.now ≡ hole_class plated }
{
    if plated { "plated" } else { "unplated" }
}

/// Writes the line of a slot from end to end, by its start and half its width.
pub(crate) fn write_slot<W: fmt::Write>(
    f: &mut Formatter<W>,
    element: &str,
    hole: &Hole,
    half: u64,
) -> fmt::Result
    requires { half ≤ 10 ^ 14 }
    ensures { DisplaysOnOk W.write_str_gives f.old result (Some (slot element.now hole.now half)) f.new }
{
    write_line(f, element, 2 * half as i64, &hole.from(), &hole.to())
}

/// The diameter of a hole in pm.
fn diameter(hole: &Hole) -> i64
    ensures value { result ≡ pos (2 * hole.now.radius) }
    ensures within { unsigned_abs result ≤ 10 ^ 15 }
{
    2 * hole.radius()
}

/// Writes the left side of a round hole, where its path begins.
fn write_left_side<W: fmt::Write>(f: &mut Formatter<W>, hole: &Hole) -> fmt::Result
    ensures { DisplaysOnOk W.write_str_gives f.old result (Some (left_side hole.now)) f.new }
{
    let at = hole.from();
    write_corner(f, "M", at.x() - hole.radius(), down(at.y()))
}

/// Writes a half circle of a round hole as a part of a path, by the way along x to its end: `a0.375 0.375 0 1 0 0.75 0`.
#[tactic(auto, unfolding(crate::specs::Elements::half_circle))]
fn write_half_circle<W: fmt::Write>(f: &mut Formatter<W>, hole: &Hole, along: i64) -> fmt::Result
    ensures { DisplaysOnOk W.write_str_gives f.old result (Some (half_circle (pos hole.now.radius) along)) f.new }
{
    let (radius, along) = (ShortMillimetres(hole.radius()), ShortMillimetres(along));
    write!(f, "a{radius} {radius} 0 1 0 {along} 0")
}

/// Writes the half circle from the left side of a round hole to its right side.
fn write_way_there<W: fmt::Write>(f: &mut Formatter<W>, hole: &Hole) -> fmt::Result
    ensures { DisplaysOnOk W.write_str_gives f.old result (Some (way_there hole.now)) f.new }
{
    write_half_circle(f, hole, diameter(hole))
}

/// Writes the half circle from its right side back.
fn write_way_back<W: fmt::Write>(f: &mut Formatter<W>, hole: &Hole) -> fmt::Result
    ensures { DisplaysOnOk W.write_str_gives f.old result (Some (way_back hole.now)) f.new }
{
    write_half_circle(f, hole, down(diameter(hole)))
}

/// Writes a round hole as a part of a path.
fn write_round_hole<W: fmt::Write>(f: &mut Formatter<W>, hole: &Hole) -> fmt::Result
    ensures { DisplaysOnOk W.write_str_gives f.old result (Some (round_hole hole.now)) f.new }
{
    write_left_side(f, hole)?;
    write_way_there(f, hole)?;
    write_way_back(f, hole)?;
    f.write_str("z")
}

/// Writes the two lines of a slot, `rim` and the narrower `slot`.
fn write_long_hole<W: fmt::Write>(f: &mut Formatter<W>, pen: &Pen, hole: &Hole) -> fmt::Result
    ensures { DisplaysOnOk W.write_str_gives f.old result (Some (long_hole pen.now hole.now)) f.new }
{
    let half = hole.radius().unsigned_abs();
    write_slot(f, "<path class=\"rim\"", hole, half)?;
    write_slot(f, "<path class=\"slot\"", hole, half - rim(pen, half))
}

/// A hole: a part of a path, or the two lines of a slot.
impl Line<Pen> for Drilled {
    ghost text = { hole };

    #[tactic(auto, unfolding(crate::specs::Elements::hole))]
    fn fmt_on<W: fmt::Write>(&self, pen: &Pen, f: &mut Formatter<W>) -> fmt::Result {
        if self.hole.is_round() {
            write_round_hole(f, &self.hole)
        } else {
            write_long_hole(f, pen, &self.hole)
        }
    }
}

/// Whether two holes have one diameter, both are plated or both are not, and both are round or both are slots.
fn are_alike_holes(one: &Drilled, other: &Drilled) -> bool
    ensures { result ≡ are_alike_holes one.now other.now }
{
    one.hole.radius() == other.hole.radius()
        && if one.plated {
            other.plated
        } else {
            !other.plated
        }
        && if one.hole.is_round() {
            other.hole.is_round()
        } else {
            !other.hole.is_round()
        }
}

/// A hole in words: `plated hole, 0.75`.
#[derive(Clone, Copy)]
struct HoleWords<'a>(&'a Drilled);

impl Display for HoleWords<'_> {
    ghost output = { λ words. Some (hole_words words.0.now) };

    #[tactic(auto, unfolding(crate::specs::Elements::diameter_words))]
    fn fmt<W: fmt::Write>(&self, f: &mut Formatter<W>) -> fmt::Result {
        let class = hole_class(self.0.plated);
        let diameter = ShortMillimetres(diameter(&self.0.hole));
        write!(f, "{class} hole, {diameter}")
    }
}

/// Writes the start of the path for round holes like this one, or of the group for slots like it.
#[tactic(auto, unfolding(crate::specs::Elements::round_start))]
fn write_holes_start<W: fmt::Write>(
    f: &mut Formatter<W>,
    pen: &Pen,
    drilled: &Drilled,
) -> fmt::Result
    ensures { DisplaysOnOk W.write_str_gives f.old result (Some (holes_start pen.now drilled.now)) f.new }
{
    let hole = &drilled.hole;
    if !hole.is_round() {
        return write!(f, "<g><title>{}</title>\n", HoleWords(drilled));
    }
    let class = hole_class(drilled.plated);
    let width = rim(pen, hole.radius().unsigned_abs()) as i64;
    let width = ShortMillimetres(width);
    write!(f, "<path class=\"{class}\" stroke-width=\"{width}\" d=\"")
}

/// Writes the end of the path for round holes like this one, with its title, or of the group for slots like it.
fn write_holes_end<W: fmt::Write>(f: &mut Formatter<W>, drilled: &Drilled) -> fmt::Result
    ensures { DisplaysOnOk W.write_str_gives f.old result (Some (holes_end drilled.now)) f.new }
{
    if drilled.hole.is_round() {
        write!(f, "\"><title>{}</title></path>\n", HoleWords(drilled))
    } else {
        f.write_str("</g>\n")
    }
}

/// Whether a path or a group begins at a place: at each 250th from the first, and where the hole before is not like the one there.
fn begins_at(holes: &[Drilled], place: usize) -> bool
    requires { place < length holes.now }
    ensures { result ≡ begins_holes holes.now place }
{
    place % MOST_HOLES == 0 || !are_alike_holes(&holes[place - 1], &holes[place])
}

/// Whether a path or a group ends after a place: it is the last, or one begins at the next.
fn ends_at(holes: &[Drilled], place: usize) -> bool
    requires { place < length holes.now }
    ensures { result ≡ ends_holes holes.now place }
{
    place + 1 == holes.len() || begins_at(holes, place + 1)
}

/// Writes the start of the path or group that begins at the place of a hole, if one does.
fn write_start<W: fmt::Write>(
    f: &mut Formatter<W>,
    pen: &Pen,
    holes: &[Drilled],
    place: usize,
    drilled: &Drilled,
) -> fmt::Result
    requires { place < length holes.now }
    ensures { DisplaysOnOk W.write_str_gives f.old result (Some (holes_start_at pen.now holes.now (place, drilled.now))) f.new }
{
    if begins_at(holes, place) {
        write_holes_start(f, pen, drilled)
    } else {
        Ok(())
    }
}

/// Writes the end of the path or group that ends after the place of a hole, if one does.
fn write_end<W: fmt::Write>(
    f: &mut Formatter<W>,
    holes: &[Drilled],
    place: usize,
    drilled: &Drilled,
) -> fmt::Result
    requires { place < length holes.now }
    ensures { DisplaysOnOk W.write_str_gives f.old result (Some (holes_end_at holes.now (place, drilled.now))) f.new }
{
    if ends_at(holes, place) {
        write_holes_end(f, drilled)
    } else {
        Ok(())
    }
}

/// Writes the holes: for each run of holes alike paths of round holes, or groups of slots, with at most 250 in each.
pub(crate) fn write_holes<W: fmt::Write>(
    f: &mut Formatter<W>,
    pen: &Pen,
    holes: &[Drilled],
) -> fmt::Result
    ensures { DisplaysOnOk W.write_str_gives f.old result (Some (hole_paths pen.now holes.now)) f.new }
{
    for (place, drilled) in holes.iter().enumerate() {
        write_start(f, pen, holes, place, drilled)?;
        drilled.fmt_on(pen, f)?;
        write_end(f, holes, place, drilled)?;
    }
    Ok(())
}
