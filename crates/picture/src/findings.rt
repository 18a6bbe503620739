//! The findings of a panel, their marks and their numbers. Lengths and coordinates are in pm.

ghost use Rattle.std.specs.Prelude.{◌≡◌, ◌*◌, ◌≤◌, ◌^◌, ◌+ℤ◌, neg_ℤ, pos, Some, unsigned_abs};
ghost use Rattle.std.specs.Fmt.{DisplaysOnOk};
ghost use Rattle.grid_units.specs.Points.{IsCoordinate};
ghost use Rattle.picture.specs.Elements.{finding_text, halfway, lack, mark, mark_circle, mark_radius, middle, midpoint, number, number_offset, place_of, reach, ring};
ghost use Rattle.picture.specs.Panels.{lacks_text, marked_findings};

use crate::elements::{
    down, mark_line_width, ring_rim, write_circle, write_line, write_text_start,
};
use crate::frame::Pen;
use crate::holes::write_slot;
use crate::scene::DrawnFinding;
use crate::titles::{FindingPage, FindingWords, number_of, write_finding_start};
use grid_units::{Hole, Line, Lines, Point};
use std::fmt;
use std::fmt::{Display, Formatter};

/// The most findings of a panel that are marked and numbered.
const MOST_MARKED: usize = 100;

/// Halfway between two coordinates, rounded towards 0.
fn halfway(a: i64, b: i64) -> i64
    requires a { IsCoordinate a }
    requires b { IsCoordinate b }
    ensures value { result ≡ halfway a b }
    ensures in_range { IsCoordinate result }
{
    (a + b) / 2
}

/// The point halfway between two.
fn midpoint(a: Point, b: Point) -> Point
    ensures { result ≡ midpoint a b }
{
    Point::new(halfway(a.x(), b.x()), halfway(a.y(), b.y())).unwrap()
}

/// The middle of a hole.
fn middle(hole: &Hole) -> Point
    ensures { result ≡ middle hole.now }
{
    midpoint(hole.from(), hole.to())
}

/// Writes the required ring of a hole: a circle, of a slot a wide line.
fn write_ring<W: fmt::Write>(f: &mut Formatter<W>, pen: &Pen, hole: &Hole) -> fmt::Result
    ensures { DisplaysOnOk W.write_str_gives f.old result (Some (ring pen.now hole.now)) f.new }
{
    let radius = hole.radius().unsigned_abs() + pen.ring;
    if !hole.is_round() {
        return write_slot(f, "<path class=\"ring\"", hole, radius);
    }
    let (x, y) = (hole.from().x(), down(hole.from().y()));
    let width = ring_rim(pen, radius) as i64;
    write_circle(f, "ring", x, y, radius as i64, width)
}

/// Writes the ring of a finding, or its gap: a line from middle to middle.
#[tactic(auto, unfolding(crate::specs::Elements::lack))]
fn write_lack<W: fmt::Write>(f: &mut Formatter<W>, pen: &Pen, found: &DrawnFinding) -> fmt::Result
    ensures { DisplaysOnOk W.write_str_gives f.old result (Some (lack pen.now found.now)) f.new }
{
    match found {
        DrawnFinding::Ring { hole, .. } => write_ring(f, pen, hole),
        DrawnFinding::Gap { first, second, .. } => {
            let width = (pen.unit * 3 / 10) as i64;
            write_line(
                f,
                "<path class=\"gap\"",
                width,
                &middle(first),
                &middle(second),
            )
        }
    }
}

/// The group of a finding: its name on the page, its title, and its ring or gap.
impl Line<FindingPage<'_>> for DrawnFinding {
    ghost text = { λ page found. finding_text page.pen.now page.place.now found };

    fn fmt_on<W: fmt::Write>(&self, page: &FindingPage<'_>, f: &mut Formatter<W>) -> fmt::Result {
        write_finding_start(f, page, self)?;
        write_lack(f, page.pen, self)?;
        f.write_str("</g>\n")
    }
}

/// A finding's place: the middle of its hole, or halfway between those of its two holes.
fn place_of(found: &DrawnFinding) -> Point
    ensures { result ≡ place_of found.now }
{
    match found {
        DrawnFinding::Ring { hole, .. } => middle(hole),
        DrawnFinding::Gap { first, second, .. } => midpoint(middle(first), middle(second)),
    }
}

/// How far the element of a finding reaches from its place; 0 for a gap.
fn reach(pen: &Pen, found: &DrawnFinding) -> u64
    ensures value { result ≡ reach pen.now found.now }
    ensures within { result ≤ 10 ^ 14 }
{
    match found {
        DrawnFinding::Ring { hole, .. } => hole.radius().unsigned_abs() + pen.ring,
        DrawnFinding::Gap { .. } => 0,
    }
}

/// The radius of the mark of a finding, at least a unit.
fn mark_radius(pen: &Pen, found: &DrawnFinding) -> u64
    ensures value { result ≡ mark_radius pen.now found.now }
    ensures within { result ≤ 2 * 10 ^ 14 }
{
    (reach(pen, found) + pen.unit / 2).max(pen.unit)
}

/// Writes the circle round a finding.
fn write_mark_circle<W: fmt::Write>(
    f: &mut Formatter<W>,
    pen: &Pen,
    found: &DrawnFinding,
) -> fmt::Result
    ensures { DisplaysOnOk W.write_str_gives f.old result (Some (mark_circle pen.now found.now)) f.new }
{
    let (at, radius) = (place_of(found), mark_radius(pen, found) as i64);
    write_circle(
        f,
        "mark",
        at.x(),
        down(at.y()),
        radius,
        mark_line_width(pen),
    )
}

/// The marks of findings.
#[derive(Clone, Copy)]
struct Marks<'a>(FindingPage<'a>);

/// The mark of a finding: a group with its title and its circle.
impl Line<Marks<'_>> for DrawnFinding {
    ghost text = { λ marks found. mark marks.0.pen.now marks.0.place.now found };

    #[tactic(auto, unfolding(crate::specs::Elements::mark))]
    fn fmt_on<W: fmt::Write>(&self, marks: &Marks<'_>, f: &mut Formatter<W>) -> fmt::Result {
        let page = &marks.0;
        let words = FindingWords { page, found: self };
        write!(f, "<g><title>{words}</title>\n")?;
        write_mark_circle(f, page.pen, self)?;
        f.write_str("</g>\n")
    }
}

/// The distance of a finding's number from its place, to the right and upwards.
fn number_offset(pen: &Pen, found: &DrawnFinding) -> i64
    ensures value { result ≡ pos (number_offset pen.now found.now) }
    ensures within { unsigned_abs result ≤ 2 * 10 ^ 14 }
{
    (mark_radius(pen, found) * 7 / 10) as i64
}

/// The place of a finding's number in a picture.
fn number_place(pen: &Pen, found: &DrawnFinding) -> (i64, i64)
    ensures x { result.0 ≡ (place_of found.now).x +ℤ pos (number_offset pen.now found.now) }
    ensures y { result.1 ≡ neg_ℤ ((place_of found.now).y +ℤ pos (number_offset pen.now found.now)) }
{
    let (at, offset) = (place_of(found), number_offset(pen, found));
    (at.x() + offset, down(at.y() + offset))
}

/// The numbers of findings.
#[derive(Clone, Copy)]
struct Numbers<'a>(FindingPage<'a>);

/// The number of a finding, at the upper right of its mark, with its title.
impl Line<Numbers<'_>> for DrawnFinding {
    ghost text = { λ numbers found. number numbers.0.pen.now numbers.0.place.now found };

    #[tactic(auto, unfolding(crate::specs::Elements::number, crate::specs::Elements::number_at))]
    fn fmt_on<W: fmt::Write>(&self, numbers: &Numbers<'_>, f: &mut Formatter<W>) -> fmt::Result {
        let page = &numbers.0;
        let (x, y) = number_place(page.pen, self);
        write_text_start(
            f,
            page.pen,
            "<text class=\"number\" transform=\"translate(",
            x,
            y,
        )?;
        let title = FindingWords { page, found: self };
        write!(f, "<title>{title}</title>{}</text>\n", number_of(self))
    }
}

/// The findings that are marked: the first hundred.
fn marked(lacks: &[DrawnFinding]) -> &[DrawnFinding]
    ensures { result.now ≡ marked_findings lacks.now }
{
    if lacks.len() <= MOST_MARKED {
        return lacks;
    }
    &lacks[..MOST_MARKED]
}

/// The findings of a panel: a group with the ring or gap for each, then the marks, then the numbers.
#[derive(Clone, Copy)]
pub(crate) struct Findings<'a> {
    pub(crate) page: FindingPage<'a>,
    pub(crate) lacks: &'a [DrawnFinding],
}

impl Display for Findings<'_> {
    ghost output = { λ all. Some (lacks_text all.page.pen.now all.page.place.now all.lacks.now) };

    fn fmt<W: fmt::Write>(&self, f: &mut Formatter<W>) -> fmt::Result {
        let (page, lacks) = (self.page, self.lacks);
        let (marks, numbers) = (Marks(page), Numbers(page));
        let first = marked(lacks);
        let found = Lines {
            page: &page,
            lines: lacks,
        };
        let marks = Lines {
            page: &marks,
            lines: first,
        };
        let numbers = Lines {
            page: &numbers,
            lines: first,
        };
        write!(f, "{found}{marks}{numbers}")
    }
}
