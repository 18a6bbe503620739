//! What a layer draws, in a picture: its lines and arcs, its flashes of macros, and the contours of its regions. Coordinates and widths are in pm.

ghost use Rattle.std.specs.Prelude.{◌≡◌, ◌≤◌, ◌++◌, ◌+ℤ◌, ◌-ℤ◌, ◌*ℤ◌, neg_ℤ, pos, unsigned_abs, codes, Some};
ghost use Rattle.std.specs.Fmt.{DisplaysOnOk};
ghost use Rattle.std.specs.List.{flat_map};
ghost use Rattle.grid_units.specs.Points.{IsCoordinate};
ghost use Rattle.picture.specs.Copper.{arc_radius, arc_to, arc_to_point, arc_way, circle_way, copper, copper_contours, copper_lines, corner_text, corner_x, corner_y, drawn_arc, drawn_polygon, edge_arc, flag, flash_corner, flash_width, floor_root, half_way, is_circle, is_large, is_left, line_text, moved_corner, open_way, opposite, shape_dot, shape_path, shape_text};
ghost use Rattle.picture.specs.Elements.{point};

use crate::cut::write_cut;
use crate::elements::{down, write_corner, write_line, write_path_open, write_point};
use crate::frame::Frame;
use grid_units::{Line, Lines, Point, ShortMillimetres, square_length};
use pad_shapes::{Drawn, Rounded};
use std::fmt;
use std::fmt::{Display, Formatter};

/// The whole part of a square root.
fn floor_root(n: u128) -> i64
    requires { n ≤ 800000000000000000000000000 }
    ensures { result ≡ pos (floor_root n) }
{
    n.isqrt() as i64
}

/// How far a coordinate is from that of a centre.
fn offset(at: i64, centre: i64) -> i64
    requires at { IsCoordinate at }
    requires centre { IsCoordinate centre }
    ensures value { result ≡ at -ℤ centre }
    ensures in_range { unsigned_abs result ≤ 20000000000000 }
{
    at - centre
}

/// The radius of an arc: the distance of its start from its centre, rounded down.
pub(crate) fn arc_radius(from: &Point, centre: &Point) -> i64
    ensures { result ≡ pos (arc_radius from.now centre.now) }
{
    let across = offset(from.x(), centre.x()).unsigned_abs();
    let up = offset(from.y(), centre.y()).unsigned_abs();
    floor_root(square_length(across, up) as u128)
}

/// The product of two offsets.
fn product(a: i64, b: i64) -> i128
    requires a { unsigned_abs a ≤ 20000000000000 }
    requires b { unsigned_abs b ≤ 20000000000000 }
    ensures { result ≡ a *ℤ b }
{
    i128::from(a) * i128::from(b)
}

/// Whether, as seen from the centre, the second point lies less than half a turn counterclockwise of the first.
fn is_left(from: &Point, to: &Point, centre: &Point) -> bool
    ensures { result ≡ is_left from.now to.now centre.now }
{
    let (x, y) = (offset(from.x(), centre.x()), offset(from.y(), centre.y()));
    let (end_x, end_y) = (offset(to.x(), centre.x()), offset(to.y(), centre.y()));
    product(y, end_x) < product(x, end_y)
}

/// Whether an arc is longer than half a circle.
pub(crate) fn is_large(from: &Point, to: &Point, centre: &Point, clockwise: bool) -> bool
    ensures { result ≡ is_large from.now to.now centre.now clockwise }
{
    if clockwise {
        is_left(from, to, centre)
    } else {
        is_left(to, from, centre)
    }
}

/// A flag of an arc.
fn flag(set: bool) -> &'static str
    ensures { result.now ≡ flag set }
{
    if set { "1" } else { "0" }
}

/// Writes the next part of a path, along an arc: its radius, its flags and its end.
#[tactic(auto, unfolding(crate::specs::Copper::arc_to))]
fn write_arc_to<W: fmt::Write>(
    f: &mut Formatter<W>,
    radius: i64,
    large: bool,
    clockwise: bool,
    x: i64,
    y: i64,
) -> fmt::Result
    ensures { DisplaysOnOk W.write_str_gives f.old result (Some (arc_to radius large clockwise x y)) f.new }
{
    let radius = ShortMillimetres(radius);
    let (large, sweep) = (flag(large), flag(clockwise));
    let (x, y) = (ShortMillimetres(x), ShortMillimetres(y));
    write!(f, "A{radius} {radius} 0 {large} {sweep} {x} {y}")
}

/// The point of a circle opposite one, in a picture.
fn opposite(from: &Point, centre: &Point) -> (i64, i64)
    ensures x { result.0 ≡ opposite from.now.x centre.now.x }
    ensures y { result.1 ≡ neg_ℤ (opposite from.now.y centre.now.y) }
{
    let (x, y) = (2 * centre.x() - from.x(), 2 * centre.y() - from.y());
    (x, down(y))
}

/// Whether both ends of an arc are one point, so that it is a full circle.
fn is_circle(from: &Point, to: &Point) -> bool
    ensures { result ≡ is_circle from.now to.now }
{
    from.x() == to.x() && from.y() == to.y()
}

/// Writes the next part of a path, along an arc to a point of the board.
fn write_arc_to_point<W: fmt::Write>(
    f: &mut Formatter<W>,
    radius: i64,
    large: bool,
    clockwise: bool,
    to: &Point,
) -> fmt::Result
    ensures { DisplaysOnOk W.write_str_gives f.old result (Some (arc_to_point radius large clockwise to.now)) f.new }
{
    write_arc_to(f, radius, large, clockwise, to.x(), down(to.y()))
}

/// Writes half a circle from a point of it, to the point opposite.
fn write_half_way<W: fmt::Write>(
    f: &mut Formatter<W>,
    from: &Point,
    centre: &Point,
    clockwise: bool,
) -> fmt::Result
    ensures { DisplaysOnOk W.write_str_gives f.old result (Some (half_way from.now centre.now clockwise)) f.new }
{
    let (x, y) = opposite(from, centre);
    write_arc_to(f, arc_radius(from, centre), false, clockwise, x, y)
}

/// Writes a full circle from a point of it, as two half circles: to the point opposite, and back.
fn write_circle_way<W: fmt::Write>(
    f: &mut Formatter<W>,
    from: &Point,
    centre: &Point,
    clockwise: bool,
) -> fmt::Result
    ensures { DisplaysOnOk W.write_str_gives f.old result (Some (circle_way from.now centre.now clockwise)) f.new }
{
    write_half_way(f, from, centre, clockwise)?;
    write_arc_to_point(f, arc_radius(from, centre), false, clockwise, from)
}

/// Writes the way along an arc whose ends are two points, from its start on.
fn write_open_way<W: fmt::Write>(
    f: &mut Formatter<W>,
    from: &Point,
    to: &Point,
    centre: &Point,
    clockwise: bool,
) -> fmt::Result
    ensures { DisplaysOnOk W.write_str_gives f.old result (Some (open_way from.now to.now centre.now clockwise)) f.new }
{
    let large = is_large(from, to, centre, clockwise);
    write_arc_to_point(f, arc_radius(from, centre), large, clockwise, to)
}

/// Writes the way along an arc, from its start on.
#[tactic(auto, unfolding(crate::specs::Copper::arc_way))]
fn write_way<W: fmt::Write>(
    f: &mut Formatter<W>,
    from: &Point,
    to: &Point,
    centre: &Point,
    clockwise: bool,
) -> fmt::Result
    ensures { DisplaysOnOk W.write_str_gives f.old result (Some (arc_way from.now to.now centre.now clockwise)) f.new }
{
    if is_circle(from, to) {
        write_circle_way(f, from, centre, clockwise)
    } else {
        write_open_way(f, from, to, centre, clockwise)
    }
}

/// Writes an arc from its start to its end, as a part of a path.
pub(crate) fn write_edge_arc<W: fmt::Write>(
    f: &mut Formatter<W>,
    from: &Point,
    to: &Point,
    centre: &Point,
    clockwise: bool,
) -> fmt::Result
    ensures { DisplaysOnOk W.write_str_gives f.old result (Some (edge_arc from.now to.now centre.now clockwise)) f.new }
{
    write_point(f, "M", from)?;
    write_way(f, from, to, centre, clockwise)
}

/// Writes an arc as an element, by its width.
fn write_drawn_arc<W: fmt::Write>(
    f: &mut Formatter<W>,
    from: &Point,
    to: &Point,
    centre: &Point,
    width: i64,
    clockwise: bool,
) -> fmt::Result
    ensures { DisplaysOnOk W.write_str_gives f.old result (Some (drawn_arc from.now to.now centre.now width clockwise)) f.new }
{
    write_path_open(f, "<path", width)?;
    write_edge_arc(f, from, to, centre, clockwise)?;
    f.write_str("\"/>\n")
}

/// A coordinate of a corner about the point of a flash.
fn moved(at: i64, corner: i64) -> i64
    requires at { IsCoordinate at }
    requires corner { IsCoordinate corner }
    ensures value { result ≡ at +ℤ corner }
    ensures in_range { unsigned_abs result ≤ 20000000000000 }
{
    at + corner
}

/// The x of a corner about the point of a flash.
fn corner_x(at: &Point, corner: Point) -> i64
    ensures { result ≡ corner_x at.now corner }
{
    moved(at.x(), corner.x())
}

/// The y of a corner about the point of a flash, downwards.
fn corner_y(at: &Point, corner: Point) -> i64
    ensures { result ≡ corner_y at.now corner }
{
    down(moved(at.y(), corner.y()))
}

/// Writes a corner about the point of a flash, after the letter that says how it is reached.
fn write_flash_corner<W: fmt::Write>(
    f: &mut Formatter<W>,
    letter: &str,
    at: &Point,
    corner: Point,
) -> fmt::Result
    ensures { DisplaysOnOk W.write_str_gives f.old result (Some (moved_corner letter.now at.now corner)) f.new }
{
    write_corner(f, letter, corner_x(at, corner), corner_y(at, corner))
}

/// The width of the line round the corners of a flash.
pub(crate) fn flash_width(shape: &Rounded) -> i64
    ensures { result ≡ flash_width shape.now }
{
    2 * shape.radius()
}

/// The point of a flash.
#[derive(Clone, Copy)]
struct FlashPoint(Point);

/// The next corner of a flash.
impl Line<FlashPoint> for Point {
    ghost text = { λ flash corner. flash_corner flash.0 corner };

    fn fmt_on<W: fmt::Write>(&self, flash: &FlashPoint, f: &mut Formatter<W>) -> fmt::Result {
        write_flash_corner(f, "L", &flash.0, *self)
    }
}

/// A shape with several corners, by its ink, the width of its line, its first corner, its point and the other corners about it.
#[derive(Clone, Copy)]
pub(crate) struct ShapePath<'a> {
    ink: &'a str,
    width: i64,
    x: i64,
    y: i64,
    at: FlashPoint,
    others: &'a [Point],
}

impl Display for ShapePath<'_> {
    ghost output = { λ p. Some (drawn_polygon p.ink.now p.width p.x p.y (flat_map (flash_corner p.at.0) p.others.now)) };

    fn fmt<W: fmt::Write>(&self, f: &mut Formatter<W>) -> fmt::Result {
        let (x, y) = (ShortMillimetres(self.x), ShortMillimetres(self.y));
        let (ink, width) = (self.ink, ShortMillimetres(self.width));
        let others = Lines {
            page: &self.at,
            lines: self.others,
        };
        write!(
            f,
            "<path stroke-width=\"{width}\" stroke-linejoin=\"round\" {ink} d=\"M{x} {y}{others}z\"/>\n"
        )
    }
}

/// The path round the corners of a shape about a point, in this ink.
pub(crate) fn path_of<'a>(ink: &'a str, at: &Point, shape: &'a Rounded) -> ShapePath<'a>
    ensures { drawn_polygon result.ink.now result.width result.x result.y (flat_map (flash_corner result.at.0) result.others.now) ≡ shape_path ink.now at.now shape.now }
{
    let first = shape.first();
    ShapePath {
        ink,
        width: flash_width(shape),
        x: corner_x(at, first),
        y: corner_y(at, first),
        at: FlashPoint(*at),
        others: shape.others(),
    }
}

/// Writes a shape of a single corner about a point: a line of no length, as an element with this start.
fn write_dot<W: fmt::Write>(
    f: &mut Formatter<W>,
    element: &str,
    at: &Point,
    shape: &Rounded,
) -> fmt::Result
    ensures { DisplaysOnOk W.write_str_gives f.old result (Some (shape_dot element.now at.now shape.now)) f.new }
{
    write_path_open(f, element, flash_width(shape))?;
    write_flash_corner(f, "M", at, shape.first())?;
    write_flash_corner(f, "L", at, shape.first())?;
    f.write_str("\"/>\n")
}

/// Writes a shape about a point: such a line for a single corner, else the path round its corners in this ink.
pub(crate) fn write_shape<W: fmt::Write>(
    f: &mut Formatter<W>,
    element: &str,
    ink: &str,
    at: &Point,
    shape: &Rounded,
) -> fmt::Result
    ensures { DisplaysOnOk W.write_str_gives f.old result (Some (shape_text element.now ink.now at.now shape.now)) f.new }
{
    if shape.others().is_empty() {
        write_dot(f, element, at, shape)
    } else {
        write!(f, "{}", path_of(ink, at, shape))
    }
}

/// The lines, arcs and flashes of what is drawn, as elements.
#[derive(Clone, Copy)]
struct LineElements;

/// The element of a line, an arc or a flash; nothing of a contour.
impl Line<LineElements> for Drawn {
    ghost text = { λ _ part. line_text part };

    fn fmt_on<W: fmt::Write>(&self, _page: &LineElements, f: &mut Formatter<W>) -> fmt::Result {
        match self {
            Drawn::Line { from, to, width } => write_line(f, "<path", *width, from, to),
            Drawn::Arc {
                from,
                to,
                centre,
                width,
                clockwise,
            } => write_drawn_arc(f, from, to, centre, *width, *clockwise),
            Drawn::Flash { at, shape } => {
                write_shape(f, "<path", "fill=\"#f0dcc0\"", at, shape.get())
            }
            Drawn::Contour(_) | Drawn::Corner(_) | Drawn::Bend { .. } => Ok(()),
        }
    }
}

/// Writes the first corner of a contour, after these words.
fn write_first_corner<W: fmt::Write>(f: &mut Formatter<W>, before: &str, at: &Point) -> fmt::Result
    ensures { DisplaysOnOk W.write_str_gives f.old result (Some (before.now ++ point (codes "M") at.now)) f.new }
{
    f.write_str(before)?;
    write_point(f, "M", at)
}

/// The contours of what is drawn, as paths or as parts of one.
#[derive(Clone, Copy)]
pub(crate) struct Contours {
    /// What stands before the first corner of each: it ends the contour before.
    pub(crate) before: &'static str,
}

/// A corner of a contour, or its way along an arc; nothing of what is drawn outside of regions.
impl Line<Contours> for Drawn {
    ghost text = { λ page part. corner_text page.before.now part };

    fn fmt_on<W: fmt::Write>(&self, page: &Contours, f: &mut Formatter<W>) -> fmt::Result {
        match self {
            Drawn::Line { .. } | Drawn::Arc { .. } | Drawn::Flash { .. } => Ok(()),
            Drawn::Contour(at) => write_first_corner(f, page.before, at),
            Drawn::Corner(at) => write_point(f, "L", at),
            Drawn::Bend {
                from,
                to,
                centre,
                clockwise,
            } => write_way(f, from, to, centre, *clockwise),
        }
    }
}

/// Writes the contours of what is drawn, each a path of its own, and the end of the picture.
fn write_contours<W: fmt::Write>(f: &mut Formatter<W>, drawn: &[Drawn]) -> fmt::Result
    ensures { DisplaysOnOk W.write_str_gives f.old result (Some (copper_contours drawn.now)) f.new }
{
    let page = Contours {
        before: "\"/>\n<path d=\"",
    };
    let contours = Lines {
        page: &page,
        lines: drawn,
    };
    write!(f, "{contours}\"/>\n</g>\n</svg>\n")
}

/// Writes the lines, arcs and flashes of what is drawn, and the start of its contours.
fn write_copper_lines<W: fmt::Write>(f: &mut Formatter<W>, drawn: &[Drawn]) -> fmt::Result
    ensures { DisplaysOnOk W.write_str_gives f.old result (Some (copper_lines drawn.now)) f.new }
{
    let lines = Lines {
        page: &LineElements,
        lines: drawn,
    };
    write!(
        f,
        "\" fill=\"none\" stroke=\"#f0dcc0\" stroke-linecap=\"round\"><title>drawn copper, not judged</title>\n{lines}<g fill=\"#f0dcc0\" fill-rule=\"evenodd\" stroke=\"none\">\n<path d=\""
    )
}

/// Writes what a layer draws, cut at the box of the board: its lines, arcs and flashes, then its contours; nothing where it draws nothing.
pub(crate) fn write_copper<W: fmt::Write>(
    f: &mut Formatter<W>,
    frame: &Frame,
    drawn: &[Drawn],
) -> fmt::Result
    ensures { DisplaysOnOk W.write_str_gives f.old result (Some (copper frame.now drawn.now)) f.new }
{
    if drawn.is_empty() {
        return Ok(());
    }
    write_cut(f, frame)?;
    write_copper_lines(f, drawn)?;
    write_contours(f, drawn)
}
