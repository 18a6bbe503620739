//! The forms of the elements of a picture. Lengths are in pm, printed in millimetres; in a picture y grows downwards.

ghost use Rattle.std.specs.Prelude.{◌≡◌, ◌≤◌, ◌^◌, Some, neg_ℤ, unsigned_abs, ◌/◌, pos};
ghost use Rattle.std.specs.Fmt.{DisplaysOnOk};
ghost use Rattle.picture.specs.Elements.{arm, circle, corner, edge, line, path_open, point, rim, ring_rim, straight_part, text_start};

use crate::frame::Pen;
use grid_units::{Point, ShortMillimetres};
use std::fmt;
use std::fmt::Formatter;

/// The y in a picture of a y on the board: negated.
pub(crate) fn down(y: i64) -> i64
    requires { unsigned_abs y ≤ 10 ^ 15 }
    ensures { result ≡ neg_ℤ y }
{
    -y
}

/// Writes a circle, by its class, its centre, its radius and the width of its line.
pub(crate) fn write_circle<W: fmt::Write>(
    f: &mut Formatter<W>,
    class: &str,
    x: i64,
    y: i64,
    radius: i64,
    width: i64,
) -> fmt::Result
    ensures { DisplaysOnOk W.write_str_gives f.old result (Some (circle class.now x y radius width)) f.new }
{
    let (x, y) = (ShortMillimetres(x), ShortMillimetres(y));
    let (radius, width) = (ShortMillimetres(radius), ShortMillimetres(width));
    write!(
        f,
        "<circle class=\"{class}\" cx=\"{x}\" cy=\"{y}\" r=\"{radius}\" stroke-width=\"{width}\"/>\n"
    )
}

/// Writes the start of a path, by its element and the width of its line: `<path class="line" stroke-width="0.6" d="`.
#[tactic(auto, unfolding(crate::specs::Elements::path_open))]
pub(crate) fn write_path_open<W: fmt::Write>(
    f: &mut Formatter<W>,
    element: &str,
    width: i64,
) -> fmt::Result
    ensures { DisplaysOnOk W.write_str_gives f.old result (Some (path_open element.now width)) f.new }
{
    let width = ShortMillimetres(width);
    write!(f, "{element} stroke-width=\"{width}\" d=\"")
}

/// Writes a corner of a path, after the letter that says how it is reached: `M1 -2` begins there, `L1 -2` is a line to it.
#[tactic(auto, unfolding(crate::specs::Elements::corner))]
pub(crate) fn write_corner<W: fmt::Write>(
    f: &mut Formatter<W>,
    letter: &str,
    x: i64,
    y: i64,
) -> fmt::Result
    ensures { DisplaysOnOk W.write_str_gives f.old result (Some (corner letter.now x y)) f.new }
{
    let (x, y) = (ShortMillimetres(x), ShortMillimetres(y));
    write!(f, "{letter}{x} {y}")
}

/// Writes a point of the board as a corner of a path.
pub(crate) fn write_point<W: fmt::Write>(
    f: &mut Formatter<W>,
    letter: &str,
    at: &Point,
) -> fmt::Result
    ensures { DisplaysOnOk W.write_str_gives f.old result (Some (point letter.now at.now)) f.new }
{
    write_corner(f, letter, at.x(), down(at.y()))
}

/// Writes a line from point to point, as a part of a path.
pub(crate) fn write_edge<W: fmt::Write>(
    f: &mut Formatter<W>,
    from: &Point,
    to: &Point,
) -> fmt::Result
    ensures { DisplaysOnOk W.write_str_gives f.old result (Some (edge from.now to.now)) f.new }
{
    write_point(f, "M", from)?;
    write_point(f, "L", to)
}

/// Writes a line from point to point, as an element with this start, by its width.
pub(crate) fn write_line<W: fmt::Write>(
    f: &mut Formatter<W>,
    element: &str,
    width: i64,
    from: &Point,
    to: &Point,
) -> fmt::Result
    ensures { DisplaysOnOk W.write_str_gives f.old result (Some (line element.now width from.now to.now)) f.new }
{
    write_path_open(f, element, width)?;
    write_edge(f, from, to)?;
    f.write_str("\"/>\n")
}

/// Writes a part of a path along an axis: `h` along x from its left end, `v` along y from its upper end, as `M8 -24.54h2`.
#[tactic(auto, unfolding(crate::specs::Elements::straight_part))]
pub(crate) fn write_straight<W: fmt::Write>(
    f: &mut Formatter<W>,
    axis: &str,
    x: i64,
    y: i64,
    length: i64,
) -> fmt::Result
    ensures { DisplaysOnOk W.write_str_gives f.old result (Some (straight_part axis.now x y length)) f.new }
{
    let (x, y, length) = (
        ShortMillimetres(x),
        ShortMillimetres(y),
        ShortMillimetres(length),
    );
    write!(f, "M{x} {y}{axis}{length}")
}

/// Writes the start of a text: its first words, its place, and the unit that scales its letters.
#[tactic(auto, unfolding(crate::specs::Elements::text_start))]
pub(crate) fn write_text_start<W: fmt::Write>(
    f: &mut Formatter<W>,
    pen: &Pen,
    words: &str,
    x: i64,
    y: i64,
) -> fmt::Result
    ensures { DisplaysOnOk W.write_str_gives f.old result (Some (text_start pen.now words.now x y)) f.new }
{
    let (x, y, unit) = (
        ShortMillimetres(x),
        ShortMillimetres(y),
        ShortMillimetres(pen.unit as i64),
    );
    write!(f, "{words}{x} {y}) scale({unit})\">")
}

/// The length of an arm of a cross: a third of a unit.
pub(crate) fn arm(pen: &Pen) -> i64
    ensures value { result ≡ pos (arm pen.now) }
    ensures within { arm pen.now ≤ 10 ^ 13 }
{
    (pen.unit / 3) as i64
}

/// The width of the line round a circle: a tenth of a unit, at most a quarter of the radius.
pub(crate) fn rim(pen: &Pen, radius: u64) -> u64
    ensures value { result ≡ rim pen.now radius }
    ensures within { result ≤ radius }
    ensures thin { result ≤ 10 ^ 13 }
{
    (pen.unit / 10).min(radius / 4)
}

/// The width of the line round a ring: a tenth of a unit, at most an eighth of the radius.
pub(crate) fn ring_rim(pen: &Pen, radius: u64) -> u64
    ensures value { result ≡ ring_rim pen.now radius }
    ensures thin { result ≤ 10 ^ 13 }
{
    (pen.unit / 10).min(radius / 8)
}

/// The width of the lines of crosses and marks: a fifth of a unit.
pub(crate) fn mark_line_width(pen: &Pen) -> i64
    ensures { result ≡ pos (pen.now.unit / 5) }
{
    (pen.unit / 5) as i64
}
