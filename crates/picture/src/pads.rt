//! Pads in a picture: paths of rectangles and of lines with round ends.

ghost use Rattle.std.specs.Prelude.{◌≡◌, ◌*◌, ◌-◌, ◌≤◌, ◌<◌, ◌^◌, ◌+ℤ◌, ◌-ℤ◌, neg_ℤ, pos, nat_le, length, Some, unsigned_abs};
ghost use Rattle.std.specs.Fmt.{DisplaysOnOk};
ghost use Rattle.picture.specs.Elements.{are_alike, begins_pads, ends_pads, obround_line, outline, pad_paths, pad_words, pads_end_at, pads_start, pads_start_at, rect_box, sides};

use crate::elements::{down, write_corner, write_path_open, write_straight};
use grid_units::ShortMillimetres;
use pad_shapes::{Obround, Pad, Rect};
use std::fmt;
use std::fmt::{Display, Formatter};

/// Whether two pads are of one kind and size.
fn are_alike(one: &Pad, other: &Pad) -> bool
    ensures { result ≡ are_alike one.now other.now }
{
    match (one, other) {
        (Pad::Disc(a), Pad::Disc(b)) => a.radius() == b.radius(),
        (Pad::Rect(a), Pad::Rect(b)) => a.half_x() == b.half_x() && a.half_y() == b.half_y(),
        (Pad::Obround(a), Pad::Obround(b)) => {
            a.half_x() == b.half_x() && a.half_y() == b.half_y()
        }
        _ => false,
    }
}

/// The upper left corner of a rectangle in a picture, and its sides.
fn corner_and_sides(rect: &Rect) -> (i64, i64, i64, i64)
    ensures x { result.0 ≡ rect.now.centre.x -ℤ pos rect.now.half_x }
    ensures y { result.1 ≡ neg_ℤ (rect.now.centre.y +ℤ pos rect.now.half_y) }
    ensures width { result.2 ≡ pos (2 * rect.now.half_x) }
    ensures height { result.3 ≡ pos (2 * rect.now.half_y) }
    ensures within { unsigned_abs result.2 ≤ 10 ^ 14 }
{
    let (at, half_x, half_y) = (rect.centre(), rect.half_x(), rect.half_y());
    (
        at.x() - half_x,
        down(at.y() + half_y),
        2 * half_x,
        2 * half_y,
    )
}

/// Writes the sides of a rectangle, from its upper left corner on, and the way back: `h1.2v0.9h-1.2z`.
#[tactic(auto, unfolding(crate::specs::Elements::sides))]
fn write_sides<W: fmt::Write>(
    f: &mut Formatter<W>,
    width: i64,
    height: i64,
    back: i64,
) -> fmt::Result
    ensures { DisplaysOnOk W.write_str_gives f.old result (Some (sides width height back)) f.new }
{
    let (width, height) = (ShortMillimetres(width), ShortMillimetres(height));
    write!(f, "h{width}v{height}h{}z", ShortMillimetres(back))
}

/// Writes a rectangular pad as a part of a path.
fn write_rect<W: fmt::Write>(f: &mut Formatter<W>, rect: &Rect) -> fmt::Result
    ensures { DisplaysOnOk W.write_str_gives f.old result (Some (rect_box rect.now)) f.new }
{
    let (x, y, width, height) = corner_and_sides(rect);
    write_corner(f, "M", x, y)?;
    write_sides(f, width, height, down(width))
}

/// The left end of the line of a broad obround in a picture, and its length.
fn broad_line(obround: &Obround) -> (i64, i64, i64)
    requires { obround.now.half_y ≤ obround.now.half_x }
    ensures x { result.0 ≡ obround.now.centre.x -ℤ pos (obround.now.half_x - obround.now.half_y) }
    ensures y { result.1 ≡ neg_ℤ obround.now.centre.y }
    ensures length { result.2 ≡ pos (2 * (obround.now.half_x - obround.now.half_y)) }
{
    let (at, reach) = (obround.centre(), obround.half_x() - obround.half_y());
    (at.x() - reach, down(at.y()), 2 * reach)
}

/// The upper end of the line of a high obround in a picture, and its length.
fn high_line(obround: &Obround) -> (i64, i64, i64)
    requires { obround.now.half_x ≤ obround.now.half_y }
    ensures x { result.0 ≡ obround.now.centre.x }
    ensures y { result.1 ≡ neg_ℤ (obround.now.centre.y +ℤ pos (obround.now.half_y - obround.now.half_x)) }
    ensures length { result.2 ≡ pos (2 * (obround.now.half_y - obround.now.half_x)) }
{
    let (at, reach) = (obround.centre(), obround.half_y() - obround.half_x());
    (at.x(), down(at.y() + reach), 2 * reach)
}

/// Whether an obround is at least as wide as high.
fn is_broad(obround: &Obround) -> bool
    ensures { result ≡ nat_le obround.now.half_y obround.now.half_x }
{
    obround.half_y() <= obround.half_x()
}

/// Writes the line of an obround, from the centre of one round end to that of the other.
fn write_obround<W: fmt::Write>(f: &mut Formatter<W>, obround: &Obround) -> fmt::Result
    ensures { DisplaysOnOk W.write_str_gives f.old result (Some (obround_line obround.now)) f.new }
{
    if is_broad(obround) {
        let (x, y, length) = broad_line(obround);
        write_straight(f, "h", x, y, length)
    } else {
        let (x, y, length) = high_line(obround);
        write_straight(f, "v", x, y, length)
    }
}

/// Writes a pad as a part of a path.
fn write_outline<W: fmt::Write>(f: &mut Formatter<W>, pad: &Pad) -> fmt::Result
    ensures { DisplaysOnOk W.write_str_gives f.old result (Some (outline pad.now)) f.new }
{
    match pad {
        Pad::Disc(disc) => write_straight(f, "h", disc.centre().x(), down(disc.centre().y()), 0),
        Pad::Rect(rect) => write_rect(f, rect),
        Pad::Obround(obround) => write_obround(f, obround),
    }
}

/// Writes the start of the path for pads like this one.
fn write_pads_start<W: fmt::Write>(f: &mut Formatter<W>, pad: &Pad) -> fmt::Result
    ensures { DisplaysOnOk W.write_str_gives f.old result (Some (pads_start pad.now)) f.new }
{
    let line = "<path class=\"line\"";
    match pad {
        Pad::Disc(disc) => write_path_open(f, line, 2 * disc.radius()),
        Pad::Rect(_) => f.write_str("<path class=\"pad\" d=\""),
        Pad::Obround(obround) => {
            write_path_open(f, line, 2 * obround.half_x().min(obround.half_y()))
        }
    }
}

/// A pad in words, its kind and its sides along x and y: `disc 0.6x0.6`.
#[derive(Clone, Copy)]
struct PadWords<'a>(&'a Pad);

impl Display for PadWords<'_> {
    ghost output = { λ pad. Some (pad_words pad.0.now) };

    #[tactic(auto, unfolding(crate::specs::Elements::pad_words))]
    fn fmt<W: fmt::Write>(&self, f: &mut Formatter<W>) -> fmt::Result {
        let kind = match self.0 {
            Pad::Disc(_) => "disc",
            Pad::Rect(_) => "rect",
            Pad::Obround(_) => "obround",
        };
        let (width, height) = (
            ShortMillimetres(self.0.width()),
            ShortMillimetres(self.0.height()),
        );
        write!(f, "{kind} {width}x{height}")
    }
}

/// Whether a path begins at a place: at the first, and where the pad before is not like the one there.
fn begins_at(pads: &[Pad], place: usize) -> bool
    requires { place < length pads.now }
    ensures { result ≡ begins_pads pads.now place }
{
    place == 0 || !are_alike(&pads[place - 1], &pads[place])
}

/// Whether a path ends after a place: it is the last, or a path begins at the next.
fn ends_at(pads: &[Pad], place: usize) -> bool
    requires { place < length pads.now }
    ensures { result ≡ ends_pads pads.now place }
{
    place + 1 == pads.len() || begins_at(pads, place + 1)
}

/// Writes the start of the path that begins at the place of a pad, if one does.
fn write_start<W: fmt::Write>(
    f: &mut Formatter<W>,
    pads: &[Pad],
    place: usize,
    pad: &Pad,
) -> fmt::Result
    requires { place < length pads.now }
    ensures { DisplaysOnOk W.write_str_gives f.old result (Some (pads_start_at pads.now (place, pad.now))) f.new }
{
    if begins_at(pads, place) {
        write_pads_start(f, pad)
    } else {
        Ok(())
    }
}

/// Writes the end of the path that ends after the place of a pad, if one does.
fn write_end<W: fmt::Write>(
    f: &mut Formatter<W>,
    pads: &[Pad],
    place: usize,
    pad: &Pad,
) -> fmt::Result
    requires { place < length pads.now }
    ensures { DisplaysOnOk W.write_str_gives f.old result (Some (pads_end_at pads.now (place, pad.now))) f.new }
{
    if ends_at(pads, place) {
        write!(f, "\"><title>{}</title></path>\n", PadWords(pad))
    } else {
        Ok(())
    }
}

/// Writes the paths of pads: one for each run of pads alike.
pub(crate) fn write_paths<W: fmt::Write>(f: &mut Formatter<W>, pads: &[Pad]) -> fmt::Result
    ensures { DisplaysOnOk W.write_str_gives f.old result (Some (pad_paths pads.now)) f.new }
{
    for (place, pad) in pads.iter().enumerate() {
        write_start(f, pads, place, pad)?;
        write_outline(f, pad)?;
        write_end(f, pads, place, pad)?;
    }
    Ok(())
}
