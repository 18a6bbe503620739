//! The box of the board, and a picture that is cut there.

ghost use Rattle.std.specs.Prelude.{Some, neg_ℤ};
ghost use Rattle.std.specs.Fmt.{DisplaysOnOk};
ghost use Rattle.picture.specs.Copper.{cut_at, frame_start, view_box};

use crate::elements::down;
use crate::frame::Frame;
use grid_units::ShortMillimetres;
use std::fmt;
use std::fmt::Formatter;

/// Writes the start of an element with the box of the board, after its first words: `<rect class="board" x="1.4" y="-88.6" width="107.2" height="87.2`.
#[tactic(auto, unfolding(crate::specs::Copper::box_start))]
pub(crate) fn write_box_start<W: fmt::Write>(
    f: &mut Formatter<W>,
    element: &str,
    frame: &Frame,
) -> fmt::Result
    ensures { DisplaysOnOk W.write_str_gives f.old result (Some (frame_start element.now frame.now)) f.new }
{
    let (x, y) = (
        ShortMillimetres(frame.left),
        ShortMillimetres(down(frame.top)),
    );
    let (width, height) = (
        ShortMillimetres(frame.width),
        ShortMillimetres(frame.height),
    );
    write!(
        f,
        "{element} x=\"{x}\" y=\"{y}\" width=\"{width}\" height=\"{height}"
    )
}

/// Writes the part of the board that such a picture shows, by its box.
#[tactic(auto, unfolding(crate::specs::Copper::view_box))]
fn write_view_box<W: fmt::Write>(f: &mut Formatter<W>, frame: &Frame) -> fmt::Result
    ensures { DisplaysOnOk W.write_str_gives f.old result (Some (view_box frame.now.left (neg_ℤ frame.now.top) frame.now.width frame.now.height)) f.new }
{
    let (x, y) = (
        ShortMillimetres(frame.left),
        ShortMillimetres(down(frame.top)),
    );
    let (width, height) = (
        ShortMillimetres(frame.width),
        ShortMillimetres(frame.height),
    );
    write!(f, "\" viewBox=\"{x} {y} {width} {height}")
}

/// Writes the start of a picture within the panel that shows the box of the board where it stands. All beyond the box is cut.
pub(crate) fn write_cut<W: fmt::Write>(f: &mut Formatter<W>, frame: &Frame) -> fmt::Result
    ensures { DisplaysOnOk W.write_str_gives f.old result (Some (cut_at frame.now)) f.new }
{
    write_box_start(f, "<svg class=\"drawn\"", frame)?;
    write_view_box(f, frame)
}
