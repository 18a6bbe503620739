//! The pads of a panel: plain ones, and rounded polygons, which are the shapes of macros and the contours.

ghost use Rattle.std.specs.Prelude.{◌≡◌, Some};
ghost use Rattle.std.specs.Fmt.{DisplaysOnOk};
ghost use Rattle.picture.specs.RoundedPads.{origin, pad_ink, pads_text, rounded_pad};

use crate::copper::write_shape;
use crate::pads::write_paths;
use grid_units::{Line, Lines, Point};
use pad_shapes::{Pad, Rounded};
use std::fmt;
use std::fmt::Formatter;

/// The origin of the board: the corners of a pad are measured from there.
fn origin() -> Point
    ensures { result ≡ origin }
{
    Point::new(0, 0).unwrap()
}

/// The ink of a pad: its class, and the colour of the line round its corners, if it has a radius.
fn pad_ink(pad: &Rounded) -> &'static str
    ensures { result.now ≡ pad_ink pad.now }
{
    if pad.radius() == 0 {
        "class=\"pad\""
    } else {
        "class=\"pad\" stroke=\"#d8a35d\""
    }
}

/// The elements of rounded polygons.
#[derive(Clone, Copy)]
struct PadElements;

/// The element of a pad.
impl Line<PadElements> for Rounded {
    ghost text = { λ _ pad. rounded_pad pad };

    fn fmt_on<W: fmt::Write>(&self, _page: &PadElements, f: &mut Formatter<W>) -> fmt::Result {
        write_shape(f, "<path class=\"line\"", pad_ink(self), &origin(), self)
    }
}

/// Writes all pads of a panel: the paths of the plain ones, then an element for each rounded one.
#[tactic(auto, unfolding(crate::specs::RoundedPads::pads_text))]
pub(crate) fn write_pads<W: fmt::Write>(
    f: &mut Formatter<W>,
    plain: &[Pad],
    rounded: &[Rounded],
) -> fmt::Result
    ensures { DisplaysOnOk W.write_str_gives f.old result (Some (pads_text plain.now rounded.now)) f.new }
{
    write_paths(f, plain)?;
    let rounded = Lines {
        page: &PadElements,
        lines: rounded,
    };
    write!(f, "{rounded}")
}
