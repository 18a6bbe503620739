//! The outline of the board, in a picture: what a file of the board's edge draws. Coordinates are in pm.

ghost use Rattle.std.specs.Prelude.{◌≡◌, Some};
ghost use Rattle.std.specs.Fmt.{DisplaysOnOk};
ghost use Rattle.picture.specs.Outlines.{contour_path, edge_path, edge_text, long_radius, outline_text, shown_outline};

use crate::copper::{Contours, arc_radius, is_large, write_edge_arc};
use crate::elements::write_edge;
use crate::frame::Pen;
use crate::scene::shown_copper;
use grid_units::{Line, Lines, Point, ShortMillimetres};
use pad_shapes::Drawn;
use std::fmt;
use std::fmt::Formatter;

/// What is shown of the parts of an outline: all of them, or nothing where they are more than 100,000.
pub fn shown_outline(parts: &[Drawn]) -> &[Drawn]
    ensures { result.now ≡ shown_outline parts.now }
{
    shown_copper(false, parts)
}

/// The radius of an arc that is half a circle or longer, in pm; `None` of a shorter one, which lies nearer to its ends. Where both ends
/// are one point the arc is a full circle.
pub fn long_radius(from: &Point, to: &Point, centre: &Point, clockwise: bool) -> Option<u64>
    ensures { result ≡ long_radius from.now to.now centre.now clockwise }
{
    if is_large(to, from, centre, clockwise) {
        None
    } else {
        Some(arc_radius(from, centre).unsigned_abs())
    }
}

/// The lines and arcs of an outline, as parts of a path.
#[derive(Clone, Copy)]
struct OutlineEdges;

/// A line or an arc of an outline; nothing of a flash or a contour.
impl Line<OutlineEdges> for Drawn {
    ghost text = { λ _ part. edge_text part };

    fn fmt_on<W: fmt::Write>(&self, _page: &OutlineEdges, f: &mut Formatter<W>) -> fmt::Result {
        match self {
            Drawn::Line { from, to, .. } => write_edge(f, from, to),
            Drawn::Arc {
                from,
                to,
                centre,
                clockwise,
                ..
            } => write_edge_arc(f, from, to, centre, *clockwise),
            Drawn::Flash { .. } | Drawn::Contour(_) | Drawn::Corner(_) | Drawn::Bend { .. } => {
                Ok(())
            }
        }
    }
}

/// Writes the start of the group of an outline, and its lines and arcs.
#[tactic(auto, unfolding(crate::specs::Outlines::outline_start))]
fn write_edge_path<W: fmt::Write>(f: &mut Formatter<W>, pen: &Pen, parts: &[Drawn]) -> fmt::Result
    ensures { DisplaysOnOk W.write_str_gives f.old result (Some (edge_path pen.now parts.now)) f.new }
{
    let width = ShortMillimetres((pen.unit / 10) as i64);
    let edges = Lines {
        page: &OutlineEdges,
        lines: parts,
    };
    write!(
        f,
        "<g class=\"outline\" fill=\"none\" stroke=\"#222\" stroke-width=\"{width}\"><title>outline</title>\n<path stroke-linecap=\"round\" d=\"{edges}"
    )
}

/// Writes the contours of an outline, and the end of its group.
fn write_contour_path<W: fmt::Write>(f: &mut Formatter<W>, parts: &[Drawn]) -> fmt::Result
    ensures { DisplaysOnOk W.write_str_gives f.old result (Some (contour_path parts.now)) f.new }
{
    let contours = Lines {
        page: &Contours { before: "z" },
        lines: parts,
    };
    write!(
        f,
        "\"/>\n<path stroke-linejoin=\"round\" d=\"M0 0{contours}z\"/>\n</g>\n"
    )
}

/// Writes the outline of the board: a group of its lines and arcs, and of its contours; nothing where it has no part.
#[tactic(auto, unfolding(crate::specs::Outlines::outline_text))]
pub(crate) fn write_outline<W: fmt::Write>(
    f: &mut Formatter<W>,
    pen: &Pen,
    parts: &[Drawn],
) -> fmt::Result
    ensures { DisplaysOnOk W.write_str_gives f.old result (Some (outline_text pen.now parts.now)) f.new }
{
    if parts.is_empty() {
        return Ok(());
    }
    write_edge_path(f, pen, parts)?;
    write_contour_path(f, parts)
}
