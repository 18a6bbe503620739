//! The extent of a board's outline.

ghost use Rattle.std.specs.Prelude.{◌≡◌, ◌∷◌, []};
ghost use Rattle.std.specs.List.{fold};
ghost use Rattle.drawing.specs.Boxes.{arc_extents, edge_extents, end_extent, joined_to, outlined_extent};

use crate::extent::{Extent, extent_round, joined_to};
use grid_units::Point;
use pad_shapes::Drawn;
use picture::long_radius;

/// Ten metres in pm: no more of the radius of an arc counts.
const RADIUS_LIMIT: u64 = 10_000_000_000_000;

/// The extent of an end: its point.
fn end_extent(at: &Point) -> Extent
    ensures { result ≡ end_extent at.now }
{
    extent_round(*at, 0, 0)
}

/// The extent so far, joined with two points.
fn with_ends(before: Option<Extent>, from: &Point, to: &Point) -> Option<Extent>
    ensures { result ≡ fold joined_to before (end_extent from.now ∷ end_extent to.now ∷ []) }
{
    joined_to(joined_to(before, end_extent(from)), end_extent(to))
}

/// The extent so far, joined with that of an arc: both ends, and where it is half a circle or longer also its whole circle.
fn with_arc(
    before: Option<Extent>,
    from: &Point,
    to: &Point,
    centre: &Point,
    clockwise: bool,
) -> Option<Extent>
    ensures { result ≡ fold joined_to before (arc_extents from.now to.now centre.now clockwise) }
{
    let ends = with_ends(before, from, to);
    match long_radius(from, to, centre, clockwise) {
        Some(radius) => {
            let far = radius.min(RADIUS_LIMIT);
            joined_to(ends, extent_round(*centre, far, far))
        }
        None => ends,
    }
}

/// The extent so far, joined with that of a part of an outline.
fn with_part(before: Option<Extent>, part: &Drawn) -> Option<Extent>
    ensures { result ≡ fold joined_to before (edge_extents part.now) }
{
    match part {
        Drawn::Line { from, to, .. } => with_ends(before, from, to),
        Drawn::Arc {
            from,
            to,
            centre,
            clockwise,
            ..
        }
        | Drawn::Bend {
            from,
            to,
            centre,
            clockwise,
        } => with_arc(before, from, to, centre, *clockwise),
        Drawn::Corner(at) => joined_to(before, end_extent(at)),
        Drawn::Flash { .. } | Drawn::Contour(_) => before,
    }
}

/// The extent of a board, if it has one, joined with those of the parts of its outline.
pub(crate) fn with_edge(before: Option<Extent>, outline: &[Drawn]) -> Option<Extent>
    ensures { result ≡ outlined_extent before outline.now }
{
    let mut all = before;
    for part in outline {
        all = with_part(all, part);
    }
    all
}
