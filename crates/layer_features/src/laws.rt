//! Laws of further copper. Calling a law does nothing but give its clause.

ghost use Rattle.layer_features.specs.CopperLaws.{ContoursAreInsideEdges, FlashedShapesAreInPrimitives, LegalWidePads, UnclearedPositions, WidePadsAreUnique};

use macro_shapes::laws::shape_is_in_primitives;
use pad_shapes::laws::polygon_is_left_of_edges;

/// Each point of the pad of a macro is where the flash puts a point of one of the macro's primitives, which are all dark.
pub fn flashed_shapes_are_in_primitives()
    ensures { FlashedShapesAreInPrimitives }
{
    shape_is_in_primitives();
}

/// The points of the pad of a contour are those that lie to the right of none of its edges.
pub fn contours_are_inside_edges()
    ensures { ContoursAreInsideEdges }
{
    polygon_is_left_of_edges();
}

/// A position counts just where all is taken away neither there nor later.
pub fn uncleared_positions()
    ensures { UnclearedPositions }
{}

/// The pads among the flashes and contours of a legal list are the pads that its commands make in the wide profile. Commands make at most one such list.
pub fn wide_pads()
    ensures legal { LegalWidePads }
    ensures unique { WidePadsAreUnique }
{}
