//! Laws of what a board meets. A call of one does nothing; its clause is what is proved.

ghost use Rattle.board.specs.Meets.{RingsPassExactly, GapsPassExactly};
ghost use Rattle.board.specs.Rows.{RowRingsAreRings};

use crate::deep::DepthShape;

/// The rings that a board meets are just those under which nothing is found of rings.
pub fn rings_pass<S: DepthShape>()
    ensures { RingsPassExactly S.covers }
{}

/// The gaps that a board meets are just those under which nothing is found of gaps.
pub fn gaps_pass()
    ensures { GapsPassExactly }
{}

/// The ring that is computed from the best pad of a hole is its ring among the pads of the layer.
pub fn row_rings_are_rings<S: DepthShape>()
    ensures { RowRingsAreRings S.covers }
{}
