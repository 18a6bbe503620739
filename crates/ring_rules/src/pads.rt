//! The pads of a layer at the holes of an index.

ghost use Rattle.std.specs.Prelude.{◌≡◌, ℕ, ◌+◌, ◌<◌, ◌≤◌, ◌&&◌, true, false, not, length};
ghost use Rattle.std.specs.List.{list_any};
ghost use Rattle.grid_units.specs.Points.{GridPoint};
ghost use Rattle.ring_rules.specs.Spots.{spot_at};
ghost use Rattle.ring_rules.specs.Search.{AreMarksOver};
ghost use Rattle.ring_rules.specs.Inner.Marks.{gives_ring, gives_ring_at, is_marked, RemovesMarks};
ghost use Rattle.ring_rules.specs.Inner.Regions.{IsInRegion};

use crate::cell_size::Axis;
use crate::cells::place;
use crate::regions::{Region, RingSearch, region_of};
use crate::ring_index::RingIndex;
use crate::spots::Run;
use pad_shapes::PadShape;

/// The most cells of a range that are tried one by one.
const FEW: usize = 24;

/// A region where a pad may cover holes, and whether it is a strip. A pad without a zone has strips of all rows.
#[derive(Clone, Copy)]
struct CellRange {
    region: Region,
    is_strip: bool,
}

/// The rows and columns where a pad may cover a centre with at least this reach.
fn range_of<S: PadShape>(x: &Axis, y: &Axis, pad: &S, least: u64) -> CellRange
    requires { least ≤ 15000000000000 }
    ensures holds { (p : GridPoint) (r : ℕ) → least ≤ r → S.covers pad.now p r ≡ true → IsInRegion x.now y.now result.region.top result.region.bottom result.region.left result.region.right p }
    ensures bottom { result.region.bottom ≤ y.now.last + 1 }
    ensures left { result.region.left ≤ x.now.last + 1 }
    ensures right { result.region.right ≤ x.now.last + 1 }
{
    match pad.zone(least) {
        Some(zone) => CellRange {
            region: region_of(x, y, &zone),
            is_strip: false,
        },
        None => {
            let left = place(x, pad.left());
            let last_column = place(x, pad.right());
            CellRange {
                region: Region {
                    top: 0,
                    bottom: y.last + 1,
                    left,
                    right: last_column + 1,
                },
                is_strip: true,
            }
        }
    }
}

/// Whether the cells of a range are tried one by one: they are few, or a strip.
fn is_small(range: CellRange) -> bool {
    let region = range.region;
    let rows = region.bottom.saturating_sub(region.top);
    let columns = region.right.saturating_sub(region.left);
    range.is_strip || rows.saturating_mul(columns) <= FEW
}

impl<S: PadShape> RingSearch<'_, S> {
    /// Removes the marks of the holes to which the pad gives their ring: it covers no hole outside its range.
    fn try_pad(&self, open_nodes: &mut [bool], marks: &mut [bool])
        requires { AreMarksOver self.now.index.now open_nodes.old marks.old }
        ensures over { AreMarksOver self.now.index.now open_nodes.new marks.new }
        ensures removes { RemovesMarks (gives_ring_at S.covers self.now.index.now self.now.pad.now) marks.old marks.new }
        ensures tried { (i : ℕ) → i < length self.now.index.now.cells.spots → is_marked marks.new i ≡ true → gives_ring_at S.covers self.now.index.now self.now.pad.now i ≡ false }
    {
        let index = self.index;
        let range = range_of(&index.cells.x, &index.cells.y, self.pad, index.least);
        if is_small(range) {
            self.try_rows(range.region, open_nodes, marks);
        } else {
            let end = index.cells.spots.len();
            self.try_tree(Run { start: 0, end }, open_nodes, marks);
        }
    }
}

/// Removes the marks of the holes to which one of the pads gives their ring.
pub(crate) fn try_pads<S: PadShape>(
    index: &RingIndex,
    pads: &[S],
    open_nodes: &mut [bool],
    marks: &mut [bool],
)
    requires { AreMarksOver index.now open_nodes.old marks.old }
    ensures over { AreMarksOver index.now open_nodes.new marks.new }
    ensures marked { (i : ℕ) → i < length index.now.cells.spots → is_marked marks.new i ≡ (is_marked marks.old i && not (list_any (gives_ring S.covers index.now.rules.profile index.now.rules.ring (spot_at index.now.cells.spots i).hole) pads.now)) }
{
    for pad in pads {
        let search = RingSearch { index, pad };
        search.try_pad(open_nodes, marks);
    }
}
