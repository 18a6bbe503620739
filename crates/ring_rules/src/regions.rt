//! Pads at the cells of a region of a grid.

ghost use Rattle.std.specs.Prelude.{◌+◌, ◌≤◌};
ghost use Rattle.grid_units.specs.Points.{GridPoint};
ghost use Rattle.pad_shapes.specs.Zones.{IsInZone};
ghost use Rattle.ring_rules.specs.Search.{AreMarksOver};
ghost use Rattle.ring_rules.specs.Inner.Marks.{gives_ring_at, RemovesMarks};
ghost use Rattle.ring_rules.specs.Inner.Regions.{IsInRegion, NoMarkPassesIn};

use crate::cell_size::Axis;
use crate::cells::place;
use crate::ring_index::RingIndex;
use pad_shapes::{PadShape, Zone};

/// A region of a grid: rows from `top` to `bottom` and columns from `left` to `right`, ends excluded.
#[derive(Clone, Copy)]
pub(crate) struct Region {
    pub top: usize,
    pub bottom: usize,
    pub left: usize,
    pub right: usize,
}

/// A search for the holes of an index to which a pad gives their ring.
#[derive(Drop)]
pub(crate) struct RingSearch<'a, S> {
    pub index: &'a RingIndex,
    pub pad: &'a S,
}

/// The rows and columns where the points of a zone lie.
pub(crate) fn region_of(x: &Axis, y: &Axis, zone: &Zone) -> Region
    ensures holds { (p : GridPoint) → IsInZone zone.now p → IsInRegion x.now y.now result.top result.bottom result.left result.right p }
    ensures bottom { result.bottom ≤ y.now.last + 1 }
    ensures left { result.left ≤ x.now.last + 1 }
    ensures right { result.right ≤ x.now.last + 1 }
{
    let (top, last_row) = (place(y, zone.bottom), place(y, zone.top));
    let (left, last_column) = (place(x, zone.left), place(x, zone.right));
    Region {
        top,
        bottom: last_row + 1,
        left,
        right: last_column + 1,
    }
}

impl<S: PadShape> RingSearch<'_, S> {
    /// Tries the pad at the holes of a row, in columns from `left` to `right`, end excluded.
    fn try_row(
        &self,
        row: usize,
        left: usize,
        right: usize,
        open_nodes: &mut [bool],
        marks: &mut [bool],
    )
        requires over { AreMarksOver self.now.index.now open_nodes.old marks.old }
        requires row { row ≤ self.now.index.now.cells.y.last }
        requires left { left ≤ self.now.index.now.cells.x.last + 1 }
        requires right { right ≤ self.now.index.now.cells.x.last + 1 }
        ensures over { AreMarksOver self.now.index.now open_nodes.new marks.new }
        ensures removes { RemovesMarks (gives_ring_at S.covers self.now.index.now self.now.pad.now) marks.old marks.new }
        ensures tried { NoMarkPassesIn (gives_ring_at S.covers self.now.index.now self.now.pad.now) self.now.index.now.cells.x self.now.index.now.cells.y self.now.index.now.cells.spots row (row + 1) left right marks.new }
    {
        let run = self.index.cells.run(row, left, right);
        self.try_tree(run, open_nodes, marks);
    }

    /// Tries the pad at the holes of a region row by row.
    pub(crate) fn try_rows(&self, region: Region, open_nodes: &mut [bool], marks: &mut [bool])
        requires over { AreMarksOver self.now.index.now open_nodes.old marks.old }
        requires bottom { region.bottom ≤ self.now.index.now.cells.y.last + 1 }
        requires left { region.left ≤ self.now.index.now.cells.x.last + 1 }
        requires right { region.right ≤ self.now.index.now.cells.x.last + 1 }
        ensures over { AreMarksOver self.now.index.now open_nodes.new marks.new }
        ensures removes { RemovesMarks (gives_ring_at S.covers self.now.index.now self.now.pad.now) marks.old marks.new }
        ensures tried { NoMarkPassesIn (gives_ring_at S.covers self.now.index.now self.now.pad.now) self.now.index.now.cells.x self.now.index.now.cells.y self.now.index.now.cells.spots region.top region.bottom region.left region.right marks.new }
    {
        for row in region.top..region.bottom {
            self.try_row(row, region.left, region.right, open_nodes, marks);
        }
    }
}
