//! A tree over the spots of a grid: all of them, their halves, and so on. Each node has the least box round its spots.

ghost use Rattle.std.specs.Prelude.{◌≡◌, ◌+◌, ◌<◌, ◌≤◌, IfOk, OnOk, length};
ghost use Rattle.ring_rules.specs.Inner.Trees.{HoldsRun, node_at, AreNodes};

use crate::cells::place;
use crate::layout::{joined, no_zone, zone_at};
use crate::spot_list::SpotList;
use crate::spots::{Cells, FEW_SPOTS, Run};
use pad_shapes::Zone;
use std::alloc::{AllocError, Global};

/// A run of spots, a zone that contains their entry points, and the index after the last of its parts, which follow it in the list.
/// A leaf has none.
#[derive(Clone, Copy)]
pub(crate) struct Node {
    pub run: Run,
    pub zone: Zone,
    pub end: usize,
}

/// Where to begin in a tree for the spots of a run: at the last node that begins where it begins, or before; past the end where they are
/// few, so that they are looked at one by one. Any answer is right: only the time depends on it.
pub(crate) fn first_node(nodes: &[Node], run: Run) -> usize {
    if run.end.saturating_sub(run.start) <= FEW_SPOTS {
        return nodes.len();
    }
    if run.start == 0 {
        return 0;
    }
    nodes
        .partition_point(|node| node.run.start <= run.start)
        .saturating_sub(1)
}

/// The least zone that contains the entry points of the spots of a run.
fn zone_of(spots: &SpotList, run: Run) -> Zone
    requires { run.end ≤ length spots.now }
    ensures { HoldsRun spots.now run result }
{
    let mut zone = no_zone();
    for i in run.start..run.end {
        zone = joined(zone, zone_at(spots.point(i)));
    }
    zone
}

/// The cell in the middle of a run: the first one of a row, where the run has spots of several rows. Any answer is right.
fn middle_cell(cells: &Cells, run: Run) -> usize
    requires start { run.start < run.end }
    requires within { run.end ≤ length cells.now.spots }
{
    let first = cells.spots.point(run.start);
    let last = cells.spots.point(run.end - 1);
    let (top, row) = (place(&cells.y, first.y()), place(&cells.y, last.y()));
    let width = cells.x.last + 1;
    if top < row {
        return ((top + row + 1) / 2).wrapping_mul(width);
    }
    let columns = place(&cells.x, first.x()) + place(&cells.x, last.x());
    row.wrapping_mul(width).wrapping_add((columns + 1) / 2)
}

/// Where a run is parted: between two rows, else between two cells, else in the middle.
fn parting(cells: &Cells, run: Run) -> usize
    requires start { run.start + 1 < run.end }
    requires within { run.end ≤ length cells.now.spots }
    ensures more { run.start < result }
    ensures less { result < run.end }
{
    if let Some(start) = cells.starts.get(middle_cell(cells, run)) {
        let start = *start as usize;
        if run.start < start && start < run.end {
            return start;
        }
    }
    run.start + (run.end - run.start) / 2
}

/// Appends a leaf with the spots of a run, and returns a zone that contains their entry points.
fn push_leaf(cells: &Cells, nodes: &mut Vec<Node>, run: Run) -> Result<Zone, AllocError>
    requires within { run.end ≤ length cells.now.spots }
    requires nodes { AreNodes cells.now.spots nodes.old.items }
    ensures longer { OnOk result (length nodes.old.items < length nodes.new.items) }
    ensures nodes { OnOk result (AreNodes cells.now.spots nodes.new.items) }
    ensures zone { IfOk result (HoldsRun cells.now.spots run) }
{
    let zone = zone_of(&cells.spots, run);
    let at = nodes.len();
    let end = at + 1;
    nodes.push(Node { run, zone, end })?;
    Ok(zone)
}

/// Appends the tree of a run, and returns such a zone.
fn push_tree(cells: &Cells, nodes: &mut Vec<Node>, run: Run) -> Result<Zone, AllocError>
    requires within { run.end ≤ length cells.now.spots }
    requires nodes { AreNodes cells.now.spots nodes.old.items }
    ensures longer { OnOk result (length nodes.old.items < length nodes.new.items) }
    ensures nodes { OnOk result (AreNodes cells.now.spots nodes.new.items) }
    ensures zone { IfOk result (HoldsRun cells.now.spots run) }
{
    if run.end.saturating_sub(run.start) <= FEW_SPOTS {
        return push_leaf(cells, nodes, run);
    }
    let at = nodes.len();
    nodes.push(Node {
        run: Run { start: 0, end: 0 },
        zone: no_zone(),
        end: at + 1,
    })?;
    let middle = parting(cells, run);
    let first = push_tree(cells, nodes, Run { end: middle, ..run })?;
    let second = push_tree(
        cells,
        nodes,
        Run {
            start: middle,
            ..run
        },
    )?;
    let zone = joined(first, second);
    let end = nodes.len();
    nodes[at] = Node { run, zone, end };
    Ok(zone)
}

/// The tree of all spots.
pub(crate) fn tree_of(alloc: Global, cells: &Cells) -> Result<Vec<Node>, AllocError>
    ensures { IfOk result (λ nodes. AreNodes cells.now.spots nodes.items) }
{
    let mut nodes = Vec::new(alloc);
    let end = cells.spots.len();
    let _ = push_tree(cells, &mut nodes, Run { start: 0, end })?;
    Ok(nodes)
}

impl Cells {
    /// The node of the tree at an index.
    pub(crate) fn node(&self, i: usize) -> Node
        requires { i < length self.now.nodes.items }
        ensures { result ≡ node_at self.now.nodes.items i }
    {
        self.nodes[i]
    }
}
