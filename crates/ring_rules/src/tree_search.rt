//! Pads over the tree of the spots. A pad goes down only where marks are left, and only where it may cover them.

ghost use Rattle.std.specs.Prelude.{◌≡◌, ℕ, ◌<◌, ◌≤◌, Bool, List, true, false, length, IfSome};
ghost use Rattle.ring_rules.specs.Search.{IsRingIndex, AreMarksOver};
ghost use Rattle.ring_rules.specs.Inner.Marks.{gives_ring_at, RemovesMarks, HasNoMarkFrom, NoMarkPassesFrom};
ghost use Rattle.ring_rules.specs.Inner.Trees.{node_at};

use crate::regions::RingSearch;
use crate::spots::Run;
use crate::tree::{Node, first_node};
use pad_shapes::PadShape;

impl<S: PadShape> RingSearch<'_, S> {
    /// The node at an index, if there is one and it is closed.
    fn closed_node(&self, i: usize, open_nodes: &[bool]) -> Option<Node>
        requires { length open_nodes.now ≡ length self.now.index.now.cells.nodes.items }
        ensures { IfSome result (λ node. (marks : List Bool) → AreMarksOver self.now.index.now open_nodes.now marks → HasNoMarkFrom node.run.start node.run.end marks) }
    {
        if i < open_nodes.len() && !open_nodes[i] {
            Some(self.index.cells.node(i))
        } else {
            None
        }
    }

    /// Whether a mark may be left in the parts of a node.
    fn has_open(&self, i: usize, open_nodes: &[bool]) -> bool
        requires open_nodes { length open_nodes.now ≡ length self.now.index.now.cells.nodes.items }
        requires inside { i < length self.now.index.now.cells.nodes.items }
        ensures { result ≡ false → (marks : List Bool) → AreMarksOver self.now.index.now open_nodes.now marks → HasNoMarkFrom (node_at self.now.index.now.cells.nodes.items i).run.start (node_at self.now.index.now.cells.nodes.items i).run.end marks }
    {
        let node = self.index.cells.node(i);
        let Some(first) = self.closed_node(i + 1, open_nodes) else {
            return true;
        };
        let Some(second) = self.closed_node(first.end, open_nodes) else {
            return true;
        };
        node.run.start < first.run.start
            || first.run.end < second.run.start
            || second.run.end < node.run.end
    }

    /// Whether the pad gives its ring to no marked hole of a node: the node is closed, or the pad can't cover any point there.
    fn passes_over(&self, i: usize, open_nodes: &[bool]) -> bool
        requires ready { IsRingIndex self.now.index.now }
        requires open_nodes { length open_nodes.now ≡ length self.now.index.now.cells.nodes.items }
        requires inside { i < length self.now.index.now.cells.nodes.items }
        ensures { result ≡ true → (marks : List Bool) → AreMarksOver self.now.index.now open_nodes.now marks → NoMarkPassesFrom (gives_ring_at S.covers self.now.index.now self.now.pad.now) (node_at self.now.index.now.cells.nodes.items i).run.start (node_at self.now.index.now.cells.nodes.items i).run.end marks }
    {
        if !open_nodes[i] {
            return true;
        }
        let node = self.index.cells.node(i);
        !self.pad.may_cover(&node.zone, self.index.least)
    }

    /// Tries the pad at the holes of a node, and closes the node where no mark is left.
    fn try_leaf(&self, i: usize, open_nodes: &mut [bool], marks: &mut [bool])
        requires over { AreMarksOver self.now.index.now open_nodes.old marks.old }
        requires inside { i < length self.now.index.now.cells.nodes.items }
        ensures over { AreMarksOver self.now.index.now open_nodes.new marks.new }
        ensures removes { RemovesMarks (gives_ring_at S.covers self.now.index.now self.now.pad.now) marks.old marks.new }
        ensures tried { NoMarkPassesFrom (gives_ring_at S.covers self.now.index.now self.now.pad.now) (node_at self.now.index.now.cells.nodes.items i).run.start (node_at self.now.index.now.cells.nodes.items i).run.end marks.new }
    {
        let node = self.index.cells.node(i);
        let is_left = self.try_run(node.run, marks);
        open_nodes[i] = is_left;
    }

    /// Tries the pad at a node, and returns whether it is done with its holes. If not, it may give their ring to some, which are in its parts.
    fn try_node(&self, i: usize, open_nodes: &mut [bool], marks: &mut [bool]) -> bool
        requires over { AreMarksOver self.now.index.now open_nodes.old marks.old }
        requires inside { i < length self.now.index.now.cells.nodes.items }
        ensures over { AreMarksOver self.now.index.now open_nodes.new marks.new }
        ensures removes { RemovesMarks (gives_ring_at S.covers self.now.index.now self.now.pad.now) marks.old marks.new }
        ensures tried { result ≡ true → NoMarkPassesFrom (gives_ring_at S.covers self.now.index.now self.now.pad.now) (node_at self.now.index.now.cells.nodes.items i).run.start (node_at self.now.index.now.cells.nodes.items i).run.end marks.new }
    {
        if self.passes_over(i, open_nodes) {
            return true;
        }
        let node = self.index.cells.node(i);
        if node.end == i + 1 {
            self.try_leaf(i, open_nodes, marks);
            return true;
        }
        let is_open = self.has_open(i, open_nodes);
        open_nodes[i] = is_open;
        false
    }

    /// Tries the pad at a node, where all spots from some start to `done` are tried. Returns the next node, and the first spot that may not be tried.
    fn try_next(
        &self,
        i: usize,
        done: usize,
        open_nodes: &mut [bool],
        marks: &mut [bool],
    ) -> (usize, usize)
        requires over { AreMarksOver self.now.index.now open_nodes.old marks.old }
        requires inside { i < length self.now.index.now.cells.nodes.items }
        ensures more { i < result.0 }
        ensures over { AreMarksOver self.now.index.now open_nodes.new marks.new }
        ensures removes { RemovesMarks (gives_ring_at S.covers self.now.index.now self.now.pad.now) marks.old marks.new }
        ensures tried { (start : ℕ) → NoMarkPassesFrom (gives_ring_at S.covers self.now.index.now self.now.pad.now) start done marks.old → NoMarkPassesFrom (gives_ring_at S.covers self.now.index.now self.now.pad.now) start result.1 marks.new }
    {
        let node = self.index.cells.node(i);
        if done < node.run.start {
            return (self.index.cells.nodes.len(), done);
        }
        if node.run.end <= done {
            return (node.end, done);
        }
        if self.try_node(i, open_nodes, marks) {
            return (node.end, node.run.end);
        }
        (i + 1, done)
    }

    /// Tries the pad at the holes of a run: one after the other where they are few, else down the tree.
    // In line, as what it calls: most pads lie over a cell or two, with few holes.
    #[inline(always)]
    pub(crate) fn try_tree(&self, run: Run, open_nodes: &mut [bool], marks: &mut [bool])
        requires over { AreMarksOver self.now.index.now open_nodes.old marks.old }
        requires within { run.end ≤ length self.now.index.now.cells.spots }
        ensures over { AreMarksOver self.now.index.now open_nodes.new marks.new }
        ensures removes { RemovesMarks (gives_ring_at S.covers self.now.index.now self.now.pad.now) marks.old marks.new }
        ensures tried { NoMarkPassesFrom (gives_ring_at S.covers self.now.index.now self.now.pad.now) run.start run.end marks.new }
    {
        let mut i = first_node(&self.index.cells.nodes, run);
        let mut done = run.start;
        while i < self.index.cells.nodes.len() && done < run.end {
            let next = self.try_next(i, done, open_nodes, marks);
            i = next.0;
            done = next.1;
        }
        let end = run.end;
        let _ = self.try_run(Run { start: done, end }, marks);
    }
}
