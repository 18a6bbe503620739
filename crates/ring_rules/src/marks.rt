//! Marks of the holes that no pad has covered so far. They stand in the order of the spots.

ghost use Rattle.std.specs.Prelude.{◌≡◌, ◌<◌, ◌≤◌, ◌&&◌, false, not, length};
ghost use Rattle.ring_rules.specs.Inner.Marks.{gives_ring, gives_ring_at, RemovesMarks, NoMarkPassesFrom, HasNoMarkFrom};
ghost use Rattle.pad_shapes.specs.Holding.{covers_hole};

use crate::finding::is_refused_slot;
use crate::regions::RingSearch;
use crate::ring_index::RingIndex;
use crate::spots::Run;
use grid_units::{Hole, Rules};
use pad_shapes::PadShape;

/// Whether a pad covers a hole with the ring round it, at both ends. The pad is not asked where the first end is not
/// between its least and greatest x.
fn covers_hole<S: PadShape>(pad: &S, hole: &Hole, rules: Rules) -> bool
    ensures { result ≡ covers_hole S.covers rules.ring hole.now pad.now }
{
    let x = hole.from().x();
    pad.left() <= x && x <= pad.right() && pad_shapes::covers_hole(pad, hole, rules)
}

/// Whether a pad gives a hole its ring. No pad does so for a slot that the profile refuses.
fn gives_ring<S: PadShape>(pad: &S, hole: &Hole, rules: Rules) -> bool
    ensures { result ≡ gives_ring S.covers rules.profile rules.ring hole.now pad.now }
{
    !is_refused_slot(rules.profile(), hole) && covers_hole(pad, hole, rules)
}

/// Whether a spot keeps its mark after a pad was tried.
fn keeps_mark<S: PadShape>(index: &RingIndex, pad: &S, i: usize, mark: bool) -> bool
    requires { i < length index.now.cells.spots }
    ensures { result ≡ (mark && not (gives_ring_at S.covers index.now pad.now i)) }
{
    mark && !gives_ring(pad, &index.cells.spots.at(i).hole, index.rules)
}

impl<S: PadShape> RingSearch<'_, S> {
    /// Removes the marks of the spots of a run to whose holes the pad gives their ring, and returns whether a mark is left.
    #[inline(always)]
    pub(crate) fn try_run(&self, run: Run, marks: &mut [bool]) -> bool
        requires within { run.end ≤ length self.now.index.now.cells.spots }
        requires size { length marks.old ≡ length self.now.index.now.cells.spots }
        ensures removes { RemovesMarks (gives_ring_at S.covers self.now.index.now self.now.pad.now) marks.old marks.new }
        ensures tried { NoMarkPassesFrom (gives_ring_at S.covers self.now.index.now self.now.pad.now) run.start run.end marks.new }
        ensures none { result ≡ false → HasNoMarkFrom run.start run.end marks.new }
    {
        let (index, pad) = (self.index, self.pad);
        let mut is_left = false;
        for i in run.start..run.end {
            let keeps_mark = keeps_mark(index, pad, i, marks[i]);
            marks[i] = keeps_mark;
            is_left = is_left | keeps_mark;
        }
        is_left
    }
}
