//! An index of the holes of a board, to look up the holes to which a pad gives their ring.

ghost use Rattle.std.specs.Prelude.{◌≡◌, ℕ, ◌+◌, ◌<◌, ◌≤◌, IfOk, length};
ghost use Rattle.ring_rules.specs.Spots.{spot_at};
ghost use Rattle.ring_rules.specs.Search.{IsRingIndexOf};

use crate::finding::Drilled;
use crate::layout::fitting_cells;
use crate::spot_list::SpotList;
use crate::spots::Cells;
use grid_units::{Hole, Rules};
use std::alloc::{AllocError, Global};

/// The holes of a board, as the rules look them up: in cells, with a tree over them, and a reach that no hole falls short of, in pm.
#[derive(Drop)]
pub struct RingIndex {
    pub(crate) cells: Cells,
    pub(crate) least: u64,
    pub(crate) rules: Rules,
}

/// The reach that a hole asks for: its radius and the ring, in pm.
fn reach(hole: &Hole, rules: Rules) -> u64
    ensures value { result ≡ hole.now.radius + rules.ring }
    ensures bound { result ≤ 15000000000000 }
{
    (hole.radius() + rules.ring()).unsigned_abs()
}

/// A reach that each hole asks for at least, in pm.
fn least_reach(spots: &SpotList, rules: Rules) -> u64
    ensures least { (i : ℕ) → i < length spots.now → result ≤ (spot_at spots.now i).hole.radius + rules.ring }
    ensures bound { result ≤ 15000000000000 }
{
    let mut least = 15_000_000_000_000;
    for i in 0..spots.len() {
        least = reach(&spots.at(i).hole, rules).min(least);
    }
    least
}

impl RingIndex {
    /// The index of these holes, for pads on any number of layers. It is quick for pads about so wide and so high, in
    /// pm, and right for all.
    ///
    /// # Errors
    ///
    /// Where there is no memory.
    pub fn new(
        alloc: Global,
        holes: &[Drilled],
        rules: Rules,
        width: u64,
        height: u64,
    ) -> Result<RingIndex, AllocError>
        ensures index { IfOk result (IsRingIndexOf holes.now) }
        ensures rules { IfOk result (λ index. index.rules ≡ rules) }
    {
        let cells = fitting_cells(alloc, holes, width, height)?;
        let least = least_reach(&cells.spots, rules);
        Ok(RingIndex {
            cells,
            least,
            rules,
        })
    }
}
