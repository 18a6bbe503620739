//! The holes of a board in the order of their cells, so that what is near on the board is near in memory.

ghost use Rattle.std.specs.Prelude.{◌≡◌, ℕ, [], ◌+◌, ◌*◌, ◌<◌, ◌≤◌, IfOk, OnOk, length, get_or};
ghost use Rattle.ring_rules.specs.Places.{IsChained};
ghost use Rattle.ring_rules.specs.Cells.{cell_of, cell_at};
ghost use Rattle.ring_rules.specs.Spots.{point_at, HasSpot, AreSpotsOf, AreInCells};
ghost use Rattle.ring_rules.specs.Inner.Regions.{IsInRegion, IsLaidOut};
ghost use Rattle.ring_rules.specs.Inner.SpotLists.{AddsSpots, AreSpotted};

use crate::cell_size::Axis;
use crate::cells::{Chains, link_at, narrow};
use crate::finding::Drilled;
use crate::spot_list::SpotList;
use crate::tree::Node;
use grid_units::Hole;
use std::alloc::{AllocError, Global};

/// The most spots that are tried one by one, without the tree, and that a leaf of the tree has.
pub(crate) const FEW_SPOTS: usize = 16;

/// A hole, and its place in the list.
#[derive(Clone, Copy)]
pub(crate) struct Spot {
    pub hole: Hole,
    pub place: usize,
}

/// The holes of a board in the order of their cells, and a tree over them. Those of a cell begin at its start, and end at that of the
/// next one. Where they are many, what is near stands together there, so that the leaves of the tree are small.
#[derive(Drop)]
pub(crate) struct Cells {
    pub x: Axis,
    pub y: Axis,
    pub starts: Vec<u32>,
    pub spots: SpotList,
    pub nodes: Vec<Node>,
}

/// Spots that follow each other, from `start` to `end`, the end excluded.
#[derive(Clone, Copy)]
pub(crate) struct Run {
    pub start: usize,
    pub end: usize,
}

impl Cells {
    /// The spots of a row, in columns from `left` to `right`, end excluded.
    pub(crate) fn run(&self, row: usize, left: usize, right: usize) -> Run
        requires cells { AreInCells self.now.x self.now.y self.now.starts.items self.now.spots }
        requires row { row ≤ self.now.y.last }
        requires left { left ≤ self.now.x.last + 1 }
        requires right { right ≤ self.now.x.last + 1 }
        ensures start { result.start ≡ get_or self.now.starts.items (row * (self.now.x.last + 1) + left) 0 }
        ensures end { result.end ≡ get_or self.now.starts.items (row * (self.now.x.last + 1) + right) 0 }
        ensures within { result.end ≤ length self.now.spots }
        ensures holds { (i : ℕ) → i < length self.now.spots → IsInRegion self.now.x self.now.y row (row + 1) left right (point_at self.now.spots i) → (result.start ≤ i) × (i < result.end) }
    {
        let first = row * (self.x.last + 1);
        Run {
            start: self.starts[first + left] as usize,
            end: self.starts[first + right] as usize,
        }
    }
}

/// Appends the spots of a cell, along its chain.
fn push_chain(
    chains: &Chains,
    holes: &[Drilled],
    cell: usize,
    spots: &mut SpotList,
) -> Result<(), AllocError>
    requires { IsChained (cell_at chains.now.x chains.now.y holes.now) (length holes.now) chains.now.head.items chains.now.next.items }
    ensures adds { OnOk result (AddsSpots (cell_of chains.now.x chains.now.y) holes.now cell spots.old spots.new) }
    ensures all { OnOk result ((k : ℕ) → k < length holes.now → cell_at chains.now.x chains.now.y holes.now k ≡ cell → HasSpot spots.new k) }
{
    let mut link = link_at(&chains.head, cell);
    while link > 0 {
        let place = link - 1;
        let hole = holes[place].hole;
        spots.push(Spot { hole, place })?;
        link = link_at(&chains.next, place);
    }
    Ok(())
}

/// Appends the spots of a cell. Where they are many, what is near is put together.
fn push_cell(
    chains: &Chains,
    holes: &[Drilled],
    cell: usize,
    spots: &mut SpotList,
) -> Result<(), AllocError>
    requires { IsChained (cell_at chains.now.x chains.now.y holes.now) (length holes.now) chains.now.head.items chains.now.next.items }
    ensures all { OnOk result ((k : ℕ) → k < length holes.now → cell_at chains.now.x chains.now.y holes.now k ≡ cell → HasSpot spots.new k) }
    ensures adds { OnOk result (AddsSpots (cell_of chains.now.x chains.now.y) holes.now cell spots.old spots.new) }
{
    let start = spots.len();
    push_chain(chains, holes, cell, spots)?;
    if FEW_SPOTS < spots.len().saturating_sub(start) {
        spots.group_from(start);
    }
    Ok(())
}

/// Appends the spots of all cells, and the start of the cell after each.
fn push_cells(
    chains: &Chains,
    holes: &[Drilled],
    starts: &mut Vec<u32>,
    spots: &mut SpotList,
) -> Result<(), AllocError>
    requires chained { IsChained (cell_at chains.now.x chains.now.y holes.now) (length holes.now) chains.now.head.items chains.now.next.items }
    requires starts { starts.old.items ≡ [] }
    requires spots { spots.old ≡ [] }
    ensures { OnOk result (AreSpotted (cell_of chains.now.x chains.now.y) holes.now (length chains.now.head.items) starts.new.items spots.new) }
{
    starts.push(0)?;
    for cell in 0..chains.head.len() {
        push_cell(chains, holes, cell, spots)?;
        let start = narrow(spots.len())?;
        starts.push(start)?;
    }
    Ok(())
}

/// The holes of chains in the order of their cells, without a tree so far.
pub(crate) fn spotted(alloc: Global, chains: Chains, holes: &[Drilled]) -> Result<Cells, AllocError>
    requires { IsLaidOut chains.x chains.y chains.head.items chains.next.items holes.now }
    ensures cells { IfOk result (λ cells. AreInCells cells.x cells.y cells.starts.items cells.spots) }
    ensures listed { IfOk result (λ cells. AreSpotsOf holes.now cells.spots) }
{
    let mut starts = Vec::with_capacity(alloc, chains.head.len() + 1)?;
    let mut spots = SpotList::with_capacity(alloc, holes.len())?;
    push_cells(&chains, holes, &mut starts, &mut spots)?;
    Ok(Cells {
        x: chains.x,
        y: chains.y,
        starts,
        spots,
        nodes: Vec::new(alloc),
    })
}
