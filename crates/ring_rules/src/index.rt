//! An index of holes by their entry points, to find the holes in a zone.

ghost use Rattle.std.specs.Prelude.{◌≡◌, ℕ, ◌+◌, ◌<◌, ◌≤◌, ◌≤ℤ◌, true, length, get_or, IfOk, OnOk};
ghost use Rattle.grid_units.specs.Points.{GridPoint};
ghost use Rattle.std.specs.List.{All, Contains};
ghost use Rattle.pad_shapes.specs.Zones.{IsInZone};
ghost use Rattle.ring_rules.specs.Places.{entry_at};
ghost use Rattle.ring_rules.specs.Spots.{spot_at, point_at};
ghost use Rattle.ring_rules.specs.Inner.Regions.{IsInRegion};
ghost use Rattle.ring_rules.specs.Index.{IsIndexOf, IsEntryInZone};
ghost use Rattle.ring_rules.specs.Inner.Trees.{AreReady};
ghost use Rattle.ring_rules.specs.Inner.FoundPlaces.{IsSpotInZone, AddsFound, ListsFound};

use crate::finding::Drilled;
use crate::layout::fitting_cells;
use crate::regions::{Region, region_of};
use crate::spot_list::SpotList;
use crate::spots::{Cells, Run};
use crate::tree::first_node;
use grid_units::Point;
use pad_shapes::Zone;
use std::alloc::{AllocError, Global};

/// The holes of a list by their entry points: the first end of a slot, the centre of a round hole. A hole is named by
/// its place in the list, from 0.
#[derive(Drop)]
pub struct HoleIndex {
    pub(crate) cells: Cells,
}

/// Whether a point lies between the left and the right of a zone.
fn is_across(zone: &Zone, at: Point) -> bool
    ensures inside { result ≡ true → (zone.now.left ≤ℤ at.x) × (at.x ≤ℤ zone.now.right) }
    ensures outside { IsInZone zone.now at → result ≡ true }
{
    zone.left <= at.x() && at.x() <= zone.right
}

/// Whether a point lies between the bottom and the top of a zone.
fn is_along(zone: &Zone, at: Point) -> bool
    ensures inside { result ≡ true → (zone.now.bottom ≤ℤ at.y) × (at.y ≤ℤ zone.now.top) }
    ensures outside { IsInZone zone.now at → result ≡ true }
{
    zone.bottom <= at.y() && at.y() <= zone.top
}

/// Whether a point lies in a zone.
fn is_in_zone(zone: &Zone, at: Point) -> bool
    ensures inside { result ≡ true → IsInZone zone.now at }
    ensures outside { IsInZone zone.now at → result ≡ true }
{
    is_across(zone, at) && is_along(zone, at)
}

/// Appends the index of a spot, where its entry point lies in the zone.
fn add_spot(
    spots: &SpotList,
    zone: &Zone,
    i: usize,
    found: &mut Vec<usize>,
) -> Result<(), AllocError>
    requires { i < length spots.now }
    ensures adds { OnOk result (AddsFound spots.now zone.now found.old.items found.new.items) }
    ensures listed { OnOk result (ListsFound spots.now zone.now i found.new.items) }
{
    if is_in_zone(zone, spots.point(i)) {
        found.push(i)?;
    }
    Ok(())
}

/// Appends the indices of the spots of a run with their entry point in the zone.
fn add_run(
    spots: &SpotList,
    zone: &Zone,
    run: Run,
    found: &mut Vec<usize>,
) -> Result<(), AllocError>
    requires { run.end ≤ length spots.now }
    ensures adds { OnOk result (AddsFound spots.now zone.now found.old.items found.new.items) }
    ensures listed { OnOk result ((i : ℕ) → run.start ≤ i → i < run.end → ListsFound spots.now zone.now i found.new.items) }
{
    for i in run.start..run.end {
        add_spot(spots, zone, i, found)?;
    }
    Ok(())
}

/// Whether no point lies in both zones.
fn are_disjoint(a: &Zone, b: &Zone) -> bool
    ensures { result ≡ true → (p : GridPoint) → IsInZone a.now p → IsInZone b.now p → ⊥ }
{
    let across = b.right < a.left || a.right < b.left;
    across || b.top < a.bottom || a.top < b.bottom
}

/// Appends the indices of the spots of a run that are in a node, if it is a leaf. Returns the next node, and the first spot of the run that may not be looked at.
fn add_node(
    cells: &Cells,
    zone: &Zone,
    run: Run,
    i: usize,
    found: &mut Vec<usize>,
) -> Result<(usize, usize), AllocError>
    requires cells { AreReady cells.now }
    requires within { run.end ≤ length cells.now.spots }
    requires inside { i < length cells.now.nodes.items }
    ensures more { IfOk result (λ next. i < next.0) }
    ensures adds { OnOk result (AddsFound cells.now.spots zone.now found.old.items found.new.items) }
    ensures listed { IfOk result (λ next. (k : ℕ) → run.start ≤ k → k < next.1 → k < run.end → ListsFound cells.now.spots zone.now k found.new.items) }
{
    let node = cells.node(i);
    if run.start < node.run.start {
        return Ok((cells.nodes.len(), run.start));
    }
    if node.run.end <= run.start {
        return Ok((node.end, run.start));
    }
    if are_disjoint(zone, &node.zone) {
        return Ok((node.end, node.run.end));
    }
    if node.end == i + 1 {
        let end = node.run.end.min(run.end);
        add_run(&cells.spots, zone, Run { end, ..run }, found)?;
        return Ok((node.end, node.run.end));
    }
    Ok((i + 1, run.start))
}

/// Appends such indices of the spots of a run: one after the other where they are few, else down the tree.
fn add_tree(cells: &Cells, zone: &Zone, run: Run, found: &mut Vec<usize>) -> Result<(), AllocError>
    requires within { run.end ≤ length cells.now.spots }
    requires cells { AreReady cells.now }
    ensures adds { OnOk result (AddsFound cells.now.spots zone.now found.old.items found.new.items) }
    ensures listed { OnOk result ((i : ℕ) → run.start ≤ i → i < run.end → ListsFound cells.now.spots zone.now i found.new.items) }
{
    let end = run.end;
    let mut i = first_node(&cells.nodes, run);
    let mut start = run.start;
    while i < cells.nodes.len() && start < end {
        let next = add_node(cells, zone, Run { start, end }, i, found)?;
        i = next.0;
        start = next.1;
    }
    add_run(&cells.spots, zone, Run { start, end }, found)?;
    Ok(())
}

/// Appends such indices of the spots of a region.
fn add_rows(
    cells: &Cells,
    zone: &Zone,
    region: Region,
    found: &mut Vec<usize>,
) -> Result<(), AllocError>
    requires cells { AreReady cells.now }
    requires bottom { region.bottom ≤ cells.now.y.last + 1 }
    requires left { region.left ≤ cells.now.x.last + 1 }
    requires right { region.right ≤ cells.now.x.last + 1 }
    ensures adds { OnOk result (AddsFound cells.now.spots zone.now found.old.items found.new.items) }
    ensures listed { OnOk result ((i : ℕ) → i < length cells.now.spots → IsInRegion cells.now.x cells.now.y region.top region.bottom region.left region.right (point_at cells.now.spots i) → ListsFound cells.now.spots zone.now i found.new.items) }
{
    for row in region.top..region.bottom {
        let run = cells.run(row, region.left, region.right);
        add_tree(cells, zone, run, found)?;
    }
    Ok(())
}

/// Replaces each index of a spot by its place.
fn name_places(spots: &SpotList, found: &mut [usize])
    requires { All (λ i. i < length spots.now) found.old }
    ensures { (n : ℕ) → n < length found.old → get_or found.new n 0 ≡ (spot_at spots.now (get_or found.old n 0)).place }
{
    for n in 0..found.len() {
        found[n] = spots.place(found[n]);
    }
}

impl Cells {
    /// Replaces `found` by the indices of the spots with their entry point in a zone.
    pub(crate) fn find(&self, zone: &Zone, found: &mut Vec<usize>) -> Result<(), AllocError>
        requires { AreReady self.now }
        ensures all { OnOk result ((i : ℕ) → i < length self.now.spots → IsInZone zone.now (point_at self.now.spots i) → Contains found.new.items i) }
        ensures found { OnOk result (All (IsSpotInZone self.now.spots zone.now) found.new.items) }
    {
        found.clear();
        let region = region_of(&self.x, &self.y, zone);
        add_rows(self, zone, region, found)?;
        Ok(())
    }
}

impl HoleIndex {
    /// The index of these holes. It is quick for zones about so wide and so high, in pm, and right for all.
    ///
    /// # Errors
    ///
    /// Where there is no memory.
    pub fn new(
        alloc: Global,
        holes: &[Drilled],
        width: u64,
        height: u64,
    ) -> Result<HoleIndex, AllocError>
        ensures { IfOk result (IsIndexOf holes.now) }
    {
        let cells = fitting_cells(alloc, holes, width, height)?;
        Ok(HoleIndex { cells })
    }

    /// Replaces `places` by the places of the holes with their entry point in a zone. The holes are those that the index was made of.
    ///
    /// # Errors
    ///
    /// Where there is no memory.
    pub fn find(
        &self,
        holes: &[Drilled],
        zone: &Zone,
        places: &mut Vec<usize>,
    ) -> Result<(), AllocError>
        requires { IsIndexOf holes.now self.now }
        ensures all { OnOk result ((k : ℕ) → k < length holes.now → IsInZone zone.now (entry_at holes.now k) → Contains places.new.items k) }
        ensures places { OnOk result (All (IsEntryInZone holes.now zone.now) places.new.items) }
    {
        self.cells.find(zone, places)?;
        name_places(&self.cells.spots, places);
        Ok(())
    }

    /// How many cells `find` looks through for a zone. Any answer is right: it only says how long that takes.
    pub fn cells_in(&self, zone: &Zone) -> usize {
        let region = region_of(&self.cells.x, &self.cells.y, zone);
        let rows = region.bottom.saturating_sub(region.top);
        let columns = region.right.saturating_sub(region.left);
        rows.saturating_mul(columns)
    }
}
