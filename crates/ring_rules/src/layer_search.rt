//! The search for the holes that lack their ring on one layer.

ghost use Rattle.std.specs.Prelude.{◌≡◌, ◌++◌, ℕ, Bool, List, [], ◌<◌, ◌&&◌, map, length, IfOk, OnOk};
ghost use Rattle.grid_units.specs.Spans.{is_in_span};
ghost use Rattle.ring_rules.specs.Findings.{layer_findings};
ghost use Rattle.ring_rules.specs.Spots.{spot_at};
ghost use Rattle.ring_rules.specs.Search.{IsRingIndexOf, IsSearchOver, AreMarkedBy, Covering, HasTriedCoverings};
ghost use Rattle.ring_rules.specs.Inner.Marks.{is_marked};
ghost use Rattle.ring_rules.specs.declared.finding.Drilled.{Drilled};

use crate::finding::{Drilled, Finding};
use crate::pads::try_pads;
use crate::ring_index::RingIndex;
use crate::rings::layer_findings;
use crate::spot_list::SpotList;
use grid_units::is_in_span;
use pad_shapes::PadShape;
use std::alloc::{AllocError, Global};

/// The holes of a board that lack their ring on one layer, among the pads that were tried so far. The pads may come in
/// any number of parts, so that those of a layer need not be in memory all at once.
#[derive(Drop)]
pub struct LayerSearch {
    pub(crate) layer: usize,
    pub(crate) marks: Vec<bool>,
    pub(crate) open_nodes: Vec<bool>,
}

/// The marks of the holes that need a ring on a layer: those that are plated and go through it.
fn first_marks(alloc: Global, layer: usize, holes: &[Drilled]) -> Result<Vec<bool>, AllocError>
    ensures { IfOk result (λ v. v.items ≡ map (λ d. d.plated && is_in_span layer d.span) holes.now) }
{
    holes
        .iter()
        .map(|drilled| drilled.plated && is_in_span(layer, drilled.span))
        .collect(alloc)
}

/// The marks of the spots, given those of the holes in the order of the list.
fn marks_of_spots(alloc: Global, spots: &SpotList, marks: &[bool]) -> Result<Vec<bool>, AllocError>
    requires { (i : ℕ) → i < length spots.now → (spot_at spots.now i).place < length marks.now }
    ensures size { IfOk result (λ v. length v.items ≡ length spots.now) }
    ensures marks { IfOk result (λ v. (i : ℕ) → i < length spots.now → is_marked v.items i ≡ is_marked marks.now (spot_at spots.now i).place) }
{
    let mut own = Vec::with_capacity(alloc, spots.len())?;
    for i in 0..spots.len() {
        own.push(marks[spots.place(i)])?;
    }
    Ok(own)
}

/// Puts the marks of the spots at the places of their holes.
fn put_marks(spots: &SpotList, own: &[bool], marks: &mut [bool])
    requires size { length own.now ≡ length spots.now }
    requires places { (i : ℕ) → i < length spots.now → (spot_at spots.now i).place < length marks.old }
    ensures { (test : ℕ → Bool) → ((i : ℕ) → i < length spots.now → is_marked own.now i ≡ test (spot_at spots.now i).place) → (i : ℕ) → i < length spots.now → is_marked marks.new (spot_at spots.now i).place ≡ test (spot_at spots.now i).place }
{
    for i in 0..spots.len() {
        marks[spots.place(i)] = own[i];
    }
}

/// Whether each hole of a list lacks its ring, given the marks of the spots.
fn lacking(
    alloc: Global,
    index: &RingIndex,
    holes: &[Drilled],
    marks: &[bool],
) -> Result<Vec<bool>, AllocError>
    requires index { IsRingIndexOf holes.now index.now }
    requires size { length marks.now ≡ length index.now.cells.spots }
    ensures size { IfOk result (λ lacking. length lacking.items ≡ length holes.now) }
    ensures marks { IfOk result (λ lacking. (test : Drilled → Bool) → AreMarkedBy test holes.now index.now marks.now → lacking.items ≡ map test holes.now) }
{
    let mut lacking = vec![in alloc; false; holes.len()]?;
    put_marks(&index.cells.spots, marks, &mut lacking);
    Ok(lacking)
}

impl LayerSearch {
    /// A search on a layer, named by its place from 0, before any pad. The index is one of these holes.
    ///
    /// # Errors
    ///
    /// Where there is no memory.
    pub fn new(
        alloc: Global,
        index: &RingIndex,
        holes: &[Drilled],
        layer: usize,
    ) -> Result<LayerSearch, AllocError>
        requires { IsRingIndexOf holes.now index.now }
        ensures { IfOk result (HasTriedCoverings holes.now layer [] index.now) }
    {
        let needing = first_marks(alloc, layer, holes)?;
        LayerSearch::from_marks(alloc, index, holes, layer, &needing)
    }

    /// A search on a layer over an index, where these are the marks of the holes.
    fn from_marks(
        alloc: Global,
        index: &RingIndex,
        holes: &[Drilled],
        layer: usize,
        marks: &[bool],
    ) -> Result<LayerSearch, AllocError>
        requires index { IsRingIndexOf holes.now index.now }
        requires size { length marks.now ≡ length holes.now }
        ensures over { IfOk result (IsSearchOver index.now) }
        ensures layer { IfOk result (λ search. search.layer ≡ layer) }
        ensures marks { IfOk result (λ search. (test : Drilled → Bool) → marks.now ≡ map test holes.now → AreMarkedBy test holes.now index.now search.marks.items) }
    {
        let marks = marks_of_spots(alloc, &index.cells.spots, marks)?;
        let open_nodes = vec![in alloc; true; index.cells.nodes.len()]?;
        Ok(LayerSearch {
            layer,
            marks,
            open_nodes,
        })
    }

    /// The same search over another index of the same holes under the same rules. The index is the one that the search was made over.
    ///
    /// # Errors
    ///
    /// Where there is no memory.
    pub fn over(
        &self,
        alloc: Global,
        index: &RingIndex,
        holes: &[Drilled],
        other: &RingIndex,
    ) -> Result<LayerSearch, AllocError>
        requires index { IsRingIndexOf holes.now index.now }
        requires other { IsRingIndexOf holes.now other.now }
        requires rules { other.now.rules ≡ index.now.rules }
        requires over { IsSearchOver index.now self.now }
        ensures over { IfOk result (IsSearchOver other.now) }
        ensures tried { (layer : ℕ) (tried : List Covering) → HasTriedCoverings holes.now layer tried index.now self.now → IfOk result (HasTriedCoverings holes.now layer tried other.now) }
    {
        let lacking = lacking(alloc, index, holes, &self.marks)?;
        LayerSearch::from_marks(alloc, other, holes, self.layer, &lacking)
    }

    /// Tries the next pads of the layer. They may be of another type than those before them: what counts of a pad is what it
    /// covers. The index is the one that the search was made over.
    pub fn try_pads<S: PadShape>(&mut self, index: &RingIndex, more: &[S])
        requires { IsSearchOver index.now self.old }
        ensures over { IsSearchOver index.now self.new }
        ensures tried { (holes : List Drilled) (layer : ℕ) (tried : List Covering) → HasTriedCoverings holes layer tried index.now self.old → HasTriedCoverings holes layer (tried ++ map S.covers more.now) index.now self.new }
    {
        try_pads(index, more, &mut self.open_nodes, &mut self.marks);
    }

    /// Appends the findings of rings of the layer, by hole: each plated hole that goes through it and that no single pad
    /// so far covers with the ring round it, and in the strict profile each plated oblique slot. The index is the one that the
    /// search was made over, and one of these holes.
    ///
    /// # Errors
    ///
    /// Where there is no memory.
    pub fn push_findings(
        &self,
        alloc: Global,
        index: &RingIndex,
        holes: &[Drilled],
        findings: &mut Vec<Finding>,
    ) -> Result<(), AllocError>
        requires index { IsRingIndexOf holes.now index.now }
        requires over { IsSearchOver index.now self.now }
        ensures { OnOk result ((layer : ℕ) (tried : List Covering) → HasTriedCoverings holes.now layer tried index.now self.now → findings.new.items ≡ findings.old.items ++ layer_findings (λ covering. covering) index.now.rules.profile index.now.rules.ring holes.now layer tried) }
    {
        let lacking = lacking(alloc, index, holes, &self.marks)?;
        layer_findings(findings, index.rules.profile(), self.layer, holes, &lacking)
    }
}
