//! The holes of a package, with an index to look them up.

ghost use Rattle.std.specs.Prelude.{◌≡◌, ◌++◌, ℕ, List, [], IfErr, IfOk, IfSome, None, Ok, OnOk, false, map, if◌then◌else◌};
ghost use Rattle.grid_units.specs.Results.{Answers, IfFault};
ghost use Rattle.layer_image.specs.Holding.{ShowsLayerFaultIn};
ghost use Rattle.layer_image.specs.Kept.{ReadsKeptIn, plain};
ghost use Rattle.layer_features.specs.declared.keep.Keep.TheVariants as keep;
ghost use Rattle.pad_shapes.specs.WidePads.{wide_pad_covers};
ghost use Rattle.pad_shapes.specs.declared.wide_pad.WidePad.{WidePad as ThePad};
ghost use Rattle.package_check.specs.CheckViews.{is_drill_sum};
ghost use Rattle.package_check.specs.Judging.{HasTriedIn, HasTriedPadsOf, JudgesCopper};
ghost use Rattle.ring_rules.specs.Findings.{gap_findings, layer_findings};
ghost use Rattle.ring_rules.specs.Search.{HasTried, IsRingIndexOf, IsSearchOver};

use crate::FileSum;
use crate::checking::Judged;
use crate::contents::refusal;
use crate::pad_size::{PadSize, are_unlike, likely_size, mean_size};
use crate::readers::is_copper_function;
use grid_units::{Fail, Reason, Rules};
use layer_image::{Layer, LayerReader, readings_in_profiles};
use pad_shapes::{Pad, PadShape, WidePad};
use ring_rules::{Drilled, Finding, LayerSearch, RingIndex};
use std::alloc::{AllocError, Global};
use std::marker::Model;

/// How many bytes of a layer are read before its pads are tried.
const PIECE: usize = 65_536;

/// The holes of all drill files of a package, file by file, with an index of them, by which rings and gaps are judged.
#[derive(Drop)]
pub(crate) struct IndexedHoles {
    holes: Vec<Drilled>,
    index: RingIndex,
    /// The size of the pads for which the index is quick. It is right for all.
    size: PadSize,
    /// Whether no pad of the layer that is being read was tried.
    is_fresh: bool,
    /// How many pads were tried by the index.
    tried: usize,
    rules: Rules,
    /// The search on the layer that is being read, if one has begun.
    search: Option<LayerSearch>,
}

impl Model for IndexedHoles {
    ghost use Rattle.std.specs.Prelude.{◌≡◌, IfSome};
    ghost use Rattle.package_check.specs.HoleViews.{HolesView};
    ghost use Rattle.ring_rules.specs.Search.{IsRingIndexOf, IsSearchOver};

    ghost Value = { HolesView };

    ghost view = { λ h. record { holes = h.holes.items; rules = h.index.rules; index = h.index; search = h.search } };

    ghost invariant = { λ h. IsRingIndexOf h.holes.items h.index × (h.rules ≡ h.index.rules) × IfSome h.search (IsSearchOver h.index) };
}

impl IndexedHoles {
    /// These holes, with an index of them for these rules.
    pub(crate) fn new(
        alloc: Global,
        holes: Vec<Drilled>,
        rules: Rules,
    ) -> Result<IndexedHoles, AllocError>
        ensures holes { IfOk result (λ indexed. indexed.holes ≡ holes.items) }
        ensures rules { IfOk result (λ indexed. indexed.rules ≡ rules) }
    {
        let size = likely_size(&holes, rules);
        let index = RingIndex::new(alloc, &holes, rules, size.width, size.height)?;
        Ok(IndexedHoles {
            holes,
            index,
            size,
            is_fresh: true,
            tried: 0,
            rules,
            search: None,
        })
    }

    /// The search on the layer that is being read, if one has begun, over another index of these holes. It is taken out.
    fn take_search_over(
        &mut self,
        alloc: Global,
        index: &RingIndex,
    ) -> Result<Option<LayerSearch>, AllocError>
        requires index { IsRingIndexOf self.old.holes index.now }
        requires rules { index.now.rules ≡ self.old.rules }
        ensures over { IfOk result (λ search. IfSome search (IsSearchOver index.now)) }
        ensures tried { (layer : ℕ) (pads : List ThePad) → HasTriedIn self.old.holes self.old.index layer pads self.old.search → IfOk result (λ search. HasTriedIn self.old.holes index.now layer pads search) }
        ensures holes { self.new.holes ≡ self.old.holes }
        ensures rules { self.new.rules ≡ self.old.rules }
    {
        let Some(search) = self.search.take() else {
            return Ok(None);
        };
        let over = search.over(alloc, &self.index, &self.holes, index)?;
        Ok(Some(over))
    }

    /// Makes the index anew, as quick as can be for pads of this size. A search that has begun goes on over it.
    fn index_for(&mut self, alloc: Global, size: PadSize) -> Result<(), AllocError>
        ensures tried { (layer : ℕ) (tried : List ThePad) → HasTriedIn self.old.holes self.old.index layer tried self.old.search → OnOk result (HasTriedIn self.new.holes self.new.index layer tried self.new.search) }
        ensures holes { self.new.holes ≡ self.old.holes }
        ensures rules { self.new.rules ≡ self.old.rules }
    {
        let index = RingIndex::new(alloc, &self.holes, self.rules, size.width, size.height)?;
        let Ok(search) = self.take_search_over(alloc, &index) else {
            // Calls of `drop`, here and below: the proof need not go through the parts.
            drop(index);
            return Err(AllocError);
        };
        self.search = search;
        drop(std::mem::replace(&mut self.index, index));
        self.size = size;
        self.tried = 0;
        Ok(())
    }

    /// Forgets the search on a layer, so that the next pads are the first ones of another.
    pub(crate) fn forget_search(&mut self)
        ensures search { self.new.search ≡ None }
        ensures holes { self.new.holes ≡ self.old.holes }
        ensures rules { self.new.rules ≡ self.old.rules }
    {
        drop(self.search.take());
        self.is_fresh = true;
    }

    /// The search on a layer of this number, which is taken out; one that has tried no pad, where none has begun.
    fn take_search(&mut self, alloc: Global, layer: usize) -> Result<LayerSearch, AllocError>
        ensures over { IfOk result (IsSearchOver self.new.index) }
        ensures tried { (pads : List ThePad) → HasTriedIn self.old.holes self.old.index layer pads self.old.search → IfOk result (λ search. HasTried wide_pad_covers self.old.holes layer pads self.old.index search) }
        ensures index { self.new.index ≡ self.old.index }
        ensures holes { self.new.holes ≡ self.old.holes }
        ensures rules { self.new.rules ≡ self.old.rules }
    {
        match self.search.take() {
            Some(search) => Ok(search),
            None => LayerSearch::new(alloc, &self.index, &self.holes, layer),
        }
    }

    /// Fits the index to the next pads of a layer, where most of them are of another shape than those for which it is quick.
    fn suit<S: PadShape>(&mut self, alloc: Global, pads: &[S]) -> Result<(), AllocError>
        ensures tried { (layer : ℕ) (tried : List ThePad) → HasTriedIn self.old.holes self.old.index layer tried self.old.search → OnOk result (HasTriedIn self.new.holes self.new.index layer tried self.new.search) }
        ensures holes { self.new.holes ≡ self.old.holes }
        ensures rules { self.new.rules ≡ self.old.rules }
    {
        // A new index is worth its time where no pad of the layer was tried, or an eighth as many by this index as there are holes.
        if !self.is_fresh && self.tried < self.holes.len() / 8 {
            return Ok(());
        }
        match mean_size(pads) {
            Some(size) if !size.is_shaped_like(self.size) && are_unlike(pads, self.size) => {
                self.index_for(alloc, size)
            }
            _ => Ok(()),
        }
    }

    /// Tries the next pads of a layer of this number, by an index that suits them.
    fn try_pads<S: PadShape>(
        &mut self,
        alloc: Global,
        layer: usize,
        pads: &[S],
    ) -> Result<(), AllocError>
        ensures tried { (tried more : List ThePad) → map S.covers pads.now ≡ map wide_pad_covers more → HasTriedIn self.old.holes self.old.index layer tried self.old.search → OnOk result (HasTriedIn self.new.holes self.new.index layer (tried ++ more) self.new.search) }
        ensures holes { self.new.holes ≡ self.old.holes }
        ensures rules { self.new.rules ≡ self.old.rules }
    {
        if pads.is_empty() {
            return Ok(());
        }
        self.suit(alloc, pads)?;
        let mut search = self.take_search(alloc, layer)?;
        search.try_pads(&self.index, pads);
        self.search = Some(search);
        self.is_fresh = false;
        self.tried = self.tried.saturating_add(pads.len());
        Ok(())
    }

    /// Forgets the search on a layer where clear polarity has taken away the pads that were tried.
    fn forget_where(&mut self, forgets: bool)
        ensures tried { (layer : ℕ) (tried : List ThePad) → HasTriedIn self.old.holes self.old.index layer tried self.old.search → HasTriedIn self.new.holes self.new.index layer (if forgets then [] else tried) self.new.search }
        ensures holes { self.new.holes ≡ self.old.holes }
        ensures rules { self.new.rules ≡ self.old.rules }
    {
        if forgets {
            drop(self.search.take());
        }
    }

    /// Tries the pads of a layer of this number: those of standard apertures in the strict profile, and all in the wide one.
    fn try_all(
        &mut self,
        alloc: Global,
        layer: usize,
        pads: &[Pad],
        wide_pads: &[WidePad],
    ) -> Result<(), AllocError>
        ensures tried { (tried : List ThePad) → HasTriedIn self.old.holes self.old.index layer tried self.old.search → OnOk result (HasTriedIn self.new.holes self.new.index layer (tried ++ (map plain pads.now ++ wide_pads.now)) self.new.search) }
        ensures holes { self.new.holes ≡ self.old.holes }
        ensures rules { self.new.rules ≡ self.old.rules }
    {
        self.try_pads(alloc, layer, pads)?;
        self.try_pads(alloc, layer, wide_pads)
    }

    /// Feeds a chunk of a layer to the reader, tries the pads that it ends, and drops them.
    fn feed_chunk(
        &mut self,
        alloc: Global,
        layer: usize,
        reader: &mut LayerReader,
        chunk: &[u8],
    ) -> Result<(), Fail>
        ensures ok { (text : List ℕ) → HasTriedPadsOf self.old layer reader.old text → OnOk result (HasTriedPadsOf self.new layer reader.new (text ++ chunk.now)) }
        ensures err { (text : List ℕ) → HasTriedPadsOf self.old layer reader.old text → IfErr result (IfFault (ShowsLayerFaultIn self.old.rules.profile (text ++ chunk.now))) }
        ensures holes { self.new.holes ≡ self.old.holes }
        ensures rules { self.new.rules ≡ self.old.rules }
    {
        reader.feed(chunk)?;
        self.forget_where(reader.are_forgotten());
        self.try_all(alloc, layer, reader.pads(), reader.wide_pads())?;
        reader.clear_pads();
        Ok(())
    }

    /// Feeds a piece of a layer of this number to the reader, [`PIECE`] bytes at a time, and tries and drops its pads.
    pub(crate) fn feed(
        &mut self,
        alloc: Global,
        layer: usize,
        reader: &mut LayerReader,
        piece: &[u8],
    ) -> Result<(), Fail>
        ensures ok { (text : List ℕ) → HasTriedPadsOf self.old layer reader.old text → OnOk result (HasTriedPadsOf self.new layer reader.new (text ++ piece.now)) }
        ensures err { (text : List ℕ) → HasTriedPadsOf self.old layer reader.old text → IfErr result (IfFault (ShowsLayerFaultIn self.old.rules.profile (text ++ piece.now))) }
        ensures holes { self.new.holes ≡ self.old.holes }
        ensures rules { self.new.rules ≡ self.old.rules }
    {
        readings_in_profiles();
        for chunk in piece.chunks(PIECE) {
            self.feed_chunk(alloc, layer, reader, chunk)?;
        }
        Ok(())
    }

    /// The findings of rings on a layer of this number, whose pads were all tried. The search ends.
    fn rings(&mut self, alloc: Global, layer: usize) -> Result<Vec<Finding>, AllocError>
        ensures rings { (pads : List ThePad) → HasTriedIn self.old.holes self.old.index layer pads self.old.search → IfOk result (λ rings. rings.items ≡ layer_findings wide_pad_covers self.old.rules.profile self.old.rules.ring self.old.holes layer pads) }
        ensures holes { self.new.holes ≡ self.old.holes }
        ensures rules { self.new.rules ≡ self.old.rules }
    {
        let search = self.take_search(alloc, layer)?;
        let mut rings = Vec::new(alloc);
        search.push_findings(alloc, &self.index, &self.holes, &mut rings)?;
        Ok(rings)
    }

    /// What is left of a copper file whose text the reader has read: the rest of its pads are tried. Its layer has this number.
    pub(crate) fn judge(
        &mut self,
        alloc: Global,
        layer: usize,
        reader: LayerReader,
    ) -> Result<Judged, Fail>
        ensures layer { IfOk result (λ one. is_drill_sum one.sum ≡ false) }
        ensures judged { (text : List ℕ) → HasTriedPadsOf self.old layer reader text → Answers (λ x. x) (JudgesCopper self.old.rules self.old.holes layer text) result }
        ensures holes { self.new.holes ≡ self.old.holes }
        ensures rules { self.new.rules ≡ self.old.rules }
    {
        self.forget_where(reader.are_forgotten());
        let rest = reader.finish()?;
        let judged = self.judge_rest(alloc, layer, &rest);
        drop(rest);
        judged
    }

    /// What is left of a layer of which this is the rest, whose pads are tried. It has this number.
    fn judge_rest(&mut self, alloc: Global, layer: usize, rest: &Layer) -> Result<Judged, Fail>
        ensures layer { IfOk result (λ one. is_drill_sum one.sum ≡ false) }
        ensures judged { (text : List ℕ) (left : List ThePad) → ReadsKeptIn self.old.rules.profile keep.Pads left text (Ok rest.now) → HasTriedIn self.old.holes self.old.index layer left self.old.search → Answers (λ x. x) (JudgesCopper self.old.rules self.old.holes layer text) result }
        ensures holes { self.new.holes ≡ self.old.holes }
        ensures rules { self.new.rules ≡ self.old.rules }
    {
        if !is_copper_function(rest.file_function()) {
            return Err(refusal(Reason::NotCopper));
        }
        let Ok(()) = self.try_all(alloc, layer, rest.pads(), rest.wide_pads()) else {
            return Err(Fail::Memory);
        };
        let Ok(rings) = self.rings(alloc, layer) else {
            return Err(Fail::Memory);
        };
        let counts = rest.counts();
        let sum = FileSum::Layer {
            pads: counts.flashed,
            other: counts.other,
            contours: counts.contours,
        };
        Ok(Judged { sum, rings })
    }

    /// The rules by which these holes are judged.
    pub(crate) fn rules(&self) -> Rules
        ensures { result ≡ self.now.rules }
    {
        self.rules
    }

    /// The holes, without their index, and the findings of gaps between them.
    pub(crate) fn into_gaps(self, alloc: Global) -> Result<(Vec<Drilled>, Vec<Finding>), AllocError>
        ensures holes { IfOk result (λ both. both.0.items ≡ self.holes) }
        ensures gaps { IfOk result (λ both. both.1.items ≡ gap_findings self.rules.gap self.holes) }
    {
        let gaps = self.index.gap_findings(alloc, &self.holes);
        drop(self.index);
        drop(self.search);
        Ok((self.holes, gaps?))
    }
}
