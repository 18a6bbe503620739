//! What is kept of the flashes and contours of a layer while they come.

ghost use Rattle.std.specs.Prelude.{◌≡◌, ◌++◌, ◌≤◌, [], ◌∷◌, List, IfOk, OnOk, false, length, if◌then◌else◌};
ghost use Rattle.std.specs.List.{cons_option, filter_map};
ghost use Rattle.grid_units.specs.Points.{GridPoint};
ghost use Rattle.pad_shapes.specs.declared.wide_pad.WidePad.{WidePad as ThePad};
ghost use Rattle.layer_features.specs.Features.{pad_in, taken_away};
ghost use Rattle.layer_features.specs.Kept.{AddsFeatures, first_taken_away};
ghost use Rattle.layer_features.specs.declared.feature.Feature.{Feature as TheFeature};
ghost use Rattle.layer_features.specs.declared.feature.FeatureKind.TheVariants as kind;

use crate::counts::FeatureCounts;
use crate::feature::Feature;
use pad_shapes::{Pad, WidePad};
use std::alloc::{AllocError, Global};

/// The flashes and contours so far where rows are asked for, else the pads among them that were not taken out; and how many there are of each
/// kind.
#[derive(Drop)]
pub(crate) struct KeptFeatures {
    pub(crate) rows: bool,
    pub(crate) features: Vec<Feature>,
    /// How many of the flashes and contours clear polarity took away: so many of the first.
    pub(crate) cleared: usize,
    pub(crate) pads: Vec<WidePad>,
    /// Whether clear polarity took away the pads that were taken out before.
    pub(crate) forgets: bool,
    pub(crate) counts: FeatureCounts,
}

impl KeptFeatures {
    ghost use Rattle.layer_features.specs.Kept.{KeepsFeatures, left_pads};

    /// No flash and no contour so far.
    pub(crate) fn new(alloc: Global, rows: bool) -> KeptFeatures
        ensures kept { KeepsFeatures result [] [] }
        ensures rows { result.rows ≡ rows }
    {
        KeptFeatures {
            rows,
            features: Vec::new(alloc),
            cleared: 0,
            pads: Vec::new(alloc),
            forgets: false,
            counts: FeatureCounts {
                flashed: 0,
                contours: 0,
                other: 0,
            },
        }
    }

    /// Adds a flash or a contour.
    ///
    /// # Errors
    ///
    /// An `AllocError` where there is no memory for it.
    pub(crate) fn add(&mut self, feature: Feature) -> Result<(), AllocError>
        ensures kept { AddsFeatures result self.old self.new (feature ∷ []) }
        ensures rows { self.new.rows ≡ self.old.rows }
    {
        let counts = self.counts.with(&feature);
        self.hold(feature)?;
        self.counts = counts?;
        Ok(())
    }

    /// Adds the pad of a flash of a standard aperture, where pads alone are kept. So it is with most flashes.
    ///
    /// # Errors
    ///
    /// An `AllocError` where there is no memory for it.
    #[inline]
    pub(crate) fn add_plain(&mut self, pad: Pad) -> Result<(), AllocError>
        requires { self.old.rows ≡ false }
        ensures kept { (at : GridPoint) → AddsFeatures result self.old self.new (record { at = at; what = kind.Pad pad } ∷ []) }
        ensures rows { self.new.rows ≡ self.old.rows }
    {
        self.pads.push(WidePad::Plain(pad))?;
        self.counts = self.counts.with_pad()?;
        Ok(())
    }

    /// Holds a flash or a contour, or its pad if it is one.
    fn hold(&mut self, feature: Feature) -> Result<(), AllocError>
        ensures features { OnOk result (self.new.features.items ≡ (if self.old.rows then self.old.features.items ++ feature ∷ [] else self.old.features.items)) }
        ensures pads { OnOk result (self.new.pads.items ≡ (if self.old.rows then self.old.pads.items else self.old.pads.items ++ cons_option (pad_in feature.what) [])) }
        ensures rows { self.new.rows ≡ self.old.rows }
        ensures cleared { self.new.cleared ≡ self.old.cleared }
        ensures forgets { self.new.forgets ≡ self.old.forgets }
        ensures counts { self.new.counts ≡ self.old.counts }
    {
        if self.rows {
            self.features.push(feature)?;
            return Ok(());
        }
        if let Some(pad) = feature.what.into_pad() {
            self.pads.push(pad)?;
        }
        Ok(())
    }

    /// Takes away all flashes and contours so far, as clear polarity does.
    ///
    /// # Errors
    ///
    /// An `AllocError`, which does not come.
    pub(crate) fn take_away(&mut self) -> Result<(), AllocError>
        ensures kept { (taken : List ThePad) (features : List TheFeature) → KeepsFeatures self.old taken features → OnOk result (KeepsFeatures self.new taken (filter_map taken_away features)) }
        ensures rows { self.new.rows ≡ self.old.rows }
    {
        self.counts = self.counts.taken_away()?;
        self.cleared = self.features.len();
        self.pads.clear();
        self.forgets = true;
        Ok(())
    }

    /// Drops the pads that are held: they are taken out. The memory that they took serves the next ones.
    pub(crate) fn clear_pads(&mut self)
        ensures none { self.new.pads.items ≡ [] }
        ensures last { self.new.forgets ≡ false }
        ensures kept { (taken : List ThePad) (features : List TheFeature) → KeepsFeatures self.old taken features → KeepsFeatures self.new (left_pads self.old taken ++ self.old.pads.items) features }
        ensures rows { self.new.rows ≡ self.old.rows }
    {
        self.pads.clear();
        self.forgets = false;
    }
}

/// What is left of flashes and contours that clear polarity takes away.
fn taken_away(alloc: Global, features: Vec<Feature>) -> Result<Vec<Feature>, AllocError>
    ensures { IfOk result (λ left. left.items ≡ filter_map taken_away features.items) }
{
    features
        .into_iter()
        .filter_map(|feature| feature.taken_away())
        .collect(alloc)
}

/// Flashes and contours of which the first ones, so many, are taken away.
///
/// # Errors
///
/// An `AllocError` where there is no memory for them.
pub(crate) fn first_taken_away(
    alloc: Global,
    features: Vec<Feature>,
    count: usize,
) -> Result<Vec<Feature>, AllocError>
    requires { count ≤ length features.items }
    ensures { IfOk result (λ all. all.items ≡ first_taken_away count features.items) }
{
    let mut first = features;
    if count == 0 {
        return Ok(first);
    }
    let mut last = first.split_off(count)?;
    let mut all = taken_away(alloc, first)?;
    all.append(&mut last)?;
    Ok(all)
}
