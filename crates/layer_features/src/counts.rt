//! How many flashes and contours there are of each kind.

ghost use Rattle.std.specs.Prelude.{◌≡◌, ◌+◌, ◌++◌, [], ◌∷◌, List, IfOk};
ghost use Rattle.std.specs.List.{filter_map};
ghost use Rattle.layer_features.specs.Features.{counts_of, taken_away};
ghost use Rattle.grid_units.specs.Points.{GridPoint};
ghost use Rattle.pad_shapes.specs.declared.pad.Pad.{Pad as ThePad};
ghost use Rattle.layer_features.specs.declared.feature.Feature.{Feature as TheFeature};
ghost use Rattle.layer_features.specs.declared.feature.FeatureKind.TheVariants as kind;

use crate::feature::{Feature, FeatureKind};
use std::alloc::AllocError;

/// How many flashes and contours there are of each kind.
#[derive(Clone, Copy)]
pub struct FeatureCounts {
    /// Flashes that are pads.
    pub flashed: usize,
    /// Contours that count as pads.
    pub contours: usize,
    /// Flashes that are no pads.
    pub other: usize,
}

/// A sum of counts. One past the range of a count is a failure, which no layer reaches: it has some millions of flashes and contours at most.
fn sum(a: usize, b: usize) -> Result<usize, AllocError>
    ensures { IfOk result (λ sum. sum ≡ a + b) }
{
    match a.checked_add(b) {
        Some(sum) => Ok(sum),
        None => Err(AllocError),
    }
}

impl FeatureCounts {
    /// The counts with one more flash that is a pad of a standard aperture.
    #[inline]
    pub(crate) fn with_pad(self) -> Result<FeatureCounts, AllocError>
        ensures { (features : List TheFeature) (at : GridPoint) (pad : ThePad) → self ≡ counts_of features → IfOk result (λ counts. counts ≡ counts_of (features ++ record { at = at; what = kind.Pad pad } ∷ [])) }
    {
        let flashed = sum(self.flashed, 1)?;
        Ok(FeatureCounts { flashed, ..self })
    }

    /// The counts with one more.
    pub(crate) fn with(self, feature: &Feature) -> Result<FeatureCounts, AllocError>
        ensures { (features : List TheFeature) → self ≡ counts_of features → IfOk result (λ counts. counts ≡ counts_of (features ++ feature.now ∷ [])) }
    {
        let mut counts = self;
        match &feature.what {
            FeatureKind::Pad(_) | FeatureKind::Shape(_, _) => {
                counts.flashed = sum(self.flashed, 1)?
            }
            FeatureKind::Contour(_) => counts.contours = sum(self.contours, 1)?,
            FeatureKind::Other(_)
            | FeatureKind::Macro(_)
            | FeatureKind::Clear
            | FeatureKind::Cleared => counts.other = sum(self.other, 1)?,
        }
        Ok(counts)
    }

    /// The counts of what is left where clear polarity takes all away.
    pub(crate) fn taken_away(self) -> Result<FeatureCounts, AllocError>
        ensures { (features : List TheFeature) → self ≡ counts_of features → IfOk result (λ left. left ≡ counts_of (filter_map taken_away features)) }
    {
        let other = sum(self.flashed, self.other)?;
        Ok(FeatureCounts {
            flashed: 0,
            contours: 0,
            other,
        })
    }
}
