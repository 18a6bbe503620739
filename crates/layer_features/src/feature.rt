//! The flashes and contours of a layer.

ghost use Rattle.std.specs.Prelude.{◌≡◌, IfOk};
ghost use Rattle.layer_features.specs.Features.{feature_row, pad_in, pads_of, row_kind, strict_feature_of, strict_kind_of, strict_view, taken_away, taken_kind};

use grid_units::Point;
use pad_shapes::{FeatureRow, Pad, PlacedRounded, RowKind, Why, WidePad};
use std::alloc::{AllocError, Global};

/// What a flash or a contour is once the whole layer is drawn.
#[derive(Drop)]
pub enum FeatureKind {
    /// A flash that is a pad of a standard aperture.
    Pad(Pad),
    /// A flash that is a pad by the shape of its aperture, and why it is none in the strict profile.
    Shape(PlacedRounded, Why),
    /// A contour that is a pad.
    Contour(PlacedRounded),
    /// A flash of a standard aperture that is no pad, and why. In the strict profile also one of a macro.
    Other(Why),
    /// A flash of a macro that is no pad, and why.
    Macro(Why),
    /// A flash in clear polarity.
    Clear,
    /// A flash that clear polarity takes away.
    Cleared,
}

/// A flash at its point, or a contour at its first corner. A step and repeat block has one for each copy.
#[derive(Drop)]
pub struct Feature {
    pub at: Point,
    pub what: FeatureKind,
}

impl FeatureKind {
    /// The same without its pad.
    pub fn row_kind(&self) -> RowKind
        ensures { result ≡ row_kind self.now }
    {
        match self {
            FeatureKind::Pad(_) | FeatureKind::Shape(_, _) => RowKind::Pad,
            FeatureKind::Contour(_) => RowKind::Contour,
            FeatureKind::Other(why) | FeatureKind::Macro(why) => RowKind::Other(*why),
            FeatureKind::Clear => RowKind::Clear,
            FeatureKind::Cleared => RowKind::Cleared,
        }
    }

    /// The pad that it is, if it is one.
    pub fn into_pad(self) -> Option<WidePad>
        ensures { result ≡ pad_in self }
    {
        match self {
            FeatureKind::Pad(pad) => Some(WidePad::Plain(pad)),
            FeatureKind::Shape(pad, _) => Some(WidePad::Rounded(pad)),
            FeatureKind::Contour(pad) => Some(WidePad::Rounded(pad)),
            FeatureKind::Other(_)
            | FeatureKind::Macro(_)
            | FeatureKind::Clear
            | FeatureKind::Cleared => None,
        }
    }

    /// What is left of it where clear polarity takes it away.
    fn taken_away(self) -> Option<FeatureKind>
        ensures { result ≡ taken_kind self }
    {
        match self {
            FeatureKind::Contour(_) => None,
            FeatureKind::Clear => Some(FeatureKind::Clear),
            FeatureKind::Pad(_)
            | FeatureKind::Shape(_, _)
            | FeatureKind::Other(_)
            | FeatureKind::Macro(_)
            | FeatureKind::Cleared => Some(FeatureKind::Cleared),
        }
    }

    /// What the strict profile says of it, where nothing was drawn in clear polarity: no shape is a pad, and a contour is no flash.
    fn in_strict(&self) -> Option<FeatureKind>
        ensures { result ≡ strict_kind_of self.now }
    {
        match self {
            FeatureKind::Pad(pad) => Some(FeatureKind::Pad(*pad)),
            FeatureKind::Macro(_) => Some(FeatureKind::Other(Why::Macro)),
            FeatureKind::Shape(_, why) => Some(FeatureKind::Other(*why)),
            FeatureKind::Other(why) => Some(FeatureKind::Other(*why)),
            FeatureKind::Contour(_) | FeatureKind::Clear | FeatureKind::Cleared => None,
        }
    }
}

impl Feature {
    /// Its row.
    pub fn row(&self) -> FeatureRow
        ensures { result ≡ feature_row self.now }
    {
        FeatureRow {
            at: self.at,
            what: self.what.row_kind(),
        }
    }

    /// What the strict profile says of it.
    fn in_strict(&self) -> Option<Feature>
        ensures { result ≡ strict_feature_of self.now }
    {
        let what = self.what.in_strict()?;
        Some(Feature { at: self.at, what })
    }

    /// What is left of it where clear polarity takes it away.
    pub(crate) fn taken_away(self) -> Option<Feature>
        ensures { result ≡ taken_away self }
    {
        let at = self.at;
        let what = self.what.taken_away()?;
        Some(Feature { at, what })
    }
}

/// What the strict profile says of the flashes and contours of a layer that has no clear polarity, in order.
///
/// # Errors
///
/// An `AllocError` where there is no memory for the list.
pub fn strict_view(alloc: Global, features: &[Feature]) -> Result<Vec<Feature>, AllocError>
    ensures { IfOk result (λ view. view.items ≡ strict_view features.now) }
{
    features
        .iter()
        .filter_map(|feature| feature.in_strict())
        .collect(alloc)
}

/// The pads among flashes and contours, in order.
///
/// # Errors
///
/// An `AllocError` where there is no memory for the list.
pub fn into_pads(alloc: Global, features: Vec<Feature>) -> Result<Vec<WidePad>, AllocError>
    ensures { IfOk result (λ pads. pads.items ≡ pads_of features.items) }
{
    features
        .into_iter()
        .filter_map(|feature| feature.what.into_pad())
        .collect(alloc)
}
