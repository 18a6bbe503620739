//! The flashes and contours of a layer as a profile has them, and their rows.

ghost use Rattle.std.specs.Prelude.{◌≡◌, ◌++◌, [], IfOk, OnOk};
ghost use Rattle.std.specs.List.{cons_option, filter_map};
ghost use Rattle.layer_features.specs.Features.{contour_pad, macro_pad, rows_of, uncounted_contours, uncounted_macros, view_in};

use grid_units::Profile;
use layer_features::{Feature, FeatureKind, strict_view};
use pad_shapes::{FeatureRow, WidePad};
use std::alloc::{AllocError, Global};

/// The pads of a layer that its profile does not count, in the order of the text.
#[derive(Drop)]
pub struct Uncounted {
    /// The shapes of flashes, most of them of macros.
    pub macros: Vec<WidePad>,
    /// The contours of regions.
    pub contours: Vec<WidePad>,
}

impl Uncounted {
    /// No pads. This takes no memory.
    pub fn nothing(alloc: Global) -> Uncounted
        ensures macros { result.macros.items ≡ [] }
        ensures contours { result.contours.items ≡ [] }
    {
        Uncounted {
            macros: Vec::new(alloc),
            contours: Vec::new(alloc),
        }
    }
}

/// The flashes and contours of a layer that was read in this profile, as the profile has them; [`crate::Layer::features`] are as the wide one has them.
///
/// # Errors
///
/// An `AllocError` where there is no memory for the list.
pub fn view_in(
    alloc: Global,
    profile: Profile,
    features: Vec<Feature>,
) -> Result<Vec<Feature>, AllocError>
    ensures { IfOk result (λ view. view.items ≡ view_in profile features.items) }
{
    if let Profile::Wide = profile {
        return Ok(features);
    }
    let view = strict_view(alloc, &features);
    drop(features);
    view
}

/// The rows of flashes and contours, in the order of the text.
///
/// # Errors
///
/// An `AllocError` where there is no memory for the list.
pub fn rows_of(alloc: Global, features: &[Feature]) -> Result<Vec<FeatureRow>, AllocError>
    ensures { IfOk result (λ rows. rows.items ≡ rows_of features.now) }
{
    features.iter().map(|feature| feature.row()).collect(alloc)
}

/// Adds the pad of a flash or contour of the wide profile, where the strict one does not count it.
fn add_uncounted(found: &mut Uncounted, what: FeatureKind) -> Result<(), AllocError>
    ensures macros { OnOk result (found.new.macros.items ≡ found.old.macros.items ++ cons_option (macro_pad what) []) }
    ensures contours { OnOk result (found.new.contours.items ≡ found.old.contours.items ++ cons_option (contour_pad what) []) }
{
    match what {
        FeatureKind::Shape(pad, _) => found.macros.push(WidePad::Rounded(pad))?,
        FeatureKind::Contour(pad) => found.contours.push(WidePad::Rounded(pad))?,
        FeatureKind::Pad(_)
        | FeatureKind::Other(_)
        | FeatureKind::Macro(_)
        | FeatureKind::Clear
        | FeatureKind::Cleared => {}
    }
    Ok(())
}

/// Adds the pads among flashes and contours of the wide profile that the strict one does not count.
fn add_all_uncounted(found: &mut Uncounted, features: Vec<Feature>) -> Result<(), AllocError>
    ensures macros { OnOk result (found.new.macros.items ≡ found.old.macros.items ++ filter_map (λ f. macro_pad f.what) features.items) }
    ensures contours { OnOk result (found.new.contours.items ≡ found.old.contours.items ++ filter_map (λ f. contour_pad f.what) features.items) }
{
    for feature in features {
        add_uncounted(found, feature.what)?;
    }
    Ok(())
}

/// The flashes and contours of a layer that was read in this profile, as the profile has them, and the pads that it does not count.
///
/// # Errors
///
/// An `AllocError` where there is no memory for the lists.
pub fn counted_in(
    alloc: Global,
    profile: Profile,
    features: Vec<Feature>,
) -> Result<(Vec<Feature>, Uncounted), AllocError>
    ensures view { IfOk result (λ found. found.0.items ≡ view_in profile features.items) }
    ensures macros { IfOk result (λ found. found.1.macros.items ≡ uncounted_macros profile features.items) }
    ensures contours { IfOk result (λ found. found.1.contours.items ≡ uncounted_contours profile features.items) }
{
    let mut uncounted = Uncounted::nothing(alloc);
    if let Profile::Wide = profile {
        return Ok((features, uncounted));
    }
    let view = strict_view(alloc, &features)?;
    add_all_uncounted(&mut uncounted, features)?;
    Ok((view, uncounted))
}
