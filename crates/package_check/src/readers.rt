//! What the check keeps of a file as it reads it: pads of a layer, holes of a drill file.

ghost use Rattle.std.specs.Prelude.{◌≡◌, [], ◌==◌, not, ℕ, List, Ok, IfOk, OnOk, true};
ghost use Rattle.grid_units.specs.declared.profile.Profile.{Profile as TheProfile};
ghost use Rattle.std.specs.List.{take_while};
ghost use Rattle.std.specs.Option.{option_copied};
ghost use Rattle.gerber_text.specs.Reading.{Entries};
ghost use Rattle.gerber_text.specs.Writing.{without_places};
ghost use Rattle.layer_image.specs.Kept.{IsKeptOf, ReadsKeptIn};
ghost use Rattle.layer_features.specs.DrawnCopper.{first_parts, uncleared_drawn};
ghost use Rattle.layer_features.specs.Features.{features_of, pads_of, rows_of, view_in, wide_features_of};
ghost use Rattle.layer_features.specs.Kept.{keeps_drawn, keeps_rows};
ghost use Rattle.layer_features.specs.declared.keep.Keep.{Keep as TheKeep};
ghost use Rattle.layer_features.specs.declared.keep.Keep.TheVariants as keep;
ghost use Rattle.package_check.specs.FileTexts.{Draws, HasLayerView, is_copper_function, layer_view, holes_with_platings};
ghost use Rattle.package_check.specs.Holding.{HasShown, ShowsRows};
ghost use Rattle.package_check.specs.OpenFiles.{copper_keep};

use board::Shown;
use grid_units::numbers::len_before;
use grid_units::{Hole, Profile};
use layer_image::{
    Feature, FeatureCounts, Keep, Uncounted, counted_in, into_pads, rows_of, strict_layers,
};
use pad_shapes::WidePad;
use ring_rules::{Drilled, Span};
use std::alloc::{AllocError, Global};
use std::marker::Model;

/// What the check keeps of a copper file.
#[derive(Drop)]
pub(crate) struct Layer {
    /// The pads, in the order of the text: flashes and contours.
    pub(crate) pads: Vec<WidePad>,
    pub(crate) counts: FeatureCounts,
    pub(crate) is_copper: bool,
}

impl Model for Layer {
    ghost use Rattle.package_check.specs.ContentViews.{LayerView};

    ghost Value = { LayerView };

    ghost view = { λ l. record { pads = l.pads.items; flashed = l.counts.flashed; contours = l.counts.contours; other = l.counts.other; is_copper = l.is_copper } };
}

/// What the check keeps of a drill file: its holes, and whether its comments contradict its role.
#[derive(Drop)]
pub(crate) struct Drill {
    pub(crate) holes: Vec<Hole>,
    pub(crate) contradicted: bool,
}

impl Model for Drill {
    ghost use Rattle.package_check.specs.ContentViews.{DrillView};

    ghost Value = { DrillView };

    ghost view = { λ d. record { holes = d.holes.items; contradicted = d.contradicted } };
}

/// What the check keeps of a mixed drill file: its holes, each plated or not, with the span of the file.
#[derive(Drop)]
pub(crate) struct MixedDrill {
    pub(crate) holes: Vec<Drilled>,
}

impl Model for MixedDrill {
    ghost use Rattle.std.specs.Prelude.{List};
    ghost use Rattle.ring_rules.specs.declared.finding.Drilled.{Drilled};

    ghost Value = { List Drilled };

    ghost view = { λ d. d.holes.items };
}

/// Whether the first field of a file function is `Copper`. A layer without one is taken for copper.
pub(crate) fn is_copper_function(function: Option<&[u8]>) -> bool
    ensures { result ≡ is_copper_function (option_copied function.entry) }
{
    match function {
        Some(text) => text.split_at(len_before(b',', text)).0 == b"Copper".as_slice(),
        None => true,
    }
}

/// What the check keeps of a layer whose pads alone are kept.
fn pads_view(alloc: Global, image: layer_image::Layer) -> Result<Layer, AllocError>
    ensures { (profile : TheProfile) (entries : Entries) → IsKeptOf profile keep.Pads [] entries image → IfOk result (λ view. view ≡ layer_view profile (without_places entries)) }
{
    let counts = image.counts();
    let is_copper = is_copper_function(image.file_function());
    Ok(Layer {
        pads: image.into_pads(alloc)?,
        counts,
        is_copper,
    })
}

/// Puts the rows of flashes and contours into `shown`, and gives the pads among them.
fn show_rows(
    alloc: Global,
    shown: &mut Shown,
    features: Vec<Feature>,
) -> Result<Vec<WidePad>, AllocError>
    ensures pads { IfOk result (λ pads. pads.items ≡ pads_of features.items) }
    ensures rows { OnOk result (shown.new.rows.items ≡ rows_of features.items) }
    ensures macros { shown.new.macros ≡ shown.old.macros }
    ensures contours { shown.new.contours ≡ shown.old.contours }
    ensures drawn { shown.new.drawn ≡ shown.old.drawn }
{
    match rows_of(alloc, &features) {
        Ok(rows) => shown.rows = rows,
        Err(stop) => return Err(stop),
    }
    into_pads(alloc, features)
}

/// What the check keeps of a layer of this profile whose flashes and contours are kept. Its rows, the pads that do not count, and what is
/// drawn are put into `shown`.
fn rows_view(
    alloc: Global,
    profile: Profile,
    shown: &mut Shown,
    image: layer_image::Layer,
) -> Result<Layer, AllocError>
    ensures view { (of : TheKeep) (entries : Entries) → IsKeptOf profile of [] entries image → keeps_rows of ≡ true → view_in profile (wide_features_of (without_places entries)) ≡ features_of profile (without_places entries) → IfOk result (λ view. view ≡ layer_view profile (without_places entries)) }
    ensures rows { (of : TheKeep) (entries : Entries) → IsKeptOf profile of [] entries image → keeps_rows of ≡ true → view_in profile (wide_features_of (without_places entries)) ≡ features_of profile (without_places entries) → OnOk result (ShowsRows profile (without_places entries) shown.new) }
    ensures drawn { (of : TheKeep) (entries : Entries) → IsKeptOf profile of [] entries image → keeps_drawn of ≡ true → OnOk result (shown.new.drawn.items ≡ first_parts (uncleared_drawn (without_places entries))) }
{
    let counts = image.counts();
    let is_copper = is_copper_function(image.file_function());
    let (features, drawn) = image.into_rows();
    shown.drawn = drawn;
    let (features, uncounted) = counted_in(alloc, profile, features)?;
    let Uncounted { macros, contours } = uncounted;
    shown.macros = macros;
    shown.contours = contours;
    Ok(Layer {
        pads: show_rows(alloc, shown, features)?,
        counts,
        is_copper,
    })
}

/// What the check keeps of a layer of this profile. What is kept to be shown is put into `shown`.
pub(crate) fn view(
    alloc: Global,
    profile: Profile,
    keep: Keep,
    shown: &mut Shown,
    image: layer_image::Layer,
) -> Result<Layer, AllocError>
    ensures view { (text : List ℕ) → ReadsKeptIn profile (copper_keep keep) [] text (Ok image) → IfOk result (λ view. HasLayerView profile text view) }
    ensures rows { (text : List ℕ) → ReadsKeptIn profile (copper_keep keep) [] text (Ok image) → keeps_rows keep ≡ true → OnOk result (HasShown profile text shown.new) }
    ensures drawn { (text : List ℕ) → ReadsKeptIn profile (copper_keep keep) [] text (Ok image) → keeps_drawn keep ≡ true → OnOk result (Draws profile text shown.new.drawn.items) }
{
    strict_layers();
    if keep.rows() {
        return rows_view(alloc, profile, shown, image);
    }
    pads_view(alloc, image)
}

/// These holes with this span, each plated or not as the other list says, as long as both lists go on.
pub(crate) fn marked(
    alloc: Global,
    span: &Option<Span>,
    holes: &[Hole],
    plated: &[bool],
) -> Result<Vec<Drilled>, AllocError>
    ensures { IfOk result (λ all. all.items ≡ holes_with_platings span.now holes.now plated.now) }
{
    let mut all = Vec::with_capacity(alloc, holes.len())?;
    for (i, hole) in holes.iter().enumerate() {
        if i >= plated.len() {
            return Ok(all);
        }
        let plated = plated[i];
        all.push(Drilled {
            hole: *hole,
            plated,
            span: *span,
        })?;
    }
    Ok(all)
}
