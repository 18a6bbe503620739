// What the check reads of a file of a package.
ghost use Rattle.std.specs.Prelude.{◌≡◌, ℕ, List, OnOk, true};
ghost use Rattle.grid_units.specs.Results.{Answers};
ghost use Rattle.grid_units.specs.declared.fault.Fail.TheVariants as fails;
ghost use Rattle.drill_text.specs.Holding.{StandsBy};
ghost use Rattle.grid_units.specs.declared.profile.Profile.{Profile as TheProfile};
ghost use Rattle.drill_text.specs.declared.kept.Keep.TheVariants as drill_keep;
ghost use Rattle.layer_features.specs.Kept.{keeps_drawn, keeps_rows};
ghost use Rattle.package_check.specs.FileTexts.{Draws, drill_kind, mixed_kind};
ghost use Rattle.package_check.specs.Holding.{HasShown, is_kind};
ghost use Rattle.package_check.specs.OpenFiles.{CopperStandsIn};
ghost use Rattle.package_check.specs.Package.{ReadsCopper, ReadsHoles, ReadsMixedHoles, is_bad_span, is_copper};

use crate::readers::{Drill, Layer, MixedDrill, marked, view};
use crate::{Role, Said};
use board::Shown;
use drill_text::DrillReader;
use grid_units::{Fail, Fault, Reason};
use layer_image::{Keep, LayerReader};
use ring_rules::Span;
use std::alloc::Global;

/// What the check keeps of a file.
#[derive(Drop)]
pub(crate) enum Content {
    Layer(Layer),
    Drill {
        plated: bool,
        span: Option<Span>,
        drill: Drill,
    },
    Mixed {
        span: Option<Span>,
        drill: MixedDrill,
    },
}

/// The refusal of a file as a whole, whatever its text is.
pub(crate) fn refusal(reason: Reason) -> Fail
    ensures { result ≡ fails.Refused (record { place = 0; byte = 0; reason = reason }) }
{
    Fail::Refused(Fault {
        place: 0,
        byte: 0,
        reason,
    })
}

/// The content of the copper file whose text the reader has read; it is refused where its layer is not copper. What is kept of it to be shown is put into `shown`.
pub(crate) fn read_copper(
    alloc: Global,
    keep: Keep,
    shown: &mut Shown,
    reader: LayerReader,
) -> Result<Content, Fail>
    ensures copper { (profile : TheProfile) (text : List ℕ) → CopperStandsIn reader profile keep text → Answers (λ x. x) (ReadsCopper profile text) result }
    ensures flashes { (profile : TheProfile) (text : List ℕ) → CopperStandsIn reader profile keep text → keeps_rows keep ≡ true → OnOk result (HasShown profile text shown.new) }
    ensures drawn { (profile : TheProfile) (text : List ℕ) → CopperStandsIn reader profile keep text → keeps_drawn keep ≡ true → OnOk result (Draws profile text shown.new.drawn.items) }
{
    let profile = reader.profile();
    let image = reader.finish()?;
    let Ok(layer) = view(alloc, profile, keep, shown, image) else {
        return Err(Fail::Memory);
    };
    if layer.is_copper {
        Ok(Content::Layer(layer))
    } else {
        Err(refusal(Reason::NotCopper))
    }
}

/// The content of the drill file whose text the reader has read.
pub(crate) fn read_drill(plated: bool, said: Said, reader: DrillReader) -> Result<Content, Fail>
    ensures { (profile : TheProfile) (text : List ℕ) → StandsBy reader (drill_kind profile said.format plated) drill_keep.Holes text → Answers (λ x. x) (ReadsHoles profile plated said text) result }
{
    let drill = reader.finish()?;
    let contradicted = drill.contradicts(plated);
    let drill = Drill {
        holes: drill.into_holes(),
        contradicted,
    };
    Ok(Content::Drill {
        plated,
        span: said.span,
        drill,
    })
}

/// The content of the mixed drill file whose text the reader has read.
pub(crate) fn read_mixed(alloc: Global, said: Said, reader: DrillReader) -> Result<Content, Fail>
    ensures { (profile : TheProfile) (text : List ℕ) → StandsBy reader (mixed_kind profile said.format) drill_keep.Holes text → Answers (λ x. x) (ReadsMixedHoles profile said text) result }
{
    let drill = reader.finish()?;
    let (holes, plated) = drill.into_plated_holes();
    let span = said.span;
    let holes = marked(alloc, &span, &holes, &plated)?;
    let drill = MixedDrill { holes };
    Ok(Content::Mixed { span, drill })
}

pub(crate) fn is_copper(role: Role) -> bool
    ensures { result ≡ is_copper role }
{
    matches!(role, Role::Copper)
}

/// Whether this is the role of a copper file, or of a drill file, as `copper` says.
pub(crate) fn is_kind(role: Role, copper: bool) -> bool
    ensures { result ≡ is_kind copper role }
{
    is_copper(role) == copper
}

/// Whether this span is bad for a file of this role: it is copper, or the span ends above the number of copper files.
pub(crate) fn is_bad_span(role: Role, span: Option<Span>, layers: usize) -> bool
    ensures { result ≡ is_bad_span role span layers }
{
    match span {
        Some(span) => is_copper(role) || layers < span.last() as usize,
        None => false,
    }
}
