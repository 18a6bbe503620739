//! What a drill file with both plated and unplated holes is, in each profile.

ghost use Rattle.std.specs.Prelude.{◌≡◌, IfOk, option_map};
ghost use Rattle.grid_units.specs.Results.{Answers};
ghost use Rattle.grid_units.specs.declared.profile.Profile.TheVariants.{Wide};
ghost use Rattle.drill_text.specs.Outcome.{file_of};
ghost use Rattle.drill_text.specs.Profiles.{ReadsAsBy, mixed_in};
ghost use Rattle.drill_text.specs.declared.kept.Keep.TheVariants as keep;
ghost use Rattle.drill_text.specs.declared.platings.PlatingKind.TheVariants as plating;
ghost use Rattle.manifest.specs.MixedFiles as says;

use crate::decisions::{Decision, decision, lacks_layers, layers_of_function};
use crate::function_of;
use crate::model::{ProposalReason, ProposedRole};
use drill_text::{Drill, DrillReader, Keep, PlatingKind};
use grid_units::{Fail, Profile};
use std::alloc::{AllocError, Global};

/// The mixed drill file of a text, as a check in the wide profile reads it, or its first fault.
fn read_mixed(alloc: Global, text: &[u8]) -> Result<Drill, Fail>
    ensures { Answers (λ drill. drill) (ReadsAsBy (mixed_in Wide) (file_of plating.Mixed keep.Holes) text.now) result }
{
    let mut reader = DrillReader::of_kind(alloc, Keep::Holes, Profile::Wide, PlatingKind::Mixed);
    reader.feed(text)?;
    reader.finish()
}

/// Whether the wide profile reads a text as a mixed drill file.
fn is_mixed_text(alloc: Global, text: &[u8]) -> Result<bool, AllocError>
    ensures { IfOk result (λ mixed. mixed ≡ says.is_mixed_text text.now) }
{
    match read_mixed(alloc, text) {
        Ok(_) => Ok(true),
        Err(Fail::Refused(_)) => Ok(false),
        Err(Fail::Memory) => Err(AllocError),
    }
}

/// The role `mixed`, with the layers of the file function, if there is one; undecided where layers are lacking.
fn mixed_by_function(function: Option<&[u8]>) -> Decision
    ensures { result ≡ says.mixed_by_function (option_map (λ fields. fields.now) function.entry) }
{
    match function {
        None => (ProposedRole::Mixed(None), ProposalReason::MixedTools),
        Some(fields) if lacks_layers(fields) => {
            (ProposedRole::Undecided, ProposalReason::UnclearLayers)
        }
        Some(fields) => (
            ProposedRole::Mixed(layers_of_function(fields)),
            ProposalReason::MixedTools,
        ),
    }
}

/// What a drill file with both plated and unplated holes is in the wide profile: mixed where a check reads it so.
fn mixed_decision(alloc: Global, text: &[u8]) -> Result<Decision, AllocError>
    ensures { IfOk result (λ decision. decision ≡ says.mixed_decision text.now) }
{
    if is_mixed_text(alloc, text)? {
        Ok(mixed_by_function(function_of(text)))
    } else {
        Ok((ProposedRole::Undecided, ProposalReason::UnreadMixed))
    }
}

/// What a file with this name and text is in a profile, and why. The wide profile alone has the role `mixed`.
pub(crate) fn decision_in(
    alloc: Global,
    profile: Profile,
    name: &[u8],
    text: &[u8],
) -> Result<Decision, AllocError>
    ensures { IfOk result (λ decision. decision ≡ says.decision_in profile name.now text.now) }
{
    let alone = decision(alloc, name, text)?;
    match (profile, &alone.1) {
        (Profile::Wide, ProposalReason::MixedHoles) => mixed_decision(alloc, text),
        _ => Ok(alone),
    }
}
