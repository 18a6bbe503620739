//! Which layers the copper files are, and which drill files name layers that they do not make clear.

ghost use Rattle.std.specs.Prelude.{◌≡◌, IfOk, OnOk, Some, map};
ghost use Rattle.std.specs.List.{count_by};
ghost use Rattle.std.specs.List.Sorted.{IsNonDecreasing};
ghost use Rattle.manifest.specs.Manifests as manifests;
ghost use Rattle.manifest.specs.Stack as says;

use crate::manifests::{is_copper, layers_of_role};
use crate::model::{HoleKind, LayerRange, Proposal, ProposalReason, ProposedRole, StackPosition};
use std::alloc::{AllocError, Global};

/// Whether a file is a sign that so many copper files are not all: it may be a copper layer, or it names a layer beyond them.
fn hints_at_missing(count: usize, file: &Proposal) -> bool
    ensures { result ≡ says.hints_at_missing count file.now }
{
    let may_be_copper = matches!(
        file.because,
        ProposalReason::Plane
            | ProposalReason::NothingSays
            | ProposalReason::ConflictingName
            | ProposalReason::RepeatedLayer
            | ProposalReason::NotRead
            | ProposalReason::TooLong
    );
    may_be_copper
        || match layers_of_role(file.role) {
            Some(layers) => count < layers.last as usize,
            None => false,
        }
}

/// How many copper files there are.
fn copper_count(files: &[Proposal]) -> usize
    ensures { result ≡ count_by manifests.is_copper files.now }
{
    files.iter().filter(|file| is_copper(file)).count()
}

/// Whether no file is a sign that a copper file is missing.
fn is_copper_complete(count: usize, files: &[Proposal]) -> bool
    requires { count ≡ count_by manifests.is_copper files.now }
    ensures { result ≡ says.is_copper_complete files.now }
{
    !files.iter().any(|file| hints_at_missing(count, file))
}

/// The number of the layer that a file is, from 1 at the top; 0 where it is no copper file, or where its layer is not known.
/// `here` says whether the copper files, `count` of them, are all here.
fn layer_of_role(here: bool, count: usize, role: ProposedRole) -> usize
    ensures { result ≡ says.layer_of_role here count role }
{
    match role {
        ProposedRole::Copper(StackPosition::Numbered(n)) => n as usize,
        ProposedRole::Copper(StackPosition::Top) => 1,
        ProposedRole::Copper(StackPosition::Inner(n)) if here => n as usize + 1,
        ProposedRole::Copper(StackPosition::Bottom) if here => count,
        _ => 0,
    }
}

/// The number of the layer of each copper file, 0 where it is not known.
fn copper_layers(alloc: Global, files: &[Proposal]) -> Result<Vec<usize>, AllocError>
    ensures { IfOk result (λ layers. layers.items ≡ says.copper_layers files.now) }
{
    let count = copper_count(files);
    let here = is_copper_complete(count, files);
    files
        .iter()
        .filter(|file| is_copper(file))
        .map(|file| layer_of_role(here, count, file.role))
        .collect(alloc)
}

/// Whether sorted numbers are just those from 1 to their count, each once.
fn ascend_from_one(numbers: &[usize]) -> bool
    requires { IsNonDecreasing numbers.now }
    ensures { result ≡ says.are_one_to_n numbers.now }
{
    for (index, number) in numbers.iter().enumerate() {
        if *number != index + 1 {
            return false;
        }
    }
    true
}

/// Whether the copper files are the layers 1 to their number, each once.
fn is_stack(alloc: Global, files: &[Proposal]) -> Result<bool, AllocError>
    ensures { IfOk result (λ stack. stack ≡ says.is_stack files.now) }
{
    let mut layers = copper_layers(alloc, files)?;
    layers.sort_unstable();
    Ok(ascend_from_one(&layers))
}

/// Whether layers are a first one from 1 and a last one that is not below it, among so many.
fn are_within_count(count: usize, layers: LayerRange) -> bool
    ensures { result ≡ says.are_within_count count (Some layers) }
{
    1 <= layers.first && layers.first <= layers.last && layers.last as usize <= count
}

/// Whether holes from the top layer or not, to the bottom layer or not, are of a kind.
fn is_of_kind(kind: HoleKind, top: bool, bottom: bool) -> bool
    ensures { result ≡ says.is_of_kind kind top bottom }
{
    match kind {
        HoleKind::Through => top && bottom,
        HoleKind::Blind => top != bottom,
        HoleKind::Buried => !top && !bottom,
        HoleKind::Unsaid => true,
    }
}

/// Whether no layers are named, or the copper files are a stack and these are some of its layers, of the kind that is said.
fn are_clear(stack: bool, count: usize, span: Option<LayerRange>) -> bool
    ensures { result ≡ says.are_clear stack count span }
{
    match span {
        Some(layers) => {
            let (top, bottom) = (layers.first == 1, layers.last as usize == count);
            stack && are_within_count(count, layers) && is_of_kind(layers.kind, top, bottom)
        }
        None => true,
    }
}

/// Makes a proposal undecided where it names layers that are not clear.
fn check_layers(stack: bool, count: usize, file: &mut Proposal)
    ensures { file.new ≡ says.layers_checked_in stack count file.old }
{
    if !are_clear(stack, count, layers_of_role(file.role)) {
        file.role = ProposedRole::Undecided;
        file.because = ProposalReason::UnclearLayers;
    }
}

/// Makes each drill file undecided that names layers which the copper files do not make clear.
pub(crate) fn check_all_layers(alloc: Global, files: &mut Vec<Proposal>) -> Result<(), AllocError>
    ensures { OnOk result (files.new.items ≡ map (says.layers_checked files.old.items) files.old.items) }
{
    let count = copper_count(files);
    let stack = is_stack(alloc, files)?;
    for file in files.iter_mut() {
        check_layers(stack, count, file);
    }
    Ok(())
}
