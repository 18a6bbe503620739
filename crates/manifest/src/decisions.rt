//! What a file is, and why.

ghost use Rattle.std.specs.Prelude.{◌≡◌, IfOk, map};
ghost use Rattle.std.specs.List.{list_any};
ghost use Rattle.manifest.specs.Decisions as says;
ghost use Rattle.manifest.specs.Names as naming;

use crate::contents::{says_plated_holes, says_unplated_holes};
use crate::file_names::{has_end, is_other_word, is_unclear_word, names_copper, says_plated};
use crate::model::{HoleKind, LayerRange, ProposalReason, ProposedRole, StackPosition};
use crate::{
    FileKind, ends_in_copper, extension_of, fields_of, function_of, has_dot, is_one_of, kind_of,
    last_other_word, layer_number, lower_base_name, number_suffix, says_unplated, stem_of,
    word_runs,
};
use grid_units::Text;
use std::alloc::{AllocError, Global};

/// What is proposed for a file, and the reason for it.
pub(crate) type Decision = (ProposedRole, ProposalReason);

/// How holes go through a board, by the word after their layers.
fn hole_kind(word: &[u8]) -> HoleKind
    ensures { result ≡ says.hole_kind word.now }
{
    if word == b"PTH".as_slice() || word == b"NPTH".as_slice() {
        HoleKind::Through
    } else if word == b"Blind".as_slice() {
        HoleKind::Blind
    } else if word == b"Buried".as_slice() {
        HoleKind::Buried
    } else {
        HoleKind::Unsaid
    }
}

/// The layers that a drill file's function names.
pub(crate) fn layers_of_function(function: &[u8]) -> Option<LayerRange>
    ensures { result ≡ says.layers_of_function function.now }
{
    let fields = fields_of(function);
    Some(LayerRange {
        first: layer_number(fields.second)?,
        last: layer_number(fields.third)?,
        kind: hole_kind(fields.fourth),
    })
}

/// Whether a drill file's function says that its holes are blind or buried, and names no layers.
pub(crate) fn lacks_layers(function: &[u8]) -> bool
    ensures { result ≡ says.lacks_layers function.now }
{
    let kind = hole_kind(fields_of(function).fourth);
    matches!(kind, HoleKind::Blind | HoleKind::Buried) && layers_of_function(function).is_none()
}

/// The reason that names the first field of a file function.
fn by_function(alloc: Global, first: &[u8]) -> Result<ProposalReason, AllocError>
    ensures { IfOk result (λ because. because ≡ ProposalReason.FileFunction first.now) }
{
    Ok(ProposalReason::FileFunction(Text::from_slice(alloc, first)?))
}

/// A role by a file function, undecided where layers are lacking.
fn role_by_function(
    alloc: Global,
    function: &[u8],
    role: ProposedRole,
) -> Result<Option<Decision>, AllocError>
    ensures { IfOk result (λ decision. decision ≡ says.role_by_function function.now role) }
{
    if lacks_layers(function) {
        return Ok(Some((ProposedRole::Undecided, ProposalReason::UnclearLayers)));
    }
    Ok(Some((role, by_function(alloc, fields_of(function).first)?)))
}

/// What a drill file's function says.
fn drill_by_function(alloc: Global, function: &[u8]) -> Result<Option<Decision>, AllocError>
    ensures { IfOk result (λ decision. decision ≡ says.drill_by_function function.now) }
{
    let first = fields_of(function).first;
    let span = layers_of_function(function);
    if first == b"Plated".as_slice() {
        return role_by_function(alloc, function, ProposedRole::Plated(span));
    }
    if first == b"NonPlated".as_slice() {
        return role_by_function(alloc, function, ProposedRole::Unplated(span));
    }
    if first == b"MixedPlating".as_slice() {
        return Ok(Some((ProposedRole::Undecided, ProposalReason::MixedHoles)));
    }
    Ok(None)
}

/// What a drill file's text says: whether it says that holes are plated, whether it says that they are not, and what its function
/// says. Where it says both, nothing else counts.
fn drill_by_text(plated: bool, unplated: bool, function: Option<Decision>) -> Option<Decision>
    ensures { result ≡ says.drill_by_text plated unplated function }
{
    match (plated, unplated) {
        (true, true) => Some((ProposedRole::Undecided, ProposalReason::MixedHoles)),
        (true, false) => function.or(Some((
            ProposedRole::Plated(None),
            ProposalReason::PlatedType,
        ))),
        (false, true) => {
            function.or(Some((ProposedRole::Unplated(None), ProposalReason::UnplatedType)))
        }
        (false, false) => function,
    }
}

/// What a drill file's name says.
fn drill_by_name(alloc: Global, name: &[u8]) -> Result<Decision, AllocError>
    ensures { IfOk result (λ decision. decision ≡ says.drill_by_name name.now) }
{
    let lower = lower_base_name(alloc, name)?;
    let words = word_runs(alloc, lower.as_slice())?;
    Ok(match (says_plated(&words), says_unplated(&words)) {
        (true, true) => (ProposedRole::Undecided, ProposalReason::ConflictingName),
        (false, true) => (ProposedRole::Unplated(None), ProposalReason::ByName),
        (_, false) => (ProposedRole::Plated(None), ProposalReason::DrillByDefault),
    })
}

/// What a drill file is: by its text, else by its name.
fn drill_decision(alloc: Global, name: &[u8], text: &[u8]) -> Result<Decision, AllocError>
    ensures { IfOk result (λ decision. decision ≡ says.drill_decision name.now text.now) }
{
    let function = match function_of(text) {
        Some(function) => drill_by_function(alloc, function)?,
        None => None,
    };
    let (plated, unplated) = (says_plated_holes(text), says_unplated_holes(text));
    if let Some(decision) = drill_by_text(plated, unplated, function) {
        return Ok(decision);
    }
    drill_by_name(alloc, name)
}

/// The place in the stack that a field names: `L` and one to nine digits.
fn stack_position(place: &[u8]) -> StackPosition
    ensures { result ≡ says.stack_position place.now }
{
    let Some(digits) = place.strip_prefix(b"L") else {
        return StackPosition::Unknown;
    };
    match layer_number(digits) {
        Some(n) => StackPosition::Numbered(n),
        None => StackPosition::Unknown,
    }
}

/// What a Gerber file's function says.
fn gerber_by_function(alloc: Global, function: &[u8]) -> Result<Decision, AllocError>
    ensures { IfOk result (λ decision. decision ≡ says.gerber_by_function function.now) }
{
    let fields = fields_of(function);
    if fields.first == b"Copper".as_slice() {
        let place = stack_position(fields.second);
        return Ok((
            ProposedRole::Copper(place),
            by_function(alloc, fields.first)?,
        ));
    }
    let is_drill = fields.first == b"Plated".as_slice()
        || fields.first == b"NonPlated".as_slice()
        || fields.first == b"MixedPlating".as_slice();
    if is_drill {
        return Ok((ProposedRole::Undecided, ProposalReason::DrillInGerber));
    }
    Ok((ProposedRole::LeftOut, by_function(alloc, fields.first)?))
}

/// Copper at a place, by the name.
fn copper_by_name(place: StackPosition) -> Option<Decision>
    ensures { result ≡ says.copper_by_name place }
{
    Some((ProposedRole::Copper(place), ProposalReason::ByName))
}

/// Whether the end of a name is one of a layer without copper.
fn is_other_extension(end: &[u8]) -> bool
    ensures { result ≡ says.is_other_extension end.now }
{
    is_one_of(
        end,
        &[
            "gts", "gtp", "gto", "gbs", "gbp", "gbo", "gko", "gpt", "gpb", "gm", "gml", "stc",
            "sts", "plc", "pls", "crc", "crs",
        ],
    ) || number_suffix(&["gm", "gd"], end).is_some()
}

/// What the end of a Gerber file's name says.
fn gerber_by_extension(end: &[u8]) -> Option<Decision>
    ensures { result ≡ says.gerber_by_extension end.now }
{
    if number_suffix(&["gp"], end).is_some() {
        return Some((ProposedRole::Undecided, ProposalReason::Plane));
    }
    if is_other_extension(end) {
        return Some((ProposedRole::LeftOut, ProposalReason::ByName));
    }
    if is_one_of(end, &["gtl", "cmp"]) {
        return copper_by_name(StackPosition::Top);
    }
    if is_one_of(end, &["gbl", "sol"]) {
        return copper_by_name(StackPosition::Bottom);
    }
    copper_by_name(StackPosition::Inner(number_suffix(&["g", "gl", "ly"], end)?))
}

/// Whether a word is one of a top layer; `dropped` says whether a word for copper that followed it was dropped.
fn is_top_word(dropped: bool, word: &[u8]) -> bool
    ensures { result ≡ says.is_top_word dropped word.now }
{
    is_one_of(
        word,
        &["top", "front", "toplayer", "coppertop", "topcopper"],
    ) || (dropped && word == b"f".as_slice())
}

/// Whether a word is one of a bottom layer; `dropped` says whether a word for copper that followed it was dropped.
fn is_bottom_word(dropped: bool, word: &[u8]) -> bool
    ensures { result ≡ says.is_bottom_word dropped word.now }
{
    is_one_of(
        word,
        &[
            "bottom",
            "bot",
            "back",
            "bottomlayer",
            "copperbottom",
            "bottomcopper",
        ],
    ) || (dropped && word == b"b".as_slice())
}

/// What the last word of a stem says; `dropped` says whether a word for copper that followed it was dropped.
fn gerber_by_word(dropped: bool, word: &[u8]) -> Option<Decision>
    ensures { result ≡ says.gerber_by_word dropped word.now }
{
    if is_top_word(dropped, word) {
        return copper_by_name(StackPosition::Top);
    }
    if is_bottom_word(dropped, word) {
        return copper_by_name(StackPosition::Bottom);
    }
    let number = number_suffix(
        &["in", "inner", "innerlayer", "l", "layer", "group", "signal"],
        word,
    );
    match number {
        Some(n) => copper_by_name(StackPosition::Inner(n)),
        None if dropped => copper_by_name(StackPosition::Unknown),
        None => None,
    }
}

/// Whether a stem has a word of a layer without copper.
fn has_other_word(stem: &[&[u8]]) -> bool
    ensures { result ≡ list_any naming.is_other_word (map (λ word. word.now) stem.now) }
{
    stem.iter().any(|word| is_other_word(word))
}

/// Whether a stem has a word that names copper.
fn has_copper_word(stem: &[&[u8]]) -> bool
    ensures { result ≡ list_any naming.names_copper (map (λ word. word.now) stem.now) }
{
    stem.iter().any(|word| names_copper(word))
}

/// Whether a stem has a word that may be one of a layer without copper.
fn has_unclear_word(stem: &[&[u8]]) -> bool
    ensures { result ≡ list_any naming.is_unclear_word (map (λ word. word.now) stem.now) }
{
    stem.iter().any(|word| is_unclear_word(word))
}

/// What a stem with a word of a layer without copper says; `copper` says whether it names copper too.
fn other_by_name(copper: bool) -> Decision
    ensures { result ≡ says.other_by_name copper }
{
    if copper {
        (ProposedRole::Undecided, ProposalReason::ConflictingName)
    } else {
        (ProposedRole::LeftOut, ProposalReason::ByName)
    }
}

/// What the stem of a Gerber file's name says. A word of a layer without copper comes before all others.
fn gerber_by_stem(stem: &[&[u8]]) -> Option<Decision>
    ensures { result ≡ says.gerber_by_stem (map (λ word. word.now) stem.now) }
{
    if has_other_word(stem) {
        return Some(other_by_name(has_copper_word(stem)));
    }
    if has_unclear_word(stem) {
        return None;
    }
    gerber_by_word(ends_in_copper(stem), last_other_word(stem))
}

/// What the words of a Gerber file's name say: the end, else the last word of the stem.
fn gerber_by_words(point: bool, words: &[&[u8]]) -> Decision
    ensures { result ≡ says.gerber_by_words point (map (λ word. word.now) words.now) }
{
    let by_end = gerber_by_extension(extension_of(point, words));
    let by_stem = gerber_by_stem(stem_of(point, words));
    match by_end.or(by_stem) {
        Some(decision) => decision,
        None => (ProposedRole::Undecided, ProposalReason::NothingSays),
    }
}

/// What the name of a Gerber file says.
fn gerber_by_name(alloc: Global, name: &[u8]) -> Result<Decision, AllocError>
    ensures { IfOk result (λ decision. decision ≡ says.gerber_by_words (naming.has_end (naming.has_dot name.now) (naming.words_of name.now)) (naming.words_of name.now)) }
{
    let lower = lower_base_name(alloc, name)?;
    let words = word_runs(alloc, lower.as_slice())?;
    let end = has_end(has_dot(name), words.as_slice());
    Ok(gerber_by_words(end, words.as_slice()))
}

/// What a file with this name and text is, and why. A Gerber file is what its function says, else what its name says.
pub(crate) fn decision(alloc: Global, name: &[u8], text: &[u8]) -> Result<Decision, AllocError>
    ensures { IfOk result (λ decision. decision ≡ says.decision name.now text.now) }
{
    match kind_of(text) {
        FileKind::Gerber => match function_of(text) {
            Some(function) => gerber_by_function(alloc, function),
            None => gerber_by_name(alloc, name),
        },
        FileKind::Drill => drill_decision(alloc, name, text),
        FileKind::Empty => Ok((ProposedRole::LeftOut, ProposalReason::NoHoles)),
        FileKind::Archive => Ok((ProposedRole::LeftOut, ProposalReason::Archive)),
        FileKind::Neither => Ok((ProposedRole::LeftOut, ProposalReason::NoKind)),
    }
}
