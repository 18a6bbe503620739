//! The board of the files of a package, from what each of them says.

ghost use Rattle.std.specs.Prelude.{◌≡◌, ◌++◌, IfOk, OnOk, count_by, map, not};
ghost use Rattle.std.specs.List.{flat_map};
ghost use Rattle.grid_units.specs.Holes.{is_round};
ghost use Rattle.package_check.specs.Holding.{contents_in, shown_board, shown_in};
ghost use Rattle.package_check.specs.Inner.Leftovers.{holes_in, layer_indexes_in};
ghost use Rattle.package_check.specs.Package.{pads_of, sum_of};
ghost use Rattle.package_check.specs.SoundnessAsRead.{drilled_in};

use crate::contents::Content;
use crate::slots::{Kept, push};
use board::{Board, FileSum, Shown};
use grid_units::Hole;
use pad_shapes::WidePad;
use ring_rules::{Drilled, Span};
use std::alloc::{AllocError, Global};

fn round(holes: &[Hole]) -> usize
    ensures { result ≡ count_by is_round holes.now }
{
    holes.iter().filter(|hole| hole.is_round()).count()
}

fn round_drilled(holes: &[Drilled]) -> usize
    ensures { result ≡ count_by (λ one. is_round one.hole) holes.now }
{
    holes.iter().filter(|one| one.hole.is_round()).count()
}

fn unplated(holes: &[Drilled]) -> usize
    ensures { result ≡ count_by (λ one. not one.plated) holes.now }
{
    holes.iter().filter(|one| !one.plated).count()
}

#[tactic(auto, using(crate::proofs::BoardsLemmas::counted))]
pub(crate) fn sum_of(content: &Content) -> FileSum
    ensures { result ≡ sum_of content.now }
{
    match content {
        Content::Layer(layer) => FileSum::Layer {
            pads: layer.counts.flashed,
            other: layer.counts.other,
            contours: layer.counts.contours,
        },
        Content::Drill {
            plated,
            span,
            drill,
        } => FileSum::Drill {
            plated: *plated,
            span: *span,
            contradicted: drill.contradicted,
            round: round(&drill.holes),
            slots: drill.holes.len() - round(&drill.holes),
        },
        Content::Mixed { span, drill } => FileSum::Mixed {
            span: *span,
            round: round_drilled(&drill.holes),
            slots: drill.holes.len() - round_drilled(&drill.holes),
            unplated: unplated(&drill.holes),
        },
    }
}

/// The index of each copper file among all files, from 0, by the counts of the files.
pub(crate) fn layer_indexes(alloc: Global, files: &[FileSum]) -> Result<Vec<usize>, AllocError>
    ensures { IfOk result (λ indexes. indexes.items ≡ layer_indexes_in files.now) }
{
    let mut indexes = Vec::new(alloc);
    for (index, file) in files.iter().enumerate() {
        if let FileSum::Layer { .. } = file {
            indexes.push(index)?;
        }
    }
    Ok(indexes)
}

/// Appends the holes of one file.
fn push_drilled(
    drilled: &mut Vec<Drilled>,
    plated: bool,
    span: &Option<Span>,
    holes: &[Hole],
) -> Result<(), AllocError>
    ensures { OnOk result (drilled.new.items ≡ drilled.old.items ++ map (λ hole. record { hole = hole; plated = plated; span = span.now }) holes.now) }
{
    for hole in holes {
        drilled.push(Drilled {
            hole: *hole,
            plated,
            span: *span,
        })?;
    }
    Ok(())
}

/// Appends the holes of a file, where it is a drill file.
pub(crate) fn push_holes(holes: &mut Vec<Drilled>, content: &Content) -> Result<(), AllocError>
    ensures { OnOk result (holes.new.items ≡ holes.old.items ++ drilled_in content.now) }
{
    match content {
        Content::Layer(_) => Ok(()),
        Content::Drill {
            plated,
            span,
            drill,
        } => push_drilled(holes, *plated, span, &drill.holes),
        Content::Mixed { drill, .. } => holes.extend_from_slice(&drill.holes),
    }
}

/// How many holes the drill files in the slots have together, to reserve their list at once.
pub(crate) fn hole_total(slots: &[Option<Kept>]) -> usize {
    let mut total: usize = 0;
    for slot in slots {
        if let Some(kept) = slot {
            total = total.saturating_add(len_of(&kept.content));
        }
    }
    total
}

/// How many holes a file has.
fn len_of(content: &Content) -> usize {
    match content {
        Content::Layer(_) => 0,
        Content::Drill { drill, .. } => drill.holes.len(),
        Content::Mixed { drill, .. } => drill.holes.len(),
    }
}

/// Moves the pads of a file to the list of layers, where it is a copper file.
fn push_pads(layers: &mut Vec<Vec<WidePad>>, content: Content) -> Result<(), AllocError>
    ensures { OnOk result (map (λ l. l.items) layers.new.items ≡ map (λ l. l.items) layers.old.items ++ pads_of content) }
{
    match content {
        Content::Layer(layer) => push(layers, layer.pads),
        Content::Drill { .. } | Content::Mixed { .. } => Ok(()),
    }
}

/// Moves what is kept in a slot to the lists of a board. The file's own list of holes is freed.
fn add_slot(
    files: &mut Vec<FileSum>,
    layers: &mut Vec<Vec<WidePad>>,
    holes: &mut Vec<Drilled>,
    views: &mut Vec<Shown>,
    slot: Option<Kept>,
) -> Result<(), AllocError>
    ensures files { OnOk result (files.new.items ≡ files.old.items ++ map sum_of (contents_in slot)) }
    ensures layers { OnOk result (map (λ l. l.items) layers.new.items ≡ map (λ l. l.items) layers.old.items ++ flat_map pads_of (contents_in slot)) }
    ensures holes { OnOk result (holes.new.items ≡ holes.old.items ++ holes_in slot) }
    ensures shown { OnOk result (views.new.items ≡ views.old.items ++ shown_in slot) }
{
    match slot {
        Some(kept) => {
            let Kept { content, shown } = kept;
            push(views, shown)?;
            push(files, sum_of(&content))?;
            push_holes(holes, &content)?;
            push_pads(layers, content)
        }
        None => Ok(()),
    }
}

/// The board of the files whose slots are filled, in the order of their indexes.
#[tactic(auto, using(crate::proofs::BoardsLemmas::sums_more, crate::proofs::BoardsLemmas::pads_more))]
pub(crate) fn board_of(alloc: Global, slots: Vec<Option<Kept>>) -> Result<Board, AllocError>
    ensures { IfOk result (λ board. board ≡ shown_board (flat_map contents_in slots.items) (flat_map shown_in slots.items)) }
{
    let mut holes = Vec::with_capacity(alloc, hole_total(&slots))?;
    let mut files = Vec::new(alloc);
    let mut layers = Vec::new(alloc);
    let mut shown = Vec::new(alloc);
    for slot in slots {
        add_slot(&mut files, &mut layers, &mut holes, &mut shown, slot)?;
    }
    let layer_indexes = layer_indexes(alloc, &files)?;
    Ok(Board::new(files, layers, layer_indexes, holes, shown))
}
