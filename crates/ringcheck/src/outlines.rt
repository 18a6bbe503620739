//! The outline of a board, from a loader, and what is printed where there is none.

ghost use Rattle.std.specs.Prelude.{◌≤◌, ℕ, List, IfOk};
ghost use Rattle.grid_units.specs.Results.{Answers};
ghost use Rattle.ringcheck_files.specs.Outcomes.{HasRisen};
ghost use Rattle.ringcheck.specs.Inner.Outlines.{AfterNoOutline, OfOutline};
ghost use Rattle.ringcheck.specs.Outlining.{ReadsOutline};
ghost use Rattle.ringcheck.specs.ParsedWords.{word_bytes};

use crate::{LoadFault, Loader};
use grid_units::{Fail, Fault, Profile};
use layer_image::{Drawn, Keep, LayerReader, strict_layers};
use ringcheck_files::{ABOVE_LIMIT, FILE_LIMIT, Failure, Status};
use std::alloc::Global;
use std::io::Write;

/// Why there is no outline.
#[derive(Clone, Copy)]
pub(crate) enum NoOutline {
    /// Its file is refused, with its fault.
    Refused(Fault),
    /// Its file cannot be read.
    Unread,
}

/// What the text of a layer draws.
fn read_outline(alloc: Global, text: &[u8]) -> Result<Vec<Drawn>, Fail>
    ensures { Answers (λ drawn. drawn.items) (λ answer. ReadsOutline text.now answer) result }
{
    strict_layers();
    let mut reader = LayerReader::in_profile(alloc, Keep::RowsAndDrawn, Profile::Strict);
    reader.feed(text)?;
    let layer = reader.finish()?;
    let (features, drawn) = layer.into_rows();
    drop(features);
    Ok(drawn)
}

/// What the file of an outline draws, by its name, or why it cannot be drawn; nothing where no file is named.
pub(crate) fn load_outline<L: Loader>(
    alloc: Global,
    loader: &mut L,
    file: Option<&str>,
) -> Result<Result<Vec<Drawn>, NoOutline>, Failure>
    ensures keeps { (n b : List ℕ) → L.has loader.new n b → L.has loader.old n b }
    ensures counts { L.failed loader.old ≤ L.failed loader.new }
    ensures loaded { IfOk result (OfOutline (L.has loader.old) (word_bytes file.entry) (HasRisen (L.failed loader.old) (L.failed loader.new))) }
{
    let Some(file) = file else {
        return Ok(Ok(Vec::new(alloc)));
    };
    match loader.load(alloc, file, FILE_LIMIT) {
        Ok(text) => match read_outline(alloc, text.as_slice()) {
            Ok(drawn) => Ok(Ok(drawn)),
            Err(Fail::Memory) => Err(Failure::Memory),
            Err(Fail::Refused(fault)) => Ok(Err(NoOutline::Refused(fault))),
        },
        Err(LoadFault::Device) => Ok(Err(NoOutline::Unread)),
        Err(LoadFault::Memory) => Err(Failure::Memory),
        Err(LoadFault::TooLong) => Ok(Err(NoOutline::Refused(ABOVE_LIMIT))),
    }
}

/// Prints why there is no outline, and returns the status of the run.
pub(crate) fn print_no_outline<W: Write>(out: &mut W, why: NoOutline) -> Result<Status, Failure>
    ensures { IfOk result (AfterNoOutline why (W.contents out.old) (W.contents out.new)) }
{
    match why {
        NoOutline::Refused(fault) => {
            let reason = fault.reason.name();
            let (place, byte) = (fault.place, fault.byte);
            write!(
                out,
                "refused outline place={place} byte={byte} reason={reason}\n"
            )?;
            Ok(Status::Refused)
        }
        NoOutline::Unread => {
            write!(out, "device outline\n")?;
            Ok(Status::Device)
        }
    }
}
