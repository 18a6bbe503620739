//! Texts that are joined from parts, layers of texts in pieces, and faults as plain data.

use grid_units::{Fail, Fault, Profile, Reason};
use layer_image::{Keep, Layer, LayerReader};
use std::alloc::Global;

/// A layer of a format, a unit, an aperture, its selection, a flash and the end.
pub(crate) const LAYER: &[u8; 56] =
    b"%FSLAX46Y46*%\n%MOMM*%\n%ADD10C,0.65*%\nD10*\nX0Y0D03*\nM02*\n";

/// The pieces joined to one text, or `None` where memory runs out.
pub(crate) fn joined(alloc: Global, pieces: &[&[u8]]) -> Option<Vec<u8>> {
    pieces.concat(alloc).ok()
}

/// The refusal with this place, byte and reason, if there is one.
pub(crate) fn expected_fault(fault: Option<(u64, u64, Reason)>) -> Option<Fail> {
    let (place, byte, reason) = fault?;
    Some(Fail::Refused(Fault {
        place,
        byte,
        reason,
    }))
}

/// What is kept of the layer of a text that comes in pieces of this many bytes, read in a profile.
pub(crate) fn layer_in_pieces(
    alloc: Global,
    keep: Keep,
    profile: Profile,
    text: &[u8],
    size: usize,
) -> Result<Layer, Fail> {
    let mut reader = LayerReader::in_profile(alloc, keep, profile);
    for piece in text.chunks(size.max(1)) {
        reader.feed(piece)?;
    }
    reader.finish()
}

/// What is kept of the layer of a text that comes whole, read in a profile.
pub(crate) fn layer_of(
    alloc: Global,
    keep: Keep,
    profile: Profile,
    text: &[u8],
) -> Result<Layer, Fail> {
    layer_in_pieces(alloc, keep, profile, text, text.len())
}
