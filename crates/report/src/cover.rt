//! Which holes lie in pads that a layer's profile does not count.

ghost use Rattle.std.specs.Prelude.{◌≡◌, ◌<◌, IfOk, get_or, length, not, true};
ghost use Rattle.ring_rules.specs.Places.{hole_at};
ghost use Rattle.report.specs.Causes.{MarkUncounted, uncounted_pads};
ghost use Rattle.report.specs.Inner.CauseParts.{uncounted_cause};

use crate::{FurtherCopper, RingCause};
use board::bare_holes;
use ring_rules::Drilled;
use std::alloc::{AllocError, Global};

/// Of each hole whether it lies in no shape of a macro's flash, and whether in no contour, of those that a layer's profile does not
/// count.
#[derive(Drop)]
pub(crate) struct UncountedCover {
    macros: Vec<bool>,
    contours: Vec<bool>,
}

/// Whether the hole at a place lies in a pad, by the marks of the holes that do not.
fn lies_in_pad(bare: &[bool], place: usize) -> bool
    ensures { result ≡ not (get_or bare.now place true) }
{
    match bare.get(place) {
        Some(bare) => !*bare,
        None => false,
    }
}

impl UncountedCover {
    /// The marks of some holes.
    pub(crate) fn of(
        alloc: Global,
        uncounted: FurtherCopper,
        holes: &[Drilled],
    ) -> Result<UncountedCover, AllocError>
        ensures { IfOk result (MarkUncounted (uncounted_pads uncounted.entry) holes.now) }
    {
        Ok(UncountedCover {
            macros: bare_holes(alloc, uncounted.macros, holes)?,
            contours: bare_holes(alloc, uncounted.contours, holes)?,
        })
    }

    /// Why the hole at a place lacks its ring, where it lies in no pad that the profile counts and no other flash has its point in it. The pads and
    /// the holes must be those that this marks.
    pub(crate) fn cause_at(
        &self,
        uncounted: FurtherCopper,
        holes: &[Drilled],
        place: usize,
    ) -> RingCause
        requires marks { MarkUncounted (uncounted_pads uncounted) holes.now self.now }
        requires place { place < length holes.now }
        ensures { result ≡ uncounted_cause (uncounted_pads uncounted.entry) (hole_at holes.now place) }
    {
        if lies_in_pad(&self.macros, place) {
            RingCause::MacroShape
        } else if lies_in_pad(&self.contours, place) {
            RingCause::DrawnCopper
        } else {
            RingCause::NoFlash
        }
    }
}
