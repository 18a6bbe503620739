//! How large pads are, to choose the cells of an index. Any answer is right: only the time depends on it.

use grid_units::Rules;
use pad_shapes::PadShape;
use ring_rules::Drilled;
use std::iter::StepBy;
use std::slice::Iter;

/// How much longer one side of a pad may be, compared with the other, than those for which an index is quick.
const ALIKE: u128 = 16;

/// The width and the height of pads, in pm.
#[derive(Clone, Copy)]
pub(crate) struct PadSize {
    pub(crate) width: u64,
    pub(crate) height: u64,
}

impl PadSize {
    /// Whether the sides of both have about the same ratio.
    pub(crate) fn is_shaped_like(self, other: PadSize) -> bool {
        let flat = u128::from(self.width).saturating_mul(u128::from(other.height));
        let tall = u128::from(other.width).saturating_mul(u128::from(self.height));
        flat <= tall.saturating_mul(ALIKE) && tall <= flat.saturating_mul(ALIKE)
    }
}

/// The size of a pad that would give most of these holes their ring: twice the mean radius and the ring, each way.
pub(crate) fn likely_size(holes: &[Drilled], rules: Rules) -> PadSize {
    let mut total: u64 = 0;
    for drilled in holes {
        total = total.saturating_add(drilled.hole.radius().unsigned_abs());
    }
    let mean = total / (holes.len() as u64).max(1);
    let side = mean
        .saturating_add(rules.ring().unsigned_abs())
        .saturating_mul(2);
    let (width, height) = (side, side);
    PadSize { width, height }
}

/// The size of a pad, as far as it has a zone.
fn size_of<S: PadShape>(pad: &S) -> PadSize {
    let (width, height) = match pad.zone(0) {
        Some(zone) => (
            zone.right.abs_diff(zone.left),
            zone.top.abs_diff(zone.bottom),
        ),
        None => (1, 1),
    };
    PadSize { width, height }
}

/// The pads that are measured: of more than 64 only some, at even distances.
fn sample<S>(pads: &[S]) -> StepBy<Iter<S>> {
    pads.iter().step_by(pads.len() / 64 + 1)
}

/// Whether most of the pads that are measured are shaped otherwise than one of this size.
pub(crate) fn are_unlike<S: PadShape>(pads: &[S], size: PadSize) -> bool {
    let unlike = sample(pads)
        .filter(|pad| !size_of(*pad).is_shaped_like(size))
        .count();
    sample(pads).count() / 2 < unlike
}

/// The mean size of the pads that are measured; none where there is no pad.
pub(crate) fn mean_size<S: PadShape>(pads: &[S]) -> Option<PadSize> {
    let (mut width, mut height): (u64, u64) = (0, 0);
    for pad in sample(pads) {
        let size = size_of(pad);
        width = width.saturating_add(size.width);
        height = height.saturating_add(size.height);
    }
    let count = sample(pads).count() as u64;
    if count == 0 {
        return None;
    }
    let (width, height) = (width / count, height / count);
    Some(PadSize { width, height })
}
