//! What a check, a measure and a report say of a package: rings and gaps by lines, findings with their causes, and why some are accepted.
//!
//! All lengths are whole picometres (pm).
#![tactic(auto)]

mod bare;
mod bounds;
mod cause;
mod counts;
mod cover;
mod fewest;
mod figures;
mod groups;
pub mod laws;
mod layer;
mod mistakes;
mod other;
mod scaled;
mod waived;

pub use board::Met;
pub use figures::{conflict_words, factor_word, flash_of, lack_of, ring_of};
use grid_units::{Hole, Rules};
pub use layer::CauseFinder;
pub use mistakes::{FileRange, unit_mistakes};
use pad_shapes::{Pad, Why, WidePad};
pub use scaled::scaled_point;
pub use waived::{acceptance_of, count_waived, count_waived_first, is_waived};

/// The rings of the holes of one diameter in one drill file, on the layer of one copper file.
#[derive(Clone, Copy, PartialEq, Eq)]
pub struct RingLine {
    /// The index of the copper file in the package, from 0.
    pub layer: usize,
    /// The index of the drill file in the package, from 0.
    pub drill: usize,
    /// The diameter in pm, at most 10 m.
    pub diameter: i64,
    /// How many holes need a ring.
    pub holes: usize,
    /// How many of them are bare: they lie in no pad.
    pub bare: usize,
    /// The least ring of those that are not bare.
    pub least: Option<LeastRing>,
}

/// The least ring of some holes, and the first hole that has it.
#[derive(Clone, Copy, PartialEq, Eq)]
pub struct LeastRing {
    /// The ring in pm, from -5 m to 5 m. Below 0 the hole is wider than the copper round its centre.
    pub ring: i64,
    /// The hole by its number in its file, from 1.
    pub hole: usize,
}

/// The least gap of two holes, and the first two that have it.
#[derive(Clone, Copy, PartialEq, Eq)]
pub struct GapLine {
    /// The gap in pm, from -10 m to 30 m. Below 0 the holes overlap.
    pub gap: i64,
    pub first: HolePlace,
    pub second: HolePlace,
}

/// Where a hole stands in a package.
#[derive(Clone, Copy, PartialEq, Eq)]
pub struct HolePlace {
    /// The index of the drill file in the package, from 0.
    pub drill: usize,
    /// The number of the hole in its file, from 1.
    pub number: usize,
}

/// A plated drill file whose coordinates seem to be off by a factor.
#[derive(Clone, Copy, PartialEq, Eq)]
pub struct UnitMistake {
    /// The index of the drill file in the package, from 0.
    pub drill: usize,
    /// How many of its round holes are bare on the first layer.
    pub bare: usize,
    /// The factor by which its coordinates seem to be off: what they are to be multiplied by.
    pub factor: UnitFactor,
    /// How many of its round holes would be bare then.
    pub then: usize,
}

/// A drill file whose own comments contradict its role.
#[derive(Clone, Copy, PartialEq, Eq)]
pub struct RoleConflict {
    /// The index of the drill file in the package, from 0.
    pub drill: usize,
    /// Whether the role calls its holes plated. Its comments say the other of them.
    pub plated: bool,
}

/// A factor that coordinates are multiplied by.
#[derive(Clone, Copy, PartialEq, Eq)]
pub enum UnitFactor {
    /// 10.
    Ten,
    /// 1/10.
    Tenth,
    /// 25.4, the millimetres of an inch.
    Inch,
    /// 1/25.4.
    PerInch,
}

/// The rules that a package meets.
#[derive(Clone, Copy)]
pub struct Meets {
    /// The rings that all holes have that need one.
    pub ring: Met,
    /// The gaps that any two holes have.
    pub gap: Met,
    /// The rings that all holes have that need one and are not bare.
    pub in_pads: Met,
}

/// The measure of a package, line by line.
#[derive(Drop)]
pub struct Measure {
    /// The least ring of each copper file, drill file and diameter.
    pub rings: Vec<RingLine>,
    /// The drill files whose coordinates seem to be off by a factor.
    pub scales: Vec<UnitMistake>,
    /// The least gap, if there are two holes.
    pub gap: Option<GapLine>,
    /// The greatest rules under which a check passes.
    pub meets: Meets,
}

/// The best pad of a hole, in which it lies deepest, where it is plain, and the hole's ring there.
#[derive(Clone, Copy)]
pub struct RingInPad {
    /// The number of its flash on the layer, from 1.
    pub flash: usize,
    /// The pad itself.
    pub pad: Pad,
    /// The ring in pm, from -5 m to 5 m. Below 0 the hole's edge lies outside the pad.
    pub ring: i64,
    /// The required ring less this one, in pm: from 1 pm to 15 m.
    pub lack: i64,
}

/// The best pad of a hole, where it is a rounded polygon, and the hole's ring there.
#[derive(Clone, Copy)]
pub struct RingAtEdge {
    /// The number of its flash or contour on the layer, from 1.
    pub flash: usize,
    /// The ring in pm, from -5 m to 10 m. Below 0 the hole's edge lies outside the pad.
    pub ring: i64,
    /// The required ring less this one, in pm: from 1 pm to 15 m.
    pub lack: i64,
}

/// The pads of a layer that its profile does not count.
#[derive(Clone, Copy)]
pub struct FurtherCopper<'a> {
    /// The shapes of flashes of macros.
    pub macros: &'a [WidePad],
    /// The contours of regions.
    pub contours: &'a [WidePad],
}

/// Why a hole lacks its ring on a layer: the first cause that applies.
#[derive(Clone, Copy)]
pub enum RingCause {
    /// The best pad is plain, and too small for the hole and its ring, wherever the hole stands in it.
    TooSmall(RingInPad),
    /// The best pad is plain and large enough, but the hole stands off its centre.
    OffCentre(RingInPad),
    /// The best pad is a rounded polygon, and the hole lies too near its edge.
    Edge(RingAtEdge),
    /// The hole lies in no pad, but a flash that is no pad has its point in the hole.
    Other {
        /// Why the flash is no pad.
        why: Why,
        /// The number of the flash on the layer, from 1.
        flash: usize,
    },
    /// The hole lies in no pad, but a flash in clear polarity has its point in the hole.
    Clear {
        /// The number of the flash on the layer, from 1.
        flash: usize,
    },
    /// The hole lies in no pad, but a flash that clear polarity takes away has its point in the hole.
    Cleared {
        /// The number of the flash on the layer, from 1.
        flash: usize,
    },
    /// The hole lies in no pad, and no other flash has its point in it, but the shape of a macro's flash that the profile does not count
    /// covers both its ends.
    MacroShape,
    /// The hole lies in no pad and in no such shape, and no other flash has its point in it, but a contour that the profile does not count
    /// covers both its ends.
    DrawnCopper,
    /// The hole lies in no pad, in no such shape and in no such contour, and no other flash has its point in it.
    NoFlash,
    /// The hole is a plated slot that is parallel to neither axis, which the strict profile refuses.
    Oblique,
}

/// A hole with its place in a package.
#[derive(Clone, Copy)]
pub struct PlacedHole {
    pub place: HolePlace,
    pub hole: Hole,
}

/// A hole that lacks its ring on a layer.
#[derive(Clone, Copy)]
pub struct RingLack {
    /// The place of the layer among the copper files, from 0.
    pub layer: usize,
    /// The hole.
    pub at: PlacedHole,
    /// Why it lacks its ring.
    pub cause: RingCause,
}

/// Two holes that lack their gap.
#[derive(Clone, Copy)]
pub struct GapLack {
    /// The hole that comes first in the package.
    pub first: PlacedHole,
    /// The other hole.
    pub second: PlacedHole,
    /// The gap in pm, from -10 m to 10 m. Below 0 the holes overlap.
    pub gap: i64,
    /// The required gap less this one, in pm: from 1 pm to 20 m.
    pub lack: i64,
}

/// The head of a layer: its file, and how many holes need a ring there.
#[derive(Clone, Copy)]
pub struct LayerHead {
    /// The index of the copper file in the package, from 0.
    pub file: usize,
    /// The number of holes that need a ring there.
    pub needed: usize,
}

/// The report on a package.
#[derive(Drop)]
pub struct BoardReport {
    /// The required ring and gap.
    pub rules: Rules,
    /// The layers, in the order of the copper files.
    pub layers: Vec<LayerHead>,
    /// The holes that lack their ring, layer by layer.
    pub rings: Vec<RingLack>,
    /// The pairs of holes that lack their gap.
    pub gaps: Vec<GapLack>,
    /// The drill files whose coordinates seem to be off by a factor.
    pub scales: Vec<UnitMistake>,
    /// The drill files whose own comments contradict their role, in the order of the files.
    pub conflicts: Vec<RoleConflict>,
    /// The rules that the package meets.
    pub meets: Meets,
}

/// The reasons why findings of a report are accepted. Findings past the end of a list have none.
#[derive(Clone, Copy)]
pub struct Acceptances<'a> {
    /// For each ring, in the order of [`BoardReport::rings`], the reason why it is accepted, or `None`.
    pub rings: &'a [Option<&'a str>],
    /// For each gap, in the order of [`BoardReport::gaps`], the reason why it is accepted, or `None`.
    pub gaps: &'a [Option<&'a str>],
    /// The numbers of the records of the file of waivers that waive nothing, in order.
    pub idle: &'a [usize],
}
