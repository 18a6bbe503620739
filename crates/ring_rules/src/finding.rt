//! The holes of a board, and what is found at them.

ghost use Rattle.std.specs.Prelude.{◌≡◌, false};
ghost use Rattle.pad_shapes.specs.Shapes.{IsAxisAligned};
ghost use Rattle.ring_rules.specs.Findings.{is_oblique, is_refused_slot};

use grid_units::{Hole, Profile, Span};

/// A hole of a board, whether its wall is plated, and the layers that it goes through.
#[derive(Clone, Copy, Debug)]
pub struct Drilled {
    /// Its two ends, which are one point where it is round, and its radius.
    pub hole: Hole,
    /// Whether its wall is plated.
    pub plated: bool,
    /// The layers that it goes through: all where there is no span.
    pub span: Option<Span>,
}

/// Where a rule is broken. Layers and holes are named by their places in the lists that were judged, from 0.
#[derive(Clone, Copy, Debug, PartialEq, Eq)]
pub enum Finding {
    /// A plated hole that no single pad of a layer covers with the ring round it: a round one, a slot along an axis, or in the wide
    /// profile a slot at any angle.
    Ring {
        /// The layer, by its place from 0.
        layer: usize,
        /// The hole, by its place from 0.
        hole: usize,
    },
    /// A plated slot whose ends differ in x and in y, in the strict profile.
    Oblique {
        /// The layer, by its place from 0.
        layer: usize,
        /// The hole, by its place from 0.
        hole: usize,
    },
    /// Two holes that are not clear of each other.
    Gap {
        /// The hole that comes first in the list, by its place from 0.
        first: usize,
        /// The hole that comes later, by its place from 0.
        second: usize,
    },
}

/// Whether the ends of a hole differ in x and in y. Else it lies along an axis, or is round.
pub fn is_oblique(hole: &Hole) -> bool
    ensures test { result ≡ is_oblique hole.now }
    ensures along { result ≡ false → IsAxisAligned hole.now.from hole.now.to }
{
    hole.from().x() != hole.to().x() && hole.from().y() != hole.to().y()
}

/// Whether a profile refuses a hole as a slot, whatever copper there is round it: the strict profile refuses an oblique slot, the wide
/// profile none.
pub fn is_refused_slot(profile: Profile, hole: &Hole) -> bool
    ensures { result ≡ is_refused_slot profile hole.now }
{
    is_oblique(hole) && matches!(profile, Profile::Strict)
}
