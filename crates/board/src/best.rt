//! The pad in which a hole lies deepest.

ghost use Rattle.std.specs.Prelude.{◌<◌};
ghost use Rattle.pad_shapes.specs.Shapes.{max_reach};

/// The best pad of a hole: the first of those in which it lies deepest.
#[derive(Clone, Copy, PartialEq, Eq)]
pub struct BestPad {
    /// The place of the pad in the list, from 0.
    pub pad: usize,
    /// How deep the hole lies in it, in pm: less than twenty metres. The ring of the hole is this less its radius.
    pub depth: u64,
    ghost in_range: { depth < max_reach },
}
