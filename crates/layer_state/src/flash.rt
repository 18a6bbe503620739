//! Flashes, and the pads among them.

ghost use Rattle.std.specs.Prelude.{◌≡◌};
ghost use Rattle.layer_state.specs.Inner.MovedPads.{moved_what};

use grid_units::Point;
use pad_shapes::{Disc, Obround, Pad, Rect, Why};

/// What a flash leaves on the layer.
#[derive(Clone, Copy, Debug, PartialEq, Eq)]
pub enum What {
    /// A pad, centred on the point of the flash.
    Pad(Pad),
    /// Anything else than a pad, and why.
    Other(Why),
}

/// A flash at its point. A step and repeat block has one for each copy.
#[derive(Clone, Copy, Debug, PartialEq, Eq)]
pub struct Flash {
    pub at: Point,
    pub what: What,
}

impl What {
    /// What the flash leaves, moved to another point.
    // Each flash of a plain layer comes here: with a call it takes a hundredth more of the whole.
    #[inline(always)]
    pub(crate) fn at(&self, centre: Point) -> What
        ensures { result ≡ moved_what centre self.now }
    {
        match self {
            What::Pad(Pad::Disc(disc)) => {
                What::Pad(Pad::Disc(Disc::new(centre, disc.radius()).unwrap()))
            }
            What::Pad(Pad::Rect(rect)) => What::Pad(Pad::Rect(Rect::new(
                centre,
                rect.half_x(),
                rect.half_y(),
            ).unwrap())),
            What::Pad(Pad::Obround(obround)) => What::Pad(Pad::Obround(Obround::new(
                centre,
                obround.half_x(),
                obround.half_y(),
            ).unwrap())),
            What::Other(why) => What::Other(*why),
        }
    }
}

/// What is kept of the flashes of the strict profile, beside their number.
#[derive(Clone, Copy)]
pub enum FlashKeep {
    /// Flashes, and the pads among them in a list of their own.
    All,
    /// Flashes alone, with the shapes of apertures.
    Flashes,
    /// Pads alone.
    Pads,
}

impl FlashKeep {
    ghost use Rattle.layer_state.specs.KeptFlashes.{keeps_flashes, keeps_pads, keeps_shapes};

    /// Whether each flash is kept.
    pub(crate) fn flashes(self) -> bool
        ensures { result ≡ keeps_flashes self }
    {
        matches!(self, FlashKeep::All | FlashKeep::Flashes)
    }

    /// Whether the pads are kept in a list of their own.
    pub(crate) fn pads(self) -> bool
        ensures { result ≡ keeps_pads self }
    {
        matches!(self, FlashKeep::All | FlashKeep::Pads)
    }

    /// Whether the macros and the shapes of apertures are kept.
    pub(crate) fn shapes(self) -> bool
        ensures { result ≡ keeps_shapes self }
    {
        matches!(self, FlashKeep::Flashes)
    }
}
