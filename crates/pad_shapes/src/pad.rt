//! Pads of any shape.

ghost use Rattle.std.specs.Prelude.{◌≡◌, ◌≤◌, ◌^◌, pos};
ghost use Rattle.pad_shapes.specs.Pads.{IsInPad, pad_covers, pad_height, pad_left, pad_right, pad_width};
ghost use Rattle.pad_shapes.specs.Inner.ShapeLaws.{pad_contains_covered, pad_contains_slots, pad_between, pad_extent};

use crate::disc::Disc;
use crate::obround::Obround;
use crate::rect::Rect;
use crate::shape::PadShape;
use crate::zone::Zone;
use grid_units::Point;

/// A flashed pad of any shape.
#[derive(Clone, Copy, Debug, PartialEq, Eq)]
pub enum Pad {
    /// A round pad (aperture `C`).
    Disc(Disc),
    /// A rectangular pad (aperture `R`).
    Rect(Rect),
    /// A pad with two round ends (aperture `O`).
    Obround(Obround),
}

impl Pad {
    /// The width of the pad in pm: its side along x, of a disc the diameter.
    pub fn width(&self) -> i64
        ensures value { result ≡ pos (pad_width self.now) }
        ensures within { pad_width self.now ≤ 10 ^ 13 }
    {
        match self {
            Pad::Disc(disc) => 2 * disc.radius(),
            Pad::Rect(rect) => 2 * rect.half_x(),
            Pad::Obround(obround) => 2 * obround.half_x(),
        }
    }

    /// The height of the pad in pm: its side along y, of a disc the diameter.
    pub fn height(&self) -> i64
        ensures value { result ≡ pos (pad_height self.now) }
        ensures within { pad_height self.now ≤ 10 ^ 13 }
    {
        match self {
            Pad::Disc(disc) => 2 * disc.radius(),
            Pad::Rect(rect) => 2 * rect.half_y(),
            Pad::Obround(obround) => 2 * obround.half_y(),
        }
    }
}

impl PadShape for Pad {
    ghost points = { IsInPad };

    ghost covers = { pad_covers };

    ghost left = { pad_left };

    ghost right = { pad_right };

    ghost holds = { pad_contains_covered };

    ghost holds_slots = { pad_contains_slots };

    ghost between = { pad_between };

    ghost extent = { pad_extent };

    fn covers(&self, hole: Point, reach: i64) -> bool {
        match self {
            Pad::Disc(disc) => disc.covers(hole, reach),
            Pad::Rect(rect) => rect.covers(hole, reach),
            Pad::Obround(obround) => obround.covers(hole, reach),
        }
    }

    fn left(&self) -> i64 {
        match self {
            Pad::Disc(disc) => disc.left(),
            Pad::Rect(rect) => rect.left(),
            Pad::Obround(obround) => obround.left(),
        }
    }

    fn right(&self) -> i64 {
        match self {
            Pad::Disc(disc) => disc.right(),
            Pad::Rect(rect) => rect.right(),
            Pad::Obround(obround) => obround.right(),
        }
    }

    fn zone(&self, reach: u64) -> Option<Zone> {
        match self {
            Pad::Disc(disc) => disc.zone(reach),
            Pad::Rect(rect) => rect.zone(reach),
            Pad::Obround(obround) => obround.zone(reach),
        }
    }

    fn may_cover(&self, zone: &Zone, reach: u64) -> bool {
        match self {
            Pad::Disc(disc) => disc.may_cover(zone, reach),
            Pad::Rect(rect) => rect.may_cover(zone, reach),
            Pad::Obround(obround) => obround.may_cover(zone, reach),
        }
    }
}
