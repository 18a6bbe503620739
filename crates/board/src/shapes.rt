//! The depths of points in discs, rectangles, obrounds, rounded polygons and pads.

ghost use Rattle.board.specs.Depths.{pad_middle, wide_pad_middle};
ghost use Rattle.board.specs.Inner.DepthLaws.{disc_covers_less, rect_covers_less, obround_covers_less, pad_covers_less, rounded_covers_less, wide_pad_covers_less};

use crate::deep::DepthShape;
use crate::hull::Hull;
use crate::roots::{apart_x, apart_y, length_rounded_up, less};
use grid_units::Point;
use pad_shapes::{Disc, Obround, Pad, PlacedRounded, Rect, WidePad};

impl DepthShape for Disc {
    ghost middle = { λ d. d.centre };

    ghost covers_less = { disc_covers_less };

    fn depth(&self, at: Point) -> i64 {
        let far = length_rounded_up(apart_x(at, self.centre()), apart_y(at, self.centre()));
        less(self.radius().unsigned_abs(), far)
    }

    fn middle(&self) -> Point {
        self.centre()
    }

    fn hull(&self) -> Option<Hull> {
        let radius = self.radius().unsigned_abs();
        Some(Hull {
            centre: self.centre(),
            half_x: radius,
            half_y: radius,
            radius,
            axis_x: 0,
            axis_y: 0,
            depth: radius,
        })
    }
}

impl DepthShape for Rect {
    ghost middle = { λ r. r.centre };

    ghost covers_less = { rect_covers_less };

    fn depth(&self, at: Point) -> i64 {
        let deep_x = less(self.half_x().unsigned_abs(), apart_x(at, self.centre()));
        let deep_y = less(self.half_y().unsigned_abs(), apart_y(at, self.centre()));
        deep_x.min(deep_y)
    }

    fn middle(&self) -> Point {
        self.centre()
    }

    fn hull(&self) -> Option<Hull> {
        let half_x = self.half_x().unsigned_abs();
        let half_y = self.half_y().unsigned_abs();
        let radius = half_x.min(half_y);
        Some(Hull {
            centre: self.centre(),
            half_x,
            half_y,
            radius,
            axis_x: half_x,
            axis_y: half_y,
            depth: radius,
        })
    }
}

impl DepthShape for Obround {
    ghost middle = { λ o. o.centre };

    ghost covers_less = { obround_covers_less };

    fn depth(&self, at: Point) -> i64 {
        let half_x = self.half_x().unsigned_abs();
        let half_y = self.half_y().unsigned_abs();
        let radius = half_x.min(half_y);
        let past_x = apart_x(at, self.centre()).saturating_sub(half_x - radius);
        let past_y = apart_y(at, self.centre()).saturating_sub(half_y - radius);
        less(radius, length_rounded_up(past_x, past_y))
    }

    fn middle(&self) -> Point {
        self.centre()
    }

    fn hull(&self) -> Option<Hull> {
        let half_x = self.half_x().unsigned_abs();
        let half_y = self.half_y().unsigned_abs();
        let radius = half_x.min(half_y);
        Some(Hull {
            centre: self.centre(),
            half_x,
            half_y,
            radius,
            axis_x: half_x - radius,
            axis_y: half_y - radius,
            depth: radius,
        })
    }
}

impl DepthShape for Pad {
    ghost middle = { pad_middle };

    ghost covers_less = { pad_covers_less };

    fn depth(&self, at: Point) -> i64 {
        match self {
            Pad::Disc(disc) => disc.depth(at),
            Pad::Rect(rect) => rect.depth(at),
            Pad::Obround(obround) => obround.depth(at),
        }
    }

    fn middle(&self) -> Point {
        match self {
            Pad::Disc(disc) => disc.centre(),
            Pad::Rect(rect) => rect.centre(),
            Pad::Obround(obround) => obround.centre(),
        }
    }

    fn hull(&self) -> Option<Hull> {
        match self {
            Pad::Disc(disc) => disc.hull(),
            Pad::Rect(rect) => rect.hull(),
            Pad::Obround(obround) => obround.hull(),
        }
    }
}

impl DepthShape for PlacedRounded {
    ghost middle = { λ r. r.first };

    ghost covers_less = { rounded_covers_less };

    fn depth(&self, at: Point) -> i64 {
        match self.greatest_reach(at) {
            Some(reach) => reach as i64,
            None => -1,
        }
    }

    fn middle(&self) -> Point {
        self.first()
    }
}

impl DepthShape for WidePad {
    ghost middle = { wide_pad_middle };

    ghost covers_less = { wide_pad_covers_less };

    fn depth(&self, at: Point) -> i64 {
        match self {
            WidePad::Plain(pad) => pad.depth(at),
            WidePad::Rounded(rounded) => rounded.depth(at),
        }
    }

    fn middle(&self) -> Point {
        match self {
            WidePad::Plain(pad) => pad.middle(),
            WidePad::Rounded(rounded) => rounded.middle(),
        }
    }

    fn hull(&self) -> Option<Hull> {
        match self {
            WidePad::Plain(pad) => pad.hull(),
            WidePad::Rounded(rounded) => rounded.hull(),
        }
    }
}
