//! The words for holes, pads and causes.

ghost use Rattle.std.specs.Prelude.{◌≡◌, ◌*◌, ◌-ℤ◌, map, Some};
ghost use Rattle.grid_units.specs.Points.{IsCoordinate};
ghost use Rattle.print_text.specs.Causes.{kind_words};
ghost use Rattle.print_text.specs.Texts.{at_edge_words, cause_words, halfway, hole_middle, hole_words, in_pad_words, measured_words, other_words, pad_words, place_words, shape_word};

use crate::kind::{CauseKind, kind_of, kind_words};
use board::DepthShape;
use grid_units::{DrilledWords, Hole, Point, ShortMillimetres, name_of};
use pad_shapes::Pad;
use report::{PlacedHole, RingAtEdge, RingCause, RingInPad};
use std::fmt;
use std::fmt::{Display, Formatter};

/// A hole, with the name of its drill file: `hole 17 of board-PTH.drl, 0.3 at 15.001,13`.
#[derive(Clone, Copy)]
pub(crate) struct HoleWords<'a> {
    /// The names of the files of the package.
    pub(crate) names: &'a [&'a str],
    /// The hole.
    pub(crate) at: &'a PlacedHole,
}

impl Display for HoleWords<'_> {
    ghost output = { λ words. Some (hole_words (map (λ name. name.now) words.names.now) words.at.now) };

    #[tactic(auto, unfolding(crate::specs::Texts::number_words))]
    fn fmt<W: fmt::Write>(&self, f: &mut Formatter<W>) -> fmt::Result {
        let (number, name) = (
            self.at.place.number,
            name_of(self.names, self.at.place.drill),
        );
        let drilled = DrilledWords(&self.at.hole);
        write!(f, "hole {number} of {name}, {drilled}")
    }
}

/// The word for the shape of a pad.
fn shape_word(pad: &Pad) -> &'static str
    ensures { result.now ≡ shape_word pad.now }
{
    match pad {
        Pad::Disc(_) => "disc ",
        Pad::Rect(_) => "rect ",
        Pad::Obround(_) => "obround ",
    }
}

/// The shape and the sides of a pad: `disc 0.6x0.6`.
#[derive(Clone, Copy)]
struct PadWords<'a>(&'a Pad);

impl Display for PadWords<'_> {
    ghost output = { λ words. Some (pad_words words.0.now) };

    #[tactic(auto, unfolding(grid_units::specs::HoleWords::two_lengths))]
    fn fmt<W: fmt::Write>(&self, f: &mut Formatter<W>) -> fmt::Result {
        let width = ShortMillimetres(self.0.width());
        let height = ShortMillimetres(self.0.height());
        write!(f, "{}{width}x{height}", shape_word(self.0))
    }
}

/// Halfway between two coordinates, rounded towards 0.
fn halfway(a: i64, b: i64) -> i64
    requires a { IsCoordinate a }
    requires b { IsCoordinate b }
    ensures value { result ≡ halfway a b }
    ensures in_range { IsCoordinate result }
{
    (a + b) / 2
}

/// The middle of a hole, halfway between its ends.
fn hole_middle(hole: &Hole) -> Point
    ensures { result ≡ hole_middle hole.now }
{
    let (from, to) = (hole.from(), hole.to());
    Point::new(halfway(from.x(), to.x()), halfway(from.y(), to.y())).unwrap()
}

/// The middle of a hole less that of a pad, along x, in pm.
fn off_x(at: Point, middle: Point) -> i64
    ensures { result ≡ at.x -ℤ middle.x }
{
    at.x() - middle.x()
}

/// The middle of a hole less that of a pad, along y, in pm.
fn off_y(at: Point, middle: Point) -> i64
    ensures { result ≡ at.y -ℤ middle.y }
{
    at.y() - middle.y()
}

/// A pad, and how far the middle of the hole is off its middle: `disc 0.6x0.6, hole off by 0.001,0`.
#[derive(Clone, Copy)]
struct PlaceWords<'a> {
    hole: &'a Hole,
    pad: &'a Pad,
}

impl Display for PlaceWords<'_> {
    ghost output = { λ words. Some (place_words words.hole.now words.pad.now) };

    #[tactic(auto, unfolding(grid_units::specs::HoleWords::two_lengths))]
    fn fmt<W: fmt::Write>(&self, f: &mut Formatter<W>) -> fmt::Result {
        let (at, middle) = (hole_middle(self.hole), self.pad.middle());
        let x = ShortMillimetres(off_x(at, middle));
        let y = ShortMillimetres(off_y(at, middle));
        write!(f, "{}, hole off by {x},{y}", PadWords(self.pad))
    }
}

/// The length of a ring or a gap, and the rule for it: `gap 0.382301708 (rule 0.4)`.
#[derive(Clone, Copy)]
pub(crate) struct MeasuredWords<'a> {
    /// The words before it, such as `gap `.
    pub(crate) words: &'a str,
    /// The length in pm.
    pub(crate) has: i64,
    /// The required length in pm.
    pub(crate) rule: i64,
}

impl Display for MeasuredWords<'_> {
    ghost output = { λ line. Some (measured_words line.words.now line.has line.rule) };

    #[tactic(auto, unfolding(crate::specs::Texts::measured_words))]
    fn fmt<W: fmt::Write>(&self, f: &mut Formatter<W>) -> fmt::Result {
        let has = ShortMillimetres(self.has);
        let rule = ShortMillimetres(self.rule);
        write!(f, "{}{has} (rule {rule})", self.words)
    }
}

/// A ring in a pad, and why it is too small: `annular ring 0.149 (rule 0.15), off centre: flash 17, disc 0.6x0.6, hole off by 0.001,0`.
#[derive(Clone, Copy)]
struct InPadWords<'a> {
    kind: CauseKind,
    rule: i64,
    hole: &'a Hole,
    place: &'a RingInPad,
}

impl Display for InPadWords<'_> {
    ghost output = { λ words. Some (in_pad_words words.kind words.rule words.hole.now words.place.now) };

    #[tactic(auto, unfolding(crate::specs::Texts::flash_words))]
    fn fmt<W: fmt::Write>(&self, f: &mut Formatter<W>) -> fmt::Result {
        let place = PlaceWords {
            hole: self.hole,
            pad: &self.place.pad,
        };
        let ring = MeasuredWords {
            words: "annular ring ",
            has: self.place.ring,
            rule: self.rule,
        };
        let (words, flash) = (kind_words(self.kind), self.place.flash);
        write!(f, "{ring}, {words}: flash {flash}, {place}")
    }
}

/// A ring in a rounded pad or a contour: `annular ring 0.149 (rule 0.15), in a rounded pad or contour, too near its edge: flash 17`.
#[derive(Clone, Copy)]
struct AtEdgeWords<'a> {
    kind: CauseKind,
    rule: i64,
    place: &'a RingAtEdge,
}

impl Display for AtEdgeWords<'_> {
    ghost output = { λ words. Some (at_edge_words words.kind words.rule words.place.now) };

    fn fmt<W: fmt::Write>(&self, f: &mut Formatter<W>) -> fmt::Result {
        let ring = MeasuredWords {
            words: "annular ring ",
            has: self.place.ring,
            rule: self.rule,
        };
        let (words, flash) = (kind_words(self.kind), self.place.flash);
        write!(f, "{ring}, {words}: flash {flash}")
    }
}

/// A hole that lies in no pad, but in another flash: `annular ring not judged, only a macro flash: flash 156`.
#[derive(Clone, Copy)]
struct OtherWords(CauseKind, usize);

impl Display for OtherWords {
    ghost output = { λ words. Some (other_words (kind_words words.0) words.1) };

    fn fmt<W: fmt::Write>(&self, f: &mut Formatter<W>) -> fmt::Result {
        let (words, flash) = (kind_words(self.0), self.1);
        write!(f, "annular ring not judged, {words}: flash {flash}")
    }
}

/// Why a hole lacks its ring, with the figures of the cause: `annular ring not judged, only a macro flash: flash 156`.
#[derive(Clone, Copy)]
pub(crate) struct CauseWords<'a> {
    /// The required ring in pm.
    pub(crate) rule: i64,
    pub(crate) hole: &'a Hole,
    pub(crate) cause: &'a RingCause,
}

impl Display for CauseWords<'_> {
    ghost output = { λ words. Some (cause_words words.rule words.hole.now words.cause.now) };

    fn fmt<W: fmt::Write>(&self, f: &mut Formatter<W>) -> fmt::Result {
        let kind = kind_of(self.cause);
        let (rule, hole) = (self.rule, self.hole);
        match self.cause {
            RingCause::TooSmall(place) | RingCause::OffCentre(place) => {
                let words = InPadWords {
                    kind,
                    rule,
                    hole,
                    place,
                };
                write!(f, "{words}")
            }
            RingCause::Edge(place) => write!(f, "{}", AtEdgeWords { kind, rule, place }),
            RingCause::Other { flash, .. }
            | RingCause::Clear { flash }
            | RingCause::Cleared { flash } => write!(f, "{}", OtherWords(kind, *flash)),
            RingCause::NoFlash => f.write_str(kind_words(kind)),
            RingCause::MacroShape | RingCause::DrawnCopper | RingCause::Oblique => {
                write!(f, "annular ring not judged, {}", kind_words(kind))
            }
        }
    }
}
