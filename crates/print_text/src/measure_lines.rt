//! The lines of a measure.

ghost use Rattle.std.specs.Prelude.{Some};
ghost use Rattle.print_text.specs.MeasureLines.{gap_line, hole_words, least_ring_words, meets_line, met_words, ring_line, scale_line};

use grid_units::{Line, Millimetres};
use report::{GapLine, HolePlace, LeastRing, Meets, Met, RingLine, UnitMistake, factor_word};
use std::fmt;
use std::fmt::{Display, Formatter};

/// What lines share that share nothing.
#[derive(Clone, Copy)]
pub(crate) struct NoPage;

/// The least ring and its hole, or `none`.
#[derive(Clone, Copy)]
struct LeastWords(Option<LeastRing>);

impl Display for LeastWords {
    ghost output = { λ words. Some (least_ring_words words.0) };

    fn fmt<W: fmt::Write>(&self, f: &mut Formatter<W>) -> fmt::Result {
        match self.0 {
            Some(least) => write!(f, "{} hole={}", Millimetres(least.ring), least.hole),
            None => f.write_str("none"),
        }
    }
}

/// The line of the rings of one layer, drill file and diameter, with its line end. Files and layers are numbered from 1.
impl Line<NoPage> for RingLine {
    ghost text = { λ _ line. ring_line line };

    #[tactic(auto, unfolding(crate::specs::MeasureLines::ring_line))]
    fn fmt_on<W: fmt::Write>(&self, _page: &NoPage, f: &mut Formatter<W>) -> fmt::Result {
        let (layer, drill) = (self.layer as u128 + 1, self.drill as u128 + 1);
        let (diameter, least) = (Millimetres(self.diameter), LeastWords(self.least));
        let (holes, bare) = (self.holes, self.bare);
        write!(f, "ring layer={layer} drill={drill} diameter=")?;
        write!(f, "{diameter} holes={holes} bare={bare} least={least}\n")
    }
}

/// The line of a drill file whose coordinates seem to be off by a factor, with its line end. Files are numbered from 1.
impl Line<NoPage> for UnitMistake {
    ghost text = { λ _ line. scale_line line };

    #[tactic(auto, unfolding(crate::specs::MeasureLines::scale_line))]
    fn fmt_on<W: fmt::Write>(&self, _page: &NoPage, f: &mut Formatter<W>) -> fmt::Result {
        let (drill, bare) = (self.drill as u128 + 1, self.bare);
        let (factor, then) = (factor_word(self.factor), self.then);
        write!(
            f,
            "scale drill={drill} bare={bare} factor={factor} then={then}\n"
        )
    }
}

/// The number of a hole's file, from 1, and the number of the hole, with a space before each.
#[derive(Clone, Copy)]
struct PlaceWords(HolePlace);

impl Display for PlaceWords {
    ghost output = { λ words. Some (hole_words words.0) };

    fn fmt<W: fmt::Write>(&self, f: &mut Formatter<W>) -> fmt::Result {
        let (drill, hole) = (self.0.drill as u128 + 1, self.0.number);
        write!(f, " drill={drill} hole={hole}")
    }
}

/// The line of the least gap, with its line end: `gap least=0.250000000 drill=3 hole=1 drill=4 hole=2`.
#[derive(Clone, Copy)]
pub(crate) struct GapLineText(pub(crate) GapLine);

impl Display for GapLineText {
    ghost output = { λ line. Some (gap_line line.0) };

    #[tactic(auto, unfolding(crate::specs::MeasureLines::gap_line))]
    fn fmt<W: fmt::Write>(&self, f: &mut Formatter<W>) -> fmt::Result {
        let (first, second) = (PlaceWords(self.0.first), PlaceWords(self.0.second));
        write!(f, "gap least={}{first}{second}\n", Millimetres(self.0.gap))
    }
}

/// What is met: a length in millimetres, `any` or `none`.
#[derive(Clone, Copy)]
struct MetWords(Met);

impl Display for MetWords {
    ghost output = { λ words. Some (met_words words.0) };

    fn fmt<W: fmt::Write>(&self, f: &mut Formatter<W>) -> fmt::Result {
        match self.0 {
            Met::Any => f.write_str("any"),
            Met::UpTo(length) => write!(f, "{}", Millimetres(length)),
            Met::None => f.write_str("none"),
        }
    }
}

/// The last line, with its line end: `meets ring=0.125000000 gap=0.250000000 held=none`.
#[derive(Clone, Copy)]
pub(crate) struct MeetsText(pub(crate) Meets);

impl Display for MeetsText {
    ghost output = { λ meets. Some (meets_line meets.0) };

    #[tactic(auto, unfolding(crate::specs::MeasureLines::meets_line))]
    fn fmt<W: fmt::Write>(&self, f: &mut Formatter<W>) -> fmt::Result {
        let (ring, gap) = (MetWords(self.0.ring), MetWords(self.0.gap));
        let held = MetWords(self.0.in_pads);
        write!(f, "meets ring={ring} gap={gap} held={held}\n")
    }
}
