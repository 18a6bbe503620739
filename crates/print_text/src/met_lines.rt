//! The line of the rules that a package meets.

ghost use Rattle.std.specs.Prelude.{◌≡◌, Some};
ghost use Rattle.print_text.specs.Texts.{gap_met_words, meets_line, no_pad_words, ring_met_words, without_start, without_words};

use grid_units::ShortMillimetres;
use report::{Meets, Met};
use std::fmt;
use std::fmt::{Display, Formatter};

/// How many findings are of holes that have no pad, if there are any: `: 3 findings are of holes with no pad that counts`.
#[derive(Clone, Copy)]
struct NoPadWords(usize);

impl Display for NoPadWords {
    ghost output = { λ words. Some (no_pad_words words.0) };

    fn fmt<W: fmt::Write>(&self, f: &mut Formatter<W>) -> fmt::Result {
        if self.0 == 0 {
            return Ok(());
        }
        if self.0 == 1 {
            return f.write_str(": 1 finding is of a hole with no pad that counts");
        }
        write!(
            f,
            ": {} findings are of holes with no pad that counts",
            self.0
        )
    }
}

/// The start of the words for the ring that is met without some holes.
fn without_start(without: usize) -> &'static str
    ensures { result.now ≡ without_start without }
{
    if without == 1 {
        " (without it: "
    } else {
        " (without them: "
    }
}

/// The greatest ring that is met without the holes that have no pad: ` (without them: 0.149)`; nothing where no other hole needs a ring.
#[derive(Clone, Copy)]
struct WithoutWords {
    /// How many findings are of holes that have no pad.
    without: usize,
    /// The greatest ring for the other holes.
    in_pads: Met,
}

impl Display for WithoutWords {
    ghost output = { λ words. Some (without_words words.without words.in_pads) };

    fn fmt<W: fmt::Write>(&self, f: &mut Formatter<W>) -> fmt::Result {
        match self.in_pads {
            Met::Any | Met::None => Ok(()),
            Met::UpTo(length) => write!(
                f,
                "{}{})",
                without_start(self.without),
                ShortMillimetres(length)
            ),
        }
    }
}

/// The greatest ring that the package meets, or why it meets none.
#[derive(Clone, Copy)]
struct RingMetWords(MeetsLine);

impl Display for RingMetWords {
    ghost output = { λ words. Some (ring_met_words words.0.without words.0.meets.in_pads words.0.meets.ring) };

    fn fmt<W: fmt::Write>(&self, f: &mut Formatter<W>) -> fmt::Result {
        let (without, in_pads) = (self.0.without, self.0.meets.in_pads);
        match self.0.meets.ring {
            Met::Any => f.write_str("any annular ring is met"),
            Met::UpTo(length) => write!(f, "annular ring {} is met", ShortMillimetres(length)),
            Met::None => write!(
                f,
                "no annular ring is met{}{}",
                NoPadWords(without),
                WithoutWords { without, in_pads }
            ),
        }
    }
}

/// The greatest gap that the package meets.
#[derive(Clone, Copy)]
struct GapMetWords(Met);

impl Display for GapMetWords {
    ghost output = { λ words. Some (gap_met_words words.0) };

    fn fmt<W: fmt::Write>(&self, f: &mut Formatter<W>) -> fmt::Result {
        match self.0 {
            Met::Any => f.write_str("any hole to hole gap is met"),
            Met::UpTo(length) => write!(f, "hole to hole {} is met", ShortMillimetres(length)),
            Met::None => f.write_str("no hole to hole gap is met"),
        }
    }
}

/// The line of the rules that the package meets:
/// `no annular ring is met: 3 findings are of holes with no pad that counts (without them: 0.149); hole to hole 0.2 is met`.
#[derive(Clone, Copy)]
pub(crate) struct MeetsLine {
    /// How many findings are of holes that have no pad.
    pub(crate) without: usize,
    pub(crate) meets: Meets,
}

impl Display for MeetsLine {
    ghost output = { λ line. Some (meets_line line.without line.meets) };

    #[tactic(auto, unfolding(crate::specs::Texts::meets_line))]
    fn fmt<W: fmt::Write>(&self, f: &mut Formatter<W>) -> fmt::Result {
        let (ring, gap) = (RingMetWords(*self), GapMetWords(self.meets.gap));
        write!(f, "{ring}; {gap}\n")
    }
}
