//! What drilling may leave of the rules: a hole that is drilled off its place or wider takes from its ring and from its gaps.

ghost use Rattle.std.specs.Prelude.{◌≡◌, ◌≤◌, ◌*◌, pos, Some};
ghost use Rattle.grid_units.specs.Points.{max_coordinate};
ghost use Rattle.print_text.specs.Drilling.{drilling_line, drilling_of, drilling_text, gap_left, left_of, left_words, ring_left};

use grid_units::{MAX_COORDINATE, Reason, Rules, ShortMillimetres};
use std::fmt;
use std::fmt::{Display, Formatter};
use std::marker::Model;

/// How far off its place each hole may be drilled, and how much wider in radius, in pm.
#[derive(Clone, Copy)]
pub struct Drilling {
    off: u64,
    wide: u64,
}

impl Model for Drilling {
    ghost use Rattle.std.specs.Prelude.{◌≤◌};
    ghost use Rattle.grid_units.specs.Points.{max_coordinate};
    ghost use Rattle.print_text.specs.Drilling.{DrillBounds};

    ghost Value = { DrillBounds };

    ghost view = { λ d. record { off = d.off; wide = d.wide } };

    ghost invariant = { λ d. (d.off ≤ max_coordinate) × (d.wide ≤ max_coordinate) };

    ghost inverse = { λ d. record { off = d.off; wide = d.wide } };
}

/// What is left of a rule, in pm, where drilling takes this much from it; nothing where that is less than `least`.
fn left_of(least: u64, rule: u64, taken: u64) -> Option<i64>
    requires least { least ≤ 1 }
    requires rule { rule ≤ max_coordinate }
    requires taken { taken ≤ 4 * max_coordinate }
    ensures { result ≡ left_of least rule taken }
{
    if taken + least <= rule {
        Some((rule - taken) as i64)
    } else {
        None
    }
}

impl Drilling {
    /// Drilling up to `off` off the place and up to `wide` wider in radius, in pm.
    ///
    /// # Errors
    ///
    /// [`Reason::BadRule`] where either is below 0 or above 10 m.
    #[tactic(auto, unfolding(crate::specs::Drilling::drilling_of))]
    pub fn new(off: i64, wide: i64) -> Result<Drilling, Reason>
        ensures { result ≡ drilling_of off wide }
    {
        let off_fits = 0 <= off && off.unsigned_abs() <= MAX_COORDINATE;
        let wide_fits = 0 <= wide && wide.unsigned_abs() <= MAX_COORDINATE;
        if off_fits && wide_fits {
            let (off, wide) = (off.unsigned_abs(), wide.unsigned_abs());
            Ok(Drilling { off, wide })
        } else {
            Err(Reason::BadRule)
        }
    }

    /// How far off its place a hole may be, in pm, from 0 to 10 m.
    pub fn off(&self) -> i64
        ensures { result ≡ pos self.now.off }
    {
        self.off as i64
    }

    /// How much wider in radius a hole may be, in pm, from 0 to 10 m.
    pub fn wide(&self) -> i64
        ensures { result ≡ pos self.now.wide }
    {
        self.wide as i64
    }

    /// The ring in pm that is left of the rules, 0 or more, if one is left.
    pub fn ring_left(&self, rules: &Rules) -> Option<i64>
        ensures { result ≡ ring_left rules.now self.now }
    {
        left_of(0, rules.ring().unsigned_abs(), self.off + self.wide)
    }

    /// The gap in pm that is left of the rules, more than 0, if one is left. Each of the two holes takes from it.
    pub fn gap_left(&self, rules: &Rules) -> Option<i64>
        ensures { result ≡ gap_left rules.now self.now }
    {
        left_of(1, rules.gap().unsigned_abs(), 2 * (self.off + self.wide))
    }
}

/// What is left, in pm, after its word: `ring 0.075`, or `no ring`.
#[derive(Clone, Copy)]
struct LeftWords {
    word: &'static str,
    left: Option<i64>,
}

impl Display for LeftWords {
    ghost output = { λ words. Some (left_words words.word.now words.left) };

    fn fmt<W: fmt::Write>(&self, f: &mut Formatter<W>) -> fmt::Result {
        let word = self.word;
        match self.left {
            Some(left) => write!(f, "{word} {}", ShortMillimetres(left)),
            None => write!(f, "no {word}"),
        }
    }
}

/// What drilling leaves of the rules: `drilled up to 0.05 off and 0.025 wider in radius: ring 0.075, gap 0.1`.
#[derive(Clone, Copy)]
struct DrillingLine<'a> {
    rules: &'a Rules,
    drilling: &'a Drilling,
}

impl Display for DrillingLine<'_> {
    ghost output = { λ line. Some (drilling_line line.rules.now line.drilling.now) };

    #[tactic(auto, unfolding(crate::specs::Drilling::drilling_line))]
    fn fmt<W: fmt::Write>(&self, f: &mut Formatter<W>) -> fmt::Result {
        let off = ShortMillimetres(self.drilling.off());
        let wide = ShortMillimetres(self.drilling.wide());
        let ring = LeftWords {
            word: "ring",
            left: self.drilling.ring_left(self.rules),
        };
        let gap = LeftWords {
            word: "gap",
            left: self.drilling.gap_left(self.rules),
        };
        write!(
            f,
            "drilled up to {off} off and {wide} wider in radius: {ring}, {gap}\n"
        )
    }
}

/// The line of what drilling leaves of the rules, where a report says it; else no line.
#[derive(Clone, Copy)]
pub(crate) struct DrillingText<'a> {
    pub(crate) rules: &'a Rules,
    pub(crate) drilling: Option<Drilling>,
}

impl Display for DrillingText<'_> {
    ghost output = { λ text. Some (drilling_text text.rules.now text.drilling) };

    fn fmt<W: fmt::Write>(&self, f: &mut Formatter<W>) -> fmt::Result {
        match &self.drilling {
            Some(drilling) => {
                let rules = self.rules;
                write!(f, "{}", DrillingLine { rules, drilling })
            }
            None => Ok(()),
        }
    }
}
