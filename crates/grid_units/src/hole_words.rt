//! The words for holes.

ghost use Rattle.std.specs.Prelude.{◌≡◌, ◌*◌, pos, map, Some};
ghost use Rattle.grid_units.specs.HoleWords.{drilled_words, name_of, point_words};

use crate::{Hole, Point, ShortMillimetres};
use std::fmt;
use std::fmt::{Display, Formatter};

/// The name of a file of the package, by its index; empty where it has none.
pub fn name_of<'a>(names: &[&'a str], file: usize) -> &'a str
    ensures { result.now ≡ name_of (map (λ name. name.now) names.now) file }
{
    match names.get(file) {
        Some(name) => *name,
        None => "",
    }
}

/// A point: `142.24,-97.79`.
#[derive(Clone, Copy)]
struct PointWords(Point);

impl Display for PointWords {
    ghost output = { λ words. Some (point_words words.0) };

    #[tactic(auto, unfolding(crate::specs::HoleWords::two_lengths))]
    fn fmt<W: fmt::Write>(&self, f: &mut Formatter<W>) -> fmt::Result {
        let (x, y) = (self.0.x(), self.0.y());
        write!(f, "{},{}", ShortMillimetres(x), ShortMillimetres(y))
    }
}

/// The diameter of a hole in pm.
fn diameter(hole: &Hole) -> i64
    ensures { result ≡ pos (2 * hole.now.radius) }
{
    2 * hole.radius()
}

/// The diameter of a hole in millimetres, and where it is: the centre of a round hole, or both ends of a slot, as `1 at 0,0 to 2,0`.
#[derive(Clone, Copy)]
pub struct DrilledWords<'a>(pub &'a Hole);

impl Display for DrilledWords<'_> {
    ghost output = { λ words. Some (drilled_words words.0.now) };

    #[tactic(auto, unfolding(crate::specs::HoleWords::drilled_words))]
    fn fmt<W: fmt::Write>(&self, f: &mut Formatter<W>) -> fmt::Result {
        let hole = self.0;
        let size = ShortMillimetres(diameter(hole));
        let (from, to) = (PointWords(hole.from()), PointWords(hole.to()));
        if hole.is_round() {
            write!(f, "{size} at {from}")
        } else {
            write!(f, "{size} at {from} to {to}")
        }
    }
}
