//! What the findings of a panel are, in words. Lengths are in pm, and are printed in millimetres.

ghost use Rattle.std.specs.Prelude.{◌≡◌, Some};
ghost use Rattle.std.specs.Fmt.{DisplaysOnOk};
ghost use Rattle.picture.specs.Elements.{finding_start, finding_words, lack_words, id_attribute, number_of};

use crate::frame::{Pen, Place};
use crate::names::Escaped;
use crate::scene::DrawnFinding;
use grid_units::{DrilledWords, ShortMillimetres};
use std::fmt;
use std::fmt::{Display, Formatter};

/// What the findings of a panel share.
#[derive(Clone, Copy)]
pub(crate) struct FindingPage<'a> {
    /// The unit and the required ring.
    pub(crate) pen: &'a Pen,
    /// The panel.
    pub(crate) place: &'a Place<'a>,
}

/// The number of a finding among all, from 1.
pub(crate) fn number_of(found: &DrawnFinding) -> usize
    ensures { result ≡ number_of found.now }
{
    match found {
        DrawnFinding::Ring { number, .. } => *number,
        DrawnFinding::Gap { number, .. } => *number,
    }
}

/// The attribute by which a finding is named: `id` in one panel of a page, `data-id` in the others.
fn naming(place: &Place, found: &DrawnFinding) -> &'static str
    ensures { result.now ≡ id_attribute place.now found.now }
{
    match found {
        DrawnFinding::Ring { .. } => "id",
        DrawnFinding::Gap { .. } => { if place.first { "id" } else { "data-id" } }
    }
}

/// Writes what is lacking: `annular ring on top (rule 0.15): hole 0.75 at 142.24,-97.79`, or `gap too small: hole 0.4 at 0,0, and hole 0.4 at 0.6,0`.
#[tactic(auto, unfolding(crate::specs::Elements::ring_words, crate::specs::Elements::gap_words))]
fn write_lack<W: fmt::Write>(
    f: &mut Formatter<W>,
    page: &FindingPage,
    found: &DrawnFinding,
) -> fmt::Result
    ensures { DisplaysOnOk W.write_str_gives f.old result (Some (lack_words page.now.pen.now page.now.place.now found.now)) f.new }
{
    match found {
        DrawnFinding::Ring { hole, .. } => {
            let (name, rule) = (
                Escaped(page.place.name),
                ShortMillimetres(page.pen.ring as i64),
            );
            let hole = DrilledWords(hole);
            write!(f, "annular ring on {name} (rule {rule}): hole {hole}")
        }
        DrawnFinding::Gap { first, second, .. } => {
            let (first, second) = (DrilledWords(first), DrilledWords(second));
            write!(f, "gap too small: hole {first}, and hole {second}")
        }
    }
}

/// A finding in words: its number, and what is lacking.
#[derive(Clone, Copy)]
pub(crate) struct FindingWords<'a> {
    pub(crate) page: &'a FindingPage<'a>,
    pub(crate) found: &'a DrawnFinding,
}

impl Display for FindingWords<'_> {
    ghost output = { λ words. Some (finding_words words.page.now.pen.now words.page.now.place.now words.found.now) };

    #[tactic(auto, unfolding(crate::specs::Elements::finding_words))]
    fn fmt<W: fmt::Write>(&self, f: &mut Formatter<W>) -> fmt::Result {
        write!(f, "#{} ", number_of(self.found))?;
        write_lack(f, self.page, self.found)
    }
}

/// Writes the start of the group of a finding: its name on the page, and its title.
#[tactic(auto, unfolding(crate::specs::Elements::finding_start))]
pub(crate) fn write_finding_start<W: fmt::Write>(
    f: &mut Formatter<W>,
    page: &FindingPage,
    found: &DrawnFinding,
) -> fmt::Result
    ensures { DisplaysOnOk W.write_str_gives f.old result (Some (finding_start (id_attribute page.now.place.now found.now) (number_of found.now) (finding_words page.now.pen.now page.now.place.now found.now))) f.new }
{
    let (attribute, number) = (naming(page.place, found), number_of(found));
    let words = FindingWords { page, found };
    write!(
        f,
        "<g class=\"finding\" {attribute}=\"f{number}\"><title>{words}</title>\n"
    )
}
