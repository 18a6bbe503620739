//! The cells of a row.

ghost use Rattle.std.specs.Prelude.{◌≡◌, map, slice_get, Some};
ghost use Rattle.std.specs.Fmt.{DisplaysOnOk};
ghost use Rattle.grid_units.specs.HoleWords.{ends_words, point_words};
ghost use Rattle.report_page.specs.Pages.{cause_words, diameter_words, flash_words, hole_words, layer_name, reason_words, ring_words, row_start};

use grid_units::{Hole, Point, ShortMillimetres, name_of};
use picture::Escaped;
use print_text::words_for_cause;
use report::{LayerHead, PlacedHole, RingCause, flash_of, ring_of};
use std::fmt;
use std::fmt::{Display, Formatter};

/// Writes the start of a row: the number of the finding, from 1, with a link to its marker in the picture, and its kind.
#[tactic(auto, unfolding(crate::specs::Pages::row_start))]
pub(crate) fn write_start<W: fmt::Write>(
    f: &mut Formatter<W>,
    number: u128,
    kind: &str,
) -> fmt::Result
    ensures { DisplaysOnOk W.write_str_gives f.old result (Some (row_start number kind.now)) f.new }
{
    write!(
        f,
        "<tr><th scope=\"row\"><a href=\"#f{number}\">{number}</a></th><td>{kind}</td><td>"
    )
}

/// The name of the file of a layer, by the layer's place among the copper files; empty where there is no such layer.
pub(crate) fn layer_name<'a>(names: &[&'a str], layers: &[LayerHead], layer: usize) -> &'a str
    ensures { result.now ≡ layer_name (map (λ name. name.now) names.now) (slice_get layers.now layer) }
{
    match layers.get(layer) {
        Some(head) => name_of(names, head.file),
        None => "",
    }
}

/// A point: `142.24,-97.79`.
#[derive(Clone, Copy)]
struct PointWords(Point);

impl Display for PointWords {
    ghost output = { λ words. Some (point_words words.0) };

    #[tactic(auto, unfolding(grid_units::specs::HoleWords::two_lengths))]
    fn fmt<W: fmt::Write>(&self, f: &mut Formatter<W>) -> fmt::Result {
        let (x, y) = (ShortMillimetres(self.0.x()), ShortMillimetres(self.0.y()));
        write!(f, "{x},{y}")
    }
}

/// The centre of a round hole, or both ends of a slot: `0,0 to 2,0`.
#[derive(Clone, Copy)]
struct EndsWords<'a>(&'a Hole);

impl Display for EndsWords<'_> {
    ghost output = { λ words. Some (ends_words words.0.now) };

    fn fmt<W: fmt::Write>(&self, f: &mut Formatter<W>) -> fmt::Result {
        let (from, to) = (PointWords(self.0.from()), PointWords(self.0.to()));
        if self.0.is_round() {
            write!(f, "{from}")
        } else {
            write!(f, "{from} to {to}")
        }
    }
}

/// A hole with its place in the package: `hole 17 of board-PTH.drl at 15.001,13`.
#[derive(Clone, Copy)]
pub(crate) struct HoleCell<'a> {
    /// The names of the files of the package.
    pub(crate) names: &'a [&'a str],
    pub(crate) at: &'a PlacedHole,
}

impl Display for HoleCell<'_> {
    ghost output = { λ words. Some (hole_words (map (λ name. name.now) words.names.now) words.at.now) };

    #[tactic(auto, unfolding(crate::specs::Pages::hole_at_words))]
    fn fmt<W: fmt::Write>(&self, f: &mut Formatter<W>) -> fmt::Result {
        let place = self.at.place;
        let name = Escaped(name_of(self.names, place.drill));
        let ends = EndsWords(&self.at.hole);
        write!(f, "hole {} of {name} at {ends}", place.number)
    }
}

/// The diameter of a hole.
#[derive(Clone, Copy)]
pub(crate) struct DiameterWords<'a>(pub(crate) &'a Hole);

impl Display for DiameterWords<'_> {
    ghost output = { λ words. Some (diameter_words words.0.now) };

    fn fmt<W: fmt::Write>(&self, f: &mut Formatter<W>) -> fmt::Result {
        write!(f, "{}", ShortMillimetres(2 * self.0.radius()))
    }
}

/// The ring that a hole has in its pad: a length, `no pad`, or `not judged`.
#[derive(Clone, Copy)]
pub(crate) struct RingCell<'a>(pub(crate) &'a RingCause);

impl Display for RingCell<'_> {
    ghost output = { λ words. Some (ring_words words.0.now) };

    fn fmt<W: fmt::Write>(&self, f: &mut Formatter<W>) -> fmt::Result {
        match (self.0, ring_of(self.0)) {
            (_, Some(ring)) => write!(f, "{}", ShortMillimetres(ring)),
            (RingCause::NoFlash, None) => f.write_str("no pad"),
            (_, None) => f.write_str("not judged"),
        }
    }
}

/// Writes the flash that a cause names, if it names one: `: flash 17`.
fn write_flash<W: fmt::Write>(f: &mut Formatter<W>, cause: &RingCause) -> fmt::Result
    ensures { DisplaysOnOk W.write_str_gives f.old result (Some (flash_words cause.now)) f.new }
{
    match flash_of(cause) {
        Some(flash) => write!(f, ": flash {flash}"),
        None => Ok(()),
    }
}

/// A cause, and the flash that it names: `off centre: flash 17`.
#[derive(Clone, Copy)]
pub(crate) struct CauseCell<'a>(pub(crate) &'a RingCause);

impl Display for CauseCell<'_> {
    ghost output = { λ words. Some (cause_words words.0.now) };

    fn fmt<W: fmt::Write>(&self, f: &mut Formatter<W>) -> fmt::Result {
        f.write_str(words_for_cause(self.0))?;
        write_flash(f, self.0)
    }
}

/// The reason why a finding is waived, if it is.
#[derive(Clone, Copy)]
pub(crate) struct ReasonWords<'a>(pub(crate) Option<&'a str>);

impl Display for ReasonWords<'_> {
    ghost output = { λ words. Some (reason_words words.0) };

    fn fmt<W: fmt::Write>(&self, f: &mut Formatter<W>) -> fmt::Result {
        match self.0 {
            Some(why) => write!(f, "{}", Escaped(why)),
            None => Ok(()),
        }
    }
}
