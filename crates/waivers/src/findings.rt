//! The five fields that identify a finding, as a file of waivers has them.

ghost use Rattle.std.specs.Prelude.{◌≡◌, Some, map};
ghost use Rattle.csv.specs.Writing as Spec;
ghost use Rattle.csv.specs.Writing.{default_writer, escaped, field_text, needs_byte};
ghost use Rattle.grid_units.specs.LengthWords.{short_millimetres};
ghost use Rattle.waivers.specs.Findings.{gap_fields, has_field, hole_field, layer_field, ring_fields};
ghost use Rattle.waivers.specs.Inner.{record_key};
ghost use Rattle.waivers.specs.Waiving.{compared_fields};

use crate::Waiver;
use grid_units::{DrilledWords, Line, ShortMillimetres, name_of};
use report::{GapLack, LayerHead, PlacedHole, RingCause, RingLack, ring_of};
use std::fmt;
use std::fmt::{Display, Formatter};

/// A text with each quote doubled, as it stands between quotes.
#[derive(Clone, Copy)]
struct Escaped<'a>(&'a str);

impl Display for Escaped<'_> {
    ghost output = { λ text. Some (escaped default_writer text.0.now) };

    fn fmt<W: fmt::Write>(&self, f: &mut Formatter<W>) -> fmt::Result {
        let mut rest = self.0;
        'quotes: while let Some((before, after)) = rest.split_once('"') {
            write!(f, "{before}\"\"")?;
            rest = after;
        }
        f.write_str(rest)
    }
}

/// Whether a byte of a field calls for quotes: a comma, a quote, and a byte of a line end.
fn needs_byte(b: u8) -> bool
    ensures { result ≡ needs_byte default_writer b }
{
    matches!(b, b',' | b'"' | b'\r' | b'\n')
}

/// Whether a field calls for quotes.
fn needs_quotes(field: &str) -> bool
    ensures { result ≡ Spec.needs_quotes default_writer field.now }
{
    field.as_bytes().iter().any(|b| needs_byte(*b))
}

/// A text as a field, between quotes where it calls for them.
#[derive(Clone, Copy)]
struct TextField<'a>(&'a str);

impl Display for TextField<'_> {
    ghost output = { λ field. Some (field_text default_writer field.0.now) };

    fn fmt<W: fmt::Write>(&self, f: &mut Formatter<W>) -> fmt::Result {
        if needs_quotes(self.0) {
            write!(f, "\"{}\"", Escaped(self.0))
        } else {
            f.write_str(self.0)
        }
    }
}

/// The name of a layer's file; empty where the report has no such layer.
fn layer_name<'a>(names: &[&'a str], layers: &[LayerHead], place: usize) -> &'a str
    ensures { result.now ≡ layer_field (map (λ name. name.now) names.now) layers.now place }
{
    match layers.get(place) {
        Some(head) => name_of(names, head.file),
        None => "",
    }
}

/// A hole as a field: the name of its drill file, its diameter and where it is in mm, as `"pth, 0.4 at 0,0"`. Its comma calls for the
/// quotes.
#[derive(Clone, Copy)]
struct HoleField<'a> {
    names: &'a [&'a str],
    at: PlacedHole,
}

impl Display for HoleField<'_> {
    ghost output = { λ field. Some (field_text default_writer (hole_field (map (λ name. name.now) field.names.now) field.at)) };

    fn fmt<W: fmt::Write>(&self, f: &mut Formatter<W>) -> fmt::Result {
        let name = Escaped(name_of(self.names, self.at.place.drill));
        write!(f, "\"{name}, {}\"", DrilledWords(&self.at.hole))
    }
}

/// A length in pm as a field, in millimetres.
#[derive(Clone, Copy)]
struct LengthField(i64);

impl Display for LengthField {
    ghost output = { λ field. Some (field_text default_writer (short_millimetres field.0)) };

    fn fmt<W: fmt::Write>(&self, f: &mut Formatter<W>) -> fmt::Result {
        write!(f, "{}", ShortMillimetres(self.0))
    }
}

/// The ring of a hole in its best pad as a field, in millimetres, or `none`.
#[derive(Clone, Copy)]
struct RingField(RingCause);

impl Display for RingField {
    ghost output = { λ field. Some (field_text default_writer (has_field field.0)) };

    fn fmt<W: fmt::Write>(&self, f: &mut Formatter<W>) -> fmt::Result {
        match ring_of(&self.0) {
            Some(ring) => write!(f, "{}", LengthField(ring)),
            None => f.write_str("none"),
        }
    }
}

/// What the fields of findings share: the names of the package's files, and the layers of the report.
#[derive(Clone, Copy)]
pub(crate) struct Page<'a> {
    pub(crate) names: &'a [&'a str],
    pub(crate) layers: &'a [LayerHead],
}

/// The fields of a hole that lacks its ring: `ring,top,"pth, 0.4 at 0,0",,0.124999`.
impl Line<Page<'_>> for RingLack {
    ghost text = { λ page lack. record_key (ring_fields (map (λ name. name.now) page.names.now) page.layers.now lack) };

    fn fmt_on<W: fmt::Write>(&self, page: &Page<'_>, f: &mut Formatter<W>) -> fmt::Result {
        let (names, at) = (page.names, self.at);
        let layer = TextField(layer_name(names, page.layers, self.layer));
        let (hole, has) = (HoleField { names, at }, RingField(self.cause));
        write!(f, "ring,{layer},{hole},,{has}")
    }
}

/// The fields of two holes that lack their gap: `gap,,"pth, 0.4 at 0,0","pth, 0.4 at 0.5,0",0.1`.
impl Line<Page<'_>> for GapLack {
    ghost text = { λ page lack. record_key (gap_fields (map (λ name. name.now) page.names.now) lack) };

    fn fmt_on<W: fmt::Write>(&self, page: &Page<'_>, f: &mut Formatter<W>) -> fmt::Result {
        let (names, at) = (page.names, self.first);
        let hole = HoleField { names, at };
        let at = self.second;
        let and = HoleField { names, at };
        write!(f, "gap,,{hole},{and},{}", LengthField(self.gap))
    }
}

/// The fields of a waiver that are compared: all but the reason.
impl Line<()> for Waiver {
    ghost text = { λ page waiver. record_key (compared_fields waiver) };

    fn fmt_on<W: fmt::Write>(&self, page: &(), f: &mut Formatter<W>) -> fmt::Result {
        let kind = TextField(self.kind.as_str());
        let layer = TextField(self.layer.as_str());
        let hole = TextField(self.hole.as_str());
        let and = TextField(self.and.as_str());
        let has = TextField(self.has.as_str());
        write!(f, "{kind},{layer},{hole},{and},{has}")
    }
}

/// The fields of a finding or of a waiver, as CSV.
#[derive(Drop)]
pub(crate) struct Fields<'a, P, T> {
    pub(crate) page: &'a P,
    pub(crate) one: &'a T,
}

impl<P, T: Line<P>> Display for Fields<'_, P, T> {
    ghost output = { λ fields. Some (T.text fields.page.now fields.one.now) };

    fn fmt<W: fmt::Write>(&self, f: &mut Formatter<W>) -> fmt::Result {
        self.one.fmt_on(self.page, f)
    }
}
