//! Arrays of files, findings and other values.

ghost use Rattle.std.specs.Prelude.{◌≡◌, ◌<◌, ◌^◌, Some, List, get_or, length, map};
ghost use Rattle.std.specs.Fmt.{DisplaysOnOk};
ghost use Rattle.json.specs.Json.{Json, null};
ghost use Rattle.json.specs.Tree.{HasNumbers};
ghost use Rattle.print_json.specs.Inner.Texts.{comma_before, value_text};
ghost use Rattle.print_json.specs.Packages.{file_values, finding_values, gap_values, ring_values};
ghost use Rattle.print_json.specs.Values.{array_of, file_value, gap_value, ring_value};

use crate::findings::{GapJson, RingJson};
use crate::printed::Value;
use crate::values::FileJson;
use board::FileSum;
use grid_units::{Profile, name_of};
use report::{Acceptances, BoardReport, acceptance_of};
use std::fmt;
use std::fmt::{Display, Formatter};

/// Values by their places, from 0.
pub(crate) trait Values {
    /// The values.
    ghost values: { Self → List Json };

    /// How many there are.
    fn count(&self) -> u128
        ensures { result ≡ length (values self.now) };

    /// Writes the value at a place.
    fn write_at<W: fmt::Write>(&self, place: u128, f: &mut Formatter<W>) -> fmt::Result
        requires { place < length (values self.now) }
        ensures { DisplaysOnOk W.write_str_gives f.old result (Some (value_text (get_or (values self.now) place null))) f.new };

    /// The value at a place holds numbers of RFC 8259 alone. This does nothing but give its clause.
    fn numbers_at(&self, place: u128)
        requires { place < length (values self.now) }
        ensures { HasNumbers (get_or (values self.now) place null) };
}

/// What stands before the value at a place.
fn comma_before(place: u128) -> &'static str
    ensures { result.now ≡ comma_before place }
{
    if place == 0 { "" } else { "," }
}

/// An array of values: `[1,2]`.
#[derive(Drop)]
pub(crate) struct Array<'a, V>(pub(crate) &'a V);

impl<V: Values> Display for Array<'_, V> {
    ghost output = { λ array. Some (value_text (array_of (V.values array.0.now))) };

    fn fmt<W: fmt::Write>(&self, f: &mut Formatter<W>) -> fmt::Result {
        f.write_str("[")?;
        for place in 0..self.0.count() {
            f.write_str(comma_before(place))?;
            self.0.write_at(place, f)?;
        }
        f.write_str("]")
    }
}

/// The values of an array hold numbers of RFC 8259 alone. This does nothing but give its clause.
pub(crate) fn array_numbers<V: Values>(values: &V)
    ensures { HasNumbers (array_of (V.values values.now)) }
{
    for place in 0..values.count() {
        values.numbers_at(place);
    }
}

/// The files of a package.
#[derive(Clone, Copy)]
pub(crate) struct Files<'a> {
    /// The profile that they are read in.
    pub(crate) profile: Profile,
    /// The names of the files.
    pub(crate) names: &'a [&'a str],
    /// Their contents.
    pub(crate) files: &'a [FileSum],
}

impl<'a> Files<'a> {
    /// The file at a place.
    fn file_at(&self, place: usize) -> FileJson<'a>
        requires { place < length self.now.files.now }
        ensures { file_value result.profile result.number result.name.now result.sum ≡ get_or (file_values self.now.profile (map (λ name. name.now) self.now.names.now) self.now.files.now) place null }
    {
        FileJson {
            profile: self.profile,
            number: place as u128 + 1,
            name: name_of(self.names, place),
            sum: self.files[place],
        }
    }
}

impl Values for Files<'_> {
    ghost values = { λ all. file_values all.profile (map (λ name. name.now) all.names.now) all.files.now };

    fn count(&self) -> u128 {
        self.files.len() as u128
    }

    fn write_at<W: fmt::Write>(&self, place: u128, f: &mut Formatter<W>) -> fmt::Result {
        self.file_at(place as usize).write(f)
    }

    fn numbers_at(&self, place: u128) {
        self.file_at(place as usize).numbers();
    }
}

/// The values of a list, in order.
impl<V: Value> Values for &[V] {
    ghost values = { λ all. map V.value all.now };

    fn count(&self) -> u128 {
        self.len() as u128
    }

    fn write_at<W: fmt::Write>(&self, place: u128, f: &mut Formatter<W>) -> fmt::Result {
        self[place as usize].write(f)
    }

    fn numbers_at(&self, place: u128) {
        self[place as usize].numbers();
    }
}

/// The findings of a report, rings before gaps, each with its number and the reason at its place why it is accepted.
#[derive(Clone, Copy)]
pub(crate) struct Findings<'a> {
    pub(crate) report: &'a BoardReport,
    pub(crate) accepted: &'a Acceptances<'a>,
}

impl<'a> Findings<'a> {
    /// How many rings there are.
    fn ring_count(&self) -> u128
        ensures value { result ≡ length self.now.report.now.rings.items }
        ensures within { result < 2 ^ 64 }
    {
        self.report.rings.len() as u128
    }

    /// The insufficient ring at a place among the rings.
    fn ring_at(&self, place: usize) -> RingJson<'a>
        requires { place < length self.now.report.now.rings.items }
        ensures { ring_value result.layers.now result.number result.lack.now result.why
            ≡ get_or (ring_values self.now.report.now.layers.items self.now.report.now.rings.items self.now.accepted.now.rings.now) place null }
    {
        RingJson {
            number: place as u128 + 1,
            layers: self.report.layers.as_slice(),
            lack: &self.report.rings.as_slice()[place],
            why: acceptance_of(self.accepted.rings, place),
        }
    }

    /// The insufficient gap at a place among the gaps.
    fn gap_at(&self, place: usize) -> GapJson<'a>
        requires { place < length self.now.report.now.gaps.items }
        ensures { gap_value result.number result.lack.now result.why
            ≡ get_or (gap_values (length self.now.report.now.rings.items) self.now.report.now.gaps.items self.now.accepted.now.gaps.now) place null }
    {
        GapJson {
            number: self.ring_count() + (place as u128 + 1),
            lack: &self.report.gaps.as_slice()[place],
            why: acceptance_of(self.accepted.gaps, place),
        }
    }
}

impl Values for Findings<'_> {
    ghost values = { λ all. finding_values all.report.now all.accepted.now.rings.now all.accepted.now.gaps.now };

    fn count(&self) -> u128 {
        self.ring_count() + self.report.gaps.len() as u128
    }

    fn write_at<W: fmt::Write>(&self, place: u128, f: &mut Formatter<W>) -> fmt::Result {
        let rings = self.ring_count();
        if place < rings {
            self.ring_at(place as usize).write(f)
        } else {
            self.gap_at((place - rings) as usize).write(f)
        }
    }

    fn numbers_at(&self, place: u128) {
        let rings = self.ring_count();
        if place < rings {
            self.ring_at(place as usize).numbers();
        } else {
            self.gap_at((place - rings) as usize).numbers();
        }
    }
}
