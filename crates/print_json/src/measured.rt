//! The JSON of a measure.

ghost use Rattle.std.specs.Prelude.{◌≡◌, Some, drop, map};
ghost use Rattle.json.specs.Json.{document};
ghost use Rattle.json.specs.Print.{print};
ghost use Rattle.json.specs.Tree.{json_tokens};
ghost use Rattle.board.specs.Boards.{holes_before};
ghost use Rattle.print_json.specs.Inner.Texts.{measure_rest, more_members};
ghost use Rattle.print_json.specs.Packages.{measure_value};
ghost use Rattle.print_json.specs.Values.{hole_value, or_null, json_text, least_gap_value, members_of, place_value};

use crate::VERSION;
use crate::arrays::{Array, Files, array_numbers};
use crate::printed::{Text, Value, write_line};
use board::{Board, FileSum, hole_count};
use grid_units::Profile;
use report::{GapLine, HolePlace, Measure, PlacedHole};
use ring_rules::Drilled;
use std::fmt;
use std::fmt::{Display, Formatter};

/// The holes after those of the files before one.
fn holes_from<'a>(files: &[FileSum], holes: &'a [Drilled], file: usize) -> &'a [Drilled]
    ensures { result.now ≡ drop (holes_before files.now file) holes.now }
{
    let mut rest = holes;
    for before in 0..file.min(files.len()) {
        let (_, after) = rest.split_at(hole_count(&files[before], rest.len()));
        rest = after;
    }
    rest
}

/// The hole of a place on a board, if there is one.
fn hole_at(board: &Board, place: HolePlace) -> Option<PlacedHole>
    ensures { or_null hole_value result ≡ place_value board.now.files board.now.holes place }
{
    let rest = holes_from(board.files(), board.holes(), place.drill);
    match rest.get(place.number.saturating_sub(1)) {
        Some(drilled) => Some(PlacedHole {
            place,
            hole: drilled.hole,
        }),
        None => None,
    }
}

/// The least gap, with the first two holes that have it, or null: `{"least_pm":382301708,"at":{..},"and":{..}}`.
#[derive(Clone, Copy)]
struct LeastGap<'a> {
    board: &'a Board,
    gap: Option<GapLine>,
}

impl Value for LeastGap<'_> {
    ghost value = { λ least. or_null (least_gap_value least.board.now.files least.board.now.holes) least.gap };

    #[tactic(auto, unfolding(crate::specs::Values::least_gap_value, json::specs::Print::escape_byte))]
    fn write<W: fmt::Write>(&self, f: &mut Formatter<W>) -> fmt::Result {
        let Some(line) = self.gap else {
            return f.write_str("null");
        };
        let (at, and) = (
            hole_at(self.board, line.first),
            hole_at(self.board, line.second),
        );
        let (least, at, and) = (line.gap, Text(&at), Text(&and));
        write!(f, r#"{{"least_pm":{least},"at":{at},"and":{and}}}"#)
    }

    #[tactic(auto, unfolding(crate::specs::Values::least_gap_value))]
    fn numbers(&self) {
        if let Some(line) = self.gap {
            line.gap.numbers();
            hole_at(self.board, line.first).numbers();
            hole_at(self.board, line.second).numbers();
        }
    }
}

/// The JSON of the measure of a board, by the names of its files: one line with its line end.
#[derive(Clone, Copy)]
pub struct MeasureJson<'a> {
    /// The profile that the files were read in.
    pub profile: Profile,
    /// The names of the files.
    pub names: &'a [&'a str],
    /// The board.
    pub board: &'a Board,
    /// Its measure.
    pub measure: &'a Measure,
}

/// The last members of a measure, from `files` on, with the closing bracket.
#[derive(Clone, Copy)]
struct MeasureRest<'a>(&'a MeasureJson<'a>);

impl Display for MeasureRest<'_> {
    ghost output = { λ rest. Some (more_members (members_of (measure_rest rest.0.now.profile (map (λ name. name.now) rest.0.now.names.now) rest.0.now.board.now rest.0.now.measure.now))) };

    #[tactic(auto, unfolding(json::specs::Print::escape_byte))]
    fn fmt<W: fmt::Write>(&self, f: &mut Formatter<W>) -> fmt::Result {
        let (profile, names, board) = (self.0.profile, self.0.names, self.0.board);
        let (measure, files) = (self.0.measure, board.files());
        let files = Files {
            profile,
            names,
            files,
        };
        let (scales, rows) = (measure.scales.as_slice(), measure.rings.as_slice());
        let gap = measure.gap;
        let gap = LeastGap { board, gap };
        let (files, scales, rows, gap) = (Array(&files), Array(&scales), Array(&rows), Text(&gap));
        write!(
            f,
            r#","files":{files},"scales":{scales},"rings":{rows},"gap":{gap}}}"#
        )
    }
}

impl Value for MeasureJson<'_> {
    ghost value = { λ json. measure_value json.profile (map (λ name. name.now) json.names.now) json.board.now json.measure.now };

    #[tactic(auto, unfolding(crate::specs::Packages::measure_value, json::specs::Print::escape_byte))]
    fn write<W: fmt::Write>(&self, f: &mut Formatter<W>) -> fmt::Result {
        let (profile, meets) = (Text(&self.profile), Text(&self.measure.meets));
        let rest = MeasureRest(self);
        write!(
            f,
            r#"{{"format":"ringcheck","version":{VERSION},"profile":{profile},"result":"measured","meets":{meets}{rest}"#
        )
    }

    #[tactic(auto, unfolding(crate::specs::Packages::measure_value))]
    fn numbers(&self) {
        let (names, board, measure) = (self.names, self.board, self.measure);
        let (files, gap) = (board.files(), measure.gap);
        u128::from(VERSION).numbers();
        measure.meets.numbers();
        array_numbers(&Files {
            profile: self.profile,
            names,
            files,
        });
        array_numbers(&measure.scales.as_slice());
        array_numbers(&measure.rings.as_slice());
        LeastGap { board, gap }.numbers();
    }
}

impl Display for MeasureJson<'_> {
    ghost output = { λ json. Some (json_text (measure_value json.profile (map (λ name. name.now) json.names.now) json.board.now json.measure.now)) };

    fn fmt<W: fmt::Write>(&self, f: &mut Formatter<W>) -> fmt::Result {
        write_line(f, self)
    }
}

impl MeasureJson<'_> {
    /// Before its line end the printed text is a document of RFC 8259, and its value is just the defined one, whatever the names are. A
    /// call does nothing but give this clause.
    pub fn reads_back(&self)
        ensures { document (print (json_tokens (measure_value self.now.profile (map (λ name. name.now) self.now.names.now) self.now.board.now self.now.measure.now)))
            ≡ Some (measure_value self.now.profile (map (λ name. name.now) self.now.names.now) self.now.board.now self.now.measure.now) }
    {
        self.numbers();
    }
}
