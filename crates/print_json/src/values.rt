//! The values of holes, files, scales and rows.

ghost use Rattle.std.specs.Prelude.{◌≡◌, ◌∷◌, [], pos, Some};
ghost use Rattle.std.specs.Fmt.{DisplaysOnOk};
ghost use Rattle.json.specs.Tree.{HasNumbers};
ghost use Rattle.print_json.specs.Inner.Texts.{more_members, value_text};
ghost use Rattle.print_json.specs.Packages.{profile_value};
ghost use Rattle.print_json.specs.Values.{array_of, contradicted_member, diameter_of, drill_role, drill_value, copper_value, file_value, hole_value, least_hole, least_ring, meets_value, members_of, met_value, mixed_value, object_of, point_value, row_value, rules_value, scale_value, whole};

use crate::printed::{Text, Value};
use crate::strings::Escaped;
use board::FileSum;
use grid_units::{Hole, Point, Profile, Rules, Span};
use report::{Meets, Met, PlacedHole, RingLine, UnitMistake, factor_word};
use std::fmt;
use std::fmt::Formatter;

/// The greatest rule that is met: a length, `"any"` or `"none"`.
impl Value for Met {
    ghost value = { met_value };

    #[tactic(auto, unfolding(json::specs::Print::escape_byte))]
    fn write<W: fmt::Write>(&self, f: &mut Formatter<W>) -> fmt::Result {
        match self {
            Met::Any => f.write_str(r#""any""#),
            Met::UpTo(length) => write!(f, "{length}"),
            Met::None => f.write_str(r#""none""#),
        }
    }

    fn numbers(&self) {
        if let Met::UpTo(length) = self {
            length.numbers();
        }
    }
}

/// The name of a profile: `"strict"` or `"wide"`.
impl Value for Profile {
    ghost value = { profile_value };

    #[tactic(auto, unfolding(json::specs::Print::escape_byte))]
    fn write<W: fmt::Write>(&self, f: &mut Formatter<W>) -> fmt::Result {
        match self {
            Profile::Strict => f.write_str(r#""strict""#),
            Profile::Wide => f.write_str(r#""wide""#),
        }
    }

    fn numbers(&self) {}
}

/// The rules that a package meets: `{"ring_pm":"none","gap_pm":1046051224,"held_pm":275000000}`.
impl Value for Meets {
    ghost value = { meets_value };

    #[tactic(auto, unfolding(crate::specs::Values::meets_value, json::specs::Print::escape_byte))]
    fn write<W: fmt::Write>(&self, f: &mut Formatter<W>) -> fmt::Result {
        let (ring, gap, held) = (Text(&self.ring), Text(&self.gap), Text(&self.in_pads));
        write!(f, r#"{{"ring_pm":{ring},"gap_pm":{gap},"held_pm":{held}}}"#)
    }

    #[tactic(auto, unfolding(crate::specs::Values::meets_value))]
    fn numbers(&self) {
        self.ring.numbers();
        self.gap.numbers();
        self.in_pads.numbers();
    }
}

/// The rules of a check: `{"ring_pm":100000000,"gap_pm":250000000}`.
impl Value for Rules {
    ghost value = { rules_value };

    #[tactic(auto, unfolding(crate::specs::Values::rules_value, json::specs::Print::escape_byte))]
    fn write<W: fmt::Write>(&self, f: &mut Formatter<W>) -> fmt::Result {
        let (ring, gap) = (self.ring(), self.gap());
        write!(f, r#"{{"ring_pm":{ring},"gap_pm":{gap}}}"#)
    }

    #[tactic(auto, unfolding(crate::specs::Values::rules_value))]
    fn numbers(&self) {
        self.ring().numbers();
        self.gap().numbers();
    }
}

/// A point: `[142240000000,-97790000000]`.
impl Value for Point {
    ghost value = { point_value };

    #[tactic(auto, unfolding(crate::specs::Values::point_value))]
    fn write<W: fmt::Write>(&self, f: &mut Formatter<W>) -> fmt::Result {
        let (x, y) = (self.x(), self.y());
        write!(f, "[{x},{y}]")
    }

    #[tactic(auto, unfolding(crate::specs::Values::point_value))]
    fn numbers(&self) {
        self.x().numbers();
        self.y().numbers();
    }
}

/// The diameter of a hole in pm.
#[tactic(auto, unfolding(crate::specs::Values::diameter_of))]
fn diameter(hole: &Hole) -> i64
    ensures { result ≡ pos (diameter_of hole.now) }
{
    2 * hole.radius()
}

/// A hole: `{"drill":2,"hole":1,"from_pm":[0,0],"to_pm":[0,0],"diameter_pm":400000000}`.
impl Value for PlacedHole {
    ghost value = { hole_value };

    #[tactic(auto, unfolding(crate::specs::Values::hole_value, json::specs::Print::escape_byte))]
    fn write<W: fmt::Write>(&self, f: &mut Formatter<W>) -> fmt::Result {
        let (drill, number) = (self.place.drill as u128 + 1, self.place.number);
        let (from, to) = (self.hole.from(), self.hole.to());
        let (from, to, diameter) = (Text(&from), Text(&to), diameter(&self.hole));
        write!(
            f,
            r#"{{"drill":{drill},"hole":{number},"from_pm":{from},"to_pm":{to},"diameter_pm":{diameter}}}"#
        )
    }

    #[tactic(auto, unfolding(crate::specs::Values::hole_value))]
    fn numbers(&self) {
        (self.place.drill as u128 + 1).numbers();
        self.place.number.numbers();
        self.hole.from().numbers();
        self.hole.to().numbers();
        diameter(&self.hole).numbers();
    }
}

/// The first and the last layer of a span, by their numbers from 1: `[1,2]`.
impl Value for Span {
    ghost value = { λ span. array_of (whole span.first ∷ whole span.last ∷ []) };

    fn write<W: fmt::Write>(&self, f: &mut Formatter<W>) -> fmt::Result {
        write!(f, "[{},{}]", self.first(), self.last())
    }

    fn numbers(&self) {
        u128::from(self.first()).numbers();
        u128::from(self.last()).numbers();
    }
}

/// A file, by its number: `{"number":1,"role":"copper","name":"top","pads":1,"other":0}`,
/// `{"number":2,"role":"plated","name":"pth","round":1,"slots":0,"span":null}`, or
/// `{"number":2,"role":"mixed","name":"all","round":2,"slots":0,"unplated":1,"span":null}`.
#[derive(Clone, Copy)]
pub(crate) struct FileJson<'a> {
    pub(crate) profile: Profile,
    pub(crate) number: u128,
    pub(crate) name: &'a str,
    pub(crate) sum: FileSum,
}

/// Writes a copper file, in the wide profile with `"contours":2` at its end.
#[tactic(auto, unfolding(crate::specs::Values::layer_value, crate::specs::Values::wide_layer_value, json::specs::Print::escape_byte))]
fn write_layer<W: fmt::Write>(
    f: &mut Formatter<W>,
    file: &FileJson,
    pads: usize,
    other: usize,
    contours: usize,
) -> fmt::Result
    ensures { DisplaysOnOk W.write_str_gives f.old result (Some (value_text (copper_value file.now.profile file.now.number file.now.name.now pads other contours))) f.new }
{
    let (number, name) = (file.number, Escaped(file.name));
    match file.profile {
        Profile::Strict => write!(
            f,
            r#"{{"number":{number},"role":"copper","name":"{name}","pads":{pads},"other":{other}}}"#
        ),
        Profile::Wide => write!(
            f,
            r#"{{"number":{number},"role":"copper","name":"{name}","pads":{pads},"other":{other},"contours":{contours}}}"#
        ),
    }
}

/// The role of a drill file: `plated` or `unplated`.
fn drill_role(plated: bool) -> &'static str
    ensures { result.now ≡ drill_role plated }
{
    if plated { "plated" } else { "unplated" }
}

/// The last member of a drill file whose own comments contradict its role, and none of another, with the closing bracket.
#[tactic(auto, unfolding(json::specs::Print::escape_byte))]
fn drill_rest(contradicted: bool) -> &'static str
    ensures text { result.now ≡ more_members (members_of (contradicted_member contradicted)) }
    ensures numbers { HasNumbers (object_of (contradicted_member contradicted)) }
{
    if contradicted {
        r#","contradicted":true}"#
    } else {
        "}"
    }
}

/// Writes a drill file of one role, with `"contradicted":true` at its end where its own comments contradict its role.
#[tactic(auto, unfolding(crate::specs::Values::drill_value, json::specs::Print::escape_byte))]
fn write_drill<W: fmt::Write>(
    f: &mut Formatter<W>,
    file: &FileJson,
    plated: bool,
    span: Option<Span>,
    contradicted: bool,
    round: usize,
    slots: usize,
) -> fmt::Result
    ensures { DisplaysOnOk W.write_str_gives f.old result (Some (value_text (drill_value file.now.number file.now.name.now plated span contradicted round slots))) f.new }
{
    let (number, name) = (file.number, Escaped(file.name));
    let (role, span) = (Escaped(drill_role(plated)), Text(&span));
    let rest = drill_rest(contradicted);
    write!(
        f,
        r#"{{"number":{number},"role":"{role}","name":"{name}","round":{round},"slots":{slots},"span":{span}{rest}"#
    )
}

/// Writes a mixed drill file.
#[tactic(auto, unfolding(crate::specs::Values::mixed_value, json::specs::Print::escape_byte))]
fn write_mixed<W: fmt::Write>(
    f: &mut Formatter<W>,
    file: &FileJson,
    span: Option<Span>,
    round: usize,
    slots: usize,
    unplated: usize,
) -> fmt::Result
    ensures { DisplaysOnOk W.write_str_gives f.old result (Some (value_text (mixed_value file.now.number file.now.name.now span round slots unplated))) f.new }
{
    let (number, name, span) = (file.number, Escaped(file.name), Text(&span));
    write!(
        f,
        r#"{{"number":{number},"role":"mixed","name":"{name}","round":{round},"slots":{slots},"unplated":{unplated},"span":{span}}}"#
    )
}

impl Value for FileJson<'_> {
    ghost value = { λ file. file_value file.profile file.number file.name.now file.sum };

    fn write<W: fmt::Write>(&self, f: &mut Formatter<W>) -> fmt::Result {
        match self.sum {
            FileSum::Layer {
                pads,
                other,
                contours,
            } => write_layer(f, self, pads, other, contours),
            FileSum::Drill {
                plated,
                span,
                contradicted,
                round,
                slots,
            } => write_drill(f, self, plated, span, contradicted, round, slots),
            FileSum::Mixed {
                span,
                round,
                slots,
                unplated,
            } => write_mixed(f, self, span, round, slots, unplated),
        }
    }

    #[tactic(auto, unfolding(crate::specs::Values::layer_value, crate::specs::Values::wide_layer_value, crate::specs::Values::drill_value, crate::specs::Values::mixed_value))]
    fn numbers(&self) {
        self.number.numbers();
        match self.sum {
            FileSum::Layer {
                pads,
                other,
                contours,
            } => {
                pads.numbers();
                other.numbers();
                contours.numbers();
            }
            FileSum::Drill {
                span,
                contradicted,
                round,
                slots,
                ..
            } => {
                round.numbers();
                slots.numbers();
                span.numbers();
                let _rest = drill_rest(contradicted);
            }
            FileSum::Mixed {
                span,
                round,
                slots,
                unplated,
            } => {
                round.numbers();
                slots.numbers();
                unplated.numbers();
                span.numbers();
            }
        }
    }
}

/// A drill file whose coordinates seem to be off by a factor: `{"drill":2,"bare":3,"factor":"25.4","then":0}`.
impl Value for UnitMistake {
    ghost value = { scale_value };

    #[tactic(auto, unfolding(crate::specs::Values::scale_value, json::specs::Print::escape_byte))]
    fn write<W: fmt::Write>(&self, f: &mut Formatter<W>) -> fmt::Result {
        let (drill, bare, then) = (self.drill as u128 + 1, self.bare, self.then);
        let factor = Escaped(factor_word(self.factor));
        write!(
            f,
            r#"{{"drill":{drill},"bare":{bare},"factor":"{factor}","then":{then}}}"#
        )
    }

    #[tactic(auto, unfolding(crate::specs::Values::scale_value))]
    fn numbers(&self) {
        (self.drill as u128 + 1).numbers();
        self.bare.numbers();
        self.then.numbers();
    }
}

/// The least ring of a row; none where all its holes are bare.
fn least_ring(line: &RingLine) -> Option<i64>
    ensures { result ≡ least_ring line.now }
{
    line.least.map(|least| least.ring)
}

/// The number of the first hole with the least ring.
fn least_hole(line: &RingLine) -> Option<usize>
    ensures { result ≡ least_hole line.now }
{
    line.least.map(|least| least.hole)
}

/// A row of rings: `{"layer":1,"drill":2,"diameter_pm":400000000,"holes":1,"bare":0,"least_pm":125000000,"hole":1}`.
impl Value for RingLine {
    ghost value = { row_value };

    #[tactic(auto, unfolding(crate::specs::Values::row_value, json::specs::Print::escape_byte))]
    fn write<W: fmt::Write>(&self, f: &mut Formatter<W>) -> fmt::Result {
        let (layer, drill) = (self.layer as u128 + 1, self.drill as u128 + 1);
        let (diameter, holes, bare) = (Text(&self.diameter), self.holes, self.bare);
        let (least, hole) = (least_ring(self), least_hole(self));
        let (least, hole) = (Text(&least), Text(&hole));
        write!(
            f,
            r#"{{"layer":{layer},"drill":{drill},"diameter_pm":{diameter},"holes":{holes},"bare":{bare},"least_pm":{least},"hole":{hole}}}"#
        )
    }

    #[tactic(auto, unfolding(crate::specs::Values::row_value))]
    fn numbers(&self) {
        (self.layer as u128 + 1).numbers();
        (self.drill as u128 + 1).numbers();
        self.diameter.numbers();
        self.holes.numbers();
        self.bare.numbers();
        least_ring(self).numbers();
        least_hole(self).numbers();
    }
}
