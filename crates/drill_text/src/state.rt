//! The state of a drill file: it meets the commands one by one, and answers which rule a command breaks first.

ghost use Rattle.std.specs.Prelude.{◌≡◌, ◌<◌, ◌≤◌, pos, unsigned_abs, unwrap_or, IfErr, Err, nat_eq, ◌&&◌, [], ◌∷◌, ◌++◌, List, OnOk, IfOk, length, Some, None, Ok, is_some, true, false};
ghost use Rattle.std.specs.Option.{option_and_then, option_map, option_or};
ghost use Rattle.indexmap.specs.IndexMap.{get};
ghost use Rattle.drill_text.specs.Rules.{same_unit, same_zeros, same_format, width_with, first_broken, applies, rules, defines_alike, differs, picks_unknown_tool, drills};
ghost use Rattle.grid_units.specs.Numbers.{max_units};
ghost use Rattle.drill_text.specs.Holes.{unit_or, coordinate_in};
ghost use Rattle.grid_units.specs.declared.fault.Reason.TheVariants as reason;
ghost use Rattle.drill_text.specs.Repeats.{steps_on};
ghost use Rattle.drill_text.specs.Outcome.{diameter_of_tool};

use crate::platings::{PlatingKind, PlatingWords, Tool, calls_plated, same_plating};
use drill_lines::{
    Coordinates, DrillCommand, DrillFormat, OptionalDec, Part, Plating, Settings, file_format,
    said_plating,
};
use grid_units::{Dec, Hole, ItemFail, Point, Profile, Reason, Text, Unit, Zeros};
use indexmap::IndexMap;
use std::alloc::{AllocError, Global};

/// The greatest number of holes in a drill file.
const MAX_HOLES: usize = 1_048_576;

/// What the commands so far say to the next one, the holes that they drill, and of each hole of a mixed file whether it is plated.
#[derive(Drop)]
pub(crate) struct DrillState {
    settings: Settings,
    header_ended: bool,
    tools: IndexMap<u16, Tool>,
    tool: Option<u16>,
    // These two are held beside the unit, `tools` and `tool`, so that no hole looks its tool up.
    picked: Option<Tool>,
    width: Result<i64, Reason>,
    x: OptionalDec,
    y: OptionalDec,
    words: PlatingWords,
    holes: Vec<Hole>,
    plated: Vec<bool>,
    ghost picked_is: { picked ≡ option_and_then (λ number. get nat_eq tools number) tool },
    ghost width_is: { width ≡ width_with (unit_or settings.unit) tool (option_map diameter_of_tool picked) },
}

impl DrillState {
    ghost use Rattle.std.specs.List.{find};
    ghost use Rattle.drill_lines.specs.declared.command.DrillCommand.TheVariants as command;
    ghost use Rattle.drill_lines.specs.declared.command.Part.TheVariants as part;
    ghost use Rattle.drill_text.specs.Plating.{plating_set};
    ghost use Rattle.grid_units.specs.Numbers.{within_limit};
    ghost use Rattle.drill_text.specs.Inner.StateSteps.{state_of, AddsOrRefuses, IsStateAfter, Applies, JudgesNext, DrillsOrRefuses, MarksOrRefuses, broken_in, own_in, plates_otherwise, picked_plating, after_format, at_last_point, drill_path, IsWidth, point_in, no_point, hole_between, hole_in, next_point};

    /// The state before the first command, in a file that is read in this profile, and whose platings are known so.
    pub(crate) fn new(alloc: Global, profile: Profile, kind: PlatingKind) -> DrillState
        ensures { IsStateAfter result (record { profile = profile; plating = kind; format = None }) [] }
    {
        let settings = Settings {
            part: Part::Before,
            unit: None,
            zeros: None,
            format: None,
        };
        DrillState {
            settings,
            header_ended: false,
            tools: IndexMap::new(alloc),
            tool: None,
            picked: None,
            width: width_with(None, None, None),
            x: OptionalDec::new(None),
            y: OptionalDec::new(None),
            words: PlatingWords::new(profile, kind),
            holes: Vec::new(alloc),
            plated: Vec::new(alloc),
        }
    }

    /// The settings by which the next line is read.
    pub(crate) fn settings(&self) -> Settings
        ensures { result ≡ self.now.settings }
    {
        self.settings
    }

    /// Whether the next line stands in the body.
    pub(crate) fn is_in_body(&self) -> bool
        ensures { result ≡ true → self.now.settings.part ≡ part.Body }
    {
        matches!(self.settings.part, Part::Body)
    }

    /// The holes of the commands that were taken in, what is known of their platings, and the tools.
    pub(crate) fn into_parts(self) -> (Vec<Hole>, Vec<bool>, PlatingWords, IndexMap<u16, Tool>)
        ensures { result ≡ (self.holes, self.plated, self.words, self.tools) }
    {
        let DrillState {
            holes,
            plated,
            words,
            tools,
            ..
        } = self;
        (holes, plated, words, tools)
    }

    /// Checks one more command, and takes it in if it breaks no rule.
    pub(crate) fn step(&mut self, command: &DrillCommand) -> Result<(), ItemFail>
        ensures { JudgesNext self.old command.now self.new result }
    {
        match command {
            DrillCommand::Hit(point) => self.step_hit(point),
            DrillCommand::Slot(first, second) => self.drill_slot(first, second),
            _ => self.apply_checked(command),
        }
    }

    /// Checks a hit at a point, and takes it in if it breaks no rule.
    pub(crate) fn step_hit(&mut self, point: &Coordinates) -> Result<(), ItemFail>
        ensures { JudgesNext self.old (command.Hit point.now) self.new result }
    {
        self.drill_hit(point)
    }

    /// Checks a command that drills nothing, and takes it in if it breaks no rule.
    fn apply_checked(&mut self, command: &DrillCommand) -> Result<(), ItemFail>
        requires { drills command.now ≡ false }
        ensures { JudgesNext self.old command.now self.new result }
    {
        if let Some(reason) = self.broken_rule(command) {
            return Err(ItemFail::Refused(reason));
        }
        if let Some(reason) = self.own_rule(command) {
            return Err(ItemFail::Refused(reason));
        }
        self.take(command)?;
        Ok(())
    }

    /// The first rule of every file of its profile that a command breaks, if the command drills nothing.
    fn broken_rule(&self, command: &DrillCommand) -> Option<Reason>
        requires { drills command.now ≡ false }
        ensures { result ≡ broken_in self.now command.now }
    {
        match self.words.profile {
            Profile::Wide if self.defines_alike(command) => None,
            Profile::Strict | Profile::Wide => self.strict_rule(command),
        }
    }

    /// Whether a command defines a tool again with the diameter that it has.
    fn defines_alike(&self, command: &DrillCommand) -> bool
        ensures { result ≡ defines_alike (state_of self.now) command.now }
    {
        match command {
            DrillCommand::Tool(number, diameter) => match picked(&self.tools, Some(*number)) {
                Some(tool) => tool.diameter.units() == diameter.units(),
                None => false,
            },
            _ => false,
        }
    }

    /// The first rule of the strict profile that a command breaks, if the command drills nothing.
    #[tactic(auto, unfolding(crate::specs::Rules::first_broken))]
    fn strict_rule(&self, command: &DrillCommand) -> Option<Reason>
        requires { drills command.now ≡ false }
        ensures { result ≡ first_broken (state_of self.now) (length self.now.holes.items) (drill_path (state_of self.now) command.now) command.now }
    {
        match command {
            DrillCommand::HeaderEnd => self.settings.unit.is_none().then_some(Reason::NoUnit),
            DrillCommand::UnitCode(unit) => {
                self.differs_in_unit(*unit).then_some(Reason::UnitConflict)
            }
            DrillCommand::UnitLine(unit, zeros, format) => {
                self.unit_line_rule(*unit, *zeros, *format)
            }
            DrillCommand::Comment(text) => self.comment_rule(text),
            DrillCommand::Tool(number, diameter) => self.tool_rule(*number, *diameter),
            DrillCommand::Pick(number) => self.is_unknown(*number).then_some(Reason::UnknownTool),
            DrillCommand::Start
            | DrillCommand::Finish
            | DrillCommand::Hit(_)
            | DrillCommand::Slot(_, _) => None,
        }
    }

    fn differs_in_unit(&self, unit: Unit) -> bool
        ensures { result ≡ differs same_unit (Some unit) self.now.settings.unit }
    {
        match (unit, self.settings.unit) {
            (_, None)
            | (Unit::Inch, Some(Unit::Inch))
            | (Unit::Millimetre, Some(Unit::Millimetre)) => false,
            _ => true,
        }
    }

    fn differs_in_zeros(&self, zeros: Option<Zeros>) -> bool
        ensures { result ≡ differs same_zeros zeros self.now.settings.zeros }
    {
        match (zeros, self.settings.zeros) {
            (Some(zeros), Some(other)) => !same_zeros(zeros, other),
            _ => false,
        }
    }

    fn differs_in_format(&self, format: Option<DrillFormat>) -> bool
        ensures { result ≡ differs same_format format self.now.settings.format }
    {
        match (format, self.settings.format) {
            (Some(format), Some(other)) => {
                !(format.whole() == other.whole() && format.decimals() == other.decimals())
            }
            _ => false,
        }
    }

    fn unit_line_rule(
        &self,
        unit: Unit,
        zeros: Option<Zeros>,
        format: Option<DrillFormat>,
    ) -> Option<Reason>
        ensures { result ≡ find (applies (state_of self.now) (length self.now.holes.items) None (command.UnitLine unit zeros format)) rules }
    {
        if self.differs_in_unit(unit) {
            Some(Reason::UnitConflict)
        } else if (self.differs_in_format(format) || self.differs_in_zeros(zeros))
            && !self.header_ended
        {
            Some(Reason::FormatConflict)
        } else {
            None
        }
    }

    fn comment_rule(&self, text: &Text) -> Option<Reason>
        ensures { result ≡ find (applies (state_of self.now) (length self.now.holes.items) None (command.Comment text.now)) rules }
    {
        if self.differs_in_format(file_format(text.bytes())) && !self.header_ended {
            Some(Reason::FormatConflict)
        } else {
            None
        }
    }

    fn tool_rule(&self, number: u16, diameter: Dec) -> Option<Reason>
        ensures { result ≡ find (applies (state_of self.now) (length self.now.holes.items) None (command.Tool number diameter)) rules }
    {
        if self.tools.contains_key(&number) {
            Some(Reason::Redefined)
        } else if diameter.units() <= 0 {
            Some(Reason::BadSize)
        } else {
            None
        }
    }

    fn is_unknown(&self, number: u16) -> bool
        ensures { result ≡ picks_unknown_tool (state_of self.now) (command.Pick number) }
    {
        number != 0 && !self.tools.contains_key(&number)
    }

    /// The rule that files of this kind have beside the others, if a command breaks it that drills nothing.
    fn own_rule(&self, command: &DrillCommand) -> Option<Reason>
        requires { drills command.now ≡ false }
        ensures { result ≡ own_in self.now command.now }
    {
        match self.words.kind {
            PlatingKind::Stated => None,
            PlatingKind::Unplated => calls_plated(command).then_some(Reason::PlatingConflict),
            PlatingKind::Mixed if self.plates_otherwise(command) => Some(Reason::Redefined),
            PlatingKind::Mixed => self.speaks_late(command).then_some(Reason::NoPlating),
        }
    }

    /// Whether a command defines a tool again, and what is said of it now is not what it was.
    fn plates_otherwise(&self, command: &DrillCommand) -> bool
        ensures { result ≡ plates_otherwise self.now command.now }
    {
        match command {
            DrillCommand::Tool(number, _) => match picked(&self.tools, Some(*number)) {
                Some(tool) => !same_plating(self.words.said, tool.plating),
                None => false,
            },
            _ => false,
        }
    }

    /// Whether a command is a comment on tools after the header.
    fn speaks_late(&self, command: &DrillCommand) -> bool
        ensures { result ≡ (is_some (plating_set command.now) && self.now.header_ended) }
    {
        match command {
            DrillCommand::Comment(text) => {
                said_plating(text.bytes()).is_some() && self.header_ended
            }
            _ => false,
        }
    }

    /// Applies a command that drills nothing.
    fn take(&mut self, command: &DrillCommand) -> Result<(), AllocError>
        requires { drills command.now ≡ false }
        ensures { OnOk result (Applies self.old command.now self.new) }
    {
        match command {
            DrillCommand::Comment(text) => {
                self.apply_settings(None, None, file_format(text.bytes()));
                self.words.hear(text.bytes());
            }
            DrillCommand::Start => self.settings.part = Part::Header,
            DrillCommand::UnitLine(unit, zeros, format) => self.apply_settings(
                Some(*unit),
                *zeros,
                *format,
            ),
            DrillCommand::Tool(number, diameter) => {
                let tool = Tool {
                    diameter: *diameter,
                    plating: self.words.said,
                };
                self.tools.insert(*number, tool)?;
                self.picked = picked(&self.tools, self.tool);
                self.width = width_with(self.settings.unit, self.tool, self.picked);
            }
            DrillCommand::HeaderEnd => {
                self.settings.part = Part::Body;
                self.header_ended = true;
            }
            DrillCommand::UnitCode(unit) => self.apply_settings(Some(*unit), None, None),
            DrillCommand::Pick(number) => {
                self.tool = Some(*number);
                self.picked = picked(&self.tools, self.tool);
                self.width = width_with(self.settings.unit, self.tool, self.picked);
            }
            DrillCommand::Finish => self.settings.part = Part::After,
            DrillCommand::Hit(_) | DrillCommand::Slot(_, _) => {}
        }
        Ok(())
    }

    /// Applies what a line gives, unless the header has ended.
    fn apply_settings(
        &mut self,
        unit: Option<Unit>,
        zeros: Option<Zeros>,
        format: Option<DrillFormat>,
    )
        ensures state_of { state_of self.new ≡ after_format unit zeros format (state_of self.old) }
        ensures holes { self.new.holes ≡ self.old.holes }
        ensures plated { self.new.plated ≡ self.old.plated }
        ensures tools { self.new.tools ≡ self.old.tools }
        ensures words { self.new.words ≡ self.old.words }
    {
        if self.header_ended {
            return;
        }
        if unit.is_some() {
            self.settings.unit = unit;
            self.width = width_with(unit, self.tool, self.picked);
        }
        if zeros.is_some() {
            self.settings.zeros = zeros;
        }
        if format.is_some() {
            self.settings.format = format;
        }
    }

    /// Adds the hole at a point, unless that breaks a rule.
    fn drill_hit(&mut self, point: &Coordinates) -> Result<(), ItemFail>
        ensures { DrillsOrRefuses self.old point.now no_point self.new result }
    {
        let hole = self.hit_hole(point)?;
        self.move_to(point);
        self.add(hole)
    }

    /// The hole that a hit at a point drills, or the first rule that it breaks.
    fn hit_hole(&self, point: &Coordinates) -> Result<Hole, Reason>
        ensures { result ≡ hole_in (state_of self.now) (length self.now.holes.items) point.now no_point }
    {
        let width = self.width()?;
        let at = self.point(point.x.or(self.x), point.y.or(self.y))?;
        self.hole_between(width, at, at)
    }

    /// The point of a further hit, a step from the last one, or the first rule that the hit breaks where it lies beyond all decimals.
    pub(crate) fn next_point(&self, step: &Coordinates) -> Result<Coordinates, Reason>
        ensures ok { IfOk result (λ point. point ≡ next_point (state_of self.now) step.now) }
        ensures err { IfErr result (λ broken. hole_in (state_of self.now) (length self.now.holes.items) (next_point (state_of self.now) step.now) no_point ≡ Err broken) }
    {
        self.width()?;
        let x = step_on(self.x, step.x)?;
        let y = step_on(self.y, step.y)?;
        Ok(Coordinates::new(Some(x), Some(y)))
    }

    /// Adds the slot from one point to another, unless that breaks a rule.
    fn drill_slot(&mut self, first: &Coordinates, second: &Coordinates) -> Result<(), ItemFail>
        ensures { DrillsOrRefuses self.old first.now second.now self.new result }
    {
        let hole = self.hole(first, second)?;
        self.move_to(first);
        self.move_to(second);
        self.add(hole)
    }

    /// The hole from one point to another, or the first rule that it breaks.
    fn hole(&self, first: &Coordinates, second: &Coordinates) -> Result<Hole, Reason>
        ensures { result ≡ hole_in (state_of self.now) (length self.now.holes.items) first.now second.now }
    {
        let x = first.x.or(self.x);
        let y = first.y.or(self.y);
        let width = self.width()?;
        let from = self.point(x, y)?;
        let to = self.point(second.x.or(x), second.y.or(y))?;
        self.hole_between(width, from, to)
    }

    /// Adds a hole, unless it breaks the rule of mixed files.
    fn add(&mut self, hole: Hole) -> Result<(), ItemFail>
        ensures state_of { state_of self.new ≡ state_of self.old }
        ensures tools { self.new.tools ≡ self.old.tools }
        ensures words { self.new.words ≡ self.old.words }
        ensures added { AddsOrRefuses self.old hole self.new result }
    {
        if matches!(self.words.kind, PlatingKind::Mixed) {
            self.mark()?;
        }
        match self.holes.push(hole) {
            Ok(()) => Ok(()),
            Err(_) => Err(ItemFail::Memory),
        }
    }

    /// Marks the next hole as plated or not, as its tool is, or refuses it where nothing is said of that.
    fn mark(&mut self) -> Result<(), ItemFail>
        ensures state_of { state_of self.new ≡ state_of self.old }
        ensures tools { self.new.tools ≡ self.old.tools }
        ensures words { self.new.words ≡ self.old.words }
        ensures holes { self.new.holes ≡ self.old.holes }
        ensures marked { MarksOrRefuses self.old self.new result }
    {
        let plating = self.plating();
        if matches!(plating, Plating::Unsaid) {
            return Err(ItemFail::Refused(Reason::NoPlating));
        }
        match self.plated.push(matches!(plating, Plating::Plated)) {
            Ok(()) => Ok(()),
            Err(_) => Err(ItemFail::Memory),
        }
    }

    /// What the holes of the picked tool are.
    fn plating(&self) -> Plating
        ensures { result ≡ picked_plating self.now }
    {
        match self.picked {
            Some(tool) => tool.plating,
            None => Plating::Unsaid,
        }
    }

    /// The hole between two points with a tool of this diameter in pm, unless there are too many.
    fn hole_between(&self, width: i64, from: Point, to: Point) -> Result<Hole, Reason>
        requires { IsWidth width }
        ensures { result ≡ hole_between (length self.now.holes.items) width from to }
    {
        if self.holes.len() >= MAX_HOLES {
            return Err(Reason::TooManyHoles);
        }
        Hole::new(from, to, width / 2).ok_or(Reason::BadSize)
    }

    /// Makes this the last point. A coordinate that it leaves out stays.
    fn move_to(&mut self, point: &Coordinates)
        ensures state_of { state_of self.new ≡ at_last_point point.now (state_of self.old) }
        ensures holes { self.new.holes ≡ self.old.holes }
        ensures plated { self.new.plated ≡ self.old.plated }
        ensures tools { self.new.tools ≡ self.old.tools }
        ensures words { self.new.words ≡ self.old.words }
        ensures picked { self.new.picked ≡ self.old.picked }
    {
        self.x = point.x.or(self.x);
        self.y = point.y.or(self.y);
    }

    /// The unit of the file. A header without one has no legal body.
    fn unit(&self) -> Unit
        ensures { result ≡ unit_or self.now.settings.unit }
    {
        self.settings.unit.unwrap_or(Unit::Millimetre)
    }

    /// A length in pm, 0 where none was named, or `TooFar` above 10 m.
    fn length(&self, value: OptionalDec) -> Result<i64, Reason>
        ensures { result ≡ within_limit (coordinate_in (unit_or self.now.settings.unit) value) }
    {
        match value.get() {
            Some(value) => value.picometres(self.unit()),
            None => Ok(0),
        }
    }

    /// The point at these coordinates, or `TooFar` where one is above 10 m.
    #[tactic(auto, unfolding(grid_units::specs::Numbers::within_limit))]
    fn point(&self, x: OptionalDec, y: OptionalDec) -> Result<Point, Reason>
        ensures { result ≡ point_in (unit_or self.now.settings.unit) x y }
    {
        Point::new(self.length(x)?, self.length(y)?).ok_or(Reason::TooFar)
    }

    /// The diameter of the picked tool in pm, or the first rule that it breaks.
    fn width(&self) -> Result<i64, Reason>
        ensures exact { result ≡ width_with (unit_or self.now.settings.unit) self.now.tool (option_and_then (state_of self.now).diameter self.now.tool) }
        ensures range { IfOk result IsWidth }
    {
        self.width
    }
}

/// A coordinate one step on, or `TooFar` where that is no decimal.
fn step_on(at: OptionalDec, step: OptionalDec) -> Result<Dec, Reason>
    ensures ok { IfOk result (λ d. d ≡ steps_on 1 at step) }
    ensures err { IfErr result (λ broken. (broken ≡ reason.TooFar) × (max_units < unsigned_abs (steps_on 1 at step))) }
{
    Dec::from_units(units_or_zero(at) + units_or_zero(step)).ok_or(Reason::TooFar)
}

/// A coordinate in units of 10^-8, 0 where it is left out.
fn units_or_zero(value: OptionalDec) -> i64
    ensures value { result ≡ unwrap_or value (pos 0) }
    ensures in_range { unsigned_abs result ≤ max_units }
{
    match value.get() {
        Some(value) => value.units(),
        None => 0,
    }
}

/// The picked tool, if it is defined.
fn picked(tools: &IndexMap<u16, Tool>, tool: Option<u16>) -> Option<Tool>
    ensures { result ≡ option_and_then (λ number. get nat_eq tools.now number) tool }
{
    tools.get(&tool?).copied()
}

/// The diameter in pm of a tool that was picked, or the first rule that it breaks.
#[tactic(auto, unfolding(crate::specs::Rules::width_with))]
fn width_with(unit: Option<Unit>, tool: Option<u16>, picked: Option<Tool>) -> Result<i64, Reason>
    ensures { result ≡ width_with (unit_or unit) tool (option_map diameter_of_tool picked) }
{
    if tool.unwrap_or(0) == 0 {
        return Err(Reason::NoTool);
    }
    match picked {
        Some(tool) if tool.diameter.units() > 0 => {
            tool.diameter.picometres(unit.unwrap_or(Unit::Millimetre))
        }
        _ => Err(Reason::BadSize),
    }
}

fn same_zeros(first: Zeros, second: Zeros) -> bool
    ensures { result ≡ same_zeros first second }
{
    matches!(
        (first, second),
        (Zeros::Leading, Zeros::Leading)
            | (Zeros::Trailing, Zeros::Trailing)
            | (Zeros::Full, Zeros::Full)
    )
}
