//! The rules of a legal list, in their order.

ghost use Rattle.std.specs.Prelude.{◌≡◌, ◌+◌, ◌&&◌, ◌||◌, is_none, length, nat_lt, false};
ghost use Rattle.std.specs.List.{find};
ghost use Rattle.gerber_commands.specs.declared.command.Command.TheVariants as command;
ghost use Rattle.layer_state.specs.Flashes.{is_flash, copies_at};
ghost use Rattle.layer_state.specs.Rules.{breaks_rule, later_rules, first_broken, differs_in_unit, differs_in_format, lacks_macro, needs_aperture, flashes_too_far, is_far_coordinate, is_bad_repeat, is_bad_count, max_flashes, is_allowed_in_region};
ghost use Rattle.layer_state.specs.KeptFlashes.{flash_count};
ghost use Rattle.layer_state.specs.Inner.IsStateAfter.{state_of};
ghost use Rattle.layer_state.specs.Tables.{is_allowed_again};

use crate::aperture::has_bad_template;
use crate::flashes::MAX_FLASHES;
use crate::length::{coordinate, is_long};
use crate::state::State;
use gerber_text::{Action, Command, Format, StepRepeat, Template};
use grid_units::{Reason, Unit, is_too_far};

impl State {
    /// The first rule that a command breaks, if any.
    #[tactic(auto, unfolding(crate::specs::Rules::first_broken))]
    pub(crate) fn broken_rule(&self, command: &Command) -> Option<Reason>
        ensures { result ≡ first_broken (is_allowed_again self.now.apertures command.now) (state_of self.now) (flash_count self.now.flashes) command.now }
    {
        if self.current.in_region && !is_allowed_in_region(command) {
            return Some(Reason::InRegion);
        }
        match command {
            Command::RegionEnd => (!self.current.in_region).then_some(Reason::NotInRegion),
            Command::UnitIs(unit) => self.differs_in_unit(*unit).then_some(Reason::UnitConflict),
            Command::FormatIs(format) => self
                .differs_in_format(*format)
                .then_some(Reason::FormatConflict),
            Command::Define { number, template } => self.definition_rule(*number, template.get()),
            Command::Macro(name, _) => self.macros.has(name).then_some(Reason::Redefined),
            Command::Select(number) => self
                .apertures
                .get(*number)
                .is_none()
                .then_some(Reason::UnknownAperture),
            Command::Operate { action, x, y, i, j } => self.operation_rule(
                *action,
                x.get(),
                y.get(),
                i.get(),
                j.get(),
            ),
            Command::Scale(scale) => (scale.units() <= 0).then_some(Reason::BadSize),
            Command::Repeat(block) => is_bad_repeat(*block).then_some(Reason::BadRepeat),
            Command::Finish => self.finish_rule(),
            _ => None,
        }
    }

    fn differs_in_unit(&self, unit: Unit) -> bool
        ensures { result ≡ differs_in_unit (state_of self.now) (command.UnitIs unit) }
    {
        match self.current.unit {
            Some(other) => other != unit,
            None => false,
        }
    }

    fn differs_in_format(&self, format: Format) -> bool
        ensures { result ≡ differs_in_format (state_of self.now) (command.FormatIs format) }
    {
        match self.current.format {
            Some(other) => other.whole != format.whole || other.decimals != format.decimals,
            None => false,
        }
    }

    fn finish_rule(&self) -> Option<Reason>
        ensures { result ≡ find (breaks_rule (is_allowed_again self.now.apertures command.Finish) (state_of self.now) (flash_count self.now.flashes) command.Finish) later_rules }
    {
        if self.current.format.is_none() {
            Some(Reason::NoFormat)
        } else if self.current.unit.is_none() {
            Some(Reason::NoUnit)
        } else {
            None
        }
    }

    fn definition_rule(&self, number: u32, template: &Template) -> Option<Reason>
        ensures { result ≡ find (breaks_rule (is_allowed_again self.now.apertures (command.Define number template.now)) (state_of self.now) (flash_count self.now.flashes) (command.Define number template.now)) later_rules }
    {
        if self.apertures.get(number).is_some()
            && !self.apertures.is_allowed_again(number, template)
        {
            Some(Reason::Redefined)
        } else if self.lacks_macro(template) {
            Some(Reason::UnknownMacro)
        } else if has_bad_template(template) {
            Some(Reason::BadSize)
        } else {
            None
        }
    }

    fn lacks_macro(&self, template: &Template) -> bool
        ensures { result ≡ lacks_macro (state_of self.now) template.now }
    {
        match template {
            Template::Named(name, _) => !self.macros.has(name),
            Template::Standard(_, _) => false,
        }
    }

    fn operation_rule(
        &self,
        action: Action,
        x: Option<i64>,
        y: Option<i64>,
        i: Option<i64>,
        j: Option<i64>,
    ) -> Option<Reason>
        ensures { result ≡ find (breaks_rule (is_allowed_again self.now.apertures (command.Operate action x y i j)) (state_of self.now) (flash_count self.now.flashes) (command.Operate action x y i j)) later_rules }
    {
        let Some(format) = self.current.format else {
            return Some(Reason::NoFormat);
        };
        if self.current.unit.is_none() {
            Some(Reason::NoUnit)
        } else if self.lacks_aperture(action) {
            Some(Reason::NoAperture)
        } else if is_long(format, x)
            || is_long(format, y)
            || is_long(format, i)
            || is_long(format, j)
        {
            Some(Reason::TooManyDigits)
        } else if self.has_far_coordinate(x)
            || self.has_far_coordinate(y)
            || (is_flash(action) && self.flashes_too_far(x, y))
        {
            Some(Reason::TooFar)
        } else {
            self.makes_too_many_flashes(action, x, y)
                .then_some(Reason::TooManyPads)
        }
    }

    pub(crate) fn lacks_aperture(&self, action: Action) -> bool
        ensures { result ≡ (needs_aperture action self.now.current.in_region && is_none self.now.current.selected) }
    {
        let needed = match action {
            Action::Plot => !self.current.in_region,
            Action::Move => false,
            Action::Flash => true,
        };
        needed && self.current.selected.is_none()
    }

    fn has_far_coordinate(&self, named: Option<i64>) -> bool
        ensures { result ≡ is_far_coordinate (state_of self.now) named }
    {
        match named {
            Some(n) => is_too_far(coordinate(n, self.current.decimals(), self.current.unit())),
            None => false,
        }
    }

    fn flashes_too_far(&self, x: Option<i64>, y: Option<i64>) -> bool
        ensures { result ≡ flashes_too_far (state_of self.now) x y }
    {
        self.grid(x, y).is_too_far() || self.is_far_pad()
    }

    fn makes_too_many_flashes(&self, action: Action, x: Option<i64>, y: Option<i64>) -> bool
        ensures { result ≡ (is_flash action && nat_lt max_flashes (flash_count self.now.flashes + length (copies_at (state_of self.now) x y))) }
    {
        is_flash(action)
            && u128::from(self.flashes.count) + u128::from(self.grid(x, y).count())
                > u128::from(MAX_FLASHES)
    }
}

fn is_bad_repeat(block: StepRepeat) -> bool
    ensures { result ≡ is_bad_repeat (command.Repeat block) }
{
    is_bad_count(block.columns)
        || is_bad_count(block.rows)
        || block.step_x.units() < 0
        || block.step_y.units() < 0
}

fn is_bad_count(count: u32) -> bool
    ensures { result ≡ is_bad_count count }
{
    count == 0 || count > 10_000
}

/// Whether a command may stand in a region.
fn is_allowed_in_region(command: &Command) -> bool
    ensures { result ≡ is_allowed_in_region command.now }
{
    match command {
        Command::Comment(_) | Command::Mode(_) | Command::Quadrant(_) | Command::RegionEnd => true,
        Command::Operate { action, .. } => !is_flash(*action),
        _ => false,
    }
}

/// Whether an operation is a flash (`D03`).
pub(crate) fn is_flash(action: Action) -> bool
    ensures { result ≡ is_flash action }
{
    matches!(action, Action::Flash)
}
