//! The fast path of the judge. What most operations need is computed when it changes, not at each operation.

ghost use Rattle.std.specs.Prelude.{◌≡◌, [], List, IfSome, None, true, false};
ghost use Rattle.gerber_commands.specs.declared.command.Command.{Command};
ghost use Rattle.gerber_commands.specs.declared.command.Command.TheVariants as command;
ghost use Rattle.layer_state.specs.Inner.FastOperations.{AreCachedValues, changes_cached};
ghost use Rattle.layer_state.specs.Flashes.{is_flash};
ghost use Rattle.layer_state.specs.Rules.{first_broken};
ghost use Rattle.layer_state.specs.KeptFlashes.{KeptParts, flash_count, without_pads};
ghost use Rattle.layer_state.specs.Inner.IsStateAfter.{IsStateAfter, AppliesOrRefuses, state_of};
ghost use Rattle.layer_state.specs.Tables.{is_allowed_again};

use crate::cached_values::CachedValues;
use crate::flash::{Flash, FlashKeep};
use crate::flashes::MAX_FLASHES;
use crate::rules::is_flash;
use crate::state::State;
use gerber_text::{Action, Command};
use grid_units::{ItemFail, OptionalInteger, Profile};
use std::alloc::Global;

/// A judge, with what most operations need of its state kept at hand.
#[derive(Drop)]
pub(crate) struct CachedState {
    pub(crate) state: State,
    cached: CachedValues,
    ghost cached_values: { AreCachedValues cached (state_of state) },
}

impl CachedState {
    ghost use Rattle.layer_state.specs.Inner.FastOperations.{IsFlashOf};

    /// A judge by the rules of a profile that has met no command.
    pub(crate) fn new(alloc: Global, profile: Profile, keep: FlashKeep) -> CachedState
        ensures { IsStateAfter result.state (without_pads profile keep []) [] }
    {
        let state = State::new(alloc, profile, keep);
        let cached = CachedValues::of(&state);
        CachedState { state, cached }
    }

    /// Checks one more command, and applies it where it breaks no rule.
    pub(crate) fn step(&mut self, command: &Command) -> Result<(), ItemFail>
        ensures { (parts : KeptParts) (before : List Command) → IsStateAfter self.old.state parts before → AppliesOrRefuses parts before command.now self.new.state result }
    {
        if let Command::Operate { action, x, y, i, j } = command {
            return self.operate(*action, *x, *y, *i, *j);
        }
        self.step_by_rules(command)
    }

    /// Checks an operation and applies it: on the fast path where it applies, else as any other command.
    pub(crate) fn operate(
        &mut self,
        action: Action,
        x: OptionalInteger,
        y: OptionalInteger,
        i: OptionalInteger,
        j: OptionalInteger,
    ) -> Result<(), ItemFail>
        ensures { (parts : KeptParts) (before : List Command) → IsStateAfter self.old.state parts before → AppliesOrRefuses parts before (command.Operate action x y i j) self.new.state result }
    {
        let across = x.get();
        let up = y.get();
        let offset_x = i.get();
        let offset_y = j.get();
        if self.is_plain_move(action, across, up, offset_x, offset_y) {
            self.state.current.set_point(across, up);
            return Ok(());
        }
        if let Some(flash) = self.flash(action, across, up, offset_x, offset_y) {
            self.state.add(&flash, across, up)?;
            return Ok(());
        }
        self.step_by_rules(&Command::Operate { action, x, y, i, j })
    }

    /// Checks any command by the whole table of rules, and brings the fast path up to date.
    fn step_by_rules(&mut self, command: &Command) -> Result<(), ItemFail>
        ensures { (parts : KeptParts) (before : List Command) → IsStateAfter self.old.state parts before → AppliesOrRefuses parts before command.now self.new.state result }
    {
        let outcome = self.state.step(command);
        if outcome.is_err() || changes_cached(command) {
            self.cached = CachedValues::of(&self.state);
        }
        outcome
    }

    /// Whether the fast path shows that an operation is no flash and breaks no rule. So it is with most operations.
    fn is_plain_move(
        &self,
        action: Action,
        x: Option<i64>,
        y: Option<i64>,
        i: Option<i64>,
        j: Option<i64>,
    ) -> bool
        ensures no_flash { result ≡ true → is_flash action ≡ false }
        ensures legal { result ≡ true → first_broken (is_allowed_again self.now.state.apertures (command.Operate action x y i j)) (state_of self.now.state) (flash_count self.now.state.flashes) (command.Operate action x y i j) ≡ None }
    {
        if !self.cached.ready || is_flash(action) || self.state.lacks_aperture(action) {
            return false;
        }
        let lengths = &self.cached.lengths;
        if !lengths.has(x) || !lengths.has(y) {
            return false;
        }
        if !lengths.has(i) || !lengths.has(j) {
            return false;
        }
        true
    }

    /// The flash of an operation that breaks no rule and makes just one, where the fast path shows it.
    fn flash(
        &self,
        action: Action,
        x: Option<i64>,
        y: Option<i64>,
        i: Option<i64>,
        j: Option<i64>,
    ) -> Option<Flash>
        ensures { IfSome result (λ flash. IsFlashOf (is_allowed_again self.now.state.apertures (command.Operate action x y i j)) (state_of self.now.state) (flash_count self.now.state.flashes) (command.Operate action x y i j) flash) }
    {
        let state = &self.state;
        if !is_flash(action) || state.current.in_region || state.flashes.count >= MAX_FLASHES {
            return None;
        }
        if !self.cached.ready || !self.cached.single_copy {
            return None;
        }
        let lengths = &self.cached.lengths;
        let across = x.unwrap_or(state.current.x);
        let up = y.unwrap_or(state.current.y);
        if !lengths.has(Some(across)) || !lengths.has(Some(up)) {
            return None;
        }
        if !lengths.has(i) || !lengths.has(j) {
            return None;
        }
        let at = lengths.point(across, up);
        Some(Flash {
            at,
            what: self.cached.what.at(at),
        })
    }
}

/// Whether a command changes what the fast path keeps.
fn changes_cached(command: &Command) -> bool
    ensures { result ≡ changes_cached command.now }
{
    matches!(
        command,
        Command::UnitIs(_)
            | Command::FormatIs(_)
            | Command::Define { .. }
            | Command::Select(_)
            | Command::Turn(_)
            | Command::Scale(_)
            | Command::Repeat(_)
            | Command::RepeatEnd
    )
}
