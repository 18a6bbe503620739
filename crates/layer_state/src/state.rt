//! The judge: it meets the commands of a list one by one, and names the first rule that one of them breaks.

ghost use Rattle.std.specs.Prelude.{◌≡◌, ◌+◌, ◌<◌, ◌≤◌, [], ◌∷◌, List, Option, ℤ, IfErr, IfOk, OnOk, None, Some, length, false, true};
ghost use Rattle.std.specs.Option.{option_map_or};
ghost use Rattle.std.specs.List.{list_any};
ghost use Rattle.gerber_commands.specs.declared.command.Action.{Action as TheAction};
ghost use Rattle.gerber_commands.specs.declared.command.Command.{Command};
ghost use Rattle.gerber_commands.specs.declared.command.Command.TheVariants as command;
ghost use Rattle.layer_state.specs.Lookback.{current_aperture};
ghost use Rattle.layer_state.specs.Flashes.{copies_at, aperture_flashes};
ghost use Rattle.layer_state.specs.Rules.{first_broken, is_far_pad, is_far_point, max_flashes};
ghost use Rattle.layer_state.specs.KeptFlashes.{Adds, KeptParts, flash_count, keeps_shapes, without_pads};
ghost use Rattle.layer_state.specs.Inner.IsStateAfter.{IsStateAfter, Applies, AppliesOrRefuses, IfRefused, state_of, after};
ghost use Rattle.layer_state.specs.Shapes.{inner_shape};
ghost use Rattle.layer_state.specs.Tables.{is_allowed_again, pieces_at};

use crate::aperture::aperture_of;
use crate::current::Current;
use crate::flash::{Flash, FlashKeep};
use crate::flashes::Flashes;
use crate::rules::is_flash;
use crate::shapes::{by_macro, bytes_of, standard_shape, within_limits};
use crate::tables::{Apertures, Defined, Macros, copy_of};
use gerber_text::{Command, Pieces, Template};
use grid_units::{ItemFail, Profile};
use pad_shapes::SharedRounded;
use std::alloc::{AllocError, Global};

/// The state that the commands so far make, and their flashes.
#[derive(Drop)]
pub(crate) struct State {
    alloc: Global,
    pub(crate) current: Current,
    pub(crate) apertures: Apertures,
    pub(crate) macros: Macros,
    pub(crate) flashes: Flashes,
}

impl State {
    /// A judge by the rules of a profile that has met no command.
    pub(crate) fn new(alloc: Global, profile: Profile, keep: FlashKeep) -> Self
        ensures { IsStateAfter result (without_pads profile keep []) [] }
    {
        State {
            alloc,
            current: Current::new(),
            apertures: Apertures::new(alloc, profile),
            macros: Macros::new(alloc),
            flashes: Flashes::new(alloc, keep),
        }
    }

    /// Checks one more command, and applies it where it breaks no rule. A refusal changes nothing.
    pub(crate) fn step(&mut self, command: &Command) -> Result<(), ItemFail>
        ensures judges { (parts : KeptParts) (before : List Command) → IsStateAfter self.old parts before → AppliesOrRefuses parts before command.now self.new result }
        ensures takes { OnOk result (Applies self.old command.now self.new) }
        ensures same { IfErr result (IfRefused (self.new ≡ self.old)) }
    {
        if let Some(reason) = self.broken_rule(command) {
            return Err(ItemFail::Refused(reason));
        }
        self.take(command)?;
        Ok(())
    }

    /// Applies a command that breaks no rule. A flash lies at the point that its command makes the current one.
    fn take(&mut self, command: &Command) -> Result<(), AllocError>
        requires { first_broken (is_allowed_again self.old.apertures command.now) (state_of self.old) (flash_count self.old.flashes) command.now ≡ None }
        ensures { OnOk result (Applies self.old command.now self.new) }
    {
        self.current.take(command);
        match command {
            Command::Define { number, template } => {
                let template = template.get();
                let aperture = aperture_of(template);
                let shape = self.kept_shape(*number, template)?;
                self.apertures
                    .insert(*number, template, Defined { aperture, shape })?;
            }
            Command::Macro(name, pieces) => {
                let pieces = self.kept_pieces(pieces.get())?;
                self.macros.insert(self.alloc, name, pieces)?;
            }
            Command::Operate { action, .. } if is_flash(*action) => self.flash()?,
            _ => {}
        }
        Ok(())
    }

    /// The shape of the aperture of a number, where shapes are asked for and it has one.
    fn kept_shape(
        &self,
        number: u32,
        template: &Template,
    ) -> Result<Option<SharedRounded>, AllocError>
        ensures { keeps_shapes self.now.flashes.keep ≡ true → IfOk result (λ s. s ≡ inner_shape self.now.current.unit (pieces_at self.now.macros) number template.now) }
    {
        match template {
            _ if !self.flashes.keep.shapes() => Ok(None),
            Template::Named(name, parameters) => {
                let pieces = within_limits(number, self.macros.get(name));
                by_macro(self.alloc, self.current.unit, pieces, bytes_of(parameters))
            }
            Template::Standard(which, sizes) => {
                standard_shape(self.alloc, self.current.unit, *which, sizes)
            }
        }
    }

    /// A copy of the pieces of a macro, where shapes are asked for.
    fn kept_pieces(&self, pieces: &Pieces) -> Result<Option<Pieces>, AllocError>
        ensures { keeps_shapes self.now.flashes.keep ≡ true → IfOk result (λ kept. kept ≡ Some pieces.now) }
    {
        if !self.flashes.keep.shapes() {
            return Ok(None);
        }
        Ok(Some(copy_of(self.alloc, pieces.texts())?))
    }

    /// Flashes the aperture that was selected last, if there is one, once for each copy of the current point.
    fn flash(&mut self) -> Result<(), AllocError>
        requires points { list_any is_far_point (copies_at (state_of self.old) None None) ≡ false }
        requires pad { option_map_or (is_far_pad (state_of self.old)) (current_aperture (state_of self.old)) false ≡ false }
        requires few { flash_count self.old.flashes + length (copies_at (state_of self.old) None None) ≤ max_flashes }
        ensures state_of { state_of self.new ≡ state_of self.old }
        ensures macros { self.new.macros ≡ self.old.macros }
        ensures apertures { self.new.apertures ≡ self.old.apertures }
        ensures flashes { OnOk result (Adds self.old.flashes (option_map_or (aperture_flashes (state_of self.old) None None) (current_aperture (state_of self.old)) []) self.new.flashes) }
    {
        let Some(aperture) = self.aperture() else {
            return Ok(());
        };
        let what = self.what(&aperture);
        let grid = self.grid(None, None);
        self.flashes.lay(&grid, &what)
    }

    /// Adds one flash, and makes the point of its operation the current one.
    pub(crate) fn add(
        &mut self,
        flash: &Flash,
        x: Option<i64>,
        y: Option<i64>,
    ) -> Result<(), AllocError>
        requires { flash_count self.old.flashes < max_flashes }
        ensures state_of { (action : TheAction) (i j : Option ℤ) → state_of self.new ≡ after (command.Operate action x y i j) (state_of self.old) }
        ensures macros { self.new.macros ≡ self.old.macros }
        ensures apertures { self.new.apertures ≡ self.old.apertures }
        ensures flashes { OnOk result (Adds self.old.flashes (flash.now ∷ []) self.new.flashes) }
    {
        self.current.set_point(x, y);
        self.flashes.add(flash)
    }
}
