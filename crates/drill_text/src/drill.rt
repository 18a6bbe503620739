//! A drill file that was read.

ghost use Rattle.std.specs.Prelude.{◌≡◌, List};
ghost use Rattle.grid_units.specs.Results.{AnswersAlways};
ghost use Rattle.drill_lines.specs.declared.command.DrillCommand.{DrillCommand as TheCommand};
ghost use Rattle.drill_text.specs.declared.kept.Keep.{Keep};
ghost use Rattle.drill_text.specs.Keeping.{HasRead};
ghost use Rattle.drill_text.specs.Outcome.{diameters, file_of};
ghost use Rattle.drill_text.specs.Plating.{says_otherwise};
ghost use Rattle.drill_text.specs.Profiles.{Kind};
ghost use Rattle.drill_text.specs.Writing.{vec_bytes};

use crate::kept::KeptCommands;
use crate::platings::{PlatingWords, Tool};
use crate::state::DrillState;
use crate::writer::too_long;
use drill_lines::DrillCommand;
use grid_units::{Fail, Hole, TEXT_LIMIT};
use indexmap::IndexMap;
use std::marker::Model;

/// A drill file: its commands or their canonical text, the holes that they drill and the tools that they define. The commands
/// have coordinates and diameters in the unit of the file; the holes are in pm.
#[derive(Drop)]
pub struct Drill {
    commands: Vec<DrillCommand>,
    text: Vec<u8>,
    holes: Vec<Hole>,
    plated: Vec<bool>,
    words: PlatingWords,
    tools: IndexMap<u16, Tool>,
}

impl Model for Drill {
    ghost use Rattle.drill_text.specs.Outcome.{DrillFile, diameters};
    ghost use Rattle.drill_text.specs.Writing.{text_or_fault};

    ghost Value = { DrillFile };

    ghost view = { λ d. record { commands = d.commands.items; text = text_or_fault d.text.items; holes = d.holes.items; plated = d.plated.items; calls_plated = d.words.calls_plated; calls_unplated = d.words.calls_unplated; tools = diameters d.tools.entries } };
}

impl Drill {
    /// The drill file of the commands that have led to a state, with what was kept of them.
    pub(crate) fn new(state: DrillState, kept: KeptCommands) -> Drill
        ensures { (kind : Kind) (keep : Keep) (commands : List TheCommand) → HasRead state kept kind keep commands → result ≡ file_of kind.plating keep commands }
    {
        let (commands, text) = kept.into_parts();
        let (holes, plated, words, tools) = state.into_parts();
        Drill {
            commands,
            text,
            holes,
            plated,
            words,
            tools,
        }
    }

    /// The commands, in the order of their lines; none if they were not kept.
    pub fn commands(&self) -> &[DrillCommand]
        ensures { result.now ≡ self.now.commands }
    {
        &self.commands
    }

    /// The holes, one for each hit and each slot, in the order of their lines and in pm.
    pub fn holes(&self) -> &[Hole]
        ensures { result.now ≡ self.now.holes }
    {
        &self.holes
    }

    /// Of each hole of a mixed file, in their order, whether it is plated: whether the last comment before the definition of its tool
    /// that says what tools are says so. None of another file.
    pub fn plated(&self) -> &[bool]
        ensures { result.now ≡ self.now.plated }
    {
        &self.plated
    }

    /// Whether the comments of the file contradict a role that calls its holes plated, or unplated: such a file of the role `unplated` says
    /// that holes are plated, one of the role `plated` says that holes are not plated and never that they are.
    pub fn contradicts(&self, plated: bool) -> bool
        ensures { result ≡ says_otherwise plated self.now.calls_plated self.now.calls_unplated }
    {
        if plated {
            self.words.calls_unplated && !self.words.calls_plated
        } else {
            self.words.calls_plated
        }
    }

    /// The holes alone, moved out of the file.
    pub fn into_holes(self) -> Vec<Hole>
        ensures { result.items ≡ self.holes }
    {
        let Drill { holes, .. } = self;
        holes
    }

    /// The holes, and of each hole of a mixed file whether it is plated, moved out of the file.
    pub fn into_plated_holes(self) -> (Vec<Hole>, Vec<bool>)
        ensures holes { result.0.items ≡ self.holes }
        ensures plated { result.1.items ≡ self.plated }
    {
        let Drill { holes, plated, .. } = self;
        (holes, plated)
    }

    /// The canonical text of the commands, as `write_drill` gives it, moved out of the file; no bytes if it was not kept.
    ///
    /// # Errors
    ///
    /// [`grid_units::Reason::TooLong`] at place 0 and byte 0 where the text would be above 268,435,456 bytes.
    pub fn into_text(self) -> Result<Vec<u8>, Fail>
        ensures { AnswersAlways vec_bytes (λ answer. answer ≡ self.text) result }
    {
        let Drill { text, .. } = self;
        if text.len() > TEXT_LIMIT {
            return Err(too_long());
        }
        Ok(text)
    }

    /// The tools by their numbers, in order of definition.
    pub fn tools(&self) -> &IndexMap<u16, Tool>
        ensures { diameters result.now.entries ≡ self.now.tools }
    {
        &self.tools
    }
}
