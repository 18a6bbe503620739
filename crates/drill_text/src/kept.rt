//! What is kept of the commands of a drill file.

ghost use Rattle.std.specs.Prelude.{◌≡◌, true, false, [], OnOk};
ghost use Rattle.drill_text.specs.Repeats.{is_hit};

use crate::writer::put_line;
use drill_lines::{Coordinates, DrillCommand};
use grid_units::TEXT_LIMIT;
use std::alloc::{AllocError, Global};

/// What a reader keeps of a drill file.
#[derive(Clone, Copy)]
pub enum Keep {
    /// The holes, the tools and the commands.
    Commands,
    /// The holes, the tools and the canonical text of the commands, but no command.
    Text,
    /// The holes and the tools alone.
    Holes,
}

/// Whether a command is a hit.
fn is_hit(command: &DrillCommand) -> bool
    ensures { result ≡ is_hit command.now }
{
    matches!(command, DrillCommand::Hit(_))
}

/// The commands that were read, or their canonical text, or neither; and whether the end of the file is among them, and the last of
/// them is a hit. Once the text is longer than a text may be, nothing is added to it.
#[derive(Drop)]
pub(crate) struct KeptCommands {
    keep: Keep,
    commands: Vec<DrillCommand>,
    text: Vec<u8>,
    is_finished: bool,
    is_after_hit: bool,
}

impl KeptCommands {
    ghost use Rattle.drill_lines.specs.declared.command.DrillCommand.TheVariants as command;
    ghost use Rattle.drill_text.specs.Keeping.{KeepsCommands, KeepsNext};

    /// Nothing is kept yet.
    pub(crate) fn new(alloc: Global, keep: Keep) -> KeptCommands
        ensures keeps { KeepsCommands result keep [] }
        ensures hit { result.is_after_hit ≡ false }
    {
        KeptCommands {
            keep,
            commands: Vec::new(alloc),
            text: Vec::new(alloc),
            is_finished: false,
            is_after_hit: false,
        }
    }

    /// Adds a command, or its line.
    pub(crate) fn add(&mut self, command: DrillCommand) -> Result<(), AllocError>
        ensures keeps { OnOk result (KeepsNext self.old command self.new) }
        ensures hit { OnOk result (self.new.is_after_hit ≡ is_hit command) }
    {
        if matches!(command, DrillCommand::Finish) {
            self.is_finished = true;
        }
        self.is_after_hit = is_hit(&command);
        match self.keep {
            Keep::Commands => {
                self.commands.push(command)?;
                Ok(())
            }
            Keep::Text if self.text.len() <= TEXT_LIMIT => put_line(&mut self.text, &command),
            Keep::Text | Keep::Holes => Ok(()),
        }
    }

    /// Adds a hit at a point, or its line. Where neither is kept, no command is made of it.
    pub(crate) fn add_hit(&mut self, point: Coordinates) -> Result<(), AllocError>
        ensures keeps { OnOk result (KeepsNext self.old (command.Hit point) self.new) }
        ensures hit { OnOk result (self.new.is_after_hit ≡ true) }
    {
        if matches!(self.keep, Keep::Holes) {
            self.is_after_hit = true;
            return Ok(());
        }
        self.add(DrillCommand::Hit(point))
    }

    /// Whether the end of the file is among the commands.
    pub(crate) fn is_finished(&self) -> bool
        ensures { result ≡ self.now.is_finished }
    {
        self.is_finished
    }

    /// Whether the last of the commands is a hit.
    pub(crate) fn is_after_hit(&self) -> bool
        ensures { result ≡ self.now.is_after_hit }
    {
        self.is_after_hit
    }

    /// The commands and the text that are kept.
    pub(crate) fn into_parts(self) -> (Vec<DrillCommand>, Vec<u8>)
        ensures { result ≡ (self.commands, self.text) }
    {
        let KeptCommands { commands, text, .. } = self;
        (commands, text)
    }
}
