//! Clear polarity.

ghost use Rattle.std.specs.Prelude.{◌≡◌, ◌&&◌, []};
ghost use Rattle.layer_features.specs.Clearing.{draws};
ghost use Rattle.layer_features.specs.FurtherPads.{clearing_after};
ghost use Rattle.layer_features.specs.Inner.States.{clearing_with};

use gerber_text::{Action, Command};

/// Polarity, and what it did to the open block, after some commands.
#[derive(Clone, Copy)]
pub(crate) struct Clearing {
    /// Whether polarity is clear.
    pub(crate) clear: bool,
    /// Whether something of the block that is open was drawn in clear polarity.
    pub(crate) in_block: bool,
}

impl Clearing {
    /// No command was met: polarity is dark.
    pub(crate) fn none() -> Clearing
        ensures { result ≡ clearing_after [] }
    {
        Clearing {
            clear: false,
            in_block: false,
        }
    }

    /// Whether a command draws in clear polarity.
    pub(crate) fn is_clearing(self, command: &Command) -> bool
        ensures { result ≡ (draws command.now && self.clear) }
    {
        draws(command) && self.clear
    }

    /// The same after one more command.
    pub(crate) fn after_command(self, command: &Command) -> Clearing
        ensures { result ≡ clearing_with command.now self }
    {
        let Clearing { clear, in_block } = self;
        match command {
            Command::Clear => Clearing {
                clear: true,
                in_block,
            },
            Command::Dark => Clearing {
                clear: false,
                in_block,
            },
            Command::Repeat(_) | Command::RepeatEnd => Clearing {
                clear,
                in_block: false,
            },
            _ => Clearing {
                clear,
                in_block: self.is_clearing(command) || in_block,
            },
        }
    }
}

/// Whether a command draws: a plot or a flash does.
fn draws(command: &Command) -> bool
    ensures { result ≡ draws command.now }
{
    match command {
        Command::Operate { action, .. } => match action {
            Action::Plot | Action::Flash => true,
            Action::Move => false,
        },
        _ => false,
    }
}
