//! What the comments of a drill file say of its tools and holes, and by what it is known which holes are plated.

ghost use Rattle.std.specs.Prelude.{◌≡◌, []};
ghost use Rattle.drill_text.specs.Plating.{calls_plated, same_plating};

use drill_lines::{DrillCommand, Plating, said_plating, says_plated, says_unplated};
use grid_units::{Dec, Profile};

/// By what it is known which holes of a drill file are plated.
#[derive(Clone, Copy)]
pub enum PlatingKind {
    /// By its role alone: what the file itself says of that is passed over.
    Stated,
    /// Its role says that none is plated, and a comment that says that holes are plated is refused.
    Unplated,
    /// By its own comments: it says itself which of its holes are plated, and is refused where it does not.
    Mixed,
}

/// A tool of a drill file.
#[derive(Clone, Copy)]
pub struct Tool {
    /// Its diameter, in the unit of the file.
    pub diameter: Dec,
    /// What the comments before its definition say of its holes.
    pub(crate) plating: Plating,
}

/// What the comments so far say, in a file that is read in this profile, and whose platings are known so.
#[derive(Clone, Copy)]
pub(crate) struct PlatingWords {
    pub(crate) profile: Profile,
    pub(crate) kind: PlatingKind,
    /// What is said of the tools that are defined next.
    pub(crate) said: Plating,
    /// Whether a comment says that holes are plated.
    pub(crate) calls_plated: bool,
    /// Whether a comment says that holes are not plated.
    pub(crate) calls_unplated: bool,
}

impl PlatingWords {
    ghost use Rattle.drill_lines.specs.declared.command.DrillCommand.TheVariants as command;
    ghost use Rattle.drill_text.specs.Inner.StateSteps.{AreWordsAfter, heard};

    /// Nothing is said yet, in a file of this kind.
    pub(crate) fn new(profile: Profile, kind: PlatingKind) -> PlatingWords
        ensures { AreWordsAfter result (record { profile = profile; plating = kind; format = None }) [] }
    {
        PlatingWords {
            profile,
            kind,
            said: Plating::Unsaid,
            calls_plated: false,
            calls_unplated: false,
        }
    }

    /// Takes the text of one more comment in.
    pub(crate) fn hear(&mut self, text: &[u8])
        ensures { self.new ≡ heard (command.Comment text.now) self.old }
    {
        if let Some(said) = said_plating(text) {
            self.said = said;
        }
        self.calls_plated |= says_plated(text);
        self.calls_unplated |= says_unplated(text);
    }
}

/// Whether the same is said of two tools.
pub(crate) fn same_plating(first: Plating, second: Plating) -> bool
    ensures { result ≡ same_plating first second }
{
    matches!(
        (first, second),
        (Plating::Plated, Plating::Plated)
            | (Plating::Unplated, Plating::Unplated)
            | (Plating::Unsaid, Plating::Unsaid)
    )
}

/// Whether the command is a comment that says that holes are plated.
pub(crate) fn calls_plated(command: &DrillCommand) -> bool
    ensures { result ≡ calls_plated command.now }
{
    match command {
        DrillCommand::Comment(text) => says_plated(text.bytes()),
        _ => false,
    }
}
