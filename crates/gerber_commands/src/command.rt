//! The commands of a Gerber text.

ghost use Rattle.std.specs.Prelude.{◌≡◌, IfOk};
ghost use Rattle.grid_units.specs.Results.{Gives};

use grid_units::{Dec, ItemFail, OptionalInteger, Reason, Text, Unit};
use std::alloc::{AllocError, Global};
use std::fmt;
use std::marker::Model;

/// How many digits a coordinate has before and after its decimal point: 0 to 6 each where they are read.
#[derive(Clone, Copy)]
pub struct Format {
    pub whole: u8,
    pub decimals: u8,
}

/// How a plot goes from point to point: along a line or an arc (Gerber format, Plot state G01, G02, G03).
#[derive(Clone, Copy, PartialEq, Eq)]
pub enum Interpolation {
    Linear,
    Clockwise,
    Counterclockwise,
}

/// How the centre of an arc is found: in a single quadrant or in several (Gerber format, G75 and G74).
#[derive(Clone, Copy)]
pub enum QuadrantMode {
    Single,
    Multi,
}

/// What an operation does at its point: plot, move or flash (Gerber format, Operations D01, D02, D03).
#[derive(Clone, Copy, PartialEq, Eq)]
pub enum Action {
    Plot,
    Move,
    Flash,
}

/// What an attribute belongs to: the file, apertures or objects (Gerber format, TF, TA, TO).
#[derive(Clone, Copy)]
pub enum AttributeKind {
    File,
    Aperture,
    Object,
}

/// The pieces of a macro after its name. Contracts see the list of their texts.
#[derive(Drop)]
pub struct Pieces {
    texts: Vec<Text>,
}

impl Model for Pieces {
    ghost use Rattle.std.specs.Prelude.{List, ℕ};

    ghost Value = { List (List ℕ) };

    ghost view = { λ pieces. pieces.texts.items };
}

impl Pieces {
    ghost use Rattle.std.specs.Prelude.{◌≡◌};

    /// Pieces with these texts, in order.
    pub fn new(texts: Vec<Text>) -> Self
        ensures { result ≡ texts.items }
    {
        Pieces { texts }
    }

    /// The texts of the pieces, in order and without their `*`.
    pub fn texts(&self) -> &[Text]
        ensures { result.now ≡ self.now }
    {
        self.texts.as_slice()
    }
}

/// The parameters of a standard aperture, at most five. Contracts see the list of the decimals, each in
/// units of 10^-8.
#[derive(Drop)]
pub struct Sizes {
    values: [Dec; 5],
    len: usize,
}

impl Model for Sizes {
    ghost use Rattle.std.specs.Prelude.{List, ℤ, ◌≡◌, ◌≤◌, length, take};

    ghost Value = { List ℤ };

    ghost view = { λ s. take s.len s.values };

    ghost invariant = { λ s. (s.len ≤ 5) × (length s.values ≡ 5) };
}

impl Sizes {
    ghost use Rattle.std.specs.Prelude.{◌≡◌, ◌<◌, ◌≤◌, [], ◌∷◌, ◌++◌, length};

    /// An empty list of parameters.
    pub fn new() -> Self
        ensures { result ≡ [] }
    {
        let zero = Dec::from_units(0).unwrap();
        Sizes {
            values: [zero; 5],
            len: 0,
        }
    }

    /// The parameters in order, each in units of 10^-8.
    pub fn as_slice(&self) -> &[Dec]
        ensures value { result.now ≡ self.now }
        ensures short { length self.now ≤ 5 }
    {
        &self.values[..self.len]
    }

    /// Adds a parameter after the others; there is room for five.
    pub fn push(&mut self, size: Dec)
        requires { length self.old < 5 }
        ensures { self.new ≡ self.old ++ size ∷ [] }
    {
        self.values[self.len] = size;
        self.len += 1;
    }
}

/// A standard aperture: circle, rectangle, obround or polygon (Gerber format, Standard aperture templates).
#[derive(Clone, Copy)]
pub enum Standard {
    Circle,
    Rectangle,
    Obround,
    Polygon,
}

/// A value in memory of its own, so that a command that holds it takes few bytes. Contracts see the value.
#[derive(Drop)]
pub struct Boxed<T> {
    inner: Box<T>,
}

impl<T> Model for Boxed<T> {
    ghost Value = { T };

    ghost view = { λ b. b.inner.value };
}

impl<T: Drop> Boxed<T> {
    /// Moves a value to memory of its own.
    ///
    /// # Errors
    ///
    /// An `AllocError` where there is no memory for it.
    pub fn new(alloc: Global, value: T) -> Result<Boxed<T>, AllocError>
        ensures { IfOk result (λ boxed. boxed ≡ value) }
    {
        Ok(Boxed {
            inner: Box::new(alloc, value)?,
        })
    }

    /// The value that is kept.
    pub fn get(&self) -> &T
        ensures { result.now ≡ self.now }
    {
        &self.inner
    }
}

/// The shape of an aperture, standard or a macro (Gerber format, Aperture definition AD).
#[derive(Drop)]
pub enum Template {
    /// A standard aperture and its parameters, as `C,0.5`.
    Standard(Standard, Sizes),
    /// A macro's name, and the text after the comma, if there is one.
    Named(Text, Option<Text>),
}

/// The counts of columns and rows of a step and repeat block, and its steps (Gerber format, Step and repeat SR).
#[derive(Clone, Copy)]
pub struct StepRepeat {
    pub columns: u32,
    pub rows: u32,
    pub step_x: Dec,
    pub step_y: Dec,
}

/// What an item of a Gerber text commands. The fields are those of the table in `docs/FORMATS.md`.
#[derive(Drop)]
pub enum Command {
    /// `G04` and a text: a comment.
    Comment(Text),
    /// `G01`, `G02`, `G03`: how plots go from point to point.
    Mode(Interpolation),
    /// `G74`, `G75`: how the centre of an arc is found.
    Quadrant(QuadrantMode),
    /// `G36`: a region starts.
    RegionStart,
    /// `G37`: a region ends.
    RegionEnd,
    /// `MO`: the unit of all lengths.
    UnitIs(Unit),
    /// `FS`: the digits of the coordinates.
    FormatIs(Format),
    /// `AD`: an aperture with its number, from 10 on.
    Define {
        number: u32,
        template: Boxed<Template>,
    },
    /// `AM`: a macro's name and its further pieces.
    Macro(Text, Boxed<Pieces>),
    /// `D10` and above: the aperture that is flashed and drawn with from here on.
    Select(u32),
    /// `D01`, `D02`, `D03`: a plot, a move or a flash, with the coordinates that stand in the word.
    Operate {
        action: Action,
        x: OptionalInteger,
        y: OptionalInteger,
        i: OptionalInteger,
        j: OptionalInteger,
    },
    /// `LPD`: dark polarity.
    Dark,
    /// `LPC`: clear polarity, which only the wide profile reads.
    Clear,
    /// `LM`: the axes along which flashes are mirrored.
    Mirror {
        x: bool,
        y: bool,
    },
    /// `LR`: flashes are rotated by so many degrees, counterclockwise.
    Turn(Dec),
    /// `LS`: flashes are scaled by this factor.
    Scale(Dec),
    /// `SR` with counts and steps: a step and repeat block begins.
    Repeat(StepRepeat),
    /// `SR` alone: the step and repeat block ends.
    RepeatEnd,
    /// `TF`, `TA`, `TO` and a text: an attribute.
    Attribute(AttributeKind, Text),
    /// `TD` and a text: the named attribute is deleted, or all where the text is empty.
    Remove(Text),
    /// `M02`: the end of the text.
    Finish,
}

impl fmt::Debug for Command {
    /// Writes the name of the command's kind alone.
    fn fmt<W: fmt::Write>(&self, f: &mut fmt::Formatter<W>) -> fmt::Result {
        f.write_str(match self {
            Command::Comment(..) => "Comment",
            Command::Mode(..) => "Mode",
            Command::Quadrant(..) => "Quadrant",
            Command::RegionStart => "RegionStart",
            Command::RegionEnd => "RegionEnd",
            Command::UnitIs(..) => "UnitIs",
            Command::FormatIs(..) => "FormatIs",
            Command::Define { .. } => "Define",
            Command::Macro(..) => "Macro",
            Command::Select(..) => "Select",
            Command::Operate { .. } => "Operate",
            Command::Dark => "Dark",
            Command::Clear => "Clear",
            Command::Mirror { .. } => "Mirror",
            Command::Turn(..) => "Turn",
            Command::Scale(..) => "Scale",
            Command::Repeat(..) => "Repeat",
            Command::RepeatEnd => "RepeatEnd",
            Command::Attribute(..) => "Attribute",
            Command::Remove(..) => "Remove",
            Command::Finish => "Finish",
        })
    }
}

/// What a row of a table of items answers: none where the item does not fit it, else what the item spells, or why it spells nothing.
pub type ItemRow = Option<Result<ItemCommands, Reason>>;

/// The answer of an item whose row takes no memory.
pub(crate) fn item_answer(answer: Result<ItemCommands, Reason>) -> Result<ItemCommands, ItemFail>
    ensures { Gives result answer }
{
    Ok(answer?)
}

/// What an item spells, by its parts.
#[derive(Drop)]
pub enum ItemParts {
    /// An interpolation and another command, each if the item spells one.
    Few(Option<Interpolation>, Option<Command>),
    /// What several pieces spell one after the other, which only the wide profile reads.
    Several(Vec<Command>),
}

/// What one item spells: an interpolation, another command, both or nothing, or what its pieces spell. Contracts see the list of
/// the commands.
#[derive(Drop)]
pub struct ItemCommands {
    parts: ItemParts,
}

impl Model for ItemCommands {
    ghost use Rattle.std.specs.Prelude.{List};
    ghost use Rattle.gerber_commands.specs.declared.command.Command.{Command};

    ghost Value = { List Command };

    ghost use Rattle.gerber_commands.specs.Rows.{commands_in};

    ghost view = { λ s. commands_in s.parts };
}

impl ItemCommands {
    ghost use Rattle.std.specs.Prelude.{◌≡◌, [], ◌∷◌, ◌++◌, OnOk};
    ghost use Rattle.gerber_commands.specs.declared.command.Command.TheVariants.{Mode};
    ghost use Rattle.gerber_commands.specs.Rows.{modes_of, commands_in};

    /// An item without effect, which spells no command.
    pub fn nothing() -> Self
        ensures { result ≡ [] }
    {
        ItemCommands {
            parts: ItemParts::Few(None, None),
        }
    }

    /// An item with an interpolation alone.
    pub fn mode(mode: Interpolation) -> Self
        ensures { result ≡ Mode mode ∷ [] }
    {
        ItemCommands {
            parts: ItemParts::Few(Some(mode), None),
        }
    }

    /// An item with one command.
    pub fn one(command: Command) -> Self
        ensures { result ≡ command ∷ [] }
    {
        ItemCommands::both(None, command)
    }

    /// An item with a command, optionally after an interpolation.
    pub fn both(mode: Option<Interpolation>, command: Command) -> Self
        ensures { result ≡ modes_of mode ++ command ∷ [] }
    {
        ItemCommands {
            parts: ItemParts::Few(mode, Some(command)),
        }
    }

    /// An item of several pieces, which spell these commands one after the other.
    pub fn several(commands: Vec<Command>) -> Self
        ensures { result ≡ commands.items }
    {
        ItemCommands {
            parts: ItemParts::Several(commands),
        }
    }

    /// What the item spells, by its parts.
    pub fn into_parts(self) -> ItemParts
        ensures { self ≡ commands_in result }
    {
        self.parts
    }

    /// Adds the commands to others.
    ///
    /// # Errors
    ///
    /// An `AllocError` where there is no memory for them.
    pub fn append_to(self, commands: &mut Vec<Command>) -> Result<(), AllocError>
        ensures { OnOk result (commands.new.items ≡ commands.old.items ++ self) }
    {
        match self.parts {
            ItemParts::Few(mode, command) => {
                if let Some(mode) = mode {
                    commands.push(Command::Mode(mode))?;
                }
                if let Some(command) = command {
                    commands.push(command)?;
                }
            }
            ItemParts::Several(mut more) => commands.append(&mut more)?,
        }
        Ok(())
    }
}
