//! The commands of a drill file, and the settings by which its lines are read.

ghost use Rattle.std.specs.Prelude.{◌≡◌, ◌≤◌, ◌↔◌, IsSome, IfSome};

use grid_units::{Dec, OptionalInteger, Text, Unit, Zeros};
use std::fmt;
use std::marker::Model;

/// How many digits a coordinate without a point has before its point and after it: 1 to 6 each.
#[derive(Clone, Copy, PartialEq, Eq)]
pub struct DrillFormat {
    whole: u8,
    decimals: u8,
}

impl Model for DrillFormat {
    ghost use Rattle.drill_lines.specs.Formats.{Digits, AreDigitCounts};

    ghost Value = { Digits };

    ghost view = { λ f. record { whole = f.whole; decimals = f.decimals } };

    ghost invariant = { λ f. AreDigitCounts f.whole f.decimals };

    ghost inverse = { λ f. record { whole = f.whole; decimals = f.decimals } };
}

impl DrillFormat {
    ghost use Rattle.drill_lines.specs.Formats.{AreDigitCounts};

    /// The format with these numbers of digits, or `None` where one of them is not 1 to 6.
    pub fn new(whole: u8, decimals: u8) -> Option<DrillFormat>
        ensures valid { IsSome result ↔ AreDigitCounts whole decimals }
        ensures value { IfSome result (λ f. f ≡ record { whole = whole; decimals = decimals }) }
    {
        if 1 <= whole && whole <= 6 && 1 <= decimals && decimals <= 6 {
            Some(DrillFormat { whole, decimals })
        } else {
            None
        }
    }

    /// How many digits stand before the point, 1 to 6.
    pub fn whole(&self) -> u8
        ensures value { result ≡ self.now.whole }
        ensures in_range { AreDigitCounts self.now.whole self.now.decimals }
    {
        self.whole
    }

    /// How many digits stand after the point, 1 to 6.
    pub fn decimals(&self) -> u8
        ensures value { result ≡ self.now.decimals }
        ensures in_range { AreDigitCounts self.now.whole self.now.decimals }
    {
        self.decimals
    }
}

/// A coordinate of a line, or that it is left out. It takes eight bytes, since a file has many; contracts see
/// the optional decimal.
#[derive(Clone, Copy, PartialEq, Eq)]
pub struct OptionalDec {
    units: OptionalInteger,
}

impl Model for OptionalDec {
    ghost use Rattle.std.specs.Prelude.{ℤ, ◌≤◌, Option, IfSome, unsigned_abs};
    ghost use Rattle.grid_units.specs.Numbers.{max_units};

    ghost Value = { Option ℤ };

    ghost view = { λ c. c.units };

    ghost invariant = { λ c. IfSome c.units (λ z. unsigned_abs z ≤ max_units) };

    ghost inverse = { λ v. record { units = v } };
}

impl OptionalDec {
    ghost use Rattle.std.specs.Option.{option_or};

    /// This coordinate, or one that is left out.
    pub fn new(value: Option<Dec>) -> OptionalDec
        ensures { result ≡ value }
    {
        OptionalDec {
            units: OptionalInteger::of(value.map(Dec::units)),
        }
    }

    /// The coordinate in the unit of its file, or `None` where it is left out.
    pub fn get(self) -> Option<Dec>
        ensures { result ≡ self }
    {
        Dec::from_units(self.units.get()?)
    }

    /// This coordinate, or the other one where this is left out.
    pub fn or(self, other: OptionalDec) -> OptionalDec
        ensures { result ≡ option_or self other }
    {
        let named = self.units.get();
        if named.is_some() { self } else { other }
    }
}

/// The coordinates that a line names for a point, in the unit of its file. Each may be left out.
#[derive(Clone, Copy, PartialEq, Eq)]
pub struct Coordinates {
    pub x: OptionalDec,
    pub y: OptionalDec,
}

impl Coordinates {
    /// A point with these coordinates, each of which may be left out.
    pub fn new(x: Option<Dec>, y: Option<Dec>) -> Coordinates
        ensures { result ≡ record { x = x; y = y } }
    {
        Coordinates {
            x: OptionalDec::new(x),
            y: OptionalDec::new(y),
        }
    }
}

/// How a line repeats the hit before it: how often, and how far each further hole lies from the one before.
#[derive(Clone, Copy)]
pub struct Repeat {
    /// How many further holes there are, 1 to 10,000.
    pub count: u16,
    /// The step from each hole to the next, in the unit of the file. One along an axis that is left out is 0.
    pub step: Coordinates,
}

/// What is said of a drill file's coordinates beside it, as a line of its header would say it: `INCH,TZ,00.0000`.
#[derive(Clone, Copy, PartialEq, Eq)]
pub struct CoordinateFormat {
    pub unit: Unit,
    /// The zeros that coordinates keep.
    pub zeros: Option<Zeros>,
    pub digits: Option<DrillFormat>,
}

impl CoordinateFormat {
    ghost use Rattle.drill_lines.specs.declared.command.DrillCommand.TheVariants.{UnitLine};

    /// The command of the line that says it.
    pub fn command(self) -> DrillCommand
        ensures { result ≡ UnitLine self.unit self.zeros self.digits }
    {
        DrillCommand::UnitLine(self.unit, self.zeros, self.digits)
    }
}

/// What a line of a drill file commands.
#[derive(PartialEq, Eq, Drop)]
pub enum DrillCommand {
    /// `;` and a text: a comment.
    Comment(Text),
    /// `M48`: the header begins.
    Start,
    /// `INCH` or `METRIC`, with the zeros and the format that the line gives.
    UnitLine(Unit, Option<Zeros>, Option<DrillFormat>),
    /// A tool: its number, from 1 to 999, and its diameter in the unit of the file.
    Tool(u16, Dec),
    /// `%` or `M95`: the header ends.
    HeaderEnd,
    /// `M71` for millimetres, `M72` for inches.
    UnitCode(Unit),
    /// A tool is picked by its number. 0 picks none.
    Pick(u16),
    /// A hit: one hole at a point.
    Hit(Coordinates),
    /// A slot (`G85`) from a first point to a second.
    Slot(Coordinates, Coordinates),
    /// `M30`: the end of the file.
    Finish,
}

impl fmt::Debug for DrillCommand {
    /// Writes the name of the command's kind alone.
    fn fmt<W: fmt::Write>(&self, f: &mut fmt::Formatter<W>) -> fmt::Result {
        f.write_str(match self {
            DrillCommand::Comment(..) => "Comment",
            DrillCommand::Start => "Start",
            DrillCommand::UnitLine(..) => "UnitLine",
            DrillCommand::Tool(..) => "Tool",
            DrillCommand::HeaderEnd => "HeaderEnd",
            DrillCommand::UnitCode(..) => "UnitCode",
            DrillCommand::Pick(..) => "Pick",
            DrillCommand::Hit(..) => "Hit",
            DrillCommand::Slot(..) => "Slot",
            DrillCommand::Finish => "Finish",
        })
    }
}

/// The part of a file in which a line stands.
#[derive(Clone, Copy)]
pub enum Part {
    /// Before `M48`.
    Before,
    Header,
    Body,
    /// After `M30`.
    After,
}

/// By what a line is read: the part of the file in which it stands, and what the whole header gives.
#[derive(Clone, Copy)]
pub struct Settings {
    pub part: Part,
    pub unit: Option<Unit>,
    pub zeros: Option<Zeros>,
    pub format: Option<DrillFormat>,
}
