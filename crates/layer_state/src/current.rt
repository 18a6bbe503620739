//! The graphics state as one command sees it: its unit and decimals, its points, its aperture, and what it would flash.

ghost use Rattle.std.specs.Prelude.{◌≡◌, Option, ℤ, IfSome, false, [], if◌then◌else◌};
ghost use Rattle.std.specs.List.{find, list_any};
ghost use Rattle.std.specs.Option.{option_map_or};
ghost use Rattle.gerber_commands.specs.declared.command.Action.{Action as TheAction};
ghost use Rattle.gerber_commands.specs.declared.command.Command.TheVariants as command;
ghost use Rattle.layer_state.specs.Lookback.{current_aperture, current_of, no_repeat, state_after};
ghost use Rattle.layer_state.specs.Flashes.{current_decimals, current_unit, grid_at, rules_out_pad, why_order, what_at, shape_at, rect_at, obround_at};
ghost use Rattle.layer_state.specs.Inner.MovedPads.{origin};
ghost use Rattle.layer_state.specs.Rules.{is_far_pad, is_far_side, sides};
ghost use Rattle.layer_state.specs.Inner.CopyGrids.{IsBounded};
ghost use Rattle.layer_state.specs.Inner.IsStateAfter.{current_after, state_of};
ghost use Rattle.layer_state.specs.Inner.FastOperations.{IsSingleFlash};

use crate::aperture::Aperture;
use crate::flash::What;
use crate::grid::CopyGrid;
use crate::length::{coordinate, dec_length};
use crate::size::Side;
use crate::state::State;
use gerber_text::{Command, Format, StepRepeat};
use grid_units::{Dec, Point, Unit, is_too_far};
use pad_shapes::{Disc, Obround, Pad, Rect, Why};

/// 90 degrees, in units of 10^-8 degrees.
const QUARTER: u64 = 9_000_000_000;

/// 1, in units of 10^-8.
pub const ONE: i64 = 100_000_000;

/// What the commands so far say last: the unit and the format, whether a region is open, the selected aperture, the current point in steps of the
/// format, how flashes are turned and scaled, and the block that is open.
#[derive(Clone, Copy)]
pub struct Current {
    pub unit: Option<Unit>,
    pub format: Option<Format>,
    pub in_region: bool,
    pub selected: Option<u32>,
    pub x: i64,
    pub y: i64,
    pub turn: Dec,
    pub scale: Dec,
    pub block: StepRepeat,
}

impl Current {
    /// No command was met.
    pub(crate) fn new() -> Current
        ensures { result ≡ current_of (state_after []) }
    {
        Current {
            unit: None,
            format: None,
            in_region: false,
            selected: None,
            x: 0,
            y: 0,
            turn: Dec::from_units(0).unwrap(),
            scale: Dec::from_units(ONE).unwrap(),
            block: no_repeat(),
        }
    }

    /// Applies one more command.
    pub(crate) fn take(&mut self, command: &Command)
        ensures { self.new ≡ current_after command.now self.old }
    {
        match command {
            Command::RegionStart => self.in_region = true,
            Command::RegionEnd => self.in_region = false,
            Command::UnitIs(unit) => self.unit = Some(*unit),
            Command::FormatIs(format) => self.format = Some(*format),
            Command::Select(number) => self.selected = Some(*number),
            Command::Operate { x, y, .. } => self.set_point(x.get(), y.get()),
            Command::Turn(turn) => self.turn = *turn,
            Command::Scale(scale) => self.scale = *scale,
            Command::Repeat(block) => self.block = *block,
            Command::RepeatEnd => self.block = no_repeat(),
            _ => {}
        }
    }

    /// The unit that was named; no operation is legal before one is.
    pub fn unit(&self) -> Unit
        ensures { result ≡ current_unit self.now }
    {
        self.unit.unwrap_or(Unit::Millimetre)
    }

    /// The decimals of the format that was named; no operation is legal before one is.
    pub fn decimals(&self) -> u8
        ensures { result ≡ current_decimals self.now }
    {
        match self.format {
            Some(format) => format.decimals,
            None => 0,
        }
    }

    /// Makes the point of an operation the current one.
    pub(crate) fn set_point(&mut self, x: Option<i64>, y: Option<i64>)
        ensures { (action : TheAction) (i j : Option ℤ) → self.new ≡ current_after (command.Operate action x y i j) self.old }
    {
        self.x = x.unwrap_or(self.x);
        self.y = y.unwrap_or(self.y);
    }
}

/// No repetition: one column and one row.
fn no_repeat() -> StepRepeat
    ensures { result ≡ no_repeat }
{
    let zero = Dec::from_units(0).unwrap();
    StepRepeat {
        columns: 1,
        rows: 1,
        step_x: zero,
        step_y: zero,
    }
}

impl State {
    /// The point of an operation with these coordinates, and the block that is open. All in pm.
    pub(crate) fn grid(&self, x: Option<i64>, y: Option<i64>) -> CopyGrid
        ensures value { result ≡ grid_at (state_of self.now) x y }
        ensures bounded { IsBounded result }
    {
        let unit = self.current.unit();
        let decimals = self.current.decimals();
        CopyGrid {
            x: coordinate(x.unwrap_or(self.current.x), decimals, unit),
            y: coordinate(y.unwrap_or(self.current.y), decimals, unit),
            columns: self.current.block.columns,
            rows: self.current.block.rows,
            step_x: dec_length(self.current.block.step_x, unit),
            step_y: dec_length(self.current.block.step_y, unit),
        }
    }

    /// The aperture of the number that was selected last.
    pub(crate) fn aperture(&self) -> Option<Aperture>
        ensures { result ≡ current_aperture (state_of self.now) }
    {
        let number = self.current.selected?;
        Some(self.apertures.get(number)?.aperture)
    }

    /// Whether a flash of the aperture that was selected last is a pad with a size above 10 m.
    pub(crate) fn is_far_pad(&self) -> bool
        ensures { result ≡ option_map_or (is_far_pad (state_of self.now)) (current_aperture (state_of self.now)) false }
    {
        match self.aperture() {
            Some(aperture) => {
                self.why_no_pad(&aperture).is_none() && self.has_far_side(&aperture)
            }
            None => false,
        }
    }

    fn has_far_side(&self, aperture: &Aperture) -> bool
        ensures { result ≡ list_any (is_far_side (current_unit self.now.current)) (sides aperture.now) }
    {
        let unit = self.current.unit();
        match aperture {
            Aperture::Circle(diameter, _) => is_far_size(diameter.size(), unit),
            Aperture::Rectangle(width, height, _) | Aperture::Obround(width, height, _) => {
                is_far_size(width.size(), unit) || is_far_size(height.size(), unit)
            }
            Aperture::Polygon | Aperture::Macro => false,
        }
    }

    /// Why a flash of the aperture is no pad.
    fn why_no_pad(&self, aperture: &Aperture) -> Option<Why>
        ensures { result ≡ find (rules_out_pad aperture.now self.now.current.scale self.now.current.turn) why_order }
    {
        let holed = match aperture {
            Aperture::Macro => return Some(Why::Macro),
            Aperture::Polygon => return Some(Why::Polygon),
            Aperture::Circle(_, holed)
            | Aperture::Rectangle(_, _, holed)
            | Aperture::Obround(_, _, holed) => *holed,
        };
        if holed {
            Some(Why::Holed)
        } else if self.current.scale.units() != ONE {
            Some(Why::Scaled)
        } else if self.current.turn.units().unsigned_abs() % QUARTER != 0 {
            Some(Why::Turned)
        } else {
            None
        }
    }

    /// What a flash leaves at the origin, where no block repeats it and no size of its pad is above 10 m.
    pub(crate) fn single_flash(&self) -> Option<What>
        ensures { IfSome result (λ w. IsSingleFlash w (current_unit self.now.current) (current_aperture (state_of self.now)) self.now.current.scale self.now.current.turn self.now.current.block) }
    {
        if self.current.block.columns != 1 || self.current.block.rows != 1 {
            return None;
        }
        let aperture = self.aperture()?;
        if self.is_far_pad() {
            return None;
        }
        Some(self.what(&aperture))
    }

    /// What the aperture leaves at the origin.
    pub(crate) fn what(&self, aperture: &Aperture) -> What
        requires { is_far_pad (state_of self.now) aperture.now ≡ false }
        ensures { result ≡ what_at origin (current_unit self.now.current) self.now.current.scale self.now.current.turn aperture.now }
    {
        match self.why_no_pad(aperture) {
            Some(why) => What::Other(why),
            None => self.shape(aperture),
        }
    }

    fn shape(&self, aperture: &Aperture) -> What
        requires { list_any (is_far_side (current_unit self.now.current)) (sides aperture.now) ≡ false }
        ensures { result ≡ shape_at origin (current_unit self.now.current) self.now.current.turn aperture.now }
    {
        let unit = self.current.unit();
        // Turned by an odd multiple of 90 degrees, the sides change places.
        let exchanged = self.current.turn.units().unsigned_abs() % (2 * QUARTER) == QUARTER;
        match aperture {
            Aperture::Circle(diameter, _) => What::Pad(Pad::Disc(Disc::new(
                origin(),
                diameter.half(unit),
            ).unwrap())),
            Aperture::Rectangle(width, height, _) => What::Pad(Pad::Rect(rect(
                *width, *height, exchanged, unit,
            ))),
            Aperture::Obround(width, height, _) => What::Pad(Pad::Obround(obround(
                *width, *height, exchanged, unit,
            ))),
            Aperture::Polygon => What::Other(Why::Polygon),
            Aperture::Macro => What::Other(Why::Macro),
        }
    }
}

fn is_far_size(size: Dec, unit: Unit) -> bool
    ensures { result ≡ is_far_side unit size }
{
    is_too_far(dec_length(size, unit))
}

fn origin() -> Point
    ensures { result ≡ origin }
{
    Point::new(0, 0).unwrap()
}

/// The rectangle of these sides along x and y, which may be exchanged.
fn rect(x: Side, y: Side, exchanged: bool, unit: Unit) -> Rect
    requires x { is_far_side unit x ≡ false }
    requires y { is_far_side unit y ≡ false }
    ensures { result ≡ (if exchanged then rect_at origin unit y x else rect_at origin unit x y) }
{
    let (half_x, half_y) = (x.half(unit), y.half(unit));
    if exchanged {
        Rect::new(origin(), half_y, half_x).unwrap()
    } else {
        Rect::new(origin(), half_x, half_y).unwrap()
    }
}

/// The obround of these sides along x and y, which may be exchanged.
fn obround(x: Side, y: Side, exchanged: bool, unit: Unit) -> Obround
    requires x { is_far_side unit x ≡ false }
    requires y { is_far_side unit y ≡ false }
    ensures { result ≡ (if exchanged then obround_at origin unit y x else obround_at origin unit x y) }
{
    let (half_x, half_y) = (x.half(unit), y.half(unit));
    if exchanged {
        Obround::new(origin(), half_y, half_x).unwrap()
    } else {
        Obround::new(origin(), half_x, half_y).unwrap()
    }
}
