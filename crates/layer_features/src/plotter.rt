//! What the commands of a layer draw: lines and arcs, flashes of macros, and the contours of regions.

ghost use Rattle.std.specs.Prelude.{◌≡◌, ◌≤◌, ◌^◌, ◌+ℤ◌, IfOk, [], unsigned_abs, IfSome, option_and_then};
ghost use Rattle.std.specs.List.{list_all};
ghost use Rattle.std.specs.Option.{option_copied};
ghost use Rattle.grid_units.specs.Numbers.{is_too_far, picometres};
ghost use Rattle.grid_units.specs.Points.{IsCoordinate};
ghost use Rattle.layer_state.specs.Numbers.{dec_length};
ghost use Rattle.layer_state.specs.declared.tables.Defined.{Defined as TheDefined};
ghost use Rattle.pad_shapes.specs.declared.drawn.Drawn.TheVariants as drawn;
ghost use Rattle.layer_features.specs.Drawn.{arc_between, arc_centre, bend_between, current_point, draw_state_after, drawn_by, flash_of, flash_shape, drawn_by_flash, inside_region, is_plain, line_width, with_offset, near, next_part, drawn_by_operation, operation_point, drawn_by_plot, point_of, shape_of_macro, stays_near, width_of};
ghost use Rattle.layer_features.specs.Inner.Plotters.{Selection, after_command, draw_state, pencil_state, selection, selection_after};

use gerber_text::{Action, Command, Interpolation, QuadrantMode};
use grid_units::{Point, Unit, is_too_far};
use layer_state::{Aperture, Apertures, Current, Defined, Mirroring, ONE, dec_length, step_length};
use pad_shapes::{Drawn, SharedRounded};
use std::alloc::AllocError;

/// What the commands before one say last, and the apertures that they and this one define, with their shapes.
#[derive(Clone, Copy)]
pub struct Setting<'a> {
    pub current: &'a Current,
    pub apertures: &'a Apertures,
}

impl Setting<'_> {
    /// The aperture of the number that was selected last.
    pub(crate) fn aperture(&self) -> Option<&Defined>
        ensures { option_copied result ≡ (selection self.now).aperture }
    {
        self.apertures.get(self.current.selected?)
    }

    /// Its shape, where it has one.
    pub(crate) fn shape(&self) -> Option<&SharedRounded>
        ensures { option_copied result ≡ option_and_then (λ (d : TheDefined). d.shape) (selection self.now).aperture }
    {
        self.aperture()?.shape.as_ref()
    }

    /// Its shape, where it is a macro and has one.
    fn macro_shape(&self) -> Option<&SharedRounded>
        ensures { option_copied result ≡ option_and_then shape_of_macro (selection self.now).aperture }
    {
        let defined = self.aperture()?;
        match defined.aperture {
            Aperture::Macro => defined.shape.as_ref(),
            _ => None,
        }
    }
}

/// What draws need beside the setting that the commands so far make: how plots go, and how flashes are mirrored.
#[derive(Clone, Copy)]
pub(crate) struct Plotter {
    pub(crate) mode: Interpolation,
    pub(crate) quadrant: Option<QuadrantMode>,
    pub(crate) mirroring: Mirroring,
}

impl Plotter {
    /// A plotter that has met no command.
    pub(crate) fn new() -> Self
        ensures { draw_state (selection_after []) result ≡ draw_state_after [] }
    {
        Plotter {
            mode: Interpolation::Linear,
            quadrant: None,
            mirroring: Mirroring::none(),
        }
    }

    /// Takes in one more command.
    pub(crate) fn take(&mut self, command: &Command)
        ensures { (before next : Selection) → draw_state next self.new ≡ after_command next command.now (draw_state before self.old) }
    {
        match command {
            Command::Mode(mode) => self.mode = *mode,
            Command::Quadrant(mode) => self.quadrant = Some(*mode),
            Command::Mirror { x, y } => self.mirroring = Mirroring { x: *x, y: *y },
            _ => {}
        }
    }
}

/// What a command draws with: the setting that it meets, and a plotter.
#[derive(Clone, Copy)]
pub(crate) struct Pencil<'a> {
    pub(crate) setting: &'a Setting<'a>,
    pub(crate) plotter: &'a Plotter,
}

impl Pencil<'_> {
    /// What a command draws, if it draws anything.
    pub(crate) fn drawn(&self, command: &Command) -> Result<Option<Drawn>, AllocError>
        ensures { IfOk result (λ part. part ≡ drawn_by (pencil_state self.now) command.now) }
    {
        match command {
            Command::RegionStart => match current_point(self.setting.current) {
                Some(point) => Ok(Some(Drawn::Contour(point))),
                None => Ok(None),
            },
            Command::Operate { action, x, y, i, j } => {
                let to = operation_point(self.setting.current, x.get(), y.get());
                self.operated(*action, to, self.arc_centre(i.get(), j.get()))
            }
            _ => Ok(None),
        }
    }

    /// What an operation draws, by its point and the centre of its arc.
    fn operated(
        &self,
        action: Action,
        to: Option<Point>,
        centre: Option<Point>,
    ) -> Result<Option<Drawn>, AllocError>
        ensures { IfOk result (λ part. part ≡ drawn_by_operation (pencil_state self.now) action to centre) }
    {
        if self.setting.current.in_region {
            return Ok(self.inside_region(action, to, centre));
        }
        match action {
            Action::Plot => Ok(self.plotted(to, centre)),
            Action::Move => Ok(None),
            Action::Flash => flashed(to, self.flash_shape()),
        }
    }

    /// What an operation inside a region draws, where its point is near.
    fn inside_region(
        &self,
        action: Action,
        to: Option<Point>,
        centre: Option<Point>,
    ) -> Option<Drawn>
        ensures { result ≡ inside_region (pencil_state self.now) action to centre }
    {
        let to = to?;
        match action {
            Action::Move => Some(Drawn::Contour(to)),
            Action::Plot => Some(self.next_part(to, centre)),
            Action::Flash => None,
        }
    }

    /// What a plot outside of regions draws.
    fn plotted(&self, to: Option<Point>, centre: Option<Point>) -> Option<Drawn>
        ensures { result ≡ drawn_by_plot (pencil_state self.now) self.now.plotter.now.mode to centre }
    {
        match self.plotter.mode {
            Interpolation::Linear => Some(Drawn::Line {
                from: current_point(self.setting.current)?,
                to: to?,
                width: self.width()?,
            }),
            Interpolation::Clockwise => self.arc(to, centre, true),
            Interpolation::Counterclockwise => self.arc(to, centre, false),
        }
    }

    /// The arc round a centre from the current point to another, if all three are near and it has a width.
    fn arc(&self, to: Option<Point>, centre: Option<Point>, clockwise: bool) -> Option<Drawn>
        ensures { result ≡ arc_between clockwise (current_point self.now.setting.now.current.now) to centre (line_width (pencil_state self.now)) }
    {
        let from = current_point(self.setting.current)?;
        let to = to?;
        let centre = centre?;
        let width = self.width()?;
        Some(Drawn::Arc {
            from,
            to,
            centre,
            width,
            clockwise,
        })
    }

    /// How a contour goes on to the point of a plot.
    fn next_part(&self, to: Point, centre: Option<Point>) -> Drawn
        ensures { result ≡ next_part (pencil_state self.now) self.now.plotter.now.mode to centre }
    {
        match self.plotter.mode {
            Interpolation::Linear => Drawn::Corner(to),
            Interpolation::Clockwise => bend(self.setting.current, to, centre, true),
            Interpolation::Counterclockwise => bend(self.setting.current, to, centre, false),
        }
    }

    /// The centre of an arc, if it is near and the mode is that of several quadrants.
    fn arc_centre(&self, i: Option<i64>, j: Option<i64>) -> Option<Point>
        ensures { result ≡ arc_centre (pencil_state self.now) i j }
    {
        match self.plotter.quadrant {
            Some(QuadrantMode::Multi) => point(
                self.setting.current,
                moved(self.setting.current.x, i),
                moved(self.setting.current.y, j),
            ),
            Some(QuadrantMode::Single) | None => None,
        }
    }

    /// The width of a line that is drawn with the selected aperture, in pm.
    fn width(&self) -> Option<i64>
        ensures { result ≡ line_width (pencil_state self.now) }
    {
        if self.setting.current.scale.units() != ONE {
            return None;
        }
        let defined = self.setting.aperture()?;
        width_of(self.setting.current.unit(), defined.aperture)
    }

    /// Whether nothing is scaled, turned or mirrored.
    fn is_plain(&self) -> bool
        ensures { result ≡ is_plain (pencil_state self.now) }
    {
        self.setting.current.scale.units() == ONE
            && self.setting.current.turn.units() == 0
            && !(self.plotter.mirroring.x || self.plotter.mirroring.y)
    }

    /// The shape that is flashed with the selected macro, while nothing is scaled, turned or mirrored.
    fn flash_shape(&self) -> Option<&SharedRounded>
        ensures { option_copied result ≡ flash_shape (pencil_state self.now) }
    {
        if self.is_plain() {
            self.setting.macro_shape()
        } else {
            None
        }
    }
}

/// How a contour goes on along an arc: straight to its end where the centre or the current point is not near.
fn bend(state: &Current, to: Point, centre: Option<Point>, clockwise: bool) -> Drawn
    ensures { result ≡ bend_between clockwise (current_point state.now) to centre }
{
    match (current_point(state), centre) {
        (Some(from), Some(centre)) => Drawn::Bend {
            from,
            to,
            centre,
            clockwise,
        },
        _ => Drawn::Corner(to),
    }
}

/// The current point, if it is near.
pub(crate) fn current_point(state: &Current) -> Option<Point>
    ensures { result ≡ current_point state.now }
{
    point(state, i128::from(state.x), i128::from(state.y))
}

/// The point of an operation, if it is near.
pub(crate) fn operation_point(state: &Current, x: Option<i64>, y: Option<i64>) -> Option<Point>
    ensures { result ≡ operation_point state.now x y }
{
    let x = x.unwrap_or(state.x);
    let y = y.unwrap_or(state.y);
    point(state, i128::from(x), i128::from(y))
}

/// The point of two coordinates in steps of the format, unless it is more than 10 m from zero along an axis.
fn point(state: &Current, x: i128, y: i128) -> Option<Point>
    requires x { unsigned_abs x ≤ 2 ^ 64 }
    requires y { unsigned_abs y ≤ 2 ^ 64 }
    ensures { result ≡ point_of state.now x y }
{
    let x = near_coordinate(x, state.decimals(), state.unit())?;
    let y = near_coordinate(y, state.decimals(), state.unit())?;
    Some(Point::new(x, y).unwrap())
}

/// The sum of two coordinates. It may lie beyond every `i64`.
fn sum(a: i64, b: i64) -> i128
    ensures value { result ≡ a +ℤ b }
    ensures in_range { unsigned_abs result ≤ 2 ^ 64 }
{
    i128::from(a) + i128::from(b)
}

/// Whether a corner about the point of a flash lies at most 10 m from zero along each axis.
fn stays_near(at: Point, corner: Point) -> bool
    ensures { result ≡ stays_near at corner }
{
    !is_too_far(sum(at.x(), corner.x())) && !is_too_far(sum(at.y(), corner.y()))
}

/// Whether all corners about the point of a flash do.
fn all_stay_near(at: Point, corners: &[Point]) -> bool
    ensures { result ≡ list_all (stays_near at) corners.now }
{
    corners.iter().all(|corner| stays_near(at, *corner))
}

/// A shape at the point of a flash, where each of its corners is near.
fn flash_of(at: Point, shape: &SharedRounded) -> Result<Option<Drawn>, AllocError>
    ensures { IfOk result (λ part. part ≡ flash_of at shape.now) }
{
    let corners = shape.get();
    if stays_near(at, corners.first()) && all_stay_near(at, corners.others()) {
        let shape = shape.share()?;
        Ok(Some(Drawn::Flash { at, shape }))
    } else {
        Ok(None)
    }
}

/// A flash of a shape, where its point is near and there is one.
fn flashed(at: Option<Point>, shape: Option<&SharedRounded>) -> Result<Option<Drawn>, AllocError>
    ensures { IfOk result (λ part. part ≡ drawn_by_flash at (option_copied shape.entry)) }
{
    match (at, shape) {
        (Some(at), Some(shape)) => flash_of(at, shape),
        _ => Ok(None),
    }
}

/// A coordinate moved by an offset, 0 where it is left out.
fn moved(n: i64, offset: Option<i64>) -> i128
    ensures value { result ≡ with_offset n offset }
    ensures in_range { unsigned_abs result ≤ 2 ^ 64 }
{
    sum(n, offset.unwrap_or(0))
}

/// A coordinate in steps of the format, in pm, unless it is beyond 10 m.
fn near_coordinate(n: i128, decimals: u8, unit: Unit) -> Option<i64>
    requires { unsigned_abs n ≤ 2 ^ 64 }
    ensures value { result ≡ near (picometres unit decimals n) }
    ensures in_range { IfSome result IsCoordinate }
{
    let length = n * i128::from(step_length(decimals, unit));
    if is_too_far(length) {
        return None;
    }
    Some(length as i64)
}

/// The width of a line that is drawn with an aperture, in pm.
fn width_of(unit: Unit, aperture: Aperture) -> Option<i64>
    ensures { result ≡ width_of unit aperture }
{
    match aperture {
        Aperture::Circle(diameter, holed) if !holed => near(dec_length(diameter.size(), unit)),
        _ => None,
    }
}

/// A length in pm, unless it is beyond 10 m.
fn near(length: i128) -> Option<i64>
    ensures value { result ≡ near length }
    ensures in_range { IfSome result IsCoordinate }
{
    if is_too_far(length) {
        return None;
    }
    Some(length as i64)
}
