//! The parts of a region.

ghost use Rattle.std.specs.Prelude.{◌≡◌, ◌++◌, [], None, OnOk};
ghost use Rattle.std.specs.List.{cons_option};
ghost use Rattle.std.specs.Option.{option_map_or, option_zip};
ghost use Rattle.layer_features.specs.FurtherPads.{plot_state};
ghost use Rattle.layer_features.specs.declared.part.Part.TheVariants as part;
ghost use Rattle.layer_features.specs.Contours.{is_clockwise, is_counterclockwise, is_move, is_side, part_by, part_of, side_by, starts_region};
ghost use Rattle.layer_features.specs.Inner.Steps.{end_of, start_of};
ghost use Rattle.layer_features.specs.Inner.Plotters.{pencil_state};
ghost use Rattle.layer_features.specs.Inner.States.{MakeSameContour, command_of, parts_after};

use crate::arc::is_arc;
use crate::forget::{forget, is_over};
use crate::plotter::{Pencil, current_point, operation_point};
use gerber_text::{Action, Command, Interpolation, LeadingOperation};
use grid_units::Point;
use std::alloc::{AllocError, Global};

/// What an operation adds to a region.
#[derive(Clone, Copy)]
pub(crate) enum Part {
    /// A move, which ends a contour.
    Move,
    /// A side of a contour.
    Side {
        from: Point,
        to: Point,
        way: Interpolation,
    },
    /// A plot that counts as no side.
    Other,
}

impl Part {
    /// Whether it is a move.
    pub(crate) fn is_move(&self) -> bool
        ensures { result ≡ is_move self.now }
    {
        matches!(self, Part::Move)
    }

    /// The point where a side begins.
    pub(crate) fn start(&self) -> Option<Point>
        ensures { result ≡ start_of self.now }
    {
        match self {
            Part::Side { from, .. } => Some(*from),
            Part::Move | Part::Other => None,
        }
    }

    /// The point where a side ends.
    pub(crate) fn end(&self) -> Option<Point>
        ensures { result ≡ end_of self.now }
    {
        match self {
            Part::Side { to, .. } => Some(*to),
            Part::Move | Part::Other => None,
        }
    }

    /// Whether it is an arc clockwise.
    pub(crate) fn is_clockwise(&self) -> bool
        ensures { result ≡ is_clockwise self.now }
    {
        matches!(
            self,
            Part::Side {
                way: Interpolation::Clockwise,
                ..
            }
        )
    }

    /// Whether it is an arc counterclockwise.
    pub(crate) fn is_counterclockwise(&self) -> bool
        ensures { result ≡ is_counterclockwise self.now }
    {
        matches!(
            self,
            Part::Side {
                way: Interpolation::Counterclockwise,
                ..
            }
        )
    }
}

/// Whether a plot from one point to another is a side of a contour: straight and without the offsets of a centre, or along an arc that has one.
fn is_side(pencil: &Pencil, from: Point, to: Point, i: Option<i64>, j: Option<i64>) -> bool
    ensures { result ≡ is_side (plot_state (pencil_state pencil.now)) pencil.now.plotter.now.mode from to i j }
{
    match pencil.plotter.mode {
        Interpolation::Linear => i.is_none() && j.is_none(),
        Interpolation::Clockwise | Interpolation::Counterclockwise => {
            let centre = operation_point(
                pencil.setting.current,
                Some(i.unwrap_or(0)),
                Some(j.unwrap_or(0)),
            );
            is_arc(pencil.plotter.quadrant, from, to, centre)
        }
    }
}

/// The side from the current point to another, where both are near.
fn side_to(pencil: &Pencil, to: Option<Point>, i: Option<i64>, j: Option<i64>) -> Part
    ensures { result ≡ option_map_or (λ ends. side_by (plot_state (pencil_state pencil.now)) ends.0 ends.1 i j)
        (option_zip ((plot_state (pencil_state pencil.now)).point None None) to) part.Other }
{
    match (current_point(pencil.setting.current), to) {
        (Some(from), Some(to)) => {
            if is_side(pencil, from, to, i, j) {
                Part::Side {
                    from,
                    to,
                    way: pencil.plotter.mode,
                }
            } else {
                Part::Other
            }
        }
        _ => Part::Other,
    }
}

/// What an operation adds to a region.
fn part_of(
    pencil: &Pencil,
    action: Action,
    x: Option<i64>,
    y: Option<i64>,
    i: Option<i64>,
    j: Option<i64>,
) -> Part
    ensures { result ≡ part_of (plot_state (pencil_state pencil.now)) action x y i j }
{
    match action {
        Action::Move => Part::Move,
        Action::Plot => side_to(pencil, operation_point(pencil.setting.current, x, y), i, j),
        Action::Flash => Part::Other,
    }
}

/// What a command adds to the region that is open.
fn part_by(pencil: &Pencil, command: &Command) -> Option<Part>
    ensures { result ≡ part_by (plot_state (pencil_state pencil.now)) command.now }
{
    match command {
        Command::Operate { action, x, y, i, j } => {
            if !pencil.setting.current.in_region {
                return None;
            }
            Some(part_of(pencil, *action, x.get(), y.get(), i.get(), j.get()))
        }
        _ => None,
    }
}

/// Whether a region starts.
fn starts_region(command: &Command) -> bool
    ensures { result ≡ starts_region command.now }
{
    matches!(command, Command::RegionStart)
}

/// Adds a part, where there is one.
fn add_part(alloc: Global, parts: &mut Vec<Part>, part: Option<Part>) -> Result<(), AllocError>
    ensures { OnOk result (MakeSameContour parts.new.items (parts.old.items ++ cons_option part [])) }
{
    match part {
        Some(part) => {
            parts.push(part)?;
            forget(alloc, parts)?;
            Ok(())
        }
        None => Ok(()),
    }
}

/// Adds what an operation adds to the region that is open, where one is. Parts that can make no contour any more are not kept.
pub(crate) fn add_operation(
    alloc: Global,
    parts: &mut Vec<Part>,
    pencil: &Pencil,
    operation: &LeadingOperation,
) -> Result<(), AllocError>
    ensures { OnOk result (MakeSameContour parts.new.items (parts.old.items ++ cons_option (part_by (plot_state (pencil_state pencil.now)) (command_of operation.now)) [])) }
{
    if !pencil.setting.current.in_region {
        return Ok(());
    }
    if is_over(parts) {
        return Ok(());
    }
    let LeadingOperation {
        action,
        x,
        y,
        i,
        j,
        ..
    } = *operation;
    let part = part_of(pencil, action, x.get(), y.get(), i.get(), j.get());
    add_part(alloc, parts, Some(part))
}

/// Adds what a command adds to the last region, which may start with it. Parts that can make no contour any more are not kept.
pub(crate) fn add_parts(
    alloc: Global,
    parts: &mut Vec<Part>,
    pencil: &Pencil,
    command: &Command,
) -> Result<(), AllocError>
    ensures { OnOk result (MakeSameContour parts.new.items (parts_after command.now (pencil_state pencil.now) parts.old.items)) }
{
    if starts_region(command) {
        parts.clear();
        return Ok(());
    }
    if is_over(parts) {
        return Ok(());
    }
    add_part(alloc, parts, part_by(pencil, command))?;
    Ok(())
}
