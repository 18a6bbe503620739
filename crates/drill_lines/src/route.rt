//! Routed slots: four lines right after one another that spell one slot. And words of older texts.

ghost use Rattle.std.specs.Prelude.{◌≡◌, ◌∷◌, [], ◌++◌, codes, unwrap_or};
ghost use Rattle.std.specs.Str.{bytes_eq};
ghost use Rattle.grid_units.specs.Results.{Gives};
ghost use Rattle.drill_lines.specs.Routes.{raises, routed_point, machine_set, says_nothing, may_stand, is_hole};
ghost use Rattle.drill_lines.specs.Inner.RouteSteps.{second_step, third_step, fourth_step, part_step, other_step, route_step};
ghost use Rattle.drill_lines.specs.declared.route.Route.TheVariants as route;

use crate::command::{Coordinates, DrillCommand, Part, Settings};
use crate::hole_lines::point_line;
use crate::line::{as_item, begins, read_trimmed};
use grid_units::{ItemFail, Reason};
use std::alloc::Global;

/// What the machine does where no line of a route is due.
#[derive(Clone, Copy)]
pub(crate) enum Machine {
    Drilling,
    /// Since the last line of a route, up to the next `G05`.
    Routing,
    /// Since an `M00`.
    Stopped,
}

/// How far a route has come.
#[derive(Clone, Copy)]
pub(crate) enum Route {
    /// No line of a route is due.
    Free(Machine),
    /// After `G00` and this point, `M15` is due.
    Started(Coordinates),
    /// After `M15`, `G01` and a point are due. The route began at this point.
    Lowered(Coordinates),
    /// After `G01` and the second point, `M16` or `M17` is due.
    Cut(Coordinates, Coordinates),
}

/// What a line spells, and the route after it.
type Step = (Option<DrillCommand>, Route);

/// The point after a word, as in `G00X1.0`; `None` for any other line.
fn routed_point(
    word: &[u8],
    settings: &Settings,
    line: &[u8],
) -> Option<Result<Coordinates, Reason>>
    ensures { result ≡ routed_point word.now settings.now line.now }
{
    point_line(settings, line.strip_prefix(word)?)
}

/// Reads `M15` after the first line of a route.
fn second_step(from: Coordinates, line: &[u8]) -> Result<Step, Reason>
    ensures { result ≡ second_step from line.now }
{
    if line == b"M15".as_slice() {
        Ok((None, Route::Lowered(from)))
    } else {
        Err(Reason::Routed)
    }
}

/// Reads `G01` and a point after the second line of a route.
fn third_step(from: Coordinates, settings: &Settings, line: &[u8]) -> Result<Step, Reason>
    ensures { result ≡ third_step from settings.now line.now }
{
    match routed_point(b"G01", settings, line) {
        Some(Ok(to)) => Ok((None, Route::Cut(from, to))),
        Some(Err(reason)) => Err(reason),
        None => Err(Reason::Routed),
    }
}

/// Whether the machine raises its tool, with its clamp or without it.
fn raises(line: &[u8]) -> bool
    ensures { result ≡ raises line.now }
{
    line == b"M16".as_slice() || line == b"M17".as_slice()
}

/// Reads `M16`, or `M17`, after the third line of a route.
fn fourth_step(from: Coordinates, to: Coordinates, line: &[u8]) -> Result<Step, Reason>
    ensures { result ≡ fourth_step from to line.now }
{
    if raises(line) {
        let slot = DrillCommand::Slot(from, to);
        Ok((Some(slot), Route::Free(Machine::Routing)))
    } else {
        Err(Reason::Routed)
    }
}

/// Whether a line is one of older texts that says nothing: `R,H` and `G93X0Y0`, `M00`, or a comment after the end.
fn says_nothing(part: Part, line: &[u8]) -> bool
    ensures { result ≡ says_nothing part line.now }
{
    match part {
        Part::Before => false,
        Part::Header => line == b"R,H".as_slice() || line == b"G93X0Y0".as_slice(),
        Part::Body => line == b"M00".as_slice() || line == b"G93X0Y0".as_slice(),
        Part::After => begins(b";", line),
    }
}

/// Whether a line may stand where the machine does this: after `M00` only an empty one, `M30` or a comment.
fn may_stand(now: Machine, line: &[u8]) -> bool
    ensures { result ≡ may_stand now line.now }
{
    match now {
        Machine::Stopped => line.is_empty() || line == b"M30".as_slice() || begins(b";", line),
        Machine::Drilling | Machine::Routing => true,
    }
}

/// Reads a line that the strict profile refuses: `M30` before `M48`, and in the body `G00` and a point.
fn part_step(next: Machine, settings: &Settings, line: &[u8]) -> Option<Result<Step, Reason>>
    ensures { result ≡ part_step next settings.now.part settings.now line.now }
{
    match settings.part {
        Part::Before if line == b"M30".as_slice() => {
            Some(Ok((Some(DrillCommand::Finish), Route::Free(next))))
        }
        Part::Body => match routed_point(b"G00", settings, line) {
            Some(Ok(from)) => Some(Ok((None, Route::Started(from)))),
            Some(Err(reason)) => Some(Err(reason)),
            None => None,
        },
        Part::Before | Part::Header | Part::After => None,
    }
}

fn is_hole(spelled: &Option<DrillCommand>) -> bool
    ensures { result ≡ is_hole spelled.now }
{
    matches!(
        spelled,
        Some(DrillCommand::Hit(_)) | Some(DrillCommand::Slot(_, _))
    )
}

/// What a line spells that is read as in the strict profile, unless it drills while the machine routes.
fn other_step(now: Machine, next: Machine, spelled: Option<DrillCommand>) -> Result<Step, Reason>
    ensures { result ≡ other_step now next spelled }
{
    if matches!(now, Machine::Routing) && is_hole(&spelled) {
        return Err(Reason::Routed);
    }
    Ok((spelled, Route::Free(next)))
}

/// What the machine does after a line.
fn next_machine(now: Machine, line: &[u8]) -> Machine
    ensures { result ≡ unwrap_or (machine_set line.now) now }
{
    if raises(line) {
        Machine::Routing
    } else if line == b"G05".as_slice() {
        Machine::Drilling
    } else if line == b"M00".as_slice() {
        Machine::Stopped
    } else {
        now
    }
}

/// Reads a line where no line of a route is due.
#[tactic(auto, unfolding(crate::specs::Inner::RouteSteps::route_step))]
fn free_step(alloc: Global, now: Machine, settings: Settings, line: &[u8]) -> Result<Step, ItemFail>
    ensures { Gives result (route_step (route.Free now) settings line.now) }
{
    let next = next_machine(now, line);
    if !may_stand(now, line) {
        return Err(ItemFail::Refused(Reason::BadLine));
    }
    if says_nothing(settings.part, line) {
        return Ok((None, Route::Free(next)));
    }
    if let Some(step) = part_step(next, &settings, line) {
        return as_item(step);
    }
    let spelled = read_trimmed(alloc, settings, line)?;
    as_item(other_step(now, next, spelled))
}

/// What a line without blanks at its end spells in the wide profile, and the route after it.
#[tactic(auto, unfolding(crate::specs::Inner::RouteSteps::route_step))]
pub(crate) fn route_step(
    alloc: Global,
    route: Route,
    settings: Settings,
    line: &[u8],
) -> Result<Step, ItemFail>
    ensures { Gives result (route_step route settings line.now) }
{
    match route {
        Route::Free(now) => free_step(alloc, now, settings, line),
        Route::Started(from) => as_item(second_step(from, line)),
        Route::Lowered(from) => as_item(third_step(from, &settings, line)),
        Route::Cut(from, to) => as_item(fourth_step(from, to, line)),
    }
}
