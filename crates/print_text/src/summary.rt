//! The findings of rings summed up, by layer and diameter.

ghost use Rattle.std.specs.Prelude.{◌≡◌, ◌≤◌, ◌==◌, ◌&&◌, Some, length, if◌then◌else◌, None};
ghost use Rattle.std.specs.Fmt.{DisplaysOnOk};
ghost use Rattle.std.specs.List.{enumerate_from, filter, filter_map, list_any};
ghost use Rattle.print_text.specs.Inner.{IsRun, group_lines};
ghost use Rattle.print_text.specs.Texts.{group_line, holes_words, is_alike, is_first_alike, smallest, smallest_words};
ghost use Rattle.report.specs.Causes.{ring_of};

use crate::runs::Run;
use crate::tallies::smaller;
use grid_units::ShortMillimetres;
use report::{RingLack, ring_of};
use std::fmt;
use std::fmt::{Display, Formatter};

/// Whether two rings are on one layer, of holes of one diameter.
fn is_alike(one: &RingLack, other: &RingLack) -> bool
    ensures { result ≡ is_alike one.now other.now }
{
    one.layer == other.layer && one.at.hole.radius() == other.at.hole.radius()
}

/// Whether one of some rings is like this one. The holes of a drill file come by diameter, so the nearest are asked first.
fn is_any_alike(rings: &[RingLack], one: &RingLack) -> bool
    ensures { result ≡ list_any (is_alike one.now) rings.now }
{
    rings.iter().rev().any(|other| is_alike(one, other))
}

/// Whether a ring at a place in a run is on the run's layer, and the first of its diameter there.
fn starts_group(rings: &[RingLack], run: Run, place: usize, one: &RingLack) -> bool
    requires run { IsRun rings.now (length rings.now) run.layer run }
    requires first { run.first ≤ place }
    requires within { place ≤ length rings.now }
    ensures { result ≡ ((one.now.layer == run.layer) && is_first_alike rings.now (place, one.now)) }
{
    if one.layer != run.layer {
        return false;
    }
    !is_any_alike(&rings[run.first..place], one)
}

/// The ring of a hole in its pad, if the ring is like this one.
fn ring_if_alike(one: &RingLack, other: &RingLack) -> Option<i64>
    ensures { result ≡ (if is_alike one.now other.now then ring_of other.now.cause else None) }
{
    if is_alike(one, other) {
        ring_of(&other.cause)
    } else {
        None
    }
}

/// The smallest ring of those that are like this one.
fn smallest_alike(rings: &[RingLack], one: &RingLack) -> Option<i64>
    ensures { result ≡ smallest (filter_map (λ lack. ring_of lack.cause) (filter (is_alike one.now) rings.now)) }
{
    let mut least = None;
    for i in 0..rings.len() {
        least = smaller(least, ring_if_alike(one, &rings[i]));
    }
    least
}

/// The words after the number of holes: ` hole below the rule` after 1.
fn holes_words(holes: usize) -> &'static str
    ensures { result.now ≡ holes_words holes }
{
    if holes == 1 {
        " hole below the rule"
    } else {
        " holes below the rule"
    }
}

/// The smallest ring of some holes, if one of them lies in a pad: `, smallest ring 0.105`.
#[derive(Clone, Copy)]
struct SmallestWords(Option<i64>);

impl Display for SmallestWords {
    ghost output = { λ words. Some (smallest_words words.0) };

    fn fmt<W: fmt::Write>(&self, f: &mut Formatter<W>) -> fmt::Result {
        match self.0 {
            Some(least) => write!(f, ", smallest ring {}", ShortMillimetres(least)),
            None => Ok(()),
        }
    }
}

/// The line of the rings that are like one of them, on the layer of a name: `top, 0.3: 12 holes below the rule, smallest ring 0.105`.
#[derive(Clone, Copy)]
struct GroupLine<'a> {
    /// The name of the layer's file.
    name: &'a str,
    rings: &'a [RingLack],
    one: &'a RingLack,
}

impl Display for GroupLine<'_> {
    ghost output = { λ line. Some (group_line line.name.now line.rings.now line.one.now) };

    #[tactic(auto, unfolding(crate::specs::Texts::group_words))]
    fn fmt<W: fmt::Write>(&self, f: &mut Formatter<W>) -> fmt::Result {
        let (name, rings, one) = (self.name, self.rings, self.one);
        let diameter = ShortMillimetres(2 * one.at.hole.radius());
        let holes = rings.iter().filter(|other| is_alike(one, other)).count();
        let (words, least) = (holes_words(holes), smallest_alike(rings, one));
        write!(
            f,
            "{name}, {diameter}: {holes}{words}{}\n",
            SmallestWords(least)
        )
    }
}

/// Writes a line for each diameter of the rings on the layer of a run, by the name of its file.
pub(crate) fn write_groups<W: fmt::Write>(
    f: &mut Formatter<W>,
    rings: &[RingLack],
    run: Run,
    name: &str,
) -> fmt::Result
    requires { IsRun rings.now (length rings.now) run.layer run }
    ensures { DisplaysOnOk W.write_str_gives f.old result (Some (group_lines name.now rings.now run.layer (enumerate_from 0 rings.now))) f.new }
{
    for i in run.first..run.end {
        let one = &rings[i];
        if !starts_group(rings, run, i, one) {
            continue;
        }
        let rings = &rings[run.first..run.end];
        write!(f, "{}", GroupLine { name, rings, one })?;
    }
    Ok(())
}
