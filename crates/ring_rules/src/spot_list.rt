//! Spots in few bytes. A board has many holes and few tools, so what holes of one tool have in common stands once.

ghost use Rattle.std.specs.Prelude.{◌≡◌, ℕ, ◌<◌, ◌≤◌, ◌-ℤ◌, [], ◌∷◌, ◌++◌, true, length, unsigned_abs, IfOk, IfSome, OnOk};
ghost use Rattle.std.specs.List.Sorted.{IsPermutation};
ghost use Rattle.grid_units.specs.Points.{IsCoordinate};
ghost use Rattle.ring_rules.specs.Spots.{spot_at, point_at};
ghost use Rattle.ring_rules.specs.Inner.Forms.{hole_of_form, form_at, spot_of, HasForm};
ghost use Rattle.ring_rules.specs.Inner.SpotLists.{Regroups};
ghost use Rattle.ring_rules.specs.declared.spot_list.Entry.{Entry};

use crate::cells::narrow;
use crate::layout::{joined, no_zone, zone_at};
use crate::spots::{FEW_SPOTS, Spot};
use grid_units::{Hole, Point};
use std::alloc::{AllocError, Global};
use std::marker::Model;

/// How many numbers of forms that were met last are kept.
const RECENT: usize = 1024;

/// A spot in 24 bytes: the first end of its hole, its place in the list, and the number of its form.
#[derive(Clone, Copy)]
struct Entry {
    from: Point,
    place: u32,
    form: u32,
}

/// A list of spots. A form is the radius of a hole and the way from its first end to its second; it is kept as one of the holes that have it.
#[derive(Drop)]
pub(crate) struct SpotList {
    entries: Vec<Entry>,
    forms: Vec<Hole>,
    recent: Vec<u32>,
}

impl Model for SpotList {
    ghost use Rattle.std.specs.Prelude.{List, map};
    ghost use Rattle.ring_rules.specs.declared.spots.Spot.{Spot};

    ghost Value = { List Spot };

    ghost use Rattle.ring_rules.specs.Inner.Forms.{spot_of, HaveForms};

    ghost view = { λ l. map (spot_of l.forms.items) l.entries.items };

    ghost invariant = { λ l. HaveForms l.forms.items l.entries.items };
}

/// The way along x from the first end of a hole to the second, in pm.
fn way_x(hole: &Hole) -> i64
    ensures value { result ≡ hole.now.to.x -ℤ hole.now.from.x }
    ensures in_range { unsigned_abs result ≤ 20000000000000 }
    ensures end { IsCoordinate hole.now.to.x }
{
    hole.to().x() - hole.from().x()
}

/// The way along y from the first end of a hole to the second, in pm.
fn way_y(hole: &Hole) -> i64
    ensures value { result ≡ hole.now.to.y -ℤ hole.now.from.y }
    ensures in_range { unsigned_abs result ≤ 20000000000000 }
    ensures end { IsCoordinate hole.now.to.y }
{
    hole.to().y() - hole.from().y()
}

/// The x of the second end of a hole of a form that begins at a point.
fn end_x(form: &Hole, from: Point) -> i64
    requires { IsCoordinate (hole_of_form form.now from).to.x }
    ensures value { result ≡ (hole_of_form form.now from).to.x }
    ensures in_range { IsCoordinate result }
{
    from.x() + way_x(form)
}

/// The y of that end.
fn end_y(form: &Hole, from: Point) -> i64
    requires { IsCoordinate (hole_of_form form.now from).to.y }
    ensures value { result ≡ (hole_of_form form.now from).to.y }
    ensures in_range { IsCoordinate result }
{
    from.y() + way_y(form)
}

/// The hole of a form that begins at a point.
fn moved(form: &Hole, from: Point) -> Hole
    requires x { IsCoordinate (hole_of_form form.now from).to.x }
    requires y { IsCoordinate (hole_of_form form.now from).to.y }
    ensures { result ≡ hole_of_form form.now from }
{
    let to = Point::new(end_x(form, from), end_y(form, from)).unwrap();
    Hole::new(from, to, form.radius()).unwrap()
}

/// Whether two holes have the same form.
fn is_like(form: &Hole, hole: &Hole) -> bool
    ensures { result ≡ true → hole_of_form form.now hole.now.from ≡ hole.now }
{
    way_x(form) == way_x(hole) && way_y(form) == way_y(hole) && form.radius() == hole.radius()
}

/// The spot of an entry.
fn spot_of(entry: Entry, forms: &[Hole]) -> Spot
    requires { HasForm forms.now entry }
    ensures { result ≡ spot_of forms.now entry }
{
    Spot {
        hole: moved(&forms[entry.form as usize], entry.from),
        place: entry.place as usize,
    }
}

/// Where the number of a hole's form is kept, if it was met lately. Any answer is right.
fn recent_place(hole: &Hole) -> usize
    ensures x { IsCoordinate hole.now.to.x }
    ensures y { IsCoordinate hole.now.to.y }
{
    let way = way_x(hole).unsigned_abs().rotate_left(20) ^ way_y(hole).unsigned_abs();
    let mixed = hole.radius().unsigned_abs().rotate_left(40) ^ way;
    (mixed.wrapping_mul(0x9E37_79B9_7F4A_7C15) >> 54) as usize
}

/// The number of a hole's form, if it was met lately.
fn known_form(forms: &[Hole], recent: &[u32], hole: &Hole) -> Option<u32>
    ensures listed { IfSome result (λ n. n < length forms.now) }
    ensures form { IfSome result (λ n. hole_of_form (form_at forms.now n) hole.now.from ≡ hole.now) }
{
    let number = *recent.get(recent_place(hole))?;
    let form = forms.get(number as usize)?;
    if is_like(form, hole) {
        Some(number)
    } else {
        None
    }
}

/// The number of a hole's form: one that was met lately, or a new one.
fn form_number(forms: &mut Vec<Hole>, recent: &mut [u32], hole: &Hole) -> Result<u32, AllocError>
    ensures longer { length forms.old.items ≤ length forms.new.items }
    ensures kept { (n : ℕ) → n < length forms.old.items → form_at forms.new.items n ≡ form_at forms.old.items n }
    ensures listed { IfOk result (λ n. n < length forms.new.items) }
    ensures form { IfOk result (λ n. hole_of_form (form_at forms.new.items n) hole.now.from ≡ hole.now) }
    ensures x { IsCoordinate hole.now.to.x }
    ensures y { IsCoordinate hole.now.to.y }
{
    let place = recent_place(hole);
    if let Some(number) = known_form(forms, recent, hole) {
        return Ok(number);
    }
    let number = narrow(forms.len())?;
    forms.push(*hole)?;
    if place < recent.len() {
        recent[place] = number;
    }
    Ok(number)
}

/// Whether the points of entries lie further apart along x than along y. Any answer is right.
fn are_wide(entries: &[Entry]) -> bool {
    let mut zone = no_zone();
    for entry in entries {
        zone = joined(zone, zone_at(entry.from));
    }
    zone.bottom.abs_diff(zone.top) <= zone.left.abs_diff(zone.right)
}

/// Each third time, puts entries in their order along the longer side of their box.
fn sort_along(entries: &mut [Entry], times: u32)
    ensures { IsPermutation entries.old entries.new }
{
    if times % 3 > 0 {
        return;
    }
    if are_wide(entries) {
        entries.sort_unstable_by_key(|entry| entry.from.x());
    } else {
        entries.sort_unstable_by_key(|entry| entry.from.y());
    }
}

/// Puts entries together that are near each other: those of each half, of each half of these, and so on.
fn group(entries: &mut [Entry], times: u32)
    ensures { IsPermutation entries.old entries.new }
{
    if entries.len() <= FEW_SPOTS {
        return;
    }
    sort_along(entries, times);
    let middle = entries.len() / 2;
    let (first, second) = entries.split_at_mut(middle);
    group(first, times.wrapping_add(1));
    group(second, times.wrapping_add(1));
}

impl SpotList {
    /// A list without spots, with room for so many.
    pub(crate) fn with_capacity(alloc: Global, count: usize) -> Result<SpotList, AllocError>
        ensures items { IfOk result (λ list. list ≡ []) }
    {
        let entries = Vec::with_capacity(alloc, count)?;
        let recent = vec![in alloc; 0; RECENT]?;
        Ok(SpotList {
            entries,
            forms: Vec::new(alloc),
            recent,
        })
    }

    /// How many spots there are.
    pub(crate) fn len(&self) -> usize
        ensures { result ≡ length self.now }
    {
        self.entries.len()
    }

    /// A spot by its index.
    pub(crate) fn at(&self, i: usize) -> Spot
        requires { i < length self.now }
        ensures { result ≡ spot_at self.now i }
    {
        spot_of(self.entries[i], &self.forms)
    }

    /// The entry point of the hole of a spot.
    pub(crate) fn point(&self, i: usize) -> Point
        requires { i < length self.now }
        ensures { result ≡ point_at self.now i }
    {
        self.entries[i].from
    }

    /// The place of a spot in the list of holes.
    pub(crate) fn place(&self, i: usize) -> usize
        requires { i < length self.now }
        ensures { result ≡ (spot_at self.now i).place }
    {
        self.entries[i].place as usize
    }

    /// Puts the spots from an index on together with those that are near them.
    pub(crate) fn group_from(&mut self, start: usize)
        requires { start ≤ length self.old }
        ensures { Regroups start self.old self.new }
    {
        group(&mut self.entries[start..], 0);
    }

    /// Appends a spot.
    pub(crate) fn push(&mut self, spot: Spot) -> Result<(), AllocError>
        ensures items { OnOk result (self.new ≡ self.old ++ spot ∷ []) }
    {
        let place = narrow(spot.place)?;
        let form = form_number(&mut self.forms, &mut self.recent, &spot.hole)?;
        let from = spot.hole.from();
        self.entries.push(Entry { from, place, form })?;
        Ok(())
    }
}
