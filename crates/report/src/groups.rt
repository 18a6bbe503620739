//! Flashes in groups, each with its box, so that a search in a hole skips most of them.

ghost use Rattle.std.specs.Prelude.{◌≡◌, ◌<◌, ◌≤◌, List, Some, length, true, IfOk, OnOk};
ghost use Rattle.std.specs.List.{find};
ghost use Rattle.std.specs.List.Sorted.{IsPermutation};
ghost use Rattle.pad_shapes.specs.Rounded.{is_outline};
ghost use Rattle.pad_shapes.specs.declared.row.FeatureRow.{FeatureRow as TheRow};
ghost use Rattle.report.specs.Causes.{AreGroups, IsGroup, is_in_shape, others};
ghost use Rattle.report.specs.Inner.CauseParts.{HasPassed};
ghost use Rattle.report.specs.declared.other.Other.{Other as TheOther};

use crate::bounds::Bounds;
use crate::other::{Other, earlier_flash, first_in_hole};
use pad_shapes::Rounded;
use std::alloc::{AllocError, Global};

/// Consecutive flashes of a list.
#[derive(Clone, Copy)]
pub(crate) struct Group {
    /// The place of the first of them in the list.
    start: usize,
    /// The end of their places: one past the last.
    end: usize,
    /// The number of groups of these flashes alone, this one included. They are consecutive, this one first.
    size: usize,
    /// The box of their points.
    bounds: Bounds,
}

/// How far a search in a hole has come.
#[derive(Clone, Copy)]
struct Search {
    /// The place of the next group.
    next: usize,
    /// The number of flashes that it has passed.
    passed: usize,
    /// The earliest of these, on the layer, whose point lies in the hole.
    first: Option<Other>,
}

/// The number of flashes in the smallest groups.
const LEAST: usize = 32;

/// The group of the flashes from a place on, `width` at most.
fn group_from(others: &[Other], start: usize, width: usize, size: usize) -> Group
    requires start { start < length others.now }
    requires width { 0 < width }
    ensures { IsGroup others.now result }
{
    let end = start + width.min(others.len() - start);
    Group {
        start,
        end,
        size,
        bounds: Bounds::of(&others[start..end]),
    }
}

/// Adds the group of the flashes from a place on, if groups of this width begin there.
fn push_group(
    groups: &mut Vec<Group>,
    others: &[Other],
    start: usize,
    width: usize,
    size: usize,
) -> Result<(), AllocError>
    requires start { start < length others.now }
    requires width { 0 < width }
    ensures { AreGroups others.now groups.old.items → OnOk result (AreGroups others.now groups.new.items) }
{
    if start % width == 0 {
        groups.push(group_from(others, start, width, size))?;
    }
    Ok(())
}

/// Adds the groups of all widths that begin at a place, the widest first. Each holds 32 of the next width.
fn push_groups(groups: &mut Vec<Group>, others: &[Other], start: usize) -> Result<(), AllocError>
    requires { start < length others.now }
    ensures { AreGroups others.now groups.old.items → OnOk result (AreGroups others.now groups.new.items) }
{
    push_group(groups, others, start, 1_048_576, 33_825)?;
    push_group(groups, others, start, 32_768, 1_057)?;
    push_group(groups, others, start, 1_024, 33)?;
    push_group(groups, others, start, LEAST, 1)
}

/// All groups of some flashes, in the order of their starts; of those with one start the widest first.
pub(crate) fn groups_of(alloc: Global, others: &[Other]) -> Result<Vec<Group>, AllocError>
    ensures { IfOk result (λ groups. AreGroups others.now groups.items) }
{
    let mut groups = Vec::new(alloc);
    for start in 0..others.len() {
        if start % LEAST == 0 {
            push_groups(&mut groups, others, start)?;
        }
    }
    Ok(groups)
}

impl Group {
    /// Whether the group begins among the flashes that a search has passed, and ends no earlier than these.
    fn is_next(&self, search: &Search) -> bool
        ensures { result ≡ true → (self.now.start ≤ search.now.passed) × (search.now.passed ≤ self.now.end) }
    {
        self.start <= search.passed && search.passed <= self.end
    }

    /// Whether the search already has a flash that is no later than any of the group.
    fn is_later(&self, search: &Search) -> bool
        ensures { result ≡ true → (held : TheOther) × (search.now.first ≡ Some held) × (held.place ≤ self.now.bounds.first.place) }
    {
        match search.first {
            Some(held) => held.place <= self.bounds.first.place,
            None => false,
        }
    }
}

impl Search {
    /// The search after this many groups, one at least.
    fn by(&self, groups: usize, passed: usize, first: Option<Other>) -> Search
        requires { self.now.next < usize.MAX }
        ensures next { self.now.next < result.next }
        ensures passed { result.passed ≡ passed }
        ensures first { result.first ≡ first }
    {
        Search {
            next: self.next.saturating_add(groups.max(1)),
            passed,
            first,
        }
    }

    /// The search after a group; or after its head alone, where its parts must be looked at.
    fn after_group(&self, others: &[Other], group: &Group, hole: &Rounded) -> Search
        requires next { self.now.next < usize.MAX }
        requires group { IsGroup others.now group.now }
        requires passed { HasPassed others.now hole.now self.now }
        requires outline { is_outline hole.now.first hole.now.others ≡ true }
        ensures next { self.now.next < result.next }
        ensures passed { HasPassed others.now hole.now result }
    {
        if !group.is_next(self) {
            return self.by(1, self.passed, self.first);
        }
        if group.is_later(self) {
            return self.by(group.size, group.end, self.first);
        }
        if !group.bounds.may_touch(hole) {
            return self.by(group.size, group.end, self.first);
        }
        if group.bounds.is_inside(hole) {
            let first = earlier_flash(self.first, group.bounds.first);
            return self.by(group.size, group.end, Some(first));
        }
        if group.size > 1 {
            return self.by(1, self.passed, self.first);
        }
        let first = first_in_hole(self.first, &others[self.passed..group.end], hole);
        self.by(1, group.end, first)
    }
}

/// The earliest flash of a layer that is no pad and whose point lies in a hole. `all` are these flashes in any order, `groups` are
/// groups of them.
pub(crate) fn first_in(all: &[Other], groups: &[Group], hole: &Rounded) -> Option<Other>
    requires groups { AreGroups all.now groups.now }
    requires outline { is_outline hole.now.first hole.now.others ≡ true }
    ensures { (rows : List TheRow) → IsPermutation (others rows) all.now → result ≡ find (λ other. is_in_shape hole.now other.at) (others rows) }
{
    let mut search = Search {
        next: 0,
        passed: 0,
        first: None,
    };
    while search.next < groups.len() {
        search = search.after_group(all, &groups[search.next], hole);
    }
    first_in_hole(search.first, &all[search.passed..], hole)
}
