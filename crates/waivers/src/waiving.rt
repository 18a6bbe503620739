//! The waivers of findings, and the waivers that waive nothing.

ghost use Rattle.std.specs.Prelude.{◌≡◌, ◌||◌, ℕ, List, IfOk, OnOk, is_some, map, option_map};
ghost use Rattle.std.specs.List.{list_all, list_any};
ghost use Rattle.waivers.specs.Findings.{gap_fields, ring_fields};
ghost use Rattle.waivers.specs.Inner as inner;
ghost use Rattle.waivers.specs.Inner.{has_place, is_waived_by, unused_numbers};
ghost use Rattle.waivers.specs.Waiving as naming;
ghost use Rattle.report.specs.declared.BoardReport.{BoardReport as Report};
ghost use Rattle.waivers.specs.Waiving.{IsWaived, are_all_waived, compared_fields, report_fields, idle_numbers, waived_by};

use crate::Waiver;
use crate::findings::Page;
use crate::keys::{first_places, keys_of, places_of};
use report::BoardReport;
use std::alloc::{AllocError, Global};
use std::collections::BTreeSet;

/// For each finding of a report the waiver that waives it.
#[derive(Drop)]
pub struct Waived {
    /// For each ring of the report, in order, the index of the first waiver that waives it.
    pub rings: Vec<Option<usize>>,
    /// For each gap of the report, in order, the index of the first waiver that waives it.
    pub gaps: Vec<Option<usize>>,
}

impl Waived {
    /// Whether each finding is waived.
    pub fn all(&self) -> bool
        ensures { result ≡ are_all_waived self.now }
    {
        are_some(&self.rings) && are_some(&self.gaps)
    }
}

/// Whether each finding has a waiver.
fn are_some(places: &[Option<usize>]) -> bool
    ensures { result ≡ list_all is_some places.now }
{
    places.iter().all(|place| place.is_some())
}

/// The reason of the waiver at a place.
fn reason_at(waivers: &[Waiver], place: Option<usize>) -> Option<&str>
    ensures { option_map (λ why. why.now) result ≡ naming.reason_at waivers.now place }
{
    let waiver = waivers.get(place?)?;
    Some(waiver.why.as_str())
}

/// The reason why each finding is accepted, by the index of its waiver.
///
/// # Errors
///
/// An `AllocError` when memory runs out.
pub fn reasons<'a>(
    alloc: Global,
    waivers: &'a [Waiver],
    places: &[Option<usize>],
) -> Result<Vec<Option<&'a str>>, AllocError>
    ensures { IfOk result (λ accepted. map (option_map (λ why. why.now)) accepted.items ≡ map (naming.reason_at waivers.entry.now) places.now) }
{
    let mut accepted = Vec::new(alloc);
    for place in places {
        accepted.push(reason_at(waivers, *place))?;
    }
    Ok(accepted)
}

/// For each finding of a report the first waiver whose first five fields are those of the finding, byte for byte. `names` are those
/// of the package's files.
///
/// # Errors
///
/// An `AllocError` when memory runs out.
pub fn waive(
    alloc: Global,
    names: &[&str],
    report: &BoardReport,
    waivers: &[Waiver],
) -> Result<Waived, AllocError>
    ensures rings { IfOk result (λ waived. waived.rings.items ≡ map (λ lack. waived_by waivers.now (ring_fields (map (λ name. name.now) names.now) report.now.layers.items lack)) report.now.rings.items) }
    ensures gaps { IfOk result (λ waived. waived.gaps.items ≡ map (λ lack. waived_by waivers.now (gap_fields (map (λ name. name.now) names.now) lack)) report.now.gaps.items) }
{
    let layers = report.layers.as_slice();
    let page = Page { names, layers };
    let rings = keys_of(alloc, &page, report.rings.as_slice())?;
    let gaps = keys_of(alloc, &page, report.gaps.as_slice())?;
    let keys = keys_of(alloc, &(), waivers)?;
    let table = first_places(alloc, keys.as_slice())?;
    Ok(Waived {
        rings: places_of(alloc, &table, rings.as_slice())?,
        gaps: places_of(alloc, &table, gaps.as_slice())?,
    })
}

/// For each waiver the index of the first one with the same first five fields.
fn first_equal_places(alloc: Global, waivers: &[Waiver]) -> Result<Vec<Option<usize>>, AllocError>
    ensures { IfOk result (λ firsts. firsts.items ≡ map (λ waiver. waived_by waivers.now (compared_fields waiver)) waivers.now) }
{
    let keys = keys_of(alloc, &(), waivers)?;
    let table = first_places(alloc, keys.as_slice())?;
    places_of(alloc, &table, keys.as_slice())
}

/// Adds the waivers of some findings.
fn add_used(used: &mut BTreeSet<usize>, places: &[Option<usize>]) -> Result<(), AllocError>
    ensures { OnOk result ((place : ℕ) → has_place used.new place ≡ (has_place used.old place || list_any (is_waived_by place) places.now)) }
{
    for by in places {
        if let Some(place) = by {
            used.insert(*place)?;
        }
    }
    Ok(())
}

/// The waivers that are the first for some finding.
fn used_by(alloc: Global, waived: &Waived) -> Result<BTreeSet<usize>, AllocError>
    ensures { IfOk result (λ used. (place : ℕ) → has_place used place ≡ (list_any (is_waived_by place) waived.now.rings.items || list_any (is_waived_by place) waived.now.gaps.items)) }
{
    let mut used = BTreeSet::new(alloc);
    add_used(&mut used, waived.rings.as_slice())?;
    add_used(&mut used, waived.gaps.as_slice())?;
    Ok(used)
}

/// Whether a set has a place, if there is one.
fn has_first_place(used: &BTreeSet<usize>, first: Option<usize>) -> bool
    ensures { result ≡ inner.has_first_place used.now first }
{
    match first {
        Some(place) => used.contains(&place),
        None => false,
    }
}

/// The numbers of the records of the waivers whose first ones alike are not used. The head is the record 1.
fn unused(
    alloc: Global,
    used: &BTreeSet<usize>,
    firsts: &[Option<usize>],
) -> Result<Vec<usize>, AllocError>
    ensures { IfOk result (λ numbers. numbers.items ≡ unused_numbers used.now firsts.now) }
{
    let mut idle = Vec::new(alloc);
    for (place, first) in firsts.iter().enumerate() {
        if !has_first_place(used, *first) {
            idle.push(place + 2)?;
        }
    }
    Ok(idle)
}

/// The numbers of the records of the waivers that waive nothing, in order: no finding of a report whose findings are waived so has
/// their first five fields. The head of their file is the record 1.
///
/// # Errors
///
/// An `AllocError` when memory runs out.
pub fn idle(alloc: Global, waived: &Waived, waivers: &[Waiver]) -> Result<Vec<usize>, AllocError>
    ensures { IfOk result (λ numbers. (names : List (List ℕ)) (report : Report) → IsWaived waivers.now names report waived.now → numbers.items ≡ idle_numbers waivers.now (report_fields names report)) }
{
    let firsts = first_equal_places(alloc, waivers)?;
    let used = used_by(alloc, waived)?;
    unused(alloc, &used, firsts.as_slice())
}
