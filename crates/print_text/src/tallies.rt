//! Counts of findings and of those that are shown or waived, and the smallest ring and gap.

ghost use Rattle.std.specs.Prelude.{◌≡◌, ◌≤◌, ◌==◌, ◌&&◌, ℕ, List, None, Option, if◌then◌else◌, length, map, not};
ghost use Rattle.std.specs.List.{count_by, enumerate_from, filter, filter_map};
ghost use Rattle.print_text.specs.Causes.{is_of_kind};
ghost use Rattle.print_text.specs.Inner.{IsRun, smaller};
ghost use Rattle.print_text.specs.Texts.{board_report_text, has_no_pad, is_shown, smallest, waived_on, waived_report_text};
ghost use Rattle.report.specs.Causes.{ring_of};
ghost use Rattle.report.specs.declared.BoardReport.{BoardReport as TheBoardReport};

use crate::kind::{CauseKind, kind_of};
use crate::runs::Run;
use report::{Acceptances, GapLack, RingLack, is_waived, ring_of};

/// Whether the finding at a position of the whole report, from 0, is shown.
pub(crate) fn is_shown(limit: Option<usize>, position: u128) -> bool
    ensures { result ≡ is_shown limit position }
{
    match limit {
        Some(limit) => position < limit as u128,
        None => true,
    }
}

/// The number of rings in a list that are on a layer.
fn rings_among(rings: &[RingLack], layer: usize) -> usize
    ensures { result ≡ count_by (λ lack. lack.layer == layer) rings.now }
{
    rings.iter().filter(|lack| lack.layer == layer).count()
}

/// The number of rings on the layer of a run.
pub(crate) fn rings_on(rings: &[RingLack], run: Run) -> usize
    requires { IsRun rings.now (length rings.now) run.layer run }
    ensures { result ≡ count_by (λ lack. lack.layer == run.layer) rings.now }
{
    rings_among(&rings[run.first..run.end], run.layer)
}

/// The number of rings whose cause is of a kind.
pub(crate) fn rings_of_kind(rings: &[RingLack], kind: CauseKind) -> usize
    ensures { result ≡ count_by (λ lack. is_of_kind kind lack.cause) rings.now }
{
    rings
        .iter()
        .filter(|lack| kind_of(&lack.cause) == kind)
        .count()
}

/// The number of rings of holes that have no pad that counts, so that their rings are not measured.
pub(crate) fn rings_without_pad(rings: &[RingLack]) -> usize
    ensures { result ≡ count_by (λ lack. has_no_pad lack.cause) rings.now }
{
    rings
        .iter()
        .filter(|lack| ring_of(&lack.cause).is_none())
        .count()
}

/// Whether a ring is on a layer, and passes a test.
pub(crate) fn is_on(lack: &RingLack, layer: usize, passes: bool) -> bool
    ensures { result ≡ ((lack.now.layer == layer) && passes) }
{
    lack.layer == layer && passes
}

/// 1 if a test passes, else 0.
pub(crate) fn one_if(passes: bool) -> usize
    ensures value { result ≡ (if passes then 1 else 0) }
    ensures within { result ≤ 1 }
{
    if passes { 1 } else { 0 }
}

/// The number of rings on the layer of a run that are not shown.
pub(crate) fn rings_hidden(rings: &[RingLack], run: Run, limit: Option<usize>) -> usize
    requires { IsRun rings.now (length rings.now) run.layer run }
    ensures { result ≡ count_by (λ finding. not (is_shown limit finding.0)) (filter (λ finding. finding.1.layer == run.layer) (enumerate_from 0 rings.now)) }
{
    let mut left = 0;
    for i in run.first..run.end {
        left += one_if(is_on(&rings[i], run.layer, !is_shown(limit, i as u128)));
    }
    left
}

/// The number of gaps that are not shown, after this many rings.
pub(crate) fn gaps_hidden_count(gaps: &[GapLack], rings: usize, limit: Option<usize>) -> usize
    ensures { result ≡ count_by (λ finding. not (is_shown limit finding.0)) (enumerate_from rings gaps.now) }
{
    let mut left = 0;
    for i in 0..gaps.len() {
        left += one_if(!is_shown(limit, rings as u128 + i as u128));
    }
    left
}

/// The smallest of some lengths and one more, if there is one.
pub(crate) fn smaller(least: Option<i64>, length: Option<i64>) -> Option<i64>
    ensures { result ≡ smaller least length }
{
    let Some(length) = length else {
        return least;
    };
    match least {
        Some(least) => Some(least.min(length)),
        None => Some(length),
    }
}

/// The smallest ring of the holes that lie in pads.
pub(crate) fn smallest_ring(rings: &[RingLack]) -> Option<i64>
    ensures { result ≡ smallest (filter_map (λ lack. ring_of lack.cause) rings.now) }
{
    let mut least = None;
    for i in 0..rings.len() {
        least = smaller(least, ring_of(&rings[i].cause));
    }
    least
}

/// The smallest gap.
pub(crate) fn smallest_gap(gaps: &[GapLack]) -> Option<i64>
    ensures { result ≡ smallest (map (λ lack. lack.gap) gaps.now) }
{
    let mut least = None;
    for i in 0..gaps.len() {
        least = smaller(least, Some(gaps[i].gap));
    }
    least
}

/// The number of rings on the layer of a run that are waived.
pub(crate) fn waived_on(accepted: &[Option<&str>], run: Run, rings: &[RingLack]) -> usize
    requires { IsRun rings.now (length rings.now) run.layer run }
    ensures { result ≡ waived_on accepted.now run.layer rings.now }
{
    let mut waived = 0;
    for i in run.first..run.end {
        waived += one_if(is_on(&rings[i], run.layer, is_waived(accepted, i)));
    }
    waived
}

/// No reasons: the text of a report with these is that of a report without waivers.
pub fn no_acceptances() -> Acceptances<'static>
    ensures { (names : List (List ℕ)) (report : TheBoardReport) (fewer : ℕ) (limit : Option ℕ) → waived_report_text names report fewer None limit result ≡ board_report_text names report fewer limit }
{
    Acceptances {
        rings: &[],
        gaps: &[],
        idle: &[],
    }
}
