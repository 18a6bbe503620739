//! Why findings of a report are accepted.

ghost use Rattle.std.specs.Prelude.{◌≡◌, ◌≤◌, ◌+◌, length};
ghost use Rattle.report.specs.Acceptances.{acceptance_at, count_waived_first, is_waived, waived_in};

use crate::{Acceptances, BoardReport};

/// The reason why the finding at a place, from 0, among the rings or among the gaps is accepted, or `None`.
pub fn acceptance_of<'a>(accepted: &[Option<&'a str>], place: usize) -> Option<&'a str>
    ensures { result ≡ acceptance_at accepted.now place }
{
    match accepted.get(place) {
        Some(why) => *why,
        None => None,
    }
}

/// Whether the finding at a place is waived.
pub fn is_waived(accepted: &[Option<&str>], place: usize) -> bool
    ensures { result ≡ is_waived accepted.now place }
{
    acceptance_of(accepted, place).is_some()
}

/// The number of the first `findings` ones that are waived.
pub fn count_waived_first(accepted: &[Option<&str>], findings: usize) -> usize
    ensures value { result ≡ count_waived_first accepted.now findings }
    ensures within { result ≤ findings }
{
    accepted
        .iter()
        .take(findings)
        .filter(|why| why.is_some())
        .count()
}

/// The number of findings of a report that are waived.
pub fn count_waived(report: &BoardReport, accepted: &Acceptances) -> u128
    ensures value { result ≡ waived_in report.now accepted.now.rings.now accepted.now.gaps.now }
    ensures within { result ≤ length report.now.rings.items + length report.now.gaps.items }
{
    let rings = count_waived_first(accepted.rings, report.rings.len());
    let gaps = count_waived_first(accepted.gaps, report.gaps.len());
    rings as u128 + gaps as u128
}
