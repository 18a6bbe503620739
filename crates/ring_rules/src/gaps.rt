//! The gaps between holes.

ghost use Rattle.std.specs.Prelude.{◌≡◌, ℕ, List, map, IfOk};
ghost use Rattle.std.specs.List.{AllPairs, Contains};
ghost use Rattle.std.specs.List.Sorted.{IsPermutation, IsSorted};
ghost use Rattle.std.specs.Ordering.{nat_cmp, ordering_then};
ghost use Rattle.ring_rules.specs.Findings.{gap_findings};
ghost use Rattle.ring_rules.specs.Search.{IsRingIndexOf};
ghost use Rattle.ring_rules.specs.Inner.ClashingPairs.{IsClash, IsPairBefore};
ghost use Rattle.ring_rules.specs.declared.finding.Drilled.{Drilled};

use crate::finding::{Drilled, Finding};
use crate::near::{clashes, clashes_in, limits_of, suits_gaps};
use crate::ring_index::RingIndex;
use grid_units::Rules;
use std::alloc::{AllocError, Global};

/// Sorts pairs by the first place and then by the second.
fn sort_pairs(pairs: &mut Vec<(usize, usize)>)
    ensures same { IsPermutation pairs.old.items pairs.new.items }
    ensures sorted { IsSorted (λ p q. ordering_then (nat_cmp p.0 q.0) (nat_cmp p.1 q.1)) pairs.new.items }
{
    pairs.sort_unstable();
}

/// Drops all but one of equal pairs.
fn remove_duplicates(pairs: &mut Vec<(usize, usize)>)
    requires { IsSorted (λ p q. ordering_then (nat_cmp p.0 q.0) (nat_cmp p.1 q.1)) pairs.old.items }
    ensures rising { AllPairs IsPairBefore pairs.new.items }
    ensures kept { (p : ℕ × ℕ) → Contains pairs.old.items p → Contains pairs.new.items p }
    ensures none { (p : ℕ × ℕ) → Contains pairs.new.items p → Contains pairs.old.items p }
{
    pairs.dedup();
}

/// The findings of gaps at pairs of places.
fn gaps_at(alloc: Global, pairs: &[(usize, usize)]) -> Result<Vec<Finding>, AllocError>
    ensures { IfOk result (λ findings. findings.items ≡ map (λ p. Finding.Gap p.0 p.1) pairs.now) }
{
    let gaps = pairs.iter().map(|pair| Finding::Gap {
        first: pair.0,
        second: pair.1,
    });
    gaps.collect(alloc)
}

/// The findings of gaps, given the pairs of holes that are not clear, of which some may stand twice.
fn gaps_of(alloc: Global, pairs: Vec<(usize, usize)>) -> Result<Vec<Finding>, AllocError>
    ensures { IfOk result (λ findings. (gap : ℕ) (holes : List Drilled) → ((p : ℕ × ℕ) → Contains pairs.items p → IsClash gap holes p) → ((p : ℕ × ℕ) → IsClash gap holes p → Contains pairs.items p) → findings.items ≡ gap_findings gap holes) }
{
    let mut sorted = pairs;
    sort_pairs(&mut sorted);
    remove_duplicates(&mut sorted);
    gaps_at(alloc, &sorted)
}

/// Lists each two holes that are not clear, by the first of them and then by the second.
///
/// # Errors
///
/// Where there is no memory.
pub fn gap_findings(
    alloc: Global,
    holes: &[Drilled],
    rules: Rules,
) -> Result<Vec<Finding>, AllocError>
    ensures { IfOk result (λ findings. findings.items ≡ gap_findings rules.gap holes.now) }
{
    let pairs = clashes(alloc, holes, rules)?;
    gaps_of(alloc, pairs)
}

impl RingIndex {
    /// The findings of gaps of [`gap_findings`], by the rules of the index. The holes are those that it was made of, and
    /// are looked up in its cells where these suit; else another index is made.
    ///
    /// # Errors
    ///
    /// Where there is no memory.
    pub fn gap_findings(&self, alloc: Global, holes: &[Drilled]) -> Result<Vec<Finding>, AllocError>
        requires { IsRingIndexOf holes.now self.now }
        ensures { IfOk result (λ findings. findings.items ≡ gap_findings self.now.rules.gap holes.now) }
    {
        let limits = limits_of(holes);
        if !suits_gaps(&self.cells, self.rules, limits) {
            return gap_findings(alloc, holes, self.rules);
        }
        let pairs = clashes_in(alloc, &self.cells, holes, self.rules, limits)?;
        gaps_of(alloc, pairs)
    }
}
