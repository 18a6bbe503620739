//! Which copper files have one place in the stack.

ghost use Rattle.std.specs.Prelude.{◌≡◌, IfOk, OnOk, ℕ, nat_lt};
ghost use Rattle.std.specs.BTreeSet.{contains_by};
ghost use Rattle.std.specs.Ordering.{nat_cmp};
ghost use Rattle.manifest.specs.Places as says;

use crate::model::{Proposal, ProposalReason, ProposedRole, StackPosition};
use crate::order::rank;
use std::alloc::{AllocError, Global};
use std::collections::BTreeSet;

/// Whether a file is a copper file whose place is known.
fn has_known_place(role: ProposedRole) -> bool
    ensures { result ≡ says.has_known_place role }
{
    match role {
        ProposedRole::Copper(StackPosition::Unknown) => false,
        ProposedRole::Copper(_) => true,
        _ => false,
    }
}

/// The ranks that two or more of these files have. A set holds them, so that time does not grow with the square of the number
/// of files.
fn shared_ranks(alloc: Global, files: &[Proposal]) -> Result<BTreeSet<u64>, AllocError>
    ensures { IfOk result (λ shared. (n : ℕ) → contains_by (nat_cmp n) shared ≡ nat_lt 1 (says.count_ranked files.now n)) }
{
    let mut seen = BTreeSet::new(alloc);
    let mut shared = BTreeSet::new(alloc);
    for file in files {
        let rank = rank(file.role);
        let is_new = seen.insert(rank)?;
        if is_new {
            continue;
        }
        shared.insert(rank)?;
    }
    Ok(shared)
}

/// Makes a proposal undecided where it has a known place that others share.
fn check_place(shared: bool, file: &mut Proposal)
    ensures { file.new ≡ says.place_checked_in shared file.old }
{
    if has_known_place(file.role) && shared {
        file.role = ProposedRole::Undecided;
        file.because = ProposalReason::RepeatedLayer;
    }
}

/// Makes each copper file undecided that has the place of another one.
pub(crate) fn check_all_places(alloc: Global, files: &mut Vec<Proposal>) -> Result<(), AllocError>
    ensures { OnOk result (files.new.items ≡ says.places_checked files.old.items) }
{
    let shared = shared_ranks(alloc, files)?;
    for file in files.iter_mut() {
        let is_shared = shared.contains(&rank(file.role));
        check_place(is_shared, file);
    }
    Ok(())
}
