//! Which files stand in a manifest, and in which order.

ghost use Rattle.std.specs.Prelude.{◌≡◌, IfOk, map};
ghost use Rattle.std.specs.List.{filter};
ghost use Rattle.manifest.specs.Manifests as says;
ghost use Rattle.manifest.specs.Manifests.{IsManifestOrder};

use crate::model::{Proposal, ProposedRole, StackPosition};
use std::alloc::{AllocError, Global};

/// The rank of a file in a manifest: the lower one stands first.
pub(crate) fn rank(role: ProposedRole) -> u64
    ensures { result ≡ says.rank role }
{
    match role {
        ProposedRole::Copper(StackPosition::Numbered(n)) => n as u64,
        ProposedRole::Copper(StackPosition::Top) => 1,
        ProposedRole::Copper(StackPosition::Inner(n)) => n as u64 + 1,
        ProposedRole::Copper(StackPosition::Unknown) => 4_294_967_296,
        ProposedRole::Copper(StackPosition::Bottom) => 4_294_967_297,
        ProposedRole::Plated(_) => 4_294_967_298,
        ProposedRole::Unplated(_) => 4_294_967_299,
        ProposedRole::Mixed(_) => 4_294_967_300,
        ProposedRole::Undecided => 4_294_967_301,
        ProposedRole::LeftOut => 4_294_967_302,
    }
}

fn is_listed(file: &Proposal) -> bool
    ensures { result ≡ says.is_listed file.now }
{
    !matches!(file.role, ProposedRole::LeftOut)
}

/// The files that stand in a manifest, in the order of the proposals.
fn kept(alloc: Global, files: &[Proposal]) -> Result<Vec<&Proposal>, AllocError>
    ensures { IfOk result (λ entries. map (λ entry. entry.now) entries.items ≡ filter says.is_listed files.now) }
{
    files.iter().filter(|file| is_listed(file)).collect(alloc)
}

/// The files that stand in a manifest, in the order of the manifest.
pub(crate) fn in_manifest_order(
    alloc: Global,
    files: &[Proposal],
) -> Result<Vec<&Proposal>, AllocError>
    ensures { IfOk result (λ entries. IsManifestOrder (filter says.is_listed files.now) (map (λ entry. entry.now) entries.items)) }
{
    let mut entries = kept(alloc, files)?;
    entries.sort_by_key(|entry| rank(entry.role))?;
    Ok(entries)
}
