//! The names that reports print for the files of a proposed manifest.

ghost use Rattle.std.specs.Prelude.{◌≡◌, ◌==◌, ◌||◌, IfOk, List, length, map, nat_lt, ℕ, if◌then◌else◌};
ghost use Rattle.std.specs.BTreeSet.{contains_by};
ghost use Rattle.std.specs.Cmp.Lexicographic.{slice_cmp};
ghost use Rattle.std.specs.Ordering.{nat_cmp};
ghost use Rattle.manifest.specs.Names as naming;
ghost use Rattle.manifest.specs.Manifests as says;

use crate::base_name;
use crate::model::Proposal;
use std::alloc::{AllocError, Global};
use std::collections::BTreeSet;

/// The name of a file after its last slash.
fn short(file: &Proposal) -> &[u8]
    ensures { result.now ≡ naming.base_name file.now.file }
{
    base_name(file.file.as_str().as_bytes())
}

/// The names after the last slash that two or more of these files share. A set holds them, so that time does not grow with
/// the square of the number of files.
pub(crate) fn shared_names<'e>(
    alloc: Global,
    entries: &[&'e Proposal],
) -> Result<BTreeSet<&'e [u8]>, AllocError>
    ensures { IfOk result (λ shared. (name : List ℕ) → contains_by (λ key. slice_cmp nat_cmp name key.now) shared ≡ nat_lt 1 (says.count_named (map (λ entry. entry.now) entries.now) name)) }
{
    let mut seen = BTreeSet::new(alloc);
    let mut shared = BTreeSet::new(alloc);
    for entry in entries {
        let name = short(*entry);
        let is_new = seen.insert(name)?;
        if is_new {
            continue;
        }
        shared.insert(name)?;
    }
    Ok(shared)
}

/// The name that reports print for a file: what follows its last slash, or its whole name where this is empty or shared.
pub(crate) fn label<'e>(shared: &BTreeSet<&'e [u8]>, file: &'e Proposal) -> &'e [u8]
    ensures { result.now ≡ (if (length (naming.base_name file.now.file) == 0) || contains_by (λ key. slice_cmp nat_cmp (naming.base_name file.now.file) key.now) shared.now then file.now.file else naming.base_name file.now.file) }
{
    let name = short(file);
    if name.is_empty() || shared.contains(&name) {
        file.file.as_str().as_bytes()
    } else {
        name
    }
}
