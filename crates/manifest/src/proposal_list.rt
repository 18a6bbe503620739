//! The proposals for a list of files.

ghost use Rattle.std.specs.Prelude.{◌≡◌, IfOk};
ghost use Rattle.manifest.specs.ProposalList as says;
ghost use Rattle.manifest.specs.ProposalList.{separate_proposals, proposals};

use crate::Name;
use crate::mixed_files::decision_in;
use crate::model::{FileContent, InputFile, Proposal, ProposalReason, ProposedRole};
use crate::places::check_all_places;
use crate::stack::check_all_layers;
use grid_units::Profile;
use std::alloc::{AllocError, Global};
use std::collections::BTreeSet;

/// The proposal for a file, taken by itself.
fn proposal(alloc: Global, profile: Profile, file: &InputFile<'_>) -> Result<Proposal, AllocError>
    ensures { IfOk result (λ proposal. proposal ≡ says.proposal profile file.now) }
{
    let (role, because) = match file.content {
        FileContent::Bytes(bytes) => decision_in(alloc, profile, file.name.as_bytes(), bytes)?,
        FileContent::NotRead => (ProposedRole::Undecided, ProposalReason::NotRead),
        FileContent::Folder => (ProposedRole::LeftOut, ProposalReason::Folder),
        FileContent::TooLong => (ProposedRole::Undecided, ProposalReason::TooLong),
    };
    Ok(Proposal {
        file: Name::new(alloc, file.name)?,
        role,
        because,
    })
}

/// The proposal for each file, taken by itself, in the order of the files. A file whose name came before is skipped.
fn propose_each(
    alloc: Global,
    profile: Profile,
    files: &[InputFile<'_>],
) -> Result<Vec<Proposal>, AllocError>
    ensures { IfOk result (λ list. list.items ≡ separate_proposals profile files.now) }
{
    let mut names = BTreeSet::new(alloc);
    let mut list = Vec::new(alloc);
    for file in files {
        let is_new = names.insert(file.name.as_bytes())?;
        if !is_new {
            continue;
        }
        list.push(proposal(alloc, profile, file)?)?;
    }
    Ok(list)
}

/// The proposals for these files in a profile, in their order. A file whose name came before is skipped. Copper files at one place in
/// the stack are undecided. A drill file with both plated and unplated holes is undecided in the strict profile, and mixed in the wide
/// one where this reads it so. A drill file that names layers is undecided where these are not clear. They are clear where the copper files
/// are the layers 1 to their number, each once, and the layers named are among them and of the kind that the function says.
///
/// # Errors
///
/// An `AllocError` where there is no memory.
pub fn propose(
    alloc: Global,
    profile: Profile,
    files: &[InputFile<'_>],
) -> Result<Vec<Proposal>, AllocError>
    ensures exact { IfOk result (λ list. list.items ≡ proposals profile files.now) }
{
    let mut list = propose_each(alloc, profile, files)?;
    check_all_places(alloc, &mut list)?;
    check_all_layers(alloc, &mut list)?;
    Ok(list)
}
