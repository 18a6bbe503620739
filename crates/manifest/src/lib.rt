//! The manifest of a package: its files, each with a role and a name.
//!
//! A manifest is CSV text. Its first record is `role,name,file`, or `role,name,file,first,last` in version 2. Each further record
//! is one file of the package: `copper,top,top.gbr`. In version 2 it also has the numbers of the first and the last layer that a
//! drill file's holes go through: `plated,vias,vias.drl,2,3`. Version 3, `role,name,file,first,last,unit,digits,zeros`, is one of the
//! wide profile alone. It also says how a drill file's coordinates are written: `plated,pth,pth.drl,,,inch,2:4,TZ`.
//!
//! A manifest can be proposed for a folder: which of its files are copper layers and drill files, and why.
//!
//! The text of a file decides what kind it is, its file function what it is for, and its name comes last. A proposal may be
//! wrong: the user has to read it. Where nothing identifies a Gerber file, or its name is ambiguous, it has the role `?`.
//! So has a drill file whose plating or whose layers are not clear, and each of two copper files at one place in the stack. A drill
//! file with both plated and unplated holes is `mixed` in the wide profile, where that reads it as a mixed file.
#![tactic(auto)]

ghost use Rattle.std.specs.Prelude.{◌≡◌};
ghost use Rattle.grid_units.specs.Results.{Answers};
ghost use Rattle.manifest.specs.Manifest.{manifest, manifest_in};

mod contents;
mod decisions;
mod file_names;
pub mod laws;
mod manifests;
mod mixed_files;
mod model;
mod names;
mod naming;
mod order;
mod places;
pub mod proposal_laws;
mod proposal_list;
mod reasons;
pub mod rows;
mod stack;
pub mod table;
mod validation;

pub use contents::{
    FileKind, FunctionFields, fields_of, function_of, has_line, is_archive, kind_of,
};
use drill_lines::CoordinateFormat;
pub use file_names::{
    base_name, ends_in_copper, extension_of, has_dot, is_one_of, last_other_word, layer_number,
    lower_base_name, number_suffix, says_unplated, stem_of, word_runs,
};
use grid_units::{Fail, Profile, Span};
pub use manifests::write_proposal;
pub use model::{
    FileContent, HoleKind, InputFile, LayerRange, Proposal, ProposalReason, ProposedRole,
    StackPosition,
};
pub use names::Name;
pub use proposal_list::propose;
pub use reasons::write_reasons;
use std::alloc::Global;

/// What kind of file a file of a package is.
#[derive(Clone, Copy, PartialEq, Eq)]
pub enum Role {
    /// A copper layer, a Gerber file.
    Copper,
    /// A drill file whose holes are plated.
    Plated,
    /// A drill file whose holes are not plated.
    Unplated,
    /// A drill file that says itself of each tool whether its holes are plated. Only the wide profile has this role.
    Mixed,
}

/// A file of a package, as the manifest names it.
#[derive(Drop)]
pub struct Entry {
    pub role: Role,
    /// The name that reports print.
    pub name: Name,
    /// The name of the file, as it is loaded.
    pub file: Name,
    /// What else it says of the file: of a copper file nothing.
    pub said: Said,
}

/// What a manifest says of a drill file besides its role and its names.
#[derive(Clone, Copy, PartialEq, Eq)]
pub struct Said {
    /// The layers that its holes go through. Layers are numbered from 1 in the order of the copper files. `None` means all of
    /// them: each file of version 1 has none.
    pub span: Option<Span>,
    /// The unit of its coordinates, and how these are written. `None` means that the file says it: each file of versions 1 and 2 has none.
    pub format: Option<CoordinateFormat>,
}

/// The files that a manifest names, in its order, in the strict profile: [`read_manifest_in`] has the refusals.
pub fn read_manifest(alloc: Global, bytes: &[u8]) -> Result<Vec<Entry>, Fail>
    ensures exact { Answers (λ entries. entries.items) (λ answer. answer ≡ manifest bytes.now) result }
{
    read_manifest_in(alloc, Profile::Strict, bytes)
}

/// The files that a manifest names in a profile, in its order. A byte order mark before its text is dropped. The role `mixed` and
/// version 3 are of the wide profile alone.
///
/// # Errors
///
/// The first refusal, with the number of its record from 1 as the place, and 0 as the byte. In this order:
/// [`Reason::BadManifest`] where there is no record, or the first is none of `role,name,file`, `role,name,file,first,last` and,
/// in the wide profile, `role,name,file,first,last,unit,digits,zeros`; [`Reason::BadManifest`] where a record has another number
/// of fields than the first, or one that is not UTF-8 without control bytes, or where its last three fields of version 3 are not
/// all empty, and the file is copper or they are not `inch` or `mm`, then `i:d` with digits from 1 to 6 or nothing, and `LZ`, `TZ`
/// or nothing; [`Reason::BadRole`], [`Reason::EmptyName`], [`Reason::RepeatedName`];
/// [`Reason::BadSpan`] where a copper file names a span, or the fields of a span are neither both empty nor both one to nine
/// digits with 1 ≤ first ≤ last; one place after the last record [`Reason::NoCopper`] and [`Reason::NoDrill`]; and
/// [`Reason::BadSpan`] at the first record whose span ends above the number of copper files. [`Fail::Memory`] where memory
/// runs out.
///
/// [`Reason::BadManifest`]: grid_units::Reason::BadManifest
/// [`Reason::BadRole`]: grid_units::Reason::BadRole
/// [`Reason::EmptyName`]: grid_units::Reason::EmptyName
/// [`Reason::RepeatedName`]: grid_units::Reason::RepeatedName
/// [`Reason::BadSpan`]: grid_units::Reason::BadSpan
/// [`Reason::NoCopper`]: grid_units::Reason::NoCopper
/// [`Reason::NoDrill`]: grid_units::Reason::NoDrill
pub fn read_manifest_in(alloc: Global, profile: Profile, bytes: &[u8]) -> Result<Vec<Entry>, Fail>
    ensures exact { Answers (λ entries. entries.items) (λ answer. answer ≡ manifest_in profile bytes.now) result }
{
    let rows = rows::read_records(alloc, bytes)?;
    validation::parse_manifest_records(alloc, profile, rows.as_slice())
}
