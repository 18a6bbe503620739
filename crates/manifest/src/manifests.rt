//! The text of a proposed manifest.

ghost use Rattle.std.specs.Prelude.{◌≡◌, ◌++◌, ◌∷◌, [], ◌==◌, nat_lt, decimal, true, false, length, IfOk, map};
ghost use Rattle.std.specs.List.{count_by, list_any};
ghost use Rattle.csv.specs.Writing.{default_writer, row_text};
ghost use Rattle.manifest.specs.Manifests as says;
ghost use Rattle.manifest.specs.Manifests.{IsManifestOf};

use crate::model::{LayerRange, Proposal, ProposedRole};
use crate::naming::{label, shared_names};
use crate::order::in_manifest_order;
use crate::reasons::role_word;
use crate::table::{Table, with_three_fields};
use itoa::Buffer;
use std::alloc::{AllocError, Global};

pub(crate) fn is_copper(file: &Proposal) -> bool
    ensures { result ≡ says.is_copper file.now }
{
    matches!(file.role, ProposedRole::Copper(_))
}

/// How many of the files are copper layers.
fn layers(entries: &[&Proposal]) -> usize
    ensures { result ≡ count_by says.is_copper (map (λ entry. entry.now) entries.now) }
{
    entries.iter().filter(|entry| is_copper(entry)).count()
}

/// The layers that a drill file names, if it names any.
pub(crate) fn layers_of_role(role: ProposedRole) -> Option<LayerRange>
    ensures { result ≡ says.layers_of_role role }
{
    match role {
        ProposedRole::Plated(span) | ProposedRole::Unplated(span) | ProposedRole::Mixed(span) => {
            span
        }
        ProposedRole::Copper(_) | ProposedRole::Undecided | ProposedRole::LeftOut => None,
    }
}

/// Whether layers are named that are not 1 to this number of layers.
fn is_partial(layers: usize, span: Option<LayerRange>) -> bool
    ensures { result ≡ says.is_partial layers span }
{
    match span {
        Some(span) => !(span.first == 1 && span.last as usize == layers),
        None => false,
    }
}

/// Whether some file names other layers than all copper layers.
fn has_spans(entries: &[&Proposal]) -> bool
    ensures { result ≡ says.has_spans (map (λ entry. entry.now) entries.now) }
{
    let layers = layers(entries);
    entries
        .iter()
        .any(|entry| is_partial(layers, layers_of_role(entry.role)))
}

/// The table with one more row, of five fields.
fn with_five_fields<'f>(
    table: Table,
    role: &'f [u8],
    name: &'f [u8],
    file: &'f [u8],
    first: &'f [u8],
    last: &'f [u8],
) -> Result<Table, AllocError>
    ensures { IfOk result (λ more. more ≡ table ++ row_text default_writer (role.now ∷ name.now ∷ file.now ∷ first.now ∷ last.now ∷ [])) }
{
    table.with_row(&[role, name, file, first, last])
}

/// The table with one more row, of three fields and the two fields of these layers.
fn with_span<'f>(
    table: Table,
    role: &'f [u8],
    name: &'f [u8],
    file: &'f [u8],
    span: Option<LayerRange>,
) -> Result<Table, AllocError>
    ensures { IfOk result (λ more. more ≡ table ++ row_text default_writer (role.now ∷ name.now ∷ file.now ∷ says.span_fields span)) }
{
    match span {
        Some(span) => {
            let (mut first, mut last) = (Buffer::new(), Buffer::new());
            let first_field = first.format(span.first).as_bytes();
            let last_field = last.format(span.last).as_bytes();
            with_five_fields(table, role, name, file, first_field, last_field)
        }
        None => with_five_fields(table, role, name, file, b"", b""),
    }
}

/// The table with one more row, that of a file under a name.
fn with_entry<'f>(
    table: Table,
    spans: bool,
    name: &'f [u8],
    file: &'f Proposal,
) -> Result<Table, AllocError>
    ensures { IfOk result (λ more. more ≡ table ++ says.named_row spans name.now file.now) }
{
    let role = role_word(file.role).as_bytes();
    let path = file.file.as_str().as_bytes();
    if spans {
        with_span(table, role, name, path, layers_of_role(file.role))
    } else {
        with_three_fields(table, role, name, path)
    }
}

/// A table with the first row of a manifest: `role,name,file`, or with spans `role,name,file,first,last`.
fn heading(alloc: Global, spans: bool) -> Result<Table, AllocError>
    ensures { IfOk result (λ table. table ≡ says.heading spans) }
{
    let table = Table::new(alloc)?;
    if spans {
        with_five_fields(table, b"role", b"name", b"file", b"first", b"last")
    } else {
        with_three_fields(table, b"role", b"name", b"file")
    }
}

/// The text of a manifest with these files.
fn manifest_text(alloc: Global, entries: &[&Proposal]) -> Result<Vec<u8>, AllocError>
    ensures { IfOk result (λ text. text.items ≡ says.manifest_text (map (λ entry. entry.now) entries.now)) }
{
    let spans = has_spans(entries);
    let shared = shared_names(alloc, entries)?;
    let mut table = heading(alloc, spans)?;
    for entry in entries {
        table = with_entry(table, spans, label(&shared, *entry), *entry)?;
    }
    table.into_bytes()
}

/// The manifest of the files that are not left out: copper layers by their place, then plated, unplated, mixed and undecided
/// files, those of one kind in the order of the proposals. An undecided file has the role `?`, which no manifest may have. The
/// manifest has version 1, unless some file names other layers than all copper layers.
///
/// # Errors
///
/// An `AllocError` where there is no memory.
pub fn write_proposal(alloc: Global, proposals: &[Proposal]) -> Result<Vec<u8>, AllocError>
    ensures exact { IfOk result (λ text. IsManifestOf proposals.now text.items) }
{
    let entries = in_manifest_order(alloc, proposals)?;
    manifest_text(alloc, entries.as_slice())
}
