//! Which records name files, and by which rule the first wrong one is refused.

ghost use Rattle.std.specs.Prelude.{◌≡◌, ◌≤◌, map, not, true, false, MatchOption, IfErr, IfOk, IfSome, Ok, Err};
ghost use Rattle.csv.specs.Records.{fields_of};
ghost use Rattle.grid_units.specs.Results.{Answers, with_place};
ghost use Rattle.manifest.specs.Manifest as naming;
ghost use Rattle.manifest.specs.Manifest.{field, format_of_fields, is_well_formed, parse_manifest_records};
ghost use Rattle.manifest.specs.Inner.RecordEntry as reading;
ghost use Rattle.manifest.specs.Inner.RecordEntry.{checked_entry, entry_with};

use crate::names::Name;
use crate::rows::{has_field, refused, text_field};
use crate::{Entry, Role, Said, layer_number};
use csv::ByteRecord;
use drill_lines::{CoordinateFormat, read_digits};
use grid_units::{Fail, Profile, Reason, Span, Unit, Zeros};
use std::alloc::Global;
use std::collections::BTreeSet;

/// The files that the records name in a profile.
pub(crate) fn parse_manifest_records(
    alloc: Global,
    profile: Profile,
    rows: &[ByteRecord],
) -> Result<Vec<Entry>, Fail>
    ensures { Answers (λ entries. entries.items) (λ answer. answer ≡ parse_manifest_records profile (map fields_of rows.now)) result }
{
    let Some((first, files)) = rows.split_first() else {
        return Err(refused(1, Reason::BadManifest));
    };
    let Some(width) = field_count(profile, first) else {
        return Err(refused(1, Reason::BadManifest));
    };
    entries_of(alloc, profile, width, files)
}

/// The files that the records after the first one name; each record needs `width` fields.
fn entries_of(
    alloc: Global,
    profile: Profile,
    width: usize,
    files: &[ByteRecord],
) -> Result<Vec<Entry>, Fail>
    requires { width ≤ 8 }
    ensures { Answers (λ entries. entries.items) (λ answer. answer ≡ naming.entries_of profile width (map fields_of files.now)) result }
{
    let mut names = BTreeSet::new(alloc);
    let mut entries = Vec::new(alloc);
    for (i, row) in files.iter().enumerate() {
        let is_new = names.insert(name_of(row))?;
        let entry = read_entry(alloc, profile, i as u64 + 2, width, !is_new, row)?;
        entries.push(entry)?;
    }
    match joint_fault(entries.as_slice()) {
        Some((i, reason)) => Err(refused(i as u64 + 2, reason)),
        None => Ok(entries),
    }
}

/// The name of a record's file, empty where the record has none.
fn name_of(row: &ByteRecord) -> &[u8]
    ensures { result.now ≡ field 1 (fields_of row.now) }
{
    match row.get(1) {
        Some(name) => name,
        None => &[],
    }
}

/// What a record says of a file: its role, its two names and what else it says.
#[derive(Clone, Copy)]
struct NamedFile<'a> {
    role: Role,
    name: &'a str,
    file: &'a str,
    said: Said,
}

/// What a record says in a profile, or the first rule that it breaks; `repeated` says whether an earlier file has its name.
fn named_file<'a>(
    profile: Profile,
    width: usize,
    repeated: bool,
    row: &'a ByteRecord,
) -> Result<NamedFile<'a>, Reason>
    requires { width ≤ 8 }
    ensures ok { IfOk result (λ named. checked_entry profile width repeated (fields_of row.now) ≡ Ok (entry_with named)) }
    ensures err { IfErr result (λ why. checked_entry profile width repeated (fields_of row.now) ≡ Err why) }
{
    let Some(fields) = text_fields(row, width) else {
        return Err(Reason::BadManifest);
    };
    let Some(role) = role_of_word(fields.role) else {
        return Err(Reason::BadRole);
    };
    if !is_role_in(profile, role) {
        return Err(Reason::BadRole);
    }
    if fields.name.is_empty() || fields.file.is_empty() {
        return Err(Reason::EmptyName);
    }
    if repeated {
        return Err(Reason::RepeatedName);
    }
    let Ok(span) = span_or_reason(role, fields.first, fields.last) else {
        return Err(Reason::BadSpan);
    };
    Ok(NamedFile {
        role,
        name: fields.name,
        file: fields.file,
        said: Said {
            span,
            format: fields.format,
        },
    })
}

/// The file that a record names in a profile; `repeated` says whether an earlier file has its name.
fn read_entry(
    alloc: Global,
    profile: Profile,
    place: u64,
    width: usize,
    repeated: bool,
    row: &ByteRecord,
) -> Result<Entry, Fail>
    requires { width ≤ 8 }
    ensures { Answers (λ entry. entry) (λ answer. answer ≡ with_place place 0 (checked_entry profile width repeated (fields_of row.now))) result }
{
    match named_file(profile, width, repeated, row) {
        Ok(named) => Ok(Entry {
            role: named.role,
            name: Name::new(alloc, named.name)?,
            file: Name::new(alloc, named.file)?,
            said: named.said,
        }),
        Err(reason) => Err(refused(place, reason)),
    }
}

/// The fields of a record, each of plain text, and what they say of its coordinates. A field that it lacks is empty.
#[derive(Clone, Copy)]
struct EntryFields<'a> {
    role: &'a str,
    name: &'a str,
    file: &'a str,
    first: &'a str,
    last: &'a str,
    format: Option<CoordinateFormat>,
}

/// The fields of a record, if it is well formed.
fn text_fields<'a>(row: &'a ByteRecord, width: usize) -> Option<EntryFields<'a>>
    requires { width ≤ 8 }
    ensures { MatchOption result (is_well_formed width (fields_of row.now) ≡ false)
        (λ f. (is_well_formed width (fields_of row.now) ≡ true) × (f.role.now ≡ field 0 (fields_of row.now)) × (f.name.now ≡ field 1 (fields_of row.now))
        × (f.file.now ≡ field 2 (fields_of row.now)) × (f.first.now ≡ field 3 (fields_of row.now)) × (f.last.now ≡ field 4 (fields_of row.now))
        × (f.format ≡ format_of_fields (field 5 (fields_of row.now)) (field 6 (fields_of row.now)) (field 7 (fields_of row.now)))) }
{
    if row.len() != width {
        return None;
    }
    let role = text_field(row, 0)?;
    Some(EntryFields {
        role,
        name: text_field(row, 1)?,
        file: text_field(row, 2)?,
        first: text_field(row, 3)?,
        last: text_field(row, 4)?,
        format: said_format(
            role,
            text_field(row, 5)?,
            text_field(row, 6)?,
            text_field(row, 7)?,
        )?,
    })
}

/// What three fields say of the coordinates of a file with this word for its role; `None` where they may not say it.
#[tactic(auto, unfolding(crate::specs::Manifest::may_say, crate::specs::Manifest::format_of_fields))]
fn said_format(
    role: &str,
    unit: &str,
    digits: &str,
    zeros: &str,
) -> Option<Option<CoordinateFormat>>
    ensures { result ≡ reading.said_format role.now unit.now digits.now zeros.now }
{
    if unit.is_empty() && digits.is_empty() && zeros.is_empty() {
        return Some(None);
    }
    let named = unit_of_word(unit)?;
    let read = read_digits(digits.as_bytes());
    let kept = zeros_of_word(zeros);
    if role == "copper"
        || (read.is_none() && !digits.is_empty())
        || (kept.is_none() && !zeros.is_empty())
    {
        return None;
    }
    Some(Some(CoordinateFormat {
        unit: named,
        zeros: kept,
        digits: read,
    }))
}

/// The unit that a word names: `inch` or `mm`.
fn unit_of_word(word: &str) -> Option<Unit>
    ensures { result ≡ naming.unit_of_word word.now }
{
    match word {
        "inch" => Some(Unit::Inch),
        "mm" => Some(Unit::Millimetre),
        _ => None,
    }
}

/// The zeros that a word says coordinates keep: the leading ones `LZ`, the trailing ones `TZ`.
fn zeros_of_word(word: &str) -> Option<Zeros>
    ensures { result ≡ naming.zeros_of_word word.now }
{
    match word {
        "LZ" => Some(Zeros::Leading),
        "TZ" => Some(Zeros::Trailing),
        _ => None,
    }
}

/// How many fields each record has, if this is the first one of a manifest in the profile.
fn field_count(profile: Profile, first: &ByteRecord) -> Option<usize>
    ensures value { result ≡ naming.field_count profile (fields_of first.now) }
    ensures bound { IfSome result (λ width. width ≤ 8) }
{
    if first.len() == 3 && has_file_columns(first) {
        return Some(3);
    }
    if first.len() == 5 && has_file_columns(first) && has_span_columns(first) {
        return Some(5);
    }
    match profile {
        Profile::Wide
            if first.len() == 8
                && has_file_columns(first)
                && has_span_columns(first)
                && has_format_columns(first) => { Some(8) }
        _ => None,
    }
}

/// Whether the first three fields are `role`, `name`, `file`.
fn has_file_columns(first: &ByteRecord) -> bool
    ensures { result ≡ naming.has_file_columns (fields_of first.now) }
{
    has_field(first, 0, "role") && has_field(first, 1, "name") && has_field(first, 2, "file")
}

/// Whether the fourth and the fifth field are `first`, `last`.
fn has_span_columns(first: &ByteRecord) -> bool
    ensures { result ≡ naming.has_span_columns (fields_of first.now) }
{
    has_field(first, 3, "first") && has_field(first, 4, "last")
}

/// Whether the last three fields are `unit`, `digits`, `zeros`.
fn has_format_columns(first: &ByteRecord) -> bool
    ensures { result ≡ naming.has_format_columns (fields_of first.now) }
{
    has_field(first, 5, "unit") && has_field(first, 6, "digits") && has_field(first, 7, "zeros")
}

/// The role that a word names: `copper`, `plated`, `unplated` or `mixed`.
fn role_of_word(word: &str) -> Option<Role>
    ensures { result ≡ naming.role_of_word word.now }
{
    match word {
        "copper" => Some(Role::Copper),
        "plated" => Some(Role::Plated),
        "unplated" => Some(Role::Unplated),
        "mixed" => Some(Role::Mixed),
        _ => None,
    }
}

/// Whether the profile has this role: the strict one has not `mixed`.
fn is_role_in(profile: Profile, role: Role) -> bool
    ensures { result ≡ naming.is_role_in profile role }
{
    match profile {
        Profile::Strict => !matches!(role, Role::Mixed),
        Profile::Wide => true,
    }
}

/// The span that two fields of a file of this role name: none where both are empty.
fn span_or_reason(role: Role, first: &str, last: &str) -> Result<Option<Span>, Reason>
    ensures { result ≡ reading.span_or_reason role first.now last.now }
{
    if first.is_empty() && last.is_empty() {
        return Ok(None);
    }
    if is_copper_role(role) {
        return Err(Reason::BadSpan);
    }
    match span_of_numbers(first, last) {
        Some(span) => Ok(Some(span)),
        None => Err(Reason::BadSpan),
    }
}

/// The span of the layers with these numbers, if they are those of a span.
fn span_of_numbers(first: &str, last: &str) -> Option<Span>
    ensures { result ≡ reading.span_of_numbers first.now last.now }
{
    Span::new(
        layer_number(first.as_bytes())?,
        layer_number(last.as_bytes())?,
    )
}

fn is_copper_role(role: Role) -> bool
    ensures { result ≡ naming.is_copper_role role }
{
    matches!(role, Role::Copper)
}

fn is_copper(entry: &Entry) -> bool
    ensures { result ≡ naming.is_copper entry.now }
{
    is_copper_role(entry.role)
}

/// The role that a package needs and that these files lack.
fn missing_role(entries: &[Entry]) -> Option<Reason>
    ensures { result ≡ naming.missing_role entries.now }
{
    if !entries.iter().any(|entry| is_copper(entry)) {
        return Some(Reason::NoCopper);
    }
    if !entries.iter().any(|entry| !is_copper(entry)) {
        return Some(Reason::NoDrill);
    }
    None
}

/// What is wrong with all files together, and at which place from 0.
fn joint_fault(entries: &[Entry]) -> Option<(usize, Reason)>
    ensures { result ≡ naming.joint_fault entries.now }
{
    if let Some(reason) = missing_role(entries) {
        return Some((entries.len(), reason));
    }
    match first_exceeding(entries) {
        Some(i) => Some((i, Reason::BadSpan)),
        None => None,
    }
}

/// Whether a span ends above the last of so many layers.
fn exceeds_layers(layer_count: usize, span: Option<Span>) -> bool
    ensures { result ≡ naming.exceeds_layers layer_count span }
{
    match span {
        Some(span) => span.last() as usize > layer_count,
        None => false,
    }
}

/// The place, from 0, of the first file whose span ends above the last copper layer.
fn first_exceeding(entries: &[Entry]) -> Option<usize>
    ensures { result ≡ naming.first_exceeding entries.now }
{
    let layer_count = entries.iter().filter(|entry| is_copper(entry)).count();
    entries
        .iter()
        .position(|entry| exceeds_layers(layer_count, entry.said.span))
}
