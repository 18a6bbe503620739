//! The waivers of records, and the rules by which a record is refused.

ghost use Rattle.std.specs.Prelude.{◌≡◌, map, true, false, MatchOption, IfErr, IfOk, Ok, Err};
ghost use Rattle.csv.specs.Records.{fields_of};
ghost use Rattle.grid_units.specs.Results.{Answers, with_place};
ghost use Rattle.manifest.specs.Manifest.{field};
ghost use Rattle.waivers.specs.Reading as naming;
ghost use Rattle.waivers.specs.Inner.{checked_waiver, waiver_with};

use crate::Waiver;
use csv::ByteRecord;
use grid_units::{Fail, Reason};
use manifest::Name;
use manifest::rows::{has_field, refused, text_field};
use std::alloc::{AllocError, Global};

/// The number of fields in each record.
const FIELDS: usize = 6;

/// The most bytes of a reason. A report prints it for each finding that it waives.
const REASON_LIMIT: usize = 1000;

/// The waivers of all records, the head being the first.
pub(crate) fn waivers_of(alloc: Global, rows: &[ByteRecord]) -> Result<Vec<Waiver>, Fail>
    ensures { Answers (λ all. all.items) (λ answer. answer ≡ naming.waivers_of (map fields_of rows.now)) result }
{
    let Some((first, records)) = rows.split_first() else {
        return Err(refused(1, Reason::BadManifest));
    };
    if !is_heading(first) {
        return Err(refused(1, Reason::BadManifest));
    }
    waivers_after_head(alloc, records)
}

/// The waivers of the records after the head.
fn waivers_after_head(alloc: Global, rows: &[ByteRecord]) -> Result<Vec<Waiver>, Fail>
    ensures { Answers (λ all. all.items) (λ answer. answer ≡ naming.waivers_after_head (map fields_of rows.now)) result }
{
    let mut waivers = Vec::new(alloc);
    for (i, row) in rows.iter().enumerate() {
        let waiver = waiver_of(alloc, i as u64 + 2, row)?;
        waivers.push(waiver)?;
    }
    Ok(waivers)
}

/// The waiver of a record.
fn waiver_of(alloc: Global, place: u64, row: &ByteRecord) -> Result<Waiver, Fail>
    ensures { Answers (λ waiver. waiver) (λ answer. answer ≡ with_place place 0 (checked_waiver (fields_of row.now))) result }
{
    match checked_fields(row) {
        Ok(fields) => Ok(waiver_with(alloc, fields)?),
        Err(reason) => Err(refused(place, reason)),
    }
}

/// The fields of a record, or the first rule that it breaks.
fn checked_fields<'a>(row: &'a ByteRecord) -> Result<Fields<'a>, Reason>
    ensures ok { IfOk result (λ fields. checked_waiver (fields_of row.now) ≡ Ok (waiver_with fields)) }
    ensures err { IfErr result (λ why. checked_waiver (fields_of row.now) ≡ Err why) }
{
    let Some(fields) = text_fields(row) else {
        return Err(Reason::BadManifest);
    };
    if !is_kind(fields.kind) {
        return Err(Reason::BadRole);
    }
    if fields.why.is_empty() {
        return Err(Reason::EmptyName);
    }
    if fields.why.len() > REASON_LIMIT {
        return Err(Reason::TooLong);
    }
    Ok(fields)
}

/// The waiver with these fields.
fn waiver_with<'a>(alloc: Global, fields: Fields<'a>) -> Result<Waiver, AllocError>
    ensures { IfOk result (λ waiver. waiver ≡ waiver_with fields.entry) }
{
    let (kind, layer, hole) = three_names(alloc, fields.kind, fields.layer, fields.hole)?;
    let (and, has, why) = three_names(alloc, fields.and, fields.has, fields.why)?;
    Ok(Waiver {
        kind,
        layer,
        hole,
        and,
        has,
        why,
    })
}

/// Copies of three fields.
fn three_names(
    alloc: Global,
    first: &str,
    second: &str,
    third: &str,
) -> Result<(Name, Name, Name), AllocError>
    ensures { IfOk result (λ names. names ≡ (first.now, second.now, third.now)) }
{
    Ok((
        Name::new(alloc, first)?,
        Name::new(alloc, second)?,
        Name::new(alloc, third)?,
    ))
}

/// The fields of a record, each plain text.
#[derive(Clone, Copy)]
struct Fields<'a> {
    kind: &'a str,
    layer: &'a str,
    hole: &'a str,
    and: &'a str,
    has: &'a str,
    why: &'a str,
}

/// The fields of a record, if there are just six, each of plain text.
fn text_fields<'a>(row: &'a ByteRecord) -> Option<Fields<'a>>
    ensures { MatchOption result (naming.has_plain_fields (fields_of row.now) ≡ false)
        (λ f. (naming.has_plain_fields (fields_of row.now) ≡ true) × (f.kind.now ≡ field 0 (fields_of row.now)) × (f.layer.now ≡ field 1 (fields_of row.now))
        × (f.hole.now ≡ field 2 (fields_of row.now)) × (f.and.now ≡ field 3 (fields_of row.now)) × (f.has.now ≡ field 4 (fields_of row.now))
        × (f.why.now ≡ field 5 (fields_of row.now))) }
{
    if row.len() != FIELDS {
        return None;
    }
    Some(Fields {
        kind: text_field(row, 0)?,
        layer: text_field(row, 1)?,
        hole: text_field(row, 2)?,
        and: text_field(row, 3)?,
        has: text_field(row, 4)?,
        why: text_field(row, 5)?,
    })
}

/// Whether a record is the head.
fn is_heading(row: &ByteRecord) -> bool
    ensures { result ≡ naming.is_heading (fields_of row.now) }
{
    row.len() == FIELDS && has_place_columns(row) && has_reason_columns(row)
}

fn has_place_columns(row: &ByteRecord) -> bool
    ensures { result ≡ naming.has_place_columns (fields_of row.now) }
{
    has_field(row, 0, "kind") && has_field(row, 1, "layer") && has_field(row, 2, "hole")
}

fn has_reason_columns(row: &ByteRecord) -> bool
    ensures { result ≡ naming.has_reason_columns (fields_of row.now) }
{
    has_field(row, 3, "and") && has_field(row, 4, "has") && has_field(row, 5, "why")
}

/// Whether a word is a kind of finding: `ring` or `gap`.
fn is_kind(word: &str) -> bool
    ensures { result ≡ naming.is_kind word.now }
{
    word == "ring" || word == "gap"
}
