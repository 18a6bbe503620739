//! The records of a text, and their fields.

ghost use Rattle.std.specs.Prelude.{◌≡◌, ◌<◌, ◌++◌, ◌∷◌, [], length, map, true, false, Ok, IfOk, OnOk, MatchOption};
ghost use Rattle.std.specs.List.{list_any};
ghost use Rattle.std.specs.Str.{bytes_eq};
ghost use Rattle.csv.specs.Records.{Row, fields_of};
ghost use Rattle.grid_units.specs.Results.{fault};
ghost use Rattle.manifest.specs.Manifest.{field, is_control, is_plain_text, csv_records};

use csv::{ByteRecord, Error, ReaderBuilder};
use grid_units::{Fail, Fault, Reason};
use std::alloc::{AllocError, Global};
use std::str;

/// The refusal of the record of this number, from 1. Its byte is 0.
pub fn refused(place: u64, reason: Reason) -> Fail
    ensures { result ≡ Fail.Refused (fault place 0 reason) }
{
    Fail::Refused(Fault {
        place,
        byte: 0,
        reason,
    })
}

/// Adds a record to those read before it.
fn add_record(rows: &mut Vec<ByteRecord>, read: Result<ByteRecord, Error>) -> Result<(), AllocError>
    ensures { OnOk result ((row : Row) × (read ≡ Ok row) × (rows.new.items ≡ rows.old.items ++ row ∷ [])) }
{
    let Ok(row) = read else {
        return Err(AllocError);
    };
    rows.push(row)?;
    Ok(())
}

/// Every record of a text, with any number of fields; the first is read as the others. A byte order mark before the text
/// is dropped.
///
/// # Errors
///
/// An `AllocError` where there is no memory. A slice can always be read, so `csv` refuses nothing else here.
// Inlined, the reader's buffers would lie in the frame of a caller that runs on long after it.
#[inline(never)]
pub fn read_records(alloc: Global, text: &[u8]) -> Result<Vec<ByteRecord>, AllocError>
    ensures { IfOk result (λ v. map fields_of v.items ≡ csv_records text.now) }
{
    let reader = ReaderBuilder::new()
        .has_headers(false)
        .flexible(true)
        .from_reader(alloc, text);
    let mut rows = Vec::new(alloc);
    for row in reader.into_byte_records() {
        add_record(&mut rows, row)?;
    }
    Ok(rows)
}

/// The field at a place from 0, if it is plain text: UTF-8 without control bytes. A field that the record lacks is empty.
pub fn text_field(row: &ByteRecord, i: usize) -> Option<&str>
    ensures { MatchOption result (is_plain_text (field i (fields_of row.now)) ≡ false)
        (λ text. (is_plain_text (field i (fields_of row.now)) ≡ true) × (text.now ≡ field i (fields_of row.now))) }
{
    match row.get(i) {
        Some(field) => plain_text(field),
        None => Some(""),
    }
}

/// The text of these bytes, if they are UTF-8 without control bytes.
fn plain_text(bytes: &[u8]) -> Option<&str>
    ensures { MatchOption result (is_plain_text bytes.now ≡ false)
        (λ text. (is_plain_text bytes.now ≡ true) × (text.now ≡ bytes.now)) }
{
    let Ok(text) = str::from_utf8(bytes) else {
        return None;
    };
    if has_control(bytes) { None } else { Some(text) }
}

fn has_control(bytes: &[u8]) -> bool
    ensures { result ≡ list_any is_control bytes.now }
{
    bytes.iter().any(|byte| *byte < 0x20 || *byte == 0x7F)
}

/// Whether the field at a place from 0 is this text, which is not empty.
pub fn has_field(row: &ByteRecord, i: usize, text: &str) -> bool
    requires { 0 < length text.now }
    ensures { result ≡ bytes_eq (field i (fields_of row.now)) text.now }
{
    match row.get(i) {
        Some(field) => field == text.as_bytes(),
        None => false,
    }
}
