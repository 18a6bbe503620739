//! Reads a certificate: what has to be checked anew, and what to compare.

ghost use Rattle.std.specs.Prelude.{◌≡◌, ◌≤◌, IfOk, option_and_then, option_map, string_bytes, map};
ghost use Rattle.grid_units.specs.Points.{max_coordinate};
ghost use Rattle.json.specs.Find.{as_array};
ghost use Rattle.json.specs.Value.{items_view, value_view};
ghost use Rattle.print_json.specs.ReadCertificates.{certified_by, certified_in, certified_view, digest_in, digests_of, is_statement, is_text, length_member, length_of, manifest_in, named_in, profile_of, rules_between, rules_in, rules_of, text_member, without_line_end};

use grid_units::numbers::{capped_value, is_digits};
use grid_units::{MAX_COORDINATE, Profile, Rules};
use json::{Error, Scratch, Value};
use std::alloc::{AllocError, Global};

/// What a certificate names.
#[derive(Drop)]
pub struct Certified {
    /// The name of the manifest.
    pub manifest: String,
    /// The rules of the check, with its profile.
    pub rules: Rules,
    /// The SHA-256 of each file of the package, in order, and last of the manifest, as they are written: in hexadecimal digits.
    pub digests: Vec<String>,
}

/// The member of this name, if it is a string.
fn text_member<'a>(value: &Value<'a>, name: &str) -> Option<&'a str>
    ensures { option_map (λ text. text.now) result ≡ text_member name.now (value_view value.now) }
{
    value.get(name)?.as_str()
}

/// Whether there is a text, and it is this one.
fn is_text(text: &str, found: Option<&str>) -> bool
    ensures { result ≡ is_text text.now (option_map (λ other. other.now) found.entry) }
{
    match found {
        Some(other) => other == text,
        None => false,
    }
}

/// Whether an object is a statement on the result of a test.
fn is_statement(value: &Value) -> bool
    ensures { result ≡ is_statement (value_view value.now) }
{
    is_text(
        "https://in-toto.io/Statement/v1",
        text_member(value, "_type"),
    ) && is_text(
        "https://in-toto.io/attestation/test-result/v0.1",
        text_member(value, "predicateType"),
    )
}

/// The length of a number in pm, if it has digits alone and is at most 10 m.
fn length_of(digits: &str) -> Option<u64>
    ensures { result ≡ length_of digits.now }
{
    let digits = digits.as_bytes();
    if !is_digits(digits) {
        return None;
    }
    let length = capped_value(digits, MAX_COORDINATE + 1);
    if length <= MAX_COORDINATE {
        Some(length)
    } else {
        None
    }
}

/// The member of this name, if it is such a length.
fn length_member(value: &Value, name: &str) -> Option<u64>
    ensures { result ≡ length_member name.now (value_view value.now) }
{
    length_of(value.get(name)?.as_number()?)
}

/// The profile of this name.
fn profile_of(name: &str) -> Option<Profile>
    ensures { result ≡ profile_of name.now }
{
    match name {
        "strict" => Some(Profile::Strict),
        "wide" => Some(Profile::Wide),
        _ => None,
    }
}

/// The rules of this ring and this gap in pm.
fn rules_of(ring: u64, gap: u64, profile: Profile) -> Option<Rules>
    requires { (ring ≤ max_coordinate) × (gap ≤ max_coordinate) }
    ensures { result ≡ rules_of ring gap profile }
{
    match Rules::new(ring as i64, gap as i64) {
        Ok(rules) => Some(rules.in_profile(profile)),
        Err(_) => None,
    }
}

/// The rules of a check, by their object and the profile.
fn rules_between(profile: Profile, value: &Value) -> Option<Rules>
    ensures { result ≡ rules_between profile (value_view value.now) }
{
    let ring = length_member(value, "ring_pm")?;
    let gap = length_member(value, "gap_pm")?;
    rules_of(ring, gap, profile)
}

/// The rules of what a check found.
fn rules_in(found: &Value) -> Option<Rules>
    ensures { result ≡ rules_in (value_view found.now) }
{
    let profile = profile_of(text_member(found, "profile")?)?;
    rules_between(profile, found.get("rules")?)
}

/// The name of the manifest in what a check found.
fn manifest_in<'a>(found: &Value<'a>) -> Option<&'a str>
    ensures { option_map (λ text. text.now) result ≡ manifest_in (value_view found.now) }
{
    text_member(found.get("configuration")?.at(0)?, "name")
}

/// The SHA-256 of a file, as it is written.
fn digest_in<'a>(file: &Value<'a>) -> Option<&'a str>
    ensures { option_map (λ text. text.now) result ≡ digest_in (value_view file.now) }
{
    text_member(file.get("digest")?, "sha256")
}

/// The SHA-256 of each file, in order; nothing where one of them lacks it.
fn digests_of(alloc: Global, files: &[Value]) -> Result<Option<Vec<String>>, AllocError>
    ensures { IfOk result (λ found. option_map (λ digests. map string_bytes digests.items) found ≡ digests_of (items_view files.now)) }
{
    let mut digests = Vec::new(alloc);
    for file in files {
        let Some(digest) = digest_in(file) else {
            return Ok(None);
        };
        digests.push(String::from_str(alloc, digest)?)?;
    }
    Ok(Some(digests))
}

/// The same of the files of an array.
fn digests_in(alloc: Global, files: &Value) -> Result<Option<Vec<String>>, AllocError>
    ensures { IfOk result (λ found. option_map (λ digests. map string_bytes digests.items) found ≡ option_and_then digests_of (as_array (value_view files.now))) }
{
    match files {
        Value::Array(files) => digests_of(alloc, files.as_slice()),
        _ => Ok(None),
    }
}

/// What a statement on these files, with what the check found, names.
fn named_in(alloc: Global, files: &Value, found: &Value) -> Result<Option<Certified>, AllocError>
    ensures { IfOk result (λ named. option_map certified_view named ≡ named_in (value_view files.now) (value_view found.now)) }
{
    let (Some(manifest), Some(rules)) = (manifest_in(found), rules_in(found)) else {
        return Ok(None);
    };
    let Some(digests) = digests_in(alloc, files)? else {
        return Ok(None);
    };
    let manifest = String::from_str(alloc, manifest)?;
    Ok(Some(Certified {
        manifest,
        rules,
        digests,
    }))
}

/// What a certificate names; nothing where the object is not one.
fn certified_in(alloc: Global, value: &Value) -> Result<Option<Certified>, AllocError>
    ensures { IfOk result (λ named. option_map certified_view named ≡ certified_in (value_view value.now)) }
{
    if !is_statement(value) {
        return Ok(None);
    }
    match (value.get("subject"), value.get("predicate")) {
        (Some(files), Some(found)) => named_in(alloc, files, found),
        _ => Ok(None),
    }
}

/// A text without the line end after it, if there is one.
fn without_line_end(text: &str) -> &str
    ensures { result.now ≡ without_line_end text.now }
{
    match text.strip_suffix("\n") {
        Some(line) => line,
        None => text,
    }
}

/// What the certificate of a text names; `None` where the text is no certificate. Members are looked up by their names, wherever they stand,
/// and further ones are not looked at. The text may have a line end after it.
///
/// # Errors
///
/// An `AllocError` where there is no memory for the values of the text, of which there are at most as many as it has bytes.
pub fn read_certificate(alloc: Global, text: &str) -> Result<Option<Certified>, AllocError>
    ensures { IfOk result (λ named. option_map certified_view named ≡ certified_by text.now) }
{
    let mut scratch = Scratch::new(alloc);
    match Value::parse(alloc, without_line_end(text), &mut scratch) {
        Ok(value) => certified_in(alloc, &value),
        Err(Error::OutOfMemory) => Err(AllocError),
        Err(_) => Ok(None),
    }
}
