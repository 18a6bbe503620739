//! Certificates of packages: one is made, or one that is given is verified.

ghost use Rattle.std.specs.Prelude.{◌≡◌, ◌≢◌, ◌≤◌, ◌<◌, ◌++◌, ◌∷◌, [], List, ℕ, true, false, length, Some, IfErr, IfOk, map, option_map, slice_get, string_bytes};
ghost use Rattle.std.specs.Io.KnownBytes.{Appends};
ghost use Rattle.std.specs.List.{AllByRecursion, zip};
ghost use Rattle.hex.specs.Hex.{encode_lower};
ghost use Rattle.sha2.specs.Sha256.{sha256};
ghost use Rattle.grid_units.specs.Holes.{GridRules};
ghost use Rattle.package_check.specs.Package.{FileView};
ghost use Rattle.ringcheck_files.specs.Outcomes.{HasCause};
ghost use Rattle.ringcheck_files.specs.Writers.{texts};
ghost use Rattle.print_json.specs.Certificates.{certificate_of, certificate_value, digest_of};
ghost use Rattle.print_json.specs.ReadCertificates.{certified_view};
ghost use Rattle.print_json.specs.Values.{json_text};
ghost use Rattle.command_line.specs.declared.commands.TheConstants.{PROGRAM};
ghost use Rattle.ringcheck_files.specs.LoaderRelation.{file_limit};
ghost use Rattle.ringcheck.specs.CertificateStatus.{AreOther, Certifies, HasOther, IsOtherAt, IsVerified, IsVerifyStatus, Names, verdict_text};
ghost use Rattle.ringcheck.specs.Inner.Certificates.{ListsOthers};
ghost use Rattle.ringcheck.specs.Inner.Loading.{IsCheckReport};

use crate::digests::{Digest, FileHasher};
use crate::jobs::Job;
use crate::load_package::load_table;
use crate::packages::{Manifest, run_job};
use crate::refusals::Subject;
use crate::{CheckText, Entry, LoadFault, Loader, Report};
use command_line::PROGRAM;
use print_json::{Certificate, Certified, FileDigest, read_certificate};
use ringcheck_files::{FILE_LIMIT, Failure, Sink, Status, Streams, print_unread};
use std::alloc::{AllocError, Global};
use std::io::Write;

/// The files of these entries by the names under which they are looked for, each with its digest.
fn digests_of<'a>(
    alloc: Global,
    entries: &'a [Entry],
    digests: &[Digest],
) -> Result<Vec<FileDigest<'a>>, AllocError>
    ensures { IfOk result (λ subjects. map digest_of subjects.items ≡ zip (map (λ entry. entry.file) entries.entry.now) digests.now) }
{
    let mut subjects = Vec::new(alloc);
    for (index, entry) in entries.iter().enumerate() {
        if let Some(sha256) = digests.get(index) {
            let name = entry.file.as_str();
            let sha256 = *sha256;
            subjects.push(FileDigest { name, sha256 })?;
        }
    }
    Ok(subjects)
}

/// The files of a manifest's entries, each with its digest, and last the manifest.
fn subjects_of<'a>(
    alloc: Global,
    manifest: Manifest<'a>,
    digests: &[Digest],
) -> Result<Vec<FileDigest<'a>>, AllocError>
    ensures { IfOk result (λ subjects. map digest_of subjects.items ≡ zip (map (λ entry. entry.file) manifest.entry.entries.now) digests.now ++ (manifest.entry.name.now, sha256 manifest.entry.text.now) ∷ []) }
{
    let mut subjects = digests_of(alloc, manifest.entries, digests)?;
    subjects.push(manifest.digest())?;
    Ok(subjects)
}

/// The certificate of a package with this report, whose files have these names; the subjects are its files and its manifest.
fn certificate_of<'a>(
    report: &'a Report,
    names: &'a [&'a str],
    manifest: FileDigest<'a>,
    subjects: &'a [FileDigest<'a>],
) -> Certificate<'a>
    ensures { json_text (certificate_of result) ≡ json_text (certificate_value PROGRAM.now report.entry.now.rules (map digest_of subjects.entry.now) (digest_of manifest.entry) (map (λ name. name.now) names.entry.now) report.entry.now.files) }
{
    Certificate {
        program: PROGRAM,
        rules: report.rules(),
        subjects,
        manifest,
        names,
        files: report.files(),
    }
}

/// What is printed where a certificate is given: whether it is certified.
fn verdict(certified: bool) -> &'static str
    ensures { result.now ≡ verdict_text certified }
{
    if certified {
        "CERTIFIED\n"
    } else {
        "NOT CERTIFIED\n"
    }
}

/// Prints the certificate of a package whose files have these names and digests where its check has no finding, and else the report of the
/// check; or, where a certificate is given, whether it is the one of this package. Returns whether it passes.
pub(crate) fn certify<'a, W: Write>(
    alloc: Global,
    report: &'a Report,
    names: &'a [&'a str],
    manifest: Manifest<'a>,
    digests: &[Digest],
    given: Option<&[u8]>,
    out: &mut W,
) -> Result<bool, Failure>
    ensures { (all : List FileView) (rules : GridRules) → map (λ name. name.now) names.entry.now ≡ map (λ source. source.name) all → IsCheckReport rules report.entry.now all → digests.now ≡ map (λ file. sha256 file.bytes) all
        → IfOk result (λ passes. Certifies rules (option_map (λ text. text.now) given.entry) manifest.entry.name.now (W.contents out.old) (W.contents out.new) manifest.entry.text.now manifest.entry.entries.now passes all) }
{
    let subjects = subjects_of(alloc, manifest, digests)?;
    let certificate = certificate_of(&*report, &*names, manifest.digest(), subjects.as_slice());
    let is_sound = report.findings().is_empty();
    match given {
        Some(given) => {
            let text = format!(in alloc; "{certificate}")?;
            let certified = is_sound && text.as_bytes() == given;
            write!(out, "{}", verdict(certified))?;
            Ok(certified)
        }
        None if is_sound => {
            write!(out, "{certificate}")?;
            Ok(true)
        }
        None => {
            write!(out, "{}", CheckText { names, report })?;
            Ok(false)
        }
    }
}

/// A file that is loaded for its digest alone.
#[derive(Drop)]
struct DigestSink {
    hasher: FileHasher,
}

impl Sink for DigestSink {
    ghost use Rattle.ringcheck.specs.Inner.Digests.{HashesOn};

    ghost has_taken = { λ start now text. HashesOn start.hasher now.hasher text };

    fn take(&mut self, piece: &[u8]) -> Result<(), AllocError> {
        self.hasher.take(piece);
        Ok(())
    }
}

/// The digest of the file under a name.
fn load_digest<L: Loader>(alloc: Global, name: &str, loader: &mut L) -> Result<Digest, LoadFault>
    ensures keeps { (n b : List ℕ) → L.has loader.new n b → L.has loader.old n b }
    ensures counts { L.failed loader.old ≤ L.failed loader.new }
    ensures digest { IfOk result (λ digest. (bytes : List ℕ) × L.has loader.old name.now bytes × (digest ≡ sha256 bytes)) }
    ensures too_long { IfErr result (λ e. e ≡ LoadFault.TooLong → (bytes : List ℕ) × L.has loader.old name.now bytes × (file_limit < length bytes)) }
{
    let mut digests = [[0; 32]];
    let mut sink = DigestSink {
        hasher: FileHasher::of(&digests, 0),
    };
    loader.load_into(alloc, name, FILE_LIMIT, &mut sink)?;
    sink.hasher.put(&mut digests, 0);
    Ok(digests[0])
}

/// Whether the digest at an index of those that are written in hexadecimal is another than this one, or is not there.
fn is_other(
    alloc: Global,
    written: &[String],
    index: usize,
    digest: Digest,
) -> Result<bool, AllocError>
    ensures { IfOk result (λ other. other ≡ true → slice_get (map string_bytes written.now) index ≢ Some (encode_lower digest)) }
{
    let found = hex::encode(alloc, digest)?;
    Ok(match written.get(index) {
        Some(written) => written.as_bytes() != found.as_bytes(),
        None => true,
    })
}

/// Whether the file under a name has another digest than the one at an index of those that are written in hexadecimal, as far as it can be
/// loaded. Where it cannot be read it is left to the check to say so.
fn differs<L: Loader>(
    alloc: Global,
    name: &str,
    written: &[String],
    index: usize,
    loader: &mut L,
) -> Result<bool, Failure>
    ensures keeps { (n b : List ℕ) → L.has loader.new n b → L.has loader.old n b }
    ensures counts { L.failed loader.old ≤ L.failed loader.new }
    ensures other { IfOk result (λ other. other ≡ true → HasOther (L.has loader.old) name.now (slice_get (map string_bytes written.now) index)) }
{
    match load_digest(alloc, name, loader) {
        Ok(digest) => Ok(is_other(alloc, written, index, digest)?),
        Err(LoadFault::Device) => Ok(false),
        Err(LoadFault::Memory) => Err(Failure::Memory),
        Err(LoadFault::TooLong) => Ok(true),
    }
}

/// Prints a line for each file of these entries that has another digest now than the one that is written; returns whether there is one.
fn print_differing_files<L: Loader, W: Write>(
    alloc: Global,
    entries: &[Entry],
    written: &[String],
    loader: &mut L,
    out: &mut W,
) -> Result<bool, Failure>
    ensures keeps { (n b : List ℕ) → L.has loader.new n b → L.has loader.old n b }
    ensures counts { L.failed loader.old ≤ L.failed loader.new }
    ensures lines { IfOk result (ListsOthers (AllByRecursion (IsOtherAt (L.has loader.old) (map string_bytes written.entry.now) entries.entry.now)) (W.contents out.old) (W.contents out.new)) }
{
    let mut any = false;
    for (index, entry) in entries.iter().enumerate() {
        if differs(alloc, entry.file.as_str(), written, index, loader)? {
            any = true;
            write!(out, "differs file={}\n", index as u128 + 1)?;
        }
    }
    Ok(any)
}

/// Prints a line for the manifest of a certificate if it has another digest now, and else for each file that has; returns whether there is one.
fn print_differing<L: Loader, W: Write>(
    alloc: Global,
    certified: &Certified,
    loader: &mut L,
    out: &mut W,
) -> Result<bool, Failure>
    ensures keeps { (n b : List ℕ) → L.has loader.new n b → L.has loader.old n b }
    ensures counts { L.failed loader.old ≤ L.failed loader.new }
    ensures lines { IfOk result (ListsOthers (AreOther (L.has loader.old) (certified_view certified.entry.now)) (W.contents out.old) (W.contents out.new)) }
{
    let (manifest, written) = (certified.manifest.as_str(), certified.digests.as_slice());
    let last = written.len().saturating_sub(1);
    if differs(alloc, manifest, written, last, loader)? {
        write!(out, "differs file={}\n", written.len())?;
        return Ok(true);
    }
    let profile = certified.rules.profile();
    match load_table::<L, Entry>(alloc, profile, loader, manifest, Subject::Manifest)? {
        Ok(table) => print_differing_files(alloc, table.rows.as_slice(), written, loader, out),
        Err(_) => Ok(false),
    }
}

/// What bytes name if they are a certificate.
fn certified_in(alloc: Global, bytes: &[u8]) -> Result<Option<Certified>, AllocError>
    ensures { IfOk result (λ named. Names bytes.now (option_map certified_view named)) }
{
    match str::from_utf8(bytes) {
        Ok(text) => read_certificate(alloc, text),
        Err(_) => Ok(None),
    }
}

/// Prints that nothing is certified.
fn deny<W: Write>(out: &mut W) -> Result<Status, Failure>
    ensures { IfOk result (λ s. (s ≡ Status.Findings) × Appends (W.contents out.old) (W.contents out.new) (verdict_text false)) }
{
    write!(out, "{}", verdict(false))?;
    Ok(Status::Findings)
}

/// Verifies a certificate that names what is certified, and has this text.
fn verify_text<L: Loader, W: Write, E: Write>(
    alloc: Global,
    certified: &Certified,
    text: Vec<u8>,
    loader: &mut L,
    to: &mut Streams<W, E>,
) -> Result<Status, Failure>
    ensures says { Names text.items (Some (certified_view certified.entry.now)) → IfOk result (IsVerified (L.has loader.old) text.items (texts W.contents E.contents to.old) (texts W.contents E.contents to.new)) }
    ensures cause { IfOk result (HasCause (L.failed loader.old) (L.failed loader.new)) }
{
    if print_differing(alloc, certified, loader, &mut to.out)? {
        return deny(&mut to.out);
    }
    let job = Job::Certify(certified.rules, Some(text));
    run_job(alloc, &job, &[], certified.manifest.as_str(), loader, to)
}

/// Verifies the certificate under a name: whether it is just the one that is made now of the package that it names, under its rules. A line
/// says of each of its files that has another digest that it differs.
pub(crate) fn verify<L: Loader, W: Write, E: Write>(
    alloc: Global,
    name: &str,
    loader: &mut L,
    to: &mut Streams<W, E>,
) -> Result<Status, Failure>
    ensures says { IfOk result (IsVerifyStatus (L.has loader.old) name.now (texts W.contents E.contents to.old) (texts W.contents E.contents to.new)) }
    ensures cause { IfOk result (HasCause (L.failed loader.old) (L.failed loader.new)) }
{
    let text = match loader.load(alloc, name, FILE_LIMIT) {
        Ok(text) => text,
        Err(LoadFault::Device) => return print_unread(to, loader, name),
        Err(LoadFault::Memory) => return Err(Failure::Memory),
        Err(LoadFault::TooLong) => return deny(&mut to.out),
    };
    match certified_in(alloc, text.as_slice())? {
        Some(certified) => verify_text(alloc, &certified, text, loader, to),
        None => deny(&mut to.out),
    }
}
