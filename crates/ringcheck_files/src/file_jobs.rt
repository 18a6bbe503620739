//! Prints the table or the canonical text of one file.

ghost use Rattle.std.specs.Prelude.{◌≡◌, IfOk, OnOk, Some, codes, option_map};
ghost use Rattle.std.specs.Io.KnownBytes.{Appends};
ghost use Rattle.grid_units.specs.Results.{Answers};
ghost use Rattle.ringcheck_files.specs.Outcomes.{HasCause};
ghost use Rattle.ringcheck_files.specs.FileStatus.{Prints, IsFileStatus, IsParsedFileStatus, SaysOfFile, SaysUnread, Shows, refusal_line};
ghost use Rattle.ringcheck_files.specs.FileStatus as printing;
ghost use Rattle.ringcheck_files.specs.Sentences as sentences;
ghost use Rattle.ringcheck_files.specs.Writers.{texts};

use crate::containers::Container;
use crate::loader::{ABOVE_LIMIT, FILE_LIMIT};
use crate::outcomes::{Failure, Streams, refuse_word};
use crate::{Kind, LoadFault, Loader, Status, rewrite_bytes, show_drill_in, show_layer_in};
use grid_units::{Fail, Fault, Profile, Reason};
use std::alloc::Global;
use std::fmt;
use std::fmt::{Display, Formatter};
use std::io::Write;

/// What is printed of a file.
#[derive(Clone, Copy)]
pub enum FileJob {
    /// Its table, where it is read in this profile.
    Show(Profile),
    /// Its canonical text.
    Rewrite,
}

/// The kind that a word names: `layer` or `drill`.
fn parse_kind(word: &str) -> Option<Kind>
    ensures { result ≡ printing.parse_kind word.now }
{
    match word {
        "layer" => Some(Kind::Layer),
        "drill" => Some(Kind::Drill),
        _ => None,
    }
}

/// The table of bytes that are read in a profile as a file of this kind.
fn show(alloc: Global, profile: Profile, kind: Kind, bytes: &[u8]) -> Result<Vec<u8>, Fail>
    ensures { Answers (λ text. text.items) (Shows profile kind bytes.now) result }
{
    match kind {
        Kind::Layer => show_layer_in(alloc, profile, bytes),
        Kind::Drill => show_drill_in(alloc, profile, bytes),
    }
}

/// What is printed of bytes that are read as a file of this kind.
fn text_of(alloc: Global, job: FileJob, kind: Kind, bytes: &[u8]) -> Result<Vec<u8>, Fail>
    ensures { Answers (λ text. text.items) (Prints job kind bytes.now) result }
{
    match job {
        FileJob::Show(profile) => show(alloc, profile, kind, bytes),
        FileJob::Rewrite => rewrite_bytes(alloc, kind, bytes),
    }
}

/// Prints the line of a single refused file, such as `refused place=0 byte=0 reason=TooLong`.
fn refuse_file<W: Write>(out: &mut W, fault: Fault) -> Result<(), Failure>
    ensures { OnOk result (Appends (W.contents out.old) (W.contents out.new) (refusal_line fault)) }
{
    let reason = fault.reason.name();
    let (place, byte) = (fault.place, fault.byte);
    write!(out, "refused place={place} byte={byte} reason={reason}\n")?;
    Ok(())
}

/// Where file names are taken from: the folder that was entered, if there is one.
pub fn place_of_names(folder: Option<&str>) -> &str
    ensures { result.now ≡ sentences.place_of_names (option_map (λ f. f.now) folder.entry) }
{
    match folder {
        Some(folder) => folder,
        None => "the working directory",
    }
}

/// What is said of a file that cannot be read: the name by which it was looked for, and from where names are taken.
#[derive(Clone, Copy)]
struct UnreadFile<'a> {
    path: &'a str,
    folder: Option<&'a str>,
}

impl Display for UnreadFile<'_> {
    ghost output = { λ it. Some (sentences.unread_sentence it.path.now (option_map (λ f. f.now) it.folder)) };

    fn fmt<W: fmt::Write>(&self, f: &mut Formatter<W>) -> fmt::Result {
        let (path, place) = (self.path, place_of_names(self.folder));
        write!(f, "cannot read {path}: file names are taken from {place}")
    }
}

/// What is said of a file that this loader cannot read.
fn unread_sentence<'a, L: Loader>(loader: &'a L, path: &'a str) -> UnreadFile<'a>
    ensures { result.path.now ≡ path.now }
{
    UnreadFile {
        path,
        folder: loader.folder(),
    }
}

/// Says why the file of a name cannot be read: it is a folder, or nothing that can be read.
fn say_unread<L: Loader, E: Write>(err: &mut E, loader: &L, name: &str) -> Result<(), Failure>
    ensures { OnOk result (SaysUnread name.now (E.contents err.old) (E.contents err.new)) }
{
    if loader.is_folder(name) {
        write!(err, "  {}\n", Container::Folder(name))?;
    } else {
        write!(err, "  {}\n", unread_sentence(loader, name))?;
    }
    Ok(())
}

/// Prints that the file of a name cannot be read: the line `device`, and beside it why.
///
/// # Errors
///
/// [`Failure::Writer`] where a writer fails.
pub fn print_unread<L: Loader, W: Write, E: Write>(
    to: &mut Streams<W, E>,
    loader: &L,
    name: &str,
) -> Result<Status, Failure>
    ensures { IfOk result (λ status. (status ≡ Status.Device) × Appends (W.contents to.old.out) (W.contents to.new.out) (codes "device\n") × SaysUnread name.now (E.contents to.old.err) (E.contents to.new.err)) }
{
    write!(to.out, "device\n")?;
    say_unread(&mut to.err, loader, name)?;
    Ok(Status::Device)
}

/// Loads a file and prints its table or its canonical text. Beside the line of a file that cannot be read stands why.
fn print_job<L: Loader, W: Write, E: Write>(
    alloc: Global,
    job: FileJob,
    kind: Kind,
    name: &str,
    loader: &mut L,
    to: &mut Streams<W, E>,
) -> Result<Status, Failure>
    ensures says { IfOk result (λ status. IsFileStatus job kind (L.has loader.old) name.now (W.contents to.old.out) (W.contents to.new.out) status) }
    ensures beside { IfOk result (SaysOfFile name.now (texts W.contents E.contents to.old) (texts W.contents E.contents to.new)) }
    ensures cause { IfOk result (HasCause (L.failed loader.old) (L.failed loader.new)) }
{
    match loader.load(alloc, name, FILE_LIMIT) {
        Ok(bytes) => match text_of(alloc, job, kind, bytes.as_slice()) {
            Ok(text) => {
                to.out.write_all(text.as_slice())?;
                Ok(Status::Pass)
            }
            Err(Fail::Memory) => Err(Failure::Memory),
            Err(Fail::Refused(fault)) => {
                refuse_file(&mut to.out, fault)?;
                Ok(Status::Refused)
            }
        },
        Err(LoadFault::Device) => print_unread(to, loader, name),
        Err(LoadFault::Memory) => Err(Failure::Memory),
        Err(LoadFault::TooLong) => {
            refuse_file(&mut to.out, ABOVE_LIMIT)?;
            Ok(Status::Refused)
        }
    }
}

/// Prints the table or the canonical text of a file of the kind that a word names. The kind is read first.
///
/// # Errors
///
/// [`Failure::Memory`] where memory runs out, and [`Failure::Writer`] where a writer fails.
pub fn print<L: Loader, W: Write, E: Write>(
    alloc: Global,
    job: FileJob,
    kind: &str,
    name: &str,
    loader: &mut L,
    to: &mut Streams<W, E>,
) -> Result<Status, Failure>
    ensures says { IfOk result (IsParsedFileStatus job (printing.parse_kind kind.now) (L.has loader.old) name.now (texts W.contents E.contents to.old) (texts W.contents E.contents to.new)) }
    ensures cause { IfOk result (HasCause (L.failed loader.old) (L.failed loader.new)) }
{
    match parse_kind(kind) {
        Some(kind) => print_job(alloc, job, kind, name, loader, to),
        None => {
            refuse_word(&mut to.out, Reason::BadRole)?;
            Ok(Status::Usage)
        }
    }
}
