//! Why nothing is done with a package, and what is printed of it. Files are numbered from 1.

ghost use Rattle.std.specs.Prelude.{◌≡◌, IfOk, IfSome, OnOk, Some, map, option_map, slice_get};
ghost use Rattle.csv.specs.Records.{fields_of};
ghost use Rattle.ringcheck_files.specs.PageWords.{FitsScreen, HasHeading};
ghost use Rattle.grid_units.specs.Reasons.{reason_name};
ghost use Rattle.print_json.specs.Packages.{input_error_value};
ghost use Rattle.print_json.specs.Values.{json_text};
ghost use Rattle.ringcheck.specs.CheckStatus as tables;
ghost use Rattle.ringcheck.specs.CheckStatus.{refusal_of_text, role_and_file_at};
ghost use Rattle.ringcheck.specs.Inner.Halting.{AfterHalt, AfterNoTable, explained_refusal, is_role_of, refusal, refusal_of_table, refusal_sentence};
ghost use Rattle.ringcheck.specs.Refusals.{PrintsRefusal, WritesRefusal, beside, indented_lines, refusal_json, refusal_line};
ghost use Rattle.ringcheck.specs.Refusals as wording;
ghost use Rattle.ringcheck.specs.Sentences.{unread_json, unread_line, unread_text, unread_words};
ghost use Rattle.ringcheck_files.specs.Words.{Says};
ghost use Rattle.ringcheck_files.specs.Writers.{texts};
ghost use Rattle.std.specs.Io.KnownBytes.{Appends};

use crate::Loader;
use csv::ByteRecord;
use grid_units::{Fault, Reason};
use manifest::rows::{read_records, text_field};
use manifest::{Name, is_archive};
use print_json::InputError;
use ringcheck_files::{Container, Failure, Status, Streams, explanation, place_of_names};
use std::alloc::{AllocError, Global};
use std::fmt;
use std::fmt::{Display, Formatter};
use std::io::Write;

/// How a refusal is printed.
#[derive(Clone, Copy, Debug, PartialEq, Eq)]
pub(crate) enum RefusalStyle {
    /// As a line.
    Line,
    /// As a line, with the page of its reason below.
    Page,
    /// As one object of JSON on one line.
    Json,
}

/// What is refused, or cannot be read.
#[derive(Clone, Copy)]
pub(crate) enum Subject<'a> {
    /// The manifest of a package.
    Manifest,
    /// A file of waivers.
    Waivers,
    /// A file of a package, by its index from 0 and its name in the manifest.
    File { index: usize, name: &'a str },
}

/// Why nothing is done with a package.
#[derive(Clone, Copy)]
pub(crate) enum Halt<'a> {
    /// This is refused, with its fault.
    Refused(Subject<'a>, Fault),
    /// This manifest or file of waivers is refused, with its fault: under this name is a zip archive.
    Archive(Subject<'a>, Fault, &'a str),
    /// This cannot be read, which was looked for by this name.
    Unread(Subject<'a>, &'a str),
}

/// A record of a manifest that is refused for its role.
#[derive(Drop)]
pub(crate) struct BadRecord {
    /// What it has for a role.
    role: Name,
    /// The name of its file.
    file: Name,
}

/// Why there is no table.
#[derive(Drop)]
pub(crate) enum NoTable<'a> {
    /// As of a package.
    Halted(Halt<'a>),
    /// This manifest is refused, with its fault, for the role of this record, whose number is the place of the fault.
    Role(Fault, BadRecord),
}

/// The role and the file name of the record at an index, where there is one and both are plain text.
fn role_and_file(rows: &[ByteRecord], index: usize) -> Option<(&str, &str)>
    ensures { option_map (λ texts. (texts.0.now, texts.1.now)) result ≡ tables.role_and_file (slice_get (map fields_of rows.now) index) }
{
    let row = rows.get(index)?;
    let (role, file) = (text_field(row, 0)?, text_field(row, 2)?);
    Some((role, file))
}

/// The record of this number, from 1, in the text of a manifest, where its role and its file name are plain text.
fn bad_record(alloc: Global, number: u64, text: &[u8]) -> Result<Option<BadRecord>, AllocError>
    ensures { IfOk result (λ row. option_map (λ it. (it.role, it.file)) row ≡ role_and_file_at text.now number) }
{
    let rows = read_records(alloc, text)?;
    match role_and_file(rows.as_slice(), number.saturating_sub(1) as usize) {
        Some((role, file)) => Ok(Some(BadRecord {
            role: Name::new(alloc, role)?,
            file: Name::new(alloc, file)?,
        })),
        None => Ok(None),
    }
}

/// Whether this is a manifest that is refused for the role of a record.
fn is_of_role(subject: Subject, reason: Reason) -> bool
    ensures { result ≡ is_role_of subject.entry reason }
{
    matches!(subject, Subject::Manifest) && reason == Reason::BadRole
}

/// Why there are no rows in a table of this text, which was looked for by this name: it has a fault, and may be a zip archive, or a
/// manifest with a record whose role is none.
pub(crate) fn refused_table<'a>(
    alloc: Global,
    subject: Subject<'a>,
    fault: Fault,
    name: &'a str,
    text: &[u8],
) -> Result<NoTable<'a>, AllocError>
    ensures { IfOk result (λ no_table. refusal_of_table no_table ≡ Some (refusal_of_text name.now text.now (refusal subject.entry fault))) }
{
    if is_archive(text) {
        return Ok(NoTable::Halted(Halt::Archive(subject, fault, name)));
    }
    if !is_of_role(subject, fault.reason) {
        return Ok(NoTable::Halted(Halt::Refused(subject, fault)));
    }
    match bad_record(alloc, fault.place, text)? {
        Some(row) => Ok(NoTable::Role(fault, row)),
        None => Ok(NoTable::Halted(Halt::Refused(subject, fault))),
    }
}

/// A refusal as a line, such as `refused file=1 place=0 byte=0 reason=TooLong name=top` or `refused manifest place=0 reason=TooLong`.
#[derive(Clone, Copy)]
struct RefusalLine<'a> {
    subject: Subject<'a>,
    fault: Fault,
}

impl Display for RefusalLine<'_> {
    ghost output = { λ line. Some (refusal_line (refusal line.subject line.fault)) };

    fn fmt<W: fmt::Write>(&self, f: &mut Formatter<W>) -> fmt::Result {
        let reason = self.fault.reason.name();
        let (place, byte) = (self.fault.place, self.fault.byte);
        match self.subject {
            Subject::Manifest => write!(f, "refused manifest place={place} reason={reason}\n"),
            Subject::Waivers => write!(f, "refused waivers place={place} reason={reason}\n"),
            Subject::File { index, name } => {
                let number = index as u128 + 1;
                write!(
                    f,
                    "refused file={number} place={place} byte={byte} reason={reason} name={name}\n"
                )
            }
        }
    }
}

/// The lines of a page, each after two spaces.
#[derive(Clone, Copy)]
struct Indented<'a>(&'a str);

impl Display for Indented<'_> {
    ghost output = { λ page. Some (indented_lines page.0.now) };

    fn fmt<W: fmt::Write>(&self, f: &mut Formatter<W>) -> fmt::Result {
        for row in self.0.lines() {
            write!(f, "  {row}\n")?;
        }
        Ok(())
    }
}

/// The page of a reason.
fn page_of(reason: Reason) -> &'static str
    ensures headed { HasHeading (reason_name reason) result.now }
    ensures fits { FitsScreen result.now }
{
    match explanation(reason.name()) {
        Some(page) => page,
        None => "",
    }
}

/// A refusal for its JSON.
fn refused_stop<'a>(subject: Subject<'a>, fault: Fault) -> InputError<'a>
    ensures { json_text (input_error_value result) ≡ refusal_json (refusal subject.entry fault) }
{
    let Fault { place, reason, .. } = fault;
    match subject {
        Subject::Manifest => InputError::RefusedManifest { place, reason },
        Subject::Waivers => InputError::RefusedWaivers { place, reason },
        Subject::File { index, name } => InputError::Refused { index, name, fault },
    }
}

/// What cannot be read, for its JSON.
fn unread_stop<'a>(subject: Subject<'a>) -> InputError<'a>
    ensures { json_text (input_error_value result) ≡ unread_json subject.entry }
{
    match subject {
        Subject::Manifest => InputError::ManifestDevice,
        Subject::Waivers => InputError::WaiversDevice,
        Subject::File { index, name } => InputError::Device { index, name },
    }
}

/// Something that cannot be read as a line, such as `device` or `device file=2 name=pth`.
#[derive(Clone, Copy)]
struct UnreadLine<'a>(Subject<'a>);

impl Display for UnreadLine<'_> {
    ghost output = { λ line. Some (unread_line line.0) };

    fn fmt<W: fmt::Write>(&self, f: &mut Formatter<W>) -> fmt::Result {
        match self.0 {
            Subject::Manifest | Subject::Waivers => f.write_str("device\n"),
            Subject::File { index, name } => {
                let number = index as u128 + 1;
                write!(f, "device file={number} name={name}\n")
            }
        }
    }
}

/// Prints a refusal in this style.
fn print_refusal<W: Write>(
    out: &mut W,
    style: RefusalStyle,
    subject: Subject,
    fault: Fault,
) -> Result<(), Failure>
    ensures { OnOk result (WritesRefusal style (refusal subject.entry fault) (W.contents out.old) (W.contents out.new)) }
{
    let line = RefusalLine { subject, fault };
    match style {
        RefusalStyle::Line => write!(out, "{line}")?,
        RefusalStyle::Page => write!(out, "{line}{}", Indented(page_of(fault.reason)))?,
        RefusalStyle::Json => write!(out, "{}", refused_stop(subject, fault))?,
    }
    Ok(())
}

/// Whether a file name ends as those of drill files often do.
fn has_drill_end(file: &str) -> bool
    ensures { result ≡ wording.has_drill_end file.now }
{
    let file = file.as_bytes();
    file.ends_with(b".drl")
        || file.ends_with(b".DRL")
        || file.ends_with(b".xln")
        || file.ends_with(b".XLN")
        || file.ends_with(b".txt")
        || file.ends_with(b".TXT")
}

/// What to do about a role that is refused, in the record of this file.
fn role_advice(role: &str, file: &str) -> &'static str
    ensures { result.now ≡ wording.role_advice role.now file.now }
{
    match role {
        "?" if has_drill_end(file) => {
            "write plated or unplated; for a file with holes of both kinds write mixed, and use --profile wide"
        }
        "?" => "write copper, plated or unplated, or leave the record out",
        "mixed" => "use --profile wide, which alone has this role",
        _ => "roles are copper, plated and unplated, and with --profile wide mixed",
    }
}

/// What is said of a refusal.
#[derive(Clone, Copy)]
enum RefusalSentence<'a> {
    /// Under this name is a zip archive.
    Archive(&'a str),
    /// The record of a manifest with this number, role and file has the role for which it is refused.
    Role {
        number: u64,
        role: &'a str,
        file: &'a str,
    },
}

impl Display for RefusalSentence<'_> {
    ghost output = { λ it. Some (refusal_sentence it) };

    fn fmt<W: fmt::Write>(&self, f: &mut Formatter<W>) -> fmt::Result {
        match *self {
            RefusalSentence::Archive(name) => write!(f, "{}", Container::Archive(name)),
            RefusalSentence::Role { number, role, file } => {
                let advice = role_advice(role, file);
                write!(
                    f,
                    "record {number}, {file}: its role is \"{role}\": {advice}"
                )
            }
        }
    }
}

/// Says this beside an answer in this style, unless it is the style of a page, where the answer has it.
fn say<T: Display, E: Write>(err: &mut E, style: RefusalStyle, said: &T) -> Result<(), Failure>
    ensures { IfSome (T.output said.now) (λ words. OnOk result (Says (beside style (Some words)) (E.contents err.old) (E.contents err.new))) }
{
    match style {
        RefusalStyle::Page => Ok(()),
        RefusalStyle::Line | RefusalStyle::Json => Ok(write!(err, "  {said}\n")?),
    }
}

/// Prints in this style a refusal of which this sentence is said.
fn print_explained<W: Write, E: Write>(
    to: &mut Streams<W, E>,
    style: RefusalStyle,
    subject: Subject,
    fault: Fault,
    said: RefusalSentence,
) -> Result<(), Failure>
    ensures { OnOk result (PrintsRefusal style (explained_refusal said.entry subject.entry fault) (texts W.contents E.contents to.old) (texts W.contents E.contents to.new)) }
{
    if style != RefusalStyle::Page {
        print_refusal(&mut to.out, style, subject, fault)?;
        return say(&mut to.err, style, &said);
    }
    let line = RefusalLine { subject, fault };
    let page = Indented(page_of(fault.reason));
    Ok(write!(to.out, "{line}  {said}\n{page}")?)
}

/// What is said of something that cannot be read, which may be a folder.
#[derive(Clone, Copy)]
struct UnreadWords<'a> {
    subject: Subject<'a>,
    /// The name by which it was looked for.
    path: &'a str,
    /// Whether a folder has this name, as far as the loader knows.
    is_folder: bool,
    /// The folder from which names are taken, if one was entered.
    folder: Option<&'a str>,
}

impl Display for UnreadWords<'_> {
    ghost output = { λ it. Some (unread_words it) };

    fn fmt<W: fmt::Write>(&self, f: &mut Formatter<W>) -> fmt::Result {
        let (path, place) = (self.path, place_of_names(self.folder));
        if self.is_folder {
            return match self.subject {
                Subject::Manifest => write!(f, "{}", Container::Folder(path)),
                Subject::Waivers => write!(f, "{path} is a folder: name a file of waivers"),
                Subject::File { name, .. } => write!(
                    f,
                    "{path}, the file of {name}, is a folder: a manifest must name files"
                ),
            };
        }
        match self.subject {
            Subject::Manifest => write!(
                f,
                "cannot read the manifest {path}: file names are taken from {place}"
            ),
            Subject::Waivers => write!(
                f,
                "cannot read the file of waivers {path}: file names are taken from {place}"
            ),
            Subject::File { name, .. } => write!(
                f,
                "cannot read {path}, the file of {name}: file names are taken from {place}"
            ),
        }
    }
}

/// Writes in this style that something cannot be read, of which these words are said: in the style of a page with the words.
fn write_unread<W: Write>(
    out: &mut W,
    style: RefusalStyle,
    words: UnreadWords,
) -> Result<(), Failure>
    ensures { OnOk result (Appends (W.contents out.old) (W.contents out.new) (unread_text style words.entry)) }
{
    let line = UnreadLine(words.subject);
    match style {
        RefusalStyle::Line => write!(out, "{line}")?,
        RefusalStyle::Page => write!(out, "{line}  {words}\n")?,
        RefusalStyle::Json => write!(out, "{}", unread_stop(words.subject))?,
    }
    Ok(())
}

/// Prints why nothing is done with a package, and returns the status of the run.
pub(crate) fn print_halt<L: Loader, W: Write, E: Write>(
    to: &mut Streams<W, E>,
    style: RefusalStyle,
    halt: Halt,
    loader: &L,
) -> Result<Status, Failure>
    ensures { IfOk result (AfterHalt style halt.entry (texts W.contents E.contents to.old) (texts W.contents E.contents to.new)) }
{
    match halt {
        Halt::Refused(what, fault) => {
            print_refusal(&mut to.out, style, what, fault)?;
            Ok(Status::Refused)
        }
        Halt::Archive(subject, fault, name) => {
            print_explained(to, style, subject, fault, RefusalSentence::Archive(name))?;
            Ok(Status::Refused)
        }
        Halt::Unread(subject, path) => {
            let words = UnreadWords {
                subject,
                path,
                is_folder: loader.is_folder(path),
                folder: loader.folder(),
            };
            write_unread(&mut to.out, style, words)?;
            say(&mut to.err, style, &words)?;
            Ok(Status::Device)
        }
    }
}

/// Prints why there is no table, and returns the status of the run.
pub(crate) fn print_no_table<L: Loader, W: Write, E: Write>(
    to: &mut Streams<W, E>,
    style: RefusalStyle,
    no_table: &NoTable,
    loader: &L,
) -> Result<Status, Failure>
    ensures { IfOk result (AfterNoTable style no_table.now (texts W.contents E.contents to.old) (texts W.contents E.contents to.new)) }
{
    match no_table {
        NoTable::Halted(halt) => print_halt(to, style, *halt, loader),
        NoTable::Role(fault, row) => {
            let (number, role, file) = (fault.place, row.role.as_str(), row.file.as_str());
            let sentence = RefusalSentence::Role { number, role, file };
            print_explained(to, style, Subject::Manifest, *fault, sentence)?;
            Ok(Status::Refused)
        }
    }
}
