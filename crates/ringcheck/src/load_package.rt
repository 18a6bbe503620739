//! The manifest, the waivers and the files of a package, from a loader.

ghost use Rattle.std.specs.Prelude.{◌≡◌, ◌++◌, ◌≤◌, ◌↔◌, ℕ, List, length, map, slice_get, true, IfOk, IfSome, Result, Some};
ghost use Rattle.grid_units.specs.Results.{Answers};
ghost use Rattle.grid_units.specs.declared.fault.Fault.{Fault as TheFault};
ghost use Rattle.grid_units.specs.declared.profile.Profile.{Profile as TheProfile};
ghost use Rattle.manifest.specs.Manifest.{manifest_in};
ghost use Rattle.package_check.specs.Holding.{is_kind, setting_of};
ghost use Rattle.package_check.specs.Package.{is_copper};
ghost use Rattle.ringcheck_files.specs.Outcomes.{HasRisen};
ghost use Rattle.ringcheck.specs.Inner.Halting.{IsOfPath, OfFiles, OfRead, OfTable};
ghost use Rattle.ringcheck.specs.Inner.Loading.{EndsAt, IsHashedReport, IsKeptBoard, LoadsKind, OfCheckedCopper, OfCheckedFile, OfHandedFile, OfTakenFile, copper_entries};
ghost use Rattle.waivers.specs.Reading.{waivers};

use crate::digests::{Digest, FileHasher};
use crate::refusals::{Halt, NoTable, Subject, refused_table};
use crate::{Entry, LoadFault, Loader, PackageFault, PackageReader, Report, Role};
use grid_units::{Fail, Profile, Rules};
use manifest::read_manifest_in;
use package_check::{Board, Keep, OpenCopper, OpenFile, PackageCheck};
use ringcheck_files::{ABOVE_LIMIT, FILE_LIMIT, Failure, Sink};
use std::alloc::{AllocError, Global};
use waivers::{Waiver, read_waivers};

/// The most bytes of a manifest, and of a file of waivers.
const MANIFEST_LIMIT: u64 = 1_048_576;

/// What a row of a table is read as: an entry of a manifest, or a waiver.
pub(crate) trait Row: Sized {
    /// The rows of a table by its text, or the fault of the text, where the package is read in this profile.
    ghost rows: { TheProfile → List ℕ → Result (List Self) TheFault };

    /// The rows of a table by its text, where the package is read in this profile.
    ///
    /// # Errors
    ///
    /// The fault of the text; `Memory` where memory runs out.
    fn read(alloc: Global, profile: Profile, text: &[u8]) -> Result<Vec<Self>, Fail>
        ensures { Answers (λ read. read.items) (λ answer. answer ≡ rows profile text.now) result };
}

impl Row for Entry {
    ghost rows = { manifest_in };

    fn read(alloc: Global, profile: Profile, text: &[u8]) -> Result<Vec<Entry>, Fail> {
        read_manifest_in(alloc, profile, text)
    }
}

impl Row for Waiver {
    ghost rows = { λ profile. waivers };

    fn read(alloc: Global, _profile: Profile, text: &[u8]) -> Result<Vec<Waiver>, Fail> {
        read_waivers(alloc, text)
    }
}

/// The rows of a table, and its text.
#[derive(Drop)]
pub(crate) struct LoadedTable<R> {
    pub(crate) rows: Vec<R>,
    pub(crate) text: Vec<u8>,
}

/// The table under a name, which is this subject of a refusal, where the package is read in this profile.
pub(crate) fn load_table<'a, L: Loader, R: Row + Drop>(
    alloc: Global,
    profile: Profile,
    loader: &mut L,
    name: &'a str,
    subject: Subject<'a>,
) -> Result<Result<LoadedTable<R>, NoTable<'a>>, Failure>
    ensures keeps { (n b : List ℕ) → L.has loader.new n b → L.has loader.old n b }
    ensures counts { L.failed loader.old ≤ L.failed loader.new }
    ensures loaded { IfOk result (OfTable (R.rows profile) (L.has loader.old) name.now subject.entry (HasRisen (L.failed loader.old) (L.failed loader.new))) }
{
    match loader.load(alloc, name, MANIFEST_LIMIT) {
        Ok(text) => match R::read(alloc, profile, text.as_slice()) {
            Ok(rows) => Ok(Ok(LoadedTable { rows, text })),
            Err(Fail::Memory) => Err(Failure::Memory),
            Err(Fail::Refused(fault)) => {
                let no_table = refused_table(alloc, subject, fault, name, text.as_slice())?;
                Ok(Err(no_table))
            }
        },
        Err(LoadFault::Device) => Ok(Err(NoTable::Halted(Halt::Unread(subject, name)))),
        Err(LoadFault::Memory) => Err(Failure::Memory),
        Err(LoadFault::TooLong) => Ok(Err(NoTable::Halted(Halt::Refused(subject, ABOVE_LIMIT)))),
    }
}

fn is_copper(role: Role) -> bool
    ensures { result ≡ is_copper role }
{
    matches!(role, Role::Copper)
}

/// Whether this is the role of a copper file, or of a drill file, as `copper` says.
fn is_kind(role: Role, copper: bool) -> bool
    ensures { result ≡ is_kind copper role }
{
    is_copper(role) == copper
}

fn layer_count(entries: &[Entry]) -> usize
    ensures { result ≡ copper_entries entries.now }
{
    entries.iter().filter(|entry| is_copper(entry.role)).count()
}

/// Hands the file of an entry at this index to a sink, piece by piece; or returns why it cannot be loaded. A file that cannot be read was
/// looked for by its name on the disk.
fn hand_file<'a, L: Loader, S: Sink>(
    alloc: Global,
    loader: &mut L,
    index: usize,
    entry: &'a Entry,
    sink: &mut S,
) -> Result<Option<Halt<'a>>, Failure>
    ensures keeps { (n b : List ℕ) → L.has loader.new n b ↔ L.has loader.old n b }
    ensures counts { L.failed loader.old ≤ L.failed loader.new }
    ensures path { IfOk result (λ halted. IfSome halted (IsOfPath entry.now.file)) }
    ensures loaded { IfOk result (OfHandedFile (L.has loader.old) index entry.now (λ bytes. (start : S) (text : List ℕ) → S.has_taken start sink.old text → S.has_taken start sink.new (text ++ bytes)) (HasRisen (L.failed loader.old) (L.failed loader.new))) }
{
    let (name, path) = (entry.name.as_str(), entry.file.as_str());
    let file = Subject::File { index, name };
    match loader.load_into(alloc, path, FILE_LIMIT, sink) {
        Ok(()) => Ok(None),
        Err(LoadFault::Device) => Ok(Some(Halt::Unread(file, path))),
        Err(LoadFault::Memory) => Err(Failure::Memory),
        Err(LoadFault::TooLong) => Ok(Some(Halt::Refused(file, ABOVE_LIMIT))),
    }
}

/// A file of a package that takes its bytes from a loader.
#[derive(Drop)]
struct FileSink {
    file: OpenFile,
    hasher: FileHasher,
}

impl Sink for FileSink {
    ghost use Rattle.ringcheck.specs.Inner.Digests.{HashesOn};
    ghost use Rattle.ringcheck.specs.Inner.Loading.{GoesOn};

    ghost has_taken = { λ start now text. GoesOn start.file now.file text × HashesOn start.hasher now.hasher text };

    fn take(&mut self, piece: &[u8]) -> Result<(), AllocError> {
        self.hasher.take(piece);
        self.file.take(piece)
    }
}

/// Loads the file of an entry at this index, and hands it to the reader as it is loaded; or returns why the file cannot be loaded. Its digest
/// goes to its place, if there is one.
fn take_file<'a, L: Loader>(
    alloc: Global,
    loader: &mut L,
    index: usize,
    entry: &'a Entry,
    reader: &mut PackageReader,
    digests: &mut [Digest],
) -> Result<Option<Halt<'a>>, Failure>
    ensures keeps { (n b : List ℕ) → L.has loader.new n b ↔ L.has loader.old n b }
    ensures counts { L.failed loader.old ≤ L.failed loader.new }
    ensures setting { setting_of reader.new ≡ setting_of reader.old }
    ensures taken { IfOk result (OfTakenFile (L.has loader.old) reader.old reader.new digests.old digests.new index entry.now (HasRisen (L.failed loader.old) (L.failed loader.new))) }
{
    let file = reader.begin(index, entry.role, entry.said);
    let hasher = FileHasher::of(digests, index);
    let mut sink = FileSink { file, hasher };
    match hand_file(alloc, loader, index, entry, &mut sink) {
        Ok(None) => {
            let FileSink { file, hasher } = sink;
            hasher.put(digests, index);
            reader.end(file)?;
            Ok(None)
        }
        halted => {
            drop(sink);
            halted
        }
    }
}

/// How far the files of some entries were gone through.
#[derive(Clone, Copy)]
struct Pass<'a> {
    /// The index of the first file that cannot be loaded; the number of the entries where there is none.
    end: usize,
    /// Why that file cannot be loaded.
    halt: Option<Halt<'a>>,
}

/// Hands the files that are copper, or those that are not, as `copper` says, to the reader, up to the first that cannot be loaded.
fn take_kind<'a, L: Loader>(
    alloc: Global,
    loader: &mut L,
    entries: &'a [Entry],
    copper: bool,
    reader: &mut PackageReader,
    digests: &mut [Digest],
) -> Result<Pass<'a>, Failure>
    ensures keeps { (n b : List ℕ) → L.has loader.new n b ↔ L.has loader.old n b }
    ensures counts { L.failed loader.old ≤ L.failed loader.new }
    ensures setting { setting_of reader.new ≡ setting_of reader.old }
    ensures within { IfOk result (λ pass. pass.end ≤ length entries.now) }
    ensures ends { IfOk result (λ pass. EndsAt (L.has loader.old) entries.now (HasRisen (L.failed loader.old) (L.failed loader.new)) pass.end pass.halt) }
    ensures loaded { IfOk result (λ pass. LoadsKind (L.has loader.old) entries.now reader.old reader.new digests.old digests.new copper pass.end) }
{
    for (index, entry) in entries.iter().enumerate() {
        if is_kind(entry.role, copper) {
            if let Some(halt) = take_file(alloc, loader, index, entry, reader, digests)? {
                return Ok(Pass {
                    end: index,
                    halt: Some(halt),
                });
            }
        }
    }
    Ok(Pass {
        end: entries.len(),
        halt: None,
    })
}

/// The name of the file of the entry at an index, as the package has it; empty where there is none.
fn name_at(entries: &[Entry], index: usize) -> &str
    ensures { (name : List ℕ) → slice_get (map (λ entry. entry.name) entries.now) index ≡ Some name → result.now ≡ name }
{
    match entries.get(index) {
        Some(entry) => entry.name.as_str(),
        None => "",
    }
}

/// What was read of the files of these entries, or the refusal of the first of them that is refused.
fn read_of<'a, T>(
    entries: &'a [Entry],
    read: Result<T, PackageFault>,
) -> Result<Result<T, Halt<'a>>, Failure>
    ensures { IfOk result (OfRead entries.now read) }
{
    match read {
        Ok(it) => Ok(Ok(it)),
        Err(PackageFault::Memory) => Err(Failure::Memory),
        Err(PackageFault::File { index, fault }) => {
            let name = name_at(entries, index);
            Ok(Err(Halt::Refused(Subject::File { index, name }, fault)))
        }
    }
}

/// The board of the files of the entries in a profile, with this kept of them. The drill files are loaded before the copper files. After a
/// file that cannot be loaded only those before it are loaded: the answer is the first, in the order of the entries, that cannot be.
pub(crate) fn load_board<'a, L: Loader>(
    alloc: Global,
    profile: Profile,
    keep: Keep,
    loader: &mut L,
    entries: &'a [Entry],
) -> Result<Result<Board, Halt<'a>>, Failure>
    ensures { IfOk result (OfFiles (L.has loader.old) profile entries.now (HasRisen (L.failed loader.old) (L.failed loader.new)) (IsKeptBoard keep)) }
{
    let mut reader = PackageReader::keeping(alloc, layer_count(entries), profile, keep);
    let digests: &mut [Digest] = &mut [];
    let drills = take_kind(alloc, loader, entries, false, &mut reader, digests)?;
    let first = &entries[..drills.end];
    let copper = take_kind(alloc, loader, first, true, &mut reader, digests)?;
    if let Some(halt) = copper.halt.or(drills.halt) {
        return Ok(Err(halt));
    }
    read_of(entries, reader.board())
}

/// A check, and its copper file that takes its bytes from a loader.
#[derive(Drop)]
struct CheckSink {
    check: PackageCheck,
    file: OpenCopper,
    hasher: FileHasher,
}

impl Sink for CheckSink {
    ghost use Rattle.ringcheck.specs.Inner.Digests.{HashesOn};
    ghost use Rattle.ringcheck.specs.Inner.Loading.{CopperGoesOn};

    ghost has_taken = { λ start now text. CopperGoesOn start now text × HashesOn start.hasher now.hasher text };

    fn take(&mut self, piece: &[u8]) -> Result<(), AllocError> {
        self.hasher.take(piece);
        self.check.take_piece(&mut self.file, piece)
    }
}

/// Hands the copper file of an entry at this index to the check, as the layer of this number; or returns why it cannot be loaded.
fn check_file<'a, L: Loader>(
    alloc: Global,
    loader: &mut L,
    index: usize,
    layer: usize,
    entry: &'a Entry,
    mut check: PackageCheck,
    digests: &mut [Digest],
) -> Result<Result<PackageCheck, Halt<'a>>, Failure>
    ensures keeps { (n b : List ℕ) → L.has loader.new n b ↔ L.has loader.old n b }
    ensures counts { L.failed loader.old ≤ L.failed loader.new }
    ensures taken { is_copper entry.now.role ≡ true → IfOk result (OfCheckedFile (L.has loader.old) check digests.old digests.new index layer entry.now (HasRisen (L.failed loader.old) (L.failed loader.new))) }
{
    let file = check.begin(index, layer, entry.said);
    let hasher = FileHasher::of(digests, index);
    let mut sink = CheckSink {
        check,
        file,
        hasher,
    };
    match hand_file(alloc, loader, index, entry, &mut sink) {
        Ok(None) => {
            let CheckSink {
                mut check,
                file,
                hasher,
            } = sink;
            hasher.put(digests, index);
            check.end(file)?;
            Ok(Ok(check))
        }
        Ok(Some(halt)) => {
            drop(sink);
            Ok(Err(halt))
        }
        Err(failure) => {
            drop(sink);
            Err(failure)
        }
    }
}

/// Loads the copper files, and hands each to the check as it is loaded; or returns why the first that cannot be loaded cannot be.
fn check_copper<'a, L: Loader>(
    alloc: Global,
    loader: &mut L,
    entries: &'a [Entry],
    mut check: PackageCheck,
    digests: &mut [Digest],
) -> Result<Result<PackageCheck, Halt<'a>>, Failure>
    ensures keeps { (n b : List ℕ) → L.has loader.new n b ↔ L.has loader.old n b }
    ensures counts { L.failed loader.old ≤ L.failed loader.new }
    ensures taken { IfOk result (OfCheckedCopper (L.has loader.old) entries.now check digests.old digests.new (HasRisen (L.failed loader.old) (L.failed loader.new))) }
{
    let mut layer = 0;
    for (index, entry) in entries.iter().enumerate() {
        if is_copper(entry.role) {
            match check_file(alloc, loader, index, layer, entry, check, digests)? {
                Ok(checked) => check = checked,
                Err(halt) => return Ok(Err(halt)),
            }
            layer += 1;
        }
    }
    Ok(Ok(check))
}

/// The report of a check of the files of the entries in the profile of its rules, the drill files before the copper files. As in
/// [`load_board`], the first file that cannot be loaded is the answer. The digest of each file goes to its place, where there are places.
pub(crate) fn check_files<'a, L: Loader>(
    alloc: Global,
    rules: Rules,
    loader: &mut L,
    entries: &'a [Entry],
    digests: &mut [Digest],
) -> Result<Result<Report, Halt<'a>>, Failure>
    ensures { IfOk result (OfFiles (L.has loader.old) rules.profile entries.now (HasRisen (L.failed loader.old) (L.failed loader.new)) (IsHashedReport rules digests.new)) }
{
    let mut reader = PackageReader::new(alloc, layer_count(entries), rules.profile());
    let drills = take_kind(alloc, loader, entries, false, &mut reader, digests)?;
    if let Some(halt) = drills.halt {
        let first = &entries[..drills.end];
        let before = take_kind(alloc, loader, first, true, &mut reader, digests);
        drop(reader);
        return Ok(Err(before?.halt.unwrap_or(halt)));
    }
    let check = reader.checking(rules)?;
    match check_copper(alloc, loader, entries, check, digests)? {
        Ok(check) => read_of(entries, check.finish()),
        Err(halt) => Ok(Err(halt)),
    }
}
