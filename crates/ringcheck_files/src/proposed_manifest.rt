//! Prints a manifest of files from a loader for a profile, or what each of them is, and why.

ghost use Rattle.std.specs.Prelude.{◌≡◌, ◌≤◌, ◌↔◌, ℕ, List, None, IfOk, IfSome, length, map, true, false};
ghost use Rattle.std.specs.List.{list_all, list_any};
ghost use Rattle.manifest.specs.Manifest.{is_control};
ghost use Rattle.ringcheck_files.specs.Containers.{container_sentence};
ghost use Rattle.ringcheck_files.specs.Outcomes.{HasCause, HasRisen};
ghost use Rattle.ringcheck_files.specs.ManifestStatus as folders;
ghost use Rattle.ringcheck_files.specs.ManifestStatus.{HasLoaded, HasAllLoaded, IsHeldStatus, IsProposalText, HasRisenBy, IsManifestStatus, count_unread, first_said, loaded_view, is_container, are_containers, is_unread, loaded_file, loaded_files, said_of};
ghost use Rattle.manifest.specs.declared.model.InputFile.{InputFile as TheNamed};

use crate::containers::Container;
use crate::loader::FILE_LIMIT;
use crate::outcomes::{Failure, refuse_word};
use crate::{LoadFault, Loader, Status};
use grid_units::{Profile, Reason};
use manifest::{FileContent, InputFile, is_archive, propose, write_proposal, write_reasons};
use std::alloc::{AllocError, Global};
use std::io::Write;

/// What is known of the bytes of a file.
#[derive(Drop)]
pub enum LoadedFile {
    Bytes(Vec<u8>),
    NotRead,
    /// It cannot be read, and its loader says that it is a folder.
    Folder,
    TooLong,
}

/// What is said of a name that may not stand in a manifest.
const NAME_SENTENCE: &str =
    "a file name must not be empty, or contain a line end, a tab or another control character";

/// Whether a name has a control byte: one below 0x20, or 0x7F.
fn has_control(name: &[u8]) -> bool
    ensures { result ≡ list_any is_control name.now }
{
    name.iter().any(|byte| *byte < 0x20 || *byte == 0x7F)
}

/// Whether a name may stand in a manifest: it is not empty and has no control byte.
fn is_entry_name(name: &str) -> bool
    ensures { result ≡ folders.is_entry_name name.now }
{
    !name.is_empty() && !has_control(name.as_bytes())
}

/// Whether all names may stand in a manifest.
fn are_entry_names(names: &[&str]) -> bool
    ensures { result ≡ list_all (λ name. folders.is_entry_name name.now) names.now }
{
    names.iter().all(|name| is_entry_name(name))
}

/// What the loader has under a name.
fn load_file<L: Loader>(alloc: Global, loader: &mut L, name: &str) -> Result<LoadedFile, AllocError>
    ensures keeps { (n b : List ℕ) → L.has loader.new n b ↔ L.has loader.old n b }
    ensures ok { IfOk result (λ loaded. HasLoaded (L.has loader.old) name.now (loaded_view loaded)) }
    ensures counts { L.failed loader.old ≤ L.failed loader.new }
    ensures unread { IfOk result (λ loaded. is_unread (loaded_view loaded) ≡ true → HasRisen (L.failed loader.old) (L.failed loader.new)) }
{
    match loader.load(alloc, name, FILE_LIMIT) {
        Ok(bytes) => Ok(LoadedFile::Bytes(bytes)),
        Err(LoadFault::Device) if loader.is_folder(name) => Ok(LoadedFile::Folder),
        Err(LoadFault::Device) => Ok(LoadedFile::NotRead),
        Err(LoadFault::TooLong) => Ok(LoadedFile::TooLong),
        Err(LoadFault::Memory) => Err(AllocError),
    }
}

/// What the loader has under each of these names, in order.
fn load_files<L: Loader>(
    alloc: Global,
    loader: &mut L,
    names: &[&str],
) -> Result<Vec<LoadedFile>, AllocError>
    ensures { IfOk result (λ loaded. HasAllLoaded (L.has loader.old) (loaded_files names.now loaded.items) × (length names.now ≡ length loaded.items)
        × HasRisenBy (count_unread (loaded_files names.now loaded.items)) (L.failed loader.old) (L.failed loader.new)) }
{
    let mut all = Vec::new(alloc);
    for name in names {
        let loaded = load_file(alloc, loader, name)?;
        all.push(loaded)?;
    }
    Ok(all)
}

/// A file by its name, with what is known of its bytes.
fn file_of<'a>(name: &'a str, loaded: &'a LoadedFile) -> InputFile<'a>
    ensures { loaded_file result ≡ (name.entry.now, loaded_view loaded.entry.now) }
{
    let content = match loaded {
        LoadedFile::Bytes(bytes) => FileContent::Bytes(bytes.as_slice()),
        LoadedFile::NotRead => FileContent::NotRead,
        LoadedFile::Folder => FileContent::Folder,
        LoadedFile::TooLong => FileContent::TooLong,
    };
    InputFile { name, content }
}

/// The files of these names, each with what is known of its bytes.
fn files_of<'a>(
    alloc: Global,
    names: &[&'a str],
    loaded: &'a [LoadedFile],
) -> Result<Vec<InputFile<'a>>, AllocError>
    requires { length names.now ≡ length loaded.now }
    ensures { IfOk result (λ files. map loaded_file files.items ≡ loaded_files names.now loaded.now) }
{
    let mut files = Vec::new(alloc);
    for (index, name) in names.iter().enumerate() {
        let file = file_of(*name, &loaded[index]);
        if files.push(file).is_err() {
            return Err(AllocError);
        }
    }
    Ok(files)
}

/// The manifest of these files for a profile, or the table of what each of them is, and why.
fn text_of(
    alloc: Global,
    profile: Profile,
    why: bool,
    files: &[InputFile<'_>],
) -> Result<Vec<u8>, AllocError>
    ensures { IfOk result (λ text. IsProposalText profile why files.now text.items) }
{
    let list = propose(alloc, profile, files)?;
    if why {
        write_reasons(alloc, list.as_slice())
    } else {
        write_proposal(alloc, list.as_slice())
    }
}

/// The manifest or the table of files that are at hand.
fn text_of_held(
    alloc: Global,
    profile: Profile,
    why: bool,
    names: &[&str],
    loaded: &[LoadedFile],
) -> Result<Vec<u8>, AllocError>
    requires { length names.now ≡ length loaded.now }
    ensures { IfOk result (λ text. (all : List TheNamed) × (map loaded_file all ≡ loaded_files names.now loaded.now) × IsProposalText profile why all text.items) }
{
    let files = files_of(alloc, names, loaded)?;
    text_of(alloc, profile, why, files.as_slice())
}

/// Whether this is a folder or a zip archive.
fn is_container(loaded: &LoadedFile) -> bool
    ensures { result ≡ is_container (loaded_view loaded.now) }
{
    match loaded {
        LoadedFile::Bytes(bytes) => is_archive(bytes.as_slice()),
        LoadedFile::Folder => true,
        LoadedFile::NotRead | LoadedFile::TooLong => false,
    }
}

/// Whether each of these is a folder or a zip archive.
fn are_containers(all: &[LoadedFile]) -> bool
    ensures { result ≡ list_all (λ one. is_container (loaded_view one)) all.now }
{
    all.iter().all(|loaded| is_container(loaded))
}

/// A folder or a zip archive by its name; none where there is neither.
fn container_of<'a>(name: &'a str, loaded: &LoadedFile) -> Option<Container<'a>>
    ensures none { result ≡ None → is_container (loaded_view loaded.now) ≡ false }
    ensures one { IfSome result (λ one. said_of (name.now, loaded_view loaded.now) ≡ container_sentence one) }
{
    match loaded {
        LoadedFile::Bytes(_) => Some(Container::Archive(name)),
        LoadedFile::Folder => Some(Container::Folder(name)),
        LoadedFile::NotRead | LoadedFile::TooLong => None,
    }
}

/// The first of some files as a folder or a zip archive, where there are some and each of them is one.
fn first_container<'a>(names: &[&'a str], loaded: &[LoadedFile]) -> Option<Container<'a>>
    requires { length names.now ≡ length loaded.now }
    ensures one { IfSome result (λ first. (are_containers (loaded_files names.now loaded.now) ≡ true) × (first_said (loaded_files names.now loaded.now) ≡ container_sentence first)) }
    ensures none { result ≡ None → are_containers (loaded_files names.now loaded.now) ≡ false }
{
    if !are_containers(loaded) {
        return None;
    }
    let (name, first) = (names.first()?, loaded.first()?);
    container_of(*name, first)
}

/// Prints a manifest of files that are at hand, or the table of what each of them is, and why. Where each of them is a folder or a zip
/// archive, there is nothing to propose, and the words are refused.
fn print_held<W: Write>(
    alloc: Global,
    profile: Profile,
    why: bool,
    names: &[&str],
    loaded: &[LoadedFile],
    out: &mut W,
) -> Result<Status, Failure>
    requires { length names.now ≡ length loaded.now }
    ensures says { IfOk result (IsHeldStatus profile why (loaded_files names.now loaded.now) (W.contents out.old) (W.contents out.new)) }
    ensures cause { (before after : ℕ) → IfOk result (HasCause before after) }
{
    let Some(first) = first_container(names, loaded) else {
        let text = text_of_held(alloc, profile, why, names, loaded)?;
        out.write_all(text.as_slice())?;
        return Ok(Status::Pass);
    };
    refuse_word(out, Reason::BadManifest)?;
    write!(out, "  {first}\n")?;
    Ok(Status::Usage)
}

/// Loads files and prints a manifest of them for a profile, or the table of what each of them is, and why. Words of which each names a folder or a zip
/// archive are refused.
///
/// # Errors
///
/// [`Failure::Memory`] where memory runs out, and [`Failure::Writer`] where the writer fails.
pub fn print_manifest<L: Loader, W: Write>(
    alloc: Global,
    profile: Profile,
    why: bool,
    names: &[&str],
    loader: &mut L,
    out: &mut W,
) -> Result<Status, Failure>
    ensures says { IfOk result (λ status. IsManifestStatus profile why (L.has loader.old) (L.failed loader.old) (L.failed loader.new) (map (λ name. name.now) names.now) (W.contents out.old) (W.contents out.new) status) }
    ensures cause { (before after : ℕ) → IfOk result (HasCause before after) }
{
    if !are_entry_names(names) {
        refuse_word(out, Reason::BadManifest)?;
        write!(out, "  {NAME_SENTENCE}\n")?;
        return Ok(Status::Usage);
    }
    let loaded = load_files(alloc, loader, names)?;
    print_held(alloc, profile, why, names, loaded.as_slice(), out)
}
