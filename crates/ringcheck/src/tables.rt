//! The table of one file, or a manifest of some, in the profile that a word names.

ghost use Rattle.std.specs.Prelude.{IfOk, map};
ghost use Rattle.ringcheck_files.specs.FileStatus.{parse_kind};
ghost use Rattle.ringcheck_files.specs.Outcomes.{HasCause};
ghost use Rattle.ringcheck_files.specs.Writers.{texts};
ghost use Rattle.ringcheck.specs.ParsedWords as named;
ghost use Rattle.ringcheck.specs.ParsedWords.{word_bytes};
ghost use Rattle.ringcheck.specs.Sentences.{profile_sentence};
ghost use Rattle.ringcheck.specs.ManifestStatus.{IsParsedManifestStatus};
ghost use Rattle.ringcheck.specs.ShowStatus.{IsParsedShowStatus};

use crate::Loader;
use crate::parsed_words::profile_of;
use crate::sentences::{NoProfile, refuse};
use grid_units::Reason;
use ringcheck_files::{Failure, FileJob, Status, Streams, print, print_manifest};
use std::alloc::Global;
use std::io::Write;

/// Prints the table of a file of the kind that a word names, read in the profile that another one names. The profile is read first.
pub(crate) fn show<L: Loader, W: Write, E: Write>(
    alloc: Global,
    kind: &str,
    profile: Option<&str>,
    name: &str,
    loader: &mut L,
    to: &mut Streams<W, E>,
) -> Result<Status, Failure>
    ensures says { IfOk result (IsParsedShowStatus (named.profile_of (word_bytes profile.entry)) (profile_sentence (word_bytes profile.entry)) (parse_kind kind.now) (L.has loader.old) name.now (texts W.contents E.contents to.old) (texts W.contents E.contents to.new)) }
    ensures cause { IfOk result (HasCause (L.failed loader.old) (L.failed loader.new)) }
{
    match profile_of(profile) {
        Some(profile) => print(alloc, FileJob::Show(profile), kind, name, loader, to),
        None => refuse(to, true, Reason::BadRole, &NoProfile(profile)),
    }
}

/// Prints a manifest of files for the profile that a word names, or the table of what each of them is, and why.
pub(crate) fn manifest<L: Loader, W: Write, E: Write>(
    alloc: Global,
    profile: Option<&str>,
    why: bool,
    files: &[&str],
    loader: &mut L,
    to: &mut Streams<W, E>,
) -> Result<Status, Failure>
    ensures says { IfOk result (IsParsedManifestStatus (named.profile_of (word_bytes profile.entry)) (profile_sentence (word_bytes profile.entry)) why (L.has loader.old) (L.failed loader.old) (L.failed loader.new) (map (λ file. file.now) files.now) (texts W.contents E.contents to.old) (texts W.contents E.contents to.new)) }
    ensures cause { IfOk result (HasCause (L.failed loader.old) (L.failed loader.new)) }
{
    match profile_of(profile) {
        Some(profile) => print_manifest(alloc, profile, why, files, loader, &mut to.out),
        None => refuse(to, true, Reason::BadRole, &NoProfile(profile)),
    }
}
