//! The check of a package, whose files are there whole or come in pieces.

ghost use Rattle.std.specs.Prelude.{◌≡◌, ℕ, [], count_by, true, Result, IfOk, OnOk};
ghost use Rattle.grid_units.specs.declared.fault.Fault.{Fault as TheFault};
ghost use Rattle.layer_features.specs.Kept.{keeps_drawn, keeps_rows};
ghost use Rattle.package_check.specs.Boards.{IsBoard, IsDrawnBoard, IsFlashedBoard, Returns};
ghost use Rattle.grid_units.specs.declared.profile.Profile.{Profile as TheProfile};
ghost use Rattle.package_check.specs.Package.{ReturnsExactly, ReturnsReport, IsAnswer, NamesItsPlaces, is_copper, layer_count, file_views_in, pieced_file_views, views_in};
ghost use Rattle.package_check.specs.Reports.{ReportView};
ghost use Rattle.package_check.specs.Soundness.{IsSound};
ghost use Rattle.package_check.specs.SoundnessAsRead.{AreLegal};
ghost use Rattle.package_check.specs.Checking.{HasJudgedAll, JudgesThose};
ghost use Rattle.package_check.specs.Holding.{HasTakenAll, TakesThose, is_kind_at, setting_of};

use crate::contents::{is_copper, is_kind};
use crate::source_file::SourceFile;
use crate::{Board, File, Keep, PackageCheck, PackageFault, PackageReader, PiecedFile, Report};
use grid_units::{Profile, Rules};
use std::alloc::{AllocError, Global};

/// How many of some files are copper.
pub fn layer_count(files: &[File]) -> usize
    ensures { result ≡ layer_count files.now }
{
    copper_count(files)
}

/// How many of some files, whole or in pieces, are copper.
fn copper_count<S: SourceFile>(files: &[S]) -> usize
    ensures { result ≡ count_by (λ file. is_copper (S.role_of file)) files.now }
{
    files.iter().filter(|file| is_copper(file.role())).count()
}

/// Takes those of the files that are copper, or those that are not, as `copper` says.
fn take_kind<S: SourceFile>(
    reader: &mut PackageReader,
    files: &[S],
    copper: bool,
) -> Result<(), AllocError>
    ensures takes { (profile : TheProfile) → setting_of reader.old ≡ record { layers = count_by (λ file. is_copper (S.role_of file)) files.now; profile = profile } → OnOk result (TakesThose reader.old reader.new (views_in S.seen S.role_of profile files.now) (is_kind_at copper (views_in S.seen S.role_of profile files.now))) }
    ensures setting { setting_of reader.new ≡ setting_of reader.old }
{
    for (index, file) in files.iter().enumerate() {
        if is_kind(file.role(), copper) {
            file.give(reader, index)?;
        }
    }
    Ok(())
}

/// A reader that has taken the files: the drill files first, then the copper files.
fn reader_of(
    alloc: Global,
    profile: Profile,
    files: &[File],
    keep: Keep,
) -> Result<PackageReader, AllocError>
    ensures { IfOk result (λ reader. HasTakenAll reader keep (file_views_in profile files.now)) }
{
    let mut reader = PackageReader::keeping(alloc, layer_count(files), profile, keep);
    take_kind(&mut reader, files, false)?;
    take_kind(&mut reader, files, true)?;
    Ok(reader)
}

/// Has the check take the copper files.
fn take_copper<S: SourceFile>(check: &mut PackageCheck, files: &[S]) -> Result<(), AllocError>
    ensures { check.old.layers ≡ count_by (λ file. is_copper (S.role_of file)) files.now → OnOk result (JudgesThose check.old check.new (views_in S.seen S.role_of check.old.rules.profile files.now) (is_kind_at true (views_in S.seen S.role_of check.old.rules.profile files.now))) }
{
    let mut layer = 0;
    for (index, file) in files.iter().enumerate() {
        if is_copper(file.role()) {
            file.give_copper(check, index, layer)?;
            layer += 1;
        }
    }
    Ok(())
}

/// A check that has taken the files: the drill files first, then the copper files.
fn check_of<S: SourceFile>(
    alloc: Global,
    files: &[S],
    rules: Rules,
) -> Result<PackageCheck, AllocError>
    ensures { IfOk result (λ check. HasJudgedAll check (views_in S.seen S.role_of rules.profile files.now) rules) }
{
    let mut reader = PackageReader::new(alloc, copper_count(files), rules.profile());
    take_kind(&mut reader, files, false)?;
    let mut check = reader.checking(rules)?;
    take_copper(&mut check, files)?;
    Ok(check)
}

/// The report on the files in the profile of the rules. Where it has no finding, each plated hole, round or a slot, lies with
/// its ring in one pad of each copper layer of its file's span, and no points of two holes are nearer than the gap. In the
/// strict profile the pads are flashes of standard apertures, and no plated slot through a copper layer is oblique.
///
/// # Errors
///
/// The first file that is refused, by its index, with its fault; `Memory` where there is no memory.
pub fn check_bytes(alloc: Global, files: &[File], rules: Rules) -> Result<Report, PackageFault>
    ensures exact { ReturnsReport (file_views_in rules.profile files.now) rules result }
    ensures only { (answer : Result ReportView (ℕ × TheFault)) → IsAnswer (file_views_in rules.profile files.now) rules answer → ReturnsExactly answer result }
    ensures places { IfOk result NamesItsPlaces }
    ensures legal { IfOk result (λ report. AreLegal (file_views_in rules.profile files.now)) }
    ensures sound { IfOk result (λ report. report.findings ≡ [] → IsSound (file_views_in rules.profile files.now) rules) }
{
    match check_of(alloc, files, rules) {
        Ok(check) => check.finish(),
        Err(_) => Err(PackageFault::Memory),
    }
}

/// The report of [`check_bytes`] on files whose bytes come in pieces. The pieces are never joined in memory.
///
/// # Errors
///
/// As those of [`check_bytes`].
pub fn check_pieces(
    alloc: Global,
    files: &[PiecedFile],
    rules: Rules,
) -> Result<Report, PackageFault>
    ensures exact { ReturnsReport (pieced_file_views rules.profile files.now) rules result }
    ensures only { (answer : Result ReportView (ℕ × TheFault)) → IsAnswer (pieced_file_views rules.profile files.now) rules answer → ReturnsExactly answer result }
    ensures places { IfOk result NamesItsPlaces }
    ensures legal { IfOk result (λ report. AreLegal (pieced_file_views rules.profile files.now)) }
    ensures sound { IfOk result (λ report. report.findings ≡ [] → IsSound (pieced_file_views rules.profile files.now) rules) }
{
    match check_of(alloc, files, rules) {
        Ok(check) => check.finish(),
        Err(_) => Err(PackageFault::Memory),
    }
}

/// The board of the files in a profile: what all of them say together, with the flashes of copper files and what these draw where `keep` keeps them.
///
/// # Errors
///
/// As those of [`check_bytes`].
pub fn read_package(
    alloc: Global,
    profile: Profile,
    files: &[File],
    keep: Keep,
) -> Result<Board, PackageFault>
    ensures exact { Returns IsBoard (file_views_in profile files.now) result }
    ensures flashes { keeps_rows keep ≡ true → Returns IsFlashedBoard (file_views_in profile files.now) result }
    ensures drawn { keeps_drawn keep ≡ true → Returns IsDrawnBoard (file_views_in profile files.now) result }
{
    match reader_of(alloc, profile, files, keep) {
        Ok(reader) => reader.board(),
        Err(_) => Err(PackageFault::Memory),
    }
}
