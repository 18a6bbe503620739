//! The measure of a package.

ghost use Rattle.std.specs.Prelude.{ℕ, Result, IfOk};
ghost use Rattle.grid_units.specs.Holes.{GridRules};
ghost use Rattle.grid_units.specs.declared.fault.Fault.{Fault as TheFault};
ghost use Rattle.package_check.specs.Measures.{AnswersMeasure, PackagePasses, RefusesAlike};
ghost use Rattle.package_check.specs.Package.{IsAnswer, file_views_in};
ghost use Rattle.package_check.specs.Reports.{ReportView};

use crate::laws::{measured_passes, unique_answer};
use crate::{File, Keep, PackageFault, read_package};
use board_report::measure_board;
use grid_units::Profile;
use report::Measure;
use std::alloc::Global;

fn measure_files(alloc: Global, profile: Profile, files: &[File]) -> Result<Measure, PackageFault>
    ensures { AnswersMeasure profile (file_views_in profile files.now) result }
{
    match read_package(alloc, profile, files, Keep::Pads) {
        Ok(board) => match measure_board(alloc, &board, profile) {
            Ok(measure) => Ok(measure),
            Err(_) => Err(PackageFault::Memory),
        },
        Err(fault) => Err(fault),
    }
}

/// The measure of the package of these files in a profile. A check of them in that profile has no findings under just the rules that it
/// allows: a ring of 0 or more, and a gap of 1 pm or more.
///
/// # Errors
///
/// As those of [`crate::check_bytes`] on these files, whatever its rules are: the first file that is refused, by its index,
/// with its fault; `Memory` when memory runs out.
pub fn measure_bytes(
    alloc: Global,
    profile: Profile,
    files: &[File],
) -> Result<Measure, PackageFault>
    ensures exact { AnswersMeasure profile (file_views_in profile files.now) result }
    ensures same { (rules : GridRules) (answer : Result ReportView (ℕ × TheFault)) → IsAnswer (file_views_in profile files.now) rules answer → RefusesAlike answer result }
    ensures passes { IfOk result (λ measure. PackagePasses profile (file_views_in profile files.now) measure.meets.ring measure.meets.gap) }
{
    unique_answer();
    measured_passes();
    measure_files(alloc, profile, files)
}
