//! Measures a package: by how much it meets its rules.

ghost use Rattle.std.specs.Prelude.{◌≡◌, List, Some, IfOk, OnOk, map};
ghost use Rattle.std.specs.Io.KnownBytes.{Appends};
ghost use Rattle.package_check.specs.Boards.{IsBoard};
ghost use Rattle.package_check.specs.Package.{FileView};
ghost use Rattle.ringcheck.specs.MeasureStatus.{PrintsMeasure, measure_page, profile_line};

use crate::parsed_words::{MeasureFormat, MeasureOrder};
use board_report::measure_board;
use grid_units::Profile;
use package_check::laws::measured_passes;
use package_check::{Board, FileLines};
use print_json::MeasureJson;
use print_text::MeasureText;
use report::Measure;
use ringcheck_files::Failure;
use std::alloc::Global;
use std::fmt;
use std::fmt::{Display, Formatter};
use std::io::Write;

/// The line of a profile that is not the strict one.
#[derive(Clone, Copy)]
struct ProfileLine(Profile);

impl Display for ProfileLine {
    ghost output = { λ line. Some (profile_line line.0) };

    fn fmt<W: fmt::Write>(&self, f: &mut Formatter<W>) -> fmt::Result {
        match self.0 {
            Profile::Strict => Ok(()),
            Profile::Wide => f.write_str("profile wide\n"),
        }
    }
}

/// Prints the measure of a board, whose files have these names, in the format that is asked for.
fn print<W: Write>(
    names: &[&str],
    board: &Board,
    measure: &Measure,
    order: MeasureOrder,
    out: &mut W,
) -> Result<(), Failure>
    ensures { OnOk result (Appends (W.contents out.old) (W.contents out.new) (measure_page order (map (λ name. name.now) names.now) board.now measure.now)) }
{
    let files = FileLines {
        profile: order.profile,
        names,
        files: board.files(),
    };
    let lines = MeasureText {
        rings: measure.rings.as_slice(),
        scales: measure.scales.as_slice(),
        gap: measure.gap,
        meets: measure.meets,
    };
    let json = MeasureJson {
        profile: order.profile,
        names,
        board,
        measure,
    };
    match order.format {
        MeasureFormat::Text => write!(out, "{}{files}{lines}", ProfileLine(order.profile))?,
        MeasureFormat::Json => write!(out, "{json}")?,
    }
    Ok(())
}

/// Measures the board of the files of these names in the profile that is asked for, and prints the measure. It always passes.
pub(crate) fn measure<W: Write>(
    alloc: Global,
    board: &Board,
    names: &[&str],
    order: MeasureOrder,
    out: &mut W,
) -> Result<bool, Failure>
    ensures { (all : List FileView) → map (λ name. name.now) names.now ≡ map (λ source. source.name) all → IsBoard all board.now
        → IfOk result (λ passes. PrintsMeasure order (W.contents out.old) (W.contents out.new) passes all) }
{
    measured_passes();
    let measure = measure_board(alloc, board, order.profile)?;
    print(names, board, &measure, order, out)?;
    Ok(true)
}
