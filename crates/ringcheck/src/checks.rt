//! Checks a package, or draws it.

ghost use Rattle.std.specs.Prelude.{◌≡◌, List, IfOk, map};
ghost use Rattle.grid_units.specs.Holes.{GridRules};
ghost use Rattle.package_check.specs.Boards.{IsDrawnBoard};
ghost use Rattle.package_check.specs.Package.{FileView};
ghost use Rattle.ringcheck.specs.Inner.Loading.{IsCheckReport};
ghost use Rattle.ringcheck.specs.CheckStatus.{Checks};
ghost use Rattle.ringcheck.specs.DrawStatus.{PrintsPicture};
ghost use Rattle.ringcheck.specs.RewrittenPackages.{RewritingKeepsAnswers};

use crate::{CheckText, Report};
use drawing::Drawing;
use grid_units::Rules;
use package_check::Board;
use package_check::laws::passing_is_sound;
use pad_shapes::Drawn;
use ringcheck_files::Failure;
use std::alloc::Global;
use std::io::Write;

/// Prints the report of a check of the files of these names, and returns whether it has no finding.
pub(crate) fn check<W: Write>(report: &Report, names: &[&str], out: &mut W) -> Result<bool, Failure>
    ensures { (all : List FileView) (rules : GridRules) → map (λ name. name.now) names.now ≡ map (λ source. source.name) all → IsCheckReport rules report.now all
        → IfOk result (λ passes. Checks rules (W.contents out.old) (W.contents out.new) passes all) }
{
    write!(out, "{}", CheckText { names, report })?;
    Ok(report.findings().is_empty())
}

/// Prints the picture of the board of the files of these names, with an outline of these parts and what is found under the rules, if there
/// are any. It always passes.
pub(crate) fn draw<W: Write>(
    alloc: Global,
    board: &Board,
    names: &[&str],
    rules: Option<Rules>,
    outline: &[Drawn],
    out: &mut W,
) -> Result<bool, Failure>
    ensures { (all : List FileView) → map (λ name. name.now) names.now ≡ map (λ source. source.name) all → IsDrawnBoard all board.now
        → IfOk result (λ passes. PrintsPicture rules outline.now (W.contents out.old) (W.contents out.new) passes all) }
{
    passing_is_sound();
    let drawing = Drawing::new(alloc, names, board, outline, rules)?;
    write!(out, "{drawing}")?;
    Ok(true)
}

/// A package in which any files are rewritten, each by the kind of text of its role, has the same answer in each profile. Mixed files, and in
/// the wide profile unplated ones that say that holes are plated, are left as they are.
pub fn rewriting_keeps_answers()
    ensures { RewritingKeepsAnswers }
{
    layer_image::readings_in_profiles();
    layer_image::strict_layers();
    drill_text::laws::unique_reading();
    drill_text::laws::readings_of_kinds();
    drill_text::laws::unplated_files();
    drill_text::laws::wide_reads_more();
    drill_text::laws::drill_texts();
    ringcheck_files::laws::keeps_commands();
    package_check::laws::same_answers();
}
