//! The text of a report.

ghost use Rattle.std.specs.Prelude.{◌≡◌, IfOk, Some, length, map};
ghost use Rattle.grid_units.specs.declared.profile.Profile.{Profile as TheProfile};
ghost use Rattle.package_check.specs.Package.{file_views_in};
ghost use Rattle.package_check.specs.Texts.{report_text, text_of};

use crate::lines::{write_last, write_rules};
use crate::{File, FileLines, Report};
use grid_units::Lines;
use std::alloc::{AllocError, Global};
use std::fmt;
use std::fmt::{Display, Formatter};

/// The text of a report on files of these names: the rules, the files, the findings, and the last line. Lengths are printed in
/// millimetres with nine decimals.
#[derive(Clone, Copy)]
pub struct CheckText<'a> {
    /// The names of the files.
    pub names: &'a [&'a str],
    /// The report on them.
    pub report: &'a Report,
}

impl Display for CheckText<'_> {
    ghost output = { λ text. Some (text_of (map (λ name. name.now) text.names.now) text.report.now) };

    fn fmt<W: fmt::Write>(&self, f: &mut Formatter<W>) -> fmt::Result {
        let (names, report) = (self.names, self.report);
        let (rules, found) = (report.rules(), report.findings());
        let files = FileLines {
            profile: rules.profile(),
            names,
            files: report.files(),
        };
        let findings = Lines {
            page: report,
            lines: found,
        };
        write_rules(f, rules)?;
        write!(f, "{files}{findings}")?;
        write_last(f, found.len())
    }
}

/// The names of files.
fn names_of<'a>(alloc: Global, files: &'a [File]) -> Result<Vec<&'a str>, AllocError>
    ensures { IfOk result (λ names. map (λ name. name.now) names.items ≡ map (λ file. file.name.now) files.now) }
{
    let mut names = Vec::new(alloc);
    for file in files {
        names.push(file.name)?;
    }
    Ok(names)
}

/// The bytes of the text of a report.
fn bytes_of<'a>(
    alloc: Global,
    names: &'a [&'a str],
    report: &'a Report,
) -> Result<Vec<u8>, AllocError>
    ensures { IfOk result (λ text. text.items ≡ text_of (map (λ name. name.now) names.now) report.now) }
{
    let text = format!(in alloc; "{}", CheckText { names, report })?;
    Ok(text.into_bytes())
}

/// The text of a report on these files.
///
/// # Errors
///
/// An `AllocError` where there is no memory for it.
pub fn write_report(alloc: Global, files: &[File], report: &Report) -> Result<Vec<u8>, AllocError>
    requires { length files.now ≡ length report.now.files }
    ensures { (profile : TheProfile) → IfOk result (λ text. text.items ≡ report_text (file_views_in profile files.now) report.now) }
{
    let names = names_of(alloc, files)?;
    bytes_of(alloc, names.as_slice(), report)
}
