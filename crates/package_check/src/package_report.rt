// The report on what the files of a package say.
ghost use Rattle.std.specs.Prelude.{◌≡◌, ◌<◌, List, Some, IfOk, length, slice_get};
ghost use Rattle.board.specs.declared.FileSum.{FileSum as TheFileSum};
ghost use Rattle.board.specs.Boards.{CountsAddUp, numbered_from};
ghost use Rattle.package_check.specs.Inner.Leftovers.{AreFileStarts};

use crate::{FileSum, Numbered, hole_count};
use grid_units::Rules;
use ring_rules::{Drilled, Finding};
use std::alloc::{AllocError, Global};
use std::marker::Model;

/// The report of a check: its rules, the files, the holes, and what it found.
#[derive(Drop)]
pub struct Report {
    rules: Rules,
    files: Vec<FileSum>,
    layers: Vec<usize>,
    holes: Vec<Drilled>,
    /// For each file the place of its first hole in the list of all holes.
    starts: Vec<usize>,
    findings: Vec<Finding>,
}

impl Model for Report {
    ghost use Rattle.board.specs.Boards.{numbered_from};
    ghost use Rattle.package_check.specs.Inner.Leftovers.{AreFileStarts};
    ghost use Rattle.package_check.specs.Reports.{ReportView};

    ghost Value = { ReportView };

    ghost view = { λ r. record { rules = r.rules; files = r.files.items; layers = r.layers.items; holes = numbered_from 0 r.files.items r.holes.items; findings = r.findings.items } };

    ghost invariant = { λ r. AreFileStarts r.files.items r.holes.items r.starts.items };
}

impl Report {
    /// The rules of the check.
    pub fn rules(&self) -> Rules
        ensures { result ≡ self.now.rules }
    {
        self.rules
    }

    /// The counts of each file, in the order of the files.
    pub fn files(&self) -> &[FileSum]
        ensures { result.now ≡ self.now.files }
    {
        &self.files
    }

    /// The index of each copper file among all files, from 0.
    pub fn layers(&self) -> &[usize]
        ensures { result.now ≡ self.now.layers }
    {
        &self.layers
    }

    /// The hole at a place in the list of the holes of all drill files, from 0, with its file and its number there.
    pub fn hole(&self, place: usize) -> Option<Numbered>
        ensures { result ≡ slice_get self.now.holes place }
    {
        if self.holes.len() <= place {
            return None;
        }
        Some(numbered(&self.starts, &self.holes, place))
    }

    /// The findings: rings that are lacking, layer by layer, then gaps.
    pub fn findings(&self) -> &[Finding]
        ensures { result.now ≡ self.now.findings }
    {
        &self.findings
    }
}

/// The hole at a place with its file and its number there. A file without holes starts where the next one does, so the hole's own file
/// is the last that starts at the place or before it.
fn numbered(starts: &[usize], holes: &[Drilled], place: usize) -> Numbered
    requires starts { (files : List TheFileSum) × AreFileStarts files holes.now starts.now }
    requires place { place < length holes.now }
    ensures { (files : List TheFileSum) → AreFileStarts files holes.now starts.now → Some result ≡ slice_get (numbered_from 0 files holes.now) place }
{
    let file = starts.partition_point(|start| *start <= place) - 1;
    Numbered {
        file,
        number: place - starts[file] + 1,
        drilled: holes[place],
    }
}

/// For each file the place of its first hole in the list of all holes.
fn starts_of(alloc: Global, files: &[FileSum], holes: &[Drilled]) -> Result<Vec<usize>, AllocError>
    requires { CountsAddUp files.now holes.now }
    ensures { IfOk result (λ starts. AreFileStarts files.now holes.now starts.items) }
{
    let mut starts = Vec::with_capacity(alloc, files.len())?;
    let mut start = 0;
    for file in files {
        starts.push(start)?;
        start += hole_count(file, holes.len() - start);
    }
    Ok(starts)
}

/// The report of these rules, files, layers, holes and findings.
pub(crate) fn report_of(
    alloc: Global,
    rules: Rules,
    files: Vec<FileSum>,
    layers: Vec<usize>,
    holes: Vec<Drilled>,
    findings: Vec<Finding>,
) -> Result<Report, AllocError>
    requires { CountsAddUp files.items holes.items }
    ensures { IfOk result (λ report. report ≡ record { rules = rules; files = files.items; layers = layers.items; holes = numbered_from 0 files.items holes.items; findings = findings.items }) }
{
    let starts = starts_of(alloc, &files, &holes)?;
    Ok(Report {
        rules,
        files,
        layers,
        holes,
        starts,
        findings,
    })
}
