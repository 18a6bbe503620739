//! The file of waivers of all findings, with empty reasons.

ghost use Rattle.std.specs.Prelude.{Some, map};
ghost use Rattle.waivers.specs.Findings.{finding_record, findings_text, gap_fields, ring_fields};

use crate::findings::{Fields, Page};
use grid_units::{Line, Lines};
use report::{BoardReport, GapLack, RingLack};
use std::fmt;
use std::fmt::{Display, Formatter};

/// What the records of findings share.
#[derive(Clone, Copy)]
struct Records<'a>(Page<'a>);

/// The record of a hole that lacks its ring, with an empty reason.
impl Line<Records<'_>> for RingLack {
    ghost text = { λ page lack. finding_record (ring_fields (map (λ name. name.now) page.0.names.now) page.0.layers.now lack) };

    fn fmt_on<W: fmt::Write>(&self, page: &Records<'_>, f: &mut Formatter<W>) -> fmt::Result {
        let page = &page.0;
        write!(f, "{},\n", Fields { page, one: self })
    }
}

/// The record of two holes that lack their gap, with an empty reason.
impl Line<Records<'_>> for GapLack {
    ghost text = { λ page lack. finding_record (gap_fields (map (λ name. name.now) page.0.names.now) lack) };

    fn fmt_on<W: fmt::Write>(&self, page: &Records<'_>, f: &mut Formatter<W>) -> fmt::Result {
        let page = &page.0;
        write!(f, "{},\n", Fields { page, one: self })
    }
}

/// All findings of a report as a file of waivers with empty reasons: the head `kind,layer,hole,and,has,why`, and a record of each
/// finding, such as `ring,top,"pth, 0.4 at 0,0",,0.124999,`.
#[derive(Clone, Copy)]
pub struct WaiverText<'a> {
    /// The names of the package's files.
    pub names: &'a [&'a str],
    /// The report.
    pub report: &'a BoardReport,
}

impl Display for WaiverText<'_> {
    ghost output = { λ text. Some (findings_text (map (λ name. name.now) text.names.now) text.report.now) };

    fn fmt<W: fmt::Write>(&self, f: &mut Formatter<W>) -> fmt::Result {
        let page = Records(Page {
            names: self.names,
            layers: self.report.layers.as_slice(),
        });
        let rings = Lines {
            page: &page,
            lines: self.report.rings.as_slice(),
        };
        let gaps = Lines {
            page: &page,
            lines: self.report.gaps.as_slice(),
        };
        write!(f, "kind,layer,hole,and,has,why\n{rings}{gaps}")
    }
}
