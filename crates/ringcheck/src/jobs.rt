//! What is done with the package of a manifest.

ghost use Rattle.std.specs.Prelude.{◌≡◌};
ghost use Rattle.ringcheck.specs.Inner.Jobs.{board_keep, board_profile, board_style, job_profile, job_style};
ghost use Rattle.ringcheck.specs.ReportStatus.{kept_for, report_style};

use crate::parsed_words::{MeasureFormat, MeasureOrder, ReportFormat};
use crate::refusals::RefusalStyle;
use grid_units::{Profile, Rules};
use package_check::Keep;
use print_text::Drilling;
use waivers::Waiver;

/// What a report is asked for.
#[derive(Drop)]
pub(crate) struct Order {
    /// The ring and the gap to check, in pm.
    pub(crate) rules: Rules,
    /// How holes may be drilled, where the report is asked what that leaves of the rules.
    pub(crate) drilling: Option<Drilling>,
    /// The most findings that a text shows; it shows all of them where there is no limit.
    pub(crate) limit: Option<usize>,
    pub(crate) format: ReportFormat,
    /// The waivers of the file that was named, if one was named.
    pub(crate) waivers: Option<Vec<Waiver>>,
}

/// What is done with the board of a package.
#[derive(Drop)]
pub(crate) enum BoardJob {
    /// It is measured, and the measure is printed.
    Measure(MeasureOrder),
    /// A report on its findings is printed.
    Report(Order),
    /// Its picture is printed: the files are read in this profile, and findings are drawn under these rules, if there are any.
    Draw(Profile, Option<Rules>),
}

/// What is done with a package.
#[derive(Drop)]
pub(crate) enum Job {
    /// It is checked under these rules.
    Check(Rules),
    /// It is checked under these rules, and its certificate is printed, or compared with this text, if there is one.
    Certify(Rules, Option<Vec<u8>>),
    /// It is read whole, as a board.
    Board(BoardJob),
}

/// How a refusal is printed in place of a report in this format.
pub(crate) fn report_style(format: ReportFormat) -> RefusalStyle
    ensures { result ≡ report_style format }
{
    match format {
        ReportFormat::Text => RefusalStyle::Page,
        ReportFormat::Json => RefusalStyle::Json,
        ReportFormat::Html | ReportFormat::Waivers => RefusalStyle::Line,
    }
}

/// What is kept of the files for a report in this format.
pub(crate) fn kept_for(format: ReportFormat) -> Keep
    ensures { result ≡ kept_for format }
{
    match format {
        ReportFormat::Html => Keep::RowsAndDrawn,
        ReportFormat::Text | ReportFormat::Json | ReportFormat::Waivers => Keep::Rows,
    }
}

impl BoardJob {
    /// The profile in which the files of the board are read.
    pub(crate) fn profile(&self) -> Profile
        ensures { result ≡ board_profile self.now }
    {
        match self {
            BoardJob::Measure(order) => order.profile,
            BoardJob::Report(order) => order.rules.profile(),
            BoardJob::Draw(profile, _) => *profile,
        }
    }

    /// What is kept of the files of the board.
    pub(crate) fn keep(&self) -> Keep
        ensures { result ≡ board_keep self.now }
    {
        match self {
            BoardJob::Measure(_) => Keep::Pads,
            BoardJob::Report(order) => kept_for(order.format),
            BoardJob::Draw(..) => Keep::RowsAndDrawn,
        }
    }

    /// How a refusal is printed in its place.
    fn style(&self) -> RefusalStyle
        ensures { result ≡ board_style self.now }
    {
        match self {
            BoardJob::Measure(order) => match order.format {
                MeasureFormat::Text => RefusalStyle::Page,
                MeasureFormat::Json => RefusalStyle::Json,
            },
            BoardJob::Report(order) => report_style(order.format),
            BoardJob::Draw(..) => RefusalStyle::Line,
        }
    }
}

impl Job {
    /// The profile in which the package is read.
    pub(crate) fn profile(&self) -> Profile
        ensures { result ≡ job_profile self.now }
    {
        match self {
            Job::Check(rules) | Job::Certify(rules, _) => rules.profile(),
            Job::Board(job) => job.profile(),
        }
    }

    /// How a refusal is printed in its place.
    pub(crate) fn style(&self) -> RefusalStyle
        ensures { result ≡ job_style self.now }
    {
        match self {
            Job::Check(_) | Job::Certify(..) => RefusalStyle::Line,
            Job::Board(job) => job.style(),
        }
    }
}
