//! The page.

ghost use Rattle.std.specs.Prelude.{◌≡◌, Some, map, IfOk};
ghost use Rattle.std.specs.Fmt.{DisplaysOnOk};
ghost use Rattle.drawing.specs.Pages.{svg_text};
ghost use Rattle.report_page.specs.Pages.{IsHtmlPage, conflict_warning, finding_count, head_text, layer_button, page_text, picture_text, tables_text};

use crate::files::FilesText;
use crate::frame::{
    BEFORE_RULES, BEFORE_SCRIPT, BEFORE_STYLE, BODY, CAPTION, COLUMNS, END, FIGURE, HEAD,
    TOOL_COLUMNS, TOOLS,
};
use crate::particulars::ParticularsText;
use crate::rows::Rows;
use crate::script::SCRIPT;
use crate::style::STYLE;
use crate::tools::ToolTable;
use crate::verdict::{CountWords, Verdict};
use board::{Board, FileSum};
use board_report::measure_board;
use drawing::{Drawing, Svg};
use grid_units::{Line, Lines, name_of};
use pad_shapes::Drawn;
use picture::Escaped;
use print_text::Particulars;
use report::{
    Acceptances, BoardReport, LayerHead, RingLine, RoleConflict, conflict_words, count_waived,
};
use std::alloc::{AllocError, Global};
use std::fmt;
use std::fmt::{Display, Formatter};

/// The names of the files of the package.
#[derive(Clone, Copy)]
struct PageNames<'a>(&'a [&'a str]);

/// The button of a layer.
impl Line<PageNames<'_>> for LayerHead {
    ghost text = { λ names head. layer_button (map (λ name. name.now) names.0.now) head };

    #[tactic(auto, unfolding(crate::specs::Pages::button))]
    fn fmt_on<W: fmt::Write>(&self, page: &PageNames<'_>, f: &mut Formatter<W>) -> fmt::Result {
        let name = Escaped(name_of(page.0, self.file));
        let number = self.file.saturating_add(1);
        write!(
            f,
            "<button type=\"button\" aria-pressed=\"true\" data-file=\"{number}\">{name}</button>\n"
        )
    }
}

/// The warning of a drill file whose own comments contradict its role, and what comes before the next paragraph.
impl Line<PageNames<'_>> for RoleConflict {
    ghost text = { λ names line. conflict_warning (map (λ name. name.now) names.0.now) line };

    #[tactic(auto, unfolding(print_text::specs::Texts::warning_words))]
    fn fmt_on<W: fmt::Write>(&self, page: &PageNames<'_>, f: &mut Formatter<W>) -> fmt::Result {
        let name = Escaped(name_of(page.0, self.drill));
        write!(
            f,
            "warning: {name}: {}</p>\n<p>",
            conflict_words(self.plated)
        )
    }
}

/// The number of findings of a report.
fn finding_count(report: &BoardReport) -> u128
    ensures { result ≡ finding_count report.now }
{
    report.rings.len() as u128 + report.gaps.len() as u128
}

/// Writes the head of a page: its title, its style, the verdict, the warnings, the particulars, the files and what a pass promises.
fn write_head<W: fmt::Write>(
    f: &mut Formatter<W>,
    names: &[&str],
    files: &[FileSum],
    report: &BoardReport,
    about: &Particulars,
    verdict: &Verdict,
) -> fmt::Result
    ensures { DisplaysOnOk W.write_str_gives f.old result (Some (head_text (map (λ name. name.now) names.now) about.now files.now report.now.conflicts.items report.now.rules verdict.now.findings verdict.now.waived)) f.new }
{
    let warnings = Lines {
        page: &PageNames(names),
        lines: &report.conflicts,
    };
    write!(f, "{HEAD}{verdict}{BEFORE_STYLE}{STYLE}{BODY}")?;
    write!(f, "{verdict}{BEFORE_RULES}{warnings}")?;
    let particulars = ParticularsText {
        about,
        rules: &report.rules,
        findings: verdict.findings,
    };
    let files = FilesText {
        profile: report.rules.profile(),
        names,
        files,
    };
    write!(f, "{particulars}{files}")
}

/// Writes the picture: the buttons of the layers, and the drawing.
fn write_picture<W: fmt::Write>(
    f: &mut Formatter<W>,
    names: &[&str],
    layers: &[LayerHead],
    drawing: &Drawing,
) -> fmt::Result
    ensures { DisplaysOnOk W.write_str_gives f.old result (Some (picture_text (map (λ name. name.now) names.now) layers.now (svg_text drawing.now))) f.new }
{
    let buttons = Lines {
        page: &PageNames(names),
        lines: layers,
    };
    write!(f, "{TOOLS}{buttons}{FIGURE}{}", Svg(drawing))
}

/// Writes the table of the findings, the tool table, and the script.
fn write_tables<W: fmt::Write>(f: &mut Formatter<W>, rows: &Rows, tools: &[RingLine]) -> fmt::Result
    ensures { DisplaysOnOk W.write_str_gives f.old result (Some (tables_text (map (λ name. name.now) rows.now.names.now) rows.now.report.now rows.now.accepted.now.rings.now rows.now.accepted.now.gaps.now tools.now)) f.new }
{
    let count = CountWords(finding_count(rows.report));
    write!(f, "{CAPTION}{count}{COLUMNS}{rows}")?;
    let table = ToolTable {
        names: rows.names,
        rules: &rows.report.rules,
    };
    let tools = Lines {
        page: &table,
        lines: tools,
    };
    write!(f, "{TOOL_COLUMNS}{tools}{BEFORE_SCRIPT}{SCRIPT}{END}")
}

/// A report as one page of HTML, which is what it prints: the verdict and the particulars of the report, its files and what a pass promises, the picture of the board with buttons for its layers,
/// a table with a row for each finding, and the tool table: a row for each layer, drill file and diameter at which holes need a ring, with
/// their smallest ring. The page loads nothing. Each row of a finding links to its marker, whose id is `f` and its number. Lengths are printed
/// in millimetres.
#[derive(Drop)]
pub struct HtmlReport<'a> {
    names: &'a [&'a str],
    about: &'a Particulars<'a>,
    files: &'a [FileSum],
    report: &'a BoardReport,
    accepted: &'a Acceptances<'a>,
    tools: Vec<RingLine>,
    drawing: Drawing<'a>,
}

impl<'a> HtmlReport<'a> {
    /// The page of a report on a board, with the reasons why findings are waived. `names` are those of the package's files, and `about` says on
    /// which manifest the report is, by which program, and how many findings the wide profile does not have. The board is measured here, in the
    /// profile of the report. All memory is taken here, for that and for the drawing of the board under the rules of the report, with the outline
    /// that these parts draw; printing takes none.
    ///
    /// # Errors
    ///
    /// An `AllocError` when memory runs out.
    pub fn new(
        alloc: Global,
        names: &'a [&'a str],
        about: &'a Particulars<'a>,
        board: &'a Board,
        outline: &'a [Drawn],
        report: &'a BoardReport,
        accepted: &'a Acceptances<'a>,
    ) -> Result<HtmlReport<'a>, AllocError>
        ensures { IfOk result (λ page. IsHtmlPage (map (λ name. name.now) names.now) about.now board.now outline.now report.now accepted.now (page_text page)) }
    {
        let measure = measure_board(alloc, board, report.rules.profile())?;
        let drawing = Drawing::new(alloc, names, board, outline, Some(report.rules))?;
        let files = board.files();
        Ok(HtmlReport {
            names,
            about,
            files,
            report,
            accepted,
            tools: measure.rings,
            drawing,
        })
    }
}

impl Display for HtmlReport<'_> {
    ghost output = { λ page. Some (page_text page) };

    fn fmt<W: fmt::Write>(&self, f: &mut Formatter<W>) -> fmt::Result {
        let verdict = Verdict {
            findings: finding_count(self.report),
            waived: count_waived(self.report, self.accepted),
        };
        let rows = Rows {
            names: self.names,
            report: self.report,
            accepted: self.accepted,
        };
        write_head(f, self.names, self.files, self.report, self.about, &verdict)?;
        write_picture(f, self.names, &self.report.layers, &self.drawing)?;
        write_tables(f, &rows, &self.tools)
    }
}
