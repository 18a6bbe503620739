//! The rows of the tool table: one for each layer, drill file and diameter at which holes need a ring.

ghost use Rattle.std.specs.Prelude.{◌≡◌, map, Some};
ghost use Rattle.std.specs.Fmt.{DisplaysOnOk};
ghost use Rattle.picture.specs.Escapes.{escaped_name};
ghost use Rattle.grid_units.specs.HoleWords.{name_of};
ghost use Rattle.report_page.specs.Pages.{lacks_ring, least_words, mark_words, tool_counts, tool_end, tool_row, tool_start};

use grid_units::{Line, Rules, ShortMillimetres, name_of};
use picture::Escaped;
use report::{LeastRing, RingLine};
use std::fmt;
use std::fmt::{Display, Formatter};

/// What the rows of a tool table share: the names of the files of the package, and the rules.
#[derive(Clone, Copy)]
pub(crate) struct ToolTable<'a> {
    pub(crate) names: &'a [&'a str],
    pub(crate) rules: &'a Rules,
}

/// Whether some holes lack the ring of a rule, in pm: one of them has no pad that counts, or their smallest ring is below the rule.
fn lacks_ring(rule: i64, bare: usize, least: Option<LeastRing>) -> bool
    ensures { result ≡ lacks_ring rule bare least }
{
    match least {
        Some(least) => bare != 0 || least.ring < rule,
        None => bare != 0,
    }
}

/// The mark of such holes; nothing where each hole has the ring of the rule.
#[tactic(auto, unfolding(crate::specs::Pages::mark_words))]
fn mark_words(rule: i64, bare: usize, least: Option<LeastRing>) -> &'static str
    ensures { result.now ≡ mark_words rule bare least }
{
    if lacks_ring(rule, bare, least) {
        "below the rule"
    } else {
        ""
    }
}

/// The smallest ring of the holes that lie in a pad: a length, or `none`.
#[derive(Clone, Copy)]
struct LeastCell(Option<LeastRing>);

impl Display for LeastCell {
    ghost output = { λ words. Some (least_words words.0) };

    fn fmt<W: fmt::Write>(&self, f: &mut Formatter<W>) -> fmt::Result {
        match self.0 {
            Some(least) => write!(f, "{}", ShortMillimetres(least.ring)),
            None => f.write_str("none"),
        }
    }
}

/// Writes the start of a row: the layer, the drill file, and the diameter of the holes.
#[tactic(auto, unfolding(crate::specs::Pages::tool_start))]
fn write_start<W: fmt::Write>(f: &mut Formatter<W>, names: &[&str], line: &RingLine) -> fmt::Result
    ensures { DisplaysOnOk W.write_str_gives f.old result (Some (tool_start (escaped_name (name_of (map (λ name. name.now) names.now) line.now.layer)) (escaped_name (name_of (map (λ name. name.now) names.now) line.now.drill)) line.now.diameter)) f.new }
{
    let layer = Escaped(name_of(names, line.layer));
    let drill = Escaped(name_of(names, line.drill));
    let diameter = ShortMillimetres(line.diameter);
    write!(
        f,
        "<tr><th scope=\"row\">{layer}</th><td>{drill}</td><td>{diameter}</td><td>"
    )
}

/// Writes how many holes there are, and how many of them have no pad that counts.
#[tactic(auto, unfolding(crate::specs::Pages::tool_counts))]
fn write_counts<W: fmt::Write>(f: &mut Formatter<W>, holes: usize, bare: usize) -> fmt::Result
    ensures { DisplaysOnOk W.write_str_gives f.old result (Some (tool_counts holes bare)) f.new }
{
    write!(f, "{holes}</td><td>{bare}</td><td>")
}

/// Writes the end of a row: the smallest ring, the rule for it in pm, and the mark of holes that lack it.
#[tactic(auto, unfolding(crate::specs::Pages::tool_end))]
fn write_end<W: fmt::Write>(f: &mut Formatter<W>, rule: i64, line: &RingLine) -> fmt::Result
    ensures { DisplaysOnOk W.write_str_gives f.old result (Some (tool_end (least_words line.now.least) rule (mark_words rule line.now.bare line.now.least))) f.new }
{
    let (least, length) = (LeastCell(line.least), ShortMillimetres(rule));
    let mark = mark_words(rule, line.bare, line.least);
    write!(f, "{least}</td><td>{length}</td><td>{mark}</td></tr>\n")
}

/// The row of the holes of one drill file and diameter on one layer.
impl Line<ToolTable<'_>> for RingLine {
    ghost text = { λ table line. tool_row (map (λ name. name.now) table.names.now) table.rules.now line };

    fn fmt_on<W: fmt::Write>(&self, page: &ToolTable<'_>, f: &mut Formatter<W>) -> fmt::Result {
        write_start(f, page.names, self)?;
        write_counts(f, self.holes, self.bare)?;
        write_end(f, page.rules.ring(), self)
    }
}
