//! The text of a page before and after the panels.

ghost use Rattle.std.specs.Prelude.{Some};
ghost use Rattle.std.specs.Fmt.{DisplaysOnOk};
ghost use Rattle.drawing.specs.Pages.{legend, page_start, scale, title, title_words};

use crate::layout::Layout;
use crate::words::{
    legend, style, write_bar, write_found, write_length, write_rules, write_sizes,
    write_text_start, write_view,
};
use grid_units::Rules;
use std::fmt;
use std::fmt::Formatter;

/// Writes the start of a page: that of the element `svg`, and the style.
pub(crate) fn write_page_start<W: fmt::Write>(f: &mut Formatter<W>, layout: &Layout) -> fmt::Result
    ensures { DisplaysOnOk W.write_str_gives f.old result (Some (page_start layout.now)) f.new }
{
    let (width, height) = (layout.width(), layout.height());
    f.write_str("<svg xmlns=\"http://www.w3.org/2000/svg\" font-family=\"sans-serif\"")?;
    write_sizes(
        f,
        5 * layout.pen.unit / 4,
        layout.pixels(width),
        layout.pixels(height),
    )?;
    write_view(f, width, height)?;
    f.write_str(style())
}

/// Writes the rules and the number of findings, or `no rules`.
fn write_title_words<W: fmt::Write>(
    f: &mut Formatter<W>,
    rules: &Option<Rules>,
    count: usize,
) -> fmt::Result
    ensures { DisplaysOnOk W.write_str_gives f.old result (Some (title_words rules.now count)) f.new }
{
    match rules {
        Some(rules) => {
            let (ring, gap) = (rules.ring().unsigned_abs(), rules.gap().unsigned_abs());
            write_rules(f, ring, gap, rules.profile())?;
            write_found(f, count)
        }
        None => f.write_str("no rules"),
    }
}

/// Writes the title.
pub(crate) fn write_title<W: fmt::Write>(
    f: &mut Formatter<W>,
    layout: &Layout,
    rules: &Option<Rules>,
    count: usize,
) -> fmt::Result
    ensures { DisplaysOnOk W.write_str_gives f.old result (Some (title layout.now rules.now count)) f.new }
{
    let unit = layout.pen.unit;
    let words = "<text class=\"title\" transform=\"translate(";
    write_text_start(f, words, 3 * unit, 3 * unit, unit)?;
    write_title_words(f, rules, count)?;
    f.write_str("</text>\n")
}

/// Writes the scale.
pub(crate) fn write_scale<W: fmt::Write>(f: &mut Formatter<W>, layout: &Layout) -> fmt::Result
    ensures { DisplaysOnOk W.write_str_gives f.old result (Some (scale layout.now)) f.new }
{
    let (unit, end, bar) = (layout.pen.unit, layout.boxes_end(), layout.bar);
    let (x, y) = (4 * unit + bar, end + 17 * unit / 5);
    write_bar(f, 3 * unit, end + 3 * unit, bar)?;
    write_text_start(f, "<text transform=\"translate(", x, y, unit)?;
    write_length(f, bar)
}

/// Writes the legend and the end of the page.
pub(crate) fn write_legend<W: fmt::Write>(f: &mut Formatter<W>, layout: &Layout) -> fmt::Result
    ensures { DisplaysOnOk W.write_str_gives f.old result (Some (legend layout.now)) f.new }
{
    let (unit, end) = (layout.pen.unit, layout.boxes_end());
    let words = "<g class=\"legend\" font-size=\"1.25\" transform=\"translate(";
    write_text_start(f, words, 4 * unit, end + 6 * unit, unit)?;
    f.write_str(legend())
}
