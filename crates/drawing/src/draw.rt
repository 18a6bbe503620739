//! The drawing of a board.

ghost use Rattle.std.specs.Prelude.{◌≡◌, Some, map, IfOk};
ghost use Rattle.drawing.specs.Pages.{IsDrawn, IsPage, drawing_text, findings_under, svg_text};

use crate::bounds::board_extent;
use crate::edge_bounds::with_edge;
use crate::layout::Layout;
use crate::page::{write_legend, write_page_start, write_scale, write_title};
use crate::page_layout::layout_of;
use crate::panels::{Panel, panels_of};
use board::Board;
use grid_units::{Lines, Rules};
use pad_shapes::Drawn;
use picture::shown_outline;
use ring_rules::Finding;
use std::alloc::{AllocError, Global};
use std::fmt;
use std::fmt::{Display, Formatter};

/// A board drawn as a page of SVG, which is what it prints: a title, a panel for each copper file with the findings under the rules, a
/// scale and a legend. Lengths are printed in millimetres.
#[derive(Drop)]
pub struct Drawing<'a> {
    /// Where its panels stand.
    layout: Layout,
    /// The rules, if there are any.
    rules: Option<Rules>,
    /// The number of findings on the board.
    count: usize,
    /// Its panels, one for each copper file.
    panels: Vec<Panel<'a>>,
}

/// The findings under the rules; none where there are no rules.
fn findings_under(
    alloc: Global,
    board: &Board,
    rules: &Option<Rules>,
) -> Result<Vec<Finding>, AllocError>
    ensures { IfOk result (λ findings. findings.items ≡ findings_under rules.now board.now) }
{
    match rules {
        Some(rules) => board.findings(alloc, *rules),
        None => Ok(Vec::new(alloc)),
    }
}

/// The contents of the page of a board, with the parts of its outline.
fn page_of<'a>(
    alloc: Global,
    names: &[&'a str],
    board: &'a Board,
    edge: &'a [Drawn],
    rules: Option<Rules>,
) -> Result<Drawing<'a>, AllocError>
    ensures { IfOk result (IsPage (map (λ name. name.now) names.now) board.now edge.now rules) }
{
    let findings = findings_under(alloc, board, &rules)?;
    let layers = board.layers(alloc)?;
    let extent = with_edge(board_extent(&layers, board), edge);
    let layout = layout_of(extent, board.layer_indexes().len(), &rules);
    let panels = panels_of(alloc, &layout, names, board, edge, &findings)?;
    Ok(Drawing {
        layout,
        rules,
        count: findings.len(),
        panels,
    })
}

impl<'a> Drawing<'a> {
    /// Draws a board, by the names of its files: a panel for each copper file, with the findings under the rules, and below the pads what
    /// the file draws, where the board has it. Without rules it has no findings. Each panel shows the outline of the board: the lines,
    /// arcs and contours of these parts, as thin lines below the pads, and the box of the panels also holds them. Nothing of an outline
    /// of more than 100,000 parts is drawn. All memory is taken here, for the contents of all panels; printing takes none.
    ///
    /// # Errors
    ///
    /// An `AllocError` when memory runs out.
    pub fn new(
        alloc: Global,
        names: &'a [&'a str],
        board: &'a Board,
        outline: &'a [Drawn],
        rules: Option<Rules>,
    ) -> Result<Drawing<'a>, AllocError>
        ensures { IfOk result (λ drawing. IsDrawn (map (λ name. name.now) names.now) board.now outline.now rules (drawing_text drawing)) }
    {
        page_of(alloc, names, board, shown_outline(outline), rules)
    }
}

/// The element `svg` of a drawing, without the XML declaration before it: as it may stand within a page of HTML.
#[derive(Clone, Copy)]
pub struct Svg<'a>(pub &'a Drawing<'a>);

impl Display for Svg<'_> {
    ghost output = { λ svg. Some (svg_text svg.0.now) };

    fn fmt<W: fmt::Write>(&self, f: &mut Formatter<W>) -> fmt::Result {
        let drawing = self.0;
        let panels = Lines {
            page: &drawing.layout,
            lines: &drawing.panels,
        };
        write_page_start(f, &drawing.layout)?;
        write_title(f, &drawing.layout, &drawing.rules, drawing.count)?;
        write!(f, "{panels}")?;
        write_scale(f, &drawing.layout)?;
        write_legend(f, &drawing.layout)
    }
}

impl Display for Drawing<'_> {
    ghost output = { λ drawing. Some (drawing_text drawing) };

    fn fmt<W: fmt::Write>(&self, f: &mut Formatter<W>) -> fmt::Result {
        write!(
            f,
            "<?xml version=\"1.0\" encoding=\"UTF-8\"?>\n{}",
            Svg(self)
        )
    }
}
