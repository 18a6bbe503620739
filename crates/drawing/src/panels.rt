//! The panels of a board.

ghost use Rattle.std.specs.Prelude.{◌≡◌, ◌==◌, ◌++◌, ◌∷◌, ◌-ℤ◌, ◌+ℤ◌, [], pos, get_or, map, IfOk, OnOk};
ghost use Rattle.std.specs.List.{AllZip, enumerate_from};
ghost use Rattle.drawing.specs.Pages.{IsPanel, IsScene, number_of, text_of_panel};
ghost use Rattle.drawing.specs.Layouts.{box_left, box_top};

use crate::layout::Layout;
use board::Board;
use grid_units::{Line, name_of};
use pad_shapes::Drawn;
use picture::{LayerCopper, Place, Scene, scene_of};
use ring_rules::{Drilled, Finding};
use std::alloc::{AllocError, Global};
use std::fmt;
use std::fmt::Formatter;

/// A panel: where it is on the page, and its contents.
#[derive(Drop)]
pub(crate) struct Panel<'a> {
    /// Its place on the page, and the number and name of its file.
    pub(crate) place: Place<'a>,
    /// What its layer draws, the outline of the board, pads, crosses, holes and findings.
    pub(crate) scene: Scene<'a>,
}

/// A panel on a page with this layout.
impl Line<Layout> for Panel<'_> {
    ghost text = { text_of_panel };

    fn fmt_on<W: fmt::Write>(&self, layout: &Layout, f: &mut Formatter<W>) -> fmt::Result {
        let panel = picture::Panel {
            place: &self.place,
            frame: &layout.frame,
            pen: &layout.pen,
            scene: &self.scene,
        };
        write!(f, "{panel}")
    }
}

/// The place of a layer's panel, by the layer's place among the copper files and the index of its file.
fn place_of<'a>(layout: &Layout, names: &[&'a str], layer: usize, file: usize) -> Place<'a>
    ensures file { result.file ≡ number_of file }
    ensures name { result.name.now ≡ get_or (map (λ name. name.now) names.now) file [] }
    ensures first { result.first ≡ (layer == 0) }
    ensures x { result.x ≡ pos (box_left layout.now layer) -ℤ layout.now.frame.left }
    ensures y { result.y ≡ pos (box_top layout.now layer) +ℤ layout.now.frame.top }
{
    Place {
        file: file.saturating_add(1),
        name: name_of(names, file),
        first: layer == 0,
        x: layout.box_left(layer) as i64 - layout.frame.left,
        y: layout.box_top(layer) as i64 + layout.frame.top,
    }
}

/// The contents of a layer's panel.
fn scene_on<'a>(
    alloc: Global,
    layer: usize,
    copper: LayerCopper<'a>,
    edge: &'a [Drawn],
    holes: &'a [Drilled],
    findings: &[Finding],
) -> Result<Scene<'a>, AllocError>
    ensures { IfOk result (IsScene layer copper.entry.rows.now copper.entry.pads.now copper.entry.drawn.now edge.now holes.now findings.now) }
{
    scene_of(alloc, layer, copper, edge, holes, findings)
}

/// The panel of a layer, by its place among the copper files and the index of its file, with the parts of the board's outline.
fn panel_of<'a>(
    alloc: Global,
    layout: &Layout,
    names: &[&'a str],
    board: &'a Board,
    edge: &'a [Drawn],
    findings: &[Finding],
    at: (usize, usize),
) -> Result<Panel<'a>, AllocError>
    ensures { IfOk result (IsPanel (map (λ name. name.now) names.now) board.now edge.now findings.now layout.now at) }
{
    let (layer, file) = at;
    let copper = LayerCopper {
        rows: board.rows_of(file),
        pads: board.pads_of(layer),
        drawn: board.drawn_of(file),
    };
    let scene = scene_on(alloc, layer, copper, edge, board.holes(), findings)?;
    Ok(Panel {
        place: place_of(layout, names, layer, file),
        scene,
    })
}

fn add<'a>(panels: &mut Vec<Panel<'a>>, panel: Panel<'a>) -> Result<(), AllocError>
    ensures { OnOk result (panels.new.items ≡ panels.old.items ++ panel.entry ∷ []) }
{
    if panels.push(panel).is_err() {
        return Err(AllocError);
    }
    Ok(())
}

/// The panels of a board, one for each copper file, with the parts of the board's outline.
///
/// # Errors
///
/// An `AllocError` when memory runs out.
pub(crate) fn panels_of<'a>(
    alloc: Global,
    layout: &Layout,
    names: &[&'a str],
    board: &'a Board,
    edge: &'a [Drawn],
    findings: &[Finding],
) -> Result<Vec<Panel<'a>>, AllocError>
    ensures { IfOk result (λ panels. AllZip (IsPanel (map (λ name. name.now) names.now) board.now edge.now findings.now layout.now) (enumerate_from 0 board.now.layer_indexes) panels.items) }
{
    let files = board.layer_indexes();
    let mut panels = Vec::new(alloc);
    for layer in 0..files.len() {
        let at = (layer, files[layer]);
        let panel = panel_of(alloc, layout, names, board, edge, findings, at)?;
        add(&mut panels, panel)?;
    }
    Ok(panels)
}
