//! The panel of a layer, printed as SVG.

ghost use Rattle.std.specs.Prelude.{◌≡◌, ◌≤◌, ◌^◌, ◌+ℤ◌, ◌==◌, neg_ℤ, pos, Some, if◌then◌else◌};
ghost use Rattle.std.specs.Fmt.{DisplaysOnOk};
ghost use Rattle.picture.specs.Panels.{after_name, board_box, drawn_words, ground_text, lacking_words, name_start, note, pad_count, panel_head, panel_start, panel_text, ring_count, scene_text};

use crate::copper::write_copper;
use crate::cut::write_box_start;
use crate::elements::{down, write_text_start};
use crate::findings::Findings;
use crate::frame::{Frame, Pen, Place};
use crate::holes::{write_crosses, write_holes};
use crate::names::Escaped;
use crate::outlines::write_outline;
use crate::rounded_pads::write_pads;
use crate::scene::{DrawnFinding, Scene};
use crate::titles::FindingPage;
use grid_units::ShortMillimetres;
use std::fmt;
use std::fmt::{Display, Formatter};

/// Writes the start of a panel.
fn write_panel_start<W: fmt::Write>(f: &mut Formatter<W>, place: &Place) -> fmt::Result
    ensures { DisplaysOnOk W.write_str_gives f.old result (Some (panel_start place.now)) f.new }
{
    let (x, y) = (ShortMillimetres(place.x), ShortMillimetres(place.y));
    write!(
        f,
        "<g class=\"layer\" data-file=\"{}\" transform=\"translate({x} {y})\">\n",
        place.file
    )
}

/// The y in a picture of a point this far above the box.
fn above(frame: &Frame, height: u64) -> i64
    requires { height ≤ 10 ^ 14 }
    ensures { result ≡ neg_ℤ (frame.now.top +ℤ pos height) }
{
    down(frame.top + height as i64)
}

/// The number of insufficient rings.
fn ring_count(lacks: &[DrawnFinding]) -> usize
    ensures { result ≡ ring_count lacks.now }
{
    lacks
        .iter()
        .filter(|lack| matches!(lack, DrawnFinding::Ring { .. }))
        .count()
}

/// The words for one item or for more, by a count.
fn words_for<'a>(count: usize, one: &'a str, more: &'a str) -> &'a str
    ensures { result.now ≡ (if count == 1 then one.now else more.now) }
{
    if count == 1 { one } else { more }
}

/// The number of all pads.
fn pad_count(scene: &Scene) -> usize
    ensures { result ≡ pad_count scene.now }
{
    scene.pads.len() + scene.rounded.len()
}

/// Writes the number of pads and of other flashes, `361 pads, 1 other`, or that they are too many.
fn write_drawn<W: fmt::Write>(f: &mut Formatter<W>, scene: &Scene) -> fmt::Result
    ensures { DisplaysOnOk W.write_str_gives f.old result (Some (drawn_words scene.now)) f.new }
{
    if scene.crowded {
        return f.write_str("more than 100000 flashes and holes");
    }
    let (pads, other) = (pad_count(scene), scene.crosses.len());
    let word = words_for(pads, " pad, ", " pads, ");
    write!(f, "{pads}{word}{other} other")
}

/// Writes the number of insufficient rings, if there are rules.
fn write_lacking<W: fmt::Write>(f: &mut Formatter<W>, pen: &Pen, count: usize) -> fmt::Result
    ensures { DisplaysOnOk W.write_str_gives f.old result (Some (lacking_words pen.now count)) f.new }
{
    if !pen.has_rules {
        return Ok(());
    }
    let word = words_for(count, " ring too small", " rings too small");
    write!(f, ", {count}{word}")
}

/// Writes the note of a panel, and the end of its element: `361 pads, 1 other, 2 rings too small</text>`.
#[tactic(auto, unfolding(crate::specs::Panels::note))]
fn write_note<W: fmt::Write>(f: &mut Formatter<W>, pen: &Pen, scene: &Scene) -> fmt::Result
    ensures { DisplaysOnOk W.write_str_gives f.old result (Some (note pen.now scene.now)) f.new }
{
    write_drawn(f, scene)?;
    write_lacking(f, pen, ring_count(&scene.lacks))?;
    f.write_str("</text>\n")
}

/// Writes the start of a panel's name.
fn write_name_start<W: fmt::Write>(f: &mut Formatter<W>, pen: &Pen, frame: &Frame) -> fmt::Result
    ensures { DisplaysOnOk W.write_str_gives f.old result (Some (name_start pen.now frame.now)) f.new }
{
    let y = above(frame, pen.unit * 5 / 2);
    write_text_start(
        f,
        pen,
        "<text class=\"name\" transform=\"translate(",
        frame.left,
        y,
    )
}

/// Writes what stands in a panel to the end of its name.
fn write_head<W: fmt::Write>(f: &mut Formatter<W>, panel: &Panel) -> fmt::Result
    ensures { DisplaysOnOk W.write_str_gives f.old result (Some (panel_head panel.now.place.now panel.now.frame.now panel.now.pen.now)) f.new }
{
    write_panel_start(f, panel.place)?;
    write_name_start(f, panel.pen, panel.frame)?;
    write!(f, "{}</text>\n", Escaped(panel.place.name))
}

/// Writes the box of the board.
fn write_board<W: fmt::Write>(f: &mut Formatter<W>, frame: &Frame) -> fmt::Result
    ensures { DisplaysOnOk W.write_str_gives f.old result (Some (board_box frame.now)) f.new }
{
    write_box_start(f, "<rect class=\"board\"", frame)?;
    f.write_str("\"/>\n")
}

/// Writes what stands in a panel after its name: the note and the box.
fn write_after_name<W: fmt::Write>(f: &mut Formatter<W>, panel: &Panel) -> fmt::Result
    ensures { DisplaysOnOk W.write_str_gives f.old result (Some (after_name panel.now.pen.now panel.now.frame.now panel.now.scene.now)) f.new }
{
    let (frame, pen) = (panel.frame, panel.pen);
    let y = above(frame, pen.unit * 4 / 5);
    write_text_start(
        f,
        pen,
        "<text class=\"note\" transform=\"translate(",
        frame.left,
        y,
    )?;
    write_note(f, pen, panel.scene)?;
    write_board(f, frame)
}

/// Writes what stands below the pads of a panel: what is drawn, cut at the box, and the outline of the board.
#[tactic(auto, unfolding(crate::specs::Panels::ground_text))]
fn write_ground<W: fmt::Write>(f: &mut Formatter<W>, panel: &Panel) -> fmt::Result
    ensures { DisplaysOnOk W.write_str_gives f.old result (Some (ground_text panel.now.pen.now panel.now.frame.now panel.now.scene.now.drawn.now panel.now.scene.now.outline.now)) f.new }
{
    write_copper(f, panel.frame, panel.scene.drawn)?;
    write_outline(f, panel.pen, panel.scene.outline)
}

/// Writes the contents of a panel: what stands below the pads, then pads, crosses, holes and findings.
fn write_contents<W: fmt::Write>(f: &mut Formatter<W>, panel: &Panel) -> fmt::Result
    ensures { DisplaysOnOk W.write_str_gives f.old result (Some (scene_text panel.now.pen.now panel.now.place.now panel.now.frame.now panel.now.scene.now.drawn.now panel.now.scene.now.outline.now panel.now.scene.now.pads.items panel.now.scene.now.rounded.items panel.now.scene.now.crosses.items panel.now.scene.now.holes.now panel.now.scene.now.lacks.items)) f.new }
{
    let (pen, place, scene) = (panel.pen, panel.place, panel.scene);
    write_ground(f, panel)?;
    write_pads(f, &scene.pads, &scene.rounded)?;
    write_crosses(f, pen, &scene.crosses)?;
    write_holes(f, pen, scene.holes)?;
    let page = FindingPage { pen, place };
    let lacks = &scene.lacks;
    write!(f, "{}", Findings { page, lacks })
}

/// The panel of a layer, printed as an element `g` of SVG: its name, a note, the box of the board, what is drawn, cut at that box, the
/// outline of the board, pads, crosses, holes and findings. Lengths are printed in millimetres.
#[derive(Clone, Copy)]
pub struct Panel<'a> {
    /// The file, and the place of the panel on the page.
    pub place: &'a Place<'a>,
    /// The box of the board.
    pub frame: &'a Frame,
    /// The unit and the required ring.
    pub pen: &'a Pen,
    /// What stands in the panel.
    pub scene: &'a Scene<'a>,
}

impl Display for Panel<'_> {
    ghost output = { λ panel. Some (panel_text panel.place.now panel.frame.now panel.pen.now panel.scene.now) };

    fn fmt<W: fmt::Write>(&self, f: &mut Formatter<W>) -> fmt::Result {
        write_head(f, self)?;
        write_after_name(f, self)?;
        write_contents(f, self)?;
        f.write_str("</g>\n")
    }
}
