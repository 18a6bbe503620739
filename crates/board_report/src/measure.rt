//! The measure of a board.

ghost use Rattle.std.specs.Prelude.{◌≡◌, ◌++◌, ◌∷◌, [], IfOk, OnOk, false, true, length, map};
ghost use Rattle.pad_shapes.specs.WidePads.{wide_pad_covers};
ghost use Rattle.board.specs.Meets.{MeetsOnLayers};
ghost use Rattle.board_report.specs.Measures.{AreLayerBests, BoardPasses, IsMeasure};
ghost use Rattle.board_report.specs.Rows.{AreRingLines, AreUnitMistakes};

use crate::places::{files_with_holes, gap_line};
use crate::rows::push_layer_lines;
use crate::units::unit_mistakes;
use board::laws::{gaps_pass, rings_pass};
use board::{
    BestPad, Board, RingsMet, best_pads_by, gap_met_of_nearest, met_with_layer, met_without_layers,
    nearest_holes,
};
use grid_units::Profile;
use pad_shapes::WidePad;
use report::{GapLine, Measure, Meets, RingLine, UnitMistake};
use ring_rules::{HoleIndex, mean_zone_size};
use std::alloc::{AllocError, Global};

/// The greatest rings that a board meets, the lines of its rings and scales, and the best pads of its layers if they are kept.
#[derive(Drop)]
struct Rings {
    met: RingsMet,
    lines: Vec<RingLine>,
    scales: Vec<UnitMistake>,
    bests: Vec<Vec<Option<BestPad>>>,
}

/// Keeps the best pads of a layer after those of the layers before it, or frees them.
fn keep(
    keeps: bool,
    bests: Vec<Option<BestPad>>,
    kept: &mut Vec<Vec<Option<BestPad>>>,
) -> Result<(), AllocError>
    ensures { OnOk result (keeps ≡ true → kept.new.items ≡ kept.old.items ++ bests ∷ []) }
{
    if !keeps {
        return Ok(());
    }
    match kept.push(bests) {
        Ok(()) => Ok(()),
        Err(_) => Err(AllocError),
    }
}

/// The rings of a board, and its scales. The best pads of each layer are searched for once. They are kept only if `keeps` says so, since
/// those of all layers take memory. The drill files that have holes are listed once for all layers, and one index of the holes serves all.
fn rings_on(
    alloc: Global,
    board: &Board,
    profile: Profile,
    keeps: bool,
) -> Result<Rings, AllocError>
    ensures met { IfOk result (λ rings. MeetsOnLayers wide_pad_covers profile board.now.layers board.now.holes (length board.now.layers) rings.met) }
    ensures lines { IfOk result (λ rings. AreRingLines profile board.now rings.lines.items) }
    ensures scales { IfOk result (λ rings. AreUnitMistakes board.now (length board.now.files) rings.scales.items) }
    ensures bests { keeps ≡ true → IfOk result (λ rings. AreLayerBests board.now (length board.now.layers) (map (λ bests. bests.items) rings.bests.items)) }
{
    let files = files_with_holes(alloc, board)?;
    let layers = board.layers(alloc)?;
    let holes = board.holes();
    let (width, height) = mean_zone_size(&layers);
    let hole_index = HoleIndex::new(alloc, holes, width, height)?;
    let mut met = met_without_layers(&layers, holes);
    let mut lines = Vec::new(alloc);
    let mut scales = Vec::new(alloc);
    let mut kept = Vec::new(alloc);
    for layer in 0..layers.len() {
        let bests = best_pads_by(alloc, &hole_index, layers[layer], holes)?;
        if layer == 0 {
            scales = unit_mistakes(alloc, board, layers[layer], &bests)?;
        }
        met = met_with_layer(&layers, layer, &bests, holes, profile, met);
        push_layer_lines(alloc, board, &files, profile, &bests, layer, &mut lines)?;
        keep(keeps, bests, &mut kept)?;
    }
    Ok(Rings {
        met,
        lines,
        scales,
        bests: kept,
    })
}

/// The measure of a board, and for each of its layers the best pad of each hole there if they are kept: these take memory for each layer and hole.
pub(crate) fn measure_of(
    alloc: Global,
    board: &Board,
    profile: Profile,
    keeps: bool,
) -> Result<(Measure, Vec<Vec<Option<BestPad>>>), AllocError>
    ensures exact { IfOk result (λ found. IsMeasure profile board.now found.0) }
    ensures bests { keeps ≡ true → IfOk result (λ found. AreLayerBests board.now (length board.now.layers) (map (λ bests. bests.items) found.1.items)) }
{
    let rings = rings_on(alloc, board, profile, keeps)?;
    let nearest = nearest_holes(alloc, board.holes())?;
    let gap = gap_met_of_nearest(board.holes(), nearest);
    let measure = Measure {
        rings: rings.lines,
        scales: rings.scales,
        gap: gap_line(board, nearest),
        meets: Meets {
            ring: rings.met.ring,
            gap,
            in_pads: rings.met.in_pads,
        },
    };
    Ok((measure, rings.bests))
}

/// The measure of a board that was read in a profile.
///
/// # Errors
///
/// An `AllocError` when memory runs out.
pub fn measure_board(alloc: Global, board: &Board, profile: Profile) -> Result<Measure, AllocError>
    ensures exact { IfOk result (IsMeasure profile board.now) }
    ensures passes { IfOk result (λ measure. BoardPasses profile board.now measure.meets.ring measure.meets.gap) }
{
    rings_pass::<WidePad>();
    gaps_pass();
    let (measure, _) = measure_of(alloc, board, profile, false)?;
    Ok(measure)
}
