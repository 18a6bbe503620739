//! The board of a package, which stands between those that read its files and those that report and draw it, and by how much it meets its rules:
//! how deep each hole lies in the pads of a layer, the gap between two holes, and the greatest ring and gap that the whole board meets.
//!
//! All lengths are whole picometres (pm).
#![tactic(auto)]

ghost use Rattle.std.specs.Prelude.{◌≡◌, []};

mod bare;
mod best;
mod bests;
mod better;
mod board;
mod deep;
mod gap;
mod hull;
mod hulls;
mod lacking;
mod large;
pub mod laws;
mod met;
mod nearest;
mod order;
mod roots;
mod row;
mod shapes;

pub use bare::bare_holes;
pub use best::BestPad;
pub use bests::{best_pads, best_pads_by};
pub use board::{Board, hole_count};
pub use deep::{DepthShape, depth_of_hole};
pub use gap::gap_between;
pub use hull::Hull;
pub use lacking::ring_findings_from_bests;
pub use met::{Met, RingsMet, gap_met_of_nearest, met_with_layer, met_without_layers, needs_ring};
pub use nearest::{Nearest, nearest_holes};
use pad_shapes::{Drawn, FeatureRow, WidePad};
use ring_rules::{Drilled, Span};
pub use row::{RingRow, RowLeast, ring_row};
use std::alloc::Global;

/// The counts of a file: flashed pads, other flashes and contours that count as pads of a layer, round holes and slots of a drill file.
#[derive(Clone, Copy, Debug, PartialEq, Eq)]
pub enum FileSum {
    Layer {
        pads: usize,
        other: usize,
        contours: usize,
    },
    /// A drill file whose role says whether its holes are plated. It is `contradicted` where its role is `unplated` and a comment says
    /// that holes are plated, or its role is `plated` and a comment says that holes are not plated, and none that they are.
    Drill {
        plated: bool,
        span: Option<Span>,
        contradicted: bool,
        round: usize,
        slots: usize,
    },
    /// A mixed drill file: `unplated` of its holes and slots are not plated.
    Mixed {
        span: Option<Span>,
        round: usize,
        slots: usize,
        unplated: usize,
    },
}

/// A hole, with the index of its file among all files, from 0, and its number in that file, from 1.
#[derive(Clone, Copy, Debug)]
pub struct Numbered {
    pub file: usize,
    pub number: usize,
    pub drilled: Drilled,
}

/// What is kept of a file to be shown, each where it is asked for.
#[derive(Drop)]
pub struct Shown {
    /// The rows of its flashes and contours, in the order of the text.
    pub rows: Vec<FeatureRow>,
    /// The shapes of flashes of macros that its profile does not count.
    pub macros: Vec<WidePad>,
    /// The contours that its profile does not count.
    pub contours: Vec<WidePad>,
    /// What its commands draw.
    pub drawn: Vec<Drawn>,
}

impl Shown {
    /// Nothing to be shown. This takes no memory.
    pub fn nothing(alloc: Global) -> Shown
        ensures rows { result.rows.items ≡ [] }
        ensures macros { result.macros.items ≡ [] }
        ensures contours { result.contours.items ≡ [] }
        ensures drawn { result.drawn.items ≡ [] }
    {
        Shown {
            rows: Vec::new(alloc),
            macros: Vec::new(alloc),
            contours: Vec::new(alloc),
            drawn: Vec::new(alloc),
        }
    }
}
