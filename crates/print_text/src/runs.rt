//! The places of each layer's rings in the list of all rings.

ghost use Rattle.std.specs.Prelude.{◌≡◌, ◌+◌, ◌<◌, ◌^◌, ℕ, IfOk, List, length};
ghost use Rattle.print_text.specs.Inner.{AreRuns, IsRun};

use report::RingLack;
use std::alloc::{AllocError, Global};

/// A layer, and a range of places in the list of rings that has all of its rings.
#[derive(Clone, Copy)]
pub(crate) struct Run {
    /// The place of the layer among the copper files, from 0.
    pub(crate) layer: usize,
    /// The first place.
    pub(crate) first: usize,
    /// The end of the places: one past the last.
    pub(crate) end: usize,
}

/// An empty run for each layer, at the end of all rings.
fn empty_runs(alloc: Global, layers: usize, rings: &[RingLack]) -> Result<Vec<Run>, AllocError>
    ensures { IfOk result (λ runs. (length runs.items ≡ layers) × AreRuns rings.now 0 runs.items) }
{
    let mut runs = Vec::new(alloc);
    for layer in 0..layers {
        runs.push(Run {
            layer,
            first: rings.len(),
            end: rings.len(),
        })?;
    }
    Ok(runs)
}

/// The run of a layer among the rings before a place, and of one more at this place.
fn extended(run: Run, place: usize) -> Run
    requires { place + 1 < 2 ^ 64 }
    ensures { (rings : List RingLack) (layer : ℕ) → place < length rings → IsRun rings place layer run → IsRun rings (place + 1) layer result }
{
    Run {
        layer: run.layer,
        first: run.first.min(place),
        end: place + 1,
    }
}

/// Adds the ring at a place to the run of its layer, if the layer has one.
fn note(runs: &mut [Run], rings: &[RingLack], place: usize)
    requires { place < length rings.now }
    ensures length { length runs.new ≡ length runs.old }
    ensures noted { AreRuns rings.now place runs.old → AreRuns rings.now (place + 1) runs.new }
{
    let layer = rings[place].layer;
    if layer < runs.len() {
        runs[layer] = extended(runs[layer], place);
    }
}

/// The runs of this many layers.
pub(crate) fn runs_of(
    alloc: Global,
    layers: usize,
    rings: &[RingLack],
) -> Result<Vec<Run>, AllocError>
    ensures { IfOk result (λ runs. (length runs.items ≡ layers) × AreRuns rings.now (length rings.now) runs.items) }
{
    let mut runs = empty_runs(alloc, layers, rings)?;
    for i in 0..rings.len() {
        note(&mut runs, rings, i);
    }
    Ok(runs)
}
