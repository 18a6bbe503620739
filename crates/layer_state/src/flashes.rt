//! What is kept of the flashes so far.

ghost use Rattle.std.specs.Prelude.{◌≡◌, ◌+◌, ◌<◌, ◌≤◌, [], ◌∷◌, List, length, map, false, OnOk};
ghost use Rattle.std.specs.List.{list_any};
ghost use Rattle.grid_units.specs.declared.profile.Profile.{Profile};
ghost use Rattle.layer_state.specs.Flashes.{copies, pads_of};
ghost use Rattle.layer_state.specs.declared.flash.Flash.{Flash as TheFlash};
ghost use Rattle.layer_state.specs.Inner.MovedPads.{flash_moved};
ghost use Rattle.layer_state.specs.Rules.{is_far_point, max_flashes};
ghost use Rattle.layer_state.specs.Inner.CopyGrids.{IsBounded};

use crate::flash::{Flash, FlashKeep, What};
use crate::grid::CopyGrid;
use pad_shapes::Pad;
use std::alloc::{AllocError, Global};

/// The most flashes of a layer, of every kind, copies counted.
pub(crate) const MAX_FLASHES: u64 = 4_194_304;

/// How many flashes there were, and how many of them are no pads; and the flashes and the pads that are kept.
#[derive(Drop)]
pub(crate) struct Flashes {
    pub(crate) keep: FlashKeep,
    pub(crate) all: Vec<Flash>,
    pub(crate) pads: Vec<Pad>,
    pub(crate) count: u64,
    pub(crate) others: usize,
    ghost few: { count ≤ max_flashes },
    ghost fewer: { others ≤ count },
}

impl Flashes {
    ghost use Rattle.layer_state.specs.KeptFlashes.{Adds, KeepsFlashes, KeptParts, flash_count, taking_flashes, taking_pads, without_pads};

    /// No flashes so far.
    pub(crate) fn new(alloc: Global, keep: FlashKeep) -> Self
        ensures { (profile : Profile) → KeepsFlashes result (without_pads profile keep []) [] }
    {
        Flashes {
            keep,
            all: Vec::new(alloc),
            pads: Vec::new(alloc),
            count: 0,
            others: 0,
        }
    }

    /// How many flashes are pads, whether these are kept or not.
    pub(crate) fn pad_count(&self) -> usize
        ensures { (parts : KeptParts) (flashes : List TheFlash) → KeepsFlashes self.now parts flashes → result ≡ length (pads_of flashes) }
    {
        (self.count - self.others as u64) as usize
    }

    /// Drops the pads. The memory that they took stays with the list.
    pub(crate) fn clear_pads(&mut self)
        ensures none { self.new.pads.items ≡ [] }
        ensures gone { (parts : KeptParts) (flashes : List TheFlash) → KeepsFlashes self.old parts flashes → KeepsFlashes self.new (taking_pads parts self.old) flashes }
    {
        self.pads.clear();
    }

    /// Drops the flashes. The memory that they took stays with the list.
    pub(crate) fn clear_flashes(&mut self)
        ensures none { self.new.all.items ≡ [] }
        ensures gone { (parts : KeptParts) (flashes : List TheFlash) → KeepsFlashes self.old parts flashes → KeepsFlashes self.new (taking_flashes parts self.old) flashes }
    {
        self.all.clear();
    }

    /// Adds one flash.
    ///
    /// # Errors
    ///
    /// An `AllocError` where there is no memory for the flash or its pad.
    pub(crate) fn add(&mut self, flash: &Flash) -> Result<(), AllocError>
        requires { flash_count self.old < max_flashes }
        ensures { OnOk result (Adds self.old (flash.now ∷ []) self.new) }
    {
        if self.keep.flashes() {
            self.all.push(*flash)?;
        }
        self.count += 1;
        match flash.what {
            What::Pad(pad) if self.keep.pads() => {
                self.pads.push(pad)?;
                Ok(())
            }
            What::Pad(_) => Ok(()),
            What::Other(_) => {
                self.others += 1;
                Ok(())
            }
        }
    }

    /// Makes room for so many flashes that leave the same, where they are kept.
    fn reserve(&mut self, count: usize, what: &What) -> Result<(), AllocError>
        ensures { OnOk result (Adds self.old [] self.new) }
    {
        if self.keep.flashes() {
            self.all.reserve(count)?;
        }
        match what {
            What::Pad(_) if self.keep.pads() => self.pads.reserve(count),
            What::Pad(_) | What::Other(_) => Ok(()),
        }
    }

    /// Adds a flash at each copy of a grid, in order.
    ///
    /// # Errors
    ///
    /// An `AllocError` where there is no memory for a flash or a pad.
    pub(crate) fn lay(&mut self, grid: &CopyGrid, what: &What) -> Result<(), AllocError>
        requires bounded { IsBounded grid.now }
        requires near { list_any is_far_point (copies grid.now) ≡ false }
        requires few { flash_count self.old + length (copies grid.now) ≤ max_flashes }
        ensures { OnOk result (Adds self.old (map (flash_moved what.now) (copies grid.now)) self.new) }
    {
        self.reserve(grid.count() as usize, what)?;
        for u in 0..grid.columns {
            for v in 0..grid.rows {
                let at = grid.copy(u, v);
                self.add(&Flash {
                    at,
                    what: what.at(at),
                })?;
            }
        }
        Ok(())
    }
}
