//! The commands so far, judged and dropped, and their flashes and contours.

ghost use Rattle.std.specs.Prelude.{◌≡◌, ◌++◌, [], ◌∷◌, List, IfErr, OnOk, None};
ghost use Rattle.grid_units.specs.Results.{IfFault};
ghost use Rattle.grid_units.specs.declared.profile.Profile.{Profile as TheProfile};
ghost use Rattle.gerber_text.specs.Reading.{Entries};
ghost use Rattle.gerber_text.specs.Holding.{passed_entries};
ghost use Rattle.pad_shapes.specs.declared.wide_pad.WidePad.{WidePad as ThePad};
ghost use Rattle.layer_state.specs.Faults.{IsFirstFault};
ghost use Rattle.layer_state.specs.Holding.{is_scanning_region};
ghost use Rattle.layer_features.specs.declared.keep.Keep.{Keep as TheKeep};
ghost use Rattle.layer_image.specs.Kept.{flashes_kept};

use crate::command_sink::CommandSink;
use gerber_text::{Command, PassedOperation, Placed, TextKind};
use grid_units::Fail;
use layer_features::{Copper, Setting};
use layer_state::Scan;
use std::alloc::{AllocError, Global};

/// A judge of the commands so far, and their copper.
#[derive(Drop)]
pub(crate) struct Met {
    pub(crate) scan: Scan,
    pub(crate) copper: Copper,
}

impl Met {
    ghost use Rattle.layer_image.specs.Holding.{HasMetLegal};

    /// Checks one more command and takes it in.
    fn take_command(&mut self, alloc: Global, entry: &Placed<Command>) -> Result<(), Fail>
        ensures ok { (profile : TheProfile) (keep : TheKeep) (taken : List ThePad) (before : Entries) → HasMetLegal profile keep taken self.old before → OnOk result (HasMetLegal profile keep taken self.new (before ++ entry.now ∷ [])) }
        ensures refused { (profile : TheProfile) (keep : TheKeep) (taken : List ThePad) (before : Entries) → HasMetLegal profile keep taken self.old before → IfErr result (IfFault (IsFirstFault profile (before ++ entry.now ∷ []))) }
    {
        let before = *self.scan.current();
        self.scan.take(alloc, entry)?;
        let setting = Setting {
            current: &before,
            apertures: self.scan.apertures(),
        };
        self.copper
            .take(&setting, &entry.what, self.scan.flashes())?;
        self.scan.clear_flashes();
        Ok(())
    }

    /// Checks an operation that a reader has passed, and takes it in.
    // In line, since a call would take what the reader holds of each operation through memory, of those that pass too.
    #[inline(always)]
    fn add_operation(&mut self, passed: &PassedOperation) -> Result<(), Fail>
        ensures ok { (profile : TheProfile) (keep : TheKeep) (taken : List ThePad) (before : Entries) → HasMetLegal profile keep taken self.old before → OnOk result (HasMetLegal profile keep taken self.new (before ++ passed_entries passed.now)) }
        ensures refused { (profile : TheProfile) (keep : TheKeep) (taken : List ThePad) (before : Entries) → HasMetLegal profile keep taken self.old before → IfErr result (IfFault (IsFirstFault profile (before ++ passed_entries passed.now))) }
    {
        let before = *self.scan.current();
        self.scan.operate(passed)?;
        let setting = Setting {
            current: &before,
            apertures: self.scan.apertures(),
        };
        self.copper
            .operate(&setting, &passed.operation, self.scan.flashes())?;
        self.scan.clear_flashes();
        Ok(())
    }
}

/// A judge and its copper, where flashes and contours are needed.
impl CommandSink for Met {
    ghost use Rattle.layer_image.specs.Holding.{HasMetLegal};

    ghost has_met = { λ profile keep taken met entries. (flashes_kept profile keep ≡ None) × HasMetLegal profile keep taken met entries };

    ghost is_in_region = { λ met. is_scanning_region met.scan };

    fn take_commands(&mut self, alloc: Global, entries: &[Placed<Command>]) -> Result<(), Fail> {
        for entry in entries {
            self.take_command(alloc, entry)?;
        }
        Ok(())
    }

    #[inline(always)]
    fn take_operation(&mut self, passed: &PassedOperation) -> Result<(), Fail> {
        if !self.copper.passes(self.scan.current(), &passed.operation) {
            return self.add_operation(passed);
        }
        self.scan.operate(passed)?;
        let setting = Setting {
            current: self.scan.current(),
            apertures: self.scan.apertures(),
        };
        self.copper.add_passed(&setting, self.scan.flashes())?;
        self.scan.clear_flashes();
        Ok(())
    }

    fn take_text(&mut self, alloc: Global, kind: TextKind, text: &[u8]) -> Result<(), AllocError> {
        self.copper.take_text(self.scan.current())?;
        self.scan.text(alloc, kind, text)?;
        Ok(())
    }

    fn has_open_region(&self) -> bool {
        self.scan.in_region()
    }

    ghost legal = { λ profile keep taken met entries h. h.1.scanned.legal };
}
