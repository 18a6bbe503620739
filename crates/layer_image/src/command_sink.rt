//! The trait of what takes in the commands of a layer as they are read, and the judge of the strict profile as one.

ghost use Rattle.std.specs.Prelude.{◌≡◌, ◌++◌, [], ◌∷◌, ℕ, Bool, List, IfErr, OnOk, false};
ghost use Rattle.grid_units.specs.Lists.{IsLegal};
ghost use Rattle.grid_units.specs.Results.{IfFault};
ghost use Rattle.grid_units.specs.declared.profile.Profile.{Profile as TheProfile};
ghost use Rattle.gerber_text.specs.FastPath.{text_command};
ghost use Rattle.gerber_text.specs.Reading.{Entries, item_entries};
ghost use Rattle.gerber_text.specs.Holding.{passed_entries};
ghost use Rattle.gerber_text.specs.Writing.{without_places};
ghost use Rattle.pad_shapes.specs.declared.wide_pad.WidePad.{WidePad as ThePad};
ghost use Rattle.layer_state.specs.Faults.{IsFirstFault};
ghost use Rattle.layer_state.specs.Holding.{is_scanning_region};
ghost use Rattle.layer_state.specs.Rules.{broken_rule_in};
ghost use Rattle.layer_features.specs.declared.keep.Keep.{Keep as TheKeep};

use gerber_text::{Command, PassedOperation, Placed, TextKind};
use grid_units::Fail;
use layer_state::Scan;
use std::alloc::{AllocError, Global};

/// Takes in the commands of a layer as they are read: they are judged, and what is asked for of what they make is held.
// What reads a piece of a text is generic over it, so that nothing is chosen by the profile at each command.
pub(crate) trait CommandSink {
    /// Whether just these commands were met, none of them breaks a rule of a profile, and of what they make is held what is
    /// kept in it. These pads were taken out on the way.
    ghost has_met: { TheProfile → TheKeep → List ThePad → Self → Entries → Type 0 };

    /// Whether a region is open.
    ghost is_in_region: { Self → Bool };

    /// Checks commands in order and takes them in.
    ///
    /// # Errors
    ///
    /// The fault of the first command that breaks a rule; `Memory` where an allocation failed.
    fn take_commands(&mut self, alloc: Global, entries: &[Placed<Command>]) -> Result<(), Fail>
        ensures ok { (profile : TheProfile) (keep : TheKeep) (taken : List ThePad) (before : Entries) → has_met profile keep taken self.old before → OnOk result (has_met profile keep taken self.new (before ++ entries.now)) }
        ensures refused { (profile : TheProfile) (keep : TheKeep) (taken : List ThePad) (before : Entries) → has_met profile keep taken self.old before → IfErr result (IfFault (IsFirstFault profile (before ++ entries.now))) };

    /// Checks an operation that a reader has passed, and takes it in.
    ///
    /// # Errors
    ///
    /// The fault of an operation that breaks a rule; `Memory` where an allocation failed.
    fn take_operation(&mut self, passed: &PassedOperation) -> Result<(), Fail>
        ensures ok { (profile : TheProfile) (keep : TheKeep) (taken : List ThePad) (before : Entries) → has_met profile keep taken self.old before → OnOk result (has_met profile keep taken self.new (before ++ passed_entries passed.now)) }
        ensures refused { (profile : TheProfile) (keep : TheKeep) (taken : List ThePad) (before : Entries) → has_met profile keep taken self.old before → IfErr result (IfFault (IsFirstFault profile (before ++ passed_entries passed.now))) };

    /// Takes in a comment or an attribute of this text that a reader has passed, outside of regions.
    ///
    /// # Errors
    ///
    /// An `AllocError` where there is no memory for a file function.
    fn take_text(&mut self, alloc: Global, kind: TextKind, text: &[u8]) -> Result<(), AllocError>
        requires { is_in_region self.old ≡ false }
        ensures { (profile : TheProfile) (keep : TheKeep) (taken : List ThePad) (before : Entries) (place byte : ℕ) → has_met profile keep taken self.old before → OnOk result (has_met profile keep taken self.new (before ++ item_entries place byte (text_command kind text.now ∷ []))) };

    /// Whether a region is open.
    fn has_open_region(&self) -> bool
        ensures { result ≡ is_in_region self.now };

    /// Commands that were met break no rule.
    ghost legal: { (profile : TheProfile) (keep : TheKeep) (taken : List ThePad) (sink : Self) (entries : Entries) → has_met profile keep taken sink entries → IsLegal (broken_rule_in profile) (without_places entries) };
}

/// A judge, where the flashes of the strict profile are all that is needed.
impl CommandSink for Scan {
    ghost use Rattle.layer_image.specs.Holding.{HasScannedFor};

    ghost has_met = { HasScannedFor };

    ghost is_in_region = { is_scanning_region };

    fn take_commands(&mut self, alloc: Global, entries: &[Placed<Command>]) -> Result<(), Fail> {
        self.scan(alloc, entries)
    }

    #[inline(always)]
    fn take_operation(&mut self, passed: &PassedOperation) -> Result<(), Fail> {
        self.operate(passed)
    }

    fn take_text(&mut self, alloc: Global, kind: TextKind, text: &[u8]) -> Result<(), AllocError> {
        self.text(alloc, kind, text)
    }

    fn has_open_region(&self) -> bool {
        self.in_region()
    }

    ghost legal = { λ profile keep taken scan entries h. h.scanned.legal };
}
