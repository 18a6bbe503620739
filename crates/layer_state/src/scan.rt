//! A scan over commands: each is judged and then dropped, and what the layer is made of is kept.

ghost use Rattle.std.specs.Prelude.{◌≡◌, ◌++◌, [], ◌∷◌, ℕ, List, OnOk, IfErr, false, true};
ghost use Rattle.grid_units.specs.Results.{IfFault};
ghost use Rattle.gerber_commands.specs.declared.command.Command.{Command};
ghost use Rattle.gerber_text.specs.FastPath.{text_command};
ghost use Rattle.gerber_text.specs.Reading.{Entries, item_entries};
ghost use Rattle.gerber_text.specs.Holding.{passed_entries};
ghost use Rattle.layer_state.specs.Faults.{fail_at, IsFirstFault};
ghost use Rattle.gerber_text.specs.Writing.{without_places};
ghost use Rattle.layer_state.specs.Lookback.{current_of, state_after};
ghost use Rattle.layer_state.specs.KeptFlashes.{KeptParts, keeps_shapes, taking_flashes, taking_pads, without_pads};
ghost use Rattle.layer_state.specs.Shapes.{defined_numbered};
ghost use Rattle.layer_state.specs.Tables.{defined_at};

use crate::cached::CachedState;
use crate::current::Current;
use crate::flash::{Flash, FlashKeep};
use crate::function::{function_in_text, function_set};
use crate::tables::Apertures;
use gerber_text::{Command, LeadingOperation, PassedOperation, Placed, TextKind};
use grid_units::{Fail, Fault, ItemFail, Profile, Text};
use pad_shapes::Pad;
use std::alloc::{AllocError, Global};

/// A judge and the last file function, after the commands so far. It holds what is kept of their flashes, and none of the commands.
#[derive(Drop)]
pub struct Scan {
    pub(crate) state: CachedState,
    pub(crate) file_function: Option<Text>,
}

/// What is kept of the flashes of some commands, how many of them are pads and how many are not, and the file function.
#[derive(Drop)]
pub struct Scanned {
    pub flashes: Vec<Flash>,
    pub pads: Vec<Pad>,
    pub pad_count: usize,
    pub other: usize,
    pub file_function: Option<Text>,
}

impl Scan {
    ghost use Rattle.layer_state.specs.Holding.{HasScanned, IsScanResult, HasScannedLegal, IsScanned, is_scanning_region, scanned_flashes, scanned_pads};

    /// A scan that has met no command, and judges by the rules of a profile.
    pub fn new(alloc: Global, profile: Profile, keep: FlashKeep) -> Self
        ensures { HasScannedLegal result (without_pads profile keep []) [] }
    {
        Scan {
            state: CachedState::new(alloc, profile, keep),
            file_function: None,
        }
    }

    /// The pads that are held, in order: those since the last [`Scan::clear_pads`]. None where they are not kept in a list of their own.
    pub fn pads(&self) -> &[Pad]
        ensures { result.now ≡ scanned_pads self.now }
    {
        &self.state.state.flashes.pads
    }

    /// Drops the pads that are held. The memory that they took serves the next ones.
    pub fn clear_pads(&mut self)
        ensures none { scanned_pads self.new ≡ [] }
        ensures gone { (parts : KeptParts) (before : Entries) → HasScannedLegal self.old parts before → HasScannedLegal self.new (taking_pads parts self.old.state.state.flashes) before }
    {
        self.state.state.flashes.clear_pads();
    }

    /// Checks commands in order and applies them.
    ///
    /// # Errors
    ///
    /// The fault of the first command that breaks a rule; `Memory` where an allocation failed.
    pub fn scan(&mut self, alloc: Global, entries: &[Placed<Command>]) -> Result<(), Fail>
        ensures ok { (parts : KeptParts) (before : Entries) → HasScannedLegal self.old parts before → OnOk result (HasScannedLegal self.new parts (before ++ entries.now)) }
        ensures refused { (parts : KeptParts) (before : Entries) → HasScannedLegal self.old parts before → IfErr result (IfFault (IsFirstFault parts.profile (before ++ entries.now))) }
    {
        for entry in entries {
            self.take(alloc, entry)?;
        }
        Ok(())
    }

    /// Checks an operation that a reader has passed, and applies it. The interpolation before it, if there is one,
    /// breaks no rule and changes nothing here.
    ///
    /// # Errors
    ///
    /// The fault of an operation that breaks a rule; `Memory` where an allocation failed.
    pub fn operate(&mut self, passed: &PassedOperation) -> Result<(), Fail>
        ensures ok { (parts : KeptParts) (before : Entries) → HasScannedLegal self.old parts before → OnOk result (HasScannedLegal self.new parts (before ++ passed_entries passed.now)) }
        ensures refused { (parts : KeptParts) (before : Entries) → HasScannedLegal self.old parts before → IfErr result (IfFault (IsFirstFault parts.profile (before ++ passed_entries passed.now))) }
    {
        let LeadingOperation {
            action,
            x,
            y,
            i,
            j,
            ..
        } = passed.operation;
        match self.state.operate(action, x, y, i, j) {
            Ok(()) => Ok(()),
            Err(stop) => Err(fail_at(passed.place, passed.byte, stop)),
        }
    }

    /// Takes in a comment or an attribute of this text that a reader has passed, and keeps the file function that it
    /// names. Outside of regions it breaks no rule.
    ///
    /// # Errors
    ///
    /// An `AllocError` where there is no memory for the file function.
    pub fn text(&mut self, alloc: Global, kind: TextKind, text: &[u8]) -> Result<(), AllocError>
        requires { is_scanning_region self.old ≡ false }
        ensures { (parts : KeptParts) (before : Entries) (place byte : ℕ) → HasScannedLegal self.old parts before → OnOk result (HasScannedLegal self.new parts (before ++ item_entries place byte (text_command kind text.now ∷ []))) }
    {
        if let Some(bytes) = function_in_text(kind, text) {
            let function = Text::from_slice(alloc, bytes)?;
            self.file_function = Some(function);
        }
        Ok(())
    }

    /// Checks one more command and applies it.
    ///
    /// # Errors
    ///
    /// The fault of a command that breaks a rule; `Memory` where an allocation failed.
    pub fn take(&mut self, alloc: Global, entry: &Placed<Command>) -> Result<(), Fail>
        ensures ok { (parts : KeptParts) (before : Entries) → HasScannedLegal self.old parts before → OnOk result (HasScannedLegal self.new parts (before ++ entry.now ∷ [])) }
        ensures refused { (parts : KeptParts) (before : Entries) → HasScannedLegal self.old parts before → IfErr result (IfFault (IsFirstFault parts.profile (before ++ entry.now ∷ []))) }
    {
        match self.scan_one(alloc, &entry.what) {
            Ok(()) => Ok(()),
            Err(stop) => Err(fail_at(entry.place, entry.byte, stop)),
        }
    }

    /// Whether a region is open.
    pub fn in_region(&self) -> bool
        ensures { result ≡ is_scanning_region self.now }
    {
        self.state.state.current.in_region
    }

    /// What the commands so far say last.
    pub fn current(&self) -> &Current
        ensures { (parts : KeptParts) (before : Entries) → HasScannedLegal self.now parts before → result.now ≡ current_of (state_after (without_places before)) }
    {
        &self.state.state.current
    }

    /// The apertures that the commands so far define, with their shapes, where shapes are kept.
    pub fn apertures(&self) -> &Apertures
        ensures { (parts : KeptParts) (before : Entries) → HasScannedLegal self.now parts before → keeps_shapes parts.keep ≡ true → defined_at result.now ≡ defined_numbered (without_places before) }
    {
        &self.state.state.apertures
    }

    /// The flashes that are held, in order: those since the last [`Scan::clear_flashes`]. None where flashes are not kept.
    pub fn flashes(&self) -> &[Flash]
        ensures { result.now ≡ scanned_flashes self.now }
    {
        &self.state.state.flashes.all
    }

    /// Drops the flashes that are held. The memory that they took serves the next ones.
    pub fn clear_flashes(&mut self)
        ensures none { scanned_flashes self.new ≡ [] }
        ensures gone { (parts : KeptParts) (before : Entries) → HasScannedLegal self.old parts before → HasScannedLegal self.new (taking_flashes parts self.old.state.state.flashes) before }
    {
        self.state.state.flashes.clear_flashes();
    }

    /// What is kept of the flashes of these commands, how many there are, and the file function.
    pub fn finish(self) -> Scanned
        ensures { (parts : KeptParts) (entries : Entries) → HasScannedLegal self parts entries → IsScanned parts (without_places entries) result }
    {
        let Scan {
            state,
            file_function,
        } = self;
        let flashes = state.state.flashes;
        let pad_count = flashes.pad_count();
        Scanned {
            flashes: flashes.all,
            pads: flashes.pads,
            pad_count,
            other: flashes.others,
            file_function,
        }
    }

    /// Checks one more command, takes it in, and keeps the file function that it names.
    fn scan_one(&mut self, alloc: Global, command: &Command) -> Result<(), ItemFail>
        ensures { (parts : KeptParts) (before : List Command) → HasScanned self.old parts before → IsScanResult parts before command.now self.new result }
    {
        self.state.step(command)?;
        if let Some(bytes) = function_set(command) {
            self.file_function = Some(Text::from_slice(alloc, bytes)?);
        }
        Ok(())
    }
}

/// A stop of the judge as a failure at the place and the byte of an item.
fn fail_at(place: u64, byte: u64, stop: ItemFail) -> Fail
    ensures { result ≡ fail_at place byte stop }
{
    match stop {
        ItemFail::Memory => Fail::Memory,
        ItemFail::Refused(reason) => Fail::Refused(Fault {
            place,
            byte,
            reason,
        }),
    }
}
