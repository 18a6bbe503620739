//! What the commands so far make of a layer: they are judged, and what is asked for is kept.

ghost use Rattle.std.specs.Prelude.{◌≡◌, ◌++◌, [], List, IfErr, IfOk, OnOk, None, false, if◌then◌else◌};
ghost use Rattle.grid_units.specs.Results.{IfFault};
ghost use Rattle.grid_units.specs.declared.profile.Profile.{Profile as TheProfile};
ghost use Rattle.grid_units.specs.declared.profile.Profile.TheVariants.{Strict, Wide};
ghost use Rattle.gerber_commands.specs.declared.command.Command.{Command as TheCommand};
ghost use Rattle.gerber_text.specs.Reading.{Entries};
ghost use Rattle.pad_shapes.specs.declared.wide_pad.WidePad.{WidePad as ThePad};
ghost use Rattle.layer_state.specs.Faults.{IsFirstFault};
ghost use Rattle.layer_features.specs.Features.{counts_of, features_of};
ghost use Rattle.layer_state.specs.Holding.{IsScanned};
ghost use Rattle.layer_features.specs.Kept.{keeps_commands, left_pads};
ghost use Rattle.layer_state.specs.KeptFlashes.{KeptParts};
ghost use Rattle.layer_features.specs.declared.keep.Keep.{Keep as TheKeep};
ghost use Rattle.layer_image.specs.Holding.{HasMetLegal, HasScannedFor};
ghost use Rattle.layer_image.specs.Kept.{IsKeptOf, flashes_kept};

use crate::command_sink::CommandSink;
use crate::layer::Layer;
use crate::met::Met;
use gerber_text::{Command, Placed};
use grid_units::{Fail, Profile};
use layer_features::{Copper, FeatureCounts, Keep};
use layer_state::{FlashKeep, Scan, Scanned};
use pad_shapes::{Pad, WidePad};
use std::alloc::{AllocError, Global};

/// What the commands so far make of a layer.
#[derive(Drop)]
pub(crate) enum LayerContent {
    /// Flashes or pads as the strict profile has them.
    Flashes(Scan),
    /// Flashes and contours, or the pads among them, as the wide profile has them.
    Features(Met),
}

/// What is kept of the flashes of the strict profile, where nothing else is needed of the flashes and contours.
fn flashes_kept(profile: Profile, keep: Keep) -> Option<FlashKeep>
    ensures { result ≡ flashes_kept profile keep }
{
    match (profile, keep) {
        (_, Keep::Layer) => Some(FlashKeep::All),
        (Profile::Strict, Keep::Pads) => Some(FlashKeep::Pads),
        (Profile::Wide, Keep::Pads) | (_, Keep::Rows | Keep::RowsAndDrawn) => None,
    }
}

impl LayerContent {
    ghost use Rattle.layer_image.specs.Holding.{HasContent, forgets_in, left_in, plain_in, standing_in, wide_in};

    /// No command was met. What is kept in this profile is held.
    pub(crate) fn new(alloc: Global, keep: Keep, profile: Profile) -> LayerContent
        ensures { HasContent profile keep [] result [] }
    {
        match flashes_kept(profile, keep) {
            Some(kept) => LayerContent::Flashes(Scan::new(alloc, profile, kept)),
            None => LayerContent::Features(Met {
                scan: Scan::new(alloc, profile, FlashKeep::Flashes),
                copper: Copper::new(alloc, keep),
            }),
        }
    }

    /// Checks commands in order and takes them in.
    ///
    /// # Errors
    ///
    /// The fault of the first command that breaks a rule; `Memory` where an allocation failed.
    pub(crate) fn take_all(
        &mut self,
        alloc: Global,
        entries: &[Placed<Command>],
    ) -> Result<(), Fail>
        ensures ok { (profile : TheProfile) (keep : TheKeep) (taken : List ThePad) (before : Entries) → HasContent profile keep taken self.old before → OnOk result (HasContent profile keep taken self.new (before ++ entries.now)) }
        ensures refused { (profile : TheProfile) (keep : TheKeep) (taken : List ThePad) (before : Entries) → HasContent profile keep taken self.old before → IfErr result (IfFault (IsFirstFault profile (before ++ entries.now))) }
    {
        match self {
            LayerContent::Flashes(scan) => scan.take_commands(alloc, entries),
            LayerContent::Features(met) => met.take_commands(alloc, entries),
        }
    }

    /// The pads of standard apertures that are held in the strict profile.
    pub(crate) fn pads(&self) -> &[Pad]
        ensures { result.now ≡ plain_in self.now }
    {
        match self {
            LayerContent::Flashes(scan) => scan.pads(),
            LayerContent::Features(_) => &[],
        }
    }

    /// The pads that are held in the wide profile.
    pub(crate) fn wide_pads(&self) -> &[WidePad]
        ensures { result.now ≡ wide_in self.now }
    {
        match self {
            LayerContent::Flashes(_) => &[],
            LayerContent::Features(met) => met.copper.pads(),
        }
    }

    /// Whether clear polarity has taken away the pads that were dropped.
    pub(crate) fn are_forgotten(&self) -> bool
        ensures { result ≡ forgets_in self.now }
    {
        match self {
            LayerContent::Flashes(_) => false,
            LayerContent::Features(met) => met.copper.are_forgotten(),
        }
    }

    /// Drops the pads that are held.
    pub(crate) fn clear_pads(&mut self)
        ensures plain { plain_in self.new ≡ [] }
        ensures wide { wide_in self.new ≡ [] }
        ensures last { forgets_in self.new ≡ false }
        ensures gone { (profile : TheProfile) (keep : TheKeep) (taken : List ThePad) (before : Entries) → HasContent profile keep taken self.old before → HasContent profile keep (standing_in self.old taken) self.new before }
    {
        match self {
            LayerContent::Flashes(scan) => scan.clear_pads(),
            LayerContent::Features(met) => met.copper.clear_pads(),
        }
    }

    /// What is kept of the layer, with these commands, which a reader of this profile has kept.
    ///
    /// # Errors
    ///
    /// An `AllocError` where there is no memory for it.
    pub(crate) fn finish(
        self,
        alloc: Global,
        profile: Profile,
        commands: Vec<Placed<Command>>,
    ) -> Result<Layer, AllocError>
        ensures { (keep : TheKeep) (taken : List ThePad) (entries : Entries) → HasContent profile keep taken self entries → commands.items ≡ (if keeps_commands keep then entries else []) → IfOk result (IsKeptOf profile keep (left_in self taken) entries) }
    {
        match self {
            LayerContent::Flashes(scan) => Ok(layer_of_flashes(alloc, scan, commands)),
            LayerContent::Features(met) => layer_of_features(alloc, met, profile, commands),
        }
    }
}

/// What is kept of a layer whose flashes of the strict profile are all that is needed.
fn layer_of_flashes(alloc: Global, scan: Scan, commands: Vec<Placed<Command>>) -> Layer
    ensures { (profile : TheProfile) (keep : TheKeep) (taken : List ThePad) (entries : Entries) → HasScannedFor profile keep taken scan entries → commands.items ≡ (if keeps_commands keep then entries else []) → IsKeptOf profile keep taken entries result }
{
    let scanned = scan.finish();
    let counts = strict_counts(&scanned);
    Layer {
        commands,
        flashes: scanned.flashes,
        pads: scanned.pads,
        wide_pads: Vec::new(alloc),
        features: Vec::new(alloc),
        drawn: Vec::new(alloc),
        counts,
        file_function: scanned.file_function,
    }
}

/// The counts of flashes in the strict profile.
fn strict_counts(scanned: &Scanned) -> FeatureCounts
    ensures { (parts : KeptParts) (commands : List TheCommand) → IsScanned parts commands scanned.now → result ≡ counts_of (features_of Strict commands) }
{
    FeatureCounts {
        flashed: scanned.pad_count,
        contours: 0,
        other: scanned.other,
    }
}

/// The counts of the profile.
fn counts_in(profile: Profile, strict: FeatureCounts, wide: FeatureCounts) -> FeatureCounts
    ensures strict { profile ≡ Strict → result ≡ strict }
    ensures wide { profile ≡ Wide → result ≡ wide }
{
    match profile {
        Profile::Strict => strict,
        Profile::Wide => wide,
    }
}

/// What is kept of a layer whose flashes and contours are asked for, in this profile.
fn layer_of_features(
    alloc: Global,
    met: Met,
    profile: Profile,
    commands: Vec<Placed<Command>>,
) -> Result<Layer, AllocError>
    ensures { (keep : TheKeep) (taken : List ThePad) (entries : Entries) → flashes_kept profile keep ≡ None → HasMetLegal profile keep taken met entries → commands.items ≡ (if keeps_commands keep then entries else []) → IfOk result (IsKeptOf profile keep (left_pads met.copper.kept taken) entries) }
{
    let Met { scan, copper } = met;
    let parts = copper.finish()?;
    let scanned = scan.finish();
    let counts = counts_in(profile, strict_counts(&scanned), parts.counts);
    Ok(Layer {
        commands,
        flashes: Vec::new(alloc),
        pads: Vec::new(alloc),
        wide_pads: parts.pads,
        features: parts.features,
        drawn: parts.drawn,
        counts,
        file_function: scanned.file_function,
    })
}
