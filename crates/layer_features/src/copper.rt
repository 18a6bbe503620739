//! The flashes and contours of a layer, command by command.

ghost use Rattle.std.specs.Prelude.{◌≡◌, ◌++◌, ◌∷◌, ◌&&◌, [], ℕ, List, OnOk, IfOk, false, min, suc, true, ◌+◌, map, option_and_then, if◌then◌else◌};
ghost use Rattle.std.specs.List.{cons_option, filter_map};
ghost use Rattle.pad_shapes.specs.Placed.{shape_at};
ghost use Rattle.pad_shapes.specs.declared.wide_pad.WidePad.{WidePad as ThePad};
ghost use Rattle.gerber_commands.specs.Rows.{modes_of};
ghost use Rattle.gerber_commands.specs.declared.command.Command.{Command as TheCommand};
ghost use Rattle.gerber_text.specs.FastPath.{text_command};
ghost use Rattle.gerber_text.specs.declared.fast_path.LeadingOperation.{LeadingOperation as TheOperation};
ghost use Rattle.gerber_text.specs.declared.text_items.TextKind.{TextKind as TheKind};
ghost use Rattle.layer_state.specs.declared.flash.What.TheVariants as what;
ghost use Rattle.layer_state.specs.Flashes.{added_flashes};
ghost use Rattle.layer_state.specs.Lookback.{current_of, state_after};
ghost use Rattle.layer_features.specs.Blocks.{copy_count, is_repeated};
ghost use Rattle.layer_features.specs.DrawnCopper.{dark_part};
ghost use Rattle.layer_features.specs.Inner.Steps.{max_regions};
ghost use Rattle.layer_features.specs.FurtherPads.{CopperState, clears_in, contours_in, ended_copies, flash_shape, has_room, macro_why, region_contour};
ghost use Rattle.layer_features.specs.Features.{contour_feature, dark_kind, flash_feature, other_kind, taken_away};
ghost use Rattle.layer_features.specs.Kept.{AddsFeatures, KeepsFeatures, left_pads};
ghost use Rattle.layer_features.specs.declared.keep.Keep.{Keep as TheKeep};
ghost use Rattle.layer_features.specs.declared.feature.Feature.{Feature as TheFeature};
ghost use Rattle.layer_features.specs.Inner.Plotters.{Selection, selection, selection_after};
ghost use Rattle.layer_features.specs.Inner.States.{IsLike, after, command_of, copper_at, copper_state, takes_part};

use crate::clearing::Clearing;
use crate::contour::contour_of;
use crate::copies::lay;
use crate::counts::FeatureCounts;
use crate::drawing::Drawing;
use crate::feature::{Feature, FeatureKind};
use crate::keep::Keep;
use crate::kept_features::{KeptFeatures, first_taken_away};
use crate::part::{Part, add_operation, add_parts};
use crate::plotter::{Pencil, Plotter, Setting};
use gerber_text::{Command, Interpolation, LeadingOperation, StepRepeat};
use grid_units::Point;
use layer_state::{Current, Flash, ONE, What, quarter_turns, turned_shape};
use pad_shapes::{Drawn, PlacedRounded, SharedRounded, Why, WidePad};
use std::alloc::{AllocError, Global};

/// The most regions of a layer whose contours count as pads, each copy counted.
const MAX_REGIONS: u64 = 4_194_304;

/// The flashes and contours of the commands so far, or the pads among them that were not taken out, as clear polarity leaves them, and what these
/// commands draw that it has not taken away, each where it is asked for. It keeps the operations of the last region, and no command.
#[derive(Drop)]
pub struct Copper {
    alloc: Global,
    plotter: Plotter,
    parts: Vec<Part>,
    regions: u64,
    clearing: Clearing,
    kept: KeptFeatures,
    drawing: Drawing,
}

/// What is kept of the flashes and contours of some commands, and of what they draw.
#[derive(Drop)]
pub struct CopperParts {
    /// The flashes and contours, in the order of the text, where they are kept.
    pub features: Vec<Feature>,
    /// The pads among them that were not taken out, where pads alone are kept.
    pub pads: Vec<WidePad>,
    /// What is drawn that clear polarity does not take away, in order, where it is kept: the first 100,001 parts.
    pub drawn: Vec<Drawn>,
    /// How many flashes and contours there are of each kind.
    pub counts: FeatureCounts,
}

impl Copper {
    ghost use Rattle.layer_features.specs.CopperHolding.{HasMet, IsCopperOf, IsPassed, IsSettingOf, copper_pads, forgets_pads, standing_pads};

    /// No command was met.
    pub fn new(alloc: Global, keep: Keep) -> Copper
        ensures { HasMet keep [] result [] }
    {
        Copper {
            alloc,
            plotter: Plotter::new(),
            parts: Vec::new(alloc),
            regions: 0,
            clearing: Clearing::none(),
            kept: KeptFeatures::new(alloc, keep.rows()),
            drawing: Drawing::new(alloc, keep.draws()),
        }
    }

    /// Takes in one more command, which meets this setting, and whose flashes as the strict profile reads them are these. It adds them and its contours,
    /// and what it draws.
    ///
    /// # Errors
    ///
    /// An `AllocError` where there is no memory for them.
    pub fn take(
        &mut self,
        setting: &Setting,
        command: &Command,
        flashes: &[Flash],
    ) -> Result<(), AllocError>
        ensures { (keep : TheKeep) (taken : List ThePad) (commands : List TheCommand) → HasMet keep taken self.old commands → IsSettingOf setting.now commands command.now → flashes.now ≡ added_flashes (state_after commands) command.now → OnOk result (HasMet keep taken self.new (commands ++ command.now ∷ [])) }
    {
        self.draw(setting, command)?;
        self.add_flashes(setting, flashes)?;
        self.add_contours(setting, command)?;
        self.clear_where(setting, command)?;
        self.advance(setting, command)?;
        Ok(())
    }

    /// Takes in an interpolation, where there is one.
    fn take_mode(&mut self, state: &Current, mode: Option<Interpolation>) -> Result<(), AllocError>
        ensures { (keep : TheKeep) (taken : List ThePad) (commands : List TheCommand) → HasMet keep taken self.old commands → state.now ≡ current_of (state_after commands) → OnOk result (HasMet keep taken self.new (commands ++ modes_of mode)) }
    {
        let Some(mode) = mode else {
            return Ok(());
        };
        self.plotter.mode = mode;
        self.clear_by_copies(state)
    }

    /// Takes in an operation and the interpolation before it, if there is one, as [`Copper::take`] takes in their commands. The setting is
    /// the one of both, and the flashes are those of the operation.
    ///
    /// # Errors
    ///
    /// An `AllocError` where there is no memory for them.
    pub fn operate(
        &mut self,
        setting: &Setting,
        operation: &LeadingOperation,
        flashes: &[Flash],
    ) -> Result<(), AllocError>
        ensures { (keep : TheKeep) (taken : List ThePad) (commands : List TheCommand) → HasMet keep taken self.old commands → IsSettingOf setting.now (commands ++ modes_of operation.now.mode) (command_of operation.now) → flashes.now ≡ added_flashes (state_after (commands ++ modes_of operation.now.mode)) (command_of operation.now) → OnOk result (HasMet keep taken self.new ((commands ++ modes_of operation.now.mode) ++ command_of operation.now ∷ [])) }
    {
        self.take_mode(setting.current, operation.mode)?;
        if self.is_plain() {
            return self.add_operation(setting, operation, flashes);
        }
        let LeadingOperation {
            action,
            x,
            y,
            i,
            j,
            ..
        } = *operation;
        self.take(setting, &Command::Operate { action, x, y, i, j }, flashes)
    }

    /// Whether an operation changes nothing here but by its flashes: it lies outside of regions, and nothing is to be drawn or taken away. So it
    /// is with most.
    #[inline(always)]
    pub fn passes(&self, state: &Current, operation: &LeadingOperation) -> bool
        ensures { result ≡ true → IsPassed self.now state.now operation.now }
    {
        match operation.mode {
            None => !state.in_region && self.is_plain(),
            Some(_) => false,
        }
    }

    /// Adds the flashes of an operation that passes. The setting is the one after it, which has another current point alone.
    ///
    /// # Errors
    ///
    /// An `AllocError` where there is no memory for them.
    #[inline(always)]
    pub fn add_passed(&mut self, setting: &Setting, own: &[Flash]) -> Result<(), AllocError>
        ensures { (keep : TheKeep) (taken : List ThePad) (commands : List TheCommand) (o : TheOperation) → HasMet keep taken self.old commands → IsPassed self.old (current_of (state_after commands)) o → selection setting.now ≡ selection_after (commands ++ command_of o ∷ []) → own.now ≡ added_flashes (state_after commands) (command_of o) → OnOk result (HasMet keep taken self.new (commands ++ command_of o ∷ [])) }
    {
        self.add_flashes(setting, own)?;
        Ok(())
    }

    /// Whether nothing is to be drawn, polarity is dark, and nothing of the open block was drawn in clear polarity. So it is with most
    /// operations.
    fn is_plain(&self) -> bool
        ensures asked { result ≡ true → self.now.drawing.asked ≡ false }
        ensures clear { result ≡ true → self.now.clearing.clear ≡ false }
        ensures in_block { result ≡ true → self.now.clearing.in_block ≡ false }
    {
        !self.drawing.asked && !self.clearing.clear && !self.clearing.in_block
    }

    /// Takes in an operation that draws nothing and takes nothing away.
    fn add_operation(
        &mut self,
        setting: &Setting,
        operation: &LeadingOperation,
        flashes: &[Flash],
    ) -> Result<(), AllocError>
        requires asked { self.old.drawing.asked ≡ false }
        requires clear { self.old.clearing.clear ≡ false }
        requires in_block { self.old.clearing.in_block ≡ false }
        ensures { (keep : TheKeep) (taken : List ThePad) (commands : List TheCommand) → HasMet keep taken self.old commands → IsSettingOf setting.now commands (command_of operation.now) → flashes.now ≡ added_flashes (state_after commands) (command_of operation.now) → OnOk result (HasMet keep taken self.new (commands ++ command_of operation.now ∷ [])) }
    {
        self.add_flashes(setting, flashes)?;
        let plotter = &self.plotter;
        let pencil = Pencil { setting, plotter };
        add_operation(self.alloc, &mut self.parts, &pencil, operation)?;
        Ok(())
    }

    /// Takes in a comment or an attribute, whatever its text.
    ///
    /// # Errors
    ///
    /// An `AllocError`, which does not come.
    pub fn take_text(&mut self, state: &Current) -> Result<(), AllocError>
        ensures { (keep : TheKeep) (taken : List ThePad) (commands : List TheCommand) (kind : TheKind) (text : List ℕ) → HasMet keep taken self.old commands → state.now ≡ current_of (state_after commands) → OnOk result (HasMet keep taken self.new (commands ++ text_command kind text ∷ [])) }
    {
        self.clear_by_copies(state)
    }

    /// Adds what a command draws in dark polarity, where that is asked for. Takes away all that was drawn where the command does.
    fn draw(&mut self, setting: &Setting, command: &Command) -> Result<(), AllocError>
        ensures parts { OnOk result (self.new.drawing.parts.items ≡ (if clears_in (copper_at setting.now self.old) command.now then [] else self.old.drawing.parts.items ++ (if takes_part self.old.drawing then cons_option (dark_part (copper_at setting.now self.old) command.now) [] else []))) }
        ensures asked { self.new.drawing.asked ≡ self.old.drawing.asked }
        ensures kept { self.new.kept ≡ self.old.kept }
        ensures state { copper_at setting.now self.new ≡ copper_at setting.now self.old }
    {
        let takes_away = self.clears(setting, command);
        if takes_away {
            self.drawing.parts.clear();
            return Ok(());
        }
        if self.clearing.clear {
            return Ok(());
        }
        let plotter = &self.plotter;
        self.drawing.take(&Pencil { setting, plotter }, command)
    }

    /// Takes away all flashes and contours, and all that was drawn, where another copy of the open block does.
    fn clear_by_copies(&mut self, state: &Current) -> Result<(), AllocError>
        ensures kept { (taken : List ThePad) (features : List TheFeature) → KeepsFeatures self.old.kept taken features → OnOk result (KeepsFeatures self.new.kept taken (if is_repeated state.now.block && self.old.clearing.in_block then filter_map taken_away features else features)) }
        ensures rows { self.new.kept.rows ≡ self.old.kept.rows }
        ensures state { (now : Selection) → copper_state now self.new ≡ copper_state now self.old }
        ensures parts { OnOk result (self.new.drawing.parts.items ≡ (if is_repeated state.now.block && self.old.clearing.in_block then [] else self.old.drawing.parts.items)) }
        ensures asked { self.new.drawing.asked ≡ self.old.drawing.asked }
    {
        if is_repeated(state.block) && self.clearing.in_block {
            self.kept.take_away()?;
            self.drawing.parts.clear();
        }
        Ok(())
    }

    /// Adds the flashes of a command, which most commands have not.
    #[inline(always)]
    fn add_flashes(&mut self, setting: &Setting, flashes: &[Flash]) -> Result<(), AllocError>
        ensures kept { AddsFeatures result self.old.kept self.new.kept (map (flash_feature (copper_at setting.now self.old)) flashes.now) }
        ensures rows { self.new.kept.rows ≡ self.old.kept.rows }
        ensures state { copper_at setting.now self.new ≡ copper_at setting.now self.old }
        ensures drawing { self.new.drawing ≡ self.old.drawing }
    {
        if flashes.is_empty() {
            return Ok(());
        }
        if self.clearing.clear || self.kept.rows {
            return self.add_each(setting, flashes);
        }
        if let [flash] = flashes {
            if let What::Pad(pad) = flash.what {
                return self.kept.add_plain(pad);
            }
        }
        self.add_each(setting, flashes)
    }

    /// Adds flashes, of any aperture and in any polarity.
    #[inline(never)]
    fn add_each(&mut self, setting: &Setting, flashes: &[Flash]) -> Result<(), AllocError>
        ensures kept { AddsFeatures result self.old.kept self.new.kept (map (flash_feature (copper_at setting.now self.old)) flashes.now) }
        ensures rows { self.new.kept.rows ≡ self.old.kept.rows }
        ensures state { copper_at setting.now self.new ≡ copper_at setting.now self.old }
        ensures drawing { self.new.drawing ≡ self.old.drawing }
    {
        let shape = self.flash_shape(setting)?;
        let why = self.macro_why(setting);
        let is_clear = self.clearing.clear;
        add_flashes(&mut self.kept, is_clear, &shape, why, flashes)
    }

    /// Adds the contours of a command.
    fn add_contours(&mut self, setting: &Setting, command: &Command) -> Result<(), AllocError>
        ensures kept { AddsFeatures result self.old.kept self.new.kept (map contour_feature (contours_in (copper_at setting.now self.old) command.now)) }
        ensures rows { self.new.kept.rows ≡ self.old.kept.rows }
        ensures state { copper_at setting.now self.new ≡ copper_at setting.now self.old }
        ensures drawing { self.new.drawing ≡ self.old.drawing }
    {
        let Command::RegionEnd = command else {
            return Ok(());
        };
        match self.region_contour(setting)? {
            Some(contour) => lay(
                &mut self.kept,
                &contour,
                setting.current.unit(),
                &setting.current.block,
            ),
            None => Ok(()),
        }
    }

    /// Takes away all flashes and contours where a command does.
    fn clear_where(&mut self, setting: &Setting, command: &Command) -> Result<(), AllocError>
        ensures kept { (taken : List ThePad) (features : List TheFeature) → KeepsFeatures self.old.kept taken features → OnOk result (KeepsFeatures self.new.kept taken (if clears_in (copper_at setting.now self.old) command.now then filter_map taken_away features else features)) }
        ensures rows { self.new.kept.rows ≡ self.old.kept.rows }
        ensures state { copper_at setting.now self.new ≡ copper_at setting.now self.old }
        ensures drawing { self.new.drawing ≡ self.old.drawing }
    {
        if self.clears(setting, command) {
            return self.kept.take_away();
        }
        Ok(())
    }

    /// Whether a command takes away all that was drawn before it.
    fn clears(&self, setting: &Setting, command: &Command) -> bool
        ensures { result ≡ clears_in (copper_at setting.now self.now) command.now }
    {
        self.clearing.is_clearing(command)
            || (is_repeated(setting.current.block) && self.clearing.in_block)
    }

    /// The shape that the selected aperture flashes.
    fn flash_shape(&self, setting: &Setting) -> Result<Option<SharedRounded>, AllocError>
        ensures { IfOk result (λ answer. answer ≡ flash_shape (copper_at setting.now self.now)) }
    {
        if setting.current.scale.units() != ONE {
            return Ok(None);
        }
        let turn = setting.current.turn;
        match setting.shape() {
            Some(shape) => turned_shape(self.alloc, self.plotter.mirroring, turn, shape),
            None => Ok(None),
        }
    }

    /// Why a flash of the selected macro is no pad, where it is none.
    fn macro_why(&self, setting: &Setting) -> Why
        ensures { result ≡ macro_why (copper_at setting.now self.now) }
    {
        match setting.shape() {
            Some(_) if setting.current.scale.units() != ONE => Why::Scaled,
            Some(_) if quarter_turns(setting.current.turn).is_none() => Why::Turned,
            Some(_) | None => Why::Macro,
        }
    }

    /// The contour of the region that ends here, where it counts as a pad.
    fn region_contour(&self, setting: &Setting) -> Result<Option<SharedRounded>, AllocError>
        ensures { IfOk result (λ answer. answer ≡ region_contour (copper_at setting.now self.now)) }
    {
        if !setting.current.in_region || self.clearing.clear || !self.has_room(setting) {
            return Ok(None);
        }
        match contour_of(self.alloc, &self.parts)? {
            Some(shape) => Ok(Some(SharedRounded::new(self.alloc, shape)?)),
            None => Ok(None),
        }
    }

    /// How many regions ended, with the copies of one more, or one more than the most.
    fn regions_with_next(&self, block: StepRepeat) -> u64
        ensures { result ≡ min (self.now.regions + copy_count block) (suc max_regions) }
    {
        self.regions
            .saturating_add(copy_count(block))
            .min(MAX_REGIONS + 1)
    }

    /// Whether the regions that ended and the copies of one more are no more than the most.
    fn has_room(&self, setting: &Setting) -> bool
        ensures { result ≡ has_room (copper_at setting.now self.now) }
    {
        self.regions_with_next(setting.current.block) <= MAX_REGIONS
    }

    /// How many regions ended after one more command, or one more than the most.
    fn regions_after(&self, block: StepRepeat, command: &Command) -> u64
        ensures { result ≡ min (self.now.regions + ended_copies block command.now) (suc max_regions) }
    {
        match command {
            Command::RegionEnd => self.regions_with_next(block),
            _ => self.regions.min(MAX_REGIONS + 1),
        }
    }

    /// The pads that are held, in the order of the text: those since the last [`Copper::clear_pads`] that clear polarity has not taken away. None where
    /// flashes and contours are kept.
    pub fn pads(&self) -> &[WidePad]
        ensures { result.now ≡ copper_pads self.now }
    {
        &self.kept.pads
    }

    /// Whether clear polarity has taken away the pads that were dropped by the last [`Copper::clear_pads`] and before.
    pub fn are_forgotten(&self) -> bool
        ensures { result ≡ forgets_pads self.now }
    {
        self.kept.forgets
    }

    /// Drops the pads that are held. The memory that they took serves the next ones.
    pub fn clear_pads(&mut self)
        ensures none { copper_pads self.new ≡ [] }
        ensures last { forgets_pads self.new ≡ false }
        ensures gone { (keep : TheKeep) (taken : List ThePad) (commands : List TheCommand) → HasMet keep taken self.old commands → HasMet keep (standing_pads self.old taken) self.new commands }
    {
        self.kept.clear_pads();
    }

    /// What is kept of the flashes and contours, and of what is drawn.
    ///
    /// # Errors
    ///
    /// An `AllocError` where there is no memory for them.
    pub fn finish(self) -> Result<CopperParts, AllocError>
        ensures { (keep : TheKeep) (taken : List ThePad) (commands : List TheCommand) → HasMet keep taken self commands → IfOk result (IsCopperOf keep (left_pads self.kept taken) commands) }
    {
        let Copper {
            alloc,
            kept,
            drawing,
            ..
        } = self;
        let count = kept.cleared.min(kept.features.len());
        let features = first_taken_away(alloc, kept.features, count)?;
        Ok(CopperParts {
            features,
            pads: kept.pads,
            drawn: drawing.parts,
            counts: kept.counts,
        })
    }

    /// Takes in one more command without its flashes and contours.
    fn advance(&mut self, setting: &Setting, command: &Command) -> Result<(), AllocError>
        ensures state { OnOk result ((next : Selection) → IsLike (copper_state next self.new) (after next command.now (copper_at setting.now self.old))) }
        ensures kept { self.new.kept ≡ self.old.kept }
        ensures drawing { self.new.drawing ≡ self.old.drawing }
    {
        self.regions = self.regions_after(setting.current.block, command);
        self.clearing = self.clearing.after_command(command);
        let plotter = &self.plotter;
        let pencil = Pencil { setting, plotter };
        add_parts(self.alloc, &mut self.parts, &pencil, command)?;
        self.plotter.take(command);
        Ok(())
    }
}

/// The number of copies that a block makes of each of its objects.
fn copy_count(block: StepRepeat) -> u64
    ensures { result ≡ copy_count block }
{
    u64::from(block.columns) * u64::from(block.rows)
}

/// Whether a block makes more than one copy of each of its objects.
fn is_repeated(block: StepRepeat) -> bool
    ensures { result ≡ is_repeated block }
{
    copy_count(block) > 1
}

/// The pad of a shape at a point, where there is one and it may lie there.
fn flashed_pad(
    shape: &Option<SharedRounded>,
    at: Point,
) -> Result<Option<PlacedRounded>, AllocError>
    ensures { IfOk result (λ pad. pad ≡ option_and_then (λ shape. shape_at shape at) shape.now) }
{
    match shape {
        Some(shape) => PlacedRounded::new(shape, i128::from(at.x()), i128::from(at.y())),
        None => Ok(None),
    }
}

/// What a flash is that is no pad, neither by its aperture nor by its shape, by why the flash of a macro is none.
fn other_kind(why: Why, reason: Why) -> FeatureKind
    ensures { (s : CopperState) → why ≡ macro_why s → result ≡ other_kind s reason }
{
    match reason {
        Why::Macro => FeatureKind::Macro(why),
        Why::Polygon | Why::Holed | Why::Scaled | Why::Turned => FeatureKind::Other(reason),
    }
}

/// What a flash in dark polarity is that is no pad by its aperture for this reason, by its shape if it has one.
fn shaped_kind(
    shape: &Option<SharedRounded>,
    why: Why,
    reason: Why,
    at: Point,
) -> Result<FeatureKind, AllocError>
    ensures { (s : CopperState) → shape.now ≡ flash_shape s → why ≡ macro_why s → IfOk result (λ kind. kind ≡ dark_kind s at (what.Other reason)) }
{
    match flashed_pad(shape, at)? {
        Some(pad) => Ok(FeatureKind::Shape(pad, reason)),
        None => Ok(other_kind(why, reason)),
    }
}

/// What a flash in dark polarity is, by the shape of its aperture if it has one, and by why the flash of a macro is no pad.
fn dark_kind(
    shape: &Option<SharedRounded>,
    why: Why,
    flash: &Flash,
) -> Result<FeatureKind, AllocError>
    ensures { (s : CopperState) → shape.now ≡ flash_shape s → why ≡ macro_why s → IfOk result (λ kind. kind ≡ dark_kind s flash.now.at flash.now.what) }
{
    match flash.what {
        What::Pad(pad) => Ok(FeatureKind::Pad(pad)),
        What::Other(reason) => shaped_kind(shape, why, reason, flash.at),
    }
}

/// A flash, by its polarity, the shape of its aperture if it has one, and why the flash of a macro is no pad.
fn flash_feature(
    is_clear: bool,
    shape: &Option<SharedRounded>,
    why: Why,
    flash: &Flash,
) -> Result<Feature, AllocError>
    ensures { (s : CopperState) → is_clear ≡ s.clearing.clear → shape.now ≡ flash_shape s → why ≡ macro_why s → IfOk result (λ feature. feature ≡ flash_feature s flash.now) }
{
    let what = if is_clear {
        FeatureKind::Clear
    } else {
        dark_kind(shape, why, flash)?
    };
    Ok(Feature { at: flash.at, what })
}

/// Adds a flash, by its polarity, the shape of its aperture if it has one, and why the flash of a macro is no pad.
fn add_flash(
    kept: &mut KeptFeatures,
    is_clear: bool,
    shape: &Option<SharedRounded>,
    why: Why,
    flash: &Flash,
) -> Result<(), AllocError>
    ensures kept { (s : CopperState) → is_clear ≡ s.clearing.clear → shape.now ≡ flash_shape s → why ≡ macro_why s → AddsFeatures result kept.old kept.new (flash_feature s flash.now ∷ []) }
    ensures rows { kept.new.rows ≡ kept.old.rows }
{
    match flash.what {
        What::Pad(pad) if !is_clear && !kept.rows => kept.add_plain(pad),
        _ => kept.add(flash_feature(is_clear, shape, why, flash)?),
    }
}

/// Adds flashes, by their polarity, the shape of their aperture if it has one, and why the flash of a macro is no pad.
fn add_flashes(
    kept: &mut KeptFeatures,
    is_clear: bool,
    shape: &Option<SharedRounded>,
    why: Why,
    flashes: &[Flash],
) -> Result<(), AllocError>
    ensures kept { (s : CopperState) (taken : List ThePad) (features : List TheFeature) → is_clear ≡ s.clearing.clear → shape.now ≡ flash_shape s → why ≡ macro_why s → KeepsFeatures kept.old taken features → OnOk result (KeepsFeatures kept.new taken (features ++ map (flash_feature s) flashes.now)) }
    ensures rows { kept.new.rows ≡ kept.old.rows }
{
    for flash in flashes {
        add_flash(kept, is_clear, shape, why, flash)?;
    }
    Ok(())
}
