//! A layer that is read in pieces.

ghost use Rattle.std.specs.Prelude.{◌≡◌, ◌++◌, ◌<◌, ◌≤◌, [], ℕ, List, Err, Some, OnOk, IfOk, IfErr, IfSome, false, length, take, true};
ghost use Rattle.grid_units.specs.Results.{Answers, IfFault};
ghost use Rattle.grid_units.specs.declared.profile.Profile.{Profile as TheProfile};
ghost use Rattle.grid_units.specs.declared.profile.Profile.TheVariants.{Strict};
ghost use Rattle.pad_shapes.specs.declared.wide_pad.WidePad.{WidePad as ThePad};
ghost use Rattle.layer_features.specs.declared.keep.Keep.{Keep as TheKeep};
ghost use Rattle.layer_features.specs.declared.keep.Keep.TheVariants as keep;
ghost use Rattle.layer_image.specs.Holding.{HasMetText, ShowsLayerFaultIn};

use crate::command_sink::CommandSink;
use crate::content::LayerContent;
use crate::layer::Layer;
use gerber_text::{Command, Placed, WordReader};
use grid_units::{Fail, Profile};
use layer_features::Keep;
use pad_shapes::{Pad, WidePad};
use std::alloc::{AllocError, Global};

/// A reader of a layer that comes in pieces. It keeps what the layer will hold, except the pads that it has dropped, the
/// state and the unfinished item, and not the text.
#[derive(Drop)]
pub struct LayerReader {
    alloc: Global,
    words: WordReader,
    content: LayerContent,
    profile: Profile,
    keep: Keep,
    kept: Vec<Placed<Command>>,
    failed: Option<Fail>,
}

impl LayerReader {
    ghost use Rattle.gerber_text.specs.Reading.{Entries};
    ghost use Rattle.gerber_text.specs.Holding.{StandsIn, held_entries};
    ghost use Rattle.layer_features.specs.Kept.{keeps_commands};
    ghost use Rattle.layer_image.specs.Kept.{ReadsKeptIn};
    ghost use Rattle.layer_image.specs.Holding.{LayerStands, has_forgotten, held_plain, held_wide, layer_failure, left_pads, standing_pads};

    /// A reader that has read nothing, and keeps commands, flashes and pads in the strict profile.
    pub fn new(alloc: Global) -> LayerReader
        ensures { LayerStands result Strict keep.Layer [] [] }
    {
        LayerReader::in_profile(alloc, Keep::Layer, Profile::Strict)
    }

    /// A reader that has read nothing, and keeps these parts of the layer. It reads in this profile.
    pub fn in_profile(alloc: Global, keep: Keep, profile: Profile) -> LayerReader
        ensures { LayerStands result profile keep [] [] }
    {
        LayerReader {
            alloc,
            words: WordReader::in_profile(alloc, profile),
            content: LayerContent::new(alloc, keep, profile),
            profile,
            keep,
            kept: Vec::new(alloc),
            failed: None,
        }
    }

    /// The profile in which the reader reads.
    pub fn profile(&self) -> Profile
        ensures { (profile : TheProfile) (keep : TheKeep) (taken : List ThePad) (text : List ℕ) → LayerStands self.now profile keep taken text → result ≡ profile }
    {
        self.profile
    }

    /// Reads the next piece of the text.
    ///
    /// # Errors
    ///
    /// The first fault that the text shows so far, whatever follows; `Memory` where an allocation failed. A reader
    /// that has failed returns its failure again.
    pub fn feed(&mut self, piece: &[u8]) -> Result<(), Fail>
        ensures ok { (profile : TheProfile) (keep : TheKeep) (taken : List ThePad) (text : List ℕ) → LayerStands self.old profile keep taken text → OnOk result (LayerStands self.new profile keep taken (text ++ piece.now)) }
        ensures err { (profile : TheProfile) (keep : TheKeep) (taken : List ThePad) (text : List ℕ) → LayerStands self.old profile keep taken text → IfErr result (IfFault (ShowsLayerFaultIn profile (text ++ piece.now))) }
        ensures failed { IfSome (layer_failure self.old) (λ e. result ≡ Err e) }
        ensures fails { IfErr result (λ e. layer_failure self.new ≡ Some e) }
    {
        if let Some(fail) = self.failed {
            return Err(fail);
        }
        let outcome = self.advance(piece);
        if let Err(fail) = outcome {
            self.failed = Some(fail);
        }
        outcome
    }

    /// Reads the next piece of the text.
    fn advance(&mut self, piece: &[u8]) -> Result<(), Fail>
        ensures ok { (profile : TheProfile) (keep : TheKeep) (taken : List ThePad) (text : List ℕ) → LayerStands self.old profile keep taken text → OnOk result (LayerStands self.new profile keep taken (text ++ piece.now)) }
        ensures err { (profile : TheProfile) (keep : TheKeep) (taken : List ThePad) (text : List ℕ) → LayerStands self.old profile keep taken text → IfErr result (IfFault (ShowsLayerFaultIn profile (text ++ piece.now))) }
    {
        if self.keep.commands() {
            return self.take_whole(piece);
        }
        // The profile is asked once a piece, not at each command: there is a loop for each sink.
        match &mut self.content {
            LayerContent::Flashes(scan) => take_parts(self.alloc, &mut self.words, scan, piece),
            LayerContent::Features(met) => take_parts(self.alloc, &mut self.words, met, piece),
        }
    }

    /// Takes the next piece of the text where commands are kept: the items that it ends are read, then their commands
    /// are judged.
    fn take_whole(&mut self, piece: &[u8]) -> Result<(), Fail>
        requires { keeps_commands self.old.keep ≡ true }
        ensures ok { (profile : TheProfile) (keep : TheKeep) (taken : List ThePad) (text : List ℕ) → LayerStands self.old profile keep taken text → OnOk result (LayerStands self.new profile keep taken (text ++ piece.now)) }
        ensures err { (profile : TheProfile) (keep : TheKeep) (taken : List ThePad) (text : List ℕ) → LayerStands self.old profile keep taken text → IfErr result (IfFault (ShowsLayerFaultIn profile (text ++ piece.now))) }
    {
        let outcome = self.words.feed(piece);
        self.content.take_all(self.alloc, self.words.commands())?;
        outcome?;
        self.keep_commands()?;
        Ok(())
    }

    /// Holds the commands that the word reader holds. The first that are kept take no memory anew.
    fn keep_commands(&mut self) -> Result<(), AllocError>
        ensures words { (profile : TheProfile) (gone : Entries) (text : List ℕ) → StandsIn self.old.words profile gone text → StandsIn self.new.words profile (gone ++ held_entries self.old.words) text }
        ensures none { held_entries self.new.words ≡ [] }
        ensures content { self.new.content ≡ self.old.content }
        ensures profile { self.new.profile ≡ self.old.profile }
        ensures kept { OnOk result (self.new.kept.items ≡ self.old.kept.items ++ held_entries self.old.words) }
        ensures failed { self.new.failed ≡ self.old.failed }
        ensures keep { self.new.keep ≡ self.old.keep }
    {
        let mut commands = self.words.take_commands();
        if self.kept.is_empty() {
            self.kept = commands;
            return Ok(());
        }
        self.kept.append(&mut commands)
    }

    /// The pads that a reader of the strict profile holds, in order: those since the last [`LayerReader::clear_pads`]. None where flashes and contours
    /// are kept.
    pub fn pads(&self) -> &[Pad]
        ensures { result.now ≡ held_plain self.now }
    {
        self.content.pads()
    }

    /// The pads that a reader of the wide profile holds where pads alone are kept, in order: those since the last [`LayerReader::clear_pads`], as clear
    /// polarity leaves them.
    pub fn wide_pads(&self) -> &[WidePad]
        ensures { result.now ≡ held_wide self.now }
    {
        self.content.wide_pads()
    }

    /// Whether clear polarity has taken away all pads before those that the reader holds.
    pub fn are_forgotten(&self) -> bool
        ensures { result ≡ has_forgotten self.now }
    {
        self.content.are_forgotten()
    }

    /// Drops the pads so far: from here on [`LayerReader::pads`] and [`LayerReader::wide_pads`] give those that come after them, and so does the
    /// layer at the end. The memory that they took serves the next ones.
    pub fn clear_pads(&mut self)
        ensures plain { held_plain self.new ≡ [] }
        ensures wide { held_wide self.new ≡ [] }
        ensures last { has_forgotten self.new ≡ false }
        ensures gone { (profile : TheProfile) (keep : TheKeep) (taken : List ThePad) (text : List ℕ) → LayerStands self.old profile keep taken text → LayerStands self.new profile keep (standing_pads self.old taken) text }
        ensures failed { layer_failure self.new ≡ layer_failure self.old }
    {
        self.content.clear_pads();
    }

    /// Ends the text, and returns what is kept of its layer.
    ///
    /// # Errors
    ///
    /// The first fault of the text, whatever pads were taken. A reader that has failed returns its failure again.
    pub fn finish(self) -> Result<Layer, Fail>
        ensures exact { (profile : TheProfile) (keep : TheKeep) (taken : List ThePad) (text : List ℕ) → LayerStands self profile keep taken text → Answers (λ layer. layer) (ReadsKeptIn profile keep (left_pads self taken) text) result }
        ensures failed { IfSome (layer_failure self) (λ e. result ≡ Err e) }
    {
        let LayerReader {
            alloc,
            words,
            content,
            profile,
            kept,
            failed,
            ..
        } = self;
        if let Some(fail) = failed {
            return Err(fail);
        }
        words.finish()?;
        Ok(content.finish(alloc, profile, kept)?)
    }
}

/// Takes the next piece of the text where commands are dropped, part by part.
fn take_parts<C: CommandSink>(
    alloc: Global,
    words: &mut WordReader,
    content: &mut C,
    piece: &[u8],
) -> Result<(), Fail>
    ensures ok { (profile : TheProfile) (keep : TheKeep) (taken : List ThePad) (text : List ℕ) → HasMetText (C.has_met profile keep taken) words.old content.old profile text → OnOk result (HasMetText (C.has_met profile keep taken) words.new content.new profile (text ++ piece.now)) }
    ensures err { (profile : TheProfile) (keep : TheKeep) (taken : List ThePad) (text : List ℕ) → HasMetText (C.has_met profile keep taken) words.old content.old profile text → IfErr result (IfFault (ShowsLayerFaultIn profile (text ++ piece.now))) }
{
    let mut taken = 0;
    while taken < piece.len() {
        taken += take_leading(alloc, words, content, &piece[taken..])?;
    }
    Ok(())
}

/// Takes the plain operation at the start of these bytes, which becomes no command, if one stands there, else some
/// of the bytes. Returns how many bytes it took.
fn take_leading<C: CommandSink>(
    alloc: Global,
    words: &mut WordReader,
    content: &mut C,
    bytes: &[u8],
) -> Result<usize, Fail>
    requires { 0 < length bytes.now }
    ensures taken { IfOk result (λ n. (0 < n) × (n ≤ length bytes.now)) }
    ensures ok { (profile : TheProfile) (keep : TheKeep) (taken : List ThePad) (text : List ℕ) → HasMetText (C.has_met profile keep taken) words.old content.old profile text → IfOk result (λ n. HasMetText (C.has_met profile keep taken) words.new content.new profile (text ++ take n bytes.now)) }
    ensures err { (profile : TheProfile) (keep : TheKeep) (taken : List ThePad) (text : List ℕ) → HasMetText (C.has_met profile keep taken) words.old content.old profile text → IfErr result (IfFault (ShowsLayerFaultIn profile (text ++ bytes.now))) }
{
    match words.pass_operation(bytes) {
        Some(passed) => {
            let len = passed.len;
            content.take_operation(&passed)?;
            Ok(len)
        }
        None => Ok(take_other(alloc, words, content, bytes)?),
    }
}

/// Takes the comment or the attribute at the start of these bytes, whose text is not copied, if one stands there whole,
/// else some of the bytes. Returns how many bytes it took.
// Most items are operations, which do not come here.
#[inline(never)]
fn take_other<C: CommandSink>(
    alloc: Global,
    words: &mut WordReader,
    content: &mut C,
    bytes: &[u8],
) -> Result<usize, Fail>
    requires { 0 < length bytes.now }
    ensures ok { (profile : TheProfile) (keep : TheKeep) (taken : List ThePad) (text : List ℕ) → HasMetText (C.has_met profile keep taken) words.old content.old profile text → IfOk result (λ n. HasMetText (C.has_met profile keep taken) words.new content.new profile (text ++ take n bytes.now)) }
    ensures err { (profile : TheProfile) (keep : TheKeep) (taken : List ThePad) (text : List ℕ) → HasMetText (C.has_met profile keep taken) words.old content.old profile text → IfErr result (IfFault (ShowsLayerFaultIn profile (text ++ bytes.now))) }
    ensures taken { IfOk result (λ n. (0 < n) × (n ≤ length bytes.now)) }
{
    if content.has_open_region() {
        return take_part(alloc, words, content, bytes);
    }
    match words.pass_text(bytes) {
        Some(passed) => {
            content.take_text(alloc, passed.item.kind, passed.text_in(bytes))?;
            Ok(passed.len)
        }
        None => take_part(alloc, words, content, bytes),
    }
}

/// Takes some of these bytes, from the first on, judges the commands that they end and drops them. Returns how many
/// bytes it took.
// Most items are operations, which do not come here.
#[inline(never)]
fn take_part<C: CommandSink>(
    alloc: Global,
    words: &mut WordReader,
    content: &mut C,
    bytes: &[u8],
) -> Result<usize, Fail>
    requires { 0 < length bytes.now }
    ensures err { (profile : TheProfile) (keep : TheKeep) (taken : List ThePad) (text : List ℕ) → HasMetText (C.has_met profile keep taken) words.old content.old profile text → IfErr result (IfFault (ShowsLayerFaultIn profile (text ++ bytes.now))) }
    ensures ok { (profile : TheProfile) (keep : TheKeep) (taken : List ThePad) (text : List ℕ) → HasMetText (C.has_met profile keep taken) words.old content.old profile text → IfOk result (λ n. HasMetText (C.has_met profile keep taken) words.new content.new profile (text ++ take n bytes.now)) }
    ensures taken { IfOk result (λ n. (0 < n) × (n ≤ length bytes.now)) }
{
    let outcome = words.feed_part(bytes);
    content.take_commands(alloc, words.commands())?;
    let len = outcome?;
    words.clear_commands();
    Ok(len)
}
