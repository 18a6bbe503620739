//! A copper file of a check that is being read piece by piece.

ghost use Rattle.std.specs.Prelude.{◌≡◌, ◌++◌, ℕ, List, [], IfErr, IfOk, None, OnOk, false};
ghost use Rattle.grid_units.specs.Results.{Answers};
ghost use Rattle.manifest.specs.declared.Role.TheVariants as role;
ghost use Rattle.manifest.specs.declared.Said.{Said as TheSaid};
ghost use Rattle.package_check.specs.CheckViews.{is_drill_sum};
ghost use Rattle.package_check.specs.HoleViews.{HolesView};
ghost use Rattle.package_check.specs.Judging.{Judges};
ghost use Rattle.package_check.specs.OpenFiles.{HasFailed, HasReadCopper};
ghost use Rattle.package_check.specs.Package.{unnamed_file};

use crate::Said;
use crate::checking::Judged;
use crate::contents::refusal;
use crate::indexed_holes::IndexedHoles;
use grid_units::{Fail, Profile, Reason};
use layer_image::{Keep, LayerReader, readings_in_profiles};
use std::alloc::{AllocError, Global};
use std::mem;

/// What is being read of a copper file, or why nothing more of it is.
#[derive(Drop)]
pub(crate) enum CopperReading {
    /// A file whose text so far shows no fault.
    Layer(LayerReader),
    /// A file that is refused however its text goes on, or memory ran out.
    Failed(Fail),
    /// A file after one that is refused: nothing of it is read.
    Skipped,
}

impl CopperReading {
    /// A copper file of which this is said, and of which nothing was read. It is read in this profile.
    pub(crate) fn begin(alloc: Global, said: Said, profile: Profile) -> CopperReading
        ensures { (holes : HolesView) (layer layers : ℕ) → holes.search ≡ None → holes.rules.profile ≡ profile → HasReadCopper holes layer said layers result [] }
    {
        match said.span {
            Some(_) => CopperReading::Failed(refusal(Reason::BadSpan)),
            None => CopperReading::Layer(LayerReader::in_profile(alloc, Keep::Pads, profile)),
        }
    }

    /// Reads the next piece, and tries its pads at the holes, on the layer of this number.
    fn feed(
        &mut self,
        alloc: Global,
        holes: &mut IndexedHoles,
        layer: usize,
        piece: &[u8],
    ) -> Result<(), Fail>
        ensures ok { (said : TheSaid) (layers : ℕ) (text : List ℕ) → HasReadCopper holes.old layer said layers self.old text → OnOk result (HasReadCopper holes.new layer said layers self.new (text ++ piece.now)) }
        ensures err { (said : TheSaid) (layers : ℕ) (text : List ℕ) → HasReadCopper holes.old layer said layers self.old text → IfErr result (λ fail. HasFailed role.Copper said (record { layers = layers; profile = holes.old.rules.profile }) fail (text ++ piece.now)) }
        ensures holes { holes.new.holes ≡ holes.old.holes }
        ensures rules { holes.new.rules ≡ holes.old.rules }
    {
        readings_in_profiles();
        match self {
            CopperReading::Layer(reader) => holes.feed(alloc, layer, reader, piece),
            CopperReading::Failed(_) | CopperReading::Skipped => Ok(()),
        }
    }

    /// What is left of the file whose text was read, or its fault. Its layer has this number.
    pub(crate) fn finish(
        self,
        alloc: Global,
        holes: &mut IndexedHoles,
        layer: usize,
    ) -> Result<Judged, Fail>
        ensures layer { IfOk result (λ one. is_drill_sum one.sum ≡ false) }
        ensures judged { (said : TheSaid) (layers : ℕ) (text : List ℕ) → HasReadCopper holes.old layer said layers self text → Answers (λ x. x) (Judges holes.old.rules holes.old.holes layer (unnamed_file role.Copper said (record { layers = layers; profile = holes.old.rules.profile }) text)) result }
        ensures holes { holes.new.holes ≡ holes.old.holes }
        ensures rules { holes.new.rules ≡ holes.old.rules }
    {
        match self {
            CopperReading::Layer(reader) => holes.judge(alloc, layer, reader),
            CopperReading::Failed(fail) => Err(fail),
            CopperReading::Skipped => Err(Fail::Memory),
        }
    }
}

/// A copper file of a check that is being read: [`crate::PackageCheck::begin`] opens it, and [`crate::PackageCheck::end`] ends it. It holds
/// no text.
#[derive(Drop)]
pub struct OpenCopper {
    pub(crate) index: usize,
    pub(crate) layer: usize,
    pub(crate) reading: CopperReading,
}

impl OpenCopper {
    /// Reads the next piece, unless the file has failed.
    ///
    /// # Errors
    ///
    /// An `AllocError` where memory ran out while the file was read.
    pub(crate) fn read(
        &mut self,
        alloc: Global,
        holes: &mut IndexedHoles,
        piece: &[u8],
    ) -> Result<(), AllocError>
        ensures read { (said : TheSaid) (layers : ℕ) (text : List ℕ) → HasReadCopper holes.old self.old.layer said layers self.old.reading text → HasReadCopper holes.new self.old.layer said layers self.new.reading (text ++ piece.now) }
        ensures index { self.new.index ≡ self.old.index }
        ensures layer { self.new.layer ≡ self.old.layer }
        ensures holes { holes.new.holes ≡ holes.old.holes }
        ensures rules { holes.new.rules ≡ holes.old.rules }
    {
        if let Err(fail) = self.reading.feed(alloc, holes, self.layer, piece) {
            // A call of `drop`: the proof need not go through the parts of the reader that was there.
            drop(mem::replace(&mut self.reading, CopperReading::Failed(fail)));
        }
        match self.reading {
            CopperReading::Failed(Fail::Memory) => Err(AllocError),
            _ => Ok(()),
        }
    }
}
