//! A file of a package that is being read piece by piece.

ghost use Rattle.std.specs.Prelude.{◌≡◌, ◌++◌, ℕ, List, [], IfErr, IfOk, OnOk, true, false};
ghost use Rattle.drill_text.specs.Holding.{StandsBy};
ghost use Rattle.drill_text.specs.declared.kept.Keep.TheVariants as drill_keep;
ghost use Rattle.grid_units.specs.Results.{Answers};
ghost use Rattle.grid_units.specs.declared.fault.Fail.TheVariants as fails;
ghost use Rattle.layer_features.specs.Kept.{keeps_drawn, keeps_rows};
ghost use Rattle.layer_features.specs.declared.keep.Keep.{Keep as TheKeep};
ghost use Rattle.manifest.specs.declared.Role.{Role as TheRole};
ghost use Rattle.manifest.specs.declared.Said.{Said as TheSaid};
ghost use Rattle.package_check.specs.FileTexts.{Draws, format_in, plating_in};
ghost use Rattle.package_check.specs.Holding.{HasShown};
ghost use Rattle.package_check.specs.OpenFiles.{HasFailed, HasOpened, HasReadText, copper_keep, drill_role};
ghost use Rattle.package_check.specs.Package.{Reads, Setting, is_bad_span, is_copper, unnamed_file};
ghost use Rattle.package_check.specs.declared.package_reader.PackageReader.{PackageReader as TheReader};

use crate::contents::{Content, is_bad_span, read_copper, read_drill, read_mixed, refusal};
use crate::{Role, Said};
use board::Shown;
use drill_lines::CoordinateFormat;
use drill_text::{DrillReader, PlatingKind};
use grid_units::{Fail, Profile, Reason};
use layer_image::{Keep, LayerReader};
use std::alloc::{AllocError, Global};
use std::mem;

/// What is being read of a file, or why nothing more of it is.
#[derive(Drop)]
pub(crate) enum Reading {
    /// A copper file whose text so far shows no fault.
    Layer(LayerReader),
    /// A drill file whose text so far shows no fault.
    Drill { plated: bool, reader: DrillReader },
    /// A mixed drill file whose text so far shows no fault.
    Mixed(DrillReader),
    /// A file that is refused however its text goes on, or memory ran out.
    Failed(Fail),
    /// A file after one that is refused: nothing of it is read.
    Skipped,
}

/// By what it is known which holes of a file are plated whose role says of all of them whether they are. In the wide profile the words of
/// a file that its role calls unplated are held to that.
fn plating_in(profile: Profile, plated: bool) -> PlatingKind
    ensures { result ≡ plating_in profile plated }
{
    match profile {
        Profile::Strict => PlatingKind::Stated,
        Profile::Wide if plated => PlatingKind::Stated,
        Profile::Wide => PlatingKind::Unplated,
    }
}

/// What is heeded of what is said of a drill file's coordinates: in the strict profile nothing.
fn format_in(profile: Profile, format: Option<CoordinateFormat>) -> Option<CoordinateFormat>
    ensures { result ≡ format_in profile format }
{
    match profile {
        Profile::Strict => None,
        Profile::Wide => format,
    }
}

/// A reader of a drill file of this kind of which nothing was read.
fn begin_drill(
    alloc: Global,
    profile: Profile,
    known: PlatingKind,
    format: Option<CoordinateFormat>,
) -> Result<DrillReader, Fail>
    ensures stands { IfOk result (λ reader. StandsBy reader (record { profile = profile; plating = known; format = format_in profile format }) drill_keep.Holes []) }
    ensures fails { IfErr result (λ fail. fail ≡ fails.Memory) }
{
    let mut reader = DrillReader::of_kind(alloc, drill_text::Keep::Holes, profile, known);
    match format_in(profile, format) {
        Some(format) => {
            reader.say(format)?;
            Ok(reader)
        }
        None => Ok(reader),
    }
}

/// A drill file whose holes are alike, and of which nothing was read.
fn begin_alike(alloc: Global, plated: bool, profile: Profile, said: &Said) -> Reading
    ensures { (keep : TheKeep) (of : TheRole) (layers : ℕ) → of ≡ drill_role plated → is_bad_span of said.now.span layers ≡ false → HasReadText keep of said.now (record { layers = layers; profile = profile }) result [] }
{
    let known = plating_in(profile, plated);
    match begin_drill(alloc, profile, known, said.format) {
        Ok(reader) => Reading::Drill { plated, reader },
        Err(fail) => Reading::Failed(fail),
    }
}

impl Reading {
    /// A file of this role, of which this is said, in a package of so many copper files, of which nothing was read.
    pub(crate) fn begin(
        alloc: Global,
        keep: Keep,
        role: Role,
        said: &Said,
        layers: usize,
        profile: Profile,
    ) -> Reading
        ensures { HasReadText keep role said.now (record { layers = layers; profile = profile }) result [] }
    {
        if is_bad_span(role, said.span, layers) {
            return Reading::Failed(refusal(Reason::BadSpan));
        }
        match role {
            Role::Copper => {
                Reading::Layer(LayerReader::in_profile(alloc, copper_keep(keep), profile))
            }
            Role::Plated => begin_alike(alloc, true, profile, said),
            Role::Unplated => begin_alike(alloc, false, profile, said),
            Role::Mixed => match begin_drill(alloc, profile, PlatingKind::Mixed, said.format) {
                Ok(reader) => Reading::Mixed(reader),
                Err(fail) => Reading::Failed(fail),
            },
        }
    }

    /// Reads the next piece.
    fn feed(&mut self, piece: &[u8]) -> Result<(), Fail>
        ensures ok { (keep : TheKeep) (of : TheRole) (said : TheSaid) (setting : Setting) (text : List ℕ) → HasReadText keep of said setting self.old text → OnOk result (HasReadText keep of said setting self.new (text ++ piece.now)) }
        ensures err { (keep : TheKeep) (of : TheRole) (said : TheSaid) (setting : Setting) (text : List ℕ) → HasReadText keep of said setting self.old text → IfErr result (λ fail. HasFailed of said setting fail (text ++ piece.now)) }
    {
        layer_image::readings_in_profiles();
        drill_text::laws::readings_of_kinds();
        match self {
            Reading::Layer(reader) => reader.feed(piece),
            Reading::Drill { reader, .. } => reader.feed(piece),
            Reading::Mixed(reader) => reader.feed(piece),
            Reading::Failed(_) | Reading::Skipped => Ok(()),
        }
    }

    /// The content of the file whose text was read, or its fault. What is kept of a copper file to be shown is put into `shown`.
    pub(crate) fn finish(
        self,
        alloc: Global,
        keep: Keep,
        shown: &mut Shown,
        said: Said,
    ) -> Result<Content, Fail>
        ensures content { (of : TheRole) (setting : Setting) (text : List ℕ) → HasReadText keep of said setting self text → Answers (λ x. x) (Reads (unnamed_file of said setting text)) result }
        ensures flashes { (of : TheRole) (setting : Setting) (text : List ℕ) → HasReadText keep of said setting self text → keeps_rows keep ≡ true → is_copper of ≡ true → OnOk result (HasShown setting.profile text shown.new) }
        ensures drawn { (of : TheRole) (setting : Setting) (text : List ℕ) → HasReadText keep of said setting self text → keeps_drawn keep ≡ true → is_copper of ≡ true → OnOk result (Draws setting.profile text shown.new.drawn.items) }
    {
        match self {
            Reading::Layer(reader) => read_copper(alloc, keep, shown, reader),
            Reading::Drill { plated, reader } => read_drill(plated, said, reader),
            Reading::Mixed(reader) => read_mixed(alloc, said, reader),
            Reading::Failed(fail) => Err(fail),
            Reading::Skipped => Err(Fail::Memory),
        }
    }
}

/// A file of a package that is being read: [`crate::PackageReader::begin`] opens it, and [`crate::PackageReader::end`] ends it. It holds no text.
#[derive(Drop)]
pub struct OpenFile {
    pub(crate) index: usize,
    pub(crate) role: Role,
    pub(crate) said: Said,
    pub(crate) reading: Reading,
}

impl OpenFile {
    /// Takes the next piece of the file's text. A fault of the text is no error here, and what follows it is passed over.
    ///
    /// # Errors
    ///
    /// An `AllocError` where there is no memory. A file that has failed so fails again.
    pub fn take(&mut self, piece: &[u8]) -> Result<(), AllocError>
        ensures { (reader : TheReader) (index : ℕ) (of : TheRole) (said : TheSaid) (text : List ℕ) → HasOpened reader index of said self.old text → HasOpened reader index of said self.new (text ++ piece.now) }
    {
        if let Err(fail) = self.reading.feed(piece) {
            // A call of `drop`: the proof need not go through the parts of the reader that was there.
            drop(mem::replace(&mut self.reading, Reading::Failed(fail)));
        }
        match self.reading {
            Reading::Failed(Fail::Memory) => Err(AllocError),
            _ => Ok(()),
        }
    }
}

/// What is kept of a copper file of a package, of which no commands are kept: pads alone in place of a whole layer.
fn copper_keep(keep: Keep) -> Keep
    ensures { result ≡ copper_keep keep }
{
    match keep {
        Keep::Layer | Keep::Pads => Keep::Pads,
        Keep::Rows => Keep::Rows,
        Keep::RowsAndDrawn => Keep::RowsAndDrawn,
    }
}
