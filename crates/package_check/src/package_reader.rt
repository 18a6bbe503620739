//! A package whose files are taken in any order.

ghost use Rattle.std.specs.Prelude.{◌≡◌, ℕ, List, [], true, false, Some, Err, OnOk, OnErr, alloc_error, map};
ghost use Rattle.std.specs.List.{concat};
ghost use Rattle.layer_features.specs.Kept.{keeps_drawn, keeps_rows};
ghost use Rattle.layer_features.specs.declared.keep.Keep.{Keep as TheKeep};
ghost use Rattle.layer_features.specs.declared.keep.Keep.TheVariants as keep;
ghost use Rattle.manifest.specs.declared.Role.{Role as TheRole};
ghost use Rattle.manifest.specs.declared.Said.{Said as TheSaid};
ghost use Rattle.package_check.specs.Boards.{IsBoard, IsDrawnBoard, IsFlashedBoard, Returns};
ghost use Rattle.package_check.specs.Package.{FileView, unnamed_file};
ghost use Rattle.package_check.specs.Holding.{ReadsAt, is_wanted, next_stop};
ghost use Rattle.package_check.specs.OpenFiles.{HasOpened, HasReadText};
ghost use Rattle.package_check.specs.declared.PackageFault.TheVariants as stop;

use crate::boards::board_of;
use crate::open_file::{OpenFile, Reading};
use crate::slots::{Kept, put};
use crate::{Board, PackageFault, Role, Said};
use board::Shown;
use grid_units::{Fail, Profile};
use layer_features::Keep;
use layer_image::readings_in_profiles;
use std::alloc::{AllocError, Global};

/// A reader of a package, which takes its files in any order, each by its index in the package. It keeps the pads of a layer and the holes
/// of a drill file, flashes and what is drawn where they are asked for, and no text. After a file that is refused it reads only those before it.
#[derive(Drop)]
pub struct PackageReader {
    pub(crate) alloc: Global,
    pub(crate) layers: usize,
    keep: Keep,
    profile: Profile,
    pub(crate) slots: Vec<Option<Kept>>,
    /// The first file that is refused so far, or that memory ran out.
    pub(crate) stopped: Option<PackageFault>,
}

impl PackageReader {
    ghost use Rattle.package_check.specs.Holding.{HasTaken, HasTakenAll, IsOutOfMemory, TakesFile, setting_of};

    /// A reader that has taken no file, of a package with so many copper files, which it reads in this profile. It keeps no flashes, and
    /// nothing that is drawn.
    pub fn new(alloc: Global, layers: usize, profile: Profile) -> PackageReader
        ensures stands { (sources : List FileView) → HasTaken result keep.Pads sources (λ i. false) }
        ensures setting { setting_of result ≡ record { layers = layers; profile = profile } }
    {
        PackageReader::keeping(alloc, layers, profile, Keep::Pads)
    }

    /// A reader that has taken no file, as of `new`. Of each copper file it keeps what `keep` says.
    pub fn keeping(alloc: Global, layers: usize, profile: Profile, keep: Keep) -> PackageReader
        ensures stands { (sources : List FileView) → HasTaken result keep sources (λ i. false) }
        ensures setting { setting_of result ≡ record { layers = layers; profile = profile } }
    {
        PackageReader {
            alloc,
            layers,
            keep,
            profile,
            slots: Vec::new(alloc),
            stopped: None,
        }
    }

    /// Takes the file at this index of the package, from 0, whose text comes in these pieces. A file that is refused is no error here:
    /// [`PackageReader::board`] returns the first of them in the order of the package.
    ///
    /// # Errors
    ///
    /// An `AllocError` where there is no memory. A reader that has failed so fails again.
    pub fn take(
        &mut self,
        index: usize,
        role: Role,
        said: Said,
        pieces: &[&[u8]],
    ) -> Result<(), AllocError>
        ensures stands { (name : List ℕ) → OnOk result (TakesFile self.old self.new index (record {
          role = role;
          name = name;
          said = said;
          bytes = concat (map (λ piece. piece.now) pieces.now);
          setting = setting_of self.old;
        })) }
        ensures setting { setting_of self.new ≡ setting_of self.old }
        ensures failed { IsOutOfMemory self.old → result ≡ Err alloc_error }
        ensures fails { OnErr result (IsOutOfMemory self.new) }
    {
        let mut file = self.begin(index, role, said);
        for piece in pieces {
            // Where memory ran out, the end says so.
            let _ = file.take(piece);
        }
        self.end(file)
    }

    /// Opens the file at this index of the package, from 0, so that it can take its text piece by piece. The reader has taken it once it
    /// was ended, as [`PackageReader::end`] says.
    pub fn begin(&self, index: usize, role: Role, said: Said) -> OpenFile
        ensures { HasOpened self.now index role said result [] }
    {
        let reading = if is_wanted(self.stopped, index) {
            Reading::begin(
                self.alloc,
                self.keep,
                role,
                &said,
                self.layers,
                self.profile,
            )
        } else {
            Reading::Skipped
        };
        OpenFile {
            index,
            role,
            said,
            reading,
        }
    }

    /// Ends a file that was opened and has taken its whole text: with that the reader has taken it, as [`PackageReader::take`] says.
    ///
    /// # Errors
    ///
    /// An `AllocError` where there is no memory. A reader that has failed so fails again.
    pub fn end(&mut self, file: OpenFile) -> Result<(), AllocError>
        ensures stands { (index : ℕ) (role : TheRole) (said : TheSaid) (text name : List ℕ) → HasOpened self.old index role said file text → OnOk result (TakesFile self.old self.new index (record {
          role = role;
          name = name;
          said = said;
          bytes = text;
          setting = setting_of self.old;
        })) }
        ensures setting { setting_of self.new ≡ setting_of self.old }
        ensures failed { IsOutOfMemory self.old → result ≡ Err alloc_error }
        ensures fails { OnErr result (IsOutOfMemory self.new) }
    {
        let index = file.index;
        if !is_wanted(self.stopped, index) {
            // A call of `drop`: the proof need not go through the parts of the file's reader.
            drop(file);
            return outcome(self.stopped);
        }
        let read = self.put_file(file);
        self.stopped = next_stop(self.stopped, index, read);
        outcome(self.stopped)
    }

    /// Puts what is kept of a file into its slot.
    fn put_file(&mut self, file: OpenFile) -> Result<(), Fail>
        ensures read { (text : List ℕ) → HasReadText self.old.keep file.role file.said (setting_of self.old) file.reading text → ReadsAt self.old.keep file.index (unnamed_file file.role file.said (setting_of self.old) text) self.old.slots.items self.new.slots.items result }
        ensures setting { setting_of self.new ≡ setting_of self.old }
        ensures keep { self.new.keep ≡ self.old.keep }
        ensures stopped { self.new.stopped ≡ self.old.stopped }
    {
        let mut shown = Shown::nothing(self.alloc);
        let reading = file.reading;
        match reading.finish(self.alloc, self.keep, &mut shown, file.said) {
            Ok(content) => Ok(put(&mut self.slots, file.index, Kept { content, shown })?),
            Err(fail) => {
                // A call of `drop`: the proof need not go through the parts.
                drop(shown);
                Err(fail)
            }
        }
    }

    /// The board of the files that were taken, in the order of their indexes: what all of them say together, with the flashes of copper
    /// files and what these draw, where they are kept. A drill file's own list of holes is freed as they are appended to the board's.
    ///
    /// # Errors
    ///
    /// The first file that is refused, by its index, with its fault; `Memory` where there is no memory.
    pub fn board(self) -> Result<Board, PackageFault>
        ensures exact { (keep : TheKeep) (sources : List FileView) → HasTakenAll self keep sources → Returns IsBoard sources result }
        ensures flashes { (keep : TheKeep) (sources : List FileView) → HasTakenAll self keep sources → keeps_rows keep ≡ true → Returns IsFlashedBoard sources result }
        ensures drawn { (keep : TheKeep) (sources : List FileView) → HasTakenAll self keep sources → keeps_drawn keep ≡ true → Returns IsDrawnBoard sources result }
        ensures failed { IsOutOfMemory self → result ≡ Err stop.Memory }
    {
        readings_in_profiles();
        match self.stopped {
            Some(fault) => Err(fault),
            None => match board_of(self.alloc, self.slots) {
                Ok(board) => Ok(board),
                Err(_) => Err(PackageFault::Memory),
            },
        }
    }
}

/// Whether the file at this index stands before the first that is refused so far. None does once memory ran out.
pub(crate) fn is_wanted(stopped: Option<PackageFault>, index: usize) -> bool
    ensures { result ≡ is_wanted stopped index }
{
    match stopped {
        Some(PackageFault::Memory) => false,
        Some(PackageFault::File { index: refused, .. }) => index < refused,
        None => true,
    }
}

/// Whether memory ran out.
pub(crate) fn outcome(stopped: Option<PackageFault>) -> Result<(), AllocError>
    ensures failed { stopped ≡ Some stop.Memory → result ≡ Err alloc_error }
    ensures fails { OnErr result (stopped ≡ Some stop.Memory) }
{
    match stopped {
        Some(PackageFault::Memory) => Err(AllocError),
        Some(PackageFault::File { .. }) | None => Ok(()),
    }
}

/// Where a reader stops after the file at this index was read.
pub(crate) fn next_stop(
    stopped: Option<PackageFault>,
    index: usize,
    read: Result<(), Fail>,
) -> Option<PackageFault>
    ensures { result ≡ next_stop stopped index read }
{
    match read {
        Ok(()) => stopped,
        Err(Fail::Memory) => Some(PackageFault::Memory),
        Err(Fail::Refused(fault)) => Some(PackageFault::File { index, fault }),
    }
}
