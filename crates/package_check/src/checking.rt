//! The check of a package whose drill files are read before its copper files.

ghost use Rattle.std.specs.Prelude.{◌≡◌, ◌++◌, ◌∷◌, ℕ, List, [], Err, IfOk, Ok, OnErr, OnOk, Result, Some, alloc_error, false, length, map};
ghost use Rattle.std.specs.List.{concat, flat_map, sum_by};
ghost use Rattle.grid_units.specs.Holes.{GridRules};
ghost use Rattle.grid_units.specs.declared.fault.Fault.{Fault as TheFault};
ghost use Rattle.layer_features.specs.declared.keep.Keep.{Keep as TheKeep};
ghost use Rattle.manifest.specs.declared.Role.TheVariants as role;
ghost use Rattle.manifest.specs.declared.Said.{Said as TheSaid};
ghost use Rattle.package_check.specs.CheckViews.{CheckView, holes_in_slot, holes_of, is_drill_in, setting_of};
ghost use Rattle.package_check.specs.Checking.{HasJudged, HasJudgedAll, TakesCopper};
ghost use Rattle.package_check.specs.Holding.{HasTaken, ReadsInto, is_kind_at, kept_at, setting_of as reader_setting};
ghost use Rattle.package_check.specs.Inner.Leftovers.{count_in, holes_in, left_in, left_report, rings_in, sums_in};
ghost use Rattle.package_check.specs.Judging.{Judges};
ghost use Rattle.package_check.specs.OpenFiles.{HasOpenedCopper, HasReadCopper};
ghost use Rattle.package_check.specs.Package.{FileView, IsAnswer, NamesItsPlaces, ReturnsExactly, ReturnsReport, unnamed_file};
ghost use Rattle.package_check.specs.Reports.{ReportView};
ghost use Rattle.package_check.specs.Soundness.{IsSound};
ghost use Rattle.package_check.specs.SoundnessAsRead.{AreLegal};
ghost use Rattle.package_check.specs.declared.PackageFault.TheVariants as stop;
ghost use Rattle.package_check.specs.declared.checking.Judged.{Judged as TheJudged};

use crate::boards::{hole_total, layer_indexes, push_holes, sum_of};
use crate::indexed_holes::IndexedHoles;
use crate::laws::{findings_name_their_places, passing_is_sound, unique_answer, unique_reading};
use crate::open_copper::{CopperReading, OpenCopper};
use crate::package_reader::{is_wanted, next_stop, outcome};
use crate::package_report::report_of;
use crate::slots::{Kept, push, put};
use crate::{FileSum, PackageFault, PackageReader, Report, Said};
use grid_units::{Fail, Rules};
use ring_rules::{Drilled, Finding};
use std::alloc::{AllocError, Global};
use std::marker::Model;

/// The check of a package whose drill files were taken. It takes the copper files in any order, looks for the rings that are lacking on
/// each as it is read, and keeps no pads. After a file that is refused it reads only those before it.
#[derive(Drop)]
pub struct PackageCheck {
    alloc: Global,
    layers: usize,
    holes: IndexedHoles,
    slots: Vec<Option<Judged>>,
    /// The first file that is refused so far, or that memory ran out.
    stopped: Option<PackageFault>,
}

impl Model for PackageCheck {
    ghost use Rattle.std.specs.Prelude.{◌≡◌, length};
    ghost use Rattle.std.specs.List.{sum_by};
    ghost use Rattle.package_check.specs.CheckViews.{CheckView, holes_in_slot};

    ghost Value = { CheckView };

    ghost view = { λ c. record {
      layers = c.layers;
      holes = c.holes.holes;
      rules = c.holes.rules;
      index = c.holes.index;
      search = c.holes.search;
      slots = c.slots.items;
      stopped = c.stopped;
    } };

    ghost invariant = { λ c. sum_by holes_in_slot c.slots.items ≡ length c.holes.holes };
}

/// Appends what is left of the drill file in a slot, and its holes.
fn add_drill(
    alloc: Global,
    slot: &Option<Kept>,
    holes: &mut Vec<Drilled>,
    slots: &mut Vec<Option<Judged>>,
) -> Result<(), AllocError>
    ensures holes { OnOk result (holes.new.items ≡ holes.old.items ++ holes_in slot.now) }
    ensures slots { OnOk result (map left_in slots.new.items ≡ map left_in slots.old.items ++ count_in slot.now ∷ []) }
{
    match slot {
        Some(kept) => {
            push_holes(holes, &kept.content)?;
            let sum = sum_of(&kept.content);
            let rings = Vec::new(alloc);
            push(slots, Some(Judged { sum, rings }))
        }
        None => push(slots, None),
    }
}

impl PackageReader {
    /// Goes on to the copper files, where all drill files of the package were taken and no copper file was.
    ///
    /// # Errors
    ///
    /// `Memory` where there is no memory.
    pub fn checking(self, rules: Rules) -> Result<PackageCheck, AllocError>
        ensures stands { IfOk result (λ check. (keep : TheKeep) (sources : List FileView) → HasTaken self keep sources (is_kind_at false sources) → HasJudged check sources rules (is_kind_at false sources)) }
        ensures layers { IfOk result (λ check. check.layers ≡ (reader_setting self).layers) }
    {
        let mut drilled = Vec::with_capacity(self.alloc, hole_total(&self.slots))?;
        let mut slots = Vec::new(self.alloc);
        for slot in self.slots {
            let added = add_drill(self.alloc, &slot, &mut drilled, &mut slots);
            // Each file's own list of holes is freed once it is appended, by a call: the proof need not go through its parts.
            drop(slot);
            added?;
        }
        let holes = IndexedHoles::new(self.alloc, drilled, rules)?;
        Ok(PackageCheck {
            alloc: self.alloc,
            layers: self.layers,
            holes,
            slots,
            stopped: self.stopped,
        })
    }
}

/// Whether the slot at this index is that of a drill file.
fn has_drill(slots: &[Option<Judged>], index: usize) -> bool
    ensures { result ≡ is_drill_in (kept_at {X = TheJudged} slots.now index) }
{
    match slots.get(index) {
        Some(Some(one)) => matches!(one.sum, FileSum::Drill { .. } | FileSum::Mixed { .. }),
        Some(None) | None => false,
    }
}

impl PackageCheck {
    /// Takes the copper file at this index of the package, from 0, whose layer has this number among the copper files, from 0.
    ///
    /// # Errors
    ///
    /// An `AllocError` where there is no memory. A check that has failed so fails again.
    pub fn take(
        &mut self,
        index: usize,
        layer: usize,
        said: Said,
        pieces: &[&[u8]],
    ) -> Result<(), AllocError>
        ensures stands { (name : List ℕ) → OnOk result (TakesCopper self.old self.new index layer (record {
          role = role.Copper;
          name = name;
          said = said;
          bytes = concat (map (λ piece. piece.now) pieces.now);
          setting = setting_of self.old;
        })) }
        ensures setting { setting_of self.new ≡ setting_of self.old }
        ensures failed { self.old.stopped ≡ Some stop.Memory → result ≡ Err alloc_error }
        ensures fails { OnErr result (self.new.stopped ≡ Some stop.Memory) }
    {
        let mut file = self.begin(index, layer, said);
        for piece in pieces {
            // Where memory ran out, the end says so.
            let _ = self.take_piece(&mut file, piece);
        }
        self.end(file)
    }

    /// Opens the copper file at this index of the package, from 0, whose layer has this number among the copper files, from 0, so that it
    /// can take its text piece by piece. One file is open at a time: each that is opened ends what was read of the one before. The check
    /// has taken the file once it was ended, as [`PackageCheck::end`] says.
    pub fn begin(&mut self, index: usize, layer: usize, said: Said) -> OpenCopper
        ensures { HasOpenedCopper self.old self.new index layer said result [] }
    {
        self.holes.forget_search();
        let reading = if is_wanted(self.stopped, index) {
            CopperReading::begin(self.alloc, said, self.holes.rules().profile())
        } else {
            CopperReading::Skipped
        };
        OpenCopper {
            index,
            layer,
            reading,
        }
    }

    /// Takes the next piece of the text of the file that is open. A fault of the text is no error here, and what follows it is passed over.
    ///
    /// # Errors
    ///
    /// An `AllocError` where there is no memory. A file that has failed so fails again.
    pub fn take_piece(&mut self, file: &mut OpenCopper, piece: &[u8]) -> Result<(), AllocError>
        ensures { (start : CheckView) (index layer : ℕ) (said : TheSaid) (text : List ℕ) → HasOpenedCopper start self.old index layer said file.old text → HasOpenedCopper start self.new index layer said file.new (text ++ piece.now) }
    {
        file.read(self.alloc, &mut self.holes, piece)
    }

    /// Ends the file that is open and has taken its whole text: with that the check has taken it, as [`PackageCheck::take`] says.
    ///
    /// # Errors
    ///
    /// An `AllocError` where there is no memory. A check that has failed so fails again.
    pub fn end(&mut self, file: OpenCopper) -> Result<(), AllocError>
        ensures stands { (start : CheckView) (index layer : ℕ) (said : TheSaid) (text name : List ℕ) → HasOpenedCopper start self.old index layer said file text → OnOk result (TakesCopper start self.new index layer (record {
          role = role.Copper;
          name = name;
          said = said;
          bytes = text;
          setting = setting_of start;
        })) }
        ensures setting { setting_of self.new ≡ setting_of self.old }
        ensures failed { self.old.stopped ≡ Some stop.Memory → result ≡ Err alloc_error }
        ensures fails { OnErr result (self.new.stopped ≡ Some stop.Memory) }
    {
        let index = file.index;
        if !is_wanted(self.stopped, index) {
            // A call of `drop`: the proof need not go through the parts of the file's reader.
            drop(file);
            return outcome(self.stopped);
        }
        let read = self.put_file(file);
        self.stopped = next_stop(self.stopped, index, read);
        outcome(self.stopped)
    }

    /// Puts what is left of a copper file that was read into its slot, unless a drill file was taken at its index.
    fn put_file(&mut self, file: OpenCopper) -> Result<(), Fail>
        ensures read { (said : TheSaid) (text : List ℕ) → HasReadCopper (holes_of self.old) file.layer said self.old.layers file.reading text → is_drill_in (kept_at self.old.slots file.index) ≡ false → ReadsInto (λ one. Judges self.old.rules self.old.holes file.layer (unnamed_file role.Copper said (setting_of self.old) text) (Ok one)) file.index (unnamed_file role.Copper said (setting_of self.old) text) self.old.slots self.new.slots result }
        ensures layers { self.new.layers ≡ self.old.layers }
        ensures holes { self.new.holes ≡ self.old.holes }
        ensures rules { self.new.rules ≡ self.old.rules }
        ensures stopped { self.new.stopped ≡ self.old.stopped }
    {
        match file.reading.finish(self.alloc, &mut self.holes, file.layer) {
            Ok(judged) if has_drill(&self.slots, file.index) => Ok(drop(judged)),
            Ok(judged) => Ok(put(&mut self.slots, file.index, judged)?),
            Err(fail) => Err(fail),
        }
    }

    /// The report on the files that were taken, in the order of their indexes, as that of [`crate::check_bytes`].
    ///
    /// # Errors
    ///
    /// The first file that is refused, by its index, with its fault; `Memory` where there is no memory.
    pub fn finish(self) -> Result<Report, PackageFault>
        ensures exact { (sources : List FileView) (rules : GridRules) → HasJudgedAll self sources rules → ReturnsReport sources rules result }
        ensures only { (sources : List FileView) (rules : GridRules) (answer : Result ReportView (ℕ × TheFault)) → HasJudgedAll self sources rules → IsAnswer sources rules answer → ReturnsExactly answer result }
        ensures places { (sources : List FileView) (rules : GridRules) → HasJudgedAll self sources rules → IfOk result NamesItsPlaces }
        ensures legal { (sources : List FileView) (rules : GridRules) → HasJudgedAll self sources rules → IfOk result (λ report. AreLegal sources) }
        ensures sound { (sources : List FileView) (rules : GridRules) → HasJudgedAll self sources rules → IfOk result (λ report. report.findings ≡ [] → IsSound sources rules) }
        ensures failed { self.stopped ≡ Some stop.Memory → result ≡ Err stop.Memory }
    {
        unique_answer();
        findings_name_their_places();
        passing_is_sound();
        unique_reading();
        match self.stopped {
            Some(fault) => Err(fault),
            None => match report_on_slots(self.alloc, self.holes, self.slots) {
                Ok(report) => Ok(report),
                Err(_) => Err(PackageFault::Memory),
            },
        }
    }
}

/// Moves what is left of the files in the slots to the lists of counts and of findings.
fn add_left(
    files: &mut Vec<FileSum>,
    findings: &mut Vec<Finding>,
    slots: Vec<Option<Judged>>,
) -> Result<(), AllocError>
    ensures files { OnOk result (files.new.items ≡ files.old.items ++ flat_map sums_in slots.items) }
    ensures findings { OnOk result (findings.new.items ≡ findings.old.items ++ flat_map rings_in slots.items) }
{
    for slot in slots {
        if let Some(one) = slot {
            push(files, one.sum)?;
            findings.extend_from_slice(&one.rings)?;
        }
    }
    Ok(())
}

/// The report on the files in the slots: their counts, the findings of rings layer by layer, and then those of gaps.
#[tactic(auto, using(crate::proofs::JudgedLayers::sums_counted))]
fn report_on_slots(
    alloc: Global,
    holes: IndexedHoles,
    slots: Vec<Option<Judged>>,
) -> Result<Report, AllocError>
    requires { sum_by holes_in_slot slots.items ≡ length holes.holes }
    ensures { IfOk result (λ report. report ≡ left_report holes.rules holes.holes slots.items) }
{
    let rules = holes.rules();
    let (holes, gaps) = holes.into_gaps(alloc)?;
    let mut files = Vec::new(alloc);
    let mut findings = Vec::new(alloc);
    add_left(&mut files, &mut findings, slots)?;
    findings.extend_from_slice(&gaps)?;
    let layers = layer_indexes(alloc, &files)?;
    report_of(alloc, rules, files, layers, holes, findings)
}

/// What is left of a file: its counts, and the findings of rings on its layer.
#[derive(Drop)]
pub(crate) struct Judged {
    pub(crate) sum: FileSum,
    pub(crate) rings: Vec<Finding>,
}
