//! A reader of a drill file that comes in pieces.

ghost use Rattle.std.specs.Prelude.{◌≡◌, ◌≢◌, ◌≤◌, ◌<◌, ◌+◌, true, ℕ, suc, List, All, length, vec_len, take, slice_index, Some, None, Ok, Err, OnOk, IfOk, IfErr, IfSome, [], ◌∷◌, ◌++◌};
ghost use Rattle.drill_lines.specs.declared.command.DrillCommand.{DrillCommand as TheCommand};
ghost use Rattle.drill_lines.specs.declared.command.DrillCommand.TheVariants as command;
ghost use Rattle.grid_units.specs.declared.fault.Fault.{Fault};
ghost use Rattle.grid_units.specs.declared.fault.Fail.TheVariants.{Memory, Refused};
ghost use Rattle.grid_units.specs.Limits.{line_limit, text_limit};
ghost use Rattle.grid_units.specs.Results.{fault, with_place, Answers, IfFault};
ghost use Rattle.drill_text.specs.Repeats.{further_hits, hit_on};
ghost use Rattle.drill_text.specs.Profiles.{Kind, Reads, ReadsAsBy, checked_all, checked_by, checked_repeat, place_after_count, spelled_in, with_rest, ShowsBy};
ghost use Rattle.drill_text.specs.Plating.{rule_in};
ghost use Rattle.drill_text.specs.declared.kept.Keep.{Keep as TheKeep};
ghost use Rattle.drill_text.specs.declared.platings.PlatingKind.{PlatingKind as ThePlating};
ghost use Rattle.drill_text.specs.declared.platings.PlatingKind.TheVariants as plating;
ghost use Rattle.drill_text.specs.declared.kept.Keep.TheVariants as keep;
ghost use Rattle.drill_text.specs.Keeping.{HasRead, HasReadIn, KeepsMore, ResultsIn, ResultsInLine};
ghost use Rattle.drill_text.specs.Lines.{bytes_of};
ghost use Rattle.grid_units.specs.declared.profile.Profile.{Profile as TheProfile};
ghost use Rattle.drill_text.specs.Outcome.{commands_in, file_of};
ghost use Rattle.drill_text.specs.Texts.{IsDrillText, ReadsAs};
ghost use Rattle.drill_text.specs.Writing.{drill_sayable};

use crate::drill::Drill;
use crate::fast_path::leading_hit;
use crate::kept::{Keep, KeptCommands};
use crate::platings::PlatingKind;
use crate::state::DrillState;
use drill_lines::{CoordinateFormat, Coordinates, DrillCommand, LineReader, Repeat};
use grid_units::{Fail, Fault, ItemFail, LINE_LIMIT, Profile, Reason};
use memchr::memchr;
use std::alloc::Global;

/// The limit of a text's length, 268,435,456 bytes, as an offset.
const TEXT_LIMIT: u64 = grid_units::TEXT_LIMIT as u64;

/// What was read so far, and the line that has not ended.
#[derive(Drop)]
struct Progress {
    reader: LineReader,
    state: DrillState,
    kept: KeptCommands,
    line: Vec<u8>,
    start: u64,
    offset: u64,
    lines: u64,
    ghost counted: { lines ≤ offset },
    ghost in_text: { offset ≤ text_limit },
    ghost in_line: { vec_len line ≤ line_limit },
}

/// How many bytes stand before the first LF.
fn line_len(bytes: &[u8]) -> usize
    ensures within { result ≤ length bytes.now }
    ensures inside { All (λ b. b ≢ 10) (take result bytes.now) }
    ensures stops { result < length bytes.now → slice_index bytes.now result ≡ 10 }
{
    match memchr(b'\n', bytes) {
        Some(at) => at,
        None => bytes.len(),
    }
}

fn refusal(place: u64, byte: u64, reason: Reason) -> Fail
    ensures { result ≡ Refused (fault place byte reason) }
{
    Fail::Refused(Fault {
        place,
        byte,
        reason,
    })
}

/// Checks a command, and adds it if it breaks no rule.
fn keep(
    place: u64,
    byte: u64,
    command: DrillCommand,
    state: &mut DrillState,
    kept: &mut KeptCommands,
) -> Result<(), Fail>
    ensures { (kind : Kind) (keep : TheKeep) (before : List TheCommand) → HasRead state.old kept.old kind keep before → ResultsIn result state.new kept.new kind keep (with_place place byte (checked_by (rule_in kind.profile kind.plating) before (Some command))) }
{
    match state.step(&command) {
        Ok(()) => {
            kept.add(command)?;
            Ok(())
        }
        Err(ItemFail::Memory) => Err(Fail::Memory),
        Err(ItemFail::Refused(reason)) => Err(refusal(place, byte, reason)),
    }
}

/// Checks a hit, and adds it if it breaks no rule. No command is made of it where none is kept.
fn keep_hit(
    place: u64,
    byte: u64,
    point: Coordinates,
    state: &mut DrillState,
    kept: &mut KeptCommands,
) -> Result<(), Fail>
    ensures { (kind : Kind) (keep : TheKeep) (before : List TheCommand) → HasRead state.old kept.old kind keep before → ResultsIn result state.new kept.new kind keep (with_place place byte (checked_by (rule_in kind.profile kind.plating) before (Some (command.Hit point)))) }
{
    match state.step_hit(&point) {
        Ok(()) => {
            kept.add_hit(point)?;
            Ok(())
        }
        Err(ItemFail::Memory) => Err(Fail::Memory),
        Err(ItemFail::Refused(reason)) => Err(refusal(place, byte, reason)),
    }
}

/// Checks one further hit, a step from the last one, and adds it if it breaks no rule.
fn keep_next(
    place: u64,
    byte: u64,
    step: &Coordinates,
    state: &mut DrillState,
    kept: &mut KeptCommands,
) -> Result<(), Fail>
    ensures { KeepsMore result state.old kept.old state.new kept.new place byte (λ rule before. checked_by rule before (Some (hit_on before step.now 1))) }
{
    match state.next_point(step) {
        Ok(point) => keep_hit(place, byte, point, state, kept),
        Err(reason) => Err(refusal(place, byte, reason)),
    }
}

/// Checks the further hits of a repeat one by one, and adds those before the first that breaks a rule.
fn keep_all(
    place: u64,
    byte: u64,
    repeat: Repeat,
    state: &mut DrillState,
    kept: &mut KeptCommands,
) -> Result<(), Fail>
    ensures { KeepsMore result state.old kept.old state.new kept.new place byte (λ rule before. checked_all rule before (further_hits before repeat)) }
{
    let mut left = repeat.count;
    while left > 0 {
        keep_next(place, byte, &repeat.step, state, kept)?;
        left -= 1;
    }
    Ok(())
}

/// Checks what a line repeats, and adds its further hits.
fn keep_repeat(
    place: u64,
    byte: u64,
    read: Result<Repeat, Reason>,
    state: &mut DrillState,
    kept: &mut KeptCommands,
) -> Result<(), Fail>
    ensures { KeepsMore result state.old kept.old state.new kept.new place byte (λ rule before. checked_repeat rule before read) }
{
    match read {
        Ok(repeat) => keep_all(place, byte, repeat, state, kept),
        Err(reason) => Err(refusal(place, byte, reason)),
    }
}

/// Reads and judges a line, and adds the commands that it spells.
fn parse_line(
    place: u64,
    byte: u64,
    line: &[u8],
    reader: &mut LineReader,
    state: &mut DrillState,
    kept: &mut KeptCommands,
) -> Result<(), Fail>
    requires short { length line.now ≤ line_limit }
    ensures { (kind : Kind) (keep : TheKeep) (earlier : List (List ℕ)) (before : List TheCommand) → place ≡ suc (length earlier) → byte ≡ length (bytes_of earlier) → HasReadIn reader.old state.old kept.old kind keep earlier before → ResultsInLine result reader.new state.new kept.new kind keep earlier line.now (spelled_in kind earlier line.now before) }
{
    match reader.read_repeat(kept.is_after_hit(), &state.settings(), line) {
        Some(repeat) => keep_repeat(place, byte, repeat, state, kept),
        None => match reader.read(state.settings(), line) {
            Ok(None) => Ok(()),
            Ok(Some(command)) => keep(place, byte, command, state, kept),
            Err(ItemFail::Memory) => Err(Fail::Memory),
            Err(ItemFail::Refused(reason)) => Err(refusal(place, byte, reason)),
        },
    }
}

impl Progress {
    ghost use Rattle.drill_lines.specs.declared.command.Part.TheVariants as part;
    ghost use Rattle.drill_lines.specs.declared.route.Machine.TheVariants as machine;
    ghost use Rattle.drill_lines.specs.declared.route.Route.TheVariants as route;
    ghost use Rattle.drill_text.specs.Inner.FastPath.{HasLeadingHit};
    ghost use Rattle.drill_text.specs.Holding.{Advances, Refuses, RefusesText, Holds};

    /// A reader that has read nothing, of a file whose platings are known so.
    fn new(alloc: Global, keep: Keep, profile: Profile, plating: PlatingKind) -> Progress
        ensures { Holds result (record { profile = profile; plating = plating; format = None }) keep [] }
    {
        Progress {
            reader: LineReader::new(alloc, profile),
            state: DrillState::new(alloc, profile, plating),
            kept: KeptCommands::new(alloc, keep),
            line: Vec::new(alloc),
            start: 0,
            offset: 0,
            lines: 0,
        }
    }

    /// Takes in what is said of the coordinates before the first line.
    fn say(&mut self, format: CoordinateFormat) -> Result<(), Fail>
        ensures ok { (profile : TheProfile) (plating : ThePlating) (keep : TheKeep) → Holds self.old (record { profile = profile; plating = plating; format = None }) keep [] → OnOk result (Holds self.new (record { profile = profile; plating = plating; format = Some format }) keep []) }
        ensures err { IfErr result (λ e. e ≡ Memory) }
    {
        // Nothing stands before this command, so it breaks no rule.
        match keep(0, 0, format.command(), &mut self.state, &mut self.kept) {
            Ok(()) => Ok(()),
            Err(_) => Err(Fail::Memory),
        }
    }

    /// Adds bytes to the line that has not ended.
    fn extend(&mut self, run: &[u8]) -> Result<(), Fail>
        requires inside { All (λ b. b ≢ 10) run.now }
        requires room { self.old.offset + length run.now ≤ text_limit }
        ensures offset { OnOk result (self.new.offset ≡ self.old.offset + length run.now) }
        ensures ok { OnOk result (Advances self.old self.new run.now) }
        ensures err { IfErr result (Refuses self.old run.now) }
    {
        if run.len() > LINE_LIMIT - self.line.len() {
            return Err(refusal(self.lines + 1, self.start, Reason::TooLong));
        }
        self.line.extend_from_slice(run)?;
        self.offset += run.len() as u64;
        Ok(())
    }

    /// Ends the line with its LF, and reads it.
    fn close(&mut self) -> Result<(), Fail>
        requires room { self.old.offset < text_limit }
        ensures offset { OnOk result (self.new.offset ≡ self.old.offset + 1) }
        ensures ok { OnOk result (Advances self.old self.new (10 ∷ [])) }
        ensures err { IfErr result (Refuses self.old (10 ∷ [])) }
    {
        parse_line(
            self.lines + 1,
            self.start,
            &self.line,
            &mut self.reader,
            &mut self.state,
            &mut self.kept,
        )?;
        self.line.clear();
        self.lines += 1;
        self.offset += 1;
        self.start = self.offset;
        Ok(())
    }

    /// Reads a line that stands in one piece with its LF.
    fn take_whole_line(&mut self, line: &[u8]) -> Result<(), Fail>
        requires empty { self.old.line.items ≡ [] }
        requires inside { All (λ b. b ≢ 10) line.now }
        requires short { length line.now ≤ line_limit }
        requires room { self.old.offset + length line.now < text_limit }
        ensures offset { OnOk result (self.new.offset ≡ self.old.offset + (length line.now + 1)) }
        ensures ok { OnOk result (Advances self.old self.new (line.now ++ 10 ∷ [])) }
        ensures err { IfErr result (Refuses self.old (line.now ++ 10 ∷ [])) }
    {
        parse_line(
            self.lines + 1,
            self.start,
            line,
            &mut self.reader,
            &mut self.state,
            &mut self.kept,
        )?;
        self.lines += 1;
        self.offset += line.len() as u64 + 1;
        self.start = self.offset;
        Ok(())
    }

    /// Reads the hit at the start of the bytes, with the LF of its line.
    fn take_hit(&mut self, point: Coordinates, len: usize, bytes: &[u8]) -> Result<(), Fail>
        requires leads { HasLeadingHit self.old.state.settings point len bytes.now }
        requires body { self.old.state.settings.part ≡ part.Body }
        requires drilling { self.old.reader.route ≡ route.Free machine.Drilling }
        requires empty { self.old.line.items ≡ [] }
        requires room { self.old.offset + length bytes.now ≤ text_limit }
        ensures offset { OnOk result (self.new.offset ≡ self.old.offset + (len + 1)) }
        ensures ok { OnOk result (Advances self.old self.new (take (len + 1) bytes.now)) }
        ensures err { IfErr result (Refuses self.old bytes.now) }
    {
        keep_hit(
            self.lines + 1,
            self.start,
            point,
            &mut self.state,
            &mut self.kept,
        )?;
        self.lines += 1;
        self.offset += len as u64 + 1;
        self.start = self.offset;
        Ok(())
    }

    /// Adds bytes to the line and ends it with its LF.
    fn take_line(&mut self, run: &[u8]) -> Result<(), Fail>
        requires inside { All (λ b. b ≢ 10) run.now }
        requires room { self.old.offset + length run.now < text_limit }
        ensures offset { OnOk result (self.new.offset ≡ self.old.offset + (length run.now + 1)) }
        ensures ok { OnOk result (Advances self.old self.new (run.now ++ 10 ∷ [])) }
        ensures err { IfErr result (Refuses self.old (run.now ++ 10 ∷ [])) }
    {
        if self.line.is_empty() && run.len() <= LINE_LIMIT {
            return self.take_whole_line(run);
        }
        self.extend(run)?;
        self.close()
    }

    /// Reads some of the bytes, from the first on, and returns how many.
    fn take_some(&mut self, bytes: &[u8]) -> Result<usize, Fail>
        requires some { 0 < length bytes.now }
        requires room { self.old.offset + length bytes.now ≤ text_limit }
        ensures taken { IfOk result (λ n. (0 < n) × (n ≤ length bytes.now) × (self.new.offset ≡ self.old.offset + n)) }
        ensures ok { IfOk result (λ n. Advances self.old self.new (take n bytes.now)) }
        ensures err { IfErr result (Refuses self.old bytes.now) }
    {
        if self.line.is_empty() && self.state.is_in_body() && self.reader.may_drill() {
            if let Some((point, len)) = leading_hit(&self.state.settings(), bytes) {
                self.take_hit(point, len, bytes)?;
                return Ok(len + 1);
            }
        }
        let len = line_len(bytes);
        if len < bytes.len() {
            self.take_line(&bytes[..len])?;
            return Ok(len + 1);
        }
        self.extend(bytes)?;
        Ok(len)
    }

    /// Reads all of the bytes.
    fn take_all(&mut self, bytes: &[u8]) -> Result<(), Fail>
        requires room { self.old.offset + length bytes.now ≤ text_limit }
        ensures offset { OnOk result (self.new.offset ≡ self.old.offset + length bytes.now) }
        ensures ok { OnOk result (Advances self.old self.new bytes.now) }
        ensures err { IfErr result (Refuses self.old bytes.now) }
    {
        let mut taken = 0;
        while taken < bytes.len() {
            taken += self.take_some(&bytes[taken..])?;
        }
        Ok(())
    }

    /// Reads the next piece of the text.
    fn take(&mut self, piece: &[u8]) -> Result<(), Fail>
        ensures ok { OnOk result (Advances self.old self.new piece.now) }
        ensures err { IfErr result (RefusesText self.old piece.now) }
    {
        let room = (TEXT_LIMIT - self.offset) as usize;
        if piece.len() <= room {
            return self.take_all(piece);
        }
        self.take_all(&piece[..room])?;
        Err(refusal(self.lines + 1, TEXT_LIMIT, Reason::TooLong))
    }

    /// The number of the line after the last one.
    fn place_after(&self) -> u64
        ensures { result ≡ place_after_count self.now.lines self.now.line.items }
    {
        if self.line.is_empty() {
            self.lines + 1
        } else {
            self.lines + 2
        }
    }

    /// Reads the rest of the text, which no LF has ended, as a line, if it has a byte.
    fn end(&mut self) -> Result<(), Fail>
        ensures results_in { (kind : Kind) (keep : TheKeep) (text : List ℕ) (h : Holds self.old kind keep text) → ResultsIn result self.new.state self.new.kept kind keep (with_rest kind h.lines self.old.line.items h.commands) }
        ensures same { OnOk result ((self.new.lines ≡ self.old.lines) × (self.new.line.items ≡ self.old.line.items) × (self.new.offset ≡ self.old.offset)) }
    {
        if self.line.is_empty() {
            return Ok(());
        }
        parse_line(
            self.lines + 1,
            self.start,
            &self.line,
            &mut self.reader,
            &mut self.state,
            &mut self.kept,
        )
    }

    /// The drill file, or the fault of the text that ends here.
    fn finish(self) -> Result<Drill, Fail>
        ensures { (kind : Kind) (keep : TheKeep) (text : List ℕ) → Holds self kind keep text → Answers (λ drill. drill) (ReadsAsBy kind (file_of kind.plating keep) text) result }
    {
        let mut last = self;
        last.end()?;
        if last.kept.is_finished() {
            return Ok(Drill::new(last.state, last.kept));
        }
        Err(refusal(last.place_after(), last.offset, Reason::Truncated))
    }
}

/// A reader of a drill file that comes in pieces. It holds at most one line, the holes, the tools and what it is asked to keep.
#[derive(Drop)]
pub struct DrillReader {
    progress: Progress,
    failed: Option<Fail>,
}

impl DrillReader {
    ghost use Rattle.drill_text.specs.Holding.{StandsAfter, StandsBy, StandsIn, failure};

    /// A reader that has read nothing, and keeps the commands.
    pub fn new(alloc: Global) -> DrillReader
        ensures { StandsAfter result keep.Commands [] }
    {
        DrillReader::keeping(alloc, Keep::Commands)
    }

    /// A reader that has read nothing, and keeps what it is asked for.
    pub fn keeping(alloc: Global, keep: Keep) -> DrillReader
        ensures { StandsAfter result keep [] }
    {
        DrillReader::in_profile(alloc, keep, Profile::Strict)
    }

    /// A reader that has read nothing, and keeps what it is asked for. It reads in this profile: the other readers are strict.
    pub fn in_profile(alloc: Global, keep: Keep, profile: Profile) -> DrillReader
        ensures { StandsIn result profile keep [] }
    {
        DrillReader::of_kind(alloc, keep, profile, PlatingKind::Stated)
    }

    /// A reader that has read nothing, and keeps what it is asked for. It reads in this profile a file whose platings are known so: the
    /// other readers pass over what a file itself says of them.
    pub fn of_kind(alloc: Global, keep: Keep, profile: Profile, plating: PlatingKind) -> DrillReader
        ensures { StandsBy result (record { profile = profile; plating = plating; format = None }) keep [] }
    {
        DrillReader {
            progress: Progress::new(alloc, keep, profile, plating),
            failed: None,
        }
    }

    /// Before the first piece, says of the coordinates what a line of the header would say: the text is then read as one after that line.
    ///
    /// # Errors
    ///
    /// [`Fail::Memory`] alone.
    pub fn say(&mut self, format: CoordinateFormat) -> Result<(), Fail>
        ensures ok { (profile : TheProfile) (plating : ThePlating) (keep : TheKeep) → StandsBy self.old (record { profile = profile; plating = plating; format = None }) keep [] → OnOk result (StandsBy self.new (record { profile = profile; plating = plating; format = Some format }) keep []) }
        ensures err { IfErr result (λ e. e ≡ Memory) }
        ensures fails { IfErr result (λ e. failure self.new ≡ Some e) }
    {
        let outcome = self.progress.say(format);
        if let Err(_) = outcome {
            self.failed = Some(Fail::Memory);
        }
        outcome
    }

    /// Reads the next piece of the text. A reader that has failed gives its failure again.
    ///
    /// # Errors
    ///
    /// The fault that the text so far shows, whatever follows it, or [`Fail::Memory`].
    pub fn feed(&mut self, piece: &[u8]) -> Result<(), Fail>
        ensures ok { (kind : Kind) (keep : TheKeep) (text : List ℕ) → StandsBy self.old kind keep text → OnOk result (StandsBy self.new kind keep (text ++ piece.now)) }
        ensures err { (kind : Kind) (keep : TheKeep) (text : List ℕ) → StandsBy self.old kind keep text → IfErr result (IfFault (λ f. ShowsBy kind (text ++ piece.now) (Err f))) }
        ensures failed { IfSome (failure self.old) (λ e. result ≡ Err e) }
        ensures fails { IfErr result (λ e. failure self.new ≡ Some e) }
    {
        if let Some(fail) = self.failed {
            return Err(fail);
        }
        let outcome = self.progress.take(piece);
        if let Err(fail) = outcome {
            self.failed = Some(fail);
        }
        outcome
    }

    /// The drill file of the whole text, with what was kept. A reader that has failed gives its failure again.
    ///
    /// # Errors
    ///
    /// The fault of the whole text, or [`Fail::Memory`].
    pub fn finish(self) -> Result<Drill, Fail>
        ensures exact { (keep : TheKeep) (text : List ℕ) → StandsAfter self keep text → Answers (λ drill. drill) (ReadsAs (file_of plating.Stated keep) text) result }
        ensures exact_by { (kind : Kind) (keep : TheKeep) (text : List ℕ) → StandsBy self kind keep text → Answers (λ drill. drill) (ReadsAsBy kind (file_of kind.plating keep) text) result }
        ensures sayable { (text : List ℕ) → StandsAfter self keep.Commands text → IfOk result (λ drill. drill_sayable drill.commands ≡ true) }
        ensures failed { IfSome (failure self) (λ e. result ≡ Err e) }
    {
        match self.failed {
            Some(fail) => Err(fail),
            None => self.progress.finish(),
        }
    }
}

/// The drill file of a text, or its first fault.
pub fn read_drill(alloc: Global, bytes: &[u8]) -> Result<Drill, Fail>
    ensures exact { Answers commands_in (Reads bytes.now) result }
    ensures found { IfOk result (λ drill. IsDrillText bytes.now drill.commands) }
    ensures only { (commands : List TheCommand) → IsDrillText bytes.now commands → Answers commands_in (λ answer. answer ≡ Ok commands) result }
    ensures file { IfOk result (λ drill. drill ≡ file_of plating.Stated keep.Commands drill.commands) }
    ensures sayable { IfOk result (λ drill. drill_sayable drill.commands ≡ true) }
{
    let mut reader = DrillReader::new(alloc);
    reader.feed(bytes)?;
    reader.finish()
}
