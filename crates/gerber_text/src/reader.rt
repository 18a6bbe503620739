//! A Gerber text, read whole or in pieces.

ghost use Rattle.std.specs.Prelude.{◌≡◌, List, ℕ, ◌+◌, ◌≤◌, ◌<◌, ◌||◌, ◌==◌, true, false, Bool, if◌then◌else◌, Ok, OnOk, OnErr, IfOk, IfErr, IfNone, IfSome, take, drop, length, vec_len, slice_index, All, IsTrue, map, ◌++◌, [], ◌∷◌};
ghost use Rattle.std.specs.List.{list_all};
ghost use Rattle.std.specs.Option.{option_or};
ghost use Rattle.grid_units.specs.declared.fault.Fail.TheVariants.{Refused};
ghost use Rattle.grid_units.specs.Limits.{item_limit, text_limit};
ghost use Rattle.grid_units.specs.Lists.{last_set};
ghost use Rattle.grid_units.specs.Results.{fault, Answers};
ghost use Rattle.gerber_text.specs.Items.{end_byte, is_line_break, IsEnded};
ghost use Rattle.gerber_commands.specs.Rows.{modes_of};
ghost use Rattle.gerber_commands.specs.declared.command.Command.TheVariants.{Mode};
ghost use Rattle.grid_units.specs.declared.profile.Profile.TheVariants.{Strict};
ghost use Rattle.gerber_text.specs.Reading.{Entries, spelled_in, item_entries, LatestAfter, ResultsIn, action_of, latest_action, ReadsIn, SpellsTextIn, ReadsUpToFault, SpellsBeforeFaultIn, entries_of, entries_after, is_blank};
ghost use Rattle.gerber_text.specs.Inner.Bytes.{IsInside, HasLeadingItem, may_follow_end};
ghost use Rattle.gerber_text.specs.Writing.{without_places, sayable};

use crate::placed::{PassedOperation, PassedText, Placed};
use crate::text_items::{LeadingText, leading_text};
use crate::{
    Action, Command, Interpolation, ItemCommands, ItemParts, LeadingOperation, end_byte,
    is_end_item, leading_operation, read_item_in,
};
use grid_units::{Fail, Fault, ITEM_LIMIT, ItemFail, Profile, Reason};
use memchr::memchr3;
use std::alloc::{AllocError, Global};
use std::mem::replace;

/// The limit of a text's length, 268,435,456 bytes, as an offset.
const TEXT_LIMIT: u64 = grid_units::TEXT_LIMIT as u64;

/// The commands that were read so far, and the item that has not ended.
#[derive(Drop)]
pub(crate) struct Progress {
    alloc: Global,
    profile: Profile,
    commands: Vec<Placed<Command>>,
    item: Vec<u8>,
    start: u64,
    offset: u64,
    items: u64,
    ended: bool,
    latest: Option<Action>,
    ghost counted: { items ≤ offset },
    ghost in_text: { offset ≤ text_limit },
    ghost in_item: { vec_len item ≤ item_limit },
}

fn is_break(byte: u8) -> bool
    ensures { result ≡ ((byte == 10) || (byte == 13)) }
{
    byte == b'\n' || byte == b'\r'
}

/// How many of the first bytes are line breaks.
fn breaks_len(bytes: &[u8]) -> usize
    ensures within { result ≤ length bytes.now }
    ensures breaks { All (λ b. is_line_break b ≡ true) (take result bytes.now) }
    ensures some { 0 < length bytes.now → is_line_break (slice_index bytes.now 0) ≡ true → 0 < result }
{
    for (i, byte) in bytes.iter().enumerate() {
        if !is_break(*byte) {
            return i;
        }
    }
    bytes.len()
}

/// Whether the byte may stand after the end of the text.
fn may_follow_end(byte: u8) -> bool
    ensures { result ≡ may_follow_end byte }
{
    byte == b'\n' || byte == b'\r' || byte == b' ' || byte == b'\t' || byte == b'*'
}

/// How many of the first bytes neither end the item nor are line breaks.
pub(crate) fn inside_len(bytes: &[u8], end: u8) -> usize
    ensures within { result ≤ length bytes.now }
    ensures inside { All (IsInside end) (take result bytes.now) }
    ensures stops { 0 < length bytes.now → result ≡ 0 → IsInside end (slice_index bytes.now 0) → ⊥ }
{
    match memchr3(end, b'\n', b'\r', bytes) {
        Some(at) => at,
        None => bytes.len(),
    }
}

/// The length of the item at the start of these bytes, if it ends among them, has no line break and is within
/// the limit.
fn item_len(bytes: &[u8]) -> Option<usize>
    requires some { 0 < length bytes.now }
    requires inside { IsInside 42 (slice_index bytes.now 0) }
    ensures { IfSome result (λ n. HasLeadingItem bytes.now n) }
{
    let end = end_byte(bytes);
    let rest = &bytes[1..];
    let len = inside_len(rest, end);
    if len < rest.len() && rest[len] == end && len + 2 <= ITEM_LIMIT {
        Some(len + 2)
    } else {
        None
    }
}

/// Where the first byte lies that may not stand after the end of the text.
fn first_stray(bytes: &[u8]) -> Option<usize>
    ensures none { IfNone result (All (λ b. may_follow_end b ≡ true) bytes.now) }
    ensures some { IfSome result (λ i. (i < length bytes.now) × All (λ b. may_follow_end b ≡ true) (take i bytes.now) × (may_follow_end (slice_index bytes.now i) ≡ false)) }
{
    for (i, byte) in bytes.iter().enumerate() {
        if !may_follow_end(*byte) {
            return Some(i);
        }
    }
    None
}

/// Whether all bytes are spaces and tabs.
fn are_blanks(bytes: &[u8]) -> bool
    ensures { result ≡ list_all is_blank bytes.now }
{
    bytes.iter().all(|b| *b == b' ' || *b == b'\t')
}

/// The last operation, once this command has come.
fn latest_after(before: Option<Action>, what: &Command) -> Option<Action>
    ensures { result ≡ option_or (action_of what.now) before }
{
    match what {
        Command::Operate { action, .. } => Some(*action),
        _ => before,
    }
}

/// Adds the commands of an item, all or none, and returns the last operation.
fn add(
    alloc: Global,
    latest: Option<Action>,
    place: u64,
    byte: u64,
    spelled: ItemCommands,
    commands: &mut Vec<Placed<Command>>,
) -> Result<Option<Action>, AllocError>
    ensures added { OnOk result (commands.new.items ≡ commands.old.items ++ item_entries place byte spelled) }
    ensures latest { LatestAfter latest result (item_entries place byte spelled) }
    ensures err { OnErr result (commands.new.items ≡ commands.old.items) }
{
    match spelled.into_parts() {
        ItemParts::Few(mode, command) => match (mode, command) {
            (None, None) => Ok(latest),
            (Some(mode), None) => add_command(latest, place, byte, Command::Mode(mode), commands),
            (mode, Some(what)) => add_with_mode(latest, place, byte, mode, what, commands),
        },
        ItemParts::Several(all) => add_all(alloc, latest, place, byte, all, commands),
    }
}

/// Commands at the place and the byte of their item.
fn placed_all(
    alloc: Global,
    place: u64,
    byte: u64,
    all: Vec<Command>,
) -> Result<Vec<Placed<Command>>, AllocError>
    ensures { IfOk result (λ placed. placed.items ≡ item_entries place byte all.items) }
{
    all.into_iter()
        .map(|what| Placed { place, byte, what })
        .collect(alloc)
}

/// The last operation, once these commands have come.
fn latest_after_all(before: Option<Action>, entries: &[Placed<Command>]) -> Option<Action>
    ensures { result ≡ option_or (last_set (λ entry. action_of entry.what) entries.now) before }
{
    let mut latest = before;
    for entry in entries {
        latest = latest_after(latest, &entry.what);
    }
    latest
}

/// Adds the commands of several pieces, all or none, and returns the last operation.
#[inline(never)]
fn add_all(
    alloc: Global,
    latest: Option<Action>,
    place: u64,
    byte: u64,
    all: Vec<Command>,
    commands: &mut Vec<Placed<Command>>,
) -> Result<Option<Action>, AllocError>
    ensures added { OnOk result (commands.new.items ≡ commands.old.items ++ item_entries place byte all.items) }
    ensures latest { LatestAfter latest result (item_entries place byte all.items) }
    ensures err { OnErr result (commands.new.items ≡ commands.old.items) }
{
    let mut placed = placed_all(alloc, place, byte, all)?;
    let latest = latest_after_all(latest, &placed);
    commands.append(&mut placed)?;
    Ok(latest)
}

/// Adds a command after an optional interpolation, both or none, and returns the last operation.
// Most items are operations: inlined, their command is written just once, where it is kept.
#[inline(always)]
fn add_with_mode(
    latest: Option<Action>,
    place: u64,
    byte: u64,
    mode: Option<Interpolation>,
    what: Command,
    commands: &mut Vec<Placed<Command>>,
) -> Result<Option<Action>, AllocError>
    ensures added { OnOk result (commands.new.items ≡ commands.old.items ++ item_entries place byte (modes_of mode ++ what ∷ [])) }
    ensures latest { LatestAfter latest result (item_entries place byte (modes_of mode ++ what ∷ [])) }
    ensures err { OnErr result (commands.new.items ≡ commands.old.items) }
{
    match mode {
        None => add_command(latest, place, byte, what, commands),
        Some(mode) => {
            let latest = latest_after(latest, &what);
            add_mode_and_command(place, byte, mode, what, commands)?;
            Ok(latest)
        }
    }
}

/// Adds a command, and returns the last operation.
fn add_command(
    latest: Option<Action>,
    place: u64,
    byte: u64,
    what: Command,
    commands: &mut Vec<Placed<Command>>,
) -> Result<Option<Action>, AllocError>
    ensures added { OnOk result (commands.new.items ≡ commands.old.items ++ item_entries place byte (what ∷ [])) }
    ensures latest { LatestAfter latest result (item_entries place byte (what ∷ [])) }
    ensures err { OnErr result (commands.new.items ≡ commands.old.items) }
{
    let latest = latest_after(latest, &what);
    commands.push(Placed { place, byte, what })?;
    Ok(latest)
}

/// Adds two commands, or none.
#[inline(never)]
fn add_mode_and_command(
    place: u64,
    byte: u64,
    mode: Interpolation,
    what: Command,
    commands: &mut Vec<Placed<Command>>,
) -> Result<(), AllocError>
    ensures added { OnOk result (commands.new.items ≡ commands.old.items ++ item_entries place byte (Mode mode ∷ what ∷ [])) }
    ensures err { OnErr result (commands.new.items ≡ commands.old.items) }
{
    let len = commands.len();
    commands.push(Placed {
        place,
        byte,
        what: Command::Mode(mode),
    })?;
    add_or_cut(len, Placed { place, byte, what }, commands)
}

/// Adds a command, or leaves only so many of those before it.
fn add_or_cut(
    len: usize,
    command: Placed<Command>,
    commands: &mut Vec<Placed<Command>>,
) -> Result<(), AllocError>
    requires { len ≤ vec_len commands.old }
    ensures added { OnOk result (commands.new.items ≡ commands.old.items ++ command ∷ []) }
    ensures err { OnErr result (commands.new.items ≡ take len commands.old.items) }
{
    let outcome = commands.push(command);
    if outcome.is_err() {
        commands.truncate(len);
    }
    outcome?;
    Ok(())
}

/// Adds the commands that an item spells in a profile, and returns the last operation.
#[tactic(auto, unfolding(crate::specs::Reading::spelled_in))]
fn parse_item(
    alloc: Global,
    profile: Profile,
    latest: Option<Action>,
    place: u64,
    byte: u64,
    item: &[u8],
    commands: &mut Vec<Placed<Command>>,
) -> Result<Option<Action>, Fail>
    requires item { IsEnded item.now }
    requires short { length item.now ≤ item_limit }
    ensures spelled { (gone : Entries) → latest ≡ latest_action (gone ++ commands.old.items) → ResultsIn result (gone ++ commands.new.items) (spelled_in profile place byte item.now (gone ++ commands.old.items)) }
    ensures latest { (gone : Entries) → latest ≡ latest_action (gone ++ commands.old.items) → IfOk result (λ new. new ≡ latest_action (gone ++ commands.new.items)) }
    ensures err { OnErr result (commands.new.items ≡ commands.old.items) }
{
    match read_item_in(alloc, profile, latest, item) {
        Ok(spelled) => Ok(add(alloc, latest, place, byte, spelled, commands)?),
        Err(ItemFail::Memory) => Err(Fail::Memory),
        Err(ItemFail::Refused(reason)) => Err(Fail::Refused(Fault {
            place,
            byte,
            reason,
        })),
    }
}

impl Progress {
    ghost use Rattle.std.specs.Prelude.{[], ◌∷◌, List, None};
    ghost use Rattle.gerber_text.specs.FastPath.{HasLeadingOperation, HasLeadingText, operation_commands, text_command};
    ghost use Rattle.gerber_text.specs.Holding.{Advances, Refuses, RefusesText, Holds, Ends, passed_entries, passed_text, text_entries};
    ghost use Rattle.grid_units.specs.Results.{AnswersAlways};
    ghost use Rattle.grid_units.specs.declared.profile.Profile.{Profile as TheProfile};

    /// The refusal of the next item, for this reason.
    fn refuse(&self, byte: u64, reason: Reason) -> Fail
        ensures { result ≡ Refused (fault (self.now.items + 1) byte reason) }
    {
        Fail::Refused(Fault {
            place: self.items + 1,
            byte,
            reason,
        })
    }

    /// The byte that ends the unfinished item, `%` or `*`.
    fn end_byte(&self) -> u8
        ensures { result ≡ end_byte self.now.item.items }
    {
        end_byte(&self.item)
    }

    /// The offset of the unfinished item's first byte, or of the next byte where no item has begun.
    fn item_start(&self) -> u64
        ensures fresh { vec_len self.now.item ≡ 0 → result ≡ self.now.offset }
        ensures begun { 0 < vec_len self.now.item → result ≡ self.now.start }
    {
        if self.item.is_empty() {
            self.offset
        } else {
            self.start
        }
    }

    /// Passes the line breaks at the start of these bytes, which are dropped, and returns how many these are.
    fn skip_breaks(&mut self, bytes: &[u8]) -> usize
        requires room { self.old.offset + length bytes.now ≤ text_limit }
        ensures within { result ≤ length bytes.now }
        ensures some { 0 < length bytes.now → is_line_break (slice_index bytes.now 0) ≡ true → 0 < result }
        ensures offset { self.new.offset ≡ self.old.offset + result }
        ensures held { self.new.commands.items ≡ self.old.commands.items }
        ensures ok { Advances self.old self.new (take result bytes.now) }
    {
        let len = breaks_len(bytes);
        self.offset += len as u64;
        len
    }

    /// The plain operation at the start of these bytes, if one stands there and no other item has begun.
    // Most items are operations: inlined, their fields are not stored on the way.
    #[inline(always)]
    fn operation(&self, bytes: &[u8]) -> Option<LeadingOperation>
        ensures running { IfSome result (λ found. self.now.ended ≡ false) }
        ensures fresh { IfSome result (λ found. vec_len self.now.item ≡ 0) }
        ensures begins { IfSome result (λ found. HasLeadingOperation bytes.now found.len (operation_commands found)) }
    {
        if self.ended || !self.item.is_empty() {
            return None;
        }
        leading_operation(bytes)
    }

    /// Takes the item of an operation that is written plainly.
    fn operate(&mut self, bytes: &[u8], operation: LeadingOperation) -> Result<(), Fail>
        requires running { self.old.ended ≡ false }
        requires fresh { vec_len self.old.item ≡ 0 }
        requires begins { HasLeadingOperation bytes.now operation.len (operation_commands operation) }
        requires room { self.old.offset + length bytes.now ≤ text_limit }
        ensures offset { OnOk result (self.new.offset ≡ self.old.offset + operation.len) }
        ensures ok { OnOk result (Advances self.old self.new (take operation.len bytes.now)) }
        ensures err { IfErr result (Refuses self.old self.new.commands.items (take operation.len bytes.now)) }
    {
        let LeadingOperation {
            mode,
            action,
            x,
            y,
            i,
            j,
            len,
        } = operation;
        let what = Command::Operate { action, x, y, i, j };
        let place = self.items + 1;
        self.latest = add_with_mode(
            self.latest,
            place,
            self.offset,
            mode,
            what,
            &mut self.commands,
        )?;
        self.items += 1;
        self.offset += len as u64;
        Ok(())
    }

    /// Counts the item of an operation that is written plainly. Its commands are not held.
    fn count_operation(&mut self, bytes: &[u8], operation: &LeadingOperation)
        requires running { self.old.ended ≡ false }
        requires fresh { vec_len self.old.item ≡ 0 }
        requires begins { HasLeadingOperation bytes.now operation.now.len (operation_commands operation.now) }
        requires room { self.old.offset + length bytes.now ≤ text_limit }
        ensures offset { self.new.offset ≡ self.old.offset + operation.now.len }
        ensures held { self.new.commands.items ≡ self.old.commands.items }
        ensures ok { self.old.commands.items ≡ [] → (profile : TheProfile) (gone : Entries) (text : List ℕ) → Holds self.old profile gone text → Holds self.new profile (gone ++ item_entries (self.old.items + 1) self.old.offset (operation_commands operation.now)) (text ++ take operation.now.len bytes.now) }
    {
        self.latest = Some(operation.action);
        self.items += 1;
        self.offset += operation.len as u64;
    }

    /// Passes the plain operation at the start of these bytes and the line breaks after it, if one stands there. Its
    /// commands are not held.
    // Most items are operations: inlined, their fields are not stored on the way.
    #[inline(always)]
    fn pass_operation(&mut self, bytes: &[u8]) -> Option<PassedOperation>
        ensures within { IfSome result (λ passed. (0 < passed.len) × (passed.len ≤ length bytes.now)) }
        ensures held { self.new.commands.items ≡ self.old.commands.items }
        ensures some { self.old.commands.items ≡ [] → (profile : TheProfile) (gone : Entries) (text : List ℕ) → Holds self.old profile gone text → IfSome result (λ passed. Holds self.new profile (gone ++ passed_entries passed) (text ++ take passed.len bytes.now)) }
        ensures none { IfNone result (self.new ≡ self.old) }
    {
        if bytes.len() as u64 > TEXT_LIMIT - self.offset {
            return None;
        }
        let operation = self.operation(bytes)?;
        let item_len = operation.len;
        let (place, byte) = (self.items + 1, self.offset);
        self.count_operation(bytes, &operation);
        let len = item_len + self.skip_breaks(&bytes[item_len..]);
        Some(PassedOperation {
            operation,
            place,
            byte,
            len,
        })
    }

    /// The comment or the attribute at the start of these bytes, if one stands there whole and no other item has begun.
    fn text(&self, bytes: &[u8]) -> Option<LeadingText>
        ensures running { IfSome result (λ found. self.now.ended ≡ false) }
        ensures fresh { IfSome result (λ found. vec_len self.now.item ≡ 0) }
        ensures room { IfSome result (λ found. self.now.offset + length bytes.now ≤ text_limit) }
        ensures within { IfSome result (λ found. found.len ≤ length bytes.now) }
        ensures begins { IfSome result (λ found. HasLeadingText bytes.now found) }
    {
        if self.ended || !self.item.is_empty() || bytes.len() as u64 > TEXT_LIMIT - self.offset {
            return None;
        }
        leading_text(bytes)
    }

    /// Counts the item of a comment or an attribute. Its command is not held.
    fn count_text(&mut self, bytes: &[u8], item: LeadingText)
        requires running { self.old.ended ≡ false }
        requires fresh { vec_len self.old.item ≡ 0 }
        requires some { 0 < item.len }
        requires within { item.len ≤ length bytes.now }
        requires begins { HasLeadingText bytes.now item }
        requires room { self.old.offset + length bytes.now ≤ text_limit }
        ensures offset { self.new.offset ≡ self.old.offset + item.len }
        ensures held { self.new.commands.items ≡ self.old.commands.items }
        ensures ok { self.old.commands.items ≡ [] → (profile : TheProfile) (gone : Entries) (text : List ℕ) → Holds self.old profile gone text → Holds self.new profile (gone ++ item_entries (self.old.items + 1) self.old.offset (text_command item.kind (take item.text_len (drop 3 bytes.now)) ∷ [])) (text ++ take item.len bytes.now) }
    {
        self.items += 1;
        self.offset += item.len as u64;
    }

    /// Passes the comment or the attribute at the start of these bytes and the line breaks after it, if one stands there
    /// whole. Its command is not held.
    fn pass_text(&mut self, bytes: &[u8]) -> Option<PassedText>
        ensures within { IfSome result (λ passed. (0 < passed.len) × (passed.len ≤ length bytes.now)) }
        ensures text { IfSome result (λ passed. passed.item.text_len + 3 ≤ length bytes.now) }
        ensures held { self.new.commands.items ≡ self.old.commands.items }
        ensures some { self.old.commands.items ≡ [] → (profile : TheProfile) (gone : Entries) (text : List ℕ) → Holds self.old profile gone text → IfSome result (λ passed. Holds self.new profile (gone ++ text_entries passed (passed_text passed bytes.now)) (text ++ take passed.len bytes.now)) }
        ensures none { IfNone result (self.new ≡ self.old) }
    {
        let item = self.text(bytes)?;
        let item_len = item.len;
        let place = self.items + 1;
        let byte = self.offset;
        self.count_text(bytes, item);
        let len = item_len + self.skip_breaks(&bytes[item_len..]);
        Some(PassedText {
            item,
            place,
            byte,
            len,
        })
    }

    /// Takes the item at the start of these bytes and the line breaks after it, if it stands there whole, else its first
    /// byte. Returns how many bytes it took.
    fn start_item(&mut self, bytes: &[u8]) -> Result<usize, Fail>
        requires running { self.old.ended ≡ false }
        requires fresh { vec_len self.old.item ≡ 0 }
        requires some { 0 < length bytes.now }
        requires inside { IsInside 42 (slice_index bytes.now 0) }
        requires room { self.old.offset + length bytes.now ≤ text_limit }
        ensures taken { IfOk result (λ n. (0 < n) × (n ≤ length bytes.now) × (self.new.offset ≡ self.old.offset + n)) }
        ensures ok { IfOk result (λ n. Advances self.old self.new (take n bytes.now)) }
        ensures err { IfErr result (Refuses self.old self.new.commands.items bytes.now) }
    {
        match item_len(bytes) {
            Some(len) => {
                self.take_item(bytes, len)?;
                Ok(len + self.skip_breaks(&bytes[len..]))
            }
            None => {
                self.begin(bytes[0])?;
                Ok(1)
            }
        }
    }

    /// Takes a whole item of so many bytes.
    fn take_item(&mut self, bytes: &[u8], len: usize) -> Result<(), Fail>
        requires running { self.old.ended ≡ false }
        requires fresh { vec_len self.old.item ≡ 0 }
        requires prefix { HasLeadingItem bytes.now len }
        requires room { self.old.offset + length bytes.now ≤ text_limit }
        ensures offset { OnOk result (self.new.offset ≡ self.old.offset + len) }
        ensures ok { OnOk result (Advances self.old self.new (take len bytes.now)) }
        ensures err { IfErr result (Refuses self.old self.new.commands.items (take len bytes.now)) }
    {
        let item = &bytes[..len];
        let place = self.items + 1;
        let byte = self.offset;
        self.latest = parse_item(
            self.alloc,
            self.profile,
            self.latest,
            place,
            byte,
            item,
            &mut self.commands,
        )?;
        self.ended = is_end_item(item);
        self.items += 1;
        self.offset += len as u64;
        Ok(())
    }

    /// Begins an item with its first byte.
    fn begin(&mut self, byte: u8) -> Result<(), Fail>
        requires running { self.old.ended ≡ false }
        requires fresh { vec_len self.old.item ≡ 0 }
        requires inside { IsInside 42 byte }
        requires room { self.old.offset < text_limit }
        ensures offset { OnOk result (self.new.offset ≡ self.old.offset + 1) }
        ensures ok { OnOk result (Advances self.old self.new (byte ∷ [])) }
        ensures err { IfErr result (Refuses self.old self.new.commands.items (byte ∷ [])) }
    {
        self.item.push(byte)?;
        self.start = self.offset;
        self.offset += 1;
        Ok(())
    }

    /// Adds bytes to an item that has begun.
    fn extend(&mut self, run: &[u8]) -> Result<(), Fail>
        requires running { self.old.ended ≡ false }
        requires begun { 0 < vec_len self.old.item }
        requires inside { All (IsInside (end_byte self.old.item.items)) run.now }
        requires room { self.old.offset + length run.now ≤ text_limit }
        ensures offset { OnOk result (self.new.offset ≡ self.old.offset + length run.now) }
        ensures ok { OnOk result (Advances self.old self.new run.now) }
        ensures err { IfErr result (Refuses self.old self.new.commands.items run.now) }
    {
        if run.len() > ITEM_LIMIT - self.item.len() {
            return Err(self.refuse(self.start, Reason::TooLong));
        }
        self.item.extend_from_slice(run)?;
        self.offset += run.len() as u64;
        Ok(())
    }

    /// Ends the item with its last byte.
    fn close(&mut self, last: u8) -> Result<(), Fail>
        requires running { self.old.ended ≡ false }
        requires last { last ≡ end_byte self.old.item.items }
        requires room { self.old.offset < text_limit }
        ensures offset { OnOk result (self.new.offset ≡ self.old.offset + 1) }
        ensures ok { OnOk result (Advances self.old self.new (last ∷ [])) }
        ensures err { IfErr result (Refuses self.old self.new.commands.items (last ∷ [])) }
    {
        let byte = self.item_start();
        let place = self.items + 1;
        if self.item.len() == ITEM_LIMIT {
            return Err(self.refuse(byte, Reason::TooLong));
        }
        self.item.push(last)?;
        self.latest = parse_item(
            self.alloc,
            self.profile,
            self.latest,
            place,
            byte,
            &self.item,
            &mut self.commands,
        )?;
        self.ended = is_end_item(&self.item);
        self.item.clear();
        self.items += 1;
        self.offset += 1;
        Ok(())
    }

    /// Passes bytes after the end of the text.
    fn skip_trailing(&mut self, bytes: &[u8]) -> Result<(), Fail>
        requires ended { self.old.ended ≡ true }
        requires room { self.old.offset + length bytes.now ≤ text_limit }
        ensures offset { OnOk result (self.new.offset ≡ self.old.offset + length bytes.now) }
        ensures ok { OnOk result (Advances self.old self.new bytes.now) }
        ensures err { IfErr result (Refuses self.old self.new.commands.items bytes.now) }
    {
        match first_stray(bytes) {
            None => {
                self.offset += bytes.len() as u64;
                Ok(())
            }
            Some(at) => Err(self.refuse(self.offset + at as u64, Reason::AfterEnd)),
        }
    }

    /// Takes some of the bytes, from the first on, and returns how many.
    fn take_some(&mut self, bytes: &[u8]) -> Result<usize, Fail>
        requires some { 0 < length bytes.now }
        requires room { self.old.offset + length bytes.now ≤ text_limit }
        ensures taken { IfOk result (λ n. (0 < n) × (n ≤ length bytes.now) × (self.new.offset ≡ self.old.offset + n)) }
        ensures ok { IfOk result (λ n. Advances self.old self.new (take n bytes.now)) }
        ensures err { IfErr result (Refuses self.old self.new.commands.items bytes.now) }
    {
        let first = bytes[0];
        let end = self.end_byte();
        if self.ended {
            self.skip_trailing(bytes)?;
            Ok(bytes.len())
        } else if is_break(first) {
            Ok(self.skip_breaks(bytes))
        } else if first == end {
            self.close(first)?;
            Ok(1)
        } else if self.item.is_empty() {
            self.start_item(bytes)
        } else {
            let run = &bytes[..inside_len(bytes, end)];
            self.extend(run)?;
            Ok(run.len())
        }
    }

    /// Takes the plain operation at the start of these bytes and the line breaks after it, if one stands there, else
    /// some of the bytes. Returns how many bytes it took.
    fn take_leading(&mut self, bytes: &[u8]) -> Result<usize, Fail>
        requires some { 0 < length bytes.now }
        requires room { self.old.offset + length bytes.now ≤ text_limit }
        ensures taken { IfOk result (λ n. (0 < n) × (n ≤ length bytes.now) × (self.new.offset ≡ self.old.offset + n)) }
        ensures ok { IfOk result (λ n. Advances self.old self.new (take n bytes.now)) }
        ensures err { IfErr result (Refuses self.old self.new.commands.items bytes.now) }
    {
        match self.operation(bytes) {
            Some(operation) => {
                let len = operation.len;
                self.operate(bytes, operation)?;
                Ok(len + self.skip_breaks(&bytes[len..]))
            }
            None => self.take_some(bytes),
        }
    }

    /// Takes all of the bytes.
    fn take_all(&mut self, bytes: &[u8]) -> Result<(), Fail>
        requires room { self.old.offset + length bytes.now ≤ text_limit }
        ensures offset { OnOk result (self.new.offset ≡ self.old.offset + length bytes.now) }
        ensures ok { OnOk result (Advances self.old self.new bytes.now) }
        ensures err { IfErr result (Refuses self.old self.new.commands.items bytes.now) }
    {
        let mut taken = 0;
        while taken < bytes.len() {
            taken += self.take_leading(&bytes[taken..])?;
        }
        Ok(())
    }

    /// Takes the next piece of the text.
    fn take(&mut self, piece: &[u8]) -> Result<(), Fail>
        ensures ok { OnOk result (Advances self.old self.new piece.now) }
        ensures err { IfErr result (RefusesText self.old self.new.commands.items piece.now) }
    {
        let room = (TEXT_LIMIT - self.offset) as usize;
        if piece.len() <= room {
            return self.take_all(piece);
        }
        self.take_all(&piece[..room])?;
        Err(self.refuse(TEXT_LIMIT, Reason::TooLong))
    }

    /// Takes some of the next piece of the text, from its first byte on, and returns how many bytes.
    fn take_part(&mut self, piece: &[u8]) -> Result<usize, Fail>
        requires some { 0 < length piece.now }
        ensures taken { IfOk result (λ n. (0 < n) × (n ≤ length piece.now)) }
        ensures ok { IfOk result (λ n. Advances self.old self.new (take n piece.now)) }
        ensures err { IfErr result (RefusesText self.old self.new.commands.items piece.now) }
    {
        if piece.len() as u64 <= TEXT_LIMIT - self.offset {
            return self.take_some(piece);
        }
        self.take(piece)?;
        Ok(piece.len())
    }

    /// The offset at which the text is Truncated: that of the unfinished item, or the text's length.
    fn truncated_at(&self) -> u64
        ensures { result ≡ (if list_all is_blank self.now.item.items then self.now.offset else self.now.start) }
    {
        if are_blanks(&self.item) {
            self.offset
        } else {
            self.start
        }
    }

    /// The refusal Truncated, unless the text has ended.
    fn end(&self) -> Result<(), Fail>
        ensures { (profile : TheProfile) (gone : Entries) (text : List ℕ) → Holds self.now profile gone text → Ends profile text (gone ++ self.now.commands.items) result }
    {
        if self.ended {
            return Ok(());
        }
        Err(self.refuse(self.truncated_at(), Reason::Truncated))
    }

    /// The commands, if the text has ended.
    fn finish(self) -> Result<Vec<Placed<Command>>, Fail>
        ensures held { IfOk result (λ v. v.items ≡ self.commands.items) }
        ensures kept { (profile : TheProfile) (gone : Entries) (text : List ℕ) → Holds self profile gone text → IfErr result (λ e. SpellsBeforeFaultIn profile text e (gone ++ self.commands.items)) }
        ensures exact { (profile : TheProfile) (gone : Entries) (text : List ℕ) → Holds self profile gone text → AnswersAlways (entries_after gone) (λ answer. ReadsIn profile text answer) result }
    {
        self.end()?;
        Ok(self.commands)
    }
}

/// A reader of a Gerber text that comes in pieces. It keeps the commands so far and the unfinished item,
/// and not the text.
#[derive(Drop)]
pub struct WordReader {
    progress: Progress,
    failed: Option<Fail>,
}

impl WordReader {
    ghost use Rattle.std.specs.Prelude.{List, Some, Ok, Err, [], ◌++◌};
    ghost use Rattle.grid_units.specs.declared.fault.Fail.{Fail as TheFail};
    ghost use Rattle.grid_units.specs.Results.{AnswersAlways};
    ghost use Rattle.grid_units.specs.declared.profile.Profile.{Profile as TheProfile};
    ghost use Rattle.gerber_text.specs.Reading.{ShowsIn};
    ghost use Rattle.gerber_text.specs.Holding.{StandsIn, FailedIn, failure, held_entries, passed_entries, passed_text, text_entries};

    /// A reader that has read nothing.
    pub fn new(alloc: Global) -> WordReader
        ensures { StandsIn result Strict [] [] }
    {
        WordReader::in_profile(alloc, Profile::Strict)
    }

    /// A reader that has read nothing. It reads in this profile: that of [`WordReader::new`] is strict.
    pub fn in_profile(alloc: Global, profile: Profile) -> WordReader
        ensures { StandsIn result profile [] [] }
    {
        let progress = Progress {
            alloc,
            profile,
            commands: Vec::new(alloc),
            item: Vec::new(alloc),
            start: 0,
            offset: 0,
            items: 0,
            ended: false,
            latest: None,
        };
        WordReader {
            progress,
            failed: None,
        }
    }

    /// Takes the next piece of the text.
    ///
    /// # Errors
    ///
    /// The first fault that the text shows so far, whatever follows; `Memory` where an allocation failed. A
    /// reader that has failed gives its failure again.
    pub fn feed(&mut self, piece: &[u8]) -> Result<(), Fail>
        ensures ok { (profile : TheProfile) (gone : Entries) (text : List ℕ) → StandsIn self.old profile gone text → OnOk result (StandsIn self.new profile gone (text ++ piece.now)) }
        ensures err { (profile : TheProfile) (gone : Entries) (text : List ℕ) → StandsIn self.old profile gone text → IfErr result (FailedIn self.new profile gone (text ++ piece.now)) }
        ensures failed { IfSome (failure self.old) (λ e. (result ≡ Err e) × (self.new ≡ self.old)) }
        ensures fails { IfErr result (λ e. failure self.new ≡ Some e) }
    {
        if let Some(fail) = self.failed {
            return Err(fail);
        }
        let outcome = self.progress.take(piece);
        if let Err(fail) = outcome {
            self.failed = Some(fail);
        }
        outcome
    }

    /// Passes the plain operation at the start of these bytes, as `X10Y20D03*`, and the line breaks after it, if one
    /// stands there and no other item has begun. Its commands go to the caller: the reader does not hold them.
    // Most items are operations: inlined, their fields are not stored on the way.
    #[inline(always)]
    pub fn pass_operation(&mut self, bytes: &[u8]) -> Option<PassedOperation>
        ensures within { IfSome result (λ passed. (0 < passed.len) × (passed.len ≤ length bytes.now)) }
        ensures held { held_entries self.new ≡ held_entries self.old }
        ensures some { held_entries self.old ≡ [] → (profile : TheProfile) (gone : Entries) (text : List ℕ) → StandsIn self.old profile gone text → IfSome result (λ passed. StandsIn self.new profile (gone ++ passed_entries passed) (text ++ take passed.len bytes.now)) }
        ensures none { IfNone result (self.new ≡ self.old) }
        ensures failed { failure self.new ≡ failure self.old }
    {
        self.progress.pass_operation(bytes)
    }

    /// Passes the comment or the attribute at the start of these bytes, as `G04 top copper*` or `%TA.AperFunction,ViaPad*%`,
    /// and the line breaks after it, if one stands there whole and no other item has begun. Its command goes to the
    /// caller: the reader does not hold it, nor copies its text.
    pub fn pass_text(&mut self, bytes: &[u8]) -> Option<PassedText>
        ensures within { IfSome result (λ passed. (0 < passed.len) × (passed.len ≤ length bytes.now)) }
        ensures text { IfSome result (λ passed. passed.item.text_len + 3 ≤ length bytes.now) }
        ensures held { held_entries self.new ≡ held_entries self.old }
        ensures some { held_entries self.old ≡ [] → (profile : TheProfile) (gone : Entries) (text : List ℕ) → StandsIn self.old profile gone text → IfSome result (λ passed. StandsIn self.new profile (gone ++ text_entries passed (passed_text passed bytes.now)) (text ++ take passed.len bytes.now)) }
        ensures none { IfNone result (self.new ≡ self.old) }
        ensures failed { failure self.new ≡ failure self.old }
    {
        self.progress.pass_text(bytes)
    }

    /// Takes some of the next piece of the text, from its first byte on: an item, a part of one or line breaks. Returns
    /// how many bytes it took.
    ///
    /// # Errors
    ///
    /// As [`WordReader::feed`].
    pub fn feed_part(&mut self, piece: &[u8]) -> Result<usize, Fail>
        requires { 0 < length piece.now }
        ensures taken { IfOk result (λ n. (0 < n) × (n ≤ length piece.now)) }
        ensures ok { (profile : TheProfile) (gone : Entries) (text : List ℕ) → StandsIn self.old profile gone text → IfOk result (λ n. StandsIn self.new profile gone (text ++ take n piece.now)) }
        ensures err { (profile : TheProfile) (gone : Entries) (text : List ℕ) → StandsIn self.old profile gone text → IfErr result (FailedIn self.new profile gone (text ++ piece.now)) }
        ensures failed { IfSome (failure self.old) (λ e. (result ≡ Err e) × (self.new ≡ self.old)) }
        ensures fails { IfErr result (λ e. failure self.new ≡ Some e) }
    {
        if let Some(fail) = self.failed {
            return Err(fail);
        }
        let outcome = self.progress.take_part(piece);
        if let Err(fail) = outcome {
            self.failed = Some(fail);
        }
        outcome
    }

    /// The commands of the items that have ended so far; after a fault those before its place, and after
    /// running out of memory those of some first items.
    pub fn commands(&self) -> &[Placed<Command>]
        ensures held { result.now ≡ held_entries self.now }
        ensures shown { (profile : TheProfile) (gone : Entries) (text : List ℕ) → StandsIn self.now profile gone text → ShowsIn profile text (Ok (gone ++ result.now)) }
        ensures kept { (profile : TheProfile) (gone : Entries) (text : List ℕ) (e : TheFail) → FailedIn self.now profile gone text e → SpellsBeforeFaultIn profile text e (gone ++ result.now) }
    {
        &self.progress.commands
    }

    /// Drops the commands so far: from here on [`WordReader::commands`] gives those that come after them.
    pub fn clear_commands(&mut self)
        ensures none { held_entries self.new ≡ [] }
        ensures gone { (profile : TheProfile) (gone : Entries) (text : List ℕ) → StandsIn self.old profile gone text → StandsIn self.new profile (gone ++ held_entries self.old) text }
        ensures failed { failure self.new ≡ failure self.old }
    {
        self.progress.commands.clear();
    }

    /// The commands so far, which are moved out of the reader.
    pub fn take_commands(&mut self) -> Vec<Placed<Command>>
        ensures taken { result.items ≡ held_entries self.old }
        ensures none { held_entries self.new ≡ [] }
        ensures gone { (profile : TheProfile) (gone : Entries) (text : List ℕ) → StandsIn self.old profile gone text → StandsIn self.new profile (gone ++ held_entries self.old) text }
        ensures failed { failure self.new ≡ failure self.old }
    {
        let alloc = self.progress.alloc;
        replace(&mut self.progress.commands, Vec::new(alloc))
    }

    /// The commands of the whole text, the last one `Finish`.
    ///
    /// # Errors
    ///
    /// The first fault of the text. A reader that has failed gives its failure again.
    pub fn finish(self) -> Result<Vec<Placed<Command>>, Fail>
        ensures exact { (profile : TheProfile) (gone : Entries) (text : List ℕ) → StandsIn self profile gone text → AnswersAlways (entries_after gone) (λ answer. ReadsIn profile text answer) result }
        ensures held { IfOk result (λ v. v.items ≡ held_entries self) }
        ensures kept { (profile : TheProfile) (gone : Entries) (text : List ℕ) → StandsIn self profile gone text → IfErr result (λ e. SpellsBeforeFaultIn profile text e (gone ++ held_entries self)) }
        ensures sayable { (text : List ℕ) → StandsIn self Strict [] text → IfOk result (λ v. sayable (without_places v.items) ≡ true) }
        ensures failed { IfSome (failure self) (λ e. result ≡ Err e) }
    {
        match self.failed {
            Some(fail) => Err(fail),
            None => self.progress.finish(),
        }
    }

    /// The commands so far and no fault where the text has ended; else the commands before the fault, and the fault.
    fn into_kept(self) -> Kept
        ensures stands { (profile : TheProfile) (text : List ℕ) → StandsIn self profile [] text → ReadsUpToFault profile text result.commands.items result.outcome }
        ensures failed { (profile : TheProfile) (text : List ℕ) (e : TheFail) → FailedIn self profile [] text e → ReadsUpToFault profile text result.commands.items result.outcome }
    {
        let outcome = self.outcome();
        Kept {
            commands: self.progress.commands,
            outcome,
        }
    }

    /// The failure of the reader, or Truncated unless the text has ended.
    fn outcome(&self) -> Result<(), Fail>
        ensures stands { (profile : TheProfile) (text : List ℕ) → StandsIn self.now profile [] text → ReadsUpToFault profile text self.now.progress.commands.items result }
        ensures failed { (profile : TheProfile) (text : List ℕ) (e : TheFail) → FailedIn self.now profile [] text e → ReadsUpToFault profile text self.now.progress.commands.items result }
    {
        match self.failed {
            Some(fail) => Err(fail),
            None => self.progress.end(),
        }
    }
}

/// The commands of a text, or the fault and the commands before it.
#[derive(Drop)]
pub struct Kept {
    pub commands: Vec<Placed<Command>>,
    pub outcome: Result<(), Fail>,
}

/// The commands that a text spells, the last one `Finish`.
///
/// # Errors
///
/// The first fault of the text; `Memory` where an allocation failed.
pub fn read_words(alloc: Global, bytes: &[u8]) -> Result<Vec<Placed<Command>>, Fail>
    ensures exact { Answers entries_of (λ answer. ReadsIn Strict bytes.now answer) result }
    ensures found { IfOk result (λ v. SpellsTextIn Strict bytes.now v.items) }
    ensures only { (cs : Entries) → SpellsTextIn Strict bytes.now cs → Answers entries_of (λ answer. answer ≡ Ok cs) result }
    ensures sayable { IfOk result (λ v. sayable (without_places v.items) ≡ true) }
{
    let mut reader = WordReader::new(alloc);
    reader.feed(bytes)?;
    reader.finish()
}

/// The commands that a text spells, or those of the items before its first fault, and this fault. Where an
/// allocation failed they are those of some first items.
pub fn read_kept(alloc: Global, bytes: &[u8]) -> Kept
    ensures { ReadsUpToFault Strict bytes.now result.commands.items result.outcome }
{
    let mut reader = WordReader::new(alloc);
    let _ = reader.feed(bytes);
    reader.into_kept()
}
