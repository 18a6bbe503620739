//! Laws of the definitions of a drill file. Calling one does nothing, but gives its clauses.

ghost use Rattle.std.specs.Prelude.{◌≡◌, ◌↔◌, ◌++◌, true, ℕ, List, Result, Ok, Err};
ghost use Rattle.grid_units.specs.declared.fault.Fault.{Fault};
ghost use Rattle.drill_lines.specs.declared.command.DrillCommand.{DrillCommand};
ghost use Rattle.drill_text.specs.Lookback.{tools_of};
ghost use Rattle.drill_text.specs.Holes.{holes_of};
ghost use Rattle.drill_text.specs.Faults.{HasAnswer, IsFirstFault, is_drill_reason};
ghost use Rattle.drill_text.specs.Texts.{SpellsText, IsDrillText};
ghost use Rattle.drill_text.specs.Writing.{drill_sayable};
ghost use Rattle.grid_units.specs.declared.profile.Profile.{Profile};
ghost use Rattle.grid_units.specs.declared.profile.Profile.TheVariants.{Strict, Wide};
ghost use Rattle.drill_text.specs.MixedLaws.{CalledIsListed, KindsReadTheSame, ListedIsCalled, OneForEach, UncontradictedIsLegal};
ghost use Rattle.drill_text.specs.Profiles.{Kind, Reads, ReadsBy, ReadsIn, Shows, ShowsBy, ShowsIn};
ghost use Rattle.drill_text.specs.Laws.{ListedHolesAreDrilled, DrilledHolesAreListed, DrillsAtMostOneList, ReadIsWritten, SpelledIsWritten, IsTextOfAtMostOne, WideHolesAreDrilled, WrittenIsRead};

/// A text shows one thing, and has one reading.
pub fn unique_reading()
    ensures shown { (text : List ℕ) (a b : Result (List DrillCommand) Fault) → Shows text a → Shows text b → a ≡ b }
    ensures read { (text : List ℕ) (a b : Result (List DrillCommand) Fault) → Reads text a → Reads text b → a ≡ b }
{}

/// A fault that a text shows is the fault of each text that begins with it, read in pieces or as a whole.
pub fn faults_stay()
    ensures shown { (text more : List ℕ) (f : Fault) → Shows text (Err f) → Shows (text ++ more) (Err f) }
    ensures read { (text more : List ℕ) (f : Fault) → Shows text (Err f) → Reads (text ++ more) (Err f) }
{}

/// A text is read as some commands just where it is a drill text of them.
pub fn drill_texts()
    ensures { (text : List ℕ) (commands : List DrillCommand) → (Reads text (Ok commands)) ↔ (IsDrillText text commands) }
{}

/// Texts that spell equal lists of commands have equal holes and tools.
pub fn equal_commands()
    ensures holes { (s t : List ℕ) (a b : List DrillCommand) → SpellsText s a → SpellsText t b → a ≡ b → holes_of a ≡ holes_of b }
    ensures tools { (s t : List ℕ) (a b : List DrillCommand) → SpellsText s a → SpellsText t b → a ≡ b → tools_of a ≡ tools_of b }
{}

/// The commands that a text spells are sayable.
pub fn sayable_texts()
    ensures { (text : List ℕ) (commands : List DrillCommand) → SpellsText text commands → drill_sayable commands ≡ true }
{}

/// A text has a fault exactly where this is its first one, and each text is a drill text of some commands or has a fault. The reason
/// of a fault is one for which drill texts are refused.
pub fn first_faults()
    ensures first { (text : List ℕ) (f : Fault) → (Reads text (Err f)) ↔ (IsFirstFault text f) }
    ensures answer { (text : List ℕ) → HasAnswer text }
    ensures reasons { (text : List ℕ) (f : Fault) → Reads text (Err f) → is_drill_reason f.reason ≡ true }
{}

/// The holes that are listed of the commands of a drill text are just those that the commands drill.
pub fn drilled_holes()
    ensures drilled { ListedHolesAreDrilled }
    ensures listed { DrilledHolesAreListed }
    ensures one { DrillsAtMostOneList }
{}

/// A text spells commands just where it is a text of them by the grammar of the strict profile, and neither it nor a line is too long. By the
/// grammar of a profile it is a text of at most one list of commands.
pub fn text_grammar()
    ensures written { SpelledIsWritten }
    ensures one { IsTextOfAtMostOne }
{}

/// In the strict profile a text shows, and is read as, what it does where no profile is named.
pub fn strict_profile()
    ensures shown { (text : List ℕ) (answer : Result (List DrillCommand) Fault) → (ShowsIn Strict text answer) ↔ (Shows text answer) }
    ensures read { (text : List ℕ) (answer : Result (List DrillCommand) Fault) → (ReadsIn Strict text answer) ↔ (Reads text answer) }
{}

/// In each profile a text shows one thing and has one reading, and a fault that it shows is the fault of each text that begins with it.
pub fn readings_in_profiles()
    ensures shown { (profile : Profile) (text : List ℕ) (a b : Result (List DrillCommand) Fault) → ShowsIn profile text a → ShowsIn profile text b → a ≡ b }
    ensures read { (profile : Profile) (text : List ℕ) (a b : Result (List DrillCommand) Fault) → ReadsIn profile text a → ReadsIn profile text b → a ≡ b }
    ensures some { (profile : Profile) (text : List ℕ) → (answer : Result (List DrillCommand) Fault) × ReadsIn profile text answer }
    ensures stays { (profile : Profile) (text more : List ℕ) (f : Fault) → ShowsIn profile text (Err f) → ReadsIn profile (text ++ more) (Err f) }
{}

/// A text that is read without a profile has the same commands in the wide one.
pub fn wide_reads_more()
    ensures { (text : List ℕ) (commands : List DrillCommand) → Reads text (Ok commands) → ReadsIn Wide text (Ok commands) }
{}

/// In the wide profile a text is read as commands just where it is a text of them by the grammar of lines and routes, the commands are
/// legal, and neither the text nor a line is too long.
pub fn wide_grammar()
    ensures read { WrittenIsRead }
    ensures written { ReadIsWritten }
{}

/// The holes that are listed of the legal commands of a wide text are just those that the commands drill.
pub fn wide_holes()
    ensures { WideHolesAreDrilled }
{}

/// Of each kind of file, in each profile, a text shows one thing and has one reading, and a fault that it shows is the fault of each
/// text that begins with it. It is read as commands just where it is read as these by its role alone, and none of them breaks the rule
/// that the kind has beside the others.
pub fn readings_of_kinds()
    ensures shown { (kind : Kind) (text : List ℕ) (a b : Result (List DrillCommand) Fault) → ShowsBy kind text a → ShowsBy kind text b → a ≡ b }
    ensures read { (kind : Kind) (text : List ℕ) (a b : Result (List DrillCommand) Fault) → ReadsBy kind text a → ReadsBy kind text b → a ≡ b }
    ensures some { (kind : Kind) (text : List ℕ) → (answer : Result (List DrillCommand) Fault) × ReadsBy kind text answer }
    ensures stays { (kind : Kind) (text more : List ℕ) (f : Fault) → ShowsBy kind text (Err f) → ReadsBy kind (text ++ more) (Err f) }
    ensures same { KindsReadTheSame }
{}

/// The commands of a file break no rule of unplated files just where none of its comments says that holes are plated.
pub fn unplated_files()
    ensures { UncontradictedIsLegal }
{}

/// Where the commands of a file break no rule of mixed files, each of its holes is called plated or unplated by the comment before its
/// tool. That is listed of each hole, in their order.
pub fn mixed_files()
    ensures called { ListedIsCalled }
    ensures listed { CalledIsListed }
    ensures one_each { OneForEach }
{}
