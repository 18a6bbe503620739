//! Laws of what a text shows, reads as and spells. Calling one does nothing, but gives its clauses.

ghost use Rattle.std.specs.Prelude.{◌≡◌, ◌↔◌, true, ℕ, List, Option, Result, Ok, Err, All};
ghost use Rattle.grid_units.specs.declared.fault.Fault.{Fault};
ghost use Rattle.gerber_text.specs.Reading.{Entries, ShowsIn, ReadsIn, SpellsTextIn};
ghost use Rattle.gerber_text.specs.Reasons.{IsReasonOfReading};
ghost use Rattle.gerber_text.specs.Writing.{without_places, sayable};
ghost use Rattle.gerber_commands.specs.declared.command.Action.{Action};
ghost use Rattle.gerber_commands.specs.declared.command.Command.{Command};
ghost use Rattle.std.specs.List.{list_any};
ghost use Rattle.gerber_text.specs.Items.{is_end_item};
ghost use Rattle.gerber_commands.specs.Canonical.{canonical};
ghost use Rattle.gerber_text.specs.Meaning.{meaning_in};
ghost use Rattle.gerber_text.specs.CutItems.{IsCutItem, Spells, IsSpelled};
ghost use Rattle.gerber_text.specs.Sayable.{is_sayable, is_finish};
ghost use Rattle.grid_units.specs.declared.profile.Profile.{Profile};
ghost use Rattle.grid_units.specs.declared.profile.Profile.TheVariants.{Strict, Wide};
ghost use Rattle.gerber_text.specs.Laws.{SpelledTextsAreWrittenIn, TextsSpellOneListIn, WrittenTextsAreSpelledIn};

/// In each profile a text shows one thing, and has one reading, which is some commands just where the text spells them there, or a
/// fault for one of the reasons of reading. A fault that it shows is the one that it has.
pub fn unique_reading()
    ensures shown { (profile : Profile) (text : List ℕ) (a b : Result Entries Fault) → ShowsIn profile text a → ShowsIn profile text b → a ≡ b }
    ensures read { (profile : Profile) (text : List ℕ) (a b : Result Entries Fault) → ReadsIn profile text a → ReadsIn profile text b → a ≡ b }
    ensures some { (profile : Profile) (text : List ℕ) → (answer : Result Entries Fault) × ReadsIn profile text answer }
    ensures spelled { (profile : Profile) (text : List ℕ) (commands : Entries) → SpellsTextIn profile text commands ↔ ReadsIn profile text (Ok commands) }
    ensures faults { (profile : Profile) (text : List ℕ) (f : Fault) → ShowsIn profile text (Err f) → ReadsIn profile text (Err f) }
    ensures reasons { (profile : Profile) (text : List ℕ) (f : Fault) → ReadsIn profile text (Err f) → IsReasonOfReading f.reason }
{}

/// The commands that a text spells are sayable.
pub fn sayable_texts()
    ensures { (text : List ℕ) (commands : Entries) → SpellsTextIn Strict text commands → sayable (without_places commands) ≡ true }
{}

/// The canonical item of a sayable command spells just this command.
pub fn canonical_items()
    ensures { (command : Command) → is_sayable command ≡ true → Spells (canonical command) command }
{}

/// Each command that an item spells is sayable, so the sayable commands are just those that items spell; and
/// `M02` alone spells the end of the text.
pub fn spelled_commands()
    ensures said { (latest : Option Action) (item : List ℕ) (commands : List Command) → IsCutItem item → meaning_in Strict latest item ≡ Ok commands → All (λ command. is_sayable command ≡ true) commands }
    ensures ends { (latest : Option Action) (item : List ℕ) (commands : List Command) → IsCutItem item → meaning_in Strict latest item ≡ Ok commands → list_any is_finish commands ≡ is_end_item item }
    ensures exact { (command : Command) → (is_sayable command ≡ true) ↔ IsSpelled command }
{}

/// In each profile the texts that spell commands are just those that the grammar has for them there, and each is
/// written for one list of commands at most.
pub fn exact_texts()
    ensures written { SpelledTextsAreWrittenIn }
    ensures spelled { WrittenTextsAreSpelledIn }
    ensures unique { TextsSpellOneListIn }
{}

/// A text that the strict profile reads has the same commands in the wide one.
pub fn wide_reads_more()
    ensures { (text : List ℕ) (commands : Entries) → ReadsIn Strict text (Ok commands) → ReadsIn Wide text (Ok commands) }
{}
