//! Laws of the grammar of extended items. A call of one does nothing; its clauses are what is proved.

ghost use Rattle.gerber_commands.specs.PieceLaws.{AnswersAreWritten, PiecesSpellOneList, WrittenIsAnswered};
ghost use Rattle.gerber_commands.specs.Profiles.{ItemsAreAnsweredIn, ItemsAreWrittenIn, WideReadsMore};
ghost use Rattle.gerber_commands.specs.WordLaws.{SpellingsAreUnique, WordsAreWritten, WrittenWordsAreRead};

/// What the rows answer is so written: a piece that they give commands is one of the grammar for just these.
pub fn written_pieces()
    ensures { AnswersAreWritten }
{}

/// What is so written the rows answer: a piece of the grammar for some commands spells just these. So it is written
/// for one list of commands at most.
pub fn answered_pieces()
    ensures piece { WrittenIsAnswered }
    ensures unique { PiecesSpellOneList }
{}

/// In each profile an item spells commands just where it is a piece of the grammar for these there, and `*`.
pub fn items_in_profiles()
    ensures written { ItemsAreWrittenIn }
    ensures answered { ItemsAreAnsweredIn }
{}

/// An item that spells commands in the strict profile spells the same ones in the wide one.
pub fn wide_reads_more()
    ensures { WideReadsMore }
{}

/// The commands that a word is read as are written by it, as the grammar of words says.
pub fn written_words()
    ensures { WordsAreWritten }
{}

/// A word that is written for some commands is read as these, so the grammar allows no other word, and no second list of commands.
pub fn exact_words()
    ensures read { WrittenWordsAreRead }
    ensures unique { SpellingsAreUnique }
{}
