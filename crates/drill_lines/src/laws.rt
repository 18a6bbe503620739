//! Laws of drill lines. A call of one does nothing; its clauses are what is proved.

ghost use Rattle.drill_lines.specs.Laws.{AnswersAreWritten, RepeatsAreWritten, SpelledRepeatsNone, SpellsAtMostOne, WrittenIsAnswered};

/// A line is read as a command, or as nothing, just where it is so written, and spells at most one. So is one that repeats
/// a hit, and a line that spells something else in its profile repeats none.
pub fn line_grammar()
    ensures written { AnswersAreWritten }
    ensures answered { WrittenIsAnswered }
    ensures one { SpellsAtMostOne }
    ensures repeats { RepeatsAreWritten }
    ensures apart { SpelledRepeatsNone }
{}
