//! Prints the page of a word, or the words that have one.

ghost use Rattle.std.specs.Prelude.{ℕ, IfOk, Some, option_map};
ghost use Rattle.ringcheck_files.specs.Outcomes.{HasCause};
ghost use Rattle.ringcheck_files.specs.ManifestStatus.{IsExplainStatus};
ghost use Rattle.ringcheck_files.specs.Sentences.{no_page_sentence};

use crate::outcomes::{Failure, refuse_word};
use crate::{Status, explanation_in_any_case, near_word, words};
use grid_units::Reason;
use std::fmt;
use std::fmt::{Display, Formatter};
use std::io::Write;

/// What is said of a word without a page: `no page for smal; did you mean small?`
#[derive(Clone, Copy)]
struct NoPage<'a>(&'a str);

impl Display for NoPage<'_> {
    ghost output = { λ it. Some (no_page_sentence it.0.now) };

    fn fmt<W: fmt::Write>(&self, f: &mut Formatter<W>) -> fmt::Result {
        let word = self.0;
        match near_word(word) {
            Some(near) => write!(f, "no page for {word}; did you mean {near}?"),
            None => write!(
                f,
                "no page for {word}; ringcheck explain lists the words that have one"
            ),
        }
    }
}

/// Prints the page of a word, in whichever case it is written, or the refusal BadRole where it has none. Without a word it
/// prints the list of the words that have one.
///
/// # Errors
///
/// [`Failure::Writer`] where the writer fails.
pub fn explain<W: Write>(word: Option<&str>, out: &mut W) -> Result<Status, Failure>
    ensures says { IfOk result (λ status. IsExplainStatus (option_map (λ w. w.now) word.entry) (W.contents out.old) (W.contents out.new) status) }
    ensures cause { (before after : ℕ) → IfOk result (HasCause before after) }
{
    let Some(word) = word else {
        write!(out, "{}", words())?;
        return Ok(Status::Pass);
    };
    match explanation_in_any_case(word) {
        Some(page) => {
            write!(out, "{page}")?;
            Ok(Status::Pass)
        }
        None => {
            refuse_word(out, Reason::BadRole)?;
            write!(out, "  {}\n", NoPage(word))?;
            Ok(Status::Usage)
        }
    }
}
