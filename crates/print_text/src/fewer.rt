//! How many findings the wide profile does not have.

ghost use Rattle.std.specs.Prelude.{◌≡◌, Some};
ghost use Rattle.print_text.specs.Texts.{disappear_words, fewer_line, fewer_words};

use std::fmt;
use std::fmt::{Display, Formatter};

/// How many findings of a report in the strict profile disappear in the wide one:
/// `2 of these 6 findings disappear with --profile wide, which counts pads with rounded corners`.
#[derive(Clone, Copy)]
pub struct FewerWords {
    /// How many findings the report has.
    pub findings: u128,
    /// How many of them disappear.
    pub fewer: u128,
}

/// The words after the number of findings.
fn disappear_words(fewer: u128) -> &'static str
    ensures { result.now ≡ disappear_words fewer }
{
    if fewer == 1 {
        " findings disappears"
    } else {
        " findings disappear"
    }
}

impl Display for FewerWords {
    ghost output = { λ words. Some (fewer_words words.findings words.fewer) };

    fn fmt<W: fmt::Write>(&self, f: &mut Formatter<W>) -> fmt::Result {
        if self.findings == 1 {
            return f.write_str(
                "this finding disappears with --profile wide, which counts pads with rounded corners",
            );
        }
        let (findings, words) = (self.findings, disappear_words(self.fewer));
        write!(
            f,
            "{} of these {findings}{words} with --profile wide, which counts pads with rounded corners",
            self.fewer
        )
    }
}

/// The line of these words; no line for none.
#[derive(Clone, Copy)]
pub(crate) struct FewerLine(pub(crate) FewerWords);

impl Display for FewerLine {
    ghost output = { λ line. Some (fewer_line line.0.findings line.0.fewer) };

    fn fmt<W: fmt::Write>(&self, f: &mut Formatter<W>) -> fmt::Result {
        if self.0.fewer == 0 {
            return Ok(());
        }
        write!(f, "{}\n", self.0)
    }
}
