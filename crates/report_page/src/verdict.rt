//! The verdict in words.

ghost use Rattle.std.specs.Prelude.{◌≡◌, Some};
ghost use Rattle.report_page.specs.Pages.{count_words, verdict, verdict_word};

use print_text::WaivedWords;
use std::fmt;
use std::fmt::{Display, Formatter};

/// The number of findings: `1 finding` or `6 findings`.
#[derive(Clone, Copy)]
pub(crate) struct CountWords(pub(crate) u128);

impl Display for CountWords {
    ghost output = { λ count. Some (count_words count.0) };

    fn fmt<W: fmt::Write>(&self, f: &mut Formatter<W>) -> fmt::Result {
        if self.0 == 1 {
            f.write_str("1 finding")
        } else {
            write!(f, "{} findings", self.0)
        }
    }
}

/// `PASS: ` without findings, `WAIVED: ` where each is waived, else nothing.
fn verdict_word(findings: u128, waived: u128) -> &'static str
    ensures { result.now ≡ verdict_word findings waived }
{
    if findings == 0 {
        "PASS: "
    } else if waived == findings {
        "WAIVED: "
    } else {
        ""
    }
}

/// The verdict: `PASS: 0 findings`, `WAIVED: 2 findings, 2 waived` or `6 findings, 2 waived`.
#[derive(Clone, Copy)]
pub(crate) struct Verdict {
    pub(crate) findings: u128,
    /// How many of them are waived.
    pub(crate) waived: u128,
}

impl Display for Verdict {
    ghost output = { λ it. Some (verdict it.findings it.waived) };

    fn fmt<W: fmt::Write>(&self, f: &mut Formatter<W>) -> fmt::Result {
        let word = verdict_word(self.findings, self.waived);
        let (count, waived) = (CountWords(self.findings), WaivedWords(self.waived));
        write!(f, "{word}{count}{waived}")
    }
}
