//! The particulars of a report: the findings that disappear in the wide profile, the manifest, the rules, the program.

ghost use Rattle.std.specs.Prelude.{◌≡◌, Some};
ghost use Rattle.report_page.specs.Pages.{fewer_note, particulars_text, profile_words};

use grid_units::{Profile, Rules};
use picture::Escaped;
use print_text::{FewerWords, Particulars, RulesWords};
use std::fmt;
use std::fmt::{Display, Formatter};

/// The profile at the end of the rules: `, profile strict`.
fn profile_words(profile: Profile) -> &'static str
    ensures { result.now ≡ profile_words profile }
{
    match profile {
        Profile::Strict => ", profile strict",
        Profile::Wide => ", profile wide",
    }
}

/// How many findings disappear in the wide profile, and what comes before the next paragraph; nothing for none.
#[derive(Clone, Copy)]
struct FewerNote(FewerWords);

impl Display for FewerNote {
    ghost output = { λ note. Some (fewer_note note.0.findings note.0.fewer) };

    fn fmt<W: fmt::Write>(&self, f: &mut Formatter<W>) -> fmt::Result {
        if self.0.fewer == 0 {
            return Ok(());
        }
        write!(f, "{}</p>\n<p>", self.0)
    }
}

/// The particulars of a report under these rules, with this number of findings.
#[derive(Clone, Copy)]
pub(crate) struct ParticularsText<'a> {
    pub(crate) about: &'a Particulars<'a>,
    pub(crate) rules: &'a Rules,
    pub(crate) findings: u128,
}

impl Display for ParticularsText<'_> {
    ghost output = { λ it. Some (particulars_text it.about.now it.rules.now it.findings) };

    #[tactic(auto, unfolding(crate::specs::Pages::board_words, crate::specs::Pages::program_words))]
    fn fmt<W: fmt::Write>(&self, f: &mut Formatter<W>) -> fmt::Result {
        let note = FewerNote(FewerWords {
            findings: self.findings,
            fewer: self.about.fewer,
        });
        let (manifest, program) = (Escaped(self.about.manifest), Escaped(self.about.program));
        let (rules, profile) = (RulesWords(self.rules), profile_words(self.rules.profile()));
        write!(
            f,
            "{note}board: {manifest}</p>\n<p>{rules}{profile}</p>\n<p>program: {program}"
        )
    }
}
