//! The lines of a report, one by one.

ghost use Rattle.std.specs.Prelude.{◌≡◌, ◌≤◌, map, Some};
ghost use Rattle.print_text.specs.Texts.{conflict_line, gap_line, gaps_line, profile_words, idle_line, kind_line, last_line, layer_line, more_line, pair_words, ring_line, rule_words, rules_line, rules_words, scale_line, size_words, smallest_line, too_small_words, waived_words, acceptance_words, ring_words};

use crate::kind::{CauseKind, hint, kind_words};
use crate::measure_lines::NoPage;
use crate::tallies::rings_of_kind;
use crate::words::{CauseWords, HoleWords, MeasuredWords};
use grid_units::{Line, Profile, Rules, ShortMillimetres, name_of};
use report::{
    GapLack, PlacedHole, RingLack, RoleConflict, UnitFactor, UnitMistake, conflict_words,
    factor_word,
};
use std::fmt;
use std::fmt::{Display, Formatter};

/// The names of the files of the package.
#[derive(Clone, Copy)]
pub(crate) struct FileNames<'a>(pub(crate) &'a [&'a str]);

/// A rule, in pm, after its words: `rules: annular ring 0.15 mm`.
#[derive(Clone, Copy)]
struct RuleWords<'a> {
    words: &'a str,
    rule: i64,
}

impl Display for RuleWords<'_> {
    ghost output = { λ line. Some (rule_words line.words.now line.rule) };

    #[tactic(auto, unfolding(crate::specs::Texts::rule_words))]
    fn fmt<W: fmt::Write>(&self, f: &mut Formatter<W>) -> fmt::Result {
        write!(f, "{}{} mm", self.words, ShortMillimetres(self.rule))
    }
}

/// The rules of the check: `rules: annular ring 0.15 mm, hole to hole 0.25 mm`.
#[derive(Clone, Copy)]
pub struct RulesWords<'a>(pub &'a Rules);

impl Display for RulesWords<'_> {
    ghost output = { λ words. Some (rules_words words.0.now) };

    fn fmt<W: fmt::Write>(&self, f: &mut Formatter<W>) -> fmt::Result {
        let ring = RuleWords {
            words: "rules: annular ring ",
            rule: self.0.ring(),
        };
        let gap = RuleWords {
            words: ", hole to hole ",
            rule: self.0.gap(),
        };
        write!(f, "{ring}{gap}")
    }
}

/// The profile at the end of the rules: `, profile wide`; nothing of the strict one.
fn profile_words(profile: Profile) -> &'static str
    ensures { result.now ≡ profile_words profile }
{
    match profile {
        Profile::Strict => "",
        Profile::Wide => ", profile wide",
    }
}

/// The line of the rules of the check: `rules: annular ring 0.15 mm, hole to hole 0.25 mm`, in the wide profile with `, profile wide`.
#[derive(Clone, Copy)]
pub(crate) struct RulesLine<'a>(pub(crate) &'a Rules);

impl Display for RulesLine<'_> {
    ghost output = { λ line. Some (rules_line line.0.now) };

    fn fmt<W: fmt::Write>(&self, f: &mut Formatter<W>) -> fmt::Result {
        let profile = profile_words(self.0.profile());
        write!(f, "{}{profile}\n", RulesWords(self.0))
    }
}

/// The number of waived findings, if it is not 0: `, 3 waived`.
#[derive(Clone, Copy)]
pub struct WaivedWords(pub u128);

impl Display for WaivedWords {
    ghost output = { λ waived. Some (waived_words waived.0) };

    fn fmt<W: fmt::Write>(&self, f: &mut Formatter<W>) -> fmt::Result {
        if self.0 == 0 {
            return Ok(());
        }
        write!(f, ", {} waived", self.0)
    }
}

/// The reason why a finding is accepted, if it is: `, waived: drawn so`.
#[derive(Clone, Copy)]
struct WhyWords<'a>(Option<&'a str>);

impl Display for WhyWords<'_> {
    ghost output = { λ why. Some (acceptance_words why.0) };

    fn fmt<W: fmt::Write>(&self, f: &mut Formatter<W>) -> fmt::Result {
        match self.0 {
            Some(why) => write!(f, ", waived: {why}"),
            None => Ok(()),
        }
    }
}

/// The line of a layer, with the numbers of its holes: `annular ring on top: 3 of 245 holes below the rule, 3 waived`.
#[derive(Clone, Copy)]
pub(crate) struct LayerLine<'a> {
    /// The name of its file.
    pub(crate) name: &'a str,
    /// How many holes lack their ring there.
    pub(crate) below: usize,
    /// How many holes need a ring.
    pub(crate) needed: usize,
    pub(crate) waived: usize,
}

impl Display for LayerLine<'_> {
    ghost output = { λ line. Some (layer_line line.name.now line.below line.needed line.waived) };

    fn fmt<W: fmt::Write>(&self, f: &mut Formatter<W>) -> fmt::Result {
        let (name, below, needed) = (self.name, self.below, self.needed);
        write!(
            f,
            "annular ring on {name}: {below} of {needed} holes below the rule"
        )?;
        write!(f, "{}\n", WaivedWords(self.waived as u128))
    }
}

/// A hole that lacks its ring, by the number of the finding: `  #7 hole 1 of pth, 0.4 at 0,0: annular ring not judged, only a macro flash: flash 156`.
#[derive(Clone, Copy)]
struct RingWords<'a> {
    names: &'a [&'a str],
    rules: &'a Rules,
    number: u128,
    lack: &'a RingLack,
}

impl Display for RingWords<'_> {
    ghost output = { λ words. Some (ring_words (map (λ name. name.now) words.names.now) words.rules.now words.number words.lack.now) };

    #[tactic(auto, unfolding(crate::specs::Texts::ring_words))]
    fn fmt<W: fmt::Write>(&self, f: &mut Formatter<W>) -> fmt::Result {
        let at = HoleWords {
            names: self.names,
            at: &self.lack.at,
        };
        let cause = CauseWords {
            rule: self.rules.ring(),
            hole: &self.lack.at.hole,
            cause: &self.lack.cause,
        };
        write!(f, "  #{} {at}: {cause}", self.number)
    }
}

/// The line of a hole that lacks its ring, with the number of the finding, and the reason if it is waived.
#[derive(Clone, Copy)]
pub(crate) struct RingLine<'a> {
    pub(crate) names: &'a [&'a str],
    pub(crate) rules: &'a Rules,
    /// The number of the finding, from 1.
    pub(crate) number: u128,
    pub(crate) lack: &'a RingLack,
    pub(crate) why: Option<&'a str>,
}

impl Display for RingLine<'_> {
    ghost output = { λ line. Some (ring_line (map (λ name. name.now) line.names.now) line.rules.now line.number line.lack.now line.why) };

    #[tactic(auto, unfolding(crate::specs::Texts::ring_line))]
    fn fmt<W: fmt::Write>(&self, f: &mut Formatter<W>) -> fmt::Result {
        let words = RingWords {
            names: self.names,
            rules: self.rules,
            number: self.number,
            lack: self.lack,
        };
        write!(f, "{words}{}\n", WhyWords(self.why))
    }
}

/// The line of the findings that are not shown, if there are any: `  and 4 more`.
#[derive(Clone, Copy)]
pub(crate) struct MoreLine(pub(crate) usize);

impl Display for MoreLine {
    ghost output = { λ left. Some (more_line left.0) };

    fn fmt<W: fmt::Write>(&self, f: &mut Formatter<W>) -> fmt::Result {
        if self.0 == 0 {
            return Ok(());
        }
        write!(f, "  and {} more\n", self.0)
    }
}

/// The words after the number of gaps: ` gap too small` after 1.
fn too_small_words(gaps: usize) -> &'static str
    ensures { result.now ≡ too_small_words gaps }
{
    if gaps == 1 {
        " gap too small"
    } else {
        " gaps too small"
    }
}

/// The line of the gaps: `hole to hole: 6 gaps too small, 2 waived`.
#[derive(Clone, Copy)]
pub(crate) struct GapsLine {
    /// How many gaps are too small.
    pub(crate) gaps: usize,
    pub(crate) waived: usize,
}

impl Display for GapsLine {
    ghost output = { λ line. Some (gaps_line line.gaps line.waived) };

    fn fmt<W: fmt::Write>(&self, f: &mut Formatter<W>) -> fmt::Result {
        let (gaps, words) = (self.gaps, too_small_words(self.gaps));
        write!(
            f,
            "hole to hole: {gaps}{words}{}\n",
            WaivedWords(self.waived as u128)
        )
    }
}

/// Two holes: `hole 1 of pth, 0.4 at 0,0, and hole 2 of pth, 0.4 at 0,0`.
#[derive(Clone, Copy)]
struct PairWords<'a> {
    names: &'a [&'a str],
    first: &'a PlacedHole,
    second: &'a PlacedHole,
}

impl Display for PairWords<'_> {
    ghost output = { λ pair. Some (pair_words (map (λ name. name.now) pair.names.now) pair.first.now pair.second.now) };

    #[tactic(auto, unfolding(crate::specs::Texts::pair_words))]
    fn fmt<W: fmt::Write>(&self, f: &mut Formatter<W>) -> fmt::Result {
        let names = self.names;
        let first = HoleWords {
            names,
            at: self.first,
        };
        let second = HoleWords {
            names,
            at: self.second,
        };
        write!(f, "{first}, and {second}")
    }
}

/// The line of two holes that lack their gap, with the number of the finding, and the reason if it is waived.
#[derive(Clone, Copy)]
pub(crate) struct GapLine<'a> {
    pub(crate) names: &'a [&'a str],
    pub(crate) rules: &'a Rules,
    /// The number of the finding, from 1.
    pub(crate) number: u128,
    pub(crate) lack: &'a GapLack,
    pub(crate) why: Option<&'a str>,
}

impl Display for GapLine<'_> {
    ghost output = { λ line. Some (gap_line (map (λ name. name.now) line.names.now) line.rules.now line.number line.lack.now line.why) };

    #[tactic(auto, unfolding(crate::specs::Texts::gap_line, crate::specs::Texts::gap_pair_words))]
    fn fmt<W: fmt::Write>(&self, f: &mut Formatter<W>) -> fmt::Result {
        let lack = self.lack;
        let pair = PairWords {
            names: self.names,
            first: &lack.first,
            second: &lack.second,
        };
        let gap = MeasuredWords {
            words: "gap ",
            has: lack.gap,
            rule: self.rules.gap(),
        };
        let (number, why) = (self.number, WhyWords(self.why));
        write!(f, "  #{number} {pair}: {gap}{why}\n")
    }
}

/// The rings of a report, with the profile that the files were read in.
#[derive(Clone, Copy)]
pub(crate) struct ProfileRings<'a> {
    pub(crate) profile: Profile,
    pub(crate) rings: &'a [RingLack],
}

/// The line of a kind of cause, by the rings of the report: their number, the words and the hint; nothing where there are none.
impl Line<ProfileRings<'_>> for CauseKind {
    ghost text = { λ page kind. kind_line page.profile page.rings.now kind };

    fn fmt_on<W: fmt::Write>(&self, page: &ProfileRings<'_>, f: &mut Formatter<W>) -> fmt::Result {
        let count = rings_of_kind(page.rings, *self);
        if count == 0 {
            return Ok(());
        }
        write!(
            f,
            "{count} {}: {}\n",
            kind_words(*self),
            hint(page.profile, *self)
        )
    }
}

/// The line of the smallest ring or gap, if there is one: `smallest ring 0.149 (rule 0.15)`.
#[derive(Clone, Copy)]
pub(crate) struct SmallestLine<'a> {
    /// The words before it: `smallest ring ` or `smallest gap `.
    pub(crate) words: &'a str,
    /// The required length in pm.
    pub(crate) rule: i64,
    pub(crate) least: Option<i64>,
}

impl Display for SmallestLine<'_> {
    ghost output = { λ line. Some (smallest_line line.words.now line.rule line.least) };

    fn fmt<W: fmt::Write>(&self, f: &mut Formatter<W>) -> fmt::Result {
        let Some(has) = self.least else {
            return Ok(());
        };
        let (words, rule) = (self.words, self.rule);
        write!(f, "{}\n", MeasuredWords { words, has, rule })
    }
}

/// How far coordinates look off, by the factor that they are to be multiplied by.
fn size_words(factor: UnitFactor) -> &'static str
    ensures { result.now ≡ size_words factor }
{
    match factor {
        UnitFactor::Ten => "10 times too small",
        UnitFactor::Tenth => "10 times too large",
        UnitFactor::Inch => "25.4 times too small",
        UnitFactor::PerInch => "25.4 times too large",
    }
}

/// The line of a drill file whose coordinates seem to be off by a factor:
/// `pth: coordinates look 10 times too small: 3 holes have no pad; with coordinates multiplied by 10, 0 would have none`.
impl Line<FileNames<'_>> for UnitMistake {
    ghost text = { λ names line. scale_line (map (λ name. name.now) names.0.now) line };

    #[tactic(auto, unfolding(crate::specs::Texts::scale_words))]
    fn fmt_on<W: fmt::Write>(&self, page: &FileNames<'_>, f: &mut Formatter<W>) -> fmt::Result {
        let (name, size) = (name_of(page.0, self.drill), size_words(self.factor));
        let (bare, factor, then) = (self.bare, factor_word(self.factor), self.then);
        write!(
            f,
            "{name}: coordinates look {size}: {bare} holes have no pad; with coordinates multiplied by {factor}, {then} would have none\n"
        )
    }
}

/// The line of a drill file whose own comments contradict its role:
/// `warning: npth: its role is unplated, but its comments say that holes are plated`.
impl Line<FileNames<'_>> for RoleConflict {
    ghost text = { λ names line. conflict_line (map (λ name. name.now) names.0.now) line };

    #[tactic(auto, unfolding(crate::specs::Texts::warning_words))]
    fn fmt_on<W: fmt::Write>(&self, page: &FileNames<'_>, f: &mut Formatter<W>) -> fmt::Result {
        let name = name_of(page.0, self.drill);
        write!(f, "warning: {name}: {}\n", conflict_words(self.plated))
    }
}

/// The line of a waiver that waives no finding, by the number of its record: `waiver 8 matches no finding`.
impl Line<NoPage> for usize {
    ghost text = { λ _ number. idle_line number };

    fn fmt_on<W: fmt::Write>(&self, _page: &NoPage, f: &mut Formatter<W>) -> fmt::Result {
        write!(f, "waiver {self} matches no finding\n")
    }
}

/// The last line: `PASS` without findings, `WAIVED 6` where all are waived, else `FINDINGS 6` with the number of the others.
#[derive(Clone, Copy)]
pub(crate) struct LastLine {
    pub(crate) findings: u128,
    /// How many of them are waived.
    pub(crate) waived: u128,
    ghost within: { waived ≤ findings },
}

impl Display for LastLine {
    ghost output = { λ line. Some (last_line line.findings line.waived) };

    fn fmt<W: fmt::Write>(&self, f: &mut Formatter<W>) -> fmt::Result {
        if self.findings == 0 {
            return f.write_str("PASS\n");
        }
        if self.waived == self.findings {
            return write!(f, "WAIVED {}\n", self.findings);
        }
        write!(f, "FINDINGS {}\n", self.findings - self.waived)
    }
}
