//! What is said of refused words: which word, why, and what to write instead.

ghost use Rattle.std.specs.Prelude.{◌≡◌, IfOk, IfSome, Some, is_some};
ghost use Rattle.ringcheck_files.specs.Words.{IsExplainedUsage};
ghost use Rattle.ringcheck_files.specs.Writers.{texts};
ghost use Rattle.ringcheck.specs.Sentences as sentences;
ghost use Rattle.ringcheck.specs.ParsedWords.{word_bytes};

use crate::parsed_words::{parse_drilling, parse_length, parse_limit, parse_rules, profile_of};
use command_line::ReportWords;
use grid_units::Reason;
use ringcheck_files::{Failure, Status, Streams, refuse_word};
use std::fmt;
use std::fmt::{Display, Formatter};
use std::io::Write;

/// Prints the line of words that are refused, and what is said of them: below the line, or if not `below`, beside it. Returns the status
/// of the run.
pub(crate) fn refuse<W: Write, E: Write, S: Display>(
    to: &mut Streams<W, E>,
    below: bool,
    reason: Reason,
    said: &S,
) -> Result<Status, Failure>
    ensures says { IfOk result (λ status. IfSome (S.output said.now) (λ s. IsExplainedUsage below reason s (texts W.contents E.contents to.old) (texts W.contents E.contents to.new) status)) }
    ensures usage { IfOk result (λ status. status ≡ Status.Usage) }
{
    refuse_word(&mut to.out, reason)?;
    if below {
        write!(to.out, "  {said}\n")?;
    } else {
        write!(to.err, "  {said}\n")?;
    }
    Ok(Status::Usage)
}

/// What a length is, where a word is none for this reason.
fn length_words(reason: Reason) -> &'static str
    ensures { result.now ≡ sentences.length_words reason }
{
    match reason {
        Reason::TooFine => "a length has at most eight decimals, e.g. 0.125",
        Reason::TooFar => "a length is at most 10000 mm",
        _ => "give millimetres without a unit, e.g. 0.127 for 5 mil",
    }
}

/// What is said of the value of an option that is no length.
#[derive(Clone, Copy)]
struct NoLength<'a> {
    option: &'static str,
    word: &'a str,
    reason: Reason,
}

impl Display for NoLength<'_> {
    ghost output = { λ it. Some (sentences.length_sentence it.option.now it.word.now it.reason) };

    fn fmt<W: fmt::Write>(&self, f: &mut Formatter<W>) -> fmt::Result {
        let (option, word) = (self.option, self.word);
        let length = length_words(self.reason);
        write!(f, "{option} {word}: {length}")
    }
}

/// What is said of two options that are refused, each with the word for its length: of the first, of the second, or of both.
#[derive(Clone, Copy)]
struct NoLengths<'a> {
    first: (&'static str, &'a str),
    second: (&'static str, &'a str),
    /// What the two must be, where each word is a length.
    both: &'static str,
}

impl Display for NoLengths<'_> {
    ghost output = { λ it. Some (sentences.lengths_sentence it.first.0.now it.first.1.now it.second.0.now it.second.1.now it.both.now) };

    fn fmt<W: fmt::Write>(&self, f: &mut Formatter<W>) -> fmt::Result {
        let ((first, one), (second, other)) = (self.first, self.second);
        match (parse_length(one), parse_length(other)) {
            (Err(reason), _) => {
                let no_first = NoLength {
                    option: first,
                    word: one,
                    reason,
                };
                no_first.fmt(f)
            }
            (Ok(_), Err(reason)) => {
                let no_second = NoLength {
                    option: second,
                    word: other,
                    reason,
                };
                no_second.fmt(f)
            }
            (Ok(_), Ok(_)) => write!(f, "{first} {one} {second} {other}: {}", self.both),
        }
    }
}

/// What is said of words that name no rules: of the ring, of the gap, or of both.
#[derive(Clone, Copy)]
struct NoRules<'a> {
    ring: &'a str,
    gap: &'a str,
}

impl Display for NoRules<'_> {
    ghost output = { λ it. Some (sentences.rules_sentence it.ring.now it.gap.now) };

    fn fmt<W: fmt::Write>(&self, f: &mut Formatter<W>) -> fmt::Result {
        let no_rules = NoLengths {
            first: ("--ring", self.ring),
            second: ("--gap", self.gap),
            both: "the ring is 0 or more, and the gap is more than 0",
        };
        no_rules.fmt(f)
    }
}

/// What is said of words that name no drilling: of one length without the other, of the first, of the second, or of both.
#[derive(Clone, Copy)]
struct NoDrilling<'a> {
    off: Option<&'a str>,
    wide: Option<&'a str>,
}

impl Display for NoDrilling<'_> {
    ghost output = { λ it. Some (sentences.drilling_sentence (word_bytes it.off) (word_bytes it.wide)) };

    fn fmt<W: fmt::Write>(&self, f: &mut Formatter<W>) -> fmt::Result {
        let (Some(off), Some(wide)) = (self.off, self.wide) else {
            return f.write_str("--drill-off and --drill-wide are given together");
        };
        let no_drilling = NoLengths {
            first: ("--drill-off", off),
            second: ("--drill-wide", wide),
            both: "both are 0 or more",
        };
        no_drilling.fmt(f)
    }
}

/// What is said of a word that is no number of findings.
#[derive(Clone, Copy)]
struct NoCount<'a>(Option<&'a str>);

impl Display for NoCount<'_> {
    ghost output = { λ it. Some (sentences.count_sentence (word_bytes it.0)) };

    fn fmt<W: fmt::Write>(&self, f: &mut Formatter<W>) -> fmt::Result {
        match self.0 {
            Some(word) => write!(
                f,
                "--max {word}: give a number of one to nine digits, e.g. 20"
            ),
            None => f.write_str("--max takes a number of one to nine digits, e.g. 20"),
        }
    }
}

/// What is said of a word that names no profile.
#[derive(Clone, Copy)]
pub(crate) struct NoProfile<'a>(pub(crate) Option<&'a str>);

impl Display for NoProfile<'_> {
    ghost output = { λ it. Some (sentences.profile_sentence (word_bytes it.0)) };

    fn fmt<W: fmt::Write>(&self, f: &mut Formatter<W>) -> fmt::Result {
        match self.0 {
            Some(word) => write!(f, "--profile must be strict or wide, not {word}"),
            None => f.write_str("--profile must be strict or wide"),
        }
    }
}

/// What is said of the words of a check or of a picture that are refused, by the first of them that is. A check has a ring and a gap.
#[derive(Clone, Copy)]
pub(crate) struct NoPicture<'a> {
    pub(crate) profile: Option<&'a str>,
    pub(crate) ring: Option<&'a str>,
    pub(crate) gap: Option<&'a str>,
}

impl Display for NoPicture<'_> {
    ghost output = { λ it. Some (sentences.draw_sentence (word_bytes it.profile) (word_bytes it.ring) (word_bytes it.gap)) };

    fn fmt<W: fmt::Write>(&self, f: &mut Formatter<W>) -> fmt::Result {
        if profile_of(self.profile).is_none() {
            return NoProfile(self.profile).fmt(f);
        }
        match (self.ring, self.gap) {
            (Some(ring), Some(gap)) => NoRules { ring, gap }.fmt(f),
            _ => f.write_str("--ring and --gap are given together"),
        }
    }
}

/// What is said of the words of a measure that are refused, by the first of them that is.
#[derive(Clone, Copy)]
pub(crate) struct NoMeasure<'a> {
    pub(crate) profile: Option<&'a str>,
    pub(crate) format: Option<&'a str>,
}

impl Display for NoMeasure<'_> {
    ghost output = { λ it. Some (sentences.measure_sentence (word_bytes it.profile) (word_bytes it.format)) };

    fn fmt<W: fmt::Write>(&self, f: &mut Formatter<W>) -> fmt::Result {
        if profile_of(self.profile).is_none() {
            return NoProfile(self.profile).fmt(f);
        }
        match self.format {
            Some(word) => write!(f, "--format must be text or json, not {word}"),
            None => f.write_str("--format must be text or json"),
        }
    }
}

/// What is said of the words of a report that are refused, by the first of them that is.
#[derive(Clone, Copy)]
pub(crate) struct NoReport<'a>(pub(crate) &'a ReportWords<'a>);

impl Display for NoReport<'_> {
    ghost output = { λ it. Some (sentences.report_sentence (word_bytes it.0.now.profile) it.0.now.ring.now it.0.now.gap.now (word_bytes it.0.now.drill_off) (word_bytes it.0.now.drill_wide) (word_bytes it.0.now.limit) (is_some (word_bytes it.0.now.outline)) (word_bytes it.0.now.format)) };

    fn fmt<W: fmt::Write>(&self, f: &mut Formatter<W>) -> fmt::Result {
        let words = self.0;
        let (ring, gap) = (words.ring, words.gap);
        if profile_of(words.profile).is_none() {
            return NoProfile(words.profile).fmt(f);
        }
        if parse_rules(ring, gap).is_err() {
            return NoRules { ring, gap }.fmt(f);
        }
        let (off, wide) = (words.drill_off, words.drill_wide);
        if parse_drilling(off, wide).is_err() {
            return NoDrilling { off, wide }.fmt(f);
        }
        if parse_limit(words.limit).is_err() {
            return NoCount(words.limit).fmt(f);
        }
        if words.outline.is_some() {
            return f.write_str("--outline works only with --format html and with draw");
        }
        match words.format {
            Some("waivers") => f.write_str(
                "--waive does not work with --format waivers, which prints a file of waivers",
            ),
            Some(word) => write!(
                f,
                "--format must be text, html, json or waivers, not {word}"
            ),
            None => f.write_str("--format must be text, html, json or waivers"),
        }
    }
}

/// Whether what is printed in the format of a word is for people who see it at once: not where it is `html`, `json` or `waivers`.
pub(crate) fn is_for_people(word: Option<&str>) -> bool
    ensures { result ≡ sentences.is_for_people (word_bytes word.entry) }
{
    match word {
        None => true,
        Some(word) => word != "html" && word != "json" && word != "waivers",
    }
}
