//! The rules, the profile, the drilling, the limit of findings and the format that words of the command line name.

ghost use Rattle.std.specs.Prelude.{◌≡◌};
ghost use Rattle.ringcheck.specs.ParsedWords as words;
ghost use Rattle.ringcheck.specs.ParsedWords.{word_bytes};

use command_line::{PictureWords, ReportWords};
use grid_units::numbers::{capped_value, is_digits};
use grid_units::{Dec, Profile, Reason, Rules, Unit};
use print_text::Drilling;

/// The length in pm that a word names in millimetres, such as `0.125`.
#[tactic(auto, unfolding(crate::specs::ParsedWords::parse_length))]
pub(crate) fn parse_length(word: &str) -> Result<i64, Reason>
    ensures { result ≡ words.parse_length word.now }
{
    Dec::read(word.as_bytes())?.picometres(Unit::Millimetre)
}

/// The rules of a ring and a gap in millimetres, in the strict profile. The ring is read first.
#[tactic(auto, unfolding(crate::specs::ParsedWords::parse_rules, crate::specs::ParsedWords::rules_of))]
pub(crate) fn parse_rules(ring: &str, gap: &str) -> Result<Rules, Reason>
    ensures { result ≡ words.parse_rules ring.now gap.now }
{
    let ring = parse_length(ring)?;
    let gap = parse_length(gap)?;
    Rules::new(ring, gap)
}

/// The profile that a word names, `strict` or `wide`; the strict one where there is no word, and none for any other.
#[tactic(auto, unfolding(crate::specs::ParsedWords::profile_of))]
pub(crate) fn profile_of(word: Option<&str>) -> Option<Profile>
    ensures { result ≡ words.profile_of (word_bytes word.entry) }
{
    match word {
        None | Some("strict") => Some(Profile::Strict),
        Some("wide") => Some(Profile::Wide),
        Some(_) => None,
    }
}

/// The rules of a check, with a ring and a gap in millimetres. The profile is read first, and then the ring.
#[tactic(auto, unfolding(crate::specs::ParsedWords::rules_in))]
pub(crate) fn parse_check(profile: Option<&str>, ring: &str, gap: &str) -> Result<Rules, Reason>
    ensures { result ≡ words.parse_check (word_bytes profile.entry) ring.now gap.now }
{
    let profile = profile_of(profile).ok_or(Reason::BadRole)?;
    Ok(parse_rules(ring, gap)?.in_profile(profile))
}

/// How a measure is printed.
#[derive(Clone, Copy, Debug, PartialEq, Eq)]
pub enum MeasureFormat {
    /// Lines for people.
    Text,
    /// One object of JSON on one line.
    Json,
}

/// What a measure is asked for.
#[derive(Clone, Copy, Debug, PartialEq, Eq)]
pub struct MeasureOrder {
    /// The profile in which the files are read.
    pub profile: Profile,
    pub format: MeasureFormat,
}

/// How a report is printed.
#[derive(Clone, Copy, Debug, PartialEq, Eq)]
pub enum ReportFormat {
    /// Lines for people.
    Text,
    /// One page of HTML, with the picture of the board and a table of the findings.
    Html,
    /// One object of JSON on one line.
    Json,
    /// The findings as a file of waivers, in which the user fills in the reasons.
    Waivers,
}

/// The format of a report that a word names, or text. `waivers` is refused beside a file of waivers, and all but `html` beside an outline.
#[tactic(auto, unfolding(crate::specs::ParsedWords::parse_report_format))]
fn parse_report_format(
    waives: bool,
    outlined: bool,
    word: Option<&str>,
) -> Result<ReportFormat, Reason>
    ensures { result ≡ words.parse_report_format waives outlined (word_bytes word.entry) }
{
    match word {
        Some("html") => Ok(ReportFormat::Html),
        _ if outlined => Err(Reason::BadRole),
        None | Some("text") => Ok(ReportFormat::Text),
        Some("json") => Ok(ReportFormat::Json),
        Some(word) if word == "waivers" && !waives => Ok(ReportFormat::Waivers),
        Some(_) => Err(Reason::BadRole),
    }
}

/// The format of a measure that a word names, `text` or `json`; text where there is no word.
#[tactic(auto, unfolding(crate::specs::ParsedWords::parse_format))]
fn parse_format(word: Option<&str>) -> Result<MeasureFormat, Reason>
    ensures { result ≡ words.parse_format (word_bytes word.entry) }
{
    match word {
        None | Some("text") => Ok(MeasureFormat::Text),
        Some("json") => Ok(MeasureFormat::Json),
        Some(_) => Err(Reason::BadRole),
    }
}

/// What a measure is asked for, by the words for its profile and its format. The profile is read first.
#[tactic(auto, unfolding(crate::specs::ParsedWords::measured_in))]
pub(crate) fn parse_measure(
    profile: Option<&str>,
    format: Option<&str>,
) -> Result<MeasureOrder, Reason>
    ensures { result ≡ words.parse_measure (word_bytes profile.entry) (word_bytes format.entry) }
{
    let profile = profile_of(profile).ok_or(Reason::BadRole)?;
    let format = parse_format(format)?;
    Ok(MeasureOrder { profile, format })
}

/// The number that a word of one to nine digits names, such as `20`.
#[tactic(auto, unfolding(crate::specs::ParsedWords::parse_count))]
fn parse_count(word: &str) -> Result<usize, Reason>
    ensures { result ≡ words.parse_count word.now }
{
    if !is_digits(word.as_bytes()) || word.len() > 9 {
        return Err(Reason::BadNumber);
    }
    Ok(capped_value(word.as_bytes(), 999_999_999) as usize)
}

/// The most findings that a text shows; it shows all of them where there is no word.
#[tactic(auto, unfolding(crate::specs::ParsedWords::parse_limit))]
pub(crate) fn parse_limit(word: Option<&str>) -> Result<Option<usize>, Reason>
    ensures { result ≡ words.parse_limit (word_bytes word.entry) }
{
    match word {
        None => Ok(None),
        Some(word) => Ok(Some(parse_count(word)?)),
    }
}

/// How holes may be drilled: by two lengths in millimetres, or by neither. One of them alone is refused. The one off the place is read first.
#[tactic(auto, unfolding(crate::specs::ParsedWords::parse_drilling))]
pub(crate) fn parse_drilling(
    off: Option<&str>,
    wide: Option<&str>,
) -> Result<Option<Drilling>, Reason>
    ensures { result ≡ words.parse_drilling (word_bytes off.entry) (word_bytes wide.entry) }
{
    match (off, wide) {
        (None, None) => Ok(None),
        (Some(off), Some(wide)) => {
            let (off, wide) = (parse_length(off)?, parse_length(wide)?);
            Ok(Some(Drilling::new(off, wide)?))
        }
        _ => Err(Reason::BadRule),
    }
}

/// The rules in their profile, the drilling, the limit of findings and the format of a report, read in this order.
#[tactic(auto, unfolding(crate::specs::ParsedWords::parse_report))]
pub(crate) fn parse_report(
    unparsed: &ReportWords,
) -> Result<(Rules, Option<Drilling>, Option<usize>, ReportFormat), Reason>
    ensures { result ≡ words.parse_report (word_bytes unparsed.now.profile) unparsed.now.ring.now unparsed.now.gap.now (word_bytes unparsed.now.drill_off) (word_bytes unparsed.now.drill_wide) (word_bytes unparsed.now.limit) (word_bytes unparsed.now.waive) (word_bytes unparsed.now.outline) (word_bytes unparsed.now.format) }
{
    let rules = parse_check(unparsed.profile, unparsed.ring, unparsed.gap)?;
    let drilling = parse_drilling(unparsed.drill_off, unparsed.drill_wide)?;
    let limit = parse_limit(unparsed.limit)?;
    let (waives, outlined) = (unparsed.waive.is_some(), unparsed.outline.is_some());
    let format = parse_report_format(waives, outlined, unparsed.format)?;
    Ok((rules, drilling, limit, format))
}

/// The rules of a picture in a profile: a ring and a gap, or neither. One of them alone is refused.
#[tactic(auto, unfolding(crate::specs::ParsedWords::drawn_under))]
fn drawn_under(
    profile: Profile,
    ring: Option<&str>,
    gap: Option<&str>,
) -> Result<Option<Rules>, Reason>
    ensures { result ≡ words.drawn_under profile (word_bytes ring.entry) (word_bytes gap.entry) }
{
    match (ring, gap) {
        (None, None) => Ok(None),
        (Some(ring), Some(gap)) => Ok(Some(parse_rules(ring, gap)?.in_profile(profile))),
        (Some(_), None) | (None, Some(_)) => Err(Reason::BadRule),
    }
}

/// The profile and the rules of a picture. The profile is read first.
#[tactic(auto, unfolding(crate::specs::ParsedWords::drawn_in))]
pub(crate) fn parse_draw(unparsed: &PictureWords) -> Result<(Profile, Option<Rules>), Reason>
    ensures { result ≡ words.parse_draw (word_bytes unparsed.now.profile) (word_bytes unparsed.now.ring) (word_bytes unparsed.now.gap) }
{
    let profile = profile_of(unparsed.profile).ok_or(Reason::BadRole)?;
    Ok((profile, drawn_under(profile, unparsed.ring, unparsed.gap)?))
}
