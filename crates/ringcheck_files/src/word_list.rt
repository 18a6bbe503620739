//! The words that have a page.

ghost use Rattle.std.specs.Prelude.{◌≡◌, MatchOption, ◌↔◌, IsSome, IfSome, None, option_map};
ghost use Rattle.ringcheck_files.specs.PageWords.{EachWordIsListed, ListsWords, FitsScreen, HasHeading, IsExplained};
ghost use Rattle.ringcheck_files.specs.KnownWords as words;
ghost use Rattle.ringcheck_files.specs.KnownWords.{IsPageOf};

use crate::pages::{PAGES, word_of};

/// The words, one to a line, each with what it means in short: `ring: the copper around a hole is narrower than the rule`.
const WORDS: &str = "\
TooLong: an item, a line or a file has too many bytes
AfterEnd: something follows the end of the file
Truncated: the file ends before M02 (layer) or M30 (drill file)
SeveralInOne: one pair of % holds several commands
ClearPolarity: %LPC*% removes copper
BlockAperture: %AB starts an aperture made up of other flashes and draws
NegativeImage: the layer is a negative
TrailingZeros: the coordinates omit trailing zeros
Incremental: the coordinates are steps from the previous point
OldParameter: a parameter or a word that Gerber no longer has
OldFormat: the drill file does not begin with M48, or names an older format
Routed: a line starts a routed path
Repeat: holes are repeated with a code or a pattern
BadWord: the check does not know this Gerber word or parameter
BadLine: the check does not know this line of the drill file
BadNumber: a field is not a number of the right kind
NoZeros: zeros are omitted, and the header does not say which
TooManyDigits: a coordinate has more digits than the file's format allows
TooFine: a number has a ninth or later decimal that is not 0
TooFar: a length is above 10 m
BareCoordinate: a coordinate has no D code
InRegion: a command is not allowed between G36 and G37
NotInRegion: G37 ends a region that was not started
NoFormat: the layer does not give the format of its coordinates
NoUnit: the file does not give its unit
UnitConflict: two lines of one file disagree on the unit
FormatConflict: two lines of one file disagree on decimals or on zeros
Redefined: an aperture, a macro or a tool is defined twice
UnknownMacro: an aperture uses a macro that is not defined
UnknownAperture: an aperture is selected that is not defined
UnknownTool: a tool is selected that is not defined
NoAperture: a flash or a draw comes before an aperture is selected
NoTool: a hole is drilled while no tool is selected
BadSize: a size or a diameter is out of range
BadRepeat: a step and repeat block has a count or a step out of range
TooManyPads: the layer has more than 4,194,304 flashes
TooManyHoles: the drill file has more than 1,048,576 holes
BadRule: the ring is negative, or the gap is not above 0
BadManifest: a record of a manifest or of waivers is malformed, or a name is
BadRole: an unknown role, kind, format or profile, or a word without a page
EmptyName: a record of a manifest has an empty name, or a waiver has no reason
RepeatedName: a record of the manifest has the name of an earlier one
NoCopper: the manifest names no copper layer
NoDrill: the manifest names no drill file
NotCopper: the file says that it is not a copper layer
BadSpan: the layer span of a record is invalid, or is not allowed there
NoPlating: a mixed drill file does not say whether a hole is plated
PlatingConflict: an unplated drill file says that holes are plated
RING: a finding: no pad contains the hole or the slot with its ring
GAP: a finding: two holes are closer to each other than the gap
OBLIQUE: a finding: a plated slot is parallel to neither axis
ring: the copper around a hole is narrower than the rule
small: the pad is too small for the hole and its ring
off: the hole is off the centre of its pad
edge: the hole is too near the edge of a rounded pad or contour (wide profile)
none: no pad reaches the centre of the hole, and no flash lies in the hole
macro: the only flash here is one by an aperture macro
polygon: a flash of a regular polygon is not judged
holed: a flash of an aperture with a hole in it is not judged
scaled: a scaled flash is not judged
turned: a flash turned by an angle that is not a multiple of 90 degrees
clear: the only flash here is in clear polarity (wide profile)
cleared: the only flash here may be removed by clear polarity (wide profile)
oblique: the ends of a plated slot differ in both directions
plane: a negative plane that is not marked as one counts as copper
wide: the profile that counts more shapes as pads and reads more files
";

/// The fewest letters of a word that another is guessed from.
const FEWEST: usize = 3;

/// The words that have a page, one to a line: the names of the reasons, then the other words. A colon, a space and what it
/// means in short follow each word. A line has at most 78 columns, and ends with a line feed.
#[tactic(auto, unfolding(grid_units::specs::Reasons::reason_name))]
pub fn words() -> &'static str
    ensures listed { ListsWords result.now }
    ensures each { EachWordIsListed }
{
    WORDS
}

/// The page of a word: at most 12 lines of at most 78 columns, each ended by a line feed. It begins with the word and a
/// colon. `None` where the word is neither the name of a reason nor one of `RING`, `GAP`, `OBLIQUE`, `ring`, `small`,
/// `off`, `edge`, `none`, `macro`, `polygon`, `holed`, `scaled`, `turned`, `clear`, `cleared`, `oblique`, `plane` and `wide`.
pub fn explanation(word: &str) -> Option<&'static str>
    ensures known { IsSome result ↔ IsExplained word.now }
    ensures headed { IfSome result (λ page. HasHeading word.now page.now) }
    ensures fits { IfSome result (λ page. FitsScreen page.now) }
{
    PAGES.iter().copied().find(|page| word_of(page) == word)
}

/// The page of the word with a page that this word is: itself, else the first of the list that is equal to it but for the case
/// of its letters, as `small` for `SMALL`. `None` where it is neither.
pub fn explanation_in_any_case(word: &str) -> Option<&'static str>
    ensures { MatchOption result (words.known_word word.now ≡ None) (λ page. IsPageOf (words.known_word word.now) page.now) }
{
    match explanation(word) {
        Some(page) => Some(page),
        None => PAGES
            .iter()
            .copied()
            .find(|page| word_of(page).eq_ignore_ascii_case(word)),
    }
}

/// Whether a text begins with another, whatever the case of their letters.
fn begins_with(text: &str, start: &str) -> bool
    ensures { result ≡ words.begins_with text.now start.now }
{
    text.len() >= start.len()
        && text.as_bytes()[..start.len()].eq_ignore_ascii_case(start.as_bytes())
}

/// Whether a word of three letters or more begins a listed word, or is one with something added.
fn is_near(known: &str, word: &str) -> bool
    ensures { result ≡ words.is_near known.now word.now }
{
    word.len() >= FEWEST && (begins_with(known, word) || begins_with(word, known))
}

/// The first word of the list that a word of three letters or more begins, or with which it begins, whatever the case of the
/// letters: `small` for `smal`.
pub fn near_word(word: &str) -> Option<&'static str>
    ensures { option_map (λ known. known.now) result ≡ words.near_word word.now }
{
    PAGES
        .iter()
        .map(|page| word_of(page))
        .find(|known| is_near(known, word))
}
