//! Why a file is refused, and where.

ghost use Rattle.std.specs.Prelude.{◌≡◌};
ghost use Rattle.grid_units.specs.Results.{both, earlier_reason};
ghost use Rattle.grid_units.specs.declared.fault.Fail.TheVariants.{Memory};

use std::alloc::{AllocError, AllocFailed};
use std::fmt;

/// Why an item, a line, a file, a number or a rule is refused. The numbers are names only;
/// `docs/FORMATS.md` has the orders in which reasons are looked for.
#[derive(Clone, Copy, PartialEq, Eq)]
pub enum Reason {
    /// An item, a line, a file or the reason of a waiver is above its limit of bytes.
    TooLong = 1,
    /// Something follows the end of the text (`M02`, `M30`).
    AfterEnd = 2,
    /// The text stops without its end code (`M02`, `M30`).
    Truncated = 3,
    /// Several commands stand between one pair of `%`.
    SeveralInOne = 4,
    /// Clear polarity (`LPC`): a flashed pad would not be the layer's copper.
    ClearPolarity = 5,
    /// A block aperture (`AB`).
    BlockAperture = 6,
    /// A negative image (`IPNEG`, or `.FilePolarity,Negative`).
    NegativeImage = 7,
    /// Gerber coordinates with trailing zeros left out (`FST`).
    TrailingZeros = 8,
    /// Incremental coordinates (`FSLI`, `G91`).
    Incremental = 9,
    /// A deprecated Gerber parameter with an effect (as `MI`), or a deprecated word (`M00`, `M01`, `N`).
    OldParameter = 10,
    /// A drill file of an older format.
    OldFormat = 11,
    /// A routed path of a drill file.
    Routed = 12,
    /// A repeat code or pattern of a drill file.
    Repeat = 13,
    /// A Gerber item that fits no row of the profile.
    BadWord = 14,
    /// A drill line that fits no row of the profile.
    BadLine = 15,
    /// A field that is not a number of its kind.
    BadNumber = 16,
    /// A drill coordinate without a point and not with all its digits, where the file names no zeros.
    NoZeros = 17,
    /// More digits than a coordinate may have.
    TooManyDigits = 18,
    /// A decimal after the eighth that is not 0.
    TooFine = 19,
    /// A length above 10 m, or a whole part above 999,999.
    TooFar = 20,
    /// A coordinate without a D code where the last operation was not a plot (`D01`).
    BareCoordinate = 21,
    /// A command that may not stand in a region.
    InRegion = 22,
    /// The end of a region where none is open.
    NotInRegion = 23,
    /// An operation, or the end, before the coordinate format.
    NoFormat = 24,
    /// An operation, or the end, before the unit.
    NoUnit = 25,
    /// A unit that differs from the one named before.
    UnitConflict = 26,
    /// A coordinate format, or the zeros of a drill file, other than those named before.
    FormatConflict = 27,
    /// An aperture, a macro or a tool that is defined already.
    Redefined = 28,
    /// A macro that is not defined.
    UnknownMacro = 29,
    /// An aperture that is not defined.
    UnknownAperture = 30,
    /// A tool that is not defined.
    UnknownTool = 31,
    /// A flash or a draw with no aperture selected.
    NoAperture = 32,
    /// A hole with no tool picked.
    NoTool = 33,
    /// A size, a scale, a number of vertices or a diameter out of its range.
    BadSize = 34,
    /// A count or a step of a step and repeat block out of its range.
    BadRepeat = 35,
    /// More flashes than the limit of a layer.
    TooManyPads = 36,
    /// More holes than the limit of a drill file.
    TooManyHoles = 37,
    /// A ring or a gap out of its range, or one of them alone for a picture.
    BadRule = 38,
    /// A record of a manifest or of waivers that is not of their form, or a word that no manifest may have.
    BadManifest = 39,
    /// An unknown role in a manifest, or an unknown kind, format or word to explain on the command line.
    BadRole = 40,
    /// An empty name in a manifest, or a waiver without a reason.
    EmptyName = 41,
    /// A name that an earlier record of the manifest has.
    RepeatedName = 42,
    /// A manifest without a copper layer.
    NoCopper = 43,
    /// A manifest without a drill file.
    NoDrill = 44,
    /// A file listed as copper that names another file function.
    NotCopper = 45,
    /// A text that is no span of layers, a span of a copper file, or one above the number of layers.
    BadSpan = 46,
    /// A hole of a mixed drill file whose tool is neither plated nor unplated by the comments of the header, or such a comment in
    /// the body.
    NoPlating = 47,
    /// An unplated drill file that says of itself, or of a tool, that the holes are plated.
    PlatingConflict = 48,
}

/// The names of the reasons, in the order of their numbers.
const NAMES: [&str; 48] = [
    "TooLong",
    "AfterEnd",
    "Truncated",
    "SeveralInOne",
    "ClearPolarity",
    "BlockAperture",
    "NegativeImage",
    "TrailingZeros",
    "Incremental",
    "OldParameter",
    "OldFormat",
    "Routed",
    "Repeat",
    "BadWord",
    "BadLine",
    "BadNumber",
    "NoZeros",
    "TooManyDigits",
    "TooFine",
    "TooFar",
    "BareCoordinate",
    "InRegion",
    "NotInRegion",
    "NoFormat",
    "NoUnit",
    "UnitConflict",
    "FormatConflict",
    "Redefined",
    "UnknownMacro",
    "UnknownAperture",
    "UnknownTool",
    "NoAperture",
    "NoTool",
    "BadSize",
    "BadRepeat",
    "TooManyPads",
    "TooManyHoles",
    "BadRule",
    "BadManifest",
    "BadRole",
    "EmptyName",
    "RepeatedName",
    "NoCopper",
    "NoDrill",
    "NotCopper",
    "BadSpan",
    "NoPlating",
    "PlatingConflict",
];

impl Reason {
    ghost use Rattle.grid_units.specs.Reasons.{reason_name, reason_number};

    /// The number of the reason, from 1 to 48.
    pub fn number(self) -> u8
        ensures { result ≡ reason_number self }
    {
        self as u8
    }

    /// The name as it is printed: `TooLong`.
    #[tactic(auto, unfolding(crate::specs::Reasons::reason_name))]
    pub fn name(self) -> &'static str
        ensures { result.now ≡ reason_name self }
    {
        NAMES[usize::from(self.number()) - 1]
    }
}

impl fmt::Debug for Reason {
    fn fmt<W: fmt::Write>(&self, f: &mut fmt::Formatter<W>) -> fmt::Result {
        f.write_str(self.name())
    }
}

/// Both of two fields. Where both are refused, the first reason of the reading order is the answer.
///
/// # Errors
///
/// The reason of the field that was refused; of two reasons the one that is first in the reading order.
pub fn both<A: Drop, B: Drop>(
    first: Result<A, Reason>,
    second: Result<B, Reason>,
) -> Result<(A, B), Reason>
    ensures { result ≡ both first second }
{
    match (first, second) {
        (Ok(a), Ok(b)) => Ok((a, b)),
        (Ok(_), Err(reason)) | (Err(reason), Ok(_)) => Err(reason),
        (Err(a), Err(b)) => Err(earlier_reason(a, b)),
    }
}

/// The earlier of two reasons in the reading order.
fn earlier_reason(a: Reason, b: Reason) -> Reason
    ensures { result ≡ earlier_reason a b }
{
    if a.number() <= b.number() { a } else { b }
}

/// A refusal: where, and why. `place` is the number of the item, line or record, from 1; `byte` is the
/// offset of its first byte. Both are 0 where a whole file is refused.
#[derive(Clone, Copy, Debug, PartialEq, Eq)]
pub struct Fault {
    pub place: u64,
    pub byte: u64,
    pub reason: Reason,
}

/// Why a call gives no value.
#[derive(Clone, Copy, Debug, PartialEq, Eq)]
pub enum Fail {
    /// An allocation failed.
    Memory,
    /// The input was refused.
    Refused(Fault),
}

impl From<AllocError> for Fail {
    ghost from_gives = { λ _ e. e ≡ Memory };

    fn from(_error: AllocError) -> Fail {
        Fail::Memory
    }
}

impl<T: Drop> From<AllocFailed<T>> for Fail {
    ghost from_gives = { λ _ e. e ≡ Memory };

    fn from(_error: AllocFailed<T>) -> Fail {
        Fail::Memory
    }
}
