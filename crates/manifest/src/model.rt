//! The files that are given, and what is proposed for them.

use crate::Name;
use grid_units::Text;

/// What is known of a file's bytes.
#[derive(Clone, Copy)]
pub enum FileContent<'a> {
    /// All bytes of the file.
    Bytes(&'a [u8]),
    /// The file cannot be read.
    NotRead,
    /// The name is that of a folder.
    Folder,
    /// The file has more bytes than the limit of a file.
    TooLong,
}

/// A file: the name under which it was asked for, and what is known of its bytes.
#[derive(Clone, Copy)]
pub struct InputFile<'a> {
    pub name: &'a str,
    pub content: FileContent<'a>,
}

/// Where a copper layer stands in the stack.
#[derive(Clone, Copy, Debug, PartialEq, Eq)]
pub enum StackPosition {
    /// The number that its file function gives it, counted from 1 at the top; at most 999,999,999.
    Numbered(u32),
    /// The top layer, by its name.
    Top,
    /// An inner layer, by the number in its name, at most 99: the inner layer 1 is the second layer.
    Inner(u32),
    /// An unknown place, after the layers with a number and before the bottom layer.
    Unknown,
    /// The bottom layer, by its name.
    Bottom,
}

/// How holes go through a board, as the word after the layers of their file function says
/// (Gerber Layer Format Specification 2024.05, section 5.6.3).
#[derive(Clone, Copy, Debug, PartialEq, Eq)]
pub enum HoleKind {
    /// `PTH` or `NPTH`: from the top layer to the bottom layer.
    Through,
    /// `Blind`: from an outer layer to an inner one.
    Blind,
    /// `Buried`: from an inner layer to another one.
    Buried,
    /// Another word, or none.
    Unsaid,
}

/// The layers that a drill file's holes go through, as its file function names them: two numbers, each at most 999,999,999.
/// They need not be the numbers of layers.
#[derive(Clone, Copy, Debug, PartialEq, Eq)]
pub struct LayerRange {
    pub first: u32,
    pub last: u32,
    /// How the holes go through the board, as the function says.
    pub kind: HoleKind,
}

/// What is proposed for a file.
#[derive(Clone, Copy, Debug, PartialEq, Eq)]
pub enum ProposedRole {
    /// A copper layer.
    Copper(StackPosition),
    /// A drill file whose holes are plated. `None` means that no layers are named.
    Plated(Option<LayerRange>),
    /// A drill file whose holes are not plated.
    Unplated(Option<LayerRange>),
    /// A drill file that says itself which of its holes are plated. The wide profile alone has it.
    Mixed(Option<LayerRange>),
    /// The user has to decide; the role is `?`.
    Undecided,
    /// No file of the package: it does not stand in the manifest.
    LeftOut,
}

/// Why something is proposed for a file.
#[derive(Debug, Drop)]
pub enum ProposalReason {
    /// The text is neither a Gerber file nor a drill file.
    NoKind,
    /// A drill file without a hole.
    NoHoles,
    /// A zip archive.
    Archive,
    /// A folder.
    Folder,
    /// The first field of the file function.
    FileFunction(Text),
    /// Plated and unplated holes stand in one file.
    MixedHoles,
    /// Plated and unplated holes stand in one file, which says of each tool that drills whether its holes are plated.
    MixedTools,
    /// Plated and unplated holes stand in one file, which the wide profile does not read as a mixed one.
    UnreadMixed,
    /// A line, or the function of a tool, says that holes are plated.
    PlatedType,
    /// A line, or the function of a tool, says that holes are not plated.
    UnplatedType,
    /// The name of the file.
    ByName,
    /// The name is ambiguous: it says two things of which one at most is right, as `board-PTH-NPTH.drl` does.
    ConflictingName,
    /// Another copper file has the same place in the stack.
    RepeatedLayer,
    /// Nothing says whether the holes of a drill file are plated, so it counts as plated.
    DrillByDefault,
    /// A drill file in Gerber, which is not read.
    DrillInGerber,
    /// A plane, which may be a negative without a mark.
    Plane,
    /// Nothing identifies a Gerber file.
    NothingSays,
    /// A drill file names layers, and the copper files do not make clear which these are.
    UnclearLayers,
    /// The file cannot be read.
    NotRead,
    /// The file has more bytes than the limit of a file.
    TooLong,
}

/// What is proposed for a file, and why.
#[derive(Drop)]
pub struct Proposal {
    /// The name under which the file was asked for.
    pub file: Name,
    pub role: ProposedRole,
    pub because: ProposalReason,
}
