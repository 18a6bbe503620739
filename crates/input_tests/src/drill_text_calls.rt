use crate::drill_pieces::{Cut, failure_of, read_cut};
use crate::drill_writing::{NEW, OLD, is_text};
use drill_lines::DrillCommand;
use drill_lines::DrillCommand::{Comment, Finish, HeaderEnd, Hit, Pick, Start};
use drill_text::{Coordinates, Drill, DrillReader, Keep, drill_sayable, read_drill, write_drill};
use grid_units::Reason::*;
use grid_units::{Fail, Fault, Hole, Reason, Text};
use std::alloc::{AllocError, Global};

/// The ends of a hole, each with its x and its y, and its radius, in pm.
pub(crate) type Ends = (i64, i64, i64, i64, i64);

fn ends(hole: &Hole) -> Ends {
    let (from, to) = (hole.from(), hole.to());
    (from.x(), from.y(), to.x(), to.y(), hole.radius())
}

/// Whether holes have these ends and radii.
pub(crate) fn are_holes(holes: &[Hole], wanted: &[Ends]) -> bool {
    holes.len() == wanted.len() && holes.iter().zip(wanted).all(|(h, e)| ends(h) == *e)
}

/// The number of a tool, and its diameter in units of 10^-8.
type Tool = (u16, i64);

fn has_tools(drill: &Drill, wanted: &[Tool]) -> bool {
    for ((number, tool), wanted) in drill.tools().iter().zip(wanted) {
        if (*number, tool.diameter.units()) != *wanted {
            return false;
        }
    }
    drill.tools().len() == wanted.len()
}

/// Whether there are so many commands, the last of which ends the file.
fn end_after(commands: &[DrillCommand], count: usize) -> bool {
    commands.len() == count && matches!(commands.last(), Some(Finish))
}

/// Whether commands can be said, and are written as this text.
fn are_written_as(alloc: Global, commands: &[DrillCommand], text: &[u8]) -> bool {
    drill_sayable(commands) && is_text(&write_drill(alloc, commands), text)
}

/// What is asked of the read of a text.
#[derive(Clone, Copy)]
enum Asked<'a> {
    /// A file with just these holes.
    Holes(&'a [Ends]),
    /// A file with just these tools.
    Tools(&'a [Tool]),
    /// A file with so many commands, the last of which ends it.
    Commands(usize),
    /// A file with so many holes and commands.
    Counts(usize, usize),
    /// A file that is written as this text.
    Written(&'a [u8]),
    /// A file that this text gives too.
    Again(&'a [u8]),
    /// What the text gives that is cut so.
    InPieces(Cut),
    /// What the text gives that is cut in two, at each byte.
    Splits,
    /// What the text gives byte by byte, the holes alone too.
    Bytes,
}

fn is_file(alloc: Global, drill: &Drill, asked: Asked) -> bool {
    match asked {
        Asked::Holes(holes) => are_holes(drill.holes(), holes),
        Asked::Tools(tools) => has_tools(drill, tools),
        Asked::Commands(count) => end_after(drill.commands(), count),
        Asked::Counts(holes, commands) => {
            drill.holes().len() == holes && drill.commands().len() == commands
        }
        Asked::Written(text) => are_written_as(alloc, drill.commands(), text),
        _ => false,
    }
}

/// Whether the read of a text is as asked.
fn is_so(alloc: Global, text: &[u8], read: &Result<Drill, Fail>, asked: Asked) -> bool {
    match (read, asked) {
        (_, Asked::Splits) => splits_read_as(alloc, text, read),
        (_, Asked::Bytes) => bytes_read_as(alloc, text, read),
        (_, Asked::InPieces(cut)) => reads_as(alloc, Keep::Commands, text, cut, read),
        (Err(_), _) => false,
        (Ok(_), Asked::Again(other)) => { reads_as(alloc, Keep::Commands, other, Cut::At(0), read) }
        (Ok(drill), _) => is_file(alloc, drill, asked),
    }
}

fn reads(alloc: Global, text: &[u8], asked: Asked) -> bool {
    let read = read_drill(alloc, text);
    is_so(alloc, text, &read, asked)
}

/// Whether a text is read and drills just these holes.
fn drills(alloc: Global, text: &[u8], wanted: &[Ends]) -> bool {
    reads(alloc, text, Asked::Holes(wanted))
}

fn fault_of(alloc: Global, text: &[u8]) -> Option<Fail> {
    failure_of(read_drill(alloc, text))
}

/// The reason of a fault, its place and its byte.
type Refusal = (Reason, u64, u64);

fn failure(refusal: Option<Refusal>) -> Option<Fail> {
    let (reason, place, byte) = refusal?;
    Some(Fail::Refused(Fault {
        place,
        byte,
        reason,
    }))
}

/// Whether a text has this fault or none, whole and in pieces.
fn answers(alloc: Global, text: &str, refusal: Option<Refusal>) -> bool {
    let text = text.as_bytes();
    fault_of(alloc, text) == failure(refusal) && pieces_alike(alloc, text)
}

/// Whether a text drills just these holes, whole and in pieces.
fn drills_in_pieces(alloc: Global, text: &[u8], wanted: &[Ends]) -> bool {
    drills(alloc, text, wanted) && pieces_alike(alloc, text)
}

/// Whether a text drills just one round hole at this point, whole and in pieces.
fn drills_one(alloc: Global, text: &str, x: i64, y: i64, radius: i64) -> bool {
    drills_in_pieces(alloc, text.as_bytes(), &[(x, y, x, y, radius)])
}

/// Whether two files are the same, as far as the first was kept.
fn is_same_drill(keep: Keep, a: &Drill, b: &Drill) -> bool {
    if a.holes() != b.holes() {
        return false;
    }
    match keep {
        Keep::Holes => true,
        _ => a.commands() == b.commands() && a.tools().len() == b.tools().len(),
    }
}

/// Whether two reads gave the same file, as far as the first was kept, or the same failure.
fn is_same(keep: Keep, a: &Result<Drill, Fail>, b: &Result<Drill, Fail>) -> bool {
    match (a, b) {
        (Ok(a), Ok(b)) => is_same_drill(keep, a, b),
        (Err(a), Err(b)) => a == b,
        _ => false,
    }
}

/// Whether a text that is cut so gives what was read, as far as it is kept.
fn reads_as(
    alloc: Global,
    keep: Keep,
    text: &[u8],
    cut: Cut,
    wanted: &Result<Drill, Fail>,
) -> bool {
    let read = read_cut(alloc, keep, text, cut);
    is_same(keep, &read, wanted)
}

/// Whether a text gives byte by byte what was read, and its holes where they are read alone.
fn bytes_read_as(alloc: Global, text: &[u8], wanted: &Result<Drill, Fail>) -> bool {
    reads_as(alloc, Keep::Commands, text, Cut::EachByte, wanted)
        && reads_as(alloc, Keep::Holes, text, Cut::EachByte, wanted)
}

/// Whether a text that is cut in two at each byte gives what was read.
fn splits_read_as(alloc: Global, text: &[u8], wanted: &Result<Drill, Fail>) -> bool {
    for n in 0..text.len() {
        if !reads_as(alloc, Keep::Commands, text, Cut::At(n), wanted) {
            return false;
        }
    }
    true
}

/// Whether each prefix of a text reads byte by byte as it does whole, the holes alone too.
fn cuts_alike(alloc: Global, text: &[u8]) -> bool {
    for n in 0..text.len() + 1 {
        if !reads(alloc, &text[..n], Asked::Bytes) {
            return false;
        }
    }
    true
}

/// Whether a text and its prefixes read in pieces as they do whole.
fn pieces_alike(alloc: Global, text: &[u8]) -> bool {
    reads(alloc, text, Asked::Splits) && cuts_alike(alloc, text)
}

const PLATED: &[u8; 36] = b"M48\nMETRIC\nT1C0.4\n%\nT1\nX0.0Y0.0\nM30\n";

/// Texts of one hole at 2.54 mm: by each rule for zeros, and in other formats. The settings are those of the whole header, wherever a
/// comment or a later line gives them. A comment in the body gives none, and a later line takes nothing back.
const ONE_HOLE: [&str; 10] = [
    "M48\nMETRIC,TZ\nT1C0.4\n%\nT1\nX2540Y0\nM30\n",
    "M48\nMETRIC,LZ\nT1C0.4\n%\nT1\nX00254Y0\nM30\n",
    "M48\nMETRIC\nT1C0.4\n%\nT1\nX2.54Y0.0\nM30\n",
    "M48\nMETRIC\nT1C0.4\n%\nT1\nX002540Y000000\nM30\n",
    "M48\nMETRIC,LZ,00.00\nT1C0.4\n%\nT1\nX0254Y0\nM30\n",
    "M48\n;FILE_FORMAT=2:4\nMETRIC,TZ\nT1C0.4\n%\nT1\nX25400Y0\nM30\n",
    ";FILE_FORMAT=2:4\nM48\nMETRIC,TZ\nT1C0.4\n%\nT1\nX25400Y0\nM30\n",
    "M48\nMETRIC,TZ\nT1C0.4\n;FILE_FORMAT=2:4\n%\nT1\nX25400Y0\nM30\n",
    "M48\nMETRIC\nT1C0.4\nMETRIC,TZ,00.0000\nM95\nT1\n;FILE_FORMAT=3:3\nX25400Y0\nM30",
    "M48\nM71\nMETRIC,LZ\nMETRIC,000.000\nT01C.4\n%\nT1\nX00254Y0\nM30\n\n \n",
];

#[test]
fn one_hole_of_each_format(rt: HostRuntime) {
    for &text in &ONE_HOLE {
        assert!(rt;
            drills_one(rt.alloc(), text, 2_540_000_000, 0, 200_000_000),
            "{text}"
        );
    }
}

/// Texts and their holes: slots; coordinates left out, which are those of the point before (of the second end of a slot, those of its
/// first end); equal holes, which are two; and a hole at 10 m.
const HOLES: [(&[u8], &[Ends]); 4] = [
    (
        b"M48\nMETRIC\nT1C0.5\n%\nT1\nX0.0Y0.0G85X2.0Y0.0\nX0.0Y5.0G85X2.0Y6.0\nX9.0Y9.0G85X9.0Y9.0\nM30\n",
        &[
            (0, 0, 2_000_000_000, 0, 250_000_000),
            (0, 5_000_000_000, 2_000_000_000, 6_000_000_000, 250_000_000),
            (
                9_000_000_000,
                9_000_000_000,
                9_000_000_000,
                9_000_000_000,
                250_000_000,
            ),
        ],
    ),
    (
        b"M48\nINCH,LZ\nT1C0.1\n%\nT1\nX01Y-005\nX02G85Y01\nY00\nM30\n",
        &[
            (
                25_400_000_000,
                -12_700_000_000,
                25_400_000_000,
                -12_700_000_000,
                1_270_000_000,
            ),
            (
                50_800_000_000,
                -12_700_000_000,
                50_800_000_000,
                25_400_000_000,
                1_270_000_000,
            ),
            (50_800_000_000, 0, 50_800_000_000, 0, 1_270_000_000),
        ],
    ),
    (
        b"M48\nMETRIC\nT1C0.4\n%\nT1\nX0.0Y0.0\nX0.0Y0.0\nM30\n",
        &[(0, 0, 0, 0, 200_000_000), (0, 0, 0, 0, 200_000_000)],
    ),
    (
        b"M48\nMETRIC\nT1C0.4\n%\nT1\nX10000.0Y0.0\nM30\n",
        &[(10_000_000_000_000, 0, 10_000_000_000_000, 0, 200_000_000)],
    ),
];

#[test]
fn holes_and_slots(rt: HostRuntime) {
    for &(text, holes) in &HOLES {
        assert!(rt; drills_in_pieces(rt.alloc(), text, holes));
    }
}

/// Three tools, one of them with feed, speed and other settings, and no hole.
const TOOLS: &[u8] = b"M48\nMETRIC\nT3C0.3\nT1F00S00C.0350H5Z-1\nT2C2.\n%\nM30\n";

#[test]
fn tools_in_order(rt: HostRuntime) {
    let wanted = &[(3, 30_000_000), (1, 3_500_000), (2, 200_000_000)];
    assert!(rt; reads(rt.alloc(), TOOLS, Asked::Tools(wanted)));
    assert!(rt; pieces_alike(rt.alloc(), TOOLS));
}

#[test]
fn tools_among_commands(rt: HostRuntime) {
    assert!(rt; reads(rt.alloc(), TOOLS, Asked::Commands(7)));
}

/// Texts that are refused for coordinates, digits, ends, tools, lines of the header and of the body, settings and definitions.
const REFUSED: [(&str, Reason, u64, u64); 35] = [
    (
        "M48\nMETRIC\nT1C0.4\n%\nT1\nX2540Y000000\nM30\n",
        NoZeros,
        6,
        23,
    ),
    (
        "M48\nMETRIC\nT1C0.4\n%\nT1\nX10000.00000001Y0.0\nM30\n",
        TooFar,
        6,
        23,
    ),
    (
        "M48\nMETRIC,TZ\nT1C0.4\n%\nT1\nX1234567Y0\nM30\n",
        TooManyDigits,
        6,
        26,
    ),
    (
        "M48\nMETRIC\nT1C0.4\n%\nT1\nX0000001Y0.0\nM30\n",
        NoZeros,
        6,
        23,
    ),
    (
        "M48\nMETRIC\nT1C0.4\n%\nT1\nX99999999999999999999.0Y0.0\nM30\n",
        TooFar,
        6,
        23,
    ),
    ("M48\nMETRIC\n%\nX1.123456789Y1000000.0\n", TooFine, 4, 13),
    ("M48\nMETRIC\nT1C0.4\n%\nT1\nX0.0Y0.0\n", Truncated, 7, 32),
    (
        "M48\nMETRIC\nT1C0.4\n%\nT1\nX0.0Y0.0\nM30\nT1\n",
        AfterEnd,
        8,
        36,
    ),
    (
        "M48\nMETRIC\nT1C0.4\n%\nT1\nX0.0Y0.0\nM30\n;x\n",
        AfterEnd,
        8,
        36,
    ),
    (
        "M48\nMETRIC\nT1C0.4\n%\nT2\nX0.0Y0.0\nM30\n",
        UnknownTool,
        5,
        20,
    ),
    ("M48\nMETRIC\nT1C0.4\n%\nT0\nX0.0Y0.0\nM30\n", NoTool, 6, 23),
    ("M48\nMETRIC\nT1C0.4\n%\nX0.0Y0.0\nM30\n", NoTool, 5, 20),
    ("M48\nMETRIC\nTC0.4\n%\n", BadNumber, 3, 11),
    ("M48\nMETRIC\nT1\n%\n", BadLine, 3, 11),
    ("M48\nMETRIC\nT1C0.4C0.5\n%\n", BadLine, 3, 11),
    ("M48\nMETRIC\nT1C4\n%\n", BadNumber, 3, 11),
    ("M48\nMETRIC,x\n", BadLine, 2, 4),
    ("M48\nMETRIC,\n", BadNumber, 2, 4),
    ("M48\nMETRIC,0000000.0\n", BadNumber, 2, 4),
    ("M48\nFMAT,1\n", OldFormat, 2, 4),
    ("INCH\nM48\n", OldFormat, 1, 0),
    ("M48\nICI,ON\n", Incremental, 2, 4),
    (
        "M48\nMETRIC\nT1C0.4\n%\nT99999999999\nX0.0Y0.0\nM30\n",
        BadNumber,
        5,
        20,
    ),
    ("M48\nMETRIC\n%\nR2M01\n", Repeat, 4, 13),
    ("M48\nMETRIC\n%\nM15\n", Routed, 4, 13),
    ("M48\nMETRIC\n%\nG85X1.0\n", BadLine, 4, 13),
    ("M48\nMETRIC\n%\nX1.123456789Y\n", BadNumber, 4, 13),
    (
        "M48\n;FILE_FORMAT=2:4\nMETRIC,TZ,000.000\nT1C0.4\n%\nT1\nX0.0Y0.0\nM30\n",
        FormatConflict,
        3,
        21,
    ),
    (
        ";FILE_FORMAT=2:4\n;FILE_FORMAT=3:3\nM48\n",
        FormatConflict,
        2,
        17,
    ),
    ("M48\nMETRIC,LZ\nMETRIC,TZ\n%\n", FormatConflict, 3, 14),
    ("M48\nT1C0.4\n%\nT1\nX0.0Y0.0\nM30\n", NoUnit, 3, 11),
    ("M48\nMETRIC\nT1C0.4\nT1C0.5\n", Redefined, 4, 18),
    ("M48\nMETRIC\nT1C0.0\n%\n", BadSize, 3, 11),
    ("M48\nMETRIC\nINCH\n%\n", UnitConflict, 3, 11),
    (
        "M48\nMETRIC\nT1C0.5\n%\nT1\nX0.0Y0.0G85X2.0Y0.0\nX0.0Y5.0G85X2.0Y6.0\nX9.0Y9.0G85X9.0Y9.0\nG00X1.0Y1.0\nM30\n",
        Routed,
        9,
        83,
    ),
];

#[test]
fn refused_texts(rt: HostRuntime) {
    for &(text, reason, place, byte) in &REFUSED {
        assert!(rt;
            answers(rt.alloc(), text, Some((reason, place, byte))),
            "{text}"
        );
    }
}

/// Numbers of bytes after which a file is cut off, and what is said of what is left.
const CUTS: [(usize, Option<Refusal>); 9] = [
    (0, Some((Truncated, 1, 0))),
    (2, Some((OldFormat, 1, 0))),
    (6, Some((BadLine, 2, 4))),
    (24, Some((BadNumber, 6, 23))),
    (25, Some((NoZeros, 6, 23))),
    (26, Some((Truncated, 7, 26))),
    (32, Some((Truncated, 7, 32))),
    (34, Some((BadLine, 7, 32))),
    (35, None),
];

/// Whether the file, cut off after so many bytes, has this fault or none.
fn cut_answers(alloc: Global, len: usize, refusal: Option<Refusal>) -> bool {
    len <= 36 && fault_of(alloc, &PLATED[..len]) == failure(refusal)
}

#[test]
fn cut_off(rt: HostRuntime) {
    for &(len, refusal) in &CUTS {
        assert!(rt; cut_answers(rt.alloc(), len, refusal), "{len}");
    }
}

#[test]
fn not_cut_off(rt: HostRuntime) {
    assert!(rt; cut_answers(rt.alloc(), 36, None));
    assert!(rt; pieces_alike(rt.alloc(), PLATED));
}

/// Lines may end with CR and LF, but a CR among a line's bytes is refused.
#[test]
fn carriage_returns(rt: HostRuntime) {
    let alloc = rt.alloc();
    let text = "M48\r\nMETRIC\r\nT1C0.4\r\n%\r\nT1\r\nX0.5Y-0.25\r\nM30\r\n";
    assert!(rt; drills_one(alloc, text, 500_000_000, -250_000_000, 200_000_000));
    let broken = "M48\nMETRIC\nT1C0.4\n%\nT1\nX0.5Y-0.25\rX1.0\nM30\n";
    assert!(rt; answers(alloc, broken, Some((BadLine, 6, 23))));
}

/// Texts with blanks, and what is said of them.
const BLANKS: [(&str, Option<Refusal>); 5] = [
    ("M48\nMETRIC\n% ", Some((Truncated, 4, 13))),
    ("M48\nMETRIC\n%\n ", Some((Truncated, 5, 14))),
    (" ;x\nM48\n", Some((OldFormat, 1, 0))),
    ("M48\n ;x\n", Some((BadLine, 2, 4))),
    ("M48 \r\nMETRIC\t\r\n%\nM30\r\n \n\r\n", None),
];

/// Blanks at the end of a line are dropped, and blanks at its start are not.
#[test]
fn blanks(rt: HostRuntime) {
    for &(text, refusal) in &BLANKS {
        assert!(rt; answers(rt.alloc(), text, refusal), "{text}");
    }
}

/// OldFormat at the first line.
const OLD_FORMAT: Option<Fail> = Some(Fail::Refused(Fault {
    place: 1,
    byte: 0,
    reason: OldFormat,
}));

/// Pieces, the second of which ends the line that is refused, and what a reader answers to each.
const REFUSED_PIECES: [(&str, Option<Fail>); 4] = [
    ("INCH", None),
    ("\nM48\n", OLD_FORMAT),
    ("METRIC\n%\nM30\n", OLD_FORMAT),
    ("", OLD_FORMAT),
];

/// The first of these pieces to which a reader gives another answer.
fn piece_answered_otherwise(reader: &mut DrillReader) -> Option<&'static str> {
    for &(piece, answer) in &REFUSED_PIECES {
        if reader.feed(piece.as_bytes()).err() != answer {
            return Some(piece);
        }
    }
    None
}

/// The first of these pieces, or the end, at which a reader gives another answer.
pub(crate) fn answered_otherwise(alloc: Global, keep: Keep) -> Option<&'static str> {
    let mut reader = DrillReader::keeping(alloc, keep);
    let piece = piece_answered_otherwise(&mut reader);
    if failure_of(reader.finish()) == OLD_FORMAT {
        piece
    } else {
        Some("the end")
    }
}

/// A reader that has failed gives its fault again at each later call.
#[test]
fn a_fault_stays(rt: HostRuntime) {
    assert_eq!(rt; answered_otherwise(rt.alloc(), Keep::Commands), None);
}

/// A reader of the holes alone that has failed gives its fault again at each later call.
#[test]
fn a_fault_of_holes_stays(rt: HostRuntime) {
    assert_eq!(rt; answered_otherwise(rt.alloc(), Keep::Holes), None);
}

/// Whether the holes that are moved out of what was read are just these.
fn gives_holes(read: Result<Drill, Fail>, wanted: &[Ends]) -> bool {
    match read {
        Ok(drill) => are_holes(&drill.into_holes(), wanted),
        Err(_) => false,
    }
}

/// Holes that are read alone are those that are moved out of a file.
#[test]
fn holes_alone(rt: HostRuntime) {
    let alloc = rt.alloc();
    let wanted = &[(0, 0, 0, 0, 200_000_000)];
    let cut = Cut::EachByte;
    assert!(rt; gives_holes(read_cut(alloc, Keep::Holes, PLATED, cut), wanted));
    assert!(rt; gives_holes(read_drill(alloc, PLATED), wanted));
}

#[test]
fn two_pieces(rt: HostRuntime) {
    assert!(rt; reads(rt.alloc(), PLATED, Asked::InPieces(Cut::At(30))));
    assert!(rt; reads(rt.alloc(), PLATED, Asked::InPieces(Cut::EachByte)));
    assert!(rt; drills(rt.alloc(), PLATED, &[(0, 0, 0, 0, 200_000_000)]));
}

/// A text in which a part comes `count` times between two others.
fn repeated(
    alloc: Global,
    head: &str,
    part: &str,
    count: usize,
    tail: &str,
) -> Result<String, AllocError> {
    let middle = part.repeat(alloc, count)?;
    format!(in alloc; "{head}{middle}{tail}")
}

/// Whether the read of a text with a comment of a million bytes is as asked.
fn reads_comment(alloc: Global, asked: Asked) -> bool {
    let tail = "\nT1C0.4\n%\nT1\nX0.0Y0.0\nM30\n";
    match repeated(alloc, "M48\nMETRIC\n;", "a", 1_000_000, tail) {
        Ok(text) => reads(alloc, text.as_bytes(), asked),
        Err(_) => false,
    }
}

#[test]
fn a_long_comment(rt: HostRuntime) {
    assert!(rt; reads_comment(rt.alloc(), Asked::Counts(1, 8)));
    assert!(rt; reads_comment(rt.alloc(), Asked::Bytes));
}

/// Whether a text in which a part comes `count` times between two others has this fault.
fn is_too_much(
    alloc: Global,
    (head, part, tail): (&str, &str, &str),
    count: usize,
    refusal: Refusal,
) -> bool {
    match repeated(alloc, head, part, count, tail) {
        Ok(text) => fault_of(alloc, text.as_bytes()) == failure(Some(refusal)),
        Err(_) => false,
    }
}

/// The number of spaces of a comment, its end, and its fault.
const LONG_LINES: [(usize, &str, Refusal); 3] = [
    (1_048_575, "", (Truncated, 2, 1_048_576)),
    (1_048_576, "", (TooLong, 1, 0)),
    (1_048_576, "\n", (TooLong, 1, 0)),
];

/// A line of 1,048,576 bytes is read, and one more is too long, with its LF or without.
#[test]
fn long_lines(rt: HostRuntime) {
    for &(count, end, refusal) in &LONG_LINES {
        assert!(rt;
            is_too_much(rt.alloc(), (";", " ", end), count, refusal),
            "{count}"
        );
    }
}

/// 1,048,576 holes are read, and one more is one too many.
#[test]
fn many_holes(rt: HostRuntime) {
    let parts = ("M48\nMETRIC\nT1C0.4\n%\nT1\n", "X0.0Y0.0\n", "M30\n");
    let refusal = (TooManyHoles, 1_048_582, 9_437_207);
    assert!(rt; is_too_much(rt.alloc(), parts, 1_048_577, refusal));
}

/// A text with various spellings is written as its canonical text.
#[test]
fn written_back(rt: HostRuntime) {
    assert!(rt; reads(rt.alloc(), OLD, Asked::Written(NEW)));
    assert!(rt; pieces_alike(rt.alloc(), OLD));
}

/// The canonical text reads as the text from which it was written.
#[test]
fn read_again(rt: HostRuntime) {
    assert!(rt; reads(rt.alloc(), OLD, Asked::Again(NEW)));
}

/// Lists of commands, and whether some text spells them.
#[test]
fn not_sayable(rt: HostRuntime) {
    let lists: &[(&[DrillCommand], bool); 4] = &[
        (&[], false),
        (&[Start, HeaderEnd, Finish], true),
        (&[Start, HeaderEnd, Finish, Finish], false),
        (&[Start, Finish], false),
    ];
    for &(commands, is_sayable) in lists {
        assert!(rt; drill_sayable(commands) == is_sayable);
    }
}

/// Whether a list with just this command in its body is sayable.
fn is_said_in_body(command: DrillCommand) -> bool {
    drill_sayable(&[Start, HeaderEnd, command, Finish])
}

#[test]
fn not_sayable_in_the_body(rt: HostRuntime) {
    let nowhere = Coordinates::new(None, None);
    assert!(rt; !is_said_in_body(Hit(nowhere)));
    assert!(rt; !is_said_in_body(Pick(1000)));
}

/// Whether a comment of this text is read by none.
fn is_no_comment(alloc: Global, text: &str) -> bool {
    match Text::from_slice(alloc, text.as_bytes()) {
        Ok(comment) => !is_said_in_body(Comment(comment)),
        Err(_) => false,
    }
}

#[test]
fn comments_that_are_not_sayable(rt: HostRuntime) {
    for &text in &["a ", "a\nb"] {
        assert!(rt; is_no_comment(rt.alloc(), text), "{text}");
    }
}
