use crate::drill_text_calls::{Ends, are_holes};
use drill_text::{Drill, DrillReader, Keep};
use grid_units::Reason::*;
use grid_units::{Fail, Fault, Profile, Reason};
use std::alloc::Global;

/// A header with a tool, and a pick of it: five lines of 24 bytes together.
const HEAD: &str = "M48\nMETRIC\nT1C0.75\n%\nT1\n";

fn feed(reader: &mut DrillReader, text: &str, size: usize) -> Result<(), Fail> {
    for piece in text.as_bytes().chunks(size.max(1)) {
        reader.feed(piece)?;
    }
    Ok(())
}

/// Reads a text of two parts in pieces of this many bytes.
fn read(
    alloc: Global,
    profile: Profile,
    head: &str,
    text: &str,
    size: usize,
) -> Result<Drill, Fail> {
    let mut reader = DrillReader::in_profile(alloc, Keep::Commands, profile);
    feed(&mut reader, head, size)?;
    feed(&mut reader, text, size)?;
    reader.finish()
}

/// Whether a text in pieces of this many bytes drills just these holes.
fn drills_so(alloc: Global, text: &str, size: usize, wanted: &[Ends]) -> bool {
    match read(alloc, Profile::Wide, "", text, size) {
        Ok(drill) => are_holes(drill.holes(), wanted),
        Err(_) => false,
    }
}

/// Whether a text drills just these holes in the wide profile, whole and in pieces.
fn drills(alloc: Global, text: &str, wanted: &[Ends]) -> bool {
    drills_so(alloc, text, 1_000, wanted)
        && drills_so(alloc, text, 7, wanted)
        && drills_so(alloc, text, 1, wanted)
}

fn is_fault(read: Result<Drill, Fail>, fault: &Fault) -> bool {
    match read {
        Err(Fail::Refused(found)) => found == *fault,
        _ => false,
    }
}

/// Whether a text of two parts has this fault in a profile, whole and in pieces.
fn refuses(alloc: Global, profile: Profile, head: &str, text: &str, fault: &Fault) -> bool {
    is_fault(read(alloc, profile, head, text, 1_000), fault)
        && is_fault(read(alloc, profile, head, text, 7), fault)
        && is_fault(read(alloc, profile, head, text, 1), fault)
}

/// The slot of the routes below.
const SLOT: Ends = (
    -500_000_000,
    -500_000_000,
    500_000_000,
    500_000_000,
    375_000_000,
);

/// Texts with routed slots, each with its holes: one route; two; a hit after `G05`; a coordinate left out, which is that of the point
/// before; blanks, a comment and a pick where no line of a route is due; as its twin in one line, which the wide profile reads too; a
/// route that ends by `M17`, as another tool writes it; and among words of older texts.
const ROUTED: [(&str, &[Ends]); 8] = [
    (
        "M48\nMETRIC\nT1C0.75\n%\nT1\nG00X-0.5Y-0.5\nM15\nG01X0.5Y0.5\nM16\nG05\nM30\n",
        &[SLOT],
    ),
    (
        "M48\nMETRIC\nT1C0.75\n%\nT1\nG00X-0.5Y-0.5\nM15\nG01X0.5Y0.5\nM16\nG00X-0.5Y-0.5\nM15\nG01X0.5Y0.5\nM16\nM30\n",
        &[SLOT, SLOT],
    ),
    (
        "M48\nMETRIC\nT1C0.75\n%\nT1\nG00X-0.5Y-0.5\nM15\nG01X0.5Y0.5\nM16\nG05\nX1.0\nM30\n",
        &[
            SLOT,
            (
                1_000_000_000,
                500_000_000,
                1_000_000_000,
                500_000_000,
                375_000_000,
            ),
        ],
    ),
    (
        "M48\nMETRIC,TZ\nT1C0.75\n%\nT1\nX1000Y2000\nG00X3000\nM15\nG01Y4000\nM16\nM30\n",
        &[
            (
                1_000_000_000,
                2_000_000_000,
                1_000_000_000,
                2_000_000_000,
                375_000_000,
            ),
            (
                3_000_000_000,
                2_000_000_000,
                3_000_000_000,
                4_000_000_000,
                375_000_000,
            ),
        ],
    ),
    (
        "M48\nMETRIC\nT1C0.75\n%\nG05\nT1\n;M16\nG00X-0.5Y-0.5 \r\nM15\t\nG01X0.5Y0.5\r\nM16 \n\n;x\nT1\nM30",
        &[SLOT],
    ),
    (
        "M48\nMETRIC\nT1C0.75\n%\nT1\nX-0.5Y-0.5G85X0.5Y0.5\nM30\n",
        &[SLOT],
    ),
    (
        "M48\n;Layer_Color=9474304\n;FILE_FORMAT=2:5\nINCH,LZ\n;TYPE=PLATED\nT1F00S00C0.01575\n%\nG90\nG05\nT01\nG00X0098Y02\nM15\nG01X0102\nM17\nG05\nM30\n",
        &[(
            24_892_000_000,
            50_800_000_000,
            25_908_000_000,
            50_800_000_000,
            200_025_000,
        )],
    ),
    (
        "M48\nR,H\nMETRIC\nG93X0Y0\nT1C0.75\nM95\nG93X0Y0\nT1\nG00X-0.5Y-0.5\nM15\nG01X0.5Y0.5\nM17\nM00\n\n;x\nM30\n;x\n\n;TYPE=NON_PLATED",
        &[SLOT],
    ),
];

#[test]
fn routed_slots(rt: HostRuntime) {
    for &(text, holes) in &ROUTED {
        assert!(rt; drills(rt.alloc(), text, holes), "{text}");
    }
}

/// What follows a header and a pick, and is refused in the wide profile: a line of a route that lacks, comes twice or comes late; an empty
/// line and a comment within a route; a route that begins amid; a point that is none; a hit and a slot while the machine routes; other
/// paths; numbers, at their own lines; rules, at the last line of a route; an end within a route; `M17` elsewhere; old words elsewhere,
/// or other ones; and what may not stand after `M00`, or after the end.
const REFUSED: [(&str, Reason, u64, u64); 36] = [
    ("G00X0.\nM15\nM16\nM30\n", Routed, 8, 35),
    ("G00X0.\nM15\nG01X1.\nG01X2.\nM16\nM30\n", Routed, 9, 42),
    ("G00X0.\n\nM15\nG01X1.\nM16\nM30\n", Routed, 7, 31),
    ("G00X0.\nM15\nG01X1.\n;x\nM16\nM30\n", Routed, 9, 42),
    ("G01X1.\nM30\n", Routed, 6, 24),
    ("M15\nM30\n", Routed, 6, 24),
    ("G00X0.\nM15\nG01X1.\nM16\nM16\nM30\n", Routed, 10, 46),
    ("G00X0.\nG00X0.\nM15\n", Routed, 7, 31),
    ("G00\nM15\nG01X1.\nM16\nM30\n", Routed, 6, 24),
    ("G00X0.\nM15\nG01X1.F9\nM16\nM30\n", Routed, 8, 35),
    ("G00X0.\nM15\nG01X1.\nM16\nX0.Y0.\nM30\n", Routed, 10, 46),
    (
        "G00X0.\nM15\nG01X1.\nM16\nT1\nX0.G85X1.\nM30\n",
        Routed,
        11,
        49,
    ),
    ("G00X0.\nM15\nG02X1.\nM16\nM30\n", Routed, 8, 35),
    ("G00X0.123456789\nM15\n", TooFine, 6, 24),
    ("G00X0.\nM15\nG01X5000\nM16\nM30\n", NoZeros, 8, 35),
    ("G00X0.\nM15\nG01X10000.1\nM16\nM30\n", TooFar, 9, 47),
    ("T0\nG00X0.\nM15\nG01X1.\nM16\n", NoTool, 10, 45),
    ("G00X0.\nM15\n", Truncated, 8, 35),
    ("G00X0.\nM15\nM30\n", Routed, 8, 35),
    ("M17\nM30\n", BadLine, 6, 24),
    ("G00X0.\nM17\n", Routed, 7, 31),
    ("G00X0.\nM15\nG01X1.\nM17X\n", Routed, 9, 42),
    ("G00X0.\nM15\nG01X1.\nM17\nX0.Y0.\nM30\n", Routed, 10, 46),
    ("G00X0.\nM15\nG01X1.\nM17\nM17\nM30\n", BadLine, 10, 46),
    ("G93X0.0Y0.0\nM30\n", OldFormat, 6, 24),
    ("R,H\nM30\n", Repeat, 6, 24),
    ("M00X0Y0\nM30\n", BadLine, 6, 24),
    ("M00\nX0.Y0.\nM30\n", BadLine, 7, 28),
    ("M00\nG00X0.\nM15\nG01X1.\nM16\n", BadLine, 7, 28),
    ("M00\nM00\nM30\n", BadLine, 7, 28),
    ("M00\nG05\nM30\n", BadLine, 7, 28),
    ("M00\nM30\nT1\n", BadLine, 8, 32),
    ("M00\nM30\n;x\nM30\n", AfterEnd, 9, 35),
    ("M30\n;x\n\nT1\n", AfterEnd, 9, 32),
    ("M30\n ;x\n", AfterEnd, 7, 28),
    ("G00X0.\nM00\nM30\n", Routed, 7, 31),
];

#[test]
fn refused_lines(rt: HostRuntime) {
    for &(text, reason, place, byte) in &REFUSED {
        let fault = Fault {
            place,
            byte,
            reason,
        };
        assert!(rt;
            refuses(rt.alloc(), Profile::Wide, HEAD, text, &fault),
            "{text}"
        );
    }
}

/// Each routed slot above is refused in the strict profile, at its first line.
#[test]
fn strict_refuses_routes(rt: HostRuntime) {
    let fault = Fault {
        place: 6,
        byte: 24,
        reason: Routed,
    };
    for &(text, _) in &ROUTED[..3] {
        assert!(rt;
            refuses(rt.alloc(), Profile::Strict, "", text, &fault),
            "{text}"
        );
    }
}

/// Files without holes: no line but empty ones, `%` and comments stands before `M30`, nor after it.
#[test]
fn files_without_holes(rt: HostRuntime) {
    for text in ["%\n\nM30\n", "M30", "M30\n;x", ";x\n%\nM30\r\n\n"] {
        assert!(rt; drills(rt.alloc(), text, &[]), "{text}");
    }
}

/// What is refused of such files: every one in the strict profile; one without `M30`; and lines after `M30`, or of another part. A route in
/// the header. And old words before the header, others, and each in the strict profile.
const OTHERS_REFUSED: [(Profile, &str, Reason, u64, u64); 14] = [
    (Profile::Strict, "M30\n", OldFormat, 1, 0),
    (Profile::Strict, "%\n\nM30\n", OldFormat, 3, 3),
    (Profile::Wide, "", Truncated, 1, 0),
    (Profile::Wide, "%\n\n", Truncated, 3, 3),
    (Profile::Wide, "M30\nT1\n", AfterEnd, 2, 4),
    (Profile::Wide, "G05\nM30\n", OldFormat, 1, 0),
    (Profile::Wide, "M30X\n", OldFormat, 1, 0),
    (Profile::Wide, "M48\nG00X0.\nM15\n", BadLine, 2, 4),
    (Profile::Wide, "G93X0Y0\nM48\n", OldFormat, 1, 0),
    (Profile::Wide, "M48\nM00\n", BadLine, 2, 4),
    (Profile::Wide, "M48\nR,T\n", BadLine, 2, 4),
    (Profile::Strict, "M48\nR,H\n", BadLine, 2, 4),
    (Profile::Strict, "M48\nG93X0Y0\n", OldFormat, 2, 4),
    (Profile::Strict, "M48\nM71\n%\nM00\n", BadLine, 4, 10),
];

#[test]
fn others_refused(rt: HostRuntime) {
    for &(profile, text, reason, place, byte) in &OTHERS_REFUSED {
        let fault = Fault {
            place,
            byte,
            reason,
        };
        assert!(rt; refuses(rt.alloc(), profile, "", text, &fault), "{text}");
    }
}
