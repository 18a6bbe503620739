//! Files of waivers, and findings with the figures of the worked examples. What waivers do for a report is in the data of `worked_examples`.

use crate::rows::{CauseRow, Form, GapRow, HoleRow, ReportRow, report_of};
use grid_units::Reason::*;
use grid_units::{Fail, Profile, Reason};
use manifest::Name;
use manifest::rows::read_records;
use report::{BoardReport, LayerHead, Met};
use std::alloc::{AllocError, Global};
use std::io::Write;
use waivers::*;

/// The place, the byte and the reason of a refusal.
fn refusal(rt: HostRuntime, text: &[u8]) -> Option<(u64, u64, Reason)> {
    match read_waivers(rt.alloc(), text) {
        Err(Fail::Refused(fault)) => Some((fault.place, fault.byte, fault.reason)),
        _ => None,
    }
}

/// Whether a waiver has these fields.
fn is_waiver(waiver: &Waiver, fields: &[&str; 6]) -> bool {
    waiver.kind.as_str() == fields[0]
        && waiver.layer.as_str() == fields[1]
        && waiver.hole.as_str() == fields[2]
        && waiver.and.as_str() == fields[3]
        && waiver.has.as_str() == fields[4]
        && waiver.why.as_str() == fields[5]
}

/// Whether these waivers have these fields, in order.
fn are_waivers(read: &[Waiver], all: &[[&str; 6]]) -> bool {
    read.len() == all.len()
        && read
            .iter()
            .zip(all)
            .all(|(waiver, fields)| is_waiver(waiver, fields))
}

/// Whether a file has just these waivers, in order.
fn is_read(rt: HostRuntime, text: &str, all: &[[&str; 6]]) -> bool {
    match read_waivers(rt.alloc(), text.as_bytes()) {
        Ok(read) => are_waivers(&read, all),
        Err(_) => false,
    }
}

const RING: [&str; 6] = [
    "ring",
    "top_layer",
    "pic_programmer-PTH, 0.75 at 142.24,-97.79",
    "",
    "none",
    "rounded pin 1; seen by eye",
];

const GAP: [&str; 6] = [
    "gap",
    "",
    "drill, 0.6096 at 50.546,67.31",
    "drill, 0.6096 at 51.181,66.548",
    "0.382301708",
    "as drawn",
];

#[test]
fn waivers_are_read_in_order(rt: HostRuntime) {
    let text = "kind,layer,hole,and,has,why\n\
        ring,top_layer,\"pic_programmer-PTH, 0.75 at 142.24,-97.79\",,none,rounded pin 1; seen by eye\n\
        gap,,\"drill, 0.6096 at 50.546,67.31\",\"drill, 0.6096 at 51.181,66.548\",0.382301708,as drawn\n";
    assert!(rt; is_read(rt, text, &[RING, GAP]));
}

/// Files that break a rule, with the number of the record and the reason.
const REFUSED: [(&[u8], u64, Reason); 20] = [
    (b"", 1, BadManifest),
    (b"\xEF\xBB\xBF", 1, BadManifest),
    (b"kind,layer,hole,and,has\n", 1, BadManifest),
    (b"kind,layer,hole,and,has,why,\n", 1, BadManifest),
    (b"kind,layer,hole,has,and,why\n", 1, BadManifest),
    (b"Kind,layer,hole,and,has,why\n", 1, BadManifest),
    (b"ring,top,h,,none,seen\n", 1, BadManifest),
    (
        b"kind,layer,hole,and,has,why\nring,top,h,,none\n",
        2,
        BadManifest,
    ),
    (
        b"kind,layer,hole,and,has,why\nring,top,h,,none,seen,\n",
        2,
        BadManifest,
    ),
    (b"kind,layer,hole,and,has,why\n\"\"\n", 2, BadManifest),
    (
        b"kind,layer,hole,and,has,why\nring,top,h,,none,see\tn\n",
        2,
        BadManifest,
    ),
    (
        b"kind,layer,hole,and,has,why\nring,top,h,,none,\"see\nn\"\n",
        2,
        BadManifest,
    ),
    (
        b"kind,layer,hole,and,has,why\nring,top,h\x7F,,none,seen\n",
        2,
        BadManifest,
    ),
    (
        b"kind,layer,hole,and,has,why\nhole,\x01,h,,none,\n",
        2,
        BadManifest,
    ),
    (
        b"kind,layer,hole,and,has,why\nhole,top,h,,none,\n",
        2,
        BadRole,
    ),
    (
        b"kind,layer,hole,and,has,why\nRing,top,h,,none,seen\n",
        2,
        BadRole,
    ),
    (
        b"kind,layer,hole,and,has,why\n,top,h,,none,seen\n",
        2,
        BadRole,
    ),
    (
        b"kind,layer,hole,and,has,why\nring,top,h,,none,\n",
        2,
        EmptyName,
    ),
    (
        b"kind,layer,hole,and,has,why\ngap,,h,i,0.1,\"\"\n",
        2,
        EmptyName,
    ),
    (
        b"kind,layer,hole,and,has,why\nring,top,h\xFF,,none,seen\n",
        2,
        BadManifest,
    ),
];

#[test]
fn files_that_break_a_rule_are_refused(rt: HostRuntime) {
    for &(text, place, reason) in &REFUSED {
        assert!(rt;
            refusal(rt, text) == Some((place, 0, reason)),
            "of {} bytes",
            text.len()
        );
    }
}

/// Two records; the reason of the second is this letter, `count` times, in quotes.
fn with_letters(rt: HostRuntime, letter: &str, count: usize) -> Result<String, AllocError> {
    let reason = letter.repeat(rt.alloc(), count)?;
    format!(in rt.alloc();
        "kind,layer,hole,and,has,why\nring,top,h,,none,seen\nring,top,h,,none,\"{reason}\"\n"
    )
}

/// Whether such records are read, or the second is refused as too long.
fn are_letters_read(rt: HostRuntime, letter: &str, count: usize, are_read: bool) -> bool {
    let answer = if are_read {
        None
    } else {
        Some((3, 0, TooLong))
    };
    match with_letters(rt, letter, count) {
        Ok(text) => refusal(rt, text.as_bytes()) == answer,
        Err(_) => false,
    }
}

/// A letter, how often it stands, and whether that is read as a reason.
const LETTERS: [(&str, usize, bool); 7] = [
    ("a", 1_000, true),
    ("a", 1_001, false),
    ("\u{E9}", 500, true),
    ("\u{E9}", 501, false),
    ("\"\"", 1_000, true),
    ("\"\"", 1_001, false),
    ("a", 100_000, false),
];

#[test]
fn reasons_have_at_most_1000_bytes(rt: HostRuntime) {
    for &(letter, count, are_read) in &LETTERS {
        assert!(rt; are_letters_read(rt, letter, count, are_read), "of {count}");
    }
}

/// Adds six records; those before one, counted from 0, have a reason, the others none.
fn push_records(text: &mut String, wrong: usize) -> Result<(), AllocError> {
    for index in 0..6 {
        text.push_str("ring,top,h,,none,")?;
        text.push_str(if index < wrong { "seen\n" } else { "\n" })?;
    }
    Ok(())
}

/// A file of such records.
fn six_records(rt: HostRuntime, wrong: usize) -> Result<String, AllocError> {
    let mut text = String::from_str(rt.alloc(), "kind,layer,hole,and,has,why\n\n")?;
    push_records(&mut text, wrong)?;
    Ok(text)
}

/// Whether it is refused at the record of this number, or so many of its records are read.
fn are_read_up_to(rt: HostRuntime, wrong: usize, place: Option<u64>, count: Option<usize>) -> bool {
    match six_records(rt, wrong) {
        Ok(text) => {
            refuses_name(rt, text.as_bytes(), place) && count_read(rt, text.as_bytes()) == count
        }
        Err(_) => false,
    }
}

/// Whether a record is refused for its empty reason, or none.
fn refuses_name(rt: HostRuntime, text: &[u8], place: Option<u64>) -> bool {
    match (refusal(rt, text), place) {
        (Some(found), Some(place)) => found == (place, 0, EmptyName),
        (found, wanted) => found.is_none() && wanted.is_none(),
    }
}

/// How many of six records have a reason, the number of the record that is refused, and how many are read where none is.
const NUMBERS: [(usize, Option<u64>, Option<usize>); 7] = [
    (0, Some(2), None),
    (1, Some(3), None),
    (2, Some(4), None),
    (3, Some(5), None),
    (4, Some(6), None),
    (5, Some(7), None),
    (6, None, Some(6)),
];

#[test]
fn a_refusal_has_the_number_of_its_record(rt: HostRuntime) {
    for &(wrong, place, count) in &NUMBERS {
        assert!(rt; are_read_up_to(rt, wrong, place, count), "{wrong}");
    }
}

/// The number of waivers of a text.
fn count_read(rt: HostRuntime, text: &[u8]) -> Option<usize> {
    match read_waivers(rt.alloc(), text) {
        Ok(read) => Some(read.len()),
        Err(_) => None,
    }
}

#[test]
fn files_are_read_as_manifests_are(rt: HostRuntime) {
    for &(text, count) in &[
        ("kind,layer,hole,and,has,why", 0),
        ("\u{FEFF}kind,layer,hole,and,has,why\r\ngap,,a,b,0,x\r\n", 1),
        (
            "\n\nkind,layer,hole,and,has,why\r\n\ngap,,a,b,0,x\rgap,,a,b,0, ",
            2,
        ),
        (
            "\"kind\",layer,hole,and,has,why\nring,,a,\"b\"\"c\",\"0,1\",x",
            1,
        ),
    ] {
        assert!(rt; count_read(rt, text.as_bytes()) == Some(count), "of {text}");
    }
}

/// A hole that lies in no pad, one off the centre of a disc, and one in a disc that is too small for it.
const BARE: HoleRow = (
    2,
    1,
    (142_240_000_000, -97_790_000_000),
    (142_240_000_000, -97_790_000_000),
    750_000_000,
);

const OFF: HoleRow = (2, 1, (0, 0), (0, 0), 1_000_000_000);

const BELOW: HoleRow = (3, 1, (1, -1), (1, -1), 609_600_000);

const OFF_CENTRE: CauseRow = CauseRow::OffCentre(1, Form::Disc(250_000_000), (0, 0), 99_625_866, 1);

const BELOW_ZERO: CauseRow = CauseRow::OffCentre(
    1,
    Form::Disc(250_000_000),
    (1, -1),
    -101_600_000,
    1,
);

/// Two holes that lack their gap.
const CLOSE: GapRow = (
    (
        3,
        1,
        (50_546_000_000, 67_310_000_000),
        (50_546_000_000, 67_310_000_000),
        609_600_000,
    ),
    (
        3,
        1,
        (51_181_000_000, 66_548_000_000),
        (51_181_000_000, 66_548_000_000),
        609_600_000,
    ),
    382_301_708,
    1,
);

const NAMES: [&str; 4] = ["top_layer", "bottom_layer", "pic_programmer-PTH", "drill"];

/// A report of two layers without findings.
const NOTHING: ReportRow = ReportRow {
    rules: (100_000_000, 250_000_000),
    profile: Profile::Strict,
    layers: &[
        LayerHead {
            file: 0,
            needed: 245,
        },
        LayerHead {
            file: 1,
            needed: 245,
        },
    ],
    rings: &[],
    gaps: &[],
    meets: (Met::None, Met::Any, Met::Any),
};

/// A report with six rings on two layers and with one gap.
const SEVEN_FINDINGS: ReportRow = ReportRow {
    rings: &[
        (0, BARE, CauseRow::NoFlash),
        (0, OFF, OFF_CENTRE),
        (0, BELOW, BELOW_ZERO),
        (1, BARE, CauseRow::NoFlash),
        (1, OFF, OFF_CENTRE),
        (1, BELOW, BELOW_ZERO),
    ],
    gaps: &[CLOSE],
    ..NOTHING
};

/// Whether this file of waivers is printed for a report on files of these names.
fn has_text(rt: HostRuntime, names: &[&str], report: &BoardReport, text: &str) -> bool {
    let waivers = WaiverText { names, report };
    match format!(in rt.alloc(); "{waivers}") {
        Ok(written) => written.as_str() == text,
        Err(_) => false,
    }
}

/// Whether this file of waivers is printed for the report of a row, on files of these names.
fn is_printed(rt: HostRuntime, names: &[&str], row: &ReportRow, text: &str) -> bool {
    match report_of(rt.alloc(), row) {
        Ok(report) => has_text(rt, names, &report, text),
        Err(_) => false,
    }
}

const SEVEN: &str = "kind,layer,hole,and,has,why
ring,top_layer,\"pic_programmer-PTH, 0.75 at 142.24,-97.79\",,none,
ring,top_layer,\"pic_programmer-PTH, 1 at 0,0\",,0.099625866,
ring,top_layer,\"drill, 0.6096 at 0.000000001,-0.000000001\",,-0.1016,
ring,bottom_layer,\"pic_programmer-PTH, 0.75 at 142.24,-97.79\",,none,
ring,bottom_layer,\"pic_programmer-PTH, 1 at 0,0\",,0.099625866,
ring,bottom_layer,\"drill, 0.6096 at 0.000000001,-0.000000001\",,-0.1016,
gap,,\"drill, 0.6096 at 50.546,67.31\",\"drill, 0.6096 at 51.181,66.548\",0.382301708,
";

#[test]
fn findings_are_printed_with_empty_reasons(rt: HostRuntime) {
    assert!(rt; is_printed(rt, &NAMES, &SEVEN_FINDINGS, SEVEN));
    assert!(rt; is_printed(rt, &[], &NOTHING, "kind,layer,hole,and,has,why\n"));
    assert!(rt; refuses_name(rt, SEVEN.as_bytes(), Some(2)));
}

/// Whether the text of a report is cut by a writer that has room for less.
fn is_cut(report: &BoardReport) -> bool {
    let mut room = [0; 40];
    let mut out = room.as_mut_slice();
    let text = WaiverText {
        names: &NAMES,
        report,
    };
    let is_cut = write!(out, "{text}").is_err();
    is_cut && SEVEN.as_bytes().starts_with(&room)
}

/// Whether the text of the seven findings is.
fn are_findings_cut(rt: HostRuntime) -> bool {
    match report_of(rt.alloc(), &SEVEN_FINDINGS) {
        Ok(report) => is_cut(&report),
        Err(_) => false,
    }
}

#[test]
fn a_writer_without_room_cuts_the_text(rt: HostRuntime) {
    assert!(rt; are_findings_cut(rt));
}

/// A slot that lies along no axis, and a hole of no file on a layer without a head.
const SLOT_AND_UNSEEN: ReportRow = ReportRow {
    rings: &[
        (
            0,
            (1, 3, (0, 0), (2_000_000_000, 1_000_000_000), 500_000_000),
            CauseRow::Oblique,
        ),
        (9, (9, 1, (0, 0), (0, 0), 400_000_000), CauseRow::NoFlash),
    ],
    ..NOTHING
};

#[test]
fn slots_and_names_are_printed_as_they_are(rt: HostRuntime) {
    let expected = "kind,layer,hole,and,has,why\n\
        ring,\"\"\"top\"\"\",\"p,th, 0.5 at 0,0 to 2,1\",,none,\n\
        ring,,\", 0.4 at 0,0\",,none,\n";
    assert!(rt; is_printed(rt, &["\"top\"", "p,th"], &SLOT_AND_UNSEEN, expected));
}

/// A hole near the edge of a rounded pad, one over a clear flash, and one over a flash that is cleared.
const FURTHER: ReportRow = ReportRow {
    profile: Profile::Wide,
    rings: &[
        (0, OFF, CauseRow::Edge(1, 99_999_000, 1_000)),
        (0, BARE, CauseRow::Clear(2)),
        (1, BARE, CauseRow::Cleared(3)),
    ],
    ..NOTHING
};

#[test]
fn causes_of_the_wide_profile_are_printed(rt: HostRuntime) {
    let expected = "kind,layer,hole,and,has,why\n\
        ring,top_layer,\"pic_programmer-PTH, 1 at 0,0\",,0.099999,\n\
        ring,top_layer,\"pic_programmer-PTH, 0.75 at 142.24,-97.79\",,none,\n\
        ring,bottom_layer,\"pic_programmer-PTH, 0.75 at 142.24,-97.79\",,none,\n";
    assert!(rt; is_printed(rt, &NAMES, &FURTHER, expected));
}
