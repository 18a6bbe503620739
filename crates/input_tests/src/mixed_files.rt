use drill_text::{Drill, DrillReader, Keep, PlatingKind};
use grid_units::Reason::*;
use grid_units::{Fail, Fault, Profile, Reason};
use std::alloc::Global;

/// Reads a file whose platings are known so, in pieces of this many bytes.
pub(crate) fn read(
    alloc: Global,
    kind: PlatingKind,
    text: &[u8],
    size: usize,
) -> Result<Drill, Fail> {
    let mut reader = DrillReader::of_kind(alloc, Keep::Holes, Profile::Wide, kind);
    for piece in text.chunks(size.max(1)) {
        reader.feed(piece)?;
    }
    reader.finish()
}

/// Whether a mixed file in pieces of this many bytes has just as many holes, plated or not as these.
fn plates_so(alloc: Global, text: &[u8], size: usize, wanted: &[bool]) -> bool {
    match read(alloc, PlatingKind::Mixed, text, size) {
        Ok(drill) => drill.plated() == wanted && drill.holes().len() == wanted.len(),
        Err(_) => false,
    }
}

/// Whether a mixed file has just as many holes, plated or not as these, whole and in pieces.
fn plates(alloc: Global, text: &str, wanted: &[bool]) -> bool {
    let text = text.as_bytes();
    plates_so(alloc, text, 1_000, wanted)
        && plates_so(alloc, text, 7, wanted)
        && plates_so(alloc, text, 1, wanted)
}

/// Whether a file whose platings are known so has this fault, in pieces of this many bytes.
fn refuses_so(alloc: Global, kind: PlatingKind, text: &[u8], size: usize, fault: &Fault) -> bool {
    match read(alloc, kind, text, size) {
        Err(Fail::Refused(found)) => found == *fault,
        _ => false,
    }
}

/// Whether a file whose platings are known so has this fault, whole and in pieces.
pub(crate) fn refuses(alloc: Global, kind: PlatingKind, text: &str, fault: &Fault) -> bool {
    let text = text.as_bytes();
    refuses_so(alloc, kind, text, 1_000, fault)
        && refuses_so(alloc, kind, text, 7, fault)
        && refuses_so(alloc, kind, text, 1, fault)
}

/// Mixed files, and of each of their holes whether it is plated.
const PLATED: [(&str, &[bool]); 10] = [
    (
        "M48\nMETRIC\n;TYPE=PLATED\nT1C0.4\n;TYPE=NON_PLATED\nT2C1.0\n%\nT1\nX0.0Y0.0\nT2\nX3.0Y0.0\nM30\n",
        &[true, false],
    ),
    (
        "M48\nMETRIC\n; #@! TA.AperFunction,Plated,PTH,ComponentDrill\nT1C0.4\n; #@! TA.AperFunction,NonPlated,NPTH,ComponentDrill\nT2C1.0\n%\nT1\nX0.0Y0.0\nT2\nX3.0Y0.0\nM30\n",
        &[true, false],
    ),
    (
        "M48\nMETRIC\n;TYPE=PLATED\nT1C0.4\nT2C1.0\n%\nT1\nX0.0Y0.0\nT2\nX3.0Y0.0\nM30\n",
        &[true, true],
    ),
    // Other comments and attributes say nothing of it, and `TYPE` stands right after the semicolon.
    (
        "M48\nMETRIC\n;TYPE=PLATED\nT1C0.4\n; #@! TA.DrillTolerance,Plated\n; #@! TD.DrillTolerance\n; #@! TF.FileFunction,MixedPlating,1,2\n; TYPE=NON_PLATED\nT2C1.0\n%\nT1\nX0.0Y0.0\nT2\nX3.0Y0.0\nM30\n",
        &[true, true],
    ),
    // Blanks at the end of a line do not count.
    (
        "M48\nMETRIC\n;TYPE=PLATED\nT1C0.4\n;TYPE=NON_PLATED \nT2C1.0\n%\nT1\nX0.0Y0.0\nT2\nX3.0Y0.0\nM30\n",
        &[true, false],
    ),
    (
        "M48\nMETRIC\n;TYPE=PLATED\nT1C0.4\n%\n; a comment\nT1\nX0.0Y0.0\nM30\n",
        &[true],
    ),
    (
        ";TYPE=PLATED\nM48\nMETRIC\nT1C0.4\nT2C1.0\n%\nT1\nX0.0Y0.0\nT2\nX3.0Y0.0\nM30\n",
        &[true, true],
    ),
    (
        "M48\nMETRIC\n; #@! TA.AperFunction,Plated\nT1C0.4\n%\nT1\nX0.0Y0.0G85X1.0Y0.0\nM30\n",
        &[true],
    ),
    // A tool of which nothing is said may be picked, if it drills nothing.
    (
        "M48\nMETRIC\n;TYPE=PLATED\nT1C0.4\n; #@! TD\nT2C1.0\n%\nT2\nT1\nX0.0Y0.0\nM30\n",
        &[true],
    ),
    ("M30\n", &[]),
];

#[test]
fn holes_are_plated_as_their_tools(rt: HostRuntime) {
    for &(text, wanted) in &PLATED {
        assert!(rt; plates(rt.alloc(), text, wanted), "{text}");
    }
}

/// Mixed files that are refused.
const REFUSED: [(&str, Reason, u64, u64); 14] = [
    (
        "M48\nMETRIC\nT1C0.4\n;TYPE=NON_PLATED\nT2C1.0\n%\nT1\nX0.0Y0.0\nT2\nX3.0Y0.0\nM30\n",
        NoPlating,
        8,
        47,
    ),
    // An attribute takes back what was said: all of them, the function, or a function that is neither.
    (
        "M48\nMETRIC\n; #@! TA.AperFunction,Plated,PTH\nT1C0.4\n; #@! TD\nT2C1.0\n%\nT1\nX0.0Y0.0\nT2\nX3.0Y0.0\nM30\n",
        NoPlating,
        11,
        84,
    ),
    (
        "M48\nMETRIC\n;#@! TA.AperFunction,NonPlated\nT1C0.4\n; #@! TD.AperFunction\nT2C1.0\n%\nT1\nX0.0Y0.0\nT2\nX3.0Y0.0\nM30\n",
        NoPlating,
        11,
        95,
    ),
    (
        "M48\nMETRIC\n;TYPE=PLATED\nT1C0.4\n; #@! TA.AperFunction,ViaDrill\nT2C1.0\n%\nT1\nX0.0Y0.0\nT2\nX3.0Y0.0\nM30\n",
        NoPlating,
        11,
        86,
    ),
    // In the body no comment may say it.
    (
        "M48\nMETRIC\n;TYPE=PLATED\nT1C0.4\nT2C1.0\n%\nT1\nX0.0Y0.0\n;TYPE=NON_PLATED\nT2\nX3.0Y0.0\nM30\n",
        NoPlating,
        9,
        52,
    ),
    (
        "M48\nMETRIC\n;TYPE=PLATED\nT1C0.4\nT2C1.0\n%\n; #@! TD\nT1\nX0.0Y0.0\nM30\n",
        NoPlating,
        7,
        40,
    ),
    // A slot, and one that is routed, at its last line.
    (
        "M48\nMETRIC\nT1C0.4\n%\nT1\nX0.0Y0.0G85X1.0Y0.0\nM30\n",
        NoPlating,
        6,
        23,
    ),
    (
        "M48\nMETRIC\nT1C0.4\n%\nT1\nG00X0.0Y0.0\nM15\nG01X1.0Y0.0\nM16\nM30\n",
        NoPlating,
        9,
        51,
    ),
    // The word of a function is read byte by byte.
    (
        "M48\nMETRIC\n; #@! TA.AperFunction\nT1C0.4\n%\nT1\nX0.0Y0.0\nM30\n",
        NoPlating,
        7,
        45,
    ),
    (
        "M48\nMETRIC\n; #@! TA.AperFunction, Plated\nT1C0.4\n%\nT1\nX0.0Y0.0\nM30\n",
        NoPlating,
        7,
        53,
    ),
    (
        "M48\nMETRIC\n; #@! TA.AperFunctions,Plated\nT1C0.4\n%\nT1\nX0.0Y0.0\nM30\n",
        NoPlating,
        7,
        53,
    ),
    // The other rules come first, and so does an earlier line.
    ("M48\nMETRIC\nT1C0.4\n%\nX0.0Y0.0\nM30\n", NoTool, 5, 20),
    (
        "M48\nMETRIC\nT1C0.4\n%\nT1\nQ\nX0.0Y0.0\nM30\n",
        BadLine,
        6,
        23,
    ),
    (
        "M48\nMETRIC\nT1C0.4\n%\nT1\nX0.0Y0.0\nQ\nM30\n",
        NoPlating,
        6,
        23,
    ),
];

#[test]
fn refused_mixed_files(rt: HostRuntime) {
    for &(text, reason, place, byte) in &REFUSED {
        let fault = Fault {
            place,
            byte,
            reason,
        };
        assert!(rt;
            refuses(rt.alloc(), PlatingKind::Mixed, text, &fault),
            "{text}"
        );
    }
}

/// Whether a text is read as a file whose role says whether its holes are plated.
fn reads_as_another(alloc: Global, text: &str) -> bool {
    let mut reader = DrillReader::in_profile(alloc, Keep::Holes, Profile::Wide);
    reader.feed(text.as_bytes()).is_ok() && reader.finish().is_ok()
}

/// The files that lack a plating, and break no other rule, are read where they are not mixed.
#[test]
fn other_files_have_no_such_rule(rt: HostRuntime) {
    for &(text, _, _, _) in &REFUSED[..11] {
        assert!(rt; reads_as_another(rt.alloc(), text), "{text}");
    }
}
