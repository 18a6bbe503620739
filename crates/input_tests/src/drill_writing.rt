//! Texts that are written anew as they are read, and tool diameters at the limit.

use crate::drill_pieces::{Cut, read_cut};
use crate::drill_text_calls::answered_otherwise;
use drill_text::{Keep, read_drill};
use grid_units::{Fail, Fault, Reason};
use std::alloc::Global;

pub(crate) const OLD: &[u8] =
    b"%\nM48\n;note\nINCH,LZ\nT01F00S00C.0350\nFMAT,2\nM95\nG90\nG05\nM72\nT01\nX01Y-005\nX02G85Y01\nT00\nM30";

pub(crate) const NEW: &[u8] =
    b"M48\n;note\nINCH,LZ\nT1C0.035\n%\nM72\nT1\nX1.0Y-0.5\nX2.0G85Y1.0\nT0\nM30\n";

fn refused(reason: Reason, place: u64, byte: u64) -> Option<Fail> {
    Some(Fail::Refused(Fault {
        place,
        byte,
        reason,
    }))
}

/// Writes a text anew that is cut so.
fn rewritten(alloc: Global, text: &[u8], cut: Cut) -> Result<Vec<u8>, Fail> {
    read_cut(alloc, Keep::Text, text, cut)?.into_text()
}

pub(crate) fn is_text(answer: &Result<Vec<u8>, Fail>, wanted: &[u8]) -> bool {
    match answer {
        Ok(text) => text.as_slice() == wanted,
        Err(_) => false,
    }
}

/// Whether a text that is cut so is written anew as the canonical text.
fn is_written_new(alloc: Global, text: &[u8], cut: Cut) -> bool {
    is_text(&rewritten(alloc, text, cut), NEW)
}

/// A text whose last line has no LF is written anew, in pieces.
#[test]
fn written_as_it_is_read(rt: HostRuntime) {
    assert!(rt; is_written_new(rt.alloc(), OLD, Cut::EachByte));
    assert!(rt; is_written_new(rt.alloc(), NEW, Cut::EachByte));
    for at in 0..OLD.len() {
        assert!(rt; is_written_new(rt.alloc(), OLD, Cut::At(at)), "at {at}");
    }
}

/// Whether a text that comes byte by byte is refused so.
fn is_refused(alloc: Global, text: &[u8], reason: Reason, place: u64, byte: u64) -> bool {
    rewritten(alloc, text, Cut::EachByte).err() == refused(reason, place, byte)
}

/// A text without its end is refused as Truncated.
#[test]
fn refused_as_it_is_read(rt: HostRuntime) {
    let cut = b"M48\nMETRIC\n%\n";
    assert!(rt; is_refused(rt.alloc(), cut, Reason::Truncated, 4, 13));
}

/// A reader that has failed gives its fault again at each later call.
#[test]
fn a_fault_of_writing_stays(rt: HostRuntime) {
    assert_eq!(rt; answered_otherwise(rt.alloc(), Keep::Text), None);
}

fn is_accepted(alloc: Global, text: &str) -> bool {
    read_drill(alloc, text.as_bytes()).is_ok()
}

/// Diameters of at most 10 m, in both units, and one above it that no hole needs.
const NEAR: [&str; 3] = [
    "M48\nMETRIC\nT1C10000.0\n%\nT1\nX0.0\nM30\n",
    "M48\nINCH\nT1C393.7007874\n%\nT1\nX0.0\nM30\n",
    "M48\nMETRIC\nT1C10000.00000001\n%\nM30\n",
];

/// Diameters above 10 m, and where their tools are picked.
const FAR: [(&str, u64); 2] = [
    ("M48\nMETRIC\nT1C10000.00000001\n%\nT1\nX0.0\nM30\n", 34),
    ("M48\nINCH\nT1C393.70078741\n%\nT1\nX0.0\nM30\n", 30),
];

/// A diameter of at most 10 m, and one above it, in both units.
#[test]
fn far_diameters(rt: HostRuntime) {
    for &text in &NEAR {
        assert!(rt; is_accepted(rt.alloc(), text), "{text}");
    }
    for &(text, byte) in &FAR {
        let text_bytes = text.as_bytes();
        assert!(rt;
            is_refused(rt.alloc(), text_bytes, Reason::TooFar, 6, byte),
            "{text}"
        );
    }
}
