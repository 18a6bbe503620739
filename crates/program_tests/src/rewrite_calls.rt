//! A long text that is rewritten. What short texts are rewritten as, and which are refused, is in the data of `worked_examples`.

use grid_units::{Fail, Fault, Reason};
use ringcheck_files::{Kind, rewrite_bytes};
use std::alloc::{AllocError, Global};
use std::test::Fail as TestFail;

/// The fault of a layer that is refused.
fn fault_of(alloc: Global, text: &[u8]) -> Option<Fault> {
    match rewrite_bytes(alloc, Kind::Layer, text) {
        Err(Fail::Refused(fault)) => Some(fault),
        _ => None,
    }
}

/// Whether the text of a layer is rewritten as it is.
fn is_kept(alloc: Global, text: &[u8]) -> bool {
    match rewrite_bytes(alloc, Kind::Layer, text) {
        Ok(written) => written.as_slice() == text,
        Err(_) => false,
    }
}

/// A layer of many pieces, in which items cross the borders of pieces.
fn long_layer(alloc: Global) -> Result<Vec<u8>, AllocError> {
    let mut text = Vec::from_slice(alloc, b"%MOIN*%\n%FSLAX24Y24*%\n%ADD10C,0.05*%\nD10*\n")?;
    for _i in 0..20_000 {
        text.extend_from_slice(b"X1000Y-20D03*\n")?;
    }
    text.extend_from_slice(b"M02*\n")?;
    Ok(text)
}

/// A layer of many pieces is kept, and is refused in its last piece where a word stands after its end.
#[test]
fn a_layer_of_many_pieces(rt: HostRuntime) -> Result<(), TestFail> {
    let mut text = long_layer(rt.alloc())?;
    let is_kept = is_kept(rt.alloc(), &text);
    text.extend_from_slice(b"G")?;
    let fault = Some(Fault {
        place: 20_006,
        byte: 280_047,
        reason: Reason::AfterEnd,
    });
    assert!(rt; is_kept && fault_of(rt.alloc(), &text) == fault);
    Ok(())
}
