//! Texts that are read and then written in their canonical spelling.

use crate::gerber_text_calls::is_same_in_pieces;
use crate::texts::LAYER;
use gerber_text::laws::sayable_texts;
use gerber_text::{Command, Placed, read_words, sayable, write_commands, write_placed};
use grid_units::Fail;
use std::alloc::Global;

/// The commands of a text, without their places.
fn commands_of(alloc: Global, text: &[u8]) -> Result<Vec<Command>, Fail> {
    let mut commands = Vec::new(alloc);
    for placed in read_words(alloc, text)? {
        let Placed { what, .. } = placed;
        commands.push(what)?;
    }
    Ok(commands)
}

/// A text with all 20 kinds of commands of the strict profile, in various spellings.
const ALL_KINDS: &[u8] =
    b"G04 all*%FSLAX24Y24*%%MOMM*%%TF.Part,Single*%%TD.Part*%%AMbox*21,1,$1,$2,0,0,0*%%ADD010C,.0500*%%ADD11box,1X2*%G75*G01X+01000Y0D2*G36*G37*D10*%LPD*%%LMX*%%LR90.0*%%LS1.00*%%SRX02Y1I5.0J-0*%X2000D1*%SR*%M2*";

/// The canonical text of the same commands.
const CANONICAL: &[u8] =
    b"G04 all*\n%FSLAX24Y24*%\n%MOMM*%\n%TF.Part,Single*%\n%TD.Part*%\n%AMbox*\n21,1,$1,$2,0,0,0*%\n%ADD10C,0.05*%\n%ADD11box,1X2*%\nG75*\nG01*\nX1000Y0D02*\nG36*\nG37*\nD10*\n%LPD*%\n%LMX*%\n%LR90*%\n%LS1*%\n%SRX2Y1I5J0*%\nX2000D01*\n%SR*%\nM02*\n";

/// Texts, and their canonical spelling.
const REWRITTEN: [(&[u8], &[u8]); 8] = [
    (ALL_KINDS, CANONICAL),
    (CANONICAL, CANONICAL),
    (LAYER, LAYER),
    (
        b"X1Y1D02*X2D01*Y3*I5*X4J6*M02*",
        b"X1Y1D02*\nX2D01*\nY3D01*\nI5D01*\nX4J6D01*\nM02*\n",
    ),
    (
        b"G04 old*G70*%FSLAX24Y24*%%OFA0B0*%%ADD010C,.0500*%G54D10*G1X+01000Y0D2*X2000D1*Y-500*D3*M2*",
        b"G04 old*\n%MOIN*%\n%FSLAX24Y24*%\n%ADD10C,0.05*%\nD10*\nG01*\nX1000Y0D02*\nX2000D01*\nY-500D01*\nD03*\nM02*\n",
    ),
    (
        b"G04 old*\n%MOIN*%\n%FSLAX24Y24*%\n%ADD10C,0.05*%\nD10*\nG01*\nX1000Y0D02*\nX2000D01*\nY-500D01*\nD03*\nM02*\n",
        b"G04 old*\n%MOIN*%\n%FSLAX24Y24*%\n%ADD10C,0.05*%\nD10*\nG01*\nX1000Y0D02*\nX2000D01*\nY-500D01*\nD03*\nM02*\n",
    ),
    (
        b"G04 n*%FSLAX24Y24*%%MOIN*%%ADD010C,.0500*%D10*X+01000Y0D2*Y-500D1*D3*M2*",
        b"G04 n*\n%FSLAX24Y24*%\n%MOIN*%\n%ADD10C,0.05*%\nD10*\nX1000Y0D02*\nY-500D01*\nD03*\nM02*\n",
    ),
    (
        b"%AMa*1,1,$1*\n*%%ADD11a,1X2*%%ADD12a*%%ADD13P,2.50X06X-0*%%SRX02Y1I.5J0*%%SR*%%LMXY*%%LR-90.*%%LS1*%%TF.Part,Single*%%TD*%I5J-6D1*M02*",
        b"%AMa*\n1,1,$1*\n*%\n%ADD11a,1X2*%\n%ADD12a*%\n%ADD13P,2.5X6X0*%\n%SRX2Y1I0.5J0*%\n%SR*%\n%LMXY*%\n%LR-90*%\n%LS1*%\n%TF.Part,Single*%\n%TD*%\nI5J-6D01*\nM02*\n",
    ),
];

/// Whether just this text was written.
fn is_text(written: Result<Vec<u8>, Fail>, text: &[u8]) -> bool {
    match written {
        Ok(bytes) => bytes.as_slice() == text,
        Err(_) => false,
    }
}

/// Whether the commands of a text are written as this one, given without their places.
fn is_rewritten(alloc: Global, text: &[u8], canonical: &[u8]) -> bool {
    match commands_of(alloc, text) {
        Ok(commands) => is_text(write_commands(alloc, &commands), canonical),
        Err(_) => false,
    }
}

/// Whether the commands of a text are written as this one, given with their places.
fn is_rewritten_placed(alloc: Global, text: &[u8], canonical: &[u8]) -> bool {
    match read_words(alloc, text) {
        Ok(commands) => is_text(write_placed(alloc, &commands), canonical),
        Err(_) => false,
    }
}

#[test]
fn texts_rewritten(rt: HostRuntime) {
    let alloc = rt.alloc();
    let rows = &REWRITTEN;
    for (i, &(text, canonical)) in rows.iter().enumerate() {
        assert!(rt;
            is_rewritten(alloc, text, canonical)
                && is_rewritten_placed(alloc, text, canonical)
                && is_same_in_pieces(alloc, text),
            "of row {i}"
        );
    }
}

/// Texts, and how many commands they spell.
const COUNTS: [(&[u8], usize); 5] = [
    (ALL_KINDS, 22),
    (CANONICAL, 22),
    (LAYER, 6),
    // A file function without a value.
    (
        b"%TF.FileFunction*%\n%FSLAX46Y46*%\n%MOMM*%\n%ADD10C,0.65*%\nD10*\nX0Y0D03*\nM02*\n",
        7,
    ),
    // Older parameters without effect.
    (
        b"%FSLAX46Y46*%\n%MOMM*%\n%OFA0*%%SFA1B1*%%IR0.0*%%IPPOS*%%INname*%%ADD10C,0.65*%\nD10*\nX0Y0D03*\nM02*\n",
        6,
    ),
];

/// Whether a text spells so many commands, whole and in pieces, and their list is sayable.
fn spells(alloc: Global, text: &[u8], count: usize) -> bool {
    match commands_of(alloc, text) {
        Ok(commands) => {
            commands.len() == count && sayable(&commands) && is_same_in_pieces(alloc, text)
        }
        Err(_) => false,
    }
}

#[test]
fn texts_spell_sayable_lists(rt: HostRuntime) {
    let rows = &COUNTS;
    for (i, &(text, count)) in rows.iter().enumerate() {
        assert!(rt; spells(rt.alloc(), text, count), "of row {i}");
    }
}

#[test]
fn laws_of_sayable_texts(rt: HostRuntime) {
    sayable_texts();
    assert!(rt; spells(rt.alloc(), b"M02*\n", 1));
}
