use gerber_text::{Command, Placed, WordReader, write_placed};
use grid_units::Reason::*;
use grid_units::{Fail, Fault, Profile, Reason};
use std::alloc::Global;

/// Reads a text in pieces of this many bytes.
fn read(
    alloc: Global,
    profile: Profile,
    text: &[u8],
    size: usize,
) -> Result<Vec<Placed<Command>>, Fail> {
    let mut reader = WordReader::in_profile(alloc, profile);
    for piece in text.chunks(size.max(1)) {
        reader.feed(piece)?;
    }
    reader.finish()
}

/// Whether the commands that are clear polarity have just these places and bytes.
fn are_clear(commands: &[Placed<Command>], wanted: &[(u64, u64)]) -> bool {
    let mut wanted = wanted.iter();
    for command in commands {
        let is_clear = matches!(command.what, Command::Clear);
        if is_clear && wanted.next() != Some(&(command.place, command.byte)) {
            return false;
        }
    }
    wanted.next().is_none()
}

/// Whether a text in pieces of this many bytes has so many commands in the wide profile, those at these places and bytes clear
/// polarity.
fn reads_so(alloc: Global, text: &[u8], size: usize, count: usize, wanted: &[(u64, u64)]) -> bool {
    match read(alloc, Profile::Wide, text, size) {
        Ok(commands) => commands.len() == count && are_clear(&commands, wanted),
        Err(_) => false,
    }
}

/// Whether a text has this fault in a profile, whole and in pieces.
fn refuses(alloc: Global, profile: Profile, text: &[u8], fault: Fault) -> bool {
    for size in [1_000, 7, 1] {
        if read(alloc, profile, text, size).err() != Some(Fail::Refused(fault)) {
            return false;
        }
    }
    true
}

/// Texts of the wide profile, how many commands each has, and the places and bytes of those that are clear polarity. The strict
/// profile refuses each at the first of these.
const CLEAR: [(&[u8], usize, &[(u64, u64)]); 5] = [
    (b"%LPC*%\nM02*\n", 2, &[(1, 0)]),
    (
        b"%FSLAX46Y46*%\n%MOMM*%\n%ADD10C,0.65*%\nD10*\n%LPC*%\nX0Y0D03*\nM02*\n",
        7,
        &[(5, 42)],
    ),
    // In a region: the rules of a layer refuse that, the reader of its text does not.
    (
        b"G36*\n%LPC*%\nX0Y0D02*\nX5D01*\nG37*\nM02*\n",
        6,
        &[(2, 5)],
    ),
    (b"%LPC*%%LPD*%%LPC*%M2*", 4, &[(1, 0), (3, 12)]),
    // CR and LF are dropped wherever they stand.
    (b"G75*%L\r\nPC*\n%M02*", 3, &[(2, 4)]),
];

#[test]
fn clear_polarity_in_the_wide_profile(rt: HostRuntime) {
    for (i, &(text, count, at)) in CLEAR.iter().enumerate() {
        for size in [1_000, 7, 1] {
            assert!(rt; reads_so(rt.alloc(), text, size, count, at), "of row {i}");
        }
    }
}

#[test]
fn clear_polarity_in_the_strict_profile(rt: HostRuntime) {
    for (i, &(text, _, at)) in CLEAR.iter().enumerate() {
        let fault = Fault {
            place: at[0].0,
            byte: at[0].1,
            reason: ClearPolarity,
        };
        assert!(rt;
            refuses(rt.alloc(), Profile::Strict, text, fault),
            "of row {i}"
        );
    }
}

/// Texts that the wide profile refuses, each with the place and the byte of its fault.
const REFUSED: [(&[u8], u64, u64, Reason); 9] = [
    (b"%LPD*IPNEG*AMX*%M02*", 1, 0, NegativeImage),
    (b"%LPC%M02*", 1, 0, BadWord),
    (b"%LPC**%M02*", 1, 0, BadWord),
    (b"%LPCX*%M02*", 1, 0, BadWord),
    (b"%LP*%M02*", 1, 0, BadWord),
    (b"LPC*M02*", 1, 0, BadWord),
    (b"%IPNEG*%M02*", 1, 0, NegativeImage),
    (b"%LPC*%\n", 2, 7, Truncated),
    (b"M02*\n%LPC*%", 2, 5, AfterEnd),
];

#[test]
fn refused_in_the_wide_profile(rt: HostRuntime) {
    for (i, &(text, place, byte, reason)) in REFUSED.iter().enumerate() {
        let fault = Fault {
            place,
            byte,
            reason,
        };
        assert!(rt;
            refuses(rt.alloc(), Profile::Wide, text, fault),
            "of row {i}"
        );
    }
}

/// The canonical text of the commands of a text in a profile.
fn rewritten(alloc: Global, profile: Profile, text: &[u8]) -> Result<Vec<u8>, Fail> {
    write_placed(alloc, &read(alloc, profile, text, 1_000)?)
}

/// Whether the canonical text of the commands of a text in a profile is this.
fn is_rewritten(alloc: Global, profile: Profile, text: &[u8], wanted: &[u8]) -> bool {
    match rewritten(alloc, profile, text) {
        Ok(new) => new.as_slice() == wanted,
        Err(_) => false,
    }
}

/// A text of the strict profile has the same commands in both; clear polarity is written as it is read, and what is repeated with its D code.
#[test]
fn commands_of_both_profiles(rt: HostRuntime) {
    let text = b"G04 a*%FSLAX24Y24*%%MOMM*%%ADD010C,.05*%G75*G01X+01000Y0D2*D10*%LPD*%%LR90.0*%M2*";
    let lines =
        b"G04 a*\n%FSLAX24Y24*%\n%MOMM*%\n%ADD10C,0.05*%\nG75*\nG01*\nX1000Y0D02*\nD10*\n%LPD*%\n%LR90*%\nM02*\n";
    for profile in [Profile::Strict, Profile::Wide] {
        assert!(rt; is_rewritten(rt.alloc(), profile, text, lines));
    }
    let text = b"%LPC*%%LPD*%X1Y1D3*X2*X3D2*Y3*M2*";
    let lines = b"%LPC*%\n%LPD*%\nX1Y1D03*\nX2D03*\nX3D02*\nY3D02*\nM02*\n";
    assert!(rt; is_rewritten(rt.alloc(), Profile::Wide, text, lines));
}

/// Several pieces in one pair of `%` spell what each spells alone, at the place and the byte of the item.
#[test]
fn several_pieces(rt: HostRuntime) {
    let text =
        b"%FSLAX24Y24*MOIN*ICAS*%%AMT*1,1,1,0,0*%%IPPOS*ADD10T*LNa*ADD11C,0.5*SRX2Y1I5J0*%D10*%SR*LPC*%M2*";
    let lines =
        b"%FSLAX24Y24*%\n%MOIN*%\n%AMT*\n1,1,1,0,0*%\n%ADD10T*%\n%ADD11C,0.5*%\n%SRX2Y1I5J0*%\nD10*\n%SR*%\n%LPC*%\nM02*\n";
    assert!(rt; is_rewritten(rt.alloc(), Profile::Wide, text, lines));
    assert!(rt; reads_so(rt.alloc(), b"G75*%LPC*LPD*LPC*%M02*", 7, 5, &[(2, 4); 2]));
}
