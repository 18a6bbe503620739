//! Layers that are read, and why others are refused.

use crate::texts::{LAYER, expected_fault, joined, layer_in_pieces};
use grid_units::Reason::*;
use grid_units::{Fail, Point, Profile, Reason};
use layer_image::{Flash, Keep, Layer, LayerReader, What, Why, read_layer};
use pad_shapes::{Disc, Obround, Pad, Rect};
use std::alloc::Global;

const FORMAT: &[u8] = b"%FSLAX46Y46*%\n";

const UNIT: &[u8] = b"%MOMM*%\n";

const APERTURE: &[u8] = b"%ADD10C,0.65*%\n";

const SELECTION: &[u8] = b"D10*\n";

const FLASH: &[u8] = b"X0Y0D03*\n";

const END: &[u8] = b"M02*\n";

/// The lines of the layer. Its items begin at the bytes 0, 14, 22, 37, 42 and 51.
const LINES: [&[u8]; 6] = [FORMAT, UNIT, APERTURE, SELECTION, FLASH, END];

/// The layer with this text in place of one of its lines.
fn with(alloc: Global, place: usize, line: &[u8]) -> Option<Vec<u8>> {
    let mut text = Vec::new(alloc);
    for (i, &old) in LINES.iter().enumerate() {
        let line = if i + 1 == place { line } else { old };
        text.extend_from_slice(line).ok()?;
    }
    Some(text)
}

/// The first bytes of a text, at most so many.
fn front(text: &[u8], count: usize) -> &[u8] {
    &text[..count.min(text.len())]
}

/// The fault of a text, if it has one.
fn fault_of(alloc: Global, text: &[u8]) -> Option<Fail> {
    match read_layer(alloc, text) {
        Ok(_) => None,
        Err(fail) => Some(fail),
    }
}

/// How many flashes and pads a text has.
fn counts(alloc: Global, text: &[u8]) -> Option<(usize, usize)> {
    match read_layer(alloc, text) {
        Ok(layer) => Some((layer.flashes().len(), layer.pads().len())),
        Err(_) => None,
    }
}

/// The number of flashes and of pads of a text, or the place, the byte and the reason of its fault.
type Outcome = Result<(usize, usize), (u64, u64, Reason)>;

/// Whether a text is there and has this outcome.
fn has_outcome(alloc: Global, text: Option<Vec<u8>>, expected: Outcome) -> bool {
    match (text, expected) {
        (Some(text), Ok(expected)) => counts(alloc, &text) == Some(expected),
        (Some(text), Err(fault)) => fault_of(alloc, &text) == expected_fault(Some(fault)),
        (None, _) => false,
    }
}

/// The number of a line of the layer, the text in its place, and the outcome.
const REPLACED: [(usize, &[u8], Outcome); 44] = [
    // Bytes after the end, and a coordinate without a D code.
    (6, b"X6*\nM02*\n", Err((6, 51, BareCoordinate))),
    (6, b"M02*\nX0D03*\n", Err((7, 56, AfterEnd))),
    (6, b"M02*\n*  ", Ok((1, 1))),
    // Lengths that are too long or too fine.
    (5, b"X10000000000Y0D03*\n", Err((5, 42, TooManyDigits))),
    (3, b"%ADD10C,0.123456789*%\n", Err((3, 22, TooFine))),
    (3, b"%ADD10C,10001*%\n", Err((5, 43, TooFar))),
    // Items that are refused, and rules that are broken.
    (4, b"D11*\n", Err((4, 37, UnknownAperture))),
    (5, b"%LPC*%\nX0Y0D03*\n", Err((5, 42, ClearPolarity))),
    // Step and repeat blocks.
    (5, b"%SRX0Y1I0J0*%\nX0Y0D03*\n", Err((5, 42, BadRepeat))),
    (5, b"%SRX2Y1I-1J0*%\nX0Y0D03*\n", Err((5, 42, BadRepeat))),
    (5, b"%SRX10001Y1I0J0*%\n", Err((5, 42, BadRepeat))),
    (
        5,
        b"%SRX2147483647Y1I1J0*%\nX0Y0D03*\n",
        Err((5, 42, BadRepeat)),
    ),
    (
        5,
        b"%SRX2147483648Y1I1J0*%\nX0Y0D03*\n",
        Err((5, 42, BadNumber)),
    ),
    (
        5,
        b"%SRX10000Y10000I1J1*%\nX0Y0D03*\n",
        Err((6, 64, TooManyPads)),
    ),
    (5, b"%SRX2Y1I999999J0*%\nX0Y0D03*\n", Err((6, 61, TooFar))),
    (5, b"%SRX1Y1I999999J999999*%\nX0Y0D03*\n", Ok((1, 1))),
    (5, b"%SRX10000Y1I0J0*%\nX0Y0D03*\n", Ok((10_000, 10_000))),
    // Rules that are broken.
    (5, b"G36*\nX0Y0D03*\n", Err((6, 47, InRegion))),
    (6, b"G36*\nM02*\n", Err((7, 56, InRegion))),
    (6, b"G36*\nG36*\n", Err((7, 56, InRegion))),
    (6, b"G36*\n%TAa*%\n", Err((7, 56, InRegion))),
    (6, b"G36*\n%TD*%\n", Err((7, 56, InRegion))),
    (6, b"G36*\nX10000000000D03*\n", Err((7, 56, InRegion))),
    (5, b"G37*\n", Err((5, 42, NotInRegion))),
    (5, b"%MOIN*%\n", Err((5, 42, UnitConflict))),
    (5, b"%FSLAX24Y24*%\n", Err((5, 42, FormatConflict))),
    (5, b"%ADD10C,1*%\n", Err((5, 42, Redefined))),
    (5, b"%AMa*%\n%AMa*%\n", Err((6, 49, Redefined))),
    (5, b"%ADD11a*%\n", Err((5, 42, UnknownMacro))),
    (5, b"%ADD11C0.5*%\n", Err((5, 42, UnknownMacro))),
    (4, b"X0Y0D03*\n", Err((4, 37, NoAperture))),
    (4, b"X0Y0D01*\n", Err((4, 37, NoAperture))),
    (3, b"%ADD10C,-1*%\n", Err((3, 22, BadSize))),
    (3, b"%ADD10R,1X0*%\n", Err((3, 22, BadSize))),
    (3, b"%ADD10P,1X13*%\n", Err((3, 22, BadSize))),
    (5, b"%LS0*%\n", Err((5, 42, BadSize))),
    // Layers that break no rule.
    (5, b"X0Y0D03*\n%MOMM*%\n%FSLAX46Y46*%\n", Ok((1, 1))),
    (
        5,
        b"G36*\n*G90*%IPPOS*%G04 a*X0Y0D02*G75*G03X1I1J1D01*G37*\n",
        Ok((0, 0)),
    ),
    (3, b"%ADD10C,0*%\n", Ok((1, 1))),
    (3, b"%ADD10C,10001X0.1*%\n", Ok((1, 0))),
    (3, b"%LS2*%\n%ADD10C,10001*%\n", Ok((1, 0))),
    (3, b"%ADD10C,1*%\n%ADD11C,10001*%\n", Ok((1, 1))),
    (3, b"%ADD10P,1X12*%\n", Ok((1, 0))),
    (3, b"%AMa*%\n%ADD11a*%\n%ADD10C,1*%\n", Ok((1, 1))),
];

#[test]
fn lines_replaced(rt: HostRuntime) {
    let alloc = rt.alloc();
    let rows = &REPLACED;
    for (i, &(place, line, expected)) in rows.iter().enumerate() {
        assert!(rt;
            has_outcome(alloc, with(alloc, place, line), expected),
            "of row {i}"
        );
    }
}

/// A block with as many flashes as a layer may have, and one with one flash more.
const FULL: [(usize, &[u8], Outcome); 2] = [
    (
        5,
        b"%SRX2048Y2048I0J0*%\nX0Y0D03*\n",
        Ok((4_194_304, 4_194_304)),
    ),
    (
        5,
        b"%SRX2048Y2048I0J0*%\nX0Y0D03*\n%SR*%\nD03*\n",
        Err((8, 77, TooManyPads)),
    ),
];

#[test]
fn as_many_flashes_as_the_limit(rt: HostRuntime) {
    let alloc = rt.alloc();
    let rows = &FULL;
    for (i, &(place, line, expected)) in rows.iter().enumerate() {
        assert!(rt;
            has_outcome(alloc, with(alloc, place, line), expected),
            "of row {i}"
        );
    }
}

/// Layers by their lines, and their outcomes.
const LAYERS: [(&[&[u8]], Outcome); 6] = [
    (&[b"M02*"], Err((1, 0, NoFormat))),
    (&[FORMAT, UNIT, END], Ok((0, 0))),
    (&[FORMAT, b"X0D02*\n", UNIT], Err((2, 14, NoUnit))),
    (
        &[
            FORMAT,
            b"%MOIN*%\n",
            APERTURE,
            SELECTION,
            b"X393800000Y0D03*\n",
            END,
        ],
        Err((5, 42, TooFar)),
    ),
    (
        &[
            FORMAT,
            b"%MOIN*%\n",
            APERTURE,
            SELECTION,
            b"X393700000Y0D03*\n",
            END,
        ],
        Ok((1, 1)),
    ),
    (
        &[FORMAT, UNIT, APERTURE, b"D11*\n", b"%LPC*%\n", FLASH, END],
        Err((4, 37, UnknownAperture)),
    ),
];

#[test]
fn layers_of_other_lines(rt: HostRuntime) {
    let alloc = rt.alloc();
    let rows = &LAYERS;
    for (i, &(lines, expected)) in rows.iter().enumerate() {
        assert!(rt;
            has_outcome(alloc, joined(alloc, lines), expected),
            "of row {i}"
        );
    }
}

/// Whether each prefix of the layer below so many bytes is truncated.
fn are_truncated(alloc: Global, count: usize) -> bool {
    for n in 0..count {
        match fault_of(alloc, front(LAYER, n)) {
            Some(Fail::Refused(fault)) if fault.reason == Truncated => {}
            _ => return false,
        }
    }
    true
}

#[test]
fn cut_layers_are_truncated(rt: HostRuntime) {
    let alloc = rt.alloc();
    for &(count, fault) in &[
        (51, Some((6, 51, Truncated))),
        (33, Some((3, 22, Truncated))),
        (0, Some((1, 0, Truncated))),
        (21, Some((3, 21, Truncated))),
        (22, Some((3, 22, Truncated))),
        (23, Some((3, 22, Truncated))),
        (55, None),
    ] {
        let found = fault_of(alloc, front(LAYER, count));
        assert!(rt; found == expected_fault(fault), "of {count}");
    }
    assert!(rt; are_truncated(alloc, 55));
}

/// A flash of a disc with its point and its radius, all in pm.
fn disc(x: i64, y: i64, radius: i64) -> Option<Flash> {
    let at = Point::new(x, y)?;
    let disc = Disc::new(at, radius)?;
    Some(Flash {
        at,
        what: What::Pad(Pad::Disc(disc)),
    })
}

/// Whether flashes are these discs.
fn are_discs(flashes: &[Flash], discs: &[(i64, i64, i64)]) -> bool {
    flashes.len() == discs.len()
        && flashes
            .iter()
            .zip(discs)
            .all(|(flash, d)| disc(d.0, d.1, d.2) == Some(*flash))
}

/// Whether the flashes of a text are these discs, and all of them are pads.
fn has_discs(alloc: Global, text: &[u8], discs: &[(i64, i64, i64)]) -> bool {
    match read_layer(alloc, text) {
        Ok(layer) => are_discs(layer.flashes(), discs) && layer.pads().len() == discs.len(),
        Err(_) => false,
    }
}

/// Whether the flashes of the layer, with a text in place of one of its lines, are these discs.
fn has_discs_with(alloc: Global, place: usize, line: &[u8], discs: &[(i64, i64, i64)]) -> bool {
    match with(alloc, place, line) {
        Some(text) => has_discs(alloc, &text, discs),
        None => false,
    }
}

/// The flash of the layer: a disc of 0.65 mm at the origin.
const ONE: &[(i64, i64, i64)] = &[(0, 0, 325_000_000)];

/// Two flashes, the second with the Y of the first.
const KEPT: &[(i64, i64, i64)] = &[
    (1_000_000_000, 2_000_000_000, 325_000_000),
    (3_000_000_000, 2_000_000_000, 325_000_000),
];

/// The copies of a block of two columns.
const TWO: &[(i64, i64, i64)] = &[(0, 0, 325_000_000), (5_000_000_000, 0, 325_000_000)];

/// The copies of a block of three columns and two rows.
const SIX: &[(i64, i64, i64)] = &[
    (0, 0, 325_000_000),
    (0, 2_000_000_000, 325_000_000),
    (1_000_000_000, 0, 325_000_000),
    (1_000_000_000, 2_000_000_000, 325_000_000),
    (2_000_000_000, 0, 325_000_000),
    (2_000_000_000, 2_000_000_000, 325_000_000),
];

/// The number of a line of the layer, the text in its place, and the discs that are then flashed.
const FLASHED: [(usize, &[u8], &[(i64, i64, i64)]); 8] = [
    (5, b"X1000000Y2000000D02*\nD03*\nX3000000D03*\n", KEPT),
    (
        5,
        b"X1000000Y2000000D02*\nD03*\nX3000000D03*\nG01X1000000D01*\nX0*\n",
        KEPT,
    ),
    (3, b"%ADD10C,0.65X0*%\n", ONE),
    (5, b"%SRX3Y2I1J2*%\nX0Y0D03*\n", SIX),
    (5, b"%SRX2Y1I5.0J0*%\nX0Y0D03*\n%SR*%\n", TWO),
    (5, b"%SRX2Y1I5.0J0*%\nX0Y0D03*\n", TWO),
    (5, b"%SR*%\nX0Y0D03*\n", ONE),
    (5, b"%SRX2Y1I5J0*%\n%SRX1Y1I0J0*%\nX0Y0D03*\n", ONE),
];

#[test]
fn discs_that_are_flashed(rt: HostRuntime) {
    let rows = &FLASHED;
    for (i, &(place, line, discs)) in rows.iter().enumerate() {
        assert!(rt;
            has_discs_with(rt.alloc(), place, line, discs),
            "of row {i}"
        );
    }
    let inches = b"%FSLAX24Y24*%\n%MOIN*%\n%ADD10C,0.0256*%\nD10*\nX1000Y0D03*\nM02*\n";
    assert!(rt; has_discs(rt.alloc(), inches, &[(2_540_000_000, 0, 325_120_000)]));
}

/// What a flash at the origin is: no pad, or a pad with half of its sides in pm.
#[derive(Clone, Copy)]
enum Left {
    Other(Why),
    Rect(i64, i64),
    Obround(i64, i64),
}

/// What such a flash is, as a layer has it.
fn what(left: Left) -> Option<What> {
    let at = Point::new(0, 0)?;
    match left {
        Left::Other(why) => Some(What::Other(why)),
        Left::Rect(half_x, half_y) => Some(What::Pad(Pad::Rect(Rect::new(at, half_x, half_y)?))),
        Left::Obround(half_x, half_y) => {
            Some(What::Pad(Pad::Obround(Obround::new(at, half_x, half_y)?)))
        }
    }
}

/// What the only flash of a text is, if it has just one.
fn left_by(alloc: Global, text: &[u8]) -> Option<What> {
    match read_layer(alloc, text) {
        Ok(layer) => match layer.flashes() {
            [flash] => Some(flash.what),
            _ => None,
        },
        Err(_) => None,
    }
}

/// Whether the layer, with a text in place of one of its lines, has just one flash, which is this.
fn leaves(alloc: Global, place: usize, line: &[u8], left: Left) -> bool {
    match (with(alloc, place, line), what(left)) {
        (Some(text), Some(what)) => left_by(alloc, &text) == Some(what),
        _ => false,
    }
}

/// The number of a line of the layer, the text in its place, and what the flash then is.
const LEFT: [(usize, &[u8], Left); 12] = [
    (3, b"%ADD10C,0.65X0.2*%\n", Left::Other(Why::Holed)),
    (3, b"%ADD10P,1X6*%\n", Left::Other(Why::Polygon)),
    (3, b"%ADD10P,1X6X0X0.2*%\n", Left::Other(Why::Polygon)),
    (5, b"%LS2*%\nX0Y0D03*\n", Left::Other(Why::Scaled)),
    (5, b"%LR45*%\nX0Y0D03*\n", Left::Other(Why::Turned)),
    (5, b"%LR90.00000001*%\nX0Y0D03*\n", Left::Other(Why::Turned)),
    (
        3,
        b"%AMa*21,1,1,1,0,0,0*%\n%ADD10a*%\n",
        Left::Other(Why::Macro),
    ),
    (
        3,
        b"%LS2*%\n%LR45*%\n%ADD10R,1X1X0.5*%\n",
        Left::Other(Why::Holed),
    ),
    (
        3,
        b"%LR-90*%\n%ADD10R,2X0.7*%\n",
        Left::Rect(350_000_000, 1_000_000_000),
    ),
    (
        3,
        b"%LR90*%\n%ADD10R,2X0.7*%\n",
        Left::Rect(350_000_000, 1_000_000_000),
    ),
    (
        3,
        b"%LR180*%\n%ADD10R,2X0.7*%\n",
        Left::Rect(1_000_000_000, 350_000_000),
    ),
    (
        3,
        b"%LR270*%\n%LMXY*%\n%ADD10O,2X1*%\n",
        Left::Obround(500_000_000, 1_000_000_000),
    ),
];

#[test]
fn what_flashes_leave(rt: HostRuntime) {
    let rows = &LEFT;
    for (i, &(place, line, left)) in rows.iter().enumerate() {
        assert!(rt; leaves(rt.alloc(), place, line, left), "of row {i}");
    }
}

/// Lines before the layer, and the file functions that they give.
const FILE_FUNCTIONS: [(&[u8], Option<&[u8]>); 9] = [
    (
        b"%TF.FileFunction,Copper,L1,Top*%\n",
        Some(b"Copper,L1,Top"),
    ),
    (
        b"G04 #@! TF.FileFunction,Copper,L1,Top*\n",
        Some(b"Copper,L1,Top"),
    ),
    (
        b"G04   #@! TF.FileFunction,Soldermask*\n",
        Some(b"Soldermask"),
    ),
    (b"%TF.FileFunction*%\n", Some(b"")),
    (b"%TF.FileFunctions,Legend*%\n", None),
    (b"%TA.FileFunction,Copper*%\n", None),
    (b"G04\t#@! TF.FileFunction,Copper*\n", None),
    (
        b"%TF.FileFunction,Soldermask*%\nG04 #@! TF.FileFunction,Copper*\n",
        Some(b"Copper"),
    ),
    (
        b"%TF.FileFunction,Copper*%\n%TD.FileFunction*%\n",
        Some(b"Copper"),
    ),
];

/// Whether a text has this file function, or none.
fn has_function(alloc: Global, text: &[u8], expected: Option<&[u8]>) -> bool {
    match read_layer(alloc, text) {
        Ok(layer) => layer.file_function() == expected,
        Err(_) => false,
    }
}

/// Whether a layer that begins with this line has this file function, or none.
fn has_function_with(alloc: Global, line: &[u8], expected: Option<&[u8]>) -> bool {
    match joined(alloc, &[line, LAYER.as_slice()]) {
        Some(text) => has_function(alloc, &text, expected),
        None => false,
    }
}

#[test]
fn file_functions(rt: HostRuntime) {
    let rows = &FILE_FUNCTIONS;
    for (i, &(line, expected)) in rows.iter().enumerate() {
        assert!(rt; has_function_with(rt.alloc(), line, expected), "of row {i}");
    }
}

/// Whether a layer has so many commands, the flash and pad of the first layer, no other flash, and no file function.
fn is_first_layer(layer: Result<Layer, Fail>, commands: usize) -> bool {
    match layer {
        Ok(layer) => {
            layer.commands().len() == commands
                && are_discs(layer.flashes(), ONE)
                && layer.pads().len() == 1
                && layer.counts().other == 0
                && layer.file_function().is_none()
                && layer.pads().len() == 1
        }
        Err(_) => false,
    }
}

/// Whether a reader takes a text byte by byte.
fn takes_bytes(reader: &mut LayerReader, text: &[u8]) -> bool {
    for i in 0..text.len() {
        if reader.feed(&text[i..i + 1]).is_err() {
            return false;
        }
    }
    true
}

/// Whether a reader takes the layer in two pieces.
fn takes_both(reader: &mut LayerReader) -> bool {
    let layer = LAYER.as_slice();
    reader.feed(&layer[..30]).is_ok() && reader.feed(&layer[30..]).is_ok()
}

#[test]
fn a_layer_whole_and_in_pieces(rt: HostRuntime) {
    let alloc = rt.alloc();
    assert!(rt; is_first_layer(read_layer(alloc, LAYER), 6));
    let mut halves = LayerReader::new(alloc);
    assert!(rt; takes_both(&mut halves));
    assert!(rt; is_first_layer(halves.finish(), 6));
    let mut bytes = LayerReader::new(alloc);
    assert!(rt; takes_bytes(&mut bytes, LAYER));
    assert!(rt; is_first_layer(bytes.finish(), 6));
}

/// A text of a beginning, a comment of a million letters, and the rest.
fn commented(alloc: Global, front: &[u8], back: &[u8]) -> Option<Vec<u8>> {
    match vec![in alloc; b'a'; 1_000_000] {
        Ok(letters) => joined(alloc, &[front, b"G04", letters.as_slice(), b"*\n", back]),
        Err(_) => None,
    }
}

/// Whether a reader takes the layer byte by byte, with a long comment before its third line.
fn takes_commented(alloc: Global, reader: &mut LayerReader) -> bool {
    let layer = LAYER.as_slice();
    match commented(alloc, &layer[..22], &layer[22..]) {
        Some(text) => takes_bytes(reader, &text),
        None => false,
    }
}

#[test]
fn a_long_comment_byte_by_byte(rt: HostRuntime) {
    let mut reader = LayerReader::new(rt.alloc());
    assert!(rt; takes_commented(rt.alloc(), &mut reader));
    assert!(rt; is_first_layer(reader.finish(), 7));
}

/// The layer with the selection of an aperture that is not defined.
const UNKNOWN: &[u8] = b"%FSLAX46Y46*%\n%MOMM*%\n%ADD10C,0.65*%\nD11*\nX0Y0D03*\nM02*\n";

/// That layer with `LPC` in a later item, which is refused as well.
const TWO_FAULTS: &[u8] = b"%FSLAX46Y46*%\n%MOMM*%\n%ADD10C,0.65*%\nD11*\n%LPC*%\nX0Y0D03*\nM02*\n";

/// The failure of both texts, at their fourth item.
fn unknown_aperture() -> Option<Fail> {
    expected_fault(Some((4, 37, UnknownAperture)))
}

/// The offset of the first byte of a text that a reader refuses.
fn refused_at(reader: &mut LayerReader, text: &[u8]) -> Option<usize> {
    for i in 0..text.len() {
        if reader.feed(&text[i..i + 1]).is_err() {
            return Some(i);
        }
    }
    None
}

/// Whether a reader gives this failure at each byte of a text, and at its end.
fn refuses_each(mut reader: LayerReader, text: &[u8], fail: Option<Fail>) -> bool {
    for i in 0..text.len() {
        if reader.feed(&text[i..i + 1]).err() != fail {
            return false;
        }
    }
    reader.finish().err() == fail
}

#[test]
fn a_fault_and_what_follows_it(rt: HostRuntime) {
    let unknown = unknown_aperture();
    let mut reader = LayerReader::new(rt.alloc());
    assert!(rt; reader.feed(front(UNKNOWN, 42)).err() == unknown);
    assert!(rt; refuses_each(reader, UNKNOWN, unknown));
    let mut reader = LayerReader::new(rt.alloc());
    assert!(rt; refused_at(&mut reader, TWO_FAULTS) == Some(40));
    assert!(rt; reader.feed(b"").err() == unknown);
    assert!(rt; refuses_each(reader, TWO_FAULTS, unknown));
}

/// Whether a reader that keeps these parts gives this failure at each of two pieces, and at its end.
fn fails(alloc: Global, keep: Keep, pieces: (&[u8], &[u8]), fail: Option<Fail>) -> bool {
    let mut reader = LayerReader::in_profile(alloc, keep, Profile::Strict);
    let is_refused = reader.feed(pieces.0).err() == fail && reader.feed(pieces.1).err() == fail;
    reader.finish().err() == fail && is_refused
}

#[test]
fn an_early_rule_before_a_late_item_in_one_piece(rt: HostRuntime) {
    let unknown = unknown_aperture();
    for keep in [Keep::Layer, Keep::Rows, Keep::Pads] {
        assert!(rt; fails(rt.alloc(), keep, (TWO_FAULTS, b"M02*"), unknown));
    }
}

/// A file function, a second aperture, and its flashes in a block, turned by 45 degrees.
const TURNED: &[u8] =
    b"%TF.FileFunction,Copper,L1,Top*%\n%ADD11R,1X2*%\nX9Y9D03*\nD11*\n%SRX2Y3I5J1*%\n%LR45*%\nX0Y0D03*\n";

/// What is kept of the layer of a text that comes byte by byte.
fn kept_of_bytes(alloc: Global, keep: Keep, text: &[u8]) -> Result<Layer, Fail> {
    layer_in_pieces(alloc, keep, Profile::Strict, text, 1)
}

/// What is kept of the layer of a text that comes in two or three pieces.
fn kept_of_halves(alloc: Global, keep: Keep, text: &[u8]) -> Result<Layer, Fail> {
    layer_in_pieces(alloc, keep, Profile::Strict, text, text.len() / 2)
}

/// How many commands, flashes, pads and other flashes a reader of pads gives, and whether there is a file function.
fn sum_counts(alloc: Global, text: &[u8]) -> Option<([usize; 4], bool)> {
    match kept_of_bytes(alloc, Keep::Pads, text) {
        Ok(kept) => {
            let lists = [
                kept.commands().len(),
                kept.flashes().len(),
                kept.pads().len(),
                kept.counts().other,
            ];
            Some((lists, kept.file_function().is_some()))
        }
        Err(_) => None,
    }
}

/// How many flashes a text has that comes byte by byte.
fn flash_count(alloc: Global, text: &[u8]) -> Option<usize> {
    match kept_of_bytes(alloc, Keep::Rows, text) {
        Ok(kept) => Some(kept.features().len()),
        Err(_) => None,
    }
}

/// How many flashes of a text that comes in pieces are no pads.
fn other_count(alloc: Global, text: &[u8]) -> Option<usize> {
    match kept_of_halves(alloc, Keep::Rows, text) {
        Ok(kept) => Some(kept.counts().other),
        Err(_) => None,
    }
}

/// Whether each reader counts the turned flashes: one pad and six others.
fn are_turned_flashes_counted(alloc: Global) -> bool {
    match with(alloc, 5, TURNED) {
        Some(text) => {
            sum_counts(alloc, &text) == Some(([0, 0, 1, 6], true))
                && other_count(alloc, &text) == Some(6)
        }
        None => false,
    }
}

/// How many flashes a turned block of two columns and three rows has, read byte by byte.
fn copies(alloc: Global) -> Option<usize> {
    match with(alloc, 5, b"%SRX2Y3I5J1*%\n%LR45*%\nX0Y0D03*\n") {
        Some(text) => flash_count(alloc, &text),
        None => None,
    }
}

#[test]
fn sums_of_layers_in_pieces(rt: HostRuntime) {
    assert!(rt; sum_counts(rt.alloc(), LAYER) == Some(([0, 0, 1, 0], false)));
    assert!(rt; are_turned_flashes_counted(rt.alloc()));
}

#[test]
fn flashes_of_layers_in_pieces(rt: HostRuntime) {
    assert!(rt; copies(rt.alloc()) == Some(6));
    let refused = kept_of_halves(rt.alloc(), Keep::Rows, TWO_FAULTS);
    assert!(rt; refused.err() == unknown_aperture());
}
