//! The flashes and contours of layers in the wide profile, in whole texts and in pieces.

use crate::texts::layer_in_pieces;
use grid_units::{Fail, Profile, Reason};
use layer_image::{Feature, FeatureCounts, FeatureKind, Keep, Layer, LayerReader};
use pad_shapes::WidePad;
use std::alloc::Global;

/// What is written after the head of a layer, and a letter for each flash and contour in the order of the text: `p` a pad of a standard
/// aperture, `m` one of a macro, `c` a contour, `o` no pad, `l` a flash in clear polarity, `x` one that is cleared.
const LAYERS: [(&[u8], &[u8]); 25] = [
    // Apertures that are defined twice alike: a disc, and a macro.
    (
        b"%AMT*1,1,$1,0,0*%\n%ADD10C,0.65*%\n%ADD11T,1*%\n%ADD010C,.650*%\nD10*\nX0Y0D03*\n%ADD11T,1*%\nD11*\nX0Y0D03*\n",
        b"pm",
    ),
    // A rounded rectangle, which is no pad of a standard aperture.
    (
        b"%AMRoundRect*0 Rectangle with rounded corners*4,1,4,$2,$3,$4,$5,$6,$7,$8,$9,$2,$3,0*1,1,$1+$1,$2,$3*1,1,$1+$1,$4,$5*1,1,$1+$1,$6,$7*1,1,$1+$1,$8,$9*20,1,$1+$1,$2,$3,$4,$5,0*20,1,$1+$1,$4,$5,$6,$7,0*20,1,$1+$1,$6,$7,$8,$9,0*20,1,$1+$1,$8,$9,$2,$3,0*%\n%ADD10RoundRect,0.25X-0.25X0.25X-0.25X-0.25X0.25X-0.25X0.25X0.25X0*%\nD10*\nX0Y0D03*\n",
        b"m",
    ),
    // A contour.
    (
        b"G36*\nX-1000000Y-1000000D02*\nX1000000D01*\nY1000000D01*\nX-1000000D01*\nY-1000000D01*\nG37*\n",
        b"c",
    ),
    // Something clear before the flash takes nothing away.
    (
        b"%ADD10C,0.65*%\n%ADD11C,0.1*%\n%LPC*%\nD11*\nX5000000Y0D02*\nX6000000Y0D01*\n%LPD*%\nD10*\nX0Y0D03*\n",
        b"p",
    ),
    // Something clear after it does.
    (
        b"%ADD10C,0.65*%\n%ADD11C,0.1*%\nD10*\nX0Y0D03*\n%LPC*%\nD11*\nX5000000Y0D02*\nX6000000Y0D01*\n%LPD*%\n",
        b"x",
    ),
    // A move draws nothing.
    (
        b"%ADD10C,0.65*%\n%ADD11C,0.1*%\nD10*\nX0Y0D03*\n%LPC*%\nD11*\nX1Y1D02*\n",
        b"p",
    ),
    // A clear flash is none that counts, nor is the one before it.
    (
        b"%ADD10C,0.65*%\n%ADD11C,0.1*%\nD10*\nX0Y0D03*\n%LPC*%\nX1Y1D03*\n%LPD*%\nX0Y0D03*\n",
        b"xlp",
    ),
    // Polarity stays as it is until it is set again.
    (
        b"%ADD10C,0.65*%\n%ADD11C,0.1*%\n%LPC*%\nD10*\nX0Y0D03*\nX1Y1D03*\n",
        b"ll",
    ),
    // In a block of one copy nothing clear comes after the dark flash.
    (
        b"%ADD10C,0.65*%\n%ADD11C,0.1*%\n%SRX1Y1I5.0J0*%\n%LPC*%\nD11*\nX0Y0D03*\n%LPD*%\nD10*\nX0Y0D03*\n%SR*%\n",
        b"lp",
    ),
    // In one of two copies that of the second copy does.
    (
        b"%ADD10C,0.65*%\n%ADD11C,0.1*%\n%SRX2Y1I5.0J0*%\n%LPC*%\nD11*\nX0Y0D03*\n%LPD*%\nD10*\nX0Y0D03*\n%SR*%\n",
        b"llxx",
    ),
    // After such a block flashes count again.
    (
        b"%ADD10C,0.65*%\n%ADD11C,0.1*%\n%SRX2Y1I5.0J0*%\n%LPC*%\nD11*\nX0Y0D03*\n%LPD*%\nD10*\nX0Y0D03*\n%SR*%\nX9000000Y0D03*\n",
        b"llxxp",
    ),
    // So they do in the block after it.
    (
        b"%ADD10C,0.65*%\n%ADD11C,0.1*%\n%SRX2Y1I5.0J0*%\n%LPC*%\nD11*\nX0Y0D03*\n%LPD*%\n%SRX3Y1I5.0J0*%\nD10*\nX0Y0D03*\n%SR*%\n",
        b"llppp",
    ),
    // In a block of two copies all is taken away, after the clear flash too.
    (
        b"%ADD10C,0.65*%\n%ADD11C,0.1*%\n%SRX1Y2I0J5.0*%\nD10*\nX0Y0D03*\n%LPC*%\nD11*\nX0Y0D03*\n%LPD*%\nD10*\nX1Y1D03*\n%SR*%\n",
        b"xxllxx",
    ),
    // A contour is taken away as a flash is.
    (
        b"%ADD10C,0.65*%\n%ADD11C,0.1*%\nG36*\nX-1000000Y-1000000D02*\nX1000000D01*\nY1000000D01*\nX-1000000D01*\nY-1000000D01*\nG37*\n%LPC*%\nD11*\nX5000000Y0D02*\nX6000000Y0D01*\n%LPD*%\n",
        b"",
    ),
    // One after it counts.
    (
        b"%ADD10C,0.65*%\n%ADD11C,0.1*%\n%LPC*%\nD11*\nX5000000Y0D02*\nX6000000Y0D01*\n%LPD*%\nG36*\nX-1000000Y-1000000D02*\nX1000000D01*\nY1000000D01*\nX-1000000D01*\nY-1000000D01*\nG37*\n",
        b"c",
    ),
    // A clear region is no contour, and takes away what stands before it.
    (
        b"%ADD10C,0.65*%\n%ADD11C,0.1*%\nD10*\nX0Y0D03*\nG36*\nX-1000000Y-1000000D02*\nX1000000D01*\nY1000000D01*\nX-1000000D01*\nY-1000000D01*\nG37*\n%LPC*%\nG36*\nX-1000000Y-1000000D02*\nX1000000D01*\nY1000000D01*\nX-1000000D01*\nY-1000000D01*\nG37*\n%LPD*%\n",
        b"x",
    ),
    // A clear region without a plot takes nothing away.
    (
        b"%ADD10C,0.65*%\n%ADD11C,0.1*%\nD10*\nX0Y0D03*\n%LPC*%\nG36*\nX0Y0D02*\nG37*\n",
        b"p",
    ),
    // In a block of two copies with a clear flash no contour counts.
    (
        b"%ADD10C,0.65*%\n%ADD11C,0.1*%\n%SRX2Y1I5.0J0*%\n%LPC*%\nD11*\nX0Y0D03*\n%LPD*%\nG36*\nX-1000000Y-1000000D02*\nX1000000D01*\nY1000000D01*\nX-1000000D01*\nY-1000000D01*\nG37*\n%SR*%\n",
        b"ll",
    ),
    // A macro is taken away as well.
    (
        b"%AMT*4,1,3,0,0,3,0,0,2,0,0,0*%\n%ADD10T*%\n%ADD11C,0.1*%\nD10*\nX0Y0D03*\n%LPC*%\nD11*\nX5000000Y0D02*\nX6000000Y0D01*\n%LPD*%\n",
        b"x",
    ),
    // And counts after it.
    (
        b"%AMT*4,1,3,0,0,3,0,0,2,0,0,0*%\n%ADD10T*%\n%ADD11C,0.1*%\n%LPC*%\nD11*\nX5000000Y0D02*\nX6000000Y0D01*\n%LPD*%\nD10*\nX0Y0D03*\n",
        b"m",
    ),
    // A macro that is turned by another angle is no pad.
    (
        b"%AMT*4,1,3,0,0,3,0,0,2,0,0,0*%\n%ADD10T*%\n%LR45*%\nD10*\nX0Y0D03*\n",
        b"o",
    ),
    // Copies of flashes, macros and contours.
    (
        b"%AMT*4,1,3,0,0,3,0,0,2,0,0,0*%\n%ADD10T*%\n%ADD11C,0.1*%\n%SRX2Y1I5.0J0*%\nD10*\nX0Y0D03*\nD11*\nX0Y0D03*\nG36*\nX-1000000Y-1000000D02*\nX1000000D01*\nY1000000D01*\nX-1000000D01*\nY-1000000D01*\nG37*\n%SR*%\n",
        b"mmppcc",
    ),
    // A macro that is not judged and a disc with a hole are no pads. Of a polygon the disc inside counts.
    (
        b"%AMA*4,1,5,0.5,-0.75,-0.65,-0.75,-0.15,0,-0.65,0.75,0.5,0.75,0.5,-0.75,0*%\n%ADD10A*%\n%ADD11C,0.6X0.2*%\n%ADD12P,1X6*%\nD10*\nX0Y0D03*\nD11*\nX0Y0D03*\nD12*\nX0Y0D03*\n",
        b"oom",
    ),
    // A contour twice, by a block.
    (
        b"%SRX2Y1I5.0J0*%\nG36*\nX-1000000Y-1000000D02*\nX1000000D01*\nY1000000D01*\nX-1000000D01*\nY-1000000D01*\nG37*\n%SR*%\n",
        b"cc",
    ),
    // Nothing at all.
    (b"", b""),
];

/// Layers that are refused: the place, the byte and the reason.
const REFUSED: [(&[u8], u64, u64, Reason); 5] = [
    // An aperture of another size under its number, and one in a region.
    (b"%ADD10C,1*%\n%ADD10C,2*%\n", 5, 39, Reason::Redefined),
    (b"%ADD10C,1*%\nG36*\n%ADD10C,1*%\n", 6, 44, Reason::InRegion),
    // Clear polarity within a region.
    (b"G36*\n%LPC*%\nG37*\n", 5, 32, Reason::InRegion),
    // A rule's fault before a later fault of reading.
    (b"%LPC*%\nD10*\nX1X*\n", 5, 34, Reason::UnknownAperture),
    // Another negative image.
    (b"%IPNEG*%\n", 4, 27, Reason::NegativeImage),
];

/// The text of a layer in millimetres.
fn layer_text(alloc: Global, body: &[u8]) -> Option<Vec<u8>> {
    let pieces: [&[u8]; 3] = [b"%FSLAX46Y46*%\n%MOMM*%\nG01*\n", body, b"M02*\n"];
    pieces.concat(alloc).ok()
}

/// The letter of a flash or contour.
fn letter(what: &FeatureKind) -> u8 {
    match what {
        FeatureKind::Pad(_) => b'p',
        FeatureKind::Shape(_, _) => b'm',
        FeatureKind::Contour(_) => b'c',
        FeatureKind::Other(_) | FeatureKind::Macro(_) => b'o',
        FeatureKind::Clear => b'l',
        FeatureKind::Cleared => b'x',
    }
}

/// How often one of these letters stands in a text.
fn count(letters: &[u8], text: &[u8]) -> usize {
    text.iter().filter(|byte| letters.contains(*byte)).count()
}

/// Whether the flashes and contours of a layer have these letters.
fn has_letters(features: &[Feature], letters: &[u8]) -> bool {
    features.len() == letters.len()
        && features
            .iter()
            .zip(letters)
            .all(|(feature, wanted)| letter(&feature.what) == *wanted)
}

/// Whether a layer has these flashes and contours, and counts them so.
fn is_layer(layer: &Layer, letters: &[u8]) -> bool {
    has_letters(layer.features(), letters) && are_counts(layer.counts(), letters)
}

/// Whether these are the counts of flashes and contours with these letters.
fn are_counts(counts: FeatureCounts, letters: &[u8]) -> bool {
    counts.flashed == count(b"pm", letters)
        && counts.contours == count(b"c", letters)
        && counts.other == count(b"olx", letters)
}

/// The letter of a pad: `p` of a standard aperture, `r` of a macro or a contour.
fn pad_letter(pad: &WidePad) -> u8 {
    match pad {
        WidePad::Plain(_) => b'p',
        WidePad::Rounded(_) => b'r',
    }
}

/// The letter of the pad that a flash or a contour of this letter is, if it is one.
fn pad_of(letter: u8) -> Option<u8> {
    match letter {
        b'p' => Some(b'p'),
        b'm' | b'c' => Some(b'r'),
        _ => None,
    }
}

/// The letters of the pads that stand: of those before, where clear polarity has not taken them away, and of those that the reader holds.
fn with_pads(letters: Vec<u8>, reader: &LayerReader) -> Option<Vec<u8>> {
    let mut all = letters;
    if reader.are_forgotten() {
        all.clear();
    }
    for pad in reader.wide_pads() {
        all.push(pad_letter(pad)).ok()?;
    }
    Some(all)
}

/// Whether the layer of a text has these pads and counts where pads are taken after each byte.
fn stands_as(alloc: Global, text: &[u8], expected: &[u8]) -> Option<bool> {
    let mut reader = LayerReader::in_profile(alloc, Keep::Pads, Profile::Wide);
    let mut letters = Vec::new(alloc);
    for i in 0..text.len() {
        reader.feed(&text[i..i + 1]).ok()?;
        letters = with_pads(letters, &reader)?;
        reader.clear_pads();
    }
    let rest = reader.finish().ok()?;
    let pads: Vec<u8> = expected
        .iter()
        .filter_map(|letter| pad_of(*letter))
        .collect(alloc)
        .ok()?;
    Some(letters.as_slice() == pads.as_slice() && are_counts(rest.counts(), expected))
}

/// The layer of a text in the wide profile, with its flashes and contours, that comes in pieces of this many bytes.
fn read_in_pieces(alloc: Global, text: &[u8], size: usize) -> Result<Layer, Fail> {
    layer_in_pieces(alloc, Keep::Rows, Profile::Wide, text, size)
}

/// Whether the layer has these flashes and contours, read whole and in pieces, and taken out on the way.
fn reads_as(alloc: Global, body: &[u8], letters: &[u8]) -> bool {
    let Some(text) = layer_text(alloc, body) else {
        return false;
    };
    match (
        read_in_pieces(alloc, &text, text.len()),
        read_in_pieces(alloc, &text, 1),
    ) {
        (Ok(whole), Ok(in_pieces)) => {
            is_layer(&whole, letters)
                && is_layer(&in_pieces, letters)
                && stands_as(alloc, &text, letters) == Some(true)
        }
        _ => false,
    }
}

/// Whether the layer is refused so.
fn is_refused(alloc: Global, body: &[u8], place: u64, byte: u64, reason: Reason) -> bool {
    let Some(text) = layer_text(alloc, body) else {
        return false;
    };
    match read_in_pieces(alloc, &text, text.len()) {
        Err(Fail::Refused(fault)) => {
            fault.place == place && fault.byte == byte && fault.reason == reason
        }
        _ => false,
    }
}

#[test]
fn clear_polarity_takes_away_what_stands_before_it(rt: HostRuntime) {
    for (place, &(body, letters)) in LAYERS.iter().enumerate() {
        assert!(rt; reads_as(rt.alloc(), body, letters), "at {place}");
    }
}

#[test]
fn other_texts_are_refused_with_their_first_fault(rt: HostRuntime) {
    for (i, &(body, place, byte, reason)) in REFUSED.iter().enumerate() {
        assert!(rt; is_refused(rt.alloc(), body, place, byte, reason), "at {i}");
    }
}

#[test]
fn the_file_function_is_that_of_the_layer(rt: HostRuntime) {
    let body = b"%TF.FileFunction,Copper,L1,Top*%\n%LPC*%\n";
    let text = layer_text(rt.alloc(), body).expect(&rt, "memory");
    let function: &[u8] = b"Copper,L1,Top";
    match read_in_pieces(rt.alloc(), &text, text.len()) {
        Ok(layer) => assert!(rt; layer.file_function() == Some(function)),
        Err(_) => assert!(rt; false),
    }
}

#[test]
fn the_strict_profile_refuses_clear_polarity(rt: HostRuntime) {
    let body = b"%ADD10C,0.65*%\n%ADD11C,0.1*%\n%LPC*%\n";
    let text = layer_text(rt.alloc(), body).expect(&rt, "memory");
    let mut strict = LayerReader::new(rt.alloc());
    match strict.feed(&text) {
        Err(Fail::Refused(fault)) => {
            assert!(rt;
                fault.place == 6 && fault.byte == 56 && fault.reason == Reason::ClearPolarity
            );
        }
        _ => assert!(rt; false),
    }
    let mut wide = LayerReader::in_profile(rt.alloc(), Keep::Pads, Profile::Wide);
    assert!(rt; wide.feed(&text).is_ok());
}
