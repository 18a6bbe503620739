//! The primitives of macros as they are written, with the exact values of their fields.

use grid_units::Text;
use macro_shapes::{Macro, read_macro};
use std::alloc::{AllocError, Global};
use std::test::Fail;

/// A rounded rectangle of the macro that many exporters write.
const ROUNDED: &[&str] = &[
    "0 Rectangle with rounded corners",
    "4,1,4,$2,$3,$4,$5,$6,$7,$8,$9,$2,$3,0",
    "1,1,$1+$1,$2,$3",
    "1,1,$1+$1,$4,$5",
    "20,1,$1+$1,$2,$3,$4,$5,0",
];

/// Pieces, the parameters of an aperture, and the number of primitives with the sum of all their values in units of 10^-8.
const MACROS: [(&[&str], Option<&str>, Option<(usize, i64)>); 14] = [
    (&[], None, Some((0, 0))),
    (
        ROUNDED,
        Some("0.25X-0.25X0.25X-0.25X-0.25X0.25X-0.25X0.25X0.25"),
        Some((4, 850_000_000)),
    ),
    (
        &["20,1,$1,$2,$3,$4,$5,0", "1,1,$1,$2,$3", "1,1,$1,$4,$5"],
        Some("1.0X-0.5X-0.5X0.5X0.5X0"),
        Some((3, 600_000_000)),
    ),
    (
        &["$3=$1x$2", "1,1,$3,0,0"],
        Some("1.3X0.5"),
        Some((1, 165_000_000)),
    ),
    (&["$3=$1x$2", "1,1,$3+1,0,0"], Some("0.0001X0.00001"), None),
    (
        &["1,1,(1.3+$1)/2-0.0,0,0"],
        Some("0.0"),
        Some((1, 165_000_000)),
    ),
    (&["1,1,2/3+1,0,0"], None, None),
    (&["1,1,$1+$2,0,0"], Some("0.65"), None),
    (&["1,1,0.65,0,0", "7,0,0,1,0.5,0.1,0"], None, None),
    (&["0", "0 pad", "1,0,0.1,3,3"], None, Some((1, 610_000_000))),
    (&["01,1,1,0,0"], None, None),
    (&["$1=2", "1,1,$1,0,0"], Some("5"), Some((1, 300_000_000))),
    (&["$1000=1"], None, None),
    (&["1,1,1,0,0"], Some("a"), None),
];

/// The texts of pieces.
pub(crate) fn texts(alloc: Global, pieces: &[&str]) -> Result<Vec<Text>, AllocError> {
    let mut texts = Vec::new(alloc);
    for piece in pieces {
        texts.push(Text::from_slice(alloc, piece.as_bytes())?)?;
    }
    Ok(texts)
}

/// The number of primitives and the sum of all their values.
fn sums(primitives: &Macro) -> (usize, i64) {
    let mut sum: i64 = 0;
    for fields in primitives.primitives() {
        for value in fields.values.as_slice() {
            sum = sum.wrapping_add(value.units());
        }
    }
    (primitives.primitives().len(), sum)
}

#[test]
fn pieces_spell_primitives(rt: HostRuntime) -> Result<(), Fail> {
    for &(pieces, parameters, expected) in &MACROS {
        let texts = texts(rt.alloc(), pieces)?;
        let parameters = match parameters {
            Some(text) => Some(text.as_bytes()),
            None => None,
        };
        let found = match read_macro(rt.alloc(), &texts, parameters)? {
            Some(primitives) => Some(sums(&primitives)),
            None => None,
        };
        assert!(rt; found == expected, "of {} pieces", pieces.len());
    }
    Ok(())
}
