//! Figures of causes and of factors, and the words of a contradicted role.

ghost use Rattle.std.specs.Prelude.{◌≡◌};
ghost use Rattle.report.specs.Causes.{flash_of, lack_of, ring_of};
ghost use Rattle.report.specs.UnitMistakes.{conflict_words, factor_word};

use crate::{RingCause, UnitFactor};

/// The ring of a hole in its best pad, in pm, if it lies in a pad that counts.
pub fn ring_of(cause: &RingCause) -> Option<i64>
    ensures { result ≡ ring_of cause.now }
{
    match cause {
        RingCause::TooSmall(place) | RingCause::OffCentre(place) => Some(place.ring),
        RingCause::Edge(place) => Some(place.ring),
        _ => None,
    }
}

/// The length that a ring lacks, in pm, if its hole lies in a pad that counts.
pub fn lack_of(cause: &RingCause) -> Option<i64>
    ensures { result ≡ lack_of cause.now }
{
    match cause {
        RingCause::TooSmall(place) | RingCause::OffCentre(place) => Some(place.lack),
        RingCause::Edge(place) => Some(place.lack),
        _ => None,
    }
}

/// The number on the layer, from 1, of the flash or contour that a cause names, if it names one.
pub fn flash_of(cause: &RingCause) -> Option<usize>
    ensures { result ≡ flash_of cause.now }
{
    match cause {
        RingCause::TooSmall(place) | RingCause::OffCentre(place) => Some(place.flash),
        RingCause::Edge(place) => Some(place.flash),
        RingCause::Other { flash, .. } => Some(*flash),
        RingCause::Clear { flash } | RingCause::Cleared { flash } => Some(*flash),
        _ => None,
    }
}

/// A factor as it is written: `10`, `0.1`, `25.4` or `1/25.4`.
pub fn factor_word(factor: UnitFactor) -> &'static str
    ensures { result.now ≡ factor_word factor }
{
    match factor {
        UnitFactor::Ten => "10",
        UnitFactor::Tenth => "0.1",
        UnitFactor::Inch => "25.4",
        UnitFactor::PerInch => "1/25.4",
    }
}

/// What the role of a drill file is and what its comments say, by whether its role calls its holes plated:
/// `its role is unplated, but its comments say that holes are plated`.
pub fn conflict_words(plated: bool) -> &'static str
    ensures { result.now ≡ conflict_words plated }
{
    if plated {
        "its role is plated, but its comments say that holes are not plated"
    } else {
        "its role is unplated, but its comments say that holes are plated"
    }
}
