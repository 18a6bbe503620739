//! Regular polygons of a macro: the discs inside of them.

ghost use Rattle.std.specs.Prelude.{◌≡◌, ◌≤◌, ◌*◌, ◌/◌, ◌^◌, slice_get, IfSome};
ghost use Rattle.macro_shapes.specs.Primitives.{cosines, cosine_of, primitive_by_code};
ghost use Rattle.macro_shapes.specs.declared.piece.Code.TheVariants as code;

use crate::primitive::{Primitive, is_dark, size_of};
use grid_units::{Dec, Unit};

/// One, in units of 10^-18.
const ONE: u128 = 1_000_000_000_000_000_000;

/// cos(pi / n) for so many corners n above 3, in units of 10^-18 and rounded down. `None` beyond 12 corners.
fn cosine(above_3: u64) -> Option<u64>
    ensures value { result ≡ slice_get cosines above_3 }
    ensures small { IfSome result (λ cosine. cosine ≤ 10 ^ 18) }
{
    match above_3 {
        0 => Some(500_000_000_000_000_000),
        1 => Some(707_106_781_186_547_524),
        2 => Some(809_016_994_374_947_424),
        3 => Some(866_025_403_784_438_646),
        4 => Some(900_968_867_902_419_126),
        5 => Some(923_879_532_511_286_756),
        6 => Some(939_692_620_785_908_384),
        7 => Some(951_056_516_295_153_572),
        8 => Some(959_492_973_614_497_389),
        9 => Some(965_925_826_289_068_286),
        _ => None,
    }
}

/// That cosine for a number of corners. `None` where this is no whole number from 3 to 12.
fn cosine_of(corners: Dec) -> Option<u64>
    ensures value { result ≡ cosine_of corners }
    ensures small { IfSome result (λ cosine. cosine ≤ 10 ^ 18) }
{
    let units = corners.units();
    let size = units.unsigned_abs();
    if units < 300_000_000 || size % 100_000_000 != 0 {
        return None;
    }
    cosine(size / 100_000_000 - 3)
}

/// The diameter of the disc inside of a regular polygon, rounded down, by that of the circle through its corners.
fn inner_diameter(diameter: u64, cosine: u64) -> u64
    requires { cosine ≤ 10 ^ 18 }
    ensures { result ≡ diameter * cosine / 10 ^ 18 }
{
    (u128::from(diameter) * u128::from(cosine) / ONE) as u64
}

/// The regular polygon that values spell, with any angle at the end (Gerber format, Polygon, code 5).
pub fn polygon(unit: Unit, values: &[Dec]) -> Option<Primitive>
    ensures { result ≡ primitive_by_code code.Polygon unit values.now }
{
    match values {
        [exposure, corners, x, y, diameter, _]
            if is_dark(*exposure) && x.units() == 0 && y.units() == 0 => {
            let cosine = cosine_of(*corners)?;
            let diameter = size_of(unit, *diameter)?;
            Some(Primitive::Turned(inner_diameter(diameter, cosine)))
        }
        _ => None,
    }
}
