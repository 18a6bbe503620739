//! Sizes of apertures.

ghost use Rattle.std.specs.Prelude.{◌≡◌, ◌↔◌, ◌≤◌, ◌≤ℤ◌, pos, false, IsSome, IfSome};
ghost use Rattle.grid_units.specs.Numbers.{is_too_far};
ghost use Rattle.pad_shapes.specs.Shapes.{IsPadRadius, IsHalfSide, max_half_side};
ghost use Rattle.layer_state.specs.Numbers.{dec_length, half_length};

use grid_units::{Dec, Unit};
use std::marker::Model;

/// The diameter of a disc, 0 or more. Contracts see it in units of 10^-8 inch or mm.
#[derive(Clone, Copy)]
pub struct Diameter {
    size: Dec,
}

impl Model for Diameter {
    ghost use Rattle.std.specs.Prelude.{ℤ, pos, ◌≤ℤ◌};

    ghost Value = { ℤ };

    ghost view = { λ d. d.size };

    ghost invariant = { λ d. pos 0 ≤ℤ d.size };

    ghost inverse = { λ z. record { size = z } };
}

impl Diameter {
    /// The diameter of this size, or `None` below 0.
    pub fn new(size: Dec) -> Option<Diameter>
        ensures valid { IsSome result ↔ (pos 0 ≤ℤ size) }
        ensures value { IfSome result (λ d. d ≡ size) }
    {
        if size.units() >= 0 {
            Some(Diameter { size })
        } else {
            None
        }
    }

    /// The size, in units of 10^-8 inch or mm.
    pub fn size(self) -> Dec
        ensures { result ≡ self }
    {
        self.size
    }

    /// The radius, in pm.
    pub fn half(self, unit: Unit) -> i64
        requires { is_too_far (dec_length unit self) ≡ false }
        ensures value { result ≡ half_length unit self }
        ensures in_range { IsPadRadius result }
    {
        half_of(self.size, unit)
    }
}

/// A side of a rectangle or an obround, above 0. Contracts see it in units of 10^-8 inch or mm.
#[derive(Clone, Copy)]
pub struct Side {
    size: Dec,
}

impl Model for Side {
    ghost use Rattle.std.specs.Prelude.{ℤ, pos, ◌≤ℤ◌};

    ghost Value = { ℤ };

    ghost view = { λ s. s.size };

    ghost invariant = { λ s. pos 1 ≤ℤ s.size };

    ghost inverse = { λ z. record { size = z } };
}

impl Side {
    /// The side of this size, or `None` where it is not above 0.
    pub fn new(size: Dec) -> Option<Side>
        ensures valid { IsSome result ↔ (pos 1 ≤ℤ size) }
        ensures value { IfSome result (λ s. s ≡ size) }
    {
        if size.units() > 0 {
            Some(Side { size })
        } else {
            None
        }
    }

    /// The size, in units of 10^-8 inch or mm.
    pub fn size(self) -> Dec
        ensures { result ≡ self }
    {
        self.size
    }

    /// Half of the side, in pm.
    pub fn half(self, unit: Unit) -> i64
        requires { is_too_far (dec_length unit self) ≡ false }
        ensures value { result ≡ half_length unit self }
        ensures in_range { IsHalfSide result }
    {
        half_of(self.size, unit)
    }
}

/// Half of a size, in pm.
fn half_of(size: Dec, unit: Unit) -> i64
    requires { is_too_far (dec_length unit size) ≡ false }
    ensures value { result ≡ half_length unit size }
    ensures not_negative { pos 0 ≤ℤ size → pos 0 ≤ℤ result }
    ensures positive { pos 1 ≤ℤ size → pos 1 ≤ℤ result }
    ensures short { result ≤ℤ pos max_half_side }
{
    match unit {
        Unit::Inch => size.units() * 127,
        Unit::Millimetre => size.units() * 5,
    }
}
