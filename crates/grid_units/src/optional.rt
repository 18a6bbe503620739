//! Integers that may be left out, in eight bytes each.

ghost use Rattle.std.specs.Prelude.{◌≡◌, ◌≢◌, Some, None, IfSome, IfNone};
ghost use Rattle.grid_units.specs.Numbers.{omitted_integer};

use std::marker::Model;

/// The value that stands for an integer that is left out.
const OMITTED: i64 = i64::MIN;

/// An integer, or that it is left out. It takes eight bytes, since a file has many; contracts see the optional
/// integer.
#[derive(Clone, Copy, PartialEq, Eq)]
pub struct OptionalInteger {
    value: i64,
}

impl Model for OptionalInteger {
    ghost use Rattle.std.specs.Prelude.{◌≡◌, ℤ, Option, IfNone, unwrap_or};
    ghost use Rattle.grid_units.specs.Numbers.{kept_integer, omitted_integer};

    ghost Value = { Option ℤ };

    ghost view = { λ c. kept_integer c.value };

    ghost invariant = { λ c. IfNone (kept_integer c.value) (c.value ≡ omitted_integer) };

    ghost inverse = { λ v. record { value = unwrap_or v omitted_integer } };
}

impl OptionalInteger {
    /// This integer, or that it is left out; `None` at the least `i64`, which stands for one that is left out.
    pub fn new(value: Option<i64>) -> Option<OptionalInteger>
        ensures some { IfSome result (λ c. c ≡ value) }
        ensures none { IfNone result (value ≡ Some omitted_integer) }
    {
        if value == Some(OMITTED) {
            None
        } else {
            Some(OptionalInteger::of(value))
        }
    }

    /// This integer, or that it is left out. The value is not the least `i64`.
    pub fn of(value: Option<i64>) -> OptionalInteger
        requires { value ≢ Some omitted_integer }
        ensures { result ≡ value }
    {
        match value {
            Some(value) => OptionalInteger { value },
            None => OptionalInteger::none(),
        }
    }

    /// An integer that is left out.
    pub fn none() -> OptionalInteger
        ensures { result ≡ None }
    {
        OptionalInteger { value: OMITTED }
    }

    /// The integer, or `None` where it is left out.
    pub fn get(self) -> Option<i64>
        ensures { result ≡ self }
    {
        if self.value == OMITTED {
            None
        } else {
            Some(self.value)
        }
    }
}
