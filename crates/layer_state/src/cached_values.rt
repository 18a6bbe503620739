//! What the fast path keeps of the graphics state: the lengths of coordinates, and what a flash leaves.

ghost use Rattle.std.specs.Prelude.{◌≡◌, ◌≤◌, ◌<◌, ◌*◌, ◌^◌, ◌*ℤ◌, IfSome, pos, unsigned_abs};

use crate::flash::What;
use crate::length::step_length;
use crate::state::State;
use gerber_text::Format;
use grid_units::{Point, Unit, power_of_ten};
use pad_shapes::Why;

/// 10 m in pm.
const MAX_LENGTH: u64 = 10_000_000_000_000;

/// The pm of one step of a coordinate, and the greatest coordinate that is neither too long nor too far.
#[derive(Clone, Copy)]
pub(crate) struct Lengths {
    pub(crate) place: u64,
    pub(crate) limit: u64,
    ghost near: { limit * place ≤ 10000000000000 },
    ghost small: { place ≤ 25400000000 },
}

impl Lengths {
    ghost use Rattle.layer_state.specs.Inner.FastOperations.{AreLengths, is_within, point_of};

    /// The lengths in a unit and a format of at most twelve digits.
    fn of(unit: Option<Unit>, format: Option<Format>) -> Option<Lengths>
        ensures { IfSome result (λ lengths. AreLengths lengths unit format) }
    {
        let unit = unit?;
        let format = format?;
        let place = step_length(format.decimals, unit);
        let digits = u16::from(format.whole) + u16::from(format.decimals);
        if place == 0 || digits > 12 {
            return None;
        }
        Some(Lengths {
            place,
            limit: greatest(place, digits),
        })
    }

    /// Whether a coordinate is neither too long nor too far, if there is one.
    pub(crate) fn has(&self, named: Option<i64>) -> bool
        ensures { result ≡ is_within self.now.limit named }
    {
        match named {
            Some(n) => n.unsigned_abs() <= self.limit,
            None => true,
        }
    }

    /// The point of two coordinates that are neither too long nor too far.
    pub(crate) fn point(&self, x: i64, y: i64) -> Point
        requires x { unsigned_abs x ≤ self.now.limit }
        requires y { unsigned_abs y ≤ self.now.limit }
        ensures { result ≡ point_of self.now x y }
    {
        Point::new(self.length(x), self.length(y)).unwrap()
    }

    /// The length of such a coordinate, in pm.
    fn length(&self, n: i64) -> i64
        requires { unsigned_abs n ≤ self.now.limit }
        ensures value { result ≡ n *ℤ pos self.now.place }
        ensures near { unsigned_abs result ≤ 10000000000000 }
    {
        n * self.place as i64
    }
}

/// The greatest number with at most so many digits that is no longer than 10 m, each step being `place` pm.
fn greatest(place: u64, digits: u16) -> u64
    requires some { 0 < place }
    requires few { digits ≤ 12 }
    ensures short { result < 10 ^ digits }
    ensures near { result * place ≤ 10000000000000 }
{
    (MAX_LENGTH / place).min(power_of_ten(digits as u8) - 1)
}

/// What most operations need: the lengths of coordinates, where they are known, and what a flash leaves at the
/// origin, where it has no copies and is not too large.
#[derive(Clone, Copy)]
pub(crate) struct CachedValues {
    pub(crate) ready: bool,
    pub(crate) lengths: Lengths,
    pub(crate) single_copy: bool,
    pub(crate) what: What,
}

impl CachedValues {
    ghost use Rattle.layer_state.specs.Inner.IsStateAfter.{state_of};
    ghost use Rattle.layer_state.specs.Inner.FastOperations.{AreCachedValues};

    /// What most operations need after the commands that a judge has taken in.
    pub(crate) fn of(state: &State) -> CachedValues
        ensures { AreCachedValues result (state_of state.now) }
    {
        let lengths = Lengths::of(state.current.unit, state.current.format);
        let what = state.single_flash();
        CachedValues {
            ready: lengths.is_some(),
            lengths: lengths.unwrap_or(Lengths { place: 0, limit: 0 }),
            single_copy: what.is_some(),
            what: what.unwrap_or(What::Other(Why::Macro)),
        }
    }
}
