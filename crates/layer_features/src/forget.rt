//! Regions that can make no contour any more, whatever follows: of their parts one alone is kept.

ghost use Rattle.std.specs.Prelude.{◌≡◌, IfOk, OnOk};
ghost use Rattle.layer_features.specs.Inner.Forgetting.{is_over, starts_no_pad};
ghost use Rattle.layer_features.specs.Inner.States.{MakeSameContour};

use crate::contour::points_of;
use crate::part::Part;
use crate::turns::starts_no_polygon;
use std::alloc::{AllocError, Global};

/// How many parts there are when they are first looked at for a contour that has too many corners or is not convex. They are looked at again
/// each time their number has doubled.
const FIRST_LOOK: usize = 8;

/// Whether the first of these parts is no move: such a region has no contour.
pub(crate) fn is_over(parts: &[Part]) -> bool
    ensures { result ≡ is_over parts.now }
{
    match parts {
        [] => false,
        [first, ..] => !first.is_move(),
    }
}

/// Whether a move stands first, and then sides that start the contour of no pad: of more corners than a pad may have, or of none that is convex.
fn starts_no_pad(alloc: Global, parts: &[Part]) -> Result<bool, AllocError>
    ensures { IfOk result (λ answer. answer ≡ starts_no_pad parts.now) }
{
    match parts {
        [first, sides @ ..] if first.is_move() => match points_of(alloc, sides)? {
            Some(points) => Ok(starts_no_polygon(&points)),
            None => Ok(false),
        },
        _ => Ok(false),
    }
}

/// Looks at parts, where it is time to, and keeps one alone of parts that make no contour, whatever follows them: it makes none either.
pub(crate) fn forget(alloc: Global, parts: &mut Vec<Part>) -> Result<(), AllocError>
    ensures { OnOk result (MakeSameContour parts.new.items parts.old.items) }
{
    let count = parts.len();
    if count < FIRST_LOOK || !count.is_power_of_two() {
        return Ok(());
    }
    let over = starts_no_pad(alloc, parts)?;
    if !over {
        return Ok(());
    }
    parts.clear();
    parts.push(Part::Other)?;
    Ok(())
}
