//! The fast path for operations as `G01X10Y20D01*`, as most are written: one pass over their bytes.

ghost use Rattle.std.specs.Prelude.{◌≡◌, ◌≢◌, ◌++◌, [], ◌∷◌, ◌||◌, not, true, List, ℕ, Some, is_some, IfSome};
ghost use Rattle.gerber_commands.specs.declared.command.Command.TheVariants.{Operate};
ghost use Rattle.gerber_commands.specs.Canonical.{action_code};
ghost use Rattle.grid_units.specs.Numbers.{omitted_integer};
ghost use Rattle.gerber_text.specs.FastPath.{HasLeadingOperation, HasLeadingInt, HasLeadingCoordinate, mode_prefix};
ghost use Rattle.gerber_commands.specs.Rows.{modes_of};
ghost use Rattle.gerber_commands.specs.Words.{is_plot};

use gerber_commands::{Action, Interpolation, first_digits, signed};
use grid_units::OptionalInteger;
use grid_units::numbers::{is_negative, without_sign};

/// An operation, the interpolation before it, if there is one, and how many bytes its item takes.
#[derive(Clone, Copy)]
pub struct LeadingOperation {
    pub mode: Option<Interpolation>,
    pub action: Action,
    pub x: OptionalInteger,
    pub y: OptionalInteger,
    pub i: OptionalInteger,
    pub j: OptionalInteger,
    pub len: usize,
}

/// The integer at the start of these bytes, with a sign and at most 12 digits, and the bytes after it.
fn first_int(bytes: &[u8]) -> Option<(i64, &[u8])>
    ensures value { IfSome result (λ found. HasLeadingInt bytes.now found.0 found.1.now) }
    ensures kept { IfSome result (λ found. found.0 ≢ omitted_integer) }
{
    let negative = is_negative(bytes);
    let digits = without_sign(bytes);
    let (magnitude, len) = first_digits(digits);
    if len == 0 {
        return None;
    }
    Some((signed(negative, magnitude), &digits[len..]))
}

/// The coordinate at the start of these bytes, if its letter stands there, and the bytes after it.
// Most operations have no I and no J: without a call these cost a comparison each.
#[inline(always)]
fn first_coordinate(letter: u8, bytes: &[u8]) -> Option<(Option<i64>, &[u8])>
    ensures value { IfSome result (λ found. HasLeadingCoordinate letter bytes.now found.0 found.1.now) }
    ensures kept { IfSome result (λ found. found.0 ≢ Some omitted_integer) }
{
    match bytes {
        [first, rest @ ..] if *first == letter => {
            let (n, rest) = first_int(rest)?;
            Some((Some(n), rest))
        }
        _ => Some((None, bytes)),
    }
}

/// The operation code at the start of these bytes, if `D01*`, `D02*` or `D03*` stands there.
fn first_action(bytes: &[u8]) -> Option<Action>
    ensures { IfSome result (λ action. (rest : List ℕ) × (bytes.now ≡ action_code action ++ rest)) }
{
    match bytes {
        [b'D', b'0', b'1', b'*', ..] => Some(Action::Plot),
        [b'D', b'0', b'2', b'*', ..] => Some(Action::Move),
        [b'D', b'0', b'3', b'*', ..] => Some(Action::Flash),
        _ => None,
    }
}

/// The interpolation at the start of these bytes, if `G01`, `G02` or `G03` stands there, and the bytes after it.
fn first_mode(bytes: &[u8]) -> (Option<Interpolation>, &[u8])
    ensures { bytes.now ≡ mode_prefix result.0 ++ result.1.now }
{
    match bytes {
        [b'G', b'0', b'1', rest @ ..] => (Some(Interpolation::Linear), rest),
        [b'G', b'0', b'2', rest @ ..] => (Some(Interpolation::Clockwise), rest),
        [b'G', b'0', b'3', rest @ ..] => (Some(Interpolation::Counterclockwise), rest),
        _ => (None, bytes),
    }
}

/// Whether a word begins with an interpolation, an `X` or a `Y`.
fn has_mode_or_xy(mode: Option<Interpolation>, x: Option<i64>, y: Option<i64>) -> bool
    ensures { result ≡ (is_some mode || (is_some x || is_some y)) }
{
    mode.is_some() || (x.is_some() || y.is_some())
}

/// Whether an operation is a plot (`D01`), the only one that may have offsets.
pub fn is_plot(action: Action) -> bool
    ensures { result ≡ is_plot action }
{
    matches!(action, Action::Plot)
}

/// Whether the offsets, if any stand, may stand beside this operation.
fn allows_offsets(action: Action, i: Option<i64>, j: Option<i64>) -> bool
    ensures { result ≡ (is_plot action || not (is_some i || is_some j)) }
{
    is_plot(action) || !(i.is_some() || j.is_some())
}

/// Whether these parts may stand in one operation.
fn may_stand(
    mode: Option<Interpolation>,
    action: Action,
    x: Option<i64>,
    y: Option<i64>,
    i: Option<i64>,
    j: Option<i64>,
) -> bool
    ensures begins { result ≡ true → (is_some mode || (is_some x || is_some y)) ≡ true }
    ensures stands { result ≡ true → (is_plot action || not (is_some i || is_some j)) ≡ true }
{
    has_mode_or_xy(mode, x, y) && allows_offsets(action, i, j)
}

/// The operation at the start of these bytes, if it is written so: `G01`, `G02`, `G03` or at least one of `X` and
/// `Y`, each coordinate with at most 12 digits, `D01`, `D02` or `D03`, and `*`. Where it is written otherwise,
/// [`read_item_in`](crate::read_item_in) reads it.
// Most items are operations: inlined, their fields are not stored on the way.
#[inline(always)]
pub fn leading_operation(bytes: &[u8]) -> Option<LeadingOperation>
    ensures { IfSome result (λ found. HasLeadingOperation bytes.now found.len (modes_of found.mode ++ Operate found.action found.x found.y found.i found.j ∷ [])) }
{
    let (mode, after_mode) = first_mode(bytes);
    let (x, after_x) = first_coordinate(b'X', after_mode)?;
    let (y, after_y) = first_coordinate(b'Y', after_x)?;
    let (i, after_i) = first_coordinate(b'I', after_y)?;
    let (j, code) = first_coordinate(b'J', after_i)?;
    let action = first_action(code)?;
    if !may_stand(mode, action, x, y, i, j) {
        return None;
    }
    let len = bytes.len() - code.len() + 4;
    Some(LeadingOperation {
        mode,
        action,
        x: OptionalInteger::of(x),
        y: OptionalInteger::of(y),
        i: OptionalInteger::of(i),
        j: OptionalInteger::of(j),
        len,
    })
}
