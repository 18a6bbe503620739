//! The pieces of a macro: comments, definitions of variables, and primitives.

ghost use Rattle.std.specs.Prelude.{◌≡◌, ◌≤◌, ◌<◌, option_map, IfSome, ◌==◌};
ghost use Rattle.macro_shapes.specs.Pieces.{code_of, is_diameter};
ghost use Rattle.macro_shapes.specs.Inner.Bytes.{goes_on, number_and_text, starts_comment, starts_definition, variable_number};

use grid_units::numbers::{capped_value, digit_run_len, is_digits, is_number_char};

/// The code of a primitive that is judged (Gerber format, Aperture macro AM).
#[derive(Clone, Copy)]
pub enum Code {
    /// 1: a circle.
    Circle,
    /// 20: a line with a width and straight ends.
    VectorLine,
    /// 21: a rectangle by its centre.
    CentreLine,
    /// 4: an area by the points of its outline.
    Outline,
    /// 5: a regular polygon.
    Polygon,
}

/// Whether a field goes on.
fn goes_on(rest: &[u8]) -> bool
    ensures { result ≡ goes_on rest.now }
{
    match rest {
        [] => false,
        [byte, ..] => is_number_char(*byte) || *byte == b',',
    }
}

/// Whether a piece is a comment.
pub(crate) fn is_comment(piece: &[u8]) -> bool
    ensures { result ≡ starts_comment piece.now }
{
    match piece {
        [b'0', rest @ ..] => !goes_on(rest),
        _ => false,
    }
}

/// The number of a variable, from 1 to 999, of these digits.
fn variable_number(digits: &[u8]) -> Option<usize>
    ensures value { result ≡ variable_number digits.now }
    ensures low { IfSome result (λ n. 1 ≤ n) }
    ensures high { IfSome result (λ n. n ≤ 999) }
{
    if !is_digits(digits) {
        return None;
    }
    let number = capped_value(digits, 1_000);
    if 1 <= number && number <= 999 {
        Some(number as usize)
    } else {
        None
    }
}

/// A variable and the expression after `=`.
fn defined<'a>(digits: &[u8], rest: &'a [u8]) -> Option<(usize, &'a [u8])>
    ensures value { option_map (λ d. (d.0, d.1.now)) result ≡ number_and_text digits.now rest.now }
    ensures low { IfSome result (λ d. 1 ≤ d.0) }
    ensures high { IfSome result (λ d. d.0 ≤ 999) }
{
    match rest {
        [b'=', text @ ..] => match variable_number(digits) {
            Some(number) => Some((number, text)),
            None => None,
        },
        _ => None,
    }
}

/// The variable that a piece defines, and the expression of its value.
pub(crate) fn definition(piece: &[u8]) -> Option<(usize, &[u8])>
    ensures value { option_map (λ d. (d.0, d.1.now)) result ≡ starts_definition piece.now }
    ensures low { IfSome result (λ d. 1 ≤ d.0) }
    ensures high { IfSome result (λ d. d.0 ≤ 999) }
{
    match piece {
        [b'$', rest @ ..] => {
            let (digits, after) = rest.split_at(digit_run_len(rest));
            defined(digits, after)
        }
        _ => None,
    }
}

/// The primitive of a code, where it is judged.
pub(crate) fn code_of(text: &[u8]) -> Option<Code>
    ensures { result ≡ code_of text.now }
{
    match text {
        b"1" => Some(Code::Circle),
        b"20" => Some(Code::VectorLine),
        b"21" => Some(Code::CentreLine),
        b"4" => Some(Code::Outline),
        b"5" => Some(Code::Polygon),
        _ => None,
    }
}

/// Whether the field of this number, from 0, is a diameter.
pub(crate) fn is_diameter(code: Code, number: usize) -> bool
    ensures { result ≡ is_diameter code number }
{
    match code {
        Code::Circle => number == 1,
        Code::Polygon => number == 4,
        _ => false,
    }
}
