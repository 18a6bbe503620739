//! Expressions of a macro: their values.

ghost use Rattle.std.specs.Prelude.{◌≡◌, ◌↔◌, ℤ, [], Some, option_map};
ghost use Rattle.macro_shapes.specs.Values.{lookup, IsValue};
ghost use Rattle.macro_shapes.specs.Inner.Reading.{start, state, run};
ghost use Rattle.macro_shapes.specs.Inner.Pieces.{value_of, diameter_of};

use crate::reading::Reading;
use crate::sign::sign_of;
use crate::variables::Variables;
use grid_units::Dec;

/// The longest text of an expression, in bytes.
const MAX_TEXT: usize = 1_000;

/// The exact value of an expression, in units of 10^-8 of the file's unit. `None` where the text is no expression of at most
/// 1,000 bytes and 16 brackets in each other, where a variable has no value, or where a step has no exact value in range
/// (Gerber format, Aperture macro AM, Arithmetic expressions).
pub fn value(text: &[u8], variables: &Variables) -> Option<Dec>
    ensures { (v : ℤ) → (result ≡ Some v) ↔ IsValue (lookup variables.now) text.now v }
{
    read(text, variables)
}

/// The exact value of an expression.
#[tactic(auto, unfolding(crate::specs::Inner::Pieces::value_of))]
pub(crate) fn read(text: &[u8], variables: &Variables) -> Option<Dec>
    ensures { result ≡ value_of (lookup variables.now) text.now }
{
    if MAX_TEXT < text.len() {
        return None;
    }
    let (reading, last) = scan(text, variables)?;
    reading.finish(last, variables)
}

/// The value of a diameter: the exact one, or else that of a product, rounded down.
#[tactic(auto, unfolding(crate::specs::Inner::Pieces::value_of))]
pub(crate) fn read_diameter(text: &[u8], variables: &Variables) -> Option<Dec>
    ensures { result ≡ diameter_of (lookup variables.now) text.now }
{
    if MAX_TEXT < text.len() {
        return None;
    }
    let (reading, last) = scan(text, variables)?;
    match reading.finish(last, variables) {
        Some(value) => Some(value),
        None => reading.finish_product(last, variables),
    }
}

/// Reads an expression sign by sign, up to its last operand.
fn scan<'a>(text: &'a [u8], known: &Variables) -> Option<(Reading, &'a [u8])>
    ensures { option_map (λ e. (state e.0, e.1.now)) result ≡ run (lookup known.now) start [] text.now }
{
    let mut reading = Reading::new();
    let mut begin = 0;
    for (i, byte) in text.iter().enumerate() {
        let Some(sign) = sign_of(*byte) else {
            continue;
        };
        reading.step(&text[begin..i], sign, known)?;
        begin = i + 1;
    }
    Some((reading, &text[begin..]))
}
