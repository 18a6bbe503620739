//! The signs of an expression.

ghost use Rattle.std.specs.Prelude.{◌≡◌};
ghost use Rattle.macro_shapes.specs.Signs.{sign_of};

/// The sign of a sum.
#[derive(Clone, Copy)]
pub enum Addition {
    Plus,
    Minus,
}

/// The sign of a product.
#[derive(Clone, Copy)]
pub enum Multiplication {
    Times,
    Over,
}

/// A sign of an expression: a bracket, or what stands between two operands.
#[derive(Clone, Copy)]
pub enum Sign {
    Open,
    Close,
    Add(Addition),
    Multiply(Multiplication),
}

/// The sign that a byte is, or `None` for a byte of an operand.
#[tactic(auto, unfolding(crate::specs::Signs::sign_of))]
pub(crate) fn sign_of(byte: u8) -> Option<Sign>
    ensures { result ≡ sign_of byte }
{
    match byte {
        b'(' => Some(Sign::Open),
        b')' => Some(Sign::Close),
        b'+' => Some(Sign::Add(Addition::Plus)),
        b'-' => Some(Sign::Add(Addition::Minus)),
        b'x' => Some(Sign::Multiply(Multiplication::Times)),
        b'X' => Some(Sign::Multiply(Multiplication::Times)),
        b'/' => Some(Sign::Multiply(Multiplication::Over)),
        _ => None,
    }
}
