//! How an expression is read: from left to right, with what stands before the operand at hand kept for each open bracket.

ghost use Rattle.std.specs.Prelude.{◌≡◌, MatchOption, None, Some};
ghost use Rattle.macro_shapes.specs.Values.{lookup};
ghost use Rattle.macro_shapes.specs.Inner.Reading.{start, state, factor_of, term_of, sum_of, is_before_factor, is_leading, open_bracket, close_bracket, before_sign, after_addition, multiplied_on, step, final_value, final_product};

use crate::arithmetic::{added, multiplied, product_below};
use crate::sign::{Addition, Multiplication, Sign};
use crate::variables::Variables;
use arrayvec::ArrayVec;
use grid_units::Dec;

/// What stands before an operand, back to the bracket that opened last: the terms and the sign after them, and the factors
/// of its own term and the sign after these.
#[derive(Clone, Copy, Default)]
pub(crate) struct Frame {
    pub(crate) before_term: Option<(Dec, Addition)>,
    pub(crate) before_factor: Option<(Dec, Multiplication)>,
}

/// What was read of an expression up to the operand at hand.
#[derive(Drop)]
pub(crate) struct Reading {
    /// What stands before each bracket that is open, the innermost last.
    pub(crate) outer: ArrayVec<Frame, 16>,
    /// What stands before the operand.
    pub(crate) frame: Frame,
    /// The value of the brackets that closed just here.
    pub(crate) closed: Option<Dec>,
}

impl Reading {
    /// The start of an expression.
    pub(crate) fn new() -> Reading
        ensures { state result ≡ start }
    {
        Reading {
            outer: ArrayVec::new(),
            frame: Frame::default(),
            closed: None,
        }
    }

    /// The value of the factor that ends here.
    fn factor(&self, operand: &[u8], variables: &Variables) -> Option<Dec>
        ensures { result ≡ factor_of (lookup variables.now) (state self.now) operand.now }
    {
        match self.closed {
            None => variables.operand(operand),
            Some(value) => match operand {
                [] => Some(value),
                [_, ..] => None,
            },
        }
    }

    /// The value of the term that ends here.
    fn term(&self, operand: &[u8], variables: &Variables) -> Option<Dec>
        ensures { result ≡ term_of (lookup variables.now) (state self.now) operand.now }
    {
        let factor = self.factor(operand, variables)?;
        multiplied(self.frame.before_factor, factor)
    }

    /// The value of the sum that ends here.
    fn sum(&self, operand: &[u8], variables: &Variables) -> Option<Dec>
        ensures { result ≡ sum_of (lookup variables.now) (state self.now) operand.now }
    {
        let term = self.term(operand, variables)?;
        added(self.frame.before_term, term)
    }

    /// Whether a factor is due: none stands here.
    fn is_before_factor(&self, operand: &[u8]) -> bool
        ensures { result ≡ is_before_factor (state self.now) operand.now }
    {
        match operand {
            [] => self.closed.is_none(),
            [_, ..] => false,
        }
    }

    /// Whether a sign here stands before the first term.
    fn is_leading(&self, operand: &[u8]) -> bool
        ensures { result ≡ is_leading (state self.now) operand.now }
    {
        self.is_before_factor(operand)
            && self.frame.before_term.is_none()
            && self.frame.before_factor.is_none()
    }

    /// Opens a bracket. `None` where none may stand here.
    #[tactic(auto, unfolding(crate::specs::Inner::Reading::open_bracket))]
    fn open(&mut self, operand: &[u8]) -> Option<()>
        ensures { MatchOption result (open_bracket (state self.old) operand.now ≡ None) (λ _. open_bracket (state self.old) operand.now ≡ Some (state self.new)) }
    {
        if !self.is_before_factor(operand) || 16 <= self.outer.len() {
            return None;
        }
        self.outer.push(self.frame);
        self.frame = Frame {
            before_term: None,
            before_factor: None,
        };
        Some(())
    }

    /// Closes the bracket that opened last. `None` where no sum ends here or no bracket is open.
    #[tactic(auto, unfolding(crate::specs::Inner::Reading::close_bracket))]
    fn close(&mut self, operand: &[u8], variables: &Variables) -> Option<()>
        ensures { MatchOption result (close_bracket (lookup variables.now) (state self.old) operand.now ≡ None)
            (λ _. close_bracket (lookup variables.now) (state self.old) operand.now ≡ Some (state self.new)) }
    {
        let value = self.sum(operand, variables)?;
        let Some(frame) = self.outer.pop() else {
            return None;
        };
        self.frame = frame;
        self.closed = Some(value);
        Some(())
    }

    /// The value before the sign of a sum: 0 before the first term.
    fn before_sign(&self, operand: &[u8], variables: &Variables) -> Option<Dec>
        ensures { result ≡ before_sign (lookup variables.now) (state self.now) operand.now }
    {
        if self.is_leading(operand) {
            Dec::from_units(0)
        } else {
            self.sum(operand, variables)
        }
    }

    /// Takes the sign of a sum. `None` where no sum ends here.
    #[tactic(auto, unfolding(crate::specs::Inner::Reading::after_addition))]
    fn add(&mut self, operand: &[u8], sign: Addition, variables: &Variables) -> Option<()>
        ensures { MatchOption result (after_addition (lookup variables.now) (state self.old) operand.now sign ≡ None)
            (λ _. after_addition (lookup variables.now) (state self.old) operand.now sign ≡ Some (state self.new)) }
    {
        let sum = self.before_sign(operand, variables)?;
        self.frame = Frame {
            before_term: Some((sum, sign)),
            before_factor: None,
        };
        self.closed = None;
        Some(())
    }

    /// Takes the sign of a product. `None` where no term ends here.
    #[tactic(auto, unfolding(crate::specs::Inner::Reading::multiplied_on))]
    fn multiply(
        &mut self,
        operand: &[u8],
        sign: Multiplication,
        variables: &Variables,
    ) -> Option<()>
        ensures { MatchOption result (multiplied_on (lookup variables.now) (state self.old) operand.now sign ≡ None)
            (λ _. multiplied_on (lookup variables.now) (state self.old) operand.now sign ≡ Some (state self.new)) }
    {
        let term = self.term(operand, variables)?;
        self.frame.before_factor = Some((term, sign));
        self.closed = None;
        Some(())
    }

    /// Takes a sign and the operand before it, which may be empty. `None` where the sign may not stand there, or what it ends
    /// has no value.
    pub(crate) fn step(&mut self, operand: &[u8], sign: Sign, variables: &Variables) -> Option<()>
        ensures { MatchOption result (step (lookup variables.now) (state self.old) operand.now sign ≡ None)
            (λ _. step (lookup variables.now) (state self.old) operand.now sign ≡ Some (state self.new)) }
    {
        match sign {
            Sign::Open => self.open(operand),
            Sign::Close => self.close(operand, variables),
            Sign::Add(sign) => self.add(operand, sign, variables),
            Sign::Multiply(sign) => self.multiply(operand, sign, variables),
        }
    }

    /// The value of the expression that ends with this operand. `None` where a bracket is open, or it has no value.
    pub(crate) fn finish(&self, operand: &[u8], variables: &Variables) -> Option<Dec>
        ensures { result ≡ final_value (lookup variables.now) (state self.now) operand.now }
    {
        if self.outer.len() == 0 {
            self.sum(operand, variables)
        } else {
            None
        }
    }

    /// The product that the expression which ends with this operand is as a whole, rounded down. `None` where it is another one.
    pub(crate) fn finish_product(&self, operand: &[u8], variables: &Variables) -> Option<Dec>
        ensures { result ≡ final_product (lookup variables.now) (state self.now) operand.now }
    {
        if self.outer.len() != 0 || self.frame.before_term.is_some() {
            return None;
        }
        let factor = self.factor(operand, variables)?;
        match self.frame.before_factor {
            Some((value, Multiplication::Times)) => product_below(value, factor),
            Some((_, Multiplication::Over)) => None,
            None => None,
        }
    }
}
