//! Laws of the shared definitions: of steps in the plane, of looking back over a list, of steps that
//! may be refused, and of why a number is refused. Calling a law does nothing but give its clause.

ghost use Rattle.std.specs.Prelude.{List, Option, ℤ};
ghost use Rattle.grid_units.specs.Laws.{TriangleInequality, StrictTriangleInequality, LastSetOfAppend, ExtendsByLast, IsFirstViolation, StaysLegal, BindIsOk, BindIsErr, DecimalReasons, CoordinateReasons, LengthReasons};

/// A step of at most `m` and a step of at most `n` sum to a step of at most `m + n`.
pub fn triangle_inequality()
    ensures { TriangleInequality }
{}

/// Two such steps sum to less than `m + n` where one of them is less than its bound.
pub fn strict_triangle_inequality()
    ensures { StrictTriangleInequality }
{}

/// What two lists in a row name last, and what one more element adds.
pub fn state_after_prefix<C>()
    ensures last { (names : C → Option ℤ) → LastSetOfAppend names }
    ensures one_more { (gives : List C → C → List ℤ) → ExtendsByLast gives }
{}

/// An element that breaks a rule after lawful ones is the first break of a list; one that breaks none adds no break.
pub fn first_violation<C>()
    ensures first { (broken : List C → C → Option ℤ) → IsFirstViolation broken }
    ensures none { (broken : List C → C → Option ℤ) → StaysLegal broken }
{}

/// A chain of two steps gives a value only where both do, and is refused only where one of them is.
pub fn bind_cases<A>()
    ensures ok { BindIsOk A }
    ensures err { BindIsErr A }
{}

/// The only reasons for which a decimal, a coordinate without a point and a length are refused.
pub fn number_reasons()
    ensures decimals { DecimalReasons }
    ensures coordinates { CoordinateReasons }
    ensures lengths { LengthReasons }
{}
