//! What follows from the definitions of causes alone. A call of a law does nothing; its clause is what is proved.

ghost use Rattle.report.specs.Causes.{HolesHaveTheirPoints};
ghost use Rattle.report.specs.UnitMistakes.{BareIsUncovered, IsRoundedDown};

/// A point lies in a hole just where it is no further than the hole's radius from a point of the straight line between its ends.
pub fn holes_have_their_points()
    ensures { HolesHaveTheirPoints }
{}

/// A coordinate times a factor is rounded down: it is the greatest whole number that is not above the product.
pub fn rounded_down()
    ensures { IsRoundedDown }
{}

/// A round hole is bare just where no pad covers its centre.
pub fn bare_is_uncovered()
    ensures { BareIsUncovered }
{}
