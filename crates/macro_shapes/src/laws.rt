//! Laws of the values, primitives and shapes of a macro. Calling a law does nothing but give its clause.

ghost use Rattle.macro_shapes.specs.Laws.{MacrosAreReadExactly, ProductsAreExact, QuotientsAreExact};
ghost use Rattle.macro_shapes.specs.Shapes.{ShapeIsInPrimitives};

/// Products and quotients are exact: nothing is rounded.
pub fn values_are_exact()
    ensures products { ProductsAreExact }
    ensures quotients { QuotientsAreExact }
{}

/// A macro is read as just the primitives that its pieces spell.
pub fn macros_are_read_exactly()
    ensures { MacrosAreReadExactly }
{}

/// Each point of a macro's shape is a point of one of its primitives.
pub fn shape_is_in_primitives()
    ensures { ShapeIsInPrimitives }
{}
