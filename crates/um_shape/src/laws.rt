//! The laws of shapes, as contracts of functions that do nothing. A crate above cites the law that it needs.
ghost use Rattle.um_shape.specs.Laws.{CallsAreNeverWrong, ValuesHaveResultShape, FaultlessIsShaped, ShapesAreUnique};
ghost use Rattle.um_shape.specs.Laws.{RefusedHasNoShapes};

/// A call of a function at values of its parameters' shapes ends with a value, a trap or the end of the budget, at
/// every budget, and its value has the result's shape. So no shaped program is ever wrong.
pub fn calls_of_shaped_functions()
    ensures never_wrong { CallsAreNeverWrong }
    ensures values { ValuesHaveResultShape }
{}

/// Each function of a program without a fault has its shapes, and so each node of its body; a program that is refused
/// for a shape has none; a function has its shapes in one way alone.
pub fn shapes_of_programs()
    ensures faultless { FaultlessIsShaped }
    ensures refused { RefusedHasNoShapes }
    ensures unique { ShapesAreUnique }
{}
