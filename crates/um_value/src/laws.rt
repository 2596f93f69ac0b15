//! Laws of value texts, by the definitions alone. A call does nothing: what it ensures is the law.
ghost use Rattle.um_value.specs.Laws.{ValueAnswersExclude, InputsAreUnique};

/// At most one answer on what tokens are fits them, want of memory aside: at a shape over a formed program's records no
/// two value texts have the same tokens, and no refusal stands beside a value text or at two places.
pub fn value_answers_exclude()
    ensures { ValueAnswersExclude }
{}

/// The text of an argument alone decides what [`crate::read_value`] answers at a shape, want of memory aside.
pub fn inputs_are_unique()
    ensures { InputsAreUnique }
{}
