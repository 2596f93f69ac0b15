// Values, inputs and outcomes.
//
// A derived drop would be proved anew in each crate that drops the type. The drops of these types are proved here.
ghost use Rattle.std.specs.Prelude.{◌≡◌, IfOk, map};
ghost use Rattle.um_tree.specs.ValueTree.{value_tree, value_trees, input_tree, input_trees};
ghost use Rattle.um_tree.specs.ValueTree.{without_units, without_units_each};

use crate::UnitNote;
use std::alloc::Global;
use um_frac::{Frac, Trap};
use um_units::NoMemory;

/// A value. It carries no unit.
#[cycle(value)]
pub enum Value {
    Bool(bool),
    Num(Frac),
    List(Values),
    /// A value of the record of this number, field by field
    Rec(u32, Values),
}

impl Drop for Value {
    #[cycle(value)]
    fn drop(self) {
        match self {
            Value::Bool(_) => {}
            Value::Num(_) => {}
            Value::List(_) => {}
            Value::Rec(_, _) => {}
        }
    }
}

/// Some values, in order.
#[cycle(value)]
pub struct Values {
    pub items: Vec<Value>,
}

impl Drop for Values {
    #[cycle(value)]
    fn drop(self) {
        let Values { items: _ } = self;
    }
}

/// An argument as it is written: a value whose numbers carry their units.
#[cycle(input)]
pub enum Input {
    Bool(bool),
    Num(Frac, UnitNote),
    List(Inputs),
    Rec(u32, Inputs),
}

impl Drop for Input {
    #[cycle(input)]
    fn drop(self) {
        match self {
            Input::Bool(_) => {}
            Input::Num(_, _) => {}
            Input::List(_) => {}
            Input::Rec(_, _) => {}
        }
    }
}

/// Some inputs, in order.
#[cycle(input)]
pub struct Inputs {
    pub items: Vec<Input>,
}

impl Drop for Inputs {
    #[cycle(input)]
    fn drop(self) {
        let Inputs { items: _ } = self;
    }
}

/// How a call ends.
#[derive(Drop)]
pub enum Outcome {
    Value(Value),
    Trap(Trap),
    /// The budget of calls was used up.
    BudgetEnd,
}

/// The input without its units. It takes memory for the copied lists and records, and `NoMemory` is its one error.
#[cycle(value_of)]
pub fn value_of(alloc: Global, input: &Input) -> Result<Value, NoMemory>
    ensures { IfOk result (λ value. value_tree value ≡ without_units (input_tree input.now)) }
{
    match input {
        Input::Bool(b) => Ok(Value::Bool(*b)),
        Input::Num(c, _) => Ok(Value::Num(*c)),
        Input::List(inputs) => Ok(Value::List(values_of(alloc, inputs)?)),
        Input::Rec(r, inputs) => Ok(Value::Rec(*r, values_of(alloc, inputs)?)),
    }
}

#[cycle(value_of)]
fn values_of(alloc: Global, inputs: &Inputs) -> Result<Values, NoMemory>
    ensures { IfOk result (λ values. value_trees values ≡ without_units_each (input_trees inputs.now)) }
{
    let items = each_value_of(alloc, &inputs.items)?;
    Ok(Values { items })
}

#[cycle(value_of)]
fn each_value_of(alloc: Global, inputs: &[Input]) -> Result<Vec<Value>, NoMemory>
    ensures { IfOk result (λ values. map value_tree values.items ≡ map (λ i. without_units (input_tree i)) inputs.now) }
{
    let mut values = Vec::new(alloc);
    for i in 0..inputs.len() {
        values.push(value_of(alloc, &inputs[i])?)?;
    }
    Ok(values)
}

/// An equal value, in memory of its own. `NoMemory` is its one error.
#[cycle(copy_value)]
pub fn copy_value(alloc: Global, value: &Value) -> Result<Value, NoMemory>
    ensures { IfOk result (λ copy. value_tree copy ≡ value_tree value.now) }
{
    match value {
        Value::Bool(b) => Ok(Value::Bool(*b)),
        Value::Num(c) => Ok(Value::Num(*c)),
        Value::List(values) => Ok(Value::List(copy_values(alloc, values)?)),
        Value::Rec(r, values) => Ok(Value::Rec(*r, copy_values(alloc, values)?)),
    }
}

#[cycle(copy_value)]
fn copy_values(alloc: Global, values: &Values) -> Result<Values, NoMemory>
    ensures { IfOk result (λ copies. value_trees copies ≡ value_trees values.now) }
{
    let items = copy_each(alloc, &values.items)?;
    Ok(Values { items })
}

#[cycle(copy_value)]
fn copy_each(alloc: Global, values: &[Value]) -> Result<Vec<Value>, NoMemory>
    ensures { IfOk result (λ copies. map value_tree copies.items ≡ map value_tree values.now) }
{
    let mut copies = Vec::new(alloc);
    for i in 0..values.len() {
        copies.push(copy_value(alloc, &values[i])?)?;
    }
    Ok(copies)
}
