//! The values of arguments.
ghost use Rattle.std.specs.Prelude.{◌≡◌, ◌∷◌, ◌++◌, [], IfOk, OnOk, map};
ghost use Rattle.um_tree.specs.ValueTree.{value_tree, input_tree, without_units};

use std::alloc::Global;
use um_tree::{Input, Inputs, Value, Values, value_of};
use um_units::NoMemory;

/// The inputs without their units, in order: the values on which a function is run. It takes memory for them, and
/// `NoMemory` is its one error.
pub fn argument_values(alloc: Global, inputs: &Inputs) -> Result<Values, NoMemory>
    ensures { IfOk result (λ values. map value_tree values.items.items
        ≡ map without_units (map input_tree inputs.now.items.items)) }
{
    let inputs: &[Input] = &inputs.items;
    let mut items = Vec::new(alloc);
    for k in 0..inputs.len() {
        match add_value(alloc, &inputs[k], &mut items) {
            Ok(()) => {}
            Err(error) => {
                drop(items);
                return Err(error);
            }
        }
    }
    Ok(Values { items })
}

/// Adds the input without its units.
fn add_value(alloc: Global, input: &Input, values: &mut Vec<Value>) -> Result<(), NoMemory>
    ensures { OnOk result (map value_tree values.new.items
        ≡ map value_tree values.old.items ++ without_units (input_tree input.now) ∷ []) }
{
    let value = value_of(alloc, input)?;
    Ok(values.push(value)?)
}
