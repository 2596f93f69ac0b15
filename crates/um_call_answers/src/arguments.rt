// Arguments in other sizes of the base units.
ghost use Rattle.std.specs.Prelude.{◌≤◌, length, map};
ghost use Rattle.um_tree.specs.ValueTree.{input_tree};
ghost use Rattle.um_call_answers.specs.Rescaling.{IsArgumentRescaled, AreArgumentsRescaled};

use std::alloc::Global;
use um_scale::{ScaleStop, Scales, rescale_input};
use um_tree::{Input, Inputs};

/// Why arguments are not rescaled.
#[derive(Clone, Copy)]
pub enum ArgumentStop {
    /// The argument of this index, counted from 0, has a number of which no rescaled number is in range.
    Misfit { index: u32 },
    /// No memory was left.
    NoMemory,
}

/// The arguments in other sizes, or the first that doesn't fit.
pub fn rescaled_arguments(
    alloc: Global,
    inputs: &[Input],
    scales: &Scales,
) -> Result<Inputs, ArgumentStop>
    requires few { length inputs.now ≤ 16 }
    ensures { AreArgumentsRescaled scales.now (map input_tree inputs.now) result }
{
    let mut items = Vec::new(alloc);
    for k in 0..inputs.len() {
        match add_rescaled(alloc, k as u32, &inputs[k], scales, &mut items) {
            Ok(()) => {}
            Err(stop) => {
                drop(items);
                return Err(stop);
            }
        }
    }
    Ok(Inputs { items })
}

/// Adds the argument of this index in other sizes.
fn add_rescaled(
    alloc: Global,
    index: u32,
    input: &Input,
    scales: &Scales,
    items: &mut Vec<Input>,
) -> Result<(), ArgumentStop>
    ensures { IsArgumentRescaled scales.now index (input_tree input.now)
        (map input_tree items.old.items) (map input_tree items.new.items) result }
{
    match rescale_input(alloc, input, scales) {
        Ok(rescaled) => match items.push(rescaled) {
            Ok(()) => Ok(()),
            Err(_) => Err(ArgumentStop::NoMemory),
        },
        Err(ScaleStop::Range { at: _ }) => Err(ArgumentStop::Misfit { index }),
        Err(ScaleStop::NoMemory) => Err(ArgumentStop::NoMemory),
    }
}
