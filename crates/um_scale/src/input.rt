// Inputs in other sizes of the base units.
ghost use Rattle.std.specs.Prelude.{◌≡◌, ◌+◌, ℕ, IfOk, MatchResult, None, map};
ghost use Rattle.um_tree.specs.Formed.{IsFormedInput};
ghost use Rattle.um_tree.specs.ValueTree.{input_tree, input_trees, inputs_in_order};
ghost use Rattle.um_scaling.specs.RescaledInput.{RescaledInput};
ghost use Rattle.um_scale.specs.declared.stop.ScaleStop.TheVariants.{NoMemory};
ghost use Rattle.um_scale.specs.PassedNumbers.{IsPassed};
ghost use Rattle.um_scale.specs.RescaledInputs.{input_numbers, inputs_numbers, input_misfit};
ghost use Rattle.um_scale.specs.RescaledInputs.{rescaled_input, rescaled_inputs};
ghost use Rattle.um_scale.specs.Sizes.{sizes};
ghost use Rattle.um_scale.specs.Stops.{IsStopAt};

use crate::copies::copied_unit;
use crate::literal::{rescaled_number, rescaled_or_left};
use crate::{ScaleStop, Scales};
use std::alloc::{AllocError, Global};
use um_tree::{Input, Inputs};

/// The input in other sizes of the base units: each number with a written unit is multiplied by the unit's factor, and
/// everything else is equal. A number with a hole is 0, and stays.
///
/// A scale is made for each base unit of the input's units; one without a scale keeps its size.
///
/// # Errors
///
/// Range exactly if a factor, by its partial products, or a product with it is out of range, at the position of the
/// first such number among the input's numbers, from 0. `NoMemory` may come with any input, and so with one of more
/// numbers than a place can count.
///
/// The rule is Kennedy's (1997).
pub fn rescale_input(alloc: Global, input: &Input, scales: &Scales) -> Result<Input, ScaleStop>
    ensures exact { IfOk result (λ j. input_tree j ≡ rescaled_input scales.now (input_tree input.now)) }
    ensures rescaled { IfOk result (λ j. RescaledInput (sizes scales.now) (input_tree input.now) (input_tree j)) }
    ensures formed { (bases : ℕ) → IsFormedInput bases (input_tree input.now) →
        IfOk result (λ j. IsFormedInput bases (input_tree j)) }
    ensures range { MatchResult result (λ j. input_misfit scales.now (input_tree input.now) ≡ None)
        (IsStopAt (input_misfit scales.now (input_tree input.now))) }
{
    let _bases = scales.len();
    let _numbers = passed(input, scales, 0)?;
    Ok(rescaled_input(alloc, input, scales)?)
}

/// The position after the input's last number, if its first one has the position `from`; or the stop at the first
/// number whose rescaled number is out of range. Takes no memory.
#[cycle(passed)]
fn passed(input: &Input, scales: &Scales, from: u32) -> Result<u32, ScaleStop>
    ensures { IsPassed scales.now (input_numbers (input_tree input.now)) from result }
{
    match input {
        Input::Bool(_) => Ok(from),
        Input::Num(number, note) => match rescaled_number(*number, note, scales) {
            Some(_) => behind(from),
            None => Err(ScaleStop::Range { at: from }),
        },
        Input::List(inputs) | Input::Rec(_, inputs) => all_passed(&inputs.items, scales, from),
    }
}

#[cycle(passed)]
fn all_passed(inputs: &[Input], scales: &Scales, from: u32) -> Result<u32, ScaleStop>
    ensures { IsPassed scales.now (inputs_numbers (inputs_in_order (map input_tree inputs.now))) from result }
{
    let mut next = from;
    for i in 0..inputs.len() {
        next = passed(&inputs[i], scales, next)?;
    }
    Ok(next)
}

/// The next position. There is none after the last that a place can count.
fn behind(position: u32) -> Result<u32, ScaleStop>
    ensures { MatchResult result (λ next. next ≡ position + 1) (λ stop. stop ≡ NoMemory) }
{
    match position.checked_add(1) {
        Some(next) => Ok(next),
        None => Err(ScaleStop::NoMemory),
    }
}

/// The input with each number rescaled whose rescaled number is in range, in memory of its own.
#[cycle(rescaled_input)]
fn rescaled_input(alloc: Global, input: &Input, scales: &Scales) -> Result<Input, AllocError>
    ensures { IfOk result (λ j. input_tree j ≡ rescaled_input scales.now (input_tree input.now)) }
{
    match input {
        Input::Bool(b) => Ok(Input::Bool(*b)),
        Input::Num(number, note) => {
            let scaled = rescaled_or_left(*number, note, scales);
            Ok(Input::Num(scaled, copied_unit(alloc, note)?))
        }
        Input::List(inputs) => Ok(Input::List(rescaled_inputs(alloc, inputs, scales)?)),
        Input::Rec(r, inputs) => Ok(Input::Rec(*r, rescaled_inputs(alloc, inputs, scales)?)),
    }
}

/// Inputs in order.
#[cycle(rescaled_input)]
fn rescaled_inputs(alloc: Global, inputs: &Inputs, scales: &Scales) -> Result<Inputs, AllocError>
    ensures { IfOk result (λ js. input_trees js ≡ rescaled_inputs scales.now (input_trees inputs.now)) }
{
    let items = each_rescaled(alloc, &inputs.items, scales)?;
    Ok(Inputs { items })
}

#[cycle(rescaled_input)]
fn each_rescaled(alloc: Global, inputs: &[Input], scales: &Scales) -> Result<Vec<Input>, AllocError>
    ensures { IfOk result (λ js. map input_tree js.items
        ≡ map (λ i. rescaled_input scales.now (input_tree i)) inputs.now) }
{
    let mut items = Vec::new(alloc);
    for i in 0..inputs.len() {
        items.push(rescaled_input(alloc, &inputs[i], scales)?)?;
    }
    Ok(items)
}
