// The machine over code that was written by hand, one step after another.
ghost use Rattle.std.specs.Prelude.{IfOk};
ghost use Rattle.um_vm.specs.Showing.{IsCallOf};

use std::alloc::{AllocError, Global};
use um_frac::Frac;
use um_machine::{Code, Entries, Entry, Op, Ops};
use um_tree::{Outcome, Value, Values};
use um_vm::{Machine, Step};

// The code of one function without parameters, of one or two instructions.
fn code_of(alloc: Global, first: Op, second: Op) -> Result<Code, AllocError>
    ensures { IfOk result (λ code. IsCallOf code 0 0) }
{
    let entry = Entry {
        start: 0,
        end: 2,
        params: 0,
    };
    Ok(Code {
        ops: Ops::from_vec(vec![in alloc; first, second]?),
        entries: Entries::from_vec(vec![in alloc; entry]?),
    })
}

// Whether the machine goes on.
fn is_going(step: Step) -> bool {
    let going = matches!(&step, Step::Going);
    drop(step);
    going
}

// Whether the run has ended with the number.
fn is_number(step: Step, number: Frac) -> bool {
    let ended = matches!(&step, Step::Ended(Outcome::Value(Value::Num(n))) if n.same(number));
    drop(step);
    ended
}

// Whether the run has ended for want of budget.
fn is_budget_end(step: Step) -> bool {
    let ended = matches!(&step, Step::Ended(Outcome::BudgetEnd));
    drop(step);
    ended
}

// Whether no instruction applies.
fn is_stuck(step: Step) -> bool {
    let stuck = matches!(&step, Step::Stuck);
    drop(step);
    stuck
}

// Whether the machine goes on first, and its next two steps answer that the run has ended with the number.
fn ends_after_a_step(machine: &mut Machine, number: Frac) -> Result<bool, AllocError> {
    let going = is_going(machine.step()?);
    let ended = is_number(machine.step()?, number);
    let stays = is_number(machine.step()?, number);
    Ok(going && ended && stays)
}

// The first step of a call of the function with this budget.
fn first_step(alloc: Global, code: &Code, budget: u64) -> Result<Step, AllocError>
    requires { IsCallOf code.now 0 0 }
{
    let none = Vec::new(alloc);
    let mut machine = Machine::start(alloc, code, 0, Values { items: none }, budget)?;
    let step = machine.step();
    drop(machine);
    step
}

// Whether a call of the function goes on first, and ends then and stays ended with the number.
fn goes_on_to(alloc: Global, code: &Code, number: Frac) -> Result<bool, AllocError>
    requires { IsCallOf code.now 0 0 }
{
    let none = Vec::new(alloc);
    let mut machine = Machine::start(alloc, code, 0, Values { items: none }, 1)?;
    let ended = ends_after_a_step(&mut machine, number);
    drop(machine);
    ended
}

/// A machine goes on to the end of its call, and stays there.
pub fn a_machine_goes_on_to_its_end(alloc: Global) -> Result<bool, AllocError> {
    let code = code_of(alloc, Op::PushNum(Frac::one()), Op::Ret)?;
    let ended = goes_on_to(alloc, &code, Frac::one());
    drop(code);
    ended
}

/// A call without a budget has used it up.
pub fn a_machine_without_budget_ends(alloc: Global) -> Result<bool, AllocError> {
    let code = code_of(alloc, Op::PushNum(Frac::one()), Op::Ret)?;
    let step = first_step(alloc, &code, 0);
    drop(code);
    Ok(is_budget_end(step?))
}

/// A machine without operands for an operation is stuck.
pub fn a_machine_is_stuck_where_nothing_applies(alloc: Global) -> Result<bool, AllocError> {
    let code = code_of(alloc, Op::Add, Op::Ret)?;
    let step = first_step(alloc, &code, 1);
    drop(code);
    Ok(is_stuck(step?))
}
