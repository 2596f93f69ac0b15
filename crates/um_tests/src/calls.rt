// Public calls of the lower crates that no command makes by itself, each once with ample memory.
use crate::certificates::{refusals_are_certified, schemes_are_certified};
use crate::machine::{
    a_machine_goes_on_to_its_end, a_machine_is_stuck_where_nothing_applies,
    a_machine_without_budget_ends,
};
use crate::run::{Tally, report_try};
use crate::trees::{a_unit_text_is_read, a_value_is_copied};
use std::test::Fail;

/// Makes the calls, and prints how each came out.
pub fn report_calls<R: Print + AllocGlobal>(rt: &R, total: &mut Tally) -> Result<(), Fail> {
    let alloc = rt.alloc();
    let tries = [
        ("certificates of a scheme", schemes_are_certified(alloc)?),
        ("certificates of a refusal", refusals_are_certified(alloc)?),
        (
            "a machine, step by step",
            a_machine_goes_on_to_its_end(alloc)?,
        ),
        (
            "a machine without a budget",
            a_machine_without_budget_ends(alloc)?,
        ),
        (
            "a machine without operands",
            a_machine_is_stuck_where_nothing_applies(alloc)?,
        ),
        ("a unit text alone", a_unit_text_is_read(alloc)?),
        ("a copy of a value", a_value_is_copied(alloc)?),
    ];
    for (title, agrees) in tries {
        report_try(rt, title, agrees, total)?;
    }
    Ok(())
}
