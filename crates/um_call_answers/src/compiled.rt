// A program with its code.
use std::alloc::{AllocError, Global};
use std::marker::Model;
use um_front::Checked;
use um_machine::Code;
use um_run::{Call, argument_values};
use um_tree::Outcome;
use um_vm::CodeRunner;

/// A checked program with its code, of which calls are run. Contracts see the program.
#[derive(Drop)]
pub struct Compiled<'a> {
    checked: &'a Checked,
    code: &'a Code,
}

impl<'a> Model for Compiled<'a> {
    ghost use Rattle.std.specs.Prelude.{◌≡◌};
    ghost use Rattle.um_tree.specs.ProgramTree.{program_tree};
    ghost use Rattle.um_gen.specs.ProgramCode.{program_code};
    ghost use Rattle.um_front.specs.declared.parts.CheckedParts.{CheckedParts};
    ghost use Rattle.um_front.specs.contracts.parts.CheckedParts.{the_row};

    ghost Value = { CheckedParts };

    ghost coded = { the_row.coded };

    ghost view = { λ c. c.checked.now };

    ghost invariant = { λ c. c.code.now ≡ program_code (program_tree c.checked.now.text.shaped).functions };
}

impl<'a> Compiled<'a> {
    ghost use Rattle.std.specs.Prelude.{◌≡◌, IfOk, Some};
    ghost use Rattle.um_tree.specs.ProgramTree.{program_tree};
    ghost use Rattle.um_tree.specs.ValueTree.{outcome_tree};
    ghost use Rattle.um_tree.specs.Meaning.{outcome_of_call};
    ghost use Rattle.um_machine.specs.Machine.{EndsWith};
    ghost use Rattle.um_gen.specs.ProgramCode.{program_code};
    ghost use Rattle.um_run.specs.Calls.{call_tree, call_values};
    ghost use Rattle.um_run.specs.Laws.{IsTypedCall};

    /// The program with its code, which must be what `generate` gives for it. Takes no memory.
    pub fn new(checked: &'a Checked, code: &'a Code) -> Compiled<'a>
        requires { code.now ≡ program_code (program_tree checked.now.text.shaped).functions }
        ensures { result ≡ checked.now }
    {
        Compiled { checked, code }
    }

    /// The program. Takes no memory.
    pub fn checked(&self) -> &Checked
        ensures { result.now ≡ self.now }
    {
        self.checked
    }

    /// The outcome of a call that has a type, by the code, with at most so many calls. Want of memory is the one error.
    pub fn outcome(&self, alloc: Global, budget: u64, call: &Call) -> Result<Outcome, AllocError>
        requires typed { IsTypedCall (program_tree self.now.text.shaped) (call_tree call.now) }
        ensures end { IfOk result (λ outcome. EndsWith (program_code (program_tree self.now.text.shaped).functions)
            call.now.function (call_values (call_tree call.now)) budget (outcome_tree outcome)) }
        ensures meant { IfOk result (λ outcome. outcome_of_call (program_tree self.now.text.shaped) call.now.function
            (call_values (call_tree call.now)) budget ≡ Some (outcome_tree outcome)) }
    {
        let values = argument_values(alloc, &call.inputs)?;
        let runner = CodeRunner::new(self.checked.shaped(), self.code);
        match runner.count_steps(alloc, call.function, values, budget) {
            Ok(counted) => Ok(counted.outcome),
            Err(e) => Err(e),
        }
    }
}
