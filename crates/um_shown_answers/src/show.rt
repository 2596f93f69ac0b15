// The answer to a call whose numbers are printed with decimals, in units of the user's choice.
ghost use Rattle.std.specs.Prelude.{◌≡◌, ◌≤◌, IfOk, List, Some, length};
ghost use Rattle.um_tree.specs.TypeTree.{type_tree};
ghost use Rattle.um_tree.specs.ValueTree.{outcome_tree, value_tree};
ghost use Rattle.um_tree.specs.ProgramTree.{program_tree};
ghost use Rattle.um_tree.specs.Meaning.{outcome_of_call};
ghost use Rattle.um_front.specs.Parts.{checked_tree};
ghost use Rattle.um_call_answers.specs.AskedCall.{IsShortCall};
ghost use Rattle.um_call_answers.specs.Calling.{asked_call};
ghost use Rattle.um_call_answers.specs.OfCall.{OfCall};
ghost use Rattle.um_display.specs.UnitWords.{PartSyntax, IsUnitWord};
ghost use Rattle.um_display.specs.PartView.{units_answer};
ghost use Rattle.um_run.specs.Calls.{call_tree, call_values};
ghost use Rattle.um_run.specs.Laws.{IsTypedCall};
ghost use Rattle.um_reports.specs.Steps.{IsReply, line};
ghost use Rattle.um_shown_answers.specs.ShowAnswer.{ShowAnswer, IsShowAnswer, DisplayedRun, IsDisplayedEnd};
ghost use Rattle.um_shown_answers.specs.ShowAnswer.{IsDisplayed};
ghost use Rattle.um_shown_answers.specs.UnitsGiven.{AreUnitsOf};

use std::alloc::{AllocError, Global};
use um_call_answers::{CallWords, Compiled, read_asked};
use um_display::{Display, DisplayUnits, UnitsStop, display_units, read_parts};
use um_front::{Answer, Checked, Text, check};
use um_gen::generate;
use um_reports::{Reply, Status, reply_line, reply_to_call_range, reply_to_trap};
use um_run::Call;
use um_show::text_by;
use um_tree::{Outcome, Ty, Value};
use um_units::UnitStop;

/// The answer to an order that calls a function of a text's program and prints its value with so many digits after the
/// point, in the units that the word states.
///
/// The digits are at most 18, the word states units (`um_display::is_units`), the budget is at most 10,000,000, and no
/// text of an argument is longer than 1,048,576 bytes. The units come before the call. Want of memory is the one error;
/// each refusal is an answer. The rules are this project's own.
#[tactic(auto, unfolding(crate::specs::ShowAnswer::ShowAnswer))]
pub fn answer_show(alloc: Global, digits: u32, word: &str, call: &CallWords, text: Text) -> Answer
    requires call { IsShortCall (asked_call call.now) }
    requires few { digits ≤ 18 }
    requires short { length word.now ≤ 1048576 }
    requires stated { (parts : List PartSyntax) × IsUnitWord word.now parts }
    ensures { IfOk result (λ reply. ShowAnswer digits word.now (asked_call call.now) text
        reply.text.items reply.status) }
{
    match check(alloc, text) {
        Ok(checked) => {
            let answer = answer_checked(alloc, digits, word, call, &checked);
            checked.discard();
            answer
        }
        Err(refused) => refused,
    }
}

/// The answer in a program with its schemes.
#[tactic(auto, unfolding(crate::specs::ShowAnswer::IsShowAnswer))]
fn answer_checked(
    alloc: Global,
    digits: u32,
    word: &str,
    call: &CallWords,
    checked: &Checked,
) -> Answer
    requires call { IsShortCall (asked_call call.now) }
    requires few { digits ≤ 18 }
    requires short { length word.now ≤ 1048576 }
    requires stated { (parts : List PartSyntax) × IsUnitWord word.now parts }
    ensures { IfOk result (λ reply. IsShowAnswer digits word.now (asked_call call.now) (checked_tree checked.now)
        reply.text.items reply.status) }
{
    match units_in(alloc, word, checked) {
        Ok(units) => {
            let answer = answer_in(alloc, digits, &units, call, checked);
            drop(units);
            answer
        }
        Err(UnitsStop::NoUnit) => reply_line(alloc, "error 11: no such unit", Status::Input),
        Err(UnitsStop::PowerRange) => {
            reply_line(alloc, "error 11: power range of the units", Status::Input)
        }
        Err(UnitsStop::NoMemory) => Err(AllocError),
    }
}

/// The units in the program that the word states.
fn units_in(alloc: Global, word: &str, checked: &Checked) -> Result<DisplayUnits, UnitsStop>
    requires short { length word.now ≤ 1048576 }
    requires stated { (parts : List PartSyntax) × IsUnitWord word.now parts }
    ensures { AreUnitsOf word.now (checked_tree checked.now) (units_answer result) }
{
    match read_parts(alloc, word) {
        Ok(Some(parts)) => {
            let units = display_units(alloc, checked.program(), checked.abbreviations(), &parts);
            drop(parts);
            units
        }
        Ok(None) => unreachable!(),
        Err(_) => Err(UnitsStop::NoMemory),
    }
}

/// The answer with these units.
fn answer_in(
    alloc: Global,
    digits: u32,
    units: &DisplayUnits,
    call: &CallWords,
    checked: &Checked,
) -> Answer
    requires call { IsShortCall (asked_call call.now) }
    requires few { digits ≤ 18 }
    ensures { IfOk result (λ reply. OfCall (DisplayedRun digits units.now.items.items call.now.budget)
        (asked_call call.now) (checked_tree checked.now) reply.text.items reply.status) }
{
    let display = Display {
        program: checked.program(),
        digits,
        units: &units.items,
    };
    answer_call(alloc, call, checked, &display)
}

/// The answer to the call that the words ask for, with its value as the display prints it.
fn answer_call(alloc: Global, call: &CallWords, checked: &Checked, display: &Display) -> Answer
    requires call { IsShortCall (asked_call call.now) }
    requires same { display.now.program.now ≡ checked.now.text.shaped }
    ensures { IfOk result (λ reply. OfCall (DisplayedRun display.now.digits display.now.units.now call.now.budget)
        (asked_call call.now) (checked_tree checked.now) reply.text.items reply.status) }
{
    match read_asked(alloc, call, checked) {
        Ok(read) => {
            let answer = reply_to_run(alloc, call.budget, checked, display, &read);
            drop(read);
            answer
        }
        Err(refused) => refused,
    }
}

/// How a call that has a type ends.
#[tactic(auto, unfolding(crate::specs::ShowAnswer::DisplayedRun))]
fn reply_to_run(
    alloc: Global,
    budget: u64,
    checked: &Checked,
    display: &Display,
    call: &Call,
) -> Answer
    requires typed { IsTypedCall (program_tree checked.now.text.shaped) (call_tree call.now) }
    requires small { budget ≤ 10000000 }
    requires same { display.now.program.now ≡ checked.now.text.shaped }
    ensures { IfOk result (λ reply. DisplayedRun display.now.digits display.now.units.now budget
        (program_tree checked.now.text.shaped) (call_tree call.now) reply.text.items reply.status) }
{
    let outcome = outcome_of(alloc, budget, checked, call)?;
    let reply = reply_to_end(alloc, display, &outcome, &call.ty);
    drop(outcome);
    reply
}

/// The outcome of the call, by the program's code.
fn outcome_of(
    alloc: Global,
    budget: u64,
    checked: &Checked,
    call: &Call,
) -> Result<Outcome, AllocError>
    requires typed { IsTypedCall (program_tree checked.now.text.shaped) (call_tree call.now) }
    requires small { budget ≤ 10000000 }
    ensures { IfOk result (λ outcome. outcome_of_call (program_tree checked.now.text.shaped) call.now.function
        (call_values (call_tree call.now)) budget ≡ Some (outcome_tree outcome)) }
{
    let code = generate(alloc, checked.shaped())?;
    let outcome = Compiled::new(checked, &code).outcome(alloc, budget, call);
    drop(code);
    outcome
}

/// The line of an outcome; a value stands at the type.
fn reply_to_end(alloc: Global, display: &Display, outcome: &Outcome, ty: &Ty) -> Answer
    ensures { IfOk result (λ reply. IsDisplayedEnd display.now.digits display.now.units.now
        (program_tree display.now.program.now) (type_tree ty.now) (outcome_tree outcome.now)
        reply.text.items reply.status) }
{
    match outcome {
        Outcome::Value(value) => reply_to_value(alloc, display, value, ty),
        Outcome::Trap(trap) => reply_to_trap(alloc, *trap),
        Outcome::BudgetEnd => reply_line(alloc, "error 13: budget", Status::BudgetEnd),
    }
}

/// The line of a value at the type.
fn reply_to_value(alloc: Global, display: &Display, value: &Value, ty: &Ty) -> Answer
    ensures { IfOk result (λ reply. IsDisplayed display.now.digits display.now.units.now
        (program_tree display.now.program.now) (type_tree ty.now) (value_tree value.now)
        reply.text.items reply.status) }
{
    match text_by(alloc, display, value, ty) {
        Ok(text) => reply_text(text),
        Err(UnitStop::Range) => reply_to_call_range(alloc),
        Err(UnitStop::NoMemory) => Err(AllocError),
    }
}

/// The text as a line, and the order done.
fn reply_text(text: Vec<u8>) -> Answer
    ensures { IfOk result (λ reply. IsReply reply.text.items reply.status (line text.items) Status.Done) }
{
    let mut text = text;
    text.push(b'\n')?;
    Ok(Reply {
        text,
        status: Status::Done,
    })
}
