//! A call, from its arguments to its outcome, or to where it stops.
ghost use Rattle.std.specs.Prelude.{◌≡◌, ◌<◌, ℕ, IfOk, IsSome, List, Some, map};
ghost use Rattle.um_tree.specs.ValueTree.{ValueTree, value_tree, outcome_tree};
ghost use Rattle.um_tree.specs.ProgramTree.{FunctionTree, function_tree};
ghost use Rattle.um_tree.specs.Meaning.{Out, end_of};
ghost use Rattle.um_cells.specs.Stores.{AllDenote, HaveValues};
ghost use Rattle.um_eval.specs.Progress.{EndsWith, end_of_call};
ghost use Rattle.um_eval.specs.Paths.{IsEndOf, IsFound};

use crate::evaluator::Evaluator;
use crate::next::End;
use crate::path::stop_path;
use crate::scope::Scope;
use crate::stop::{Operands, Path};
use std::alloc::Global;
use um_cells::{Store, Word};
use um_frac::Trap;
use um_tree::{Function, Outcome, Values};
use um_units::NoMemory;

/// A run that ended.
#[derive(Drop)]
pub(crate) struct Ended<'a> {
    evaluator: Evaluator<'a>,
    end: End,
}

/// Words that denote the arguments.
pub(crate) fn put_arguments(
    alloc: Global,
    store: &mut Store,
    args: Values,
) -> Result<Vec<Word>, NoMemory>
    ensures { IfOk result (λ words. AllDenote store.new words.items (map value_tree args.items.items)) }
{
    let words = store.put_each(alloc, &args.items);
    drop(args);
    words
}

/// The outcome of a call of the function of this number on the words.
pub(crate) fn run_call(
    alloc: Global,
    functions: &[Function],
    store: Store,
    f: u32,
    words: Vec<Word>,
    budget: u64,
) -> Result<Outcome, NoMemory>
    requires words { HaveValues store words.items }
    requires right { (vs : List ValueTree) → AllDenote store words.items vs
        → IsSome (end_of_call (map function_tree functions.now) f vs budget) }
    ensures { (vs : List ValueTree) → AllDenote store words.items vs
        → IfOk result (λ outcome. end_of_call (map function_tree functions.now) f vs budget
        ≡ Some (outcome_tree outcome)) }
{
    let ended = run_to_end(alloc, functions, store, f, words, budget)?;
    outcome(alloc, &ended.evaluator.store, ended.end)
}

/// Where such a call stops, if it does so in its body.
pub(crate) fn trace_call(
    alloc: Global,
    functions: &[Function],
    store: Store,
    f: u32,
    words: Vec<Word>,
    budget: u64,
) -> Result<Option<Path>, NoMemory>
    requires words { HaveValues store words.items }
    requires right { (vs : List ValueTree) → AllDenote store words.items vs
        → IsSome (end_of_call (map function_tree functions.now) f vs budget) }
    ensures { (vs : List ValueTree) → AllDenote store words.items vs
        → IfOk result (λ found. IsFound (map function_tree functions.now) f vs budget found) }
{
    if budget == 0 {
        drop(store);
        drop(words);
        return Ok(None);
    }
    let mut ended = run_to_end(alloc, functions, store, f, words, budget)?;
    path_of(alloc, &mut ended)
}

// Calls the function of this number on the words, and runs to the end.
fn run_to_end<'a>(
    alloc: Global,
    functions: &'a [Function],
    store: Store,
    f: u32,
    words: Vec<Word>,
    budget: u64,
) -> Result<Ended<'a>, NoMemory>
    requires { HaveValues store words.items }
    ensures { (vs : List ValueTree) → AllDenote store words.items vs
        → IfOk result (λ ended. IsEndOf (map function_tree functions.now) f vs budget ended) }
{
    let mut evaluator = Evaluator {
        store,
        scope: Scope::new(alloc),
        values: words,
        frames: Vec::new(alloc),
        budget,
        value: Word::Nil,
        trap: Trap::Overflow,
        at: 0,
        operands: Operands::None,
    };
    let first = evaluator.enter(functions, f, 0, 0);
    let end = evaluator.run(functions, first)?;
    Ok(Ended { evaluator, end })
}

// The outcome of a run that ended.
fn outcome(alloc: Global, store: &Store, end: End) -> Result<Outcome, NoMemory>
    requires { (out : Out ValueTree) × EndsWith store.now end out × IsSome (end_of out) }
    ensures { (out : Out ValueTree) → EndsWith store.now end out
        → IfOk result (λ outcome. end_of out ≡ Some (outcome_tree outcome)) }
{
    match end {
        End::Value(word) => Ok(Outcome::Value(store.get(alloc, word)?)),
        End::Trap(trap) => Ok(Outcome::Trap(trap)),
        End::BudgetEnd => Ok(Outcome::BudgetEnd),
        End::Wrong => unreachable!(),
    }
}

// Where a run that ended stopped, if it did. No shape is wrong.
fn path_of(alloc: Global, ended: &mut Ended) -> Result<Option<Path>, NoMemory>
    ensures { (fs : List FunctionTree) (f : ℕ) (vs : List ValueTree) (b : ℕ) → 0 < b → IsSome (end_of_call fs f vs b)
        → IsEndOf fs f vs b ended.old → IfOk result (λ found. IsFound fs f vs b found) }
{
    match ended.end {
        End::Value(_) => Ok(None),
        End::Trap(_) => Ok(Some(stop_path(alloc, &mut ended.evaluator)?)),
        End::BudgetEnd => Ok(Some(stop_path(alloc, &mut ended.evaluator)?)),
        End::Wrong => Ok(None),
    }
}
