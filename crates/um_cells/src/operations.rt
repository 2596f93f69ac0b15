//! The operations on words that need no cells.
ghost use Rattle.std.specs.Prelude.{◌≡◌};
ghost use Rattle.um_tree.specs.ValueTree.{ValueTree};
ghost use Rattle.um_tree.specs.Meaning.{arithmetic, comparison, calculated, compared, negated, not_of, raised};
ghost use Rattle.um_tree.specs.Meaning.{number_result};
ghost use Rattle.um_cells.specs.declared.store.Store.{Store};
ghost use Rattle.um_cells.specs.Stores.{DenotesIn};
ghost use Rattle.um_cells.specs.Operations.{truth_in, number_in, IsOutcome};

use crate::word::Word;
use um_frac::{Frac, Trap};
use um_tree::{Arith, Sign};

/// What an operation on words comes to.
#[derive(Clone, Copy)]
pub enum WordOutcome {
    Value(Word),
    /// The numbers have no result
    Trap(Trap),
    /// A word isn't a value of the kind that the operation takes
    Wrong,
}

/// The truth value that the word is, if it is one.
pub fn truth(word: Word) -> Option<bool>
    ensures { (s : Store) (v : ValueTree) → DenotesIn s word v → truth_in v ≡ result }
{
    match word {
        Word::Bool(b) => Some(b),
        Word::Num(_) => None,
        Word::Nil => None,
        Word::List(_) => None,
        Word::Rec(_, _) => None,
    }
}

// The number that the word is, if it is one.
fn number(word: Word) -> Option<Frac>
    ensures { (s : Store) (v : ValueTree) → DenotesIn s word v → number_in v ≡ result }
{
    match word {
        Word::Bool(_) => None,
        Word::Num(c) => Some(c),
        Word::Nil => None,
        Word::List(_) => None,
        Word::Rec(_, _) => None,
    }
}

/// The number with the other sign. It doesn't trap, and is wrong exactly if the word isn't a number.
pub fn negate(word: Word) -> WordOutcome
    ensures { (s : Store) (v : ValueTree) → DenotesIn s word v → IsOutcome s (negated v) result }
{
    match number(word) {
        Some(c) => WordOutcome::Value(Word::Num(c.neg())),
        None => WordOutcome::Wrong,
    }
}

/// The other truth value. It doesn't trap, and is wrong exactly if the word isn't a truth value.
pub fn not(word: Word) -> WordOutcome
    ensures { (s : Store) (v : ValueTree) → DenotesIn s word v → IsOutcome s (not_of v) result }
{
    match truth(word) {
        Some(b) => WordOutcome::Value(Word::Bool(!b)),
        None => WordOutcome::Wrong,
    }
}

/// The number to the power `k`. It traps as `Frac::pow` does, and is wrong exactly if the word isn't a number.
pub fn raise(word: Word, k: i32) -> WordOutcome
    ensures { (s : Store) (v : ValueTree) → DenotesIn s word v → IsOutcome s (raised k v) result }
{
    match number(word) {
        Some(c) => of_number(c.pow(k)),
        None => WordOutcome::Wrong,
    }
}

/// What the operation gives on two numbers. It traps as that of `Frac` does, and is wrong exactly if one of the
/// words isn't a number.
pub fn calculate(op: Arith, x: Word, y: Word) -> WordOutcome
    ensures { (s : Store) (v u : ValueTree) → DenotesIn s x v → DenotesIn s y u
        → IsOutcome s (calculated op v u) result }
{
    let Some(a) = number(x) else {
        return WordOutcome::Wrong
    };
    let Some(b) = number(y) else {
        return WordOutcome::Wrong
    };
    of_number(arithmetic(op, a, b))
}

/// The truth value of the comparison of two numbers. It doesn't trap, and is wrong exactly if one of the words isn't
/// a number.
pub fn compare(sign: Sign, x: Word, y: Word) -> WordOutcome
    ensures { (s : Store) (v u : ValueTree) → DenotesIn s x v → DenotesIn s y u
        → IsOutcome s (compared sign v u) result }
{
    let Some(a) = number(x) else {
        return WordOutcome::Wrong
    };
    let Some(b) = number(y) else {
        return WordOutcome::Wrong
    };
    WordOutcome::Value(Word::Bool(comparison(sign, a, b)))
}

fn arithmetic(op: Arith, a: Frac, b: Frac) -> Result<Frac, Trap>
    ensures { result ≡ arithmetic op a b }
{
    match op {
        Arith::Add => a.add(b),
        Arith::Sub => a.sub(b),
        Arith::Mul => a.mul(b),
        Arith::Div => a.div(b),
    }
}

fn comparison(sign: Sign, a: Frac, b: Frac) -> bool
    ensures { result ≡ comparison sign a b }
{
    match sign {
        Sign::Lt => a.less(b),
        Sign::Le => !b.less(a),
        Sign::Eq => a.same(b),
        Sign::Gt => b.less(a),
        Sign::Ge => !a.less(b),
        Sign::Ne => !a.same(b),
    }
}

fn of_number(number: Result<Frac, Trap>) -> WordOutcome
    ensures { (s : Store) → IsOutcome s (number_result number) result }
{
    match number {
        Ok(c) => WordOutcome::Value(Word::Num(c)),
        Err(trap) => WordOutcome::Trap(trap),
    }
}
