//! The operations of frames on words.
ghost use Rattle.std.specs.Prelude.{◌≡◌, IfOk};
ghost use Rattle.um_tree.specs.ValueTree.{ValueTree};
ghost use Rattle.um_cells.specs.Stores.{DenotesIn, HasValue, Keeps};
ghost use Rattle.um_cells.specs.Operations.{IsOutcome};
ghost use Rattle.um_eval.specs.Frames.{applied, operated};
ghost use Rattle.um_eval.specs.Settling.{binary_place, given_operands, number_of, one_operand};
ghost use Rattle.um_eval.specs.Settling.{two_operands, unary_place};

use crate::frame::{Binary, Unary};
use crate::stop::Operands;
use um_cells::{Store, Word, WordOutcome, calculate, compare, negate, not, raise};
use um_frac::Frac;
use um_units::NoMemory;

/// The operation of one part.
pub(crate) fn apply(store: &Store, op: Unary, word: Word) -> WordOutcome
    ensures { (v : ValueTree) → DenotesIn store.now word v → IsOutcome store.now (applied op v) result }
{
    match op {
        Unary::Negate => negate(word),
        Unary::Not => not(word),
        Unary::Power(k, _) => raise(word, k),
        Unary::Field(r, k) => {
            match store.field(r, k as usize, word) {
                Some(part) => WordOutcome::Value(part),
                None => WordOutcome::Wrong,
            }
        }
    }
}

/// The operation of two parts. What earlier words denote is kept.
pub(crate) fn operate(
    store: &mut Store,
    op: Binary,
    x: Word,
    y: Word,
) -> Result<WordOutcome, NoMemory>
    requires left { HasValue store.old x }
    requires right { HasValue store.old y }
    ensures keeps { Keeps store.old store.new }
    ensures done { IfOk result (λ outcome. (v u : ValueTree) → DenotesIn store.old x v → DenotesIn store.old y u
        → IsOutcome store.new (operated op v u) outcome) }
{
    match op {
        Binary::Arith(op, _) => Ok(calculate(op, x, y)),
        Binary::Compare(sign) => Ok(compare(sign, x, y)),
        Binary::Cons => {
            match store.cons(x, y)? {
                Some(list) => Ok(WordOutcome::Value(list)),
                None => Ok(WordOutcome::Wrong),
            }
        }
    }
}

/// The place of an operation of one part; 0 of one that doesn't trap.
pub(crate) fn unary_place(op: Unary) -> u32
    ensures { result ≡ unary_place op }
{
    match op {
        Unary::Power(_, at) => at,
        Unary::Negate => 0,
        Unary::Not => 0,
        Unary::Field(_, _) => 0,
    }
}

/// The place of an operation of two parts; 0 of one that doesn't trap.
pub(crate) fn binary_place(op: Binary) -> u32
    ensures { result ≡ binary_place op }
{
    match op {
        Binary::Arith(_, at) => at,
        Binary::Compare(_) => 0,
        Binary::Cons => 0,
    }
}

/// The operands of an operation that traps, which are numbers: the second or the only one, and the first of two.
pub(crate) fn given_operands(first: Option<Word>, last: Word) -> Operands
    ensures { result ≡ given_operands first last }
{
    match first {
        None => one_operand(number(last)),
        Some(first) => two_operands(number(first), number(last)),
    }
}

fn one_operand(x: Option<Frac>) -> Operands
    ensures { result ≡ one_operand x }
{
    match x {
        None => Operands::None,
        Some(x) => Operands::One(x),
    }
}

fn two_operands(x: Option<Frac>, y: Option<Frac>) -> Operands
    ensures { result ≡ two_operands x y }
{
    match x {
        None => Operands::None,
        Some(x) => {
            match y {
                None => Operands::None,
                Some(y) => Operands::Two(x, y),
            }
        }
    }
}

// The number that the word is, if it is one.
fn number(word: Word) -> Option<Frac>
    ensures { result ≡ number_of word }
{
    match word {
        Word::Bool(_) => None,
        Word::Num(c) => Some(c),
        Word::Nil => None,
        Word::List(_) => None,
        Word::Rec(_, _) => None,
    }
}
