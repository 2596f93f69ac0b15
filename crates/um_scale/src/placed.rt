// The literals of a program by their places.
ghost use Rattle.std.specs.Prelude.{◌≡◌, ◌++◌, IfOk, None, OnOk, Some, map, replicate, set};
ghost use Rattle.um_tree.specs.ExprTree.{expr_tree, in_order};
ghost use Rattle.um_tree.specs.ProgramTree.{function_tree};
ghost use Rattle.um_scale.specs.RescaledText.{written_literal, literals, all_literals, literals_of};
ghost use Rattle.um_scale.specs.Spelling.{by_place};

use std::alloc::{AllocError, Global};
use um_frac::Frac;
use um_tree::{Expr, Function, Node, UnitNote};

/// For each of so many places, the number of the first literal with a written unit that stands there.
pub fn numbers_by_place(
    alloc: Global,
    places: usize,
    functions: &[Function],
) -> Result<Vec<Option<Frac>>, AllocError>
    ensures { IfOk result (λ numbers. numbers.items
        ≡ by_place (replicate places None) (literals_of (map function_tree functions.now))) }
{
    let mut numbers = no_numbers(alloc, places)?;
    let literals = literals_of(alloc, functions)?;
    put_numbers(&mut numbers, &literals);
    Ok(numbers)
}

fn no_numbers(alloc: Global, places: usize) -> Result<Vec<Option<Frac>>, AllocError>
    ensures { IfOk result (λ numbers. numbers.items ≡ replicate places None) }
{
    let mut numbers = Vec::with_capacity(alloc, places)?;
    for _ in 0..places {
        numbers.push(None)?;
    }
    Ok(numbers)
}

/// Puts each number at its place, the first if two have one place.
fn put_numbers(numbers: &mut Vec<Option<Frac>>, literals: &[(u32, Frac)])
    ensures { numbers.new.items ≡ by_place numbers.old.items literals.now }
{
    for k in (0..literals.len()).rev() {
        let (place, number) = literals[k];
        put_number(numbers, place, number);
    }
}

/// Puts a number at its place, if there is one.
fn put_number(numbers: &mut Vec<Option<Frac>>, place: u32, number: Frac)
    ensures { numbers.new.items ≡ set numbers.old.items place (Some number) }
{
    if (place as usize) < numbers.len() {
        numbers[place as usize] = Some(number);
    }
}

/// The literals with a written unit, in the order of the text: the place of each, and its number.
fn literals_of(alloc: Global, functions: &[Function]) -> Result<Vec<(u32, Frac)>, AllocError>
    ensures { IfOk result (λ found. found.items ≡ literals_of (map function_tree functions.now)) }
{
    let mut found = Vec::new(alloc);
    for k in 0..functions.len() {
        push_literals(&mut found, &functions[k].body)?;
    }
    Ok(found)
}

/// Adds the literals of an expression.
#[cycle(push_literals)]
fn push_literals(found: &mut Vec<(u32, Frac)>, e: &Expr) -> Result<(), AllocError>
    ensures { OnOk result (found.new.items ≡ found.old.items ++ literals (expr_tree e.now)) }
{
    match &e.node {
        Node::Bool(_) | Node::Local(_) | Node::Nil(_) => Ok(()),
        Node::Num(number, note) => push_literal(found, e.at, *number, note),
        Node::Call(_, items) | Node::List(items) | Node::Rec(_, items) => {
            push_each(found, &items.items)
        }
        Node::Neg(a) | Node::Not(a) | Node::Pow(a, _) | Node::Field(_, _, a) => {
            push_literals(found, a)
        }
        Node::Arith(_, a, b)
        | Node::Compare(_, a, b)
        | Node::And(a, b)
        | Node::Or(a, b)
        | Node::Let(a, b)
        | Node::Cons(a, b) => push_two(found, a, b),
        Node::If(a, b, c) | Node::Match(a, b, c) => push_three(found, a, b, c),
    }
}

/// Adds a number with its place, if its unit is written.
fn push_literal(
    found: &mut Vec<(u32, Frac)>,
    at: u32,
    number: Frac,
    note: &UnitNote,
) -> Result<(), AllocError>
    ensures { OnOk result (found.new.items ≡ found.old.items ++ written_literal at number note.now) }
{
    match note {
        UnitNote::Hole => Ok(()),
        UnitNote::Written(_) => Ok(found.push((at, number))?),
    }
}

#[cycle(push_literals)]
fn push_two(found: &mut Vec<(u32, Frac)>, a: &Expr, b: &Expr) -> Result<(), AllocError>
    ensures { OnOk result (found.new.items
        ≡ found.old.items ++ (literals (expr_tree a.now) ++ literals (expr_tree b.now))) }
{
    push_literals(found, a)?;
    push_literals(found, b)
}

#[cycle(push_literals)]
fn push_three(found: &mut Vec<(u32, Frac)>, a: &Expr, b: &Expr, c: &Expr) -> Result<(), AllocError>
    ensures { OnOk result (found.new.items ≡ found.old.items
        ++ (literals (expr_tree a.now) ++ (literals (expr_tree b.now) ++ literals (expr_tree c.now)))) }
{
    push_literals(found, a)?;
    push_two(found, b, c)
}

#[cycle(push_literals)]
fn push_each(found: &mut Vec<(u32, Frac)>, items: &[Expr]) -> Result<(), AllocError>
    ensures { OnOk result (found.new.items
        ≡ found.old.items ++ all_literals (in_order (map expr_tree items.now))) }
{
    for i in 0..items.len() {
        push_literals(found, &items[i])?;
    }
    Ok(())
}
