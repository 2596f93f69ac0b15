//! Expressions.

ghost use Rattle.std.specs.Prelude.{◌≡◌, ◌∷◌, ◌++◌, [], false, OnOk, IfOk, map};
ghost use Rattle.um_tree.specs.RawTree.{decl_syntax, whole_function_syntax, binder_syntax, expr_syntax};
ghost use Rattle.um_tree.specs.RawTree.{exprs_in_order, field_part, fields_in_order, let_syntax};
ghost use Rattle.um_tree.specs.RawTree.{call_syntax, fields_syntax, if_syntax};
ghost use Rattle.um_sites.specs.declared.spaces.Space.TheVariants.{Fields};
ghost use Rattle.um_sites.specs.declared.detail.NameDetail.TheVariants.{Own, Fields as Expected};
ghost use Rattle.um_sites.specs.Spaces.{parts_of, bound, declared, names_of, fields_with};
ghost use Rattle.um_sites.specs.Sites.{told_if, is_unknown, used, counted, count_exprs, written_fields, known_in};
ghost use Rattle.um_sites.specs.Sites.{not_known, record_text_told, name_told, expr_told, exprs_told, fields_told};
ghost use Rattle.um_sites.specs.Sites.{bound_after};

use crate::detail::NameDetail;
use crate::fault::{is_unknown, is_wrong_count};
use crate::named::{Named, names_of, parts_of, push_bound, push_taking};
use crate::sites::{Asked, push_counts, push_unknown, tell_second, tell_used};
use crate::spaces::{Space, fields_with, push_callable};
use crate::types::{free_type, number_unit};
use std::alloc::{AllocError, Global};
use um_tree::{Binder, Name, Names, RawExpr, RawField, RawFunction, RawNode};

/// The function in whose body an expression stands.
#[derive(Drop)]
pub(crate) struct Body<'a> {
    pub(crate) asked: &'a Asked<'a>,
    pub(crate) function: &'a RawFunction,
}

/// Adds names with their places.
fn push_all(alloc: Global, names: &mut Vec<Named>, more: &[Named]) -> Result<(), AllocError>
    ensures { OnOk result (names.new.items ≡ names.old.items ++ more.now) }
{
    for named in more {
        push_taking(alloc, names, named.at, &named.name, named.parts)?;
    }
    Ok(())
}

/// The variables of the scope, and then the functions that may be called.
fn known_in(body: &Body, scope: &[Named]) -> Result<Vec<Named>, AllocError>
    ensures { IfOk result (λ names. names.items ≡ known_in (map decl_syntax body.now.asked.now.before.now)
        (whole_function_syntax body.now.function.now) scope.now) }
{
    let alloc = body.asked.alloc;
    let mut names = Vec::new(alloc);
    push_all(alloc, &mut names, scope)?;
    push_callable(alloc, &mut names, body.asked.before, body.function)?;
    Ok(names)
}

/// The name of the function itself.
fn push_own(told: &mut Vec<NameDetail>, alloc: Global, name: &Name) -> Result<(), AllocError>
    ensures { OnOk result (told.new.items ≡ told.old.items ++ Own name.now ∷ []) }
{
    let name = Name::from_slice(alloc, name.as_slice())?;
    told.push(NameDetail::Own { name })?;
    Ok(())
}

/// A name that isn't known.
fn push_not_known(
    told: &mut Vec<NameDetail>,
    body: &Body,
    scope: &[Named],
    name: &Name,
) -> Result<(), AllocError>
    ensures { OnOk result (told.new.items ≡ told.old.items
        ++ not_known (map decl_syntax body.now.asked.now.before.now) (whole_function_syntax body.now.function.now)
        scope.now name.now ∷ []) }
{
    if name.as_slice() == body.function.name.as_slice() {
        return push_own(told, body.asked.alloc, name);
    }
    let known = known_in(body, scope)?;
    push_unknown(body.asked.alloc, told, name, false, &known)
}

/// A name that may not be known.
fn tell_not_known(
    told: &mut Vec<NameDetail>,
    body: &Body,
    scope: &[Named],
    at: u32,
    name: &Name,
) -> Result<(), AllocError>
    ensures { OnOk result (told.new.items ≡ told.old.items ++ told_if (is_unknown body.now.asked.now.fault at)
        (not_known (map decl_syntax body.now.asked.now.before.now) (whole_function_syntax body.now.function.now)
        scope.now name.now)) }
{
    if !is_unknown(body.asked.fault, at) {
        return Ok(());
    }
    push_not_known(told, body, scope, name)
}

/// The arguments of a name.
fn tell_arguments(
    told: &mut Vec<NameDetail>,
    body: &Body,
    scope: &[Named],
    at: u32,
    name: &Name,
    found: usize,
) -> Result<(), AllocError>
    ensures { OnOk result (told.new.items ≡ told.old.items ++ counted body.now.asked.now.fault at (parts_of
        (known_in (map decl_syntax body.now.asked.now.before.now) (whole_function_syntax body.now.function.now)
        scope.now) name.now) found) }
{
    if !is_wrong_count(body.asked.fault, at) {
        return Ok(());
    }
    let known = known_in(body, scope)?;
    push_counts(told, parts_of(&known, name), found)
}

/// A name with so many arguments.
fn tell_name(
    told: &mut Vec<NameDetail>,
    body: &Body,
    scope: &[Named],
    at: u32,
    name: &Name,
    found: usize,
) -> Result<(), AllocError>
    ensures { OnOk result (told.new.items ≡ told.old.items ++ name_told body.now.asked.now.fault
        (map decl_syntax body.now.asked.now.before.now) (whole_function_syntax body.now.function.now)
        scope.now at name.now found) }
{
    tell_not_known(told, body, scope, at, name)?;
    tell_arguments(told, body, scope, at, name, found)
}

/// How many arguments there are.
fn argument_count(items: &[RawExpr]) -> usize
    ensures { result ≡ count_exprs (exprs_in_order (map expr_syntax items.now)) }
{
    items.len()
}

/// The names of the fields of a record text.
fn written_names(alloc: Global, fields: &[RawField]) -> Result<Names, AllocError>
    ensures { IfOk result (λ names. names ≡ written_fields (fields_in_order (map field_part fields.now))) }
{
    let mut names = Vec::new(alloc);
    for field in fields {
        names.push(Name::from_slice(alloc, field.name.as_slice())?)?;
    }
    Ok(Names::from_vec(names))
}

/// The fields that are expected and found.
fn push_fields_told(
    told: &mut Vec<NameDetail>,
    asked: &Asked,
    first: &Name,
    fields: &[RawField],
) -> Result<(), AllocError>
    ensures { OnOk result (told.new.items ≡ told.old.items ++ Expected
        (names_of (fields_with (map decl_syntax asked.now.before.now) first.now))
        (written_fields (fields_in_order (map field_part fields.now))) ∷ []) }
{
    let with = fields_with(asked.alloc, asked.before, first)?;
    let expected = names_of(asked.alloc, &with)?;
    let found = written_names(asked.alloc, fields)?;
    told.push(NameDetail::Fields { expected, found })?;
    Ok(())
}

/// The fields of a record text.
fn tell_record_text(
    told: &mut Vec<NameDetail>,
    asked: &Asked,
    at: u32,
    fields: &[RawField],
) -> Result<(), AllocError>
    ensures { OnOk result (told.new.items ≡ told.old.items ++ record_text_told asked.now.fault
        (map decl_syntax asked.now.before.now) at (written_fields (fields_in_order (map field_part fields.now)))) }
{
    match fields {
        [] => Ok(()),
        [first, ..] => {
            if !is_wrong_count(asked.fault, at) {
                return Ok(());
            }
            push_fields_told(told, asked, &first.name, fields)
        }
    }
}

/// An expression, in a scope.
#[cycle(expr)]
pub(crate) fn expr(
    told: &mut Vec<NameDetail>,
    body: &Body,
    scope: &mut Vec<Named>,
    e: &RawExpr,
) -> Result<(), AllocError>
    ensures told { OnOk result (told.new.items ≡ told.old.items ++ expr_told body.now.asked.now.fault
        (map decl_syntax body.now.asked.now.before.now) (whole_function_syntax body.now.function.now)
        scope.old.items (expr_syntax e.now)) }
    ensures scope { OnOk result (scope.new.items ≡ scope.old.items) }
{
    let at = e.at;
    match &e.node {
        RawNode::Bool(_) => Ok(()),
        RawNode::Num(_, note) => number_unit(told, body.asked, at, note),
        RawNode::Name(name) => tell_name(told, body, scope, at, name, 0),
        RawNode::Call(name, items) => call(told, body, scope, at, name, &items.items),
        RawNode::Neg(a) | RawNode::Not(a) | RawNode::Pow(a, _) | RawNode::Bracket(a) => {
            expr(told, body, scope, a)
        }
        RawNode::Arith(_, a, b)
        | RawNode::Compare(_, a, b)
        | RawNode::And(a, b)
        | RawNode::Or(a, b)
        | RawNode::Cons(a, b) => two(told, body, scope, a, b),
        RawNode::If(c, a, b) => three(told, body, scope, c, a, b),
        RawNode::Let(x, a, b) => bind(told, body, scope, x, a, b),
        RawNode::Match(l, a, x, y, b) => {
            two(told, body, scope, l, a)?;
            arm(told, body, scope, x, y, b)
        }
        RawNode::Nil(ty) => free_type(told, body.asked, ty),
        RawNode::List(items) => exprs(told, body, scope, &items.items),
        RawNode::Rec(fields) => record_text(told, body, scope, at, &fields.items),
        RawNode::Field(place, name, a) => {
            expr(told, body, scope, a)?;
            tell_used(told, body.asked, Space::Fields, *place, name)
        }
    }
}

#[cycle(expr)]
fn two(
    told: &mut Vec<NameDetail>,
    body: &Body,
    scope: &mut Vec<Named>,
    a: &RawExpr,
    b: &RawExpr,
) -> Result<(), AllocError>
    ensures told { OnOk result (told.new.items ≡ told.old.items ++ (expr_told body.now.asked.now.fault
        (map decl_syntax body.now.asked.now.before.now) (whole_function_syntax body.now.function.now)
        scope.old.items (expr_syntax a.now) ++ expr_told body.now.asked.now.fault
        (map decl_syntax body.now.asked.now.before.now) (whole_function_syntax body.now.function.now)
        scope.old.items (expr_syntax b.now))) }
    ensures scope { OnOk result (scope.new.items ≡ scope.old.items) }
{
    expr(told, body, scope, a)?;
    expr(told, body, scope, b)
}

#[cycle(expr)]
fn three(
    told: &mut Vec<NameDetail>,
    body: &Body,
    scope: &mut Vec<Named>,
    c: &RawExpr,
    a: &RawExpr,
    b: &RawExpr,
) -> Result<(), AllocError>
    ensures told { OnOk result (told.new.items ≡ told.old.items ++ expr_told body.now.asked.now.fault
        (map decl_syntax body.now.asked.now.before.now) (whole_function_syntax body.now.function.now)
        scope.old.items (if_syntax 0 (expr_syntax c.now) (expr_syntax a.now) (expr_syntax b.now))) }
    ensures scope { OnOk result (scope.new.items ≡ scope.old.items) }
{
    two(told, body, scope, c, a)?;
    expr(told, body, scope, b)
}

/// A call: the name with its arguments, and then the arguments.
#[cycle(expr)]
fn call(
    told: &mut Vec<NameDetail>,
    body: &Body,
    scope: &mut Vec<Named>,
    at: u32,
    name: &Name,
    items: &[RawExpr],
) -> Result<(), AllocError>
    ensures told { OnOk result (told.new.items ≡ told.old.items ++ expr_told body.now.asked.now.fault
        (map decl_syntax body.now.asked.now.before.now) (whole_function_syntax body.now.function.now)
        scope.old.items (call_syntax at name.now (exprs_in_order (map expr_syntax items.now)))) }
    ensures scope { OnOk result (scope.new.items ≡ scope.old.items) }
{
    tell_name(told, body, scope, at, name, argument_count(items))?;
    exprs(told, body, scope, items)
}

/// What follows a binder, with one more variable in scope.
#[cycle(expr)]
fn rest(
    told: &mut Vec<NameDetail>,
    body: &Body,
    scope: &mut Vec<Named>,
    x: &Binder,
    b: &RawExpr,
) -> Result<(), AllocError>
    ensures told { OnOk result (told.new.items ≡ told.old.items ++ expr_told body.now.asked.now.fault
        (map decl_syntax body.now.asked.now.before.now) (whole_function_syntax body.now.function.now)
        (scope.old.items ++ bound (binder_syntax x.now)) (expr_syntax b.now)) }
    ensures scope { OnOk result (scope.new.items ≡ scope.old.items) }
{
    let count = scope.len();
    push_bound(body.asked.alloc, scope, x)?;
    expr(told, body, scope, b)?;
    scope.truncate(count);
    Ok(())
}

/// A `let`.
#[cycle(expr)]
fn bind(
    told: &mut Vec<NameDetail>,
    body: &Body,
    scope: &mut Vec<Named>,
    x: &Binder,
    a: &RawExpr,
    b: &RawExpr,
) -> Result<(), AllocError>
    ensures told { OnOk result (told.new.items ≡ told.old.items ++ expr_told body.now.asked.now.fault
        (map decl_syntax body.now.asked.now.before.now) (whole_function_syntax body.now.function.now)
        scope.old.items (let_syntax 0 (binder_syntax x.now) (expr_syntax a.now) (expr_syntax b.now))) }
    ensures scope { OnOk result (scope.new.items ≡ scope.old.items) }
{
    expr(told, body, scope, a)?;
    rest(told, body, scope, x, b)
}

/// The arm of a list with a head: its two variables have two names, and are in scope.
#[cycle(expr)]
fn arm(
    told: &mut Vec<NameDetail>,
    body: &Body,
    scope: &mut Vec<Named>,
    x: &Binder,
    y: &Binder,
    b: &RawExpr,
) -> Result<(), AllocError>
    ensures told { OnOk result (told.new.items ≡ told.old.items ++ (bound_after body.now.asked.now.fault
        (bound (binder_syntax x.now)) (binder_syntax y.now).at (binder_syntax y.now).name
        ++ expr_told body.now.asked.now.fault
        (map decl_syntax body.now.asked.now.before.now) (whole_function_syntax body.now.function.now)
        (scope.old.items ++ bound (binder_syntax x.now) ++ bound (binder_syntax y.now)) (expr_syntax b.now))) }
    ensures scope { OnOk result (scope.new.items ≡ scope.old.items) }
{
    tell_second(told, body.asked, x, y)?;
    let count = scope.len();
    push_bound(body.asked.alloc, scope, x)?;
    rest(told, body, scope, y, b)?;
    scope.truncate(count);
    Ok(())
}

#[cycle(expr)]
fn exprs(
    told: &mut Vec<NameDetail>,
    body: &Body,
    scope: &mut Vec<Named>,
    items: &[RawExpr],
) -> Result<(), AllocError>
    ensures told { OnOk result (told.new.items ≡ told.old.items ++ exprs_told body.now.asked.now.fault
        (map decl_syntax body.now.asked.now.before.now) (whole_function_syntax body.now.function.now)
        scope.old.items (exprs_in_order (map expr_syntax items.now))) }
    ensures scope { OnOk result (scope.new.items ≡ scope.old.items) }
{
    for i in 0..items.len() {
        expr(told, body, scope, &items[i])?;
    }
    Ok(())
}

/// A record text: its fields together, and then one by one.
#[cycle(expr)]
fn record_text(
    told: &mut Vec<NameDetail>,
    body: &Body,
    scope: &mut Vec<Named>,
    at: u32,
    fields: &[RawField],
) -> Result<(), AllocError>
    ensures told { OnOk result (told.new.items ≡ told.old.items ++ expr_told body.now.asked.now.fault
        (map decl_syntax body.now.asked.now.before.now) (whole_function_syntax body.now.function.now)
        scope.old.items (fields_syntax at (fields_in_order (map field_part fields.now)))) }
    ensures scope { OnOk result (scope.new.items ≡ scope.old.items) }
{
    tell_record_text(told, body.asked, at, fields)?;
    all_fields(told, body, scope, fields)
}

#[cycle(expr)]
fn all_fields(
    told: &mut Vec<NameDetail>,
    body: &Body,
    scope: &mut Vec<Named>,
    fields: &[RawField],
) -> Result<(), AllocError>
    ensures told { OnOk result (told.new.items ≡ told.old.items ++ fields_told body.now.asked.now.fault
        (map decl_syntax body.now.asked.now.before.now) (whole_function_syntax body.now.function.now)
        scope.old.items (fields_in_order (map field_part fields.now))) }
    ensures scope { OnOk result (scope.new.items ≡ scope.old.items) }
{
    for i in 0..fields.len() {
        field(told, body, scope, &fields[i])?;
    }
    Ok(())
}

#[cycle(expr)]
fn field(
    told: &mut Vec<NameDetail>,
    body: &Body,
    scope: &mut Vec<Named>,
    field: &RawField,
) -> Result<(), AllocError>
    ensures told { OnOk result (told.new.items ≡ told.old.items ++ (used body.now.asked.now.fault
        (field_part field.now).at (field_part field.now).name false
        (declared Fields (map decl_syntax body.now.asked.now.before.now))
        ++ expr_told body.now.asked.now.fault
        (map decl_syntax body.now.asked.now.before.now) (whole_function_syntax body.now.function.now)
        scope.old.items (field_part field.now).part)) }
    ensures scope { OnOk result (scope.new.items ≡ scope.old.items) }
{
    tell_used(told, body.asked, Space::Fields, field.at, &field.name)?;
    expr(told, body, scope, &field.value)
}
