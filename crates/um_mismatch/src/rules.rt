//! The shape of a node from those of its parts, or what is told if its rule gives none.
ghost use Rattle.std.specs.Prelude.{◌≡◌, ◌≤◌, IfOk, length, slice_get};
ghost use Rattle.um_tree.specs.TypeTree.{list_shape};
ghost use Rattle.um_mismatch.specs.NodeRules.{known, list_item, of_one, of_two, of_nil, of_equal};
ghost use Rattle.um_mismatch.specs.NodeRules.{of_condition, of_head, of_others, of_items, of_parts, of_all};
ghost use Rattle.um_mismatch.specs.FlatShapes.{flat_shape, flat_shapes, rule_result, of_pair, each_rule, each_first};

use crate::flat::FlatShape;
use crate::kind::Kind;
use crate::mismatch::Mismatch;
use std::alloc::AllocError;
use um_agree::Rule;

/// What a node asks of the shapes of its two parts.
#[derive(Clone, Copy)]
pub(crate) enum PairRule {
    /// Two numbers, whose whole has this shape
    Numbers(FlatShape),
    /// Two truth values, whose whole is one
    Truths,
    /// A head before its tail, whose whole has the tail's shape
    HeadAndTail,
}

/// The shape of the whole of two parts, by the rule of their node.
pub(crate) fn of_pair(rule: PairRule, a: FlatShape, b: FlatShape) -> Result<FlatShape, Mismatch>
    ensures { rule_result result ≡ of_pair rule (flat_shape a) (flat_shape b) }
{
    match rule {
        PairRule::Numbers(whole) => of_two(Kind::Number, FlatShape::number(), whole, a, b),
        PairRule::Truths => of_two(Kind::Truth, FlatShape::truth(), FlatShape::truth(), a, b),
        PairRule::HeadAndTail => of_head(a, b),
    }
}

/// The k-th of some shapes.
pub(crate) fn shape_at(shapes: &[FlatShape], k: u32) -> Result<FlatShape, Mismatch>
    ensures { rule_result result ≡ known (slice_get (flat_shapes shapes.now) k) }
{
    match shapes.get(k as usize) {
        Some(shape) => Ok(*shape),
        None => Err(Mismatch::Unformed),
    }
}

/// The shape that is asked for, if the part of this kind has it.
pub(crate) fn of_one(kind: Kind, asked: FlatShape, part: FlatShape) -> Result<FlatShape, Mismatch>
    ensures { rule_result result ≡ of_one kind (flat_shape asked) (flat_shape part) }
{
    if part.same(asked) {
        return Ok(asked);
    }
    Err(Mismatch::Unexpected(kind, part))
}

/// The whole, if both parts of this kind have the shape that is asked for.
fn of_two(
    kind: Kind,
    asked: FlatShape,
    whole: FlatShape,
    a: FlatShape,
    b: FlatShape,
) -> Result<FlatShape, Mismatch>
    ensures { rule_result result
        ≡ of_two kind (flat_shape asked) (flat_shape whole) (flat_shape a) (flat_shape b) }
{
    if !a.same(asked) {
        return Err(Mismatch::Unexpected(kind, a));
    }
    if !b.same(asked) {
        return Err(Mismatch::Unexpected(kind, b));
    }
    Ok(whole)
}

/// The shape of an empty list with this note.
pub(crate) fn of_nil(note: FlatShape) -> Result<FlatShape, Mismatch>
    ensures { rule_result result ≡ of_nil (flat_shape note) (list_item (flat_shape note)) }
{
    match note.list_item() {
        Some(_) => Ok(note),
        None => Err(Mismatch::Unexpected(Kind::EmptyList, note)),
    }
}

/// The shape of both parts.
pub(crate) fn of_equal(rule: Rule, a: FlatShape, b: FlatShape) -> Result<FlatShape, Mismatch>
    ensures { rule_result result ≡ of_equal rule (flat_shape a) (flat_shape b) }
{
    if b.same(a) {
        return Ok(a);
    }
    Err(Mismatch::Unequal(rule, a, b))
}

/// The shape of both branches, if the condition is a truth value.
pub(crate) fn of_condition(c: FlatShape, a: FlatShape, b: FlatShape) -> Result<FlatShape, Mismatch>
    ensures { rule_result result ≡ of_condition (flat_shape c) (flat_shape a) (flat_shape b) }
{
    if !c.same(FlatShape::truth()) {
        return Err(Mismatch::Unexpected(Kind::Truth, c));
    }
    of_equal(Rule::Branches, a, b)
}

/// The tail's shape, if it is a list of such heads.
fn of_head(head: FlatShape, tail: FlatShape) -> Result<FlatShape, Mismatch>
    ensures { rule_result result
        ≡ of_head (flat_shape head) (flat_shape tail) (list_item (flat_shape tail)) }
{
    match tail.list_item() {
        None => Err(Mismatch::Unexpected(Kind::List, tail)),
        Some(item) => {
            if item.same(head) {
                return Ok(tail);
            }
            Err(Mismatch::Unequal(Rule::Head, head, item))
        }
    }
}

/// The list of these items.
pub(crate) fn of_items(items: &[FlatShape]) -> Result<Result<FlatShape, Mismatch>, AllocError>
    ensures { IfOk result (λ given. rule_result given ≡ of_items (flat_shapes items.now)) }
{
    let Some((first, rest)) = items.split_first() else {
        return Ok(Err(Mismatch::Unformed));
    };
    let whole = first.list()?;
    Ok(of_others(*first, whole, rest))
}

/// The whole, if the items after the first have its shape.
fn of_others(first: FlatShape, whole: FlatShape, rest: &[FlatShape]) -> Result<FlatShape, Mismatch>
    requires { flat_shape whole ≡ list_shape (flat_shape first) }
    ensures { rule_result result ≡ of_others 2 (flat_shape first) (flat_shapes rest.now) }
{
    for k in 0..rest.len() {
        if !rest[k].same(first) {
            return Err(Mismatch::Unequal(Rule::Item(2 + k), first, rest[k]));
        }
    }
    Ok(whole)
}

/// What asks for the shape of each part.
#[derive(Clone, Copy)]
pub(crate) enum Each {
    /// A call of this function
    Argument(u32),
    /// A value of this record
    Part(u32),
}

impl Each {
    /// The rule of the part of this number.
    fn rule(self, k: usize) -> Rule
        ensures { result ≡ each_rule self k }
    {
        match self {
            Each::Argument(f) => Rule::Argument(f, k),
            Each::Part(r) => Rule::Part(r, k),
        }
    }

    /// The number of the first part.
    fn first(self) -> usize
        ensures number { result ≡ each_first self }
        ensures low { result ≤ 1 }
    {
        match self {
            Each::Argument(_) => 1,
            Each::Part(_) => 0,
        }
    }
}

/// The whole, if there are as many parts as are asked for, and each has the shape that is asked for.
pub(crate) fn of_all(
    each: Each,
    whole: FlatShape,
    asked: &[FlatShape],
    parts: &[FlatShape],
) -> Result<FlatShape, Mismatch>
    ensures { rule_result result
        ≡ of_all (each_rule each) (each_first each) (flat_shape whole) (flat_shapes asked.now) (flat_shapes parts.now) }
{
    if parts.len() != asked.len() {
        return Err(Mismatch::Unformed);
    }
    of_parts(each, whole, asked, parts)
}

/// The whole, if each part has the shape that is asked for.
fn of_parts(
    each: Each,
    whole: FlatShape,
    asked: &[FlatShape],
    parts: &[FlatShape],
) -> Result<FlatShape, Mismatch>
    requires { length parts.now ≡ length asked.now }
    ensures { rule_result result
        ≡ of_parts (each_rule each) (each_first each) (flat_shape whole)
        (flat_shapes asked.now) (flat_shapes parts.now) }
{
    let first = each.first();
    for k in 0..asked.len() {
        if !parts[k].same(asked[k]) {
            return Err(Mismatch::Unequal(each.rule(first + k), asked[k], parts[k]));
        }
    }
    Ok(whole)
}
