//! The shape of a node from those of its parts, if its rule gives one.
ghost use Rattle.std.specs.Prelude.{◌≡◌};
ghost use Rattle.std.specs.Option.{option_map};
ghost use Rattle.um_shape.specs.FirstFault.{same_shape, where_true, of_numbers, of_truths, of_arms, of_condition};
ghost use Rattle.um_shape.specs.FirstFault.{of_list, of_head, item_of};
ghost use Rattle.um_shape.specs.FlatShapes.{flat_shape, of_pair};
ghost use Rattle.um_shape.specs.Stops.{IsFound};

use crate::ShapeStop;
use crate::flat::FlatShape;

/// What a node asks of the shapes of its two parts.
#[derive(Clone, Copy)]
pub(crate) enum PairRule {
    /// Two numbers, whose whole has this shape
    Numbers(FlatShape),
    /// Two truth values, whose whole is one
    Truths,
    /// A head before its tail, whose whole has the tail's shape
    HeadAndTail,
}

/// The shape of the whole, if the two parts have the shapes that the rule asks for.
pub(crate) fn of_pair(rule: PairRule, a: FlatShape, b: FlatShape) -> Option<FlatShape>
    ensures { option_map flat_shape result ≡ of_pair rule (flat_shape a) (flat_shape b) }
{
    match rule {
        PairRule::Numbers(whole) => of_numbers(a, b, whole),
        PairRule::Truths => of_truths(a, b),
        PairRule::HeadAndTail => of_head(a, b),
    }
}

/// The shape itself, if a part of this shape is asked for.
pub(crate) fn itself(part: FlatShape, asked: FlatShape) -> Option<FlatShape>
    ensures { option_map flat_shape result
        ≡ where_true (same_shape (flat_shape part) (flat_shape asked)) (flat_shape asked) }
{
    part.same(asked).then_some(asked)
}

/// The whole, if both parts are numbers.
fn of_numbers(a: FlatShape, b: FlatShape, whole: FlatShape) -> Option<FlatShape>
    ensures { option_map flat_shape result ≡ of_numbers (flat_shape a) (flat_shape b) (flat_shape whole) }
{
    let number = FlatShape::number();
    (a.same(number) && b.same(number)).then_some(whole)
}

/// A truth value, if both parts are truth values.
fn of_truths(a: FlatShape, b: FlatShape) -> Option<FlatShape>
    ensures { option_map flat_shape result ≡ of_truths (flat_shape a) (flat_shape b) }
{
    let truth = FlatShape::truth();
    (a.same(truth) && b.same(truth)).then_some(truth)
}

/// The shape of both arms.
pub(crate) fn of_arms(a: FlatShape, b: FlatShape) -> Option<FlatShape>
    ensures { option_map flat_shape result ≡ of_arms (flat_shape a) (flat_shape b) }
{
    b.same(a).then_some(a)
}

/// The shape of both arms, if the condition is a truth value.
pub(crate) fn of_condition(c: FlatShape, a: FlatShape, b: FlatShape) -> Option<FlatShape>
    ensures { option_map flat_shape result ≡ of_condition (flat_shape c) (flat_shape a) (flat_shape b) }
{
    (c.same(FlatShape::truth()) && b.same(a)).then_some(a)
}

/// The shape itself, if it is a list.
pub(crate) fn of_list(shape: FlatShape) -> Option<FlatShape>
    ensures { option_map flat_shape result ≡ of_list (flat_shape shape) }
{
    (shape.lists > 0).then_some(shape)
}

/// The tail's shape, if it is a list of such heads.
fn of_head(head: FlatShape, tail: FlatShape) -> Option<FlatShape>
    ensures { option_map flat_shape result ≡ of_head (flat_shape head) (flat_shape tail) }
{
    tail.is_list_of(head).then_some(tail)
}

/// The shape of the items of a list.
pub(crate) fn item_of(at: u32, list: FlatShape) -> Result<FlatShape, ShapeStop>
    ensures { IsFound result (item_of at (flat_shape list)) }
{
    if list.lists == 0 {
        return Err(ShapeStop::Shape { at });
    }
    Ok(FlatShape {
        lists: list.lists - 1,
        item: list.item,
    })
}
