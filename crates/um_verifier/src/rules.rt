//! The rules of instructions. Each looks at the stack that arrives at its address, and says what is passed on: a lower
//! part of that stack, by its number, and what is pushed on it.
ghost use Rattle.std.specs.Prelude.{◌≡◌, ◌≤◌, ◌+◌, ◌-◌, ◌++◌, ◌∷◌, ◌&&◌, [], option_map, length, drop};
ghost use Rattle.um_machine.specs.declared.op.Op.TheVariants.{Load, JumpIfNot, MakeList, Cons, Split, MakeRec, Field};
ghost use Rattle.um_machine.specs.declared.op.Op.TheVariants.{Slide, Call, Ret};
ghost use Rattle.um_machine.specs.Stack.{on_found};
ghost use Rattle.um_verify.specs.StackShape.{num, list, fits, fit_all};
ghost use Rattle.um_verify.specs.Rules.{Body, fails, to, fit_one, fit_two};
ghost use Rattle.um_machine.specs.declared.code.Code.{Code};
ghost use Rattle.um_stacks.specs.FlatShapes.{item_shape, flat_shape, flat_shapes};
ghost use Rattle.um_stacks.specs.Stacks.{stack_at, shapes_at};
ghost use Rattle.um_verifier.specs.KnownImages.{fit_many};
ghost use Rattle.um_verifier.specs.States.{AreLow};
ghost use Rattle.um_verifier.specs.Points.{PassesOn, arriving, rule_at};

use crate::point::Point;
use crate::table::{Flow, Pushed, Sent};
use um_machine::Op;
use um_stacks::{FlatShape, Item, Stacks};

/// The stack with one more shape goes to the next address, if the shape is low.
fn pushed(point: &Point, low: u32, shape: FlatShape) -> Flow
    requires { AreLow point.now.known.now (stack_at point.now.stacks.now low) }
    ensures { PassesOn point.now result
        (to (point.now.at + 1) (shapes_at point.now.stacks.now low ++ flat_shape shape ∷ [])) }
{
    if !point.known.is_low(shape) {
        return Flow::Fails;
    }
    Flow::Goes(Sent {
        to: point.at + 1,
        low,
        pushed: Pushed::One(shape),
    })
}

/// `Load`
pub(crate) fn load(point: &Point, k: u32) -> Flow
    ensures { (code : Code) (body : Body) → PassesOn point.now result (rule_at point.now code body (Load k)) }
{
    match point.stacks.at(point.stack, k) {
        None => Flow::Fails,
        Some(shape) => pushed(point, point.stack, shape),
    }
}

/// An instruction on one value, which asks for a shape and gives one.
pub(crate) fn on_one(point: &Point, asked: FlatShape, given: FlatShape) -> Flow
    ensures { PassesOn point.now result
        (fit_one point.now.at (arriving point.now) (flat_shape asked) (flat_shape given)) }
{
    match point.stacks.pop(point.stack) {
        None => Flow::Fails,
        Some((y, low)) => {
            if y.fits(asked) {
                pushed(point, low, given)
            } else {
                Flow::Fails
            }
        }
    }
}

/// An instruction on two values, which asks for one shape of both and gives one.
pub(crate) fn on_two(point: &Point, asked: FlatShape, given: FlatShape) -> Flow
    ensures { PassesOn point.now result
        (fit_two point.now.at (arriving point.now) (flat_shape asked) (flat_shape given)) }
{
    match point.stacks.pop_two(point.stack) {
        None => Flow::Fails,
        Some((x, y, low)) => {
            if both_fit(x, y, asked) {
                pushed(point, low, given)
            } else {
                Flow::Fails
            }
        }
    }
}

fn both_fit(x: FlatShape, y: FlatShape, asked: FlatShape) -> bool
    ensures { result ≡ (fits (flat_shape x) (flat_shape asked) && fits (flat_shape y) (flat_shape asked)) }
{
    x.fits(asked) && y.fits(asked)
}

/// `Jump`
pub(crate) fn jump(point: &Point, t: u32) -> Flow
    ensures { PassesOn point.now result (to t (arriving point.now)) }
{
    Flow::Goes(Sent {
        to: t,
        low: point.stack,
        pushed: Pushed::Nothing,
    })
}

/// `JumpIfNot`
pub(crate) fn jump_if_not(point: &Point, t: u32) -> Flow
    ensures { (code : Code) (body : Body) → PassesOn point.now result (rule_at point.now code body (JumpIfNot t)) }
{
    match point.stacks.pop(point.stack) {
        None => Flow::Fails,
        Some((y, low)) => {
            if y.fits(FlatShape::of(Item::Bool)) {
                Flow::Forks(
                    Sent {
                        to: point.at + 1,
                        low,
                        pushed: Pushed::Nothing,
                    },
                    Sent {
                        to: t,
                        low,
                        pushed: Pushed::Nothing,
                    },
                )
            } else {
                Flow::Fails
            }
        }
    }
}

/// `Ret`
pub(crate) fn ret(point: &Point, result_shape: FlatShape) -> Flow
    ensures { (code : Code) (body : Body) → body.result ≡ flat_shape result_shape
        → PassesOn point.now result (rule_at point.now code body Ret) }
{
    match point.stacks.pop(point.stack) {
        None => Flow::Fails,
        Some((y, _)) => {
            if y.fits(result_shape) {
                Flow::Ends
            } else {
                Flow::Fails
            }
        }
    }
}

/// `Slide`
pub(crate) fn slide(point: &Point, k: u32) -> Flow
    ensures { (code : Code) (body : Body) → PassesOn point.now result (rule_at point.now code body (Slide k)) }
{
    match point.stacks.pop(point.stack) {
        None => Flow::Fails,
        Some((y, low)) => {
            let height = point.stacks.height(low);
            if height < k {
                return Flow::Fails;
            }
            let lower = point.stacks.lower(low, height - k);
            pushed(point, lower, y)
        }
    }
}

/// `MakeList`
pub(crate) fn make_list(point: &Point, n: u32) -> Flow
    ensures { (code : Code) (body : Body) → PassesOn point.now result (rule_at point.now code body (MakeList n)) }
{
    let height = point.stacks.height(point.stack);
    if height < n {
        return Flow::Fails;
    }
    let item = point.stacks.joined_items(point.stack, height - n);
    let low = point.stacks.lower(point.stack, height - n);
    pushed_list(point, low, item)
}

/// The stack with a list of such items goes to the next address, if there is such an item and the list is low.
fn pushed_list(point: &Point, low: u32, item: Option<FlatShape>) -> Flow
    requires { AreLow point.now.known.now (stack_at point.now.stacks.now low) }
    ensures { PassesOn point.now result (on_found (option_map flat_shape item) fails
        (λ s. to (point.now.at + 1) (shapes_at point.now.stacks.now low ++ list s ∷ []))) }
{
    match item {
        None => Flow::Fails,
        Some(item) => match item.list() {
            None => Flow::Fails,
            Some(list) => pushed(point, low, list),
        },
    }
}

/// `Cons`
pub(crate) fn cons(point: &Point) -> Flow
    ensures { (code : Code) (body : Body) → PassesOn point.now result (rule_at point.now code body Cons) }
{
    match point.stacks.pop_two(point.stack) {
        None => Flow::Fails,
        Some((x, y, low)) => match y.items() {
            None => Flow::Fails,
            Some(items) => pushed_list(point, low, x.join(items)),
        },
    }
}

/// `Split`
pub(crate) fn split(point: &Point, t: u32) -> Flow
    ensures { (code : Code) (body : Body) → PassesOn point.now result (rule_at point.now code body (Split t)) }
{
    match point.stacks.pop(point.stack) {
        None => Flow::Fails,
        Some((y, low)) => match y.items() {
            None => Flow::Fails,
            Some(items) => {
                if !point.known.are_low(items, y) {
                    return Flow::Fails;
                }
                Flow::Forks(
                    Sent {
                        to: t,
                        low,
                        pushed: Pushed::Nothing,
                    },
                    Sent {
                        to: point.at + 1,
                        low,
                        pushed: Pushed::Two(items, y),
                    },
                )
            }
        },
    }
}

/// `Field`
pub(crate) fn field(point: &Point, k: u32) -> Flow
    ensures { (code : Code) (body : Body) → PassesOn point.now result (rule_at point.now code body (Field k)) }
{
    match point.stacks.pop(point.stack) {
        None => Flow::Fails,
        Some((y, low)) => match point.known.part(y, k) {
            None => Flow::Fails,
            Some(part) => pushed(point, low, part),
        },
    }
}

/// Whether the shapes on the top fit these, as many as they are.
fn top_fits(stacks: &Stacks, stack: u32, asked: &[FlatShape]) -> bool
    requires { length asked.now ≤ length (stack_at stacks.now stack) }
    ensures { result ≡ fit_all (flat_shapes (drop (length (stack_at stacks.now stack) - length asked.now)
        (stack_at stacks.now stack))) (flat_shapes asked.now) }
{
    let mut low = stack;
    let mut i = asked.len();
    while i > 0 {
        i -= 1;
        match stacks.pop(low) {
            None => return false,
            Some((y, below)) => {
                if !y.fits(asked[i]) {
                    return false;
                }
                low = below;
            }
        }
    }
    true
}

/// Takes as many shapes as are asked for, if these fit them, and gives one.
fn on_all(point: &Point, asked: &[FlatShape], given: FlatShape) -> Flow
    ensures { PassesOn point.now result
        (fit_many point.now.at (arriving point.now) (flat_shapes asked.now) (flat_shape given)) }
{
    let height = point.stacks.height(point.stack);
    if (height as usize) < asked.len() {
        return Flow::Fails;
    }
    if !top_fits(point.stacks, point.stack, asked) {
        return Flow::Fails;
    }
    let low = point.stacks.lower(point.stack, height - asked.len() as u32);
    pushed(point, low, given)
}

/// `MakeRec`
pub(crate) fn make_rec(point: &Point, r: u32, n: u32) -> Flow
    ensures { (code : Code) (body : Body) → PassesOn point.now result (rule_at point.now code body (MakeRec r n)) }
{
    if point.known.records.len() <= r as usize {
        return Flow::Fails;
    }
    let fields: &[FlatShape] = &point.known.records[r as usize].fields;
    if fields.len() != n as usize {
        return Flow::Fails;
    }
    on_all(point, fields, FlatShape::of(Item::Record(r)))
}

/// `Call`
pub(crate) fn call(point: &Point, f: u32) -> Flow
    ensures { (code : Code) (body : Body) → length code.entries ≡ length point.now.known.now.heads.items
        → PassesOn point.now result (rule_at point.now code body (Call f)) }
{
    if point.known.heads.len() <= f as usize {
        return Flow::Fails;
    }
    let head = &point.known.heads[f as usize];
    on_all(point, &head.params, head.result)
}

/// The stack with the shape of an item goes to the next address.
fn push_item(point: &Point, item: Item) -> Flow
    ensures { PassesOn point.now result (to (point.now.at + 1) (arriving point.now ++ item_shape item ∷ [])) }
{
    pushed(point, point.stack, FlatShape::of(item))
}

/// An instruction that asks for a shape and gives it.
fn on_item(point: &Point, item: Item) -> Flow
    ensures { PassesOn point.now result
        (fit_one point.now.at (arriving point.now) (item_shape item) (item_shape item)) }
{
    let shape = FlatShape::of(item);
    on_one(point, shape, shape)
}

/// An instruction on two numbers.
fn on_numbers(point: &Point, given: Item) -> Flow
    ensures { PassesOn point.now result (fit_two point.now.at (arriving point.now) num (item_shape given)) }
{
    let number = FlatShape::of(Item::Num);
    on_two(point, number, FlatShape::of(given))
}

/// The rule of the instruction at this point: what is passed on is low.
pub(crate) fn rule(point: &Point, result_shape: FlatShape, op: Op) -> Flow
    ensures { (code : Code) (body : Body) → length code.entries ≡ length point.now.known.now.heads.items
        → body.result ≡ flat_shape result_shape → PassesOn point.now result (rule_at point.now code body op) }
{
    match op {
        Op::PushNum(_) => push_item(point, Item::Num),
        Op::PushBool(_) => push_item(point, Item::Bool),
        Op::Load(k) => load(point, k),
        Op::Add | Op::Sub | Op::Mul | Op::Div => on_numbers(point, Item::Num),
        Op::Neg | Op::Pow(_) => on_item(point, Item::Num),
        Op::Not => on_item(point, Item::Bool),
        Op::Lt | Op::Le | Op::Eq => on_numbers(point, Item::Bool),
        Op::Jump(t) => jump(point, t),
        Op::JumpIfNot(t) => jump_if_not(point, t),
        Op::MakeList(n) => make_list(point, n),
        Op::Cons => cons(point),
        Op::Split(t) => split(point, t),
        Op::MakeRec(r, n) => make_rec(point, r, n),
        Op::Field(k) => field(point, k),
        Op::Slide(k) => slide(point, k),
        Op::Call(f) => call(point, f),
        Op::Ret => ret(point, result_shape),
    }
}
