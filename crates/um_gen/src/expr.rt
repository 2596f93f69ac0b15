//! The code of expressions.
ghost use Rattle.std.specs.Prelude.{◌≡◌, ◌+◌, ◌<◌, ◌^◌, ◌++◌, ◌∷◌, [], length, map, OnOk};
ghost use Rattle.um_tree.specs.ExprTree.{expr_tree, in_order, compare, both, either, if, bind, split};
ghost use Rattle.um_tree.specs.Formed.{count};
ghost use Rattle.um_gen.specs.ProgramCode.{arith_op, sign_ops, expr_size, all_size};
ghost use Rattle.um_gen.specs.Emitting.{code_in, all_code_in, pair_in, op_where};
ghost use Rattle.um_machine.specs.declared.op.Op.TheVariants.{MakeList, MakeRec, Not};

use crate::emitter::Emitter;
use um_machine::Op;
use um_tree::{Arith, Expr, Node, Sign};
use um_units::NoMemory;

/// Writes the code of the expression, when `depth` values stand in the frame before.
///
/// The places of the variables are as before if there is memory.
#[cycle(emit)]
pub(crate) fn emit(out: &mut Emitter, depth: u32, e: &Expr) -> Result<(), NoMemory>
    requires addresses { length out.old.ops.items + expr_size (expr_tree e.now) < 2 ^ 32 }
    requires depth { depth + expr_size (expr_tree e.now) < 2 ^ 32 }
    ensures ops { OnOk result (out.new.ops.items ≡ out.old.ops.items ++ code_in out.old depth (expr_tree e.now)) }
    ensures size { OnOk result (length out.new.ops.items ≡ length out.old.ops.items + expr_size (expr_tree e.now)) }
    ensures places { OnOk result (out.new.places.items ≡ out.old.places.items) }
{
    match &e.node {
        Node::Bool(b) => out.put(Op::PushBool(*b)),
        Node::Num(c, _) => out.put(Op::PushNum(*c)),
        Node::Local(k) => {
            let place = out.place(*k);
            out.put(Op::Load(place))
        }
        Node::Nil(_) => out.put(Op::MakeList(0)),
        Node::Call(f, arguments) => emit_all(out, depth, &arguments.items, Op::Call(*f)),
        Node::List(items) => emit_all(out, depth, &items.items, list_op(&items.items)),
        Node::Rec(r, parts) => emit_all(out, depth, &parts.items, record_op(*r, &parts.items)),
        Node::Neg(a) => emit_one(out, depth, a, Op::Neg),
        Node::Not(a) => emit_one(out, depth, a, Op::Not),
        Node::Pow(a, k) => emit_one(out, depth, a, Op::Pow(*k)),
        Node::Field(_, k, a) => emit_one(out, depth, a, Op::Field(*k)),
        Node::Arith(op, a, b) => emit_two(out, depth, a, b, arith_op(*op)),
        Node::Cons(a, b) => emit_two(out, depth, a, b, Op::Cons),
        Node::Compare(sign, a, b) => emit_compare(out, depth, *sign, a, b),
        Node::And(a, b) => emit_and(out, depth, a, b),
        Node::Or(a, b) => emit_or(out, depth, a, b),
        Node::If(c, a, b) => emit_if(out, depth, c, a, b),
        Node::Let(a, b) => emit_let(out, depth, a, b),
        Node::Match(l, a, b) => emit_match(out, depth, l, a, b),
    }
}

/// The instruction that makes a list of these items.
fn list_op(items: &[Expr]) -> Op
    requires { all_size (in_order (map expr_tree items.now)) < 2 ^ 32 }
    ensures { result ≡ MakeList (count (in_order (map expr_tree items.now))) }
{
    Op::MakeList(count_of(items))
}

/// The instruction that makes a value of record `r` of these parts.
fn record_op(r: u32, parts: &[Expr]) -> Op
    requires { all_size (in_order (map expr_tree parts.now)) < 2 ^ 32 }
    ensures { result ≡ MakeRec r (count (in_order (map expr_tree parts.now))) }
{
    Op::MakeRec(r, count_of(parts))
}

/// How many expressions there are, if there is room for their code.
fn count_of(parts: &[Expr]) -> u32
    requires { all_size (in_order (map expr_tree parts.now)) < 2 ^ 32 }
    ensures { result ≡ count (in_order (map expr_tree parts.now)) }
{
    parts.len() as u32
}

fn arith_op(op: Arith) -> Op
    ensures { result ≡ arith_op op }
{
    match op {
        Arith::Add => Op::Add,
        Arith::Sub => Op::Sub,
        Arith::Mul => Op::Mul,
        Arith::Div => Op::Div,
    }
}

/// Writes the parts, and then the instruction that takes them all.
#[cycle(emit)]
fn emit_all(out: &mut Emitter, depth: u32, parts: &[Expr], op: Op) -> Result<(), NoMemory>
    requires addresses { length out.old.ops.items + all_size (in_order (map expr_tree parts.now)) + 1 < 2 ^ 32 }
    requires depth { depth + all_size (in_order (map expr_tree parts.now)) < 2 ^ 32 }
    ensures ops { OnOk result (out.new.ops.items ≡ out.old.ops.items
        ++ (all_code_in out.old depth (in_order (map expr_tree parts.now)) ++ op ∷ [])) }
    ensures size { OnOk result (length out.new.ops.items
        ≡ length out.old.ops.items + (all_size (in_order (map expr_tree parts.now)) + 1)) }
    ensures places { OnOk result (out.new.places.items ≡ out.old.places.items) }
{
    for i in 0..parts.len() {
        emit(out, depth + i as u32, &parts[i])?;
    }
    out.put(op)
}

/// Writes the part, and then the instruction that takes it.
#[cycle(emit)]
fn emit_one(out: &mut Emitter, depth: u32, a: &Expr, op: Op) -> Result<(), NoMemory>
    requires addresses { length out.old.ops.items + expr_size (expr_tree a.now) + 1 < 2 ^ 32 }
    requires depth { depth + expr_size (expr_tree a.now) + 1 < 2 ^ 32 }
    ensures ops { OnOk result (out.new.ops.items ≡ out.old.ops.items
        ++ (code_in out.old depth (expr_tree a.now) ++ op ∷ [])) }
    ensures size { OnOk result (length out.new.ops.items
        ≡ length out.old.ops.items + (expr_size (expr_tree a.now) + 1)) }
    ensures places { OnOk result (out.new.places.items ≡ out.old.places.items) }
{
    emit(out, depth, a)?;
    out.put(op)
}

/// Writes the parts, and then the instruction that takes both.
#[cycle(emit)]
fn emit_two(out: &mut Emitter, depth: u32, a: &Expr, b: &Expr, op: Op) -> Result<(), NoMemory>
    requires addresses { length out.old.ops.items +
        (expr_size (expr_tree a.now) + expr_size (expr_tree b.now)) + 1 < 2 ^ 32 }
    requires depth { depth + (expr_size (expr_tree a.now) + expr_size (expr_tree b.now)) + 1 < 2 ^ 32 }
    ensures ops { OnOk result (out.new.ops.items ≡ out.old.ops.items
        ++ pair_in out.old depth (expr_tree a.now) (expr_tree b.now) (op ∷ [])) }
    ensures size { OnOk result (length out.new.ops.items
        ≡ length out.old.ops.items + ((expr_size (expr_tree a.now) + expr_size (expr_tree b.now)) + 1)) }
    ensures places { OnOk result (out.new.places.items ≡ out.old.places.items) }
{
    emit(out, depth, a)?;
    emit(out, depth + 1, b)?;
    out.put(op)
}

/// Writes a comparison: its instruction, and `not` if the sign asks for the other truth value.
#[cycle(emit)]
fn emit_compare(
    out: &mut Emitter,
    depth: u32,
    sign: Sign,
    a: &Expr,
    b: &Expr,
) -> Result<(), NoMemory>
    requires addresses { length out.old.ops.items + expr_size
        (compare 0 sign (expr_tree a.now) (expr_tree b.now)) < 2 ^ 32 }
    requires depth { depth + expr_size (compare 0 sign (expr_tree a.now) (expr_tree b.now)) < 2 ^ 32 }
    ensures ops { OnOk result (out.new.ops.items ≡ out.old.ops.items
        ++ code_in out.old depth (compare 0 sign (expr_tree a.now) (expr_tree b.now))) }
    ensures size { OnOk result (length out.new.ops.items
        ≡ length out.old.ops.items + expr_size (compare 0 sign (expr_tree a.now) (expr_tree b.now))) }
    ensures places { OnOk result (out.new.places.items ≡ out.old.places.items) }
{
    let (op, is_other) = sign_op(sign);
    emit(out, depth, a)?;
    emit(out, depth + 1, b)?;
    out.put(op)?;
    out.put_where(is_other, Op::Not)
}

/// The instruction of a comparison, and whether the sign asks for the other truth value.
fn sign_op(sign: Sign) -> (Op, bool)
    ensures ops { sign_ops sign ≡ result.0 ∷ op_where result.1 Not }
    ensures size { length (sign_ops sign) ≡ 1 + length (op_where result.1 Not) }
{
    match sign {
        Sign::Lt => (Op::Lt, false),
        Sign::Le => (Op::Le, false),
        Sign::Eq => (Op::Eq, false),
        Sign::Gt => (Op::Le, true),
        Sign::Ge => (Op::Lt, true),
        Sign::Ne => (Op::Eq, true),
    }
}

/// Writes `&&`: the second part if the first is true, and otherwise `false`.
#[cycle(emit)]
fn emit_and(out: &mut Emitter, depth: u32, a: &Expr, b: &Expr) -> Result<(), NoMemory>
    requires addresses { length out.old.ops.items + expr_size (both 0 (expr_tree a.now) (expr_tree b.now)) < 2 ^ 32 }
    requires depth { depth + expr_size (both 0 (expr_tree a.now) (expr_tree b.now)) < 2 ^ 32 }
    ensures ops { OnOk result (out.new.ops.items ≡ out.old.ops.items
        ++ code_in out.old depth (both 0 (expr_tree a.now) (expr_tree b.now))) }
    ensures size { OnOk result (length out.new.ops.items
        ≡ length out.old.ops.items + expr_size (both 0 (expr_tree a.now) (expr_tree b.now))) }
    ensures places { OnOk result (out.new.places.items ≡ out.old.places.items) }
{
    emit(out, depth, a)?;
    let branch = out.leave_room()?;
    emit(out, depth, b)?;
    let end = out.leave_room()?;
    let other = out.address();
    out.put(Op::PushBool(false))?;
    out.fill_room(branch, Op::JumpIfNot(other), end);
    Ok(())
}

/// Writes `||`: `true` if the first part is true, and otherwise the second part.
#[cycle(emit)]
fn emit_or(out: &mut Emitter, depth: u32, a: &Expr, b: &Expr) -> Result<(), NoMemory>
    requires addresses { length out.old.ops.items + expr_size (either 0 (expr_tree a.now) (expr_tree b.now)) < 2 ^ 32 }
    requires depth { depth + expr_size (either 0 (expr_tree a.now) (expr_tree b.now)) < 2 ^ 32 }
    ensures ops { OnOk result (out.new.ops.items ≡ out.old.ops.items
        ++ code_in out.old depth (either 0 (expr_tree a.now) (expr_tree b.now))) }
    ensures size { OnOk result (length out.new.ops.items
        ≡ length out.old.ops.items + expr_size (either 0 (expr_tree a.now) (expr_tree b.now))) }
    ensures places { OnOk result (out.new.places.items ≡ out.old.places.items) }
{
    emit(out, depth, a)?;
    let branch = out.leave_room()?;
    out.put(Op::PushBool(true))?;
    let end = out.leave_room()?;
    let other = out.address();
    emit(out, depth, b)?;
    out.fill_room(branch, Op::JumpIfNot(other), end);
    Ok(())
}

/// Writes a condition and its arms.
#[cycle(emit)]
fn emit_if(out: &mut Emitter, depth: u32, c: &Expr, a: &Expr, b: &Expr) -> Result<(), NoMemory>
    requires addresses { length out.old.ops.items + expr_size
        (if 0 (expr_tree c.now) (expr_tree a.now) (expr_tree b.now)) < 2 ^ 32 }
    requires depth { depth + expr_size (if 0 (expr_tree c.now) (expr_tree a.now) (expr_tree b.now)) < 2 ^ 32 }
    ensures ops { OnOk result (out.new.ops.items ≡ out.old.ops.items
        ++ code_in out.old depth (if 0 (expr_tree c.now) (expr_tree a.now) (expr_tree b.now))) }
    ensures size { OnOk result (length out.new.ops.items
        ≡ length out.old.ops.items + expr_size (if 0 (expr_tree c.now) (expr_tree a.now) (expr_tree b.now))) }
    ensures places { OnOk result (out.new.places.items ≡ out.old.places.items) }
{
    emit(out, depth, c)?;
    let branch = out.leave_room()?;
    emit(out, depth, a)?;
    let end = out.leave_room()?;
    let other = out.address();
    emit(out, depth, b)?;
    out.fill_room(branch, Op::JumpIfNot(other), end);
    Ok(())
}

/// Writes `let`: the value of the first part stays in the frame while the second runs.
#[cycle(emit)]
fn emit_let(out: &mut Emitter, depth: u32, a: &Expr, b: &Expr) -> Result<(), NoMemory>
    requires addresses { length out.old.ops.items + expr_size (bind 0 (expr_tree a.now) (expr_tree b.now)) < 2 ^ 32 }
    requires depth { depth + expr_size (bind 0 (expr_tree a.now) (expr_tree b.now)) < 2 ^ 32 }
    ensures ops { OnOk result (out.new.ops.items ≡ out.old.ops.items
        ++ code_in out.old depth (bind 0 (expr_tree a.now) (expr_tree b.now))) }
    ensures size { OnOk result (length out.new.ops.items
        ≡ length out.old.ops.items + expr_size (bind 0 (expr_tree a.now) (expr_tree b.now))) }
    ensures places { OnOk result (out.new.places.items ≡ out.old.places.items) }
{
    emit(out, depth, a)?;
    out.places.push(depth)?;
    emit(out, depth + 1, b)?;
    out.places.pop();
    out.put(Op::Slide(1))
}

/// Writes `match` on a list: after it the arm of a list with items, whose head and tail stay in the frame while it
/// runs, and then the arm of the empty list.
#[cycle(emit)]
fn emit_match(out: &mut Emitter, depth: u32, l: &Expr, a: &Expr, b: &Expr) -> Result<(), NoMemory>
    requires addresses { length out.old.ops.items + expr_size
        (split 0 (expr_tree l.now) (expr_tree a.now) (expr_tree b.now)) < 2 ^ 32 }
    requires depth { depth + expr_size (split 0 (expr_tree l.now) (expr_tree a.now) (expr_tree b.now)) < 2 ^ 32 }
    ensures ops { OnOk result (out.new.ops.items ≡ out.old.ops.items
        ++ code_in out.old depth (split 0 (expr_tree l.now) (expr_tree a.now) (expr_tree b.now))) }
    ensures size { OnOk result (length out.new.ops.items
        ≡ length out.old.ops.items + expr_size (split 0 (expr_tree l.now) (expr_tree a.now) (expr_tree b.now))) }
    ensures places { OnOk result (out.new.places.items ≡ out.old.places.items) }
{
    emit(out, depth, l)?;
    let branch = out.leave_room()?;
    out.places.push(depth)?;
    out.places.push(depth + 1)?;
    emit(out, depth + 2, b)?;
    out.places.pop();
    out.places.pop();
    out.put(Op::Slide(2))?;
    let end = out.leave_room()?;
    let empty = out.address();
    emit(out, depth, a)?;
    out.fill_room(branch, Op::Split(empty), end);
    Ok(())
}
