//! The rules of a function's instructions, one address after another.
ghost use Rattle.std.specs.Prelude.{◌≡◌, ◌<◌, ◌+◌, ◌-◌, ◌∷◌, [], ℕ, List, length, slice_get, get_or, vec_len};
ghost use Rattle.std.specs.Prelude.{IfOk, MatchOption};
ghost use Rattle.um_verify.specs.Rules.{Body};
ghost use Rattle.um_verify.specs.Verified.{passed, BodyHolds, CodeHolds, FirstFailure, IsFirstAddress};
ghost use Rattle.um_stacks.specs.FlatShapes.{flat_shape};
ghost use Rattle.um_stacks.specs.Stacks.{stack_at};
ghost use Rattle.um_stacks.specs.declared.flat.FlatShape.{FlatShape};
ghost use Rattle.um_verifier.specs.KnownImages.{known_body, known_view, stays};
ghost use Rattle.um_verifier.specs.States.{AreLow, IsLowMet};
ghost use Rattle.um_verifier.specs.Bodies.{AreReady};
ghost use Rattle.um_verifier.specs.Tables.{met_of, flow_of, StaysIn};
ghost use Rattle.um_verifier.specs.declared.table.Met.TheVariants.{Nobody, Arrived};

use crate::known::{Known, KnownHead};
use crate::point::Point;
use crate::rules::rule;
use crate::table::{Flow, Met, send};
use crate::view::View;
use std::alloc::{AllocError, Global};
use um_machine::{Code, Entry};
use um_stacks::{EMPTY, FlatShape, Stacks};
use um_verify::goes_on;

/// What is passed on, if it goes to later addresses of the function.
fn checked(flow: Flow, at: u32, end: u32) -> Flow
    ensures flow { (stacks : List (List FlatShape)) → flow_of stacks result ≡ stays at end (flow_of stacks flow) }
    ensures stays { StaysIn (at + 1) end result }
{
    let stays = match &flow {
        Flow::Fails => true,
        Flow::Ends => true,
        Flow::Goes(p) => goes_on(at, p.to, end),
        Flow::Forks(p, q) => goes_on(at, p.to, end) && goes_on(at, q.to, end),
    };
    if stays { flow } else { Flow::Fails }
}

/// What the instruction at an address of a function passes on, if this has arrived.
fn pass(view: &View, stacks: &Stacks, result_shape: FlatShape, at: u32, end: u32, met: Met) -> Flow
    requires address { at < end }
    requires low { IsLowMet view.now.known.now stacks.now met }
    ensures flow { (body : Body) → body.end ≡ end → body.result ≡ flat_shape result_shape → flow_of stacks.now result
        ≡ passed (known_view view.now.known.now view.now.code.now) body at (slice_get view.now.code.now.ops at)
        (met_of stacks.now met) }
    ensures stays { StaysIn (at + 1) end result }
{
    let ops = view.code.ops.as_slice();
    if ops.len() <= at as usize {
        return Flow::Fails;
    }
    let op = ops[at as usize];
    match met {
        Met::Nobody => Flow::Fails,
        Met::Clash => Flow::Fails,
        Met::Arrived(stack) => {
            let point = Point {
                known: view.known,
                stacks,
                at,
                stack,
            };
            let flow = rule(&point, result_shape, op);
            checked(flow, at, end)
        }
    }
}

/// The number of the stack of these shapes, the last of which is its top.
fn stack_of(stacks: &mut Stacks, shapes: &[FlatShape]) -> Result<u32, AllocError>
    requires empty { stacks.old ≡ [] ∷ [] }
    ensures number { IfOk result (λ stack. stack < length stacks.new) }
    ensures stack { IfOk result (λ stack. stack_at stacks.new stack ≡ shapes.now) }
{
    let mut stack = EMPTY;
    for i in 0..shapes.len() {
        stack = stacks.push(stack, shapes[i])?;
    }
    Ok(stack)
}

/// The table before the first address: this stack has arrived at it, and nobody elsewhere.
fn first_table(alloc: Global, stack: u32, count: u32) -> Result<Vec<Met>, AllocError>
    requires { 0 < count }
    ensures length { IfOk result (λ table. vec_len table ≡ count) }
    ensures first { IfOk result (λ table. get_or table.items 0 Nobody ≡ Arrived stack) }
    ensures others { IfOk result (λ table. (t : ℕ) → 0 < t → get_or table.items t Nobody ≡ Nobody) }
{
    let mut table = Vec::new(alloc);
    table.push(Met::Arrived(stack))?;
    for _ in 1..count {
        table.push(Met::Nobody)?;
    }
    Ok(table)
}

/// Nothing if the rule of each instruction of the function holds, and otherwise the first one whose rule fails.
pub(crate) fn verify_body(
    view: &View,
    entry: Entry,
    head: &KnownHead,
) -> Result<Option<u32>, AllocError>
    requires filled { entry.start < entry.end }
    requires low { AreLow view.now.known.now head.now.params.items }
    ensures { IfOk result (λ r. MatchOption r
        (BodyHolds (known_view view.now.known.now view.now.code.now) (known_body entry head.now))
        (λ n. FirstFailure (known_view view.now.known.now view.now.code.now) (known_body entry head.now) n)) }
{
    let count = entry.end - entry.start;
    let mut stacks = Stacks::new(view.alloc);
    let first = stack_of(&mut stacks, &head.params)?;
    let mut table = first_table(view.alloc, first, count)?;
    for n in 0..count {
        let met = table[n as usize];
        let flow = pass(view, &stacks, head.result, entry.start + n, entry.end, met);
        if flow.has_failed() {
            return Ok(Some(n));
        }
        send(view.alloc, &mut stacks, &mut table, entry.start, flow)?;
    }
    Ok(None)
}

/// Nothing if the rule of each address holds, and otherwise the first address whose rule fails.
pub(crate) fn verify_code(
    alloc: Global,
    known: &Known,
    code: &Code,
) -> Result<Option<u32>, AllocError>
    requires ready { AreReady known.now code.now }
    ensures { IfOk result (λ r. MatchOption r (CodeHolds (known_view known.now code.now))
        (λ a. IsFirstAddress (known_view known.now code.now) a)) }
{
    let view = View { alloc, known, code };
    let entries = code.entries.as_slice();
    for f in 0..entries.len() {
        let entry = entries[f];
        match verify_body(&view, entry, &known.heads[f])? {
            None => {}
            Some(n) => return Ok(Some(entry.start + n)),
        }
    }
    Ok(None)
}
