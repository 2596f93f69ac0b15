// Reading a unit text token by token.
ghost use Rattle.std.specs.Prelude.{◌≡◌, ◌<◌, IfOk, IfSome, IfNone, OnOk, Some, None, option_map, vec_len, pos};
ghost use Rattle.std.specs.Prelude.{true};
ghost use Rattle.um_unit_texts.specs.UnitTokens.{unit_token, power_of, sign as sign_token};
ghost use Rattle.um_unit_texts.specs.UnitMachine.{Need, sign_after, Have, Raised, Lowered, reduce, juxtapose, begin};
ghost use Rattle.um_unit_texts.specs.UnitMachine.{raise, raised};
ghost use Rattle.um_unit_texts.specs.UnitMachine.{lowered, close_after, opens, after, act, finish, atom_of, power_in};
ghost use Rattle.um_unit_texts.specs.UnitMachine.{is_atom, is_foreign};
ghost use Rattle.um_unit_texts.specs.UnitFrames.{operand_syntax};
ghost use Rattle.um_unit_texts.specs.UnitView.{frames_of, state_of, Simulates, Keeps, Ended, Unbracketed, ends_itself};
ghost use Rattle.um_unit_texts.specs.UnitView.{is_full, in_bracket};
ghost use Rattle.um_vocabulary.specs.declared.vocabulary.Symbol.TheVariants as symbol;

use crate::unit_frame::{Focus, Frame, Step};
use crate::unit_frames::Frames;
use crate::unit_operand::{Operand, Operands};
use std::alloc::{AllocError, Global};
use std::mem;
use um_frac::Frac;
use um_syntax::{Kind, Symbol, Token};
use um_tree::RawUnit;

// The greatest power that a text writes.
const GREATEST_POWER: i64 = 2147483647;

// Whether the innermost frame needs no token to end.
fn ends_itself(frames: &Frames) -> bool
    ensures { result ≡ ends_itself (frames_of frames.now) }
{
    match frames.entries.last() {
        Some(entry) => match &entry.frame {
            Frame::InBracket(_) => false,
            _ => true,
        },
        None => false,
    }
}

// Takes off the innermost frame if it needs no token to end.
fn pop_ended(frames: &mut Frames) -> Option<Frame>
    ensures state { Ended (frames_of frames.old) result (frames_of frames.new) }
    ensures shorter { IfSome result (λ _. vec_len frames.new.entries < vec_len frames.old.entries) }
{
    if ends_itself(frames) {
        frames.pop()
    } else {
        None
    }
}

// Ends all frames up to the innermost brackets, one after the other.
#[inline(never)]
fn end_frames(alloc: Global, frames: &mut Frames, operand: Operand) -> Result<Operand, AllocError>
    ensures { IfOk result
        (λ t. Have (frames_of frames.new) (operand_syntax t) ≡ reduce (frames_of frames.old) (operand_syntax operand)) }
{
    let mut operand = operand;
    while let Some(frame) = pop_ended(frames) {
        operand = frame.plug(alloc, operand)?;
    }
    Ok(operand)
}

// Ends all frames up to the innermost brackets. Mostly there are none to end.
#[inline(always)]
fn ended(alloc: Global, frames: &mut Frames, operand: Operand) -> Result<Operand, AllocError>
    ensures { IfOk result
        (λ t. Have (frames_of frames.new) (operand_syntax t) ≡ reduce (frames_of frames.old) (operand_syntax operand)) }
{
    if ends_itself(frames) {
        end_frames(alloc, frames, operand)
    } else {
        Ok(operand)
    }
}

/// Whether a unit text begins here.
pub fn opens(frames: &Frames) -> bool
    ensures { result ≡ opens (frames_of frames.now) }
{
    match frames.entries.last() {
        Some(entry) => match &entry.frame {
            Frame::InBracket(_) => true,
            _ => false,
        },
        None => true,
    }
}

// The unit that was read goes into a juxtaposition.
fn juxtapose(alloc: Global, frames: &mut Frames, operand: Operand) -> Result<(), AllocError>
    ensures { OnOk result (frames_of frames.new ≡ juxtapose (frames_of frames.old) (operand_syntax operand)) }
{
    let earlier = match frames.pop() {
        Some(Frame::InSide(earlier)) => earlier,
        Some(other) => {
            frames.push(other)?;
            Operands::empty(alloc)
        }
        None => Operands::empty(alloc),
    };
    frames.push(Frame::InSide(earlier.with(operand)?))
}

// The power that a number writes.
fn power_of(value: Frac, digits: bool) -> Option<i32>
    ensures { option_map pos (power_of value digits) ≡ result }
{
    let power = value.num();
    if digits && 0 <= power && power <= GREATEST_POWER {
        Some(power as i32)
    } else {
        None
    }
}

// The atom that a token is, if it is one; not an opening bracket. Its letters are moved into the atom.
fn atom(alloc: Global, kind: &mut Kind, at: u32) -> Option<Operand>
    ensures atom { option_map operand_syntax result ≡ atom_of (unit_token kind.old) at }
    ensures kept { IfNone result (kind.new ≡ kind.old) }
{
    match kind {
        Kind::Name(letters) => Some(Operand::measure(at, letters.take(alloc))),
        Kind::Var(letters) => Some(Operand::variable(at, letters.take(alloc))),
        Kind::Number { one, .. } => { if *one { Some(Operand::one(at)) } else { None } }
        Kind::Word(_) | Kind::Hole | Kind::Sign(_) => None,
    }
}

/// The power that a token writes: the value of a number whose text is digits alone, up to 2147483647.
pub fn written_power(kind: &Kind) -> Option<i32>
    ensures { option_map pos (power_in (unit_token kind.now)) ≡ result }
{
    match kind {
        Kind::Number { value, digits, .. } => power_of(*value, *digits),
        _ => None,
    }
}

// One token where an atom is wanted.
fn step_empty(
    alloc: Global,
    frames: &mut Frames,
    focus: &mut Focus,
    token: &mut Token,
) -> Result<Step, AllocError>
    requires empty { focus.old ≡ Focus.Empty }
    ensures state { IfOk result
        (λ s. Simulates (Need (frames_of frames.old)) frames.new focus.new s
        (begin (frames_of frames.old) (unit_token token.old.kind) token.old.start)) }
    ensures kept { IfOk result (λ s. Keeps s token.old token.new) }
{
    if let Some(atom) = atom(alloc, &mut token.kind, token.start) {
        focus.put(Focus::Full(atom));
        return Ok(Step::Goes);
    }
    match &token.kind {
        Kind::Sign(Symbol::LeftParen) => {
            frames.push(Frame::InBracket(token.start))?;
            Ok(Step::Goes)
        }
        Kind::Sign(Symbol::Slash) => {
            if opens(frames) {
                frames.push(Frame::InInverse(token.start))?;
                Ok(Step::Goes)
            } else {
                Ok(Step::Stops)
            }
        }
        _ => Ok(Step::Stops),
    }
}

// One token after `^`.
fn step_raised(
    alloc: Global,
    frames: &Frames,
    focus: &mut Focus,
    base: Operand,
    token: &Token,
) -> Result<Step, AllocError>
    ensures { IfOk result
        (λ s. Simulates (Raised (frames_of frames.now) (operand_syntax base)) frames.now focus.new s
        (raised (frames_of frames.now) (operand_syntax base) (unit_token token.now.kind))) }
{
    if let Some(power) = written_power(&token.kind) {
        focus.put(Focus::Full(base.power(alloc, power)?));
        return Ok(Step::Goes);
    }
    match &token.kind {
        Kind::Sign(Symbol::Minus) => {
            focus.put(Focus::Lowered(base));
            Ok(Step::Goes)
        }
        _ => {
            focus.put(Focus::Raised(base));
            Ok(Step::Stops)
        }
    }
}

// One token after `^` and `-`.
fn step_lowered(
    alloc: Global,
    frames: &Frames,
    focus: &mut Focus,
    base: Operand,
    token: &Token,
) -> Result<Step, AllocError>
    ensures { IfOk result
        (λ s. Simulates (Lowered (frames_of frames.now) (operand_syntax base)) frames.now focus.new s
        (lowered (frames_of frames.now) (operand_syntax base) (unit_token token.now.kind))) }
{
    match written_power(&token.kind) {
        Some(power) => {
            focus.put(Focus::Full(base.power(alloc, -power)?));
            Ok(Step::Goes)
        }
        None => {
            focus.put(Focus::Lowered(base));
            Ok(Step::Stops)
        }
    }
}

// The place of the innermost frame, if it is brackets, which are taken off.
#[inline(always)]
fn pop_bracket(frames: &mut Frames) -> Option<u32>
    ensures { Unbracketed (frames_of frames.old) result (frames_of frames.new) }
{
    match frames.pop() {
        Some(Frame::InBracket(at)) => Some(at),
        Some(frame) => {
            drop(frame);
            None
        }
        None => None,
    }
}

// Brackets close after the unit that was read, if any are open.
fn close_after(
    alloc: Global,
    frames: &mut Frames,
    focus: &mut Focus,
    operand: Operand,
) -> Result<Step, AllocError>
    ensures { IfOk result
        (λ s. Simulates (Have (frames_of frames.old) (operand_syntax operand)) frames.new focus.new s
        (close_after (reduce (frames_of frames.old) (operand_syntax operand)))) }
{
    let inner = ended(alloc, frames, operand)?;
    match pop_bracket(frames) {
        Some(at) => {
            focus.put(Focus::Full(inner.bracket(alloc, at)?));
            Ok(Step::Goes)
        }
        None => {
            focus.put(Focus::Full(inner));
            Ok(Step::Stops)
        }
    }
}

/// Whether it is an atom.
pub fn is_atom(operand: &Operand) -> bool
    ensures { result ≡ is_atom (operand_syntax operand.now) }
{
    match &operand.unit {
        RawUnit::One(_) | RawUnit::Name(_, _) | RawUnit::Var(_, _) | RawUnit::Bracket(_, _) => true,
        _ => false,
    }
}

// `*` or `/` after the unit that was read. After it an atom is wanted.
fn after_sign(
    alloc: Global,
    frames: &mut Frames,
    focus: &mut Focus,
    operand: Operand,
    over: bool,
) -> Result<Step, AllocError>
    requires empty { focus.old ≡ Focus.Empty }
    ensures { IfOk result
        (λ s. Simulates (Have (frames_of frames.old) (operand_syntax operand)) frames.new focus.new s
        (sign_after over (reduce (frames_of frames.old) (operand_syntax operand)))) }
{
    let left = ended(alloc, frames, operand)?;
    frames.push(if over {
        Frame::InOver(left)
    } else {
        Frame::InTimes(left)
    })?;
    Ok(Step::Goes)
}

// `^` after the unit that was read: only an atom has a power.
fn after_caret(frames: &Frames, focus: &mut Focus, operand: Operand) -> Step
    ensures { Simulates (Have (frames_of frames.now) (operand_syntax operand)) frames.now focus.new result
        (raise (frames_of frames.now) (operand_syntax operand)) }
{
    if is_atom(&operand) {
        focus.put(Focus::Raised(operand));
        Step::Goes
    } else {
        focus.put(Focus::Full(operand));
        Step::Stops
    }
}

// One token after an atom or a power, which was taken out of focus.
fn step_full(
    alloc: Global,
    frames: &mut Frames,
    focus: &mut Focus,
    operand: Operand,
    token: &mut Token,
) -> Result<Step, AllocError>
    requires empty { focus.old ≡ Focus.Empty }
    ensures state { IfOk result
        (λ s. Simulates (Have (frames_of frames.old) (operand_syntax operand)) frames.new focus.new s
        (after (frames_of frames.old) (operand_syntax operand) (unit_token token.old.kind) token.old.start)) }
    ensures kept { IfOk result (λ s. Keeps s token.old token.new) }
{
    if let Some(atom) = atom(alloc, &mut token.kind, token.start) {
        juxtapose(alloc, frames, operand)?;
        focus.put(Focus::Full(atom));
        return Ok(Step::Goes);
    }
    match &token.kind {
        Kind::Sign(Symbol::LeftParen) => {
            juxtapose(alloc, frames, operand)?;
            frames.push(Frame::InBracket(token.start))?;
            Ok(Step::Goes)
        }
        Kind::Sign(Symbol::RightParen) => close_after(alloc, frames, focus, operand),
        Kind::Sign(Symbol::Star) => after_sign(alloc, frames, focus, operand, false),
        Kind::Sign(Symbol::Slash) => after_sign(alloc, frames, focus, operand, true),
        Kind::Sign(Symbol::Caret) => Ok(after_caret(frames, focus, operand)),
        _ => {
            focus.put(Focus::Full(operand));
            Ok(Step::Stops)
        }
    }
}

/// Whether no unit text contains the token.
pub fn is_foreign(kind: &Kind) -> bool
    ensures { result ≡ is_foreign (unit_token kind.now) }
{
    match kind {
        Kind::Name(_) | Kind::Var(_) | Kind::Number { .. } => false,
        Kind::Sign(Symbol::LeftParen) => false,
        Kind::Sign(Symbol::RightParen) => false,
        Kind::Sign(Symbol::Star) => false,
        Kind::Sign(Symbol::Slash) => false,
        Kind::Sign(Symbol::Caret) => false,
        Kind::Sign(Symbol::Minus) => false,
        Kind::Sign(_) | Kind::Word(_) | Kind::Hole => true,
    }
}

// Whether the innermost frame is brackets.
#[inline(always)]
fn in_bracket(frames: &Frames) -> bool
    ensures { result ≡ in_bracket (frames_of frames.now) }
{
    match frames.entries.last() {
        Some(entry) => match &entry.frame {
            Frame::InBracket(_) => true,
            _ => false,
        },
        None => false,
    }
}

// `)` after an atom or a power that stands in brackets.
#[inline(never)]
fn close_bracket(alloc: Global, frames: &mut Frames, focus: &mut Focus) -> Result<Step, AllocError>
    requires full { is_full focus.old ≡ true }
    requires inner { in_bracket (frames_of frames.old) ≡ true }
    ensures { IfOk result
        (λ s. Simulates (state_of frames.old focus.old) frames.new focus.new s
        (act (state_of frames.old focus.old) (sign_token symbol.RightParen) 0)) }
{
    match mem::replace(focus, Focus::Empty) {
        Focus::Full(operand) => match pop_bracket(frames) {
            Some(at) => {
                let next = Focus::Full(operand.bracket(alloc, at)?);
                mem::forget(mem::replace(focus, next));
                Ok(Step::Goes)
            }
            None => {
                drop(operand);
                Ok(Step::Stops)
            }
        },
        Focus::Empty => Ok(Step::Stops),
        Focus::Raised(base) | Focus::Lowered(base) => {
            drop(base);
            Ok(Step::Stops)
        }
    }
}

// One token more, for which what stands in focus is moved out.
#[inline(never)]
fn step_moved(
    alloc: Global,
    frames: &mut Frames,
    focus: &mut Focus,
    token: &mut Token,
) -> Result<Step, AllocError>
    ensures state { IfOk result
        (λ s. Simulates (state_of frames.old focus.old) frames.new focus.new s
        (act (state_of frames.old focus.old) (unit_token token.old.kind) token.old.start)) }
    ensures kept { IfOk result (λ s. Keeps s token.old token.new) }
{
    match mem::replace(focus, Focus::Empty) {
        Focus::Empty => step_empty(alloc, frames, focus, token),
        Focus::Full(operand) => step_full(alloc, frames, focus, operand, token),
        Focus::Raised(base) => step_raised(alloc, frames, focus, base, token),
        Focus::Lowered(base) => step_lowered(alloc, frames, focus, base, token),
    }
}

/// One token more, which stays as it was if it is refused. What stands in focus goes on in its place. Brackets, of
/// which there may be many, move as little as can be.
#[inline(always)]
pub fn step(
    alloc: Global,
    frames: &mut Frames,
    focus: &mut Focus,
    token: &mut Token,
) -> Result<Step, AllocError>
    ensures state { IfOk result
        (λ s. Simulates (state_of frames.old focus.old) frames.new focus.new s
        (act (state_of frames.old focus.old) (unit_token token.old.kind) token.old.start)) }
    ensures kept { IfOk result (λ s. Keeps s token.old token.new) }
{
    match focus {
        Focus::Empty => step_empty(alloc, frames, focus, token),
        Focus::Full(_) => match &token.kind {
            Kind::Sign(Symbol::RightParen) => {
                if in_bracket(frames) {
                    close_bracket(alloc, frames, focus)
                } else {
                    step_moved(alloc, frames, focus, token)
                }
            }
            _ => step_moved(alloc, frames, focus, token),
        },
        Focus::Raised(_) | Focus::Lowered(_) => step_moved(alloc, frames, focus, token),
    }
}

fn no_operand(focus: Focus) -> Option<Operand>
    ensures { result ≡ None }
{
    drop(focus);
    None
}

fn no_whole(open: Option<Frame>, operand: Operand) -> Option<Operand>
    ensures { result ≡ None }
{
    drop(open);
    drop(operand);
    None
}

// The unit text, if all is read after an atom or a power.
fn finish_full(
    alloc: Global,
    frames: &mut Frames,
    operand: Operand,
) -> Result<Option<Operand>, AllocError>
    ensures { IfOk result
        (λ o. option_map operand_syntax o ≡ finish (Have (frames_of frames.old) (operand_syntax operand))) }
{
    let operand = ended(alloc, frames, operand)?;
    match frames.pop() {
        None => Ok(Some(operand)),
        open => Ok(no_whole(open, operand)),
    }
}

/// The unit text of the tokens that were taken, if they are one. Most are one name, and no frame is open.
pub fn finish(
    alloc: Global,
    frames: &mut Frames,
    focus: Focus,
) -> Result<Option<Operand>, AllocError>
    ensures { IfOk result (λ o. option_map operand_syntax o ≡ finish (state_of frames.old focus)) }
{
    match focus {
        Focus::Full(operand) => match frames.entries.last() {
            None => Ok(Some(operand)),
            Some(_) => finish_full(alloc, frames, operand),
        },
        other => Ok(no_operand(other)),
    }
}
