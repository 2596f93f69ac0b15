// An atom after an atom: it is an argument.
ghost use Rattle.std.specs.Prelude.{◌≡◌, ◌<◌, ◌∷◌, IfOk, None, Some, OnOk, false, true};
ghost use Rattle.um_operands.specs.ExprKinds.{is_name};
ghost use Rattle.um_operands.specs.ExprBegun.{InArgument as in_argument, top_bound};
ghost use Rattle.um_operands.specs.ExprOperands.{operand_expr, operand_exprs};
ghost use Rattle.um_operands.specs.ExprFrames.{view_frame, is_call};
ghost use Rattle.um_operands.specs.ExprStack.{frames_of};
ghost use Rattle.um_operands.specs.ExprFocus.{open_in};
ghost use Rattle.um_forms.specs.declared.token.ExprToken.TheVariants.{Name as name_token};
ghost use Rattle.um_forms.specs.ExprForms.{begins_atom, argument, begin_in};
ghost use Rattle.um_forms.specs.ExprSteps.{SimulatesAfter, Argued, in_call};

use crate::token::ExprToken;
use crate::wanted::begin;
use std::alloc::{AllocError, Global};
use std::mem;
use um_operands::{Begun, Focus, Frame, Frames, Operand, Operands, Step, composite, whole};
use um_tree::{Name, RawExpr, RawNode};

/// Whether the innermost frame is a call.
pub fn in_call(frames: &Frames) -> bool
    ensures { result ≡ in_call (frames_of frames.now) }
{
    match frames.entries.last() {
        Some(entry) => entry.frame.is_call(),
        None => false,
    }
}

/// What an operand before an atom becomes: a part of a call, and its box is free for the atom, or it is handed back.
#[derive(Drop)]
pub(crate) enum Before {
    Called(Box<RawExpr>),
    Back(Operand),
}

// The box of an operand that is let go with its frame.
fn no_call(frame: Frame, operand: Operand) -> Box<RawExpr> {
    frame.discard();
    operand.tree
}

// One argument more of this call. Gives the box in which it stood.
fn add_argument(
    frames: &mut Frames,
    frame: Frame,
    operand: Operand,
) -> Result<Box<RawExpr>, AllocError>
    requires { is_call (view_frame frame) ≡ true }
    ensures { OnOk result
        (argument (view_frame frame ∷ frames_of frames.old) (operand_expr operand) ≡ Some (frames_of frames.new)) }
{
    match frame {
        Frame::InArgument(at, name, before) => match before.with_room(operand) {
            Ok((arguments, room)) => open_call(frames, at, name, arguments, room),
            Err(error) => Err(error),
        },
        other => Ok(no_call(other, operand)),
    }
}

// The call with these arguments is open. Gives the box.
#[inline(always)]
fn open_call(
    frames: &mut Frames,
    at: u32,
    name: Name,
    arguments: Operands,
    room: Box<RawExpr>,
) -> Result<Box<RawExpr>, AllocError>
    ensures { OnOk result (frames_of frames.new
        ≡ in_argument at name (operand_exprs arguments) ∷ frames_of frames.old) }
{
    match frames.push(Frame::InArgument(at, name, arguments)) {
        Ok(()) => Ok(room),
        Err(error) => {
            drop(room);
            Err(error)
        }
    }
}

// One argument more of the innermost call. Gives the box in which it stood.
fn more_arguments(frames: &mut Frames, operand: Operand) -> Result<Box<RawExpr>, AllocError>
    requires { in_call (frames_of frames.old) ≡ true }
    ensures { OnOk result (argument (frames_of frames.old) (operand_expr operand) ≡ Some (frames_of frames.new)) }
{
    match frames.pop() {
        Some(frame) => add_argument(frames, frame, operand),
        None => Ok(operand.tree),
    }
}

// A name becomes a call, and its box is given. Once the name is taken out, its node holds nothing that has to be let
// go.
#[inline(always)]
fn first_argument(
    alloc: Global,
    frames: &mut Frames,
    operand: Operand,
) -> Result<Box<RawExpr>, AllocError>
    requires name { is_name (operand_expr operand) ≡ true }
    requires no_call { in_call (frames_of frames.old) ≡ false }
    requires may { 1 < top_bound (frames_of frames.old) }
    ensures { OnOk result (argument (frames_of frames.old) (operand_expr operand) ≡ Some (frames_of frames.new)) }
{
    let Operand { mut tree, .. } = operand;
    let at = tree.at;
    match &mut tree.node {
        RawNode::Name(name) => {
            let name = mem::replace(name, Name::empty());
            mem::forget(mem::replace(&mut tree.node, RawNode::Bool(false)));
            open_call(frames, at, name, Operands::empty(alloc), tree)
        }
        RawNode::Num(_, _) | RawNode::Pow(_, _) | composite!() => Ok(tree),
    }
}

// The operand becomes the function or an argument of a call, or is handed back.
#[inline(always)]
fn argument(alloc: Global, frames: &mut Frames, operand: Operand) -> Result<Before, AllocError>
    ensures { IfOk result
        (λ before. Argued (frames_of frames.old) (operand_expr operand) before (frames_of frames.new)) }
{
    if in_call(frames) {
        return Ok(Before::Called(more_arguments(frames, operand)?));
    }
    if operand.is_name() && frames.bound() > 1 {
        return Ok(Before::Called(first_argument(alloc, frames, operand)?));
    }
    Ok(Before::Back(operand))
}

/// A token that begins an atom, after an operand: the operand is a function or an argument of a call, and the atom is
/// its next argument. The expression stops before the token if no call can stand here. Fails only for want of memory.
///
/// Source: the F# specification, Application Expressions; a function is a name here.
pub fn begin_argument(
    alloc: Global,
    begun: &mut Begun,
    operand: Operand,
    kind: ExprToken,
    at: u32,
) -> Result<Step, AllocError>
    requires { begins_atom kind ≡ true }
    ensures { IfOk result
        (λ s. SimulatesAfter begun.old operand begun.new s
        (begin_in (argument (open_in begun.old) (operand_expr operand)) kind at)) }
{
    match argument(alloc, &mut begun.frames, operand)? {
        Before::Called(room) => {
            drop(room);
            begin(alloc, begun, kind, at)
        }
        Before::Back(operand) => Ok(Step::Stops(whole(alloc, &mut begun.frames, operand)?)),
    }
}

/// The same for a name.
///
/// Source: as for [`begin_argument`].
pub fn name_argument(
    alloc: Global,
    begun: &mut Begun,
    operand: Operand,
    name: Name,
    at: u32,
) -> Result<Step, AllocError>
    ensures { IfOk result
        (λ s. SimulatesAfter begun.old operand begun.new s
        (begin_in (argument (open_in begun.old) (operand_expr operand)) (name_token name) at)) }
{
    match argument(alloc, &mut begun.frames, operand)? {
        Before::Called(room) => Ok(begun.goes(Focus::Read(Operand::named(room, at, name)))),
        Before::Back(operand) => {
            drop(name);
            Ok(Step::Stops(whole(alloc, &mut begun.frames, operand)?))
        }
    }
}
