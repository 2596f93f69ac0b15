// Whether a unit text goes on with a token, which isn't taken.
ghost use Rattle.std.specs.Prelude.{◌≡◌, ℕ, List, is_some};
ghost use Rattle.um_unit_texts.specs.UnitTokens.{unit_token};
ghost use Rattle.um_unit_texts.specs.UnitMachine.{Frame as Open, act, after, begin, finish, opens, raised};
ghost use Rattle.um_unit_texts.specs.UnitFrames.{operand_syntax, view_frame};
ghost use Rattle.um_unit_texts.specs.UnitView.{frames_of, state_of};
ghost use Rattle.um_unit_texts.specs.Standing.{in_brackets, is_bracket, unit_stands};

use crate::unit_frame::{Focus, Frame};
use crate::unit_frames::Frames;
use crate::unit_machine::{is_atom, opens, written_power};
use crate::unit_operand::Operand;
use um_syntax::{Kind, Symbol};

fn is_bracket(frame: &Frame) -> bool
    ensures { result ≡ is_bracket (view_frame frame.now) }
{
    match frame {
        Frame::InBracket(_) => true,
        Frame::InInverse(_) | Frame::InTimes(_) | Frame::InOver(_) | Frame::InSide(_) => false,
    }
}

// Whether brackets are open.
fn in_brackets(frames: &Frames) -> bool
    ensures { result ≡ in_brackets (frames_of frames.now) }
{
    for k in (0..frames.entries.len()).rev() {
        if is_bracket(&frames.entries[k].frame) {
            return true;
        }
    }
    false
}

/// Whether a token goes on where an atom is wanted, if `begins` says whether a unit text begins there.
pub fn can_begin(begins: bool, kind: &Kind) -> bool
    ensures { (frames : List Open) (at : ℕ) → begins ≡ opens frames → result
        ≡ unit_stands (begin frames (unit_token kind.now) at) }
{
    match kind {
        Kind::Name(_) | Kind::Var(_) => true,
        Kind::Number { one, .. } => *one,
        Kind::Sign(Symbol::LeftParen) => true,
        Kind::Sign(Symbol::Slash) => begins,
        Kind::Word(_) | Kind::Hole | Kind::Sign(_) => false,
    }
}

/// Whether a token goes on after an atom or a power, if `closes` says whether brackets are open.
#[tactic(auto, using(crate::proofs::Standing::close_stands, crate::proofs::Standing::times_stands, crate::proofs::Standing::over_stands))]
pub fn can_follow(closes: bool, operand: &Operand, kind: &Kind) -> bool
    ensures { (frames : List Open) (at : ℕ) → closes ≡ in_brackets frames → result
        ≡ unit_stands (after frames (operand_syntax operand.now) (unit_token kind.now) at) }
{
    match kind {
        Kind::Name(_) | Kind::Var(_) => true,
        Kind::Number { one, .. } => *one,
        Kind::Sign(Symbol::LeftParen) | Kind::Sign(Symbol::Star) | Kind::Sign(Symbol::Slash) =>
            true,
        Kind::Sign(Symbol::RightParen) => closes,
        Kind::Sign(Symbol::Caret) => is_atom(operand),
        Kind::Word(_) | Kind::Hole | Kind::Sign(_) => false,
    }
}

// A token after `^`.
fn can_raise(base: &Operand, kind: &Kind) -> bool
    ensures { (frames : List Open) → result
        ≡ unit_stands (raised frames (operand_syntax base.now) (unit_token kind.now)) }
{
    match kind {
        Kind::Sign(Symbol::Minus) => true,
        _ => written_power(kind).is_some(),
    }
}

/// Whether the token goes on.
pub fn can_take(frames: &Frames, focus: &Focus, kind: &Kind) -> bool
    ensures { (at : ℕ) → result ≡ unit_stands (act (state_of frames.now focus.now) (unit_token kind.now) at) }
{
    match focus {
        Focus::Empty => can_begin(opens(frames), kind),
        Focus::Full(operand) => can_follow(in_brackets(frames), operand, kind),
        Focus::Raised(base) => can_raise(base, kind),
        Focus::Lowered(_) => written_power(kind).is_some(),
    }
}

/// Whether what was read is a unit text.
#[tactic(auto, using(crate::proofs::Standing::whole_reduced))]
pub fn is_whole(frames: &Frames, focus: &Focus) -> bool
    ensures { result ≡ is_some (finish (state_of frames.now focus.now)) }
{
    match focus {
        Focus::Full(_) => !in_brackets(frames),
        Focus::Empty | Focus::Raised(_) | Focus::Lowered(_) => false,
    }
}
