// A unit text that is read one token at a time, so that readers of longer texts can hold it.
ghost use Rattle.std.specs.Prelude.{◌≡◌, option_map};
ghost use Rattle.um_tree.specs.RawTree.{unit_syntax};
ghost use Rattle.um_unit_texts.specs.UnitFrames.{operand_syntax};

use crate::unit_frame::{Focus, Step};
use crate::unit_frames::Frames;
use crate::unit_least::is_low;
use crate::unit_machine::{finish, is_foreign, step};
use crate::unit_operand::Operand;
use crate::unit_query::{can_take, is_whole};
use std::alloc::{AllocError, Global};
use std::mem;
use um_reader::{Reader, Taken};
use um_syntax::{Kind, Token};
use um_tree::RawUnit;

/// A unit text that has begun: what is open around the next part, and what stands inside it.
pub struct UnitReader {
    frames: Frames,
    focus: Focus,
}

// A derived drop would be proved anew in each crate that lets readers go. This one is proved here.
impl Drop for UnitReader {
    fn drop(self) {
        let UnitReader {
            frames: _,
            focus: _,
        } = self;
    }
}

fn unit_of(operand: Option<Operand>) -> Option<RawUnit>
    ensures { option_map unit_syntax result ≡ option_map operand_syntax operand }
{
    match operand {
        Some(operand) => Some(operand.unit),
        None => None,
    }
}

impl UnitReader {
    ghost use Rattle.std.specs.Prelude.{ℕ, [], IfOk, is_some, option_map};
    ghost use Rattle.um_tree.specs.RawTree.{unit_syntax};
    ghost use Rattle.um_reader.specs.Takes.{Takes};
    ghost use Rattle.um_unit_texts.specs.UnitStops.{greatest_height};
    ghost use Rattle.um_unit_texts.specs.UnitTokens.{unit_token};
    ghost use Rattle.um_unit_texts.specs.UnitMachine.{Have, act, finish};
    ghost use Rattle.um_unit_texts.specs.UnitLeast.{machine_of_units};
    ghost use Rattle.um_unit_texts.specs.Standing.{unit_stands};
    ghost use Rattle.um_unit_texts.specs.UnitView.{unit_state};

    /// An atom was read.
    pub fn after_atom(alloc: Global, atom: Operand) -> UnitReader
        ensures { unit_state result ≡ Have [] (operand_syntax atom) }
    {
        UnitReader {
            frames: Frames::new(alloc),
            focus: Focus::Full(atom),
        }
    }

    /// Whether the unit text goes on with a token of this kind, which isn't taken.
    pub fn can_take(&self, kind: &Kind) -> bool
        ensures { (at : ℕ) → result ≡ unit_stands (act (unit_state self.now) (unit_token kind.now) at) }
    {
        can_take(&self.frames, &self.focus, kind)
    }

    /// Whether the tokens that were taken are a unit text.
    pub fn is_whole(&self) -> bool
        ensures { result ≡ is_some (finish (unit_state self.now)) }
    {
        is_whole(&self.frames, &self.focus)
    }

    /// The unit text of the tokens that were taken, if they are one, out of the reader.
    pub fn take_whole(&mut self, alloc: Global) -> Result<Option<RawUnit>, AllocError>
        ensures found { IfOk result (λ o. option_map unit_syntax o ≡ finish (unit_state self.old)) }
    {
        let focus = mem::replace(&mut self.focus, Focus::Empty);
        Ok(unit_of(finish(alloc, &mut self.frames, focus)?))
    }

    // One token more.
    #[inline(never)]
    fn take_step(&mut self, alloc: Global, token: &mut Token) -> Result<Taken, AllocError>
        ensures taken { IfOk result (λ t.
            Takes machine_of_units greatest_height (unit_state self.old) token.old t (unit_state self.new)) }
        ensures kept { IfOk result (λ t. t ≡ Taken.Stops → token.new ≡ token.old) }
    {
        match step(alloc, &mut self.frames, &mut self.focus, token)? {
            Step::Goes => Ok(if is_low(&self.frames, &self.focus) {
                Taken::Goes
            } else {
                Taken::High
            }),
            Step::Stops => Ok(Taken::Stops),
        }
    }
}

impl Reader for UnitReader {
    ghost use Rattle.std.specs.Prelude.{◌≡◌, IfOk, option_map};
    ghost use Rattle.std.proofs.Common.{arith};
    ghost use Rattle.um_tree.specs.RawTree.{UnitSyntax, unit_syntax};
    ghost use Rattle.um_reader.specs.Takes.{Takes};
    ghost use Rattle.um_unit_texts.specs.UnitStops.{greatest_height};
    ghost use Rattle.um_unit_texts.specs.UnitMachine.{State, finish};
    ghost use Rattle.um_unit_texts.specs.UnitLeast.{machine_of_units};
    ghost use Rattle.um_unit_texts.specs.UnitView.{unit_state};

    type Token = Token;

    type Tree = RawUnit;

    ghost States = { State };

    ghost Syntax = { UnitSyntax };

    ghost machine = { machine_of_units };

    ghost limit = { greatest_height };

    ghost state_in = { unit_state };

    ghost view = { unit_syntax };

    ghost starts = { λ e. Prim.cc };

    ghost starts_low = { Prim.omega arith };

    fn new(alloc: Global) -> UnitReader {
        UnitReader {
            frames: Frames::new(alloc),
            focus: Focus::Empty,
        }
    }

    fn copy(alloc: Global, token: &Token) -> Result<Token, AllocError> {
        token.copy(alloc)
    }

    fn take(&mut self, alloc: Global, token: &mut Token) -> Result<Taken, AllocError>
        ensures taken { IfOk result
            (λ t. Takes machine_of_units greatest_height (unit_state self.old) token.old t (unit_state self.new)) }
        ensures kept { IfOk result (λ t. t ≡ Taken.Stops → token.new ≡ token.old) }
    {
        if is_foreign(&token.kind) {
            return Ok(Taken::Stops);
        }
        self.take_step(alloc, token)
    }

    fn finish(self, alloc: Global) -> Result<Option<RawUnit>, AllocError>
        ensures found { IfOk result (λ o. option_map unit_syntax o ≡ finish (unit_state self)) }
    {
        let UnitReader { mut frames, focus } = self;
        Ok(unit_of(finish(alloc, &mut frames, focus)?))
    }
}
