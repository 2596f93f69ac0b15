// What stands inside the open frames, and what a token gives.
ghost use Rattle.std.specs.Prelude.{◌≡◌};

use crate::matching::Matching;
use crate::operand::Operand;
use crate::operands::ReadFields;
use std::mem;
use um_frac::Frac;
use um_tree::{Binder, Name};

/// The token that is expected inside a fixed run of tokens. The first number of each variant is the place of the form.
/// The binders of a full arm stand in boxes, so that what is handed on at each token stays small.
#[derive(Drop)]
pub enum Expected {
    /// After `let`; after its binder
    LetBinder(u32),
    LetEqual(u32, Binder),
    /// After `{` or `;` and these fields; after the name, at its place
    FieldName(u32, ReadFields),
    FieldEqual(u32, ReadFields, u32, Name),
    /// After `.`
    DotName(u32, Operand),
    /// After `with`; its bar; `[`; `]`
    ArmBegin(u32, Operand),
    ArmOpen(u32, Operand),
    ArmClose(u32, Operand),
    ArmArrow(u32, Operand),
    /// After the bar of the full arm; the head; `::`; the tail
    HeadBinder(Matching),
    HeadCons(Matching, Box<Binder>),
    TailBinder(Matching, Box<Binder>),
    TailArrow(Matching, Box<Binder>, Box<Binder>),
    /// After `(` `[` `]`
    NilColon(u32),
    /// After `pown`, its operand and `(`; `-`; the power
    PownMinus(u32, Operand),
    PownDigits(u32, Operand),
    PownClose(u32, Operand, i32),
}

/// What stands inside the innermost frame.
#[derive(Drop)]
pub enum Focus {
    /// An operand is wanted
    Wanted,
    /// An atom was read, or a whole power whose number stands in brackets
    Read(Operand),
    /// A whole power was read, whose number is the last token
    Power(Operand),
    /// The left operand of `>`, with the place of the sign: a `=` directly after it belongs to the sign
    Greater(u32, Operand),
    Inside(Expected),
}

/// What a token gives. It goes on; or the note of a number or the type of an empty list begins after it, at the place
/// of each; or the expression stops before it, and this is what was read, if that is whole.
#[derive(Drop)]
pub enum Step {
    Goes,
    Note(u32, Frac),
    Type(u32),
    Stops(Option<Operand>),
}

impl Focus {
    /// Gives its memory back. A crate that calls this has no proof of its own of how the trees are let go.
    pub fn discard(self) {
        drop(self);
    }

    /// From now on this stands inside the frames. If an operand was wanted, there is nothing to let go.
    #[inline(always)]
    pub fn put(&mut self, next: Focus)
        ensures { self.new ≡ next }
    {
        match self {
            Focus::Wanted => mem::forget(mem::replace(self, next)),
            Focus::Read(_) | Focus::Power(_) | Focus::Greater(_, _) | Focus::Inside(_) => {
                drop(mem::replace(self, next));
            }
        }
    }
}
