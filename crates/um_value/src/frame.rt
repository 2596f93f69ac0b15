// What is open around the next part of a value text, and what is at hand.
ghost use Rattle.std.specs.Prelude.{◌≡◌, ◌∷◌, ◌++◌, [], IfOk, OnOk, None, Some, map};
ghost use Rattle.um_tree.specs.RawTree.{note_syntax};
ghost use Rattle.um_value.specs.ValueSyntax.{raw_number, value_syntax};
ghost use Rattle.um_value.specs.ValueView.{view_frame, stack, Popped};

use crate::raw::RawValue;
use crate::wanted::Wanted;
use std::alloc::AllocError;
use um_frac::Frac;
use um_tree::{FieldDecl, RawNote};
use um_types::NoteReader;

/// A number that has begun: its place, whether `-` stands before it, its digits.
#[derive(Clone, Copy)]
pub(crate) struct Literal {
    pub(crate) at: u32,
    pub(crate) negative: bool,
    pub(crate) value: Frac,
}

/// A value text that has begun, up to the part that is read next.
#[derive(Drop)]
pub(crate) enum Frame<'a> {
    /// A list of such items, with the items before
    InList(Wanted<'a>, Vec<RawValue>),
    /// The record of this number, with the parts before and the fields that follow
    InRecord(u32, Vec<RawValue>, &'a [FieldDecl]),
}

/// What is at hand beside the frames.
#[derive(Drop)]
pub(crate) enum Focus<'a> {
    /// Nothing; a value is wanted
    Need(Wanted<'a>),
    /// `[`; such an item or `]` is wanted
    Begun(Wanted<'a>),
    /// `-`
    Negative,
    /// A number, and then its note
    Counted(Literal),
    InNote(Literal, NoteReader),
    /// Nothing; the name of this field is wanted
    Name(&'a FieldDecl),
    /// A field's name; `=` and such a value are wanted
    Equal(Wanted<'a>),
    /// A value
    Full(RawValue),
}

impl Literal {
    /// The number without a note
    pub(crate) fn plain(self) -> RawValue
        ensures { value_syntax result ≡ raw_number self.at self.negative self.value None }
    {
        RawValue::Num(self.at, self.negative, self.value, None)
    }

    /// The number with this note
    pub(crate) fn noted(self, note: RawNote) -> RawValue
        ensures { value_syntax result ≡ raw_number self.at self.negative self.value (Some (note_syntax note)) }
    {
        RawValue::Num(self.at, self.negative, self.value, Some(note))
    }
}

pub(crate) fn push_frame<'a>(
    frames: &mut Vec<Frame<'a>>,
    frame: Frame<'a>,
) -> Result<(), AllocError>
    ensures { OnOk result (stack frames.new.items ≡ view_frame frame.entry ∷ stack frames.old.items) }
{
    frames.push(frame)?;
    Ok(())
}

pub(crate) fn pop_frame<'a>(frames: &mut Vec<Frame<'a>>) -> Option<Frame<'a>>
    ensures { Popped (stack frames.old.items) result (stack frames.new.items) }
{
    frames.pop()
}

/// These values, and one more
pub(crate) fn with(earlier: Vec<RawValue>, last: RawValue) -> Result<Vec<RawValue>, AllocError>
    ensures { IfOk result (λ all. map value_syntax all.items
        ≡ map value_syntax earlier.items ++ value_syntax last ∷ []) }
{
    let mut all = earlier;
    all.push(last)?;
    Ok(all)
}
