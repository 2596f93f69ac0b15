// A note that is read one token at a time: `_`, or a unit text.
ghost use Rattle.std.specs.Prelude.{◌≡◌, ℕ, IfOk, is_some, option_map};
ghost use Rattle.um_tree.specs.RawTree.{note_syntax, unit_syntax};
ghost use Rattle.um_reader.specs.Takes.{Takes};
ghost use Rattle.um_unit_texts.specs.UnitStops.{greatest_height};
ghost use Rattle.um_unit_texts.specs.UnitView.{unit_state};
ghost use Rattle.um_types.specs.NoteMachine.{NeedNote, InUnit, noted, note_act, note_begin, note_finish};
ghost use Rattle.um_types.specs.NoteMachine.{machine_of_notes};
ghost use Rattle.um_types.specs.Standing.{note_stands};
ghost use Rattle.um_types.specs.NoteView.{note_state};

use std::alloc::{AllocError, Global};
use std::mem;
use um_reader::{Reader, Taken};
use um_syntax::{Kind, Token};
use um_tree::{RawNote, RawUnit};
use um_unit_texts::{Operand, UnitReader, can_begin, can_follow, is_foreign};

/// What was read of a note: nothing, `_`, or a unit text at this place, which is an atom so far or has gone on.
#[derive(Drop)]
pub(crate) enum NoteFocus {
    Empty,
    Hole(u32),
    Atom(u32, Operand),
    Unit(u32, UnitReader),
}

/// A note that has begun, after `<`.
pub struct NoteReader {
    focus: NoteFocus,
}

// A derived drop would be proved anew in each crate that lets readers go. This one is proved here.
impl Drop for NoteReader {
    fn drop(self) {
        let NoteReader { focus: _ } = self;
    }
}

fn note_of(at: u32, unit: Option<RawUnit>) -> Option<RawNote>
    ensures { option_map note_syntax result ≡ noted at (option_map unit_syntax unit) }
{
    match unit {
        Some(unit) => Some(RawNote::Unit(at, unit)),
        None => None,
    }
}

// A token at the beginning of a note.
fn can_begin_note(kind: &Kind) -> bool
    ensures { (at : ℕ) → result ≡ note_stands (note_begin kind.now at) }
{
    match kind {
        Kind::Hole => true,
        _ => can_begin(true, kind),
    }
}

impl NoteReader {
    /// No token was read yet.
    pub fn new() -> NoteReader
        ensures start { note_state result ≡ NeedNote }
    {
        NoteReader {
            focus: NoteFocus::Empty,
        }
    }

    /// One token more, which stays as it was if it is refused.
    pub fn take(&mut self, alloc: Global, token: &mut Token) -> Result<Taken, AllocError>
        ensures taken { IfOk result
            (λ t. Takes machine_of_notes greatest_height (note_state self.old) token.old t (note_state self.new)) }
        ensures kept { IfOk result (λ t. t ≡ Taken.Stops → token.new ≡ token.old) }
    {
        match &mut self.focus {
            NoteFocus::Empty => self.take_first(alloc, token),
            NoteFocus::Hole(_) => Ok(Taken::Stops),
            NoteFocus::Atom(_, _) => {
                if is_foreign(&token.kind) {
                    Ok(Taken::Stops)
                } else {
                    self.take_moved(alloc, token)
                }
            }
            NoteFocus::Unit(_, unit) => {
                let taken = unit.take(alloc, token)?;
                Ok(taken)
            }
        }
    }

    // One token more, for which what was read is moved out.
    #[inline(never)]
    fn take_moved(&mut self, alloc: Global, token: &mut Token) -> Result<Taken, AllocError>
        ensures taken { IfOk result
            (λ t. Takes machine_of_notes greatest_height (note_state self.old) token.old t (note_state self.new)) }
        ensures kept { IfOk result (λ t. t ≡ Taken.Stops → token.new ≡ token.old) }
    {
        match mem::replace(&mut self.focus, NoteFocus::Empty) {
            NoteFocus::Empty => self.take_first(alloc, token),
            NoteFocus::Hole(at) => {
                self.put(NoteFocus::Hole(at));
                Ok(Taken::Stops)
            }
            NoteFocus::Atom(at, atom) => {
                let unit = UnitReader::after_atom(alloc, atom);
                self.take_unit(alloc, at, unit, token)
            }
            NoteFocus::Unit(at, unit) => self.take_unit(alloc, at, unit, token),
        }
    }

    // The first token.
    fn take_first(&mut self, alloc: Global, token: &mut Token) -> Result<Taken, AllocError>
        requires { note_state self.old ≡ NeedNote }
        ensures taken { IfOk result
            (λ t. Takes machine_of_notes greatest_height NeedNote token.old t (note_state self.new)) }
        ensures kept { IfOk result (λ t. t ≡ Taken.Stops → token.new ≡ token.old) }
    {
        let at = token.start;
        match &mut token.kind {
            Kind::Hole => {
                self.put(NoteFocus::Hole(at));
                Ok(Taken::Goes)
            }
            Kind::Name(letters) => {
                let atom = Operand::measure(at, letters.take(alloc));
                self.put(NoteFocus::Atom(at, atom));
                Ok(Taken::Goes)
            }
            Kind::Var(letters) => {
                let atom = Operand::variable(at, letters.take(alloc));
                self.put(NoteFocus::Atom(at, atom));
                Ok(Taken::Goes)
            }
            Kind::Number { .. } | Kind::Word(_) | Kind::Sign(_) => {
                self.take_unit(alloc, at, UnitReader::new(alloc), token)
            }
        }
    }

    // One token more of this unit text, which stands at its place.
    fn take_unit(
        &mut self,
        alloc: Global,
        at: u32,
        unit: UnitReader,
        token: &mut Token,
    ) -> Result<Taken, AllocError>
        ensures taken { IfOk result
            (λ t. Takes machine_of_notes greatest_height (InUnit at (unit_state unit)) token.old t
            (note_state self.new)) }
        ensures kept { IfOk result (λ t. t ≡ Taken.Stops → token.new ≡ token.old) }
    {
        let mut unit = unit;
        match unit.take(alloc, token) {
            Ok(taken) => {
                self.put(NoteFocus::Unit(at, unit));
                Ok(taken)
            }
            Err(error) => {
                drop(unit);
                Err(error)
            }
        }
    }

    // From now on this was read. If no unit text was, there is nothing to let go.
    #[inline(always)]
    fn put(&mut self, focus: NoteFocus)
        ensures { self.new.focus ≡ focus }
    {
        match &self.focus {
            NoteFocus::Empty | NoteFocus::Hole(_) => {
                mem::forget(mem::replace(&mut self.focus, focus));
            }
            NoteFocus::Atom(_, _) | NoteFocus::Unit(_, _) => {
                drop(mem::replace(&mut self.focus, focus));
            }
        }
    }

    /// Whether the note goes on with a token of this kind, which isn't taken.
    #[tactic(auto, using(crate::proofs::Standing::goes_stands))]
    pub fn can_take(&self, kind: &Kind) -> bool
        ensures { (at : ℕ) → result ≡ note_stands (note_act (note_state self.now) kind.now at) }
    {
        match &self.focus {
            NoteFocus::Empty => can_begin_note(kind),
            NoteFocus::Hole(_) => false,
            NoteFocus::Atom(_, atom) => can_follow(false, atom, kind),
            NoteFocus::Unit(_, unit) => unit.can_take(kind),
        }
    }

    /// Whether the tokens that were taken are a note.
    pub fn is_whole(&self) -> bool
        ensures { result ≡ is_some (note_finish (note_state self.now)) }
    {
        match &self.focus {
            NoteFocus::Empty => false,
            NoteFocus::Hole(_) | NoteFocus::Atom(_, _) => true,
            NoteFocus::Unit(_, unit) => unit.is_whole(),
        }
    }

    /// Another note begins, whatever was read.
    pub fn restart(&mut self)
        ensures start { note_state self.new ≡ NeedNote }
    {
        self.put(NoteFocus::Empty);
    }

    /// The note of the tokens that were taken, if they are one, out of the reader.
    pub fn take_whole(&mut self, alloc: Global) -> Result<Option<RawNote>, AllocError>
        ensures found { IfOk result (λ o. option_map note_syntax o ≡ note_finish (note_state self.old)) }
    {
        match &mut self.focus {
            NoteFocus::Empty => Ok(None),
            NoteFocus::Hole(at) => Ok(Some(RawNote::Hole(*at))),
            NoteFocus::Atom(at, atom) => {
                let at = *at;
                let unit = mem::replace(atom, Operand::one(at)).unit;
                mem::forget(mem::replace(&mut self.focus, NoteFocus::Empty));
                Ok(Some(RawNote::Unit(at, unit)))
            }
            NoteFocus::Unit(at, unit) => {
                let at = *at;
                let found = unit.take_whole(alloc)?;
                Ok(note_of(at, found))
            }
        }
    }

    /// The note of the tokens that were taken, if they are one.
    pub fn finish(self, alloc: Global) -> Result<Option<RawNote>, AllocError>
        ensures found { IfOk result (λ o. option_map note_syntax o ≡ note_finish (note_state self)) }
    {
        let mut reader = self;
        let found = reader.take_whole(alloc);
        drop(reader);
        found
    }
}
