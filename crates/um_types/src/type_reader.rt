// A type text that is read one token at a time.
ghost use Rattle.std.specs.Prelude.{◌≡◌, ℕ, false, is_some, suc, ◌+◌, ◌≤◌, IfOk, None, max, option_map};
ghost use Rattle.um_tree.specs.RawTree.{NoteSyntax, TypeSyntax, num_syntax, list_type_syntax, note_syntax, type_syntax};
ghost use Rattle.um_reader.specs.Takes.{Gives, Takes};
ghost use Rattle.um_unit_texts.specs.UnitStops.{greatest_height};
ghost use Rattle.um_types.specs.TypeHeights.{note_height};
ghost use Rattle.um_types.specs.NoteMachine.{NeedNote, note_finish};
ghost use Rattle.um_types.specs.TypeMachine.{OfNum, NeedType, HaveType, InNote, NoType, type_act, type_begin};
ghost use Rattle.um_types.specs.TypeMachine.{type_after, angle_owner, close_bracket, open_angle, next_note, note_end};
ghost use Rattle.um_types.specs.TypeMachine.{note_ends, own_act};
ghost use Rattle.um_types.specs.Standing.{type_stands};
ghost use Rattle.um_types.specs.TypeMachine.{type_finish, type_least, owner_height, machine_of_types};
ghost use Rattle.um_types.specs.TypeView.{operand_type, view_owner, type_state, IsLow};
ghost use Rattle.um_types.specs.NoteView.{note_state};

use crate::note_reader::NoteReader;
use crate::type_operand::{Owner, TypeFocus, TypeOperand};
use std::alloc::{AllocError, Global};
use std::mem;
use um_reader::Taken;
use um_syntax::{Keyword, Kind, Symbol, Token};
use um_tree::{RawNote, RawType};
use um_unit_texts::GREATEST_HEIGHT;

/// A type text that has begun: the number of open brackets, what stands inside them, and the note that is read, if one
/// has begun.
pub struct TypeReader {
    depth: u32,
    focus: TypeFocus,
    note: NoteReader,
}

// A derived drop would be proved anew in each crate that lets readers go. This one is proved here.
impl Drop for TypeReader {
    fn drop(self) {
        let TypeReader {
            depth: _,
            focus: _,
            note: _,
        } = self;
    }
}

// The type text of what was read, if no bracket is open.
fn whole(depth: u32, operand: TypeOperand) -> Option<RawType>
    ensures { option_map type_syntax result ≡ type_finish (HaveType depth (operand_type operand)) }
{
    if depth == 0 { Some(operand.ty) } else { None }
}

// No type text ends inside angle brackets.
fn no_type(owner: Owner) -> Option<RawType>
    ensures { result ≡ None }
{
    drop(owner);
    None
}

// A token where a type is wanted.
fn can_begin(kind: &Kind) -> bool
    ensures { (depth at : ℕ) → result ≡ type_stands (type_begin depth kind.now at) }
{
    match kind {
        Kind::Name(_) | Kind::Word(Keyword::Num) | Kind::Word(Keyword::Bool) => true,
        Kind::Sign(Symbol::LeftParen) => true,
        _ => false,
    }
}

// Whether angle brackets may open after this type.
fn has_owner(ty: &RawType) -> bool
    ensures { result ≡ is_some (angle_owner (type_syntax ty.now)) }
{
    match ty {
        RawType::Num(None) => true,
        RawType::Name(_, _, notes) => notes.items.is_empty(),
        RawType::Num(Some(_)) | RawType::Bool | RawType::List(_) | RawType::Bracket(_) => false,
    }
}

// A token after a type.
fn can_follow(depth: u32, operand: &TypeOperand, kind: &Kind) -> bool
    ensures { result ≡ type_stands (type_after depth (operand_type operand.now) kind.now) }
{
    match kind {
        Kind::Word(Keyword::List) => true,
        Kind::Sign(Symbol::RightParen) => depth != 0,
        Kind::Sign(Symbol::Less) => has_owner(&operand.ty),
        _ => false,
    }
}

// A token after a note of this.
fn can_end_note(owner: &Owner, kind: &Kind) -> bool
    ensures { (depth : ℕ) (n : NoteSyntax) → result
        ≡ type_stands (note_end depth (view_owner owner.now) n kind.now) }
{
    match kind {
        Kind::Sign(Symbol::Greater) => true,
        Kind::Sign(Symbol::Comma) => match owner {
            Owner::Num => false,
            Owner::Name(_, _, _) => true,
        },
        _ => false,
    }
}

impl TypeReader {
    /// No token was read yet.
    pub fn new() -> TypeReader
        ensures start { type_state result ≡ NeedType 0 }
    {
        TypeReader {
            depth: 0,
            focus: TypeFocus::Empty,
            note: NoteReader::new(),
        }
    }

    /// Another type text begins, whatever was read.
    pub fn restart(&mut self)
        ensures start { type_state self.new ≡ NeedType 0 }
    {
        self.depth = 0;
        self.put(TypeFocus::Empty);
    }

    /// Whether the type text goes on with a token of this kind, which isn't taken.
    pub fn can_take(&self, kind: &Kind) -> bool
        ensures { (at : ℕ) → result ≡ type_stands (type_act (type_state self.now) kind.now at) }
    {
        match &self.focus {
            TypeFocus::Empty => can_begin(kind),
            TypeFocus::Full(operand) => can_follow(self.depth, operand, kind),
            TypeFocus::Note(owner) => {
                self.note.can_take(kind) || (self.note.is_whole() && can_end_note(owner, kind))
            }
        }
    }

    /// Whether the tokens that were taken are a type text.
    pub fn is_whole(&self) -> bool
        ensures { result ≡ is_some (type_finish (type_state self.now)) }
    {
        match &self.focus {
            TypeFocus::Full(_) => self.depth == 0,
            TypeFocus::Empty | TypeFocus::Note(_) => false,
        }
    }

    /// One token more, which stays as it was if it is refused.
    #[inline(always)]
    pub fn take(&mut self, alloc: Global, token: &mut Token) -> Result<Taken, AllocError>
        requires low { type_least (type_state self.old) ≤ greatest_height }
        ensures taken { IfOk result
            (λ t. Takes machine_of_types greatest_height (type_state self.old) token.old t (type_state self.new)) }
        ensures kept { IfOk result (λ t. t ≡ Taken.Stops → token.new ≡ token.old) }
    {
        match &self.focus {
            TypeFocus::Empty => Ok(self.take_first(alloc, token)),
            TypeFocus::Full(_) => {
                if self.may_follow(&token.kind) {
                    self.take_own(alloc, token)
                } else {
                    Ok(Taken::Stops)
                }
            }
            TypeFocus::Note(_) => match self.note.take(alloc, token)? {
                Taken::Goes => Ok(Taken::Goes),
                Taken::Stops => self.take_own(alloc, token),
                Taken::High => Ok(Taken::High),
            },
        }
    }

    // Whether this token may follow a type. Most types end before a token that may not, and nothing has to be moved
    // then.
    fn may_follow(&self, kind: &Kind) -> bool
        ensures { result ≡ false → (t : TypeSyntax) → type_after self.now.depth t kind.now ≡ NoType }
    {
        match kind {
            Kind::Word(Keyword::List) => true,
            Kind::Sign(Symbol::Less) => true,
            Kind::Sign(Symbol::RightParen) => self.depth != 0,
            _ => false,
        }
    }

    // One token more, which the note has refused, if one has begun. `num` and its note, which most types are, go on
    // in place.
    #[inline(never)]
    fn take_own(&mut self, alloc: Global, token: &mut Token) -> Result<Taken, AllocError>
        requires low { IsLow (type_state self.old) }
        ensures taken { IfOk result
            (λ t. Gives machine_of_types greatest_height (type_state self.old)
            (own_act (type_state self.old) token.old.kind token.old.start) t (type_state self.new)) }
        ensures kept { IfOk result (λ t. t ≡ Taken.Stops → token.new ≡ token.old) }
    {
        match &token.kind {
            Kind::Sign(Symbol::Less) => match &self.focus {
                TypeFocus::Full(operand) => match &operand.ty {
                    RawType::Num(None) => Ok(self.open_num()),
                    _ => self.take_moved(alloc, token),
                },
                _ => self.take_moved(alloc, token),
            },
            Kind::Sign(Symbol::Greater) => match &self.focus {
                TypeFocus::Note(Owner::Num) => self.end_num(alloc),
                _ => self.take_moved(alloc, token),
            },
            _ => self.take_moved(alloc, token),
        }
    }

    // An opening angle bracket after `num`, which holds nothing that has to be let go.
    #[inline(always)]
    fn open_num(&mut self) -> Taken
        requires low { self.old.depth + 1 ≤ greatest_height }
        ensures { Gives machine_of_types greatest_height (HaveType self.old.depth (num_syntax None))
            (open_angle self.old.depth (num_syntax None)) result (type_state self.new) }
    {
        self.note.restart();
        mem::forget(mem::replace(&mut self.focus, TypeFocus::Note(Owner::Num)));
        Taken::Goes
    }

    // The closing angle bracket of `num`.
    #[inline(always)]
    fn end_num(&mut self, alloc: Global) -> Result<Taken, AllocError>
        requires num { self.old.focus ≡ TypeFocus.Note Owner.Num }
        requires low { IsLow (InNote self.old.depth OfNum (note_state self.old.note)) }
        ensures { IfOk result
            (λ t. Gives machine_of_types greatest_height (InNote self.old.depth OfNum (note_state self.old.note))
            (note_ends self.old.depth OfNum (note_finish (note_state self.old.note)) (Kind.Sign Symbol.Greater)) t
            (type_state self.new)) }
    {
        match self.note.take_whole(alloc)? {
            Some(note) => {
                let operand = TypeOperand::noted(note);
                mem::forget(mem::replace(&mut self.focus, TypeFocus::Full(operand)));
                Ok(Taken::Goes)
            }
            None => Ok(Taken::Stops),
        }
    }

    // One token more, for which what stands inside the brackets is moved out.
    #[inline(never)]
    fn take_moved(&mut self, alloc: Global, token: &mut Token) -> Result<Taken, AllocError>
        requires low { IsLow (type_state self.old) }
        ensures taken { IfOk result
            (λ t. Gives machine_of_types greatest_height (type_state self.old)
            (own_act (type_state self.old) token.old.kind token.old.start) t (type_state self.new)) }
        ensures kept { IfOk result (λ t. t ≡ Taken.Stops → token.new ≡ token.old) }
    {
        match mem::replace(&mut self.focus, TypeFocus::Empty) {
            TypeFocus::Empty => Ok(self.take_first(alloc, token)),
            TypeFocus::Full(operand) => self.take_after(alloc, operand, token),
            TypeFocus::Note(owner) => self.take_refused(alloc, owner, token),
        }
    }

    // From now on this stands inside the brackets. If nothing did, there is nothing to let go.
    #[inline(always)]
    fn put(&mut self, focus: TypeFocus)
        ensures focus { self.new.focus ≡ focus }
        ensures depth { self.new.depth ≡ self.old.depth }
        ensures note { self.new.note ≡ self.old.note }
    {
        match &self.focus {
            TypeFocus::Empty => mem::forget(mem::replace(&mut self.focus, focus)),
            TypeFocus::Full(_) | TypeFocus::Note(_) => {
                drop(mem::replace(&mut self.focus, focus));
            }
        }
    }

    // A note of this begins.
    fn begin_note(&mut self, owner: Owner)
        ensures { type_state self.new ≡ InNote self.old.depth (view_owner owner) NeedNote }
    {
        self.note.restart();
        self.put(TypeFocus::Note(owner));
    }

    // A type stands inside the brackets.
    fn give(&mut self, operand: TypeOperand) -> Taken
        ensures goes { result ≡ Taken.Goes }
        ensures state { type_state self.new ≡ HaveType self.old.depth (operand_type operand) }
    {
        self.put(TypeFocus::Full(operand));
        Taken::Goes
    }

    // The token is refused, and the type stays inside the brackets.
    fn keep(&mut self, operand: TypeOperand) -> Taken
        ensures stops { result ≡ Taken.Stops }
        ensures state { type_state self.new ≡ HaveType self.old.depth (operand_type operand) }
    {
        self.put(TypeFocus::Full(operand));
        Taken::Stops
    }

    // One token where a type is wanted.
    fn take_first(&mut self, alloc: Global, token: &mut Token) -> Taken
        requires wanted { self.old.focus ≡ TypeFocus.Empty }
        requires low { self.old.depth + 1 ≤ greatest_height }
        ensures taken { Gives machine_of_types greatest_height (NeedType self.old.depth)
            (type_begin self.old.depth token.old.kind token.old.start) result (type_state self.new) }
        ensures kept { result ≡ Taken.Stops → token.new ≡ token.old }
    {
        match &mut token.kind {
            Kind::Name(letters) => {
                let operand = TypeOperand::named(alloc, token.start, letters.take(alloc));
                self.give(operand)
            }
            Kind::Word(Keyword::Num) => self.give(TypeOperand::num()),
            Kind::Word(Keyword::Bool) => self.give(TypeOperand::bool()),
            Kind::Sign(Symbol::LeftParen) => self.open_bracket(),
            _ => Taken::Stops,
        }
    }

    // An opening bracket.
    fn open_bracket(&mut self) -> Taken
        requires wanted { self.old.focus ≡ TypeFocus.Empty }
        requires low { self.old.depth + 1 ≤ greatest_height }
        ensures { Gives machine_of_types greatest_height (NeedType self.old.depth)
            (NeedType (suc self.old.depth)) result (type_state self.new) }
    {
        let depth = self.depth + 1;
        if depth < GREATEST_HEIGHT {
            self.depth = depth;
            Taken::Goes
        } else {
            Taken::High
        }
    }

    // One token after a type.
    fn take_after(
        &mut self,
        alloc: Global,
        operand: TypeOperand,
        token: &Token,
    ) -> Result<Taken, AllocError>
        requires { type_least (HaveType self.old.depth (operand_type operand)) ≤ greatest_height }
        ensures { IfOk result
            (λ t. Gives machine_of_types greatest_height (HaveType self.old.depth (operand_type operand))
            (type_after self.old.depth (operand_type operand) token.now.kind) t (type_state self.new)) }
    {
        match &token.kind {
            Kind::Word(Keyword::List) => self.list_after(alloc, operand),
            Kind::Sign(Symbol::RightParen) => self.close_bracket(alloc, operand),
            Kind::Sign(Symbol::Less) => Ok(self.open_angle(operand)),
            _ => Ok(self.keep(operand)),
        }
    }

    // `list` after a type.
    fn list_after(&mut self, alloc: Global, operand: TypeOperand) -> Result<Taken, AllocError>
        requires { type_least (HaveType self.old.depth (operand_type operand)) ≤ greatest_height }
        ensures { IfOk result
            (λ t. Gives machine_of_types greatest_height (HaveType self.old.depth (operand_type operand))
            (HaveType self.old.depth (list_type_syntax (operand_type operand))) t (type_state self.new)) }
    {
        if operand.height + self.depth < GREATEST_HEIGHT {
            let list = operand.list(alloc)?;
            Ok(self.give(list))
        } else {
            drop(operand);
            Ok(Taken::High)
        }
    }

    // A closing bracket after a type.
    fn close_bracket(&mut self, alloc: Global, operand: TypeOperand) -> Result<Taken, AllocError>
        requires { type_least (HaveType self.old.depth (operand_type operand)) ≤ greatest_height }
        ensures { IfOk result
            (λ t. Gives machine_of_types greatest_height (HaveType self.old.depth (operand_type operand))
            (close_bracket self.old.depth (operand_type operand)) t (type_state self.new)) }
    {
        if self.depth == 0 {
            Ok(self.keep(operand))
        } else {
            let bracketed = operand.bracket(alloc)?;
            self.depth -= 1;
            Ok(self.give(bracketed))
        }
    }

    // An opening angle bracket after a type.
    fn open_angle(&mut self, operand: TypeOperand) -> Taken
        requires { type_least (HaveType self.old.depth (operand_type operand)) ≤ greatest_height }
        ensures { Gives machine_of_types greatest_height (HaveType self.old.depth (operand_type operand))
            (open_angle self.old.depth (operand_type operand)) result (type_state self.new) }
    {
        let TypeOperand { ty, height } = operand;
        match Owner::of_type(ty) {
            Ok(owner) => {
                self.begin_note(owner);
                Taken::Goes
            }
            Err(ty) => self.keep(TypeOperand { ty, height }),
        }
    }

    // The token that a note has refused.
    fn take_refused(
        &mut self,
        alloc: Global,
        owner: Owner,
        token: &Token,
    ) -> Result<Taken, AllocError>
        requires wanted { self.old.focus ≡ TypeFocus.Empty }
        requires low { IsLow (InNote self.old.depth (view_owner owner) (note_state self.old.note)) }
        ensures { IfOk result (λ t. Gives machine_of_types greatest_height
            (InNote self.old.depth (view_owner owner) (note_state self.old.note))
            (own_act (InNote self.old.depth (view_owner owner) (note_state self.old.note)) token.now.kind
            token.now.start) t (type_state self.new)) }
    {
        match self.note.take_whole(alloc) {
            Ok(Some(note)) => self.end_note(owner, note, token),
            Ok(None) => {
                drop(owner);
                Ok(Taken::Stops)
            }
            Err(error) => {
                drop(owner);
                Err(error)
            }
        }
    }

    // The token after a note.
    fn end_note(&mut self, owner: Owner, note: RawNote, token: &Token) -> Result<Taken, AllocError>
        requires wanted { self.old.focus ≡ TypeFocus.Empty }
        requires low { max (self.old.depth + 1) (max (owner_height (view_owner owner)) (note_height (note_syntax note)))
            ≤ greatest_height }
        ensures { IfOk result
            (λ t. Gives machine_of_types greatest_height (NeedType self.old.depth)
            (note_end self.old.depth (view_owner owner) (note_syntax note) token.now.kind) t (type_state self.new)) }
    {
        match &token.kind {
            Kind::Sign(Symbol::Greater) => {
                let operand = owner.owned(note)?;
                Ok(self.give(operand))
            }
            Kind::Sign(Symbol::Comma) => self.next_note(owner, note),
            _ => {
                drop(owner);
                drop(note);
                Ok(Taken::Stops)
            }
        }
    }

    // A comma after a note.
    fn next_note(&mut self, owner: Owner, note: RawNote) -> Result<Taken, AllocError>
        requires wanted { self.old.focus ≡ TypeFocus.Empty }
        requires low { max (self.old.depth + 1) (max (owner_height (view_owner owner)) (note_height (note_syntax note)))
            ≤ greatest_height }
        ensures { IfOk result
            (λ t. Gives machine_of_types greatest_height (NeedType self.old.depth)
            (next_note self.old.depth (view_owner owner) (note_syntax note)) t (type_state self.new)) }
    {
        match owner {
            Owner::Num => {
                drop(note);
                Ok(Taken::Stops)
            }
            Owner::Name(at, name, mut earlier) => {
                earlier.items.push(note)?;
                self.begin_note(Owner::Name(at, name, earlier));
                Ok(Taken::Goes)
            }
        }
    }

    /// The type text of the tokens that were taken, if they are one, out of the reader.
    pub fn take_whole(&mut self) -> Option<RawType>
        ensures found { option_map type_syntax result ≡ type_finish (type_state self.old) }
    {
        match mem::replace(&mut self.focus, TypeFocus::Empty) {
            TypeFocus::Empty => None,
            TypeFocus::Full(operand) => whole(self.depth, operand),
            TypeFocus::Note(owner) => no_type(owner),
        }
    }

    /// The type text of the tokens that were taken, if they are one.
    pub fn finish(self) -> Option<RawType>
        ensures found { option_map type_syntax result ≡ type_finish (type_state self) }
    {
        let mut reader = self;
        let found = reader.take_whole();
        drop(reader);
        found
    }
}
