// An expression that is read one token at a time.
ghost use Rattle.std.specs.Prelude.{◌≡◌, ℕ, ◌⊎◌, ◌+◌, ◌≤◌, [], cond, nat_lt, IfOk, IfSome, OnOk, None, is_some};
ghost use Rattle.std.specs.Prelude.{option_map};
ghost use Rattle.um_syntax.specs.Emptied.{emptied};
ghost use Rattle.um_tree.specs.RawTree.{expr_syntax, note_syntax, type_syntax};
ghost use Rattle.um_reader.specs.Takes.{Gives, Takes};
ghost use Rattle.um_unit_texts.specs.UnitStops.{greatest_height};
ghost use Rattle.um_types.specs.TypeHeights.{note_height, whole_height};
ghost use Rattle.um_types.specs.NoteMachine.{NoteState, NeedNote, note_finish};
ghost use Rattle.um_types.specs.TypeMachine.{TypeState, NeedType, type_finish};
ghost use Rattle.um_operands.specs.ExprBegun.{NilColon, State, Need, Have, Inside, InNote, InType, finish};
ghost use Rattle.um_operands.specs.ExprLeast.{whole_least};
ghost use Rattle.um_operands.specs.ExprOperands.{operand_expr};
ghost use Rattle.um_operands.specs.ExprStack.{frames_of};
ghost use Rattle.um_operands.specs.ExprFocus.{state_of, open_in, begun_state};
ghost use Rattle.um_operands.specs.Standing.{stands};
ghost use Rattle.um_forms.specs.ExprTokens.{expr_token};
ghost use Rattle.um_expr.specs.ExprMachine.{act, own_step, machine_of_expressions};
ghost use Rattle.um_forms.specs.ExprSteps.{Simulates};
ghost use Rattle.um_expr.specs.ExprStates.{expr_state, IsLow};

use crate::query::{can_take, can_take_in_note, can_take_in_type, is_whole};
use crate::step::{note_ends, step, type_ends};
use std::alloc::{AllocError, Global};
use std::mem;
use um_forms::{
    ExprToken, end_by_mark, end_by_word, infix_after, less_after, name_argument, plain_operator,
    plain_word,
};
use um_frac::Frac;
use um_operands::{Begun, Expected, Focus, Frames, Operand, Step, is_low, whole};
use um_reader::Taken;
use um_syntax::{Kind, Symbol, Token};
use um_tree::{RawExpr, RawNote, RawType};
use um_types::{NoteReader, TypeReader};
use um_unit_texts::name_of;

/// What is read inside the focus, at its place: nothing, the note of a number with this value, or the type of an empty
/// list.
#[derive(Drop)]
pub(crate) enum Inner {
    Nothing,
    Note(u32, Frac, NoteReader),
    Type(u32, TypeReader),
}

/// An expression that has begun, with the note or the type that is read inside it.
pub struct ExprReader {
    begun: Begun,
    inner: Inner,
}

// A derived drop would be proved anew in each crate that lets readers go. This one is proved here.
impl Drop for ExprReader {
    fn drop(self) {
        let ExprReader { begun: _, inner: _ } = self;
    }
}

fn tree_of(operand: Option<Operand>) -> Option<RawExpr>
    ensures { option_map expr_syntax result ≡ option_map operand_expr operand }
{
    match operand {
        Some(operand) => Some(Box::into_inner(operand.tree)),
        None => None,
    }
}

// A focus that ends as this expression if no frame is open.
fn focus_on(found: Option<Operand>) -> Focus
    ensures { finish (state_of [] result) ≡ option_map operand_expr found }
{
    match found {
        Some(operand) => Focus::Read(operand),
        None => Focus::Wanted,
    }
}

// The expression if all is read and no note and no type has begun.
fn finished(alloc: Global, frames: &mut Frames, focus: Focus) -> Result<Option<RawExpr>, AllocError>
    ensures { IfOk result (λ o. option_map expr_syntax o ≡ finish (state_of (frames_of frames.old) focus)) }
{
    match focus {
        Focus::Read(operand) | Focus::Power(operand) => {
            Ok(tree_of(whole(alloc, frames, operand)?))
        }
        other => Ok(no_tree(other)),
    }
}

fn no_tree(focus: Focus) -> Option<RawExpr>
    ensures { result ≡ None }
{
    focus.discard();
    None
}

// Whether an expression within the heights begins so.
#[inline(always)]
fn rated(frames: &Frames, focus: &Focus) -> Taken
    ensures { result ≡ cond
        (nat_lt (whole_least (state_of (frames_of frames.now) focus.now)) (greatest_height + 1)) Taken.Goes Taken.High }
{
    if is_low(frames, focus) {
        Taken::Goes
    } else {
        Taken::High
    }
}

impl ExprReader {
    /// No token was read yet.
    pub fn new(alloc: Global) -> ExprReader
        ensures start { expr_state result ≡ Need [] }
    {
        ExprReader {
            begun: Begun::new(alloc),
            inner: Inner::Nothing,
        }
    }

    /// Whether the expression goes on with a token of this kind, glued to the one before or not. It isn't taken, and no
    /// height is asked for.
    pub fn can_take(&self, kind: &Kind, glued: bool) -> bool
        ensures { (at : ℕ) → result ≡ stands (act (expr_state self.now) (expr_token kind.now) at glued kind.now) }
    {
        match &self.inner {
            Inner::Nothing => can_take(&self.begun, kind, glued),
            Inner::Note(_, _, note) => can_take_in_note(note, kind),
            Inner::Type(_, ty) => can_take_in_type(ty, kind),
        }
    }

    /// Whether the tokens that were taken are an expression.
    pub fn is_whole(&self) -> bool
        ensures { result ≡ is_some (finish (expr_state self.now)) }
    {
        match &self.inner {
            Inner::Nothing => is_whole(&self.begun),
            Inner::Note(_, _, _) | Inner::Type(_, _) => false,
        }
    }

    /// One token more. Goes if the tokens through it begin an expression within the heights. High if they begin
    /// expressions, but none within the heights. Stops if they begin none, and then `finish` still answers for the
    /// tokens before it. The letters of a token that goes on are taken from it, those of a token that is refused
    /// perhaps, and no more. Fails only for want of memory.
    ///
    /// Source: the grammar of expressions in the F# specification, for the forms that this language has.
    #[inline(always)]
    pub fn take(&mut self, alloc: Global, token: &mut Token) -> Result<Taken, AllocError>
        requires low { whole_least (expr_state self.old) ≤ greatest_height }
        ensures taken { IfOk result
            (λ t. Takes machine_of_expressions greatest_height (expr_state self.old) token.old t
            (expr_state self.new)) }
        ensures kept { IfOk result (λ t. t ≡ Taken.Stops → (token.new ≡ token.old) ⊎ (token.new ≡ emptied token.old)) }
    {
        match &mut self.inner {
            Inner::Nothing => self.take_own(alloc, token),
            Inner::Note(_, _, note) => match note.take(alloc, token)? {
                Taken::Goes => Ok(Taken::Goes),
                Taken::Stops => self.take_refused(alloc, token),
                Taken::High => Ok(Taken::High),
            },
            Inner::Type(_, ty) => match ty.take(alloc, token)? {
                Taken::Goes => Ok(Taken::Goes),
                Taken::Stops => self.take_refused(alloc, token),
                Taken::High => Ok(Taken::High),
            },
        }
    }

    // One token more, if no note and no type has begun. Most tokens of an expression are names and numbers where an
    // operand is wanted, and signs, names and reserved words after an operand. They do without what the others need.
    #[inline(never)]
    fn take_own(&mut self, alloc: Global, token: &mut Token) -> Result<Taken, AllocError>
        requires nothing { self.old.inner ≡ Inner.Nothing }
        requires low { whole_least (begun_state self.old.begun) ≤ greatest_height }
        ensures taken { IfOk result
            (λ t. Takes machine_of_expressions greatest_height (begun_state self.old.begun) token.old t
            (expr_state self.new)) }
        ensures rest { OnOk result (token.new ≡ emptied token.old) }
    {
        match &self.begun.focus {
            Focus::Wanted => self.take_operand(alloc, token),
            Focus::Read(_) => self.take_after(alloc, token),
            Focus::Power(_) | Focus::Greater(_, _) | Focus::Inside(_) => {
                self.take_any(alloc, token)
            }
        }
    }

    // One token where an operand is wanted.
    #[inline(always)]
    fn take_operand(&mut self, alloc: Global, token: &mut Token) -> Result<Taken, AllocError>
        requires nothing { self.old.inner ≡ Inner.Nothing }
        requires wanted { self.old.begun.focus ≡ Focus.Wanted }
        requires low { whole_least (Need (open_in self.old.begun)) ≤ greatest_height }
        ensures taken { IfOk result
            (λ t. Takes machine_of_expressions greatest_height (begun_state self.old.begun) token.old t
            (expr_state self.new)) }
        ensures rest { OnOk result (token.new ≡ emptied token.old) }
    {
        let at = token.start;
        match &mut token.kind {
            Kind::Name(letters) => {
                let name = name_of(letters.take(alloc));
                let operand = Operand::name(alloc, at, name)?;
                Ok(self.put_atom(operand))
            }
            Kind::Number { value, .. } => {
                let operand = Operand::number(alloc, at, *value, None)?;
                Ok(self.put_atom(operand))
            }
            _ => self.take_any(alloc, token),
        }
    }

    // An atom stands inside the frames. It needs as much height as an operand that is wanted.
    #[inline(always)]
    fn put_atom(&mut self, operand: Operand) -> Taken
        requires nothing { self.old.inner ≡ Inner.Nothing }
        ensures goes { result ≡ Taken.Goes }
        ensures state { expr_state self.new ≡ Have (open_in self.old.begun) (operand_expr operand) }
    {
        self.begun.focus.put(Focus::Read(operand));
        Taken::Goes
    }

    // One token after an operand, which is moved out.
    #[inline(always)]
    fn take_after(&mut self, alloc: Global, token: &mut Token) -> Result<Taken, AllocError>
        requires nothing { self.old.inner ≡ Inner.Nothing }
        ensures taken { IfOk result
            (λ t. Takes machine_of_expressions greatest_height (begun_state self.old.begun) token.old t
            (expr_state self.new)) }
        ensures rest { OnOk result (token.new ≡ emptied token.old) }
    {
        match mem::replace(&mut self.begun.focus, Focus::Wanted) {
            Focus::Read(operand) => self.take_after_operand(alloc, operand, token),
            other => {
                self.begun.focus.put(other);
                self.take_any(alloc, token)
            }
        }
    }

    // One token after this operand.
    #[inline(always)]
    fn take_after_operand(
        &mut self,
        alloc: Global,
        operand: Operand,
        token: &mut Token,
    ) -> Result<Taken, AllocError>
        requires nothing { self.old.inner ≡ Inner.Nothing }
        ensures taken { IfOk result
            (λ t. Takes machine_of_expressions greatest_height
            (Have (open_in self.old.begun) (operand_expr operand)) token.old t (expr_state self.new)) }
        ensures rest { OnOk result (token.new ≡ emptied token.old) }
    {
        let at = token.start;
        match &token.kind {
            Kind::Sign(symbol) => match plain_operator(*symbol) {
                Some(sign) => {
                    let given = infix_after(alloc, &mut self.begun, operand, sign, at)?;
                    Ok(self.go(given))
                }
                None => self.take_mark(alloc, operand, token),
            },
            Kind::Name(_) => self.take_name(alloc, operand, token),
            Kind::Word(_) => self.take_word(alloc, operand, token),
            Kind::Var(_) | Kind::Number { .. } | Kind::Hole => {
                self.take_again(alloc, operand, token)
            }
        }
    }

    // One token after this operand: it is an argument if it is a name.
    #[inline(never)]
    fn take_name(
        &mut self,
        alloc: Global,
        operand: Operand,
        token: &mut Token,
    ) -> Result<Taken, AllocError>
        requires nothing { self.old.inner ≡ Inner.Nothing }
        ensures taken { IfOk result
            (λ t. Takes machine_of_expressions greatest_height
            (Have (open_in self.old.begun) (operand_expr operand)) token.old t (expr_state self.new)) }
        ensures rest { OnOk result (token.new ≡ emptied token.old) }
    {
        let at = token.start;
        match &mut token.kind {
            Kind::Name(letters) => {
                let name = name_of(letters.take(alloc));
                let given = name_argument(alloc, &mut self.begun, operand, name, at)?;
                Ok(self.go(given))
            }
            _ => self.take_again(alloc, operand, token),
        }
    }

    // One token after this operand: it ends forms if it is a reserved word.
    #[inline(never)]
    fn take_word(
        &mut self,
        alloc: Global,
        operand: Operand,
        token: &mut Token,
    ) -> Result<Taken, AllocError>
        requires nothing { self.old.inner ≡ Inner.Nothing }
        ensures taken { IfOk result
            (λ t. Takes machine_of_expressions greatest_height
            (Have (open_in self.old.begun) (operand_expr operand)) token.old t (expr_state self.new)) }
        ensures rest { OnOk result (token.new ≡ emptied token.old) }
    {
        match &token.kind {
            Kind::Word(keyword) => match plain_word(*keyword) {
                Some(keyword) => {
                    let given = end_by_word(alloc, &mut self.begun, operand, keyword)?;
                    Ok(self.go(given))
                }
                None => self.take_again(alloc, operand, token),
            },
            _ => self.take_again(alloc, operand, token),
        }
    }

    // One token after this operand: `<`, `)` and `;` are signs that end forms or begin a note.
    #[inline(never)]
    fn take_mark(
        &mut self,
        alloc: Global,
        operand: Operand,
        token: &mut Token,
    ) -> Result<Taken, AllocError>
        requires nothing { self.old.inner ≡ Inner.Nothing }
        ensures taken { IfOk result
            (λ t. Takes machine_of_expressions greatest_height
            (Have (open_in self.old.begun) (operand_expr operand)) token.old t (expr_state self.new)) }
        ensures rest { OnOk result (token.new ≡ emptied token.old) }
    {
        match &token.kind {
            Kind::Sign(Symbol::Less) => {
                let given = less_after(alloc, &mut self.begun, operand, token.start, token.glued)?;
                Ok(self.go(given))
            }
            Kind::Sign(Symbol::RightParen) => {
                let given = end_by_mark(alloc, &mut self.begun, operand, Symbol::RightParen)?;
                Ok(self.go(given))
            }
            Kind::Sign(Symbol::Semicolon) => {
                let given = end_by_mark(alloc, &mut self.begun, operand, Symbol::Semicolon)?;
                Ok(self.go(given))
            }
            _ => self.take_again(alloc, operand, token),
        }
    }

    // One token after this operand, whatever it is.
    #[inline(never)]
    fn take_again(
        &mut self,
        alloc: Global,
        operand: Operand,
        token: &mut Token,
    ) -> Result<Taken, AllocError>
        requires nothing { self.old.inner ≡ Inner.Nothing }
        ensures taken { IfOk result
            (λ t. Takes machine_of_expressions greatest_height
            (Have (open_in self.old.begun) (operand_expr operand)) token.old t (expr_state self.new)) }
        ensures rest { OnOk result (token.new ≡ emptied token.old) }
    {
        self.begun.focus.put(Focus::Read(operand));
        self.take_any(alloc, token)
    }

    // One token more, whatever it is, if no note and no type has begun.
    #[inline(never)]
    fn take_any(&mut self, alloc: Global, token: &mut Token) -> Result<Taken, AllocError>
        requires nothing { self.old.inner ≡ Inner.Nothing }
        ensures taken { IfOk result
            (λ t. Takes machine_of_expressions greatest_height (begun_state self.old.begun) token.old t
            (expr_state self.new)) }
        ensures rest { OnOk result (token.new ≡ emptied token.old) }
    {
        let given = step(alloc, &mut self.begun, token)?;
        Ok(self.go(given))
    }

    // The token that the note or the type has refused, if one has begun.
    #[inline(never)]
    fn take_refused(&mut self, alloc: Global, token: &mut Token) -> Result<Taken, AllocError>
        requires low { IsLow (expr_state self.old) }
        ensures taken { IfOk result
            (λ t. Gives machine_of_expressions greatest_height (expr_state self.old)
            (own_step (expr_state self.old) token.old) t (expr_state self.new)) }
        ensures rest { OnOk result (token.new ≡ emptied token.old) }
    {
        match &mut self.inner {
            Inner::Nothing => self.take_any(alloc, token),
            Inner::Note(at, value, note) => {
                let at = *at;
                let value = *value;
                let found = note.take_whole(alloc)?;
                self.end_note(alloc, at, value, found, token)
            }
            Inner::Type(at, ty) => {
                let at = *at;
                let found = ty.take_whole();
                self.end_type(alloc, at, found, token)
            }
        }
    }

    // The token that the note of a number has refused, with what was read of the note, if that is whole.
    fn end_note(
        &mut self,
        alloc: Global,
        at: u32,
        value: Frac,
        found: Option<RawNote>,
        token: &mut Token,
    ) -> Result<Taken, AllocError>
        requires low { IfSome found (λ n. note_height (note_syntax n) ≤ greatest_height) }
        ensures taken { (s : NoteState) → option_map note_syntax found ≡ note_finish s → IfOk result
            (λ t. Gives machine_of_expressions greatest_height (InNote (open_in self.old.begun) at value s)
            (own_step (InNote (open_in self.old.begun) at value s) token.old) t (expr_state self.new)) }
        ensures rest { OnOk result (token.new ≡ emptied token.old) }
    {
        self.end_inner();
        let kind = ExprToken::of_kind(alloc, &mut token.kind);
        let given = note_ends(alloc, &mut self.begun, at, value, found, kind)?;
        Ok(self.go(given))
    }

    // The token that the type of an empty list has refused, with what was read of the type, if that is whole.
    fn end_type(
        &mut self,
        alloc: Global,
        at: u32,
        found: Option<RawType>,
        token: &mut Token,
    ) -> Result<Taken, AllocError>
        requires low { IfSome found (λ t. whole_height (type_syntax t) ≤ greatest_height) }
        ensures taken { (s : TypeState) → option_map type_syntax found ≡ type_finish s → IfOk result
            (λ t. Gives machine_of_expressions greatest_height (InType (open_in self.old.begun) at s)
            (own_step (InType (open_in self.old.begun) at s) token.old) t (expr_state self.new)) }
        ensures rest { OnOk result (token.new ≡ emptied token.old) }
    {
        self.end_inner();
        let kind = ExprToken::of_kind(alloc, &mut token.kind);
        let given = type_ends(alloc, &mut self.begun, at, found, kind)?;
        Ok(self.go(given))
    }

    // No note and no type is read any more. A note that was begun anew holds nothing that has to be let go.
    #[inline(always)]
    fn end_inner(&mut self)
        ensures inner { self.new.inner ≡ Inner.Nothing }
        ensures begun { self.new.begun ≡ self.old.begun }
    {
        match &mut self.inner {
            Inner::Nothing => {}
            Inner::Note(_, _, note) => {
                note.restart();
                mem::forget(mem::replace(&mut self.inner, Inner::Nothing));
            }
            Inner::Type(_, _) => drop(mem::replace(&mut self.inner, Inner::Nothing)),
        }
    }

    // What a step gives is done in the reader.
    #[inline(always)]
    fn go(&mut self, given: Step) -> Taken
        requires nothing { self.old.inner ≡ Inner.Nothing }
        ensures { (old next : State) → Simulates (finish old) self.old.begun given next
            → Gives machine_of_expressions greatest_height old next result (expr_state self.new) }
    {
        match given {
            Step::Goes => rated(&self.begun.frames, &self.begun.focus),
            Step::Note(at, value) => self.begin_note(at, value),
            Step::Type(at) => self.begin_type(at),
            Step::Stops(found) => self.stop(found),
        }
    }

    // From now on this is read inside the focus. If nothing was, there is nothing to let go.
    #[inline(always)]
    fn put_inner(&mut self, inner: Inner)
        ensures inner { self.new.inner ≡ inner }
        ensures begun { self.new.begun ≡ self.old.begun }
    {
        match &self.inner {
            Inner::Nothing => mem::forget(mem::replace(&mut self.inner, inner)),
            _ => drop(mem::replace(&mut self.inner, inner)),
        }
    }

    // The note of a number begins. It needs as much height as an operand that is wanted. The number stays in focus,
    // because its box is used again.
    #[inline(never)]
    fn begin_note(&mut self, at: u32, value: Frac) -> Taken
        ensures state { expr_state self.new ≡ InNote (open_in self.old.begun) at value NeedNote }
        ensures low { result ≡ cond
            (nat_lt (whole_least (Need (open_in self.old.begun))) (greatest_height + 1)) Taken.Goes Taken.High }
    {
        self.put_inner(Inner::Note(at, value, NoteReader::new()));
        rated(&self.begun.frames, &Focus::Wanted)
    }

    // The type of an empty list begins. It needs as much height as the colon before it.
    #[inline(never)]
    fn begin_type(&mut self, at: u32) -> Taken
        ensures state { expr_state self.new ≡ InType (open_in self.old.begun) at (NeedType 0) }
        ensures low { result ≡ cond
            (nat_lt (whole_least (Inside (open_in self.old.begun) (NilColon at)))
            (greatest_height + 1)) Taken.Goes Taken.High }
    {
        self.put_inner(Inner::Type(at, TypeReader::new()));
        self.begun.focus.put(Focus::Inside(Expected::NilColon(at)));
        rated(&self.begun.frames, &self.begun.focus)
    }

    // The expression stops, and this is what was read.
    #[inline(never)]
    fn stop(&mut self, found: Option<Operand>) -> Taken
        requires nothing { self.old.inner ≡ Inner.Nothing }
        ensures stops { result ≡ Taken.Stops }
        ensures found { finish (expr_state self.new) ≡ option_map operand_expr found }
    {
        self.begun.frames.clear();
        self.begun.focus.put(focus_on(found));
        Taken::Stops
    }

    /// Another expression begins, whatever was read. The room of the open frames is kept.
    pub fn restart(&mut self)
        ensures start { expr_state self.new ≡ Need [] }
    {
        self.end_inner();
        self.begun.frames.clear();
        self.begun.focus.put(Focus::Wanted);
    }

    /// The expression of the tokens that were taken, if they are one, out of the reader. Fails only for want of memory.
    pub fn take_whole(&mut self, alloc: Global) -> Result<Option<RawExpr>, AllocError>
        ensures found { IfOk result (λ o. option_map expr_syntax o ≡ finish (expr_state self.old)) }
    {
        match &self.inner {
            Inner::Nothing => {
                let focus = mem::replace(&mut self.begun.focus, Focus::Wanted);
                finished(alloc, &mut self.begun.frames, focus)
            }
            Inner::Note(_, _, _) | Inner::Type(_, _) => Ok(None),
        }
    }

    /// The expression of the tokens that were taken, if they are one. Fails only for want of memory.
    pub fn finish(self, alloc: Global) -> Result<Option<RawExpr>, AllocError>
        ensures found { IfOk result (λ o. option_map expr_syntax o ≡ finish (expr_state self)) }
    {
        let mut reader = self;
        let found = reader.take_whole(alloc);
        drop(reader);
        found
    }
}
