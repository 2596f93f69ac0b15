// A value text of a shape that is read one token at a time.
ghost use Rattle.std.specs.Prelude.{◌≡◌, ◌≤◌, [], None, Some, IfOk, map, slice_get, option_map};
ghost use Rattle.um_tree.specs.RawTree.{note_syntax};
ghost use Rattle.um_tree.specs.TypeTree.{shape_tree};
ghost use Rattle.um_tree.specs.ProgramTree.{record_tree, field_tree};
ghost use Rattle.um_unit_texts.specs.UnitStops.{greatest_height};
ghost use Rattle.um_types.specs.NoteMachine.{note_finish};
ghost use Rattle.um_types.specs.NoteView.{note_state};
ghost use Rattle.um_value.specs.ValueSyntax.{raw_number, value_syntax};
ghost use Rattle.um_value.specs.ValueMachine.{Need, Have, truth_begin, number_begin, list_begin, record_begin};
ghost use Rattle.um_value.specs.ValueMachine.{open_record, open_fields, begin, begun, negative_act, named, equal_act};
ghost use Rattle.um_value.specs.ValueMachine.{item_end, next_end, last_end, field_end, ended, counted, note_end};
ghost use Rattle.um_value.specs.ValueMachine.{note_ends, own_act, whole, value_finish, value_least};
ghost use Rattle.um_value.specs.ValueView.{wanted_shape, stack, state_of, value_state, Moves, ValueTakes};

use crate::frame::{Focus, Frame, Literal, pop_frame, push_frame, with};
use crate::raw::{RawValue, RawValues};
use crate::wanted::{Sort, Wanted};
use std::alloc::{AllocError, Global};
use std::mem;
use um_reader::Taken;
use um_syntax::{Keyword, Kind, Symbol, Token};
use um_tree::{FieldDecl, RawNote, Record, Shape};
use um_types::NoteReader;

/// A value text that has begun: what is open around the next part, and what is at hand.
#[derive(Drop)]
pub(crate) struct ValueReader<'a> {
    frames: Vec<Frame<'a>>,
    focus: Focus<'a>,
}

// The value when all is read, if nothing is open.
fn whole<'a>(frames: Vec<Frame<'a>>, value: RawValue) -> Option<RawValue>
    ensures { option_map value_syntax result ≡ whole (stack frames.entry.items) (value_syntax value) }
{
    let done = frames.is_empty();
    drop(frames);
    if done {
        Some(value)
    } else {
        drop(value);
        None
    }
}

impl<'a> ValueReader<'a> {
    /// No token was read yet.
    pub(crate) fn new(alloc: Global, shape: &'a Shape) -> ValueReader<'a>
        ensures start { value_state result ≡ Need [] (shape_tree shape.now) }
    {
        ValueReader {
            frames: Vec::new(alloc),
            focus: Focus::Need(Wanted::OfShape(shape)),
        }
    }

    /// One token more. A note moves the letters of its names out of it.
    pub(crate) fn take(
        &mut self,
        alloc: Global,
        records: &'a [Record],
        token: &mut Token,
    ) -> Result<Taken, AllocError>
        requires low { value_least (value_state self.old) ≤ greatest_height }
        ensures { IfOk result (λ t. ValueTakes (map record_tree records.now) (value_state self.old) token.old t
            (value_state self.new)) }
    {
        match &mut self.focus {
            Focus::InNote(_, note) => match note.take(alloc, token)? {
                Taken::Goes => Ok(Taken::Goes),
                Taken::Stops => self.take_own(alloc, records, token),
                Taken::High => Ok(Taken::High),
            },
            _ => self.take_own(alloc, records, token),
        }
    }

    // One token more, which the note has refused, if one has begun.
    fn take_own(
        &mut self,
        alloc: Global,
        records: &'a [Record],
        token: &Token,
    ) -> Result<Taken, AllocError>
        ensures { IfOk result (λ t. Moves (value_finish (value_state self.old))
            (own_act (map record_tree records.now) (value_state self.old) token.now.kind token.now.start
            token.now.glued) t (value_state self.new)) }
    {
        match mem::replace(&mut self.focus, Focus::Negative) {
            Focus::Need(wanted) => self.take_first(alloc, records, wanted, token),
            Focus::Begun(item) => self.take_item(alloc, records, item, token),
            Focus::Negative => Ok(self.take_digits(token)),
            Focus::Counted(literal) => self.take_counted(literal, token),
            Focus::InNote(literal, note) => self.take_behind(alloc, literal, note, token),
            Focus::Name(field) => Ok(self.take_name(field, token)),
            Focus::Equal(wanted) => Ok(self.take_equal(wanted, token)),
            Focus::Full(value) => self.take_end(value, token),
        }
    }

    // What is at hand.
    fn put(&mut self, focus: Focus<'a>)
        ensures focus { self.new.focus ≡ focus.entry }
        ensures frames { self.new.frames.items ≡ self.old.frames.items }
    {
        drop(mem::replace(&mut self.focus, focus));
    }

    // The reading goes on.
    fn go(&mut self, focus: Focus<'a>) -> Taken
        ensures goes { result ≡ Taken.Goes }
        ensures state { value_state self.new ≡ state_of (stack self.old.frames.items) focus.entry }
    {
        self.put(focus);
        Taken::Goes
    }

    // A value is at hand.
    fn give(&mut self, value: RawValue) -> Taken
        ensures goes { result ≡ Taken.Goes }
        ensures state { value_state self.new ≡ Have (stack self.old.frames.items) (value_syntax value) }
    {
        self.go(Focus::Full(value))
    }

    // One token where a value is wanted.
    fn take_first(
        &mut self,
        alloc: Global,
        records: &'a [Record],
        wanted: Wanted<'a>,
        token: &Token,
    ) -> Result<Taken, AllocError>
        requires wanted { self.old.focus ≡ Focus.Negative }
        ensures { IfOk result (λ t. Moves None (begin (map record_tree records.now) (stack self.old.frames.items)
            (wanted_shape wanted.entry) token.now.kind token.now.start) t (value_state self.new)) }
    {
        match wanted.sort() {
            Sort::Truth => Ok(self.take_truth(token)),
            Sort::Number => Ok(self.take_number(token)),
            Sort::Items(item) => Ok(self.take_list(item, token)),
            Sort::Parts(r) => self.take_record(alloc, records, r, token),
        }
    }

    fn take_truth(&mut self, token: &Token) -> Taken
        requires wanted { self.old.focus ≡ Focus.Negative }
        ensures { Moves None (truth_begin (stack self.old.frames.items) token.now.kind) result (value_state self.new) }
    {
        match &token.kind {
            Kind::Word(Keyword::True) => self.give(RawValue::Bool(true)),
            Kind::Word(Keyword::False) => self.give(RawValue::Bool(false)),
            _ => Taken::Stops,
        }
    }

    fn take_number(&mut self, token: &Token) -> Taken
        requires wanted { self.old.focus ≡ Focus.Negative }
        ensures { Moves None (number_begin (stack self.old.frames.items) token.now.kind token.now.start) result
            (value_state self.new) }
    {
        match &token.kind {
            Kind::Number { value, .. } => self.go(Focus::Counted(Literal {
                at: token.start,
                negative: false,
                value: *value,
            })),
            Kind::Sign(Symbol::Minus) => self.go(Focus::Negative),
            _ => Taken::Stops,
        }
    }

    // The number after `-`.
    fn take_digits(&mut self, token: &Token) -> Taken
        requires wanted { self.old.focus ≡ Focus.Negative }
        ensures { Moves None (negative_act (stack self.old.frames.items) token.now.kind token.now.start) result
            (value_state self.new) }
    {
        match &token.kind {
            Kind::Number { value, .. } => self.go(Focus::Counted(Literal {
                at: token.start,
                negative: true,
                value: *value,
            })),
            _ => Taken::Stops,
        }
    }

    fn take_list(&mut self, item: Wanted<'a>, token: &Token) -> Taken
        requires wanted { self.old.focus ≡ Focus.Negative }
        ensures { Moves None (list_begin (stack self.old.frames.items) (wanted_shape item.entry) token.now.kind) result
            (value_state self.new) }
    {
        match &token.kind {
            Kind::Sign(Symbol::LeftBracket) => self.go(Focus::Begun(item)),
            _ => Taken::Stops,
        }
    }

    fn take_record(
        &mut self,
        alloc: Global,
        records: &'a [Record],
        r: u32,
        token: &Token,
    ) -> Result<Taken, AllocError>
        requires wanted { self.old.focus ≡ Focus.Negative }
        ensures { IfOk result (λ t. Moves None (record_begin (stack self.old.frames.items) r
            (slice_get (map record_tree records.now) r) token.now.kind) t (value_state self.new)) }
    {
        match &token.kind {
            Kind::Sign(Symbol::LeftBrace) => self.open_record(alloc, records, r),
            _ => Ok(Taken::Stops),
        }
    }

    // `{`
    fn open_record(
        &mut self,
        alloc: Global,
        records: &'a [Record],
        r: u32,
    ) -> Result<Taken, AllocError>
        requires wanted { self.old.focus ≡ Focus.Negative }
        ensures { IfOk result (λ t. Moves None (open_record (stack self.old.frames.items) r
            (slice_get (map record_tree records.now) r)) t (value_state self.new)) }
    {
        match records.get(r as usize) {
            Some(declared) => self.open_fields(alloc, r, &declared.fields.items),
            None => Ok(Taken::Stops),
        }
    }

    // `{` before these fields
    fn open_fields(
        &mut self,
        alloc: Global,
        r: u32,
        fields: &'a [FieldDecl],
    ) -> Result<Taken, AllocError>
        requires wanted { self.old.focus ≡ Focus.Negative }
        ensures { IfOk result (λ t. Moves None (open_fields (stack self.old.frames.items) r (map field_tree fields.now))
            t (value_state self.new)) }
    {
        match fields.split_first() {
            Some((field, rest)) => {
                let frame = Frame::InRecord(r, Vec::new(alloc), rest);
                push_frame(&mut self.frames, frame)?;
                Ok(self.go(Focus::Name(field)))
            }
            None => Ok(Taken::Stops),
        }
    }

    // One token after `[`.
    fn take_item(
        &mut self,
        alloc: Global,
        records: &'a [Record],
        item: Wanted<'a>,
        token: &Token,
    ) -> Result<Taken, AllocError>
        requires wanted { self.old.focus ≡ Focus.Negative }
        ensures { IfOk result (λ t. Moves None (begun (map record_tree records.now) (stack self.old.frames.items)
            (wanted_shape item.entry) token.now.kind token.now.start) t (value_state self.new)) }
    {
        match &token.kind {
            Kind::Sign(Symbol::RightBracket) => {
                let items = Vec::new(alloc);
                Ok(self.give(RawValue::List(RawValues { items })))
            }
            _ => {
                push_frame(&mut self.frames, Frame::InList(item, Vec::new(alloc)))?;
                self.take_first(alloc, records, item, token)
            }
        }
    }

    // One token after a number.
    fn take_counted(&mut self, literal: Literal, token: &Token) -> Result<Taken, AllocError>
        requires wanted { self.old.focus ≡ Focus.Negative }
        ensures { IfOk result (λ t. Moves (whole (stack self.old.frames.items)
            (raw_number literal.at literal.negative literal.value None))
            (counted (stack self.old.frames.items) literal.at literal.negative literal.value token.now.kind
            token.now.glued) t (value_state self.new)) }
    {
        match &token.kind {
            Kind::Sign(Symbol::Less) => Ok(self.take_angle(literal, token.glued)),
            _ => self.take_end(literal.plain(), token),
        }
    }

    // `<` after a number
    fn take_angle(&mut self, literal: Literal, glued: bool) -> Taken
        requires wanted { self.old.focus ≡ Focus.Negative }
        ensures { Moves (whole (stack self.old.frames.items)
            (raw_number literal.at literal.negative literal.value None))
            (counted (stack self.old.frames.items) literal.at literal.negative literal.value (Kind.Sign Symbol.Less)
            glued) result (value_state self.new) }
    {
        if glued {
            self.go(Focus::InNote(literal, NoteReader::new()))
        } else {
            self.put(Focus::Counted(literal));
            Taken::Stops
        }
    }

    // The token that a note has refused.
    fn take_behind(
        &mut self,
        alloc: Global,
        literal: Literal,
        note: NoteReader,
        token: &Token,
    ) -> Result<Taken, AllocError>
        requires wanted { self.old.focus ≡ Focus.Negative }
        ensures { IfOk result (λ t. Moves None (note_ends (stack self.old.frames.items) literal.at literal.negative
            literal.value (note_finish (note_state note)) token.now.kind) t (value_state self.new)) }
    {
        match note.finish(alloc)? {
            Some(note) => Ok(self.end_note(literal, note, token)),
            None => Ok(Taken::Stops),
        }
    }

    // The token after a note.
    fn end_note(&mut self, literal: Literal, note: RawNote, token: &Token) -> Taken
        requires wanted { self.old.focus ≡ Focus.Negative }
        ensures { Moves None (note_end (stack self.old.frames.items) literal.at literal.negative literal.value
            (note_syntax note) token.now.kind) result (value_state self.new) }
    {
        match &token.kind {
            Kind::Sign(Symbol::Greater) => self.give(literal.noted(note)),
            _ => {
                drop(note);
                Taken::Stops
            }
        }
    }

    // One token where the field's name is wanted.
    fn take_name(&mut self, field: &'a FieldDecl, token: &Token) -> Taken
        requires wanted { self.old.focus ≡ Focus.Negative }
        ensures { Moves None (named (stack self.old.frames.items) (field_tree field.now) token.now.kind) result
            (value_state self.new) }
    {
        match &token.kind {
            Kind::Name(letters) => {
                if letters.as_slice() == field.name.as_slice() {
                    self.go(Focus::Equal(Wanted::OfType(&field.ty)))
                } else {
                    Taken::Stops
                }
            }
            _ => Taken::Stops,
        }
    }

    // One token after a field's name.
    fn take_equal(&mut self, wanted: Wanted<'a>, token: &Token) -> Taken
        requires wanted { self.old.focus ≡ Focus.Negative }
        ensures { Moves None (equal_act (stack self.old.frames.items) (wanted_shape wanted.entry) token.now.kind) result
            (value_state self.new) }
    {
        match &token.kind {
            Kind::Sign(Symbol::Equal) => self.go(Focus::Need(wanted)),
            _ => Taken::Stops,
        }
    }

    // One token after a value.
    fn take_end(&mut self, value: RawValue, token: &Token) -> Result<Taken, AllocError>
        requires wanted { self.old.focus ≡ Focus.Negative }
        ensures { IfOk result (λ t. Moves (whole (stack self.old.frames.items) (value_syntax value))
            (ended (stack self.old.frames.items) (value_syntax value) token.now.kind) t (value_state self.new)) }
    {
        match pop_frame(&mut self.frames) {
            Some(Frame::InList(item, earlier)) => {
                let items = with(earlier, value)?;
                self.end_item(item, items, token)
            }
            Some(Frame::InRecord(r, earlier, fields)) => {
                let parts = with(earlier, value)?;
                self.end_field(r, parts, fields, token)
            }
            None => {
                self.put(Focus::Full(value));
                Ok(Taken::Stops)
            }
        }
    }

    // The token after these items.
    fn end_item(
        &mut self,
        item: Wanted<'a>,
        items: Vec<RawValue>,
        token: &Token,
    ) -> Result<Taken, AllocError>
        requires wanted { self.old.focus ≡ Focus.Negative }
        ensures { IfOk result (λ t. Moves None (item_end (stack self.old.frames.items) (wanted_shape item.entry)
            (map value_syntax items.items) token.now.kind) t (value_state self.new)) }
    {
        match &token.kind {
            Kind::Sign(Symbol::Semicolon) => {
                push_frame(&mut self.frames, Frame::InList(item, items))?;
                Ok(self.go(Focus::Need(item)))
            }
            Kind::Sign(Symbol::RightBracket) => Ok(self.give(RawValue::List(RawValues { items }))),
            _ => {
                drop(items);
                Ok(Taken::Stops)
            }
        }
    }

    // The token after these parts of a record.
    fn end_field(
        &mut self,
        r: u32,
        parts: Vec<RawValue>,
        fields: &'a [FieldDecl],
        token: &Token,
    ) -> Result<Taken, AllocError>
        requires wanted { self.old.focus ≡ Focus.Negative }
        ensures { IfOk result (λ t. Moves None (field_end (stack self.old.frames.items) r (map value_syntax parts.items)
            (map field_tree fields.now) token.now.kind) t (value_state self.new)) }
    {
        match fields.split_first() {
            Some((field, rest)) => self.next_field(r, parts, field, rest, token),
            None => Ok(self.last_field(r, parts, token)),
        }
    }

    // The token after these parts, if this field is next.
    fn next_field(
        &mut self,
        r: u32,
        parts: Vec<RawValue>,
        field: &'a FieldDecl,
        rest: &'a [FieldDecl],
        token: &Token,
    ) -> Result<Taken, AllocError>
        requires wanted { self.old.focus ≡ Focus.Negative }
        ensures { IfOk result (λ t. Moves None (next_end (stack self.old.frames.items) r (map value_syntax parts.items)
            (field_tree field.now) (map field_tree rest.now) token.now.kind) t (value_state self.new)) }
    {
        match &token.kind {
            Kind::Sign(Symbol::Semicolon) => {
                push_frame(&mut self.frames, Frame::InRecord(r, parts, rest))?;
                Ok(self.go(Focus::Name(field)))
            }
            _ => {
                drop(parts);
                Ok(Taken::Stops)
            }
        }
    }

    // The token after all parts of a record.
    fn last_field(&mut self, r: u32, parts: Vec<RawValue>, token: &Token) -> Taken
        requires wanted { self.old.focus ≡ Focus.Negative }
        ensures { Moves None (last_end (stack self.old.frames.items) r (map value_syntax parts.items) token.now.kind)
            result (value_state self.new) }
    {
        match &token.kind {
            Kind::Sign(Symbol::RightBrace) => {
                self.give(RawValue::Rec(r, RawValues { items: parts }))
            }
            _ => {
                drop(parts);
                Taken::Stops
            }
        }
    }

    /// The value when all is read, if it is one.
    pub(crate) fn finish(self) -> Option<RawValue>
        ensures found { option_map value_syntax result ≡ value_finish (value_state self.entry) }
    {
        let ValueReader { frames, focus } = self;
        match focus {
            Focus::Full(value) => whole(frames, value),
            Focus::Counted(literal) => whole(frames, literal.plain()),
            other => no_value(frames, other),
        }
    }
}

fn no_value<'a>(frames: Vec<Frame<'a>>, focus: Focus<'a>) -> Option<RawValue>
    ensures { result ≡ None }
{
    drop(frames);
    drop(focus);
    None
}
