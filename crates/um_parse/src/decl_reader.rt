// A declaration that is read one token at a time. Functions are read in place, and records in a box.
ghost use Rattle.std.specs.Prelude.{◌≡◌, ℕ, ◌≤◌, false, [], IfOk, Some, None, is_some, option_map};
ghost use Rattle.um_tree.specs.RawTree.{unit_syntax, base_syntax, decl_syntax};
ghost use Rattle.um_reader.specs.Takes.{Gives, Takes};
ghost use Rattle.um_unit_texts.specs.UnitStops.{greatest_height};
ghost use Rattle.um_unit_texts.specs.UnitMachine.{Need, finish};
ghost use Rattle.um_unit_texts.specs.UnitView.{unit_state};
ghost use Rattle.um_forms.specs.ExprTokens.{expr_token};
ghost use Rattle.um_decls.specs.DeclMachine.{Expects, DeclBegin, MeasureName, RecordName, LetName, RecName};
ghost use Rattle.um_decls.specs.DeclMachine.{FunctionVars, HaveBase, InShort, NoDecl, take_expected, base_after};
ghost use Rattle.um_decls.specs.DeclMachine.{short_found, decl_act, decl_finish, at_start};
ghost use Rattle.um_decls.specs.DeclStanding.{decl_stands};
ghost use Rattle.um_decls.specs.DeclLeast.{decl_least, machine_of_declarations};
ghost use Rattle.um_decls.specs.DeclTakes.{Ends};
ghost use Rattle.um_decls.specs.DeclTokens.{BeginsAlike, IfStops};
ghost use Rattle.um_decls.specs.DeclViews.{function_state};
ghost use Rattle.um_parse.specs.ReaderStates.{view_fixed, view_expected, place_state, reader_state, base_step};

use crate::decl_begin::{after_token, begins_short, can_take_at};
use crate::decl_prefix::{DeclExpected, FixedToken};
use std::alloc::{AllocError, Global};
use std::mem;
use um_decls::{FunctionReader, RecordReader, in_box, push_found, take_in_unit};
use um_reader::{Reader, Taken};
use um_syntax::{Keyword, Kind, Symbol, Token};
use um_tree::{Name, RawDecl, RawUnit};
use um_unit_texts::{UnitReader, name_of};

/// How far a declaration was read.
#[derive(Drop)]
pub(crate) enum DeclPlace {
    /// What was read has refused a token, and no declaration ends there
    Nothing,
    /// Before the name
    At(DeclExpected),
    /// A measure, at its name, that may be whole; in its unit text
    Base(u32, Name),
    Short(u32, Name, Box<UnitReader>),
    /// After the name of a record; of a function
    Record(Box<RecordReader>),
    Function,
}

/// A declaration that has begun, and the reader of functions, which serves one function after another.
#[derive(Drop)]
pub(crate) struct DeclReader {
    place: DeclPlace,
    function: FunctionReader,
}

// An abbreviation, if its unit text was found.
fn short_found(at: u32, name: Name, found: Option<RawUnit>) -> Option<RawDecl>
    ensures { option_map decl_syntax result ≡ short_found at name (option_map unit_syntax found) }
{
    match found {
        Some(unit) => Some(RawDecl::Short(at, name, unit)),
        None => None,
    }
}

// A measure is added to these declarations.
#[inline(never)]
fn end_base(at: u32, name: Name, decls: &mut Vec<RawDecl>) -> Result<bool, AllocError>
    ensures { IfOk result (λ whole. Ends (Some (base_syntax at name)) whole decls.old.items decls.new.items) }
{
    push_found(decls, Some(RawDecl::Base(at, name)))
}

// An abbreviation is added to these declarations, if its unit text is whole. Answers whether it is.
#[inline(never)]
fn end_short(
    alloc: Global,
    at: u32,
    name: Name,
    unit: Box<UnitReader>,
    decls: &mut Vec<RawDecl>,
) -> Result<bool, AllocError>
    ensures { IfOk result (λ whole.
        Ends (short_found at name (finish (unit_state unit.value))) whole decls.old.items decls.new.items) }
{
    match Box::into_inner(unit).finish(alloc) {
        Ok(found) => push_found(decls, short_found(at, name, found)),
        Err(error) => {
            drop(name);
            Err(error)
        }
    }
}

// One token more of a function. Out of line, so that other places take their tokens without its registers.
#[inline(never)]
fn take_in_function(
    function: &mut FunctionReader,
    alloc: Global,
    token: &mut Token,
) -> Result<Taken, AllocError>
    requires low { decl_least (function_state function.old) ≤ greatest_height }
    ensures taken { IfOk result (λ t. Takes machine_of_declarations greatest_height (function_state function.old)
        token.old t (function_state function.new)) }
    ensures kept { IfOk result (λ t. IfStops t (BeginsAlike token.new token.old)) }
{
    function.take(alloc, token)
}

// No declaration ends here.
fn unfinished(place: DeclPlace) -> bool
    ensures { result ≡ false }
{
    drop(place);
    false
}

impl DeclReader {
    /// No token was read yet.
    pub fn new(alloc: Global) -> DeclReader
        ensures start { reader_state result ≡ Expects DeclBegin }
    {
        DeclReader {
            place: DeclPlace::At(DeclExpected::Token(FixedToken::Begin)),
            function: FunctionReader::new(alloc),
        }
    }

    /// Whether no token was read.
    pub fn is_at_start(&self) -> bool
        ensures { result ≡ at_start (reader_state self.now) }
    {
        match &self.place {
            DeclPlace::At(DeclExpected::Token(FixedToken::Begin)) => true,
            _ => false,
        }
    }

    /// Another declaration begins, whatever was read.
    pub fn restart(&mut self)
        ensures start { reader_state self.new ≡ Expects DeclBegin }
    {
        self.put(DeclPlace::At(DeclExpected::Token(FixedToken::Begin)));
    }

    /// Nothing ends here, whatever was read.
    pub fn stop(&mut self)
        ensures stopped { reader_state self.new ≡ NoDecl }
    {
        self.put(DeclPlace::Nothing);
    }

    /// Whether the declaration goes on with a token of this kind, glued to the one before or not. It isn't taken, and
    /// no height is asked for.
    pub fn can_take(&self, kind: &Kind, glued: bool) -> bool
        ensures { (p : ℕ) → result
            ≡ decl_stands (decl_act (reader_state self.now) (expr_token kind.now) p glued kind.now) }
    {
        match &self.place {
            DeclPlace::Function => self.function.can_take(kind, glued),
            DeclPlace::Record(record) => record.can_take(kind),
            DeclPlace::Short(_, _, unit) => unit.can_take(kind),
            DeclPlace::Nothing => false,
            DeclPlace::At(expected) => can_take_at(*expected, kind),
            DeclPlace::Base(_, _) => begins_short(kind),
        }
    }

    /// Whether the tokens that were taken are a declaration.
    pub fn is_whole(&self) -> bool
        ensures { result ≡ is_some (decl_finish (reader_state self.now)) }
    {
        match &self.place {
            DeclPlace::Function => self.function.is_whole(),
            DeclPlace::Record(record) => record.is_whole(),
            DeclPlace::Short(_, _, unit) => unit.is_whole(),
            DeclPlace::Nothing | DeclPlace::At(_) => false,
            DeclPlace::Base(_, _) => true,
        }
    }

    /// One token more. A token that is refused still begins a declaration as it did, though its letters may be gone.
    /// Most tokens stand in functions.
    #[inline(always)]
    pub fn take(&mut self, alloc: Global, token: &mut Token) -> Result<Taken, AllocError>
        requires low { decl_least (reader_state self.old) ≤ greatest_height }
        ensures taken { IfOk result (λ t.
            Takes machine_of_declarations greatest_height (reader_state self.old) token.old t (reader_state self.new)) }
        ensures kept { IfOk result (λ t. IfStops t (BeginsAlike token.new token.old)) }
    {
        match &mut self.place {
            DeclPlace::Function => self.function.take(alloc, token),
            DeclPlace::Short(_, _, unit) => take_in_unit(unit, alloc, token),
            _ => self.take_any(alloc, token),
        }
    }

    // One token more, however far the declaration was read.
    #[inline(never)]
    fn take_any(&mut self, alloc: Global, token: &mut Token) -> Result<Taken, AllocError>
        requires low { decl_least (reader_state self.old) ≤ greatest_height }
        ensures taken { IfOk result (λ t.
            Takes machine_of_declarations greatest_height (reader_state self.old) token.old t (reader_state self.new)) }
        ensures kept { IfOk result (λ t. IfStops t (BeginsAlike token.new token.old)) }
    {
        match &mut self.place {
            DeclPlace::Function => take_in_function(&mut self.function, alloc, token),
            DeclPlace::Record(record) => record.take(alloc, token),
            DeclPlace::Short(_, _, unit) => take_in_unit(unit, alloc, token),
            DeclPlace::Nothing => Ok(Taken::Stops),
            DeclPlace::At(expected) => {
                let expected = *expected;
                self.take_at(alloc, expected, token)
            }
            DeclPlace::Base(_, _) => self.take_base(alloc, token),
        }
    }

    // From now on the declaration was read so far. Only a measure and a record hold something that has to be let go.
    #[inline(always)]
    fn put(&mut self, place: DeclPlace)
        ensures place { self.new.place ≡ place }
        ensures function { self.new.function ≡ self.old.function }
    {
        match &self.place {
            DeclPlace::Nothing | DeclPlace::At(_) | DeclPlace::Function => {
                mem::forget(mem::replace(&mut self.place, place));
            }
            _ => drop(mem::replace(&mut self.place, place)),
        }
    }

    // The token is refused, and the reader ends as before it.
    fn stay(&mut self, place: DeclPlace) -> Taken
        ensures { Gives machine_of_declarations greatest_height (place_state place self.old.function) NoDecl
            result (reader_state self.new) }
    {
        self.put(place);
        Taken::Stops
    }

    // The token before the name, or the name.
    #[inline(always)]
    fn take_at(
        &mut self,
        alloc: Global,
        expected: DeclExpected,
        token: &mut Token,
    ) -> Result<Taken, AllocError>
        requires nothing { decl_finish (reader_state self.old) ≡ None }
        ensures taken { IfOk result (λ t. Gives machine_of_declarations greatest_height NoDecl
            (take_expected (view_expected expected) (expr_token token.old.kind) token.old.start)
            t (reader_state self.new)) }
        ensures kept { BeginsAlike token.new token.old }
    {
        match expected {
            DeclExpected::Token(expected) => Ok(self.take_fixed(expected, token)),
            DeclExpected::BaseName => Ok(self.take_base_name(alloc, token)),
            DeclExpected::RecordName => self.take_record_name(alloc, token),
            DeclExpected::LetName => Ok(self.take_let_name(alloc, token)),
            DeclExpected::RecName => Ok(self.take_rec_name(alloc, token)),
        }
    }

    // The token at which no name may stand.
    fn take_fixed(&mut self, expected: FixedToken, token: &Token) -> Taken
        requires nothing { decl_finish (reader_state self.old) ≡ None }
        ensures { Gives machine_of_declarations greatest_height NoDecl
            (take_expected (view_fixed expected) (expr_token token.now.kind) token.now.start)
            result (reader_state self.new) }
    {
        match after_token(expected, &token.kind) {
            Some(next) => {
                self.put(DeclPlace::At(next));
                Taken::Goes
            }
            None => Taken::Stops,
        }
    }

    // The name of a measure.
    fn take_base_name(&mut self, alloc: Global, token: &mut Token) -> Taken
        requires nothing { decl_finish (reader_state self.old) ≡ None }
        ensures taken { Gives machine_of_declarations greatest_height NoDecl
            (take_expected MeasureName (expr_token token.old.kind) token.old.start) result (reader_state self.new) }
        ensures kept { BeginsAlike token.new token.old }
    {
        let at = token.start;
        match &mut token.kind {
            Kind::Name(letters) => {
                let name = name_of(letters.take(alloc));
                self.put(DeclPlace::Base(at, name));
                Taken::Goes
            }
            _ => Taken::Stops,
        }
    }

    // The name of a record.
    fn take_record_name(&mut self, alloc: Global, token: &mut Token) -> Result<Taken, AllocError>
        requires nothing { decl_finish (reader_state self.old) ≡ None }
        ensures taken { IfOk result (λ t. Gives machine_of_declarations greatest_height NoDecl
            (take_expected RecordName (expr_token token.old.kind) token.old.start) t (reader_state self.new)) }
        ensures kept { BeginsAlike token.new token.old }
    {
        let at = token.start;
        match &mut token.kind {
            Kind::Name(letters) => {
                let name = name_of(letters.take(alloc));
                let record = RecordReader::new(alloc, at, name)?;
                self.put(DeclPlace::Record(record));
                Ok(Taken::Goes)
            }
            _ => Ok(Taken::Stops),
        }
    }

    // The name of a function, or `rec`.
    fn take_let_name(&mut self, alloc: Global, token: &mut Token) -> Taken
        requires nothing { decl_finish (reader_state self.old) ≡ None }
        ensures taken { Gives machine_of_declarations greatest_height NoDecl
            (take_expected LetName (expr_token token.old.kind) token.old.start) result (reader_state self.new) }
        ensures kept { BeginsAlike token.new token.old }
    {
        let at = token.start;
        match &mut token.kind {
            Kind::Name(letters) => {
                let name = name_of(letters.take(alloc));
                self.begin_function(false, at, name);
                Taken::Goes
            }
            Kind::Word(Keyword::Rec) => {
                self.put(DeclPlace::At(DeclExpected::RecName));
                Taken::Goes
            }
            _ => Taken::Stops,
        }
    }

    // The name of a function after `rec`.
    fn take_rec_name(&mut self, alloc: Global, token: &mut Token) -> Taken
        requires nothing { decl_finish (reader_state self.old) ≡ None }
        ensures taken { Gives machine_of_declarations greatest_height NoDecl
            (take_expected RecName (expr_token token.old.kind) token.old.start) result (reader_state self.new) }
        ensures kept { BeginsAlike token.new token.old }
    {
        let at = token.start;
        match &mut token.kind {
            Kind::Name(letters) => {
                let name = name_of(letters.take(alloc));
                self.begin_function(true, at, name);
                Taken::Goes
            }
            _ => Taken::Stops,
        }
    }

    // A function begins at its name.
    fn begin_function(&mut self, recursive: bool, at: u32, name: Name)
        ensures { reader_state self.new ≡ Expects (FunctionVars recursive at name) }
    {
        self.function.begin(recursive, at, name);
        self.put(DeclPlace::Function);
    }

    // The token after the name of a measure.
    #[inline(never)]
    fn take_base(&mut self, alloc: Global, token: &Token) -> Result<Taken, AllocError>
        ensures { IfOk result (λ t. Gives machine_of_declarations greatest_height (reader_state self.old)
            (base_step self.old.place token.now) t (reader_state self.new)) }
    {
        match mem::replace(&mut self.place, DeclPlace::Nothing) {
            DeclPlace::Base(at, name) => self.after_base(alloc, at, name, token),
            other => Ok(self.stay(other)),
        }
    }

    // The token after the name of a measure, at its place.
    fn after_base(
        &mut self,
        alloc: Global,
        at: u32,
        name: Name,
        token: &Token,
    ) -> Result<Taken, AllocError>
        ensures { IfOk result (λ t. Gives machine_of_declarations greatest_height (HaveBase at name)
            (base_after at name (expr_token token.now.kind)) t (reader_state self.new)) }
    {
        match &token.kind {
            Kind::Sign(Symbol::Equal) => self.begin_short(alloc, at, name),
            _ => Ok(self.stay(DeclPlace::Base(at, name))),
        }
    }

    // The unit text of an abbreviation begins.
    fn begin_short(&mut self, alloc: Global, at: u32, name: Name) -> Result<Taken, AllocError>
        ensures { IfOk result (λ t. Gives machine_of_declarations greatest_height (HaveBase at name)
            (InShort at name (Need [])) t (reader_state self.new)) }
    {
        match in_box(alloc, UnitReader::new(alloc)) {
            Ok(unit) => {
                self.put(DeclPlace::Short(at, name, unit));
                Ok(Taken::Goes)
            }
            Err(error) => {
                drop(name);
                Err(error)
            }
        }
    }

    /// The declaration of the tokens that were taken is added to these, if they are one, and another begins. Answers
    /// whether they are one.
    pub fn finish(&mut self, alloc: Global, decls: &mut Vec<RawDecl>) -> Result<bool, AllocError>
        ensures found { IfOk result (λ whole.
            Ends (decl_finish (reader_state self.old)) whole decls.old.items decls.new.items) }
        ensures start { reader_state self.new ≡ Expects DeclBegin }
    {
        match mem::replace(
            &mut self.place,
            DeclPlace::At(DeclExpected::Token(FixedToken::Begin)),
        ) {
            DeclPlace::Function => self.function.finish(alloc, decls),
            DeclPlace::Base(at, name) => end_base(at, name, decls),
            DeclPlace::Short(at, name, unit) => end_short(alloc, at, name, unit, decls),
            DeclPlace::Record(record) => RecordReader::finish(record, decls),
            other => Ok(unfinished(other)),
        }
    }
}
