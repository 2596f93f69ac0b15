// A record after `type`, which is read in place.
ghost use Rattle.std.specs.Prelude.{◌≡◌, ◌≤◌, [], map};
ghost use Rattle.um_tree.specs.RawTree.{field_decl_syntax};
ghost use Rattle.um_unit_texts.specs.UnitStops.{greatest_height};
ghost use Rattle.um_decls.specs.DeclHeights.{fields_height};

use crate::boxed::in_box;
use crate::decl_end::push_found;
use crate::decl_token::take_in_type;
use crate::decl_vars::{FixedVarToken, VarExpected, VarTaken, can_take_var, clear_vars, take_var};
use crate::head::Head;
use crate::query::{
    can_follow_field, can_follow_record, can_follow_record_vars, can_name_field, can_open_fields,
    can_take_field,
};
use std::alloc::{AllocError, Global};
use std::mem;
use um_reader::Taken;
use um_syntax::{Kind, Symbol, Token};
use um_tree::{Name, RawDecl, RawFieldDecl, RawFieldDecls};
use um_types::TypeReader;
use um_unit_texts::name_of;

/// What is expected in a record.
#[derive(Drop)]
pub(crate) enum FieldExpected {
    /// What follows the record's name; a token among the unit parameters; `=` after them; `{`
    Named,
    Var(VarExpected),
    Equal,
    Brace,
    /// A field's name; `:` after the name, at its place; more of its type, or what follows it
    Name,
    Colon(u32, Name),
    Type(u32, Name),
    /// Nothing, after the `}`
    Nothing,
}

/// The fields that were read of a record, none too high, what is expected, and the type that is read, if one has begun.
pub struct RecordReader {
    head: Head,
    fields: RawFieldDecls,
    expected: FieldExpected,
    ty: TypeReader,
    ghost low: { fields_height (map field_decl_syntax fields.items.items) ≤ greatest_height },
}

// A derived drop would be proved anew in each crate that lets readers go. This one is proved here.
impl Drop for RecordReader {
    fn drop(self) {
        let RecordReader {
            head: _,
            fields: _,
            expected: _,
            ty: _,
        } = self;
    }
}

// No fields were read.
fn clear_fields(alloc: Global, fields: &mut RawFieldDecls)
    ensures { map field_decl_syntax fields.new.items.items ≡ [] }
{
    let none = RawFieldDecls {
        items: Vec::new(alloc),
    };
    mem::forget(mem::replace(fields, none));
}

impl RecordReader {
    ghost use Rattle.std.specs.Prelude.{ℕ, Bool, IfOk, OnOk, Some, is_some, option_map};
    ghost use Rattle.um_tree.specs.RawTree.{TypeSyntax, type_syntax, decl_syntax};
    ghost use Rattle.um_reader.specs.Takes.{Gives, Takes};
    ghost use Rattle.um_types.specs.TypeHeights.{whole_height};
    ghost use Rattle.um_types.specs.TypeMachine.{type_finish};
    ghost use Rattle.um_types.specs.TypeView.{type_state};
    ghost use Rattle.um_forms.specs.ExprTokens.{expr_token};
    ghost use Rattle.um_decls.specs.DeclMachine.{NoDecl, Expects, OfRecord, RecordVars, RecordEqual, RecordBrace};
    ghost use Rattle.um_decls.specs.DeclMachine.{FieldName, FieldColon, take_expected, with_field_decl, field_ends};
    ghost use Rattle.um_decls.specs.DeclMachine.{own_step, decl_act, decl_finish};
    ghost use Rattle.um_decls.specs.DeclStanding.{decl_stands};
    ghost use Rattle.um_decls.specs.DeclLeast.{decl_least, machine_of_declarations};
    ghost use Rattle.um_decls.specs.DeclViews.{head_vars, read_fields, view_var, field_state, record_state};
    ghost use Rattle.um_decls.specs.DeclTakes.{IsLow, Ends};
    ghost use Rattle.um_decls.specs.DeclTokens.{BeginsAlike, IfStops};

    /// The name was read, in a box.
    pub fn new(alloc: Global, at: u32, name: Name) -> Result<Box<RecordReader>, AllocError>
        ensures { IfOk result (λ r. record_state r.value ≡ Expects (RecordVars at name)) }
    {
        let record = RecordReader {
            head: Head::plain(alloc, at, name),
            fields: RawFieldDecls {
                items: Vec::new(alloc),
            },
            expected: FieldExpected::Named,
            ty: TypeReader::new(),
        };
        in_box(alloc, record)
    }

    /// Whether the record goes on with a token of this kind, which isn't taken. No height is asked for.
    pub fn can_take(&self, kind: &Kind) -> bool
        ensures { (p : ℕ) (glued : Bool) → result
            ≡ decl_stands (decl_act (record_state self.now) (expr_token kind.now) p glued kind.now) }
    {
        match &self.expected {
            FieldExpected::Named => can_follow_record(kind),
            FieldExpected::Var(expected) => can_take_var(*expected, kind),
            FieldExpected::Equal => can_follow_record_vars(kind),
            FieldExpected::Brace => can_open_fields(kind),
            FieldExpected::Name => can_name_field(kind),
            FieldExpected::Colon(_, _) => can_follow_field(kind),
            FieldExpected::Type(_, _) => can_take_field(&self.ty, kind),
            FieldExpected::Nothing => false,
        }
    }

    /// Whether the tokens that were taken are a record.
    pub fn is_whole(&self) -> bool
        ensures { result ≡ is_some (decl_finish (record_state self.now)) }
    {
        match &self.expected {
            FieldExpected::Nothing => true,
            FieldExpected::Named | FieldExpected::Var(_) | FieldExpected::Equal => false,
            FieldExpected::Brace | FieldExpected::Name => false,
            FieldExpected::Colon(_, _) | FieldExpected::Type(_, _) => false,
        }
    }

    /// One token more. A token that is refused still begins a declaration as it did, though its letters may be gone.
    pub fn take(&mut self, alloc: Global, token: &mut Token) -> Result<Taken, AllocError>
        requires low { decl_least (record_state self.old) ≤ greatest_height }
        ensures taken { IfOk result (λ t.
            Takes machine_of_declarations greatest_height (record_state self.old) token.old t (record_state self.new)) }
        ensures kept { IfOk result (λ t. IfStops t (BeginsAlike token.new token.old)) }
    {
        match &self.expected {
            FieldExpected::Type(_, _) => match take_in_type(&mut self.ty, alloc, token)? {
                Taken::Goes => Ok(Taken::Goes),
                Taken::Stops => self.take_own(alloc, token),
                Taken::High => Ok(Taken::High),
            },
            FieldExpected::Nothing => Ok(Taken::Stops),
            FieldExpected::Named => self.take_own(alloc, token),
            FieldExpected::Var(_) => self.take_own(alloc, token),
            FieldExpected::Equal => self.take_own(alloc, token),
            FieldExpected::Brace => self.take_own(alloc, token),
            FieldExpected::Name => self.take_own(alloc, token),
            FieldExpected::Colon(_, _) => self.take_own(alloc, token),
        }
    }

    // The token outside a type, or the one that a type has refused.
    #[inline(never)]
    fn take_own(&mut self, alloc: Global, token: &mut Token) -> Result<Taken, AllocError>
        requires low { IsLow (record_state self.old) }
        ensures taken { IfOk result (λ t. Gives machine_of_declarations greatest_height (record_state self.old)
            (own_step (record_state self.old) token.old) t (record_state self.new)) }
        ensures kept { BeginsAlike token.new token.old }
    {
        match mem::replace(&mut self.expected, FieldExpected::Name) {
            FieldExpected::Named => Ok(self.take_named(alloc, token)),
            FieldExpected::Var(expected) => self.take_vars(alloc, expected, token),
            FieldExpected::Equal => Ok(self.take_equal(token)),
            FieldExpected::Brace => Ok(self.take_brace(alloc, token)),
            FieldExpected::Name => Ok(self.take_name(alloc, token)),
            FieldExpected::Colon(at, name) => Ok(self.take_colon(at, name, token)),
            FieldExpected::Type(at, name) => self.end_field(at, name, token),
            FieldExpected::Nothing => {
                self.put(FieldExpected::Nothing);
                Ok(Taken::Stops)
            }
        }
    }

    // From now on this is expected. If a name was expected, there is nothing to let go.
    #[inline(always)]
    fn put(&mut self, expected: FieldExpected)
        ensures { record_state self.new
            ≡ field_state self.old.head (read_fields self.old) (type_state self.old.ty) expected }
    {
        match &self.expected {
            FieldExpected::Name => mem::forget(mem::replace(&mut self.expected, expected)),
            _ => drop(mem::replace(&mut self.expected, expected)),
        }
    }

    // The token after the name of the record.
    fn take_named(&mut self, alloc: Global, token: &Token) -> Taken
        requires wanted { self.old.expected ≡ FieldExpected.Name }
        ensures { Gives machine_of_declarations greatest_height NoDecl
            (take_expected (RecordVars self.old.head.at self.old.head.name) (expr_token token.now.kind) token.now.start)
            result (record_state self.new) }
    {
        clear_vars(alloc, &mut self.head.vars);
        match &token.kind {
            Kind::Sign(Symbol::Less) => {
                self.put(FieldExpected::Var(VarExpected::Token(FixedVarToken::Begin)));
                Taken::Goes
            }
            Kind::Sign(Symbol::Equal) => {
                self.put(FieldExpected::Brace);
                Taken::Goes
            }
            _ => Taken::Stops,
        }
    }

    // The token among the unit parameters.
    fn take_vars(
        &mut self,
        alloc: Global,
        expected: VarExpected,
        token: &mut Token,
    ) -> Result<Taken, AllocError>
        requires wanted { self.old.expected ≡ FieldExpected.Name }
        ensures taken { IfOk result (λ t. Gives machine_of_declarations greatest_height NoDecl
            (take_expected (view_var (OfRecord self.old.head.at self.old.head.name) (head_vars self.old.head) expected)
            (expr_token token.old.kind) token.old.start)
            t (record_state self.new)) }
        ensures kept { BeginsAlike token.new token.old }
    {
        match take_var(alloc, &mut self.head.vars, expected, token)? {
            VarTaken::Goes(next) => {
                self.put(FieldExpected::Var(next));
                Ok(Taken::Goes)
            }
            VarTaken::Ends => {
                self.put(FieldExpected::Equal);
                Ok(Taken::Goes)
            }
            VarTaken::Stops => Ok(Taken::Stops),
        }
    }

    // The token after the unit parameters.
    fn take_equal(&mut self, token: &Token) -> Taken
        requires wanted { self.old.expected ≡ FieldExpected.Name }
        ensures { Gives machine_of_declarations greatest_height NoDecl
            (take_expected (RecordEqual self.old.head.at self.old.head.name (head_vars self.old.head))
            (expr_token token.now.kind) token.now.start)
            result (record_state self.new) }
    {
        match &token.kind {
            Kind::Sign(Symbol::Equal) => {
                self.put(FieldExpected::Brace);
                Taken::Goes
            }
            _ => Taken::Stops,
        }
    }

    // The token after the `=` of the record. No field was read before its `{`, so there is nothing to let go.
    fn take_brace(&mut self, alloc: Global, token: &Token) -> Taken
        requires wanted { self.old.expected ≡ FieldExpected.Name }
        ensures { Gives machine_of_declarations greatest_height NoDecl
            (take_expected (RecordBrace self.old.head.at self.old.head.name (head_vars self.old.head))
            (expr_token token.now.kind) token.now.start)
            result (record_state self.new) }
    {
        match &token.kind {
            Kind::Sign(Symbol::LeftBrace) => {
                clear_fields(alloc, &mut self.fields);
                Taken::Goes
            }
            _ => Taken::Stops,
        }
    }

    // The token after `{` or `;`.
    fn take_name(&mut self, alloc: Global, token: &mut Token) -> Taken
        requires wanted { self.old.expected ≡ FieldExpected.Name }
        ensures taken { Gives machine_of_declarations greatest_height NoDecl
            (take_expected (FieldName self.old.head.at self.old.head.name (head_vars self.old.head)
            (read_fields self.old)) (expr_token token.old.kind) token.old.start)
            result (record_state self.new) }
        ensures kept { BeginsAlike token.new token.old }
    {
        let at = token.start;
        match &mut token.kind {
            Kind::Name(letters) => {
                let name = name_of(letters.take(alloc));
                self.put(FieldExpected::Colon(at, name));
                Taken::Goes
            }
            _ => Taken::Stops,
        }
    }

    // The token after the name of a field, at its place.
    fn take_colon(&mut self, at: u32, name: Name, token: &Token) -> Taken
        requires wanted { self.old.expected ≡ FieldExpected.Name }
        ensures { Gives machine_of_declarations greatest_height NoDecl
            (take_expected (FieldColon self.old.head.at self.old.head.name (head_vars self.old.head)
            (read_fields self.old) at name) (expr_token token.now.kind) token.now.start)
            result (record_state self.new) }
    {
        match &token.kind {
            Kind::Sign(Symbol::Colon) => {
                self.ty.restart();
                self.put(FieldExpected::Type(at, name));
                Taken::Goes
            }
            _ => {
                drop(name);
                Taken::Stops
            }
        }
    }

    // The token that the type of a field has refused.
    fn end_field(&mut self, at: u32, name: Name, token: &Token) -> Result<Taken, AllocError>
        requires wanted { self.old.expected ≡ FieldExpected.Name }
        requires low { (t : TypeSyntax) → type_finish (type_state self.old.ty) ≡ Some t
            → whole_height t ≤ greatest_height }
        ensures { IfOk result (λ t. Gives machine_of_declarations greatest_height NoDecl
            (field_ends self.old.head.at self.old.head.name (head_vars self.old.head) (read_fields self.old) at name
            (type_finish (type_state self.old.ty)) (expr_token token.now.kind))
            t (record_state self.new)) }
    {
        match self.ty.take_whole() {
            Some(ty) => self.after_field(RawFieldDecl { at, name, ty }, token),
            None => {
                drop(name);
                Ok(Taken::Stops)
            }
        }
    }

    // The token after a field.
    fn after_field(&mut self, field: RawFieldDecl, token: &Token) -> Result<Taken, AllocError>
        requires wanted { self.old.expected ≡ FieldExpected.Name }
        requires low { whole_height (type_syntax field.ty) ≤ greatest_height }
        ensures { IfOk result (λ t. Gives machine_of_declarations greatest_height NoDecl
            (field_ends self.old.head.at self.old.head.name (head_vars self.old.head) (read_fields self.old)
            field.at field.name (Some (type_syntax field.ty)) (expr_token token.now.kind))
            t (record_state self.new)) }
    {
        match &token.kind {
            Kind::Sign(Symbol::Semicolon) => {
                self.with_field(field, FieldExpected::Name)?;
                Ok(Taken::Goes)
            }
            Kind::Sign(Symbol::RightBrace) => {
                self.with_field(field, FieldExpected::Nothing)?;
                Ok(Taken::Goes)
            }
            _ => {
                drop(field);
                Ok(Taken::Stops)
            }
        }
    }

    // One field more, and what is expected after it.
    fn with_field(&mut self, field: RawFieldDecl, expected: FieldExpected) -> Result<(), AllocError>
        requires { whole_height (type_syntax field.ty) ≤ greatest_height }
        ensures { OnOk result (record_state self.new ≡ field_state self.old.head
            (with_field_decl (read_fields self.old) field.at field.name (type_syntax field.ty))
            (type_state self.old.ty) expected) }
    {
        self.fields.items.push(field)?;
        self.put(expected);
        Ok(())
    }

    // The record of the tokens that were taken, if it is whole.
    fn whole(self) -> Option<RawDecl>
        ensures { option_map decl_syntax result ≡ decl_finish (record_state self) }
    {
        let RecordReader {
            head,
            fields,
            expected,
            ty,
        } = self;
        drop(ty);
        match expected {
            FieldExpected::Nothing => Some(RawDecl::Record(head.at, head.name, head.vars, fields)),
            other => {
                drop(head);
                drop(fields);
                drop(other);
                None
            }
        }
    }

    /// The record of the tokens that were taken is added to these declarations, if it is whole. Answers whether it is.
    #[inline(never)]
    pub fn finish(reader: Box<RecordReader>, decls: &mut Vec<RawDecl>) -> Result<bool, AllocError>
        ensures { IfOk result (λ whole.
            Ends (decl_finish (record_state reader.value)) whole decls.old.items decls.new.items) }
    {
        push_found(decls, Box::into_inner(reader).whole())
    }
}
