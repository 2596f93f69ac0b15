//! The digests of the names that a program's tables may hold.

ghost use Rattle.std.specs.Prelude.{◌≡◌, [], false, map};
ghost use Rattle.um_tree.specs.RawTree.{expr_syntax, exprs_in_order, field_part, fields_in_order};
ghost use Rattle.um_measures.specs.Variables.{expr_variables, exprs_variables, fields_variables};

use crate::abbreviation::{Abbreviation, Abbreviations};
use crate::digest::NameDigest;
use um_tree::{
    Name, Program, RawDecl, RawExpr, RawField, RawFieldDecl, RawFunction, RawNode, RawNote,
    RawParam, RawType, RawUnit, RawVar, Record,
};

/// The digest of these names.
pub fn names_digest(names: &[Name]) -> NameDigest {
    let mut digest = NameDigest::new();
    add_names(&mut digest, names);
    digest
}

/// The digest of the names of a program's base units and records and of its abbreviations.
pub fn program_digest(program: &Program, abbreviations: &Abbreviations) -> NameDigest {
    let mut digest = names_digest(program.bases.as_slice());
    add_abbreviations(&mut digest, abbreviations.as_slice());
    add_records(&mut digest, &program.records.items);
    digest
}

/// The digest of the names that declarations declare: of measures, abbreviations, records, fields and functions.
pub fn declarations_digest(raw: &[RawDecl]) -> NameDigest {
    let mut digest = NameDigest::new();
    for decl in raw {
        add_declaration(&mut digest, decl);
    }
    digest
}

/// The digest of the names of a record's fields.
pub fn fields_digest(raw: &[RawFieldDecl]) -> NameDigest {
    let mut digest = NameDigest::new();
    add_fields(&mut digest, raw);
    digest
}

/// The digest of the names of unit parameters.
pub fn parameters_digest(raw: &[RawVar]) -> NameDigest {
    let mut digest = NameDigest::new();
    add_parameters(&mut digest, raw);
    digest
}

/// The digest of the unit variables of type texts.
pub fn types_digest(raw: &[RawType]) -> NameDigest {
    let mut digest = NameDigest::new();
    for ty in raw {
        in_type(&mut digest, ty);
    }
    digest
}

/// What is known of the names of a function's unit variables before they are numbered.
#[derive(Clone, Copy)]
pub struct FunctionNames {
    /// The digest of the unit parameters and of the variables that the notes name
    pub digest: NameDigest,
    /// Whether a note of the body may name a variable
    pub in_body: bool,
}

/// The digest of the named unit variables of a function, which are its unit parameters and those that its notes name,
/// and whether its body may name one. Takes no memory.
pub fn function_names(raw: &RawFunction) -> FunctionNames
    ensures body { result.in_body ≡ false → expr_variables (expr_syntax raw.now.body) ≡ [] }
{
    let mut digest = parameters_digest(&raw.units.items);
    in_params(&mut digest, &raw.params.items);
    if let Some(ty) = &raw.result {
        in_type(&mut digest, ty);
    }
    let in_body = in_expr(&mut digest, &raw.body);
    FunctionNames { digest, in_body }
}

fn add_names(digest: &mut NameDigest, names: &[Name]) {
    for name in names {
        digest.add(name.as_slice());
    }
}

fn add_abbreviations(digest: &mut NameDigest, shorts: &[Abbreviation]) {
    for short in shorts {
        digest.add(short.name.as_slice());
    }
}

fn add_records(digest: &mut NameDigest, records: &[Record]) {
    for record in records {
        digest.add(record.name.as_slice());
    }
}

fn add_declaration(digest: &mut NameDigest, decl: &RawDecl) {
    match decl {
        RawDecl::Base(_, name) | RawDecl::Short(_, name, _) => digest.add(name.as_slice()),
        RawDecl::Record(_, name, _, fields) => {
            digest.add(name.as_slice());
            add_fields(digest, &fields.items);
        }
        RawDecl::Function(function) => digest.add(function.name.as_slice()),
    }
}

fn add_fields(digest: &mut NameDigest, fields: &[RawFieldDecl]) {
    for field in fields {
        digest.add(field.name.as_slice());
    }
}

fn add_parameters(digest: &mut NameDigest, vars: &[RawVar]) {
    for var in vars {
        digest.add(var.name.as_slice());
    }
}

#[cycle(unit_digest)]
fn in_unit(digest: &mut NameDigest, raw: &RawUnit) {
    match raw {
        RawUnit::One(_) | RawUnit::Name(_, _) => {}
        RawUnit::Var(_, name) => digest.add(name.as_slice()),
        RawUnit::Power(u, _) | RawUnit::Inverse(_, u) | RawUnit::Bracket(_, u) => {
            in_unit(digest, u);
        }
        RawUnit::Side(units) => in_units(digest, &units.items),
        RawUnit::Times(u, v) | RawUnit::Over(u, v) => {
            in_unit(digest, u);
            in_unit(digest, v);
        }
    }
}

#[cycle(unit_digest)]
fn in_units(digest: &mut NameDigest, units: &[RawUnit]) {
    for i in 0..units.len() {
        in_unit(digest, &units[i]);
    }
}

fn in_note(digest: &mut NameDigest, raw: &RawNote) {
    match raw {
        RawNote::Hole(_) => {}
        RawNote::Unit(_, unit) => in_unit(digest, unit),
    }
}

fn in_notes(digest: &mut NameDigest, raw: &[RawNote]) {
    for note in raw {
        in_note(digest, note);
    }
}

fn in_type(digest: &mut NameDigest, raw: &RawType) {
    match raw {
        RawType::Bool | RawType::Num(None) => {}
        RawType::Num(Some(note)) => in_note(digest, note),
        RawType::Name(_, _, units) => in_notes(digest, &units.items),
        RawType::List(inner) | RawType::Bracket(inner) => in_type(digest, inner),
    }
}

/// Takes the names of the notes in an expression, and says whether there is a note.
#[cycle(expr_digest)]
fn in_expr(digest: &mut NameDigest, e: &RawExpr) -> bool
    ensures { result ≡ false → expr_variables (expr_syntax e.now) ≡ [] }
{
    match &e.node {
        RawNode::Bool(_) | RawNode::Num(_, _) | RawNode::Name(_) => false,
        RawNode::Nil(ty) => {
            in_type(digest, ty);
            true
        }
        RawNode::Call(_, items) | RawNode::List(items) => in_exprs(digest, &items.items),
        RawNode::Rec(fields) => in_fields(digest, &fields.items),
        RawNode::Neg(a)
        | RawNode::Not(a)
        | RawNode::Pow(a, _)
        | RawNode::Field(_, _, a)
        | RawNode::Bracket(a) => in_expr(digest, a),
        RawNode::Arith(_, a, b)
        | RawNode::Compare(_, a, b)
        | RawNode::And(a, b)
        | RawNode::Or(a, b)
        | RawNode::Let(_, a, b)
        | RawNode::Cons(a, b) => in_expr(digest, a) | in_expr(digest, b),
        RawNode::If(a, b, c) | RawNode::Match(a, b, _, _, c) => {
            in_expr(digest, a) | in_expr(digest, b) | in_expr(digest, c)
        }
    }
}

#[cycle(expr_digest)]
fn in_exprs(digest: &mut NameDigest, items: &[RawExpr]) -> bool
    ensures { result ≡ false → exprs_variables (exprs_in_order (map expr_syntax items.now)) ≡ [] }
{
    let mut any = false;
    for i in 0..items.len() {
        any |= in_expr(digest, &items[i]);
    }
    any
}

#[cycle(expr_digest)]
fn in_fields(digest: &mut NameDigest, fields: &[RawField]) -> bool
    ensures { result ≡ false → fields_variables (fields_in_order (map field_part fields.now)) ≡ [] }
{
    let mut any = false;
    for i in 0..fields.len() {
        any |= in_field(digest, &fields[i]);
    }
    any
}

#[cycle(expr_digest)]
fn in_field(digest: &mut NameDigest, field: &RawField) -> bool
    ensures { result ≡ false → expr_variables (field_part field.now).part ≡ [] }
{
    in_expr(digest, &field.value)
}

fn in_params(digest: &mut NameDigest, params: &[RawParam]) {
    for param in params {
        in_type(digest, &param.ty);
    }
}
