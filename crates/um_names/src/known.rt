//! What the declarations so far declare, with a table for each space of names.

ghost use Rattle.std.specs.Prelude.{◌≡◌, ◌||◌, ◌∷◌, ◌++◌, [], Ok, IfOk, IfErr, IsFalse};
ghost use Rattle.std.specs.Prelude.{map};
ghost use Rattle.std.specs.Prelude.{is_some, slice_get};
ghost use Rattle.std.specs.Str.{bytes_eq};
ghost use Rattle.um_tree.specs.RawTree.{unit_syntax, field_part};
ghost use Rattle.um_tree.specs.ProgramTree.{field_tree, record_tree, function_tree};
ghost use Rattle.um_measures.specs.Known.{nothing, is_taken, is_among, measure_unit, function_names, field_names};
ghost use Rattle.um_measures.specs.Stops.{IsFirst};
ghost use Rattle.um_names.specs.Tables.{AreTables, known_of};
ghost use Rattle.um_measures.specs.UnitNames.{unknown_in, resolved_unit};
ghost use Rattle.um_names.specs.TypeNames.{resolved_record};
ghost use Rattle.um_names.specs.Tables.{callables_in, own_found};
ghost use Rattle.um_names.specs.ExprNames.{field_of, callable_of, same_names, if_same_names};

use crate::callable::{Callable, FieldNumber, counted};
use std::alloc::Global;
use um_measures::{
    Abbreviation, Measures, NameDigest, NameStop, NameTable, first_unknown, resolved_unit,
};
use um_tree::{FieldDecl, Function, Name, RawField, RawUnit, Record};
use um_units::Unit;

/// The declarations so far, each kind in order, and the names by which they are found.
#[derive(Drop)]
pub struct Tables {
    pub measures: Measures,
    pub bases: Vec<Name>,
    pub shorts: Vec<Abbreviation>,
    pub record_names: NameTable,
    pub records: Vec<Record>,
    pub fields: NameTable,
    pub field_numbers: Vec<FieldNumber>,
    pub function_names: NameTable,
    pub functions: Vec<Function>,
}

impl Tables {
    /// Before any declaration, with the digest of all names that may be declared.
    pub fn new(alloc: Global, digest: NameDigest) -> Tables
        ensures tables { AreTables result }
        ensures known { known_of result ≡ nothing }
    {
        Tables {
            measures: Measures::new(alloc, digest),
            bases: Vec::new(alloc),
            shorts: Vec::new(alloc),
            record_names: NameTable::with_digest(alloc, digest),
            records: Vec::new(alloc),
            fields: NameTable::with_digest(alloc, digest),
            field_numbers: Vec::new(alloc),
            function_names: NameTable::with_digest(alloc, digest),
            functions: Vec::new(alloc),
        }
    }

    /// The unit of a text in which these variables are known.
    pub fn unit(
        &self,
        alloc: Global,
        variables: &NameTable,
        raw: &RawUnit,
    ) -> Result<Unit, NameStop>
        requires { AreTables self.now }
        ensures exact { IfOk result (λ unit. resolved_unit (measure_unit (known_of self.now)) variables.now
            (unit_syntax raw.now) ≡ Ok unit) }
        ensures faults { IfErr result (IsFirst (resolved_unit (measure_unit (known_of self.now)) variables.now
            (unit_syntax raw.now))) }
    {
        resolved_unit(alloc, &self.measures, variables, raw)
    }

    /// The place of the first name or variable of a unit text that isn't known.
    pub fn unknown(&self, variables: &NameTable, raw: &RawUnit) -> Option<u32>
        requires { AreTables self.now }
        ensures { result ≡ unknown_in (measure_unit (known_of self.now)) variables.now (unit_syntax raw.now) }
    {
        first_unknown(&self.measures, variables, raw)
    }

    /// The number of the record of this name, which takes so many units.
    pub fn record(&self, name: &[u8], units: usize, at: u32) -> Result<u32, NameStop>
        requires { AreTables self.now }
        ensures exact { IfOk result (λ r. resolved_record (known_of self.now) name.now units at ≡ Ok r) }
        ensures faults { IfErr result (IsFirst (resolved_record (known_of self.now) name.now units at)) }
    {
        match self.record_names.number(name) {
            None => Err(NameStop::Unknown { at }),
            Some(r) if self.records[r as usize].units as usize == units => Ok(r),
            Some(_) => Err(NameStop::WrongCount { at }),
        }
    }

    /// The field of this name.
    pub fn field(&self, name: &[u8]) -> Option<FieldNumber>
        requires { AreTables self.now }
        ensures { result ≡ field_of (known_of self.now).program.records name.now }
    {
        match self.fields.number(name) {
            Some(k) => Some(self.field_numbers[k as usize]),
            None => None,
        }
    }

    /// The number of the function of this name that takes so many arguments: one that is declared, or else the own one.
    pub fn callable(
        &self,
        own: &Option<Callable>,
        name: &[u8],
        arguments: usize,
        at: u32,
    ) -> Result<u32, NameStop>
        requires { AreTables self.now }
        ensures exact { IfOk result (λ j. callable_of
            (callables_in (known_of self.now) own.now) name.now arguments at ≡ Ok j) }
        ensures faults { IfErr result (IsFirst (callable_of
            (callables_in (known_of self.now) own.now) name.now arguments at)) }
    {
        match self.function_names.number(name) {
            Some(j) => counted(
                j,
                self.functions[j as usize].params.items.len(),
                arguments,
                at,
            ),
            None => own_number(own, self.function_names.count(), name, arguments, at),
        }
    }

    /// Whether these are, in order, all the fields of the record of this number.
    pub fn has_fields(&self, number: u32, fields: &[RawField]) -> bool
        ensures { result ≡ is_some (if_same_names (slice_get (known_of self.now).program.records number) number
            (map (λ f. f.name) (map field_part fields.now))) }
    {
        match self.records.get(number as usize) {
            Some(d) => same_names(&d.fields.items, fields),
            None => false,
        }
    }

    /// Gives their memory back. A crate that calls this has no proof of its own of how the trees are let go.
    pub fn discard(self) {
        drop(self);
    }
}

fn same_names(decls: &[FieldDecl], fields: &[RawField]) -> bool
    ensures { result ≡ same_names (map (λ d. d.name) (map field_tree decls.now))
        (map (λ f. f.name) (map field_part fields.now)) }
{
    if decls.len() != fields.len() {
        return false;
    }
    for i in 0..decls.len() {
        if !same_name(&decls[i], &fields[i]) {
            return false;
        }
    }
    true
}

fn same_name(decl: &FieldDecl, field: &RawField) -> bool
    ensures { result ≡ bytes_eq decl.now.name (field_part field.now).name }
{
    decl.name.as_slice() == field.name.as_slice()
}

/// The number of the own function, where it has this name.
fn own_number(
    own: &Option<Callable>,
    number: u32,
    name: &[u8],
    arguments: usize,
    at: u32,
) -> Result<u32, NameStop>
    ensures exact { IfOk result (λ j. own_found own.now number name.now arguments at ≡ Ok j) }
    ensures faults { IfErr result (IsFirst (own_found own.now number name.now arguments at)) }
{
    match own {
        Some(f) if name == f.name.as_slice() => counted(number, f.params, arguments, at),
        Some(_) | None => Err(NameStop::Unknown { at }),
    }
}
