//! What a record adds to the tables.

ghost use Rattle.std.specs.Prelude.{◌≡◌, ℕ, List, [], ◌∷◌, ◌++◌, cond, false, OnOk, map, length};
ghost use Rattle.um_tree.specs.ProgramTree.{field_tree, record_tree};
ghost use Rattle.um_measures.specs.Known.{number_of, is_among, record_names, names_of_fields};
ghost use Rattle.um_names.specs.Parts.{field_else, field_if, field_at};
ghost use Rattle.um_names.specs.Resolution.{with_record};
ghost use Rattle.um_names.specs.Tables.{AreTables, known_of, numbered_field};

use crate::callable::FieldNumber;
use crate::known::Tables;
use std::alloc::{AllocError, Global};
use um_measures::NameTable;
use um_tree::{FieldDecl, Record};

// One more field, which is hidden where its name is known.
fn add_field(
    alloc: Global,
    names: &mut NameTable,
    numbers: &mut Vec<FieldNumber>,
    name: &[u8],
    number: FieldNumber,
) -> Result<(), AllocError>
    requires counts { length names.old ≡ length numbers.old.items }
    ensures counts { OnOk result (length names.new ≡ length numbers.new.items) }
    ensures fields { OnOk result ((x : List ℕ)
        → numbered_field numbers.new.items (number_of names.new x)
        ≡ field_else (numbered_field numbers.old.items (number_of names.old x)) (field_if x name.now number)) }
{
    if names.has(name) {
        return Ok(());
    }
    names.add(alloc, name)?;
    Ok(numbers.push(number)?)
}

// The fields of one more record.
fn add_fields(
    alloc: Global,
    names: &mut NameTable,
    numbers: &mut Vec<FieldNumber>,
    record_number: u32,
    fields: &[FieldDecl],
) -> Result<(), AllocError>
    requires counts { length names.old ≡ length numbers.old.items }
    ensures counts { OnOk result (length names.new ≡ length numbers.new.items) }
    ensures fields { OnOk result ((x : List ℕ)
        → numbered_field numbers.new.items (number_of names.new x)
        ≡ field_else (numbered_field numbers.old.items (number_of names.old x))
        (field_at record_number (number_of (map (λ f. f.name) (map field_tree fields.now)) x))) }
{
    if fields.len() >= u32::MAX as usize {
        return Err(AllocError);
    }
    for i in 0..fields.len() {
        let number = FieldNumber {
            record_number,
            field_number: i as u32,
        };
        add_field(alloc, names, numbers, fields[i].name.as_slice(), number)?;
    }
    Ok(())
}

// The name of one more record, and its fields.
fn add_names(
    alloc: Global,
    record_names: &mut NameTable,
    names: &mut NameTable,
    numbers: &mut Vec<FieldNumber>,
    record_number: u32,
    decl: &Record,
) -> Result<(), AllocError>
    requires counts { length names.old ≡ length numbers.old.items }
    ensures names { OnOk result (record_names.new ≡ cond (is_among record_names.old decl.now.name)
        record_names.old (record_names.old ++ decl.now.name ∷ [])) }
    ensures counts { OnOk result (length names.new ≡ length numbers.new.items) }
    ensures fields { OnOk result ((x : List ℕ)
        → numbered_field numbers.new.items (number_of names.new x)
        ≡ field_else (numbered_field numbers.old.items (number_of names.old x))
        (field_at record_number (number_of (names_of_fields (record_tree decl.now)) x))) }
{
    record_names.add(alloc, decl.name.as_slice())?;
    add_fields(alloc, names, numbers, record_number, &decl.fields.items)
}

/// One more record, whose name is new.
pub fn add_record(alloc: Global, tables: &mut Tables, decl: Record) -> Result<(), AllocError>
    requires tables { AreTables tables.old }
    requires new { is_among (record_names (known_of tables.old).program.records) decl.name ≡ false }
    ensures tables { OnOk result (AreTables tables.new) }
    ensures known { OnOk result (known_of tables.new ≡ with_record (known_of tables.old) (record_tree decl)) }
{
    if tables.records.len() >= u32::MAX as usize {
        drop(decl);
        return Err(AllocError);
    }
    let number = tables.records.len() as u32;
    match add_names(
        alloc,
        &mut tables.record_names,
        &mut tables.fields,
        &mut tables.field_numbers,
        number,
        &decl,
    ) {
        Ok(()) => Ok(tables.records.push(decl)?),
        Err(error) => {
            drop(decl);
            Err(error)
        }
    }
}
