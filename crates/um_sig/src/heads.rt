//! What a type text beside a program may name.

ghost use Rattle.std.specs.Prelude.{◌≡◌, false, [], IfOk, map};
ghost use Rattle.um_tree.specs.Formed.{AreDistinct, IsFormed};
ghost use Rattle.um_tree.specs.ProgramTree.{record_tree, program_tree};
ghost use Rattle.um_sig.specs.Heads.{head_of, only_bases, with_shorts, with_heads, heads};
ghost use Rattle.um_measures.specs.Known.{is_taken, is_among, record_names};
ghost use Rattle.um_names.specs.Resolution.{with_base, with_short, with_record};
ghost use Rattle.um_names.specs.Tables.{AreTables, known_of};

use std::alloc::{AllocError, Global};
use um_measures::{Abbreviation, Abbreviations, NameDigest, program_digest};
use um_names::{Tables, add_base, add_record, add_short, copied};
use um_tree::{FieldDecls, Name, Program, Record};
use um_units::Unit;

/// With one more base unit, whose name is new.
fn with_base(alloc: Global, tables: Tables, name: &Name) -> Result<Tables, AllocError>
    requires tables { AreTables tables }
    requires new { is_taken (known_of tables) name.now ≡ false }
    ensures tables { IfOk result AreTables }
    ensures known { IfOk result (λ t. known_of t ≡ with_base (known_of tables) name.now) }
{
    let mut tables = tables;
    match add_base(alloc, &mut tables, name) {
        Ok(()) => Ok(tables),
        Err(error) => {
            tables.discard();
            Err(error)
        }
    }
}

/// With one more abbreviation.
fn with_short(alloc: Global, tables: Tables, name: &Name, unit: Unit) -> Result<Tables, AllocError>
    requires tables { AreTables tables }
    ensures tables { IfOk result AreTables }
    ensures known { IfOk result (λ t. known_of t ≡ with_short (known_of tables) name.now unit) }
{
    let mut tables = tables;
    match add_short(alloc, &mut tables, name, unit) {
        Ok(()) => Ok(tables),
        Err(error) => {
            tables.discard();
            Err(error)
        }
    }
}

/// With one more record, whose name is new.
fn with_record(alloc: Global, tables: Tables, decl: Record) -> Result<Tables, AllocError>
    requires tables { AreTables tables }
    requires new { is_among (record_names (known_of tables).program.records) decl.name ≡ false }
    ensures tables { IfOk result AreTables }
    ensures known { IfOk result (λ t. known_of t ≡ with_record (known_of tables) (record_tree decl)) }
{
    let mut tables = tables;
    match add_record(alloc, &mut tables, decl) {
        Ok(()) => Ok(tables),
        Err(error) => {
            tables.discard();
            Err(error)
        }
    }
}

/// The tables of base units, with the digest of all names that may be declared.
fn base_tables(alloc: Global, digest: NameDigest, names: &[Name]) -> Result<Tables, AllocError>
    requires once { AreDistinct names.now }
    ensures tables { IfOk result AreTables }
    ensures known { IfOk result (λ t. known_of t ≡ only_bases names.now) }
{
    let mut tables = Tables::new(alloc, digest);
    for i in 0..names.len() {
        tables = with_base(alloc, tables, &names[i])?;
    }
    Ok(tables)
}

/// With a copy of this abbreviation.
fn with_copy(alloc: Global, tables: Tables, short: &Abbreviation) -> Result<Tables, AllocError>
    requires tables { AreTables tables }
    ensures tables { IfOk result AreTables }
    ensures known { IfOk result (λ t. known_of t ≡ with_short (known_of tables) short.now.name short.now.unit) }
{
    match short.unit.copy(alloc) {
        Ok(unit) => with_short(alloc, tables, &short.name, unit),
        Err(error) => {
            tables.discard();
            Err(error)
        }
    }
}

/// With these abbreviations.
fn with_shorts(alloc: Global, tables: Tables, shorts: &[Abbreviation]) -> Result<Tables, AllocError>
    requires tables { AreTables tables }
    ensures tables { IfOk result AreTables }
    ensures known { IfOk result (λ t. known_of t ≡ with_shorts (known_of tables) shorts.now) }
{
    let mut all = tables;
    for i in 0..shorts.len() {
        all = with_copy(alloc, all, &shorts[i])?;
    }
    Ok(all)
}

/// A record without its fields.
fn head(alloc: Global, whole: &Record) -> Result<Record, AllocError>
    ensures { IfOk result (λ d. record_tree d ≡ head_of (record_tree whole.now)) }
{
    Ok(Record {
        name: copied(alloc, &whole.name)?,
        at: whole.at,
        units: whole.units,
        fields: FieldDecls {
            items: Vec::new(alloc),
        },
    })
}

/// With the head of this record, whose name is new.
fn with_head(alloc: Global, tables: Tables, whole: &Record) -> Result<Tables, AllocError>
    requires tables { AreTables tables }
    requires new { is_among (record_names (known_of tables).program.records) whole.now.name ≡ false }
    ensures tables { IfOk result AreTables }
    ensures known { IfOk result (λ t. known_of t ≡ with_record (known_of tables) (head_of (record_tree whole.now))) }
{
    match head(alloc, whole) {
        Ok(record) => with_record(alloc, tables, record),
        Err(error) => {
            tables.discard();
            Err(error)
        }
    }
}

/// With the heads of these records.
fn with_heads(alloc: Global, tables: Tables, records: &[Record]) -> Result<Tables, AllocError>
    requires tables { AreTables tables }
    requires none { (known_of tables).program.records ≡ [] }
    requires once { AreDistinct (record_names (map record_tree records.now)) }
    ensures tables { IfOk result AreTables }
    ensures known { IfOk result (λ t. known_of t ≡ with_heads (known_of tables) (map record_tree records.now)) }
{
    let mut all = tables;
    for i in 0..records.len() {
        all = with_head(alloc, all, &records[i])?;
    }
    Ok(all)
}

/// The measures of a program, these abbreviations, and the heads of its records.
pub fn heads(
    alloc: Global,
    program: &Program,
    abbreviations: &Abbreviations,
) -> Result<Tables, AllocError>
    requires formed { IsFormed (program_tree program.now) }
    ensures tables { IfOk result AreTables }
    ensures known { IfOk result (λ t. known_of t ≡ heads (program_tree program.now) abbreviations.now) }
{
    let digest = program_digest(program, abbreviations);
    let bases = base_tables(alloc, digest, program.bases.as_slice())?;
    let measures = with_shorts(alloc, bases, abbreviations.as_slice())?;
    with_heads(alloc, measures, &program.records.items)
}
