// Copies of what rescaling leaves.
ghost use Rattle.std.specs.Prelude.{◌≡◌, IfOk, map};
ghost use Rattle.um_tree.specs.TypeTree.{note_tree, type_tree};
ghost use Rattle.um_tree.specs.ProgramTree.{field_tree, record_tree, result_tree};

use std::alloc::{AllocError, Global};
use std::boxed::Box;
use um_tree::{
    FieldDecl, FieldDecls, Name, Names, Note, Notes, Record, Records, Ty, UnitNote, UnitNotes,
};

/// An equal name.
pub fn copied_name(alloc: Global, name: &Name) -> Result<Name, AllocError>
    ensures { IfOk result (λ n. n ≡ name.now) }
{
    Name::from_slice(alloc, name.as_slice())
}

/// Equal names.
pub fn copied_names(alloc: Global, names: &Names) -> Result<Names, AllocError>
    ensures { IfOk result (λ ns. ns ≡ names.now) }
{
    let mut items = Vec::new(alloc);
    for name in names.as_slice() {
        items.push(copied_name(alloc, name)?)?;
    }
    Ok(Names::from_vec(items))
}

/// An equal unit note.
pub fn copied_unit(alloc: Global, note: &UnitNote) -> Result<UnitNote, AllocError>
    ensures { IfOk result (λ n. n ≡ note.now) }
{
    match note {
        UnitNote::Hole => Ok(UnitNote::Hole),
        UnitNote::Written(unit) => Ok(UnitNote::Written(unit.copy(alloc)?)),
    }
}

fn copied_units(alloc: Global, notes: &[UnitNote]) -> Result<Vec<UnitNote>, AllocError>
    ensures { IfOk result (λ ns. ns.items ≡ notes.now) }
{
    let mut items = Vec::new(alloc);
    for note in notes {
        items.push(copied_unit(alloc, note)?)?;
    }
    Ok(items)
}

/// An equal note.
pub fn copied_note(alloc: Global, note: &Note) -> Result<Note, AllocError>
    ensures { IfOk result (λ n. note_tree n ≡ note_tree note.now) }
{
    match note {
        Note::Bool => Ok(Note::Bool),
        Note::Num(unit) => Ok(Note::Num(copied_unit(alloc, unit)?)),
        Note::List(item) => Ok(Note::List(Box::new(alloc, copied_note(alloc, item)?)?)),
        Note::Rec(r, units) => {
            let items = copied_units(alloc, &units.items)?;
            Ok(Note::Rec(*r, UnitNotes { items }))
        }
    }
}

/// Equal notes.
pub fn copied_notes(alloc: Global, notes: &[Note]) -> Result<Notes, AllocError>
    ensures { IfOk result (λ ns. map note_tree ns.items.items ≡ map note_tree notes.now) }
{
    let mut items = Vec::new(alloc);
    for note in notes {
        items.push(copied_note(alloc, note)?)?;
    }
    Ok(Notes { items })
}

/// An equal result note, if there is one.
pub fn copied_result(alloc: Global, note: &Option<Note>) -> Result<Option<Note>, AllocError>
    ensures { IfOk result (λ n. result_tree n ≡ result_tree note.now) }
{
    match note {
        None => Ok(None),
        Some(note) => Ok(Some(copied_note(alloc, note)?)),
    }
}

/// An equal type.
fn copied_type(alloc: Global, ty: &Ty) -> Result<Ty, AllocError>
    ensures { IfOk result (λ t. type_tree t ≡ type_tree ty.now) }
{
    match ty {
        Ty::Bool => Ok(Ty::Bool),
        Ty::Num(unit) => Ok(Ty::Num(unit.copy(alloc)?)),
        Ty::List(item) => Ok(Ty::List(Box::new(alloc, copied_type(alloc, item)?)?)),
        Ty::Rec(r, units) => Ok(Ty::Rec(*r, units.copy(alloc)?)),
    }
}

fn copied_field(alloc: Global, field: &FieldDecl) -> Result<FieldDecl, AllocError>
    ensures { IfOk result (λ f. field_tree f ≡ field_tree field.now) }
{
    let name = copied_name(alloc, &field.name)?;
    let ty = copied_type(alloc, &field.ty)?;
    Ok(FieldDecl { name, ty })
}

fn copied_fields(alloc: Global, fields: &[FieldDecl]) -> Result<FieldDecls, AllocError>
    ensures { IfOk result (λ fs. map field_tree fs.items.items ≡ map field_tree fields.now) }
{
    let mut items = Vec::new(alloc);
    for field in fields {
        items.push(copied_field(alloc, field)?)?;
    }
    Ok(FieldDecls { items })
}

fn copied_record(alloc: Global, declared: &Record) -> Result<Record, AllocError>
    ensures { IfOk result (λ r. record_tree r ≡ record_tree declared.now) }
{
    let name = copied_name(alloc, &declared.name)?;
    let fields = copied_fields(alloc, &declared.fields.items)?;
    Ok(Record {
        name,
        at: declared.at,
        units: declared.units,
        fields,
    })
}

/// Equal records.
pub fn copied_records(alloc: Global, records: &[Record]) -> Result<Records, AllocError>
    ensures { IfOk result (λ rs. map record_tree rs.items.items ≡ map record_tree records.now) }
{
    let mut items = Vec::new(alloc);
    for declared in records {
        items.push(copied_record(alloc, declared)?)?;
    }
    Ok(Records { items })
}
