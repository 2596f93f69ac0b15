//! The image of a program.
ghost use Rattle.std.specs.Prelude.{◌≡◌, ◌<◌, ◌++◌, IfOk, OnOk, length, map};
ghost use Rattle.um_tree.specs.TypeTree.{shape_tree, type_tree, note_tree};
ghost use Rattle.um_tree.specs.ProgramTree.{field_tree, record_tree, program_tree};
ghost use Rattle.um_tree.specs.Shapes.{note_shape};
ghost use Rattle.um_gen.specs.ProgramCode.{program_code};
ghost use Rattle.um_verify.specs.ImageTree.{head_tree, image_tree, HasForm};
ghost use Rattle.um_image.specs.ProgramImage.{plain_type, plain_field, plain_record, IsHeadOf, IsImageOf};
ghost use Rattle.um_image.specs.Laws.{HasShortNames};
ghost use Rattle.um_image.specs.HeadsMade.{AreHeadsOf};

use std::alloc::{AllocError, Global};
use um_machine::{Code, Entries, Ops};
use um_shape::Shaped;
use um_tree::{FieldDecl, FieldDecls, Function, Name, Note, Record, Records, Shape, Ty};
use um_units::{NoMemory, Unit, Units};
use um_verify::{Head, Heads, Image, Shapes};

/// The image of the program with this code, which is what is generated for it: its records without units, of each
/// function its name and its shapes, and a copy of the code.
///
/// `NoMemory` is its one error.
pub fn image_of(alloc: Global, shaped: &Shaped, code: &Code) -> Result<Image, NoMemory>
    requires code { code.now ≡ program_code (program_tree shaped.now).functions }
    ensures image { IfOk result (λ image. IsImageOf (program_tree shaped.now) code.now (image_tree image)) }
    ensures form { HasShortNames (program_tree shaped.now) → IfOk result (λ image. HasForm (image_tree image)) }
{
    let code = copied_code(alloc, code)?;
    let records = plain_records(alloc, &shaped.program().records)?;
    match heads_of(alloc, shaped) {
        Ok(heads) => Ok(Image {
            records,
            heads,
            code,
        }),
        Err(error) => {
            drop(records);
            Err(error)
        }
    }
}

fn copied_code(alloc: Global, code: &Code) -> Result<Code, AllocError>
    ensures { IfOk result (λ copy. copy ≡ code.now) }
{
    let ops = Vec::from_slice(alloc, code.ops.as_slice())?;
    let entries = Vec::from_slice(alloc, code.entries.as_slice())?;
    Ok(Code {
        ops: Ops::from_vec(ops),
        entries: Entries::from_vec(entries),
    })
}

fn copied_name(alloc: Global, name: &Name) -> Result<Name, AllocError>
    ensures { IfOk result (λ copy. copy ≡ name.now) }
{
    Name::from_slice(alloc, name.as_slice())
}

/// The type whose numbers have unit 1.
fn plain_type(alloc: Global, ty: &Ty) -> Result<Ty, NoMemory>
    ensures { IfOk result (λ plain. type_tree plain ≡ plain_type (type_tree ty.now)) }
{
    match ty {
        Ty::Bool => Ok(Ty::Bool),
        Ty::Num(_) => Ok(Ty::Num(Unit::one(alloc))),
        Ty::List(items) => {
            let inner = plain_type(alloc, items)?;
            Ok(Ty::List(Box::new(alloc, inner)?))
        }
        Ty::Rec(r, _) => Ok(Ty::Rec(*r, Units::from_vec(Vec::new(alloc)))),
    }
}

fn plain_field(alloc: Global, field: &FieldDecl) -> Result<FieldDecl, NoMemory>
    ensures { IfOk result (λ plain. field_tree plain ≡ plain_field (field_tree field.now)) }
{
    let name = copied_name(alloc, &field.name)?;
    let ty = plain_type(alloc, &field.ty)?;
    Ok(FieldDecl { name, ty })
}

fn add_fields(
    alloc: Global,
    fields: &[FieldDecl],
    plain: &mut Vec<FieldDecl>,
) -> Result<(), NoMemory>
    ensures { OnOk result (map field_tree plain.new.items
        ≡ map field_tree plain.old.items ++ map plain_field (map field_tree fields.now)) }
{
    for i in 0..fields.len() {
        let field = plain_field(alloc, &fields[i])?;
        plain.push(field)?;
    }
    Ok(())
}

fn plain_fields(alloc: Global, fields: &FieldDecls) -> Result<FieldDecls, NoMemory>
    ensures { IfOk result (λ plain. map field_tree plain.items.items
        ≡ map plain_field (map field_tree fields.now.items.items)) }
{
    let mut items = Vec::new(alloc);
    match add_fields(alloc, &fields.items, &mut items) {
        Ok(()) => Ok(FieldDecls { items }),
        Err(error) => {
            drop(items);
            Err(error)
        }
    }
}

fn plain_record(alloc: Global, declaration: &Record) -> Result<Record, NoMemory>
    ensures { IfOk result (λ plain. record_tree plain ≡ plain_record (record_tree declaration.now)) }
{
    let name = copied_name(alloc, &declaration.name)?;
    let fields = plain_fields(alloc, &declaration.fields)?;
    Ok(Record {
        name,
        at: 0,
        units: 0,
        fields,
    })
}

fn add_records(alloc: Global, records: &[Record], plain: &mut Vec<Record>) -> Result<(), NoMemory>
    ensures { OnOk result (map record_tree plain.new.items
        ≡ map record_tree plain.old.items ++ map plain_record (map record_tree records.now)) }
{
    for i in 0..records.len() {
        let record = plain_record(alloc, &records[i])?;
        plain.push(record)?;
    }
    Ok(())
}

/// A copy of the records without units: each has place 0 and takes no units, and each number in its fields has unit 1.
///
/// `NoMemory` is its one error.
pub fn plain_records(alloc: Global, records: &Records) -> Result<Records, NoMemory>
    ensures { IfOk result (λ plain. map record_tree plain.items.items
        ≡ map plain_record (map record_tree records.now.items.items)) }
{
    let mut items = Vec::new(alloc);
    match add_records(alloc, &records.items, &mut items) {
        Ok(()) => Ok(Records { items }),
        Err(error) => {
            drop(items);
            Err(error)
        }
    }
}

fn shape_of_note(alloc: Global, note: &Note) -> Result<Shape, NoMemory>
    ensures { IfOk result (λ shape. shape_tree shape ≡ note_shape (note_tree note.now)) }
{
    match note {
        Note::Bool => Ok(Shape::Bool),
        Note::Num(_) => Ok(Shape::Num),
        Note::List(items) => {
            let inner = shape_of_note(alloc, items)?;
            Ok(Shape::List(Box::new(alloc, inner)?))
        }
        Note::Rec(r, _) => Ok(Shape::Rec(*r)),
    }
}

fn copied_shape(alloc: Global, shape: &Shape) -> Result<Shape, NoMemory>
    ensures { IfOk result (λ copy. shape_tree copy ≡ shape_tree shape.now) }
{
    match shape {
        Shape::Bool => Ok(Shape::Bool),
        Shape::Num => Ok(Shape::Num),
        Shape::List(items) => {
            let inner = copied_shape(alloc, items)?;
            Ok(Shape::List(Box::new(alloc, inner)?))
        }
        Shape::Rec(r) => Ok(Shape::Rec(*r)),
    }
}

fn add_shapes(alloc: Global, notes: &[Note], shapes: &mut Vec<Shape>) -> Result<(), NoMemory>
    ensures { OnOk result (map shape_tree shapes.new.items
        ≡ map shape_tree shapes.old.items ++ map note_shape (map note_tree notes.now)) }
{
    for i in 0..notes.len() {
        let shape = shape_of_note(alloc, &notes[i])?;
        shapes.push(shape)?;
    }
    Ok(())
}

fn shapes_of(alloc: Global, notes: &[Note]) -> Result<Shapes, NoMemory>
    ensures { IfOk result (λ shapes. map shape_tree shapes.items.items ≡ map note_shape (map note_tree notes.now)) }
{
    let mut items = Vec::new(alloc);
    match add_shapes(alloc, notes, &mut items) {
        Ok(()) => Ok(Shapes { items }),
        Err(error) => {
            drop(items);
            Err(error)
        }
    }
}

/// The head of function `f`.
fn head_of(alloc: Global, shaped: &Shaped, f: u32) -> Result<Head, NoMemory>
    requires { f < length (program_tree shaped.now).functions }
    ensures { IfOk result (λ head. IsHeadOf (program_tree shaped.now) f (head_tree head)) }
{
    let functions: &[Function] = &shaped.program().functions.items;
    let function = &functions[f as usize];
    let name = copied_name(alloc, &function.name)?;
    let params = shapes_of(alloc, &function.params.items)?;
    match copied_shape(alloc, shaped.result_shape(f)) {
        Ok(result) => Ok(Head {
            name,
            params,
            result,
        }),
        Err(error) => {
            drop(params);
            Err(error)
        }
    }
}

fn add_heads(alloc: Global, shaped: &Shaped, heads: &mut Vec<Head>) -> Result<(), NoMemory>
    requires empty { length heads.old.items ≡ 0 }
    ensures { OnOk result (AreHeadsOf (program_tree shaped.now) (length (program_tree shaped.now).functions)
        (map head_tree heads.new.items)) }
{
    let count = shaped.program().functions.items.len() as u32;
    for f in 0..count {
        let head = head_of(alloc, shaped, f)?;
        heads.push(head)?;
    }
    Ok(())
}

fn heads_of(alloc: Global, shaped: &Shaped) -> Result<Heads, NoMemory>
    ensures { IfOk result (λ heads. AreHeadsOf (program_tree shaped.now) (length (program_tree shaped.now).functions)
        (map head_tree heads.items.items)) }
{
    let mut items = Vec::new(alloc);
    match add_heads(alloc, shaped, &mut items) {
        Ok(()) => Ok(Heads { items }),
        Err(error) => {
            drop(items);
            Err(error)
        }
    }
}
