//! Images as bytes.
ghost use Rattle.std.specs.Prelude.{◌≡◌, ◌<◌, ◌≤◌, ◌^◌, ◌++◌, ◌∷◌, [], All, length, map, IfOk, OnOk};
ghost use Rattle.std.specs.List.{flat_map};
ghost use Rattle.std.specs.Option.{option_to_list};
ghost use Rattle.um_tree.specs.TypeTree.{shape_tree, type_tree};
ghost use Rattle.um_tree.specs.ProgramTree.{field_tree, record_tree};
ghost use Rattle.um_tree.specs.Shapes.{type_shape};
ghost use Rattle.um_machine.specs.declared.table.Operand.TheVariants.{Num};
ghost use Rattle.um_verify.specs.ImageTree.{head_tree, image_tree, IsPlainField, IsPlainRecord, IsPlainHead, HasForm};
ghost use Rattle.um_image.specs.Encoding.{four_bytes, long_bytes, op_number, operand_bytes, function_parts};
ghost use Rattle.um_image.specs.Encoding.{image_bytes, image_parts};
ghost use Rattle.um_image.specs.Places.{ShapeFits, FieldFits, RecordFits, OperandFits, OpFits, FunctionFits, PartsFit};
ghost use Rattle.um_image.specs.Places.{IsWritable};
ghost use Rattle.um_image.specs.Pieces.{name_bytes, shape_bytes, field_bytes, record_bytes, op_bytes};
ghost use Rattle.um_image.specs.Pieces.{function_bytes, functions_bytes, added_bytes};

use std::alloc::{AllocError, Global};
use um_frac::Frac;
use um_machine::{Entry, Op, Operand};
use um_tree::{FieldDecl, Name, Record, Shape, Ty};
use um_units::NoMemory;
use um_verify::{Head, Image};

/// The bytes of the image: `UMI1`, its records and its functions, each after its count.
///
/// A name stands after its length. A shape is 0 for `bool`, 1 for `num`, 2 and the shape of its items for a list, and
/// 3 and its number for a record. An instruction is its number, and its operands. Numbers have four bytes, the most
/// significant first; a fraction has two of eight, and a truth value is a byte.
///
/// Each number of the image fits its bytes, so that `decode` gives back the image. `NoMemory` is its one error. The
/// form is this project's own.
pub fn encode(alloc: Global, image: &Image) -> Result<Vec<u8>, NoMemory>
    requires form { HasForm (image_tree image.now) }
    ensures bytes { IfOk result (λ bytes. bytes.items ≡ image_bytes (image_tree image.now)) }
    ensures writable { OnOk result (IsWritable (image_tree image.now)) }
{
    added(alloc, image)
}

/// The bytes, part by part.
fn added(alloc: Global, image: &Image) -> Result<Vec<u8>, NoMemory>
    requires form { HasForm (image_tree image.now) }
    ensures bytes { IfOk result (λ bytes. bytes.items ≡ added_bytes (image_tree image.now)) }
    ensures fits { OnOk result (PartsFit (image_parts (image_tree image.now))) }
{
    let mut out = Vec::new(alloc);
    out.extend_from_slice(b"UMI1")?;
    put_records(&mut out, &image.records.items)?;
    put_functions(
        &mut out,
        &image.heads.items,
        image.code.ops.as_slice(),
        image.code.entries.as_slice(),
    )?;
    Ok(out)
}

fn put_byte(out: &mut Vec<u8>, byte: u8) -> Result<(), AllocError>
    ensures { OnOk result (out.new.items ≡ out.old.items ++ byte ∷ []) }
{
    out.push(byte)?;
    Ok(())
}

/// Adds a number in four bytes.
fn put_number(out: &mut Vec<u8>, n: u32) -> Result<(), AllocError>
    ensures { OnOk result (out.new.items ≡ out.old.items ++ four_bytes n) }
{
    out.extend_from_slice(&n.to_be_bytes())
}

fn put_name(out: &mut Vec<u8>, name: &Name) -> Result<(), AllocError>
    requires short { length name.now < 2 ^ 32 }
    ensures { OnOk result (out.new.items ≡ out.old.items ++ name_bytes name.now) }
{
    let bytes = name.as_slice();
    put_number(out, bytes.len() as u32)?;
    out.extend_from_slice(bytes)
}

fn put_shape(out: &mut Vec<u8>, shape: &Shape) -> Result<(), AllocError>
    ensures bytes { OnOk result (out.new.items ≡ out.old.items ++ shape_bytes (shape_tree shape.now)) }
    ensures fits { OnOk result (ShapeFits (shape_tree shape.now)) }
{
    match shape {
        Shape::Bool => put_byte(out, 0),
        Shape::Num => put_byte(out, 1),
        Shape::List(items) => {
            put_byte(out, 2)?;
            put_shape(out, items)
        }
        Shape::Rec(r) => {
            put_byte(out, 3)?;
            put_number(out, *r)
        }
    }
}

/// Adds the shape of a type.
fn put_type(out: &mut Vec<u8>, ty: &Ty) -> Result<(), AllocError>
    ensures bytes { OnOk result (out.new.items ≡ out.old.items ++ shape_bytes (type_shape (type_tree ty.now))) }
    ensures fits { OnOk result (ShapeFits (type_shape (type_tree ty.now))) }
{
    match ty {
        Ty::Bool => put_byte(out, 0),
        Ty::Num(_) => put_byte(out, 1),
        Ty::List(items) => {
            put_byte(out, 2)?;
            put_type(out, items)
        }
        Ty::Rec(r, _) => {
            put_byte(out, 3)?;
            put_number(out, *r)
        }
    }
}

fn put_field(out: &mut Vec<u8>, field: &FieldDecl) -> Result<(), AllocError>
    requires plain { IsPlainField (field_tree field.now) }
    ensures bytes { OnOk result (out.new.items ≡ out.old.items ++ field_bytes (field_tree field.now)) }
    ensures fits { OnOk result (FieldFits (field_tree field.now)) }
{
    put_name(out, &field.name)?;
    put_type(out, &field.ty)
}

fn put_record(out: &mut Vec<u8>, declaration: &Record) -> Result<(), AllocError>
    requires plain { IsPlainRecord (record_tree declaration.now) }
    ensures bytes { OnOk result (out.new.items ≡ out.old.items ++ record_bytes (record_tree declaration.now)) }
    ensures fits { OnOk result (RecordFits (record_tree declaration.now)) }
{
    let fields: &[FieldDecl] = &declaration.fields.items;
    put_name(out, &declaration.name)?;
    put_number(out, fields.len() as u32)?;
    put_fields(out, fields)
}

fn put_fields(out: &mut Vec<u8>, fields: &[FieldDecl]) -> Result<(), AllocError>
    requires plain { All IsPlainField (map field_tree fields.now) }
    ensures bytes { OnOk result (out.new.items ≡ out.old.items ++ flat_map field_bytes (map field_tree fields.now)) }
    ensures fits { OnOk result (All FieldFits (map field_tree fields.now)) }
{
    for i in 0..fields.len() {
        put_field(out, &fields[i])?;
    }
    Ok(())
}

/// Adds the records after their count.
fn put_records(out: &mut Vec<u8>, records: &[Record]) -> Result<(), AllocError>
    requires count { length records.now < 2 ^ 32 }
    requires plain { All IsPlainRecord (map record_tree records.now) }
    ensures bytes { OnOk result (out.new.items
        ≡ out.old.items ++ four_bytes (length records.now) ++ flat_map record_bytes (map record_tree records.now)) }
    ensures fits { OnOk result (All RecordFits (map record_tree records.now)) }
{
    put_number(out, records.len() as u32)?;
    for i in 0..records.len() {
        put_record(out, &records[i])?;
    }
    Ok(())
}

/// The number of an instruction.
fn op_number(op: Op) -> u8
    ensures { result ≡ op_number op }
{
    match op {
        Op::PushNum(_) => 0,
        Op::PushBool(_) => 1,
        Op::Load(_) => 2,
        Op::Add => 3,
        Op::Sub => 4,
        Op::Mul => 5,
        Op::Div => 6,
        Op::Neg => 7,
        Op::Not => 8,
        Op::Lt => 9,
        Op::Le => 10,
        Op::Eq => 11,
        Op::Jump(_) => 12,
        Op::JumpIfNot(_) => 13,
        Op::MakeList(_) => 14,
        Op::Cons => 15,
        Op::Split(_) => 16,
        Op::MakeRec(_, _) => 17,
        Op::Field(_) => 18,
        Op::Slide(_) => 19,
        Op::Call(_) => 20,
        Op::Ret => 21,
        Op::Pow(_) => 22,
    }
}

/// Adds a number in eight bytes.
fn put_long(out: &mut Vec<u8>, n: i64) -> Result<(), AllocError>
    ensures { OnOk result (out.new.items ≡ out.old.items ++ long_bytes n) }
{
    out.extend_from_slice(&n.to_be_bytes())
}

fn put_fraction(out: &mut Vec<u8>, c: Frac) -> Result<(), AllocError>
    ensures { OnOk result (out.new.items ≡ out.old.items ++ operand_bytes (Num c)) }
{
    put_long(out, c.num())?;
    put_long(out, c.den())
}

fn put_operand(out: &mut Vec<u8>, operand: Operand) -> Result<(), AllocError>
    ensures bytes { OnOk result (out.new.items ≡ out.old.items ++ operand_bytes operand) }
    ensures fits { OnOk result (OperandFits operand) }
{
    match operand {
        Operand::Num(c) => put_fraction(out, c),
        Operand::Bool(b) => put_byte(out, b as u8),
        Operand::Count(n) => put_number(out, n),
        Operand::Record(r) => put_number(out, r),
        Operand::Function(f) => put_number(out, f),
        Operand::Power(k) => out.extend_from_slice(&k.to_be_bytes()),
    }
}

/// Adds an operand, if there is one.
fn put_some(out: &mut Vec<u8>, operand: Option<Operand>) -> Result<(), AllocError>
    ensures bytes { OnOk result (out.new.items ≡ out.old.items ++ flat_map operand_bytes (option_to_list operand)) }
    ensures fits { OnOk result (All OperandFits (option_to_list operand)) }
{
    match operand {
        None => Ok(()),
        Some(operand) => put_operand(out, operand),
    }
}

fn put_op(out: &mut Vec<u8>, op: Op) -> Result<(), AllocError>
    ensures bytes { OnOk result (out.new.items ≡ out.old.items ++ op_bytes op) }
    ensures fits { OnOk result (OpFits op) }
{
    let (first, second) = op.operands();
    put_byte(out, op_number(op))?;
    put_some(out, first)?;
    put_some(out, second)
}

/// Adds the instructions after their count.
fn put_ops(out: &mut Vec<u8>, ops: &[Op]) -> Result<(), AllocError>
    requires count { length ops.now < 2 ^ 32 }
    ensures bytes { OnOk result (out.new.items
        ≡ out.old.items ++ four_bytes (length ops.now) ++ flat_map op_bytes ops.now) }
    ensures fits { OnOk result (All OpFits ops.now) }
{
    put_number(out, ops.len() as u32)?;
    for i in 0..ops.len() {
        put_op(out, ops[i])?;
    }
    Ok(())
}

/// Adds the shapes after their count.
fn put_shapes(out: &mut Vec<u8>, shapes: &[Shape]) -> Result<(), AllocError>
    requires count { length shapes.now < 2 ^ 32 }
    ensures bytes { OnOk result (out.new.items
        ≡ out.old.items ++ four_bytes (length shapes.now) ++ flat_map shape_bytes (map shape_tree shapes.now)) }
    ensures fits { OnOk result (All ShapeFits (map shape_tree shapes.now)) }
{
    put_number(out, shapes.len() as u32)?;
    for i in 0..shapes.len() {
        put_shape(out, &shapes[i])?;
    }
    Ok(())
}

fn put_function(out: &mut Vec<u8>, head: &Head, ops: &[Op]) -> Result<(), AllocError>
    requires plain { IsPlainHead (head_tree head.now) }
    requires count { length ops.now < 2 ^ 32 }
    ensures bytes { OnOk result (out.new.items ≡ out.old.items ++ function_bytes (head_tree head.now) ops.now) }
    ensures fits { OnOk result (FunctionFits (record { head = head_tree head.now; ops = ops.now })) }
{
    put_name(out, &head.name)?;
    put_shapes(out, &head.params.items)?;
    put_shape(out, &head.result)?;
    put_ops(out, ops)
}

/// Adds the functions after their count.
fn put_functions(
    out: &mut Vec<u8>,
    heads: &[Head],
    ops: &[Op],
    entries: &[Entry],
) -> Result<(), AllocError>
    requires plain { All IsPlainHead (map head_tree heads.now) }
    requires entries { length entries.now ≡ length heads.now }
    requires within { All (λ e. (e.start ≤ e.end) × (e.end ≤ length ops.now)) entries.now }
    requires count { length heads.now < 2 ^ 32 }
    requires addresses { length ops.now < 2 ^ 32 }
    ensures bytes { OnOk result (out.new.items ≡ out.old.items ++ four_bytes (length heads.now) ++ functions_bytes
        (map head_tree heads.now) ops.now entries.now) }
    ensures fits { OnOk result (All FunctionFits (function_parts (map head_tree heads.now) ops.now entries.now)) }
{
    put_number(out, heads.len() as u32)?;
    for i in 0..heads.len() {
        let entry = entries[i];
        let own = &ops[entry.start as usize..entry.end as usize];
        put_function(out, &heads[i], own)?;
    }
    Ok(())
}
