//! Shapes and records read from the front of bytes.
ghost use Rattle.std.specs.Prelude.{◌≡◌, IfOk, map};
ghost use Rattle.um_tree.specs.TypeTree.{shape_tree, type_tree};
ghost use Rattle.um_tree.specs.ProgramTree.{field_tree, record_tree};
ghost use Rattle.um_image.specs.Reading.{Gives, many_at, with_front, shape_at, low_shape_at, shapes_at};
ghost use Rattle.um_image.specs.ProgramImage.{type_of_shape};
ghost use Rattle.um_image.specs.Reading.{type_at, field_at, fields_at, record_at, records_at};

use crate::item::{read_name, read_number};
use crate::stop::ReadStop;
use std::alloc::Global;
use um_tree::{FieldDecl, FieldDecls, Record, Records, Shape, Ty};
use um_units::{NoMemory, Unit, Units};
use um_verify::Shapes;

/// The greatest number of levels of a shape.
const LEVELS: u32 = 400;

/// A shape of at most so many levels.
#[tactic(auto, unfolding(crate::specs::Reading::shape_at))]
fn read_shape(alloc: Global, levels: u32, bytes: &[u8]) -> Result<(Shape, &[u8]), ReadStop>
    ensures { Gives (λ x. (shape_tree x.0, x.1.now)) result (shape_at levels bytes.now) }
{
    if levels == 0 {
        return Err(ReadStop::Bad { left: bytes.len() });
    }
    match bytes {
        [] => Err(ReadStop::Bad { left: 0 }),
        [0, rest @ ..] => Ok((Shape::Bool, rest)),
        [1, rest @ ..] => Ok((Shape::Num, rest)),
        [2, rest @ ..] => {
            let (items, rest) = read_shape(alloc, levels - 1, rest)?;
            Ok((Shape::List(Box::new(alloc, items)?), rest))
        }
        [3, rest @ ..] => {
            let (r, rest) = read_number(rest)?;
            Ok((Shape::Rec(r), rest))
        }
        [_, ..] => Err(ReadStop::Bad { left: bytes.len() }),
    }
}

/// A shape.
#[tactic(auto, unfolding(crate::specs::Reading::low_shape_at))]
pub(crate) fn read_low_shape(alloc: Global, bytes: &[u8]) -> Result<(Shape, &[u8]), ReadStop>
    ensures { Gives (λ x. (shape_tree x.0, x.1.now)) result (low_shape_at bytes.now) }
{
    read_shape(alloc, LEVELS, bytes)
}

/// Adds so many shapes.
fn add_shapes<'a>(
    alloc: Global,
    shapes: &mut Vec<Shape>,
    count: u32,
    bytes: &'a [u8],
) -> Result<&'a [u8], ReadStop>
    ensures { Gives (λ rest. (map shape_tree shapes.new.items, rest.now)) result
        (with_front (map shape_tree shapes.old.items) (many_at low_shape_at count bytes.now)) }
{
    let mut rest = bytes;
    for _ in 0..count {
        let (shape, after) = read_low_shape(alloc, rest)?;
        shapes.push(shape)?;
        rest = after;
    }
    Ok(rest)
}

/// Shapes after their count.
#[tactic(auto, unfolding(crate::specs::Reading::shapes_at))]
pub(crate) fn read_shapes(alloc: Global, bytes: &[u8]) -> Result<(Shapes, &[u8]), ReadStop>
    ensures { Gives (λ x. (map shape_tree x.0.items.items, x.1.now)) result (shapes_at bytes.now) }
{
    let (count, rest) = read_number(bytes)?;
    let mut items = Vec::new(alloc);
    match add_shapes(alloc, &mut items, count, rest) {
        Ok(rest) => Ok((Shapes { items }, rest)),
        Err(stop) => {
            drop(items);
            Err(stop)
        }
    }
}

/// The type of this shape whose numbers have unit 1. `NoMemory` is its one error.
pub fn type_of_shape(alloc: Global, shape: &Shape) -> Result<Ty, NoMemory>
    ensures { IfOk result (λ ty. type_tree ty ≡ type_of_shape (shape_tree shape.now)) }
{
    match shape {
        Shape::Bool => Ok(Ty::Bool),
        Shape::Num => Ok(Ty::Num(Unit::one(alloc))),
        Shape::List(items) => {
            let inner = type_of_shape(alloc, items)?;
            Ok(Ty::List(Box::new(alloc, inner)?))
        }
        Shape::Rec(r) => Ok(Ty::Rec(*r, Units::from_vec(Vec::new(alloc)))),
    }
}

/// The type of a field, from its shape.
#[tactic(auto, unfolding(crate::specs::Reading::type_at))]
fn read_type(alloc: Global, bytes: &[u8]) -> Result<(Ty, &[u8]), ReadStop>
    ensures { Gives (λ x. (type_tree x.0, x.1.now)) result (type_at bytes.now) }
{
    let (shape, rest) = read_low_shape(alloc, bytes)?;
    match type_of_shape(alloc, &shape) {
        Ok(ty) => {
            drop(shape);
            Ok((ty, rest))
        }
        Err(_) => {
            drop(shape);
            Err(ReadStop::NoMemory)
        }
    }
}

#[tactic(auto, unfolding(crate::specs::Reading::field_at))]
fn read_field(alloc: Global, bytes: &[u8]) -> Result<(FieldDecl, &[u8]), ReadStop>
    ensures { Gives (λ x. (field_tree x.0, x.1.now)) result (field_at bytes.now) }
{
    let (name, rest) = read_name(alloc, bytes)?;
    let (ty, rest) = read_type(alloc, rest)?;
    Ok((FieldDecl { name, ty }, rest))
}

/// Adds so many fields.
fn add_fields<'a>(
    alloc: Global,
    fields: &mut Vec<FieldDecl>,
    count: u32,
    bytes: &'a [u8],
) -> Result<&'a [u8], ReadStop>
    ensures { Gives (λ rest. (map field_tree fields.new.items, rest.now)) result
        (with_front (map field_tree fields.old.items) (many_at field_at count bytes.now)) }
{
    let mut rest = bytes;
    for _ in 0..count {
        let (field, after) = read_field(alloc, rest)?;
        fields.push(field)?;
        rest = after;
    }
    Ok(rest)
}

/// Fields after their count.
#[tactic(auto, unfolding(crate::specs::Reading::fields_at))]
fn read_fields(alloc: Global, bytes: &[u8]) -> Result<(FieldDecls, &[u8]), ReadStop>
    ensures { Gives (λ x. (map field_tree x.0.items.items, x.1.now)) result (fields_at bytes.now) }
{
    let (count, rest) = read_number(bytes)?;
    let mut items = Vec::new(alloc);
    match add_fields(alloc, &mut items, count, rest) {
        Ok(rest) => Ok((FieldDecls { items }, rest)),
        Err(stop) => {
            drop(items);
            Err(stop)
        }
    }
}

#[tactic(auto, unfolding(crate::specs::Reading::record_at))]
fn read_record(alloc: Global, bytes: &[u8]) -> Result<(Record, &[u8]), ReadStop>
    ensures { Gives (λ x. (record_tree x.0, x.1.now)) result (record_at bytes.now) }
{
    let (name, rest) = read_name(alloc, bytes)?;
    let (fields, rest) = read_fields(alloc, rest)?;
    let record = Record {
        name,
        at: 0,
        units: 0,
        fields,
    };
    Ok((record, rest))
}

/// Adds so many records.
fn add_records<'a>(
    alloc: Global,
    records: &mut Vec<Record>,
    count: u32,
    bytes: &'a [u8],
) -> Result<&'a [u8], ReadStop>
    ensures { Gives (λ rest. (map record_tree records.new.items, rest.now)) result
        (with_front (map record_tree records.old.items) (many_at record_at count bytes.now)) }
{
    let mut rest = bytes;
    for _ in 0..count {
        let (record, after) = read_record(alloc, rest)?;
        records.push(record)?;
        rest = after;
    }
    Ok(rest)
}

/// Records after their count.
#[tactic(auto, unfolding(crate::specs::Reading::records_at))]
pub(crate) fn read_records(alloc: Global, bytes: &[u8]) -> Result<(Records, &[u8]), ReadStop>
    ensures { Gives (λ x. (map record_tree x.0.items.items, x.1.now)) result (records_at bytes.now) }
{
    let (count, rest) = read_number(bytes)?;
    let mut items = Vec::new(alloc);
    match add_records(alloc, &mut items, count, rest) {
        Ok(rest) => Ok((Records { items }, rest)),
        Err(stop) => {
            drop(items);
            Err(stop)
        }
    }
}
