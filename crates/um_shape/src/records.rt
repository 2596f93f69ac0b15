//! The records of a program: the shapes of their fields, and their heights.
ghost use Rattle.std.specs.Prelude.{◌≡◌, ◌≤◌, [], All, IfOk, MatchResult, Ok, map};
ghost use Rattle.um_tree.specs.TypeTree.{type_tree};
ghost use Rattle.um_tree.specs.TreeHeights.{type_tree_height};
ghost use Rattle.um_tree.specs.Heights.{greatest_height};
ghost use Rattle.um_tree.specs.ProgramTree.{record_tree};
ghost use Rattle.um_tree.specs.Shapes.{type_shape};
ghost use Rattle.um_shape.specs.LowNotes.{HasLowFields};
ghost use Rattle.um_shape.specs.RecordShapes.{tallest};
ghost use Rattle.um_shape.specs.FirstFault.{record_found, records_found};
ghost use Rattle.um_shape.specs.FlatShapes.{flat_shapes, known_record, known_records};
ghost use Rattle.um_shape.specs.Stops.{IsFoundFault};

use crate::ShapeStop;
use crate::flat::FlatShape;
use crate::known::KnownRecord;
use crate::lookup::height;
use std::alloc::Global;
use um_tree::{FieldDecl, GREATEST_HEIGHT, Record};
use um_units::NoMemory;

/// The records in order, or Depth at the first that is too tall.
pub(crate) fn known_records(
    alloc: Global,
    records: &[Record],
) -> Result<Vec<KnownRecord>, ShapeStop>
    requires low { All (λ r. HasLowFields (record_tree r)) records.now }
    ensures { let found = records_found [] (map record_tree records.now) in MatchResult result
        (λ known. found ≡ Ok (known_records known.items)) (IsFoundFault found) }
{
    let mut known = Vec::new(alloc);
    for i in 0..records.len() {
        known.push(known_record(alloc, &known, &records[i])?)?;
    }
    Ok(known)
}

/// A record whose fields name these earlier ones, or Depth at its name.
fn known_record(
    alloc: Global,
    earlier: &[KnownRecord],
    declared: &Record,
) -> Result<KnownRecord, ShapeStop>
    requires low { HasLowFields (record_tree declared.now) }
    ensures { let found = record_found (known_records earlier.now) (record_tree declared.now) in MatchResult result
        (λ r. found ≡ Ok (known_record r)) (IsFoundFault found) }
{
    let fields = field_shapes(alloc, &declared.fields.items)?;
    let top = tallest(earlier, &fields);
    if top >= GREATEST_HEIGHT {
        return Err(ShapeStop::Depth { at: declared.at });
    }
    Ok(KnownRecord {
        fields,
        height: top + 1,
    })
}

/// The greatest of the shapes' heights.
pub(crate) fn tallest(records: &[KnownRecord], shapes: &[FlatShape]) -> u32
    ensures { result ≡ tallest (known_records records.now) (flat_shapes shapes.now) }
{
    let mut top: u32 = 0;
    for i in (0..shapes.len()).rev() {
        top = top.max(height(records, shapes[i]));
    }
    top
}

/// The shapes of the fields' types.
fn field_shapes(alloc: Global, fields: &[FieldDecl]) -> Result<Vec<FlatShape>, NoMemory>
    requires low { All (λ f. type_tree_height (type_tree f.ty) ≤ greatest_height) fields.now }
    ensures { IfOk result (λ shapes. flat_shapes shapes.items ≡ map (λ f. type_shape (type_tree f.ty)) fields.now) }
{
    let mut shapes = Vec::new(alloc);
    shapes.reserve(fields.len())?;
    for i in 0..fields.len() {
        shapes.push(FlatShape::of_type(&fields[i].ty))?;
    }
    Ok(shapes)
}
