//! The rules of an image's records.
ghost use Rattle.std.specs.Prelude.{◌≡◌, ◌≤◌, ◌<◌, ◌^◌, ℕ, All, List, true, false, length, map, take, slice_get};
ghost use Rattle.std.specs.Prelude.{[], Some, IfOk, MatchOption};
ghost use Rattle.std.specs.Prelude.{MatchResult};
ghost use Rattle.std.specs.List.{list_all};
ghost use Rattle.um_tree.specs.TypeTree.{type_tree};
ghost use Rattle.um_tree.specs.TreeHeights.{type_tree_height};
ghost use Rattle.um_tree.specs.Heights.{greatest_height};
ghost use Rattle.um_tree.specs.Shapes.{type_shape};
ghost use Rattle.um_tree.specs.ProgramTree.{RecordTree, record_tree};
ghost use Rattle.um_verify.specs.StackShape.{on_stack};
ghost use Rattle.um_verify.specs.ImageTree.{IsPlainRecord};
ghost use Rattle.um_verify.specs.Heads.{RecordHolds};
ghost use Rattle.um_stacks.specs.FlatShapes.{flat_shapes};
ghost use Rattle.um_verifier.specs.KnownImages.{known_heights, admits};
ghost use Rattle.um_verifier.specs.KnownHeads.{TakesRecords, IsKnownRecord, FindsRecord, AreKnownRecords, IsRecordStop};

use crate::VerifyStop;
use crate::known::{Known, KnownRecord};
use crate::names::{records_digest, take_field_names, take_name};
use std::alloc::{AllocError, Global};
use um_measures::NameTable;
use um_stacks::FlatShape;
use um_tree::{FieldDecl, Record};

/// The shapes of the fields' types.
fn field_shapes(alloc: Global, fields: &[FieldDecl]) -> Result<Vec<FlatShape>, AllocError>
    requires low { All (λ f. type_tree_height (type_tree f.ty) ≤ greatest_height) fields.now }
    ensures { IfOk result (λ shapes. flat_shapes shapes.items ≡ map
        (λ f. on_stack (type_shape (type_tree f.ty))) fields.now) }
{
    let mut shapes = Vec::new(alloc);
    for i in 0..fields.len() {
        shapes.push(FlatShape::of_type(&fields[i].ty))?;
    }
    Ok(shapes)
}

/// The record with these fields, if each names known records alone and is at most 400 high.
fn known_record(
    alloc: Global,
    known: &Known,
    fields: &[FieldDecl],
) -> Result<Option<KnownRecord>, AllocError>
    requires low { All (λ f. type_tree_height (type_tree f.ty) ≤ greatest_height) fields.now }
    ensures { let ss = map (λ f. on_stack (type_shape (type_tree f.ty))) fields.now in IfOk result
        (λ found. MatchOption found (list_all (admits known.now) ss ≡ false)
        (λ r. (list_all (admits known.now) ss ≡ true) × IsKnownRecord (known_heights known.now) ss r)) }
{
    let shapes = field_shapes(alloc, fields)?;
    if !known.admits_all(&shapes) {
        return Ok(None);
    }
    let height = known.highest(&shapes) + 1;
    Ok(Some(KnownRecord {
        fields: shapes,
        height,
    }))
}

/// Record `i` of the image, if it holds; its names are taken.
fn checked_record(
    alloc: Global,
    known: &Known,
    names: &mut NameTable,
    field_names: &mut NameTable,
    declared: &Record,
) -> Result<Option<KnownRecord>, AllocError>
    requires plain { IsPlainRecord (record_tree declared.now) }
    ensures { (records : List RecordTree) (i : ℕ) → slice_get records i ≡ Some (record_tree declared.now)
        → TakesRecords (take i records) known.now names.old field_names.old
        → IfOk result (λ found. MatchOption found (RecordHolds records i (record_tree declared.now) → ⊥)
        (λ r. FindsRecord records i (record_tree declared.now) known.now names.old field_names.old names.new
        field_names.new r)) }
{
    let fields: &[FieldDecl] = &declared.fields.items;
    if fields.len() == 0 {
        return Ok(None);
    }
    if fields.len() > 32 {
        return Ok(None);
    }
    let named = take_name(alloc, names, &declared.name)?;
    if !named {
        return Ok(None);
    }
    let fields_named = take_field_names(alloc, field_names, fields)?;
    if !fields_named {
        return Ok(None);
    }
    known_record(alloc, known, fields)
}

/// The records are known too, if each holds. Their names are taken.
fn add_records(
    alloc: Global,
    known: &mut Known,
    names: &mut NameTable,
    field_names: &mut NameTable,
    declared: &[Record],
) -> Result<(), VerifyStop>
    requires plain { All (λ d. IsPlainRecord (record_tree d)) declared.now }
    requires count { length declared.now < 2 ^ 32 }
    requires heads { known.old.heads.items ≡ [] }
    requires takes { TakesRecords [] known.old names.old field_names.old }
    ensures { MatchResult result (λ _. AreKnownRecords (map record_tree declared.now) known.new)
        (λ stop. IsRecordStop (map record_tree declared.now) stop) }
{
    for i in 0..declared.len() {
        match checked_record(alloc, known, names, field_names, &declared[i])? {
            None => return Err(VerifyStop::Head { index: i as u32 }),
            Some(r) => known.records.push(r)?,
        }
    }
    Ok(())
}

/// The records, if each holds.
pub(crate) fn known_records(alloc: Global, declared: &[Record]) -> Result<Known, VerifyStop>
    requires plain { All (λ d. IsPlainRecord (record_tree d)) declared.now }
    requires count { length declared.now < 2 ^ 32 }
    ensures { MatchResult result (λ known. AreKnownRecords (map record_tree declared.now) known)
        (λ stop. IsRecordStop (map record_tree declared.now) stop) }
{
    let digest = records_digest(declared);
    let mut names = NameTable::with_digest(alloc, digest);
    let mut field_names = NameTable::with_digest(alloc, digest);
    let mut known = Known {
        records: Vec::new(alloc),
        heads: Vec::new(alloc),
    };
    match add_records(alloc, &mut known, &mut names, &mut field_names, declared) {
        Ok(()) => {
            drop(names);
            drop(field_names);
            Ok(known)
        }
        Err(stop) => {
            drop(names);
            drop(field_names);
            drop(known);
            Err(stop)
        }
    }
}
