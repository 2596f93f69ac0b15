//! The rules of an image's functions, before their code is looked at.
ghost use Rattle.std.specs.Prelude.{◌≡◌, ◌≤◌, ◌&&◌, ℕ, All, true, false, map, slice_get, Some, IfOk, MatchOption};
ghost use Rattle.std.specs.Prelude.{MatchResult, OnOk, IfErr, []};
ghost use Rattle.um_tree.specs.TypeTree.{shape_tree};
ghost use Rattle.um_tree.specs.Heights.{greatest_height};
ghost use Rattle.um_shape.specs.RecordShapes.{shape_height};
ghost use Rattle.um_verify.specs.StackShape.{on_stack};
ghost use Rattle.um_verify.specs.ImageTree.{ImageTree, head_tree, image_tree, IsPlainHead, HasForm};
ghost use Rattle.um_verify.specs.Heads.{FunctionHolds};
ghost use Rattle.um_stacks.specs.FlatShapes.{flat_shapes};
ghost use Rattle.um_verifier.specs.KnownHeads.{TakesHeads, known_signature, head_signature, admits_signature};
ghost use Rattle.um_verifier.specs.KnownHeads.{FindsHead, AreKnownRecords, AreKnownHeads};
ghost use Rattle.um_verifier.specs.Refusals.{IsRefusal};

use crate::VerifyStop;
use crate::known::{Known, KnownHead};
use crate::names::{heads_digest, take_name};
use crate::records::known_records;
use std::alloc::{AllocError, Global};
use um_machine::Entry;
use um_measures::NameTable;
use um_stacks::FlatShape;
use um_tree::Shape;
use um_verify::{Head, Image};

/// The shapes, on the stack.
fn param_shapes(alloc: Global, shapes: &[Shape]) -> Result<Vec<FlatShape>, AllocError>
    requires low { All (λ s. shape_height [] (shape_tree s) ≤ greatest_height) shapes.now }
    ensures { IfOk result (λ flat. flat_shapes flat.items ≡ map (λ s. on_stack (shape_tree s)) shapes.now) }
{
    let mut flat = Vec::new(alloc);
    for i in 0..shapes.len() {
        flat.push(FlatShape::of_shape(&shapes[i]))?;
    }
    Ok(flat)
}

/// Whether each shape of a function is one over the known records.
fn admits_signature(known: &Known, head: &KnownHead) -> bool
    ensures { result ≡ admits_signature known.now (known_signature head.now) }
{
    known.admits_all(&head.params) && known.admits(head.result)
}

/// The shapes of a function.
fn signature(alloc: Global, head: &Head) -> Result<KnownHead, AllocError>
    requires plain { IsPlainHead (head_tree head.now) }
    ensures { IfOk result (λ found. known_signature found ≡ head_signature (head_tree head.now)) }
{
    let params = param_shapes(alloc, &head.params.items)?;
    let result = FlatShape::of_shape(&head.result);
    Ok(KnownHead { params, result })
}

/// The shapes of a function, if each is one over the known records.
fn known_head(alloc: Global, known: &Known, head: &Head) -> Result<Option<KnownHead>, AllocError>
    requires plain { IsPlainHead (head_tree head.now) }
    ensures { let s = head_signature (head_tree head.now) in IfOk result
        (λ found. MatchOption found (admits_signature known.now s ≡ false)
        (λ h. (admits_signature known.now s ≡ true) × (known_signature h ≡ s))) }
{
    let found = signature(alloc, head)?;
    if !admits_signature(known, &found) {
        return Ok(None);
    }
    Ok(Some(found))
}

/// Function `k` of the image, if it holds; its name is taken.
fn checked_head(
    alloc: Global,
    known: &Known,
    names: &mut NameTable,
    head: &Head,
    entry: Entry,
) -> Result<Option<KnownHead>, AllocError>
    requires plain { IsPlainHead (head_tree head.now) }
    ensures { (image : ImageTree) (k : ℕ) → slice_get image.heads k ≡ Some (head_tree head.now)
        → slice_get image.code.entries k ≡ Some entry → TakesHeads image k known.now names.old
        → IfOk result (λ found. MatchOption found (FunctionHolds image k (head_tree head.now) → ⊥)
        (λ h. FindsHead image k (head_tree head.now) names.old names.new h)) }
{
    if entry.end <= entry.start {
        return Ok(None);
    }
    if head.params.items.len() > 16 {
        return Ok(None);
    }
    let named = take_name(alloc, names, &head.name)?;
    if !named {
        return Ok(None);
    }
    known_head(alloc, known, head)
}

/// Adds the functions to what is known, one after another, if each holds.
fn add_each_head(
    alloc: Global,
    known: &mut Known,
    names: &mut NameTable,
    image: &Image,
) -> Result<(), VerifyStop>
    requires form { HasForm (image_tree image.now) }
    requires records { AreKnownRecords (image_tree image.now).records known.old }
    requires names { names.old ≡ [] }
    ensures heads { OnOk result (AreKnownHeads (image_tree image.now) known.new) }
    ensures refusal { IfErr result (IsRefusal (image_tree image.now)) }
{
    let heads: &[Head] = &image.heads.items;
    let entries = image.code.entries.as_slice();
    for k in 0..heads.len() {
        match checked_head(alloc, known, names, &heads[k], entries[k])? {
            None => {
                return Err(VerifyStop::Head {
                    index: (image.records.items.len() + k) as u32,
                });
            }
            Some(h) => known.heads.push(h)?,
        }
    }
    Ok(())
}

/// The functions are known too, if each holds.
fn add_heads(alloc: Global, mut known: Known, image: &Image) -> Result<Known, VerifyStop>
    requires form { HasForm (image_tree image.now) }
    requires records { AreKnownRecords (image_tree image.now).records known }
    ensures { MatchResult result (AreKnownHeads (image_tree image.now)) (IsRefusal (image_tree image.now)) }
{
    let mut names = NameTable::with_digest(alloc, heads_digest(&image.heads.items));
    match add_each_head(alloc, &mut known, &mut names, image) {
        Ok(()) => {
            drop(names);
            Ok(known)
        }
        Err(stop) => {
            drop(names);
            drop(known);
            Err(stop)
        }
    }
}

/// What is known of the image, if each of its heads holds.
pub(crate) fn known_image(alloc: Global, image: &Image) -> Result<Known, VerifyStop>
    requires form { HasForm (image_tree image.now) }
    ensures { MatchResult result (AreKnownHeads (image_tree image.now)) (IsRefusal (image_tree image.now)) }
{
    match known_records(alloc, &image.records.items) {
        Ok(known) => add_heads(alloc, known, image),
        Err(stop) => Err(stop),
    }
}
