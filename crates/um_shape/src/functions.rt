//! The functions of a program: the shapes of their parameters and results, or the first fault.
ghost use Rattle.std.specs.Prelude.{◌≡◌, ◌≤◌, ◌++◌, All, IfOk, MatchResult, Ok, map};
ghost use Rattle.std.specs.Option.{option_to_list};
ghost use Rattle.um_tree.specs.TypeTree.{note_tree};
ghost use Rattle.um_tree.specs.TreeHeights.{note_tree_height};
ghost use Rattle.um_tree.specs.Heights.{greatest_height};
ghost use Rattle.um_tree.specs.ExprTree.{expr_tree};
ghost use Rattle.um_tree.specs.ProgramTree.{function_tree, result_tree};
ghost use Rattle.um_tree.specs.Shapes.{note_shape};
ghost use Rattle.um_shape.specs.LowNotes.{HasLowResult, IsLow};
ghost use Rattle.um_shape.specs.FirstFault.{found, own_shapes, fits_result};
ghost use Rattle.um_shape.specs.FlatShapes.{flat_shape, flat_shapes, known_records, head_shapes, heads_shapes};
ghost use Rattle.um_shape.specs.FlatShapes.{known_function_found, known_functions_found};
ghost use Rattle.um_shape.specs.Stops.{IsFound, IsFoundFault};

use crate::ShapeStop;
use crate::body::{Body, shape_of};
use crate::flat::FlatShape;
use crate::known::{Head, Known};
use crate::records::tallest;
use std::alloc::Global;
use um_tree::{Function, GREATEST_HEIGHT, Note};
use um_units::NoMemory;

/// Adds the shapes of the functions in order, or stops at the first fault.
pub(crate) fn add_heads(
    alloc: Global,
    known: &mut Known,
    functions: &[Function],
) -> Result<(), ShapeStop>
    requires low { All (λ f. IsLow (function_tree f)) functions.now }
    ensures { let found = known_functions_found known.old (map function_tree functions.now) in MatchResult result
        (λ _. found ≡ Ok (heads_shapes known.new.heads.items)) (IsFoundFault found) }
{
    for i in 0..functions.len() {
        let head = head_of(alloc, known, &functions[i])?;
        known.heads.push(head)?;
    }
    Ok(())
}

/// The shapes of a function, or its first fault.
fn head_of(alloc: Global, known: &mut Known, function: &Function) -> Result<Head, ShapeStop>
    requires low { IsLow (function_tree function.now) }
    ensures found { let found = known_function_found known.old (function_tree function.now) in MatchResult result
        (λ head. found ≡ Ok (head_shapes head)) (IsFoundFault found) }
    ensures records { IfOk result (λ _. known.new.records.items ≡ known.old.records.items) }
    ensures heads { IfOk result (λ _. known.new.heads.items ≡ known.old.heads.items) }
{
    let params = note_shapes(alloc, &function.params.items)?;
    if tallest(&known.records, &params) > GREATEST_HEIGHT {
        return Err(ShapeStop::Depth { at: function.at });
    }
    let result = body_shape(alloc, known, &params, function)?;
    if !fits_result(&function.result, result) {
        return Err(ShapeStop::Shape { at: function.at });
    }
    Ok(Head { params, result })
}

/// The shape of the body, or its first fault, if the parameters have these shapes.
fn body_shape(
    alloc: Global,
    known: &mut Known,
    params: &[FlatShape],
    function: &Function,
) -> Result<FlatShape, ShapeStop>
    requires low { IsLow (function_tree function.now) }
    requires params { flat_shapes params.now ≡ map note_shape (function_tree function.now).params }
    ensures found { IsFound result
        (found (known_records known.old.records.items)
        (heads_shapes known.old.heads.items ++ own_shapes (function_tree function.now))
        (flat_shapes params.now) (expr_tree function.now.body)) }
    ensures records { IfOk result (λ _. known.new.records.items ≡ known.old.records.items) }
    ensures heads { IfOk result (λ _. known.new.heads.items ≡ known.old.heads.items) }
{
    let mut scope = copied(alloc, params)?;
    match own_head(alloc, params, function)? {
        None => shape_of(&Body { alloc, known }, &mut scope, &function.body),
        Some(own) => {
            known.heads.push(own)?;
            let shape = shape_of(&Body { alloc, known }, &mut scope, &function.body)?;
            known.heads.pop();
            Ok(shape)
        }
    }
}

/// The shapes at which a `rec` function may be called in its own body.
fn own_head(
    alloc: Global,
    params: &[FlatShape],
    function: &Function,
) -> Result<Option<Head>, NoMemory>
    requires low { HasLowResult (result_tree function.now.result) }
    requires params { flat_shapes params.now ≡ map note_shape (function_tree function.now).params }
    ensures { IfOk result (λ own. map head_shapes (option_to_list own) ≡ own_shapes (function_tree function.now)) }
{
    if !function.recursive {
        return Ok(None);
    }
    match &function.result {
        None => Ok(None),
        Some(note) => {
            let params = copied(alloc, params)?;
            let result = FlatShape::of_note(note);
            Ok(Some(Head { params, result }))
        }
    }
}

/// Whether the shape is that of the result's note, if one is written.
fn fits_result(note: &Option<Note>, shape: FlatShape) -> bool
    requires low { HasLowResult (result_tree note.now) }
    ensures { result ≡ fits_result (result_tree note.now) (flat_shape shape) }
{
    match note {
        None => true,
        Some(note) => shape.same(FlatShape::of_note(note)),
    }
}

/// The shapes of the notes.
fn note_shapes(alloc: Global, notes: &[Note]) -> Result<Vec<FlatShape>, NoMemory>
    requires low { All (λ n. note_tree_height (note_tree n) ≤ greatest_height) notes.now }
    ensures { IfOk result (λ shapes. flat_shapes shapes.items ≡ map (λ n. note_shape (note_tree n)) notes.now) }
{
    let mut shapes = Vec::new(alloc);
    shapes.reserve(notes.len())?;
    for i in 0..notes.len() {
        shapes.push(FlatShape::of_note(&notes[i]))?;
    }
    Ok(shapes)
}

/// The same shapes, in memory of their own.
fn copied(alloc: Global, shapes: &[FlatShape]) -> Result<Vec<FlatShape>, NoMemory>
    ensures { IfOk result (λ copy. copy.items ≡ shapes.now) }
{
    let mut copy = Vec::new(alloc);
    copy.extend_from_slice(shapes)?;
    Ok(copy)
}
