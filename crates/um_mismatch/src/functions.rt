//! The functions of a program: the shapes of their parameters and results, or what is told of the first one without.
ghost use Rattle.std.specs.Prelude.{◌≡◌, ◌++◌, IfOk, MatchResult, Ok, length, map};
ghost use Rattle.std.specs.Option.{option_to_list};
ghost use Rattle.um_tree.specs.TypeTree.{note_tree, type_tree};
ghost use Rattle.um_tree.specs.ExprTree.{expr_tree};
ghost use Rattle.um_tree.specs.ProgramTree.{record_tree, function_tree, result_tree};
ghost use Rattle.um_tree.specs.Shapes.{note_shape, type_shape};
ghost use Rattle.um_agree.specs.declared.rule.Rule.TheVariants as asks;
ghost use Rattle.um_shape.specs.FirstFault.{own_shapes, same_shape};
ghost use Rattle.um_mismatch.specs.Mismatch.{unequal};
ghost use Rattle.um_mismatch.specs.NodeRules.{of_result, whole_if};
ghost use Rattle.um_mismatch.specs.ShapeDetails.{field_shapes, told};
ghost use Rattle.um_mismatch.specs.FlatShapes.{flat_shape, flat_shapes, rule_result, known_fields, known_records};
ghost use Rattle.um_mismatch.specs.FlatShapes.{head_shapes, heads_shapes, known_function_told, known_functions_told};
ghost use Rattle.um_mismatch.specs.Answers.{IsTold, IsFound};

use crate::body::{Body, at_node, shape_of};
use crate::flat::FlatShape;
use crate::known::{Head, Known, KnownRecord};
use crate::mismatch::{Mismatch, Stop};
use std::alloc::{AllocError, Global};
use um_agree::Rule;
use um_tree::{FieldDecl, Function, Note, Record};

/// The shapes of the records' fields.
pub(crate) fn known_records(
    alloc: Global,
    records: &[Record],
) -> Result<Vec<KnownRecord>, AllocError>
    ensures { IfOk result (λ known. known_records known.items ≡ map field_shapes (map record_tree records.now)) }
{
    let mut known = Vec::new(alloc);
    for i in 0..records.len() {
        known.push(known_record(alloc, &records[i])?)?;
    }
    Ok(known)
}

fn known_record(alloc: Global, declared: &Record) -> Result<KnownRecord, AllocError>
    ensures { IfOk result (λ known. known_fields known ≡ field_shapes (record_tree declared.now)) }
{
    let fields = shapes_of_fields(alloc, &declared.fields.items)?;
    Ok(KnownRecord { fields })
}

/// The shapes of the fields' types.
fn shapes_of_fields(alloc: Global, fields: &[FieldDecl]) -> Result<Vec<FlatShape>, AllocError>
    ensures { IfOk result (λ shapes. flat_shapes shapes.items ≡ map (λ f. type_shape (type_tree f.ty)) fields.now) }
{
    let mut shapes = Vec::new(alloc);
    for i in 0..fields.len() {
        shapes.push(FlatShape::of_type(&fields[i].ty)?)?;
    }
    Ok(shapes)
}

/// Adds the shapes of the functions in order, or stops at the first of which something is told.
pub(crate) fn add_heads(
    alloc: Global,
    known: &mut Known,
    functions: &[Function],
) -> Result<(), Stop>
    ensures { let given = known_functions_told known.old (map function_tree functions.now) in MatchResult result
        (λ _. given ≡ Ok (heads_shapes known.new.heads.items)) (IsTold given) }
{
    for i in 0..functions.len() {
        let head = head_of(alloc, known, &functions[i])?;
        known.heads.push(head)?;
    }
    Ok(())
}

/// The shapes of a function, or what is told of it.
fn head_of(alloc: Global, known: &mut Known, function: &Function) -> Result<Head, Stop>
    ensures found { let given = known_function_told known.old (function_tree function.now) in MatchResult result
        (λ head. given ≡ Ok (head_shapes head)) (IsTold given) }
    ensures records { IfOk result (λ _. known.new.records.items ≡ known.old.records.items) }
    ensures heads { IfOk result (λ _. known.new.heads.items ≡ known.old.heads.items) }
{
    let number = known.heads.len();
    let params = note_shapes(alloc, &function.params.items)?;
    let body = body_shape(alloc, known, &params, function)?;
    let rule = of_result(&function.result, body)?;
    let result = at_node(number, function.at, rule)?;
    Ok(Head { params, result })
}

/// The shape of the body, or what is told of it, if the parameters have these shapes.
fn body_shape(
    alloc: Global,
    known: &mut Known,
    params: &[FlatShape],
    declared: &Function,
) -> Result<FlatShape, Stop>
    requires params { flat_shapes params.now ≡ map note_shape (function_tree declared.now).params }
    ensures found { IsFound result
        (told (length (heads_shapes known.old.heads.items)) (known_records known.old.records.items)
        (heads_shapes known.old.heads.items ++ own_shapes (function_tree declared.now))
        (map note_shape (function_tree declared.now).params) (expr_tree declared.now.body)) }
    ensures records { IfOk result (λ _. known.new.records.items ≡ known.old.records.items) }
    ensures heads { IfOk result (λ _. known.new.heads.items ≡ known.old.heads.items) }
{
    let function = known.heads.len();
    let mut scope = copied(alloc, params)?;
    match own_head(alloc, params, declared)? {
        None => shape_of(
            &Body {
                alloc,
                known,
                function,
            },
            &mut scope,
            &declared.body,
        ),
        Some(own) => {
            known.heads.push(own)?;
            let shape = shape_of(
                &Body {
                    alloc,
                    known,
                    function,
                },
                &mut scope,
                &declared.body,
            )?;
            known.heads.pop();
            Ok(shape)
        }
    }
}

/// The shapes at which a `rec` function may be called in its own body.
fn own_head(
    alloc: Global,
    params: &[FlatShape],
    function: &Function,
) -> Result<Option<Head>, AllocError>
    requires params { flat_shapes params.now ≡ map note_shape (function_tree function.now).params }
    ensures { IfOk result (λ own. map head_shapes (option_to_list own) ≡ own_shapes (function_tree function.now)) }
{
    if !function.recursive {
        return Ok(None);
    }
    match &function.result {
        None => Ok(None),
        Some(note) => {
            let params = copied(alloc, params)?;
            let result = FlatShape::of_note(note)?;
            Ok(Some(Head { params, result }))
        }
    }
}

/// The shape of the body, if it is that of the result's note or no note is written.
fn of_result(
    note: &Option<Note>,
    body: FlatShape,
) -> Result<Result<FlatShape, Mismatch>, AllocError>
    ensures { IfOk result (λ given. rule_result given ≡ of_result (result_tree note.now) (flat_shape body)) }
{
    match note {
        None => Ok(Ok(body)),
        Some(note) => Ok(of_note(FlatShape::of_note(note)?, body)),
    }
}

/// The shape of the body, if it is this one of the result's note.
fn of_note(note: FlatShape, body: FlatShape) -> Result<FlatShape, Mismatch>
    ensures { rule_result result ≡ whole_if (same_shape (flat_shape body) (flat_shape note)) (flat_shape body)
        (unequal asks.ResultNote (flat_shape body) (flat_shape note)) }
{
    if body.same(note) {
        return Ok(body);
    }
    Err(Mismatch::Unequal(Rule::ResultNote, body, note))
}

/// The shapes of the notes.
fn note_shapes(alloc: Global, notes: &[Note]) -> Result<Vec<FlatShape>, AllocError>
    ensures { IfOk result (λ shapes. flat_shapes shapes.items ≡ map note_shape (map note_tree notes.now)) }
{
    let mut shapes = Vec::new(alloc);
    for i in 0..notes.len() {
        shapes.push(FlatShape::of_note(&notes[i])?)?;
    }
    Ok(shapes)
}

/// The same shapes, in memory of their own.
fn copied(alloc: Global, shapes: &[FlatShape]) -> Result<Vec<FlatShape>, AllocError>
    ensures { IfOk result (λ copy. copy.items ≡ shapes.now) }
{
    shapes.to_vec(alloc)
}
