//! Inputs as expressions at the place 0, for the equations of a call.

ghost use Rattle.std.specs.Prelude.{◌≡◌, IfOk, Some, map, replicate, slice_get, slice_index_or};
ghost use Rattle.um_tree.specs.TypeTree.{type_tree, note_tree, shape_tree, bool_shape};
ghost use Rattle.um_tree.specs.ExprTree.{call, expr_tree, in_order};
ghost use Rattle.um_tree.specs.ValueTree.{input_tree, input_trees, inputs_in_order};
ghost use Rattle.um_tree.specs.ProgramTree.{record_tree};
ghost use Rattle.um_tree.specs.Shapes.{type_shape as shape_of_type, note_shape as shape_of_note};
ghost use Rattle.um_tree.specs.declared.note.UnitNote.TheVariants.{Hole};
ghost use Rattle.um_slots.specs.CallFunction.{open_note as note_left_open, item_shape as shape_of_items, list_of};
ghost use Rattle.um_slots.specs.CallFunction.{field_shapes as shapes_of_fields, input_text, item_texts, input_texts};

use std::alloc::{AllocError, Global};
use um_tree::{Expr, Exprs, Input, Inputs, Node, Note, Record, Shape, Ty, UnitNote, UnitNotes};
use um_uses::record_units;

/// So many holes.
fn holes(alloc: Global, many: usize) -> Result<UnitNotes, AllocError>
    ensures { IfOk result (λ notes. notes.items.items ≡ replicate many Hole) }
{
    let mut items = Vec::new(alloc);
    for _ in 0..many {
        items.push(UnitNote::Hole)?;
    }
    Ok(UnitNotes { items })
}

/// The shape as a note, with a hole for each unit.
fn open_note(alloc: Global, records: &[Record], shape: &Shape) -> Result<Note, AllocError>
    ensures { IfOk result (λ note. note_tree note ≡ note_left_open (map record_tree records.now) (shape_tree
        shape.now)) }
{
    match shape {
        Shape::Bool => Ok(Note::Bool),
        Shape::Num => Ok(Note::Num(UnitNote::Hole)),
        Shape::List(item) => Ok(Note::List(Box::new(alloc, open_note(alloc, records, item)?)?)),
        Shape::Rec(r) => Ok(Note::Rec(*r, holes(alloc, record_units(records, *r))?)),
    }
}

/// The shape of a type.
fn type_shape(alloc: Global, ty: &Ty) -> Result<Shape, AllocError>
    ensures { IfOk result (λ shape. shape_tree shape ≡ shape_of_type (type_tree ty.now)) }
{
    match ty {
        Ty::Bool => Ok(Shape::Bool),
        Ty::Num(_) => Ok(Shape::Num),
        Ty::List(item) => Ok(Shape::List(Box::new(alloc, type_shape(alloc, item)?)?)),
        Ty::Rec(r, _) => Ok(Shape::Rec(*r)),
    }
}

/// The shape of a note.
fn note_shape(alloc: Global, note: &Note) -> Result<Shape, AllocError>
    ensures { IfOk result (λ shape. shape_tree shape ≡ shape_of_note (note_tree note.now)) }
{
    match note {
        Note::Bool => Ok(Shape::Bool),
        Note::Num(_) => Ok(Shape::Num),
        Note::List(item) => Ok(Shape::List(Box::new(alloc, note_shape(alloc, item)?)?)),
        Note::Rec(r, _) => Ok(Shape::Rec(*r)),
    }
}

/// The shapes of the record's fields.
fn field_shapes(alloc: Global, declared: &Record) -> Result<Vec<Shape>, AllocError>
    ensures { IfOk result (λ shapes. map shape_tree shapes.items ≡ shapes_of_fields (Some (record_tree declared.now))) }
{
    let mut shapes = Vec::new(alloc);
    for field in &declared.fields.items {
        shapes.push(type_shape(alloc, &field.ty)?)?;
    }
    Ok(shapes)
}

/// The shapes of the fields of record r, if there is one.
fn shapes_of(alloc: Global, records: &[Record], r: u32) -> Result<Vec<Shape>, AllocError>
    ensures { IfOk result (λ shapes. map shape_tree shapes.items
        ≡ shapes_of_fields (slice_get (map record_tree records.now) r)) }
{
    match records.get(r as usize) {
        Some(declared) => field_shapes(alloc, declared),
        None => Ok(Vec::new(alloc)),
    }
}

/// The shapes of parameters.
fn param_shapes(alloc: Global, params: &[Note]) -> Result<Vec<Shape>, AllocError>
    ensures { IfOk result (λ shapes. map shape_tree shapes.items ≡ map shape_of_note (map note_tree params.now)) }
{
    let mut shapes = Vec::new(alloc);
    for note in params {
        shapes.push(note_shape(alloc, note)?)?;
    }
    Ok(shapes)
}

/// An equal note.
fn copied_note(alloc: Global, note: &UnitNote) -> Result<UnitNote, AllocError>
    ensures { IfOk result (λ n. n ≡ note.now) }
{
    match note {
        UnitNote::Hole => Ok(UnitNote::Hole),
        UnitNote::Written(unit) => Ok(UnitNote::Written(unit.copy(alloc)?)),
    }
}

/// The shape of a list's items, and `bool` if the shape isn't a list.
fn item_shape<'a>(shape: &'a Shape, truth: &'a Shape) -> &'a Shape
    requires { shape_tree truth.now ≡ bool_shape }
    ensures { shape_tree result.now ≡ shape_of_items (shape_tree shape.now) }
{
    match shape {
        Shape::List(item) => item,
        Shape::Bool | Shape::Num | Shape::Rec(_) => truth,
    }
}

/// The shape at this place, and `bool` past the end.
fn shape_at<'a>(shapes: &'a [Shape], k: usize, truth: &'a Shape) -> &'a Shape
    requires { shape_tree truth.now ≡ bool_shape }
    ensures { shape_tree result.now ≡ slice_index_or (map shape_tree shapes.now) k bool_shape }
{
    match shapes.get(k) {
        Some(shape) => shape,
        None => truth,
    }
}

/// The list of these items, which have the shape of the list's. A list without items is the empty list of its shape.
fn list_expr(
    alloc: Global,
    records: &[Record],
    items: Vec<Expr>,
    shape: &Shape,
) -> Result<Expr, AllocError>
    ensures { IfOk result (λ e. expr_tree e ≡ list_of
        (note_left_open (map record_tree records.now) (shape_tree shape.now)) (in_order (map expr_tree items.items))) }
{
    if items.is_empty() {
        let note = open_note(alloc, records, shape)?;
        return Ok(Expr {
            at: 0,
            node: Node::Nil(note),
        });
    }
    Ok(Expr {
        at: 0,
        node: Node::List(Exprs { items }),
    })
}

/// The input of the shape as an expression.
#[cycle(inputs)]
fn input_expr(
    alloc: Global,
    records: &[Record],
    input: &Input,
    shape: &Shape,
) -> Result<Expr, AllocError>
    ensures { IfOk result (λ e. expr_tree e ≡ input_text (map record_tree records.now) (shape_tree shape.now)
        (input_tree input.now)) }
{
    match input {
        Input::Bool(b) => Ok(Expr {
            at: 0,
            node: Node::Bool(*b),
        }),
        Input::Num(value, note) => {
            let note = copied_note(alloc, note)?;
            Ok(Expr {
                at: 0,
                node: Node::Num(*value, note),
            })
        }
        Input::List(items) => {
            let truth = Shape::Bool;
            let items = item_exprs(alloc, records, &items.items, item_shape(shape, &truth))?;
            list_expr(alloc, records, items, shape)
        }
        Input::Rec(r, parts) => {
            let shapes = shapes_of(alloc, records, *r)?;
            let items = input_exprs(alloc, records, &parts.items, &shapes)?;
            Ok(Expr {
                at: 0,
                node: Node::Rec(*r, Exprs { items }),
            })
        }
    }
}

/// Inputs of one shape as expressions.
#[cycle(inputs)]
fn item_exprs(
    alloc: Global,
    records: &[Record],
    inputs: &[Input],
    shape: &Shape,
) -> Result<Vec<Expr>, AllocError>
    ensures { IfOk result (λ es. in_order (map expr_tree es.items)
        ≡ item_texts (map record_tree records.now) (shape_tree shape.now)
        (inputs_in_order (map input_tree inputs.now))) }
{
    let mut items = Vec::new(alloc);
    for i in 0..inputs.len() {
        items.push(input_expr(alloc, records, &inputs[i], shape)?)?;
    }
    Ok(items)
}

/// Inputs of these shapes as expressions.
#[cycle(inputs)]
fn input_exprs(
    alloc: Global,
    records: &[Record],
    inputs: &[Input],
    shapes: &[Shape],
) -> Result<Vec<Expr>, AllocError>
    ensures { IfOk result (λ es. in_order (map expr_tree es.items)
        ≡ input_texts (map record_tree records.now) (map shape_tree shapes.now)
        (inputs_in_order (map input_tree inputs.now))) }
{
    let mut items = Vec::new(alloc);
    for i in 0..inputs.len() {
        let truth = Shape::Bool;
        items.push(input_expr(alloc, records, &inputs[i], shape_at(shapes, i, &truth))?)?;
    }
    Ok(items)
}

/// The inputs of a call, which have these shapes, as expressions at the place 0.
fn exprs_of(
    alloc: Global,
    records: &[Record],
    inputs: &Inputs,
    shapes: &[Shape],
) -> Result<Vec<Expr>, AllocError>
    ensures { IfOk result (λ es. in_order (map expr_tree es.items)
        ≡ input_texts (map record_tree records.now) (map shape_tree shapes.now) (input_trees inputs.now)) }
{
    input_exprs(alloc, records, &inputs.items, shapes)
}

/// A call of function `f` on these arguments, at the place 0.
fn call_on(f: u32, items: Vec<Expr>) -> Expr
    ensures { expr_tree result ≡ call 0 f (in_order (map expr_tree items.items)) }
{
    Expr {
        at: 0,
        node: Node::Call(f, Exprs { items }),
    }
}

/// A call of function `f`, which has these parameters, on the inputs, as an expression at the place 0. A list without
/// items is the empty list of its shape, with a hole for each unit. `AllocError` is the one error.
pub fn call_of(
    alloc: Global,
    records: &[Record],
    f: u32,
    params: &[Note],
    inputs: &Inputs,
) -> Result<Expr, AllocError>
    ensures { IfOk result (λ e. expr_tree e ≡ call 0 f (input_texts (map record_tree records.now)
        (map shape_of_note (map note_tree params.now)) (input_trees inputs.now))) }
{
    let shapes = param_shapes(alloc, params)?;
    let items = exprs_of(alloc, records, inputs, &shapes)?;
    Ok(call_on(f, items))
}
