//! What is found at a node, from what is known of the records and functions that it names.
ghost use Rattle.std.specs.Prelude.{◌≡◌, ◌<◌, ◌≤◌, slice_get};
ghost use Rattle.std.specs.Option.{option_map};
ghost use Rattle.um_tree.specs.Heights.{greatest_height};
ghost use Rattle.um_shape.specs.RecordShapes.{shape_height};
ghost use Rattle.um_shape.specs.FirstFault.{at_node, same_shapes, all_same, of_items, of_call, of_record, of_field};
ghost use Rattle.um_shape.specs.FlatShapes.{item_shape, flat_shape, flat_shapes, known_records, heads_shapes};
ghost use Rattle.um_shape.specs.Stops.{IsFound};

use crate::ShapeStop;
use crate::flat::{FlatShape, Item};
use crate::known::{Known, KnownRecord};
use um_tree::GREATEST_HEIGHT;

/// The height of an item over these records.
fn item_height(records: &[KnownRecord], item: Item) -> u32
    ensures height { result ≡ shape_height (known_records records.now) (item_shape item) }
    ensures some { 1 ≤ result }
    ensures low { result ≤ greatest_height }
{
    match item {
        Item::Bool | Item::Num => 1,
        Item::Rec(r) => match records.get(r as usize) {
            Some(record) => record.height,
            None => 1,
        },
    }
}

/// The height of a shape over these records.
pub(crate) fn height(records: &[KnownRecord], shape: FlatShape) -> u32
    ensures height { result ≡ shape_height (known_records records.now) (flat_shape shape) }
    ensures lists { shape.lists < result }
{
    shape.lists + item_height(records, shape.item)
}

/// The k-th of some shapes.
pub(crate) fn shape_at(shapes: &[FlatShape], k: u32) -> Option<FlatShape>
    ensures { option_map flat_shape result ≡ slice_get (flat_shapes shapes.now) k }
{
    shapes.get(k as usize).copied()
}

/// Whether the shapes are the same, one by one.
fn same_each(shapes: &[FlatShape], others: &[FlatShape]) -> bool
    ensures { result ≡ same_shapes (flat_shapes shapes.now) (flat_shapes others.now) }
{
    if shapes.len() != others.len() {
        return false;
    }
    for i in 0..shapes.len() {
        if !shapes[i].same(others[i]) {
            return false;
        }
    }
    true
}

/// Whether each of the items has this shape.
fn all_same(shape: FlatShape, items: &[FlatShape]) -> bool
    ensures { result ≡ all_same (flat_shape shape) (flat_shapes items.now) }
{
    items.iter().all(|item| item.same(shape))
}

impl Known {
    /// What is found at a node whose rule gives this: a shape that is no taller than 400.
    pub(crate) fn at_node(&self, at: u32, rule: Option<FlatShape>) -> Result<FlatShape, ShapeStop>
        ensures { IsFound result (at_node (known_records self.now.records.items) at (option_map flat_shape rule)) }
    {
        let Some(shape) = rule else {
            return Err(ShapeStop::Shape { at });
        };
        if height(&self.records, shape) > GREATEST_HEIGHT {
            return Err(ShapeStop::Depth { at });
        }
        Ok(shape)
    }

    /// What is found at a list of these items.
    pub(crate) fn at_list(&self, at: u32, items: &[FlatShape]) -> Result<FlatShape, ShapeStop>
        ensures { IsFound result
            (at_node (known_records self.now.records.items) at (of_items (flat_shapes items.now))) }
    {
        let Some((first, rest)) = items.split_first() else {
            return Err(ShapeStop::Shape { at });
        };
        if !all_same(*first, rest) {
            return Err(ShapeStop::Shape { at });
        }
        if height(&self.records, *first) >= GREATEST_HEIGHT {
            return Err(ShapeStop::Depth { at });
        }
        Ok(FlatShape {
            lists: first.lists + 1,
            item: first.item,
        })
    }

    /// The result of a call of function `f` at these arguments.
    pub(crate) fn call(&self, f: u32, arguments: &[FlatShape]) -> Option<FlatShape>
        ensures { option_map flat_shape result
            ≡ of_call (slice_get (heads_shapes self.now.heads.items) f) (flat_shapes arguments.now) }
    {
        let head = self.heads.get(f as usize)?;
        same_each(arguments, &head.params).then_some(head.result)
    }

    /// A value of record `r` with these parts.
    pub(crate) fn record(&self, r: u32, parts: &[FlatShape]) -> Option<FlatShape>
        ensures { option_map flat_shape result
            ≡ of_record (slice_get (known_records self.now.records.items) r) r (flat_shapes parts.now) }
    {
        let record = self.records.get(r as usize)?;
        same_each(parts, &record.fields).then_some(FlatShape::record(r))
    }

    /// Field `k` of a part that is of record `r`.
    pub(crate) fn field(&self, r: u32, k: u32, part: FlatShape) -> Option<FlatShape>
        ensures { option_map flat_shape result
            ≡ of_field (slice_get (known_records self.now.records.items) r) r k (flat_shape part) }
    {
        let record = self.records.get(r as usize)?;
        if !part.same(FlatShape::record(r)) {
            return None;
        }
        shape_at(&record.fields, k)
    }
}
