//! What is known of an image's records and functions when its code is looked at.
ghost use Rattle.std.specs.Prelude.{◌≡◌, ◌≤◌, ◌&&◌, nat_le, option_map, slice_get};
ghost use Rattle.um_tree.specs.Heights.{greatest_height};

use um_stacks::{FlatShape, Item};
use um_tree::GREATEST_HEIGHT;

/// The shapes of a record's fields, and its own height through them.
#[derive(Drop)]
pub(crate) struct KnownRecord {
    pub(crate) fields: Vec<FlatShape>,
    pub(crate) height: u32,
    ghost some: { 1 ≤ height },
    ghost few: { height ≤ 401 },
}

/// The shapes of a function's parameters and of its result.
#[derive(Drop)]
pub(crate) struct KnownHead {
    pub(crate) params: Vec<FlatShape>,
    pub(crate) result: FlatShape,
}

/// The shapes of an image's records and functions, by their numbers.
#[derive(Drop)]
pub(crate) struct Known {
    pub(crate) records: Vec<KnownRecord>,
    pub(crate) heads: Vec<KnownHead>,
}

impl Known {
    ghost use Rattle.std.specs.List.{list_all};
    ghost use Rattle.um_machine.specs.Stack.{on_found};
    ghost use Rattle.um_verify.specs.StackShape.{StackShape, stack_height};
    ghost use Rattle.um_verify.specs.Rules.{Flow, fails, fields_of};
    ghost use Rattle.um_stacks.specs.FlatShapes.{item_shape, flat_shape, flat_shapes};
    ghost use Rattle.um_verifier.specs.KnownImages.{known_fields, known_heights, admits, highest, part_flow};

    fn item_height(&self, item: Item) -> u32
        ensures height { result ≡ stack_height (known_heights self.now) (item_shape item) }
        ensures some { 1 ≤ result }
        ensures few { result ≤ 401 }
    {
        match item {
            Item::Void => 1,
            Item::Bool => 1,
            Item::Num => 1,
            Item::Record(r) => match self.records.get(r as usize) {
                None => 1,
                Some(known) => known.height,
            },
        }
    }

    /// The height of a shape, through the fields of records.
    fn height(&self, shape: FlatShape) -> u32
        ensures { result ≡ stack_height (known_heights self.now) (flat_shape shape) }
    {
        shape.lists + self.item_height(shape.item)
    }

    /// The greatest of the heights.
    pub(crate) fn highest(&self, shapes: &[FlatShape]) -> u32
        ensures { result ≡ highest (known_heights self.now) (flat_shapes shapes.now) }
    {
        let mut top: u32 = 0;
        for i in (0..shapes.len()).rev() {
            top = top.max(self.height(shapes[i]));
        }
        top
    }

    /// Whether the shape is at most 400 high, through the fields of records.
    pub(crate) fn is_low(&self, shape: FlatShape) -> bool
        ensures { result ≡ nat_le (stack_height (known_heights self.now) (flat_shape shape)) greatest_height }
    {
        self.height(shape) <= GREATEST_HEIGHT
    }

    /// Whether the shape is one over these records, and at most 400 high.
    pub(crate) fn admits(&self, shape: FlatShape) -> bool
        ensures { result ≡ admits self.now (flat_shape shape) }
    {
        shape.names_below(self.records.len()) && self.is_low(shape)
    }

    /// Whether each is.
    pub(crate) fn admits_all(&self, shapes: &[FlatShape]) -> bool
        ensures { result ≡ list_all (admits self.now) (flat_shapes shapes.now) }
    {
        for i in 0..shapes.len() {
            if !self.admits(shapes[i]) {
                return false;
            }
        }
        true
    }

    /// Whether both are low.
    pub(crate) fn are_low(&self, a: FlatShape, b: FlatShape) -> bool
        ensures { result ≡ (nat_le (stack_height (known_heights self.now) (flat_shape a)) greatest_height && nat_le
            (stack_height (known_heights self.now) (flat_shape b)) greatest_height) }
    {
        self.is_low(a) && self.is_low(b)
    }

    /// The shape of part `k` of a value of this shape, if it is a record's or that of no value.
    pub(crate) fn part(&self, shape: FlatShape, k: u32) -> Option<FlatShape>
        ensures { (go : StackShape → Flow) → part_flow (known_fields self.now) (flat_shape shape) k go
            ≡ on_found (option_map flat_shape result) fails go }
    {
        if shape.lists > 0 {
            return None;
        }
        match shape.item {
            Item::Void => Some(shape),
            Item::Bool => None,
            Item::Num => None,
            Item::Record(r) => self.field(r, k),
        }
    }

    fn field(&self, r: u32, k: u32) -> Option<FlatShape>
        ensures { option_map flat_shape result ≡ slice_get (fields_of (slice_get (known_fields self.now) r)) k }
    {
        if self.records.len() <= r as usize {
            return None;
        }
        let fields: &[FlatShape] = &self.records[r as usize].fields;
        if fields.len() <= k as usize {
            return None;
        }
        Some(fields[k as usize])
    }
}
