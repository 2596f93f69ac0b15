//! What is known while a body is looked at: the records, and the functions that may be called.
ghost use Rattle.std.specs.Prelude.{◌≡◌, ◌<◌, slice_get};
ghost use Rattle.um_mismatch.specs.NodeRules.{of_field, of_call, of_record};
ghost use Rattle.um_mismatch.specs.FlatShapes.{flat_shape, flat_shapes, known_records, heads_shapes, rule_result};

use crate::flat::FlatShape;
use crate::kind::Kind;
use crate::mismatch::Mismatch;
use crate::rules::{Each, of_all, shape_at};

/// A record: the shapes of its fields.
#[derive(Drop)]
pub(crate) struct KnownRecord {
    pub(crate) fields: Vec<FlatShape>,
}

/// The shapes of a function's parameters and of its result.
#[derive(Drop)]
pub(crate) struct Head {
    pub(crate) params: Vec<FlatShape>,
    pub(crate) result: FlatShape,
}

/// The records, and the functions that may be called.
#[derive(Drop)]
pub(crate) struct Known {
    pub(crate) records: Vec<KnownRecord>,
    pub(crate) heads: Vec<Head>,
}

impl Known {
    /// The result of a call of function `f` with these arguments.
    pub(crate) fn call(&self, f: u32, arguments: &[FlatShape]) -> Result<FlatShape, Mismatch>
        ensures { rule_result result
            ≡ of_call f (slice_get (heads_shapes self.now.heads.items) f) (flat_shapes arguments.now) }
    {
        match self.heads.get(f as usize) {
            Some(head) => of_all(Each::Argument(f), head.result, &head.params, arguments),
            None => Err(Mismatch::Unformed),
        }
    }

    /// A value of record `r` with these parts.
    pub(crate) fn record(&self, r: u32, parts: &[FlatShape]) -> Result<FlatShape, Mismatch>
        ensures { rule_result result
            ≡ of_record r (slice_get (known_records self.now.records.items) r) (flat_shapes parts.now) }
    {
        match self.records.get(r as usize) {
            Some(record) => of_all(Each::Part(r), FlatShape::record(r), &record.fields, parts),
            None => Err(Mismatch::Unformed),
        }
    }

    /// Field `k` of a part that must be of record `r`.
    pub(crate) fn field(&self, r: u32, k: u32, part: FlatShape) -> Result<FlatShape, Mismatch>
        ensures { rule_result result
            ≡ of_field r k (slice_get (known_records self.now.records.items) r) (flat_shape part) }
    {
        match self.records.get(r as usize) {
            Some(record) => {
                if !part.same(FlatShape::record(r)) {
                    return Err(Mismatch::Unexpected(Kind::Record(r), part));
                }
                shape_at(&record.fields, k)
            }
            None => Err(Mismatch::Unformed),
        }
    }
}
