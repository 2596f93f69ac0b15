//! The shapes of a function, as trees.
ghost use Rattle.std.specs.Prelude.{◌≡◌, IfOk, map};
ghost use Rattle.um_tree.specs.TypeTree.{shape_tree};
ghost use Rattle.um_shape.specs.FlatShapes.{flat_shapes, head_shapes, heads_shapes};
ghost use Rattle.um_shape.specs.Signatures.{signature_shapes, signatures_shapes};

use crate::flat::FlatShape;
use crate::known::Head;
use std::alloc::Global;
use um_tree::Shape;
use um_units::NoMemory;

/// The shapes of a function's parameters and of its result.
#[derive(Drop)]
pub(crate) struct Signature {
    pub(crate) params: Vec<Shape>,
    pub(crate) result: Shape,
}

/// The functions' shapes as trees.
pub(crate) fn signatures(alloc: Global, heads: &[Head]) -> Result<Vec<Signature>, NoMemory>
    ensures { IfOk result (λ all. signatures_shapes all.items ≡ heads_shapes heads.now) }
{
    let mut all = Vec::new(alloc);
    for i in 0..heads.len() {
        all.push(in_trees(alloc, &heads[i])?)?;
    }
    Ok(all)
}

fn in_trees(alloc: Global, head: &Head) -> Result<Signature, NoMemory>
    ensures { IfOk result (λ one. signature_shapes one ≡ head_shapes head.now) }
{
    let params = trees(alloc, &head.params)?;
    let result = head.result.to_shape(alloc)?;
    Ok(Signature { params, result })
}

fn trees(alloc: Global, shapes: &[FlatShape]) -> Result<Vec<Shape>, NoMemory>
    ensures { IfOk result (λ all. map shape_tree all.items ≡ flat_shapes shapes.now) }
{
    let mut all = Vec::new(alloc);
    all.reserve(shapes.len())?;
    for i in 0..shapes.len() {
        all.push(shapes[i].to_shape(alloc)?)?;
    }
    Ok(all)
}
