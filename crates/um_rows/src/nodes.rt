//! The types of nodes, which a walk over a body keeps if it is asked to.

ghost use Rattle.std.specs.Prelude.{◌≡◌, ◌++◌, IfOk, IfErr, OnOk, map, true};
ghost use Rattle.um_tree.specs.TypeTree.{type_tree};
ghost use Rattle.um_rows.specs.NodeTypes.{typed_node};
ghost use Rattle.um_rows.specs.Kept.{kept};
ghost use Rattle.um_equal_types.specs.declared.row.RowStop.TheVariants.{NoMemory};

use std::alloc::Global;
use um_equal_types::{RowStop, Rows};
use um_slots::copied;
use um_tree::Ty;

/// The type of the node at a place of the text, over slots.
#[derive(Drop)]
pub struct NodeType {
    pub at: u32,
    pub ty: Ty,
}

/// The types of nodes, each after those of its parts.
#[derive(Drop)]
pub struct NodeTypes {
    pub items: Vec<NodeType>,
}

/// The equations of a function with the types of its body's nodes, over the same slots.
#[derive(Drop)]
pub struct TypedRows {
    pub rows: Rows,
    pub nodes: NodeTypes,
}

/// Pushes a copy of the type of the node at the place.
fn push_node(alloc: Global, at: u32, ty: &Ty, nodes: &mut Vec<NodeType>) -> Result<(), RowStop>
    ensures pushed { OnOk result (map typed_node nodes.new.items
        ≡ map typed_node nodes.old.items ++ kept true at (type_tree ty.now)) }
    ensures memory { IfErr result (λ stop. stop ≡ NoMemory) }
{
    let ty = copied(alloc, ty)?;
    nodes.push(NodeType { at, ty })?;
    Ok(())
}

/// Keeps the type of the node at the place if that is asked for, and gives it back.
pub(crate) fn keep(
    alloc: Global,
    asked: bool,
    at: u32,
    ty: Ty,
    nodes: &mut Vec<NodeType>,
) -> Result<Ty, RowStop>
    ensures same { IfOk result (λ t. t ≡ ty) }
    ensures memory { IfErr result (λ stop. stop ≡ NoMemory) }
    ensures kept { IfOk result (λ _. map typed_node nodes.new.items
        ≡ map typed_node nodes.old.items ++ kept asked at (type_tree ty)) }
{
    if !asked {
        return Ok(ty);
    }
    match push_node(alloc, at, &ty, nodes) {
        Ok(()) => Ok(ty),
        Err(stop) => {
            drop(ty);
            Err(stop)
        }
    }
}
