//! The types of a function's nodes.
ghost use Rattle.std.specs.Prelude.{ℕ, List, ◌≡◌, ◌<◌, ◌≤◌, ◌+◌, ◌^◌, ◌++◌, All, IfOk, OnOk, MatchResult, false};
ghost use Rattle.std.specs.Prelude.{length, map, slice_get, Some, None, [], ◌∷◌, drop};
ghost use Rattle.um_units.specs.PowerMap.{nth};
ghost use Rattle.um_tree.specs.TypeTree.{type_tree, type_trees};
ghost use Rattle.um_tree.specs.ProgramTree.{FunctionTree, SchemeTree, program_tree};
ghost use Rattle.um_tree.specs.Formed.{IsFormed};
ghost use Rattle.um_tree.specs.Typing.{put};
ghost use Rattle.um_tree.specs.Scheme.{variables};
ghost use Rattle.um_elim.specs.Numbering.{renumbered};
ghost use Rattle.um_rows.specs.NodeTypes.{typed_node, typed_nodes};
ghost use Rattle.um_infer.specs.Inference.{all_schemes, infer};
ghost use Rattle.um_infer.specs.SolvedPrograms.{IsSolvedAt};
ghost use Rattle.um_annot.specs.TextOrder.{in_text_order};
ghost use Rattle.um_annot.specs.Annotated.{annotation, by_heads, first_past, node_types, general};
ghost use Rattle.um_annot.specs.Answers.{IsAnnotated, StopsAt, node_at, solved_nodes, retyped};
ghost use Rattle.um_annot.specs.Placing.{AreNumbersOf, placed_nodes};

use crate::AnnotStop;
use crate::order::{Placed, text_order};
use std::alloc::{AllocError, Global};
use std::mem;
use um_elim::{ElimStop, Numbered, Solver, renumber};
use um_infer::{SolvedFunction, general_types, signature_by};
use um_rows::NodeType;
use um_shape::Shaped;
use um_tree::{Ty, Types};

/// What is known of a function: its number of unit parameters, the place of its name, the number of base units, and
/// its number of slots.
#[derive(Clone, Copy)]
struct Head {
    parameters: u32,
    at: u32,
    bases: u32,
    slots: u32,
}

/// Puts the types of all nodes of the body of function `i` at the nodes, in the order of the text. What `infer_solved`
/// gave for the function is handed in.
///
/// The nodes have types over slots: the solution of all rows is put in, unit parameters become variables, and variables
/// are numbered by their first occurrence in one list: the parameters, the result, and then the nodes (Kennedy 1996).
/// The numbering is this project's own. PowerRange comes exactly if a power of a node's type is out of range, and has
/// the place of the first such node in the order of the text.
pub fn annotated(
    alloc: Global,
    shaped: &Shaped,
    i: u32,
    solved: &mut SolvedFunction,
) -> Result<(), AnnotStop>
    requires function { i < length (program_tree shaped.now).functions }
    requires solved { (schemes : List SchemeTree) × (infer (program_tree shaped.now) ≡ all_schemes schemes)
        × IsSolvedAt (program_tree shaped.now) schemes i solved.old }
    ensures { (schemes : List SchemeTree) (f : FunctionTree) → infer (program_tree shaped.now) ≡ all_schemes schemes
        → slice_get (program_tree shaped.now).functions i ≡ Some f
        → IsAnnotated (annotation (length (program_tree shaped.now).bases) (program_tree shaped.now).records schemes i
        f) (typed_nodes solved.new.typed.nodes) result }
{
    let head = head_of(shaped, i, solved.typed.rows.slots);
    match signature_by(alloc, &solved.solver, &solved.typed.rows, head.at) {
        Ok(types) => annotated_with(
            alloc,
            head,
            &solved.solver,
            types,
            &mut solved.typed.nodes.items,
        ),
        Err(_) => Err(AnnotStop::NoMemory),
    }
}

/// What is known of function `i`, which has so many slots.
fn head_of(shaped: &Shaped, i: u32, slots: u32) -> Head
    requires { i < length (program_tree shaped.now).functions }
    ensures function { (f : FunctionTree) → slice_get (program_tree shaped.now).functions i ≡ Some f
        → (result.parameters ≡ f.units) × (result.at ≡ f.at) }
    ensures bases { result.bases ≡ length (program_tree shaped.now).bases }
    ensures few { result.bases ≤ 16777216 }
    ensures slots { result.slots ≡ slots }
    ensures formed { IsFormed (program_tree shaped.now) }
{
    let program = shaped.program();
    let function = &program.functions.items[i as usize];
    Head {
        parameters: function.units,
        at: function.at,
        bases: program.bases.as_slice().len() as u32,
        slots,
    }
}

/// The nodes in the order of the text, with their types by the solver and the solved types of the function.
fn annotated_with(
    alloc: Global,
    head: Head,
    solver: &Solver,
    types: Types,
    nodes: &mut Vec<NodeType>,
) -> Result<(), AnnotStop>
    requires unspent { solver.now.spent ≡ false }
    requires slots { head.slots + head.parameters < 4294967295 }
    requires bases { head.bases + head.parameters < 2 ^ 32 }
    requires types { All (λ k. k < head.slots) (variables (type_trees types)) }
    requires nodes { All (λ k. k < head.slots) (variables (node_types (solved_nodes solver.now.units
        (map typed_node nodes.old.items)))) }
    ensures { IsAnnotated (by_heads head.bases head.parameters head.slots (type_trees types)
        (solved_nodes solver.now.units (in_text_order (map typed_node nodes.old.items))))
        (map typed_node nodes.new.items) result }
{
    match text_order(alloc, nodes) {
        Ok(order) => annotated_in_order(alloc, head, solver, types, &order, nodes),
        Err(_) => {
            drop(types);
            Err(AnnotStop::NoMemory)
        }
    }
}

/// The nodes in this order, with their types by the solver and the solved types of the function.
fn annotated_in_order(
    alloc: Global,
    head: Head,
    solver: &Solver,
    types: Types,
    order: &[Placed],
    nodes: &mut Vec<NodeType>,
) -> Result<(), AnnotStop>
    requires unspent { solver.now.spent ≡ false }
    requires numbers { AreNumbersOf nodes.old.items order.now }
    requires slots { head.slots + head.parameters < 4294967295 }
    requires bases { head.bases + head.parameters < 2 ^ 32 }
    requires types { All (λ k. k < head.slots) (variables (type_trees types)) }
    requires nodes { All (λ k. k < head.slots) (variables (node_types (solved_nodes solver.now.units
        (placed_nodes nodes.old.items order.now)))) }
    ensures { IsAnnotated (by_heads head.bases head.parameters head.slots (type_trees types)
        (solved_nodes solver.now.units (placed_nodes nodes.old.items order.now)))
        (map typed_node nodes.new.items) result }
{
    match all_solved(alloc, solver, types, order, nodes) {
        Ok(types) => Ok(put_numbered(alloc, head, types, order, nodes)?),
        Err(stop) => Err(stop),
    }
}

/// The solved types, and after them those of the nodes in this order, which are taken out of the nodes.
fn all_solved(
    alloc: Global,
    solver: &Solver,
    types: Types,
    order: &[Placed],
    nodes: &mut Vec<NodeType>,
) -> Result<Types, AnnotStop>
    requires unspent { solver.now.spent ≡ false }
    requires numbers { AreNumbersOf nodes.old.items order.now }
    ensures count { length nodes.new.items ≡ length nodes.old.items }
    ensures solved { IfOk result (λ all. type_trees all ≡ type_trees types ++ node_types
        (solved_nodes solver.now.units (placed_nodes nodes.old.items order.now))) }
    ensures range { MatchResult result
        (λ _. first_past (solved_nodes solver.now.units (placed_nodes nodes.old.items order.now)) ≡ None)
        (StopsAt (first_past (solved_nodes solver.now.units (placed_nodes nodes.old.items order.now)))) }
{
    let mut types = types;
    match push_solved(alloc, solver, order, nodes, &mut types.items) {
        Ok(()) => Ok(types),
        Err(stop) => {
            drop(types);
            Err(stop)
        }
    }
}

/// Pushes the types of the nodes in this order, with the solution put for their slots. They are taken out of the nodes.
fn push_solved(
    alloc: Global,
    solver: &Solver,
    order: &[Placed],
    nodes: &mut Vec<NodeType>,
    types: &mut Vec<Ty>,
) -> Result<(), AnnotStop>
    requires unspent { solver.now.spent ≡ false }
    requires numbers { AreNumbersOf nodes.old.items order.now }
    ensures count { length nodes.new.items ≡ length nodes.old.items }
    ensures solved { OnOk result (map type_tree types.new.items ≡ map type_tree types.old.items ++ node_types
        (solved_nodes solver.now.units (placed_nodes nodes.old.items order.now))) }
    ensures range { MatchResult result
        (λ _. first_past (solved_nodes solver.now.units (placed_nodes nodes.old.items order.now)) ≡ None)
        (StopsAt (first_past (solved_nodes solver.now.units (placed_nodes nodes.old.items order.now)))) }
{
    types.reserve(order.len())?;
    for placed in order {
        let ty = mem::replace(&mut nodes[placed.node].ty, Ty::Bool);
        types.push(solved_type(alloc, solver, placed.at, ty)?)?;
    }
    Ok(())
}

/// The type of a node at this place, with the solution put for its slots.
fn solved_type(alloc: Global, solver: &Solver, at: u32, ty: Ty) -> Result<Ty, AnnotStop>
    requires { solver.now.spent ≡ false }
    ensures solved { IfOk result (λ t. type_tree t ≡ put (nth solver.now.units) (type_tree ty)) }
    ensures range { MatchResult result
        (λ _. first_past (solved_nodes solver.now.units (node_at at (type_tree ty) ∷ [])) ≡ None)
        (StopsAt (first_past (solved_nodes solver.now.units (node_at at (type_tree ty) ∷ [])))) }
{
    match solver.apply_to(alloc, ty) {
        Ok(solved) => Ok(solved),
        Err(ElimStop::Range) => Err(AnnotStop::PowerRange { at }),
        Err(ElimStop::NoMemory) => Err(AnnotStop::NoMemory),
        Err(ElimStop::NoSolution | ElimStop::Spent) => unreachable!(),
    }
}

/// Puts nodes in this order in place of the nodes, with the types that come after some types of the function: unit
/// parameters become variables, and all variables are numbered.
fn put_numbered(
    alloc: Global,
    head: Head,
    types: Types,
    order: &[Placed],
    nodes: &mut Vec<NodeType>,
) -> Result<(), AllocError>
    requires slots { head.slots + head.parameters < 4294967295 }
    requires bases { head.bases + head.parameters < 2 ^ 32 }
    requires variables { All (λ k. k < head.slots) (variables (type_trees types)) }
    requires nodes { length order.now ≡ length nodes.old.items }
    requires count { length order.now ≤ length types.items.items }
    ensures { OnOk result ((heads : ℕ) → length types.items.items ≡ heads + length order.now
        → map typed_node nodes.new.items ≡ retyped (placed_nodes [] order.now)
        (drop heads (renumbered (map (general head.bases head.parameters head.slots) (type_trees types))))) }
{
    let types = general_types(alloc, head.bases, head.parameters, head.slots, types)?;
    let Numbered { types, vars: _ } = renumber(alloc, types)?;
    put_types(order, nodes, types);
    Ok(())
}

/// Puts nodes with these places and with the last of the types in place of the nodes.
fn put_types(order: &[Placed], nodes: &mut Vec<NodeType>, mut types: Types)
    requires nodes { length order.now ≡ length nodes.old.items }
    requires count { length order.now ≤ length types.items.items }
    ensures { (heads : ℕ) → length types.items.items ≡ heads + length order.now
        → map typed_node nodes.new.items ≡ retyped (placed_nodes [] order.now) (drop heads (type_trees types)) }
{
    for i in (0..order.len()).rev() {
        match types.items.pop() {
            Some(ty) => {
                nodes[i] = NodeType {
                    at: order[i].at,
                    ty,
                };
            }
            None => unreachable!(),
        }
    }
    drop(types);
}
