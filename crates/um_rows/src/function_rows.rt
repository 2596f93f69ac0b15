//! The equations of a function of a program.

ghost use Rattle.std.specs.Prelude.{◌≡◌, ◌<◌, IfOk, IfErr, length, map};
ghost use Rattle.um_tree.specs.ProgramTree.{program_tree, scheme_tree};
ghost use Rattle.um_rows.specs.Answers.{AreRowsOf, RowsStopFor, HaveVariablesBelow, TypingsAreSolutionsOf};
ghost use Rattle.um_rows.specs.NodeTypes.{AreNodesOf};

use crate::equations::{equations, typed_equations};
use crate::nodes::TypedRows;
use std::alloc::Global;
use um_equal_types::{RowStop, Rows};
use um_shape::Shaped;
use um_slots::Definition;
use um_tree::Schemes;

/// The equations of function `i`, over its slots, given schemes of the functions before it.
///
/// The rows come in the order of the walk: those of a node after those of its parts, and at last the body against the
/// note of the result (Kennedy 1996). `Slots` comes exactly if there are more than 2,000; otherwise `Range` comes
/// exactly if a power is outside -2147483647..2147483647, at the first such node or row. If each scheme's instances are
/// exactly the typings of its function, the loose typings of function `i` are exactly what the joint solutions of the
/// rows give, and its rigid typings what those give in which slot `k` of each unit parameter `k` has the base unit
/// `bases + k`.
pub fn rows(alloc: Global, shaped: &Shaped, i: u32, schemes: &Schemes) -> Result<Rows, RowStop>
    requires function { i < length (program_tree shaped.now).functions }
    requires schemes { HaveVariablesBelow i (map scheme_tree schemes.now.items.items) }
    ensures equations { IfOk result (AreRowsOf (program_tree shaped.now) (map scheme_tree schemes.now.items.items) i) }
    ensures stops { IfErr result (RowsStopFor (program_tree shaped.now) (map scheme_tree schemes.now.items.items) i) }
    ensures typings { IfOk result (TypingsAreSolutionsOf (program_tree shaped.now)
        (map scheme_tree schemes.now.items.items) i) }
{
    let program = shaped.program();
    let function = &program.functions.items[i as usize];
    let definition = Definition {
        at: function.at,
        recursive: function.recursive,
        units: function.units,
        params: &function.params.items,
        result: &function.result,
        body: &function.body,
    };
    equations(
        alloc,
        &program.records.items,
        &schemes.items,
        i,
        &definition,
    )
}

/// The equations of function `i` as `rows` gives them, with the types of all nodes of its body over the same slots.
///
/// The nodes come in the order in which the rules are followed, each after its parts (Kennedy 1996, the inference of
/// units). The errors are those of `rows`.
pub fn typed_rows(
    alloc: Global,
    shaped: &Shaped,
    i: u32,
    schemes: &Schemes,
) -> Result<TypedRows, RowStop>
    requires function { i < length (program_tree shaped.now).functions }
    requires schemes { HaveVariablesBelow i (map scheme_tree schemes.now.items.items) }
    ensures equations { IfOk result (λ typed. AreRowsOf (program_tree shaped.now)
        (map scheme_tree schemes.now.items.items) i typed.rows) }
    ensures stops { IfErr result (RowsStopFor (program_tree shaped.now) (map scheme_tree schemes.now.items.items) i) }
    ensures nodes { IfOk result (λ typed. AreNodesOf (program_tree shaped.now)
        (map scheme_tree schemes.now.items.items) i typed.nodes) }
{
    let program = shaped.program();
    let function = &program.functions.items[i as usize];
    let definition = Definition {
        at: function.at,
        recursive: function.recursive,
        units: function.units,
        params: &function.params.items,
        result: &function.result,
        body: &function.body,
    };
    typed_equations(
        alloc,
        &program.records.items,
        &schemes.items,
        i,
        &definition,
        true,
    )
}
