//! The shapes of a whole program.
ghost use Rattle.std.specs.Prelude.{◌≡◌, IfOk, IfErr, MatchResult, Ok, None};
ghost use Rattle.um_tree.specs.ProgramTree.{program_tree};
ghost use Rattle.um_tree.specs.Formed.{IsFormed};
ghost use Rattle.um_shape.specs.FirstFault.{first_fault, program_found};
ghost use Rattle.um_shape.specs.FlatShapes.{heads_shapes};
ghost use Rattle.um_shape.specs.ShapedProgram.{IsRefusal};
ghost use Rattle.um_shape.specs.Stops.{IsFoundFault};

use crate::functions::add_heads;
use crate::known::{Head, Known};
use crate::records::known_records;
use crate::signature::signatures;
use crate::{ShapeStop, Shaped};
use std::alloc::Global;
use um_tree::Program;

/// The program with its shapes, or its first fault.
///
/// The records are looked at in order: Depth comes at the first one that is taller than 400. Then the functions are
/// looked at in order, each node after its parts from left to right. Depth comes at a function's name if a parameter's
/// shape is taller than 400, Shape at the first node whose parts don't have the shapes that it asks for, and Depth at
/// the first node whose own shape is taller than 400. At one node Shape is looked at first, and a `match` on what isn't
/// a list is refused before its arms. Shape comes at a function's name if the note of its result isn't of its body's
/// shape. A refusal hands nothing back. The rules are this project's own.
pub fn shape(alloc: Global, program: Program) -> Result<Shaped, ShapeStop>
    requires formed { IsFormed (program_tree program) }
    ensures program { IfOk result (λ shaped. shaped ≡ program) }
    ensures faultless { IfOk result (λ _. first_fault (program_tree program) ≡ None) }
    ensures refused { IfErr result (λ stop. IsRefusal (first_fault (program_tree program)) stop) }
{
    match heads_of(alloc, &program) {
        Ok(heads) => match signatures(alloc, &heads) {
            Ok(signatures) => {
                drop(heads);
                Ok(Shaped::new(program, signatures))
            }
            Err(error) => {
                drop(heads);
                program.discard();
                Err(ShapeStop::from(error))
            }
        },
        Err(stop) => {
            program.discard();
            Err(stop)
        }
    }
}

/// The shapes of the functions, or the first fault.
fn heads_of(alloc: Global, program: &Program) -> Result<Vec<Head>, ShapeStop>
    requires formed { IsFormed (program_tree program.now) }
    ensures { MatchResult result
        (λ heads. program_found (program_tree program.now) ≡ Ok (heads_shapes heads.items))
        (IsFoundFault (program_found (program_tree program.now))) }
{
    let records = known_records(alloc, &program.records.items)?;
    let mut known = Known {
        records,
        heads: Vec::new(alloc),
    };
    add_heads(alloc, &mut known, &program.functions.items)?;
    Ok(known.heads)
}
