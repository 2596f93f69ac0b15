//! The texts of schemes.
ghost use Rattle.std.specs.Prelude.{◌≡◌, ◌++◌, IfOk, OnOk, codes, map};
ghost use Rattle.std.specs.List.{flat_map};
ghost use Rattle.um_tree.specs.TypeTree.{type_tree};
ghost use Rattle.um_tree.specs.ProgramTree.{program_tree, scheme_tree};
ghost use Rattle.um_show.specs.SchemeText.{type_text, scheme_text};

use crate::printed_type::push_type;
use std::alloc::{AllocError, Global};
use um_tree::{Name, Program, Scheme, Ty};
use um_units::NoMemory;

/// The text of a function's scheme: the name, ` : `, and the types of the parameters and the result with ` -> `
/// between.
///
/// `NoMemory` is its one error. The form is this project's own.
pub fn scheme_text(
    alloc: Global,
    name: &Name,
    scheme: &Scheme,
    program: &Program,
) -> Result<Vec<u8>, NoMemory>
    ensures { IfOk result (λ text. text.items
        ≡ scheme_text (program_tree program.now) name.now (scheme_tree scheme.now)) }
{
    let mut text = name.as_slice().to_vec(alloc)?;
    text.extend_from_slice(b" : ")?;
    push_params(alloc, &mut text, program, &scheme.params.items)?;
    push_type(alloc, &mut text, program, &scheme.result)?;
    Ok(text)
}

/// Adds the types of parameters, an arrow after each.
fn push_params(
    alloc: Global,
    text: &mut Vec<u8>,
    program: &Program,
    params: &[Ty],
) -> Result<(), AllocError>
    ensures { OnOk result (text.new.items ≡ text.old.items
        ++ flat_map (λ t. type_text (program_tree program.now) t ++ codes " -> ") (map type_tree params.now)) }
{
    for ty in params {
        push_type(alloc, text, program, ty)?;
        text.extend_from_slice(b" -> ")?;
    }
    Ok(())
}
