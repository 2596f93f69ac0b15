//! Named variables that stand in types.

ghost use Rattle.std.specs.Prelude.{◌≡◌, ◌++◌, [], IfOk, OnOk, None, map, slice_index_or};
ghost use Rattle.um_tree.specs.TypeTree.{type_tree};
ghost use Rattle.um_unit_reasons.specs.VariableNames.{with_variable, named_from};
ghost use Rattle.um_unit_reasons.specs.TypeTexts.{named_types};

use crate::letters::written;
use std::alloc::{AllocError, Global};
use um_measures::NameTable;
use um_tree::{Name, Ty};
use um_units::{Atom, Unit};

/// A named variable as it is written, and the variable that stands for it.
#[derive(Drop)]
pub(crate) struct Named {
    pub(crate) text: Name,
    pub(crate) variable: u32,
}

/// The named variables for which a variable stands, by their numbers.
pub(crate) fn named_by(
    alloc: Global,
    names: &NameTable,
    variables: &[Option<u32>],
) -> Result<Vec<Named>, AllocError>
    ensures { IfOk result (λ named. named.items ≡ named_from (λ v. slice_index_or variables.now v None) 0 names.now) }
{
    let texts = names.in_order(alloc)?;
    let mut named = Vec::new(alloc);
    for v in 0..texts.len() {
        push_named(alloc, texts[v], variable_at(variables, v), &mut named)?;
    }
    Ok(named)
}

/// Adds the named variable, if a variable stands for it.
fn push_named(
    alloc: Global,
    name: &[u8],
    variable: Option<u32>,
    named: &mut Vec<Named>,
) -> Result<(), AllocError>
    ensures { OnOk result (named.new.items ≡ named.old.items ++ with_variable variable name.now []) }
{
    let Some(variable) = variable else {
        return Ok(());
    };
    let text = written(alloc, name)?;
    named.push(Named { text, variable })?;
    Ok(())
}

fn variable_at(variables: &[Option<u32>], v: usize) -> Option<u32>
    ensures { result ≡ slice_index_or variables.now v None }
{
    match variables.get(v) {
        Some(variable) => *variable,
        None => None,
    }
}

/// Each named variable as a type.
pub(crate) fn named_types(alloc: Global, named: &[Named]) -> Result<Vec<Ty>, AllocError>
    ensures { IfOk result (λ types. map type_tree types.items ≡ named_types named.now) }
{
    let mut types = Vec::new(alloc);
    for one in named {
        types.push(Ty::Num(Unit::atom(alloc, Atom::Var(one.variable))?))?;
    }
    Ok(types)
}
