//! The agreements that are told, with the texts of their types.

ghost use Rattle.std.specs.Prelude.{◌≡◌, ◌+◌, ◌-◌, ◌*◌, ◌<◌, ◌∷◌, ◌^◌, [], ℕ, List, None, IfOk, length, map, drop};
ghost use Rattle.std.specs.Prelude.{Some};
ghost use Rattle.std.specs.List.{range_with_len};
ghost use Rattle.std.specs.Prelude.{All};
ghost use Rattle.um_tree.specs.Scheme.{variables};
ghost use Rattle.um_tree.specs.TypeTree.{TypeTree, type_tree, type_trees};
ghost use Rattle.um_agree.specs.Agreements.{Agreement};
ghost use Rattle.um_unit_reasons.specs.UnitReasons.{told_types, own_named, other_named, own_types, types_of};
ghost use Rattle.um_unit_reasons.specs.Answers.{refusal_of, IsNumberingOf, IsLow, HaveSlots, told_trees};

use crate::failing::{Failing, base_count};
use crate::letters::letters;
use crate::named::named_by;
use crate::others::CoreAgreements;
use crate::reason::Told;
use crate::texts::{Numbering, numbered, push_numbered, types_of};
use std::alloc::{AllocError, Global};
use um_agree::Told as Agreed;
use um_infer::general_types;
use um_tree::{Name, Ty, Types};

/// The agreements of a core, of which the last has these two types as general as the others leave them.
pub(crate) fn told_types(
    alloc: Global,
    x: &Failing,
    agreements: &CoreAgreements,
    first: Ty,
    second: Ty,
) -> Result<Vec<Told>, AllocError>
    requires low { IsLow x.now }
    requires single { length agreements.now.last.items ≡ 1 }
    requires own { HaveSlots x.now (type_tree first ∷ type_tree second ∷ []) }
    requires others { HaveSlots x.now (types_of (told_trees agreements.now.others.items)) }
    ensures { (agreed : List Agreement) → IfOk result (λ told. told.items ≡ told_types (refusal_of x.now agreed)
        (own_types (refusal_of x.now agreed) (type_tree first) (type_tree second))
        (told_trees agreements.now.last.items) (told_trees agreements.now.others.items)) }
{
    let own = own_numbering(alloc, x, first, second)?;
    let told = told_after(alloc, x, agreements, &own);
    drop(own);
    told
}

/// The same, with the two types numbered.
fn told_after(
    alloc: Global,
    x: &Failing,
    agreements: &CoreAgreements,
    own: &Numbering,
) -> Result<Vec<Told>, AllocError>
    requires low { IsLow x.now }
    requires own { length own.now.types.items.items
        ≡ length own.now.named.items + 2 * length agreements.now.last.items }
    requires others { HaveSlots x.now (types_of (told_trees agreements.now.others.items)) }
    ensures { (agreed : List Agreement) (types : List TypeTree) →
        IsNumberingOf (own_named (refusal_of x.now agreed)) types own.now →
        IfOk result (λ told. told.items ≡ told_types (refusal_of x.now agreed) types
        (told_trees agreements.now.last.items) (told_trees agreements.now.others.items)) }
{
    let others = other_numbering(alloc, x, &agreements.others)?;
    let told = told_numbered(alloc, x, agreements, own, &others);
    drop(others);
    told
}

/// The same, with all types numbered.
fn told_numbered(
    alloc: Global,
    x: &Failing,
    agreements: &CoreAgreements,
    own: &Numbering,
    others: &Numbering,
) -> Result<Vec<Told>, AllocError>
    requires own { length own.now.types.items.items
        ≡ length own.now.named.items + 2 * length agreements.now.last.items }
    requires others { length others.now.types.items.items
        ≡ length others.now.named.items + 2 * length agreements.now.others.items }
    ensures { (agreed : List Agreement) (types : List TypeTree) →
        IsNumberingOf (own_named (refusal_of x.now agreed)) types own.now →
        IsNumberingOf (other_named (refusal_of x.now agreed))
        (types_of (told_trees agreements.now.others.items)) others.now →
        IfOk result (λ told. told.items ≡ told_types (refusal_of x.now agreed) types
        (told_trees agreements.now.last.items) (told_trees agreements.now.others.items)) }
{
    let free = letters(
        alloc,
        x.names,
        u64::from(own.count) + u64::from(others.count),
    )?;
    let used = left_of(own.count as usize, own.named.len());
    let mut told = Vec::new(alloc);
    push_numbered(alloc, x.program, own, &free, &agreements.last, &mut told)?;
    let rest = after(&free, used);
    push_numbered(
        alloc,
        x.program,
        others,
        rest,
        &agreements.others,
        &mut told,
    )?;
    Ok(told)
}

/// How many of the variables aren't named.
fn left_of(count: usize, named: usize) -> usize
    ensures { result ≡ count - named }
{
    if named < count {
        return count - named;
    }
    0
}

/// What is left after so many letters.
fn after(letters: &[Name], used: usize) -> &[Name]
    ensures { result.now ≡ drop used letters.now }
{
    if used < letters.len() {
        return &letters[used..];
    }
    &[]
}

/// The two types with the unit parameters that are units of their own as variables past the slots, numbered.
fn own_numbering(alloc: Global, x: &Failing, first: Ty, second: Ty) -> Result<Numbering, AllocError>
    requires low { IsLow x.now }
    requires types { HaveSlots x.now (type_tree first ∷ type_tree second ∷ []) }
    ensures { (agreed : List Agreement) → IfOk result (IsNumberingOf (own_named (refusal_of x.now agreed))
        (own_types (refusal_of x.now agreed) (type_tree first) (type_tree second))) }
{
    let types = general_pair(alloc, x, first, second)?;
    let numbering = own_numbered(alloc, x, &types.items);
    drop(types);
    numbering
}

fn general_pair(alloc: Global, x: &Failing, first: Ty, second: Ty) -> Result<Types, AllocError>
    requires low { IsLow x.now }
    requires types { HaveSlots x.now (type_tree first ∷ type_tree second ∷ []) }
    ensures { (agreed : List Agreement) → IfOk result (λ types. type_trees types
        ≡ own_types (refusal_of x.now agreed) (type_tree first) (type_tree second)) }
{
    let mut items = Vec::new(alloc);
    items.push(first)?;
    items.push(second)?;
    general_types(
        alloc,
        base_count(x.program),
        x.parameters,
        x.found.rows.slots,
        Types { items },
    )
}

fn own_numbered(alloc: Global, x: &Failing, types: &[Ty]) -> Result<Numbering, AllocError>
    requires low { IsLow x.now }
    requires types { All (λ k. k < x.now.found.now.rows.slots + x.now.parameters)
        (variables (map type_tree types.now)) }
    ensures { (agreed : List Agreement) → IfOk result (IsNumberingOf (own_named (refusal_of x.now agreed))
        (map type_tree types.now)) }
{
    let variables = own_variables(alloc, x.found.rows.slots, x.parameters)?;
    let named = named_by(alloc, x.names, &variables)?;
    numbered(alloc, named, types)
}

/// The variables past the slots, one for each unit parameter that is a unit of its own.
fn own_variables(alloc: Global, slots: u32, parameters: u32) -> Result<Vec<Option<u32>>, AllocError>
    requires { slots + parameters < 2 ^ 32 }
    ensures { IfOk result (λ variables. variables.items ≡ map Some (range_with_len slots parameters)) }
{
    let mut variables = Vec::new(alloc);
    for v in 0..parameters {
        variables.push(Some(slots + v))?;
    }
    Ok(variables)
}

/// The types of the other agreements, numbered.
fn other_numbering(alloc: Global, x: &Failing, others: &[Agreed]) -> Result<Numbering, AllocError>
    requires low { IsLow x.now }
    requires types { HaveSlots x.now (types_of (told_trees others.now)) }
    ensures { (agreed : List Agreement) → IfOk result (IsNumberingOf (other_named (refusal_of x.now agreed))
        (types_of (told_trees others.now))) }
{
    let types = types_of(alloc, others)?;
    let numbering = other_numbered(alloc, x, &types);
    drop(types);
    numbering
}

fn other_numbered(alloc: Global, x: &Failing, types: &[Ty]) -> Result<Numbering, AllocError>
    requires low { IsLow x.now }
    requires types { HaveSlots x.now (map type_tree types.now) }
    ensures { (agreed : List Agreement) → IfOk result (IsNumberingOf (other_named (refusal_of x.now agreed))
        (map type_tree types.now)) }
{
    let named = named_by(alloc, x.names, x.variables)?;
    numbered(alloc, named, types)
}
