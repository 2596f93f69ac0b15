//! The texts of the types of agreements.

ghost use Rattle.std.specs.Prelude.{◌≡◌, ◌+◌, ◌*◌, ◌++◌, ◌<◌, ◌≤◌, [], ◌∷◌, All, IfOk, OnOk, length, map, drop};
ghost use Rattle.std.specs.List.{flat_map};
ghost use Rattle.um_tree.specs.TypeTree.{type_tree, type_trees};
ghost use Rattle.um_tree.specs.ProgramTree.{program_tree};
ghost use Rattle.um_tree.specs.Scheme.{variables};
ghost use Rattle.um_agree.specs.Answers.{agreement_tree};
ghost use Rattle.um_unit_reasons.specs.TypeTexts.{named_types, numbered, variable_count, variable_texts, text_of, told};
ghost use Rattle.um_unit_reasons.specs.Answers.{told_trees, IsNumberingOf};

use crate::named::{Named, named_types};
use crate::reason::Told;
use std::alloc::{AllocError, Global};
use um_agree::{Agreement, Told as Agreed};
use um_elim::{Numbered, renumber};
use um_show::{Variables, push_named_type};
use um_slots::copied;
use um_tree::{Name, Program, Ty, Types};

/// Named variables, and types with their variables numbered: the named ones first, as types of their own, and then the
/// others in the order of printing.
#[derive(Drop)]
pub(crate) struct Numbering {
    pub(crate) named: Vec<Named>,
    pub(crate) types: Types,
    /// How many variables there are, the named ones among them.
    pub(crate) count: u32,
}

/// The types with their variables numbered after these.
pub(crate) fn numbered(
    alloc: Global,
    named: Vec<Named>,
    types: &[Ty],
) -> Result<Numbering, AllocError>
    requires { All (λ k. k < 4294967295) (variables (named_types named.items ++ map type_tree types.now)) }
    ensures { IfOk result (IsNumberingOf named.items (map type_tree types.now)) }
{
    let mut all = named_types(alloc, &named)?;
    push_copies(alloc, types, &mut all)?;
    let Numbered { types, vars } = renumber(alloc, Types { items: all })?;
    Ok(Numbering {
        named,
        types,
        count: vars,
    })
}

fn push_copies(alloc: Global, types: &[Ty], all: &mut Vec<Ty>) -> Result<(), AllocError>
    ensures { OnOk result (map type_tree all.new.items ≡ map type_tree all.old.items ++ map type_tree types.now) }
{
    for ty in types {
        all.push(copied(alloc, ty)?)?;
    }
    Ok(())
}

/// The two types of each agreement, in order.
pub(crate) fn types_of(alloc: Global, agreements: &[Agreed]) -> Result<Vec<Ty>, AllocError>
    ensures { IfOk result (λ types. map type_tree types.items
        ≡ flat_map (λ a. a.first ∷ a.second ∷ []) (told_trees agreements.now)) }
{
    let mut types = Vec::new(alloc);
    for one in agreements {
        push_types(alloc, &one.agreement, &mut types)?;
    }
    Ok(types)
}

fn push_types(alloc: Global, agreement: &Agreement, types: &mut Vec<Ty>) -> Result<(), AllocError>
    ensures { OnOk result (map type_tree types.new.items ≡ map type_tree types.old.items
        ++ type_tree agreement.now.first ∷ type_tree agreement.now.second ∷ []) }
{
    types.push(copied(alloc, &agreement.first)?)?;
    types.push(copied(alloc, &agreement.second)?)?;
    Ok(())
}

/// The text of each variable: the names, and then the letters.
fn variable_texts(alloc: Global, named: &[Named], letters: &[Name]) -> Result<Vec<Name>, AllocError>
    ensures { IfOk result (λ texts. texts.items ≡ map (λ n. n.text) named.now ++ letters.now) }
{
    let mut texts = Vec::new(alloc);
    for one in named {
        texts.push(Name::from_slice(alloc, one.text.as_slice())?)?;
    }
    push_letters(alloc, letters, &mut texts)?;
    Ok(texts)
}

fn push_letters(alloc: Global, letters: &[Name], texts: &mut Vec<Name>) -> Result<(), AllocError>
    ensures { OnOk result (texts.new.items ≡ texts.old.items ++ letters.now) }
{
    for letter in letters {
        texts.push(Name::from_slice(alloc, letter.as_slice())?)?;
    }
    Ok(())
}

fn text_of(alloc: Global, program: &Program, texts: &[Name], ty: &Ty) -> Result<Name, AllocError>
    ensures { IfOk result (λ text. text ≡ text_of (program_tree program.now) texts.now (type_tree ty.now)) }
{
    let mut text = Vec::new(alloc);
    push_named_type(alloc, &mut text, program, Variables::Named(texts), ty)?;
    Name::from_slice(alloc, &text)
}

fn told_of(
    alloc: Global,
    program: &Program,
    texts: &[Name],
    agreement: &Agreement,
    first: &Ty,
    second: &Ty,
) -> Result<Told, AllocError>
    ensures { IfOk result (λ one. one ∷ [] ≡ told (program_tree program.now) texts.now
        (agreement_tree agreement.now ∷ []) (type_tree first.now ∷ type_tree second.now ∷ [])) }
{
    Ok(Told {
        rule: agreement.rule,
        at: agreement.at,
        first: text_of(alloc, program, texts, first)?,
        second: text_of(alloc, program, texts, second)?,
    })
}

/// Adds the agreements with the texts of their types, which stand two by two.
fn push_told(
    alloc: Global,
    program: &Program,
    texts: &[Name],
    agreements: &[Agreed],
    types: &[Ty],
    all: &mut Vec<Told>,
) -> Result<(), AllocError>
    requires { length types.now ≡ 2 * length agreements.now }
    ensures { OnOk result (all.new.items ≡ all.old.items
        ++ told (program_tree program.now) texts.now (told_trees agreements.now) (map type_tree types.now)) }
{
    for j in 0..agreements.len() {
        let agreement = &agreements[j].agreement;
        all.push(told_of(
            alloc,
            program,
            texts,
            agreement,
            &types[2 * j],
            &types[2 * j + 1],
        )?)?;
    }
    Ok(())
}

/// Adds the agreements with the texts of their types after they are numbered.
pub(crate) fn push_numbered(
    alloc: Global,
    program: &Program,
    numbering: &Numbering,
    letters: &[Name],
    agreements: &[Agreed],
    all: &mut Vec<Told>,
) -> Result<(), AllocError>
    requires { length numbering.now.types.items.items
        ≡ length numbering.now.named.items + 2 * length agreements.now }
    ensures { OnOk result (all.new.items ≡ all.old.items ++ told (program_tree program.now)
        (map (λ n. n.text) numbering.now.named.items ++ letters.now) (told_trees agreements.now)
        (map type_tree (drop (length numbering.now.named.items) numbering.now.types.items.items))) }
{
    let texts = variable_texts(alloc, &numbering.named, letters)?;
    let types = types_after(&numbering.types.items, numbering.named.len());
    push_told(alloc, program, &texts, agreements, types, all)
}

fn types_after(types: &[Ty], named: usize) -> &[Ty]
    requires { named ≤ length types.now }
    ensures { result.now ≡ drop named types.now }
{
    &types[named..]
}
