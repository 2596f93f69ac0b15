//! The variables of a solution, numbered as a certificate has them, and the inverse substitution.

ghost use Rattle.std.specs.Prelude.{◌≡◌, ◌≤◌, ◌<◌, ◌+◌, ◌^◌, ℕ, List, [], ◌∷◌, if◌then◌else◌, ◌||◌, ◌++◌, All, false};
ghost use Rattle.std.specs.Prelude.{filter, map, length, drop, replicate, set, take, slice_index_or, IfOk, OnOk};
ghost use Rattle.std.specs.Prelude.{IsTrue};
ghost use Rattle.std.specs.List.{flat_map, list_all, range_with_len};
ghost use Rattle.um_units.specs.declared.Atom.TheVariants.{Var};
ghost use Rattle.um_units.specs.declared.Term.{Term as TermData};
ghost use Rattle.um_units.specs.PowerMap.{PowerMap, one, atom, nth};
ghost use Rattle.um_units.specs.Variables.{VariablesBelow, atom_below, variables_below};
ghost use Rattle.um_tree.specs.TypeTree.{num_type, type_tree, type_trees};
ghost use Rattle.um_tree.specs.Formed.{BasesBelow};
ghost use Rattle.um_tree.specs.Typing.{put, put_signature};
ghost use Rattle.um_tree.specs.Scheme.{atom_variables, signature_types, variables};
ghost use Rattle.um_elim.specs.Application.{type_fits};
ghost use Rattle.um_elim.specs.Numbering.{renumbered, variable_order};
ghost use Rattle.um_rows.specs.Answers.{rows_signature};
ghost use Rattle.um_rows.specs.Judgement.{signature_fits};
ghost use Rattle.um_rows.specs.Generalised.{generalised_unit as unit_in_place};
ghost use Rattle.um_proof.specs.Renaming.{general_units, held_below, is_listed, to_number, AreNumbered, ArePlaces};
ghost use Rattle.um_proof.specs.Renaming.{GoBack, IsRenamed};

use std::alloc::{AllocError, Global};
use um_elim::{Numbered, put_in_type, renumber};
use um_infer::generalised_unit;
use um_kept::Head;
use um_rows::Rows;
use um_tree::{Ty, Types};
use um_units::{Atom, NoMemory, Term, Unit, UnitStop};

/// A solution whose variables are numbered, and the inverse substitution of them.
#[derive(Drop)]
pub(crate) struct Renaming {
    pub vars: u32,
    pub solution: Vec<Unit>,
    pub back: Vec<Unit>,
}

/// The solution and the inverse substitution: the variables of the types come first, and each unit parameter is a
/// variable.
pub fn renamed_solution(
    alloc: Global,
    head: Head,
    rows: &Rows,
    solution: &[Unit],
    back: &[Unit],
) -> Result<Renaming, NoMemory>
    requires bases { head.bases + head.parameters < 2 ^ 32 }
    requires few { head.slots + head.parameters < 4294967295 }
    requires count { length solution.now ≡ head.slots }
    requires back { length back.now ≡ head.slots + head.parameters }
    requires below { All (VariablesBelow head.slots) solution.now }
    requires types { All (λ k. k < head.slots) (variables (signature_types (rows_signature rows.now))) }
    requires fits { IsTrue (signature_fits
        (put_signature (nth (general_units head (rows_signature rows.now) solution.now))
        (rows_signature rows.now))) }
    ensures { IfOk result (IsRenamed head (rows_signature rows.now) solution.now back.now) }
{
    let general = general_solution(alloc, head, solution)?;
    let held = held_variables(alloc, head.slots + head.parameters, &general)?;
    let numbered = numbered_solution(alloc, rows, &general, &held)?;
    let made = read_numbered(alloc, &numbered, rows.params.items.len() + 1, &held, back);
    drop(numbered);
    made
}

/// The units with the variable `slots + k` for the base unit of unit parameter k.
fn general_solution(alloc: Global, head: Head, solution: &[Unit]) -> Result<Vec<Unit>, NoMemory>
    requires bases { head.bases + head.parameters < 2 ^ 32 }
    requires slots { head.slots + head.parameters < 2 ^ 32 }
    requires below { All (VariablesBelow head.slots) solution.now }
    ensures { IfOk result (λ units. units.items
        ≡ map (unit_in_place head.bases head.parameters head.slots) solution.now) }
{
    let mut out = Vec::new(alloc);
    for unit in solution {
        out.push(generalised_unit(alloc, head.bases, head.parameters, head.slots, unit)?)?;
    }
    Ok(out)
}

// ---- the variables that units hold

/// The variables that occur in the units, which are below the count, by their numbers.
fn held_variables(alloc: Global, count: u32, units: &[Unit]) -> Result<Vec<u32>, NoMemory>
    requires { All (VariablesBelow count) units.now }
    ensures { IfOk result (λ held. held.items ≡ held_below count units.now) }
{
    let mut marks = no_marks(alloc, count)?;
    for unit in units {
        mark_terms(&mut marks, unit.terms());
    }
    marked(alloc, &marks)
}

fn no_marks(alloc: Global, count: u32) -> Result<Vec<bool>, AllocError>
    ensures { IfOk result (λ marks. marks.items ≡ replicate count false) }
{
    let mut marks = Vec::new(alloc);
    for _ in 0..count {
        marks.push(false)?;
    }
    Ok(marks)
}

/// Marks the variables of the terms.
fn mark_terms(marks: &mut Vec<bool>, terms: &[Term])
    requires { IsTrue (variables_below (length marks.old.items) terms.now) }
    ensures count { length marks.new.items ≡ length marks.old.items }
    ensures marks { (k : ℕ) → slice_index_or marks.new.items k false ≡ (slice_index_or marks.old.items k false
        || is_listed (flat_map (λ (t : TermData). atom_variables t.atom) terms.now) k) }
{
    for term in terms {
        mark_atom(marks, term.atom);
    }
}

fn mark_atom(marks: &mut Vec<bool>, atom: Atom)
    requires { IsTrue (atom_below (length marks.old.items) atom) }
    ensures count { length marks.new.items ≡ length marks.old.items }
    ensures marks { (k : ℕ) → slice_index_or marks.new.items k false
        ≡ (slice_index_or marks.old.items k false || is_listed (atom_variables atom) k) }
{
    match atom {
        Atom::Base(_) => {}
        Atom::Var(variable) => marks[variable as usize] = true,
    }
}

/// The numbers that are marked, in order.
fn marked(alloc: Global, marks: &[bool]) -> Result<Vec<u32>, AllocError>
    requires { length marks.now ≤ 4294967295 }
    ensures { IfOk result (λ held. held.items
        ≡ filter (λ k. slice_index_or marks.now k false) (range_with_len 0 (length marks.now))) }
{
    let mut held = Vec::new(alloc);
    for k in 0..marks.len() {
        push_marked(&mut held, k as u32, marks[k])?;
    }
    Ok(held)
}

fn push_marked(held: &mut Vec<u32>, k: u32, is_marked: bool) -> Result<(), AllocError>
    ensures { OnOk result (held.new.items ≡ held.old.items ++ (if is_marked then k ∷ [] else [])) }
{
    if is_marked {
        held.push(k)?;
    }
    Ok(())
}

// ---- numbering

/// The function's types with the units put for the slots, then each held variable, and then the units, all with their
/// variables numbered in the order of their first occurrence.
fn numbered_solution(
    alloc: Global,
    rows: &Rows,
    units: &[Unit],
    held: &[u32],
) -> Result<Numbered, NoMemory>
    requires fits { IsTrue (signature_fits (put_signature (nth units.now) (rows_signature rows.now))) }
    requires variables { All (λ k. k < 4294967295) (variables
        (to_number (rows_signature rows.now) units.now held.now)) }
    ensures types { IfOk result (λ n. type_trees n.types
        ≡ renumbered (to_number (rows_signature rows.now) units.now held.now)) }
    ensures vars { IfOk result (λ n. n.vars
        ≡ length (variable_order (to_number (rows_signature rows.now) units.now held.now))) }
{
    let mut items = Vec::new(alloc);
    match add_all(alloc, &mut items, rows, units, held) {
        Ok(()) => renumber(alloc, Types { items }),
        Err(error) => {
            drop(items);
            Err(error)
        }
    }
}

fn add_all(
    alloc: Global,
    items: &mut Vec<Ty>,
    rows: &Rows,
    units: &[Unit],
    held: &[u32],
) -> Result<(), AllocError>
    requires empty { items.old.items ≡ [] }
    requires fits { IsTrue (signature_fits (put_signature (nth units.now) (rows_signature rows.now))) }
    ensures { OnOk result (map type_tree items.new.items ≡ to_number (rows_signature rows.now) units.now held.now) }
{
    add_types(alloc, items, units, &rows.params.items)?;
    items.push(put_type(alloc, units, &rows.result)?)?;
    add_variables(alloc, items, held)?;
    add_units(alloc, items, units)?;
    Ok(())
}

/// Adds the types with the units put for their variables, no power of which is out of range.
fn add_types(
    alloc: Global,
    items: &mut Vec<Ty>,
    units: &[Unit],
    types: &[Ty],
) -> Result<(), AllocError>
    requires { IsTrue (list_all type_fits (map (put (nth units.now)) (map type_tree types.now))) }
    ensures { OnOk result (map type_tree items.new.items
        ≡ map type_tree items.old.items ++ map (put (nth units.now)) (map type_tree types.now)) }
{
    for ty in types {
        items.push(put_type(alloc, units, ty)?)?;
    }
    Ok(())
}

/// The type with the units put for its variables, no power of which is out of range.
fn put_type(alloc: Global, units: &[Unit], ty: &Ty) -> Result<Ty, AllocError>
    requires { IsTrue (type_fits (put (nth units.now) (type_tree ty.now))) }
    ensures { IfOk result (λ t. type_tree t ≡ put (nth units.now) (type_tree ty.now)) }
{
    match put_in_type(alloc, units, ty) {
        Ok(made) => Ok(made),
        Err(UnitStop::NoMemory) => Err(AllocError),
        Err(UnitStop::Range) => unreachable!(),
    }
}

fn add_variables(alloc: Global, items: &mut Vec<Ty>, held: &[u32]) -> Result<(), AllocError>
    ensures { OnOk result (map type_tree items.new.items
        ≡ map type_tree items.old.items ++ map (λ k. num_type (atom (Var k))) held.now) }
{
    for variable in held {
        items.push(Ty::Num(Unit::atom(alloc, Atom::Var(*variable))?))?;
    }
    Ok(())
}

fn add_units(alloc: Global, items: &mut Vec<Ty>, units: &[Unit]) -> Result<(), AllocError>
    ensures { OnOk result (map type_tree items.new.items ≡ map type_tree items.old.items ++ map num_type units.now) }
{
    for unit in units {
        items.push(Ty::Num(unit.copy(alloc)?))?;
    }
    Ok(())
}

// ---- what the numbering gives

/// The solution and the inverse substitution: the held variables come in the order of the types, and then of the
/// solution.
fn read_numbered(
    alloc: Global,
    numbered: &Numbered,
    first: usize,
    held: &[u32],
    back: &[Unit],
) -> Result<Renaming, AllocError>
    requires numbered { (order : List ℕ) × (units : List PowerMap) × (length order ≡ numbered.now.vars)
        × AreNumbered first order held.now units (type_trees numbered.now.types) }
    requires held { All (λ k. k < length back.now) held.now }
    ensures vars { IfOk result (λ r. r.vars ≡ numbered.now.vars) }
    ensures solution { (order : List ℕ) (units : List PowerMap)
        → AreNumbered first order held.now units (type_trees numbered.now.types)
        → IfOk result (λ r. r.solution.items ≡ units) }
    ensures back { (order : List ℕ) (units : List PowerMap)
        → AreNumbered first order held.now units (type_trees numbered.now.types)
        → IfOk result (λ r. GoBack order held.now back.now r.back.items) }
    ensures count { IfOk result (λ r. length r.back.items ≡ numbered.now.vars) }
    ensures declared { (n : ℕ) → All (BasesBelow n) back.now → IfOk result (λ r. All (BasesBelow n) r.back.items) }
{
    let types = &numbered.types.items;
    let solution = units_of(alloc, &types[first + held.len()..])?;
    let places = part_of(types, first, held.len());
    let new_back = way_back(alloc, numbered.vars, places, held, back)?;
    Ok(Renaming {
        vars: numbered.vars,
        solution,
        back: new_back,
    })
}

/// So many of the types, from one on.
fn part_of(types: &[Ty], from: usize, count: usize) -> &[Ty]
    requires { from + count ≤ length types.now }
    ensures { result.now ≡ take count (drop from types.now) }
{
    &types[from..][..count]
}

/// The units of the types, which are all numbers.
fn units_of(alloc: Global, types: &[Ty]) -> Result<Vec<Unit>, AllocError>
    requires { (units : List PowerMap) × (map type_tree types.now ≡ map num_type units) }
    ensures { (units : List PowerMap) → map type_tree types.now ≡ map num_type units
        → IfOk result (λ made. made.items ≡ units) }
{
    let mut out = Vec::new(alloc);
    for ty in types {
        out.push(unit_of_type(alloc, ty)?)?;
    }
    Ok(out)
}

fn unit_of_type(alloc: Global, ty: &Ty) -> Result<Unit, AllocError>
    requires { (unit : PowerMap) × (type_tree ty.now ≡ num_type unit) }
    ensures { (unit : PowerMap) → type_tree ty.now ≡ num_type unit → IfOk result (λ made. made ≡ unit) }
{
    match ty {
        Ty::Num(unit) => unit.copy(alloc),
        Ty::Bool | Ty::List(_) | Ty::Rec(_, _) => unreachable!(),
    }
}

/// For each number of a variable what the inverse substitution gives for the held variable that has it.
fn way_back(
    alloc: Global,
    vars: u32,
    places: &[Ty],
    held: &[u32],
    back: &[Unit],
) -> Result<Vec<Unit>, AllocError>
    requires places { (order : List ℕ) × (length order ≡ vars) × ArePlaces order held.now (map type_tree places.now) }
    requires held { All (λ k. k < length back.now) held.now }
    ensures back { (order : List ℕ) → ArePlaces order held.now (map type_tree places.now)
        → IfOk result (λ new. GoBack order held.now back.now new.items) }
    ensures count { IfOk result (λ new. length new.items ≡ vars) }
    ensures declared { (n : ℕ) → All (BasesBelow n) back.now → IfOk result (λ new. All (BasesBelow n) new.items) }
{
    let mut out = ones(alloc, vars)?;
    for i in 0..held.len() {
        let number = number_of(&places[i]);
        set_unit(alloc, &mut out, number, &back[held[i] as usize])?;
    }
    Ok(out)
}

fn set_unit(
    alloc: Global,
    units: &mut Vec<Unit>,
    number: u32,
    unit: &Unit,
) -> Result<(), AllocError>
    requires { number < length units.old.items }
    ensures { OnOk result (units.new.items ≡ set units.old.items number unit.now) }
{
    units[number as usize] = unit.copy(alloc)?;
    Ok(())
}

fn ones(alloc: Global, count: u32) -> Result<Vec<Unit>, AllocError>
    ensures { IfOk result (λ units. units.items ≡ replicate count one) }
{
    let mut out = Vec::new(alloc);
    for _ in 0..count {
        out.push(Unit::one(alloc))?;
    }
    Ok(out)
}

/// The variable that the type, a number, has as its unit.
fn number_of(ty: &Ty) -> u32
    requires { (n : ℕ) × (type_tree ty.now ≡ num_type (atom (Var n))) }
    ensures { (n : ℕ) → type_tree ty.now ≡ num_type (atom (Var n)) → result ≡ n }
{
    match ty {
        Ty::Num(unit) => variable_of(unit),
        Ty::Bool | Ty::List(_) | Ty::Rec(_, _) => unreachable!(),
    }
}

/// The variable that is the unit.
fn variable_of(unit: &Unit) -> u32
    requires { (n : ℕ) × (unit.now ≡ atom (Var n)) }
    ensures { (n : ℕ) → unit.now ≡ atom (Var n) → result ≡ n }
{
    match unit.terms()[0].atom {
        Atom::Var(number) => number,
        Atom::Base(_) => unreachable!(),
    }
}
