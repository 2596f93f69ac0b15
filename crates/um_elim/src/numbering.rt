//! Numbering: the variables of types, renamed one for one in the order of their first occurrence.

ghost use Rattle.std.specs.Prelude.{◌≡◌, ◌<◌, [], length, map, nat_eq, All, IfOk, IfErr, OnOk};
ghost use Rattle.std.specs.List.{flat_map};
ghost use Rattle.um_units.specs.PowerMap.{replace};
ghost use Rattle.um_tree.specs.TypeTree.{type_tree, type_trees};
ghost use Rattle.um_tree.specs.Typing.{put};
ghost use Rattle.um_tree.specs.Scheme.{IsNumberedBy, atom_variables, type_variables, unit_variables, variables};
ghost use Rattle.um_elim.specs.Numbering.{by_place, place, renumbered, variable_order, AreRenamedOneForOne};
ghost use Rattle.um_elim.specs.Numbering.{HaveSameInstances};
ghost use Rattle.um_elim.specs.Order.{placed_term, with_variable, with_variables};

use crate::in_order::numbered_already;
use indexmap::IndexSet;
use std::alloc::{AllocError, Global};
use std::marker::Model;
use um_tree::{Ty, Types};
use um_units::{Atom, NoMemory, Term, Unit, UnitStop, Units};

/// Types whose variables have the numbers from 0 on, in the order of their first occurrence.
#[derive(Drop)]
pub struct Numbered {
    pub types: Types,
    /// How many variables there are.
    pub vars: u32,
}

/// The types with their variables renamed one for one, and with the same instances.
///
/// The units of the types are read from left to right, and the variables of one unit in the order of their numbers.
/// Each variable becomes the one whose number is its place in the order of first occurrence, counted from 0. No power
/// changes. The numbering is this project's own.
pub fn renumber(alloc: Global, types: Types) -> Result<Numbered, NoMemory>
    requires { All (λ k. k < 4294967295) (variables (type_trees types)) }
    ensures renumbered { IfOk result (λ n. type_trees n.types ≡ renumbered (type_trees types)) }
    ensures vars { IfOk result (λ n. n.vars ≡ length (variable_order (type_trees types))) }
    ensures numbered { IfOk result (λ n. IsNumberedBy n.vars (type_trees n.types)) }
    ensures below { IfOk result (λ n. All (λ k. k < n.vars) (variables (type_trees n.types))) }
    ensures one_for_one { AreRenamedOneForOne (type_trees types) }
    ensures instances { IfOk result (λ n. HaveSameInstances (type_trees types) (type_trees n.types)) }
{
    if let Some(vars) = numbered_already(&types.items) {
        return Ok(Numbered { types, vars });
    }
    let mut order = Order::new(alloc);
    let items = renamed_types(alloc, &mut order, &types.items)?;
    Ok(Numbered {
        types: Types { items },
        vars: order.count(),
    })
}

/// Variables in the order of their first occurrence, each once.
#[derive(Drop)]
struct Order {
    set: IndexSet<u32>,
}

impl Model for Order {
    ghost use Rattle.std.specs.Prelude.{ℕ, List, ◌<◌, All};
    ghost use Rattle.std.specs.Coded.{coded_list, coded_ℕ};

    ghost Value = { List ℕ };

    ghost coded = { coded_list coded_ℕ };

    ghost view = { λ order. order.set.keys };

    ghost invariant = { λ order. All (λ k. k < 4294967295) order.set.keys };
}

impl Order {
    fn new(alloc: Global) -> Order
        ensures { result ≡ [] }
    {
        Order {
            set: IndexSet::new(alloc),
        }
    }

    /// The place of the variable, which goes to the end if it is new.
    fn number(&mut self, variable: u32) -> Result<u32, AllocError>
        requires { variable < 4294967295 }
        ensures order { OnOk result (self.new ≡ with_variable self.old variable) }
        ensures place { IfOk result (λ n. n ≡ place self.new variable) }
    {
        let (place, _) = self.set.insert_full(variable)?;
        Ok(place as u32)
    }

    fn count(&self) -> u32
        ensures { result ≡ length self.now }
    {
        self.set.len() as u32
    }
}

fn renamed_term(order: &mut Order, term: Term) -> Result<Term, AllocError>
    requires { All (λ k. k < 4294967295) (atom_variables term.atom) }
    ensures order { OnOk result (order.new ≡ with_variables order.old (atom_variables term.atom)) }
    ensures renamed { IfOk result (λ t. t ≡ placed_term order.new term) }
{
    match term.atom {
        Atom::Base(_) => Ok(term),
        Atom::Var(variable) => Ok(Term {
            atom: Atom::Var(order.number(variable)?),
            power: term.power,
        }),
    }
}

fn renamed_terms(alloc: Global, order: &mut Order, terms: &[Term]) -> Result<Vec<Term>, AllocError>
    requires { All (λ k. k < 4294967295) (flat_map (λ t. atom_variables t.atom) terms.now) }
    ensures order { OnOk result (order.new ≡ with_variables order.old
        (flat_map (λ t. atom_variables t.atom) terms.now)) }
    ensures renamed { IfOk result (λ v. v.items ≡ map (placed_term order.new) terms.now) }
{
    let mut out = Vec::new(alloc);
    for term in terms {
        out.push(renamed_term(order, *term)?)?;
    }
    Ok(out)
}

fn renamed_unit(alloc: Global, order: &mut Order, unit: &Unit) -> Result<Unit, AllocError>
    requires { All (λ k. k < 4294967295) (unit_variables unit.now) }
    ensures order { OnOk result (order.new ≡ with_variables order.old (unit_variables unit.now)) }
    ensures renamed { IfOk result (λ u. u ≡ replace (by_place order.new) unit.now) }
{
    let terms = renamed_terms(alloc, order, unit.terms())?;
    match Unit::from_terms(alloc, &terms) {
        Ok(unit) => Ok(unit),
        Err(UnitStop::NoMemory) => Err(AllocError),
        Err(UnitStop::Range) => unreachable!(),
    }
}

fn renamed_units(alloc: Global, order: &mut Order, units: &Units) -> Result<Units, AllocError>
    requires { All (λ k. k < 4294967295) (flat_map unit_variables units.now) }
    ensures order { OnOk result (order.new ≡ with_variables order.old (flat_map unit_variables units.now)) }
    ensures renamed { IfOk result (λ us. us ≡ map (replace (by_place order.new)) units.now) }
{
    let mut items = Vec::new(alloc);
    for unit in units.as_slice() {
        items.push(renamed_unit(alloc, order, unit)?)?;
    }
    Ok(Units::from_vec(items))
}

fn renamed_type(alloc: Global, order: &mut Order, ty: &Ty) -> Result<Ty, AllocError>
    requires { All (λ k. k < 4294967295) (type_variables (type_tree ty.now)) }
    ensures order { OnOk result (order.new ≡ with_variables order.old (type_variables (type_tree ty.now))) }
    ensures renamed { IfOk result (λ t. type_tree t ≡ put (by_place order.new) (type_tree ty.now)) }
{
    match ty {
        Ty::Bool => Ok(Ty::Bool),
        Ty::Num(unit) => Ok(Ty::Num(renamed_unit(alloc, order, unit)?)),
        Ty::List(item) => Ok(Ty::List(Box::new(alloc, renamed_type(alloc, order, item)?)?)),
        Ty::Rec(record, units) => Ok(Ty::Rec(*record, renamed_units(alloc, order, units)?)),
    }
}

fn renamed_types(alloc: Global, order: &mut Order, types: &[Ty]) -> Result<Vec<Ty>, AllocError>
    requires { All (λ k. k < 4294967295) (variables (map type_tree types.now)) }
    ensures order { OnOk result (order.new ≡ with_variables order.old (variables (map type_tree types.now))) }
    ensures renamed { IfOk result (λ v. map type_tree v.items
        ≡ map (put (by_place order.new)) (map type_tree types.now)) }
{
    let mut items = Vec::new(alloc);
    for ty in types {
        items.push(renamed_type(alloc, order, ty)?)?;
    }
    Ok(items)
}
