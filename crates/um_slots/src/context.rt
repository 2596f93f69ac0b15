//! What is known of a function while its body is derived.

ghost use Rattle.std.specs.Prelude.{◌≡◌, ◌+◌, ◌≤◌, ◌++◌, [], ◌∷◌, IfOk, OnOk, length, map};
ghost use Rattle.std.specs.List.{list_all};
ghost use Rattle.um_units.specs.PowerMap.{nth};
ghost use Rattle.um_units.specs.Range.{RangeUnless};
ghost use Rattle.um_tree.specs.TypeTree.{type_tree, note_tree};
ghost use Rattle.um_tree.specs.ProgramTree.{result_tree};
ghost use Rattle.um_elim.specs.Application.{type_fits};
ghost use Rattle.um_uses.specs.Holes.{notes_holes as holes_of_notes, result_holes as holes_of_result};
ghost use Rattle.um_slots.specs.Noted.{noted_types, noted_result as result_noted};
ghost use Rattle.um_slots.specs.Contexts.{IsContextOf};

use crate::definition::{Definition, Environment};
use crate::noted::{note_holes, noted_type};
use std::alloc::Global;
use um_tree::{Note, Ty};
use um_units::{Unit, UnitStop};

/// A function's number, whether it may call itself, and what stands for its open units.
#[derive(Drop)]
pub struct Context {
    pub number: u32,
    pub recurs: bool,
    /// The types of its parameters
    pub params: Vec<Ty>,
    /// The type of its result's note
    pub result: Ty,
    /// The unit of each hole, in the order of the text: variables, no two of them the same
    pub holes: Vec<Unit>,
    /// The unit of each named variable
    pub names: Vec<Unit>,
}

/// Pushes the types of the notes, whose holes are numbered from n on.
fn push_types(
    alloc: Global,
    context: &Context,
    n: usize,
    notes: &[Note],
    types: &mut Vec<Ty>,
) -> Result<(), UnitStop>
    requires room { n + holes_of_notes (map note_tree notes.now) ≤ length context.now.holes.items }
    ensures exact { OnOk result (map type_tree types.new.items ≡ map type_tree types.old.items
        ++ noted_types (nth context.now.holes.items) (nth context.now.names.items) n (map note_tree notes.now)) }
    ensures range { RangeUnless result (list_all type_fits
        (noted_types (nth context.now.holes.items) (nth context.now.names.items) n (map note_tree notes.now))) }
{
    match notes {
        [] => Ok(()),
        [note, rest @ ..] => {
            types.push(noted_type(alloc, context, n, note)?)?;
            push_types(alloc, context, n + note_holes(note), rest, types)
        }
    }
}

/// The type of a result's note.
fn result_type(
    alloc: Global,
    context: &Context,
    n: usize,
    note: &Option<Note>,
) -> Result<Ty, UnitStop>
    requires room { n + holes_of_result (result_tree note.now) ≤ length context.now.holes.items }
    ensures exact { IfOk result (λ t. type_tree t
        ≡ result_noted (nth context.now.holes.items) (nth context.now.names.items) n (result_tree note.now)) }
    ensures range { RangeUnless result (type_fits
        (result_noted (nth context.now.holes.items) (nth context.now.names.items) n (result_tree note.now))) }
{
    match note {
        Some(note) => noted_type(alloc, context, n, note),
        None => Ok(Ty::Bool),
    }
}

/// What is known of a function: these units stand for its holes and its named variables, and `first` holes come before
/// the note of its result. `Range` comes exactly if a power in the type of a note is out of range.
pub fn context_of(
    environment: &Environment,
    first: usize,
    holes: Vec<Unit>,
    names: Vec<Unit>,
    definition: &Definition,
) -> Result<Context, UnitStop>
    requires first { first ≡ holes_of_notes (map note_tree definition.now.params.now) }
    requires room { holes_of_notes (map note_tree definition.now.params.now)
        + holes_of_result (result_tree definition.now.result.now) ≤ length holes.items }
    ensures exact { IfOk result (IsContextOf environment.now.number environment.now.recurs holes.items names.items
        (map note_tree definition.now.params.now) (result_tree definition.now.result.now)) }
    ensures range { RangeUnless result (list_all type_fits
        (noted_types (nth holes.items) (nth names.items) 0 (map note_tree definition.now.params.now)
        ++ result_noted (nth holes.items) (nth names.items) first (result_tree definition.now.result.now) ∷ [])) }
{
    let alloc = environment.alloc;
    let mut context = Context {
        number: environment.number,
        recurs: environment.recurs,
        params: Vec::new(alloc),
        result: Ty::Bool,
        holes,
        names,
    };
    let mut types = Vec::new(alloc);
    types.reserve(definition.params.len())?;
    push_types(alloc, &context, 0, definition.params, &mut types)?;
    let result = result_type(alloc, &context, first, definition.result)?;
    context.params = types;
    context.result = result;
    Ok(context)
}
