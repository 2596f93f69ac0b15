// The texts of units and of what stands between `<` and `>`.
ghost use Rattle.std.specs.Prelude.{◌≡◌, ◌++◌, OnOk, map};
ghost use Rattle.um_tree.specs.RawTree.{unit_syntax, units_in_order, note_syntax, written_note};
ghost use Rattle.um_show.specs.Pieces.{text_of};
ghost use Rattle.um_show.specs.Layout.{unit_pieces, side_pieces, note_pieces, written_pieces, angled_pieces};

use crate::number::push_power;
use crate::text::{push_gap, push_name, push_variable};
use std::alloc::AllocError;
use um_tree::{RawNote, RawUnit};

/// Adds a unit text.
#[cycle(push_unit)]
pub(crate) fn push_unit(text: &mut Vec<u8>, unit: &RawUnit) -> Result<(), AllocError>
    ensures { OnOk result (text.new.items ≡ text.old.items ++ text_of (unit_pieces (unit_syntax unit.now))) }
{
    match unit {
        RawUnit::One(_) => text.extend_from_slice(b"1"),
        RawUnit::Name(_, name) => push_name(text, name),
        RawUnit::Var(_, name) => push_variable(text, name),
        RawUnit::Power(u, k) => {
            push_unit(text, u)?;
            text.push(b'^')?;
            push_power(text, *k)
        }
        RawUnit::Side(units) => push_side(text, &units.items),
        RawUnit::Times(u, v) => {
            push_unit(text, u)?;
            text.push(b'*')?;
            push_unit(text, v)
        }
        RawUnit::Over(u, v) => {
            push_unit(text, u)?;
            text.push(b'/')?;
            push_unit(text, v)
        }
        RawUnit::Inverse(_, u) => {
            text.push(b'/')?;
            push_unit(text, u)
        }
        RawUnit::Bracket(_, u) => {
            text.push(b'(')?;
            push_unit(text, u)?;
            text.extend_from_slice(b")")
        }
    }
}

/// Adds unit texts, a space between each two.
#[cycle(push_unit)]
fn push_side(text: &mut Vec<u8>, units: &[RawUnit]) -> Result<(), AllocError>
    ensures { OnOk result (text.new.items ≡ text.old.items
        ++ text_of (side_pieces (units_in_order (map unit_syntax units.now)))) }
{
    for i in 0..units.len() {
        push_gap(text, i, b" ")?;
        push_unit(text, &units[i])?;
    }
    Ok(())
}

/// Adds a unit text, or `_`.
fn push_note(text: &mut Vec<u8>, note: &RawNote) -> Result<(), AllocError>
    ensures { OnOk result (text.new.items ≡ text.old.items ++ text_of (note_pieces (note_syntax note.now))) }
{
    match note {
        RawNote::Hole(_) => text.extend_from_slice(b"_"),
        RawNote::Unit(_, unit) => push_unit(text, unit),
    }
}

/// Adds a note in angle brackets, where there is one.
pub(crate) fn push_written(text: &mut Vec<u8>, note: &Option<RawNote>) -> Result<(), AllocError>
    ensures { OnOk result (text.new.items ≡ text.old.items ++ text_of (written_pieces (written_note note.now))) }
{
    let Some(note) = note else {
        return Ok(());
    };
    text.push(b'<')?;
    push_note(text, note)?;
    text.extend_from_slice(b">")
}

/// Adds notes in angle brackets, where there are some.
pub(crate) fn push_angled(text: &mut Vec<u8>, notes: &[RawNote]) -> Result<(), AllocError>
    ensures { OnOk result (text.new.items ≡ text.old.items ++ text_of (angled_pieces (map note_syntax notes.now))) }
{
    let Some((first, rest)) = notes.split_first() else {
        return Ok(());
    };
    text.push(b'<')?;
    push_note(text, first)?;
    for note in rest {
        text.extend_from_slice(b", ")?;
        push_note(text, note)?;
    }
    text.extend_from_slice(b">")
}
