// The first fault of names in a value text.
ghost use Rattle.std.specs.Prelude.{◌≡◌, map};
ghost use Rattle.um_tree.specs.RawTree.{written_note};
ghost use Rattle.um_measures.specs.Known.{short_unit};
ghost use Rattle.um_value.specs.ValueSyntax.{raws_in_order, value_syntax};
ghost use Rattle.um_value.specs.ValueNames.{note_fault, name_fault, name_fault_among};

use crate::raw::RawValue;
use std::alloc::Global;
use um_frac::Frac;
use um_measures::{Measures, NameTable, first_unknown};
use um_tree::RawNote;

/// The place of the first measure or variable that isn't known, or of a number other than 0 with `<_>`.
#[cycle(name_fault)]
pub(crate) fn name_fault(alloc: Global, measures: &Measures, raw: &RawValue) -> Option<u32>
    ensures { result ≡ name_fault (short_unit measures.now) (value_syntax raw.now) }
{
    match raw {
        RawValue::Bool(_) => None,
        RawValue::Num(at, _, value, note) => note_fault(alloc, measures, *at, *value, note),
        RawValue::List(values) => name_fault_among(alloc, measures, &values.items),
        RawValue::Rec(_, values) => name_fault_among(alloc, measures, &values.items),
    }
}

#[cycle(name_fault)]
fn name_fault_among(alloc: Global, measures: &Measures, raws: &[RawValue]) -> Option<u32>
    ensures { result ≡ name_fault_among (short_unit measures.now) (raws_in_order (map value_syntax raws.now)) }
{
    for i in 0..raws.len() {
        if let Some(at) = name_fault(alloc, measures, &raws[i]) {
            return Some(at);
        }
    }
    None
}

// The fault of a number at this place.
fn note_fault(
    alloc: Global,
    measures: &Measures,
    at: u32,
    number: Frac,
    note: &Option<RawNote>,
) -> Option<u32>
    ensures { result ≡ note_fault (short_unit measures.now) at number (written_note note.now) }
{
    match note {
        None => None,
        Some(RawNote::Hole(_)) => { if number.num() == 0 { None } else { Some(at) } }
        Some(RawNote::Unit(_, unit)) => first_unknown(measures, &NameTable::new(alloc), unit),
    }
}
