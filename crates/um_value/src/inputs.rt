// The input that a value text stands for.
ghost use Rattle.std.specs.Prelude.{◌≡◌, ◌∷◌, ◌++◌, [], None, IfOk, IfErr, map};
ghost use Rattle.um_value.specs.declared.stop.InputStop.TheVariants.{NoMemory};
ghost use Rattle.um_units.specs.PowerMap.{PowerMap};
ghost use Rattle.um_tree.specs.RawTree.{written_note};
ghost use Rattle.um_tree.specs.ValueTree.{input_tree, input_trees, inputs_in_order};
ghost use Rattle.um_measures.specs.Faults.{Found};
ghost use Rattle.um_measures.specs.Known.{short_unit};
ghost use Rattle.um_measures.specs.Stops.{IsFirst};
ghost use Rattle.um_value.specs.ValueSyntax.{raws_in_order, value_syntax, value_syntaxes};
ghost use Rattle.um_value.specs.ValueNames.{signed_number, fault_in, note_range_fault, range_fault, range_fault_among};
ghost use Rattle.um_value.specs.ValueNames.{unit_note_of, input_of, inputs_of};
ghost use Rattle.um_value.specs.RangeStops.{IsRangeAt};

use crate::raw::{RawValue, RawValues};
use crate::stop::InputStop;
use std::alloc::Global;
use um_frac::Frac;
use um_measures::{Measures, NameStop, NameTable, resolved_unit};
use um_tree::{Input, Inputs, RawNote, UnitNote};
use um_units::Unit;

/// The input of a value text, or the first unit text that stands for no unit.
#[cycle(input_of)]
pub(crate) fn input_of(
    alloc: Global,
    measures: &Measures,
    raw: &RawValue,
) -> Result<Input, InputStop>
    ensures ok { IfOk result (λ _. range_fault (short_unit measures.now) (value_syntax raw.now) ≡ None) }
    ensures exact { IfOk result (λ input. input_tree input
        ≡ input_of (short_unit measures.now) (value_syntax raw.now)) }
    ensures faults { IfErr result (IsRangeAt (range_fault (short_unit measures.now) (value_syntax raw.now))) }
{
    match raw {
        RawValue::Bool(b) => Ok(Input::Bool(*b)),
        RawValue::Num(_, negative, value, note) => {
            let note = unit_note(alloc, measures, note)?;
            Ok(Input::Num(signed_number(*negative, *value), note))
        }
        RawValue::List(values) => Ok(Input::List(inputs_of(alloc, measures, values)?)),
        RawValue::Rec(r, values) => Ok(Input::Rec(*r, inputs_of(alloc, measures, values)?)),
    }
}

#[cycle(input_of)]
fn inputs_of(alloc: Global, measures: &Measures, raws: &RawValues) -> Result<Inputs, InputStop>
    ensures ok { IfOk result (λ _. range_fault_among (short_unit measures.now) (value_syntaxes raws.now) ≡ None) }
    ensures exact { IfOk result (λ inputs. input_trees inputs
        ≡ inputs_of (short_unit measures.now) (value_syntaxes raws.now)) }
    ensures faults { IfErr result (IsRangeAt (range_fault_among (short_unit measures.now) (value_syntaxes raws.now))) }
{
    let items = each_input_of(alloc, measures, &raws.items)?;
    Ok(Inputs { items })
}

#[cycle(input_of)]
fn each_input_of(
    alloc: Global,
    measures: &Measures,
    raws: &[RawValue],
) -> Result<Vec<Input>, InputStop>
    ensures ok { IfOk result (λ _. range_fault_among (short_unit measures.now)
        (raws_in_order (map value_syntax raws.now)) ≡ None) }
    ensures exact { IfOk result (λ inputs. inputs_in_order (map input_tree inputs.items)
        ≡ inputs_of (short_unit measures.now) (raws_in_order (map value_syntax raws.now))) }
    ensures faults { IfErr result (IsRangeAt (range_fault_among (short_unit measures.now)
        (raws_in_order (map value_syntax raws.now)))) }
{
    let mut inputs = Vec::new(alloc);
    for i in 0..raws.len() {
        inputs = match input_of(alloc, measures, &raws[i]) {
            Ok(input) => with_input(inputs, input)?,
            Err(stop) => {
                drop(inputs);
                return Err(stop);
            }
        };
    }
    Ok(inputs)
}

// These inputs, and one more.
fn with_input(earlier: Vec<Input>, last: Input) -> Result<Vec<Input>, InputStop>
    ensures exact { IfOk result (λ all. map input_tree all.items
        ≡ map input_tree earlier.items ++ input_tree last ∷ []) }
    ensures memory { IfErr result (λ stop. stop ≡ NoMemory) }
{
    let mut all = earlier;
    all.push(last)?;
    Ok(all)
}

// The number with its sign.
fn signed_number(negative: bool, value: Frac) -> Frac
    ensures { result ≡ signed_number negative value }
{
    if negative { value.neg() } else { value }
}

// The note of a number: 1 if none is written.
fn unit_note(
    alloc: Global,
    measures: &Measures,
    note: &Option<RawNote>,
) -> Result<UnitNote, InputStop>
    ensures ok { IfOk result (λ _. note_range_fault (short_unit measures.now) (written_note note.now) ≡ None) }
    ensures exact { IfOk result (λ n. n ≡ unit_note_of (short_unit measures.now) (written_note note.now)) }
    ensures faults { IfErr result (IsRangeAt (note_range_fault (short_unit measures.now) (written_note note.now))) }
{
    match note {
        None => Ok(UnitNote::Written(Unit::one(alloc))),
        Some(RawNote::Hole(_)) => Ok(UnitNote::Hole),
        Some(RawNote::Unit(_, unit)) => {
            match resolved_unit(alloc, measures, &NameTable::new(alloc), unit) {
                Ok(unit) => Ok(UnitNote::Written(unit)),
                Err(stop) => Err(range_stop(stop)),
            }
        }
    }
}

// A unit text that stands for no unit, after names that are known.
fn range_stop(stop: NameStop) -> InputStop
    ensures { (found : Found PowerMap) → IsFirst found stop → IsRangeAt (fault_in found) result }
{
    match stop {
        NameStop::Unknown { at }
        | NameStop::Twice { at }
        | NameStop::WrongCount { at }
        | NameStop::Hole { at }
        | NameStop::Range { at } => InputStop::PowerRange { at },
        NameStop::NoMemory => InputStop::NoMemory,
    }
}
