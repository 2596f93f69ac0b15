// Values that are copied, and unit texts that stand alone.
use std::alloc::{AllocError, Global};
use um_frac::Frac;
use um_measures::{Abbreviation, Abbreviations, NameStop, closed_unit};
use um_tree::{
    Functions, Name, Names, Program, RawUnit, Records, UnitNote, Value, Values, copy_value,
};
use um_units::{Atom, Term, Unit, UnitStop};

const METRES_SQUARED: Term = Term {
    atom: Atom::Base(0),
    power: 2,
};

// A program that declares the base unit m alone.
fn program_with_metres(alloc: Global) -> Result<Program, AllocError> {
    let name = Name::from_slice(alloc, b"m")?;
    Ok(Program {
        bases: Names::from_vec(vec![in alloc; name]?),
        records: Records {
            items: Vec::new(alloc),
        },
        functions: Functions {
            items: Vec::new(alloc),
        },
    })
}

// The unit m^2 under this name.
fn square_metres(alloc: Global, name: Name) -> Result<Abbreviations, UnitStop> {
    match Unit::from_terms(alloc, &[METRES_SQUARED]) {
        Ok(unit) => {
            let short = Abbreviation { name, unit };
            Ok(Abbreviations::from_vec(vec![in alloc; short]?))
        }
        Err(stop) => {
            drop(name);
            Err(stop)
        }
    }
}

// The unit of the text `a`, which abbreviates m^2.
fn unit_of_text(alloc: Global, program: &Program) -> Result<UnitNote, NameStop> {
    let raw = RawUnit::Name(0, Name::from_slice(alloc, b"a")?);
    let note = unit_with(alloc, program, &raw);
    drop(raw);
    note
}

fn unit_with(alloc: Global, program: &Program, raw: &RawUnit) -> Result<UnitNote, NameStop> {
    match square_metres(alloc, Name::from_slice(alloc, b"a")?) {
        Ok(shorts) => {
            let note = closed_unit(alloc, program, &shorts, raw);
            drop(shorts);
            note
        }
        Err(_) => Err(NameStop::NoMemory),
    }
}

/// A unit text that stands alone is read by its abbreviations.
pub fn a_unit_text_is_read(alloc: Global) -> Result<bool, NameStop> {
    let program = program_with_metres(alloc)?;
    let note = unit_of_text(alloc, &program);
    program.discard();
    let note = note?;
    let is_read =
        matches!(&note, UnitNote::Written(unit) if unit.terms() == [METRES_SQUARED].as_slice());
    drop(note);
    Ok(is_read)
}

/// A value is copied.
pub fn a_value_is_copied(alloc: Global) -> Result<bool, AllocError> {
    let list = Value::List(Values {
        items: vec![in alloc; Value::Num(Frac::one())]?,
    });
    let copy = copy_value(alloc, &list);
    drop(list);
    let copy = copy?;
    let is_equal = matches!(&copy, Value::List(values)
        if matches!(values.items.as_slice(), [Value::Num(number)] if number.same(Frac::one())));
    drop(copy);
    Ok(is_equal)
}
