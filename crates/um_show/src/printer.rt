//! How the numbers of a value are printed.
ghost use Rattle.std.specs.Prelude.{◌≡◌, ◌++◌, ℕ, List, OnOk};
ghost use Rattle.um_frac.specs.declared.number.Frac.{Frac};
ghost use Rattle.um_units.specs.Variables.{variables_below};
ghost use Rattle.um_tree.specs.TypeTree.{TypeTree, type_tree};
ghost use Rattle.um_tree.specs.ProgramTree.{ProgramTree, program_tree};
ghost use Rattle.um_show.specs.NumberText.{number_text};
ghost use Rattle.um_show.specs.UnitText.{unit_text};
ghost use Rattle.um_show.specs.ValueText.{number_at, suffix_text, suffix_at};

use crate::number::push_number;
use crate::printed_unit::push_unit;
use std::alloc::{AllocError, Global};
use um_frac::Frac;
use um_tree::{Name, Program, Ty};
use um_units::{Atom, Unit};

/// What prints the values of a program: the form of their numbers is its own.
pub trait ValuePrinter {
    // The text of a number at a type, and the program.
    ghost number: { Self → Frac → TypeTree → List ℕ };

    ghost tree: { Self → ProgramTree };

    /// The program of the values.
    fn program(&self) -> &Program
        ensures is { program_tree result.now ≡ Self.tree self.now };

    /// Adds the text of a number at a type.
    fn push_number(
        &self,
        alloc: Global,
        text: &mut Vec<u8>,
        c: Frac,
        ty: &Ty,
    ) -> Result<(), AllocError>
        ensures added { OnOk result (text.new.items ≡ text.old.items ++ Self.number self.now c (type_tree ty.now)) };
}

/// Prints the numbers of a program's values as they are.
#[derive(Drop)]
pub(crate) struct Exact<'a> {
    pub program: &'a Program,
}

impl<'a> ValuePrinter for Exact<'a> {
    ghost number = { λ exact. number_at (program_tree exact.program.now).bases };

    ghost tree = { λ exact. program_tree exact.program.now };

    fn program(&self) -> &Program {
        self.program
    }

    fn push_number(
        &self,
        alloc: Global,
        text: &mut Vec<u8>,
        c: Frac,
        ty: &Ty,
    ) -> Result<(), AllocError> {
        push_number_at(alloc, text, self.program.bases.as_slice(), c, ty)
    }
}

/// Adds the text of a number at a type as it is: the number, and directly after it its unit in angle brackets.
pub fn push_number_at(
    alloc: Global,
    text: &mut Vec<u8>,
    bases: &[Name],
    c: Frac,
    ty: &Ty,
) -> Result<(), AllocError>
    ensures { OnOk result (text.new.items ≡ text.old.items
        ++ (number_text c ++ suffix_at bases.now (type_tree ty.now))) }
{
    push_number(text, c)?;
    push_suffix_at(alloc, text, bases, ty)
}

/// Adds what stands after a number of this type.
fn push_suffix_at(
    alloc: Global,
    text: &mut Vec<u8>,
    bases: &[Name],
    ty: &Ty,
) -> Result<(), AllocError>
    ensures { OnOk result (text.new.items ≡ text.old.items ++ suffix_at bases.now (type_tree ty.now)) }
{
    match ty {
        Ty::Num(unit) => push_suffix(alloc, text, bases, unit),
        Ty::Bool => Ok(()),
        Ty::List(_) => Ok(()),
        Ty::Rec(_, _) => Ok(()),
    }
}

/// Adds the unit of a number, in angle brackets: nothing at the unit 1, and `<_>` at a unit with a variable.
pub fn push_suffix(
    alloc: Global,
    text: &mut Vec<u8>,
    bases: &[Name],
    unit: &Unit,
) -> Result<(), AllocError>
    ensures { OnOk result (text.new.items ≡ text.old.items
        ++ suffix_text (unit_text bases.now unit.now) (variables_below 0 unit.now.terms) unit.now.terms) }
{
    if unit.terms().is_empty() {
        return Ok(());
    }
    if !is_closed(unit) {
        return text.extend_from_slice(b"<_>");
    }
    text.push(b'<')?;
    push_unit(alloc, text, bases, unit)?;
    text.push(b'>')?;
    Ok(())
}

/// Whether the unit holds no variable. Takes no memory.
pub fn is_closed(unit: &Unit) -> bool
    ensures { result ≡ variables_below 0 unit.now.terms }
{
    unit.terms().iter().all(|term| match term.atom {
        Atom::Base(_) => true,
        Atom::Var(_) => false,
    })
}
