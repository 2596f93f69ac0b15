//! The texts of numbers with decimals, in chosen units.
ghost use Rattle.std.specs.Prelude.{◌≡◌, ◌≤◌, ◌++◌, OnOk, Some, codes, option_map};
ghost use Rattle.um_tree.specs.ProgramTree.{program_tree};
ghost use Rattle.um_tree.specs.TypeTree.{type_tree};
ghost use Rattle.um_decimals.specs.Decimals.{decimal_text};
ghost use Rattle.um_display.specs.DisplayText.{first_at, divided, own_text, in_unit, number_at, number_display};
ghost use Rattle.um_display.specs.DisplayText.{same_unit};

use crate::display::Display;
use crate::unit::DisplayUnit;
use std::alloc::{AllocError, Global};
use um_decimals::push_decimal;
use um_frac::{Frac, Trap};
use um_show::{is_closed, push_number_at as push_plain_number_at, push_suffix};
use um_tree::{Name, Ty};
use um_units::Unit;

/// Adds a number at a type.
pub(crate) fn push_number_display(
    alloc: Global,
    text: &mut Vec<u8>,
    display: &Display,
    c: Frac,
    ty: &Ty,
) -> Result<(), AllocError>
    ensures { OnOk result (text.new.items ≡ text.old.items ++ number_display
        (program_tree display.now.program.now).bases display.now.digits display.now.units.now c (type_tree ty.now)) }
{
    match ty {
        Ty::Num(unit) if is_closed(unit) => push_closed(alloc, text, display, c, unit),
        Ty::Num(_) => push_plain_number_at(alloc, text, display.program.bases.as_slice(), c, ty),
        Ty::Bool | Ty::List(_) | Ty::Rec(_, _) => push_decimal(text, c, display.digits),
    }
}

/// Adds a number at a unit without variables.
fn push_closed(
    alloc: Global,
    text: &mut Vec<u8>,
    display: &Display,
    c: Frac,
    unit: &Unit,
) -> Result<(), AllocError>
    ensures { OnOk result (text.new.items ≡ text.old.items ++ in_unit (program_tree display.now.program.now).bases
        display.now.digits c unit.now (first_at unit.now display.now.units.now)) }
{
    match first_at(display.units, unit) {
        Some(one) => push_in_unit(alloc, text, display, c, unit, one),
        None => push_own(alloc, text, display, c, unit),
    }
}

/// Adds a number with the label of its unit, or with the unit's own text if the quotient by the label's size overflows.
fn push_in_unit(
    alloc: Global,
    text: &mut Vec<u8>,
    display: &Display,
    c: Frac,
    unit: &Unit,
    one: &DisplayUnit,
) -> Result<(), AllocError>
    ensures { OnOk result (text.new.items ≡ text.old.items ++ in_unit (program_tree display.now.program.now).bases
        display.now.digits c unit.now (Some one.now)) }
{
    match divided(c, one.size) {
        Ok(w) => push_labelled(text, display.digits, w, &one.label),
        Err(_) => push_own(alloc, text, display, c, unit),
    }
}

/// The number divided by the size, if there is one.
fn divided(c: Frac, size: Option<Frac>) -> Result<Frac, Trap>
    ensures { result ≡ divided c size }
{
    match size {
        Some(d) => c.div(d),
        None => Ok(c),
    }
}

/// Adds a number with a label.
fn push_labelled(text: &mut Vec<u8>, digits: u32, w: Frac, label: &Name) -> Result<(), AllocError>
    requires few { digits ≤ 18 }
    ensures { OnOk result (text.new.items ≡ text.old.items
        ++ (decimal_text digits w ++ codes "<" ++ label.now ++ codes ">")) }
{
    push_decimal(text, w, digits)?;
    text.push(b'<')?;
    text.extend_from_slice(label.as_slice())?;
    text.extend_from_slice(b">")
}

/// Adds a number with its unit's own text, or without one at the unit 1.
fn push_own(
    alloc: Global,
    text: &mut Vec<u8>,
    display: &Display,
    c: Frac,
    unit: &Unit,
) -> Result<(), AllocError>
    ensures { OnOk result (text.new.items ≡ text.old.items ++ own_text (program_tree display.now.program.now).bases
        display.now.digits c unit.now) }
{
    push_decimal(text, c, display.digits)?;
    push_suffix(alloc, text, display.program.bases.as_slice(), unit)
}

/// The first of the units that is this one.
fn first_at<'a>(units: &'a [DisplayUnit], unit: &Unit) -> Option<&'a DisplayUnit>
    ensures { option_map (λ d. d.now) result ≡ first_at unit.now units.now }
{
    for one in units {
        if is_same(unit, &one.unit) {
            return Some(one);
        }
    }
    None
}

/// Whether the two are one unit.
fn is_same(unit: &Unit, other: &Unit) -> bool
    ensures { result ≡ same_unit unit.now other.now }
{
    unit.same(other)
}
