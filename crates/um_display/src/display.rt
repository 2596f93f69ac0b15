//! How the values of a program are printed.
ghost use Rattle.std.specs.Prelude.{◌≤◌};

use crate::number::push_number_display;
use crate::unit::DisplayUnit;
use std::alloc::{AllocError, Global};
use um_frac::Frac;
use um_show::ValuePrinter;
use um_tree::{Program, Ty};

/// Prints the numbers of a program's values with so many digits after the point, in these units if one of them is a
/// number's. With it `um_show::text_by` gives the text of a value.
///
/// The digits are at most 18. A number is printed as the nearest decimal number, of two nearest as the one whose last
/// digit is even, and `~` stands before it if it isn't the value; after it stands the label of the first unit that is
/// its own, and otherwise its unit's own text. A number at a unit with a variable is printed as it is.
#[derive(Drop)]
pub struct Display<'a> {
    pub program: &'a Program,
    pub digits: u32,
    pub units: &'a [DisplayUnit],
    ghost few: { digits ≤ 18 },
}

impl<'a> ValuePrinter for Display<'a> {
    ghost use Rattle.um_tree.specs.ProgramTree.{program_tree};
    ghost use Rattle.um_display.specs.DisplayText.{number_display};

    ghost number = { λ display. number_display (program_tree display.program.now).bases display.digits
        display.units.now };

    ghost tree = { λ display. program_tree display.program.now };

    fn program(&self) -> &Program {
        self.program
    }

    fn push_number(
        &self,
        alloc: Global,
        text: &mut Vec<u8>,
        c: Frac,
        ty: &Ty,
    ) -> Result<(), AllocError> {
        push_number_display(alloc, text, self, c, ty)
    }
}
