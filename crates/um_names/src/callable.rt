//! What may be called, and fields by number.

ghost use Rattle.std.specs.Prelude.{◌≡◌, ◌==◌, cond, Ok, Err, IfOk, IfErr};
ghost use Rattle.um_measures.specs.Faults.{wrong_count};
ghost use Rattle.um_measures.specs.Stops.{IsFirst};

use um_measures::NameStop;
use um_tree::Name;

/// A function that may be called: its name and the number of its parameters.
#[derive(Drop)]
pub struct Callable {
    pub name: Name,
    pub params: usize,
}

/// A field, by the number of its record and its own.
#[derive(Clone, Copy)]
pub struct FieldNumber {
    pub record_number: u32,
    pub field_number: u32,
}

/// The number of a function with so many parameters, where there are as many arguments.
pub fn counted(number: u32, params: usize, arguments: usize, at: u32) -> Result<u32, NameStop>
    ensures exact { IfOk result (λ j. cond (arguments == params) (Ok number) (Err (wrong_count at)) ≡ Ok j) }
    ensures faults { IfErr result (IsFirst (cond (arguments == params) (Ok number) (Err (wrong_count at)))) }
{
    if arguments == params {
        Ok(number)
    } else {
        Err(NameStop::WrongCount { at })
    }
}
