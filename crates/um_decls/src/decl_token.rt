// Tokens as declarations take them: what a reader inside makes of one.
ghost use Rattle.std.specs.Prelude.{◌≡◌, ◌≤◌, IfOk};
ghost use Rattle.um_reader.specs.Takes.{Takes};
ghost use Rattle.um_unit_texts.specs.UnitStops.{greatest_height};
ghost use Rattle.um_unit_texts.specs.UnitLeast.{machine_of_units};
ghost use Rattle.um_unit_texts.specs.UnitView.{unit_state};
ghost use Rattle.um_types.specs.TypeMachine.{type_least, machine_of_types};
ghost use Rattle.um_types.specs.TypeView.{type_state};
ghost use Rattle.um_decls.specs.DeclTokens.{BeginsAlike, IfStops};

use std::alloc::{AllocError, Global};
use um_reader::{Reader, Taken};
use um_syntax::Token;
use um_types::TypeReader;
use um_unit_texts::UnitReader;

/// One token more of a type, which stays as it was if it is refused.
#[inline(always)]
pub fn take_in_type(
    ty: &mut TypeReader,
    alloc: Global,
    token: &mut Token,
) -> Result<Taken, AllocError>
    requires low { type_least (type_state ty.old) ≤ greatest_height }
    ensures taken { IfOk result
        (λ t. Takes machine_of_types greatest_height (type_state ty.old) token.old t (type_state ty.new)) }
    ensures kept { IfOk result (λ t. IfStops t (token.new ≡ token.old)) }
{
    ty.take(alloc, token)
}

/// One token more of a unit text, which stays as it was if it is refused.
pub fn take_in_unit(
    unit: &mut Box<UnitReader>,
    alloc: Global,
    token: &mut Token,
) -> Result<Taken, AllocError>
    ensures taken { IfOk result
        (λ t. Takes machine_of_units greatest_height (unit_state unit.old.value) token.old t
        (unit_state unit.new.value)) }
    ensures kept { IfOk result (λ t. IfStops t (BeginsAlike token.new token.old)) }
{
    unit.take(alloc, token)
}
