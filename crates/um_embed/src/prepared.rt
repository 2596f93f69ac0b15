// What is made of a checked program once for many calls.
ghost use Rattle.std.specs.Prelude.{IfOk};
ghost use Rattle.um_embed.specs.Calling.{IsPreparedFor};

use std::alloc::{AllocError, Global};
use um_front::Checked;
use um_gen::generate;
use um_machine::Code;
use um_run::{CallTables, tables_of};

/// The code of a program, and the tables of its names.
#[derive(Drop)]
pub(crate) struct Prepared {
    pub(crate) code: Code,
    pub(crate) tables: CallTables,
}

/// What is made of a program for its calls. Want of memory is the one error.
pub(crate) fn prepare(alloc: Global, checked: &Checked) -> Result<Prepared, AllocError>
    ensures { IfOk result (λ prepared. IsPreparedFor checked.now prepared) }
{
    let shaped = checked.shaped();
    let code = generate(alloc, shaped)?;
    match tables_of(alloc, shaped, checked.abbreviations()) {
        Ok(tables) => Ok(Prepared { code, tables }),
        Err(error) => {
            drop(code);
            Err(error)
        }
    }
}
