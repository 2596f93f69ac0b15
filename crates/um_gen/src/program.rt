//! The code of programs.
ghost use Rattle.std.specs.Prelude.{◌≡◌, ◌+◌, ◌<◌, ◌^◌, ◌++◌, length, IfOk, OnOk};
ghost use Rattle.std.specs.List.{range_with_len};
ghost use Rattle.um_tree.specs.ExprTree.{expr_tree};
ghost use Rattle.um_tree.specs.ProgramTree.{function_tree, program_tree};
ghost use Rattle.um_gen.specs.ProgramCode.{expr_size, function_code, function_entry, program_code};

use crate::emitter::Emitter;
use crate::expr::emit;
use std::alloc::Global;
use um_machine::{Code, Entries, Entry, Op};
use um_shape::Shaped;
use um_tree::Function;
use um_units::NoMemory;

/// The code of the program: its functions in order, each the code of its body and then `ret`. Addresses count over the
/// whole program from 0.
///
/// `NoMemory` is its one error. The instructions are this project's own; that a tree is compiled part by part is
/// McCarthy and Painter, Correctness of a compiler for arithmetic expressions, 1967.
pub fn generate(alloc: Global, shaped: &Shaped) -> Result<Code, NoMemory>
    ensures { IfOk result (λ code. code ≡ program_code (program_tree shaped.now).functions) }
{
    let functions: &[Function] = &shaped.program().functions.items;
    let mut out = Emitter::new(alloc);
    let mut entries = Vec::new(alloc);
    for i in 0..functions.len() {
        let entry = emit_function(&mut out, &functions[i])?;
        entries.push(entry)?;
    }
    Ok(Code {
        ops: out.into_ops(),
        entries: Entries::from_vec(entries),
    })
}

/// Writes the code of a function, and gives its entry.
fn emit_function(out: &mut Emitter, function: &Function) -> Result<Entry, NoMemory>
    requires addresses { length out.old.ops.items + expr_size (expr_tree function.now.body) + 1 < 2 ^ 32 }
    requires depth { length (function_tree function.now).params + expr_size (expr_tree function.now.body) < 2 ^ 32 }
    ensures ops { OnOk result (out.new.ops.items ≡ out.old.ops.items
        ++ function_code (function_tree function.now) (length out.old.ops.items)) }
    ensures entry { IfOk result (λ entry. entry ≡ function_entry (function_tree function.now)
        (length out.old.ops.items)) }
{
    let start = out.address();
    let params = function.params.items.len() as u32;
    set_places(out, params)?;
    emit(out, params, &function.body)?;
    out.put(Op::Ret)?;
    Ok(Entry {
        start,
        end: out.address(),
        params,
    })
}

/// Makes the places those of so many parameters.
fn set_places(out: &mut Emitter, params: u32) -> Result<(), NoMemory>
    ensures places { OnOk result (out.new.places.items ≡ range_with_len 0 params) }
    ensures ops { OnOk result (out.new.ops.items ≡ out.old.ops.items) }
{
    out.places.clear();
    for k in 0..params {
        out.places.push(k)?;
    }
    Ok(())
}
