//! Functions by their names.
ghost use Rattle.std.specs.Prelude.{◌≡◌, ◌≤◌, length, map};
ghost use Rattle.std.specs.Str.{bytes_eq};
ghost use Rattle.um_tree.specs.Formed.{IsFormed};
ghost use Rattle.um_tree.specs.ProgramTree.{function_tree, program_tree};
ghost use Rattle.um_measures.specs.Known.{number_of, function_names};

use um_tree::{Function, Program};

/// The number of the function of this name, counted from 0. It takes time linear in the functions, and no memory.
pub fn function_named(program: &Program, name: &str) -> Option<u32>
    requires { IsFormed (program_tree program.now) }
    ensures { result ≡ number_of (function_names (program_tree program.now).functions) name.now }
{
    named_among(&program.functions.items, name.as_bytes())
}

fn named_among(functions: &[Function], name: &[u8]) -> Option<u32>
    requires { length functions.now ≤ 2000 }
    ensures { result ≡ number_of (function_names (map function_tree functions.now)) name.now }
{
    for k in 0..functions.len() {
        if has_name(&functions[k], name) {
            return Some(k as u32);
        }
    }
    None
}

fn has_name(function: &Function, name: &[u8]) -> bool
    ensures { result ≡ bytes_eq name.now function.now.name }
{
    name == function.name.as_slice()
}
