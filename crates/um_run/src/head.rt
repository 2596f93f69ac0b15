//! Functions of an image by their names.
ghost use Rattle.std.specs.Prelude.{◌≡◌, ◌<◌, ◌^◌, length, map};
ghost use Rattle.std.specs.Str.{bytes_eq};
ghost use Rattle.um_measures.specs.Known.{number_of};
ghost use Rattle.um_verify.specs.ImageTree.{head_tree};
ghost use Rattle.um_run.specs.ImageCalls.{head_names};

use um_verify::Head;

/// The number of the function of this name, counted from 0.
pub(crate) fn head_named(heads: &[Head], name: &[u8]) -> Option<u32>
    requires { length heads.now < 2 ^ 32 }
    ensures { result ≡ number_of (head_names (map head_tree heads.now)) name.now }
{
    for k in 0..heads.len() {
        if has_name(&heads[k], name) {
            return Some(k as u32);
        }
    }
    None
}

fn has_name(head: &Head, name: &[u8]) -> bool
    ensures { result ≡ bytes_eq name.now head.now.name }
{
    name == head.name.as_slice()
}
