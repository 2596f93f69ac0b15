// The texts of types.
ghost use Rattle.std.specs.Prelude.{◌≡◌, ◌++◌, OnOk};
ghost use Rattle.um_tree.specs.RawTree.{type_syntax};
ghost use Rattle.um_show.specs.Pieces.{text_of};
ghost use Rattle.um_show.specs.Layout.{type_pieces};

use crate::text::push_name;
use crate::unit::{push_angled, push_written};
use std::alloc::AllocError;
use um_tree::RawType;

/// Adds a type text.
#[cycle(push_type)]
pub(crate) fn push_type(text: &mut Vec<u8>, ty: &RawType) -> Result<(), AllocError>
    ensures { OnOk result (text.new.items ≡ text.old.items ++ text_of (type_pieces (type_syntax ty.now))) }
{
    match ty {
        RawType::Bool => text.extend_from_slice(b"bool"),
        RawType::Num(note) => {
            text.extend_from_slice(b"num")?;
            push_written(text, note)
        }
        RawType::Name(_, name, notes) => {
            push_name(text, name)?;
            push_angled(text, &notes.items)
        }
        RawType::List(t) => {
            push_type(text, t)?;
            text.extend_from_slice(b" list")
        }
        RawType::Bracket(t) => {
            text.push(b'(')?;
            push_type(text, t)?;
            text.extend_from_slice(b")")
        }
    }
}
