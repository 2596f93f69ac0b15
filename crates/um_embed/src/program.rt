// What the host holds of a program that is open.
ghost use Rattle.std.specs.Prelude.{◌≡◌, ℕ, List, None, Some, true, false};
ghost use Rattle.std.specs.Option.{MatchOption};
ghost use Rattle.um_embed.specs.Embedded.{held};
ghost use Rattle.um_embed.specs.Owned.{opened_owns};

use crate::loose::Loose;
use crate::opened::Opened;
use std::alloc::Global;
use std::marker::Model;
use std::ptr::null_mut;

/// A program that is open, or none. The host has room for it, and begins with zero bytes, which is none.
#[repr(C)]
pub struct Program {
    pub is_open: bool,
    pub(crate) at: *mut (),
    pub ghost text: { List ℕ },
}

impl Model for Program {
    ghost also_owns = { λ p. opened_owns p.is_open p.at p.text };
}

impl Program {
    /// None: what zero bytes are in the host's room.
    pub fn none() -> Program
        ensures { held result.is_open result.text ≡ None }
    {
        let at = nowhere();
        Program::closed(at)
    }

    /// This program.
    pub(crate) fn keeping(opened: Box<Opened>) -> Program
        ensures { held result.is_open result.text ≡ Some opened.value }
    {
        Program::of(Loose::of(opened))
    }

    /// The program that it holds, if it holds one.
    pub(crate) fn into_opened(self, alloc: Global) -> Option<Box<Opened>>
        ensures { MatchOption result (held self.is_open self.text ≡ None)
            (λ opened. held self.is_open self.text ≡ Some opened.value) }
    {
        match self.into_loose(alloc) {
            Some(loose) => Some(loose.into_box()),
            None => None,
        }
    }

    /// Lets it go. If it is none, nothing happens.
    pub fn close(self, alloc: Global) {
        drop(self.into_opened(alloc));
    }

    fn closed(at: *mut ()) -> Program
        ensures { result.is_open ≡ false }
    {
        Program { is_open: false, at }
    }

    fn of(loose: Loose<Opened, Global>) -> Program
        ensures { (result.is_open ≡ true) × (result.text ≡ loose.value) }
    {
        let Loose { at, alloc: _ } = loose;
        Program {
            is_open: true,
            at: at as *mut (),
        }
    }

    fn into_loose(self, alloc: Global) -> Option<Loose<Opened, Global>>
        ensures { MatchOption result (self.is_open ≡ false)
            (λ loose. (self.is_open ≡ true) × (loose.value ≡ self.text)) }
    {
        let Program { is_open, at } = self;
        if is_open {
            let at = at as *mut Opened;
            Some(Loose { at, alloc })
        } else {
            None
        }
    }
}

/// The null pointer.
fn nowhere() -> *mut () {
    null_mut()
}
