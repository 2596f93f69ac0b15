// Readers that take one token at a time.
ghost use Rattle.std.specs.Prelude.{◌≡◌, ◌≢◌, ℕ, ◌≤◌, IfOk, option_map};
ghost use Rattle.um_reader.specs.Machine.{Machine};
ghost use Rattle.um_reader.specs.Takes.{Takes};

use crate::taken::Taken;
use std::alloc::{AllocError, Global};

/// A text that is read one token at a time, in place.
///
/// A reader moves what it keeps of a token out of it, so nothing is copied.
pub trait Reader {
    type Token: Drop;

    type Tree: Drop;

    // The machine that the reader stands for, and the greatest height of a text.
    ghost States: { Type 0 };

    ghost Syntax: { Type 0 };

    ghost machine: { Machine Self.States Self.Token Self.Syntax };

    ghost limit: { ℕ };

    // The state that a reader is in, and what a tree is to the machine.
    ghost state_in: { Self → Self.States };

    ghost view: { Self.Tree → Self.Syntax };

    /// No token was read yet.
    fn new(alloc: Global) -> Self
        ensures start { Self.state_in result ≡ Self.machine.start };

    /// One token more. What is left of the token, the reader says.
    fn take(&mut self, alloc: Global, token: &mut Self::Token) -> Result<Taken, AllocError>
        requires low { Self.machine.least (Self.state_in self.old) ≤ Self.limit }
        ensures taken { IfOk result
            (λ t. Takes Self.machine Self.limit (Self.state_in self.old) token.old t (Self.state_in self.new)) };

    /// The same token, copied.
    fn copy(alloc: Global, token: &Self::Token) -> Result<Self::Token, AllocError>
        ensures copied { IfOk result (λ t. t ≡ token.now) };

    /// The tree of the tokens that were taken, if they are one.
    fn finish(self, alloc: Global) -> Result<Option<Self::Tree>, AllocError>
        ensures found { IfOk result (λ o. option_map Self.view o ≡ Self.machine.finish (Self.state_in self)) };

    ghost starts: { machine.start ≢ machine.refused };

    ghost starts_low: { machine.least machine.start ≤ limit };
}
