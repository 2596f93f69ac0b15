// Where the pieces of a text go as they are read.
ghost use Rattle.std.specs.Prelude.{◌≡◌, ◌+◌, ◌-◌, ◌^◌, ◌≤◌, ◌++◌, ℕ, List, length, OnOk};

use crate::NoMemory;
use std::alloc::Allocator;

/// Takes the pieces of a text, one after another. Contracts see two things of it: the bytes that it took, and the
/// greatest number of bytes that it may be given, which never changes.
pub trait Taker {
    /// The bytes that were taken, in order.
    ghost taken: { Self → List ℕ };

    /// At most how many bytes it may be given in all.
    ghost most: { Self → ℕ };

    /// Takes all of `piece`. After `NoMemory` nothing is known of the bytes taken.
    fn take(&mut self, piece: &[u8]) -> Result<(), NoMemory>
        requires { length (taken self.old) + length piece.now ≤ most self.old }
        ensures added { OnOk result (taken self.new ≡ taken self.old ++ piece.now) }
        ensures most { most self.new ≡ most self.old };
}

/// A vector takes bytes at its end.
impl<A: Allocator> Taker for Vec<u8, A> {
    ghost taken = { λ v. v.items };

    ghost most = { λ _. 2 ^ 64 - 1 };

    fn take(&mut self, piece: &[u8]) -> Result<(), NoMemory> {
        self.extend_from_slice(piece)
    }
}
