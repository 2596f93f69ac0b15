// Where bytes go.
ghost use Rattle.std.specs.Prelude.{◌≡◌, ℕ, List, ◌≤◌, OnOk, OnErr};
ghost use Rattle.std.specs.declared.option.Option.{Option};
ghost use Rattle.std.specs.Io.KnownBytes.{WriteAppends};
ghost use Rattle.um_wire.specs.Faults.{Rose};
ghost use Rattle.um_wire.specs.Bytes.{TakesSome};

use crate::Failed;

/// Takes bytes, a piece at a time. Contracts see two things of it: the bytes that it took, if it tells them, and its
/// count of faults.
pub trait Sink {
    /// The bytes that the sink took, in order, if it tells them.
    ghost taken: { Self → Option (List ℕ) };

    /// How many faults the sink has met.
    ghost faults: { Self → ℕ };

    /// Takes the first bytes of `from`, and answers how many: at least one of a piece that isn't empty. After `Failed`
    /// the bytes taken are those of before, if the sink tells them. A write that succeeds met no fault.
    fn write(&mut self, from: &[u8]) -> Result<usize, Failed>
        ensures bound { TakesSome result from.now }
        ensures bytes { WriteAppends (taken self.old) (taken self.new) result from.now }
        ensures no_fault { OnOk result (faults self.new ≡ faults self.old) }
        ensures never_falls { faults self.old ≤ faults self.new }
        ensures failed { OnErr result (Rose (faults self.old) (faults self.new)) };
}
