// Where bytes come from.
ghost use Rattle.std.specs.Prelude.{◌≡◌, ℕ, List, ◌≤◌, OnOk, OnErr};
ghost use Rattle.std.specs.declared.option.Option.{Option};
ghost use Rattle.std.specs.Io.{ReadsAtMost};
ghost use Rattle.std.specs.Io.KnownBytes.{ReadConsumes};
ghost use Rattle.um_wire.specs.Faults.{Rose};

/// A read or a write failed. The fault is counted at the source or the sink.
#[derive(Clone, Copy)]
pub struct Failed;

/// Gives bytes, a piece at a time. Contracts see two things of it: the bytes left, if it tells them, and its count of
/// faults.
pub trait Source {
    /// The bytes that are left to read, if the source tells them.
    ghost left: { Self → Option (List ℕ) };

    /// How many faults the source has met.
    ghost faults: { Self → ℕ };

    /// Reads the next bytes left into the front of `into`, and answers how many. It answers 0 only if no byte is left
    /// or `into` is empty. After `Failed` the same bytes are left. A read that succeeds met no fault.
    fn read(&mut self, into: &mut [u8]) -> Result<usize, Failed>
        ensures bound { ReadsAtMost result into.new }
        ensures bytes { ReadConsumes (left self.old) (left self.new) result into.new }
        ensures no_fault { OnOk result (faults self.new ≡ faults self.old) }
        ensures never_falls { faults self.old ≤ faults self.new }
        ensures failed { OnErr result (Rose (faults self.old) (faults self.new)) };
}
