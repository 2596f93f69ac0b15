// Any writer of std as a sink.
ghost use Rattle.std.specs.Prelude.{◌≡◌, ◌≤◌, None, IfOk, OnOk, OnErr, take};
ghost use Rattle.std.specs.Io.KnownBytes.{Appends};
ghost use Rattle.um_wire.specs.Faults.{Rose, fault_count};
ghost use Rattle.um_wire.specs.Bytes.{TakesSome, AppendsPrefix};
ghost use Rattle.um_wire.specs.Standard.{StdSinkState};

use crate::{Failed, Sink};
use std::io::Write;
use std::marker::Model;

/// A writer of std, flushed after each write. It counts a write or a flush that fails, and a write that takes no byte
/// of a piece that isn't empty. It doesn't tell what was taken, since a failed flush may follow a write that was.
#[derive(Drop)]
pub struct StdSink<W: Write> {
    writer: W,
    faults: u64,
}

impl<W: Write> Model for StdSink<W> {
    ghost Value = { StdSinkState W };

    ghost view = { λ s. record { writer = s.writer; faults = s.faults } };
}

impl<W: Write> StdSink<W> {
    /// No fault yet.
    pub fn new(writer: W) -> StdSink<W>
        ensures { result ≡ record { writer = writer; faults = 0 } }
    {
        StdSink { writer, faults: 0 }
    }
}

impl<W: Write> Sink for StdSink<W> {
    ghost taken = { λ _. None };

    ghost faults = { λ s. s.faults };

    /// Writes to the writer once, and flushes it. After `Failed` the writer has got a prefix of `from`, if it tells
    /// what it got: all that it took before a flush that failed, or nothing.
    #[tactic(auto, unfolding(crate::specs::Faults::Rose))]
    fn write(&mut self, from: &[u8]) -> Result<usize, Failed>
        ensures bound { TakesSome result from.now }
        ensures no_fault { OnOk result (self.new.faults ≡ self.old.faults) }
        ensures never_falls { self.old.faults ≤ self.new.faults }
        ensures failed { OnErr result (Rose self.old.faults self.new.faults) }

        ensures faults { self.new.faults ≡ fault_count result self.old.faults }
        ensures written { IfOk result (λ n.
            Appends (W.contents self.old.writer) (W.contents self.new.writer) (take n from.now)) }
        ensures prefix { OnErr result (
            AppendsPrefix (W.contents self.old.writer) (W.contents self.new.writer) from.now) }
    {
        let result = write_flushed(&mut self.writer, from);
        if result.is_err() {
            self.faults = self.faults.saturating_add(1);
        }
        result
    }
}

// Writes to the writer once, and flushes it.
#[tactic(auto, using(crate::proofs::Pieces::failed_write))]
fn write_flushed<W: Write>(writer: &mut W, from: &[u8]) -> Result<usize, Failed>
    ensures bound { TakesSome result from.now }
    ensures written { IfOk result (λ n.
        Appends (W.contents writer.old) (W.contents writer.new) (take n from.now)) }
    ensures prefix { OnErr result (
        AppendsPrefix (W.contents writer.old) (W.contents writer.new) from.now) }
{
    let Ok(count) = writer.write(from) else {
        return Err(Failed);
    };
    if count == 0 && !from.is_empty() {
        return Err(Failed);
    }
    match writer.flush() {
        Ok(()) => Ok(count),
        Err(_) => Err(Failed),
    }
}
