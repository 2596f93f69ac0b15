// Writing a whole text.
ghost use Rattle.std.specs.Prelude.{◌≡◌, ◌≤◌, [], OnOk, OnErr};
ghost use Rattle.std.specs.Io.KnownBytes.{Appends};
ghost use Rattle.um_wire.specs.Faults.{Rose};
ghost use Rattle.um_wire.specs.Bytes.{AppendsPrefix};

use crate::{Failed, Sink};

/// Writes all of `bytes`, in order. If a write fails, it stops there, and the sink has taken a prefix of `bytes`. It
/// makes no write if there are no bytes. It takes no memory.
pub fn write_all<K: Sink>(sink: &mut K, bytes: &[u8]) -> Result<(), Failed>
    ensures all { OnOk result (Appends (K.taken sink.old) (K.taken sink.new) bytes.now) }
    ensures prefix { OnErr result (AppendsPrefix (K.taken sink.old) (K.taken sink.new) bytes.now) }
    ensures nothing { bytes.now ≡ [] → sink.new ≡ sink.old }
    ensures no_fault { OnOk result (K.faults sink.new ≡ K.faults sink.old) }
    ensures never_falls { K.faults sink.old ≤ K.faults sink.new }
    ensures failed { OnErr result (Rose (K.faults sink.old) (K.faults sink.new)) }
{
    let mut rest = bytes;
    while !rest.is_empty() {
        let count = sink.write(rest)?;
        rest = &rest[count..];
    }
    Ok(())
}
