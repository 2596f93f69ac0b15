// A sink that keeps what it takes.
ghost use Rattle.std.specs.Prelude.{◌≡◌, ◌≤◌, [], Some, OnOk, OnErr, nat_lt};
ghost use Rattle.std.specs.Io.KnownBytes.{WriteAppends};
ghost use Rattle.um_wire.specs.Faults.{Rose};
ghost use Rattle.um_wire.specs.Bytes.{TakesSome};
ghost use Rattle.um_embed.specs.Kept.{KeptState};

use std::alloc::Global;
use std::marker::Model;
use um_wire::{Failed, Sink};

/// Keeps all bytes that it takes, in order. A write fails for want of memory alone.
#[derive(Drop)]
pub(crate) struct Kept {
    bytes: Vec<u8>,
    faults: u64,
}

impl Model for Kept {
    ghost Value = { KeptState };

    ghost view = { λ kept. record { taken = kept.bytes.items; faults = kept.faults } };
}

impl Kept {
    /// No byte was taken.
    pub(crate) fn new(alloc: Global) -> Kept
        ensures { result ≡ record { taken = []; faults = 0 } }
    {
        Kept {
            bytes: Vec::new(alloc),
            faults: 0,
        }
    }

    /// The bytes that were taken.
    pub(crate) fn into_bytes(self) -> Vec<u8>
        ensures { result.items ≡ self.taken }
    {
        self.bytes
    }

    /// Whether a write failed.
    pub(crate) fn has_failed(&self) -> bool
        ensures { result ≡ nat_lt 0 self.now.faults }
    {
        self.faults > 0
    }
}

impl Sink for Kept {
    ghost taken = { λ kept. Some kept.taken };

    ghost faults = { λ kept. kept.faults };

    /// Takes all of `from`, or nothing.
    #[tactic(auto, unfolding(um_wire::specs::Faults::Rose))]
    fn write(&mut self, from: &[u8]) -> Result<usize, Failed>
        ensures bound { TakesSome result from.now }
        ensures bytes { WriteAppends (Some self.old.taken) (Some self.new.taken) result from.now }
        ensures no_fault { OnOk result (self.new.faults ≡ self.old.faults) }
        ensures never_falls { self.old.faults ≤ self.new.faults }
        ensures failed { OnErr result (Rose self.old.faults self.new.faults) }
    {
        match self.bytes.extend_from_slice(from) {
            Ok(()) => Ok(from.len()),
            Err(_) => {
                self.faults = self.faults.saturating_add(1);
                Err(Failed)
            }
        }
    }
}
