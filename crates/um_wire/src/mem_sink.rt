// A sink in memory, for tests: it takes a few bytes at a time, and fails at the calls that a test names.
ghost use Rattle.std.specs.Prelude.{◌≡◌, ◌≤◌, ◌↔◌, ◌⊎◌, [], Some, IsErr, IfOk, OnOk, OnErr, Contains, length, vec_len};
ghost use Rattle.std.specs.Prelude.{vec_capacity};
ghost use Rattle.std.specs.Io.KnownBytes.{WriteAppends};
ghost use Rattle.um_wire.specs.Faults.{Rose, next_count, fault_count};
ghost use Rattle.um_wire.specs.Bytes.{TakesSome};
ghost use Rattle.um_wire.specs.Memory.{MemSinkState, write_count};

use crate::{Failed, NoMemory, Sink};
use std::alloc::Global;
use std::marker::Model;

/// Takes bytes into a room of a fixed size, at most `piece` at a time. The calls that `fails` names fail, and so does
/// each write into a full room.
#[derive(Drop)]
pub struct MemSink {
    bytes: Vec<u8>,
    room: usize,
    piece: usize,
    fails: Vec<u64>,
    calls: u64,
    faults: u64,
}

impl Model for MemSink {
    ghost Value = { MemSinkState };

    ghost view = { λ s. record {
      taken = s.bytes.items;
      room = s.room;
      piece = s.piece;
      fails = s.fails.items;
      calls = s.calls;
      faults = s.faults;
    } };

    ghost invariant = { λ s.
        (s.room ≤ vec_capacity s.bytes) × (vec_len s.bytes ≤ s.room) × (1 ≤ s.piece) };
}

impl MemSink {
    /// A sink with room for `room` bytes, all of whose memory is taken here. A write takes at most `piece` bytes, and
    /// the calls numbered in `fails`, from 0, fail.
    pub fn new(
        alloc: Global,
        room: usize,
        piece: usize,
        fails: Vec<u64>,
    ) -> Result<MemSink, NoMemory>
        requires { 1 ≤ piece }
        ensures { IfOk result (λ sink. sink ≡ record {
          taken = [];
          room = room;
          piece = piece;
          fails = fails.items;
          calls = 0;
          faults = 0;
        }) }
    {
        Ok(MemSink {
            bytes: Vec::with_capacity(alloc, room)?,
            room,
            piece,
            fails,
            calls: 0,
            faults: 0,
        })
    }

    /// The bytes that were taken, in order.
    pub fn bytes(&self) -> &[u8]
        ensures { result.now ≡ self.now.taken }
    {
        &self.bytes
    }
}

impl Sink for MemSink {
    ghost taken = { λ s. Some s.taken };

    ghost faults = { λ s. s.faults };

    /// Fails if the call's number is named or the room is full; otherwise takes as much as the piece, `from` and the
    /// room allow.
    #[tactic(auto, unfolding(crate::specs::Faults::Rose))]
    fn write(&mut self, from: &[u8]) -> Result<usize, Failed>
        ensures bound { TakesSome result from.now }
        ensures bytes { WriteAppends (Some self.old.taken) (Some self.new.taken) result from.now }
        ensures no_fault { OnOk result (self.new.faults ≡ self.old.faults) }
        ensures never_falls { self.old.faults ≤ self.new.faults }
        ensures failed { OnErr result (Rose self.old.faults self.new.faults) }

        ensures fails { IsErr result ↔
            (Contains self.old.fails self.old.calls ⊎ (self.old.room ≤ length self.old.taken)) }
        ensures count { IfOk result (λ n. n ≡ write_count self.old (length from.now)) }
        ensures calls { self.new.calls ≡ next_count self.old.calls }
        ensures faults { self.new.faults ≡ fault_count result self.old.faults }
        ensures room { self.new.room ≡ self.old.room }
        ensures piece { self.new.piece ≡ self.old.piece }
        ensures script { self.new.fails ≡ self.old.fails }
    {
        let call = self.calls;
        self.calls = call.saturating_add(1);
        if self.fails.contains(&call) || self.room <= self.bytes.len() {
            self.faults = self.faults.saturating_add(1);
            return Err(Failed);
        }
        let count = self.piece.min(from.len()).min(self.room - self.bytes.len());
        self.bytes.extend_from_slice(&from[..count]).unwrap();
        Ok(count)
    }
}
