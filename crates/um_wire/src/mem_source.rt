// A source in memory, for tests: it gives a few bytes at a time, and fails at the calls that a test names.
ghost use Rattle.std.specs.Prelude.{◌≡◌, ◌≤◌, ◌↔◌, Some, IsErr, IfOk, OnOk, OnErr, Contains, length, drop, vec_len};
ghost use Rattle.std.specs.Io.{ReadsAtMost};
ghost use Rattle.std.specs.Io.KnownBytes.{ReadConsumes};
ghost use Rattle.um_wire.specs.Faults.{Rose, next_count, fault_count};
ghost use Rattle.um_wire.specs.Memory.{MemSourceState, read_count};

use crate::copy::copy_next;
use crate::{Failed, Source};
use std::marker::Model;

/// Gives the bytes of a vector, at most `piece` at a time. The calls that `fails` names fail.
#[derive(Drop)]
pub struct MemSource {
    bytes: Vec<u8>,
    at: usize,
    piece: usize,
    fails: Vec<u64>,
    calls: u64,
    faults: u64,
}

impl Model for MemSource {
    ghost Value = { MemSourceState };

    ghost view = { λ s. record {
      left = drop s.at s.bytes.items;
      piece = s.piece;
      fails = s.fails.items;
      calls = s.calls;
      faults = s.faults;
    } };

    ghost invariant = { λ s. (s.at ≤ vec_len s.bytes) × (1 ≤ s.piece) };
}

impl MemSource {
    /// All of `bytes` is left. A read gives at most `piece` bytes, and the calls numbered in `fails`, from 0, fail.
    pub fn new(bytes: Vec<u8>, piece: usize, fails: Vec<u64>) -> MemSource
        requires { 1 ≤ piece }
        ensures { result ≡ record {
          left = bytes.items;
          piece = piece;
          fails = fails.items;
          calls = 0;
          faults = 0;
        } }
    {
        MemSource {
            bytes,
            at: 0,
            piece,
            fails,
            calls: 0,
            faults: 0,
        }
    }
}

impl Source for MemSource {
    ghost left = { λ s. Some s.left };

    ghost faults = { λ s. s.faults };

    /// Fails if the call's number is named; otherwise gives as much as the piece, `into` and the bytes left allow.
    #[tactic(auto, unfolding(crate::specs::Faults::Rose))]
    fn read(&mut self, into: &mut [u8]) -> Result<usize, Failed>
        ensures bound { ReadsAtMost result into.new }
        ensures bytes { ReadConsumes (Some self.old.left) (Some self.new.left) result into.new }
        ensures no_fault { OnOk result (self.new.faults ≡ self.old.faults) }
        ensures never_falls { self.old.faults ≤ self.new.faults }
        ensures failed { OnErr result (Rose self.old.faults self.new.faults) }

        ensures fails { IsErr result ↔ Contains self.old.fails self.old.calls }
        ensures count { IfOk result (λ n. n ≡ read_count self.old (length into.old)) }
        ensures calls { self.new.calls ≡ next_count self.old.calls }
        ensures faults { self.new.faults ≡ fault_count result self.old.faults }
        ensures piece { self.new.piece ≡ self.old.piece }
        ensures script { self.new.fails ≡ self.old.fails }
    {
        let call = self.calls;
        self.calls = call.saturating_add(1);
        if self.fails.contains(&call) {
            self.faults = self.faults.saturating_add(1);
            return Err(Failed);
        }
        let count = copy_next(&self.bytes, self.at, self.piece, into);
        self.at += count;
        Ok(count)
    }
}
