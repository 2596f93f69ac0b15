// A source and a sink that never fail.
ghost use Rattle.std.specs.Prelude.{◌≡◌, ◌+◌, ◌-◌, ◌^◌, ◌≤◌, ℕ, List, Some, None, IsOk, IfOk, drop, length, min};
ghost use Rattle.std.specs.Prelude.{vec_len};
ghost use Rattle.std.specs.Io.{ReadsAtMost};
ghost use Rattle.std.specs.Io.KnownBytes.{ReadConsumes};

use crate::copy::copy_next;
use crate::{Failed, Sink, Source};
use std::marker::Model;

/// Gives the bytes of a vector, and never fails. Contracts see it as the bytes left.
#[derive(Drop)]
pub struct QuietSource {
    bytes: Vec<u8>,
    at: usize,
}

impl Model for QuietSource {
    ghost Value = { List ℕ };

    ghost view = { λ s. drop s.at s.bytes.items };

    ghost invariant = { λ s. s.at ≤ vec_len s.bytes };
}

impl QuietSource {
    /// All of `bytes` is left.
    pub fn new(bytes: Vec<u8>) -> QuietSource
        ensures { result ≡ bytes.items }
    {
        QuietSource { bytes, at: 0 }
    }
}

impl Source for QuietSource {
    ghost left = { λ s. Some s };

    ghost faults = { λ _. 0 };

    /// Fills `into`, or gives what is left.
    fn read(&mut self, into: &mut [u8]) -> Result<usize, Failed>
        ensures bound { ReadsAtMost result into.new }
        ensures bytes { ReadConsumes (Some self.old) (Some self.new) result into.new }
        ensures ok { IsOk result }
        ensures count { IfOk result (λ n. n ≡ min (length into.old) (length self.old)) }
    {
        let count = copy_next(&self.bytes, self.at, into.len(), into);
        self.at += count;
        Ok(count)
    }
}

/// Takes all bytes and keeps only how many, up to the greatest number of 64 bits. It never fails.
/// Contracts see it as this number.
#[derive(Drop)]
pub struct QuietSink {
    count: u64,
}

impl Model for QuietSink {
    ghost Value = { ℕ };

    ghost view = { λ s. s.count };
}

impl QuietSink {
    /// No byte was taken.
    pub fn new() -> QuietSink
        ensures { result ≡ 0 }
    {
        QuietSink { count: 0 }
    }
}

impl Sink for QuietSink {
    ghost taken = { λ _. None };

    ghost faults = { λ _. 0 };

    /// Takes all of `from`.
    fn write(&mut self, from: &[u8]) -> Result<usize, Failed>
        ensures whole { result ≡ Ok (length from.now) }
        ensures count { self.new ≡ min (self.old + length from.now) (2 ^ 64 - 1) }
    {
        self.count = self.count.saturating_add(from.len() as u64);
        Ok(from.len())
    }
}
