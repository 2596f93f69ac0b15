// A text that is being written. A short part is copied as 16 bytes: what is too much is written over by the next part.
ghost use Rattle.std.specs.Prelude.{◌≡◌, ◌≤◌, ◌<◌, ◌+◌, ◌++◌, ◌∷◌, [], ℕ, length, take, drop, replicate, OnOk};

use std::alloc::{AllocError, Global};
use std::marker::Model;
use std::simd::prelude::*;

static ZEROS: [u8; 1024] = [0; 1024];

/// A text that is being written; contracts see its bytes, and how many more have room.
///
/// Each call that adds to it answers `AllocError` for want of memory alone.
#[derive(Drop)]
pub struct Draft {
    bytes: Vec<u8>,
    // How many of the bytes were written. The others are room.
    len: usize,
}

impl Model for Draft {
    ghost use Rattle.std.specs.Prelude.{◌-◌, ◌≤◌, length, take};
    ghost use Rattle.um_draft.specs.Written.{Written};

    ghost Value = { Written };

    ghost view = { λ draft. record {
      items = take draft.len draft.bytes.items;
      room = length draft.bytes.items - draft.len;
    } };

    ghost invariant = { λ draft. draft.len ≤ length draft.bytes.items };
}

impl Draft {
    ghost use Rattle.std.specs.Prelude.{◌≡◌, ◌≤◌, ◌<◌, ◌+◌, ◌++◌, ◌∷◌, [], length, take, drop, replicate, slice_range};
    ghost use Rattle.std.specs.Prelude.{OnOk};

    /// Nothing was written. Takes no memory.
    pub fn new(alloc: Global) -> Draft
        ensures { result.items ≡ [] }
    {
        Draft {
            bytes: Vec::new(alloc),
            len: 0,
        }
    }

    /// What was written. Takes no memory.
    pub fn into_bytes(self) -> Vec<u8>
        ensures { result.items ≡ self.items }
    {
        let Draft { mut bytes, len } = self;
        bytes.truncate(len);
        bytes
    }

    /// Adds the bytes from one place up to another.
    #[inline(always)]
    pub fn push(&mut self, bytes: &[u8], from: usize, to: usize) -> Result<(), AllocError>
        requires order { from ≤ to }
        requires within { to ≤ length bytes.now }
        ensures { OnOk result (self.new.items ≡ self.old.items ++ slice_range bytes.now from to) }
    {
        if to - from > 16 || bytes.len() - from < 16 {
            return self.push_all(&bytes[from..to]);
        }
        self.reserve(16)?;
        self.put_near(bytes, from, to - from);
        Ok(())
    }

    /// Adds the bytes from one place up to another, and a line feed.
    #[inline(always)]
    pub fn push_line(&mut self, bytes: &[u8], from: usize, to: usize) -> Result<(), AllocError>
        requires order { from ≤ to }
        requires within { to ≤ length bytes.now }
        ensures { OnOk result (self.new.items ≡ (self.old.items ++ slice_range bytes.now from to) ++ 10 ∷ []) }
    {
        if to - from > 16 || bytes.len() - from < 16 {
            self.push_all(&bytes[from..to])?;
            return self.push_byte(b'\n');
        }
        self.reserve(17)?;
        self.put_near(bytes, from, to - from);
        self.put_byte(b'\n');
        Ok(())
    }

    /// Adds bytes.
    pub fn push_all(&mut self, bytes: &[u8]) -> Result<(), AllocError>
        ensures { OnOk result (self.new.items ≡ self.old.items ++ bytes.now) }
    {
        self.reserve(bytes.len())?;
        self.put_all(bytes);
        Ok(())
    }

    /// Adds a byte.
    #[inline(always)]
    pub fn push_byte(&mut self, byte: u8) -> Result<(), AllocError>
        ensures { OnOk result (self.new.items ≡ self.old.items ++ byte ∷ []) }
    {
        self.reserve(1)?;
        self.put_byte(byte);
        Ok(())
    }

    /// Adds spaces.
    pub fn push_spaces(&mut self, n: usize) -> Result<(), AllocError>
        ensures { OnOk result (self.new.items ≡ self.old.items ++ replicate n 32) }
    {
        let mut left = n;
        while left > 16 {
            self.push_many_spaces()?;
            left -= 16;
        }
        self.push_few_spaces(left)
    }

    fn push_many_spaces(&mut self) -> Result<(), AllocError>
        ensures { OnOk result (self.new.items ≡ self.old.items ++ replicate 16 32) }
    {
        self.push_few_spaces(16)
    }

    #[inline(always)]
    fn push_few_spaces(&mut self, n: usize) -> Result<(), AllocError>
        requires { n ≤ 16 }
        ensures { OnOk result (self.new.items ≡ self.old.items ++ replicate n 32) }
    {
        self.reserve(16)?;
        self.put_spaces(n);
        Ok(())
    }

    // Makes room for so many bytes.
    #[inline(always)]
    fn reserve(&mut self, n: usize) -> Result<(), AllocError>
        ensures same { OnOk result (self.new.items ≡ self.old.items) }
        ensures room { OnOk result (n ≤ self.new.room) }
    {
        if self.bytes.len() - self.len < n {
            return self.grow(n);
        }
        Ok(())
    }

    #[inline(never)]
    #[tactic(auto, using(crate::proofs::Drafts::grown))]
    fn grow(&mut self, n: usize) -> Result<(), AllocError>
        requires { self.old.room < n }
        ensures same { OnOk result (self.new.items ≡ self.old.items) }
        ensures room { OnOk result (n ≤ self.new.room) }
    {
        let missing = n - (self.bytes.len() - self.len);
        fill(&mut self.bytes, missing)?;
        Ok(())
    }

    // Writes the first bytes of 16 that stand from a place on.
    #[inline(always)]
    fn put_near(&mut self, bytes: &[u8], from: usize, n: usize)
        requires few { n ≤ 16 }
        requires some { from + 16 ≤ length bytes.now }
        requires room { 16 ≤ self.old.room }
        ensures added { self.new.items ≡ self.old.items ++ take n (drop from bytes.now) }
        ensures left { self.new.room + n ≡ self.old.room }
    {
        store_near(self.bytes.as_mut_slice(), self.len, bytes, from);
        self.len += n;
    }

    #[inline(always)]
    fn put_spaces(&mut self, n: usize)
        requires few { n ≤ 16 }
        requires room { 16 ≤ self.old.room }
        ensures { self.new.items ≡ self.old.items ++ replicate n 32 }
    {
        store_spaces(self.bytes.as_mut_slice(), self.len);
        self.len += n;
    }

    #[inline(always)]
    fn put_all(&mut self, bytes: &[u8])
        requires { length bytes.now ≤ self.old.room }
        ensures { self.new.items ≡ self.old.items ++ bytes.now }
    {
        store_all(self.bytes.as_mut_slice(), self.len, bytes);
        self.len += bytes.len();
    }

    #[inline(always)]
    fn put_byte(&mut self, byte: u8)
        requires { 1 ≤ self.old.room }
        ensures { self.new.items ≡ self.old.items ++ byte ∷ [] }
    {
        store_byte(self.bytes.as_mut_slice(), self.len, byte);
        self.len += 1;
    }
}

/// Adds so many bytes or more.
fn fill(bytes: &mut Vec<u8>, missing: usize) -> Result<(), AllocError>
    ensures grows { length bytes.old.items ≤ length bytes.new.items }
    ensures front { OnOk result (take (length bytes.old.items) bytes.new.items ≡ bytes.old.items) }
    ensures room { OnOk result (length bytes.old.items + missing ≤ length bytes.new.items) }
{
    let mut left = missing;
    while left > 0 {
        bytes.extend_from_slice(&ZEROS)?;
        left = left.saturating_sub(1024);
    }
    Ok(())
}

/// Writes the 16 bytes that stand from a place on.
#[inline(always)]
fn store_near(buf: &mut [u8], at: usize, bytes: &[u8], from: usize)
    requires room { at + 16 ≤ length buf.old }
    requires some { from + 16 ≤ length bytes.now }
    ensures len { length buf.new ≡ length buf.old }
    ensures written { (n : ℕ) → n ≤ 16 → take (at + n) buf.new ≡ take at buf.old ++ take n (drop from bytes.now) }
{
    u8x16::from_slice(&bytes[from..]).copy_to_slice(&mut buf[at..]);
}

/// Writes 16 spaces.
#[inline(always)]
fn store_spaces(buf: &mut [u8], at: usize)
    requires { at + 16 ≤ length buf.old }
    ensures len { length buf.new ≡ length buf.old }
    ensures written { (n : ℕ) → n ≤ 16 → take (at + n) buf.new ≡ take at buf.old ++ replicate n 32 }
{
    u8x16::splat(b' ').copy_to_slice(&mut buf[at..]);
}

/// Writes bytes.
#[inline(always)]
fn store_all(buf: &mut [u8], at: usize, bytes: &[u8])
    requires { at + length bytes.now ≤ length buf.old }
    ensures len { length buf.new ≡ length buf.old }
    ensures written { take (at + length bytes.now) buf.new ≡ take at buf.old ++ bytes.now }
{
    buf[at..at + bytes.len()].copy_from_slice(bytes);
}

/// Writes a byte.
#[inline(always)]
fn store_byte(buf: &mut [u8], at: usize, byte: u8)
    requires { at < length buf.old }
    ensures len { length buf.new ≡ length buf.old }
    ensures written { take (at + 1) buf.new ≡ take at buf.old ++ byte ∷ [] }
{
    buf[at] = byte;
}
