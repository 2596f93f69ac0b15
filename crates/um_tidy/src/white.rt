// White space, 16 bytes at once.
ghost use Rattle.std.specs.Prelude.{◌≡◌, ◌≤◌, ◌<◌, ◌+◌, ◌-◌, ℕ, true, false, length, take, drop, get_or};
ghost use Rattle.std.specs.List.{prefix_len};
ghost use Rattle.um_syntax.specs.Gap.{is_space};
ghost use Rattle.um_tidy.specs.Gaps.{trimmed};
ghost use Rattle.um_tidy.specs.Placed.{others_mask};

use crate::feed::first_set;
use std::simd::prelude::*;

pub(crate) fn is_space(byte: u8) -> bool
    ensures { result ≡ is_space byte }
{
    byte == b' ' || byte == b'\t' || byte == b'\r' || byte == b'\n'
}

/// Where the white space ends that stands at a place.
pub(crate) fn space_end(bytes: &[u8], from: usize) -> usize
    requires { from ≤ length bytes.now }
    ensures within { (from ≤ result) × (result ≤ length bytes.now) }
    ensures end { from + prefix_len is_space (drop from bytes.now) ≡ result }
{
    let mut end = from;
    while end + 16 <= bytes.len() {
        let near = near_spaces(bytes, end);
        if near < 16 {
            return end + near;
        }
        end += 16;
    }
    last_space_end(bytes, end)
}

/// The same, byte by byte.
fn last_space_end(bytes: &[u8], from: usize) -> usize
    requires { from ≤ length bytes.now }
    ensures within { (from ≤ result) × (result ≤ length bytes.now) }
    ensures end { from + prefix_len is_space (drop from bytes.now) ≡ result }
{
    let mut end = from;
    while end < bytes.len() && is_space(bytes[end]) {
        end += 1;
    }
    end
}

/// How many bytes are left without the white space at the end.
pub(crate) fn trimmed_len(bytes: &[u8]) -> usize
    ensures within { result ≤ length bytes.now }
    ensures kept { take result bytes.now ≡ trimmed bytes.now }
{
    if bytes.is_empty() {
        return 0;
    }
    trimmed_some(bytes)
}

/// The same, if there is a byte.
#[inline(always)]
pub(crate) fn trimmed_some(bytes: &[u8]) -> usize
    requires { 0 < length bytes.now }
    ensures within { result ≤ length bytes.now }
    ensures kept { take result bytes.now ≡ trimmed bytes.now }
{
    let len = bytes.len();
    if !is_space(bytes[len - 1]) {
        return len;
    }
    trimmed_before(bytes, len - 1)
}

/// How many of so many bytes are left without the white space at their end.
fn trimmed_before(bytes: &[u8], to: usize) -> usize
    requires { to ≤ length bytes.now }
    ensures within { result ≤ to }
    ensures kept { take result bytes.now ≡ trimmed (take to bytes.now) }
{
    if !ends_in_space(bytes, to) {
        return to;
    }
    trimmed_more(bytes, to - 1)
}

/// The same, 16 bytes at once.
fn trimmed_more(bytes: &[u8], to: usize) -> usize
    requires { to ≤ length bytes.now }
    ensures within { result ≤ to }
    ensures kept { take result bytes.now ≡ trimmed (take to bytes.now) }
{
    let mut len = to;
    while len >= 16 {
        let near = near_trimmed(bytes, len - 16);
        if near > 0 {
            return len - 16 + near;
        }
        len -= 16;
    }
    last_trimmed(bytes, len)
}

/// The same, byte by byte.
fn last_trimmed(bytes: &[u8], to: usize) -> usize
    requires { to ≤ length bytes.now }
    ensures within { result ≤ to }
    ensures kept { take result bytes.now ≡ trimmed (take to bytes.now) }
{
    let mut len = to;
    while ends_in_space(bytes, len) {
        len -= 1;
    }
    len
}

/// Whether white space stands before a place.
#[tactic(auto, using(crate::proofs::Trimmed::trimmed_less, crate::proofs::Trimmed::trimmed_all))]
fn ends_in_space(bytes: &[u8], to: usize) -> bool
    requires { to ≤ length bytes.now }
    ensures some { result ≡ true → 0 < to }
    ensures less { result ≡ true → trimmed (take (to - 1) bytes.now) ≡ trimmed (take to bytes.now) }
    ensures none { result ≡ false → take to bytes.now ≡ trimmed (take to bytes.now) }
{
    if to == 0 {
        return false;
    }
    is_space(bytes[to - 1])
}

/// How many bytes stand at a place that are all the same as one: at most 16, and none if fewer than 16 bytes are left.
#[inline(always)]
pub(crate) fn run_len(bytes: &[u8], at: usize, byte: u8) -> usize
    requires { at ≤ length bytes.now }
    ensures within { at + result ≤ length bytes.now }
    ensures same { (k : ℕ) → k < result → get_or bytes.now (at + k) 0 ≡ byte }
{
    if at + 16 > bytes.len() || bytes[at] != byte {
        return 0;
    }
    near_same(bytes, at, byte)
}

/// How many of the next 16 bytes are the same as one.
#[inline(always)]
fn near_same(bytes: &[u8], at: usize, byte: u8) -> usize
    requires { at + 16 ≤ length bytes.now }
    ensures within { result ≤ 16 }
    ensures same { (k : ℕ) → k < result → get_or bytes.now (at + k) 0 ≡ byte }
{
    let others = u8x16::from_slice(&bytes[at..]).simd_ne(u8x16::splat(byte));
    first_set(others.to_bitmask())
}

/// How many of the next 16 bytes are white space.
fn near_spaces(bytes: &[u8], at: usize) -> usize
    requires { at + 16 ≤ length bytes.now }
    ensures within { result ≤ 16 }
    ensures passed { (k : ℕ) → at ≤ k → k < at + result → is_space (get_or bytes.now k 0) ≡ true }
    ensures ended { result < 16 → is_space (get_or bytes.now (at + result) 0) ≡ false }
{
    first_set(others(bytes, at))
}

/// How many of the next 16 bytes are left without the white space at the end.
fn near_trimmed(bytes: &[u8], at: usize) -> usize
    requires { at + 16 ≤ length bytes.now }
    ensures within { result ≤ 16 }
    ensures passed { (k : ℕ) → at + result ≤ k → k < at + 16 → is_space (get_or bytes.now k 0) ≡ true }
    ensures ended { 0 < result → is_space (get_or bytes.now (at + result - 1) 0) ≡ false }
{
    64 - others(bytes, at).leading_zeros() as usize
}

/// A bit for each of the next 16 bytes that is no white space.
#[inline(always)]
fn others(bytes: &[u8], at: usize) -> u64
    requires { at + 16 ≤ length bytes.now }
    ensures { result ≡ others_mask bytes.now at }
{
    let next = u8x16::from_slice(&bytes[at..]);
    let blanks = next.simd_ne(u8x16::splat(b' ')) & next.simd_ne(u8x16::splat(b'\t'));
    let ends = next.simd_ne(u8x16::splat(b'\r')) & next.simd_ne(u8x16::splat(b'\n'));
    (blanks & ends).to_bitmask()
}
