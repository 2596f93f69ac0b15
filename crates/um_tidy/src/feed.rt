// Where the next line feed stands. Most lines are short, so the next 32 bytes come first, 16 at once.
ghost use Rattle.std.specs.Prelude.{◌≡◌, ◌≤◌, ◌<◌, ◌+◌, ◌==◌, if◌then◌else◌, IfSome, MatchOption, length, drop};
ghost use Rattle.std.specs.Int.{w64, trailing_zeros};
ghost use Rattle.std.specs.List.{prefix_len};
ghost use Rattle.um_tidy.specs.Gaps.{in_line};

use memchr::memchr;
use std::simd::prelude::*;

/// Where the first line feed stands from this place on.
pub(crate) fn line_feed(bytes: &[u8], from: usize) -> Option<usize>
    requires { from ≤ length bytes.now }
    ensures within { IfSome result (λ at. (from ≤ at) × (at < length bytes.now)) }
    ensures first { MatchOption result
        (prefix_len in_line (drop from bytes.now) ≡ length (drop from bytes.now))
        (λ at. from + prefix_len in_line (drop from bytes.now) ≡ at) }
{
    if bytes.len() - from < 32 {
        return later_line_feed(bytes, from);
    }
    near_line_feed(bytes, from)
}

/// The same, if 32 bytes or more are left.
fn near_line_feed(bytes: &[u8], from: usize) -> Option<usize>
    requires { from + 32 ≤ length bytes.now }
    ensures within { IfSome result (λ at. (from ≤ at) × (at < length bytes.now)) }
    ensures first { MatchOption result
        (prefix_len in_line (drop from bytes.now) ≡ length (drop from bytes.now))
        (λ at. from + prefix_len in_line (drop from bytes.now) ≡ at) }
{
    let near = near_len(bytes, from);
    if near < 16 {
        return Some(from + near);
    }
    let next = near_len(bytes, from + 16);
    if next < 16 {
        return Some(from + 16 + next);
    }
    later_line_feed(bytes, from + 32)
}

/// The same, however far it stands.
fn later_line_feed(bytes: &[u8], from: usize) -> Option<usize>
    requires { from ≤ length bytes.now }
    ensures within { IfSome result (λ at. (from ≤ at) × (at < length bytes.now)) }
    ensures first { MatchOption result
        (prefix_len in_line (drop from bytes.now) ≡ length (drop from bytes.now))
        (λ at. from + prefix_len in_line (drop from bytes.now) ≡ at) }
{
    match memchr(b'\n', &bytes[from..]) {
        Some(len) => Some(from + len),
        None => None,
    }
}

/// How many of the next 16 bytes stand before a line feed.
fn near_len(bytes: &[u8], from: usize) -> usize
    requires { from + 16 ≤ length bytes.now }
    ensures within { result ≤ 16 }
    ensures passed { prefix_len in_line (drop from bytes.now)
        ≡ result + prefix_len in_line (drop (from + result) bytes.now) }
    ensures ended { result < 16 → prefix_len in_line (drop (from + result) bytes.now) ≡ 0 }
{
    let feeds = u8x16::from_slice(&bytes[from..]).simd_eq(u8x16::splat(b'\n'));
    first_set(feeds.to_bitmask())
}

/// The place of the lowest bit that is set, or 16 if none is.
pub(crate) fn first_set(mask: u64) -> usize
    ensures { result ≡ if mask == 0 then 16 else trailing_zeros w64 mask }
{
    if mask == 0 {
        return 16;
    }
    mask.trailing_zeros() as usize
}

/// The place of the lowest bit that is set.
#[inline(always)]
pub(crate) fn lowest(mask: u64) -> usize
    requires { 0 < mask }
    ensures { result ≡ trailing_zeros w64 mask }
{
    mask.trailing_zeros() as usize
}
