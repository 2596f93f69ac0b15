// Where white space stands beside a line feed. Comments stay as they are up to there. 16 places are seen at once.
ghost use Rattle.std.specs.Prelude.{◌≡◌, ◌≤◌, ◌<◌, ◌+◌, true, length, get_or};
ghost use Rattle.std.specs.Int.{w64, trailing_zeros};
ghost use Rattle.um_tidy.specs.Placed.{is_edge, NoEdges};

use crate::feed::lowest;
use std::simd::prelude::*;

/// The first edge from a place on, or the last line feed.
#[inline(always)]
pub(crate) fn first_edge(gap: &[u8], from: usize, last: usize) -> usize
    requires some { 0 < from }
    requires order { from ≤ last }
    requires within { last < length gap.now }
    requires ends { get_or gap.now last 0 ≡ 10 }
    ensures order { (from ≤ result) × (result ≤ last) }
    ensures feed { get_or gap.now result 0 ≡ 10 }
    ensures inner { NoEdges gap.now from result }
{
    let mut at = from;
    while at + 16 <= last {
        let edges = near_edges(gap, at);
        if edges != 0 {
            return at + lowest(edges);
        }
        at += 16;
    }
    last_edge(gap, at, last)
}

/// The same, place by place.
#[cold]
#[inline(never)]
fn last_edge(gap: &[u8], from: usize, last: usize) -> usize
    requires some { 0 < from }
    requires order { from ≤ last }
    requires within { last < length gap.now }
    requires ends { get_or gap.now last 0 ≡ 10 }
    ensures order { (from ≤ result) × (result ≤ last) }
    ensures feed { get_or gap.now result 0 ≡ 10 }
    ensures inner { NoEdges gap.now from result }
{
    let mut at = from;
    while at < last && !is_edge(gap, at) {
        at += 1;
    }
    at
}

/// Whether a line feed stands at a place, beside a byte that may be white space.
fn is_edge(gap: &[u8], at: usize) -> bool
    requires some { 0 < at }
    requires within { at + 1 < length gap.now }
    ensures { result ≡ is_edge gap.now at }
{
    gap[at] == b'\n' && (gap[at - 1] < 33 || gap[at + 1] < 33)
}

/// A bit for each of the next 16 places where an edge is.
#[inline(always)]
fn near_edges(gap: &[u8], at: usize) -> u64
    requires some { 0 < at }
    requires within { at + 17 ≤ length gap.now }
    ensures none { result ≡ 0 → NoEdges gap.now at (at + 16) }
    ensures within { 0 < result → trailing_zeros w64 result < 16 }
    ensures inner { 0 < result → NoEdges gap.now at (at + trailing_zeros w64 result) }
    ensures ended { 0 < result → is_edge gap.now (at + trailing_zeros w64 result) ≡ true }
{
    let feeds = u8x16::from_slice(&gap[at..]).simd_eq(u8x16::splat(b'\n'));
    let before = u8x16::from_slice(&gap[at - 1..]).simd_lt(u8x16::splat(33));
    let after = u8x16::from_slice(&gap[at + 1..]).simd_lt(u8x16::splat(33));
    (feeds & (before | after)).to_bitmask()
}
