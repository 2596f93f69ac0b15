// The columns that white space takes in a line, 16 bytes at once.
ghost use Rattle.std.specs.Prelude.{◌≡◌, ◌≤◌, ◌<◌, ◌+◌, ◌*◌, ◌++◌, ◌∷◌, [], Bool, List, length, drop, replicate, OnOk};
ghost use Rattle.std.specs.Simd.Lanes.{mask_l};
ghost use Rattle.um_tidy.specs.Gaps.{width_from};
ghost use Rattle.um_tidy.specs.Placed.{columns_after, tabs_mask, marks_mask, ends_mask};

use std::alloc::AllocError;
use std::simd::prelude::*;
use um_draft::Draft;

// How many columns more than bytes eight bytes take: a row for each column modulo 4 where they begin, and in it a
// number for each set of tabs among them, whose bits are the places of the tabs.
static TABS: [[u8; 256]; 4] = [
    [
        0, 3, 2, 6, 1, 5, 5, 9, 0, 4, 4, 8, 4, 8, 8, 12, 3, 3, 3, 7, 3, 7, 7, 11, 3, 7, 7, 11, 7,
        11, 11, 15, 2, 6, 2, 6, 2, 6, 6, 10, 2, 6, 6, 10, 6, 10, 10, 14, 6, 6, 6, 10, 6, 10, 10,
        14, 6, 10, 10, 14, 10, 14, 14, 18, 1, 5, 5, 9, 1, 5, 5, 9, 1, 5, 5, 9, 5, 9, 9, 13, 5, 5,
        5, 9, 5, 9, 9, 13, 5, 9, 9, 13, 9, 13, 13, 17, 5, 9, 5, 9, 5, 9, 9, 13, 5, 9, 9, 13, 9, 13,
        13, 17, 9, 9, 9, 13, 9, 13, 13, 17, 9, 13, 13, 17, 13, 17, 17, 21, 0, 4, 4, 8, 4, 8, 8, 12,
        0, 4, 4, 8, 4, 8, 8, 12, 4, 4, 4, 8, 4, 8, 8, 12, 4, 8, 8, 12, 8, 12, 12, 16, 4, 8, 4, 8,
        4, 8, 8, 12, 4, 8, 8, 12, 8, 12, 12, 16, 8, 8, 8, 12, 8, 12, 12, 16, 8, 12, 12, 16, 12, 16,
        16, 20, 4, 8, 8, 12, 4, 8, 8, 12, 4, 8, 8, 12, 8, 12, 12, 16, 8, 8, 8, 12, 8, 12, 12, 16,
        8, 12, 12, 16, 12, 16, 16, 20, 8, 12, 8, 12, 8, 12, 12, 16, 8, 12, 12, 16, 12, 16, 16, 20,
        12, 12, 12, 16, 12, 16, 16, 20, 12, 16, 16, 20, 16, 20, 20, 24,
    ],
    [
        0, 2, 1, 5, 0, 4, 4, 8, 3, 3, 3, 7, 3, 7, 7, 11, 2, 2, 2, 6, 2, 6, 6, 10, 6, 6, 6, 10, 6,
        10, 10, 14, 1, 5, 1, 5, 1, 5, 5, 9, 5, 5, 5, 9, 5, 9, 9, 13, 5, 5, 5, 9, 5, 9, 9, 13, 9, 9,
        9, 13, 9, 13, 13, 17, 0, 4, 4, 8, 0, 4, 4, 8, 4, 4, 4, 8, 4, 8, 8, 12, 4, 4, 4, 8, 4, 8, 8,
        12, 8, 8, 8, 12, 8, 12, 12, 16, 4, 8, 4, 8, 4, 8, 8, 12, 8, 8, 8, 12, 8, 12, 12, 16, 8, 8,
        8, 12, 8, 12, 12, 16, 12, 12, 12, 16, 12, 16, 16, 20, 3, 3, 3, 7, 3, 7, 7, 11, 3, 3, 3, 7,
        3, 7, 7, 11, 3, 3, 3, 7, 3, 7, 7, 11, 7, 7, 7, 11, 7, 11, 11, 15, 3, 7, 3, 7, 3, 7, 7, 11,
        7, 7, 7, 11, 7, 11, 11, 15, 7, 7, 7, 11, 7, 11, 11, 15, 11, 11, 11, 15, 11, 15, 15, 19, 3,
        7, 7, 11, 3, 7, 7, 11, 7, 7, 7, 11, 7, 11, 11, 15, 7, 7, 7, 11, 7, 11, 11, 15, 11, 11, 11,
        15, 11, 15, 15, 19, 7, 11, 7, 11, 7, 11, 11, 15, 11, 11, 11, 15, 11, 15, 15, 19, 11, 11,
        11, 15, 11, 15, 15, 19, 15, 15, 15, 19, 15, 19, 19, 23,
    ],
    [
        0, 1, 0, 4, 3, 3, 3, 7, 2, 2, 2, 6, 6, 6, 6, 10, 1, 1, 1, 5, 5, 5, 5, 9, 5, 5, 5, 9, 9, 9,
        9, 13, 0, 4, 0, 4, 4, 4, 4, 8, 4, 4, 4, 8, 8, 8, 8, 12, 4, 4, 4, 8, 8, 8, 8, 12, 8, 8, 8,
        12, 12, 12, 12, 16, 3, 3, 3, 7, 3, 3, 3, 7, 3, 3, 3, 7, 7, 7, 7, 11, 3, 3, 3, 7, 7, 7, 7,
        11, 7, 7, 7, 11, 11, 11, 11, 15, 3, 7, 3, 7, 7, 7, 7, 11, 7, 7, 7, 11, 11, 11, 11, 15, 7,
        7, 7, 11, 11, 11, 11, 15, 11, 11, 11, 15, 15, 15, 15, 19, 2, 2, 2, 6, 6, 6, 6, 10, 2, 2, 2,
        6, 6, 6, 6, 10, 2, 2, 2, 6, 6, 6, 6, 10, 6, 6, 6, 10, 10, 10, 10, 14, 2, 6, 2, 6, 6, 6, 6,
        10, 6, 6, 6, 10, 10, 10, 10, 14, 6, 6, 6, 10, 10, 10, 10, 14, 10, 10, 10, 14, 14, 14, 14,
        18, 6, 6, 6, 10, 6, 6, 6, 10, 6, 6, 6, 10, 10, 10, 10, 14, 6, 6, 6, 10, 10, 10, 10, 14, 10,
        10, 10, 14, 14, 14, 14, 18, 6, 10, 6, 10, 10, 10, 10, 14, 10, 10, 10, 14, 14, 14, 14, 18,
        10, 10, 10, 14, 14, 14, 14, 18, 14, 14, 14, 18, 18, 18, 18, 22,
    ],
    [
        0, 0, 3, 3, 2, 2, 6, 6, 1, 1, 5, 5, 5, 5, 9, 9, 0, 0, 4, 4, 4, 4, 8, 8, 4, 4, 8, 8, 8, 8,
        12, 12, 3, 3, 3, 3, 3, 3, 7, 7, 3, 3, 7, 7, 7, 7, 11, 11, 3, 3, 7, 7, 7, 7, 11, 11, 7, 7,
        11, 11, 11, 11, 15, 15, 2, 2, 6, 6, 2, 2, 6, 6, 2, 2, 6, 6, 6, 6, 10, 10, 2, 2, 6, 6, 6, 6,
        10, 10, 6, 6, 10, 10, 10, 10, 14, 14, 6, 6, 6, 6, 6, 6, 10, 10, 6, 6, 10, 10, 10, 10, 14,
        14, 6, 6, 10, 10, 10, 10, 14, 14, 10, 10, 14, 14, 14, 14, 18, 18, 1, 1, 5, 5, 5, 5, 9, 9,
        1, 1, 5, 5, 5, 5, 9, 9, 1, 1, 5, 5, 5, 5, 9, 9, 5, 5, 9, 9, 9, 9, 13, 13, 5, 5, 5, 5, 5, 5,
        9, 9, 5, 5, 9, 9, 9, 9, 13, 13, 5, 5, 9, 9, 9, 9, 13, 13, 9, 9, 13, 13, 13, 13, 17, 17, 5,
        5, 9, 9, 5, 5, 9, 9, 5, 5, 9, 9, 9, 9, 13, 13, 5, 5, 9, 9, 9, 9, 13, 13, 9, 9, 13, 13, 13,
        13, 17, 17, 9, 9, 9, 9, 9, 9, 13, 13, 9, 9, 13, 13, 13, 13, 17, 17, 9, 9, 13, 13, 13, 13,
        17, 17, 13, 13, 17, 17, 17, 17, 21, 21,
    ],
];

static SPACES: [u8; 256] = [b' '; 256];

/// The columns that white space takes.
pub(crate) fn width(space: &[u8]) -> usize
    requires { length space.now ≤ 1048576 }
    ensures { result ≡ width_from 0 space.now }
{
    let mut width = 0;
    let mut at = 0;
    while at + 16 <= space.len() {
        width = past_near(width, near_tabs(space, at), 16);
        at += 16;
    }
    last_width(space, at, width)
}

/// The same from a place on, byte by byte.
fn last_width(space: &[u8], from: usize, column: usize) -> usize
    requires short { length space.now ≤ 1048576 }
    requires from { from ≤ length space.now }
    requires narrow { column ≤ 4 * from }
    ensures { result ≡ width_from column (drop from space.now) }
{
    let mut width = column;
    for i in from..space.len() {
        width = past_byte(width, space[i]);
    }
    width
}

/// The column after a byte of white space.
#[inline(always)]
pub(crate) fn past_byte(column: usize, byte: u8) -> usize
    requires { column ≤ 4194304 }
    ensures few { result ≤ column + 4 }
    ensures column { result ≡ width_from column (byte ∷ []) }
{
    if byte == b'\t' {
        column / 4 * 4 + 4
    } else {
        column + 1
    }
}

/// A bit for each of the next 16 bytes that is a tab.
#[inline(always)]
pub(crate) fn near_tabs(bytes: &[u8], at: usize) -> u64
    requires { at + 16 ≤ length bytes.now }
    ensures few { result < 65536 }
    ensures mask { result ≡ tabs_mask bytes.now at }
{
    u8x16::from_slice(&bytes[at..])
        .simd_eq(u8x16::splat(b'\t'))
        .to_bitmask()
}

/// A bit for each of the next 16 bytes that is a tab or CR.
#[inline(always)]
pub(crate) fn near_marks(bytes: &[u8], at: usize) -> u64
    requires { at + 16 ≤ length bytes.now }
    ensures few { result < 65536 }
    ensures mask { result ≡ marks_mask bytes.now at }
{
    let next = u8x16::from_slice(&bytes[at..]);
    (next.simd_eq(u8x16::splat(b'\t')) | next.simd_eq(u8x16::splat(b'\r'))).to_bitmask()
}

/// A bit for each of the next 16 bytes that is no white space of a line.
#[inline(always)]
pub(crate) fn near_ends(bytes: &[u8], at: usize) -> u64
    requires { at + 16 ≤ length bytes.now }
    ensures { result ≡ ends_mask bytes.now at }
{
    let next = u8x16::from_slice(&bytes[at..]);
    let others = next.simd_ne(u8x16::splat(b' ')) & next.simd_ne(u8x16::splat(b'\t'));
    (others & next.simd_ne(u8x16::splat(b'\r'))).to_bitmask()
}

/// The column after so many bytes of white space, at most 16, with a bit for each of them that is a tab.
#[inline(always)]
pub(crate) fn past_near(column: usize, tabs: u64, len: usize) -> usize
    requires short { column ≤ 4194304 }
    requires few { len ≤ 16 }
    requires near { len ≤ 8 → tabs < 256 }
    requires tabs { tabs < 65536 }
    ensures { (ts : List Bool) → length ts ≡ len → mask_l ts ≡ tabs → result ≡ columns_after column ts }
{
    let tabs = tabs as usize;
    if len <= 8 {
        return column + len + tabs_more(column, tabs);
    }
    let middle = column + 8 + tabs_more(column, tabs % 256);
    middle + (len - 8) + tabs_more(middle, tabs / 256)
}

/// How many columns more than bytes the next eight bytes take, with a bit for each of them that is a tab.
#[inline(always)]
fn tabs_more(column: usize, tabs: usize) -> usize
    requires { tabs < 256 }
    ensures few { result ≤ 24 }
    ensures more { (ts : List Bool) → length ts ≡ 8 → mask_l ts ≡ tabs → columns_after column ts ≡ column + 8 + result }
{
    TABS[column % 4][tabs] as usize
}

/// Adds spaces. Many are copied together.
#[inline(always)]
pub(crate) fn push_columns(text: &mut Draft, n: usize) -> Result<(), AllocError>
    ensures { OnOk result (text.new.items ≡ text.old.items ++ replicate n 32) }
{
    if n <= 16 {
        return text.push_spaces(n);
    }
    push_more_columns(text, n)
}

#[inline(always)]
fn push_more_columns(text: &mut Draft, n: usize) -> Result<(), AllocError>
    ensures { OnOk result (text.new.items ≡ text.old.items ++ replicate n 32) }
{
    if n <= 64 {
        return text.push_spaces(n);
    }
    push_many_columns(text, n)
}

#[cold]
#[inline(never)]
fn push_many_columns(text: &mut Draft, n: usize) -> Result<(), AllocError>
    ensures { OnOk result (text.new.items ≡ text.old.items ++ replicate n 32) }
{
    let mut left = n;
    while left > 256 {
        text.push_all(&SPACES)?;
        left -= 256;
    }
    text.push_all(&SPACES[..left])
}
