// White space before a comment, with the blank lines above it.
ghost use Rattle.std.specs.Prelude.{◌≡◌, ◌≤◌, ◌<◌, ◌+◌, ◌*◌, ℕ, true, false, length, drop, get_or};
ghost use Rattle.std.specs.Prelude.{slice_range};
ghost use Rattle.std.specs.List.{prefix_len};
ghost use Rattle.um_syntax.specs.Gap.{is_space};
ghost use Rattle.um_tidy.specs.Gaps.{width_from};
ghost use Rattle.um_tidy.specs.Placed.{is_line_space, ends_mask, IsMargin, IsLineMargin};

use crate::columns::{near_ends, near_marks, near_tabs, past_byte, past_near};
use crate::feed::lowest;
use crate::white::run_len;

/// White space from a place on.
#[derive(Clone, Copy)]
pub(crate) struct Margin {
    /// Where the last line of it begins.
    pub line: usize,
    /// Where it ends.
    pub end: usize,
    /// The columns that it takes in that line.
    pub width: usize,
    /// 0 only if no tab and no CR stands in that line.
    pub others: usize,
}

/// White space of a line from a place on.
#[derive(Clone, Copy)]
struct LineSpace {
    /// Where it ends.
    end: usize,
    /// The column there.
    width: usize,
}

/// The white space at a place.
#[inline(always)]
pub(crate) fn margin_at(gap: &[u8], from: usize) -> Margin
    requires short { length gap.now ≤ 1048576 }
    requires within { from ≤ length gap.now }
    ensures margin { IsMargin gap.now from result }
    ensures end { from + prefix_len is_space (drop from gap.now) ≡ result.end }
{
    let mut line = from;
    'lines: while is_low(gap, line) {
        if gap[line] == b'\n' {
            line = past_feeds(gap, line);
        } else if line + 16 > gap.len() {
            let margin = last_margin(gap, no_margin(gap, line));
            if !has_feed(gap, margin.end) {
                return margin;
            }
            line = past_feeds(gap, margin.end);
        } else if gap[line + 1] > b' ' {
            return single_margin(gap, line);
        } else if gap[line + 1] == b'\n' {
            if !has_line_space(gap, line) {
                return no_margin(gap, line);
            }
            line = past_feeds(gap, line + 1);
        } else {
            let margin = near_margin(gap, line);
            if !has_feed(gap, margin.end) {
                return margin;
            }
            line = past_feeds(gap, margin.end);
        }
    }
    no_margin(gap, line)
}

/// No white space in a line that begins here.
#[inline(always)]
fn no_margin(gap: &[u8], at: usize) -> Margin
    requires { at ≤ length gap.now }
    ensures line { result.line ≡ at }
    ensures end { result.end ≡ at }
    ensures width { result.width ≡ 0 }
    ensures others { result.others ≡ 0 }
    ensures margin { IsLineMargin gap.now result }
{
    Margin {
        line: at,
        end: at,
        width: 0,
        others: 0,
    }
}

/// Whether a byte stands at a place that may be white space.
#[inline(always)]
fn is_low(gap: &[u8], at: usize) -> bool
    requires { at ≤ length gap.now }
    ensures within { result ≡ true → at < length gap.now }
    ensures none { result ≡ false → is_space (get_or gap.now at 0) ≡ false }
{
    at < gap.len() && gap[at] <= b' '
}

/// Whether a line feed stands at a place.
#[inline(always)]
fn has_feed(gap: &[u8], at: usize) -> bool
    requires { at ≤ length gap.now }
    ensures within { result ≡ true → at < length gap.now }
    ensures here { result ≡ true → get_or gap.now at 0 ≡ 10 }
    ensures none { result ≡ false → get_or gap.now at 0 ≡ 10 → ⊥ }
{
    at < gap.len() && gap[at] == b'\n'
}

/// Whether white space of a line stands at a place.
#[inline(always)]
fn has_line_space(gap: &[u8], at: usize) -> bool
    requires { at ≤ length gap.now }
    ensures within { result ≡ true → at < length gap.now }
    ensures here { result ≡ is_line_space (get_or gap.now at 0) }
{
    at < gap.len() && (gap[at] == b' ' || gap[at] == b'\t' || gap[at] == b'\r')
}

/// Where the line begins that follows the line feeds at a place.
#[inline(always)]
fn past_feeds(gap: &[u8], at: usize) -> usize
    requires within { at < length gap.now }
    requires feed { get_or gap.now at 0 ≡ 10 }
    ensures within { (at < result) × (result ≤ length gap.now) }
    ensures feeds { (k : ℕ) → at ≤ k → k < result → get_or gap.now k 0 ≡ 10 }
{
    at + 1 + run_len(gap, at + 1, b'\n')
}

/// The white space of a line that begins here, if no more of it stands in the line than one byte.
#[inline(always)]
fn single_margin(gap: &[u8], at: usize) -> Margin
    requires within { at + 1 < length gap.now }
    requires line { get_or gap.now at 0 ≡ 10 → ⊥ }
    requires next { 32 < get_or gap.now (at + 1) 0 }
    ensures line { result.line ≡ at }
    ensures margin { IsLineMargin gap.now result }
    ensures none { is_space (get_or gap.now result.end 0) ≡ false }
{
    let byte = gap[at];
    if byte == b'\t' {
        Margin {
            line: at,
            end: at + 1,
            width: 4,
            others: 1,
        }
    } else if byte == b' ' {
        Margin {
            line: at,
            end: at + 1,
            width: 1,
            others: 0,
        }
    } else if byte == b'\r' {
        Margin {
            line: at,
            end: at + 1,
            width: 1,
            others: 1,
        }
    } else {
        no_margin(gap, at)
    }
}

/// The white space of a line that begins here, if 16 bytes or more are left.
#[inline(always)]
fn near_margin(gap: &[u8], at: usize) -> Margin
    requires short { length gap.now ≤ 1048576 }
    requires within { at + 16 ≤ length gap.now }
    ensures line { result.line ≡ at }
    ensures margin { IsLineMargin gap.now result }
    ensures ended { is_line_space (get_or gap.now result.end 0) ≡ false }
{
    let ends = near_ends(gap, at);
    if ends == 0 {
        return far_margin(gap, past_whole(gap, no_margin(gap, at)));
    }
    past_part(gap, no_margin(gap, at), ends)
}

/// The same, however long it is.
#[inline(always)]
fn far_margin(gap: &[u8], margin: Margin) -> Margin
    requires short { length gap.now ≤ 1048576 }
    requires margin { IsLineMargin gap.now margin }
    requires narrow { (margin.width ≤ 4 * margin.end) × (margin.others ≤ 65536 * margin.end) }
    ensures line { result.line ≡ margin.line }
    ensures margin { IsLineMargin gap.now result }
    ensures ended { is_line_space (get_or gap.now result.end 0) ≡ false }
{
    let mut margin = margin;
    'parts: while margin.end + 16 <= gap.len() {
        let ends = near_ends(gap, margin.end);
        if ends != 0 {
            return past_part(gap, margin, ends);
        }
        margin = past_whole(gap, margin);
    }
    last_margin(gap, margin)
}

/// The white space of a line with the next 16 bytes, if all of them are white space of the line.
#[inline(always)]
fn past_whole(gap: &[u8], margin: Margin) -> Margin
    requires within { margin.end + 16 ≤ length gap.now }
    requires margin { IsLineMargin gap.now margin }
    requires narrow { (margin.width ≤ 4194304) × (margin.others ≤ 68719476736) }
    requires whole { ends_mask gap.now margin.end ≡ 0 }
    ensures line { result.line ≡ margin.line }
    ensures end { result.end ≡ margin.end + 16 }
    ensures narrow { (result.width ≤ margin.width + 64) × (result.others ≤ margin.others + 65536) }
    ensures margin { IsLineMargin gap.now result }
{
    Margin {
        end: margin.end + 16,
        width: past_near(margin.width, near_tabs(gap, margin.end), 16),
        others: margin.others + near_marks(gap, margin.end) as usize,
        ..margin
    }
}

/// The white space of a line with what is left of it among the next 16 bytes, if it ends there.
#[inline(always)]
fn past_part(gap: &[u8], margin: Margin, ends: u64) -> Margin
    requires within { margin.end + 16 ≤ length gap.now }
    requires margin { IsLineMargin gap.now margin }
    requires narrow { (margin.width ≤ 4194304) × (margin.others ≤ 68719476736) }
    requires ends { ends ≡ ends_mask gap.now margin.end }
    requires some { 0 < ends }
    ensures line { result.line ≡ margin.line }
    ensures margin { IsLineMargin gap.now result }
    ensures ended { is_line_space (get_or gap.now result.end 0) ≡ false }
{
    let len = lowest(ends);
    let marks = near_marks(gap, margin.end) & (ends - 1);
    if marks == 0 {
        return Margin {
            end: margin.end + len,
            width: margin.width + len,
            ..margin
        };
    }
    let tabs = near_tabs(gap, margin.end) & (ends - 1);
    Margin {
        end: margin.end + len,
        width: past_near(margin.width, tabs, len),
        others: margin.others + marks as usize,
        ..margin
    }
}

/// The same, if fewer than 16 bytes are left.
#[inline(always)]
fn last_margin(gap: &[u8], margin: Margin) -> Margin
    requires short { length gap.now ≤ 1048576 }
    requires margin { IsLineMargin gap.now margin }
    requires narrow { margin.width ≤ 4 * margin.end }
    ensures line { result.line ≡ margin.line }
    ensures margin { IsLineMargin gap.now result }
    ensures ended { is_line_space (get_or gap.now result.end 0) ≡ false }
{
    let last = last_line_space(gap, margin.end, margin.width);
    Margin {
        end: last.end,
        width: last.width,
        others: 1,
        ..margin
    }
}

/// The white space of a line from a place on, byte by byte. There this column stands.
#[cold]
#[inline(never)]
fn last_line_space(gap: &[u8], from: usize, column: usize) -> LineSpace
    requires short { length gap.now ≤ 1048576 }
    requires within { from ≤ length gap.now }
    requires narrow { column ≤ 4 * from }
    ensures order { (from ≤ result.end) × (result.end ≤ length gap.now) }
    ensures space { (k : ℕ) → from ≤ k → k < result.end → is_line_space (get_or gap.now k 0) ≡ true }
    ensures width { result.width ≡ width_from column (slice_range gap.now from result.end) }
    ensures ended { is_line_space (get_or gap.now result.end 0) ≡ false }
{
    let mut end = from;
    let mut width = column;
    while has_line_space(gap, end) {
        width = past_byte(width, gap[end]);
        end += 1;
    }
    LineSpace { end, width }
}
