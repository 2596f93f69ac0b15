// The comments below a line. What stays as it is of them is copied together.
ghost use Rattle.std.specs.Prelude.{◌≡◌, ◌≤◌, ◌<◌, ◌+◌, ◌++◌, ◌∷◌, [], List, ℕ, false, IfOk, length, take, drop};
ghost use Rattle.std.specs.Prelude.{◌-◌, get_or, slice_range};
ghost use Rattle.std.specs.List.{prefix_len};
ghost use Rattle.um_syntax.specs.Gap.{is_space};
ghost use Rattle.um_tidy.specs.declared.gap.Above.{Above};
ghost use Rattle.um_tidy.specs.declared.gap.Above.TheVariants.{Line};
ghost use Rattle.um_tidy.specs.Gaps.{in_line, lines, each_line};
ghost use Rattle.um_tidy.specs.Placed.{below_blank, front, lines_from, IsMargin};

use crate::columns::push_columns;
use crate::edges::first_edge;
use crate::gap::{Above, push_blank_line};
use crate::margin::{Margin, margin_at};
use crate::white::trimmed_some;
use memchr::memrchr;
use std::alloc::AllocError;
use um_draft::Draft;

/// White space after a comment, by its places in a gap.
#[derive(Clone, Copy)]
struct Edge {
    /// Where the comment ends.
    end: usize,
    /// Where the comment's line ends.
    feed: usize,
    /// The white space of the lines below it.
    margin: Margin,
}

/// Adds the comments of a gap, if it follows a line, and tells how many bytes their lines take.
pub(crate) fn push_comments(text: &mut Draft, above: Above, gap: &[u8]) -> Result<usize, AllocError>
    requires { length gap.now ≤ 1048576 }
    ensures within { IfOk result (λ len. len ≤ length gap.now) }
    ensures added { IfOk result (λ len. (last : Above → List ℕ → List ℕ)
        → text.new.items ++ each_line last above (lines (drop len gap.now))
        ≡ text.old.items ++ each_line last above (lines gap.now)) }
{
    match above {
        Above::Line => push_comments_below(text, gap),
        Above::Nothing | Above::Blank => Ok(0),
    }
}

/// The same below a line.
fn push_comments_below(text: &mut Draft, gap: &[u8]) -> Result<usize, AllocError>
    requires { length gap.now ≤ 1048576 }
    ensures within { IfOk result (λ len. len ≤ length gap.now) }
    ensures added { IfOk result (λ len. (last : Above → List ℕ → List ℕ)
        → text.new.items ++ lines_from last gap.now len ≡ text.old.items ++ each_line last Line (lines gap.now)) }
{
    let Some(last) = memrchr(b'\n', gap) else {
        return Ok(0);
    };
    let margin = margin_at(gap, 0);
    if last < margin.end {
        return Ok(0);
    }
    let from = push_front(text, 0, margin)?;
    push_comments_from(text, gap, from, margin.end, last)
}

/// The same from the start of a comment on. The bytes from `from` to it stay as they are, and aren't added yet.
fn push_comments_from(
    text: &mut Draft,
    gap: &[u8],
    from: usize,
    start: usize,
    last: usize,
) -> Result<usize, AllocError>
    requires short { length gap.now ≤ 1048576 }
    requires from { from ≤ start }
    requires order { start < last }
    requires within { last < length gap.now }
    requires ends { get_or gap.now last 0 ≡ 10 }
    requires begins { is_space (get_or gap.now start 0) ≡ false }
    ensures within { IfOk result (λ len. len ≤ length gap.now) }
    ensures added { IfOk result (λ len. (last : Above → List ℕ → List ℕ)
        → text.new.items ++ lines_from last gap.now len
        ≡ (text.old.items ++ slice_range gap.now from start) ++ lines_from last gap.now start) }
{
    let mut from = from;
    let mut edge = edge_after(gap, start, last);
    'edges: while edge.margin.end < last {
        from = push_edge(text, gap, from, edge)?;
        edge = edge_after(gap, edge.margin.end, last);
    }
    let from = push_end(text, gap, from, edge.end, edge.feed)?;
    text.push(gap, from, edge.feed + 1)?;
    Ok(edge.feed + 1)
}

/// The first edge after the start of a comment. What stands before it stays as it is.
#[inline(always)]
fn edge_after(gap: &[u8], start: usize, last: usize) -> Edge
    requires short { length gap.now ≤ 1048576 }
    requires order { start < last }
    requires within { last < length gap.now }
    requires ends { get_or gap.now last 0 ≡ 10 }
    requires begins { is_space (get_or gap.now start 0) ≡ false }
    ensures order { (start < result.end) × (result.end ≤ result.feed) × (result.feed ≤ last) }
    ensures feed { get_or gap.now result.feed 0 ≡ 10 }
    ensures margin { IsMargin gap.now (result.feed + 1) result.margin }
    ensures space { result.feed + 1 + prefix_len is_space (drop (result.feed + 1) gap.now) ≡ result.margin.end }
    ensures stays { (last : Above → List ℕ → List ℕ) → lines_from last gap.now start
        ≡ slice_range gap.now start result.end ++ 10 ∷ lines_from last gap.now (result.feed + 1) }
{
    let feed = first_edge(gap, start + 1, last);
    Edge {
        end: trimmed_some(&gap[..feed]),
        feed,
        margin: margin_at(gap, feed + 1),
    }
}

/// Adds a comment with the white space after it, up to the place that is told. From there to the next one all stays.
#[inline(always)]
fn push_edge(text: &mut Draft, gap: &[u8], from: usize, edge: Edge) -> Result<usize, AllocError>
    requires from { from ≤ edge.end }
    requires order { (edge.end ≤ edge.feed) × (edge.feed < length gap.now) }
    requires feed { get_or gap.now edge.feed 0 ≡ 10 }
    requires margin { IsMargin gap.now (edge.feed + 1) edge.margin }
    requires space { edge.feed + 1 + prefix_len is_space (drop (edge.feed + 1) gap.now) ≡ edge.margin.end }
    requires ended { edge.margin.end + prefix_len in_line (drop edge.margin.end gap.now) < length gap.now }
    ensures within { IfOk result (λ next. next ≤ edge.margin.end) }
    ensures added { IfOk result (λ next. (last : Above → List ℕ → List ℕ)
        → (text.new.items ++ slice_range gap.now next edge.margin.end) ++ lines_from last gap.now edge.margin.end
        ≡ (text.old.items ++ slice_range gap.now from edge.end)
        ++ 10 ∷ lines_from last gap.now (edge.feed + 1)) }
{
    let at = edge.feed + 1;
    let margin = edge.margin;
    if margin.others > 0 {
        text.push_line(gap, from, edge.end)?;
        return push_front(text, at, margin);
    }
    if margin.line - at < 2 {
        return push_end(text, gap, from, edge.end, edge.feed);
    }
    text.push_line(gap, from, edge.end)?;
    Ok(margin.line - 1)
}

/// Adds the blank lines and the margin before a comment, up to the place that is told. From there on all stays.
#[inline(always)]
fn push_front(text: &mut Draft, at: usize, margin: Margin) -> Result<usize, AllocError>
    requires from { at ≤ margin.line }
    requires order { margin.line ≤ margin.end }
    ensures within { IfOk result (λ next. next ≤ margin.end) }
    ensures added { IfOk result (λ next. (gap : List ℕ) → IsMargin gap at margin
        → text.new.items ++ slice_range gap next margin.end ≡ text.old.items ++ front gap at margin.line margin.end) }
{
    let blank = margin.line - at;
    if margin.others == 0 && blank > 0 {
        return Ok(margin.line - 1);
    }
    push_blank_line(text, below_blank(blank))?;
    push_columns(text, margin.width)?;
    Ok(margin.end)
}

/// What stands above what follows so many bytes of blank lines below a line.
fn below_blank(len: usize) -> Above
    ensures { result ≡ below_blank len }
{
    match len {
        0 => Above::Line,
        _ => Above::Blank,
    }
}

/// Adds the end of a comment without the white space after it, if there is any.
#[tactic(auto, using(crate::proofs::PlacedComments::end_stays, crate::proofs::PlacedComments::end_added))]
#[inline(always)]
fn push_end(
    text: &mut Draft,
    gap: &[u8],
    from: usize,
    end: usize,
    feed: usize,
) -> Result<usize, AllocError>
    requires from { from ≤ end }
    requires order { end ≤ feed }
    requires within { feed < length gap.now }
    requires ends { get_or gap.now feed 0 ≡ 10 }
    ensures within { IfOk result (λ next. next ≤ feed) }
    ensures added { IfOk result (λ next. text.new.items ++ slice_range gap.now next (feed + 1)
        ≡ (text.old.items ++ slice_range gap.now from end) ++ 10 ∷ []) }
{
    if end == feed {
        return Ok(from);
    }
    text.push(gap, from, end)?;
    Ok(feed)
}
