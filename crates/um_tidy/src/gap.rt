// What becomes of the white space and the comments between tokens.
ghost use Rattle.std.specs.Prelude.{◌≡◌, ◌≤◌, ◌<◌, ◌+◌, ◌++◌, ◌∷◌, [], List, ℕ, cond, length, drop};
ghost use Rattle.std.specs.Prelude.{OnOk, IfOk};
ghost use Rattle.std.specs.List.{prefix_len};
ghost use Rattle.um_syntax.specs.Gap.{is_space};
ghost use Rattle.um_tidy.specs.declared.gap.Above.{Above};
ghost use Rattle.um_tidy.specs.Gaps.{in_line, lines, comment, width_from, blank_line};
ghost use Rattle.um_tidy.specs.Gaps.{past_blank, own_line, below, each_line, indentation, before_token, comment_after};
ghost use Rattle.um_tidy.specs.Gaps.{line_end, first_gap, inner_gap, last_gap, only_gap};

use crate::columns::{push_columns, width};
use crate::comments::push_comments;
use crate::feed::line_feed;
use crate::white::{space_end, trimmed_len};
use memchr::memrchr;
use std::alloc::AllocError;
use um_draft::Draft;

/// What stands above a line.
#[derive(Clone, Copy)]
pub(crate) enum Above {
    /// Nothing but blank lines.
    Nothing,
    /// A line that isn't blank.
    Line,
    /// A blank line, and a line above it that isn't.
    Blank,
}

/// A line of a gap.
#[derive(Clone, Copy)]
struct Line<'a> {
    /// What stands above it.
    above: Above,
    /// The line, and those after it.
    rest: &'a [u8],
    /// How many bytes of white space stand at its front.
    margin: usize,
}

/// Adds what stands before the first token.
pub fn push_first_gap(text: &mut Draft, gap: &[u8], begins: bool) -> Result<(), AllocError>
    requires { length gap.now ≤ 1048576 }
    ensures { OnOk result (text.new.items ≡ text.old.items ++ first_gap begins gap.now) }
{
    push_to_token(text, Above::Nothing, gap, begins)
}

/// Adds what stands between two tokens: a space if they are spaced, or the lines that end and begin there.
pub fn push_inner_gap(
    text: &mut Draft,
    gap: &[u8],
    spaced: bool,
    begins: bool,
) -> Result<(), AllocError>
    requires { length gap.now ≤ 1048576 }
    ensures { OnOk result (text.new.items ≡ text.old.items ++ inner_gap spaced begins gap.now) }
{
    let len = line_len(gap);
    if len == gap.len() {
        return push_space(text, spaced);
    }
    push_line_end(text, &gap[..len])?;
    push_to_token(text, Above::Line, &gap[len + 1..], begins)
}

/// Adds what stands after the last token.
pub fn push_last_gap(text: &mut Draft, gap: &[u8]) -> Result<(), AllocError>
    requires { length gap.now ≤ 1048576 }
    ensures { OnOk result (text.new.items ≡ text.old.items ++ last_gap gap.now) }
{
    let len = line_len(gap);
    push_line_end(text, &gap[..len])?;
    if len == gap.len() {
        return Ok(());
    }
    push_to_end(text, Above::Line, &gap[len + 1..])
}

/// Adds what stands in a text without tokens.
pub fn push_only_gap(text: &mut Draft, gap: &[u8]) -> Result<(), AllocError>
    requires { length gap.now ≤ 1048576 }
    ensures { OnOk result (text.new.items ≡ text.old.items ++ only_gap gap.now) }
{
    push_to_end(text, Above::Nothing, gap)
}

/// Adds lines, the last of which holds the next token.
fn push_to_token(text: &mut Draft, above: Above, gap: &[u8], begins: bool) -> Result<(), AllocError>
    requires { length gap.now ≤ 1048576 }
    ensures { OnOk result (text.new.items
        ≡ text.old.items ++ each_line (before_token begins) above (lines gap.now)) }
{
    let last = push_lines(text, above, gap)?;
    push_blank_line(text, last.above)?;
    push_indentation(text, begins, last.rest, last.margin)
}

/// Adds lines, none of which holds a token.
fn push_to_end(text: &mut Draft, above: Above, gap: &[u8]) -> Result<(), AllocError>
    requires { length gap.now ≤ 1048576 }
    ensures { OnOk result (text.new.items ≡ text.old.items ++ each_line own_line above (lines gap.now)) }
{
    let last = push_lines(text, above, gap)?;
    push_own_line(text, last.above, last.rest, last.margin)?;
    Ok(())
}

/// Adds all lines but the last, and tells that one. What stays as it is of comments is copied together.
fn push_lines<'a>(text: &mut Draft, above: Above, gap: &'a [u8]) -> Result<Line<'a>, AllocError>
    requires { length gap.now ≤ 1048576 }
    ensures size { IfOk result (λ l. length l.rest.now ≤ length gap.now) }
    ensures within { IfOk result (λ l. l.margin ≤ length l.rest.now) }
    ensures margin { IfOk result (λ l. l.margin ≡ prefix_len is_space l.rest.now) }
    ensures added { IfOk result (λ l. (last : Above → List ℕ → List ℕ)
        → text.new.items ++ last l.above l.rest.now
        ≡ text.old.items ++ each_line last above (lines gap.now)) }
{
    let mut line = past_blank_lines(above, gap);
    'lines: while let Some(end) = line_feed(line.rest, line.margin) {
        let above = push_own_line(text, line.above, &line.rest[..end], line.margin)?;
        let rest = &line.rest[end + 1..];
        let len = push_comments(text, above, rest)?;
        line = past_blank_lines(above, &rest[len..]);
    }
    Ok(line)
}

/// The first line that isn't blank, or the last one.
fn past_blank_lines(above: Above, gap: &[u8]) -> Line<'_>
    ensures size { length result.rest.now ≤ length gap.now }
    ensures within { result.margin ≤ length result.rest.now }
    ensures margin { result.margin ≡ prefix_len is_space result.rest.now }
    ensures line { prefix_len in_line result.rest.now
        ≡ result.margin + prefix_len in_line (drop result.margin result.rest.now) }
    ensures lines { (last : Above → List ℕ → List ℕ)
        → each_line last result.above (lines result.rest.now) ≡ each_line last above (lines gap.now) }
{
    let margin = margin_len(gap);
    match memrchr(b'\n', &gap[..margin]) {
        Some(at) => Line {
            above: past_blank(above),
            rest: &gap[at + 1..],
            margin: margin - (at + 1),
        },
        None => Line {
            above,
            rest: gap,
            margin,
        },
    }
}

/// Adds a line without a token, and tells what stands above the next line.
fn push_own_line(
    text: &mut Draft,
    above: Above,
    line: &[u8],
    margin: usize,
) -> Result<Above, AllocError>
    requires short { length line.now ≤ 1048576 }
    requires within { margin ≤ length line.now }
    requires margin { margin ≡ prefix_len is_space line.now }
    ensures above { IfOk result (λ next. next ≡ below above (comment line.now)) }
    ensures added { OnOk result (text.new.items ≡ text.old.items ++ own_line above line.now) }
{
    let comment = comment_of(line, margin);
    if comment.is_empty() {
        return Ok(past_blank(above));
    }
    push_blank_line(text, above)?;
    push_columns(text, width(&line[..margin]))?;
    text.push_all(comment)?;
    text.push_byte(b'\n')?;
    Ok(Above::Line)
}

/// Adds the rest of a token's line.
fn push_line_end(text: &mut Draft, line: &[u8]) -> Result<(), AllocError>
    ensures { OnOk result (text.new.items ≡ text.old.items ++ line_end line.now) }
{
    let comment = comment_of(line, margin_len(line));
    push_comment_after(text, comment)?;
    text.push_byte(b'\n')
}

/// Adds a comment after a token, if there is one.
fn push_comment_after(text: &mut Draft, comment: &[u8]) -> Result<(), AllocError>
    ensures { OnOk result (text.new.items ≡ text.old.items ++ comment_after comment.now) }
{
    if comment.is_empty() {
        return Ok(());
    }
    text.push_byte(b' ')?;
    text.push_all(comment)
}

pub(crate) fn push_blank_line(text: &mut Draft, above: Above) -> Result<(), AllocError>
    ensures { OnOk result (text.new.items ≡ text.old.items ++ blank_line above) }
{
    match above {
        Above::Blank => text.push_byte(b'\n'),
        _ => Ok(()),
    }
}

fn push_space(text: &mut Draft, spaced: bool) -> Result<(), AllocError>
    ensures { OnOk result (text.new.items ≡ text.old.items ++ cond spaced (32 ∷ []) []) }
{
    match spaced {
        true => text.push_byte(b' '),
        false => Ok(()),
    }
}

/// Adds the indentation of a line with a token.
fn push_indentation(
    text: &mut Draft,
    begins: bool,
    line: &[u8],
    margin: usize,
) -> Result<(), AllocError>
    requires short { length line.now ≤ 1048576 }
    requires within { margin ≤ length line.now }
    requires margin { margin ≡ prefix_len is_space line.now }
    ensures { OnOk result (text.new.items ≡ text.old.items ++ indentation begins line.now) }
{
    if begins {
        return Ok(());
    }
    push_columns(text, width(&line[..margin]).max(2))
}

fn past_blank(above: Above) -> Above
    ensures { result ≡ past_blank above }
{
    match above {
        Above::Nothing => Above::Nothing,
        _ => Above::Blank,
    }
}

/// The comment of a line that has no token, or nothing.
fn comment_of(line: &[u8], margin: usize) -> &[u8]
    requires within { margin ≤ length line.now }
    requires margin { margin ≡ prefix_len is_space line.now }
    ensures { result.now ≡ comment line.now }
{
    let rest = &line[margin..];
    &rest[..trimmed_len(rest)]
}

/// How many bytes stand before the first line feed.
fn line_len(bytes: &[u8]) -> usize
    ensures within { result ≤ length bytes.now }
    ensures len { result ≡ prefix_len in_line bytes.now }
{
    match line_feed(bytes, 0) {
        Some(at) => at,
        None => bytes.len(),
    }
}

/// How much white space stands at the front.
fn margin_len(line: &[u8]) -> usize
    ensures within { result ≤ length line.now }
    ensures len { result ≡ prefix_len is_space line.now }
{
    space_end(line, 0)
}
