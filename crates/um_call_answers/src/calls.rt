// The answer to many calls of one program.
ghost use Rattle.std.specs.Prelude.{◌≡◌, ◌≤◌, ◌<◌, ◌++◌, ℕ, List, IfOk, IsTrue, codes, length, map, string_bytes};
ghost use Rattle.um_tree.specs.ProgramTree.{program_tree};
ghost use Rattle.um_run.specs.Calls.{call_tree};
ghost use Rattle.um_run.specs.Laws.{IsTypedCall};
ghost use Rattle.um_lines.specs.Sources.{call_lines, words_in};
ghost use Rattle.um_reports.specs.Steps.{line as line_with, Cases};
ghost use Rattle.um_front.specs.Parts.{checked_tree};
ghost use Rattle.um_call_answers.specs.AskedCall.{IsShortCall};
ghost use Rattle.um_call_answers.specs.Calling.{IsCallableIn, asked_call};
ghost use Rattle.um_call_answers.specs.CallAnswer.{IsCallAnswer, RunAnswer};
ghost use Rattle.um_call_answers.specs.CallsAnswer.{SourceAnswer, AreCallsAnswers, AreLineAnswers, IsLineAnswer};
ghost use Rattle.um_call_answers.specs.CallsAnswer.{IsRunText, are_short as are_short_words};

use crate::call_words::CallWords;
use crate::compiled::Compiled;
use crate::outcome::{Ended, reply_to_outcome};
use crate::way::Way;
use std::alloc::{AllocError, Global};
use std::str;
use um_front::{Answer, Checked, Text, check};
use um_gen::generate;
use um_lines::{cut_source, next_line, words_of};
use um_reports::{Reply, Status, reply_line, reply_to_call};
use um_run::{Call, Callable, callable_of, read_call_of, tables_of};

/// The longest text of a program, in bytes.
const TEXT_LIMIT: usize = 1_048_576;

/// The longest word of a call, in bytes.
const WORD_LIMIT: usize = 1_048_576;

/// A compiled program with the tables of its names, which are made once for many calls, and the budget of each call.
#[derive(Clone, Copy)]
struct Prepared<'a> {
    budget: u64,
    program: &'a Compiled<'a>,
    callable: &'a Callable<'a>,
    ghost small: { budget ≤ 10000000 },
}

/// The answer to `calls` about the bytes that were read. The text before the first line that is `---` alone is a
/// program, and each line after it is a call by its words, which stand between tabs.
///
/// The budget, at most 10,000,000, is that of each call. The program is read, typed and compiled once, the tables of
/// its names are made once, and each line is answered as `run` answers its words: it takes time for its words and its
/// call. Beside the answer it takes memory for one call at a time. Want of memory is the one error; each refusal is an
/// answer. The rules are this project's own.
pub fn answer_calls(alloc: Global, budget: u64, bytes: &[u8]) -> Answer
    requires small { budget ≤ 10000000 }
    ensures { IfOk result (λ reply. SourceAnswer budget bytes.now reply.text.items reply.status) }
{
    let source = cut_source(bytes);
    if source.text.len() > TEXT_LIMIT {
        return reply_line(alloc, "error 2: text too long", Status::TooLong);
    }
    let text = Text::of_bytes(alloc, source.text)?;
    match check(alloc, text) {
        Ok(checked) => answer_whole(alloc, budget, source.calls, checked),
        Err(refused) => refused,
    }
}

/// The answer in a program with its schemes.
fn answer_whole(alloc: Global, budget: u64, calls: &[u8], checked: Checked) -> Answer
    requires small { budget ≤ 10000000 }
    ensures { IfOk result (λ reply. AreCallsAnswers budget (call_lines calls.now) (checked_tree checked)
        reply.text.items reply.status) }
{
    let answer = answer_lines(alloc, budget, calls, &checked);
    checked.discard();
    answer
}

/// The same, and the program is kept.
fn answer_lines(alloc: Global, budget: u64, calls: &[u8], checked: &Checked) -> Answer
    requires small { budget ≤ 10000000 }
    ensures { IfOk result (λ reply. AreCallsAnswers budget (call_lines calls.now) (checked_tree checked.now)
        reply.text.items reply.status) }
{
    let code = generate(alloc, checked.shaped())?;
    let program = Compiled::new(checked, &code);
    let text = named_answers(alloc, budget, calls, checked, &program);
    drop(code);
    Ok(Reply {
        text: text?,
        status: Status::Done,
    })
}

/// The answers to the lines, with tables of the program's names that are made once.
fn named_answers(
    alloc: Global,
    budget: u64,
    calls: &[u8],
    checked: &Checked,
    program: &Compiled,
) -> Result<Vec<u8>, AllocError>
    requires small { budget ≤ 10000000 }
    requires same { program.now ≡ checked.now }
    ensures { IfOk result (λ text. AreLineAnswers budget (checked_tree checked.now) (call_lines calls.now) text.items) }
{
    let shaped = checked.shaped();
    let schemes = checked.schemes();
    let abbreviations = checked.abbreviations();
    let tables = tables_of(alloc, shaped, abbreviations)?;
    let callable = callable_of(shaped, schemes, abbreviations, &tables);
    let prepared = Prepared {
        budget,
        program,
        callable: &callable,
    };
    let text = line_answers(alloc, calls, &prepared);
    drop(tables);
    text
}

/// The answers to the lines, one after another.
fn line_answers(alloc: Global, calls: &[u8], prepared: &Prepared) -> Result<Vec<u8>, AllocError>
    requires { IsCallableIn prepared.now.program.now prepared.now.callable.now }
    ensures { IfOk result (λ text. AreLineAnswers prepared.now.budget (checked_tree prepared.now.program.now)
        (call_lines calls.now) text.items) }
{
    let mut text = Vec::new(alloc);
    let mut rest = calls;
    'lines: while let Some((line, after)) = next_line(rest) {
        let reply = answer_line(alloc, line, prepared)?;
        text.extend_from_slice(&reply.text)?;
        rest = after;
    }
    Ok(text)
}

/// The answer to a line.
fn answer_line(alloc: Global, line: &[u8], prepared: &Prepared) -> Answer
    requires { IsCallableIn prepared.now.program.now prepared.now.callable.now }
    ensures { IfOk result (λ reply. IsLineAnswer prepared.now.budget (checked_tree prepared.now.program.now)
        line.now reply.text.items) }
{
    if line.is_empty() {
        return reply_line(alloc, "", Status::Done);
    }
    match str::from_utf8(line) {
        Ok(line) => answer_words(alloc, line, prepared),
        Err(_) => reply_line(alloc, "error 1: usage", Status::Usage),
    }
}

/// The answer to the words of a line.
fn answer_words(alloc: Global, line: &str, prepared: &Prepared) -> Answer
    requires { IsCallableIn prepared.now.program.now prepared.now.callable.now }
    ensures { IfOk result (λ reply. Cases (IsTrue (are_short_words (words_in line.now)))
        (IsRunText prepared.now.budget (checked_tree prepared.now.program.now) (words_in line.now) reply.text.items)
        (reply.text.items ≡ line_with (codes "error 1: usage"))) }
{
    let words = words_of(alloc, line)?;
    let answer = answer_call_by(alloc, &words, prepared);
    drop(words);
    answer
}

/// The answer to a call by its words.
fn answer_call_by(alloc: Global, words: &[String], prepared: &Prepared) -> Answer
    requires callable { IsCallableIn prepared.now.program.now prepared.now.callable.now }
    requires some { 0 < length words.now }
    ensures { IfOk result (λ reply. Cases (IsTrue (are_short_words (map string_bytes words.now)))
        (IsRunText prepared.now.budget (checked_tree prepared.now.program.now) (map string_bytes words.now)
        reply.text.items)
        (reply.text.items ≡ line_with (codes "error 1: usage"))) }
{
    if !are_short(words) {
        return reply_line(alloc, "error 1: usage", Status::Usage);
    }
    let call = CallWords {
        budget: prepared.budget,
        name: words[0].as_str(),
        texts: &words[1..],
    };
    answer_call_of(alloc, &call, prepared.program, prepared.callable)
}

/// Whether each word is at most 1,048,576 bytes long.
fn are_short(words: &[String]) -> bool
    ensures { result ≡ are_short_words (map string_bytes words.now) }
{
    words.iter().all(|word| word.len() <= WORD_LIMIT)
}

/// The answer that `run` gives to a call, of a program that is checked and compiled and whose tables of names are made.
///
/// The budget is at most 10,000,000, and no text of an argument is longer than 1,048,576 bytes. The tables are those of
/// this program. A call takes time for its words and its run. Want of memory is the one error; each refusal is an
/// answer. The rules are this project's own.
pub fn answer_call_of(
    alloc: Global,
    call: &CallWords,
    program: &Compiled,
    callable: &Callable,
) -> Answer
    requires call { IsShortCall (asked_call call.now) }
    requires callable { IsCallableIn program.now callable.now }
    ensures { IfOk result (λ reply. IsCallAnswer Way.Code (asked_call call.now) (checked_tree program.now)
        reply.text.items reply.status) }
{
    match read_call_of(alloc, callable, call.name, call.texts) {
        Ok(read) => {
            let answer = reply_to_compiled(alloc, call.budget, program, &read);
            drop(read);
            answer
        }
        Err(refusal) => reply_to_call(alloc, call.texts, refusal),
    }
}

/// How a call that has a type ends, with its value at its type.
#[tactic(auto, unfolding(crate::specs::CallAnswer::RunAnswer))]
fn reply_to_compiled(alloc: Global, budget: u64, program: &Compiled, call: &Call) -> Answer
    requires typed { IsTypedCall (program_tree program.now.text.shaped) (call_tree call.now) }
    requires small { budget ≤ 10000000 }
    ensures { IfOk result (λ reply. RunAnswer Way.Code budget (program_tree program.now.text.shaped)
        (call_tree call.now) reply.text.items reply.status) }
{
    let outcome = program.outcome(alloc, budget, call)?;
    let ended = Ended {
        outcome,
        steps: None,
    };
    let reply = reply_to_outcome(alloc, program.checked().program(), &ended, &call.ty);
    drop(ended);
    reply
}
