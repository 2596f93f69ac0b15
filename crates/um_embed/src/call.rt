// A call by the words of its name and its arguments.
ghost use Rattle.std.specs.Prelude.{◌≡◌, ◌<◌, ◌≤◌, ◌∷◌, IfOk, codes, decimal, length, map, string_bytes};
ghost use Rattle.um_tool.specs.Answer.{Answer, IsUsageReply};
ghost use Rattle.um_call_answers.specs.CallsAnswer.{are_short as are_short_words};
ghost use Rattle.um_embed.specs.Embedded.{run_words, words_between};

use crate::opened::Opened;
use crate::words::words_of;
use std::alloc::Global;
use std::str;
use um_call_answers::CallWords;
use um_front::Answer;
use um_reports::{Status, reply_line};

/// The greatest budget of calls.
const GREATEST_BUDGET: u64 = 10_000_000;

/// The longest word of a call, in bytes.
const WORD_LIMIT: usize = 1_048_576;

/// The answer to `run` with this budget and the words in these bytes.
pub(crate) fn answer_bytes(alloc: Global, opened: &Opened, budget: u64, bytes: &[u8]) -> Answer
    ensures { IfOk result (λ reply. Answer (run_words budget bytes.now) opened.now reply.text.items reply.status) }
{
    match str::from_utf8(bytes) {
        Ok(text) => answer_text(alloc, opened, budget, text),
        Err(_) => answer_usage(alloc),
    }
}

/// The answer to words that name no command.
pub(crate) fn answer_usage(alloc: Global) -> Answer
    ensures { IfOk result (λ reply. IsUsageReply reply.text.items reply.status) }
{
    reply_line(alloc, "error 1: usage", Status::Usage)
}

fn answer_text(alloc: Global, opened: &Opened, budget: u64, text: &str) -> Answer
    ensures { IfOk result (λ reply. Answer (codes "run" ∷ decimal budget ∷ words_between text.now) opened.now
        reply.text.items reply.status) }
{
    let words = words_of(alloc, text)?;
    let answer = answer_words(alloc, opened, budget, &words);
    drop(words);
    answer
}

fn answer_words(alloc: Global, opened: &Opened, budget: u64, words: &[String]) -> Answer
    requires some { 0 < length words.now }
    ensures { IfOk result (λ reply. Answer (codes "run" ∷ decimal budget ∷ map string_bytes words.now) opened.now
        reply.text.items reply.status) }
{
    if budget > GREATEST_BUDGET {
        return answer_usage(alloc);
    }
    if !are_short(words) {
        return answer_usage(alloc);
    }
    let call = CallWords {
        budget,
        name: words[0].as_str(),
        texts: &words[1..],
    };
    opened.call(alloc, &call)
}

/// Whether each word is at most 1,048,576 bytes long.
fn are_short(words: &[String]) -> bool
    ensures { result ≡ are_short_words (map string_bytes words.now) }
{
    words.iter().all(|word| word.len() <= WORD_LIMIT)
}
