// What the host calls.
ghost use Rattle.std.specs.Prelude.{◌≡◌, ◌≢◌, ◌⊎◌, ℕ, List, length, None, Some};
ghost use Rattle.std.specs.Option.{MatchOption};
ghost use Rattle.um_reports.specs.declared.status.Status.TheVariants.{Done, NoMemory};
ghost use Rattle.um_reports.specs.Numbers.{number_of};
ghost use Rattle.um_answers.specs.Passing.{IsTypedText};
ghost use Rattle.um_tool.specs.Served.{IsComplete};
ghost use Rattle.um_embed.specs.CommandLine.{IsAnswer, words_in};
ghost use Rattle.um_embed.specs.Embedded.{Answered, BeginsWith, held, run_words, types_words};

use crate::call::{answer_bytes, answer_usage};
use crate::hand::{copy_to_front, hand};
use crate::opened::{Opened, kept};
use crate::program::Program;
use crate::run::run_on;
use std::alloc::Global;
use std::mem::replace;
use um_reports::Status;

/// Runs the program on words and a text, and answers the number of the run's status.
///
/// `words` has the words of a command line in UTF-8, with a zero byte between each two, and `text` is the standard
/// input. `size` gets how many bytes the answer has, and `answer` begins with it if it has room for all of it;
/// otherwise it stays as it was, and the caller may call again with more. If memory is wanting, the status is 17 and
/// there is no answer.
#[unsafe(no_mangle)]
pub extern "C" fn um_page_serve(
    alloc: Global,
    words: &[u8],
    text: &[u8],
    answer: &mut [u8],
    size: &mut usize,
) -> u8
    // The program's answer to the words and the text, unless memory was wanting.
    ensures answered { ((result ≡ number_of NoMemory) × (size.new ≡ 0))
        ⊎ ((bytes : List ℕ) × IsAnswer words.now text.now bytes result × (size.new ≡ length bytes)
        × BeginsWith bytes answer.old answer.new) }

    // If every step goes through, the order is done, or memory was wanting.
    ensures complete { IsComplete (words_in words.now) text.now
        → result ≢ number_of NoMemory → result ≡ number_of Done }
{
    match run_on(alloc, words, text) {
        Ok(run) => {
            *size = run.answer.len();
            copy_to_front(&run.answer, answer);
            run.status.number()
        }
        Err(_) => {
            *size = 0;
            Status::NoMemory.number()
        }
    }
}

/// Opens a program: checks and compiles its text once for many questions. What `into` held before is let go.
///
/// Answers as `types` about the text, by the number of its status. `size` gets how many bytes the answer has, and
/// `answer` begins with it if it has room for all of it; otherwise it stays as it was. If memory is wanting, the status
/// is 17 and there is no answer. The program is open exactly if the status is 0.
#[unsafe(no_mangle)]
pub extern "C" fn umc_embed_open(
    alloc: Global,
    text: &[u8],
    into: &mut Program,
    answer: &mut [u8],
    size: &mut usize,
) -> u8
    ensures answered { Answered (Some text.now) types_words result size.new answer.old answer.new }
    ensures opened { result ≡ number_of Done → held into.new.is_open into.new.text ≡ Some text.now }
    ensures refused { result ≢ number_of Done → held into.new.is_open into.new.text ≡ None }

    // A text whose functions have typings within the limits is accepted, or memory was wanting.
    ensures complete { IsTypedText text.now → result ≢ number_of NoMemory → result ≡ number_of Done }
{
    match kept(alloc, text) {
        Ok(opened) => hold(alloc, opened, into, answer, size),
        Err(refused) => {
            drop(exchange(alloc, into, Program::none()));
            hand(refused, answer, size)
        }
    }
}

/// The types of the functions of the program that is open: the answer to `types` about its text, as with
/// [`umc_embed_open`]. If none is open, it is the answer to words that name no command, of status 1.
#[unsafe(no_mangle)]
pub extern "C" fn umc_embed_types(
    alloc: Global,
    program: &mut Program,
    answer: &mut [u8],
    size: &mut usize,
) -> u8
    ensures answered { Answered (held program.old.is_open program.old.text) types_words result size.new
        answer.old answer.new }
    ensures kept { held program.new.is_open program.new.text ≡ held program.old.is_open program.old.text }
{
    match exchange(alloc, program, Program::none()) {
        Some(opened) => {
            let reply = opened.types(alloc);
            drop(exchange(alloc, program, Program::keeping(opened)));
            hand(reply, answer, size)
        }
        None => hand(answer_usage(alloc), answer, size),
    }
}

/// Calls a function of the program that is open: the answer to `run BUDGET NAME ARG*` about its text, as with
/// [`umc_embed_types`].
///
/// `words` has the name of the function and its arguments in UTF-8, with a zero byte between each two. It takes time
/// for the words and the run.
#[unsafe(no_mangle)]
pub extern "C" fn umc_embed_call(
    alloc: Global,
    program: &mut Program,
    budget: u64,
    words: &[u8],
    answer: &mut [u8],
    size: &mut usize,
) -> u8
    ensures answered { Answered (held program.old.is_open program.old.text) (run_words budget words.now) result size.new
        answer.old answer.new }
    ensures kept { held program.new.is_open program.new.text ≡ held program.old.is_open program.old.text }
{
    match exchange(alloc, program, Program::none()) {
        Some(opened) => {
            let reply = answer_bytes(alloc, &opened, budget, words);
            drop(exchange(alloc, program, Program::keeping(opened)));
            hand(reply, answer, size)
        }
        None => hand(answer_usage(alloc), answer, size),
    }
}

/// Lets a program go. If none is open, nothing happens.
#[unsafe(no_mangle)]
pub extern "C" fn umc_embed_close(alloc: Global, program: &mut Program)
    ensures { held program.new.is_open program.new.text ≡ None }
{
    drop(exchange(alloc, program, Program::none()));
}

/// Holds a program, and answers as `types` about its text. If memory is wanting, none is held.
fn hold(
    alloc: Global,
    opened: Box<Opened>,
    into: &mut Program,
    answer: &mut [u8],
    size: &mut usize,
) -> u8
    ensures answered { Answered (Some opened.value) types_words result size.new answer.old answer.new }
    ensures opened { result ≡ number_of Done → held into.new.is_open into.new.text ≡ Some opened.value }
    ensures refused { result ≢ number_of Done → held into.new.is_open into.new.text ≡ None }
    ensures accepted { result ≢ number_of NoMemory → result ≡ number_of Done }
{
    match opened.types(alloc) {
        Ok(reply) => {
            drop(exchange(alloc, into, Program::keeping(opened)));
            hand(Ok(reply), answer, size)
        }
        Err(error) => {
            drop(opened);
            drop(exchange(alloc, into, Program::none()));
            hand(Err(error), answer, size)
        }
    }
}

/// The program that was held before this one.
fn exchange(alloc: Global, program: &mut Program, by: Program) -> Option<Box<Opened>>
    ensures now { held program.new.is_open program.new.text ≡ held by.is_open by.text }
    ensures before { MatchOption result (held program.old.is_open program.old.text ≡ None)
        (λ opened. held program.old.is_open program.old.text ≡ Some opened.value) }
{
    replace(program, by).into_opened(alloc)
}
