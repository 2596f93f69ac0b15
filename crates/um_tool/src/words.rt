// The calls that words ask for.
ghost use Rattle.std.specs.Prelude.{◌≡◌, ◌≤◌, ◌+◌, ℕ, All, List, [], drop, get_or, length};
ghost use Rattle.um_call_answers.specs.AskedCall.{IsShortCall};
ghost use Rattle.um_call_answers.specs.Calling.{asked_call};

use um_call_answers::CallWords;
use um_orders::Words;

/// The call of at most so many calls whose name is the word of this number, counted from 0, with the words after it as
/// the texts of its arguments. Takes no memory.
pub(crate) fn called(words: &Words, budget: u64, name: usize) -> CallWords<'_>
    requires early { name ≤ 4 }
    requires many { name + 1 ≤ length words.now }
    requires small { budget ≤ 10000000 }
    requires short { All (λ (word : List ℕ). length word ≤ 1048576) words.now }
    ensures call { asked_call result ≡ record {
      budget = budget;
      name = get_or words.now name [];
      texts = drop (name + 1) words.now;
    } }
    ensures short { IsShortCall (asked_call result) }
{
    CallWords {
        budget,
        name: words.word(name),
        texts: words.after(name + 1),
    }
}
