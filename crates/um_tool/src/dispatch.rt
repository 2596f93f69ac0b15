// What is asked of a text, or of bytes: each order by its own command.
ghost use Rattle.std.specs.Prelude.{◌≡◌, ◌≤◌, IfOk, Some, length};
ghost use Rattle.um_orders.specs.Orders.{order_of, order_about, order_about_bytes};
ghost use Rattle.um_tool.specs.Asked.{StatesUnits};
ghost use Rattle.um_tool.specs.Answer.{ByOrder};

use crate::words::called;
use std::alloc::Global;
use um_answers::{
    answer_annot, answer_code, answer_conform, answer_fmt, answer_image, answer_prove,
    answer_rescale, answer_tidy, answer_types,
};
use um_call_answers::{Way, answer_call, answer_calls, answer_exec};
use um_explain_answers::answer_explain;
use um_front::{Answer, Text};
use um_orders::{BytesOrder, TextOrder, Words};
use um_shown_answers::{answer_show, answer_trace};
use um_twin_answers::answer_twin;

/// The answer to an order about a text.
pub(crate) fn answer_text(alloc: Global, order: TextOrder, words: &Words, text: Text) -> Answer
    requires ordered { order_of words.now ≡ Some (order_about order) }
    requires units { StatesUnits (order_about order) words.now }
    ensures { IfOk result (λ reply. ByOrder (order_about order) words.now text reply.text.items reply.status) }
{
    match order {
        TextOrder::Types => answer_types(alloc, text),
        TextOrder::Explain => answer_explain(alloc, text),
        TextOrder::Annot => answer_annot(alloc, text),
        TextOrder::Code => answer_code(alloc, text),
        TextOrder::Fmt => answer_fmt(alloc, text),
        TextOrder::Tidy => answer_tidy(alloc, text),
        TextOrder::Run { budget } => {
            answer_call(alloc, Way::Code, &called(words, budget, 2), text)
        }
        TextOrder::Steps { budget } => {
            answer_call(alloc, Way::Counted, &called(words, budget, 2), text)
        }
        TextOrder::Eval { budget } => {
            answer_call(alloc, Way::Tree, &called(words, budget, 2), text)
        }
        TextOrder::Trace { budget } => answer_trace(alloc, &called(words, budget, 2), text),
        TextOrder::Show { digits, budget } => {
            answer_show(
                alloc,
                digits,
                words.word(2),
                &called(words, budget, 4),
                text,
            )
        }
        TextOrder::Conform => answer_conform(alloc, words.word(1), words.word(2), text),
        TextOrder::Rescale => answer_rescale(alloc, words.word(1), text),
        TextOrder::Twin { budget } => {
            answer_twin(alloc, words.word(2), &called(words, budget, 3), text)
        }
        TextOrder::Prove => answer_prove(alloc, text),
        TextOrder::Image => answer_image(alloc, text),
    }
}

/// The answer to an order about bytes, of which there are at most 16,777,216.
pub(crate) fn answer_bytes(alloc: Global, order: BytesOrder, words: &Words, bytes: &[u8]) -> Answer
    requires ordered { order_of words.now ≡ Some (order_about_bytes order) }
    requires few { length bytes.now ≤ 16777216 }
    ensures { IfOk result (λ reply. ByOrder (order_about_bytes order) words.now bytes.now
        reply.text.items reply.status) }
{
    match order {
        BytesOrder::Exec { budget } => answer_exec(alloc, &called(words, budget, 2), bytes),
        BytesOrder::Calls { budget } => answer_calls(alloc, budget, bytes),
    }
}
