// The top call.
ghost use Rattle.std.specs.Prelude.{◌≡◌, ◌≢◌, ℕ, IfOk, List, MatchBool, Some};
ghost use Rattle.um_wire.specs.Faults.{Rose};
ghost use Rattle.um_orders.specs.Orders.{order_of as order_named, order_about, order_about_bytes};
ghost use Rattle.um_tool.specs.Asked.{StatesUnits};
ghost use Rattle.um_tool.specs.Served.{IsPlanned, IsUndisturbed, Reads, Serves};
ghost use Rattle.um_tool.specs.Headline.{IsCalm, ServesHeadline};

use crate::dispatch::{answer_bytes, answer_text};
use crate::room::{TEXT_LIMIT, reading_for};
use std::alloc::{AllocError, Global};
use um_call_answers::answer_big;
use um_call_answers::laws::answers_of_images;
use um_display::is_units;
use um_front::Answer;
use um_orders::{BytesOrder, Intake, Order, TextOrder, Words, order_of};
use um_reports::{Status, reply_line, reply_to_unread};
use um_wire::{Failed, Sink, Source, read_into, read_text, write_all};

/// The most bytes that are read as they are: those of an image, or of a program and its calls.
const BYTES_LIMIT: usize = 16_777_216;

/// All that the program does: it reads what the words ask for, and writes the answer and nothing else.
///
/// The whole answer is built before the first write.
pub fn serve<S: Source, K: Sink>(
    alloc: Global,
    words: &Words,
    source: &mut S,
    sink: &mut K,
) -> Status
    // The bytes that were added to the sink and the status are one of four pairs: an answer, the line on a failed
    // read, a prefix of one of these if a write failed, nothing if memory was wanting. An empty answer and want of
    // memory leave the sink as it was.
    ensures served { Serves (IsPlanned words.now (S.left source.old) (S.faults source.old) (S.faults source.new))
        (sink.new ≡ sink.old)
        (K.taken sink.old) (K.taken sink.new) (K.faults sink.old) (K.faults sink.new) result }

    // Want of memory leaves the sink as it was, whatever it tells.
    ensures untouched { result ≡ Status.NoMemory → sink.new ≡ sink.old }

    // A fault of reading or writing is told only if the count of the source or the sink rose.
    ensures read_fault { result ≡ Status.ReadFault → Rose (S.faults source.old) (S.faults source.new) }
    ensures write_fault { result ≡ Status.WriteFault → Rose (K.faults sink.old) (K.faults sink.new) }

    // A count that rose is told: after any other status than that of a failed write the sink's is as it was, and so is
    // the source's, after any other than those of a failed read or write and of want of memory.
    ensures writes_told { result ≢ Status.WriteFault → K.faults sink.new ≡ K.faults sink.old }
    ensures reads_told { result ≢ Status.ReadFault → result ≢ Status.WriteFault → result ≢ Status.NoMemory
        → S.faults source.new ≡ S.faults source.old }

    // If every step goes through and nothing fails, the order is done, or memory was wanting.
    ensures complete { IsUndisturbed words.now (S.left source.old) (S.faults source.old) (S.faults source.new)
        → ¬ (Rose (K.faults sink.old) (K.faults sink.new)) → result ≢ Status.NoMemory → result ≡ Status.Done }

    // If the source tells its bytes, nothing fails and memory suffices, what was written says what the headline says.
    ensures headline { (bytes : List ℕ) → IsCalm (S.left source.old) bytes (S.faults source.old) (S.faults source.new)
        (K.faults sink.old) (K.faults sink.new) result
        → ServesHeadline words.now bytes (K.taken sink.old) (K.taken sink.new) result }

    // Words that ask for no read leave the source as it was.
    ensures unread { (Reads words.now → ⊥) → source.new ≡ source.old }
{
    match reply_to(alloc, words, source) {
        Err(_) => Status::NoMemory,
        Ok(reply) => match write_all(sink, &reply.text) {
            Ok(()) => reply.status,
            Err(Failed) => Status::WriteFault,
        },
    }
}

/// What the run is about to write.
fn reply_to<S: Source>(alloc: Global, words: &Words, source: &mut S) -> Answer
    ensures planned { IfOk result (λ reply. IsPlanned words.now (S.left source.old)
        (S.faults source.old) (S.faults source.new) reply.text.items reply.status) }
    ensures read_fault { IfOk result (λ reply. reply.status ≡ Status.ReadFault
        → Rose (S.faults source.old) (S.faults source.new)) }
    ensures reads_told { IfOk result (λ reply. reply.status ≢ Status.ReadFault
        → S.faults source.new ≡ S.faults source.old) }
    ensures not_write_fault { IfOk result (λ reply. reply.status ≢ Status.WriteFault) }
    ensures not_no_memory { IfOk result (λ reply. reply.status ≢ Status.NoMemory) }
    ensures complete { IfOk result (λ reply. IsUndisturbed words.now (S.left source.old) (S.faults source.old)
        (S.faults source.new)
        → reply.status ≡ Status.Done) }
    ensures unread { (Reads words.now → ⊥) → source.new ≡ source.old }
{
    answers_of_images();
    match order_of(words) {
        None => reply_line(alloc, "error 1: usage", Status::Usage),
        Some(order) => reply_to_order(alloc, order, words, source),
    }
}

/// What the run is about to write if the words name this order.
fn reply_to_order<S: Source>(alloc: Global, order: Order, words: &Words, source: &mut S) -> Answer
    requires ordered { order_named words.now ≡ Some order }
    ensures planned { IfOk result (λ reply. IsPlanned words.now (S.left source.old)
        (S.faults source.old) (S.faults source.new) reply.text.items reply.status) }
    ensures reads_told { IfOk result (λ reply. reply.status ≢ Status.ReadFault
        → S.faults source.new ≡ S.faults source.old) }
    ensures unread { (Reads words.now → ⊥) → source.new ≡ source.old }
{
    if states_units(alloc, order, words)? {
        reply_to_stated(alloc, order, words, source)
    } else {
        reply_line(alloc, "error 1: usage", Status::Usage)
    }
}

/// Whether the word that shall state units does.
fn states_units(alloc: Global, order: Order, words: &Words) -> Result<bool, AllocError>
    requires { order_named words.now ≡ Some order }
    ensures { IfOk result (λ stated. MatchBool stated (StatesUnits order words.now) (¬ StatesUnits order words.now)) }
{
    match order {
        Order::Show {
            digits: _,
            budget: _,
        } => is_units(alloc, words.word(2)),
        Order::Types
        | Order::Explain
        | Order::Annot
        | Order::Code
        | Order::Fmt
        | Order::Tidy
        | Order::Run { budget: _ }
        | Order::Steps { budget: _ }
        | Order::Eval { budget: _ }
        | Order::Trace { budget: _ }
        | Order::Conform
        | Order::Rescale
        | Order::Twin { budget: _ }
        | Order::Big(_)
        | Order::Prove
        | Order::Image
        | Order::Exec { budget: _ }
        | Order::Calls { budget: _ } => Ok(true),
    }
}

/// What the run is about to write if the words name this order, and the word that shall state units does.
fn reply_to_stated<S: Source>(alloc: Global, order: Order, words: &Words, source: &mut S) -> Answer
    requires ordered { order_named words.now ≡ Some order }
    requires units { StatesUnits order words.now }
    ensures planned { IfOk result (λ reply. IsPlanned words.now (S.left source.old)
        (S.faults source.old) (S.faults source.new) reply.text.items reply.status) }
    ensures reads_told { IfOk result (λ reply. reply.status ≢ Status.ReadFault
        → S.faults source.new ≡ S.faults source.old) }
    ensures unread { (Reads words.now → ⊥) → source.new ≡ source.old }
{
    match order.intake() {
        Intake::Generated { functions } => answer_big(alloc, functions),
        Intake::Text(order) => reply_to_text(alloc, order, words, source),
        Intake::Bytes(order) => reply_to_bytes(alloc, order, words, source),
    }
}

/// What the run is about to write if this is asked of a text.
fn reply_to_text<S: Source>(
    alloc: Global,
    order: TextOrder,
    words: &Words,
    source: &mut S,
) -> Answer
    requires ordered { order_named words.now ≡ Some (order_about order) }
    requires units { StatesUnits (order_about order) words.now }
    ensures planned { IfOk result (λ reply. IsPlanned words.now (S.left source.old)
        (S.faults source.old) (S.faults source.new) reply.text.items reply.status) }
    ensures reads_told { IfOk result (λ reply. reply.status ≢ Status.ReadFault
        → S.faults source.new ≡ S.faults source.old) }
{
    let mut reading = reading_for(alloc, order);
    match read_into(source, TEXT_LIMIT, &mut reading) {
        Ok(()) => answer_text(alloc, order, words, reading.into_text()?),
        Err(stop) => reply_to_unread(alloc, stop),
    }
}

/// What the run is about to write if this is asked of bytes.
fn reply_to_bytes<S: Source>(
    alloc: Global,
    order: BytesOrder,
    words: &Words,
    source: &mut S,
) -> Answer
    requires ordered { order_named words.now ≡ Some (order_about_bytes order) }
    ensures planned { IfOk result (λ reply. IsPlanned words.now (S.left source.old)
        (S.faults source.old) (S.faults source.new) reply.text.items reply.status) }
    ensures reads_told { IfOk result (λ reply. reply.status ≢ Status.ReadFault
        → S.faults source.new ≡ S.faults source.old) }
{
    match read_text(alloc, source, BYTES_LIMIT) {
        Ok(bytes) => answer_bytes(alloc, order, words, &bytes),
        Err(stop) => reply_to_unread(alloc, stop),
    }
}
