// Over a source and a sink that never fail.
ghost use Rattle.std.specs.Prelude.{◌≡◌, ◌⊎◌, ℕ, List};
ghost use Rattle.um_tool.specs.Answer.{Answer};

use crate::serve;
use std::alloc::Global;
use um_orders::Words;
use um_reports::Status;
use um_wire::{QuietSink, QuietSource};

/// The status of a run on these bytes whose answer nobody reads: that of the answer, unless memory was wanting.
#[tactic(auto, unfolding(um_wire::specs::Faults::Rose))]
pub fn status_of(alloc: Global, words: &Words, bytes: Vec<u8>) -> Status
    ensures { (result ≡ Status.NoMemory) ⊎ ((text : List ℕ) × Answer words.now bytes.items text result) }
{
    let mut source = QuietSource::new(bytes);
    let mut sink = QuietSink::new();
    serve(alloc, words, &mut source, &mut sink)
}
