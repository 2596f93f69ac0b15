// Room in which a text is read.
ghost use Rattle.std.specs.Prelude.{◌≡◌, []};

use std::alloc::Global;
use um_front::Reading;
use um_orders::TextOrder;

/// The longest text that is read, in bytes.
pub(crate) const TEXT_LIMIT: usize = 1_048_576;

/// Nothing was read of a text about which this is asked.
///
/// If nothing is called, there is room for the longest text from the start, if there is memory for it: the text isn't
/// moved while it grows. Otherwise less memory is taken before the call.
pub(crate) fn reading_for(alloc: Global, order: TextOrder) -> Reading
    ensures { result ≡ [] }
{
    if order.calls() {
        return Reading::new(alloc);
    }
    match Reading::with_room(alloc, TEXT_LIMIT) {
        Ok(reading) => reading,
        Err(_) => Reading::new(alloc),
    }
}
