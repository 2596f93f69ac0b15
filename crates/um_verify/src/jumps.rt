//! Where the code of a function goes on.
ghost use Rattle.std.specs.Prelude.{◌≡◌, ◌<◌, ◌∷◌, [], IsTrue};
ghost use Rattle.um_verify.specs.Rules.{inside};

/// Whether a function whose code ends before address `end` goes on in it from address `at` to address `to`: all its
/// jumps go to later addresses of its own.
pub fn goes_on(at: u32, to: u32, end: u32) -> bool
    ensures exact { result ≡ inside at end (record { to = to; state = [] } ∷ []) }
    ensures within { IsTrue result → (at < to) × (to < end) }
{
    at < to && to < end
}
