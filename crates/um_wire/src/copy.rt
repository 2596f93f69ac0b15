// What the sources in memory share.
ghost use Rattle.std.specs.Prelude.{◌≡◌, ◌+◌, ◌-◌, ◌≤◌, ◌++◌, length, take, drop, min};

/// Copies the bytes from `at` on, at most `most` of them, into the front of `into`, and answers how many.
pub(crate) fn copy_next(bytes: &[u8], at: usize, most: usize, into: &mut [u8]) -> usize
    requires { at ≤ length bytes.now }
    ensures count { result ≡ min most (min (length into.old) (length bytes.now - at)) }
    ensures copied { drop at bytes.now ≡ take result into.new ++ drop (at + result) bytes.now }
{
    let count = most.min(into.len()).min(bytes.len() - at);
    into[..count].copy_from_slice(&bytes[at..at + count]);
    count
}
