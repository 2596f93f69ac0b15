//! Whether two words are at one edit from each other.
ghost use Rattle.std.specs.Prelude.{◌≡◌};
ghost use Rattle.um_similar.specs.OneEdit.{apart, exchanged, one_edit};

/// Whether the second word differs from the first by one character put in, left out or put in another's place, or by
/// two neighbours exchanged (Damerau 1964). It takes as many steps as the shorter word has characters, and no memory.
pub fn is_one_edit(first: &[char], second: &[char]) -> bool
    ensures edit { result ≡ one_edit first.now second.now }
{
    for i in 0..first.len() {
        if i == second.len() {
            return first.len() - i == 1;
        }
        if first[i] != second[i] {
            return are_apart(&first[i..], &second[i..]);
        }
    }
    second.len() - first.len() == 1
}

/// The same of two words whose first characters differ.
fn are_apart(first: &[char], second: &[char]) -> bool
    ensures { result ≡ apart first.now second.now }
{
    match first {
        [] => false,
        [_, more @ ..] => match second {
            [] => false,
            [_, others @ ..] => {
                more == others || first == others || more == second || are_exchanged(first, second)
            }
        },
    }
}

/// Whether the first two characters of one word are those of the other in the other order, and the rest is the same.
fn are_exchanged(first: &[char], second: &[char]) -> bool
    ensures { result ≡ exchanged first.now second.now }
{
    match first {
        [] | [_] => false,
        [c, d, more @ ..] => match second {
            [] | [_] => false,
            [e, f, others @ ..] => c == f && d == e && more == others,
        },
    }
}
