//! Words in a vector, as the stack has them.
ghost use Rattle.std.specs.Prelude.{◌≡◌, ◌+◌, ◌<◌, ◌≤◌, Some, [], ◌∷◌, ◌++◌, length, map, take, slice_get, IfOk, OnOk};
ghost use Rattle.std.specs.Prelude.{OnErr, OnSome, vec_len, vec_capacity};
ghost use Rattle.um_tree.specs.ValueTree.{value_tree};
ghost use Rattle.um_cells.specs.Stores.{AllDenote};

use std::alloc::Global;
use um_cells::{Store, Word};
use um_tree::Values;
use um_units::NoMemory;

/// Words that denote the values.
pub(crate) fn put_values(
    alloc: Global,
    store: &mut Store,
    values: Values,
) -> Result<Vec<Word>, NoMemory>
    ensures { IfOk result (λ words. AllDenote store.new words.items (map value_tree values.items.items)) }
{
    let words = store.put_each(alloc, &values.items);
    drop(values);
    words
}

/// The item of this place.
#[inline(always)]
pub fn item<T: Copy>(items: &[T], k: usize) -> Option<T>
    ensures item { result ≡ slice_get items.now k }
    ensures within { OnSome result (k < length items.now) }
{
    if k < items.len() {
        Some(items[k])
    } else {
        None
    }
}

/// The item of this place, which is there.
#[inline(always)]
pub fn item_at<T>(items: &[T], k: usize) -> &T
    requires { k < length items.now }
    ensures { slice_get items.now k ≡ Some result.now }
{
    &items[k]
}

/// The word that stands `k` words above the base.
#[inline(always)]
pub(crate) fn word_above(words: &Vec<Word>, base: usize, k: usize) -> Option<Word>
    requires { base ≤ length words.now.items }
    ensures { result ≡ slice_get words.now.items (base + k) }
{
    if k < words.len() - base {
        Some(words[base + k])
    } else {
        None
    }
}

/// One item more. If memory runs out, the items are as they were.
#[inline(always)]
pub(crate) fn append<T: Copy>(items: &mut Vec<T>, item: T) -> Result<(), NoMemory>
    ensures ok { OnOk result (items.new.items ≡ items.old.items ++ item ∷ []) }
    ensures same { OnErr result (items.new.items ≡ items.old.items) }
{
    if items.len() < items.capacity() {
        items.push_reserved(item);
        return Ok(());
    }
    append_to_full(items, item)
}

#[inline(never)]
fn append_to_full<T: Copy>(items: &mut Vec<T>, item: T) -> Result<(), NoMemory>
    ensures ok { OnOk result (items.new.items ≡ items.old.items ++ item ∷ []) }
    ensures same { OnErr result (items.new.items ≡ items.old.items) }
{
    items.push(item)?;
    Ok(())
}

/// Room for one item more. The items stay.
#[inline(always)]
pub fn make_room<T: Copy>(items: &mut Vec<T>) -> Result<(), NoMemory>
    ensures same { items.new.items ≡ items.old.items }
    ensures room { OnOk result (vec_len items.new < vec_capacity items.new) }
{
    if items.len() < items.capacity() {
        return Ok(());
    }
    grow(items)
}

#[inline(never)]
fn grow<T: Copy>(items: &mut Vec<T>) -> Result<(), NoMemory>
    ensures same { items.new.items ≡ items.old.items }
    ensures room { OnOk result (vec_len items.new < vec_capacity items.new) }
{
    items.reserve(1)?;
    Ok(())
}

/// The word in place of those from the place on. If memory runs out, the words are as they were.
#[inline(always)]
pub(crate) fn settle(words: &mut Vec<Word>, at: usize, word: Word) -> Result<(), NoMemory>
    requires { at ≤ length words.old.items }
    ensures ok { OnOk result (words.new.items ≡ take at words.old.items ++ word ∷ []) }
    ensures same { OnErr result (words.new.items ≡ words.old.items) }
{
    if at < words.len() {
        replace(words, at, word);
        return Ok(());
    }
    append(words, word)?;
    Ok(())
}

/// The word in place of those from the place on, of which one is there.
#[inline(always)]
pub(crate) fn replace(words: &mut Vec<Word>, at: usize, word: Word)
    requires { at < length words.old.items }
    ensures { words.new.items ≡ take at words.old.items ++ word ∷ [] }
{
    words.truncate(at + 1);
    words[at] = word;
}

/// Two words in place of the topmost. If memory runs out, the words are as they were.
pub(crate) fn settle_two(
    words: &mut Vec<Word>,
    at: usize,
    first: Word,
    second: Word,
) -> Result<(), NoMemory>
    requires { at + 1 ≡ length words.old.items }
    ensures ok { OnOk result (words.new.items ≡ take at words.old.items ++ first ∷ second ∷ []) }
    ensures same { OnErr result (words.new.items ≡ words.old.items) }
{
    append(words, second)?;
    words[at] = first;
    Ok(())
}
