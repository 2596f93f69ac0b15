//! Bytes in the value or on the heap.
ghost use Rattle.std.specs.Prelude.{◌≡◌, ◌≤◌, [], length, take, IfOk, IsOk};

use crate::short::ShortBytes;
use std::alloc::{AllocError, Global};
use std::marker::Model;

#[derive(Drop)]
enum Storage {
    Inline(ShortBytes),
    Heap(Box<Vec<u8>>),
}

/// A list of bytes. At most 16 lie in the value itself, and more lie on the heap, in a box, so the value is no larger
/// than a vector.
#[derive(Drop)]
pub struct InlineBytes {
    storage: Storage,
}

impl Model for InlineBytes {
    ghost use Rattle.std.specs.Prelude.{ℕ, List};

    ghost Value = { List ℕ };

    ghost use Rattle.um_inline.specs.Storage.{stored_bytes};

    ghost view = { λ bytes. stored_bytes bytes.storage };
}

impl InlineBytes {
    /// No bytes. Takes no memory.
    pub fn empty() -> InlineBytes
        ensures { result ≡ [] }
    {
        InlineBytes {
            storage: Storage::Inline(ShortBytes::empty()),
        }
    }

    /// The bytes of a slice, copied. Takes no memory if there are at most 16.
    pub fn from_slice(alloc: Global, slice: &[u8]) -> Result<InlineBytes, AllocError>
        ensures bytes { IfOk result (λ bytes. bytes ≡ slice.now) }
        ensures short { length slice.now ≤ 16 → IsOk result }
    {
        if slice.len() <= 16 {
            let storage = Storage::Inline(ShortBytes::from_slice(slice));
            return Ok(InlineBytes { storage });
        }
        let heap = Vec::from_slice(alloc, slice)?;
        let storage = Storage::Heap(Box::new(alloc, heap)?);
        Ok(InlineBytes { storage })
    }

    /// The first `len` bytes of a slice, copied. Takes no memory if `len` is at most 16.
    #[inline(always)]
    pub fn from_front(alloc: Global, slice: &[u8], len: usize) -> Result<InlineBytes, AllocError>
        requires { len ≤ length slice.now }
        ensures bytes { IfOk result (λ bytes. bytes ≡ take len slice.now) }
        ensures short { len ≤ 16 → IsOk result }
    {
        if len <= 16 {
            let storage = Storage::Inline(ShortBytes::from_front(slice, len));
            return Ok(InlineBytes { storage });
        }
        InlineBytes::from_slice(alloc, &slice[..len])
    }

    /// The bytes.
    pub fn as_slice(&self) -> &[u8]
        ensures { result.now ≡ self.now }
    {
        match &self.storage {
            Storage::Inline(short) => short.as_slice(),
            Storage::Heap(heap) => heap.as_slice(),
        }
    }
}
