//! Bytes in an array.
ghost use Rattle.std.specs.Prelude.{◌≡◌, ◌≤◌, [], length, take};

use std::marker::Model;

/// At most 16 bytes, which lie in the value itself.
#[derive(Drop)]
pub(crate) struct ShortBytes {
    len: u32,
    bytes: [u8; 16],
}

impl Model for ShortBytes {
    ghost use Rattle.std.specs.Prelude.{◌≤◌, ℕ, List, take};

    ghost Value = { List ℕ };

    ghost view = { λ short. take short.len short.bytes };

    ghost invariant = { λ short. short.len ≤ 16 };
}

impl ShortBytes {
    /// No bytes.
    pub fn empty() -> ShortBytes
        ensures { result ≡ [] }
    {
        ShortBytes {
            len: 0,
            bytes: [0; 16],
        }
    }

    /// The bytes of a slice, copied.
    pub fn from_slice(slice: &[u8]) -> ShortBytes
        requires { length slice.now ≤ 16 }
        ensures { result ≡ slice.now }
    {
        let len = slice.len();
        let mut bytes = [0; 16];
        bytes[..len].copy_from_slice(slice);
        ShortBytes {
            len: len as u32,
            bytes,
        }
    }

    /// The first bytes of a slice, copied. If the slice has 16, these are copied at once.
    #[inline(always)]
    pub fn from_front(slice: &[u8], len: usize) -> ShortBytes
        requires within { len ≤ length slice.now }
        requires short { len ≤ 16 }
        ensures { result ≡ take len slice.now }
    {
        if slice.len() < 16 {
            return ShortBytes::from_slice(&slice[..len]);
        }
        let mut bytes = [0; 16];
        bytes.copy_from_slice(&slice[..16]);
        ShortBytes {
            len: len as u32,
            bytes,
        }
    }

    /// The bytes.
    pub fn as_slice(&self) -> &[u8]
        ensures { result.now ≡ self.now }
    {
        &self.bytes[..self.len as usize]
    }
}
