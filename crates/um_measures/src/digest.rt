//! Digests of names, which decide where a table looks for a name.

use std::hash::{BuildHasher, DefaultHasher, FoldHasher, Hasher};

/// The byte after each name. It stands in no text, so that names can't be cut in another way.
const END: u8 = 0xff;

/// A digest of names. A table that is made with it looks for a name where the digest and the name decide.
///
/// A table is fast if few of its names belong to one place. If the places were fixed, one could write a text whose
/// names all belong to one place, and each search would take time linear in the table. So a table is made with the
/// digest of all names that may come into it: whoever changes a name so that it collides with others changes the
/// digest, and with it all places. A digest of the names that came before isn't enough, since one can compute it and
/// choose the next name by it. What a table holds doesn't depend on the digest.
#[derive(Clone, Copy)]
pub struct NameDigest {
    hasher: DefaultHasher,
}

impl NameDigest {
    /// The digest of no names.
    pub fn new() -> NameDigest {
        NameDigest {
            hasher: DefaultHasher::new(),
        }
    }

    /// Takes one more name.
    pub fn add(&mut self, name: &[u8]) {
        self.hasher.write(name);
        self.hasher.write_u8(END);
    }
}

/// Where a table looks for names. The digest is SipHash's, so that nobody finds names for a digest, and each name is
/// hashed after it by a faster hasher.
#[derive(Clone, Copy)]
pub(crate) struct Places {
    start: FoldHasher,
}

impl Places {
    /// The places of a table to which nothing is added.
    pub(crate) fn fixed() -> Places {
        Places {
            start: FoldHasher::default(),
        }
    }

    /// The places after this digest.
    pub(crate) fn after(digest: NameDigest) -> Places {
        let mut start = FoldHasher::default();
        start.write_u64(digest.hasher.finish());
        Places { start }
    }
}

impl BuildHasher for Places {
    type Hasher = FoldHasher;

    ghost build_hasher = { λ places. places.start };

    fn build_hasher(&self) -> FoldHasher {
        self.start
    }
}
