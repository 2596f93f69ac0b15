// The places of tokens, one after another.

/// Whether each token that was read begins after the one before it, and the first place after the last one's.
#[derive(Clone, Copy)]
pub(crate) struct Places {
    rise: bool,
    next: u64,
}

impl Places {
    ghost use Rattle.std.specs.Prelude.{◌≡◌, ◌+◌, ◌≤◌, true};

    /// No token was read.
    pub fn none() -> Places
        ensures { result.next ≡ 0 }
    {
        Places {
            rise: true,
            next: 0,
        }
    }

    /// A token more, which begins here.
    pub fn add(&mut self, at: u32)
        ensures rise { self.new.rise ≡ true → (self.old.rise ≡ true) × (self.old.next ≤ at) }
        ensures next { self.new.next ≡ at + 1 }
    {
        self.rise = self.rise && self.next <= u64::from(at);
        self.next = u64::from(at) + 1;
    }

    /// Whether each token begins after the one before it, and before the end.
    pub fn rise_to(&self, end: u32) -> bool
        ensures { result ≡ true → (self.now.rise ≡ true) × (self.now.next ≤ end) }
    {
        self.rise && self.next <= u64::from(end)
    }
}
