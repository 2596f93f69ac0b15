// The words of a command line.
ghost use Rattle.std.specs.Prelude.{◌≡◌, ◌<◌, ◌++◌, [], ◌∷◌, length, OnOk, OnErr, slice_get, Some};

use std::alloc::{AllocError, Global};
use std::marker::Model;
use um_sizes::is_scales;

/// The longest word of a form, in bytes.
const WORD_LIMIT: usize = 1_048_576;

/// The words after the program's name, in order; contracts see the list of their bytes.
#[derive(Drop)]
pub struct Words {
    items: Vec<String>,
    // Of each, whether it states sizes of base units: that takes memory, and what words ask for shall take none.
    stating: Vec<bool>,
}

impl Model for Words {
    ghost use Rattle.std.specs.Prelude.{◌≡◌, ℕ, List, map, string_bytes};
    ghost use Rattle.um_sizes.specs.ScaleWords.{is_scales};

    ghost Value = { List (List ℕ) };

    ghost view = { λ w. map string_bytes w.items.items };

    ghost invariant = { λ w. w.stating.items ≡ map is_scales (map string_bytes w.items.items) };
}

impl Words {
    ghost use Rattle.std.specs.Prelude.{◌≤◌, drop, get_or, map, string_bytes};
    ghost use Rattle.std.specs.List.{list_all};
    ghost use Rattle.um_sizes.specs.ScaleWords.{is_scales as are_sizes};
    ghost use Rattle.um_orders.specs.Orders.{is_short};

    /// No words.
    pub fn new(alloc: Global) -> Words
        ensures { result ≡ [] }
    {
        Words {
            items: Vec::new(alloc),
            stating: Vec::new(alloc),
        }
    }

    /// Adds a word at the end.
    pub fn push(&mut self, alloc: Global, word: &str) -> Result<(), AllocError>
        ensures ok { OnOk result (self.new ≡ self.old ++ word.now ∷ []) }
        ensures err { OnErr result (self.new ≡ self.old) }
    {
        let owned = String::from_str(alloc, word)?;
        let stated = is_scales(alloc, word)?;
        let count = self.stating.len();
        self.stating.push(stated)?;
        match self.items.push(owned) {
            Ok(()) => Ok(()),
            Err(_) => {
                self.stating.truncate(count);
                Err(AllocError)
            }
        }
    }

    /// How many there are.
    pub fn len(&self) -> usize
        ensures { result ≡ length self.now }
    {
        self.items.len()
    }

    /// The k-th word, counted from 0.
    pub fn word(&self, k: usize) -> &str
        requires { k < length self.now }
        ensures { slice_get self.now k ≡ Some result.now }
    {
        self.items[k].as_str()
    }

    /// The words after the first k.
    pub fn after(&self, k: usize) -> &[String]
        requires { k ≤ length self.now }
        ensures { map string_bytes result.now ≡ drop k self.now }
    {
        &self.items[k..]
    }

    /// Whether the k-th word states sizes of base units.
    pub(crate) fn states_sizes(&self, k: usize) -> bool
        requires { k < length self.now }
        ensures { result ≡ are_sizes (get_or self.now k []) }
    {
        self.stating[k]
    }

    /// Whether each is at most 1,048,576 bytes long.
    pub(crate) fn are_short(&self) -> bool
        ensures { result ≡ list_all is_short self.now }
    {
        self.items.iter().all(|word| word.len() <= WORD_LIMIT)
    }
}
