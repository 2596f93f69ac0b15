//! Lists of tokens, in one piece and in blocks.
ghost use Rattle.std.specs.Prelude.{◌≡◌, ◌<◌, ◌≤◌, ◌++◌, ◌∷◌, ◌-◌, [], length, slice_get, OnOk, IfOk};
ghost use Rattle.std.specs.Option.{option_copied};
ghost use Rattle.um_syntax.specs.Blocks.{joined, AreWhole};

use crate::token::Token;
use std::alloc::{AllocError, Global};
use std::marker::Model;
use std::mem;
use std::vec::IntoIter;

// How many tokens a whole block has.
const BLOCK: usize = 256;

// The greatest number of whole blocks. The number of tokens fits in a `usize`.
const MOST_BLOCKS: usize = 4_294_967_296;

/// A list of tokens.
pub struct Tokens {
    items: Vec<Token>,
}

// A derived drop would be proved anew in each crate that lets tokens go. This one is proved here.
impl Drop for Tokens {
    fn drop(self) {
        let Tokens { items: _ } = self;
    }
}

impl Model for Tokens {
    ghost use Rattle.std.specs.Prelude.{List};
    ghost use Rattle.um_syntax.specs.declared.token.Token.{Token};

    ghost Value = { List Token };

    ghost view = { λ t. t.items.items };
}

impl Tokens {
    /// The tokens that the vector holds. Takes no memory.
    pub fn from_vec(items: Vec<Token>) -> Tokens
        ensures { result ≡ items.items }
    {
        Tokens { items }
    }

    /// The vector that holds the tokens. Takes no memory.
    pub fn into_vec(self) -> Vec<Token>
        ensures { result.items ≡ self }
    {
        let Tokens { items } = self;
        items
    }

    /// The tokens, in the order of the text.
    pub fn as_slice(&self) -> &[Token]
        ensures { result.now ≡ self.now }
    {
        &self.items
    }
}

/// A list of tokens in blocks. It grows without moving whole blocks, and its memory can be given back block by block.
#[derive(Drop)]
pub struct TokenBlocks {
    alloc: Global,
    // The blocks before the last, each whole.
    whole: Vec<Vec<Token>>,
    last: Vec<Token>,
}

impl Model for TokenBlocks {
    ghost use Rattle.std.specs.Prelude.{List, ◌++◌, ◌≤◌, length};
    ghost use Rattle.um_syntax.specs.declared.token.Token.{Token};
    ghost use Rattle.um_syntax.specs.Blocks.{joined, AreWhole};

    ghost Value = { List Token };

    ghost view = { λ t. joined t.whole.items ++ t.last.items };

    ghost invariant = { λ t. AreWhole t.whole.items × (length t.whole.items ≤ 4294967296) };
}

impl TokenBlocks {
    /// No tokens. Takes no memory.
    pub fn new(alloc: Global) -> TokenBlocks
        ensures { result ≡ [] }
    {
        TokenBlocks {
            alloc,
            whole: Vec::new(alloc),
            last: Vec::new(alloc),
        }
    }

    /// The tokens in one piece. Takes no memory if they lie in one block.
    pub fn into_tokens(self) -> Result<Tokens, AllocError>
        ensures { IfOk result (λ tokens. tokens ≡ self) }
    {
        if self.whole.is_empty() {
            return Ok(Tokens::from_vec(self.last));
        }
        let mut items = Vec::with_capacity(self.alloc, self.len())?;
        let mut blocks = self.into_blocks();
        let mut block = blocks.next_block();
        while block.len() > 0 {
            items.append(&mut block)?;
            block = blocks.next_block();
        }
        Ok(Tokens::from_vec(items))
    }

    /// The blocks, none of them taken. Takes no memory.
    pub fn into_blocks(self) -> Blocks
        ensures { result ≡ self }
    {
        Blocks {
            alloc: self.alloc,
            whole: self.whole.into_iter(),
            last: self.last,
        }
    }

    /// Puts a token after the others.
    #[inline(always)]
    pub fn push(&mut self, token: Token) -> Result<(), AllocError>
        ensures { OnOk result (self.new ≡ self.old ++ token ∷ []) }
    {
        if self.last.len() == self.last.capacity() {
            self.make_room()?;
        }
        self.last.push(token)?;
        Ok(())
    }

    // Makes room for a token: in the last block, or in a new one if the last is whole.
    #[inline(never)]
    fn make_room(&mut self) -> Result<(), AllocError>
        ensures { OnOk result (self.new ≡ self.old) }
    {
        if self.last.len() != BLOCK {
            return self.last.reserve(1);
        }
        if self.whole.len() >= MOST_BLOCKS {
            return Err(AllocError);
        }
        let block = Vec::with_capacity(self.alloc, BLOCK)?;
        let last = mem::replace(&mut self.last, block);
        self.whole.push(last)?;
        Ok(())
    }

    /// The number of tokens.
    pub fn len(&self) -> usize
        ensures { result ≡ length self.now }
    {
        self.whole.len() * BLOCK + self.last.len()
    }

    /// The token at a place of the list, the first one at 0, if there is one.
    #[inline(always)]
    pub fn get(&self, k: usize) -> Option<&Token>
        ensures { option_copied result ≡ slice_get self.now k }
    {
        match self.whole.get(k / BLOCK) {
            Some(block) => block.get(k % BLOCK),
            None => self.last.get(k - self.whole.len() * BLOCK),
        }
    }

    /// The last token, if there is one.
    #[inline(always)]
    pub fn last(&self) -> Option<&Token>
        ensures { option_copied result ≡ slice_get self.now (length self.now - 1) }
    {
        match self.last.last() {
            Some(token) => Some(token),
            None => from_end(&self.whole, 1),
        }
    }

    /// The last token but one; or the last one, if there are no two.
    pub fn last_but_one(&self) -> Option<&Token>
        ensures { option_copied result ≡ slice_get self.now (length self.now - 2) }
    {
        if self.last.len() > 1 {
            return self.last.get(self.last.len() - 2);
        }
        if self.last.len() == 0 {
            return from_end(&self.whole, 2);
        }
        match from_end(&self.whole, 1) {
            Some(token) => Some(token),
            None => self.last.first(),
        }
    }
}

// The token that stands so many tokens before the end of the blocks, the last one at 1.
#[inline(never)]
fn from_end(blocks: &[Vec<Token>], k: usize) -> Option<&Token>
    requires whole { AreWhole blocks.now }
    requires some { 0 < k }
    requires few { k ≤ 256 }
    ensures { option_copied result ≡ slice_get (joined blocks.now) (length (joined blocks.now) - k) }
{
    match blocks.last() {
        Some(block) => block.get(BLOCK - k),
        None => None,
    }
}

/// The blocks of a list of tokens that weren't taken yet, the first one first.
#[derive(Drop)]
pub struct Blocks {
    alloc: Global,
    // The blocks before the last.
    whole: IntoIter<Vec<Token>>,
    last: Vec<Token>,
}

impl Model for Blocks {
    ghost use Rattle.std.specs.Prelude.{List, ◌++◌};
    ghost use Rattle.std.specs.Vec.Iter.{into_iter_items};
    ghost use Rattle.um_syntax.specs.declared.token.Token.{Token};
    ghost use Rattle.um_syntax.specs.Blocks.{joined, AreWhole};

    ghost Value = { List Token };

    ghost view = { λ b. joined (into_iter_items b.whole) ++ b.last.items };

    ghost invariant = { λ b. AreWhole (into_iter_items b.whole) };
}

impl Blocks {
    /// Takes the next block. It is empty only if no token is left.
    #[inline(never)]
    pub fn next_block(&mut self) -> Vec<Token>
        ensures taken { self.old ≡ result.items ++ self.new }
        ensures all { length result.items ≡ 0 → self.old ≡ [] }
    {
        match self.whole.next() {
            Some(block) => block,
            None => mem::replace(&mut self.last, Vec::new(self.alloc)),
        }
    }
}
