//! Words: values whose lists and records stand in the cells of a store.
ghost use Rattle.std.specs.Prelude.{◌≡◌};
ghost use Rattle.um_cells.specs.Denotes.{list_from};
ghost use Rattle.um_cells.specs.Reading.{first_cell};

use um_frac::Frac;

/// A value as a runner keeps it: a list or a record is the number of its first cell in a store. So a word is copied at
/// once, however large its value is.
#[derive(Clone, Copy)]
pub enum Word {
    Bool(bool),
    Num(Frac),
    /// The empty list
    Nil,
    /// A list with items, by the number of the cell of its first item
    List(usize),
    /// A value of the record of this number, by the number of its first cell
    Rec(u32, usize),
}

/// A list that is taken apart.
#[derive(Clone, Copy)]
pub enum ListCase {
    Empty,
    /// The first item, and the list of the others
    Items(Word, Word),
}

// If the word is a list: the cell of its first item, if it has one.
pub(crate) fn first_cell(word: Word) -> Option<Option<usize>>
    ensures { result ≡ first_cell word }
{
    match word {
        Word::Nil => Some(None),
        Word::List(n) => Some(Some(n)),
        Word::Bool(_) => None,
        Word::Num(_) => None,
        Word::Rec(_, _) => None,
    }
}

// The word of the list whose first item stands in this cell, or of the empty list.
pub(crate) fn list_from(first: Option<usize>) -> Word
    ensures { result ≡ list_from first }
{
    match first {
        None => Word::Nil,
        Some(n) => Word::List(n),
    }
}
