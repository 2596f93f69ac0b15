//! Values read out of a store.

use crate::cell::Cell;
use crate::store::Store;
use crate::word::Word;
use std::alloc::Global;
use um_tree::{Value, Values};
use um_units::NoMemory;

impl Store {
    ghost use Rattle.std.specs.Prelude.{◌≡◌, ◌+◌, IfOk, IsTrue, Some, length, map, slice_get};
    ghost use Rattle.um_tree.specs.ValueTree.{value_tree, values_in_order};
    ghost use Rattle.um_cells.specs.declared.cell.Cell.TheVariants.{Item, Record, Part};
    ghost use Rattle.um_cells.specs.Denotes.{ListFrom, PartsFrom};
    ghost use Rattle.um_cells.specs.Stores.{DenotesIn, HasValue};
    ghost use Rattle.um_cells.specs.Formed.{is_item, is_record, is_part};

    /// The value that the word denotes, in memory of its own. The word must denote one in this store, as `holds`
    /// tells; `NoMemory` is the one error.
    #[cycle(get)]
    pub fn get(&self, alloc: Global, word: Word) -> Result<Value, NoMemory>
        requires { HasValue self.now word }
        ensures { IfOk result (λ value. DenotesIn self.now word (value_tree value)) }
    {
        match word {
            Word::Bool(b) => Ok(Value::Bool(b)),
            Word::Num(c) => Ok(Value::Num(c)),
            Word::Nil => Ok(Value::List(Values {
                items: Vec::new(alloc),
            })),
            Word::List(n) => Ok(Value::List(Values {
                items: self.items_from(alloc, n)?,
            })),
            Word::Rec(number, n) => Ok(Value::Rec(
                number,
                Values {
                    items: self.parts_of(alloc, n)?,
                },
            )),
        }
    }

    // The items of the list whose first item stands in this cell.
    #[cycle(get)]
    fn items_from(&self, alloc: Global, n: usize) -> Result<Vec<Value>, NoMemory>
        requires { IsTrue (is_item (slice_get self.now.cells.items n)) }
        ensures { IfOk result (λ vs. ListFrom self.now.cells.items (Some n)
            (values_in_order (map value_tree vs.items))) }
    {
        let mut items = Vec::new(alloc);
        let mut next = Some(n);
        while let Some(m) = next {
            let (word, behind) = self.item_at(m);
            let item = self.get(alloc, word)?;
            items.push(item)?;
            next = behind;
        }
        Ok(items)
    }

    // The parts of the record whose first cell this is.
    #[cycle(get)]
    fn parts_of(&self, alloc: Global, n: usize) -> Result<Vec<Value>, NoMemory>
        requires { IsTrue (is_record (slice_get self.now.cells.items n)) }
        ensures { IfOk result (λ vs. (slice_get self.now.cells.items n ≡ Some (Record (length vs.items)))
            × PartsFrom self.now.cells.items (n + 1) (values_in_order (map value_tree vs.items))) }
    {
        let mut parts = Vec::new(alloc);
        let count = self.count_at(n);
        for k in 0..count {
            let word = self.part_at(n, k);
            let part = self.get(alloc, word)?;
            parts.push(part)?;
        }
        Ok(parts)
    }

    fn item_at(&self, n: usize) -> (Word, Option<usize>)
        requires { IsTrue (is_item (slice_get self.now.cells.items n)) }
        ensures { slice_get self.now.cells.items n ≡ Some (Item result.0 result.1) }
    {
        match self.cell(n) {
            Some(Cell::Item(word, next)) => (word, next),
            Some(Cell::Record(_)) => unreachable!(),
            Some(Cell::Part(_)) => unreachable!(),
            None => unreachable!(),
        }
    }

    fn count_at(&self, n: usize) -> usize
        requires { IsTrue (is_record (slice_get self.now.cells.items n)) }
        ensures { slice_get self.now.cells.items n ≡ Some (Record result) }
    {
        match self.cell(n) {
            Some(Cell::Record(count)) => count,
            Some(Cell::Item(_, _)) => unreachable!(),
            Some(Cell::Part(_)) => unreachable!(),
            None => unreachable!(),
        }
    }

    fn part_at(&self, n: usize, k: usize) -> Word
        requires { IsTrue (is_part (slice_get self.now.cells.items (n + 1 + k))) }
        ensures { slice_get self.now.cells.items (n + 1 + k) ≡ Some (Part result) }
    {
        let at = n + 1 + k;
        match self.cell(at) {
            Some(Cell::Part(word)) => word,
            Some(Cell::Item(_, _)) => unreachable!(),
            Some(Cell::Record(_)) => unreachable!(),
            None => unreachable!(),
        }
    }
}
