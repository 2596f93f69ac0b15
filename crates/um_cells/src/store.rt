//! The store: cells that are added and never changed.
ghost use Rattle.um_cells.specs.Formed.{Formed};

use crate::cell::{Cell, is_item, is_record, part_count, part_word, push_record};
use crate::word::{ListCase, Word, first_cell, list_from};
use std::alloc::Global;
use um_units::NoMemory;

/// Cells in which lists and records stand. They are numbered by usize, and their number has no other limit.
///
/// A cell is added and never changed, and it names cells before it alone; so words share cells freely, a word that
/// denotes a value goes on to denote it, and what a word denotes is finite.
#[derive(Drop)]
pub struct Store {
    pub(crate) cells: Vec<Cell>,
    ghost formed: { Formed cells.items },
}

impl Store {
    ghost use Rattle.std.specs.Prelude.{◌≡◌, ◌↔◌, ◌+◌, ◌<◌, List, length, OnOk, OnErr, OnSome, IfOk, IfSome, IsTrue};
    ghost use Rattle.std.specs.Prelude.{Some, None, slice_get};
    ghost use Rattle.um_tree.specs.ValueTree.{ValueTree, ValueTrees, list_value, record_value, more_values};
    ghost use Rattle.um_tree.specs.ValueTree.{values_in_order};
    ghost use Rattle.um_tree.specs.Meaning.{longer, field_of, value_at};
    ghost use Rattle.um_cells.specs.Denotes.{ListFrom, PartsFrom, list_from, value_count};
    ghost use Rattle.um_cells.specs.declared.cell.Cell.TheVariants.{Record};
    ghost use Rattle.um_cells.specs.Stores.{DenotesIn, AllDenote, HasValue, HaveValues, Keeps, cell_count};
    ghost use Rattle.um_cells.specs.Operations.{Gives, GivesIfOk, TakenApart, part_of};
    ghost use Rattle.um_cells.specs.Formed.{holds};
    ghost use Rattle.um_cells.specs.Reading.{part_count};

    /// A store without cells. Takes no memory.
    pub fn new(alloc: Global) -> Store
        ensures empty { cell_count result ≡ 0 }
    {
        Store {
            cells: Vec::new(alloc),
        }
    }

    /// Whether the word denotes a value in this store. Takes no memory.
    pub fn holds(&self, word: Word) -> bool
        ensures { IsTrue result ↔ HasValue self.now word }
    {
        match word {
            Word::Bool(_) => true,
            Word::Num(_) => true,
            Word::Nil => true,
            Word::List(n) => is_item(self.cell(n)),
            Word::Rec(_, n) => is_record(self.cell(n)),
        }
    }

    /// The list with one more item in front, or `None` exactly if the second word's value isn't a list.
    ///
    /// Both words must denote values in this store. The list takes one cell and shares the others; if it isn't made,
    /// for want of a list or of memory, no cell is added. `NoMemory` is the one error.
    pub fn cons(&mut self, item: Word, list: Word) -> Result<Option<Word>, NoMemory>
        requires item { HasValue self.old item }
        requires list { HasValue self.old list }
        ensures keeps { Keeps self.old self.new }
        ensures gives { (v u : ValueTree) → DenotesIn self.old item v → DenotesIn self.old list u
            → GivesIfOk self.new (longer v u) result }
        ensures one_cell { IfOk result (λ given. OnSome given (cell_count self.new ≡ cell_count self.old + 1)) }
        ensures no_list { IfOk result (λ given. given ≡ None → cell_count self.new ≡ cell_count self.old) }
        ensures no_memory { OnErr result (cell_count self.new ≡ cell_count self.old) }
    {
        let Some(next) = first_cell(list) else {
            return Ok(None)
        };
        let n = self.add_item(item, next)?;
        Ok(Some(Word::List(n)))
    }

    /// The list of the items. It takes a cell for each, and `NoMemory` is its one error.
    ///
    /// Each word must denote a value in this store.
    pub fn make_list(&mut self, items: &[Word]) -> Result<Word, NoMemory>
        requires { HaveValues self.old items.now }
        ensures keeps { Keeps self.old self.new }
        ensures denotes { IfOk result (λ w. (vs : List ValueTree) → AllDenote self.old items.now vs
            → DenotesIn self.new w (list_value (values_in_order vs))) }
        ensures cells { OnOk result (cell_count self.new ≡ cell_count self.old + length items.now) }
    {
        let mut first = None;
        for i in (0..items.len()).rev() {
            first = Some(self.add_item(items[i], first)?);
        }
        Ok(list_from(first))
    }

    /// A value of the record of this number with the parts in order.
    ///
    /// Each word must denote a value in this store. The record takes a cell of its own and one for each part; with
    /// `NoMemory`, the one error, no cell is added.
    pub fn make_record(&mut self, record_number: u32, parts: &[Word]) -> Result<Word, NoMemory>
        requires { HaveValues self.old parts.now }
        ensures keeps { Keeps self.old self.new }
        ensures denotes { IfOk result (λ w. (vs : List ValueTree) → AllDenote self.old parts.now vs
            → DenotesIn self.new w (record_value record_number (values_in_order vs))) }
        ensures cells { OnOk result (cell_count self.new ≡ cell_count self.old + length parts.now + 1) }
        ensures no_memory { OnErr result (cell_count self.new ≡ cell_count self.old) }
    {
        let n = self.cells.len();
        push_record(&mut self.cells, parts)?;
        Ok(Word::Rec(record_number, n))
    }

    /// The list taken apart: it is empty, or it has a first item and the list of the others. `None` exactly if the
    /// word's value isn't a list. It adds no cell.
    pub fn split(&self, list: Word) -> Option<ListCase>
        ensures { (v : ValueTree) → DenotesIn self.now list v → TakenApart self.now v result }
    {
        let first = first_cell(list)?;
        let Some(n) = first else {
            return Some(ListCase::Empty)
        };
        match self.cell(n) {
            Some(Cell::Item(item, next)) => Some(ListCase::Items(item, list_from(next))),
            _ => None,
        }
    }

    /// The part of this place, counted from 0, of a value of the record of this number. `None` exactly if the
    /// word's value isn't of this record or has no such part. It adds no cell.
    pub fn field(&self, record_number: u32, place: usize, word: Word) -> Option<Word>
        ensures { (v : ValueTree) → DenotesIn self.now word v → Gives self.now (field_of record_number place v) result }
    {
        let Word::Rec(number, n) = word else {
            return None
        };
        if number != record_number {
            return None;
        }
        self.part(n, place)
    }

    /// The part of this place, counted from 0, of a value of any record. `None` exactly if the word's value isn't a
    /// record or has no such part. It adds no cell.
    pub fn part_of(&self, place: usize, word: Word) -> Option<Word>
        ensures { (v : ValueTree) → DenotesIn self.now word v → Gives self.now (part_of place v) result }
    {
        let Word::Rec(_, n) = word else { return None };
        self.part(n, place)
    }

    // The part of this place of the record whose first cell this is.
    fn part(&self, n: usize, place: usize) -> Option<Word>
        ensures { (vs : ValueTrees) → slice_get self.now.cells.items n ≡ Some (Record (value_count vs))
            → PartsFrom self.now.cells.items (n + 1) vs → Gives self.now (value_at vs place) result }
    {
        let count = self.parts_at(n)?;
        if place >= count {
            return None;
        }
        part_word(self.cell_behind(n, place))
    }

    // The number of parts of the record whose first cell this is.
    fn parts_at(&self, n: usize) -> Option<usize>
        ensures value { result ≡ part_count (slice_get self.now.cells.items n) }
        ensures within { IfSome result (λ _. n < length self.now.cells.items) }
    {
        part_count(self.cell(n))
    }

    pub(crate) fn cell(&self, n: usize) -> Option<Cell>
        ensures { result ≡ slice_get self.now.cells.items n }
    {
        if n < self.cells.len() {
            Some(self.cells[n])
        } else {
            None
        }
    }

    // The cell that is `k` further than the one after this.
    fn cell_behind(&self, n: usize, k: usize) -> Option<Cell>
        requires { n < length self.now.cells.items }
        ensures { result ≡ slice_get self.now.cells.items (n + 1 + k) }
    {
        if k < self.cells.len() - 1 - n {
            Some(self.cells[n + 1 + k])
        } else {
            None
        }
    }

    // One more cell: the number of an item's cell.
    fn add_item(&mut self, item: Word, next: Option<usize>) -> Result<usize, NoMemory>
        requires item { IsTrue (holds self.old.cells.items item) }
        requires next { IsTrue (holds self.old.cells.items (list_from next)) }
        ensures keeps { Keeps self.old self.new }
        ensures list { IfOk result (λ n. (v : ValueTree) (vs : ValueTrees) → DenotesIn self.old item v
            → ListFrom self.old.cells.items next vs → ListFrom self.new.cells.items (Some n) (more_values v vs)) }
        ensures holds { IfOk result (λ n. IsTrue (holds self.new.cells.items (list_from (Some n)))) }
        ensures one_cell { OnOk result (cell_count self.new ≡ cell_count self.old + 1) }
        ensures no_memory { OnErr result (cell_count self.new ≡ cell_count self.old) }
    {
        let n = self.cells.len();
        self.cells.push(Cell::Item(item, next))?;
        Ok(n)
    }
}
