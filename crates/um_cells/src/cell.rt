//! Cells, and what is read of one.
ghost use Rattle.std.specs.Prelude.{◌≡◌, ◌++◌, ◌∷◌, length, map, take, OnOk, OnErr};
ghost use Rattle.um_cells.specs.Formed.{is_item, is_record};
ghost use Rattle.um_cells.specs.Reading.{part_count, part_word};

use crate::word::Word;
use um_units::NoMemory;

/// A cell.
#[derive(Clone, Copy)]
pub(crate) enum Cell {
    /// An item of a list, and the number of the next item's cell
    Item(Word, Option<usize>),
    /// The first cell of a record: how many parts stand in the cells after it
    Record(usize),
    /// A part of a record
    Part(Word),
}

pub(crate) fn is_item(cell: Option<Cell>) -> bool
    ensures { result ≡ is_item cell }
{
    match cell {
        None => false,
        Some(Cell::Item(_, _)) => true,
        Some(Cell::Record(_)) => false,
        Some(Cell::Part(_)) => false,
    }
}

pub(crate) fn is_record(cell: Option<Cell>) -> bool
    ensures { result ≡ is_record cell }
{
    match cell {
        None => false,
        Some(Cell::Item(_, _)) => false,
        Some(Cell::Record(_)) => true,
        Some(Cell::Part(_)) => false,
    }
}

pub(crate) fn part_count(cell: Option<Cell>) -> Option<usize>
    ensures { result ≡ part_count cell }
{
    match cell {
        None => None,
        Some(Cell::Item(_, _)) => None,
        Some(Cell::Record(count)) => Some(count),
        Some(Cell::Part(_)) => None,
    }
}

pub(crate) fn part_word(cell: Option<Cell>) -> Option<Word>
    ensures { result ≡ part_word cell }
{
    match cell {
        None => None,
        Some(Cell::Item(_, _)) => None,
        Some(Cell::Record(_)) => None,
        Some(Cell::Part(word)) => Some(word),
    }
}

// The cells of a record after the others. If memory runs out, the cells are as they were.
pub(crate) fn push_record(cells: &mut Vec<Cell>, parts: &[Word]) -> Result<(), NoMemory>
    ensures ok { OnOk result (cells.new.items ≡ cells.old.items ++ Cell.Record (length parts.now)
        ∷ map Cell.Part parts.now) }
    ensures same { OnErr result (cells.new.items ≡ cells.old.items) }
{
    let n = cells.len();
    match push_each(cells, parts) {
        Ok(()) => Ok(()),
        Err(e) => {
            cells.truncate(n);
            Err(e)
        }
    }
}

fn push_each(cells: &mut Vec<Cell>, parts: &[Word]) -> Result<(), NoMemory>
    ensures ok { OnOk result (cells.new.items ≡ cells.old.items ++ Cell.Record (length parts.now)
        ∷ map Cell.Part parts.now) }
    ensures before { take (length cells.old.items) cells.new.items ≡ cells.old.items }
{
    cells.push(Cell::Record(parts.len()))?;
    for part in parts {
        cells.push(Cell::Part(*part))?;
    }
    Ok(())
}
