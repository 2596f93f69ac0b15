//! Values put into a store.

use crate::store::Store;
use crate::word::Word;
use std::alloc::Global;
use um_tree::Value;
use um_units::NoMemory;

impl Store {
    ghost use Rattle.std.specs.Prelude.{IfOk, map};
    ghost use Rattle.um_tree.specs.ValueTree.{value_tree};
    ghost use Rattle.um_cells.specs.Stores.{DenotesIn, AllDenote, Keeps};

    /// A word that denotes the value. What every earlier word denotes is kept, also on `NoMemory`, the one error; cells
    /// that were added for a part of the value may then stay.
    #[cycle(put)]
    pub fn put(&mut self, alloc: Global, value: &Value) -> Result<Word, NoMemory>
        ensures keeps { Keeps self.old self.new }
        ensures denotes { IfOk result (λ w. DenotesIn self.new w (value_tree value.now)) }
    {
        match value {
            Value::Bool(b) => Ok(Word::Bool(*b)),
            Value::Num(c) => Ok(Word::Num(*c)),
            Value::List(values) => {
                let words = self.put_each(alloc, &values.items)?;
                self.make_list(&words)
            }
            Value::Rec(number, values) => {
                let words = self.put_each(alloc, &values.items)?;
                self.make_record(*number, &words)
            }
        }
    }

    /// Words that denote the values, in order. `NoMemory` is the one error, and everything else is as with `put`.
    #[cycle(put)]
    pub fn put_each(&mut self, alloc: Global, values: &[Value]) -> Result<Vec<Word>, NoMemory>
        ensures keeps { Keeps self.old self.new }
        ensures denote { IfOk result (λ ws. AllDenote self.new ws.items (map value_tree values.now)) }
    {
        let mut words = Vec::new(alloc);
        for i in 0..values.len() {
            let word = self.put(alloc, &values[i])?;
            words.push(word)?;
        }
        Ok(words)
    }
}
