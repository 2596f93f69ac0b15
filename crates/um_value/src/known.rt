//! The names that value texts may use.
ghost use Rattle.std.specs.Prelude.{◌≡◌, List, ℕ};
ghost use Rattle.um_tree.specs.ProgramTree.{program_tree};
ghost use Rattle.um_measures.specs.ClosedUnits.{given};
ghost use Rattle.um_measures.specs.Known.{short_unit, measure_unit};

use um_measures::{Abbreviations, Measures};
use um_tree::Program;

/// The names that value texts may use: a program, its abbreviations, and the table of their measures, which is made
/// once for many texts.
#[derive(Clone, Copy)]
pub struct KnownNames<'a> {
    pub program: &'a Program,
    pub abbreviations: &'a Abbreviations,
    pub measures: &'a Measures,
    ghost named: { (x : List ℕ) → short_unit measures.now x
        ≡ measure_unit (given (program_tree program.now) abbreviations.now) x },
}
