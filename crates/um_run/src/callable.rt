//! The parts of a program whose functions are called many times.
use um_measures::{Measures, NameTable};
use um_shape::Shaped;
use um_tree::Schemes;
use um_value::KnownNames;

/// The tables of the names of a program: the measures that arguments may use, and its functions.
///
/// [`crate::tables_of`] makes them, once for many calls.
#[derive(Drop)]
pub struct CallTables {
    pub measures: Measures,
    pub functions: NameTable,
}

/// A program with the schemes of its functions, the names that arguments may use, and the table of its functions'
/// names.
///
/// [`crate::callable_of`] makes it in no time. `IsCallable` says that its parts are those of one program.
#[derive(Clone, Copy)]
pub struct Callable<'a> {
    pub shaped: &'a Shaped,
    pub schemes: &'a Schemes,
    pub names: KnownNames<'a>,
    pub functions: &'a NameTable,
}
