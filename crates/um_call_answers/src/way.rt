// The ways in which a call is run.

/// How a call of a function is run. All give the same outcome.
#[derive(Clone, Copy)]
pub enum Way {
    /// By the program's code.
    Code,
    /// By the program's code, its steps counted.
    Counted,
    /// By the program's tree.
    Tree,
}
