//! The language: its trees, its values, and the definitions of typing and meaning.
//!
//! ```
//! let one = Node::Num(Frac::one(), UnitNote::Written(metre)); // the literal 1<m>
//! let levels = height(&body); // at most GREATEST_HEIGHT
//! let value = value_of(alloc, &input)?; // an argument without its units
//! ```
#![tactic(auto)]

mod expression;
mod laws;
mod name;
mod note;
mod program;
mod raw;
mod size;
mod types;
mod value;

pub use expression::{Arith, Expr, Exprs, Node, Sign};
pub use laws::{
    budgets_of_calls, budgets_of_expressions, changes_of_units, earlier_functions, equal_units,
    equations_of_meaning, literals_of_formed_programs, numbered_schemes, shapes_of_types,
    typings_without_parameters, units_of_literals,
};
pub use name::{Name, Names};
pub use note::{Note, Notes, UnitNote, UnitNotes};
pub use program::{
    FieldDecl, FieldDecls, Function, Functions, Program, Record, Records, Scheme, Schemes,
};
pub use raw::{
    Binder, RawDecl, RawExpr, RawExprs, RawField, RawFieldDecl, RawFieldDecls, RawFields,
    RawFunction, RawNode, RawNote, RawNotes, RawParam, RawParams, RawProgram, RawType, RawTypes,
    RawUnit, RawUnits, RawVar, RawVars,
};
pub use size::{GREATEST_HEIGHT, height, nodes};
pub use types::{Shape, Ty, Types};
pub use value::{Input, Inputs, Outcome, Value, Values, copy_value, value_of};
