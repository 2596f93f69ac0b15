// Programs, and the schemes of their functions.
//
// A derived drop would be proved anew in each crate that drops the type. The drops of these types are proved here.
ghost use Rattle.std.specs.Prelude.{◌≡◌};

use crate::{Expr, Name, Names, Note, Notes, Ty, Types};

/// A field of a record.
pub struct FieldDecl {
    pub name: Name,
    /// Its type, in which variable k is the record's k-th unit parameter
    pub ty: Ty,
}

impl Drop for FieldDecl {
    fn drop(self) {
        let FieldDecl { name: _, ty: _ } = self;
    }
}

/// Some fields, in order.
pub struct FieldDecls {
    pub items: Vec<FieldDecl>,
}

impl Drop for FieldDecls {
    fn drop(self) {
        let FieldDecls { items: _ } = self;
    }
}

/// A declared record.
pub struct Record {
    pub name: Name,
    /// The byte offset of its name
    pub at: u32,
    /// The number of its unit parameters
    pub units: u32,
    pub fields: FieldDecls,
}

impl Drop for Record {
    fn drop(self) {
        let Record {
            name: _,
            at: _,
            units: _,
            fields: _,
        } = self;
    }
}

/// Some records, in order.
pub struct Records {
    pub items: Vec<Record>,
}

impl Drop for Records {
    fn drop(self) {
        let Records { items: _ } = self;
    }
}

/// A declared function.
pub struct Function {
    pub name: Name,
    /// The byte offset of its name
    pub at: u32,
    /// It is known in its own body
    pub recursive: bool,
    /// The number of its unit parameters, which are its first named unit variables
    pub units: u32,
    pub params: Notes,
    /// The number of its named unit variables
    pub named: u32,
    /// The note of its result, if one is written
    pub result: Option<Note>,
    pub body: Expr,
}

impl Drop for Function {
    fn drop(self) {
        let Function {
            name: _,
            at: _,
            recursive: _,
            units: _,
            params: _,
            named: _,
            result: _,
            body: _,
        } = self;
    }
}

/// Some functions, in order.
pub struct Functions {
    pub items: Vec<Function>,
}

impl Drop for Functions {
    fn drop(self) {
        let Functions { items: _ } = self;
    }
}

/// After so many functions the list that held them gets shorter.
const BLOCK: usize = 64;

impl Functions {
    /// Gives its memory back, from the end. The list gets shorter while its functions go: each time the C library joins
    /// the memory of the last ones, which is still near. At the end of them all it would have to fetch it once more.
    fn discard(self) {
        let Functions { mut items } = self;
        for left in (0..items.len()).rev() {
            items.truncate(left);
            if left % BLOCK == 0 {
                items.shrink_to_fit();
            }
        }
    }
}

/// A resolved program: its base units, its records and its functions, each in order of declaration.
pub struct Program {
    pub bases: Names,
    pub records: Records,
    pub functions: Functions,
}

impl Drop for Program {
    fn drop(self) {
        let Program {
            bases: _,
            records: _,
            functions: _,
        } = self;
    }
}

impl Program {
    /// Gives its memory back. A crate that calls this has no proof of its own of how the trees are let go.
    pub fn discard(self) {
        let Program {
            bases: _,
            records: _,
            functions,
        } = self;
        functions.discard();
    }
}

/// A scheme of a function: its types hold for all units in place of the variables below `vars`.
pub struct Scheme {
    pub params: Types,
    pub result: Ty,
    pub vars: u32,
}

impl Scheme {
    /// The type of its result.
    pub fn into_result(self) -> Ty
        ensures { result ≡ self.result }
    {
        let Scheme {
            params: _,
            result,
            vars: _,
        } = self;
        result
    }
}

impl Drop for Scheme {
    fn drop(self) {
        let Scheme {
            params: _,
            result: _,
            vars: _,
        } = self;
    }
}

/// Some schemes, in order.
pub struct Schemes {
    pub items: Vec<Scheme>,
}

impl Drop for Schemes {
    fn drop(self) {
        let Schemes { items: _ } = self;
    }
}
