// Type texts with their heights beside them, and what stands inside the brackets while one is read.
ghost use Rattle.std.specs.Prelude.{◌≡◌, ◌≤◌, IfOk, None, Some};
ghost use Rattle.um_tree.specs.RawTree.{bool_syntax, num_syntax, record_syntax, list_type_syntax, bracket_type_syntax};
ghost use Rattle.um_tree.specs.RawTree.{note_syntax, type_syntax};
ghost use Rattle.um_tree.specs.Heights.{type_height};
ghost use Rattle.um_unit_texts.specs.UnitStops.{greatest_height};

use std::alloc::{AllocError, Global};
use um_syntax::Letters;
use um_tree::{Name, RawNote, RawNotes, RawType};
use um_unit_texts::name_of;

/// A type text and its height.
#[derive(Drop)]
pub(crate) struct TypeOperand {
    pub ty: RawType,
    pub height: u32,
    ghost exact: { height ≡ type_height (type_syntax ty) },
}

/// What angle brackets belong to: `num`, or a name with the notes before the comma.
#[derive(Drop)]
pub(crate) enum Owner {
    Num,
    Name(u32, Name, RawNotes),
}

/// What stands inside the open brackets: nothing, a type, or what the note that has begun belongs to.
#[derive(Drop)]
pub(crate) enum TypeFocus {
    Empty,
    Full(TypeOperand),
    Note(Owner),
}

impl TypeOperand {
    ghost use Rattle.std.specs.Prelude.{[]};
    ghost use Rattle.um_types.specs.TypeView.{operand_type};

    /// `num`
    pub fn num() -> TypeOperand
        ensures { operand_type result ≡ num_syntax None }
    {
        TypeOperand {
            ty: RawType::Num(None),
            height: 1,
        }
    }

    /// `num` with its note
    pub fn noted(note: RawNote) -> TypeOperand
        ensures { operand_type result ≡ num_syntax (Some (note_syntax note)) }
    {
        TypeOperand {
            ty: RawType::Num(Some(note)),
            height: 1,
        }
    }

    /// `bool`
    pub fn bool() -> TypeOperand
        ensures { operand_type result ≡ bool_syntax }
    {
        TypeOperand {
            ty: RawType::Bool,
            height: 1,
        }
    }

    /// The type that a name is.
    pub fn named(alloc: Global, at: u32, letters: Letters) -> TypeOperand
        ensures { operand_type result ≡ record_syntax at letters [] }
    {
        let notes = RawNotes {
            items: Vec::new(alloc),
        };
        TypeOperand {
            ty: RawType::Name(at, name_of(letters), notes),
            height: 1,
        }
    }

    /// A list of it
    pub fn list(self, alloc: Global) -> Result<TypeOperand, AllocError>
        requires { type_height (operand_type self) ≤ greatest_height }
        ensures { IfOk result (λ p. operand_type p ≡ list_type_syntax (operand_type self)) }
    {
        let TypeOperand { ty, height } = self;
        let ty = RawType::List(Box::new(alloc, ty)?);
        Ok(TypeOperand {
            ty,
            height: height + 1,
        })
    }

    /// In brackets
    pub fn bracket(self, alloc: Global) -> Result<TypeOperand, AllocError>
        requires { type_height (operand_type self) ≤ greatest_height }
        ensures { IfOk result (λ p. operand_type p ≡ bracket_type_syntax (operand_type self)) }
    {
        let TypeOperand { ty, height } = self;
        let ty = RawType::Bracket(Box::new(alloc, ty)?);
        Ok(TypeOperand {
            ty,
            height: height + 1,
        })
    }
}

impl Owner {
    ghost use Rattle.um_types.specs.TypeMachine.{owned};
    ghost use Rattle.um_types.specs.TypeView.{operand_type, view_owner, Opens};

    /// What angle brackets after a type belong to; the type again if none may stand there.
    pub fn of_type(ty: RawType) -> Result<Owner, RawType>
        ensures { Opens (type_syntax ty) result }
    {
        match ty {
            RawType::Num(None) => Ok(Owner::Num),
            RawType::Num(Some(note)) => Err(RawType::Num(Some(note))),
            RawType::Name(at, name, notes) => {
                if notes.items.is_empty() {
                    Ok(Owner::Name(at, name, notes))
                } else {
                    Err(RawType::Name(at, name, notes))
                }
            }
            RawType::Bool => Err(RawType::Bool),
            RawType::List(item) => Err(RawType::List(item)),
            RawType::Bracket(inner) => Err(RawType::Bracket(inner)),
        }
    }

    /// The type with its last note
    pub fn owned(self, last: RawNote) -> Result<TypeOperand, AllocError>
        ensures { IfOk result (λ p. operand_type p ≡ owned (view_owner self) (note_syntax last)) }
    {
        match self {
            Owner::Num => Ok(TypeOperand::noted(last)),
            Owner::Name(at, name, mut earlier) => {
                earlier.items.push(last)?;
                Ok(TypeOperand {
                    ty: RawType::Name(at, name, earlier),
                    height: 1,
                })
            }
        }
    }
}
