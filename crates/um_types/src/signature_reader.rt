// A signature text, types with `->` between them, that is read one token at a time.
ghost use Rattle.std.specs.Prelude.{◌≡◌, ◌≤◌, ◌∷◌, [], ◌++◌, IfOk, map};
ghost use Rattle.um_tree.specs.RawTree.{type_syntax, type_syntaxes};

use crate::type_reader::TypeReader;
use std::alloc::{AllocError, Global};
use std::mem;
use um_reader::{Reader, Taken};
use um_syntax::{Kind, Symbol, Token};
use um_tree::{RawType, RawTypes};

/// A signature text that has begun: the types before the last `->`, and the one after it.
#[derive(Drop)]
pub(crate) struct SignatureReader {
    earlier: Vec<RawType>,
    last: TypeReader,
}

// The types, with the last one.
fn with_last(earlier: Vec<RawType>, last: RawType) -> Result<RawTypes, AllocError>
    ensures { IfOk result (λ ts. type_syntaxes ts ≡ map type_syntax earlier.items ++ type_syntax last ∷ []) }
{
    let mut items = earlier;
    items.push(last)?;
    Ok(RawTypes { items })
}

impl SignatureReader {
    ghost use Rattle.um_tree.specs.RawTree.{TypeSyntax};
    ghost use Rattle.std.specs.Prelude.{Some};
    ghost use Rattle.um_reader.specs.Takes.{Gives};
    ghost use Rattle.um_unit_texts.specs.UnitStops.{greatest_height};
    ghost use Rattle.um_types.specs.TypeHeights.{whole_height, all_height};
    ghost use Rattle.um_types.specs.TypeMachine.{type_finish};
    ghost use Rattle.um_types.specs.TypeView.{type_state};
    ghost use Rattle.um_types.specs.SignatureMachine.{type_ends, machine_of_signatures};
    ghost use Rattle.um_types.specs.SignatureView.{signature_state};

    // The token that a type has refused.
    fn take_refused(&mut self, token: &Token) -> Result<Taken, AllocError>
        requires earlier { all_height (map type_syntax self.old.earlier.items) ≤ greatest_height }
        requires last { (t : TypeSyntax) → type_finish (type_state self.old.last) ≡ Some t → whole_height t
            ≤ greatest_height }
        ensures { IfOk result
            (λ t. Gives machine_of_signatures greatest_height (signature_state self.old)
            (type_ends (map type_syntax self.old.earlier.items)
            (type_finish (type_state self.old.last)) token.now.kind) t (signature_state self.new)) }
    {
        match &token.kind {
            Kind::Sign(Symbol::Arrow) => self.next_type(),
            _ => Ok(Taken::Stops),
        }
    }

    // `->`, which a type has refused.
    fn next_type(&mut self) -> Result<Taken, AllocError>
        requires earlier { all_height (map type_syntax self.old.earlier.items) ≤ greatest_height }
        requires last { (t : TypeSyntax) → type_finish (type_state self.old.last) ≡ Some t → whole_height t
            ≤ greatest_height }
        ensures { IfOk result
            (λ t. Gives machine_of_signatures greatest_height (signature_state self.old)
            (type_ends (map type_syntax self.old.earlier.items) (type_finish (type_state self.old.last))
            (Kind.Sign Symbol.Arrow)) t (signature_state self.new)) }
    {
        let last = mem::replace(&mut self.last, TypeReader::new());
        match last.finish() {
            Some(ty) => {
                self.earlier.push(ty)?;
                Ok(Taken::Goes)
            }
            None => Ok(Taken::Stops),
        }
    }
}

impl Reader for SignatureReader {
    ghost use Rattle.std.specs.Prelude.{◌≡◌, ◌≤◌, IfOk, List, option_map};
    ghost use Rattle.std.proofs.Common.{arith};
    ghost use Rattle.um_tree.specs.RawTree.{TypeSyntax, type_syntaxes};
    ghost use Rattle.um_reader.specs.Takes.{Takes};
    ghost use Rattle.um_unit_texts.specs.UnitStops.{greatest_height};
    ghost use Rattle.um_types.specs.SignatureMachine.{SignatureState, signature_finish, signature_least};
    ghost use Rattle.um_types.specs.SignatureMachine.{machine_of_signatures};
    ghost use Rattle.um_types.specs.SignatureView.{signature_state};

    type Token = Token;

    type Tree = RawTypes;

    ghost States = { SignatureState };

    ghost Syntax = { List TypeSyntax };

    ghost machine = { machine_of_signatures };

    ghost limit = { greatest_height };

    ghost state_in = { signature_state };

    ghost view = { type_syntaxes };

    ghost starts = { λ e. Prim.cc };

    ghost starts_low = { Prim.omega arith };

    fn new(alloc: Global) -> SignatureReader {
        SignatureReader {
            earlier: Vec::new(alloc),
            last: TypeReader::new(),
        }
    }

    fn copy(alloc: Global, token: &Token) -> Result<Token, AllocError> {
        token.copy(alloc)
    }

    fn take(&mut self, alloc: Global, token: &mut Token) -> Result<Taken, AllocError>
        requires low { signature_least (signature_state self.old) ≤ greatest_height }
        ensures taken { IfOk result
            (λ t. Takes machine_of_signatures greatest_height (signature_state self.old) token.old t
            (signature_state self.new)) }
        ensures kept { IfOk result (λ t. t ≡ Taken.Stops → token.new ≡ token.old) }
    {
        match self.last.take(alloc, token)? {
            Taken::Goes => Ok(Taken::Goes),
            Taken::Stops => self.take_refused(token),
            Taken::High => Ok(Taken::High),
        }
    }

    fn finish(self, _alloc: Global) -> Result<Option<RawTypes>, AllocError>
        ensures found { IfOk result (λ o. option_map type_syntaxes o ≡ signature_finish (signature_state self)) }
    {
        let SignatureReader { earlier, last } = self;
        match last.finish() {
            Some(last) => Ok(Some(with_last(earlier, last)?)),
            None => {
                drop(earlier);
                Ok(None)
            }
        }
    }
}
