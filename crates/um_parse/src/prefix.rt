//! Tokens that begin a program, read once: which tokens go on.
ghost use Rattle.std.specs.Prelude.{IfOk, OnOk, List, ◌++◌, ◌∷◌, [], ◌≡◌, ◌≤◌, true};
ghost use Rattle.std.specs.Bool.{Decides};
ghost use Rattle.um_syntax.specs.declared.token.Token.{Token};
ghost use Rattle.um_tree.specs.RawTree.{DeclSyntax};
ghost use Rattle.um_reader.specs.Texts.{BeginsText, BeginsTextWithin};
ghost use Rattle.um_unit_texts.specs.UnitStops.{greatest_height};
ghost use Rattle.um_parse.specs.DeclGrammar.{IsProgram};
ghost use Rattle.um_parse.specs.ProgramHeights.{program_height};
ghost use Rattle.um_decls.specs.DeclMachine.{program_step};
ghost use Rattle.um_decls.specs.DeclStanding.{program_stands};
ghost use Rattle.um_parse.specs.ProgramLeast.{program_least};
ghost use Rattle.um_parse.specs.ReaderStates.{program_state};
ghost use Rattle.um_parse.specs.Prefixes.{HasRead};

use crate::program_reader::ProgramReader;
use std::alloc::{AllocError, Global};
use um_reader::{Reader, Taken};
use um_syntax::{Kind, Token};

/// Tokens that begin a program, which were read: a viable prefix, as in Knuth, On the Translation of Languages from
/// Left to Right.
#[derive(Drop)]
pub struct Prefix {
    reader: ProgramReader,
}

// One token more, of which the reader takes a copy, and which goes on.
fn take_copy(alloc: Global, reader: &mut ProgramReader, token: &Token) -> Result<(), AllocError>
    requires goes { program_stands (program_step (program_state reader.old) token.now) ≡ true }
    requires low { program_least (program_step (program_state reader.old) token.now) ≤ greatest_height }
    ensures { OnOk result (program_state reader.new ≡ program_step (program_state reader.old) token.now) }
{
    let mut copy = token.copy(alloc)?;
    let taken = reader.take(alloc, &mut copy);
    drop(copy);
    match taken? {
        Taken::Goes => Ok(()),
        Taken::Stops | Taken::High => unreachable!(),
    }
}

impl Prefix {
    /// Reads these tokens, which begin a program within the heights. It takes a copy of each. Want of memory is the one
    /// error.
    pub fn read(alloc: Global, tokens: &[Token]) -> Result<Prefix, AllocError>
        requires begins { BeginsTextWithin IsProgram program_height greatest_height tokens.now }
        ensures read { IfOk result (λ prefix. HasRead prefix tokens.now) }
    {
        let mut reader = ProgramReader::new(alloc);
        for token in tokens {
            match take_copy(alloc, &mut reader, token) {
                Ok(()) => {}
                Err(stop) => {
                    drop(reader);
                    return Err(stop);
                }
            }
        }
        Ok(Prefix { reader })
    }

    /// Whether the tokens and one more of this kind, glued to the last or not, begin a program of any height. It takes
    /// no memory, and time for the forms that are open alone.
    pub fn goes_on(&self, kind: &Kind, glued: bool) -> bool
        ensures { (tokens : List Token) (token : Token) → HasRead self.now tokens → token.kind ≡ kind.now
            → token.glued ≡ glued → Decides result (BeginsText IsProgram (tokens ++ token ∷ [])) }
    {
        self.reader.can_take(kind, glued)
    }

    /// Whether the tokens are a program. It takes no memory.
    pub fn is_whole(&self) -> bool
        ensures { (tokens : List Token) → HasRead self.now tokens
            → Decides result ((ds : List DeclSyntax) × IsProgram tokens ds) }
    {
        self.reader.is_whole()
    }

    /// Gives its memory back. A crate that calls this has no proof of its own of how readers and trees are let go.
    pub fn discard(self) {
        drop(self);
    }
}
