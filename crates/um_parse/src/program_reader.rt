// A program that is read one token at a time.
ghost use Rattle.std.specs.Prelude.{◌≡◌, ◌≤◌, IfOk, Some, None, cond, map, option_map};
ghost use Rattle.um_tree.specs.RawTree.{decl_syntax, program_syntax};
ghost use Rattle.um_decls.specs.DeclMachine.{program_found};

use crate::decl_begin::begins_declaration;
use crate::decl_reader::DeclReader;
use std::alloc::{AllocError, Global};
use um_reader::{Reader, Taken};
use um_syntax::{Kind, Token};
use um_tree::{RawDecl, RawProgram};

/// A program that has begun: the declarations before the last one, and that one.
pub(crate) struct ProgramReader {
    decls: Vec<RawDecl>,
    last: DeclReader,
}

// The crates of its parts have the proofs of how these are let go.
impl Drop for ProgramReader {
    fn drop(self) {
        let ProgramReader { decls, last } = self;
        RawProgram { items: decls }.discard();
        drop(last);
    }
}

// The program of these declarations, if the last one is whole.
fn program_of(decls: Vec<RawDecl>, whole: bool) -> Option<RawProgram>
    ensures { option_map program_syntax result ≡ cond whole (Some (map decl_syntax decls.items)) None }
{
    if whole {
        Some(RawProgram { items: decls })
    } else {
        RawProgram { items: decls }.discard();
        None
    }
}

impl ProgramReader {
    ghost use Rattle.std.specs.Prelude.{is_some, true};
    ghost use Rattle.um_tree.specs.RawTree.{DeclSyntax};
    ghost use Rattle.um_reader.specs.Takes.{Gives, Takes};
    ghost use Rattle.um_unit_texts.specs.UnitStops.{greatest_height};
    ghost use Rattle.um_decls.specs.DeclMachine.{DeclBegin, Expects, ProgramState, decl_step, decl_finish, next_decl};
    ghost use Rattle.um_decls.specs.DeclMachine.{at_start, program_finish, program_step};
    ghost use Rattle.um_decls.specs.DeclStanding.{program_stands};
    ghost use Rattle.um_parse.specs.ProgramHeights.{decl_height, program_height};
    ghost use Rattle.um_parse.specs.ProgramLeast.{program_least, machine_of_programs};
    ghost use Rattle.um_parse.specs.ReaderStates.{reader_state, program_state};

    /// Whether the program goes on with a token of this kind, glued to the one before or not. It isn't taken, and no
    /// height is asked for.
    #[tactic(auto, using(crate::proofs::Prefixes::step_stands))]
    pub fn can_take(&self, kind: &Kind, glued: bool) -> bool
        ensures { (token : Token) → token.kind ≡ kind.now → token.glued ≡ glued
            → result ≡ program_stands (program_step (program_state self.now) token) }
    {
        self.last.can_take(kind, glued) || (self.last.is_whole() && begins_declaration(kind))
    }

    /// Whether the tokens that were taken are a program.
    pub fn is_whole(&self) -> bool
        ensures { result ≡ is_some (program_finish (program_state self.now)) }
    {
        self.last.is_at_start() || self.last.is_whole()
    }

    // The first token of a declaration.
    #[inline(never)]
    fn begin(&mut self, alloc: Global, token: &mut Token) -> Result<Taken, AllocError>
        requires start { at_start (reader_state self.old.last) ≡ true }
        requires low { program_least (program_state self.old) ≤ greatest_height }
        ensures { IfOk result
            (λ t. Takes machine_of_programs greatest_height (program_state self.old) token.old t
            (program_state self.new)) }
    {
        match self.last.take(alloc, token)? {
            Taken::Goes => Ok(Taken::Goes),
            Taken::Stops => {
                self.last.restart();
                Ok(Taken::Stops)
            }
            Taken::High => Ok(Taken::High),
        }
    }

    // The token that the last declaration has refused: the next begins with it, if that one is whole.
    #[inline(never)]
    fn next_decl(&mut self, alloc: Global, token: &mut Token) -> Result<Taken, AllocError>
        requires decls { program_height (map decl_syntax self.old.decls.items) ≤ greatest_height }
        requires last { (d : DeclSyntax) → decl_finish (reader_state self.old.last) ≡ Some d → decl_height d
            ≤ greatest_height }
        ensures { IfOk result
            (λ t. (old : ProgramState) → program_finish old ≡ program_found (map decl_syntax self.old.decls.items)
            (decl_finish (reader_state self.old.last)) → Gives machine_of_programs greatest_height old
            (next_decl (map decl_syntax self.old.decls.items) (decl_finish (reader_state self.old.last))
            (decl_step (Expects DeclBegin) token.old)) t (program_state self.new)) }
    {
        let whole = self.last.finish(alloc, &mut self.decls)?;
        if whole {
            self.begin(alloc, token)
        } else {
            self.last.stop();
            Ok(Taken::Stops)
        }
    }
}

impl Reader for ProgramReader {
    ghost use Rattle.std.specs.Prelude.{◌≡◌, ◌≤◌, IfOk, List, option_map};
    ghost use Rattle.std.proofs.Common.{arith};
    ghost use Rattle.um_tree.specs.RawTree.{DeclSyntax, program_syntax};
    ghost use Rattle.um_reader.specs.Takes.{Takes};
    ghost use Rattle.um_unit_texts.specs.UnitStops.{greatest_height};
    ghost use Rattle.um_decls.specs.DeclMachine.{ProgramState, program_finish};
    ghost use Rattle.um_parse.specs.ProgramLeast.{program_least, machine_of_programs};
    ghost use Rattle.um_parse.specs.ReaderStates.{program_state};

    type Token = Token;

    type Tree = RawProgram;

    ghost States = { ProgramState };

    ghost Syntax = { List DeclSyntax };

    ghost machine = { machine_of_programs };

    ghost limit = { greatest_height };

    ghost state_in = { program_state };

    ghost view = { program_syntax };

    ghost starts = { λ e. Prim.cc };

    ghost starts_low = { Prim.omega arith };

    fn new(alloc: Global) -> ProgramReader {
        ProgramReader {
            decls: Vec::new(alloc),
            last: DeclReader::new(alloc),
        }
    }

    #[inline(always)]
    fn take(&mut self, alloc: Global, token: &mut Token) -> Result<Taken, AllocError>
        requires low { program_least (program_state self.old) ≤ greatest_height }
        ensures taken { IfOk result
            (λ t. Takes machine_of_programs greatest_height (program_state self.old) token.old t
            (program_state self.new)) }
    {
        if self.last.is_at_start() {
            return self.begin(alloc, token);
        }
        match self.last.take(alloc, token)? {
            Taken::Goes => Ok(Taken::Goes),
            Taken::Stops => self.next_decl(alloc, token),
            Taken::High => Ok(Taken::High),
        }
    }

    fn copy(alloc: Global, token: &Token) -> Result<Token, AllocError> {
        token.copy(alloc)
    }

    fn finish(self, alloc: Global) -> Result<Option<RawProgram>, AllocError>
        ensures found { IfOk result (λ o. option_map program_syntax o ≡ program_finish (program_state self)) }
    {
        let ProgramReader { decls, last } = self;
        if last.is_at_start() {
            drop(last);
            return Ok(Some(RawProgram { items: decls }));
        }
        let mut last = last;
        let mut decls = decls;
        match last.finish(alloc, &mut decls) {
            Ok(whole) => {
                drop(last);
                Ok(program_of(decls, whole))
            }
            Err(error) => {
                drop(last);
                RawProgram { items: decls }.discard();
                Err(error)
            }
        }
    }
}
