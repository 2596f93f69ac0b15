//! Shaped programs: each node has its shape, and no shape is taller than 400.
use crate::signature::Signature;
use std::marker::Model;
use um_tree::{Program, Shape};

/// A program of which every node has its shape. Contracts see the program.
#[derive(Drop)]
pub struct Shaped {
    program: Program,
    signatures: Vec<Signature>,
}

impl Model for Shaped {
    ghost use Rattle.um_tree.specs.declared.program.Program.{Program};
    ghost use Rattle.um_tree.specs.contracts.program.Program.{the_row};

    ghost Value = { Program };

    ghost coded = { the_row.coded };

    ghost use Rattle.std.specs.Prelude.{◌≡◌, Ok};
    ghost use Rattle.um_tree.specs.ProgramTree.{program_tree};
    ghost use Rattle.um_tree.specs.Formed.{IsFormed};
    ghost use Rattle.um_shape.specs.FirstFault.{program_found};
    ghost use Rattle.um_shape.specs.Signatures.{signatures_shapes};

    ghost view = { λ shaped. shaped.program };

    ghost invariant = { λ shaped. IsFormed (program_tree shaped.program)
        × (program_found (program_tree shaped.program) ≡ Ok (signatures_shapes shaped.signatures.items)) };
}

impl Shaped {
    ghost use Rattle.std.specs.Prelude.{◌≡◌, ◌<◌, length, map, Ok, None};
    ghost use Rattle.um_tree.specs.TypeTree.{shape_tree};
    ghost use Rattle.um_tree.specs.ProgramTree.{program_tree};
    ghost use Rattle.um_tree.specs.Formed.{IsFormed};
    ghost use Rattle.um_tree.specs.Shapes.{IsShaped};
    ghost use Rattle.um_shape.specs.Signatures.{signatures_shapes};
    ghost use Rattle.um_shape.specs.FirstFault.{program_found, first_fault};
    ghost use Rattle.um_shape.specs.ShapedProgram.{HasParam, IsParamShape, AreParamShapes, IsResultShape, IsLowShape};

    /// The program with the shapes that were found of its functions.
    pub(crate) fn new(program: Program, signatures: Vec<Signature>) -> Shaped
        requires formed { IsFormed (program_tree program) }
        requires found { program_found (program_tree program) ≡ Ok (signatures_shapes signatures.items) }
        ensures { result ≡ program }
    {
        Shaped {
            program,
            signatures,
        }
    }

    /// The program. It is formed, and each node has its shape. Takes no memory.
    pub fn program(&self) -> &Program
        ensures program { result.now ≡ self.now }
        ensures formed { IsFormed (program_tree self.now) }
        ensures faultless { first_fault (program_tree self.now) ≡ None }
        ensures shaped { IsShaped (program_tree self.now) }
    {
        &self.program
    }

    /// The shape of parameter `k` of function `f`, which is that of its note. Takes no memory.
    pub fn param_shape(&self, f: u32, k: u32) -> &Shape
        requires param { HasParam (program_tree self.now) f k }
        ensures shape { IsParamShape (program_tree self.now) f k (shape_tree result.now) }
        ensures low { IsLowShape (program_tree self.now) (shape_tree result.now) }
    {
        &self.signatures[f as usize].params[k as usize]
    }

    /// The shapes of the parameters of function `f`, in order. Takes no memory.
    pub fn param_shapes(&self, f: u32) -> &[Shape]
        requires function { f < length (program_tree self.now).functions }
        ensures shapes { AreParamShapes (program_tree self.now) f (map shape_tree result.now) }
    {
        &self.signatures[f as usize].params
    }

    /// The shape of the result of function `f`, which is that of its body. Takes no memory.
    pub fn result_shape(&self, f: u32) -> &Shape
        requires function { f < length (program_tree self.now).functions }
        ensures shape { IsResultShape (program_tree self.now) f (shape_tree result.now) }
        ensures low { IsLowShape (program_tree self.now) (shape_tree result.now) }
    {
        &self.signatures[f as usize].result
    }

    /// Gives its memory back. A crate that calls this has no proof of its own of how the trees are let go.
    pub fn discard(self) {
        let Shaped {
            program,
            signatures,
        } = self;
        program.discard();
        drop(signatures);
    }
}
