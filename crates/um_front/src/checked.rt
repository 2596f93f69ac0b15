// A program with the schemes of its functions, and what is known of it.
use crate::parts::CheckedParts;
use std::marker::Model;
use um_measures::Abbreviations;
use um_shape::Shaped;
use um_tree::{Program, Schemes};

/// A text with its program, the shapes of its nodes, its abbreviations and the schemes of its functions.
///
/// Contracts see its parts. They are those of the text: `IsCheckedText` holds of each such value.
#[derive(Drop)]
pub struct Checked {
    parts: CheckedParts,
}

impl Model for Checked {
    ghost use Rattle.um_front.specs.declared.parts.CheckedParts.{CheckedParts};
    ghost use Rattle.um_front.specs.contracts.parts.CheckedParts.{the_row};
    ghost use Rattle.um_front.specs.Parts.{checked_tree};
    ghost use Rattle.um_front.specs.Stages.{IsCheckedText};

    ghost Value = { CheckedParts };

    ghost coded = { the_row.coded };

    ghost view = { λ checked. checked.parts };

    ghost invariant = { λ checked. IsCheckedText checked.parts.text.text.bytes.items (checked_tree checked.parts) };
}

impl Checked {
    ghost use Rattle.std.specs.Prelude.{◌≡◌, length};
    ghost use Rattle.um_tree.specs.Formed.{IsFormed};
    ghost use Rattle.um_tree.specs.ProgramTree.{program_tree};
    ghost use Rattle.um_infer.specs.Answers.{scheme_trees};
    ghost use Rattle.um_infer.specs.Inference.{all_schemes, infer};
    ghost use Rattle.um_run.specs.Calls.{AreClosedUnits};
    ghost use Rattle.um_front.specs.Parts.{checked_tree};
    ghost use Rattle.um_front.specs.Stages.{IsCheckedText};

    /// These parts.
    pub(crate) fn new(parts: CheckedParts) -> Checked
        requires { IsCheckedText parts.text.text.bytes.items (checked_tree parts) }
        ensures { result ≡ parts }
    {
        Checked { parts }
    }

    /// The bytes of the text. Takes no memory.
    pub fn bytes(&self) -> &[u8]
        ensures bytes { result.now ≡ self.now.text.text.bytes.items }
        ensures checked { IsCheckedText self.now.text.text.bytes.items (checked_tree self.now) }
    {
        &self.parts.text.text.bytes
    }

    /// The program with its shapes. Takes no memory.
    pub fn shaped(&self) -> &Shaped
        ensures shaped { result.now ≡ self.now.text.shaped }
        ensures checked { IsCheckedText self.now.text.text.bytes.items (checked_tree self.now) }
    {
        &self.parts.text.shaped
    }

    /// The program. Takes no memory.
    pub fn program(&self) -> &Program
        ensures program { result.now ≡ self.now.text.shaped }
        ensures formed { IsFormed (program_tree self.now.text.shaped) }
        ensures checked { IsCheckedText self.now.text.text.bytes.items (checked_tree self.now) }
    {
        self.parts.text.shaped.program()
    }

    /// The abbreviations, in order of declaration. Takes no memory.
    pub fn abbreviations(&self) -> &Abbreviations
        ensures abbreviations { result.now ≡ self.now.text.abbreviations }
        ensures closed { AreClosedUnits (length (program_tree self.now.text.shaped).bases) result.now }
    {
        &self.parts.text.abbreviations
    }

    /// The schemes of the functions, in order. Takes no memory.
    pub fn schemes(&self) -> &Schemes
        ensures schemes { result.now ≡ self.now.schemes }
        ensures inferred { infer (program_tree self.now.text.shaped) ≡ all_schemes (scheme_trees result.now) }
        ensures checked { IsCheckedText self.now.text.text.bytes.items (checked_tree self.now) }
    {
        &self.parts.schemes
    }

    /// Gives its memory back. A crate that calls this has no proof of its own of how the trees are let go.
    pub fn discard(self) {
        let CheckedParts { text, schemes } = self.parts;
        text.discard();
        drop(schemes);
    }
}
