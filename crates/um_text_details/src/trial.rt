//! Whether tokens go on beginning a program with one more.
ghost use Rattle.std.specs.Prelude.{◌≡◌};
ghost use Rattle.um_parse.specs.Prefixes.{HasRead};

use std::marker::Model;
use um_parse::Prefix;
use um_syntax::{Kind, Token};

/// The tokens before a place, which begin a program within the heights and were read; whether a token there is glued.
#[derive(Drop)]
pub(crate) struct Trial {
    before: Vec<Token>,
    prefix: Prefix,
    at: u32,
    glued: bool,
}

impl Model for Trial {
    ghost use Rattle.um_text_details.specs.Expected.{Place};
    ghost use Rattle.um_parse.specs.Prefixes.{HasRead};

    ghost Value = { Place };

    ghost view = { λ trial. record { before = trial.before.items; at = trial.at; glued = trial.glued } };

    ghost invariant = { λ trial. HasRead trial.prefix trial.before.items };
}

impl Trial {
    ghost use Rattle.std.specs.Bool.{Decides};
    ghost use Rattle.um_text_details.specs.Expected.{Place, CanStand, IsWhole};

    /// This place, after tokens that were read. Takes no memory.
    pub(crate) fn new(before: Vec<Token>, prefix: Prefix, at: u32, glued: bool) -> Trial
        requires { HasRead prefix before.items }
        ensures { result ≡ record { before = before.items; at = at; glued = glued } }
    {
        Trial {
            before,
            prefix,
            at,
            glued,
        }
    }

    /// Gives its memory back.
    pub(crate) fn discard(self) {
        let Trial { before, prefix, .. } = self;
        drop(before);
        prefix.discard();
    }

    /// The tokens before the place. Takes no memory.
    pub(crate) fn before(&self) -> &[Token]
        ensures { result.now ≡ self.now.before }
    {
        &self.before
    }

    /// Whether a token of this kind can stand at the place. Takes no memory.
    pub(crate) fn takes(&self, kind: &Kind) -> bool
        ensures { Decides result (CanStand self.now kind.now) }
    {
        self.prefix.goes_on(kind, self.glued)
    }

    /// Whether the tokens before the place are a program. Takes no memory.
    pub(crate) fn is_whole(&self) -> bool
        ensures { Decides result (IsWhole self.now) }
    {
        self.prefix.is_whole()
    }
}
