// The tokens before the name of a declaration.
ghost use Rattle.std.specs.Prelude.{◌≡◌, ℕ, List};
ghost use Rattle.um_forms.specs.ExprTokens.{expr_token};
ghost use Rattle.um_decls.specs.DeclMachine.{DeclBegin, LetName, MeasureName, RecName, RecordName, base_after};
ghost use Rattle.um_decls.specs.DeclMachine.{take_expected};
ghost use Rattle.um_decls.specs.DeclStanding.{decl_stands};
ghost use Rattle.um_parse.specs.ReaderStates.{view_expected, view_fixed, reached};

use crate::decl_prefix::{DeclExpected, FixedToken};
use um_syntax::{Keyword, Kind, Symbol};

// What follows the first token of a declaration.
fn after_begin(kind: &Kind) -> Option<DeclExpected>
    ensures { (p : ℕ) → reached result ≡ take_expected DeclBegin (expr_token kind.now) p }
{
    match kind {
        Kind::Sign(Symbol::AttributeOpen) => Some(DeclExpected::Token(FixedToken::Word)),
        Kind::Word(Keyword::Type) => Some(DeclExpected::RecordName),
        Kind::Word(Keyword::Let) => Some(DeclExpected::LetName),
        _ => None,
    }
}

/// What follows a token at which no name may stand, or nothing if it is refused.
pub fn after_token(expected: FixedToken, kind: &Kind) -> Option<DeclExpected>
    ensures { (p : ℕ) → reached result ≡ take_expected (view_fixed expected) (expr_token kind.now) p }
{
    match expected {
        FixedToken::Begin => after_begin(kind),
        FixedToken::Word => match kind {
            Kind::Word(Keyword::Measure) => Some(DeclExpected::Token(FixedToken::Greater)),
            _ => None,
        },
        FixedToken::Greater => match kind {
            Kind::Sign(Symbol::Greater) => Some(DeclExpected::Token(FixedToken::Close)),
            _ => None,
        },
        FixedToken::Close => match kind {
            Kind::Sign(Symbol::RightBracket) => Some(DeclExpected::Token(FixedToken::Type)),
            _ => None,
        },
        FixedToken::Type => match kind {
            Kind::Word(Keyword::Type) => Some(DeclExpected::BaseName),
            _ => None,
        },
    }
}

/// Whether a declaration begins with a token of this kind.
pub fn begins_declaration(kind: &Kind) -> bool
    ensures { (p : ℕ) → result ≡ decl_stands (take_expected DeclBegin (expr_token kind.now) p) }
{
    after_begin(kind).is_some()
}

// Whether a token of this kind is the name of a measure, of a record, or of a function after `rec`.
fn is_name(kind: &Kind) -> bool
    ensures measure { (p : ℕ) → result ≡ decl_stands (take_expected MeasureName (expr_token kind.now) p) }
    ensures record { (p : ℕ) → result ≡ decl_stands (take_expected RecordName (expr_token kind.now) p) }
    ensures function { (p : ℕ) → result ≡ decl_stands (take_expected RecName (expr_token kind.now) p) }
{
    match kind {
        Kind::Name(_) => true,
        _ => false,
    }
}

// Whether a token of this kind is the name of a function, or `rec`.
fn is_name_or_rec(kind: &Kind) -> bool
    ensures { (p : ℕ) → result ≡ decl_stands (take_expected LetName (expr_token kind.now) p) }
{
    match kind {
        Kind::Name(_) | Kind::Word(Keyword::Rec) => true,
        _ => false,
    }
}

/// Whether a token of this kind goes on before the name of a declaration, or as the name.
pub fn can_take_at(expected: DeclExpected, kind: &Kind) -> bool
    ensures { (p : ℕ) → result ≡ decl_stands (take_expected (view_expected expected) (expr_token kind.now) p) }
{
    match expected {
        DeclExpected::Token(token) => after_token(token, kind).is_some(),
        DeclExpected::LetName => is_name_or_rec(kind),
        DeclExpected::BaseName | DeclExpected::RecordName | DeclExpected::RecName => is_name(kind),
    }
}

/// Whether a token of this kind begins the unit text of an abbreviation, after the name of a measure.
pub fn begins_short(kind: &Kind) -> bool
    ensures { (at : ℕ) (x : List ℕ) → result ≡ decl_stands (base_after at x (expr_token kind.now)) }
{
    match kind {
        Kind::Sign(Symbol::Equal) => true,
        _ => false,
    }
}
