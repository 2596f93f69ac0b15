// Unit parameters, of a record or of a function.
ghost use Rattle.std.specs.Prelude.{◌≡◌, ℕ, List, [], IfOk, map};
ghost use Rattle.um_tree.specs.RawTree.{VarSyntax, var_syntax};
ghost use Rattle.um_forms.specs.ExprTokens.{expr_token};
ghost use Rattle.um_decls.specs.DeclMachine.{VarOwner, VarName, VarEnd, take_expected};
ghost use Rattle.um_decls.specs.DeclViews.{view_fixed_var, view_var, var_state};
ghost use Rattle.um_decls.specs.DeclStanding.{decl_stands};
ghost use Rattle.um_decls.specs.DeclTokens.{BeginsAlike};

use std::alloc::{AllocError, Global};
use std::mem;
use um_syntax::{Keyword, Kind, Symbol, Token};
use um_tree::{RawVar, RawVars};
use um_unit_texts::name_of;

/// The token that is expected among unit parameters, if it is none of them.
#[derive(Clone, Copy)]
pub(crate) enum FixedVarToken {
    /// After `<` or `,`; `[<`; `Measure`; `>`; a parameter
    Begin,
    Word,
    Greater,
    Close,
    End,
}

/// What is expected among unit parameters: a token that is none, or a parameter.
#[derive(Clone, Copy)]
pub(crate) enum VarExpected {
    Token(FixedVarToken),
    Name,
}

/// What a token among unit parameters gives: this is expected after it, or they end with it, or it is refused.
#[derive(Clone, Copy)]
pub(crate) enum VarTaken {
    Goes(VarExpected),
    Ends,
    Stops,
}

/// No unit parameters were read. Those before were taken out, so there is nothing to let go.
pub fn clear_vars(alloc: Global, vars: &mut RawVars)
    ensures { map var_syntax vars.new.items.items ≡ [] }
{
    let none = RawVars {
        items: Vec::new(alloc),
    };
    mem::forget(mem::replace(vars, none));
}

// A token after a unit parameter.
fn after_var(kind: &Kind) -> VarTaken
    ensures { (o : VarOwner) (vs : List VarSyntax) (p : ℕ) →
        var_state o vs result ≡ take_expected (VarEnd o vs) (expr_token kind.now) p }
{
    match kind {
        Kind::Sign(Symbol::Comma) => VarTaken::Goes(VarExpected::Token(FixedVarToken::Begin)),
        Kind::Sign(Symbol::Greater) => VarTaken::Ends,
        _ => VarTaken::Stops,
    }
}

// What a token gives at which no parameter may stand.
fn after_token(expected: FixedVarToken, kind: &Kind) -> VarTaken
    ensures { (o : VarOwner) (vs : List VarSyntax) (p : ℕ) →
        var_state o vs result ≡ take_expected (view_fixed_var o vs expected) (expr_token kind.now) p }
{
    match expected {
        FixedVarToken::Begin => match kind {
            Kind::Sign(Symbol::AttributeOpen) => VarTaken::Goes(VarExpected::Token(
                FixedVarToken::Word,
            )),
            _ => VarTaken::Stops,
        },
        FixedVarToken::Word => match kind {
            Kind::Word(Keyword::Measure) => VarTaken::Goes(VarExpected::Token(
                FixedVarToken::Greater,
            )),
            _ => VarTaken::Stops,
        },
        FixedVarToken::Greater => match kind {
            Kind::Sign(Symbol::Greater) => VarTaken::Goes(VarExpected::Token(FixedVarToken::Close)),
            _ => VarTaken::Stops,
        },
        FixedVarToken::Close => match kind {
            Kind::Sign(Symbol::RightBracket) => VarTaken::Goes(VarExpected::Name),
            _ => VarTaken::Stops,
        },
        FixedVarToken::End => after_var(kind),
    }
}

/// Whether a token of this kind goes on among unit parameters.
pub fn can_take_var(expected: VarExpected, kind: &Kind) -> bool
    ensures { (o : VarOwner) (vs : List VarSyntax) (p : ℕ) →
        result ≡ decl_stands (take_expected (view_var o vs expected) (expr_token kind.now) p) }
{
    match expected {
        VarExpected::Token(expected) => match after_token(expected, kind) {
            VarTaken::Goes(_) | VarTaken::Ends => true,
            VarTaken::Stops => false,
        },
        VarExpected::Name => match kind {
            Kind::Var(_) => true,
            _ => false,
        },
    }
}

// The name of a unit parameter.
fn take_name(alloc: Global, vars: &mut RawVars, token: &mut Token) -> Result<VarTaken, AllocError>
    ensures taken { IfOk result (λ t. (o : VarOwner) →
        var_state o (map var_syntax vars.new.items.items) t
        ≡ take_expected (VarName o (map var_syntax vars.old.items.items)) (expr_token token.old.kind) token.old.start) }
    ensures kept { BeginsAlike token.new token.old }
{
    let at = token.start;
    match &mut token.kind {
        Kind::Var(letters) => {
            let name = name_of(letters.take(alloc));
            vars.items.push(RawVar { at, name })?;
            Ok(VarTaken::Goes(VarExpected::Token(FixedVarToken::End)))
        }
        _ => Ok(VarTaken::Stops),
    }
}

/// One token among unit parameters. It still begins a declaration as it did, though its letters may be gone.
pub fn take_var(
    alloc: Global,
    vars: &mut RawVars,
    expected: VarExpected,
    token: &mut Token,
) -> Result<VarTaken, AllocError>
    ensures taken { IfOk result (λ t. (o : VarOwner) →
        var_state o (map var_syntax vars.new.items.items) t
        ≡ take_expected (view_var o (map var_syntax vars.old.items.items) expected) (expr_token token.old.kind)
        token.old.start) }
    ensures kept { BeginsAlike token.new token.old }
{
    match expected {
        VarExpected::Token(expected) => Ok(after_token(expected, &token.kind)),
        VarExpected::Name => take_name(alloc, vars, token),
    }
}
