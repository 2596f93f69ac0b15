// What a token is to expressions and declarations.
ghost use Rattle.std.specs.Prelude.{◌≡◌, ◌⊎◌, IfSome, None};
ghost use Rattle.um_syntax.specs.Emptied.{emptied_kind};
ghost use Rattle.um_forms.specs.ExprTokens.{expr_token, keyword_token, symbol_token};
ghost use Rattle.um_forms.specs.ExprSteps.{NoPlainOperator, PlainOperator};

use std::alloc::Global;
use um_frac::Frac;
use um_operands::Infix;
use um_syntax::{Keyword, Kind, Symbol};
use um_tree::{Arith, Name, Sign};
use um_unit_texts::name_of;

/// What a token is to expressions: a name, a unit variable, a number with its value, `true` or `false`, `_`, a sign
/// between two operands, another reserved word, or another sign.
#[derive(Drop)]
pub enum ExprToken {
    Name(Name),
    Variable(Name),
    Number(Frac),
    Truth(bool),
    Hole,
    Operator(Infix),
    Word(Keyword),
    Mark(Symbol),
}

fn of_keyword(keyword: Keyword) -> ExprToken
    ensures { result ≡ keyword_token keyword }
{
    match keyword {
        Keyword::True => ExprToken::Truth(true),
        Keyword::False => ExprToken::Truth(false),
        _ => ExprToken::Word(keyword),
    }
}

/// The reserved word, if it is neither `true` nor `false`.
#[inline(always)]
pub fn plain_word(keyword: Keyword) -> Option<Keyword>
    ensures some { IfSome result (λ same. keyword_token keyword ≡ ExprToken.Word same) }
    ensures none { result ≡ None → (keyword ≡ Keyword.True) ⊎ (keyword ≡ Keyword.False) }
{
    match keyword {
        Keyword::True | Keyword::False => None,
        _ => Some(keyword),
    }
}

/// The operator that a sign is, if what stands directly beside it doesn't matter: it does for `<` and `>`.
#[inline(always)]
pub fn plain_operator(symbol: Symbol) -> Option<Infix>
    ensures some { IfSome result (λ sign. PlainOperator symbol sign) }
    ensures none { result ≡ None → NoPlainOperator symbol }
{
    match symbol {
        Symbol::Plus => Some(Infix::Arith(Arith::Add)),
        Symbol::Minus => Some(Infix::Arith(Arith::Sub)),
        Symbol::Star => Some(Infix::Arith(Arith::Mul)),
        Symbol::Slash => Some(Infix::Arith(Arith::Div)),
        Symbol::Equal => Some(Infix::Compare(Sign::Eq)),
        Symbol::LessEqual => Some(Infix::Compare(Sign::Le)),
        Symbol::NotEqual => Some(Infix::Compare(Sign::Ne)),
        Symbol::ColonColon => Some(Infix::Cons),
        Symbol::BarBar => Some(Infix::Or),
        Symbol::AndAnd => Some(Infix::And),
        _ => None,
    }
}

fn of_symbol(symbol: Symbol) -> ExprToken
    ensures { result ≡ symbol_token symbol }
{
    match symbol {
        Symbol::Less => ExprToken::Operator(Infix::Compare(Sign::Lt)),
        Symbol::Greater => ExprToken::Operator(Infix::Compare(Sign::Gt)),
        _ => match plain_operator(symbol) {
            Some(sign) => ExprToken::Operator(sign),
            None => ExprToken::Mark(symbol),
        },
    }
}

impl ExprToken {
    /// What a token is to expressions. The letters of a name are taken from it, without a copy.
    #[inline(always)]
    pub fn of_kind(alloc: Global, kind: &mut Kind) -> ExprToken
        ensures token { result ≡ expr_token kind.old }
        ensures emptied { kind.new ≡ emptied_kind kind.old }
    {
        match kind {
            Kind::Name(letters) => ExprToken::Name(name_of(letters.take(alloc))),
            Kind::Var(letters) => ExprToken::Variable(name_of(letters.take(alloc))),
            Kind::Number { value, .. } => ExprToken::Number(*value),
            Kind::Word(keyword) => of_keyword(*keyword),
            Kind::Hole => ExprToken::Hole,
            Kind::Sign(symbol) => of_symbol(*symbol),
        }
    }
}
