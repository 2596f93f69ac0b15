//! The words that could stand at a place.
ghost use Rattle.std.specs.Prelude.{◌≡◌, ◌≤◌, ◌<◌, ◌&&◌, ◌++◌, ◌∷◌, [], ℤ, cond, length, option_copied, IfOk, OnOk};
ghost use Rattle.std.specs.Bool.{Decides};
ghost use Rattle.um_frac.specs.Fraction.{reduced};
ghost use Rattle.um_syntax.specs.Lexing.{is_power_place, is_caret, is_minus};
ghost use Rattle.um_reader.specs.Texts.{BeginsTextWithin};
ghost use Rattle.um_unit_texts.specs.UnitStops.{greatest_height};
ghost use Rattle.um_parse.specs.DeclGrammar.{IsProgram};
ghost use Rattle.um_parse.specs.ProgramHeights.{program_height};
ghost use Rattle.um_text_details.specs.Expected.{AreExpected, IsExpected, NumberCanStand, AllOperatorsStand};
ghost use Rattle.um_text_details.specs.declared.word.Word.TheVariants as word;
ghost use Rattle.um_text_details.specs.Trials.{IsTried, number_told, one_told, whole_told};
ghost use Rattle.um_text_details.specs.Words.{is_operator};

use crate::trial::Trial;
use crate::word::{Word, is_operator, operators, words};
use std::alloc::{AllocError, Global};
use um_frac::Frac;
use um_parse::Prefix;
use um_syntax::{Kind, Letters, Symbol, Token};

/// What is tried first: whether a number at the place is a power, and whether 5/2, 2, the digit 1 and all operators can
/// stand there.
#[derive(Clone, Copy)]
struct Tried {
    power: bool,
    fraction: bool,
    two: bool,
    one: bool,
    operators: bool,
}

/// The words that could stand at a place, in order: in that of a refused token, or at the end.
///
/// `before` are the tokens before the place, which begin a program within the heights, `at` is where it is, and `glued`
/// says whether a token there is glued; the end isn't. A word is told exactly if its token at the place goes on
/// beginning a program. The tokens are read once. Want of memory is the one error.
///
/// The words are those after viable prefixes, as in Knuth, On the Translation of Languages from Left to Right.
pub fn expected(
    alloc: Global,
    before: Vec<Token>,
    at: u32,
    glued: bool,
) -> Result<Vec<Word>, AllocError>
    requires begins { BeginsTextWithin IsProgram program_height greatest_height before.items }
    requires short { length before.items ≤ at }
    requires place { at < 4294967295 }
    ensures expected { IfOk result (λ told.
        AreExpected (record { before = before.items; at = at; glued = glued }) told.items) }
{
    match Prefix::read(alloc, &before) {
        Ok(prefix) => {
            let trial = Trial::new(before, prefix, at, glued);
            let told = told_at(alloc, &trial);
            trial.discard();
            told
        }
        Err(error) => {
            drop(before);
            Err(error)
        }
    }
}

/// The words that are told.
fn told_at(alloc: Global, trial: &Trial) -> Result<Vec<Word>, AllocError>
    ensures { IfOk result (λ told. AreExpected trial.now told.items) }
{
    let tried = try_first(trial);
    let mut told = Vec::new(alloc);
    for word in words() {
        let stands = is_told(alloc, trial, tried, *word)?;
        push_if(&mut told, stands, *word)?;
    }
    Ok(told)
}

/// Adds the word, if it is told.
fn push_if(told: &mut Vec<Word>, stands: bool, word: Word) -> Result<(), AllocError>
    ensures { OnOk result (told.new.items ≡ cond stands (told.old.items ++ word ∷ []) told.old.items) }
{
    if stands {
        told.push(word)?;
    }
    Ok(())
}

/// What is tried before any word is told.
fn try_first(trial: &Trial) -> Tried
    ensures { IsTried trial.now result }
{
    Tried {
        power: is_power_place(trial.before()),
        fraction: takes_number(trial, Frac::of_parts(5, 2), false, false),
        two: takes_number(trial, Frac::of_parts(2, 1), true, false),
        one: takes_number(trial, Frac::of_parts(1, 1), true, true),
        operators: takes_operators(trial),
    }
}

/// Whether a number after the tokens is a power.
fn is_power_place(tokens: &[Token]) -> bool
    ensures { result ≡ is_power_place tokens.now }
{
    is_caret(tokens.last())
        || (is_minus(tokens.last()) && is_caret(tokens.get(tokens.len().saturating_sub(2))))
}

/// Whether the token is `^`.
fn is_caret(token: Option<&Token>) -> bool
    ensures { result ≡ is_caret (option_copied token.entry) }
{
    match token {
        Some(
            Token {
                kind: Kind::Sign(Symbol::Caret),
                ..
            },
        ) => true,
        _ => false,
    }
}

/// Whether the token is `-`.
fn is_minus(token: Option<&Token>) -> bool
    ensures { result ≡ is_minus (option_copied token.entry) }
{
    match token {
        Some(
            Token {
                kind: Kind::Sign(Symbol::Minus),
                ..
            },
        ) => true,
        _ => false,
    }
}

/// Whether a number of this value can stand at the place: in digits alone or not, and as the one digit 1 or not.
fn takes_number(trial: &Trial, value: Option<Frac>, digits: bool, one: bool) -> bool
    ensures { (n d : ℤ) → value ≡ reduced n d
        → Decides result (NumberCanStand trial.now n d digits one) }
{
    match value {
        Some(number) => trial.takes(&Kind::Number {
            value: number,
            digits,
            one,
        }),
        None => false,
    }
}

/// Whether each operator can stand at the place.
fn takes_operators(trial: &Trial) -> bool
    ensures { Decides result (AllOperatorsStand trial.now) }
{
    for operator in operators() {
        if !trial.takes(&Kind::Sign(*operator)) {
            return false;
        }
    }
    true
}

/// Whether the word is told, after what was tried first.
fn is_told(alloc: Global, trial: &Trial, tried: Tried, word: Word) -> Result<bool, AllocError>
    requires tried { IsTried trial.now tried }
    ensures { IfOk result (λ told. Decides told (IsExpected trial.now word)) }
{
    match word {
        Word::Name => takes_name(alloc, trial),
        Word::Variable => takes_variable(alloc, trial),
        Word::Hole => Ok(trial.takes(&Kind::Hole)),
        Word::Number => Ok(is_number_told(tried)),
        Word::Whole => Ok(is_whole_told(tried)),
        Word::One => Ok(is_one_told(tried)),
        Word::Keyword(keyword) => Ok(trial.takes(&Kind::Word(keyword))),
        Word::Operator => Ok(tried.operators),
        Word::Sign(sign) => Ok(is_sign_told(trial, tried, sign)),
        Word::End => Ok(trial.is_whole()),
    }
}

/// Whether a name can stand at the place.
fn takes_name(alloc: Global, trial: &Trial) -> Result<bool, AllocError>
    ensures { IfOk result (λ told. Decides told (IsExpected trial.now word.Name)) }
{
    let letters = Letters::from_slice(alloc, b"a")?;
    let kind = Kind::Name(letters);
    let stands = trial.takes(&kind);
    drop(kind);
    Ok(stands)
}

/// Whether a variable can stand at the place.
fn takes_variable(alloc: Global, trial: &Trial) -> Result<bool, AllocError>
    ensures { IfOk result (λ told. Decides told (IsExpected trial.now word.Variable)) }
{
    let letters = Letters::from_slice(alloc, b"a")?;
    let kind = Kind::Var(letters);
    let stands = trial.takes(&kind);
    drop(kind);
    Ok(stands)
}

/// Whether any number is told.
fn is_number_told(tried: Tried) -> bool
    ensures { result ≡ number_told tried }
{
    !tried.power && tried.fraction
}

/// Whether a whole number is told.
fn is_whole_told(tried: Tried) -> bool
    ensures { result ≡ whole_told tried }
{
    (tried.power || !tried.fraction) && tried.two
}

/// Whether the digit 1 is told.
fn is_one_told(tried: Tried) -> bool
    ensures { result ≡ one_told tried }
{
    !tried.power && !tried.fraction && !tried.two && tried.one
}

/// Whether the sign is told by itself.
fn is_sign_told(trial: &Trial, tried: Tried, sign: Symbol) -> bool
    requires tried { IsTried trial.now tried }
    ensures { Decides result (IsExpected trial.now (word.Sign sign)) }
{
    if is_among_operators(tried.operators, sign) {
        return false;
    }
    trial.takes(&Kind::Sign(sign))
}

/// Whether the sign is an operator and all operators stand, so that they are told in one word.
fn is_among_operators(all: bool, sign: Symbol) -> bool
    ensures { result ≡ all && is_operator sign }
{
    all && is_operator(sign)
}
