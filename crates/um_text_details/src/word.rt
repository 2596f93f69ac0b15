//! The words that may be told as expected.
ghost use Rattle.std.specs.Prelude.{◌≡◌};
ghost use Rattle.um_text_details.specs.Words.{is_operator, operators, words};

use um_syntax::{Keyword, Symbol};

/// A word of what is expected.
#[derive(Clone, Copy)]
pub enum Word {
    Name,
    Variable,
    Hole,
    /// Any number.
    Number,
    /// A whole number in digits.
    Whole,
    /// The digit 1.
    One,
    Keyword(Keyword),
    /// Any of `< <= = <> > + - * / :: || &&`.
    Operator,
    Sign(Symbol),
    End,
}

static ALL_WORDS: [Word; 51] = [
    Word::Name,
    Word::Variable,
    Word::Hole,
    Word::Number,
    Word::Whole,
    Word::One,
    Word::Keyword(Keyword::Let),
    Word::Keyword(Keyword::Rec),
    Word::Keyword(Keyword::In),
    Word::Keyword(Keyword::If),
    Word::Keyword(Keyword::Then),
    Word::Keyword(Keyword::Else),
    Word::Keyword(Keyword::Match),
    Word::Keyword(Keyword::With),
    Word::Keyword(Keyword::Type),
    Word::Keyword(Keyword::True),
    Word::Keyword(Keyword::False),
    Word::Keyword(Keyword::Not),
    Word::Keyword(Keyword::Num),
    Word::Keyword(Keyword::Bool),
    Word::Keyword(Keyword::List),
    Word::Keyword(Keyword::Measure),
    Word::Keyword(Keyword::Pown),
    Word::Operator,
    Word::Sign(Symbol::LeftParen),
    Word::Sign(Symbol::RightParen),
    Word::Sign(Symbol::LeftBracket),
    Word::Sign(Symbol::RightBracket),
    Word::Sign(Symbol::LeftBrace),
    Word::Sign(Symbol::RightBrace),
    Word::Sign(Symbol::AttributeOpen),
    Word::Sign(Symbol::Less),
    Word::Sign(Symbol::Greater),
    Word::Sign(Symbol::Equal),
    Word::Sign(Symbol::LessEqual),
    Word::Sign(Symbol::NotEqual),
    Word::Sign(Symbol::Plus),
    Word::Sign(Symbol::Minus),
    Word::Sign(Symbol::Star),
    Word::Sign(Symbol::Slash),
    Word::Sign(Symbol::Caret),
    Word::Sign(Symbol::Semicolon),
    Word::Sign(Symbol::Colon),
    Word::Sign(Symbol::ColonColon),
    Word::Sign(Symbol::Comma),
    Word::Sign(Symbol::Dot),
    Word::Sign(Symbol::Bar),
    Word::Sign(Symbol::BarBar),
    Word::Sign(Symbol::AndAnd),
    Word::Sign(Symbol::Arrow),
    Word::End,
];

static ALL_OPERATORS: [Symbol; 12] = [
    Symbol::Less,
    Symbol::Greater,
    Symbol::Equal,
    Symbol::LessEqual,
    Symbol::NotEqual,
    Symbol::Plus,
    Symbol::Minus,
    Symbol::Star,
    Symbol::Slash,
    Symbol::ColonColon,
    Symbol::BarBar,
    Symbol::AndAnd,
];

/// All words, in the order in which they are told.
pub(crate) fn words() -> &'static [Word]
    ensures { result.now ≡ words }
{
    &ALL_WORDS
}

/// The signs that one word tells if all of them could stand.
pub(crate) fn operators() -> &'static [Symbol]
    ensures { result.now ≡ operators }
{
    &ALL_OPERATORS
}

/// Whether the sign is an operator.
pub(crate) fn is_operator(sign: Symbol) -> bool
    ensures { result ≡ is_operator sign }
{
    match sign {
        Symbol::Less
        | Symbol::Greater
        | Symbol::Equal
        | Symbol::LessEqual
        | Symbol::NotEqual
        | Symbol::Plus
        | Symbol::Minus
        | Symbol::Star
        | Symbol::Slash
        | Symbol::ColonColon
        | Symbol::BarBar
        | Symbol::AndAnd => true,
        _ => false,
    }
}
