// The texts of words.
ghost use Rattle.std.specs.Prelude.{◌≡◌};
ghost use Rattle.um_vocabulary.specs.Vocabulary.{keyword_text, symbol_text};
ghost use Rattle.um_text_details.specs.Words.{word_text};
ghost use Rattle.um_text_details.specs.SyntaxDetails.{is_in_word};

use crate::word::Word;
use um_syntax::{Keyword, Symbol};

/// The text of a word.
pub(crate) fn word_text(word: Word) -> &'static str
    ensures { result.now ≡ word_text word }
{
    match word {
        Word::Name => "NAME",
        Word::Variable => "VARIABLE",
        Word::Hole => "_",
        Word::Number => "NUMBER",
        Word::Whole => "WHOLE",
        Word::One => "1",
        Word::Keyword(keyword) => keyword_text(keyword),
        Word::Operator => "OPERATOR",
        Word::Sign(symbol) => symbol_text(symbol),
        Word::End => "end",
    }
}

fn keyword_text(keyword: Keyword) -> &'static str
    ensures { result.now ≡ keyword_text keyword }
{
    match keyword {
        Keyword::Let => "let",
        Keyword::Rec => "rec",
        Keyword::In => "in",
        Keyword::If => "if",
        Keyword::Then => "then",
        Keyword::Else => "else",
        Keyword::Match => "match",
        Keyword::With => "with",
        Keyword::Type => "type",
        Keyword::True => "true",
        Keyword::False => "false",
        Keyword::Not => "not",
        Keyword::Num => "num",
        Keyword::Bool => "bool",
        Keyword::List => "list",
        Keyword::Measure => "Measure",
        Keyword::Pown => "pown",
    }
}

fn symbol_text(symbol: Symbol) -> &'static str
    ensures { result.now ≡ symbol_text symbol }
{
    match symbol {
        Symbol::LeftParen => "(",
        Symbol::RightParen => ")",
        Symbol::LeftBracket => "[",
        Symbol::RightBracket => "]",
        Symbol::LeftBrace => "{",
        Symbol::RightBrace => "}",
        Symbol::AttributeOpen => "[<",
        Symbol::Less => "<",
        Symbol::Greater => ">",
        Symbol::Equal => "=",
        Symbol::LessEqual => "<=",
        Symbol::NotEqual => "<>",
        Symbol::Plus => "+",
        Symbol::Minus => "-",
        Symbol::Star => "*",
        Symbol::Slash => "/",
        Symbol::Caret => "^",
        Symbol::Semicolon => ";",
        Symbol::Colon => ":",
        Symbol::ColonColon => "::",
        Symbol::Comma => ",",
        Symbol::Dot => ".",
        Symbol::Bar => "|",
        Symbol::BarBar => "||",
        Symbol::AndAnd => "&&",
        Symbol::Arrow => "->",
    }
}

/// Whether the word is `in`.
pub(crate) fn is_in_word(word: Word) -> bool
    ensures { result ≡ is_in_word word }
{
    match word {
        Word::Keyword(Keyword::In) => true,
        _ => false,
    }
}
