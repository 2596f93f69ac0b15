//! The reserved words and the symbols of the language, with the table of their texts.
ghost use Rattle.std.specs.Prelude.{◌≡◌, ◌==◌, ◌&&◌};
ghost use Rattle.um_vocabulary.specs.Tables.{keyword_of, keywords, found_keyword, of_len, single_symbol, double_symbol};
ghost use Rattle.um_vocabulary.specs.Tables.{front_symbol};

/// A reserved word.
#[derive(Clone, Copy)]
pub enum Keyword {
    Let,
    Rec,
    In,
    If,
    Then,
    Else,
    Match,
    With,
    Type,
    True,
    False,
    Not,
    Num,
    Bool,
    List,
    Measure,
    Pown,
}

/// A symbol. The docstring of each is its text.
#[derive(Clone, Copy)]
pub enum Symbol {
    /// `(`
    LeftParen,
    /// `)`
    RightParen,
    /// `[`
    LeftBracket,
    /// `]`
    RightBracket,
    /// `{`
    LeftBrace,
    /// `}`
    RightBrace,
    /// `[<`
    AttributeOpen,
    /// `<`
    Less,
    /// `>`
    Greater,
    /// `=`
    Equal,
    /// `<=`
    LessEqual,
    /// `<>`
    NotEqual,
    /// `+`
    Plus,
    /// `-`
    Minus,
    /// `*`
    Star,
    /// `/`
    Slash,
    /// `^`
    Caret,
    /// `;`
    Semicolon,
    /// `:`
    Colon,
    /// `::`
    ColonColon,
    /// `,`
    Comma,
    /// `.`
    Dot,
    /// `|`
    Bar,
    /// `||`
    BarBar,
    /// `&&`
    AndAnd,
    /// `->`
    Arrow,
}

/// The reserved word with these letters. Few reserved words have the same number of letters.
#[inline(always)]
pub fn keyword_of(letters: &str) -> Option<Keyword>
    ensures { result ≡ keyword_of letters.now }
{
    let len = letters.len();
    if len == 2 {
        of_two(letters)
    } else if len == 3 {
        of_three(letters)
    } else if len == 4 {
        of_four(letters)
    } else if len == 5 {
        of_five(letters)
    } else if len == 7 {
        of_seven(letters)
    } else {
        None
    }
}

fn of_two(letters: &str) -> Option<Keyword>
    ensures { result ≡ found_keyword letters.now (of_len 2 keywords) }
{
    match letters {
        "in" => Some(Keyword::In),
        "if" => Some(Keyword::If),
        _ => None,
    }
}

fn of_three(letters: &str) -> Option<Keyword>
    ensures { result ≡ found_keyword letters.now (of_len 3 keywords) }
{
    match letters {
        "let" => Some(Keyword::Let),
        "rec" => Some(Keyword::Rec),
        "not" => Some(Keyword::Not),
        "num" => Some(Keyword::Num),
        _ => None,
    }
}

fn of_four(letters: &str) -> Option<Keyword>
    ensures { result ≡ found_keyword letters.now (of_len 4 keywords) }
{
    match letters {
        "then" => Some(Keyword::Then),
        "else" => Some(Keyword::Else),
        "with" => Some(Keyword::With),
        "type" => Some(Keyword::Type),
        "true" => Some(Keyword::True),
        "bool" => Some(Keyword::Bool),
        "list" => Some(Keyword::List),
        "pown" => Some(Keyword::Pown),
        _ => None,
    }
}

fn of_five(letters: &str) -> Option<Keyword>
    ensures { result ≡ found_keyword letters.now (of_len 5 keywords) }
{
    match letters {
        "match" => Some(Keyword::Match),
        "false" => Some(Keyword::False),
        _ => None,
    }
}

fn of_seven(letters: &str) -> Option<Keyword>
    ensures { result ≡ found_keyword letters.now (of_len 7 keywords) }
{
    match letters {
        "Measure" => Some(Keyword::Measure),
        _ => None,
    }
}

/// The symbol of one character.
#[inline(always)]
pub fn single_symbol(c: char) -> Option<Symbol>
    ensures { result ≡ single_symbol c }
{
    match c {
        '(' => Some(Symbol::LeftParen),
        ')' => Some(Symbol::RightParen),
        '[' => Some(Symbol::LeftBracket),
        ']' => Some(Symbol::RightBracket),
        '{' => Some(Symbol::LeftBrace),
        '}' => Some(Symbol::RightBrace),
        '<' => Some(Symbol::Less),
        '>' => Some(Symbol::Greater),
        '=' => Some(Symbol::Equal),
        '+' => Some(Symbol::Plus),
        '-' => Some(Symbol::Minus),
        '*' => Some(Symbol::Star),
        '/' => Some(Symbol::Slash),
        '^' => Some(Symbol::Caret),
        ';' => Some(Symbol::Semicolon),
        ':' => Some(Symbol::Colon),
        ',' => Some(Symbol::Comma),
        '.' => Some(Symbol::Dot),
        '|' => Some(Symbol::Bar),
        _ => None,
    }
}

/// The symbol of two characters.
pub fn double_symbol(a: char, b: char) -> Option<Symbol>
    ensures { result ≡ double_symbol a b }
{
    match (a, b) {
        ('[', '<') => Some(Symbol::AttributeOpen),
        ('<', '=') => Some(Symbol::LessEqual),
        ('<', '>') => Some(Symbol::NotEqual),
        (':', ':') => Some(Symbol::ColonColon),
        ('|', '|') => Some(Symbol::BarBar),
        ('&', '&') => Some(Symbol::AndAnd),
        ('-', '>') => Some(Symbol::Arrow),
        _ => None,
    }
}

/// The symbol that two characters begin with, and how many characters it has. There is none where a comment begins.
#[inline(always)]
pub fn front_symbol(first: char, second: char) -> Option<(Symbol, usize)>
    ensures { result ≡ front_symbol first second }
{
    match (first, second) {
        ('(', _) => Some((Symbol::LeftParen, 1)),
        (')', _) => Some((Symbol::RightParen, 1)),
        ('[', '<') => Some((Symbol::AttributeOpen, 2)),
        ('[', _) => Some((Symbol::LeftBracket, 1)),
        (']', _) => Some((Symbol::RightBracket, 1)),
        ('{', _) => Some((Symbol::LeftBrace, 1)),
        ('}', _) => Some((Symbol::RightBrace, 1)),
        ('<', '=') => Some((Symbol::LessEqual, 2)),
        ('<', '>') => Some((Symbol::NotEqual, 2)),
        ('<', _) => Some((Symbol::Less, 1)),
        ('>', _) => Some((Symbol::Greater, 1)),
        ('=', _) => Some((Symbol::Equal, 1)),
        ('+', _) => Some((Symbol::Plus, 1)),
        ('-', '>') => Some((Symbol::Arrow, 2)),
        ('-', _) => Some((Symbol::Minus, 1)),
        ('*', _) => Some((Symbol::Star, 1)),
        ('/', '/') => None,
        ('/', _) => Some((Symbol::Slash, 1)),
        ('^', _) => Some((Symbol::Caret, 1)),
        (';', _) => Some((Symbol::Semicolon, 1)),
        (':', ':') => Some((Symbol::ColonColon, 2)),
        (':', _) => Some((Symbol::Colon, 1)),
        (',', _) => Some((Symbol::Comma, 1)),
        ('.', _) => Some((Symbol::Dot, 1)),
        ('|', '|') => Some((Symbol::BarBar, 2)),
        ('|', _) => Some((Symbol::Bar, 1)),
        ('&', '&') => Some((Symbol::AndAnd, 2)),
        _ => None,
    }
}

/// Whether the two characters begin a comment.
pub fn are_slashes(a: char, b: char) -> bool
    ensures { result ≡ (a == 47 && b == 47) }
{
    a == '/' && b == '/'
}
