// What a token is to the tokens beside it.
ghost use Rattle.std.specs.Prelude.{◌≡◌};
ghost use Rattle.um_tidy.specs.Stands.{apart, after, before, between, start, has_ended, may_begin, in_unit};
ghost use Rattle.um_tidy.specs.Stands.{in_attribute, in_angle, after_measure_word, after_bound, opens_units};
ghost use Rattle.um_tidy.specs.Stands.{name_stand, hole_stand, let_stand, type_stand, keyword_stand, bracket_stand};
ghost use Rattle.um_tidy.specs.Stands.{attribute_stand, less_stand, greater_stand, equal_stand, minus_stand};
ghost use Rattle.um_tidy.specs.Stands.{star_stand, slash_stand, colon_stand, symbol_stand, kind_stand, stand_of};

use um_syntax::{Keyword, Kind, Symbol, Token};

/// What the next token may be.
#[derive(Clone, Copy)]
pub enum Next {
    /// The first of the text.
    First,
    /// One that begins an operand.
    Operand,
    /// One after an operand.
    Ended,
    /// One after a number, which a `<` directly after it gives a unit.
    Number,
    /// One after a name that units may follow: a type's or a function's own.
    Head,
    /// One after the name of a measure that is declared.
    Measure,
    /// One after a name or `_` that may be a parameter's or a field's.
    Bound,
    /// A name that units may follow, or the beginning of a type.
    Heads,
    /// The name of a measure that is declared.
    Measures,
    /// The name of a parameter or a field, or the beginning of an operand.
    Binds,
    /// One after a `>` that compares.
    Greater,
    /// One after the word `Measure`.
    MeasureWord,
}

/// What a token stands in.
#[derive(Clone, Copy)]
pub enum Within {
    /// An expression, a type or the head of a declaration.
    Plain,
    /// The attribute of a declaration.
    Attribute,
    /// Units between `<` and `>`.
    Angle,
    /// The unit of an abbreviation.
    Unit,
}

/// What a token is to the tokens beside it.
#[derive(Clone, Copy)]
pub(crate) struct Stand {
    /// It stands directly after the token before it.
    pub after: bool,
    /// It stands directly before the next token.
    pub before: bool,
    /// It begins a declaration.
    pub begins: bool,
    pub next: Next,
    pub within: Within,
}

/// Where no token stands before.
pub fn start() -> Stand
    ensures { result ≡ start }
{
    apart(Next::First, Within::Plain)
}

/// What a token is after what stands before it.
pub fn stand_of(last: Stand, token: &Token) -> Stand
    ensures { result ≡ stand_of last token.now }
{
    kind_stand(last.next, last.within, token.glued, &token.kind)
}

fn kind_stand(next: Next, within: Within, glued: bool, kind: &Kind) -> Stand
    ensures { result ≡ kind_stand next within glued kind.now }
{
    match kind {
        Kind::Name(_) => name_stand(next, within),
        Kind::Var(_) => apart(Next::Ended, within),
        Kind::Number { .. } => apart(Next::Number, within),
        Kind::Word(keyword) => keyword_stand(next, within, *keyword),
        Kind::Hole => hole_stand(next, within),
        Kind::Sign(symbol) => symbol_stand(next, within, glued, *symbol),
    }
}

fn keyword_stand(next: Next, within: Within, keyword: Keyword) -> Stand
    ensures { result ≡ keyword_stand next within keyword }
{
    match keyword {
        Keyword::Let => let_stand(next),
        Keyword::Rec => apart(Next::Heads, within),
        Keyword::Type => type_stand(within),
        Keyword::Num => apart(Next::Head, within),
        Keyword::Bool => apart(Next::Ended, within),
        Keyword::List => apart(Next::Ended, within),
        Keyword::True => apart(Next::Ended, within),
        Keyword::False => apart(Next::Ended, within),
        Keyword::Measure => apart(Next::MeasureWord, within),
        _ => apart(Next::Operand, within),
    }
}

fn symbol_stand(next: Next, within: Within, glued: bool, symbol: Symbol) -> Stand
    ensures { result ≡ symbol_stand next within glued symbol }
{
    match symbol {
        Symbol::LeftParen => bracket_stand(next, within),
        Symbol::RightParen => after(Next::Ended, within),
        Symbol::LeftBracket => before(Next::Operand, within),
        Symbol::RightBracket => after(Next::Ended, within),
        Symbol::LeftBrace => apart(Next::Binds, within),
        Symbol::RightBrace => apart(Next::Ended, within),
        Symbol::AttributeOpen => attribute_stand(next, within),
        Symbol::Less => less_stand(opens_units(next, glued), within),
        Symbol::Greater => greater_stand(next, within),
        Symbol::Equal => equal_stand(next, within),
        Symbol::Minus => minus_stand(next, within),
        Symbol::Star => star_stand(within),
        Symbol::Slash => slash_stand(next, within),
        Symbol::Caret => between(Next::Operand, within),
        Symbol::Dot => between(Next::Operand, within),
        Symbol::Semicolon => after(Next::Binds, within),
        Symbol::Comma => after(Next::Operand, within),
        Symbol::Colon => colon_stand(next, within),
        _ => apart(Next::Operand, within),
    }
}

fn name_stand(next: Next, within: Within) -> Stand
    ensures { result ≡ name_stand next within }
{
    match next {
        Next::Heads => apart(Next::Head, within),
        Next::Measures => apart(Next::Measure, within),
        Next::Binds => apart(Next::Bound, within),
        _ => apart(Next::Ended, within),
    }
}

fn hole_stand(next: Next, within: Within) -> Stand
    ensures { result ≡ hole_stand next within }
{
    match next {
        Next::Binds => apart(Next::Bound, within),
        _ => apart(Next::Ended, within),
    }
}

fn let_stand(next: Next) -> Stand
    ensures { result ≡ let_stand next }
{
    Stand {
        begins: may_begin(next),
        ..apart(Next::Heads, Within::Plain)
    }
}

fn type_stand(within: Within) -> Stand
    ensures { result ≡ type_stand within }
{
    let next = match within {
        Within::Attribute => Next::Measures,
        _ => Next::Heads,
    };
    Stand {
        begins: true,
        ..apart(next, Within::Plain)
    }
}

fn bracket_stand(next: Next, within: Within) -> Stand
    ensures { result ≡ bracket_stand next within }
{
    match next {
        Next::Heads => before(Next::Heads, within),
        _ => before(Next::Binds, within),
    }
}

fn attribute_stand(next: Next, within: Within) -> Stand
    ensures { result ≡ attribute_stand next within }
{
    let begins = may_begin(next);
    let within = if begins { Within::Attribute } else { within };
    Stand {
        begins,
        ..before(Next::Operand, within)
    }
}

fn less_stand(opens: bool, within: Within) -> Stand
    ensures { result ≡ less_stand opens within }
{
    if opens {
        between(Next::Operand, Within::Angle)
    } else {
        apart(Next::Operand, within)
    }
}

fn greater_stand(next: Next, within: Within) -> Stand
    ensures { result ≡ greater_stand next within }
{
    if matches!(next, Next::MeasureWord) {
        after(Next::Ended, within)
    } else if matches!(within, Within::Angle) {
        after(Next::Ended, Within::Plain)
    } else {
        apart(Next::Greater, within)
    }
}

fn equal_stand(next: Next, within: Within) -> Stand
    ensures { result ≡ equal_stand next within }
{
    match next {
        Next::Greater => after(Next::Operand, within),
        Next::Measure => apart(Next::Operand, Within::Unit),
        _ => apart(Next::Operand, within),
    }
}

fn minus_stand(next: Next, within: Within) -> Stand
    ensures { result ≡ minus_stand next within }
{
    if has_ended(next) {
        apart(Next::Operand, within)
    } else {
        before(Next::Operand, within)
    }
}

fn star_stand(within: Within) -> Stand
    ensures { result ≡ star_stand within }
{
    if in_unit(within) {
        between(Next::Operand, within)
    } else {
        apart(Next::Operand, within)
    }
}

fn slash_stand(next: Next, within: Within) -> Stand
    ensures { result ≡ slash_stand next within }
{
    if !in_unit(within) {
        apart(Next::Operand, within)
    } else if has_ended(next) {
        between(Next::Operand, within)
    } else {
        before(Next::Operand, within)
    }
}

fn colon_stand(next: Next, within: Within) -> Stand
    ensures { result ≡ colon_stand next within }
{
    if matches!(next, Next::Bound) {
        after(Next::Heads, within)
    } else {
        apart(Next::Heads, within)
    }
}

/// Whether a `<` opens units.
fn opens_units(next: Next, glued: bool) -> bool
    ensures { result ≡ opens_units next glued }
{
    match next {
        Next::Head => true,
        Next::Number => glued,
        _ => false,
    }
}

/// Whether an operand or a declaration may have ended.
fn has_ended(next: Next) -> bool
    ensures { result ≡ has_ended next }
{
    matches!(
        next,
        Next::Ended | Next::Number | Next::Head | Next::Measure | Next::Bound
    )
}

/// Whether a declaration may begin.
fn may_begin(next: Next) -> bool
    ensures { result ≡ may_begin next }
{
    match next {
        Next::First => true,
        _ => has_ended(next),
    }
}

fn in_unit(within: Within) -> bool
    ensures { result ≡ in_unit within }
{
    matches!(within, Within::Angle | Within::Unit)
}

fn apart(next: Next, within: Within) -> Stand
    ensures { result ≡ apart next within }
{
    Stand {
        after: false,
        before: false,
        begins: false,
        next,
        within,
    }
}

fn after(next: Next, within: Within) -> Stand
    ensures { result ≡ after next within }
{
    Stand {
        after: true,
        ..apart(next, within)
    }
}

fn before(next: Next, within: Within) -> Stand
    ensures { result ≡ before next within }
{
    Stand {
        before: true,
        ..apart(next, within)
    }
}

fn between(next: Next, within: Within) -> Stand
    ensures { result ≡ between next within }
{
    Stand {
        after: true,
        ..before(next, within)
    }
}
