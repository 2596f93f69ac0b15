// Where one space stands between two tokens of a line.
ghost use Rattle.std.specs.Prelude.{◌≡◌};
ghost use Rattle.um_tidy.specs.Spaces.{goes_on, is_dot, sign_runs_into, begins_lettered, runs_into, is_spaced};

use crate::stand::Stand;
use um_syntax::{Kind, Symbol};

/// Whether a space stands between two tokens, of these kinds and stands.
pub fn is_spaced(first: Stand, kind: &Kind, second: Stand, other: &Kind) -> bool
    ensures { result ≡ is_spaced first kind.now second other.now }
{
    !(first.before || second.after) || runs_into(kind, other)
}

/// Whether two tokens would be read as others without a space.
fn runs_into(kind: &Kind, other: &Kind) -> bool
    ensures { result ≡ runs_into kind.now other.now }
{
    match kind {
        Kind::Sign(symbol) => sign_runs_into(*symbol, other),
        _ => begins_lettered(other),
    }
}

fn sign_runs_into(symbol: Symbol, other: &Kind) -> bool
    ensures { result ≡ sign_runs_into symbol other.now }
{
    match other {
        Kind::Sign(other) => goes_on(symbol, *other),
        Kind::Number { .. } => matches!(symbol, Symbol::Dot),
        _ => false,
    }
}

fn begins_lettered(kind: &Kind) -> bool
    ensures { result ≡ begins_lettered kind.now }
{
    !matches!(kind, Kind::Var(_) | Kind::Sign(_))
}

/// Whether a longer sign or a comment begins with both.
fn goes_on(symbol: Symbol, other: Symbol) -> bool
    ensures { result ≡ goes_on symbol other }
{
    matches!(
        (symbol, other),
        (
            Symbol::LeftBracket,
            Symbol::Less | Symbol::LessEqual | Symbol::NotEqual
        ) | (Symbol::Less, Symbol::Equal | Symbol::Greater)
            | (Symbol::Colon, Symbol::Colon | Symbol::ColonColon)
            | (Symbol::Bar, Symbol::Bar | Symbol::BarBar)
            | (Symbol::Minus, Symbol::Greater)
            | (Symbol::Slash, Symbol::Slash)
    )
}
