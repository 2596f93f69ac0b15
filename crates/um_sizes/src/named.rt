//! Names as they are written.
ghost use Rattle.std.specs.Prelude.{◌≡◌};
ghost use Rattle.std.specs.List.{list_all};
ghost use Rattle.std.specs.Str.{chars};
ghost use Rattle.unicode_ident.specs.Ident.{is_xid_continue};
ghost use Rattle.um_syntax.specs.Lexeme.{begins};
ghost use Rattle.um_tree.specs.Formed.{starts_name};
ghost use Rattle.um_sizes.specs.NameTexts.{is_identifier, is_name, is_reserved};

/// Whether the text is a name: an identifier that is neither a reserved word nor `_` alone. Takes no memory.
///
/// Identifiers are those of Unicode Standard Annex 31, and `_` may start one.
pub fn is_name(text: &str) -> bool
    ensures { result ≡ is_name text.now }
{
    is_identifier(text) && text != "_" && !is_reserved(text)
}

#[tactic(auto, using(crate::proofs::NameTests::begins_and_continues))]
fn is_identifier(text: &str) -> bool
    ensures { result ≡ is_identifier (chars text.now) }
{
    starts_as_name(text) && continues_as_name(text)
}

#[tactic(auto, using(crate::proofs::NameTests::first_begins, crate::proofs::NameTests::none_begins))]
fn starts_as_name(text: &str) -> bool
    ensures { result ≡ begins starts_name (chars text.now) }
{
    match text.chars().next() {
        Some(c) => starts_name(c),
        None => false,
    }
}

fn continues_as_name(text: &str) -> bool
    ensures { result ≡ list_all is_xid_continue (chars text.now) }
{
    text.chars().all(|c| unicode_ident::is_xid_continue(c))
}

fn starts_name(c: char) -> bool
    ensures { result ≡ starts_name c }
{
    c == '_' || unicode_ident::is_xid_start(c)
}

fn is_reserved(text: &str) -> bool
    ensures { result ≡ is_reserved text.now }
{
    matches!(
        text,
        "let"
            | "rec"
            | "in"
            | "if"
            | "then"
            | "else"
            | "match"
            | "with"
            | "type"
            | "true"
            | "false"
            | "not"
            | "num"
            | "bool"
            | "list"
            | "Measure"
            | "pown"
    )
}
