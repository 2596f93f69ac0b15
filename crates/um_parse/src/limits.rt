// The limits of a program besides its height.
ghost use Rattle.std.specs.Prelude.{◌≡◌, ◌<◌, ◌≤◌, ◌^◌, ◌∷◌, [], map, nat_lt, true};
ghost use Rattle.um_tree.specs.RawTree.{var_syntax, field_decl_syntax, record_decl_syntax, function_syntax};
ghost use Rattle.um_tree.specs.RawTree.{whole_function_syntax, decl_syntax, expr_syntax};
ghost use Rattle.um_tree.specs.Heights.{expr_nodes};
ghost use Rattle.um_parse.specs.ProgramLimits.{most_nodes, passed_limit, functions_in, name_place};
ghost use Rattle.um_parse.specs.ProgramNodes.{decl_nodes, program_nodes};
ghost use Rattle.um_parse.specs.Spaced.{Spaced, first_place};
ghost use Rattle.um_parse.specs.LimitsPassed.{LimitPassed};

use um_tree::{RawDecl, RawExpr, RawFieldDecls, RawFunction, RawVars, nodes};
use um_types::LimitKind;

// The greatest numbers of functions, parameters, fields, unit parameters and nodes.
const MOST_FUNCTIONS: usize = 2000;

const MOST_PARAMETERS: usize = 16;

const MOST_FIELDS: usize = 32;

const MOST_UNIT_PARAMETERS: usize = 4;

const MOST_NODES: u32 = 20000;

/// The first limit that a program passes, and the place of the declaration's name.
#[derive(Clone, Copy)]
pub(crate) struct Passed {
    pub kind: LimitKind,
    pub at: u32,
}

// The first limit that a record passes.
fn record_limit(vars: &RawVars, fields: &RawFieldDecls) -> Option<LimitKind>
    ensures { result ≡ passed_limit 0
        (record_decl_syntax 0 [] (map var_syntax vars.now.items.items) (map field_decl_syntax fields.now.items.items)) }
{
    if fields.items.len() > MOST_FIELDS {
        Some(LimitKind::Fields)
    } else if vars.items.len() > MOST_UNIT_PARAMETERS {
        Some(LimitKind::UnitParameters)
    } else {
        None
    }
}

// Whether a body of at most `room` nodes has too many. Most have no room for so many, and aren't walked.
fn has_many_nodes(body: &RawExpr, room: u32) -> bool
    requires room { expr_nodes (expr_syntax body.now) ≤ room }
    ensures { result ≡ nat_lt most_nodes (expr_nodes (expr_syntax body.now)) }
{
    MOST_NODES < room && MOST_NODES < nodes(body)
}

// The first limit that a function passes after so many functions. Its body has at most `room` nodes.
fn function_limit(before: usize, function: &RawFunction, room: u32) -> Option<LimitKind>
    requires room { expr_nodes (expr_syntax function.now.body) ≤ room }
    ensures { result ≡ passed_limit before (function_syntax (whole_function_syntax function.now)) }
{
    if before >= MOST_FUNCTIONS {
        Some(LimitKind::Functions)
    } else if function.params.items.len() > MOST_PARAMETERS {
        Some(LimitKind::Parameters)
    } else if function.units.items.len() > MOST_UNIT_PARAMETERS {
        Some(LimitKind::UnitParameters)
    } else if has_many_nodes(&function.body, room) {
        Some(LimitKind::Nodes)
    } else {
        None
    }
}

// The first limit that a declaration passes after so many functions. Its body, if any, has at most `room` nodes.
fn passed_limit(before: usize, decl: &RawDecl, room: u32) -> Option<LimitKind>
    requires room { decl_nodes (decl_syntax decl.now) ≤ room }
    ensures { result ≡ passed_limit before (decl_syntax decl.now) }
{
    match decl {
        RawDecl::Base(_, _) | RawDecl::Short(_, _, _) => None,
        RawDecl::Record(_, _, vars, fields) => record_limit(vars, fields),
        RawDecl::Function(function) => function_limit(before, function, room),
    }
}

// The place of a declaration's name.
fn name_place(decl: &RawDecl) -> u32
    ensures { result ≡ name_place (decl_syntax decl.now) }
{
    match decl {
        RawDecl::Base(at, _) | RawDecl::Short(at, _, _) | RawDecl::Record(at, _, _, _) => *at,
        RawDecl::Function(function) => function.at,
    }
}

// The number of functions in a declaration.
fn functions_in(decl: &RawDecl) -> usize
    ensures { result ≡ functions_in (decl_syntax decl.now) }
{
    match decl {
        RawDecl::Base(_, _) | RawDecl::Short(_, _, _) | RawDecl::Record(_, _, _, _) => 0,
        RawDecl::Function(_) => 1,
    }
}

// The place of the name of the first of these declarations, or the end of the text.
fn first_place(decls: &[RawDecl], end: u32) -> u32
    ensures { result ≡ first_place (map decl_syntax decls.now) end }
{
    match decls.first() {
        Some(decl) => name_place(decl),
        None => end,
    }
}

// At most so many nodes a declaration has before these others: each has a token of its own, and if it is known that
// tokens begin at places that rise, there are no more than places.
fn room_of(decl: &RawDecl, later: &[RawDecl], end: u32, spaced: bool) -> u32
    requires few { decl_nodes (decl_syntax decl.now) < 2 ^ 32 }
    requires spaced { spaced ≡ true → Spaced (decl_syntax decl.now ∷ map decl_syntax later.now) end }
    ensures { decl_nodes (decl_syntax decl.now) ≤ result }
{
    if spaced {
        first_place(later, end).saturating_sub(name_place(decl))
    } else {
        u32::MAX
    }
}

/// The first limit that is passed by the first declaration that passes one. `end` is the length of the text, and
/// `spaced` says whether it is known that each function has room for its nodes in it.
pub fn first_passed(decls: &[RawDecl], end: u32, spaced: bool) -> Option<Passed>
    requires few { program_nodes (map decl_syntax decls.now) < 2 ^ 32 }
    requires spaced { spaced ≡ true → Spaced (map decl_syntax decls.now) end }
    ensures { LimitPassed (map decl_syntax decls.now) result }
{
    let mut before: usize = 0;
    let mut later = decls;
    while let Some((decl, rest)) = later.split_first() {
        let room = room_of(decl, rest, end, spaced);
        if let Some(kind) = passed_limit(before, decl, room) {
            let at = name_place(decl);
            return Some(Passed { kind, at });
        }
        before += functions_in(decl);
        later = rest;
    }
    None
}
