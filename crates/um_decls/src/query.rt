// Whether a token would go on at each place of a record or a function. It isn't taken, and nothing changes.
ghost use Rattle.std.specs.Prelude.{◌≡◌, ◌&&◌, ◌||◌, ℕ, List, Some, false, is_some, true};
ghost use Rattle.um_tree.specs.RawTree.{BinderSyntax, FieldDeclSyntax, ParamSyntax, TypeSyntax, VarSyntax};
ghost use Rattle.um_types.specs.TypeMachine.{type_act, type_finish};
ghost use Rattle.um_types.specs.TypeView.{type_state};
ghost use Rattle.um_types.specs.Standing.{type_stands};
ghost use Rattle.um_forms.specs.ExprTokens.{expr_token};
ghost use Rattle.um_decls.specs.DeclMachine.{FunctionStart, FunctionVars, ParamBinder, ParamColon, RecordVars};
ghost use Rattle.um_decls.specs.DeclMachine.{RecordEqual, RecordBrace, FieldName, FieldColon, started};
ghost use Rattle.um_decls.specs.DeclMachine.{take_expected, take_params};
ghost use Rattle.um_decls.specs.DeclMachine.{field_ends, field_goes, param_ends, param_goes, result_ends, result_goes};
ghost use Rattle.um_decls.specs.DeclStanding.{decl_stands, is_less};

use um_syntax::{Kind, Symbol};
use um_types::TypeReader;

// ---- in a type

// Whether a token goes on with a type, or ends a whole one. `ends` says whether it may end one.
fn goes_in_type(ty: &TypeReader, kind: &Kind, ends: bool) -> bool
    ensures { (p : ℕ) → result ≡ (type_stands (type_act (type_state ty.now) kind.now p)
        || (is_some (type_finish (type_state ty.now)) && ends)) }
{
    ty.can_take(kind) || (ty.is_whole() && ends)
}

// Whether a token ends the type of a field.
fn ends_field(kind: &Kind) -> bool
    ensures { (at : ℕ) (x : List ℕ) (vs : List VarSyntax) (fs : List FieldDeclSyntax) (place : ℕ) (y : List ℕ)
        (t : TypeSyntax) → result ≡ decl_stands (field_ends at x vs fs place y (Some t) (expr_token kind.now)) }
{
    matches!(
        kind,
        Kind::Sign(Symbol::Semicolon) | Kind::Sign(Symbol::RightBrace)
    )
}

/// Whether a token of this kind goes on with the type of a field, or after it.
pub fn can_take_field(ty: &TypeReader, kind: &Kind) -> bool
    ensures { (at : ℕ) (x : List ℕ) (vs : List VarSyntax) (fs : List FieldDeclSyntax) (place : ℕ) (y : List ℕ) (p : ℕ)
        → result ≡ decl_stands (field_goes at x vs fs place y (type_act (type_state ty.now) kind.now p)
        (field_ends at x vs fs place y (type_finish (type_state ty.now)) (expr_token kind.now))) }
{
    goes_in_type(ty, kind, ends_field(kind))
}

// Whether a token ends the type of a parameter.
fn ends_param(kind: &Kind) -> bool
    ensures { (head : FunctionStart) (ps : List ParamSyntax) (b : BinderSyntax) (t : TypeSyntax)
        → result ≡ decl_stands (param_ends head ps b (Some t) (expr_token kind.now)) }
{
    matches!(kind, Kind::Sign(Symbol::RightParen))
}

/// Whether a token of this kind goes on with the type of a parameter, or after it.
pub fn can_take_param(ty: &TypeReader, kind: &Kind) -> bool
    ensures { (head : FunctionStart) (ps : List ParamSyntax) (b : BinderSyntax) (p : ℕ)
        → result ≡ decl_stands (param_goes head ps b (type_act (type_state ty.now) kind.now p)
        (param_ends head ps b (type_finish (type_state ty.now)) (expr_token kind.now))) }
{
    goes_in_type(ty, kind, ends_param(kind))
}

// Whether a token ends the type of a result.
fn ends_result(kind: &Kind) -> bool
    ensures { (head : FunctionStart) (ps : List ParamSyntax) (t : TypeSyntax)
        → result ≡ decl_stands (result_ends head ps (Some t) (expr_token kind.now)) }
{
    matches!(kind, Kind::Sign(Symbol::Equal))
}

/// Whether a token of this kind goes on with the type of a result, or after it.
pub fn can_take_result(ty: &TypeReader, kind: &Kind) -> bool
    ensures { (head : FunctionStart) (ps : List ParamSyntax) (p : ℕ)
        → result ≡ decl_stands (result_goes head ps (type_act (type_state ty.now) kind.now p)
        (result_ends head ps (type_finish (type_state ty.now)) (expr_token kind.now))) }
{
    goes_in_type(ty, kind, ends_result(kind))
}

// ---- in a record

/// Whether a token of this kind goes on after the name of a record.
pub fn can_follow_record(kind: &Kind) -> bool
    ensures { (at : ℕ) (x : List ℕ) (p : ℕ)
        → result ≡ decl_stands (take_expected (RecordVars at x) (expr_token kind.now) p) }
{
    matches!(kind, Kind::Sign(Symbol::Less) | Kind::Sign(Symbol::Equal))
}

/// Whether a token of this kind goes on after the unit parameters of a record.
pub fn can_follow_record_vars(kind: &Kind) -> bool
    ensures { (at : ℕ) (x : List ℕ) (vs : List VarSyntax) (p : ℕ)
        → result ≡ decl_stands (take_expected (RecordEqual at x vs) (expr_token kind.now) p) }
{
    matches!(kind, Kind::Sign(Symbol::Equal))
}

/// Whether a token of this kind opens the fields of a record.
pub fn can_open_fields(kind: &Kind) -> bool
    ensures { (at : ℕ) (x : List ℕ) (vs : List VarSyntax) (p : ℕ)
        → result ≡ decl_stands (take_expected (RecordBrace at x vs) (expr_token kind.now) p) }
{
    matches!(kind, Kind::Sign(Symbol::LeftBrace))
}

/// Whether a token of this kind names a field.
pub fn can_name_field(kind: &Kind) -> bool
    ensures { (at : ℕ) (x : List ℕ) (vs : List VarSyntax) (fs : List FieldDeclSyntax) (p : ℕ)
        → result ≡ decl_stands (take_expected (FieldName at x vs fs) (expr_token kind.now) p) }
{
    matches!(kind, Kind::Name(_))
}

/// Whether a token of this kind goes on after the name of a field.
pub fn can_follow_field(kind: &Kind) -> bool
    ensures { (at : ℕ) (x : List ℕ) (vs : List VarSyntax) (fs : List FieldDeclSyntax) (place : ℕ) (y : List ℕ) (p : ℕ)
        → result ≡ decl_stands (take_expected (FieldColon at x vs fs place y) (expr_token kind.now) p) }
{
    matches!(kind, Kind::Sign(Symbol::Colon))
}

// ---- in a function

// After the parameters of a function with `rec`: another, or the type of the result.
fn can_follow_recursive(kind: &Kind) -> bool
    ensures { (at : ℕ) (x : List ℕ) (vs : List VarSyntax) (ps : List ParamSyntax)
        → result ≡ decl_stands (take_params (started true at x vs) ps (expr_token kind.now)) }
{
    matches!(
        kind,
        Kind::Sign(Symbol::LeftParen) | Kind::Sign(Symbol::Colon)
    )
}

// After the parameters of a function without `rec`: the body may begin, too.
fn can_follow_plain(kind: &Kind) -> bool
    ensures { (at : ℕ) (x : List ℕ) (vs : List VarSyntax) (ps : List ParamSyntax)
        → result ≡ decl_stands (take_params (started false at x vs) ps (expr_token kind.now)) }
{
    matches!(
        kind,
        Kind::Sign(Symbol::LeftParen) | Kind::Sign(Symbol::Colon) | Kind::Sign(Symbol::Equal)
    )
}

/// Whether a token of this kind goes on after the parameters of a function, with `rec` or not.
pub fn can_follow_params(recursive: bool, kind: &Kind) -> bool
    ensures { (at : ℕ) (x : List ℕ) (vs : List VarSyntax) (ps : List ParamSyntax)
        → result ≡ decl_stands (take_params (started recursive at x vs) ps (expr_token kind.now)) }
{
    if recursive {
        can_follow_recursive(kind)
    } else {
        can_follow_plain(kind)
    }
}

fn is_less(kind: &Kind) -> bool
    ensures { result ≡ is_less kind.now }
{
    matches!(kind, Kind::Sign(Symbol::Less))
}

/// Whether a token of this kind goes on after the name of a function, with `rec` or not.
pub fn can_follow_function(recursive: bool, kind: &Kind) -> bool
    ensures { (at : ℕ) (x : List ℕ) (p : ℕ)
        → result ≡ decl_stands (take_expected (FunctionVars recursive at x) (expr_token kind.now) p) }
{
    is_less(kind) || can_follow_params(recursive, kind)
}

/// Whether a token of this kind binds a parameter.
pub fn can_bind_param(kind: &Kind) -> bool
    ensures { (head : FunctionStart) (ps : List ParamSyntax) (p : ℕ)
        → result ≡ decl_stands (take_expected (ParamBinder head ps) (expr_token kind.now) p) }
{
    matches!(kind, Kind::Name(_) | Kind::Hole)
}

/// Whether a token of this kind goes on after the binder of a parameter.
pub fn can_follow_binder(kind: &Kind) -> bool
    ensures { (head : FunctionStart) (ps : List ParamSyntax) (b : BinderSyntax) (p : ℕ)
        → result ≡ decl_stands (take_expected (ParamColon head ps b) (expr_token kind.now) p) }
{
    matches!(kind, Kind::Sign(Symbol::Colon))
}
