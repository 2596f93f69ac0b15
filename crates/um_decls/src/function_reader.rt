// A function after `let`, which is read in place.
ghost use Rattle.std.specs.Prelude.{◌≡◌, ◌≤◌, [], map};
ghost use Rattle.um_tree.specs.RawTree.{param_syntax, written_type};
ghost use Rattle.um_unit_texts.specs.UnitStops.{greatest_height};
ghost use Rattle.um_decls.specs.DeclHeights.{params_height, result_height};

use crate::decl_end::push_decl;
use crate::decl_token::take_in_type;
use crate::decl_vars::{FixedVarToken, VarExpected, VarTaken, can_take_var, clear_vars, take_var};
use crate::head::Head;
use crate::query::{
    can_bind_param, can_follow_binder, can_follow_function, can_follow_params, can_take_param,
    can_take_result,
};
use std::alloc::{AllocError, Global};
use std::mem;
use um_expr::ExprReader;
use um_reader::{Reader, Taken};
use um_syntax::{Kind, Symbol, Token};
use um_tree::{Binder, Name, RawDecl, RawExpr, RawFunction, RawParam, RawParams, RawType};
use um_types::TypeReader;
use um_unit_texts::name_of;

/// The body of a function, and its result type, if it has one, not too high.
#[derive(Drop)]
pub(crate) struct FunctionBody {
    result: Option<RawType>,
    body: ExprReader,
    ghost low: { result_height (written_type result) ≤ greatest_height },
}

/// What is expected in a function.
#[derive(Drop)]
pub(crate) enum FunctionExpected {
    /// What follows the name; a token among the unit parameters
    Named,
    Var(VarExpected),
    /// What follows the name and the unit parameters, or a parameter; a parameter's binder; `:` after the binder
    Params,
    Binder,
    Colon(Binder),
    /// More of a parameter's type, or of the result type, or what follows it; more of the body
    Param(Binder),
    Result,
    Body,
}

/// The parameters that were read of a function, none too high, what is expected, and the type and the body that are
/// read, if they have begun.
#[derive(Drop)]
pub struct FunctionReader {
    recursive: bool,
    head: Head,
    params: RawParams,
    expected: FunctionExpected,
    ty: TypeReader,
    body: FunctionBody,
    ghost low: { params_height (map param_syntax params.items.items) ≤ greatest_height },
}

// No parameters were read. Those before were taken out, so there is nothing to let go.
fn clear_params(alloc: Global, params: &mut RawParams)
    ensures { map param_syntax params.new.items.items ≡ [] }
{
    let none = RawParams {
        items: Vec::new(alloc),
    };
    mem::forget(mem::replace(params, none));
}

impl FunctionBody {
    ghost use Rattle.std.specs.Prelude.{IfOk, option_map};
    ghost use Rattle.um_tree.specs.RawTree.{expr_syntax};
    ghost use Rattle.um_reader.specs.Takes.{Takes};
    ghost use Rattle.um_operands.specs.ExprBegun.{Need, finish};
    ghost use Rattle.um_operands.specs.ExprLeast.{whole_least};
    ghost use Rattle.um_expr.specs.ExprMachine.{machine_of_expressions};
    ghost use Rattle.um_expr.specs.ExprStates.{expr_state};
    ghost use Rattle.um_decls.specs.DeclTokens.{BeginsAlike, IfStops};

    // Nothing was read of it.
    fn new(alloc: Global, ty: Option<RawType>) -> FunctionBody
        requires low { result_height (written_type ty) ≤ greatest_height }
        ensures written { result.result ≡ ty }
        ensures begun { expr_state result.body ≡ Need [] }
    {
        let body = ExprReader::new(alloc);
        FunctionBody { result: ty, body }
    }

    // Another body begins after this result type. The result type before was taken out when its function ended.
    #[inline(always)]
    fn restart(&mut self, ty: Option<RawType>)
        requires low { result_height (written_type ty) ≤ greatest_height }
        ensures written { self.new.result ≡ ty }
        ensures begun { expr_state self.new.body ≡ Need [] }
    {
        mem::forget(mem::replace(&mut self.result, ty));
        self.body.restart();
    }

    // The body of the tokens that were taken, if they are one, out of the reader.
    fn take_whole(&mut self, alloc: Global) -> Result<Option<RawExpr>, AllocError>
        ensures written { self.new.result ≡ self.old.result }
        ensures found { IfOk result (λ o. option_map expr_syntax o ≡ finish (expr_state self.old.body)) }
    {
        self.body.take_whole(alloc)
    }

    // The result type, out of the reader.
    fn take_result(&mut self) -> Option<RawType>
        ensures { result ≡ self.old.result }
    {
        mem::replace(&mut self.result, None)
    }

    // One token more.
    #[inline(always)]
    fn take(&mut self, alloc: Global, token: &mut Token) -> Result<Taken, AllocError>
        requires low { whole_least (expr_state self.old.body) ≤ greatest_height }
        ensures written { self.new.result ≡ self.old.result }
        ensures taken { IfOk result (λ t. Takes machine_of_expressions greatest_height (expr_state self.old.body)
            token.old t (expr_state self.new.body)) }
        ensures kept { IfOk result (λ t. IfStops t (BeginsAlike token.new token.old)) }
    {
        self.body.take(alloc, token)
    }
}

impl FunctionReader {
    ghost use Rattle.std.specs.Prelude.{ℕ, IfOk, Some, None, is_some, option_map};
    ghost use Rattle.um_tree.specs.RawTree.{TypeSyntax, binder_syntax, expr_syntax, type_syntax};
    ghost use Rattle.um_reader.specs.Takes.{Gives, Takes};
    ghost use Rattle.um_types.specs.TypeHeights.{whole_height};
    ghost use Rattle.um_types.specs.TypeMachine.{NeedType, type_finish};
    ghost use Rattle.um_types.specs.TypeView.{type_state};
    ghost use Rattle.um_operands.specs.ExprBegun.{Need, finish};
    ghost use Rattle.um_expr.specs.ExprStates.{expr_state};
    ghost use Rattle.um_forms.specs.ExprTokens.{expr_token};
    ghost use Rattle.um_decls.specs.DeclMachine.{NoDecl, Expects, OfFunction, FunctionVars, ParamBinder, ParamColon};
    ghost use Rattle.um_decls.specs.DeclMachine.{InBody, started, take_expected, take_params, body_begins, param_ends};
    ghost use Rattle.um_decls.specs.DeclMachine.{result_ends, body_found, own_step, decl_act, decl_finish};
    ghost use Rattle.um_decls.specs.DeclStanding.{decl_stands};
    ghost use Rattle.um_decls.specs.DeclLeast.{decl_least, machine_of_declarations};
    ghost use Rattle.um_decls.specs.DeclViews.{head_vars, view_var, start_in, read_params, param_state, function_state};
    ghost use Rattle.um_decls.specs.DeclTakes.{IsLow, Ends};
    ghost use Rattle.um_decls.specs.DeclTokens.{BeginsAlike, IfStops};

    /// No function was read.
    pub fn new(alloc: Global) -> FunctionReader {
        FunctionReader {
            recursive: false,
            head: Head::plain(alloc, 0, Name::empty()),
            params: RawParams {
                items: Vec::new(alloc),
            },
            expected: FunctionExpected::Params,
            ty: TypeReader::new(),
            body: FunctionBody::new(alloc, None),
        }
    }

    /// A function begins, with `rec` or not, whose name was read at its place. What was read of the one before was
    /// taken out when it ended, so there is nothing to let go.
    pub fn begin(&mut self, recursive: bool, at: u32, name: Name)
        ensures { function_state self.new ≡ Expects (FunctionVars recursive at name) }
    {
        self.recursive = recursive;
        self.head.at = at;
        mem::forget(mem::replace(&mut self.head.name, name));
        mem::forget(mem::replace(&mut self.expected, FunctionExpected::Named));
    }

    /// Whether the function goes on with a token of this kind, glued to the one before or not. It isn't taken, and no
    /// height is asked for.
    #[tactic(auto, using(crate::proofs::DeclStanding::body_stands))]
    pub fn can_take(&self, kind: &Kind, glued: bool) -> bool
        ensures { (p : ℕ) → result
            ≡ decl_stands (decl_act (function_state self.now) (expr_token kind.now) p glued kind.now) }
    {
        match &self.expected {
            FunctionExpected::Body => self.body.body.can_take(kind, glued),
            FunctionExpected::Named => can_follow_function(self.recursive, kind),
            FunctionExpected::Var(expected) => can_take_var(*expected, kind),
            FunctionExpected::Params => can_follow_params(self.recursive, kind),
            FunctionExpected::Binder => can_bind_param(kind),
            FunctionExpected::Colon(_) => can_follow_binder(kind),
            FunctionExpected::Param(_) => can_take_param(&self.ty, kind),
            FunctionExpected::Result => can_take_result(&self.ty, kind),
        }
    }

    /// Whether the tokens that were taken are a function.
    #[tactic(auto, using(crate::proofs::DeclStanding::body_whole))]
    pub fn is_whole(&self) -> bool
        ensures { result ≡ is_some (decl_finish (function_state self.now)) }
    {
        match &self.expected {
            FunctionExpected::Body => self.body.body.is_whole(),
            FunctionExpected::Named | FunctionExpected::Var(_) | FunctionExpected::Params => false,
            FunctionExpected::Binder | FunctionExpected::Colon(_) => false,
            FunctionExpected::Param(_) | FunctionExpected::Result => false,
        }
    }

    /// One token more. A token that is refused still begins a declaration as it did, though its letters may be gone.
    /// Most tokens stand in bodies.
    #[inline(always)]
    pub fn take(&mut self, alloc: Global, token: &mut Token) -> Result<Taken, AllocError>
        requires low { decl_least (function_state self.old) ≤ greatest_height }
        ensures taken { IfOk result (λ t. Takes machine_of_declarations greatest_height (function_state self.old)
            token.old t (function_state self.new)) }
        ensures kept { IfOk result (λ t. IfStops t (BeginsAlike token.new token.old)) }
    {
        match &self.expected {
            FunctionExpected::Body => self.take_body(alloc, token),
            _ => self.take_any(alloc, token),
        }
    }

    // One token more of the body.
    #[inline(always)]
    fn take_body(&mut self, alloc: Global, token: &mut Token) -> Result<Taken, AllocError>
        requires body { self.old.expected ≡ FunctionExpected.Body }
        requires low { decl_least (function_state self.old) ≤ greatest_height }
        ensures taken { IfOk result (λ t. Takes machine_of_declarations greatest_height (function_state self.old)
            token.old t (function_state self.new)) }
        ensures kept { IfOk result (λ t. IfStops t (BeginsAlike token.new token.old)) }
    {
        self.body.take(alloc, token)
    }

    // One token more, whatever is expected.
    #[inline(never)]
    fn take_any(&mut self, alloc: Global, token: &mut Token) -> Result<Taken, AllocError>
        requires low { decl_least (function_state self.old) ≤ greatest_height }
        ensures taken { IfOk result (λ t. Takes machine_of_declarations greatest_height (function_state self.old)
            token.old t (function_state self.new)) }
        ensures kept { IfOk result (λ t. IfStops t (BeginsAlike token.new token.old)) }
    {
        match &self.expected {
            FunctionExpected::Body => self.take_body(alloc, token),
            FunctionExpected::Param(_) => match take_in_type(&mut self.ty, alloc, token)? {
                Taken::Goes => Ok(Taken::Goes),
                Taken::Stops => self.take_own(alloc, token),
                Taken::High => Ok(Taken::High),
            },
            FunctionExpected::Result => match take_in_type(&mut self.ty, alloc, token)? {
                Taken::Goes => Ok(Taken::Goes),
                Taken::Stops => self.take_own(alloc, token),
                Taken::High => Ok(Taken::High),
            },
            FunctionExpected::Named => Ok(self.take_named(alloc, token)),
            FunctionExpected::Var(_) => self.take_own(alloc, token),
            FunctionExpected::Params => Ok(self.take_params(token)),
            FunctionExpected::Binder => Ok(self.take_binder(alloc, token)),
            FunctionExpected::Colon(_) => self.take_own(alloc, token),
        }
    }

    // The token outside a type and the body, or the one that a type has refused.
    #[inline(never)]
    fn take_own(&mut self, alloc: Global, token: &mut Token) -> Result<Taken, AllocError>
        requires low { IsLow (function_state self.old) }
        ensures taken { IfOk result (λ t. Gives machine_of_declarations greatest_height (function_state self.old)
            (own_step (function_state self.old) token.old) t (function_state self.new)) }
        ensures kept { BeginsAlike token.new token.old }
    {
        match mem::replace(&mut self.expected, FunctionExpected::Params) {
            FunctionExpected::Named => Ok(self.take_named(alloc, token)),
            FunctionExpected::Var(expected) => self.take_vars(alloc, expected, token),
            FunctionExpected::Params => Ok(self.take_params(token)),
            FunctionExpected::Binder => Ok(self.take_binder(alloc, token)),
            FunctionExpected::Colon(binder) => Ok(self.take_colon(binder, token)),
            FunctionExpected::Param(binder) => self.end_param(binder, token),
            FunctionExpected::Result => Ok(self.end_result(token)),
            FunctionExpected::Body => {
                self.put(FunctionExpected::Body);
                Ok(Taken::Stops)
            }
        }
    }

    // From now on this is expected. If no binder was read, there is nothing to let go.
    #[inline(always)]
    fn put(&mut self, expected: FunctionExpected)
        ensures { function_state self.new
            ≡ param_state (start_in self.old) (read_params self.old) (type_state self.old.ty) self.old.body expected }
    {
        match &self.expected {
            FunctionExpected::Colon(_) | FunctionExpected::Param(_) => {
                drop(mem::replace(&mut self.expected, expected));
            }
            _ => mem::forget(mem::replace(&mut self.expected, expected)),
        }
    }

    // From now on this is expected. What was expected before holds nothing that has to be let go.
    #[inline(always)]
    fn set(&mut self, expected: FunctionExpected)
        ensures { function_state self.new
            ≡ param_state (start_in self.old) (read_params self.old) (type_state self.old.ty) self.old.body expected }
    {
        mem::forget(mem::replace(&mut self.expected, expected));
    }

    // From now on a type is read, after something that holds nothing that has to be let go.
    #[inline(always)]
    fn begin_type(&mut self, expected: FunctionExpected)
        ensures { function_state self.new
            ≡ param_state (start_in self.old) (read_params self.old) (NeedType 0) self.old.body expected }
    {
        self.ty.restart();
        self.set(expected);
    }

    // From now on the body is read.
    #[inline(always)]
    fn begin_body(&mut self, ty: Option<RawType>) -> Taken
        requires low { result_height (written_type ty) ≤ greatest_height }
        ensures { Gives machine_of_declarations greatest_height NoDecl
            (InBody (start_in self.old) (read_params self.old) (written_type ty) (Need []))
            result (function_state self.new) }
    {
        self.body.restart(ty);
        self.set(FunctionExpected::Body);
        Taken::Goes
    }

    // The token after the name.
    fn take_named(&mut self, alloc: Global, token: &Token) -> Taken
        ensures { Gives machine_of_declarations greatest_height NoDecl
            (take_expected (FunctionVars self.old.recursive self.old.head.at self.old.head.name)
            (expr_token token.now.kind) token.now.start)
            result (function_state self.new) }
    {
        match &token.kind {
            Kind::Sign(Symbol::Less) => {
                clear_vars(alloc, &mut self.head.vars);
                self.put(FunctionExpected::Var(VarExpected::Token(FixedVarToken::Begin)));
                Taken::Goes
            }
            _ => self.begin_params(alloc, token),
        }
    }

    // The token after the name of a function without unit parameters.
    fn begin_params(&mut self, alloc: Global, token: &Token) -> Taken
        ensures { Gives machine_of_declarations greatest_height NoDecl
            (take_params (started self.old.recursive self.old.head.at self.old.head.name []) []
            (expr_token token.now.kind))
            result (function_state self.new) }
    {
        clear_vars(alloc, &mut self.head.vars);
        clear_params(alloc, &mut self.params);
        mem::forget(mem::replace(&mut self.expected, FunctionExpected::Params));
        self.take_params(token)
    }

    // The token among the unit parameters.
    fn take_vars(
        &mut self,
        alloc: Global,
        expected: VarExpected,
        token: &mut Token,
    ) -> Result<Taken, AllocError>
        requires wanted { self.old.expected ≡ FunctionExpected.Params }
        ensures taken { IfOk result (λ t. Gives machine_of_declarations greatest_height NoDecl
            (take_expected
            (view_var (OfFunction self.old.recursive self.old.head.at self.old.head.name) (head_vars self.old.head)
            expected) (expr_token token.old.kind) token.old.start)
            t (function_state self.new)) }
        ensures kept { BeginsAlike token.new token.old }
    {
        match take_var(alloc, &mut self.head.vars, expected, token)? {
            VarTaken::Goes(next) => {
                self.put(FunctionExpected::Var(next));
                Ok(Taken::Goes)
            }
            VarTaken::Ends => {
                clear_params(alloc, &mut self.params);
                Ok(Taken::Goes)
            }
            VarTaken::Stops => Ok(Taken::Stops),
        }
    }

    // The token after the parameters, or the unit parameters.
    fn take_params(&mut self, token: &Token) -> Taken
        requires wanted { self.old.expected ≡ FunctionExpected.Params }
        ensures { Gives machine_of_declarations greatest_height NoDecl
            (take_params (start_in self.old) (read_params self.old) (expr_token token.now.kind))
            result (function_state self.new) }
    {
        match &token.kind {
            Kind::Sign(Symbol::LeftParen) => {
                self.begin_param();
                Taken::Goes
            }
            Kind::Sign(Symbol::Colon) => {
                self.begin_type(FunctionExpected::Result);
                Taken::Goes
            }
            Kind::Sign(Symbol::Equal) => self.take_equal(),
            _ => Taken::Stops,
        }
    }

    // From now on a parameter is read, at its binder.
    fn begin_param(&mut self)
        ensures { function_state self.new ≡ Expects (ParamBinder (start_in self.old) (read_params self.old)) }
    {
        self.set(FunctionExpected::Binder);
    }

    // `=` after the parameters: a function with `rec` has a result type.
    fn take_equal(&mut self) -> Taken
        requires wanted { self.old.expected ≡ FunctionExpected.Params }
        ensures { Gives machine_of_declarations greatest_height NoDecl
            (body_begins (start_in self.old) (read_params self.old)) result (function_state self.new) }
    {
        if self.recursive {
            return Taken::Stops;
        }
        self.begin_body(None)
    }

    // The token after the `(` of a parameter.
    fn take_binder(&mut self, alloc: Global, token: &mut Token) -> Taken
        requires nothing { decl_finish (function_state self.old) ≡ None }
        ensures taken { Gives machine_of_declarations greatest_height NoDecl
            (take_expected (ParamBinder (start_in self.old) (read_params self.old))
            (expr_token token.old.kind) token.old.start)
            result (function_state self.new) }
        ensures kept { BeginsAlike token.new token.old }
    {
        let at = token.start;
        match &mut token.kind {
            Kind::Name(letters) => {
                let name = Some(name_of(letters.take(alloc)));
                self.set(FunctionExpected::Colon(Binder { at, name }));
                Taken::Goes
            }
            Kind::Hole => {
                self.set(FunctionExpected::Colon(Binder { at, name: None }));
                Taken::Goes
            }
            _ => Taken::Stops,
        }
    }

    // The token after the binder of a parameter.
    fn take_colon(&mut self, binder: Binder, token: &Token) -> Taken
        requires wanted { self.old.expected ≡ FunctionExpected.Params }
        ensures { Gives machine_of_declarations greatest_height NoDecl
            (take_expected (ParamColon (start_in self.old) (read_params self.old) (binder_syntax binder))
            (expr_token token.now.kind) token.now.start)
            result (function_state self.new) }
    {
        match &token.kind {
            Kind::Sign(Symbol::Colon) => {
                self.begin_type(FunctionExpected::Param(binder));
                Taken::Goes
            }
            _ => {
                drop(binder);
                Taken::Stops
            }
        }
    }

    // The token that the type of a parameter has refused.
    fn end_param(&mut self, binder: Binder, token: &Token) -> Result<Taken, AllocError>
        requires wanted { self.old.expected ≡ FunctionExpected.Params }
        requires low { (t : TypeSyntax) → type_finish (type_state self.old.ty) ≡ Some t
            → whole_height t ≤ greatest_height }
        ensures { IfOk result (λ t. Gives machine_of_declarations greatest_height NoDecl
            (param_ends (start_in self.old) (read_params self.old) (binder_syntax binder)
            (type_finish (type_state self.old.ty)) (expr_token token.now.kind))
            t (function_state self.new)) }
    {
        match self.ty.take_whole() {
            Some(ty) => self.after_param(RawParam { binder, ty }, token),
            None => {
                drop(binder);
                Ok(Taken::Stops)
            }
        }
    }

    // The token after the type of a parameter.
    fn after_param(&mut self, param: RawParam, token: &Token) -> Result<Taken, AllocError>
        requires wanted { self.old.expected ≡ FunctionExpected.Params }
        requires low { whole_height (type_syntax param.ty) ≤ greatest_height }
        ensures { IfOk result (λ t. Gives machine_of_declarations greatest_height NoDecl
            (param_ends (start_in self.old) (read_params self.old) (binder_syntax param.binder)
            (Some (type_syntax param.ty)) (expr_token token.now.kind))
            t (function_state self.new)) }
    {
        match &token.kind {
            Kind::Sign(Symbol::RightParen) => {
                self.params.items.push(param)?;
                Ok(Taken::Goes)
            }
            _ => {
                drop(param);
                Ok(Taken::Stops)
            }
        }
    }

    // The token that the result type has refused.
    fn end_result(&mut self, token: &Token) -> Taken
        requires wanted { self.old.expected ≡ FunctionExpected.Params }
        requires low { (t : TypeSyntax) → type_finish (type_state self.old.ty) ≡ Some t
            → whole_height t ≤ greatest_height }
        ensures { Gives machine_of_declarations greatest_height NoDecl
            (result_ends (start_in self.old) (read_params self.old) (type_finish (type_state self.old.ty))
            (expr_token token.now.kind))
            result (function_state self.new) }
    {
        match self.ty.take_whole() {
            Some(ty) => self.after_result(ty, token),
            None => Taken::Stops,
        }
    }

    // The token after the result type.
    fn after_result(&mut self, ty: RawType, token: &Token) -> Taken
        requires wanted { self.old.expected ≡ FunctionExpected.Params }
        requires low { whole_height (type_syntax ty) ≤ greatest_height }
        ensures { Gives machine_of_declarations greatest_height NoDecl
            (result_ends (start_in self.old) (read_params self.old) (Some (type_syntax ty))
            (expr_token token.now.kind))
            result (function_state self.new) }
    {
        match &token.kind {
            Kind::Sign(Symbol::Equal) => self.begin_body(Some(ty)),
            _ => {
                drop(ty);
                Taken::Stops
            }
        }
    }

    // The function is added to these declarations, if its body was found. Answers whether it was.
    fn with_body(
        recursive: bool,
        head: Head,
        params: RawParams,
        written: Option<RawType>,
        found: Option<RawExpr>,
        decls: &mut Vec<RawDecl>,
    ) -> Result<bool, AllocError>
        ensures { IfOk result (λ whole. Ends (body_found (started recursive head.at head.name (head_vars head))
            (map param_syntax params.items.items) (written_type written) (option_map expr_syntax found))
            whole decls.old.items decls.new.items) }
    {
        match found {
            Some(body) => {
                let function = RawFunction {
                    at: head.at,
                    name: head.name,
                    recursive,
                    units: head.vars,
                    params,
                    result: written,
                    body,
                };
                push_decl(decls, RawDecl::Function(function))?;
                Ok(true)
            }
            None => {
                drop(head);
                drop(params);
                drop(written);
                Ok(false)
            }
        }
    }

    /// The function of the tokens that were taken is added to these declarations, if it is whole. Answers whether it
    /// is.
    #[inline(never)]
    pub fn finish(&mut self, alloc: Global, decls: &mut Vec<RawDecl>) -> Result<bool, AllocError>
        ensures { IfOk result (λ whole.
            Ends (decl_finish (function_state self.old)) whole decls.old.items decls.new.items) }
    {
        match &self.expected {
            FunctionExpected::Body => self.take_out(alloc, decls),
            FunctionExpected::Named
            | FunctionExpected::Var(_)
            | FunctionExpected::Params
            | FunctionExpected::Binder
            | FunctionExpected::Colon(_)
            | FunctionExpected::Param(_)
            | FunctionExpected::Result => Ok(false),
        }
    }

    // The function whose body ends here, out of the reader.
    fn take_out(&mut self, alloc: Global, decls: &mut Vec<RawDecl>) -> Result<bool, AllocError>
        ensures { IfOk result (λ whole. Ends (body_found (start_in self.old) (read_params self.old)
            (written_type self.old.body.result) (finish (expr_state self.old.body.body)))
            whole decls.old.items decls.new.items) }
    {
        let found = self.body.take_whole(alloc)?;
        let written = self.body.take_result();
        let head = mem::replace(&mut self.head, Head::plain(alloc, 0, Name::empty()));
        let params = RawParams {
            items: Vec::new(alloc),
        };
        let params = mem::replace(&mut self.params, params);
        FunctionReader::with_body(self.recursive, head, params, written, found, decls)
    }
}
