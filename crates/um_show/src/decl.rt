// The texts of declarations and programs.
ghost use Rattle.std.specs.Prelude.{◌≡◌, ◌++◌, [], IfOk, OnOk, map};
ghost use Rattle.std.specs.List.{flat_map, join_by};
ghost use Rattle.um_tree.specs.RawTree.{var_syntax, field_decl_syntax, param_syntax, written_type};
ghost use Rattle.um_tree.specs.RawTree.{whole_function_syntax, decl_syntax};
ghost use Rattle.um_tree.specs.RawTree.{program_syntax};
ghost use Rattle.um_show.specs.Pieces.{text_of};
ghost use Rattle.um_show.specs.Layout.{var_pieces, var_list_pieces, field_decl_pieces, param_pieces, result_pieces};
ghost use Rattle.um_show.specs.Layout.{rec_pieces, function_pieces, decl_pieces, line_pieces, layout};
ghost use Rattle.um_show.specs.Lists.{field_decls_text, record_decl_text};

use crate::expr::push_expr;
use crate::text::{push_binder, push_name, push_variable};
use crate::types::push_type;
use crate::unit::push_unit;
use std::alloc::{AllocError, Global};
use um_tree::{Name, RawDecl, RawFieldDecl, RawFunction, RawParam, RawProgram, RawType, RawVar};
use um_units::NoMemory;

// The most bytes for which room is made before a program is written: a text that is read has no more.
const MOST_ROOM: u32 = 1_048_576;

// The room that is made for the last declaration.
const LAST_ROOM: usize = 4096;

/// The text of a program in its layout: one declaration a line, with a line feed after each.
///
/// Comments and places are not in the tree, so they are dropped. `NoMemory` is its one error. The layout is this
/// project's own.
pub fn program_text(alloc: Global, raw: &RawProgram) -> Result<Vec<u8>, NoMemory>
    ensures { IfOk result (λ text. text.items ≡ layout (program_syntax raw.now)) }
{
    let mut text = Vec::new(alloc);
    push_lines(&mut text, &raw.items)?;
    Ok(text)
}

/// The same of a program that is handed over. Each declaration is let go after its line was written.
pub fn layout_text(alloc: Global, raw: RawProgram) -> Result<Vec<u8>, NoMemory>
    ensures { IfOk result (λ text. text.items ≡ layout (program_syntax raw)) }
{
    match room_for(alloc, &raw.items) {
        Ok(mut text) => {
            push_each(&mut text, raw.items)?;
            Ok(text)
        }
        Err(error) => {
            drop(raw);
            Err(error)
        }
    }
}

// No text, with room for about as many bytes as the written text has.
fn room_for(alloc: Global, decls: &[RawDecl]) -> Result<Vec<u8>, AllocError>
    ensures { IfOk result (λ text. text.items ≡ []) }
{
    let mut text = Vec::new(alloc);
    text.reserve(last_place(decls).min(MOST_ROOM) as usize + LAST_ROOM)?;
    Ok(text)
}

// The place of the name of the last declaration.
fn last_place(decls: &[RawDecl]) -> u32 {
    match decls.last() {
        Some(RawDecl::Base(at, _) | RawDecl::Short(at, _, _) | RawDecl::Record(at, _, _, _)) => *at,
        Some(RawDecl::Function(function)) => function.at,
        None => 0,
    }
}

fn push_each(text: &mut Vec<u8>, decls: Vec<RawDecl>) -> Result<(), AllocError>
    ensures { OnOk result (text.new.items ≡ text.old.items ++ layout (map decl_syntax decls.items)) }
{
    for decl in decls {
        push_last(text, decl)?;
    }
    Ok(())
}

fn push_last(text: &mut Vec<u8>, decl: RawDecl) -> Result<(), AllocError>
    ensures { OnOk result (text.new.items ≡ text.old.items ++ text_of (line_pieces (decl_syntax decl))) }
{
    let pushed = push_line(text, &decl);
    drop(decl);
    pushed
}

fn push_lines(text: &mut Vec<u8>, decls: &[RawDecl]) -> Result<(), AllocError>
    ensures { OnOk result (text.new.items ≡ text.old.items ++ layout (map decl_syntax decls.now)) }
{
    for decl in decls {
        push_line(text, decl)?;
    }
    Ok(())
}

fn push_line(text: &mut Vec<u8>, decl: &RawDecl) -> Result<(), AllocError>
    ensures { OnOk result (text.new.items ≡ text.old.items ++ text_of (line_pieces (decl_syntax decl.now))) }
{
    push_decl(text, decl)?;
    text.extend_from_slice(b"\n")
}

fn push_decl(text: &mut Vec<u8>, decl: &RawDecl) -> Result<(), AllocError>
    ensures { OnOk result (text.new.items ≡ text.old.items ++ text_of (decl_pieces (decl_syntax decl.now))) }
{
    match decl {
        RawDecl::Base(_, name) => {
            text.extend_from_slice(b"[<Measure>] type ")?;
            push_name(text, name)
        }
        RawDecl::Short(_, name, unit) => {
            text.extend_from_slice(b"[<Measure>] type ")?;
            push_name(text, name)?;
            text.extend_from_slice(b" = ")?;
            push_unit(text, unit)
        }
        RawDecl::Record(_, name, vars, fields) => {
            push_record(text, name, &vars.items, &fields.items)
        }
        RawDecl::Function(function) => push_function(text, function),
    }
}

/// Adds a declared record.
fn push_record(
    text: &mut Vec<u8>,
    name: &Name,
    vars: &[RawVar],
    fields: &[RawFieldDecl],
) -> Result<(), AllocError>
    ensures { OnOk result (text.new.items ≡ text.old.items
        ++ record_decl_text name.now (map var_syntax vars.now) (map field_decl_syntax fields.now)) }
{
    text.extend_from_slice(b"type ")?;
    push_name(text, name)?;
    push_vars(text, vars)?;
    text.extend_from_slice(b" = { ")?;
    push_field_decls(text, fields)?;
    text.extend_from_slice(b" }")
}

/// Adds unit parameters in angle brackets, where there are some.
#[inline(always)]
fn push_vars(text: &mut Vec<u8>, vars: &[RawVar]) -> Result<(), AllocError>
    ensures { OnOk result (text.new.items ≡ text.old.items ++ text_of (var_list_pieces (map var_syntax vars.now))) }
{
    let Some((first, rest)) = vars.split_first() else {
        return Ok(());
    };
    text.push(b'<')?;
    push_var(text, first)?;
    for var in rest {
        text.extend_from_slice(b", ")?;
        push_var(text, var)?;
    }
    text.extend_from_slice(b">")
}

fn push_var(text: &mut Vec<u8>, var: &RawVar) -> Result<(), AllocError>
    ensures { OnOk result (text.new.items ≡ text.old.items ++ text_of (var_pieces (var_syntax var.now))) }
{
    text.extend_from_slice(b"[<Measure>] ")?;
    push_variable(text, &var.name)
}

/// Adds declared fields, `; ` between each two.
fn push_field_decls(text: &mut Vec<u8>, fields: &[RawFieldDecl]) -> Result<(), AllocError>
    ensures { OnOk result (text.new.items ≡ text.old.items ++ field_decls_text (map field_decl_syntax fields.now)) }
{
    let Some((first, rest)) = fields.split_first() else {
        return Ok(());
    };
    push_field_decl(text, first)?;
    for field in rest {
        text.extend_from_slice(b"; ")?;
        push_field_decl(text, field)?;
    }
    Ok(())
}

fn push_field_decl(text: &mut Vec<u8>, field: &RawFieldDecl) -> Result<(), AllocError>
    ensures { OnOk result (text.new.items ≡ text.old.items
        ++ text_of (field_decl_pieces (field_decl_syntax field.now))) }
{
    push_name(text, &field.name)?;
    text.extend_from_slice(b": ")?;
    push_type(text, &field.ty)
}

/// Adds a function.
fn push_function(text: &mut Vec<u8>, function: &RawFunction) -> Result<(), AllocError>
    ensures { OnOk result (text.new.items ≡ text.old.items
        ++ text_of (function_pieces (whole_function_syntax function.now))) }
{
    text.extend_from_slice(b"let ")?;
    push_rec(text, function.recursive)?;
    push_name(text, &function.name)?;
    push_vars(text, &function.units.items)?;
    push_params(text, &function.params.items)?;
    push_result(text, &function.result)?;
    text.extend_from_slice(b" = ")?;
    push_expr(text, &function.body)
}

fn push_rec(text: &mut Vec<u8>, recursive: bool) -> Result<(), AllocError>
    ensures { OnOk result (text.new.items ≡ text.old.items ++ text_of (rec_pieces recursive)) }
{
    match recursive {
        true => text.extend_from_slice(b"rec "),
        false => Ok(()),
    }
}

fn push_params(text: &mut Vec<u8>, params: &[RawParam]) -> Result<(), AllocError>
    ensures { OnOk result (text.new.items ≡ text.old.items
        ++ text_of (flat_map param_pieces (map param_syntax params.now))) }
{
    for param in params {
        push_param(text, param)?;
    }
    Ok(())
}

/// Adds a parameter, with a space before it.
fn push_param(text: &mut Vec<u8>, param: &RawParam) -> Result<(), AllocError>
    ensures { OnOk result (text.new.items ≡ text.old.items ++ text_of (param_pieces (param_syntax param.now))) }
{
    text.extend_from_slice(b" (")?;
    push_binder(text, &param.binder)?;
    text.extend_from_slice(b": ")?;
    push_type(text, &param.ty)?;
    text.extend_from_slice(b")")
}

fn push_result(text: &mut Vec<u8>, result_type: &Option<RawType>) -> Result<(), AllocError>
    ensures { OnOk result (text.new.items ≡ text.old.items ++ text_of (result_pieces (written_type result_type.now))) }
{
    let Some(ty) = result_type else {
        return Ok(());
    };
    text.extend_from_slice(b" : ")?;
    push_type(text, ty)
}
