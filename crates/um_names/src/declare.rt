//! Declarations, one at a time.

ghost use Rattle.std.specs.Prelude.{◌≡◌, [], false, Ok, IfOk, IfErr, OnOk, map};
ghost use Rattle.um_tree.specs.RawTree.{var_syntax, field_decl_syntax, whole_function_syntax, decl_syntax, base_syntax};
ghost use Rattle.um_tree.specs.RawTree.{short_syntax, record_decl_syntax, function_syntax, unit_syntax, expr_syntax};
ghost use Rattle.um_measures.specs.Known.{is_taken, is_among, function_names};
ghost use Rattle.um_measures.specs.Variables.{expr_variables, named_variables};
ghost use Rattle.um_names.specs.Parts.{itself};
ghost use Rattle.um_names.specs.Resolution.{resolved_function, resolved_decl};
ghost use Rattle.um_names.specs.Bodies.{with_body, with_whole};
ghost use Rattle.um_measures.specs.Stops.{IsFirst};
ghost use Rattle.um_names.specs.Tables.{AreTables, known_of, own_callable};

use crate::adding::{add_base, add_function, add_short, copied};
use crate::body::body;
use crate::callable::Callable;
use crate::expr::expr;
use crate::fields::field_decls;
use crate::known::Tables;
use crate::lookup::Lookup;
use crate::node::Body;
use crate::parts::{add_unit_parameters, result_note};
use crate::records::add_record;
use crate::signature::{Parameters, params};
use std::alloc::{AllocError, Global};
use um_measures::{
    NameStop, NameTable, Scope, function_names, head_variables, named_variables, parameters_digest,
};
use um_tree::{
    FieldDecls, Function, Name, Note, Notes, RawDecl, RawFieldDecl, RawFunction, RawUnit, RawVar,
    Record,
};

/// Whether a measure or a record has this name.
fn is_taken(tables: &Tables, name: &[u8]) -> bool
    requires { AreTables tables.now }
    ensures { result ≡ is_taken (known_of tables.now) name.now }
{
    tables.measures.has(name) || tables.record_names.has(name)
}

/// Declares a record, which isn't known in its own fields.
fn declare_record(
    alloc: Global,
    tables: &mut Tables,
    at: u32,
    name: &Name,
    vars: &[RawVar],
    fields: &[RawFieldDecl],
) -> Result<(), NameStop>
    requires { AreTables tables.old }
    ensures tables { OnOk result (AreTables tables.new) }
    ensures exact { OnOk result (resolved_decl (known_of tables.old) (record_decl_syntax at name.now
        (map var_syntax vars.now) (map field_decl_syntax fields.now)) ≡ Ok (known_of tables.new)) }
    ensures faults { IfErr result (IsFirst (resolved_decl (known_of tables.old) (record_decl_syntax at name.now
        (map var_syntax vars.now) (map field_decl_syntax fields.now)))) }
{
    if is_taken(tables, name.as_slice()) {
        return Err(NameStop::Twice { at });
    }
    let mut variables = NameTable::with_digest(alloc, parameters_digest(vars));
    add_unit_parameters(alloc, &mut variables, vars)?;
    let items = field_decls(alloc, tables, &variables, fields)?;
    let record = Record {
        name: copied(alloc, name)?,
        at,
        units: variables.count(),
        fields: FieldDecls { items },
    };
    Ok(add_record(alloc, tables, record)?)
}

/// The function itself, where it may be called in its body.
fn itself(alloc: Global, raw: &RawFunction) -> Result<Option<Callable>, AllocError>
    ensures { IfOk result (λ own. own_callable own ≡ itself (whole_function_syntax raw.now)) }
{
    if !raw.recursive {
        return Ok(None);
    }
    Ok(Some(Callable {
        name: copied(alloc, &raw.name)?,
        params: raw.params.items.len(),
    }))
}

/// The named variables of a function. A body that names none isn't walked.
fn variables_of(
    alloc: Global,
    unit_params: NameTable,
    raw: &RawFunction,
    in_body: bool,
) -> Result<NameTable, AllocError>
    requires body { in_body ≡ false → expr_variables (expr_syntax raw.now.body) ≡ [] }
    ensures { IfOk result (λ names. names ≡ named_variables unit_params (whole_function_syntax raw.now)) }
{
    if in_body {
        named_variables(alloc, unit_params, raw)
    } else {
        head_variables(alloc, unit_params, raw)
    }
}

/// What of a function comes before its body, and what is known in its body.
#[derive(Drop)]
struct Head {
    units: u32,
    params: Vec<Note>,
    named: u32,
    result: Option<Note>,
    scope: Scope,
    known: Body,
}

/// A function before its body: its name, its unit parameters, its parameters, its result.
#[inline(always)]
fn head_of(alloc: Global, tables: &Tables, raw: &RawFunction) -> Result<Head, NameStop>
    requires { AreTables tables.now }
    ensures exact { IfOk result (λ h. resolved_function (known_of tables.now) (whole_function_syntax raw.now)
        ≡ with_body tables.now (whole_function_syntax raw.now) h) }
    ensures new { IfOk result (λ h.
        is_among (function_names (known_of tables.now).program.functions) raw.now.name ≡ false) }
    ensures faults { IfErr result (IsFirst (resolved_function (known_of tables.now) (whole_function_syntax raw.now))) }
{
    if tables.function_names.has(raw.name.as_slice()) {
        return Err(NameStop::Twice { at: raw.at });
    }
    let names = function_names(raw);
    let mut unit_params = NameTable::with_digest(alloc, names.digest);
    add_unit_parameters(alloc, &mut unit_params, &raw.units.items)?;
    let units = unit_params.count();
    let variables = variables_of(alloc, unit_params, raw, names.in_body)?;
    let Parameters { notes, scope } = params(alloc, tables, &variables, &raw.params.items)?;
    let result = result_note(alloc, tables, &variables, &raw.result)?;
    let named = variables.count();
    let own = itself(alloc, raw)?;
    Ok(Head {
        units,
        params: notes,
        named,
        result,
        scope,
        known: Body { variables, own },
    })
}

/// Declares a function: its name, its unit parameters, its parameters, its result, its body.
fn declare_function(alloc: Global, tables: &mut Tables, raw: &RawFunction) -> Result<(), NameStop>
    requires { AreTables tables.old }
    ensures tables { OnOk result (AreTables tables.new) }
    ensures exact { OnOk result (resolved_decl (known_of tables.old) (function_syntax (whole_function_syntax raw.now))
        ≡ Ok (known_of tables.new)) }
    ensures faults { IfErr result (IsFirst (resolved_decl (known_of tables.old)
        (function_syntax (whole_function_syntax raw.now)))) }
{
    let mut head = head_of(alloc, tables, raw)?;
    let lookup = Lookup {
        alloc,
        tables,
        body: &head.known,
    };
    let body = expr(&lookup, &mut head.scope, &raw.body)?;
    let function = Function {
        name: copied(alloc, &raw.name)?,
        at: raw.at,
        recursive: raw.recursive,
        units: head.units,
        params: Notes { items: head.params },
        named: head.named,
        result: head.result,
        body,
    };
    Ok(add_function(alloc, tables, function)?)
}

/// The same of a function that is handed over. Its body is let go while it is resolved.
fn declare_last_function(
    alloc: Global,
    tables: &mut Tables,
    raw: RawFunction,
) -> Result<(), NameStop>
    requires { AreTables tables.old }
    ensures tables { OnOk result (AreTables tables.new) }
    ensures exact { OnOk result (resolved_decl (known_of tables.old) (function_syntax (whole_function_syntax raw))
        ≡ Ok (known_of tables.new)) }
    ensures faults { IfErr result (IsFirst (resolved_decl (known_of tables.old)
        (function_syntax (whole_function_syntax raw)))) }
{
    match head_of(alloc, tables, &raw) {
        Ok(head) => declare_whole(alloc, tables, head, raw),
        Err(stop) => {
            drop(raw);
            Err(stop)
        }
    }
}

/// Declares the function of a text whose head is resolved.
fn declare_whole(
    alloc: Global,
    tables: &mut Tables,
    mut head: Head,
    raw: RawFunction,
) -> Result<(), NameStop>
    requires tables { AreTables tables.old }
    requires new { is_among (function_names (known_of tables.old).program.functions) raw.name ≡ false }
    ensures tables { OnOk result (AreTables tables.new) }
    ensures exact { OnOk result (with_whole tables.old (whole_function_syntax raw) head ≡ Ok (known_of tables.new)) }
    ensures faults { IfErr result (IsFirst (with_whole tables.old (whole_function_syntax raw) head)) }
{
    let RawFunction {
        at,
        name,
        recursive,
        units,
        params,
        result,
        body: text,
    } = raw;
    drop(units);
    drop(params);
    drop(result);
    let lookup = Lookup {
        alloc,
        tables,
        body: &head.known,
    };
    let body = body(&lookup, &mut head.scope, text)?;
    let function = Function {
        name,
        at,
        recursive,
        units: head.units,
        params: Notes { items: head.params },
        named: head.named,
        result: head.result,
        body,
    };
    Ok(add_function(alloc, tables, function)?)
}

/// Declares a base unit.
fn declare_base(alloc: Global, tables: &mut Tables, at: u32, name: &Name) -> Result<(), NameStop>
    requires { AreTables tables.old }
    ensures tables { OnOk result (AreTables tables.new) }
    ensures exact { OnOk result (resolved_decl (known_of tables.old) (base_syntax at name.now)
        ≡ Ok (known_of tables.new)) }
    ensures faults { IfErr result (IsFirst (resolved_decl (known_of tables.old) (base_syntax at name.now))) }
{
    if is_taken(tables, name.as_slice()) {
        return Err(NameStop::Twice { at });
    }
    Ok(add_base(alloc, tables, name)?)
}

/// Declares an abbreviation, which isn't known in its own unit text.
fn declare_short(
    alloc: Global,
    tables: &mut Tables,
    at: u32,
    name: &Name,
    unit: &RawUnit,
) -> Result<(), NameStop>
    requires { AreTables tables.old }
    ensures tables { OnOk result (AreTables tables.new) }
    ensures exact { OnOk result (resolved_decl (known_of tables.old)
        (short_syntax at name.now (unit_syntax unit.now)) ≡ Ok (known_of tables.new)) }
    ensures faults { IfErr result (IsFirst (resolved_decl (known_of tables.old)
        (short_syntax at name.now (unit_syntax unit.now)))) }
{
    if is_taken(tables, name.as_slice()) {
        return Err(NameStop::Twice { at });
    }
    let unit = tables.unit(alloc, &NameTable::new(alloc), unit)?;
    Ok(add_short(alloc, tables, name, unit)?)
}

/// Takes a declaration into the tables.
pub fn declare(alloc: Global, tables: &mut Tables, decl: &RawDecl) -> Result<(), NameStop>
    requires { AreTables tables.old }
    ensures tables { OnOk result (AreTables tables.new) }
    ensures exact { OnOk result (resolved_decl (known_of tables.old) (decl_syntax decl.now)
        ≡ Ok (known_of tables.new)) }
    ensures faults { IfErr result (IsFirst (resolved_decl (known_of tables.old) (decl_syntax decl.now))) }
{
    match decl {
        RawDecl::Base(at, name) => declare_base(alloc, tables, *at, name),
        RawDecl::Short(at, name, unit) => declare_short(alloc, tables, *at, name, unit),
        RawDecl::Record(at, name, vars, fields) => {
            declare_record(alloc, tables, *at, name, &vars.items, &fields.items)
        }
        RawDecl::Function(raw) => declare_function(alloc, tables, raw),
    }
}

/// Takes a declaration that is handed over into the tables, and lets it go.
pub fn declare_last(alloc: Global, tables: &mut Tables, decl: RawDecl) -> Result<(), NameStop>
    requires { AreTables tables.old }
    ensures tables { OnOk result (AreTables tables.new) }
    ensures exact { OnOk result (resolved_decl (known_of tables.old) (decl_syntax decl) ≡ Ok (known_of tables.new)) }
    ensures faults { IfErr result (IsFirst (resolved_decl (known_of tables.old) (decl_syntax decl))) }
{
    match decl {
        RawDecl::Base(at, name) => declare_base(alloc, tables, at, &name),
        RawDecl::Short(at, name, unit) => {
            let declared = declare_short(alloc, tables, at, &name, &unit);
            drop(unit);
            declared
        }
        RawDecl::Record(at, name, vars, fields) => {
            let declared = declare_record(alloc, tables, at, &name, &vars.items, &fields.items);
            drop(vars);
            drop(fields);
            declared
        }
        RawDecl::Function(raw) => declare_last_function(alloc, tables, raw),
    }
}
