// Certificates of both kinds that are valid, and some that are not.
ghost use Rattle.std.specs.Prelude.{◌≤◌, All, IfOk, length};

use std::alloc::{AllocError, Global};
use um_check::{No, Part, PartLists, Parts, Yes, check_no, check_yes};
use um_equal_types::{Row, RowList, Rows};
use um_tree::{Scheme, Ty, Types};
use um_units::{Atom, Term, Unit, UnitStop, Units};

// The first row to this power.
fn row_to(alloc: Global, times: i64) -> Result<Parts, AllocError>
    ensures { IfOk result (λ parts. length parts ≤ 4294967295) }
{
    let part = Part { row: 0, times };
    Ok(Parts::from_vec(vec![in alloc; part]?))
}

// That two slots are one variable, where the second comes back by the first row to this power.
fn equal_slots(alloc: Global, times: i64) -> Result<Yes, AllocError>
    ensures { IfOk result (λ cert. All (λ parts. length parts ≤ 4294967295) cert.parts) }
{
    let variable = Atom::Var(0);
    let solution = vec![in alloc; Unit::atom(alloc, variable)?, Unit::atom(alloc, variable)?]?;
    let back = vec![in alloc; Unit::atom(alloc, variable)?]?;
    let parts = vec![in alloc; Parts::from_vec(Vec::new(alloc)), row_to(alloc, times)?]?;
    Ok(Yes {
        vars: 1,
        solution: Units::from_vec(solution),
        back: Units::from_vec(back),
        divisor: 1,
        parts: PartLists::from_vec(parts),
        rigid: Units::from_vec(Vec::new(alloc)),
    })
}

// The one row of these terms, of a function without parameters.
fn one_row(alloc: Global, slots: u32, terms: &[Term]) -> Result<Rows, UnitStop> {
    let row = Row {
        at: 0,
        unit: Unit::from_terms(alloc, terms)?,
    };
    Ok(Rows {
        slots,
        list: RowList {
            items: vec![in alloc; row]?,
        },
        params: Types {
            items: Vec::new(alloc),
        },
        result: Ty::Bool,
    })
}

// The term of an atom to a power.
fn term(atom: Atom, power: i32) -> Term {
    Term { atom, power }
}

// Whether the certificate that two slots are one variable shows the scheme, with the row to this power.
fn is_certified(
    alloc: Global,
    rows: &Rows,
    scheme: &Scheme,
    times: i64,
) -> Result<bool, AllocError> {
    let cert = equal_slots(alloc, times)?;
    let found = check_yes(alloc, rows, 0, 2, scheme, &cert);
    drop(cert);
    found
}

/// A scheme of two equal slots has a certificate, and two others aren't.
pub fn schemes_are_certified(alloc: Global) -> Result<bool, UnitStop> {
    let rows = one_row(alloc, 2, &[term(Atom::Var(0), 1), term(Atom::Var(1), -1)])?;
    let scheme = Scheme {
        params: Types {
            items: Vec::new(alloc),
        },
        result: Ty::Bool,
        vars: 1,
    };
    let found = [
        is_certified(alloc, &rows, &scheme, 1),
        is_certified(alloc, &rows, &scheme, -1),
        is_certified(alloc, &rows, &scheme, 2),
    ];
    drop(rows);
    drop(scheme);
    Ok(matches!(found, [Ok(true), Ok(false), Ok(false)]))
}

// Whether the certificate that m/s is no unit of 1, by this modulus and the row to this power, is valid.
fn is_refuted(alloc: Global, rows: &Rows, modulus: i64, times: i64) -> Result<bool, AllocError> {
    let cert = No {
        loose: false,
        last: 0,
        modulus,
        parts: row_to(alloc, times)?,
    };
    let found = check_no(alloc, rows, 0, 2, &cert);
    drop(cert);
    found
}

/// That m/s is no unit of 1 has certificates, by two moduli, and two others aren't.
pub fn refusals_are_certified(alloc: Global) -> Result<bool, UnitStop> {
    let rows = one_row(alloc, 0, &[term(Atom::Base(0), 1), term(Atom::Base(1), -1)])?;
    let found = [
        is_refuted(alloc, &rows, 2, 1),
        is_refuted(alloc, &rows, 2, 2),
        is_refuted(alloc, &rows, 3, 2),
        is_refuted(alloc, &rows, 1, 1),
    ];
    drop(rows);
    Ok(matches!(found, [Ok(true), Ok(false), Ok(true), Ok(false)]))
}
