//! The agreements of a core.

ghost use Rattle.std.specs.Prelude.{◌≡◌, ◌<◌, ◌≤◌, ◌∷◌, ℕ, List, [], IfOk, OnOk, length, map, nat_eq, Contains};
ghost use Rattle.std.specs.Prelude.{MatchResult};
ghost use Rattle.std.specs.List.{list_any};
ghost use Rattle.um_agree.specs.Agreements.{Agreement};
ghost use Rattle.um_agree.specs.Answers.{AreKept};
ghost use Rattle.um_unit_reasons.specs.UnitReasons.{others_before};
ghost use Rattle.um_unit_reasons.specs.Answers.{AreFound, StopsPast, AreOfCore, IsPushed, IsAdded};

use std::alloc::{AllocError, Global};
use um_agree::{Agreements, Told};
use um_units::UnitStop;

/// The agreement of a core's last row, and the others that have a row of it.
#[derive(Drop)]
pub(crate) struct CoreAgreements {
    pub(crate) last: Vec<Told>,
    pub(crate) others: Vec<Told>,
}

/// The agreements of a core that ends with this row.
pub(crate) fn core_agreements(
    alloc: Global,
    found: &Agreements,
    core: &[usize],
    row: usize,
) -> Result<CoreAgreements, UnitStop>
    requires some { row < length found.now.rows.list.items.items }
    requires agreed { (agreed : List Agreement) × AreKept agreed found.now }
    requires last { Contains core.now row }
    ensures { (agreed : List Agreement) → AreKept agreed found.now → AreOfCore agreed core.now row result }
{
    let one = found.of_row(alloc, row)?;
    let number = one.number;
    let last = single(alloc, one)?;
    match others(alloc, found, core, row, number) {
        Ok(others) => Ok(CoreAgreements { last, others }),
        Err(stop) => {
            drop(last);
            Err(stop)
        }
    }
}

fn single(alloc: Global, one: Told) -> Result<Vec<Told>, AllocError>
    ensures { IfOk result (λ list. list.items ≡ one ∷ []) }
{
    let mut list = Vec::new(alloc);
    list.push(one)?;
    Ok(list)
}

/// The agreements but the last's that have one of the core's rows before this one.
fn others(
    alloc: Global,
    found: &Agreements,
    core: &[usize],
    row: usize,
    last: usize,
) -> Result<Vec<Told>, UnitStop>
    requires some { row ≤ length found.now.rows.list.items.items }
    requires agreed { (agreed : List Agreement) × AreKept agreed found.now }
    ensures { (agreed : List Agreement) → AreKept agreed found.now → MatchResult result
        (λ told. AreFound agreed (others_before agreed core.now last row) told.items) (StopsPast agreed core.now) }
{
    let mut told = Vec::new(alloc);
    for j in 0..row {
        push_other(alloc, found, core, j, last, &mut told)?;
    }
    Ok(told)
}

/// Adds the agreement of row j, if the row is of the core and the agreement is none of these.
fn push_other(
    alloc: Global,
    found: &Agreements,
    core: &[usize],
    j: usize,
    last: usize,
    told: &mut Vec<Told>,
) -> Result<(), UnitStop>
    requires some { j < length found.now.rows.list.items.items }
    requires agreed { (agreed : List Agreement) × AreKept agreed found.now }
    ensures { (agreed : List Agreement) → AreKept agreed found.now → (before : List ℕ) →
        AreFound agreed before told.old.items → IsPushed agreed core.now last before j told.new.items result }
{
    if !core.contains(&j) {
        return Ok(());
    }
    let one = found.of_row(alloc, j)?;
    Ok(push_news(one, last, told)?)
}

/// Adds an agreement that is none of these.
fn push_news(one: Told, last: usize, told: &mut Vec<Told>) -> Result<(), AllocError>
    ensures { OnOk result (IsAdded last one told.old.items told.new.items) }
{
    if one.number == last || is_there(told, one.number) {
        drop(one);
        return Ok(());
    }
    told.push(one)?;
    Ok(())
}

fn is_there(told: &[Told], number: usize) -> bool
    ensures { result ≡ list_any (λ t. nat_eq number t.number) told.now }
{
    told.iter().any(|one| number == one.number)
}
