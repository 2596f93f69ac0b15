//! The certificates of a program.

ghost use Rattle.std.specs.Prelude.{◌≡◌, ◌<◌, ◌≤◌, [], All, length, slice_get, Some, IfOk, IfErr, OnOk};
ghost use Rattle.um_tree.specs.ProgramTree.{FunctionTree, SchemeTree, program_tree};
ghost use Rattle.um_tree.specs.Formed.{BasesBelow, IsFormed};
ghost use Rattle.um_tree.specs.Shapes.{IsShaped};
ghost use Rattle.um_equal_types.specs.Steps.{units_of};
ghost use Rattle.um_rows.specs.Answers.{AreRowsOf};
ghost use Rattle.um_infer.specs.Answers.{scheme_trees};
ghost use Rattle.um_infer.specs.Inference.{all_schemes, infer, infer_first};
ghost use Rattle.um_check.specs.declared.certificate.No.{No as NoData};
ghost use Rattle.um_check.specs.Tidy.{IsTidyYes, IsTidyNo};
ghost use Rattle.um_kept.specs.declared.stop.CertStop.TheVariants.{NoMemory};
ghost use Rattle.um_proof.specs.Answers.{AreFunctionRows};
ghost use Rattle.um_proof.specs.Proving.{IsProved, IsRefusal, IsYesOf};
ghost use Rattle.um_proof.specs.ProgramSteps.{AreYesOf, AreTidyYes, CarriesInFunction, CarriesInSome, HasRows};
ghost use Rattle.um_proof.specs.ProgramSteps.{HaveInferred, IsFirstRefused, of_function};

use crate::{Proofs, ProveStop, YesList, make_no, make_yes};
use std::alloc::Global;
use um_check::{No, Yes};
use um_infer::{InferStop, infer, infer_first};
use um_kept::CertStop;
use um_rows::{RowStop, Rows, rows};
use um_shape::Shaped;
use um_tree::Schemes;

/// The schemes of the program's functions and a certificate of each, up to the first function that is refused for Units
/// or NotGeneral, and a certificate of this refusal.
///
/// Slots and PowerRange come exactly if `infer` answers them. Otherwise CertRange comes only if a number that is formed
/// for the certificate of the function overflows what a certificate can hold, and carries the number. Each certificate
/// is valid and tidy.
pub fn prove(alloc: Global, shaped: &Shaped) -> Result<Proofs, ProveStop>
    ensures { IsProved (program_tree shaped.now) result }
{
    match infer(alloc, shaped) {
        Ok(schemes) => with_yes(alloc, shaped, function_count(shaped), schemes, None),
        Err(InferStop::Units { function, at: _ }) => refused_proofs(alloc, shaped, function),
        Err(InferStop::NotGeneral { function, at: _ }) => refused_proofs(alloc, shaped, function),
        Err(InferStop::PowerRange { function, at }) => Err(ProveStop::PowerRange { function, at }),
        Err(InferStop::Slots { function }) => Err(ProveStop::Slots { function }),
        Err(InferStop::NoMemory) => Err(ProveStop::NoMemory),
    }
}

/// The certificates up to function i, which is refused.
fn refused_proofs(alloc: Global, shaped: &Shaped, i: u32) -> Result<Proofs, ProveStop>
    requires { IsFirstRefused (infer (program_tree shaped.now)) i }
    ensures { IsProved (program_tree shaped.now) result }
{
    match infer_first(alloc, shaped, i) {
        Ok(schemes) => with_refusal(alloc, shaped, i, schemes),
        Err(InferStop::NoMemory) => Err(ProveStop::NoMemory),
        Err(InferStop::Units { function: _, at: _ }) => unreachable!(),
        Err(InferStop::NotGeneral { function: _, at: _ }) => unreachable!(),
        Err(InferStop::PowerRange { function: _, at: _ }) => unreachable!(),
        Err(InferStop::Slots { function: _ }) => unreachable!(),
    }
}

/// The certificates of the schemes, and of the refusal of the function after theirs.
fn with_refusal(
    alloc: Global,
    shaped: &Shaped,
    i: u32,
    schemes: Schemes,
) -> Result<Proofs, ProveStop>
    requires refused { IsFirstRefused (infer (program_tree shaped.now)) i }
    requires before { infer_first (program_tree shaped.now) i ≡ all_schemes (scheme_trees schemes) }
    ensures { IsProved (program_tree shaped.now) result }
{
    match refusal_of(alloc, shaped, i, &schemes) {
        Ok(no) => with_yes(alloc, shaped, i, schemes, Some(no)),
        Err(stop) => {
            drop(schemes);
            Err(of_function(i, stop))
        }
    }
}

/// The certificates of the schemes, and the No.
fn with_yes(
    alloc: Global,
    shaped: &Shaped,
    count: u32,
    schemes: Schemes,
    no: Option<No>,
) -> Result<Proofs, ProveStop>
    requires count { length schemes.items.items ≡ count }
    requires before { infer_first (program_tree shaped.now) (length schemes.items.items)
        ≡ all_schemes (scheme_trees schemes) }
    requires few { length schemes.items.items ≤ length (program_tree shaped.now).functions }
    requires no { IsRefusal (program_tree shaped.now) (scheme_trees schemes) (infer (program_tree shaped.now)) no }
    requires tidy { (refusal : NoData) → no ≡ Some refusal → IsTidyNo refusal }
    ensures { IsProved (program_tree shaped.now) result }
{
    let mut items: Vec<Yes> = Vec::new(alloc);
    match add_yes(alloc, shaped, count, &schemes, &mut items) {
        Ok(()) => Ok(Proofs {
            schemes,
            yes: YesList { items },
            no,
        }),
        Err(stop) => {
            drop(items);
            drop(schemes);
            drop(no);
            Err(stop)
        }
    }
}

/// Adds a Yes for each of the schemes.
fn add_yes(
    alloc: Global,
    shaped: &Shaped,
    count: u32,
    schemes: &Schemes,
    items: &mut Vec<Yes>,
) -> Result<(), ProveStop>
    requires count { length schemes.now.items.items ≡ count }
    requires empty { items.old.items ≡ [] }
    requires before { infer_first (program_tree shaped.now) (length schemes.now.items.items)
        ≡ all_schemes (scheme_trees schemes.now) }
    requires few { length schemes.now.items.items ≤ length (program_tree shaped.now).functions }
    ensures count { OnOk result (length items.new.items ≡ length schemes.now.items.items) }
    ensures valid { OnOk result (AreYesOf (program_tree shaped.now) (scheme_trees schemes.now) items.new.items) }
    ensures tidy { OnOk result (AreTidyYes (program_tree shaped.now) items.new.items) }
    ensures range { IfErr result (CarriesInSome (program_tree shaped.now)) }
{
    for i in 0..count {
        match yes_of(alloc, shaped, i, schemes) {
            Ok(yes) => items.push(yes)?,
            Err(stop) => return Err(of_function(i, stop)),
        }
    }
    Ok(())
}

fn yes_of(alloc: Global, shaped: &Shaped, i: u32, schemes: &Schemes) -> Result<Yes, CertStop>
    requires inside { i < length schemes.now.items.items }
    requires before { infer_first (program_tree shaped.now) (length schemes.now.items.items)
        ≡ all_schemes (scheme_trees schemes.now) }
    requires few { length schemes.now.items.items ≤ length (program_tree shaped.now).functions }
    ensures valid { (f : FunctionTree) (s : SchemeTree) → slice_get (program_tree shaped.now).functions i ≡ Some f
        → slice_get (scheme_trees schemes.now) i ≡ Some s
        → IfOk result (IsYesOf (program_tree shaped.now) (scheme_trees schemes.now) i f s) }
    ensures tidy { (f : FunctionTree) → slice_get (program_tree shaped.now).functions i ≡ Some f
        → IfOk result (IsTidyYes (length (program_tree shaped.now).bases) f.units) }
    ensures range { IfErr result (CarriesInFunction (program_tree shaped.now) i) }
{
    let bases = base_count(shaped);
    let equations = rows_of(alloc, shaped, i, schemes)?;
    let units = unit_count(shaped, i);
    let made = make_yes(alloc, &equations, units, bases, &schemes.items[i as usize]);
    drop(equations);
    made
}

fn refusal_of(alloc: Global, shaped: &Shaped, i: u32, schemes: &Schemes) -> Result<No, CertStop>
    requires refused { IsFirstRefused (infer (program_tree shaped.now)) i }
    requires before { infer_first (program_tree shaped.now) i ≡ all_schemes (scheme_trees schemes.now) }
    ensures valid { IfOk result (λ no. IsRefusal (program_tree shaped.now) (scheme_trees schemes.now)
        (infer (program_tree shaped.now)) (Some no)) }
    ensures tidy { IfOk result IsTidyNo }
    ensures range { IfErr result (CarriesInFunction (program_tree shaped.now) i) }
{
    let bases = base_count(shaped);
    let equations = rows_of(alloc, shaped, i, schemes)?;
    let units = unit_count(shaped, i);
    let made = make_no(alloc, &equations, units, bases);
    drop(equations);
    made
}

/// The rows of function i, which exceeds no limit, given the schemes of the functions before it.
fn rows_of(alloc: Global, shaped: &Shaped, i: u32, schemes: &Schemes) -> Result<Rows, CertStop>
    requires function { i < length (program_tree shaped.now).functions }
    requires formed { IsFormed (program_tree shaped.now) }
    requires shapes { IsShaped (program_tree shaped.now) }
    requires inferred { HaveInferred (program_tree shaped.now) (scheme_trees schemes.now) i }
    requires limits { HasRows (program_tree shaped.now) (scheme_trees schemes.now) i }
    ensures equations { IfOk result (AreRowsOf (program_tree shaped.now) (scheme_trees schemes.now) i) }
    ensures rows { (f : FunctionTree) → slice_get (program_tree shaped.now).functions i ≡ Some f
        → IfOk result (AreFunctionRows (length (program_tree shaped.now).bases) f.units) }
    ensures declared { IfOk result (λ rows. All (BasesBelow (length (program_tree shaped.now).bases))
        (units_of rows.list.items.items)) }
    ensures memory { IfErr result (λ stop. stop ≡ NoMemory) }
{
    match rows(alloc, shaped, i, schemes) {
        Ok(rows) => Ok(rows),
        Err(RowStop::NoMemory) => Err(CertStop::NoMemory),
        Err(RowStop::Slots) => unreachable!(),
        Err(RowStop::Range { at: _ }) => unreachable!(),
    }
}

/// How many functions the program has.
fn function_count(shaped: &Shaped) -> u32
    ensures { result ≡ length (program_tree shaped.now).functions }
{
    shaped.program().functions.items.len() as u32
}

/// How many unit parameters function i has.
fn unit_count(shaped: &Shaped, i: u32) -> u32
    requires { i < length (program_tree shaped.now).functions }
    ensures { (f : FunctionTree) → slice_get (program_tree shaped.now).functions i ≡ Some f → result ≡ f.units }
{
    shaped.program().functions.items[i as usize].units
}

/// How many base units the program, which is formed and has its shapes, declares.
fn base_count(shaped: &Shaped) -> u32
    ensures count { result ≡ length (program_tree shaped.now).bases }
    ensures few { result ≤ 16777216 }
    ensures formed { IsFormed (program_tree shaped.now) }
    ensures shapes { IsShaped (program_tree shaped.now) }
{
    shaped.program().bases.as_slice().len() as u32
}

/// Want of a certificate of function i as the program's.
fn of_function(i: u32, stop: CertStop) -> ProveStop
    ensures { result ≡ of_function i stop }
{
    match stop {
        CertStop::CertRange { number } => ProveStop::CertRange {
            function: i,
            number,
        },
        CertStop::NoMemory => ProveStop::NoMemory,
    }
}
