//! Names of base units.

ghost use Rattle.std.specs.Prelude.{◌≡◌, ◌++◌, map, take, IfOk, OnOk};
ghost use Rattle.std.specs.List.{range_with_len};
ghost use Rattle.um_certificates.specs.CertificateText.{parameter_name as name_of_parameter};
ghost use Rattle.um_certificates.specs.CertificateText.{with_parameters as names_with_parameters};

use crate::lines::push_number;
use std::alloc::{AllocError, Global};
use um_tree::{Name, Names};

/// The names of declared base units once more, for those of unit parameters to follow them.
pub fn copied(alloc: Global, bases: &Names) -> Result<Names, AllocError>
    ensures { IfOk result (λ names. names ≡ bases.now) }
{
    let mut items = Vec::new(alloc);
    push_copies(alloc, &mut items, bases.as_slice())?;
    Ok(Names::from_vec(items))
}

/// The names of declared base units, and of those of this number of unit parameters.
pub fn with_parameters(alloc: Global, bases: Names, count: usize) -> Result<Names, AllocError>
    ensures { IfOk result (λ names. names ≡ names_with_parameters bases count) }
{
    let mut items = bases.into_vec();
    push_parameters(alloc, &mut items, count)?;
    Ok(Names::from_vec(items))
}

/// The first of the names: those of this number of declared base units.
pub fn without_parameters(names: Names, declared: usize) -> Names
    ensures { result ≡ take declared names }
{
    let mut items = names.into_vec();
    items.truncate(declared);
    Names::from_vec(items)
}

fn push_copies(alloc: Global, items: &mut Vec<Name>, names: &[Name]) -> Result<(), AllocError>
    ensures { OnOk result (items.new.items ≡ items.old.items ++ names.now) }
{
    for name in names {
        items.push(Name::from_slice(alloc, name.as_slice())?)?;
    }
    Ok(())
}

fn push_parameters(alloc: Global, items: &mut Vec<Name>, count: usize) -> Result<(), AllocError>
    ensures { OnOk result (items.new.items
        ≡ items.old.items ++ map name_of_parameter (range_with_len 0 count)) }
{
    for k in 0..count {
        items.push(parameter_name(alloc, k)?)?;
    }
    Ok(())
}

fn parameter_name(alloc: Global, k: usize) -> Result<Name, AllocError>
    ensures { IfOk result (λ name. name ≡ name_of_parameter k) }
{
    let mut bytes = b"$".to_vec(alloc)?;
    push_number(&mut bytes, k)?;
    Name::from_slice(alloc, &bytes)
}
