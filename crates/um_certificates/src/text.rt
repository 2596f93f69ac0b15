//! The texts of certificates.

ghost use Rattle.std.specs.Prelude.{◌≡◌, ◌++◌, IfOk, OnOk};
ghost use Rattle.um_tree.specs.ProgramTree.{program_tree};
ghost use Rattle.um_certificates.specs.CertificateText.{certificates_text as text_of_certificates};
ghost use Rattle.um_certificates.specs.CertificateText.{function_name as name_of_function};
ghost use Rattle.um_certificates.specs.CertificateText.{heading, kind_text as text_of_kind, no_text as text_of_no};
ghost use Rattle.um_certificates.specs.CertificateText.{numbered, open_text, refusal_text, rigid_text};
ghost use Rattle.um_certificates.specs.CertificateText.{yes_text as text_of_yes};

use crate::lines::{push_integer, push_number, push_parts, push_rows, push_units};
use crate::names::{copied, with_parameters, without_parameters};
use std::alloc::{AllocError, Global};
use um_check::{No, Yes};
use um_tree::{Name, Names, Program};
use um_units::{NoMemory, Unit};

/// The text of the certificates of a program's first functions, and of the refusal of the next if there is one.
///
/// `NoMemory` is its one error. The lines are this project's own, and units are in the notation of F#.
pub fn certificates_text(
    alloc: Global,
    program: &Program,
    yes: &[Yes],
    no: &Option<No>,
) -> Result<Vec<u8>, NoMemory>
    ensures { IfOk result (λ text. text.items ≡ text_of_certificates (program_tree program.now) yes.now no.now) }
{
    let mut text = Vec::new(alloc);
    push_all(alloc, &mut text, program, yes)?;
    push_refusal(&mut text, program, yes.len(), no)?;
    Ok(text)
}

/// Adds the certificate of each function's scheme. The names of base units are copied once for all.
fn push_all(
    alloc: Global,
    text: &mut Vec<u8>,
    program: &Program,
    yes: &[Yes],
) -> Result<(), AllocError>
    ensures { OnOk result (text.new.items ≡ text.old.items ++ numbered
        (λ i. text_of_yes program.now.bases (name_of_function (program_tree program.now) i)) 0 yes.now) }
{
    let mut bases = copied(alloc, &program.bases)?;
    for i in 0..yes.len() {
        bases = push_yes(alloc, text, function_name(program, i), bases, &yes[i])?;
    }
    Ok(())
}

/// Adds the certificate that function i has no scheme, if there is one.
fn push_refusal(
    text: &mut Vec<u8>,
    program: &Program,
    i: usize,
    no: &Option<No>,
) -> Result<(), AllocError>
    ensures { OnOk result (text.new.items ≡ text.old.items ++ refusal_text (program_tree program.now) i no.now) }
{
    match no {
        None => Ok(()),
        Some(cert) => push_no(text, function_name(program, i), cert),
    }
}

/// The bytes of the name of function i, none if there is no such function.
fn function_name(program: &Program, i: usize) -> &[u8]
    ensures { result.now ≡ name_of_function (program_tree program.now) i }
{
    match program.functions.items.get(i) {
        Some(function) => function.name.as_slice(),
        None => &[],
    }
}

/// The text of the certificate of a function's scheme, over base units of these names.
///
/// `NoMemory` is its one error. The lines are this project's own, and units are in the notation of F#.
pub fn yes_text(alloc: Global, name: &Name, bases: &Names, cert: &Yes) -> Result<Vec<u8>, NoMemory>
    ensures { IfOk result (λ text. text.items ≡ text_of_yes bases.now name.now cert.now) }
{
    let mut text = Vec::new(alloc);
    push_yes(
        alloc,
        &mut text,
        name.as_slice(),
        copied(alloc, bases)?,
        cert,
    )?;
    Ok(text)
}

/// Adds the certificate of a scheme, and hands the names of the base units back.
fn push_yes(
    alloc: Global,
    text: &mut Vec<u8>,
    name: &[u8],
    bases: Names,
    cert: &Yes,
) -> Result<Names, AllocError>
    ensures names { IfOk result (λ names. names ≡ bases) }
    ensures text { OnOk result (text.new.items ≡ text.old.items ++ text_of_yes bases name.now cert.now) }
{
    push_open(alloc, text, name, &bases, cert)?;
    Ok(push_rigid(alloc, text, bases, cert.rigid.as_slice())?)
}

/// Adds the lines of a certificate that name no unit parameter.
fn push_open(
    alloc: Global,
    text: &mut Vec<u8>,
    name: &[u8],
    bases: &Names,
    cert: &Yes,
) -> Result<(), AllocError>
    ensures { OnOk result (text.new.items ≡ text.old.items ++ open_text bases.now name.now cert.now) }
{
    push_heading(text, name, b" yes ", cert.vars as usize, cert.divisor)?;
    push_units(alloc, text, b"  slot ", bases, cert.solution.as_slice())?;
    push_units(alloc, text, b"  back ", bases, cert.back.as_slice())?;
    push_rows(text, cert.parts.as_slice())?;
    Ok(())
}

/// Adds a line for each unit that is put for a unit parameter, and hands the names of the base units back. Most
/// functions have none, and need no names of these.
fn push_rigid(
    alloc: Global,
    text: &mut Vec<u8>,
    bases: Names,
    rigid: &[Unit],
) -> Result<Names, AllocError>
    ensures names { IfOk result (λ names. names ≡ bases) }
    ensures text { OnOk result (text.new.items ≡ text.old.items ++ rigid_text bases rigid.now) }
{
    if rigid.is_empty() {
        return Ok(bases);
    }
    let declared = bases.as_slice().len();
    let names = with_parameters(alloc, bases, rigid.len())?;
    push_units(alloc, text, b"  rigid ", &names, rigid)?;
    Ok(without_parameters(names, declared))
}

/// Adds the line of a name, a kind and two numbers.
fn push_heading(
    text: &mut Vec<u8>,
    name: &[u8],
    kind: &[u8],
    n: usize,
    k: i64,
) -> Result<(), AllocError>
    ensures { OnOk result (text.new.items ≡ text.old.items ++ heading name.now kind.now n k) }
{
    text.extend_from_slice(name)?;
    text.extend_from_slice(kind)?;
    push_number(text, n)?;
    text.push(b' ')?;
    push_integer(text, k)?;
    text.push(b'\n')?;
    Ok(())
}

/// The text of the certificate that a function has no scheme.
///
/// `NoMemory` is its one error. The lines are this project's own.
pub fn no_text(alloc: Global, name: &Name, cert: &No) -> Result<Vec<u8>, NoMemory>
    ensures { IfOk result (λ text. text.items ≡ text_of_no name.now cert.now) }
{
    let mut text = Vec::new(alloc);
    push_no(&mut text, name.as_slice(), cert)?;
    Ok(text)
}

fn push_no(text: &mut Vec<u8>, name: &[u8], cert: &No) -> Result<(), AllocError>
    ensures { OnOk result (text.new.items ≡ text.old.items ++ text_of_no name.now cert.now) }
{
    push_heading(
        text,
        name,
        kind_text(cert.loose),
        cert.last as usize + 1,
        cert.modulus,
    )?;
    text.extend_from_slice(b"  rows: ")?;
    push_parts(text, cert.parts.as_slice())?;
    text.push(b'\n')?;
    Ok(())
}

fn kind_text(loose: bool) -> &'static [u8]
    ensures { result.now ≡ text_of_kind loose }
{
    if loose {
        return b" no ";
    }
    b" not general "
}
