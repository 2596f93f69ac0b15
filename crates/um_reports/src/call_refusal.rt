// The lines of refused calls and signatures, and of a function that is held to a signature.
ghost use Rattle.std.specs.Prelude.{◌≡◌, ◌<◌, ◌+◌, ◌++◌, IfOk, OnOk, codes, decimal, length, map, string_bytes};
ghost use Rattle.um_reports.specs.CallRefusals.{positioned, argument_label, IsArgumentReply, IsCallReply};
ghost use Rattle.um_reports.specs.CallRefusals.{IsCallRangeReply, IsUnnamedReply, IsTrapReply, signature_label};
ghost use Rattle.um_reports.specs.CallRefusals.{IsSignatureReply};
ghost use Rattle.um_reports.specs.CallRefusals.{difference_line, IsConformReply};
ghost use Rattle.um_reports.specs.Calling.{NamesText};
ghost use Rattle.um_reports.specs.Steps.{IsReply, line};

use crate::Status;
use crate::place::push_position;
use crate::refusal::reply_line;
use crate::reply::Reply;
use std::alloc::{AllocError, Global};
use um_frac::Trap;
use um_run::CallRefusal;
use um_sig::{SigStop, SigText};
use um_value::InputStop;

/// The refusal of a name that no function has.
pub fn reply_to_unnamed(alloc: Global) -> Result<Reply, AllocError>
    ensures { IfOk result (λ reply. IsUnnamedReply reply.text.items reply.status) }
{
    reply_line(alloc, "error 11: no such function", Status::Input)
}

/// The refusal of a call or of its value for a power past the range.
pub fn reply_to_call_range(alloc: Global) -> Result<Reply, AllocError>
    ensures { IfOk result (λ reply. IsCallRangeReply reply.text.items reply.status) }
{
    reply_line(
        alloc,
        "error 10: power range of the call",
        Status::PowerRange,
    )
}

/// The refusal of a call with these texts of arguments.
pub fn reply_to_call(
    alloc: Global,
    texts: &[String],
    refusal: CallRefusal,
) -> Result<Reply, AllocError>
    requires named { NamesText (length texts.now) refusal }
    ensures { IfOk result (λ reply. IsCallReply (map string_bytes texts.now) refusal reply.text.items reply.status) }
{
    match refusal {
        CallRefusal::NoFunction => reply_to_unnamed(alloc),
        CallRefusal::WrongCount => reply_line(
            alloc,
            "error 11: wrong number of arguments",
            Status::Input,
        ),
        CallRefusal::Argument { index, stop } => {
            reply_to_argument(alloc, texts[index as usize].as_str(), index, stop)
        }
        CallRefusal::Units => {
            reply_line(alloc, "error 11: units of the arguments", Status::Input)
        }
        CallRefusal::PowerRange => reply_to_call_range(alloc),
        CallRefusal::Slots => reply_line(alloc, "error 6: limit slots in the call", Status::Limit),
        CallRefusal::NoMemory => Err(AllocError),
    }
}

/// The refusal of the argument of this index, counted from 0, by its text.
fn reply_to_argument(
    alloc: Global,
    word: &str,
    index: u32,
    stop: InputStop,
) -> Result<Reply, AllocError>
    ensures { IfOk result (λ reply. IsArgumentReply index word.now stop reply.text.items reply.status) }
{
    match stop {
        InputStop::Text { at } => reply_in_argument(alloc, word, index, b"text", at),
        InputStop::Shape { at } => reply_in_argument(alloc, word, index, b"shape", at),
        InputStop::Names { at } => reply_in_argument(alloc, word, index, b"name", at),
        InputStop::PowerRange { at } => reply_in_argument(alloc, word, index, b"power range", at),
        InputStop::NoMemory => Err(AllocError),
    }
}

// A reply of one line that names an argument, what is wrong with its text, and a position in it.
fn reply_in_argument(
    alloc: Global,
    word: &str,
    index: u32,
    fault: &[u8],
    at: u32,
) -> Result<Reply, AllocError>
    ensures { IfOk result (λ reply. IsReply reply.text.items reply.status
        (positioned (argument_label index fault.now) word.now at) Status.Input) }
{
    let mut label = b"error 11: argument ".to_vec(alloc)?;
    push_number(&mut label, index)?;
    label.extend_from_slice(b", ")?;
    label.extend_from_slice(fault)?;
    label.extend_from_slice(b" at ")?;
    reply_positioned(label, word, at)
}

/// How a call that met a trap ends.
pub fn reply_to_trap(alloc: Global, trap: Trap) -> Result<Reply, AllocError>
    ensures { IfOk result (λ reply. IsTrapReply trap reply.text.items reply.status) }
{
    match trap {
        Trap::Overflow => reply_line(alloc, "error 12: overflow", Status::Trap),
        Trap::DivZero => reply_line(alloc, "error 12: division by zero", Status::Trap),
    }
}

/// The refusal of the text of a signature.
pub fn reply_to_signature(alloc: Global, word: &str, stop: SigText) -> Result<Reply, AllocError>
    ensures { IfOk result (λ reply. IsSignatureReply word.now stop reply.text.items reply.status) }
{
    match stop {
        SigText::Text { at } => reply_in_signature(alloc, word, b"text", at),
        SigText::Syntax { at } => reply_in_signature(alloc, word, b"syntax", at),
        SigText::Height { at } => reply_in_signature(alloc, word, b"height", at),
        SigText::Names { at } => reply_in_signature(alloc, word, b"name", at),
        SigText::PowerRange { at } => reply_in_signature(alloc, word, b"power range", at),
        SigText::NoMemory => Err(AllocError),
    }
}

// A reply of one line that says what is wrong with the text of a signature, and a position in it.
fn reply_in_signature(alloc: Global, word: &str, fault: &[u8], at: u32) -> Result<Reply, AllocError>
    ensures { IfOk result (λ reply. IsReply reply.text.items reply.status
        (positioned (signature_label fault.now) word.now at) Status.Input) }
{
    let mut label = b"error 11: signature, ".to_vec(alloc)?;
    label.extend_from_slice(fault)?;
    label.extend_from_slice(b" at ")?;
    reply_positioned(label, word, at)
}

/// Whether the function of this name may be used at its signature.
pub fn reply_to_matching(
    alloc: Global,
    name: &str,
    answer: Result<(), SigStop>,
) -> Result<Reply, AllocError>
    ensures { IfOk result (λ reply. IsConformReply name.now answer reply.text.items reply.status) }
{
    match answer {
        Ok(()) => reply_conforms(alloc, name),
        Err(SigStop::Form { index }) => reply_to_difference(alloc, b"form", name, index),
        Err(SigStop::Units { index }) => reply_to_difference(alloc, b"units", name, index),
        Err(SigStop::Range { index: _ }) => reply_line(
            alloc,
            "error 10: power range of the signature",
            Status::PowerRange,
        ),
        Err(SigStop::NoMemory) => Err(AllocError),
    }
}

/// The line of a function that conforms.
fn reply_conforms(alloc: Global, name: &str) -> Result<Reply, AllocError>
    ensures { IfOk result (λ reply. IsReply reply.text.items reply.status
        (line (name.now ++ codes " conforms")) Status.Done) }
{
    let mut text = name.as_bytes().to_vec(alloc)?;
    text.extend_from_slice(b" conforms")?;
    text.push(b'\n')?;
    Ok(Reply {
        text,
        status: Status::Done,
    })
}

// The line of a function that doesn't conform: what differs, at the type of this index, counted from 0.
fn reply_to_difference(
    alloc: Global,
    what: &[u8],
    name: &str,
    index: u32,
) -> Result<Reply, AllocError>
    ensures { IfOk result (λ reply. IsReply reply.text.items reply.status
        (difference_line what.now name.now index) Status.NotConform) }
{
    let mut text = b"error 20: ".to_vec(alloc)?;
    text.extend_from_slice(what)?;
    text.extend_from_slice(b" of ")?;
    text.extend_from_slice(name.as_bytes())?;
    text.extend_from_slice(b", type ")?;
    push_number(&mut text, index)?;
    text.push(b'\n')?;
    Ok(Reply {
        text,
        status: Status::NotConform,
    })
}

// Adds the number of what has this index, counted from 0.
pub(crate) fn push_number(text: &mut Vec<u8>, index: u32) -> Result<(), AllocError>
    ensures { OnOk result (text.new.items ≡ text.old.items ++ decimal (index + 1)) }
{
    text.extend_from_slice(itoa::Buffer::new().format(index as u64 + 1).as_bytes())
}

// The label, a position in the word and the end of the line.
fn reply_positioned(label: Vec<u8>, word: &str, at: u32) -> Result<Reply, AllocError>
    ensures { IfOk result (λ reply. IsReply reply.text.items reply.status
        (positioned label.items word.now at) Status.Input) }
{
    let mut text = label;
    push_position(&mut text, word.as_bytes(), at)?;
    text.push(b'\n')?;
    Ok(Reply {
        text,
        status: Status::Input,
    })
}
