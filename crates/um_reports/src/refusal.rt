// The lines of refusals.
ghost use Rattle.std.specs.Prelude.{◌≡◌, ◌++◌, IfOk, codes};
ghost use Rattle.um_reports.specs.Refusals.{IsReadReply, IsTextReply, IsParseReply, IsNameReply, IsShapeReply};
ghost use Rattle.um_reports.specs.Refusals.{IsUnitsReply, IsNotGeneralReply, IsRangeReply, IsSlotsReply, placed};
ghost use Rattle.um_reports.specs.Refusals.{IsCertificateReply};
ghost use Rattle.um_reports.specs.Refusals.{limit_label as label_of_limit};
ghost use Rattle.um_reports.specs.Steps.{IsReply, line};

use crate::Status;
use crate::place::push_place;
use crate::reply::Reply;
use std::alloc::{AllocError, Global};
use um_measures::NameStop;
use um_shape::ShapeStop;
use um_syntax::TextStop;
use um_tree::Name;
use um_types::{LimitKind, ParseStop};
use um_wire::ReadStop;

/// A reply of one line.
pub fn reply_line(alloc: Global, text: &str, status: Status) -> Result<Reply, AllocError>
    ensures { IfOk result (λ reply. IsReply reply.text.items reply.status (line text.now) status) }
{
    let mut bytes = text.as_bytes().to_vec(alloc)?;
    bytes.push(b'\n')?;
    Ok(Reply {
        text: bytes,
        status,
    })
}

/// A reply of one line that ends with a place.
pub(crate) fn reply_at(
    alloc: Global,
    label: &str,
    bytes: &[u8],
    at: u32,
    status: Status,
) -> Result<Reply, AllocError>
    ensures { IfOk result (λ reply. IsReply reply.text.items reply.status (placed label.now bytes.now at) status) }
{
    reply_labelled(label.as_bytes().to_vec(alloc)?, bytes, at, status)
}

/// The refusal of what the source has left, which was not read.
pub fn reply_to_unread(alloc: Global, stop: ReadStop) -> Result<Reply, AllocError>
    ensures { IfOk result (λ reply. IsReadReply stop reply.text.items reply.status) }
{
    match stop {
        ReadStop::TooLong => reply_line(alloc, "error 2: text too long", Status::TooLong),
        ReadStop::Failed => reply_line(alloc, "error 15: read", Status::ReadFault),
        ReadStop::NoMemory => Err(AllocError),
    }
}

/// The refusal of a text that has no tokens.
pub fn reply_to_text(alloc: Global, bytes: &[u8], stop: TextStop) -> Result<Reply, AllocError>
    ensures { IfOk result (λ reply. IsTextReply bytes.now stop reply.text.items reply.status) }
{
    match stop {
        TextStop::Utf8 { at } => reply_at(alloc, "error 3: not UTF-8 at ", bytes, at, Status::Utf8),
        TextStop::BadChar { at } => {
            reply_at(alloc, "error 4: character at ", bytes, at, Status::Lexical)
        }
        TextStop::NumberRange { at } => {
            reply_at(alloc, "error 4: number at ", bytes, at, Status::Lexical)
        }
        TextStop::PowerText { at } => {
            reply_at(alloc, "error 4: power at ", bytes, at, Status::Lexical)
        }
        TextStop::NoMemory => Err(AllocError),
    }
}

/// The refusal of tokens that are no program within the limits.
pub fn reply_to_tokens(alloc: Global, bytes: &[u8], stop: ParseStop) -> Result<Reply, AllocError>
    ensures { IfOk result (λ reply. IsParseReply bytes.now stop reply.text.items reply.status) }
{
    match stop {
        ParseStop::Syntax { at } => {
            reply_at(alloc, "error 5: syntax at ", bytes, at, Status::Syntax)
        }
        ParseStop::Limit { kind, at } => {
            reply_at(alloc, limit_label(kind), bytes, at, Status::Limit)
        }
        ParseStop::NoMemory => Err(AllocError),
    }
}

fn limit_label(kind: LimitKind) -> &'static str
    ensures { result.now ≡ label_of_limit kind }
{
    match kind {
        LimitKind::Height => "error 6: limit height at ",
        LimitKind::Functions => "error 6: limit functions at ",
        LimitKind::Parameters => "error 6: limit parameters at ",
        LimitKind::Fields => "error 6: limit fields at ",
        LimitKind::UnitParameters => "error 6: limit unit parameters at ",
        LimitKind::Nodes => "error 6: limit nodes at ",
        LimitKind::Depth => "error 6: limit depth at ",
        LimitKind::Slots => "error 6: limit slots at ",
    }
}

/// The refusal of names.
pub fn reply_to_names(alloc: Global, bytes: &[u8], stop: NameStop) -> Result<Reply, AllocError>
    ensures { IfOk result (λ reply. IsNameReply bytes.now stop reply.text.items reply.status) }
{
    match stop {
        NameStop::Unknown { at } => {
            reply_at(alloc, "error 7: unknown name at ", bytes, at, Status::Names)
        }
        NameStop::Twice { at } => {
            reply_at(
                alloc,
                "error 7: declared twice at ",
                bytes,
                at,
                Status::Names,
            )
        }
        NameStop::WrongCount { at } => {
            reply_at(alloc, "error 7: wrong count at ", bytes, at, Status::Names)
        }
        NameStop::Hole { at } => reply_at(alloc, "error 7: hole at ", bytes, at, Status::Names),
        NameStop::Range { at } => reply_at(
            alloc,
            "error 10: power range at ",
            bytes,
            at,
            Status::PowerRange,
        ),
        NameStop::NoMemory => Err(AllocError),
    }
}

/// The refusal of shapes.
pub fn reply_to_shapes(alloc: Global, bytes: &[u8], stop: ShapeStop) -> Result<Reply, AllocError>
    ensures { IfOk result (λ reply. IsShapeReply bytes.now stop reply.text.items reply.status) }
{
    match stop {
        ShapeStop::Shape { at } => reply_at(alloc, "error 8: shape at ", bytes, at, Status::Shape),
        ShapeStop::Depth { at } => reply_at(
            alloc,
            limit_label(LimitKind::Depth),
            bytes,
            at,
            Status::Limit,
        ),
        ShapeStop::NoMemory => Err(AllocError),
    }
}

/// The refusal of a function of this name that has no typing.
pub fn reply_to_units(
    alloc: Global,
    bytes: &[u8],
    name: &Name,
    at: u32,
) -> Result<Reply, AllocError>
    ensures { IfOk result (λ reply. IsUnitsReply bytes.now name.now at reply.text.items reply.status) }
{
    reply_named(alloc, b"error 9: units of ", name, bytes, at, Status::Units)
}

/// The refusal of a function of this name that is less general than its unit parameters say.
pub fn reply_to_not_general(
    alloc: Global,
    bytes: &[u8],
    name: &Name,
    at: u32,
) -> Result<Reply, AllocError>
    ensures { IfOk result (λ reply. IsNotGeneralReply bytes.now name.now at reply.text.items reply.status) }
{
    reply_named(
        alloc,
        b"error 19: not general in ",
        name,
        bytes,
        at,
        Status::NotGeneral,
    )
}

/// The refusal of a function of this name that forms a power past the range.
pub fn reply_to_range(
    alloc: Global,
    bytes: &[u8],
    name: &Name,
    at: u32,
) -> Result<Reply, AllocError>
    ensures { IfOk result (λ reply. IsRangeReply bytes.now name.now at reply.text.items reply.status) }
{
    reply_named(
        alloc,
        b"error 10: power range of ",
        name,
        bytes,
        at,
        Status::PowerRange,
    )
}

/// The refusal of a function, whose name stands at the place, that has too many slots.
pub fn reply_to_slots(alloc: Global, bytes: &[u8], at: u32) -> Result<Reply, AllocError>
    ensures { IfOk result (λ reply. IsSlotsReply bytes.now at reply.text.items reply.status) }
{
    reply_at(
        alloc,
        limit_label(LimitKind::Slots),
        bytes,
        at,
        Status::Limit,
    )
}

/// The refusal of the function of this name, of which no certificate is made: the number is too large for one.
pub fn reply_to_certificate(alloc: Global, name: &Name, number: i128) -> Result<Reply, AllocError>
    ensures { IfOk result (λ reply. IsCertificateReply name.now number reply.text.items reply.status) }
{
    let mut text = b"error 21: certificate of ".to_vec(alloc)?;
    text.extend_from_slice(name.as_slice())?;
    text.extend_from_slice(b": number ")?;
    text.extend_from_slice(itoa::Buffer::new().format(number).as_bytes())?;
    text.push(b'\n')?;
    Ok(Reply {
        text,
        status: Status::CertRange,
    })
}

// A reply of one line that holds a name and ends with a place.
fn reply_named(
    alloc: Global,
    before: &[u8],
    name: &Name,
    bytes: &[u8],
    at: u32,
    status: Status,
) -> Result<Reply, AllocError>
    ensures { IfOk result (λ reply. IsReply reply.text.items reply.status
        (placed (before.now ++ name.now ++ codes " at ") bytes.now at) status) }
{
    let mut label = before.to_vec(alloc)?;
    label.extend_from_slice(name.as_slice())?;
    label.extend_from_slice(b" at ")?;
    reply_labelled(label, bytes, at, status)
}

// The label, a place and the end of the line.
fn reply_labelled(
    label: Vec<u8>,
    bytes: &[u8],
    at: u32,
    status: Status,
) -> Result<Reply, AllocError>
    ensures { IfOk result (λ reply. IsReply reply.text.items reply.status (placed label.items bytes.now at) status) }
{
    let mut text = label;
    push_place(&mut text, bytes, at)?;
    text.push(b'\n')?;
    Ok(Reply { text, status })
}
