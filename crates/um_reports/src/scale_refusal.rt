// The lines of refused sizes, of numbers that don't fit, and of two runs.
ghost use Rattle.std.specs.Prelude.{◌≡◌, IfOk};
ghost use Rattle.um_reports.specs.ScaleRefusals.{IsSizesReply, IsLiteralReply, IsMisfitReply, IsRunTrapReply};
ghost use Rattle.um_reports.specs.ScaleRefusals.{trap_name};

use crate::Status;
use crate::call_refusal::push_number;
use crate::refusal::{reply_at, reply_line};
use crate::reply::Reply;
use std::alloc::{AllocError, Global};
use um_frac::Trap;
use um_sizes::ScalesRefusal;

/// The refusal of sizes of base units.
pub fn reply_to_sizes(alloc: Global, refusal: ScalesRefusal) -> Result<Reply, AllocError>
    ensures { IfOk result (λ reply. IsSizesReply refusal reply.text.items reply.status) }
{
    match refusal {
        ScalesRefusal::NoBaseUnit => {
            reply_line(alloc, "error 11: no such base unit", Status::Input)
        }
        ScalesRefusal::NoMemory => Err(AllocError),
    }
}

/// The refusal of the literal at the place, whose rescaled number is out of range.
pub fn reply_to_literal(alloc: Global, bytes: &[u8], at: u32) -> Result<Reply, AllocError>
    ensures { IfOk result (λ reply. IsLiteralReply bytes.now at reply.text.items reply.status) }
{
    reply_at(
        alloc,
        "error 14: literal at ",
        bytes,
        at,
        Status::ScaleRange,
    )
}

/// The refusal of the argument of this index, counted from 0, with a number whose rescaled number is out of range.
pub fn reply_to_misfit(alloc: Global, index: u32) -> Result<Reply, AllocError>
    ensures { IfOk result (λ reply. IsMisfitReply index reply.text.items reply.status) }
{
    let mut text = b"error 14: argument ".to_vec(alloc)?;
    push_number(&mut text, index)?;
    text.push(b'\n')?;
    Ok(Reply {
        text,
        status: Status::ScaleRange,
    })
}

/// The line of a run, `first` or `second`, that ended with a trap.
pub fn reply_to_run_trap(alloc: Global, run: &str, trap: Trap) -> Result<Reply, AllocError>
    ensures { IfOk result (λ reply. IsRunTrapReply run.now trap reply.text.items reply.status) }
{
    let mut text = b"error 12: ".to_vec(alloc)?;
    text.extend_from_slice(run.as_bytes())?;
    text.extend_from_slice(b" run: ")?;
    text.extend_from_slice(name_of(trap).as_bytes())?;
    text.push(b'\n')?;
    Ok(Reply {
        text,
        status: Status::Trap,
    })
}

/// What stopped a run.
fn name_of(trap: Trap) -> &'static str
    ensures { result.now ≡ trap_name trap }
{
    match trap {
        Trap::Overflow => "overflow",
        Trap::DivZero => "division by zero",
    }
}
