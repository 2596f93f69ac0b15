// Reading a whole text.
ghost use Rattle.std.specs.Prelude.{◌≡◌, ◌≤◌, [], length, IfOk, OnOk, IsErrOf};
ghost use Rattle.std.specs.Io.KnownBytes.{IsAtEnd};
ghost use Rattle.um_wire.specs.Faults.{Rose};
ghost use Rattle.um_wire.specs.Bytes.{Tells, TellsMoreThan, TellsPrefix, ReadsPast};
ghost use Rattle.um_wire.specs.declared.read.ReadStop.TheVariants.{Failed as ReadFailed, NoMemory as OutOfMemory};

use crate::{Failed, Source, Taker};
use std::alloc::{AllocError, Global};
use thiserror::Error;

/// Why a text was not read.
#[derive(Clone, Copy, Debug, Error)]
pub enum ReadStop {
    /// A read failed, and its fault is counted at the source.
    #[error("a read failed")]
    Failed,
    /// The text has more bytes than the limit.
    #[error("the text is too long")]
    TooLong,
    /// Memory ran out.
    #[error("out of memory")]
    NoMemory,
}

impl From<Failed> for ReadStop {
    ghost from_gives = { λ _ stop. stop ≡ ReadFailed };

    fn from(_: Failed) -> Self {
        ReadStop::Failed
    }
}

impl From<AllocError> for ReadStop {
    ghost from_gives = { λ _ stop. stop ≡ OutOfMemory };

    fn from(_: AllocError) -> Self {
        ReadStop::NoMemory
    }
}

// How many bytes a read asks for.
const PIECE: usize = 4096;

/// Reads all bytes that are left in `source`, if they number at most `limit`.
///
/// # Errors
///
/// `TooLong` exactly if byte `limit + 1` was read, `Failed` only if the source counted a fault, and `NoMemory`. After
/// any other answer than `Failed` the source counted no fault.
pub fn read_text<S: Source>(
    alloc: Global,
    source: &mut S,
    limit: usize,
) -> Result<Vec<u8>, ReadStop>
    ensures text { IfOk result (λ text. Tells (S.left source.old) text.items) }
    ensures fits { IfOk result (λ text. length text.items ≤ limit) }
    ensures end { OnOk result (IsAtEnd (S.left source.new)) }
    ensures too_long { IsErrOf result ReadStop.TooLong → TellsMoreThan limit (S.left source.old) }
    ensures past_limit { ReadsPast limit (IsErrOf result ReadStop.TooLong)
        (S.left source.old) (S.left source.new) }
    ensures no_fault { ¬ IsErrOf result ReadStop.Failed → S.faults source.new ≡ S.faults source.old }
    ensures never_falls { S.faults source.old ≤ S.faults source.new }
    ensures failed { IsErrOf result ReadStop.Failed →
        Rose (S.faults source.old) (S.faults source.new) }
{
    let mut text = Vec::new(alloc);
    read_into(source, limit, &mut text)?;
    Ok(text)
}

/// Hands all bytes that are left in `source` on to `taker`, piece by piece, if they number at most `limit`. The taker
/// is given at most `limit` bytes.
///
/// # Errors
///
/// `TooLong` exactly if byte `limit + 1` was read, `Failed` only if the source counted a fault, and `NoMemory`. After
/// any other answer than `Failed` the source counted no fault. After `TooLong` and `Failed` the taker has taken a
/// prefix of the bytes that were left.
pub fn read_into<S: Source, T: Taker>(
    source: &mut S,
    limit: usize,
    taker: &mut T,
) -> Result<(), ReadStop>
    requires empty { T.taken taker.old ≡ [] }
    requires room { limit ≤ T.most taker.old }
    ensures text { OnOk result (Tells (S.left source.old) (T.taken taker.new)) }
    ensures end { OnOk result (IsAtEnd (S.left source.new)) }
    ensures too_long { IsErrOf result ReadStop.TooLong → TellsMoreThan limit (S.left source.old) }
    ensures past_limit { ReadsPast limit (IsErrOf result ReadStop.TooLong)
        (S.left source.old) (S.left source.new) }
    ensures prefix { ¬ IsErrOf result ReadStop.NoMemory →
        TellsPrefix (S.left source.old) (T.taken taker.new) }
    ensures fits { ¬ IsErrOf result ReadStop.NoMemory → length (T.taken taker.new) ≤ limit }
    ensures most { T.most taker.new ≡ T.most taker.old }
    ensures no_fault { ¬ IsErrOf result ReadStop.Failed → S.faults source.new ≡ S.faults source.old }
    ensures never_falls { S.faults source.old ≤ S.faults source.new }
    ensures failed { IsErrOf result ReadStop.Failed →
        Rose (S.faults source.old) (S.faults source.new) }
{
    let mut room = limit;
    let mut piece = [0u8; PIECE];
    loop {
        let count = source.read(&mut piece)?;
        if count == 0 {
            return Ok(());
        }
        if room < count {
            return Err(ReadStop::TooLong);
        }
        taker.take(&piece[..count])?;
        room -= count;
    }
}
