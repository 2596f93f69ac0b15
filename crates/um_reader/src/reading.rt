// The loop over the tokens.
ghost use Rattle.std.specs.Prelude.{◌≡◌, ◌≤◌, IfOk};
ghost use Rattle.um_reader.specs.Takes.{Takes};
ghost use Rattle.um_reader.specs.RunTo.{RunTo, RunAll, ended_at};
ghost use Rattle.um_reader.specs.declared.reading.ReadStop.TheVariants.{NoMemory};

use crate::reader::Reader;
use crate::taken::Taken;
use std::alloc::{AllocError, Global};

/// Why tokens are not read. The numbers of tokens count from 0; that of the end is the number of tokens.
#[derive(Clone, Copy)]
pub enum ReadStop {
    /// The tokens before this one, which is refused, or all tokens if it is the end, are no text.
    Syntax(usize),
    /// The tokens through this one begin texts, but none within the height.
    High(usize),
    NoMemory,
}

impl From<AllocError> for ReadStop {
    ghost from_gives = { λ _ e. e ≡ NoMemory };

    fn from(_e: AllocError) -> ReadStop {
        ReadStop::NoMemory
    }
}

// The tree of the tokens before this one, or that they are none.
fn ended_at<A>(found: Option<A>, k: usize) -> Result<(A, usize), ReadStop>
    ensures { result ≡ ended_at found k }
{
    match found {
        Some(tree) => Ok((tree, k)),
        None => Err(ReadStop::Syntax(k)),
    }
}

// One token more, of which the reader takes a copy.
fn take_copy<R: Reader + Drop>(
    alloc: Global,
    reader: &mut R,
    token: &R::Token,
) -> Result<Taken, AllocError>
    requires low { R.machine.least (R.state_in reader.old) ≤ R.limit }
    ensures taken { IfOk result (λ t. Takes R.machine R.limit (R.state_in reader.old) token.now t
        (R.state_in reader.new)) }
{
    let mut copy = R::copy(alloc, token)?;
    let taken = reader.take(alloc, &mut copy);
    drop(copy);
    taken
}

/// Reads up to the stop: the first token that is refused, or the end. Gives the tree of the tokens before it, and its
/// number.
pub fn read<R: Reader + Drop>(
    alloc: Global,
    tokens: &[R::Token],
) -> Result<(R::Tree, usize), ReadStop>
    ensures { RunTo R.machine R.limit R.view tokens.now result }
{
    let mut reader = R::new(alloc);
    for (i, token) in tokens.iter().enumerate() {
        match take_copy(alloc, &mut reader, token)? {
            Taken::Goes => {}
            Taken::Stops => return ended_at(reader.finish(alloc)?, i),
            Taken::High => return Err(ReadStop::High(i)),
        }
    }
    ended_at(reader.finish(alloc)?, tokens.len())
}

/// Reads all tokens.
pub fn read_all<R: Reader + Drop>(alloc: Global, tokens: &[R::Token]) -> Result<R::Tree, ReadStop>
    ensures { RunAll R.machine R.limit R.view tokens.now result }
{
    let (tree, stop) = read::<R>(alloc, tokens)?;
    if stop < tokens.len() {
        drop(tree);
        return Err(ReadStop::Syntax(stop));
    }
    Ok(tree)
}
