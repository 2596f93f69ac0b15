//! What has arrived at the addresses of a function.
ghost use Rattle.std.specs.Prelude.{◌≡◌, ◌≢◌, ◌<◌, ◌-◌, ◌+◌, ℕ, List, IfOk, OnOk, length, vec_len};
ghost use Rattle.um_verify.specs.Verified.{merge, sends};
ghost use Rattle.um_stacks.specs.Stacks.{shapes_at, Grows};
ghost use Rattle.um_stacks.specs.declared.flat.FlatShape.{FlatShape};
ghost use Rattle.um_verifier.specs.Tables.{met_of, met_at, state_of, flow_of, FailsIf, StaysIn};
ghost use Rattle.um_verifier.specs.Tables.{IsMetBelow, AreMetBelow};

use std::alloc::{AllocError, Global};
use um_stacks::{FlatShape, Stacks};

/// What has arrived at an address.
#[derive(Clone, Copy)]
pub(crate) enum Met {
    /// No state
    Nobody,
    /// States that have no join
    Clash,
    /// States whose join is the stack of this number
    Arrived(u32),
}

/// What an instruction pushes, the deeper shape first.
#[derive(Clone, Copy)]
pub(crate) enum Pushed {
    Nothing,
    One(FlatShape),
    Two(FlatShape, FlatShape),
}

/// A state that is passed on to an address: the number of a stack, and what is pushed on it. A stack has the shapes of
/// the running function's own values, the deepest first.
#[derive(Clone, Copy)]
pub(crate) struct Sent {
    pub(crate) to: u32,
    pub(crate) low: u32,
    pub(crate) pushed: Pushed,
}

/// The number of a state that is passed on.
fn number_of(stacks: &mut Stacks, sent: Sent) -> Result<u32, AllocError>
    ensures number { IfOk result (λ k. k < length stacks.new) }
    ensures state { IfOk result (λ k. shapes_at stacks.new k ≡ state_of stacks.old sent) }
    ensures grows { OnOk result (Grows stacks.old stacks.new) }
{
    match sent.pushed {
        Pushed::Nothing => Ok(stacks.known(sent.low)),
        Pushed::One(s) => stacks.push(sent.low, s),
        Pushed::Two(s, t) => {
            let next = stacks.push(sent.low, s)?;
            stacks.push(next, t)
        }
    }
}

/// What has arrived after one more stack. If it is the first, it is taken as it is.
fn merged(alloc: Global, stacks: &mut Stacks, met: Met, stack: u32) -> Result<Met, AllocError>
    requires { stack < length stacks.old }
    ensures met { IfOk result (λ m. met_of stacks.new m ≡ merge (met_of stacks.old met) (shapes_at stacks.old stack)) }
    ensures below { IfOk result (IsMetBelow (length stacks.new)) }
    ensures grows { OnOk result (Grows stacks.old stacks.new) }
{
    match met {
        Met::Nobody => Ok(Met::Arrived(stack)),
        Met::Clash => Ok(Met::Clash),
        Met::Arrived(old) => match stacks.join(alloc, old, stack)? {
            None => Ok(Met::Clash),
            Some(join) => Ok(Met::Arrived(join)),
        },
    }
}

/// One more state arrives at a place of the table.
fn arrive(
    alloc: Global,
    stacks: &mut Stacks,
    table: &mut Vec<Met>,
    place: usize,
    sent: Sent,
) -> Result<(), AllocError>
    requires place { place < vec_len table.old }
    requires below { AreMetBelow (length stacks.old) table.old.items }
    ensures length { OnOk result (vec_len table.new ≡ vec_len table.old) }
    ensures place { OnOk result (met_at stacks.new table.new.items place ≡ merge
        (met_at stacks.old table.old.items place) (state_of stacks.old sent)) }
    ensures others { OnOk result ((t : ℕ) → t ≢ place → met_at stacks.new table.new.items t ≡ met_at stacks.old
        table.old.items t) }
    ensures below { OnOk result (AreMetBelow (length stacks.new) table.new.items) }
    ensures grows { OnOk result (Grows stacks.old stacks.new) }
{
    let stack = number_of(stacks, sent)?;
    let met = merged(alloc, stacks, table[place], stack)?;
    table[place] = met;
    Ok(())
}

/// What an address passes on.
#[derive(Clone, Copy)]
pub(crate) enum Flow {
    /// Its rule fails
    Fails,
    /// Nothing
    Ends,
    Goes(Sent),
    Forks(Sent, Sent),
}

impl Flow {
    /// Whether the rule failed.
    pub(crate) fn has_failed(&self) -> bool
        ensures { (stacks : List (List FlatShape)) → FailsIf result (flow_of stacks self.now) }
    {
        match self {
            Flow::Fails => true,
            Flow::Ends => false,
            Flow::Goes(_) => false,
            Flow::Forks(_, _) => false,
        }
    }
}

/// The same state, by a number that stays a stack's.
fn settled(stacks: &Stacks, sent: Sent) -> Sent
    ensures number { result.low < length stacks.now }
    ensures state { state_of stacks.now result ≡ state_of stacks.now sent }
    ensures to { result.to ≡ sent.to }
{
    Sent {
        to: sent.to,
        low: stacks.known(sent.low),
        pushed: sent.pushed,
    }
}

/// What is passed on arrives, where place 0 of the table is the address `start`.
pub(crate) fn send(
    alloc: Global,
    stacks: &mut Stacks,
    table: &mut Vec<Met>,
    start: u32,
    flow: Flow,
) -> Result<(), AllocError>
    requires stays { StaysIn start (start + vec_len table.old) flow }
    requires below { AreMetBelow (length stacks.old) table.old.items }
    ensures length { OnOk result (vec_len table.new ≡ vec_len table.old) }
    ensures gathered { OnOk result ((t : ℕ) → met_at stacks.new table.new.items t ≡ sends
        (met_at stacks.old table.old.items t) (flow_of stacks.old flow) (start + t)) }
    ensures below { OnOk result (AreMetBelow (length stacks.new) table.new.items) }
{
    match flow {
        Flow::Fails => Ok(()),
        Flow::Ends => Ok(()),
        Flow::Goes(p) => {
            arrive(alloc, stacks, table, (p.to - start) as usize, p)?;
            Ok(())
        }
        Flow::Forks(p, q) => {
            let other = settled(stacks, q);
            arrive(alloc, stacks, table, (p.to - start) as usize, p)?;
            arrive(alloc, stacks, table, (other.to - start) as usize, other)?;
            Ok(())
        }
    }
}
