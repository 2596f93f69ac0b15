//! Instructions as they are written.
ghost use Rattle.std.specs.Prelude.{◌≡◌, ◌+◌, ◌<◌, ◌^◌, ◌++◌, ◌∷◌, [], length, get_or, slice_set, IfOk, OnOk};
ghost use Rattle.um_machine.specs.declared.op.Op.TheVariants.{Jump};
ghost use Rattle.um_gen.specs.Emitting.{op_where};

use std::alloc::Global;
use um_machine::{Op, Ops};
use um_units::NoMemory;

/// The instructions that are written so far, and the places of the variables in scope.
#[derive(Drop)]
pub(crate) struct Emitter {
    pub(crate) ops: Vec<Op>,
    pub(crate) places: Vec<u32>,
}

impl Emitter {
    pub(crate) fn new(alloc: Global) -> Emitter
        ensures ops { result.ops.items ≡ [] }
    {
        Emitter {
            ops: Vec::new(alloc),
            places: Vec::new(alloc),
        }
    }

    /// The instructions, handed over.
    pub(crate) fn into_ops(self) -> Ops
        ensures { result ≡ self.ops.items }
    {
        Ops::from_vec(self.ops)
    }

    /// The address of the next instruction.
    pub(crate) fn address(&self) -> u32
        requires { length self.now.ops.items < 2 ^ 32 }
        ensures { result ≡ length self.now.ops.items }
    {
        self.ops.len() as u32
    }

    /// The place of variable `k`; 0 if there is none, as in no formed program.
    pub(crate) fn place(&self, k: u32) -> u32
        ensures { result ≡ get_or self.now.places.items k 0 }
    {
        match self.places.get(k as usize) {
            Some(place) => *place,
            None => 0,
        }
    }

    /// Writes an instruction.
    pub(crate) fn put(&mut self, op: Op) -> Result<(), NoMemory>
        ensures ops { OnOk result (self.new.ops.items ≡ self.old.ops.items ++ op ∷ []) }
        ensures size { OnOk result (length self.new.ops.items ≡ length self.old.ops.items + 1) }
        ensures places { OnOk result (self.new.places.items ≡ self.old.places.items) }
    {
        self.ops.push(op)?;
        Ok(())
    }

    /// Writes an instruction if the test holds.
    pub(crate) fn put_where(&mut self, test: bool, op: Op) -> Result<(), NoMemory>
        ensures ops { OnOk result (self.new.ops.items ≡ self.old.ops.items ++ op_where test op) }
        ensures size { OnOk result (length self.new.ops.items ≡ length self.old.ops.items + length (op_where test op)) }
        ensures places { OnOk result (self.new.places.items ≡ self.old.places.items) }
    {
        match test {
            true => self.put(op),
            false => Ok(()),
        }
    }

    /// Leaves room for a jump whose target isn't known yet, and gives where that is.
    pub(crate) fn leave_room(&mut self) -> Result<usize, NoMemory>
        ensures at { IfOk result (λ at. at ≡ length self.old.ops.items) }
        ensures ops { OnOk result (self.new.ops.items ≡ self.old.ops.items ++ Jump 0 ∷ []) }
        ensures size { OnOk result (length self.new.ops.items ≡ length self.old.ops.items + 1) }
        ensures places { OnOk result (self.new.places.items ≡ self.old.places.items) }
    {
        let at = self.ops.len();
        self.put(Op::Jump(0))?;
        Ok(at)
    }

    /// Writes two instructions where room was left for them: a branch, and the jump from its first arm to what comes
    /// next.
    pub(crate) fn fill_room(&mut self, branch: usize, op: Op, end: usize)
        requires branch { branch < length self.old.ops.items }
        requires end { end < length self.old.ops.items }
        requires addresses { length self.old.ops.items < 2 ^ 32 }
        ensures ops { self.new.ops.items ≡ slice_set (slice_set self.old.ops.items branch op) end
            (Jump (length self.old.ops.items)) }
        ensures size { length self.new.ops.items ≡ length self.old.ops.items }
        ensures places { self.new.places.items ≡ self.old.places.items }
    {
        let next = self.address();
        self.ops[branch] = op;
        self.ops[end] = Op::Jump(next);
    }
}
