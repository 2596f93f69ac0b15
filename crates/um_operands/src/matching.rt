// A `match` that has begun, with its empty arm.
ghost use Rattle.std.specs.Prelude.{◌≡◌, IfOk};
ghost use Rattle.um_tree.specs.RawTree.{binder_syntax, match_syntax};
ghost use Rattle.um_operands.specs.ExprOperands.{operand_expr};

use crate::operand::Operand;
use std::alloc::{AllocError, Global};
use um_tree::{Binder, RawExpr, RawNode};
use um_unit_texts::{higher, one_higher};

/// A `match` up to the bar of its full arm: its place, the list, and the expression of the empty arm.
pub struct Matching {
    pub at: u32,
    pub list: Operand,
    pub empty: Operand,
}

// A derived drop would be proved anew in each crate that lets such a `match` go. This one is proved here.
impl Drop for Matching {
    fn drop(self) {
        let Matching {
            at: _,
            list: _,
            empty: _,
        } = self;
    }
}

impl Matching {
    /// `match list with [] -> empty | head :: tail -> full`
    pub fn whole(
        self,
        alloc: Global,
        head: Box<Binder>,
        tail: Box<Binder>,
        full: Operand,
    ) -> Result<Operand, AllocError>
        ensures { IfOk result (λ p. operand_expr p
            ≡ match_syntax self.at (operand_expr self.list) (operand_expr self.empty)
            (binder_syntax head.value) (binder_syntax tail.value) (operand_expr full)) }
    {
        let Matching { at, list, empty } = self;
        let height = one_higher(higher(list.height, higher(empty.height, full.height)));
        let node = RawNode::Match(list.tree, empty.tree, head, tail, full.tree);
        Operand::of_tree(alloc, RawExpr { at, node }, height)
    }
}
