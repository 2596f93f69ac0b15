// The operators that stand between two operands, and how tightly they bind.
ghost use Rattle.std.specs.Prelude.{◌≡◌};

use um_tree::{Arith, Sign};

/// What stands between two operands.
#[derive(Clone, Copy)]
pub enum Infix {
    Or,
    And,
    Compare(Sign),
    Cons,
    Arith(Arith),
}

impl Infix {
    ghost use Rattle.um_operands.specs.Ranks.{infix_rank, left_limit, right_bound};

    /// How tightly the operator binds, from `*` and `/` (3) to `||` (8).
    #[inline(always)]
    pub fn rank(self) -> u8
        ensures { result ≡ infix_rank self }
    {
        match self {
            Infix::Or => 8,
            Infix::And => 7,
            Infix::Compare(_) => 6,
            Infix::Cons => 5,
            Infix::Arith(Arith::Add) => 4,
            Infix::Arith(Arith::Sub) => 4,
            Infix::Arith(Arith::Mul) => 3,
            Infix::Arith(Arith::Div) => 3,
        }
    }

    /// The greatest rank of its left operand.
    #[inline(always)]
    pub fn left_limit(self) -> u8
        ensures { result ≡ left_limit self }
    {
        match self {
            Infix::Or => 8,
            Infix::And => 7,
            Infix::Compare(_) => 5,
            Infix::Cons => 4,
            Infix::Arith(Arith::Add) => 4,
            Infix::Arith(Arith::Sub) => 4,
            Infix::Arith(Arith::Mul) => 3,
            Infix::Arith(Arith::Div) => 3,
        }
    }

    /// The rank of its right operand lies below this.
    #[inline(always)]
    pub fn right_bound(self) -> u8
        ensures { result ≡ right_bound self }
    {
        match self {
            Infix::Or => 8,
            Infix::And => 7,
            Infix::Compare(_) => 6,
            Infix::Cons => 6,
            Infix::Arith(Arith::Add) => 4,
            Infix::Arith(Arith::Sub) => 4,
            Infix::Arith(Arith::Mul) => 3,
            Infix::Arith(Arith::Div) => 3,
        }
    }
}
