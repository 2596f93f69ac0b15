// The nodes of expressions that no token after them makes more of.

/// All but a name, a number and a whole power, as one pattern.
#[macro_export]
macro_rules! composite {
    () => {
        RawNode::Bool(_)
            | RawNode::Call(_, _)
            | RawNode::Neg(_)
            | RawNode::Not(_)
            | RawNode::Arith(_, _, _)
            | RawNode::Compare(_, _, _)
            | RawNode::And(_, _)
            | RawNode::Or(_, _)
            | RawNode::If(_, _, _)
            | RawNode::Let(_, _, _)
            | RawNode::Match(_, _, _, _, _)
            | RawNode::Nil(_)
            | RawNode::List(_)
            | RawNode::Cons(_, _)
            | RawNode::Rec(_)
            | RawNode::Field(_, _, _)
            | RawNode::Bracket(_)
    };
}
