//! What the types of nodes come to, as a contract of a function that does nothing. A crate above cites the law.
ghost use Rattle.um_annot.specs.Laws.{AnnotationsArePrincipal};

/// The types of a function's nodes are most general: the derivations of the function's typings, node by node, are
/// exactly the instances of them and of the function's scheme.
pub fn annotations()
    ensures principal { AnnotationsArePrincipal }
{}
