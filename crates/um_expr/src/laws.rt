//! The law of the reader of expressions, by the grammar alone. A call does nothing: what it ensures is the law.
ghost use Rattle.um_expr.specs.Laws.{ExprReaderReads};

/// The reader of expressions reads their grammar.
///
/// No two expressions have the same tokens. What [`crate::ExprReader::take`] answers to a token tells that the tokens
/// through it begin an expression within the heights, and the reader goes on; or that they begin none, and the reader
/// still ends as before the token; or that they begin expressions, but none within the heights. What
/// [`crate::ExprReader::finish`] answers is the expression of the tokens that were taken, or that they are none.
pub fn expr_reader_reads()
    ensures { ExprReaderReads }
{}
