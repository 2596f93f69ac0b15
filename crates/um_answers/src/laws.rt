//! Laws of the answers' definitions. A call does nothing: what it ensures is the law.
ghost use Rattle.um_answers.specs.Laws.{LiteralsBeginTokens};

/// If a literal can't be rescaled, the place that is told is that of its first token.
pub fn literals_begin_tokens()
    ensures { LiteralsBeginTokens }
{}
