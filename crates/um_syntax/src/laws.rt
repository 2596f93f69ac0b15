//! Laws of the definitions of tokens. A call does nothing: what it ensures is the law.
ghost use Rattle.um_syntax.specs.Laws.{EachTextIsAnswered, TokensAreUnique, FaultIsUnique, TokensExcludeFault};
ghost use Rattle.um_syntax.specs.Laws.{NoTokenIsLonger, TokensMakeUpText};

/// Each text has tokens or a fault.
pub fn each_text_is_answered()
    ensures { EachTextIsAnswered }
{}

/// The tokens of a text are unique.
pub fn tokens_are_unique()
    ensures { TokensAreUnique }
{}

/// The leftmost fault of a text is unique.
pub fn fault_is_unique()
    ensures { FaultIsUnique }
{}

/// A text with tokens has no fault.
pub fn tokens_exclude_fault()
    ensures { TokensExcludeFault }
{}

/// If a token's text may end, no longer token stands at its place.
pub fn no_token_is_longer()
    ensures { NoTokenIsLonger }
{}

/// The tokens and what is skipped make up the text.
pub fn tokens_make_up_text()
    ensures { TokensMakeUpText }
{}
