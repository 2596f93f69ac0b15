//! Laws of the grammar of programs. A call does nothing: what it ensures is the law.
ghost use Rattle.um_parse.specs.Laws.{ProgramsAreUnique, AnswersAreUnique, DeclarationsAreCut};
ghost use Rattle.um_parse.specs.Laws.{EachListIsAnswered, ProgramsAreDecided};

/// No other program has the same tokens.
pub fn programs_are_unique()
    ensures { ProgramsAreUnique }
{}

/// The clause of [`crate::parse`] allows one answer to each list of tokens, apart from want of memory.
pub fn answers_are_unique()
    ensures { AnswersAreUnique }
{}

/// Each list of tokens is a program within the limits, or there is a refusal of it. Whether tokens begin a program, and
/// whether they are one, is decided.
pub fn each_list_is_answered()
    ensures answered { EachListIsAnswered }
    ensures decided { ProgramsAreDecided }
{}

/// After a program a token that begins a declaration begins the next one: what the tokens from there on begin or are,
/// all tokens begin or are.
pub fn declarations_are_cut()
    ensures { DeclarationsAreCut }
{}
