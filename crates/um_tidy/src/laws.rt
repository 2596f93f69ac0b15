//! Laws of texts laid out anew, and of programs laid out. A call does nothing: what it ensures is the law.
ghost use Rattle.um_tidy.specs.Laws.{TokensStay, CommentsStay, TidiedStays};
ghost use Rattle.um_tidy.specs.ProgramLaws.{LayoutIsTidy, LayoutStays, ProgramStays};

/// The text laid out anew has the same tokens in the same order, as they were spelled.
pub fn tokens_stay()
    ensures { TokensStay }
{}

/// The text laid out anew has the same comments in the same order, less the white space at their ends.
pub fn comments_stay()
    ensures { CommentsStay }
{}

/// The text laid out anew is laid out as it stands.
pub fn tidied_stays()
    ensures { TidiedStays }
{}

/// The layout of a program has the spaces and the lines of a text laid out anew: laid out anew, it stays as it is.
pub fn layout_is_tidy()
    ensures { LayoutIsTidy }
{}

/// The text of a program laid out anew is read as the same program, places aside.
pub fn program_stays()
    ensures { ProgramStays }
{}

/// The layout of a text laid out anew is the layout of the text.
pub fn layout_stays()
    ensures { LayoutStays }
{}
