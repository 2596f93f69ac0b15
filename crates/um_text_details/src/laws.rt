//! What is expected, as a contract of a function that does nothing.
ghost use Rattle.um_text_details.specs.Laws.{ExpectedWordsAreUnique, WordsAreToldIfTheyStand};

/// A word is told exactly if its token there goes on beginning a program: a name, a variable, a hole and a reserved
/// word by itself, a sign by itself or by the one word for all operators. One list of words is expected at a place.
pub fn words()
    ensures told { WordsAreToldIfTheyStand }
    ensures unique { ExpectedWordsAreUnique }
{}
