//! Laws that join the tokens, the grammar and the names, and laws of refused texts and words. A call does nothing: what
//! it ensures is the law.
ghost use Rattle.um_front.specs.Laws.{RefusalsTellPlaces, ArgumentsTellPlaces, SignaturesTellPlaces};
ghost use Rattle.um_front.specs.PlaceLaws.{TokensAreWithin, ReadProgramsAreReadable, NamesAreWithin, NodesHavePlaces};
ghost use Rattle.um_front.specs.PlaceLaws.{TokensBeginCharacters, SyntaxFaultsBeginTokens, ProgramsBeginTokens};
ghost use Rattle.um_front.specs.PlaceLaws.{LexicalFaultsHavePlaces, NameFaultsBeginTokens};

/// A text has no more tokens than characters.
pub fn tokens_are_within()
    ensures { TokensAreWithin }
{}

/// What is read from a text of at most 1,048,576 characters can be resolved.
pub fn read_programs_are_readable()
    ensures { ReadProgramsAreReadable }
{}

/// No name of a base unit, a record, a field or a function is longer than the text of its program, in bytes.
pub fn names_are_within()
    ensures { NamesAreWithin }
{}

/// Each node of a program stands before a character of its text.
pub fn nodes_have_places()
    ensures { NodesHavePlaces }
{}

/// Each place in a program, and each place where a text is refused for its syntax or its names, is that of a token, or
/// the end of the text. A token begins at a character, and a text without tokens is refused at one.
pub fn places_begin_tokens()
    ensures tokens { TokensBeginCharacters }
    ensures characters { LexicalFaultsHavePlaces }
    ensures syntax { SyntaxFaultsBeginTokens }
    ensures programs { ProgramsBeginTokens }
    ensures names { NameFaultsBeginTokens }
{}

/// Each line that refuses a text ends with the line and column of a place of it: where it stops being UTF-8, of a
/// character if it has no tokens, and otherwise where a token begins or where the text ends.
pub fn refusals_tell_places()
    ensures { RefusalsTellPlaces }
{}

/// An argument or a signature is refused at a character of its word if the word has no tokens, and otherwise where a
/// token of it begins or at its end.
pub fn word_refusals_tell_places()
    ensures arguments { ArgumentsTellPlaces }
    ensures signatures { SignaturesTellPlaces }
{}
