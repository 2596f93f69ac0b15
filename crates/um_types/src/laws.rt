//! Laws of the texts that this crate reads and of its readers, by the grammars alone. A call does nothing: what it
//! ensures is the law.
ghost use Rattle.um_types.specs.Laws.{UnitAnswersExclude, SignatureAnswersExclude, UnitReaderReads, NoteReaderReads};
ghost use Rattle.um_types.specs.Laws.{TypeReaderReads, SignatureReaderReads};

/// At most one answer of [`crate::parse_unit`] fits the tokens, apart from want of memory.
pub fn unit_answers_exclude()
    ensures { UnitAnswersExclude }
{}

/// At most one answer of [`crate::parse_types`] fits the tokens, apart from want of memory.
pub fn signature_answers_exclude()
    ensures { SignatureAnswersExclude }
{}

/// The reader of unit texts reads their grammar.
///
/// No two unit texts have the same tokens. What [`crate::UnitReader`]'s `take` answers to a token tells that the tokens
/// through it begin a unit text within the height, and the reader goes on; or that they begin none, and the reader
/// still ends as before the token; or that they begin unit texts, but none within the height. What its `finish` answers
/// is the unit text of the tokens that were taken, or that they are none.
pub fn unit_reader_reads()
    ensures { UnitReaderReads }
{}

/// The reader of notes reads their grammar, as in [`unit_reader_reads`].
pub fn note_reader_reads()
    ensures { NoteReaderReads }
{}

/// The reader of type texts reads their grammar, as in [`unit_reader_reads`].
pub fn type_reader_reads()
    ensures { TypeReaderReads }
{}

/// The reader of signature texts reads their grammar, as in [`unit_reader_reads`].
pub fn signature_reader_reads()
    ensures { SignatureReaderReads }
{}
