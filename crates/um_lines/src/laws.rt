//! The law of sources. A call does nothing: what it ensures is the law.
ghost use Rattle.um_lines.specs.Laws.{SourceIsCut};

/// A source is cut at its first line that is `---` alone: what stands before that line is the text of the program, and
/// what stands after it are the lines of its calls. If there is no such line, it is all text.
pub fn source_is_cut()
    ensures { SourceIsCut }
{}
