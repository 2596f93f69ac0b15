//! What similar names are, as a contract of a function that does nothing.
ghost use Rattle.um_similar.specs.Laws.{SearchesFindSimilar, SimilarAreOneEdit};

/// Two words pass the test exactly if they differ by one edit. To look at known names one by one finds the similar ones
/// among them, in order, each once, and at most four.
pub fn edits()
    ensures edits { SimilarAreOneEdit }
    ensures searches { SearchesFindSimilar }
{}
