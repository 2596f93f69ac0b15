//! The laws of verified images, as contracts of functions that do nothing. A crate above cites the law that it needs.
ghost use Rattle.um_verify.specs.Laws.{NeverStuck, RunsEnd, EndsSoon, EndsHaveShape, CallsHaveEntries};
ghost use Rattle.um_verify.specs.Laws.{VerifiedGoForward, JoinIsLeast, NoJoinNoBound};

/// A run of a verified image from a call at values of its parameters' shapes is never stuck, and it ends, at each
/// budget, with a value of the result's shape, a trap or the end of the budget. After as many steps as the budget times
/// one more than the number of instructions it has ended. The jumps of the image's code go forward.
pub fn runs_of_verified_images()
    ensures never_stuck { NeverStuck }
    ensures end { RunsEnd }
    ensures steps { EndsSoon }
    ensures shape { EndsHaveShape }
    ensures entry { CallsHaveEntries }
    ensures forward { VerifiedGoForward }
{}

/// Where two states meet, their shapes are joined to the least that both fit; if there is none, none fits.
pub fn joins_of_shapes()
    ensures least { JoinIsLeast }
    ensures none { NoJoinNoBound }
{}
