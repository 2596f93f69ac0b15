//! Laws of the answers to `explain`. A call does nothing: what it ensures is the law.
ghost use Rattle.um_explain_answers.specs.Laws.{ExplanationsFollowTypes, ExplanationsAreDone};

/// The answer is that of `types`; but of a refusal of the text it is the line of `types` with more lines after it, and
/// then it is done. So it is done of each text that isn't too long.
pub fn explanations()
    ensures types { ExplanationsFollowTypes }
    ensures done { ExplanationsAreDone }
{
    um_parse::laws::answers_are_unique();
}
