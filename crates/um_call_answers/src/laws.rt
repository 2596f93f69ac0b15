//! Laws of answers. A call does nothing: what it ensures is the law.
ghost use Rattle.um_call_answers.specs.EndLaws.{CallsEndAsMeant, WaysAnswerAlike, StepsFollowRuns, TwinsEndAsMeant};
ghost use Rattle.um_call_answers.specs.Laws.{ExecAnswersAreUnique, ExecAnswersAreDone, VerifiedImagesRun};
ghost use Rattle.um_call_answers.specs.Laws.{ExecStatusesAreFew};

/// A call of a text's program ends with an outcome, run by the code or by the tree, exactly if its meaning has this
/// outcome. So `run` and `eval` answer alike, and `steps` as they do, with the line of the steps after a value. The
/// second call of `twin`, by the code of the rescaled program, ends as its meaning has it, too.
pub fn calls_end_as_meant()
    ensures ends { CallsEndAsMeant }
    ensures alike { WaysAnswerAlike }
    ensures counted { StepsFollowRuns }
    ensures twins { TwinsEndAsMeant }
{}

/// A call of an image is answered in one way, and it is done if the bytes are a verified image's and the function that
/// is called gives a value within the budget. If they are a verified image's, and the words name a call of it, the
/// answer is how the code of the image ends on this call. No answer has a status of 3 to 10: a value of an image can
/// always be printed.
pub fn answers_of_images()
    ensures unique { ExecAnswersAreUnique }
    ensures done { ExecAnswersAreDone }
    ensures runs { VerifiedImagesRun }
    ensures statuses { ExecStatusesAreFew }
{
    um_image::bytes_of_images();
    um_verifier::refusals_of_images();
    um_run::laws::image_calls();
}
