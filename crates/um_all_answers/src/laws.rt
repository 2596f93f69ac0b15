//! The laws that answers exist, and that printed values and certificates are read again. A call does nothing: what it
//! ensures is the law.
ghost use Rattle.um_all_answers.specs.TextLaws.{EachTextIsReadOrRefused, EachTextHasStages, EachTextHasAnswers};
ghost use Rattle.um_all_answers.specs.TextLaws.{EachTextIsRescaled, EachTextIsConformed};
ghost use Rattle.um_all_answers.specs.TextLaws.{EachTextHasImage, EachTextIsProved};
ghost use Rattle.um_all_answers.specs.CallLaws.{CallsHaveAnswers, TracesHaveAnswers, TwinsHaveAnswers};
ghost use Rattle.um_all_answers.specs.CallLaws.{UnitWordsAreDecided, DisplaysHaveAnswers, SourcesHaveAnswers};
ghost use Rattle.um_all_answers.specs.CallLaws.{GeneratedProgramsHaveAnswers, ImagesHaveAnswers};
ghost use Rattle.um_all_answers.specs.Laws.{EachIsAnswered};
ghost use Rattle.um_all_answers.specs.DisplayLaws.{DisplayIsReadBack};
ghost use Rattle.um_all_answers.specs.CertificateLaws.{TextsDetermineCertificates, TextsDetermineProofs};

/// Each text is read as a program within the limits, or refused. Then the program has its shapes and its schemes, or
/// there is a refusal. So `types`, `annot`, `code`, `fmt` and `tidy` have an answer other than want of memory, and so
/// has `rescale`, if its word states sizes, and `conform`, if its signature isn't too long.
pub fn answers_exist()
    ensures bytes { EachTextIsReadOrRefused }
    ensures stages { EachTextHasStages }
    ensures commands { EachTextHasAnswers }
    ensures rescaled { EachTextIsRescaled }
    ensures conformed { EachTextIsConformed }
{
    um_syntax::laws::each_text_is_answered();
    um_parse::laws::each_list_is_answered();
    um_infer::laws::stops();
}

/// Each text has an answer of `image` other than want of memory: each number of its program's image fits its bytes.
pub fn images_are_written()
    ensures { EachTextHasImage }
{
    um_shape::shapes_of_programs();
    um_image::image_of_generated_code();
    answers_exist();
}

/// Each text has an answer of `prove` other than want of memory: its functions have valid certificates, up to the first
/// that is refused, and this has a valid certificate of its refusal, or a number overflows in making one.
pub fn texts_are_proved()
    ensures { EachTextIsProved }
{
    um_shape::shapes_of_programs();
    um_infer::laws::stops();
    answers_exist();
}

/// `run`, `steps`, `eval` and `trace` have an answer other than want of memory to each call about each text: the words
/// name a call or are refused, and a call has an outcome at each budget. So have `twin`, if its word states sizes,
/// `show`, if its word states units, which is decided, `calls`, `big` and `exec`.
pub fn calls_are_answered()
    ensures calls { CallsHaveAnswers }
    ensures traces { TracesHaveAnswers }
    ensures twins { TwinsHaveAnswers }
    ensures unit_words { UnitWordsAreDecided }
    ensures displays { DisplaysHaveAnswers }
    ensures sources { SourcesHaveAnswers }
    ensures generated { GeneratedProgramsHaveAnswers }
    ensures images { ImagesHaveAnswers }
{
    um_syntax::laws::each_text_is_answered();
    answers_exist();
    um_shape::shapes_of_programs();
    um_gen::runs_of_code();
    um_scale::laws::rescaled_programs();
    um_eval::laws::traces();
    um_image::bytes_of_images();
    um_verifier::images_are_answered();
    um_verify::runs_of_verified_images();
    um_run::laws::image_calls();
}

/// All words have an answer other than want of memory about all bytes.
pub fn each_is_answered()
    ensures { EachIsAnswered }
{
    um_parse::laws::each_list_is_answered();
    um_shape::shapes_of_programs();
    um_infer::laws::stops();
    um_unit_reasons::laws::refusals_have_reasons();
    answers_exist();
    images_are_written();
    texts_are_proved();
    calls_are_answered();
}

/// The text of a value with decimals in units without sizes of their own is read again as the value at its type, as the
/// text of an argument is, if no `~` stands in it.
pub fn display_is_read_back()
    ensures { DisplayIsReadBack }
{}

/// Certificates of a program that are printed alike are the same. For this the base units of their units must have
/// names, each slot must have its parts, and numbers must fit into the fields of a certificate. The certificates that
/// `prove` makes meet all but the last condition.
pub fn certificate_texts()
    ensures texts { TextsDetermineCertificates }
    ensures proofs { TextsDetermineProofs }
{}
