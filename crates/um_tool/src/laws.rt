//! Laws of answers. A call does nothing: what it ensures is the law.
ghost use Rattle.um_tool.specs.Laws.{PrintedTypesArePrincipalSchemes, UnitsNameTheFirstUntyped};
ghost use Rattle.um_tool.specs.Laws.{NotGeneralNamesTheFirstUntyped, AnswersAreUnique};
ghost use Rattle.um_tool.specs.CallLaws.{PrintedCodeIsTheProgramsCode, EndedCallsAreMeant, VerdictsSayWhatTypingsAre};
ghost use Rattle.um_tool.specs.CallLaws.{CallsAreRuns};
ghost use Rattle.um_tool.specs.ScaleLaws.{RescaledTextsAreRescaled, RescaledTextsAreRead, RescaledTextsHaveTheSchemes};
ghost use Rattle.um_tool.specs.ScaleLaws.{EndedTwinsAreRelated};
ghost use Rattle.um_tool.specs.ImageLaws.{PrintedImagesAreVerified, PrintedImagesRunAsMeant};
ghost use Rattle.um_tool.specs.Verdicts.{SignaturesHaveVerdicts};
ghost use Rattle.um_tool.specs.CertificateLaws.{PrintedCertificatesAreValid, PrintedCertificatesEndAsTypes};
ghost use Rattle.um_tool.specs.CertificateLaws.{RefusedCertificatesPass, ProofsAreUnique};
ghost use Rattle.um_tool.specs.Headline.{TypesAreSchemesOrFirstUntyped, EachOrderNamesFirstUntyped};
ghost use Rattle.um_tool.specs.Headline.{FittingCallsAreMeant, UnitsOfArgumentsAreExact, FittingTwinsAreRelated};

// ---- The headline, a law for each third: from what is known of a text and of words to what the answer to them is.

/// If a text spells a program in which no function passes its limits, `types` answers a line for each function, with a
/// scheme whose instances are exactly its typings; or, if not each function has a typing, it names the first that has
/// none, at its first equation that no units satisfy. So does each other command that needs the schemes.
pub fn schemes_or_first_untyped()
    ensures types { TypesAreSchemesOrFirstUntyped }
    ensures others { EachOrderNamesFirstUntyped }
{}

/// If the arguments of a call fit a typing of its function, and the call is within its limits, `run`, `steps` and
/// `eval` answer the outcome of its meaning at the budget. The units of arguments are refused exactly if no typing of
/// the function has their types.
pub fn fitting_calls()
    ensures fitting { FittingCallsAreMeant }
    ensures units { UnitsOfArgumentsAreExact }
{}

/// If moreover each literal and each number of the arguments has a rescaled number in range, `twin` answers the
/// outcomes of both meanings, and the second is the first one rescaled, unless one of them overflows.
pub fn fitting_twins()
    ensures { FittingTwinsAreRelated }
{}

// ---- What an answer with a status says.

/// What `types` printed with status 0 on some bytes are the principal schemes of the program that they spell, a line
/// for each function in order; what it printed with the status of units, or of a function that is not general, names
/// the first function without a typing, and says whether some units satisfy its equations.
pub fn printed_types()
    ensures schemes { PrintedTypesArePrincipalSchemes }
    ensures refusal { UnitsNameTheFirstUntyped }
    ensures not_general { NotGeneralNamesTheFirstUntyped }
{}

/// What `code` printed with status 0 on some bytes is the listing of the code of the program that they spell.
pub fn printed_code()
    ensures { PrintedCodeIsTheProgramsCode }
{}

/// What `image` printed with status 0 on some bytes are the bytes of a verified image of the program that they spell,
/// with its code: each call of it ends as the program's meaning has it. `exec` reads them as that image, and answers
/// the outcome of the meaning, if the words name a call of it.
pub fn printed_images()
    ensures verified { PrintedImagesAreVerified }
    ensures runs { PrintedImagesRunAsMeant }
{
    um_image::image_of_generated_code();
    um_run::laws::image_calls();
    um_call_answers::laws::answers_of_images();
}

/// What a call of a function was answered with the status of a value, of a trap or of the budget's end is the outcome
/// of its meaning at the budget; a value is printed at a type of the call.
pub fn ended_calls()
    ensures { EndedCallsAreMeant }
{}

/// What `calls` printed with status 0 on some bytes is, line by line, what `run` is answered with the words of the line
/// on the text of the program.
pub fn many_calls()
    ensures { CallsAreRuns }
{}

/// A function conforms to a signature if each instance of the signature is a typing of it, and if it is refused for its
/// form or its units not each is. A function and a signature that was read have a verdict, with the first type that
/// differs, unless a power passes the range while they are matched: then, and only then, they are refused for it.
pub fn verdicts()
    ensures typings { VerdictsSayWhatTypingsAre }
    ensures exact { SignaturesHaveVerdicts }
{}

/// What `prove` printed with status 0 on some bytes are valid certificates of principal schemes of the first functions
/// of the program that they spell, and of the refusal of the next, if not all have a scheme. Then `types` names this
/// function too, with the place of the same row. A number that `prove` refused is formed in making the certificate of
/// the function that it names, and is too large for it.
pub fn printed_certificates()
    ensures valid { PrintedCertificatesAreValid }
    ensures types { PrintedCertificatesEndAsTypes }
    ensures refused { RefusedCertificatesPass }
{}

/// What `rescale` printed with status 0 on some bytes are these bytes with the numbers of a program: that which they
/// spell, with its literals in the sizes that the word states. Read again, the text spells that program but for
/// places, and has its shapes if it isn't too long. Then `types` answers it as it answers the bytes.
pub fn rescaled_texts()
    ensures numbers { RescaledTextsAreRescaled }
    ensures read { RescaledTextsAreRead }
    ensures types { RescaledTextsHaveTheSchemes }
{
    um_rescaled::laws::rescaled_texts();
    um_rescaled::laws::rescaled_programs();
}

/// What `twin` was answered with the status of values, of a trap or of the budget's end are the outcomes of both
/// meanings at the budget: the second is the first one rescaled at a type of the call, unless one of them overflows.
pub fn ended_twins()
    ensures { EndedTwinsAreRelated }
{}

/// Two texts and statuses that answer the same words and bytes are equal, but for `prove`: a scheme may have many
/// certificates. Then two answers are equal, or both are certificates or tell of a number that is too large for one.
pub fn answers_are_unique()
    ensures answers { AnswersAreUnique }
    ensures proofs { ProofsAreUnique }
{
    um_parse::laws::answers_are_unique();
    um_call_answers::laws::answers_of_images();
    um_shown_answers::laws::traces();
}
