//! Laws of the text of a program in other sizes. A call does nothing: what it ensures is the law.
ghost use Rattle.um_rescaled.specs.TextLaws.{RespelledTextsHaveTokens, RespelledProgramsHaveTokens};
ghost use Rattle.um_rescaled.specs.NumberLaws.{RescaledNumbersAreUnsigned, ReplacedProgramsAreRescaled};
ghost use Rattle.um_rescaled.specs.PlaceLaws.{SameTreesAreSamePrograms, RescaledTextsAreRead};
ghost use Rattle.um_rescaled.specs.SchemeLaws.{PlacesChangeNoScheme, NumbersChangeNoScheme};
ghost use Rattle.um_rescaled.specs.SchemeLaws.{RescaledProgramsHaveTheSchemes};

/// Numbers that aren't below 0 are printed in place of the numbers before units. The text that comes of it has tokens,
/// alike those of the text as it was.
pub fn respelled_numbers()
    ensures texts { RespelledTextsHaveTokens }
    ensures programs { RespelledProgramsHaveTokens }
{}

/// The numbers of a program in other sizes aren't below 0. With them before its units, the program as it is written
/// stands for the rescaled program.
pub fn rescaled_numbers()
    ensures unsigned { RescaledNumbersAreUnsigned }
    ensures read { ReplacedProgramsAreRescaled }
{}

/// A program that is written as another one but for places stands for the same program but for places.
pub fn same_trees()
    ensures { SameTreesAreSamePrograms }
{}

/// What `rescale` prints of a program, read again, is the rescaled program but for places.
pub fn rescaled_texts()
    ensures { RescaledTextsAreRead }
{
    um_parse::laws::programs_are_unique();
    respelled_numbers();
    rescaled_numbers();
}

/// Programs that are the same but for places have the same schemes; or the same function is the first without one, for
/// the same cause. A program with its literals in other sizes is given exactly what the program is given. So a program
/// that is this one but for places has the schemes of the program, too.
pub fn rescaled_programs()
    ensures places { PlacesChangeNoScheme }
    ensures numbers { NumbersChangeNoScheme }
    ensures both { RescaledProgramsHaveTheSchemes }
{}
