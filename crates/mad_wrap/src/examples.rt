//! Wrong answers that the definitions refuse, said by a function without code.

ghost use Rattle.mad_wrap.specs.Examples.{CutAtTheWidthIsRefused, EarlyStartIsRefused, GluedIsRefused, LostFlagsAreRefused, OneStartIsRefused, TokenALineIsRefused, TrailingBlanksAreRefused};

/// None of these wrong answers is a wrap, nor are the starts those of one: a definition that got weaker would let one through.
pub fn wrong_answers()
    ensures glued { GluedIsRefused }
    ensures lost_flags { LostFlagsAreRefused }
    ensures cut_at_the_width { CutAtTheWidthIsRefused }
    ensures token_a_line { TokenALineIsRefused }
    ensures trailing_blanks { TrailingBlanksAreRefused }
    ensures one_start { OneStartIsRefused }
    ensures early_start { EarlyStartIsRefused }
{}
