//! Laws: functions without code, whose contracts say what follows from the definitions alone.

ghost use Rattle.mad_wrap.specs.Laws.{OneFirstFit, OneWordWrap, OneWrap, StartsCountLines};

/// Compounds are wrapped in one way only, with whole words in one way too, and first fit places tokens in one way only.
pub fn one_wrap()
    ensures wrap { OneWrap }
    ensures words { OneWordWrap }
    ensures first_fit { OneFirstFit }
{}

/// There are as many starts as lines of the wrap, and one more where blanks are dropped after its last line.
pub fn starts_count_lines()
    ensures { StartsCountLines }
{}
