//! What callers rely on: laws of the definitions, each a function that does nothing and states its law.

ghost use Rattle.mad_input.specs.Laws.{SizesAreAnswers};

/// Each size that counts is the answer to a question: of all that comes no more of them are heard than were asked for.
pub fn sizes_are_answers()
    ensures { SizesAreAnswers }
{}
