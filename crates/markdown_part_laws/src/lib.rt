//! More laws of how Markdown is read, in CommonMark's words. Each is a function that does nothing and states its law.
#![tactic(auto)]

ghost use Rattle.markdown_part_laws.specs.Interrupts.{ParagraphEndsAtMark};
ghost use Rattle.markdown_part_laws.specs.LastBlank.{LastBlankIsNothing};
ghost use Rattle.markdown_part_laws.specs.Paragraphs.{ParagraphIsItsLines};

/// A blank line at the end of a text changes none of its parts, or is one line more of code between fences or html that is the last leaf.
#[tactic(auto, using(crate::proofs::LastLemmas::last_blank))]
pub fn last_blank_is_nothing()
    ensures { LastBlankIsNothing }
{}

/// A paragraph is its lines without the blanks in front: those that stand between blank lines.
#[tactic(auto, using(crate::proofs::ParagraphLemmas::paragraph_lines))]
pub fn paragraph_is_its_lines()
    ensures { ParagraphIsItsLines }
{}

/// A heading or code between fences ends a paragraph without a blank line. It and what comes after are read as a text of their own.
#[tactic(auto, using(crate::proofs::MarkLemmas::ends_at_mark))]
pub fn paragraph_ends_at_mark()
    ensures { ParagraphEndsAtMark }
{}
