//! What holds of every text, whatever the reader does step by step.

ghost use Rattle.markdown_laws.specs.Fences.{FenceEndsAtItsEnd, FenceEndsWithItsText};
ghost use Rattle.markdown_laws.specs.Items.{FenceEndsWithItsItem, ItemHoldsItsLines};
ghost use Rattle.markdown_laws.specs.Lines.{LinesAreAll};
ghost use Rattle.markdown_laws.specs.Marks.{BreakIsItsLine, HeadingIsItsLine};
ghost use Rattle.markdown_laws.specs.Plain.{PlainTextIsParagraphs};
ghost use Rattle.markdown_laws.specs.Quotes.{FenceEndsWithItsQuote, QuoteHoldsItsLines};
ghost use Rattle.markdown_laws.specs.Whole.{PartsTellAllLines};

/// A text no line of which begins with a special sign is paragraphs: what stands between empty lines.
#[tactic(auto, using(crate::proofs::PlainLemmas::plain))]
pub fn plain_text_is_paragraphs()
    ensures { PlainTextIsParagraphs }
{}

/// A fence ends at the first line that closes it. What is between is its text, without the indent of its beginning, and what comes after is
/// read as a text of its own.
#[tactic(auto, using(crate::proofs::FenceLemmas::at_its_end))]
pub fn fence_ends_at_its_end()
    ensures { FenceEndsAtItsEnd }
{}

/// A fence that no line closes ends with the text.
#[tactic(auto, using(crate::proofs::FenceLemmas::with_text))]
pub fn fence_ends_with_its_text()
    ensures { FenceEndsWithItsText }
{}

/// A line that begins as a heading is one, and what comes after is read as a text of its own.
#[tactic(auto, using(crate::proofs::MarkLemmas::heading))]
pub fn heading_is_its_line()
    ensures { HeadingIsItsLine }
{}

/// So is a thematic break in a text's first line.
#[tactic(auto, using(crate::proofs::MarkLemmas::thematic_break))]
pub fn break_is_its_line()
    ensures { BreakIsItsLine }
{}

/// Texts with the same lines have the same parts.
#[tactic(auto, using(crate::proofs::MarkLemmas::same_lines))]
pub fn lines_are_all()
    ensures { LinesAreAll }
{}

/// A text all of whose lines have a sign > in front is a quote, which holds what the lines without the signs are: of lines without tabs, and of 63 containers in it at
/// most.
#[tactic(auto, using(crate::proofs::QuoteLemmas::quote))]
pub fn quote_holds_its_lines()
    ensures { QuoteHoldsItsLines }
{}

/// A text of a line with a marker, and of lines that are indented as what follows it, is an item, which holds what these lines are without, under the same conditions.
pub fn item_holds_its_lines()
    ensures { ItemHoldsItsLines }
{}

/// Code that begins a quote, and that no line closes, ends with the quote. What comes after is read as a text of its own.
#[tactic(auto, using(crate::proofs::QuoteLemmas::fence_in_quote))]
pub fn fence_ends_with_its_quote()
    ensures { FenceEndsWithItsQuote }
{}

/// Code that begins an item, and that no line closes, ends with the item. What comes after is read as a text of its own.
pub fn fence_ends_with_its_item()
    ensures { FenceEndsWithItsItem }
{}

/// The parts of a text tell all its lines in their order, each once, but for characters that signs have, in front of it and behind it.
#[tactic(auto, using(crate::proofs::WholeTextLemmas::whole))]
pub fn parts_tell_all_lines()
    ensures { PartsTellAllLines }
{}
