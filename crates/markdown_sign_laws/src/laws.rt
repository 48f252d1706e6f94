//! Where a line is a sign of a block, and where a text has these lines: exactly where its bytes are so. Where blocks end, and that all lines are told.

ghost use Rattle.markdown_sign_laws.specs.AllLines.{AllLinesAreTold};
ghost use Rattle.markdown_sign_laws.specs.Blocks.{BreakIsRead, CodeIsRead, HeadingIsRead, OpenCodeIsRead};
ghost use Rattle.markdown_sign_laws.specs.Breaks.{BreaksAreSaid};
ghost use Rattle.markdown_sign_laws.specs.Ends.{QuoteEndsAtBlank, QuoteEndsBehindBlank, QuoteEndsBehindBlock};
ghost use Rattle.markdown_sign_laws.specs.Fences.{ClosingIsSaid, FencesAreSaid};
ghost use Rattle.markdown_sign_laws.specs.Headings.{HeadingsAreSaid};
ghost use Rattle.markdown_sign_laws.specs.HtmlBlocks.{HtmlEndsAtBlank, HtmlIsRead, HtmlLineIsRead, OpenHtmlIsRead};
ghost use Rattle.markdown_sign_laws.specs.ItemEnds.{ItemEndsAtLess, ItemEndsBehindBlock};
ghost use Rattle.markdown_sign_laws.specs.Markers.{MarkersAreSaid};
ghost use Rattle.markdown_sign_laws.specs.QuoteSigns.{QuoteSignsAreSaid};
ghost use Rattle.markdown_sign_laws.specs.TextLines.{LastLineIsCut, LineIsCut, LinesAreSaid};
ghost use Rattle.markdown_sign_laws.specs.Underlines.{UnderlinesAreSaid};

/// A text has these lines exactly where each has its end behind it, but for the last, which may have none.
#[tactic(auto, using(crate::proofs::TextLemmas::lines_said))]
pub fn lines_are_said()
    ensures { LinesAreSaid }
{}

/// A line, its end and a text have this line and the lines of the text.
pub fn line_is_cut()
    ensures { LineIsCut }
{}

/// A line that isn't empty and has no end behind it is a text's only line.
#[tactic(auto, using(crate::proofs::TextLemmas::last_cut))]
pub fn last_line_is_cut()
    ensures { LastLineIsCut }
{}

/// A line closes code between fences exactly where it is at most three spaces, as many signs as the fence or more, and blanks.
#[tactic(auto, using(crate::proofs::FenceLemmas::closing_said))]
pub fn closing_is_said()
    ensures { ClosingIsSaid }
{}

/// Bytes begin code exactly where they are three backquotes or more and no further one, or three tildes or more.
pub fn fences_are_said()
    ensures { FencesAreSaid }
{}

/// Bytes begin a heading exactly where they are one to six signs #, and then nothing or a blank.
pub fn headings_are_said()
    ensures { HeadingsAreSaid }
{}

/// Bytes are a thematic break exactly where they are three or more of one of the signs `*`, `-` and `_`, each with blanks behind it or none.
#[tactic(auto, using(crate::proofs::BreakLemmas::breaks_said))]
pub fn breaks_are_said()
    ensures { BreaksAreSaid }
{}

/// Bytes begin with a marker exactly where they are a bullet, or one to nine digits and a full stop or a parenthesis, and then nothing or a blank.
pub fn markers_are_said()
    ensures { MarkersAreSaid }
{}

/// A quote ends at a blank line, and what comes after is read as a text of its own.
pub fn quote_ends_at_blank()
    ensures { QuoteEndsAtBlank }
{}

/// A line that is said to be a heading is read as one, and then the text behind it.
pub fn heading_is_read()
    ensures { HeadingIsRead }
{}

/// So is a line that is said to be a thematic break.
pub fn break_is_read()
    ensures { BreakIsRead }
{}

/// Lines from one that is said to begin code to the first that is said to close it are read as this code, and then the text behind them.
pub fn code_is_read()
    ensures { CodeIsRead }
{}

/// Where no line is said to close it, code is all of the text.
pub fn open_code_is_read()
    ensures { OpenCodeIsRead }
{}

/// Bytes underline a heading exactly where they are signs = or hyphens, one or more, and then blanks.
pub fn underlines_are_said()
    ensures { UnderlinesAreSaid }
{}

/// A quote goes on in a line exactly where it is at most three spaces, the sign > and whatever follows.
pub fn quote_signs_are_said()
    ensures { QuoteSignsAreSaid }
{}

/// Where the last line that a quote holds is blank, it ends at a line without its sign, too.
pub fn quote_ends_behind_blank()
    ensures { QuoteEndsBehindBlank }
{}

/// Where the last line that an item holds is blank, it ends at a line that is indented by less.
pub fn item_ends_at_less()
    ensures { ItemEndsAtLess }
{}

/// The parts of a text tell all its lines in their order, each once and behind its signs: quotes, markers, and the sign of a heading or of a fence. Lines that
/// aren't told are blank, the end of a fence, or what underlines a heading.
#[tactic(auto, using(crate::proofs::AllToldLemmas::all_lines_told))]
pub fn all_lines_are_told()
    ensures { AllLinesAreTold }
{}

/// Lines from one that begins a comment, an instruction, a declaration or a CDATA section to the first that has its end are html, blank ones too.
#[tactic(auto, using(crate::proofs::HtmlLemmas::html_read))]
pub fn html_is_read()
    ensures { HtmlIsRead }
{}

/// Where the first line has the end, it is html by itself.
pub fn html_line_is_read()
    ensures { HtmlLineIsRead }
{}

/// Where no line has it, html is all of the text.
#[tactic(auto, using(crate::proofs::HtmlLemmas::open_html_read))]
pub fn open_html_is_read()
    ensures { OpenHtmlIsRead }
{}

/// Html that begins with the tag of a block, or with another tag alone, ends before a blank line.
#[tactic(auto, using(crate::proofs::HtmlLemmas::html_ends_at_blank))]
pub fn html_ends_at_blank()
    ensures { HtmlEndsAtBlank }
{}

/// Where the last leaf that a quote holds is no paragraph, it ends at a line without its sign.
pub fn quote_ends_behind_block()
    ensures { QuoteEndsBehindBlock }
{}

/// Where the last leaf that an item holds is no paragraph, it ends at a line that is indented by less.
pub fn item_ends_behind_block()
    ensures { ItemEndsBehindBlock }
{}
