//! Laws of texts that one doesn't trust: what is printable has no control characters.

ghost use Rattle.mad_draw.specs.Untrusted.{PrintableLinesArePrinted, PrintableSlicesArePrinted, PrintableInlinesArePrinted};

/// What is shown of a printable text has no control character, the premise that rows have. It holds of a text without a newline, of
/// each slice of a text that holds none, and of what is read of a line by its marks.
pub fn printable_texts_are_printed()
    ensures line { PrintableLinesArePrinted }
    ensures slice { PrintableSlicesArePrinted }
    ensures inline { PrintableInlinesArePrinted }
{}
