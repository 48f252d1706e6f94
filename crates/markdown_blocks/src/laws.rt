//! What one may rely on of lines: a law, a function that does nothing and states it.

ghost use Rattle.markdown_blocks.specs.KeptLines.{NothingIsLost};

/// Nothing of a line is lost, whatever is open before it. The text that is told of it is its end. In front of that stand only blanks, and characters
/// that signs of quotes, items, headings and fences have. A line that is told as markup is markup alone.
pub fn nothing_is_lost()
    ensures { NothingIsLost }
{}
