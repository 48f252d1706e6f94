//! The words of calls.

use mad_md::{Alignment, CompositeStyle};
use mad_style::ListItemsIndentationMode;
use std::alloc::{AllocError, Global};
use std::str::SplitWhitespace;

/// The next word as a number, 0 where it is none.
pub fn number(words: &mut SplitWhitespace) -> usize {
    words.next().and_then(|word| word.parse().ok()).unwrap_or(0)
}

fn byte(words: &mut SplitWhitespace) -> u8 {
    u8::try_from(number(words)).unwrap_or(0)
}

/// The other words as numbers.
pub fn numbers(alloc: Global, words: SplitWhitespace) -> Result<Vec<usize>, AllocError> {
    let mut numbers = Vec::new(alloc);
    for word in words {
        numbers.push(word.parse().unwrap_or(0))?;
    }
    Ok(numbers)
}

/// A kind of lines: `paragraph`, `quote`, `item` with its depth, or `ordered` with its level and its number.
pub fn style(words: &mut SplitWhitespace) -> CompositeStyle {
    match words.next() {
        Some("item") => CompositeStyle::ListItem(byte(words)),
        Some("ordered") => CompositeStyle::OrderedListItem {
            level: byte(words),
            index: u32::try_from(number(words)).unwrap_or(0),
        },
        Some("quote") => CompositeStyle::Quote,
        _ => CompositeStyle::Paragraph,
    }
}

/// A mode of items: `first`, `hanging` with its columns, or that of blocks.
pub fn mode(words: &mut SplitWhitespace) -> ListItemsIndentationMode {
    match words.next() {
        Some("first") => ListItemsIndentationMode::FirstLineOnly,
        Some("hanging") => ListItemsIndentationMode::Hanging(byte(words)),
        _ => ListItemsIndentationMode::Block,
    }
}

/// An alignment, none where the word names none.
pub fn align(words: &mut SplitWhitespace) -> Alignment {
    match words.next() {
        Some("left") => Alignment::Left,
        Some("center") => Alignment::Center,
        Some("right") => Alignment::Right,
        _ => Alignment::Unspecified,
    }
}

/// The alignments of a pair of letters, and else none.
pub fn aligns(letters: &str) -> &'static [Alignment] {
    match letters {
        "lr" => &[Alignment::Left, Alignment::Right],
        "cr" => &[Alignment::Center, Alignment::Right],
        _ => &[],
    }
}
