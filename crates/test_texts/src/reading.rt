//! The lines of a text.

use crate::pictures::{draw_composite, draw_lines};
use mad_md::{Composite, ParseOptions, Text, first_lines, parse_text, parse_text_with};
use std::alloc::{AllocError, Global};

fn text_read<'s>(alloc: Global, call: &str, src: &'s str) -> Result<Text<'s>, AllocError> {
    let continue_spans = true;
    match call {
        "raw" => Text::raw_str(alloc, src),
        "read on" => parse_text_with(alloc, src, ParseOptions { continue_spans }),
        _ => parse_text(alloc, src),
    }
}

/// The lines of a text, as the call says that it is read.
pub(crate) fn draw_read(picture: &mut String, call: &str, src: &str) -> Result<(), AllocError> {
    let text = text_read(*picture.allocator(), call, src)?;
    draw_lines(picture, &text.lines)
}

/// A line without a look at its form.
pub(crate) fn draw_inline(picture: &mut String, src: &str) -> Result<(), AllocError> {
    let composite = Composite::from_inline(*picture.allocator(), src)?;
    draw_composite(picture, &composite)
}

/// The first lines of a text, as many as the call says.
pub(crate) fn draw_first(
    picture: &mut String,
    numbers: &[usize],
    src: &str,
) -> Result<(), AllocError> {
    let count = *numbers.first().unwrap_or(&0);
    let lines = first_lines(*picture.allocator(), src, ParseOptions::default(), count)?;
    draw_lines(picture, &lines)
}
