//! The bytes of a block.

use std::alloc::{AllocError, Global};
use std::str;

/// The bytes of a line: its characters, and those that `\` and two digits to base 16 are.
pub fn bytes_of(alloc: Global, line: &str) -> Result<Vec<u8>, AllocError> {
    let mut bytes = Vec::new(alloc);
    for (number, part) in line.split('\\').enumerate() {
        let mut text = part;
        if number > 0 {
            if let Some((digits, rest)) = part.split_at_checked(2) {
                bytes.push(u8::from_str_radix(digits, 16).unwrap_or(0))?;
                text = rest;
            }
        }
        bytes.extend_from_slice(text.as_bytes())?;
    }
    Ok(bytes)
}

/// Appends the bytes of a block as such a line, but ESC as it is.
pub fn push_line(answer: &mut String, block: &[u8]) -> Result<(), AllocError> {
    for c in str::from_utf8(block).unwrap_or("no text").chars() {
        if c.is_ascii_control() && c != '\u{1b}' {
            let code = c as u32;
            write!(answer, "\\{code:02x}")?;
        } else {
            answer.push(c)?;
        }
    }
    answer.push('\n')
}
