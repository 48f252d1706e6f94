//! A text, written.

ghost use Rattle.std.specs.Prelude.{◌≡◌, IfOk, IsErrOf, string_bytes};
ghost use Rattle.mad_term.specs.declared.errors.Error.TheVariants.{Memory};
ghost use Rattle.mad_plain_rows.specs.PlainRows.{plain_bytes, WritesPlain};

use crate::lines::push_lines;
use mad_plain::text_lines;
use mad_term::{Error, Out, put_text};
use std::alloc::{AllocError, Global};

/// Writes a text that isn't Markdown: its lines, each wrapped at a width, in columns, with a newline behind each row. Its colors and attributes
/// are written too, if that is asked for. Nothing is flushed.
///
/// # Errors
///
/// A fault of the device; what went out by then is a beginning of the whole. Or out of memory, before the first byte.
pub fn write_plain_on<O: Out>(
    alloc: Global,
    out: &mut O,
    text: &str,
    width: usize,
    is_styled: bool,
) -> Result<(), Error>
    ensures writes { WritesPlain width is_styled text.now (O.seen out.old) result (O.seen out.new) }
    ensures early { IsErrOf result Memory → O.seen out.new ≡ O.seen out.old }
{
    let rows = plain_rows(alloc, text, width, is_styled)?;
    put_text(out, &rows)
}

// The rows of a text, joined.
fn plain_rows(
    alloc: Global,
    text: &str,
    width: usize,
    is_styled: bool,
) -> Result<String, AllocError>
    ensures { IfOk result (λ rows. string_bytes rows ≡ plain_bytes width is_styled text.now) }
{
    let lines = text_lines(alloc, text)?;
    let mut rows = String::new(alloc);
    push_lines(alloc, &mut rows, lines.as_slice(), width, is_styled)?;
    Ok(rows)
}
