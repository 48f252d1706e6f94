//! Writing a text of code.

ghost use Rattle.std.specs.Prelude.{◌≡◌, List, IfOk, IsErrOf, string_bytes};
ghost use Rattle.mad_pages.specs.PageRows.{RowContent};
ghost use Rattle.mad_term.specs.declared.errors.Error.TheVariants.{Memory};
ghost use Rattle.markdown_code.specs.CodeTexts.{code_sections};
ghost use Rattle.markdown_layout.specs.WrittenPages.{dressed_bytes, IsDressedAt, WritesDressed};

use crate::reading::read_code;
use mad_page_skin::PageSkin;
use mad_term::{Error, Out, put_text};
use markdown_layout::append_sections;
use std::alloc::{AllocError, Global};

/// Writes a text of code by itself, in the language of a word, as a page at a width, in columns, if there is one: each row and a newline. Nothing is
/// flushed.
///
/// The text is read by [`read_code`], and written as [`write_markdown_on`] writes a fence around it. No character of the text reaches the device that
/// a terminal obeys.
///
/// [`write_markdown_on`]: markdown_layout::write_markdown_on
///
/// # Errors
///
/// A fault of the device; what went out by then is a beginning of the whole. Or out of memory, before the first byte.
pub fn write_code_on<O: Out>(
    alloc: Global,
    out: &mut O,
    skin: &PageSkin,
    word: &str,
    text: &str,
    width: Option<usize>,
) -> Result<(), Error>
    ensures writes { WritesDressed skin.now width (code_sections word.now text.now) (O.seen out.old) result (O.seen out.new) }
    ensures early { IsErrOf result Memory → O.seen out.new ≡ O.seen out.old }
{
    let rows = code_rows(alloc, skin, word, text, width)?;
    put_text(out, &rows)
}

// The rows of a text of code in a skin, each with a newline.
fn code_rows(
    alloc: Global,
    skin: &PageSkin,
    word: &str,
    text: &str,
    width: Option<usize>,
) -> Result<String, AllocError>
    ensures { IfOk result (λ rows. (own : List RowContent) × IsDressedAt skin.now width (code_sections word.now text.now) own × (string_bytes rows ≡ dressed_bytes skin.now width own)) }
{
    let read = read_code(alloc, word, text)?;
    let mut rows = String::with_capacity(alloc, text.len())?;
    append_sections(alloc, &mut rows, read.sections(), width, skin)?;
    Ok(rows)
}
