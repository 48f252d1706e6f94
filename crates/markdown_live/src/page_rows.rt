//! The rows of what was read.

ghost use Rattle.std.specs.Prelude.{◌≡◌, ℕ, ◌-◌, IfOk, length, string_bytes, take};
ghost use Rattle.std.specs.List.{flat_map};
ghost use Rattle.markdown_live.specs.LiveMarkdowns.{ArePageRows};
ghost use Rattle.markdown_reader.specs.MarkdownSays.{markdown_says};

use mad_page_skin::PageSkin;
use markdown_layout::append_sections;
use markdown_reader::Markdown;
use std::alloc::{AllocError, Global};

/// The rows of texts that were read one after another, each with its newline.
pub(crate) fn page_rows(
    alloc: Global,
    reads: &[Markdown],
    width: Option<usize>,
    skin: &PageSkin,
) -> Result<String, AllocError>
    ensures { IfOk result (λ rows. ArePageRows skin.now width (flat_map markdown_says reads.now) (string_bytes rows)) }
{
    let mut rows = String::new(alloc);
    let mut rest = reads;
    while let [read, next @ ..] = rest {
        append_sections(alloc, &mut rows, read.sections(), width, skin)?;
        rest = next;
    }
    Ok(rows)
}

/// The rows of a text that was read, each with its newline.
pub(crate) fn own_rows(
    alloc: Global,
    read: &Markdown,
    width: Option<usize>,
    skin: &PageSkin,
) -> Result<String, AllocError>
    ensures { IfOk result (λ rows. ArePageRows skin.now width (markdown_says read.now) (string_bytes rows)) }
{
    let mut rows = String::new(alloc);
    append_sections(alloc, &mut rows, read.sections(), width, skin)?;
    Ok(rows)
}

/// Rows without the newline of the last one.
pub(crate) fn without_last(rows: &[u8]) -> &[u8]
    ensures { result.now ≡ take (length rows.entry.now - 1) rows.entry.now }
{
    &rows[..rows.len().saturating_sub(1)]
}
