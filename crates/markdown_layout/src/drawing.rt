//! Drawing pages in an area of the screen.

ghost use Rattle.std.specs.Prelude.{◌≡◌, ◌≤◌, IfOk, OnOk, map};
ghost use Rattle.mad_measure.specs.Areas.{IsWithinLimits};
ghost use Rattle.mad_rows.specs.RowStyles.{line_rules};
ghost use Rattle.mad_sections.specs.Sections.{page_content};
ghost use Rattle.mad_pages.specs.PageLayouts.{IsPageAt};
ghost use Rattle.mad_pages.specs.PageRows.{row_content};
ghost use Rattle.mad_page_rows.specs.Faces.{has_ascii_boxes};
ghost use Rattle.markdown_reader.specs.Markdown.{markdown_sections};
ghost use Rattle.markdown_reader.specs.MarkdownSays.{markdown_says};
ghost use Rattle.markdown_layout.specs.DressedTexts.{dressed_says};
ghost use Rattle.markdown_layout.specs.DrawnMarkdown.{DrawsPage, ShowsKept, ShowsMarkdown};
ghost use Rattle.markdown_layout.specs.KeptPremises.{KeepPremises};
ghost use Rattle.mad_dressing.specs.Dressed.{dressed_page};
ghost use Rattle.mad_draw.specs.Pieces.{IsColumnChar};
ghost use Rattle.mad_dressing.specs.declared.page_marks.PageMarks.{PageMarks};
ghost use Rattle.mad_page_skin.specs.PageSkins.{page_marks, page_row_skin};

use crate::dressed_markdown::DressedMarkdown;
use crate::typed_pages::typed_page;
use mad_draw::draw_rows;
use mad_measure::Area;
use mad_page_rows::{PageTextRows, has_ascii_boxes};
use mad_page_skin::PageSkin;
use mad_pages::{PageRow, lay_page};
use mad_rows::RowSkin;
use mad_sections::Page;
use mad_term::{Error, Out};
use markdown_reader::Markdown;
use std::alloc::{AllocError, Global};

/// Reads a text as [`Markdown::read`] does. Its sections keep the premises of drawing that speak of texts, whatever stands beside its headings and in
/// front of its pictures, if that takes one column: no
/// control character, each widthless character is no whitespace and follows a non-blank one in its compound, and from three columns on all have room.
///
/// # Errors
///
/// Out of memory is the only error.
#[tactic(auto, using(crate::proofs::KeptLemmas::read_keeps))]
pub fn read_drawable(alloc: Global, source: &str) -> Result<Markdown, AllocError>
    ensures sections { IfOk result (λ read. markdown_says read ≡ markdown_sections source.now) }
    ensures premises { IfOk result (λ read. (marks : PageMarks) → IsColumnChar marks.sign → KeepPremises (dressed_page marks (markdown_says read))) }
{
    let read = Markdown::read(alloc, source)?;
    Ok(read)
}

/// The rows of a text that was read, with what stands beside its headings, as a page at a width in columns, if there is one.
///
/// # Errors
///
/// Out of memory is the only error.
pub fn lay_markdown<'m>(
    alloc: Global,
    read: &'m DressedMarkdown,
    skin: &RowSkin,
    width: Option<usize>,
) -> Result<Vec<PageRow<'m>>, AllocError>
    ensures { IfOk result (λ rows. IsPageAt (line_rules skin.now) (has_ascii_boxes skin.now) width (dressed_says read.entry.now) (map row_content rows.items)) }
{
    let page = read.page(alloc)?;
    lay_page(alloc, skin, page, width, has_ascii_boxes(skin))
}

/// Draws the first rows of a text of Markdown in an area, as a page that is as wide, as [`write_markdown_on`] writes them. Below its last row there
/// are spaces. Nothing is flushed.
///
/// The area's right and bottom have to fit a `u16`.
///
/// [`write_markdown_on`]: crate::write_markdown_on
///
/// # Errors
///
/// A fault of the device, or out of memory. What went out by then is a beginning of the whole.
pub fn draw_markdown<O: Out>(
    alloc: Global,
    out: &mut O,
    skin: &PageSkin,
    markdown: &str,
    area: &Area,
) -> Result<(), Error>
    requires { IsWithinLimits area.now }
    ensures writes { DrawsPage (page_row_skin skin.now) (dressed_page (page_marks skin.now) (markdown_sections markdown.now)) area.now (O.seen out.old) result (O.seen out.new) }

    // What a plain terminal shows that reads it, where the sign of pictures takes one column. Nothing is asked of the text.
    ensures shown { OnOk result (3 ≤ area.now.width → IsColumnChar (page_marks skin.now).sign → ShowsMarkdown (page_row_skin skin.now) (dressed_page (page_marks skin.now) (markdown_sections markdown.now)) area.now (O.seen out.old) (O.seen out.new)) }
{
    let read = read_drawable(alloc, markdown)?;
    let dressed = DressedMarkdown::new(alloc, read, skin.marks())?;
    let page = dressed.page(alloc)?;
    typed_page(&page);
    draw_page(alloc, out, &skin.row_skin(), page, area)
}

/// Draws the first rows of a page in an area, laid out as wide as that. Below its last row there are spaces. Nothing is flushed.
///
/// The area's right and bottom have to fit a `u16`.
///
/// # Errors
///
/// A fault of the device, or out of memory. What went out by then is a beginning of the whole.
pub fn draw_page<O: Out>(
    alloc: Global,
    out: &mut O,
    skin: &RowSkin,
    page: Page<'_>,
    area: &Area,
) -> Result<(), Error>
    requires { IsWithinLimits area.now }
    ensures writes { DrawsPage skin.now (page_content page.entry) area.now (O.seen out.old) result (O.seen out.new) }
    ensures shown { OnOk result (3 ≤ area.now.width → ShowsKept skin.now (page_content page.entry) area.now (O.seen out.old) (O.seen out.new)) }
{
    let width = usize::from(area.width);
    let rows = lay_page(alloc, skin, page, Some(width), has_ascii_boxes(skin))?;
    let placed = PageTextRows {
        skin,
        rows: rows.as_slice(),
        width,
    };
    draw_rows(alloc, out, &placed, area)
}
