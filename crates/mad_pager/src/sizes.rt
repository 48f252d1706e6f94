//! The size of the screen: what the terminal tells of it, and the text laid out for it.

ghost use Rattle.std.specs.Prelude.{◌≡◌, IfOk, OnOk, length};
ghost use Rattle.mad_outline.specs.Sources.{source_page};
ghost use Rattle.mad_pager.specs.Sessions.{hears, hears_size, kept_row, paged_skin, state_of, HasSameText, IsLaidFor, IsResized, IsSettled};

use crate::places::{field_row, layout_width};
use crate::session::Session;
use mad_outline::Source;
use mad_page::Page;
use mad_page_rows::has_ascii_boxes;
use mad_page_skin::PageSkin;
use mad_pages::PagedPage;
use mad_rows::RowSkin;
use mad_search::row_in_parts;
use mad_term::Event;
use std::alloc::{AllocError, Global};

// The cells of the largest screen that is believed. The picture of one is held in memory.
const MOST_CELLS: u32 = 1_000_000;

/// The size of a screen.
#[derive(Clone, Copy, Debug, PartialEq, Eq)]
pub struct ScreenSize {
    /// Its columns.
    pub columns: u16,
    /// Its rows.
    pub rows: u16,
}

impl<'s> Session<'s> {
    /// Lays the text out for the size that the terminal told last, if it told one. What was on top stays there.
    ///
    /// # Errors
    ///
    /// Out of memory is the only error.
    pub fn settle(&mut self, alloc: Global) -> Result<(), AllocError>
        ensures settled { OnOk result (IsSettled self.old.skin.now (source_page self.old.source) (state_of self.old) (state_of self.new)) }
        ensures text { OnOk result (HasSameText self.old self.new) }
    {
        if let Some(size) = self.told {
            self.resize(alloc, size.columns, size.rows)?;
            return Ok(());
        }
        Ok(())
    }

    // Takes the size that an event tells, if it tells one.
    pub(crate) fn hear(&mut self, event: Event)
        ensures told { state_of self.new ≡ hears event (state_of self.old) }
        ensures text { HasSameText self.old self.new }
    {
        match event {
            Event::Resize(columns, rows) => self.hear_size(columns, rows),
            _ => {}
        }
    }

    // Takes the size that the terminal tells. A screen of more than a million cells isn't believed.
    pub(crate) fn hear_size(&mut self, columns: u16, rows: u16)
        ensures told { state_of self.new ≡ hears_size columns rows (state_of self.old) }
        ensures text { HasSameText self.old self.new }
    {
        if u32::from(columns) * u32::from(rows) <= MOST_CELLS {
            self.told = Some(ScreenSize { columns, rows });
        }
    }

    // The screen has another size: the text is laid out for it, and what was on top stays there.
    pub(crate) fn resize(
        &mut self,
        alloc: Global,
        columns: u16,
        rows: u16,
    ) -> Result<(), AllocError>
        ensures step { OnOk result (IsResized self.old.skin.now (source_page self.old.source) columns rows (state_of self.old) (state_of self.new)) }
        ensures text { OnOk result (HasSameText self.old self.new) }
    {
        let laid = lay(alloc, self.skin, self.source, columns)?;
        let top = self.row_kept(columns, laid.starts.as_slice());
        self.page = Page {
            columns,
            rows,
            height: height_of(&laid),
            top,
            count: self.page.count,
            holds_bar: self.page.holds_bar,
            has_colon: self.page.has_colon,
            tells: self.page.tells,
            files: self.page.files,
        };
        self.laid = laid;
        self.found = None;
        self.told = None;
        self.field.set_area(field_row(columns, rows));
        Ok(())
    }

    // The row that stays on top where the screen has these columns and sections begin in these rows.
    fn row_kept(&self, columns: u16, starts: &[usize]) -> usize
        ensures { result ≡ kept_row self.now.page.columns columns self.now.laid.starts.items starts.now self.now.page.top }
    {
        if columns == self.page.columns {
            return self.page.top;
        }
        row_in_parts(self.laid.starts.as_slice(), starts, self.page.top)
    }
}

/// Lays a text out for a screen of these columns.
///
/// # Errors
///
/// Out of memory is the only error.
pub(crate) fn lay<'s>(
    alloc: Global,
    skin: &PageSkin,
    source: Source<'s>,
    columns: u16,
) -> Result<PagedPage<'s>, AllocError>
    ensures { IfOk result (IsLaidFor skin.now (source_page source.entry) columns) }
{
    let rows = paged_skin(skin);
    let laid = source.lay(
        alloc,
        &rows,
        layout_width(skin.room, columns),
        has_ascii_boxes(&rows),
    )?;
    Ok(laid)
}

/// What rows show of a skin. Words stay whole where those of its text do.
pub(crate) fn paged_skin(skin: &PageSkin) -> RowSkin
    ensures { result ≡ paged_skin skin.now }
{
    RowSkin {
        whole_words: skin.text.whole_words,
        ..skin.row_skin()
    }
}

/// How many rows what is laid out has.
pub(crate) fn height_of(laid: &PagedPage) -> usize
    ensures { result ≡ length laid.now.lines.items }
{
    laid.lines.len()
}
