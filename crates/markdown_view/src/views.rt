//! A text of Markdown in an area.

ghost use Rattle.std.specs.Prelude.{◌≡◌, ◌≢◌, ◌↔◌, ◌-◌, IfOk, IsTrue, OnErr, OnOk, Some, drop, length};
ghost use Rattle.mad_measure.specs.Areas.{IsWithinLimits};
ghost use Rattle.mad_measure.specs.Thumbs.{scrollbar_at};
ghost use Rattle.mad_term.specs.Draws.{Draws};
ghost use Rattle.mad_view.specs.Scrolls.{pages_in_lines, scroll_within, scrolled_by, scrolled_down};
ghost use Rattle.mad_view.specs.ViewKeys.{scrolled_by_key};
ghost use Rattle.mad_page_skin.specs.PageSkins.{page_row_skin};
ghost use Rattle.markdown_layout.specs.DressedTexts.{dressed_says};
ghost use Rattle.markdown_view.specs.MarkdownViews.{IsLaidAnew, IsLaidOut, IsResized, IsSoundView, ShowsKeptView, ShowsReadView, last_column_of, page_columns, view_bytes};

use mad_draw::{ScrollBar, draw_rows_beside};
use mad_measure::Area;
use mad_page_rows::{PageTextRows, has_ascii_boxes};
use mad_page_skin::PageSkin;
use mad_pages::{PageRow, lay_page};
use mad_rows::RowSkin;
use mad_style::{ScrollBarStyle, StyledChar};
use mad_term::{Error, KeyCode, KeyCombination, KeyEvent, KeyModifiers, Out};
use mad_view::scrolls::{pages_in_lines, scroll_within, scrolled_by, scrolled_down};
use markdown_layout::DressedMarkdown;
use markdown_layout::typed_pages::typed_page;
use std::alloc::{AllocError, Global};
use std::marker::Model;

/// A text of Markdown in an area of the screen, as a page: it shows as many rows as the area has. The area's last column is the scroll bar's.
///
/// The page is laid out once, in the other columns, and anew where their count changes. So drawing takes the time of what is shown, and scrolling
/// takes no memory.
#[derive(Drop)]
pub struct MarkdownView<'m> {
    markdown: &'m DressedMarkdown,
    area: Area,
    skin: RowSkin,
    bar: ScrollBarStyle,
    rows: Vec<PageRow<'m>>,
    scroll: usize,
}

impl<'m> Model for MarkdownView<'m> {
    ghost use Rattle.markdown_layout.specs.DressedTexts.{dressed_says};
    ghost use Rattle.markdown_view.specs.MarkdownViews.{IsSoundView, ViewContent};

    ghost Value = { ViewContent };

    ghost view = { λ v. record { area = v.area; skin = v.skin; bar = v.bar; page = dressed_says v.markdown.now; rows = v.rows.items; scroll = v.scroll } };

    ghost invariant = { λ v. IsSoundView v.skin v.area (dressed_says v.markdown.now) v.rows.items };
}

impl<'m> MarkdownView<'m> {
    /// A view of a text in an area, from its first row on, in the skin of a page. What stands beside its headings is the text's.
    ///
    /// # Errors
    ///
    /// Out of memory is the only error.
    pub fn from(
        alloc: Global,
        markdown: &'m DressedMarkdown,
        area: Area,
        skin: &PageSkin,
    ) -> Result<MarkdownView<'m>, AllocError>
        ensures { IfOk result (λ view. IsLaidAnew (record { area = area; skin = page_row_skin skin.now; bar = skin.now.text.scrollbar; page = dressed_says markdown.entry.now; rows = view.rows; scroll = 0 }) view) }
    {
        let row_skin = skin.row_skin();
        let rows = laid_out(alloc, markdown, &row_skin, &area)?;
        Ok(MarkdownView {
            markdown,
            area,
            skin: row_skin,
            bar: skin.text.scrollbar,
            rows,
            scroll: 0,
        })
    }

    /// Shows another text in the same area and skin, from its first row on.
    ///
    /// # Errors
    ///
    /// Out of memory for the layout. The view is not changed then.
    pub fn set_markdown(&mut self, markdown: &'m DressedMarkdown) -> Result<(), AllocError>
        ensures anew { OnOk result (IsLaidAnew (record self.old { page = dressed_says markdown.entry.now }) self.new) }
        ensures err { OnErr result (self.new ≡ self.old) }
    {
        let alloc = *self.rows.allocator();
        let rows = laid_out(alloc, markdown, &self.skin, &self.area)?;
        self.markdown = markdown;
        self.rows = rows;
        self.scroll = 0;
        Ok(())
    }

    /// Puts the view in another area. One of another width is shown from the first row on.
    ///
    /// # Errors
    ///
    /// Out of memory for the layout at another width. The view is not changed then.
    pub fn resize(&mut self, area: &Area) -> Result<(), AllocError>
        ensures resized { OnOk result (IsResized area.now self.old self.new) }
        ensures err { OnErr result (self.new ≡ self.old) }
    {
        if area.width == self.area.width {
            self.area = *area;
            return Ok(());
        }
        let alloc = *self.rows.allocator();
        let rows = laid_out(alloc, self.markdown, &self.skin, area)?;
        self.area = *area;
        self.rows = rows;
        self.scroll = 0;
        Ok(())
    }

    /// The area.
    pub fn area(&self) -> Area
        ensures { result ≡ self.now.area }
    {
        self.area
    }

    /// How many of its rows are above the area.
    pub fn scroll(&self) -> usize
        ensures { result ≡ self.now.scroll }
    {
        self.scroll
    }

    /// How many rows its page has.
    pub fn content_height(&self) -> usize
        ensures { result ≡ length self.now.rows }
    {
        self.rows.len()
    }

    /// The rows of the screen in which the thumb of the scroll bar begins and ends. None where there is no bar.
    pub fn scrollbar(&self) -> Option<(usize, usize)>
        ensures { result ≡ scrollbar_at self.now.scroll (length self.now.rows) self.now.area.height self.now.area.top }
    {
        self.area.scrollbar(self.scroll, self.rows.len())
    }

    /// Scrolls so that the row of this number, counted from 0, comes first. It goes no further than to the page's last row in the area's last one,
    /// so a page that fits isn't scrolled. Answers the scroll that is set.
    pub fn set_scroll(&mut self, scroll: usize) -> usize
        ensures kept { self.new ≡ record self.old { scroll = scroll_within (length self.old.rows) self.old.area.height scroll } }
        ensures answer { result ≡ self.new.scroll }
    {
        let scroll = scroll_within(self.rows.len(), usize::from(self.area.height), scroll);
        self.scroll = scroll;
        scroll
    }

    /// Scrolls by this many rows: down, no further than [`MarkdownView::set_scroll`], or up where the count is below zero, no further than to
    /// the first row.
    pub fn try_scroll_lines(&mut self, lines_count: i32)
        ensures { self.new ≡ record self.old { scroll = scrolled_by (length self.old.rows) self.old.area.height self.old.scroll lines_count } }
    {
        let rows = usize::from(self.area.height);
        self.scroll = scrolled_by(self.rows.len(), rows, self.scroll, lines_count);
    }

    /// Scrolls by this many pages, as [`MarkdownView::try_scroll_lines`] does. A page is the area's height; there are no more rows than an `i32`
    /// holds.
    pub fn try_scroll_pages(&mut self, pages_count: i32)
        ensures { self.new ≡ record self.old { scroll = scrolled_by (length self.old.rows) self.old.area.height self.old.scroll (pages_in_lines self.old.area.height pages_count 1) } }
    {
        self.try_scroll_lines(pages_in_lines(self.area.height, i64::from(pages_count), 1))
    }

    /// Scrolls one row up, if the first row isn't shown. Answers whether the view moved.
    pub fn line_up(&mut self) -> bool
        ensures kept { self.new ≡ record self.old { scroll = self.old.scroll - 1 } }
        ensures answer { IsTrue result ↔ self.new.scroll ≢ self.old.scroll }
    {
        let scroll = self.scroll.saturating_sub(1);
        self.move_to(scroll)
    }

    /// Scrolls one row down, if the last row isn't shown. Answers whether the view moved.
    pub fn line_down(&mut self) -> bool
        ensures kept { self.new ≡ record self.old { scroll = scrolled_down (length self.old.rows) self.old.area.height self.old.scroll 1 } }
        ensures answer { IsTrue result ↔ self.new.scroll ≢ self.old.scroll }
    {
        let rows = usize::from(self.area.height);
        let scroll = scrolled_down(self.rows.len(), rows, self.scroll, 1);
        self.move_to(scroll)
    }

    /// Scrolls the area's height up, or to the first row. Answers whether the view moved.
    pub fn page_up(&mut self) -> bool
        ensures kept { self.new ≡ record self.old { scroll = self.old.scroll - self.old.area.height } }
        ensures answer { IsTrue result ↔ self.new.scroll ≢ self.old.scroll }
    {
        let scroll = self.scroll.saturating_sub(usize::from(self.area.height));
        self.move_to(scroll)
    }

    /// Scrolls the area's height down, or to where the last row is in the area's last one. Answers whether the view moved.
    pub fn page_down(&mut self) -> bool
        ensures kept { self.new ≡ record self.old { scroll = scrolled_down (length self.old.rows) self.old.area.height self.old.scroll self.old.area.height } }
        ensures answer { IsTrue result ↔ self.new.scroll ≢ self.old.scroll }
    {
        let rows = usize::from(self.area.height);
        let scroll = scrolled_down(self.rows.len(), rows, self.scroll, rows);
        self.move_to(scroll)
    }

    /// Applies a key, as [`MarkdownView::apply_key_combination`] does. Answers whether the view moved.
    pub fn apply_key_event(&mut self, key: KeyEvent) -> bool
        ensures kept { self.new ≡ record self.old { scroll = scrolled_by_key (length self.old.rows) self.old.area.height self.old.scroll key.code key.modifiers } }
        ensures answer { IsTrue result ↔ self.new.scroll ≢ self.old.scroll }
    {
        self.apply_key_combination(KeyCombination::from(key))
    }

    /// Applies a key: Up and Down scroll by a row, PageUp and PageDown by a page. Another key does nothing, and neither does one with a modifier.
    /// Answers whether the view moved.
    pub fn apply_key_combination(&mut self, key: KeyCombination) -> bool
        ensures kept { self.new ≡ record self.old { scroll = scrolled_by_key (length self.old.rows) self.old.area.height self.old.scroll key.code key.modifiers } }
        ensures answer { IsTrue result ↔ self.new.scroll ≢ self.old.scroll }
    {
        if key.modifiers != KeyModifiers::NONE {
            return false;
        }
        match key.code {
            KeyCode::Up => self.line_up(),
            KeyCode::Down => self.line_down(),
            KeyCode::PageUp => self.page_up(),
            KeyCode::PageDown => self.page_down(),
            _ => false,
        }
    }

    // Sets the scroll, and answers whether it was another.
    fn move_to(&mut self, scroll: usize) -> bool
        ensures kept { self.new ≡ record self.old { scroll = scroll } }
        ensures answer { IsTrue result ↔ self.new.scroll ≢ self.old.scroll }
    {
        let moved = self.scroll != scroll;
        self.scroll = scroll;
        moved
    }

    /// Draws the rows of the page in the area, that of the view's scroll first, and past the last one spaces. In the area's last column there is a
    /// scroll bar, where the page has more rows than the area, and else blanks. Nothing is flushed, and the view is not changed.
    ///
    /// The area's right and bottom have to fit a `u16`. What it shows is promised from four columns on.
    ///
    /// # Errors
    ///
    /// A fault of the device, or out of memory. What went out by then is a beginning of the whole.
    pub fn write_on<O: Out>(&self, out: &mut O) -> Result<(), Error>
        requires { IsWithinLimits self.now.area }
        ensures laid_out { IsLaidOut self.now }
        ensures writes { Draws (O.seen out.old) (view_bytes self.now) result (O.seen out.new) }

        // What a plain terminal shows that reads it, where the sections that are shown keep the premises of drawing.
        ensures shown { OnOk result (ShowsKeptView self.now (O.seen out.old) (O.seen out.new)) }

        // The same of a text that `read_drawable` gives: nothing is asked of it.
        ensures read { OnOk result (ShowsReadView self.now (O.seen out.old) (O.seen out.new)) }
    {
        let alloc = *self.rows.allocator();
        let bar = self.last_column();
        let shown = PageTextRows {
            skin: &self.skin,
            rows: rows_from(&self.rows, self.scroll),
            width: page_columns(&self.area),
        };
        draw_rows_beside(alloc, out, &shown, Some(bar), &self.area)
    }

    // What the area's last column shows: the scroll bar, or blanks.
    fn last_column(&self) -> ScrollBar
        ensures { result ≡ last_column_of self.now }
    {
        match ScrollBar::beside(&self.area, self.scroll, self.rows.len(), self.bar) {
            Some(bar) => bar,
            None => {
                let blank = StyledChar::new(self.skin.paragraph.compound_style, ' ');
                ScrollBar {
                    style: ScrollBarStyle {
                        track: blank,
                        thumb: blank,
                    },
                    top: self.area.top,
                    thumb: (0, 0),
                }
            }
        }
    }
}

// The rows of a text's page in an area.
fn laid_out<'m>(
    alloc: Global,
    markdown: &'m DressedMarkdown,
    skin: &RowSkin,
    area: &Area,
) -> Result<Vec<PageRow<'m>>, AllocError>
    ensures { IfOk result (λ rows. IsSoundView skin.now area.now (dressed_says markdown.entry.now) rows.items) }
{
    let page = markdown.page(alloc)?;
    // Nothing is done: this only says what types promise.
    typed_page(&page);
    let columns = Some(page_columns(area));
    lay_page(alloc, skin, page, columns, has_ascii_boxes(skin))
}

// The columns of a page in an area.
fn page_columns(area: &Area) -> usize
    ensures { result ≡ page_columns area.now }
{
    usize::from(area.width).saturating_sub(1)
}

// The rows from one on; past the last one none.
fn rows_from<'a, 's>(rows: &'a [PageRow<'s>], first: usize) -> &'a [PageRow<'s>]
    ensures { result.now ≡ drop first rows.entry.now }
{
    &rows[first.min(rows.len())..]
}
