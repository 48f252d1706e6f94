//! A laid out text in an area.

ghost use Rattle.std.specs.Prelude.{◌≡◌, ◌≢◌, ◌↔◌, ◌-◌, ◌≤◌, true, OnOk, None, IsTrue, length, if◌then◌else◌};
ghost use Rattle.mad_term.specs.Draws.{Draws, DrawsAndFlushes};
ghost use Rattle.mad_measure.specs.Areas.{IsWithinLimits};
ghost use Rattle.mad_measure.specs.Thumbs.{scrollbar_at};
ghost use Rattle.mad_layout.specs.Shown.{area_bytes};
ghost use Rattle.mad_layout.specs.ShownLayouts.{ShowsDrawable, ShowsLayout, ShowsRowsFrom};
ghost use Rattle.mad_view.specs.Scrolls.{pages_in_lines, scroll_within, scrolled_by, scrolled_down};
ghost use Rattle.mad_view.specs.ViewKeys.{scrolled_by_key};
ghost use Rattle.mad_view.specs.Views.{view_area, view_bar, view_lines, view_skin};

use crate::scrolls::{pages_in_lines, scroll_within, scrolled_by, scrolled_down};
use mad_layout::{FmtText, draw_text};
use mad_measure::Area;
use mad_term::{Error, KeyCode, KeyCombination, KeyEvent, KeyModifiers, Out};
use std::alloc::Global;

/// A text in an area of the screen, which shows as many of its lines as the area has rows.
#[derive(Debug, Drop)]
pub struct TextView<'a, 't> {
    area: &'a Area,
    text: &'t FmtText<'t, 't>,
    /// The index, from 0, of its first line that is shown. All are allowed: past the last line the area is blank.
    pub scroll: usize,
    /// Whether there is a scroll bar in the area's last column, where the text has more lines than the area has rows.
    pub show_scrollbar: bool,
}

impl<'a, 't> TextView<'a, 't> {
    /// A view of a text in an area, from its first line on, with a scroll bar.
    pub fn from(area: &'a Area, text: &'t FmtText<'_, '_>) -> Self
        ensures { result ≡ record { area = area.entry; text = text.entry; scroll = 0; show_scrollbar = true } }
    {
        TextView {
            area,
            text,
            scroll: 0,
            show_scrollbar: true,
        }
    }

    /// Shows another text in the same area, from its first line on.
    pub fn set_text(&mut self, text: &'t FmtText<'t, 't>)
        ensures { self.new ≡ record self.old { text = text.entry; scroll = 0 } }
    {
        self.text = text;
        self.scroll = 0;
    }

    /// How many lines the text has.
    pub fn content_height(&self) -> usize
        ensures { result ≡ length (view_lines self.now) }
    {
        self.text.lines.len()
    }

    /// The rows of the screen in which the thumb of the view's scroll bar begins and ends. None where there is no bar.
    pub fn scrollbar(&self) -> Option<(usize, usize)>
        ensures { result ≡ if self.now.show_scrollbar then scrollbar_at self.now.scroll (length (view_lines self.now)) (view_area self.now).height (view_area self.now).top else None }
    {
        if !self.show_scrollbar {
            return None;
        }
        self.area.scrollbar(self.scroll, self.content_height())
    }

    /// Scrolls so that the line of this number, counted from 0, comes first. It goes no further than to the text's last line in
    /// the area's last row, so a text that fits isn't scrolled. Answers the scroll that is set.
    pub fn set_scroll(&mut self, scroll: usize) -> usize
        ensures kept { self.new ≡ record self.old { scroll = scroll_within (length (view_lines self.old)) (view_area self.old).height scroll } }
        ensures answer { result ≡ self.new.scroll }
    {
        self.scroll = scroll_within(self.content_height(), self.page_height(), scroll);
        self.scroll
    }

    /// Scrolls by this many lines: down, no further than [`TextView::set_scroll`], or up where the count is below zero, no further than to
    /// the first line.
    pub fn try_scroll_lines(&mut self, lines_count: i32)
        ensures { self.new ≡ record self.old { scroll = scrolled_by (length (view_lines self.old)) (view_area self.old).height self.old.scroll lines_count } }
    {
        let (lines, rows) = (self.content_height(), self.page_height());
        self.scroll = scrolled_by(lines, rows, self.scroll, lines_count);
    }

    /// Scrolls by `num / den` pages, as [`TextView::try_scroll_lines`] does. A page is the area's height. A part of a line counts as a line,
    /// and there are no more lines than an `i32` holds. `den` has to be 1 at least.
    pub fn try_scroll_pages(&mut self, num: i64, den: u64)
        requires { 1 ≤ den }
        ensures { let lines = pages_in_lines (view_area self.old).height num den in self.new ≡ record self.old { scroll = scrolled_by (length (view_lines self.old)) (view_area self.old).height self.old.scroll lines } }
    {
        self.try_scroll_lines(pages_in_lines(self.area.height, num, den));
    }

    /// Scrolls one line up, if the first line isn't shown. Answers whether the view moved.
    pub fn line_up(&mut self) -> bool
        ensures kept { self.new ≡ record self.old { scroll = self.old.scroll - 1 } }
        ensures answer { IsTrue result ↔ self.new.scroll ≢ self.old.scroll }
    {
        self.move_to(self.scroll.saturating_sub(1))
    }

    /// Scrolls one line down, if the last line isn't shown. Answers whether the view moved.
    pub fn line_down(&mut self) -> bool
        ensures kept { self.new ≡ record self.old { scroll = scrolled_down (length (view_lines self.old)) (view_area self.old).height self.old.scroll 1 } }
        ensures answer { IsTrue result ↔ self.new.scroll ≢ self.old.scroll }
    {
        let (lines, rows) = (self.content_height(), self.page_height());
        self.move_to(scrolled_down(lines, rows, self.scroll, 1))
    }

    /// Scrolls the area's height up, or to the first line. Answers whether the view moved.
    pub fn page_up(&mut self) -> bool
        ensures kept { self.new ≡ record self.old { scroll = self.old.scroll - (view_area self.old).height } }
        ensures answer { IsTrue result ↔ self.new.scroll ≢ self.old.scroll }
    {
        self.move_to(self.scroll.saturating_sub(self.page_height()))
    }

    /// Scrolls the area's height down, or to where the last line is in the last row. Answers whether the view moved.
    pub fn page_down(&mut self) -> bool
        ensures kept { self.new ≡ record self.old { scroll = scrolled_down (length (view_lines self.old)) (view_area self.old).height self.old.scroll (view_area self.old).height } }
        ensures answer { IsTrue result ↔ self.new.scroll ≢ self.old.scroll }
    {
        let (lines, rows) = (self.content_height(), self.page_height());
        self.move_to(scrolled_down(lines, rows, self.scroll, rows))
    }

    /// Applies a key, as [`TextView::apply_key_combination`] does. Answers whether the view moved.
    pub fn apply_key_event(&mut self, key: KeyEvent) -> bool
        ensures kept { self.new ≡ record self.old { scroll = scrolled_by_key (length (view_lines self.old)) (view_area self.old).height self.old.scroll key.code key.modifiers } }
        ensures answer { IsTrue result ↔ self.new.scroll ≢ self.old.scroll }
    {
        self.apply_key_combination(KeyCombination::from(key))
    }

    /// Applies a key: Up and Down scroll by a line, PageUp and PageDown by a page. Another key does nothing, and neither does one with a
    /// modifier. Answers whether the view moved.
    pub fn apply_key_combination(&mut self, key: KeyCombination) -> bool
        ensures kept { self.new ≡ record self.old { scroll = scrolled_by_key (length (view_lines self.old)) (view_area self.old).height self.old.scroll key.code key.modifiers } }
        ensures answer { IsTrue result ↔ self.new.scroll ≢ self.old.scroll }
    {
        if key.modifiers != KeyModifiers::NONE {
            return false;
        }
        match key.code {
            KeyCode::Up => self.line_up(),
            KeyCode::Down => self.line_down(),
            KeyCode::PageUp => self.page_up(),
            KeyCode::PageDown => self.page_down(),
            _ => false,
        }
    }

    // The rows of the area.
    fn page_height(&self) -> usize
        ensures { result ≡ (view_area self.now).height }
    {
        usize::from(self.area.height)
    }

    // Sets the scroll, and answers whether it was another.
    fn move_to(&mut self, scroll: usize) -> bool
        ensures kept { self.new ≡ record self.old { scroll = scroll } }
        ensures answer { IsTrue result ↔ self.new.scroll ≢ self.old.scroll }
    {
        let moved = self.scroll != scroll;
        self.scroll = scroll;
        moved
    }

    /// Draws the text's lines in the area, that of the view's scroll first, and the view's scroll bar, if it has one. Past the last line
    /// there are spaces in the paragraph's style. Nothing is flushed, and the view is not changed.
    ///
    /// The area's right and bottom have to fit a `u16`.
    ///
    /// # Errors
    ///
    /// A fault of the device, or out of memory. What went out by then is a beginning of the whole.
    pub fn write_on<O: Out>(&self, alloc: Global, out: &mut O) -> Result<(), Error>
        requires { IsWithinLimits (view_area self.now) }
        ensures writes { Draws (O.seen out.old) (area_bytes (view_skin self.now) (view_bar self.now) (view_lines self.now) (view_area self.now) self.now.scroll) result (O.seen out.new) }

        // What a plain terminal shows that reads it, where each line that has a row keeps these. As a layout left it, it fits the
        // columns that the bar leaves, with its margins. No piece of it holds a control character or begins with a widthless one. Each
        // character of a prefix, a rule, a border and the bar takes one column.
        ensures shown { OnOk result (ShowsDrawable (view_skin self.now) (view_bar self.now) (view_lines self.now) (view_area self.now) self.now.scroll (O.seen out.old) (O.seen out.new)) }

        // The same where the lines are a layout of a text that keeps the premises, at no more than those columns.
        ensures shown_layout { OnOk result (ShowsLayout (view_skin self.now) (view_bar self.now) (view_lines self.now) (view_area self.now) self.now.scroll (O.seen out.old) (O.seen out.new)) }

        // The same in the text's own characters, where the layout has three columns at least.
        ensures headline { OnOk result (ShowsRowsFrom (view_skin self.now) (view_bar self.now) (view_lines self.now) (view_area self.now) self.now.scroll (O.seen out.old) (O.seen out.new)) }
    {
        draw_text(
            alloc,
            out,
            self.text,
            self.area,
            self.scroll,
            self.show_scrollbar,
        )
    }

    /// Draws the text as [`TextView::write_on`] does, and flushes. The view is not changed.
    ///
    /// The area's right and bottom have to fit a `u16`.
    ///
    /// # Errors
    ///
    /// A fault of the device, at its flush too, or out of memory. What went out by then is a beginning of the whole.
    #[tactic(auto, using(mad_term::proofs::Traces::took_flushed))]
    pub fn write<O: Out>(&self, alloc: Global, out: &mut O) -> Result<(), Error>
        requires { IsWithinLimits (view_area self.now) }
        ensures writes { DrawsAndFlushes (O.seen out.old) (area_bytes (view_skin self.now) (view_bar self.now) (view_lines self.now) (view_area self.now) self.now.scroll) result (O.seen out.new) }
        ensures shown { OnOk result (ShowsDrawable (view_skin self.now) (view_bar self.now) (view_lines self.now) (view_area self.now) self.now.scroll (O.seen out.old) (O.seen out.new)) }
        ensures shown_layout { OnOk result (ShowsLayout (view_skin self.now) (view_bar self.now) (view_lines self.now) (view_area self.now) self.now.scroll (O.seen out.old) (O.seen out.new)) }
        ensures headline { OnOk result (ShowsRowsFrom (view_skin self.now) (view_bar self.now) (view_lines self.now) (view_area self.now) self.now.scroll (O.seen out.old) (O.seen out.new)) }
    {
        self.write_on(alloc, out)?;
        out.flush()?;
        Ok(())
    }
}
