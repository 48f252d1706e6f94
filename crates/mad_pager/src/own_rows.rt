//! What is drawn over the text: hits, and rows whose characters have styles of their own.

ghost use Rattle.std.specs.Prelude.{◌≡◌, ◌==◌, ◌&&◌, not, OnOk, drop, length, take};
ghost use Rattle.mad_term.specs.Trace.{TookWith};
ghost use Rattle.mad_patterns.specs.Readings.{reading_of};
ghost use Rattle.mad_hits.specs.OwnRows.{AreRowsDrawn};
ghost use Rattle.mad_outline.specs.Sources.{a_text, content_of, text_said};
ghost use Rattle.mad_plain_page.specs.PlainTexts.{rows_of_text};
ghost use Rattle.mad_pager.specs.Screens.{AreDrawnOver, AreHitsDrawn, area_of, own_rows, room_of};
ghost use Rattle.mad_pager.specs.Sessions.{layout_width, state_of};

use crate::places::layout_width;
use crate::session::Session;
use mad_hits::draw_own_rows;
use mad_outline::Source;
use mad_patterns::Sought;
use mad_plain_page::PlainText;
use mad_search::PagedText;
use mad_term::{Error, Out};
use std::alloc::Global;

impl Session<'_> {
    // Draws what comes over the text: hits in their style, wherever they are on the screen, of what is typed, while something is, and else of what is
    // sought. Rows that have styles of their own are drawn before that.
    pub(crate) fn draw_over<O: Out>(&self, alloc: Global, out: &mut O) -> Result<(), Error>
        ensures { OnOk result (TookWith (O.seen out.old) (O.seen out.new) (AreHitsDrawn self.now.skin.now (own_rows self.now.skin.now (content_of self.now.source) (state_of self.now)) (state_of self.now))) }
    {
        let typed = self.typed_text()?;
        let marks_typed = self.marks_typed(typed.as_str());
        if marks_typed {
            let reading = Sought::read(alloc, typed.as_str())?;
            self.draw_read(alloc, out, &reading)?;
            return Ok(());
        }
        self.draw_read(alloc, out, &self.reading)?;
        Ok(())
    }

    // Whether something is being typed, which is marked then.
    fn marks_typed(&self, typed: &str) -> bool
        ensures { result ≡ (self.now.is_typing && not (length typed.now == 0)) }
    {
        self.is_typing && !typed.is_empty()
    }

    // Draws what comes over the text: the hits of what was read, and before that rows that have styles of their own.
    fn draw_read<O: Out>(&self, alloc: Global, out: &mut O, reading: &Sought) -> Result<(), Error>
        ensures { OnOk result (TookWith (O.seen out.old) (O.seen out.new) (AreDrawnOver self.now.skin.now (own_rows self.now.skin.now (content_of self.now.source) (state_of self.now)) (state_of self.now) (reading_of reading.now).pattern)) }
    {
        match self.source {
            Source::Text(text) => self.draw_read_text(alloc, out, text, reading),
            Source::Numbered(text) => self.draw_read_text(alloc, out, text, reading),
            Source::Links(_, _, _, _) => self.draw_marks(alloc, out, reading),
            Source::Contents(_, _) => self.draw_marks(alloc, out, reading),
        }
    }

    // The same, where this text is shown.
    fn draw_read_text<O: Out>(
        &self,
        alloc: Global,
        out: &mut O,
        text: PagedText<'_>,
        reading: &Sought,
    ) -> Result<(), Error>
        ensures { OnOk result (TookWith (O.seen out.old) (O.seen out.new) (AreDrawnOver self.now.skin.now (own_rows self.now.skin.now (a_text (text_said text.entry)) (state_of self.now)) (state_of self.now) (reading_of reading.now).pattern)) }
    {
        match text {
            PagedText::Lines(_) => self.draw_marks(alloc, out, reading),
            PagedText::Markdown(_, _, _) => self.draw_marks(alloc, out, reading),
            PagedText::Plain(text) => self.draw_plain(alloc, out, text, reading),
        }
    }

    // Draws those rows of a text that isn't Markdown that are on the screen, and their hits.
    fn draw_plain<O: Out>(
        &self,
        alloc: Global,
        out: &mut O,
        text: &PlainText<'_>,
        reading: &Sought,
    ) -> Result<(), Error>
        ensures { OnOk result (TookWith (O.seen out.old) (O.seen out.new) (AreRowsDrawn self.now.skin.now.hit (room_of self.now.skin.now (state_of self.now)) (reading_of reading.now).pattern 0
            (take (area_of (state_of self.now)).height (drop self.now.page.top (rows_of_text text.now (layout_width self.now.skin.now.room self.now.page.columns)))))) }
    {
        let rows = text.rows_from(
            alloc,
            layout_width(self.skin.room, self.page.columns),
            self.page.top,
            usize::from(self.page.body_rows()),
        )?;
        draw_own_rows(
            alloc,
            out,
            self.skin.hit,
            rows.as_slice(),
            self.room(),
            reading.pattern(),
        )?;
        Ok(())
    }
}
