//! A page over a text: what it shows, and what keys say there.

ghost use Rattle.std.specs.Prelude.{◌≡◌, IfOk, OnOk, slice_index};
ghost use Rattle.mad_pager.specs.Following.{last_row_of, sections_shown};
ghost use Rattle.mad_pager.specs.Pagers.{choice_after, content_chosen, contents_page, has_choice, header_row, is_enter, key_answer, key_over, leaf_of, links_page, over_answer, row_at, sighted, size_to_lay, IsChoice};
ghost use Rattle.mad_pager.specs.Sessions.{at_header, state_of, HasSameText};
ghost use Rattle.mad_outline.specs.Sources.{content_of, said_of, text_said};

use crate::session::Session;
use crate::sizes::ScreenSize;
use mad_outline::{NEVER_LINKS, Source, count_below, header_numbers, section_at, start_at};
use mad_page::{Ask, Command, Page, command_of, is_break};
use mad_search::PagedText;
use mad_term::{Event, KeyCode, KeyEvent, KeyModifiers};
use std::alloc::{AllocError, Global};

/// What an event says while a page is over the text.
#[derive(Clone, Copy)]
pub(crate) enum Answer {
    /// To close the page.
    Closes,
    /// To close it, and to put the header that is chosen on top of the text.
    Takes,
    /// To choose another header.
    Chooses(KeyEvent),
    /// To list the links of the text that is shown.
    Lists,
    /// To follow the link of this index among those of the text.
    Follows(usize),
    /// What it says of any text.
    Passes,
}

// What a key says there, of headers or not.
fn key_over(key: KeyEvent, has_choice: bool) -> Answer
    ensures { result ≡ key_over key has_choice }
{
    if is_break(key) {
        return Answer::Passes;
    }
    if has_choice && is_enter(key) {
        return Answer::Takes;
    }
    match command_of(key) {
        Command::Asks(Ask::Quit | Ask::Forget | Ask::Help | Ask::Links | Ask::Contents) => {
            Answer::Closes
        }
        Command::Asks(Ask::Reload | Ask::Edit) => Answer::Closes,
        Command::Moves(_) if has_choice => Answer::Chooses(key),
        _ => Answer::Passes,
    }
}

/// Whether a key is Enter, without modifiers.
pub(crate) fn is_enter(key: KeyEvent) -> bool
    ensures { result ≡ is_enter key }
{
    key.modifiers == KeyModifiers::NONE && key.code == KeyCode::Enter
}

impl<'s> Session<'s> {
    // What an event says while this page is over the text.
    pub(crate) fn over_answer(&self, event: Event) -> Answer
        ensures { result ≡ over_answer event (leaf_of self.now) }
    {
        match event {
            Event::Key(key) if !self.is_typing && !self.page.has_colon => self.key_answer(key),
            _ => Answer::Passes,
        }
    }

    // What a key says while this page is over the text, and nothing is being typed: of links, or else as on any page.
    fn key_answer(&self, key: KeyEvent) -> Answer
        ensures { result ≡ key_answer key (leaf_of self.now) }
    {
        match self.link_answer(key) {
            Some(answer) => answer,
            None => key_over(key, self.has_choice()),
        }
    }

    // Whether it has headers, one of which is chosen.
    fn has_choice(&self) -> bool
        ensures { result ≡ has_choice (content_of self.now.source) }
    {
        matches!(self.source, Source::Contents(_, _))
    }

    // Chooses another header, and lays all out anew for that.
    pub(crate) fn choose(&mut self, alloc: Global, key: KeyEvent) -> Result<(), AllocError>
        ensures { OnOk result (IsChoice key (leaf_of self.old) (leaf_of self.new)) }
    {
        let size = self.size_to_lay();
        self.source = self.source_chosen(key);
        self.page.count = 0;
        self.resize(alloc, size.columns, size.rows)?;
        Ok(())
    }

    // What it shows after a key that chooses a header.
    fn source_chosen(&self, key: KeyEvent) -> Source<'s>
        ensures { content_of result ≡ content_chosen key (state_of self.now) (content_of self.now.source) }
    {
        match self.source {
            Source::Contents(text, chosen) => {
                Source::Contents(text, self.choice_after(key, chosen))
            }
            other => other,
        }
    }

    // The header that is chosen after a key: each has one row of a page that shows one row.
    fn choice_after(&self, key: KeyEvent, chosen: usize) -> usize
        ensures { result ≡ choice_after key (state_of self.now) chosen }
    {
        let mut page = Page {
            columns: self.page.columns,
            rows: 2,
            height: self.laid.starts.len().saturating_sub(1),
            top: chosen,
            count: self.page.count,
            holds_bar: false,
            has_colon: false,
            tells: false,
            files: self.page.files,
        };
        page.apply_key(key);
        page.top
    }

    // The size that it is to be laid out for: what was told last, or else that of the screen.
    fn size_to_lay(&self) -> ScreenSize
        ensures { result ≡ size_to_lay (state_of self.now) }
    {
        match self.told {
            Some(size) => size,
            None => ScreenSize {
                columns: self.page.columns,
                rows: self.page.rows,
            },
        }
    }

    // Scrolls so that the header that is chosen is on the screen, if one is.
    pub(crate) fn show_choice(&mut self)
        ensures shown { state_of self.new ≡ sighted (content_of self.old.source) (state_of self.old) }
        ensures text { HasSameText self.old self.new }
    {
        match self.source {
            Source::Contents(_, chosen) => {
                let row = start_at(self.laid.starts.as_slice(), chosen);
                self.page.show_row(row);
            }
            _ => {}
        }
    }

    // The text that is shown, with numbers or without; where none is, an empty one.
    pub(crate) fn paged(&self) -> PagedText<'s>
        ensures { text_said result ≡ said_of (content_of self.now.source) }
    {
        match self.source {
            Source::Text(text) => text,
            Source::Numbered(text) => text,
            _ => PagedText::Lines(""),
        }
    }

    // What the page of links shows over this text: those of the sections that are on the screen.
    pub(crate) fn links(&self) -> Source<'s>
        ensures { content_of result ≡ links_page (said_of (content_of self.now.source)) (state_of self.now) }
    {
        match self.paged() {
            PagedText::Lines(_) => Source::Text(PagedText::Lines(NEVER_LINKS)),
            PagedText::Plain(_) => Source::Text(PagedText::Lines(NEVER_LINKS)),
            PagedText::Markdown(markdown, _, source) => {
                let (from, to) = self.sections_shown();
                Source::Links(markdown, source, from, to)
            }
        }
    }

    // The index of the first section on the screen, and of the one behind the last.
    pub(crate) fn sections_shown(&self) -> (usize, usize)
        ensures { result ≡ sections_shown (state_of self.now) }
    {
        let starts = self.laid.starts.as_slice();
        let first = section_at(starts, self.page.top);
        let last = section_at(starts, self.last_row());
        (first, last.saturating_add(1))
    }

    // The text's row in the last row of the screen that it has.
    fn last_row(&self) -> usize
        ensures { result ≡ last_row_of self.now.page }
    {
        let rows = usize::from(self.page.body_rows());
        self.page.top.saturating_add(rows.saturating_sub(1))
    }

    // What the page of contents shows over this text: the header is chosen that the top row is below, or has.
    pub(crate) fn headers(&self, alloc: Global) -> Result<Source<'s>, AllocError>
        ensures { IfOk result (λ source. content_of source ≡ contents_page (said_of (content_of self.now.source)).page (state_of self.now)) }
    {
        let text = self.paged();
        let numbers = header_numbers(alloc, text)?;
        let section = section_at(self.laid.starts.as_slice(), self.page.top);
        let begun = count_below(numbers.as_slice(), section.saturating_add(1));
        Ok(Source::Contents(text, begun.saturating_sub(1)))
    }

    // Puts the header that is chosen on a page over this text on top, if there is one.
    pub(crate) fn take_choice(&mut self, alloc: Global, over: Source<'s>) -> Result<(), AllocError>
        ensures done { OnOk result (state_of self.new ≡ at_header (header_row (content_of over.entry) self.old.laid.starts.items) (state_of self.old)) }
        ensures text { OnOk result (HasSameText self.old self.new) }
    {
        let row = self.header_row(alloc, over)?;
        self.put_on_top(row);
        Ok(())
    }

    // The row of the header that is chosen on a page over this text.
    fn header_row(&self, alloc: Global, over: Source<'s>) -> Result<Option<usize>, AllocError>
        ensures { IfOk result (λ row. row ≡ header_row (content_of over.entry) self.now.laid.starts.items) }
    {
        match over {
            Source::Contents(text, chosen) => {
                let numbers = header_numbers(alloc, text)?;
                Ok(row_at(numbers.as_slice(), self.laid.starts.as_slice(), chosen))
            }
            _ => Ok(None),
        }
    }
}

// The row in which the section begins whose number has this index, if one has it.
fn row_at(numbers: &[usize], starts: &[usize], index: usize) -> Option<usize>
    ensures { result ≡ row_at numbers.now starts.now index }
{
    match numbers.get(index) {
        Some(number) => Some(start_at(starts, *number)),
        None => None,
    }
}
