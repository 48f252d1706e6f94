//! Links of a text that have numbers: which one a number says, and where it leads.

ghost use Rattle.std.specs.Prelude.{◌≡◌, IfOk, OnOk, Some, map, option_map, slice_get, slice_index};
ghost use Rattle.markdown_headings.specs.HeadingsSaid.{name_said, section_of};
ghost use Rattle.markdown_headings.specs.Targets.{section_among};
ghost use Rattle.markdown_reader.specs.Anchors.{anchor_said};
ghost use Rattle.markdown_reader.specs.MarkdownSays.{link_said};
ghost use Rattle.mad_pager.specs.Following.{address_if, address_of, at_name, chosen_link, link_on_screen, followed, followed_turn, has_numbers, is_links, is_numbered, name_within, numbers_among, numbers_shown, section_led, target_row, top_of, unescaped};
ghost use Rattle.mad_pager.specs.Pagers.{leaf_of, link_answer, links_opened, number_answer};
ghost use Rattle.mad_pager.specs.Sessions.{at_row_or, state_of, HasSameText};
ghost use Rattle.mad_outline.specs.Sources.{content_of, said_of, text_said};
ghost use Rattle.mad_page.specs.Pages.{at_row};

use crate::over::{Answer, is_enter};
use crate::session::{End, Session, Turn};
use mad_link_places::LinkPlace;
use mad_outline::{Source, link_numbers, nth_link, start_at};
use mad_page::{Ask, Command, Page, command_of};
use mad_search::PagedText;
use mad_term::KeyEvent;
use markdown_headings::{Heading, find_section, headings};
use markdown_reader::{Anchor, Link, read_anchors};
use percent_encoding::percent_decode_str;
use std::alloc::{AllocError, Global};

// What says that an address leads to a place in its own text.
const WITHIN: char = '#';

// Whether a key asks for links.
fn is_links(key: KeyEvent) -> bool
    ensures { result ≡ is_links key }
{
    matches!(command_of(key), Command::Asks(Ask::Links))
}

// The row that is on top of a page over a text at its start, whose top row this is: a text with numbers stays where it is.
pub(crate) fn top_of(source: Source<'_>, top: usize) -> usize
    ensures { result ≡ top_of (content_of source.entry) top }
{
    match source {
        Source::Numbered(_) => top,
        _ => 0,
    }
}

impl<'s> Session<'s> {
    // What a key says of links that have numbers: Enter behind one follows it, and the key for links lists those that have numbers where they stand.
    pub(crate) fn link_answer(&self, key: KeyEvent) -> Option<Answer>
        ensures { result ≡ link_answer key (leaf_of self.now) }
    {
        if self.has_numbers() && self.page.count > 0 && is_enter(key) {
            return Some(number_answer(self.chosen_link()));
        }
        if self.is_numbered() && is_links(key) {
            return Some(Answer::Lists);
        }
        None
    }

    // Whether links have numbers there.
    fn has_numbers(&self) -> bool
        ensures { result ≡ has_numbers (content_of self.now.source) }
    {
        matches!(self.source, Source::Numbered(_) | Source::Links(_, _, _, _))
    }

    // Whether they have them where they stand.
    fn is_numbered(&self) -> bool
        ensures { result ≡ is_numbered (content_of self.now.source) }
    {
        matches!(self.source, Source::Numbered(_))
    }

    // The index of the link of the number that was typed.
    fn chosen_link(&self) -> Option<usize>
        ensures { result ≡ chosen_link (content_of self.now.source) (state_of self.now) }
    {
        match self.source {
            Source::Numbered(text) => self.link_on_screen(text, self.page.count),
            Source::Links(markdown, _, from, to) => {
                nth_link(markdown.links(), from, to, self.page.count)
            }
            _ => None,
        }
    }

    // The index of the link of a number among those of a text's sections that are on the screen.
    fn link_on_screen(&self, text: PagedText<'s>, number: usize) -> Option<usize>
        ensures { result ≡ link_on_screen (text_said text.entry) (state_of self.now) number }
    {
        match text {
            PagedText::Markdown(markdown, _, _) => {
                let (from, to) = self.sections_shown();
                nth_link(markdown.links(), from, to, number)
            }
            PagedText::Lines(_) => None,
            PagedText::Plain(_) => None,
        }
    }

    // What the key for links opens over this text: the text with numbers, where a link is on the screen.
    pub(crate) fn links_opened(&self) -> Source<'s>
        ensures { content_of result ≡ links_opened (said_of (content_of self.now.source)) (state_of self.now) }
    {
        let text = self.paged();
        match self.link_on_screen(text, 1) {
            Some(_) => Source::Numbered(text),
            None => self.links(),
        }
    }

    // Where numbers are on the screen.
    pub(crate) fn numbers_shown(&self, alloc: Global) -> Result<Vec<LinkPlace>, AllocError>
        ensures { IfOk result (λ places. places.items ≡ numbers_shown (content_of self.now.source) (state_of self.now)) }
    {
        match self.source {
            Source::Numbered(text) => self.numbers_of(alloc, text),
            _ => Ok(Vec::new(alloc)),
        }
    }

    // Where those of this text are, which is shown.
    fn numbers_of(&self, alloc: Global, text: PagedText<'s>) -> Result<Vec<LinkPlace>, AllocError>
        ensures { IfOk result (λ places. places.items ≡ numbers_among (text_said text.entry).links (text_said text.entry) (state_of self.now)) }
    {
        match text {
            PagedText::Markdown(markdown, _, _) => {
                let (from, to) = self.sections_shown();
                link_numbers(
                    alloc,
                    markdown,
                    from,
                    to,
                    self.laid.lines.as_slice(),
                    self.laid.starts.as_slice(),
                    self.page.top,
                    usize::from(self.page.body_rows()),
                )
            }
            PagedText::Lines(_) => Ok(Vec::new(alloc)),
            PagedText::Plain(_) => Ok(Vec::new(alloc)),
        }
    }

    // Follows the link of an index in this text: where its address names a place in it, that comes on top. Else the session ends for it.
    pub(crate) fn follow(&mut self, alloc: Global, index: usize) -> Result<Turn, AllocError>
        ensures step { OnOk result (state_of self.new ≡ followed index (said_of (content_of self.old.source)) (state_of self.old)) }
        ensures turn { IfOk result (λ turn. turn ≡ followed_turn index (said_of (content_of self.old.source)) (state_of self.old)) }
        ensures text { OnOk result (HasSameText self.old self.new) }
    {
        match self.name_within(index) {
            Some(name) => {
                self.go_to_name(alloc, name)?;
                Ok(Turn::Goes)
            }
            None => Ok(Turn::Ends(End::Follow(self.page.row_number(), index))),
        }
    }

    // Puts the row on top in which the section begins that has this name, if one has it.
    pub(crate) fn go_to_name(&mut self, alloc: Global, name: &str) -> Result<(), AllocError>
        ensures state { OnOk result (state_of self.new ≡ at_name (Some name.now) (said_of (content_of self.old.source)) (state_of self.old)) }
        ensures text { OnOk result (HasSameText self.old self.new) }
    {
        let row = self.target_row(alloc, name)?;
        self.go_to(row);
        Ok(())
    }

    // The name that the address of a link says, if it leads to a place in its own text.
    fn name_within(&self, index: usize) -> Option<&'s str>
        ensures { option_map (λ name. name.now) result ≡ name_within (address_of (said_of (content_of self.now.source)).links index) }
    {
        self.address_of(index).strip_prefix(WITHIN)
    }

    // The address of a link of this text; else none.
    fn address_of(&self, index: usize) -> &'s str
        ensures { result.now ≡ address_of (said_of (content_of self.now.source)).links index }
    {
        match self.paged() {
            PagedText::Markdown(markdown, _, _) => address_at(markdown.links(), index),
            PagedText::Lines(_) => "",
            PagedText::Plain(_) => "",
        }
    }

    // The row in which the section begins that has this name, if one has it.
    fn target_row(&self, alloc: Global, name: &str) -> Result<Option<usize>, AllocError>
        ensures { IfOk result (λ row. row ≡ target_row (said_of (content_of self.now.source)) name.now self.now.laid.starts.items) }
    {
        match self.paged() {
            PagedText::Markdown(markdown, _, source) => {
                let anchors = read_anchors(alloc, source)?;
                let headings = headings(alloc, markdown)?;
                let found = find_led(alloc, anchors.as_slice(), headings.as_slice(), name)?;
                Ok(row_of(found, self.laid.starts.as_slice()))
            }
            PagedText::Lines(_) => Ok(None),
            PagedText::Plain(_) => Ok(None),
        }
    }

    // Puts a row of the text on top, or its last one, if one is to be.
    fn go_to(&mut self, row: Option<usize>)
        ensures state { state_of self.new ≡ at_row_or row (state_of self.old) }
        ensures text { HasSameText self.old self.new }
    {
        match row {
            Some(row) => put_on_top(&mut self.page, row),
            None => {}
        }
    }
}

// Puts a row of a text on top, or its last one.
fn put_on_top(page: &mut Page, row: usize)
    ensures { page.new ≡ at_row page.old row }
{
    let number = row.saturating_add(1).min(page.height);
    page.begin_at(number);
}

// What a number says: to follow the link that has it, or to close the page, where none has it.
fn number_answer(link: Option<usize>) -> Answer
    ensures { result ≡ number_answer link }
{
    match link {
        Some(index) => Answer::Follows(index),
        None => Answer::Closes,
    }
}

// The address of the link of an index; else none.
fn address_at(links: &[Link], index: usize) -> &str
    ensures { result.now ≡ address_if (slice_get (map link_said links.now) index) }
{
    match links.get(index) {
        Some(link) => link.address.as_str(),
        None => "",
    }
}

// The section to which `#name` leads: as the name stands, or else without its escapes.
fn find_led(
    alloc: Global,
    anchors: &[Anchor],
    headings: &[Heading],
    name: &str,
) -> Result<Option<usize>, AllocError>
    ensures { IfOk result (λ found. found ≡ section_led (map anchor_said anchors.now) (map name_said headings.now) (map section_of headings.now) name.now) }
{
    match find_section(alloc, anchors, headings, name)? {
        Some(section) => Ok(Some(section)),
        None => find_unescaped(alloc, anchors, headings, name),
    }
}

// The section that has the name without its escapes.
fn find_unescaped(
    alloc: Global,
    anchors: &[Anchor],
    headings: &[Heading],
    name: &str,
) -> Result<Option<usize>, AllocError>
    ensures { IfOk result (λ found. found ≡ section_among (map anchor_said anchors.now) (map name_said headings.now) (map section_of headings.now) (unescaped name.now)) }
{
    let name = percent_decode_str(name).decode_utf8_lossy(alloc)?;
    find_section(alloc, anchors, headings, &name)
}

// The row in which a section begins, if there is one.
fn row_of(section: Option<usize>, starts: &[usize]) -> Option<usize>
    ensures { result ≡ option_map (slice_index starts.now) section }
{
    match section {
        Some(section) => Some(start_at(starts, section)),
        None => None,
    }
}
