//! A pager: a text, and a page over it while one is open.

ghost use Rattle.std.specs.Prelude.{◌≡◌, IfOk, OnErr, OnOk, MatchResult, None, option_map};
ghost use Rattle.mad_pager.specs.Pagers.{begun, begun_at_name, leaf_of, opened_name, pasted_in, turn_in, turn_over, view_of, links_opened, IsDoneOver, IsLinksStart, IsOpened, IsOverSettled, IsOverStart, IsOverStep, IsPageStart, IsStep, IsTextStep, IsViewSettled, IsViewShown, IsViewUnshown};
ghost use Rattle.mad_page.specs.Pages.{row_number};
ghost use Rattle.mad_pager.specs.Sessions.{state_of, turn_below, turn_of};
ghost use Rattle.mad_outline.specs.Sources.{content_of, said_of, text_said};

use crate::following::top_of;
use crate::help::{HELP, HELP_NAME};
use crate::over::Answer;
use crate::session::{Overlay, Session, Turn};
use mad_outline::{CONTENTS_NAME, LINKS_NAME, NUMBERS_NAME, Source};
use mad_page::Files;
use mad_page_skin::PageSkin;
use mad_search::PagedText;
use mad_term::{Error, Event, Out};
use std::alloc::{AllocError, Global};

/// A text, and a page over it while one is open.
#[derive(Drop)]
pub struct Pager<'s> {
    /// The text.
    pub text: Session<'s>,
    /// The page over it, while one is open.
    pub over: Option<Session<'s>>,
}

impl<'s> Pager<'s> {
    /// A pager that shows the start of a text on a screen of this size, with these files beside that of the text.
    ///
    /// # Errors
    ///
    /// Out of memory is the only error.
    pub fn new(
        alloc: Global,
        name: &'s str,
        text: PagedText<'s>,
        skin: &'s PageSkin,
        columns: u16,
        rows: u16,
        files: Files,
    ) -> Result<Self, AllocError>
        ensures { IfOk result (λ p. IsOpened skin.now name.now (text_said text.entry) columns rows files (view_of p)) }
    {
        let source = Source::Text(text);
        let text = Session::new(alloc, name, source, skin, columns, rows, files)?;
        Ok(Pager { text, over: None })
    }

    /// Puts the row of this number on top of the text, counted from 1, or the text's last one; for 0 the first.
    pub fn begin_at(&mut self, number: usize)
        ensures { view_of self.new ≡ begun number (view_of self.old) }
    {
        self.text.page.begin_at(number);
    }

    /// Puts the row on top to which a link `#name` leads, where there is a name. One that leads nowhere changes nothing.
    ///
    /// # Errors
    ///
    /// Out of memory is the only error.
    pub fn begin_at_name(&mut self, alloc: Global, name: Option<&str>) -> Result<(), AllocError>
        ensures { OnOk result (view_of self.new ≡ begun_at_name (option_map (λ name. name.now) name.entry) (view_of self.old)) }
    {
        if let Some(name) = name {
            self.text.go_to_name(alloc, name)?;
        }
        Ok(())
    }

    /// Does what an event says: on the page over the text, while one is open, and else on the text.
    ///
    /// # Errors
    ///
    /// Out of memory is the only error. Then no page is open over the text.
    #[tactic(auto, using(crate::proofs::PagerSteps::step_over, crate::proofs::PagerSteps::step_below, crate::proofs::PagerSteps::turn_at_over, crate::proofs::PagerSteps::turn_at_text))]
    pub fn apply(&mut self, alloc: Global, event: Event) -> Result<Turn, AllocError>
        ensures step { OnOk result (IsStep event (view_of self.old) (view_of self.new)) }
        ensures turn { IfOk result (λ turn. turn ≡ turn_in event (view_of self.old)) }
        ensures err { OnErr result (self.new.over ≡ None) }
    {
        match self.over.take() {
            Some(over) => {
                let turn = self.apply_over(alloc, over, event)?;
                Ok(turn)
            }
            None => {
                let turn = self.apply_to_text(alloc, event)?;
                Ok(turn)
            }
        }
    }

    /// Does what an event of a pasted text says, on the page over the text, while one is open, and else on the text: see [`Session::paste`].
    ///
    /// # Errors
    ///
    /// Out of memory is the only error.
    pub fn paste(&mut self, event: Event) -> Result<(), AllocError>
        ensures { OnOk result (view_of self.new ≡ pasted_in event (view_of self.old)) }
    {
        match &mut self.over {
            Some(over) => {
                over.paste(event)?;
                Ok(())
            }
            None => {
                self.text.paste(event)?;
                Ok(())
            }
        }
    }

    /// Lays all out for the size that the terminal told last, if it told one. What was on top stays there. A header that is chosen on the
    /// page over the text comes on the screen.
    ///
    /// # Errors
    ///
    /// Out of memory is the only error.
    pub fn settle(&mut self, alloc: Global) -> Result<(), AllocError>
        ensures { OnOk result (IsViewSettled (view_of self.old) (view_of self.new)) }
    {
        self.text.settle(alloc)?;
        self.settle_over(alloc)?;
        Ok(())
    }

    /// Puts the whole screen in one put, as [`Session::show`] does: that of the page over the text, while one is open, and else that of the
    /// text.
    ///
    /// # Errors
    ///
    /// A fault of the device, or out of memory. Out of memory nothing went out.
    pub fn show<O: Out>(&self, alloc: Global, out: &mut O, asks: bool) -> Result<(), Error>
        ensures { MatchResult result (λ _. IsViewShown asks (view_of self.now) (O.seen out.old) (O.seen out.new))
            (λ e. IsViewUnshown asks (view_of self.now) (O.seen out.old) e (O.seen out.new)) }
    {
        match &self.over {
            Some(over) => over.show(alloc, out, asks),
            None => self.text.show(alloc, out, asks),
        }
    }

    // Does what an event says on the text, and opens a page over it where it asks for one.
    fn apply_to_text(&mut self, alloc: Global, event: Event) -> Result<Turn, AllocError>
        requires { self.now.over ≡ None }
        ensures step { OnOk result (IsTextStep event (leaf_of self.old.text) (view_of self.new)) }
        ensures turn { IfOk result (λ turn. turn ≡ turn_of event (state_of self.old.text)) }
        ensures err { OnErr result (self.new.over ≡ None) }
    {
        let turn = self.text.apply(alloc, event)?;
        match turn.opens() {
            Some(overlay) => {
                let over = self.page_over(alloc, overlay)?;
                self.over = Some(over);
                Ok(turn)
            }
            None => Ok(turn),
        }
    }

    // Lays the page over the text out for the size that was told, where one is open.
    fn settle_over(&mut self, alloc: Global) -> Result<(), AllocError>
        ensures over { OnOk result (IsOverSettled (option_map leaf_of self.old.over) (option_map leaf_of self.new.over)) }
        ensures text { OnOk result (leaf_of self.new.text ≡ leaf_of self.old.text) }
    {
        match &mut self.over {
            Some(over) => {
                over.settle(alloc)?;
                over.show_choice();
                Ok(())
            }
            None => Ok(()),
        }
    }

    // The start of a page over the text, on the screen that the text has.
    fn page_over(&self, alloc: Global, overlay: Overlay) -> Result<Session<'s>, AllocError>
        ensures { IfOk result (λ over. IsOverStart overlay (leaf_of self.now.text) (leaf_of over)) }
    {
        match overlay {
            Overlay::Help => {
                let source = Source::Text(PagedText::Lines(HELP));
                let over = self.page_of(alloc, HELP_NAME, source)?;
                Ok(over)
            }
            Overlay::Links => {
                let over = self.links_over(alloc)?;
                Ok(over)
            }
            Overlay::Contents => {
                let source = self.text.headers(alloc)?;
                let over = self.page_of(alloc, CONTENTS_NAME, source)?;
                Ok(over)
            }
        }
    }

    // The start of the page that the key for links opens: a text with numbers stays where it is.
    fn links_over(&self, alloc: Global) -> Result<Session<'s>, AllocError>
        ensures { IfOk result (λ over. IsLinksStart (links_opened (said_of (content_of self.now.text.source)) (state_of self.now.text)) (leaf_of self.now.text) (leaf_of over)) }
    {
        let source = self.text.links_opened();
        let mut over = self.page_of(alloc, opened_name(source), source)?;
        over.page.top = top_of(source, self.text.page.top);
        Ok(over)
    }

    // The start of a page that shows this, on the screen that the text has.
    fn page_of(
        &self,
        alloc: Global,
        name: &'s str,
        source: Source<'s>,
    ) -> Result<Session<'s>, AllocError>
        ensures { IfOk result (λ over. IsPageStart name.now (content_of source.entry) (leaf_of self.now.text) (leaf_of over)) }
    {
        let page = self.text.page;
        let skin = self.text.skin;
        let mut over = Session::new(
            alloc,
            name,
            source,
            skin,
            page.columns,
            page.rows,
            page.files,
        )?;
        over.told = self.text.told;
        Ok(over)
    }

    // Does what an event says while this page was open over the text.
    #[tactic(auto, using(crate::proofs::PagerSteps::answered, crate::proofs::PagerSteps::turn_so))]
    fn apply_over(
        &mut self,
        alloc: Global,
        over: Session<'s>,
        event: Event,
    ) -> Result<Turn, AllocError>
        requires { self.now.over ≡ None }
        ensures step { OnOk result (IsOverStep event (leaf_of over.entry) (leaf_of self.old.text) (view_of self.new)) }
        ensures turn { IfOk result (λ turn. turn ≡ turn_over event (leaf_of over.entry) (leaf_of self.old.text)) }
        ensures err { OnErr result (self.new.over ≡ None) }
    {
        match over.over_answer(event) {
            Answer::Closes => Ok(Turn::Goes),
            Answer::Takes => {
                self.text.take_choice(alloc, over.source)?;
                Ok(Turn::Goes)
            }
            Answer::Chooses(key) => {
                let mut over = over;
                over.choose(alloc, key)?;
                self.over = Some(over);
                Ok(Turn::Goes)
            }
            Answer::Lists => {
                let source = over.links();
                let listed = self.page_of(alloc, LINKS_NAME, source)?;
                self.over = Some(listed);
                Ok(Turn::Goes)
            }
            Answer::Follows(index) => {
                let turn = self.text.follow(alloc, index)?;
                Ok(turn)
            }
            Answer::Passes => {
                let turn = self.pass_over(alloc, over, event)?;
                Ok(turn)
            }
        }
    }

    // Does what an event says on this page, as on any text. The text below hears a size too.
    fn pass_over(
        &mut self,
        alloc: Global,
        over: Session<'s>,
        event: Event,
    ) -> Result<Turn, AllocError>
        requires { self.now.over ≡ None }
        ensures step { OnOk result (IsDoneOver event (leaf_of over.entry) (leaf_of self.old.text) (view_of self.new)) }
        ensures turn { IfOk result (λ turn. turn ≡ turn_below (row_number self.old.text.page) (turn_of event (state_of over.entry))) }
        ensures err { OnErr result (self.new.over ≡ None) }
    {
        let mut over = over;
        let row = self.text.page.row_number();
        self.text.hear(event);
        let turn = over.apply(alloc, event)?;
        self.over = Some(over);
        Ok(turn.below(row))
    }
}

// The name of what the key for links opens.
fn opened_name(source: Source<'_>) -> &'static str
    ensures { result.now ≡ opened_name (content_of source.entry) }
{
    match source {
        Source::Numbered(_) => NUMBERS_NAME,
        _ => LINKS_NAME,
    }
}
