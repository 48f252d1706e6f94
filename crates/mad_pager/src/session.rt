//! A session: a text on a screen, what is sought in it, and what an event does.

ghost use Rattle.std.specs.Prelude.{◌≡◌, IfOk, OnOk};
ghost use Rattle.mad_page.specs.PageKeys.{after_key};
ghost use Rattle.mad_outline.specs.Sources.{source_page};
ghost use Rattle.mad_pager.specs.Sessions.{asks_size, end_of, opens, state_of, turn_below, turn_of, turn_of_key, turn_asked, turn_typed, HasSameText, IsAsked, IsAnyKeyStep, IsKeyStep, IsEventStep, IsStart};

use crate::places::field_row;
use crate::sizes::{ScreenSize, height_of, lay};
use mad_field::InputField;
use mad_outline::Source;
use mad_page::{Ask, Files, Page, is_break};
use mad_page_skin::PageSkin;
use mad_pages::PagedPage;
use mad_patterns::Sought;
use mad_term::{Event, KeyEvent};
use std::alloc::{AllocError, Global};

/// A page over a text.
#[derive(Clone, Copy, Debug, PartialEq, Eq)]
pub enum Overlay {
    /// What keys do.
    Help,
    /// The text with numbers at the links on the screen.
    Links,
    /// The headers of the text, to choose one.
    Contents,
}

/// How a session ends.
#[derive(Clone, Copy, Debug, PartialEq, Eq)]
pub enum End {
    /// Nothing more is to be shown.
    Quits,
    /// The next file is to be shown, and this one, where it is shown again, from the row of this number on.
    NextFile(usize),
    /// The file before is to be shown, and this one, where it is shown again, from the row of this number on.
    PreviousFile(usize),
    /// The file is to be read again, and shown from the row of this number on.
    Reload(usize),
    /// An editor of the file is to be opened where this row is, and the text then shown again.
    Edit(usize),
    /// What a link leads to is to be shown, and the text then from the row of this number on. The link is that of this index among the text's.
    Follow(usize, usize),
}

/// How a session goes on after an event.
#[derive(Clone, Copy, Debug, PartialEq, Eq)]
pub enum Turn {
    /// It goes on.
    Goes,
    /// It goes on, and the terminal is to be asked for its size.
    AsksSize,
    /// It goes on, and a page is to be opened over the text.
    Opens(Overlay),
    /// It ends.
    Ends(End),
}

impl Turn {
    /// How it ends, if it does.
    pub fn end(self) -> Option<End>
        ensures { result ≡ end_of self }
    {
        match self {
            Turn::Ends(end) => Some(end),
            _ => None,
        }
    }

    /// Whether the terminal is to be asked for its size.
    pub fn asks_size(self) -> bool
        ensures { result ≡ asks_size self }
    {
        matches!(self, Turn::AsksSize)
    }

    /// The same of a page over a text that has this row on top: where another file is to be shown, it is from that row on that the text is shown again.
    pub(crate) fn below(self, row: usize) -> Turn
        ensures { result ≡ turn_below row self }
    {
        match self {
            Turn::Ends(End::NextFile(_)) => Turn::Ends(End::NextFile(row)),
            Turn::Ends(End::PreviousFile(_)) => Turn::Ends(End::PreviousFile(row)),
            turn => turn,
        }
    }

    /// The page that is to be opened over the text, if one is.
    pub fn opens(self) -> Option<Overlay>
        ensures { result ≡ opens self }
    {
        match self {
            Turn::Opens(overlay) => Some(overlay),
            _ => None,
        }
    }
}

/// A text on a screen, or a page over one, and what is sought in it.
#[derive(Drop)]
pub struct Session<'s> {
    /// The name of the text.
    pub name: &'s str,
    /// What is shown, before it is laid out.
    pub source: Source<'s>,
    /// The skin that it is shown in. Words stay whole where those of its text do.
    pub skin: &'s PageSkin,
    /// What is shown, laid out for the screen in its skin.
    pub laid: PagedPage<'s>,
    /// Which of its rows is on top.
    pub page: Page,
    /// What is being typed, or was typed last.
    pub field: InputField,
    /// Whether it is being typed.
    pub is_typing: bool,
    /// Whether it is to be sought backwards.
    pub types_back: bool,
    /// What is sought; nothing, where it is empty.
    pub sought: String,
    /// What that is read as.
    pub reading: Sought,
    /// Whether it is sought backwards.
    pub is_backward: bool,
    /// What was sought so far, also where it was forgotten. The last search is the last of it.
    pub past: Vec<String>,
    /// How many searches ago the text was sought that Up and Down brought into the field; 0 for none.
    pub back: usize,
    /// The row that the last search found. None, where it found none, or the text was laid out anew.
    pub found: Option<usize>,
    /// Whether the last search found no row.
    pub is_missing: bool,
    /// The size of the screen that the terminal told, until the text is laid out for it.
    pub told: Option<ScreenSize>,
}

impl<'s> Session<'s> {
    /// A session that shows the start of a text on a screen of this size, with these files beside that of the text.
    ///
    /// # Errors
    ///
    /// Out of memory is the only error.
    pub fn new(
        alloc: Global,
        name: &'s str,
        source: Source<'s>,
        skin: &'s PageSkin,
        columns: u16,
        rows: u16,
        files: Files,
    ) -> Result<Self, AllocError>
        ensures name { IfOk result (λ s. s.name ≡ name.entry) }
        ensures source { IfOk result (λ s. s.source ≡ source.entry) }
        ensures skin { IfOk result (λ s. s.skin.now ≡ skin.now) }
        ensures start { IfOk result (λ s. IsStart skin.now (source_page source.entry) columns rows files (state_of s)) }
    {
        let laid = lay(alloc, skin, source, columns)?;
        let page = Page {
            columns,
            rows,
            height: height_of(&laid),
            top: 0,
            count: 0,
            holds_bar: false,
            has_colon: false,
            tells: false,
            files,
        };
        let field = InputField::new(alloc, field_row(columns, rows))?;
        Ok(Session {
            name,
            source,
            skin,
            laid,
            page,
            field,
            is_typing: false,
            types_back: false,
            sought: String::new(alloc),
            reading: Sought::Nothing,
            is_backward: false,
            past: Vec::new(alloc),
            back: 0,
            found: None,
            is_missing: false,
            told: None,
        })
    }

    /// Does what an event says.
    ///
    /// # Errors
    ///
    /// Out of memory is the only error.
    pub fn apply(&mut self, alloc: Global, event: Event) -> Result<Turn, AllocError>
        ensures step { OnOk result (IsEventStep self.old.skin.now (source_page self.old.source) event (state_of self.old) (state_of self.new)) }
        ensures turn { IfOk result (λ turn. turn ≡ turn_of event (state_of self.old)) }
        ensures text { OnOk result (HasSameText self.old self.new) }
    {
        match event {
            Event::Key(key) => self.apply_key(alloc, key),
            Event::Mouse(mouse) => {
                self.page.apply_mouse(mouse);
                Ok(Turn::Goes)
            }
            Event::Resize(columns, rows) => {
                self.hear_size(columns, rows);
                Ok(Turn::Goes)
            }
            Event::FocusGained | Event::FocusLost => Ok(Turn::Goes),
        }
    }

    // Does what a key says.
    fn apply_key(&mut self, alloc: Global, key: KeyEvent) -> Result<Turn, AllocError>
        ensures step { OnOk result (IsAnyKeyStep key (state_of self.old) (state_of self.new)) }
        ensures turn { IfOk result (λ turn. turn ≡ turn_of_key key (state_of self.old)) }
        ensures text { OnOk result (HasSameText self.old self.new) }
    {
        let is_typing = self.is_typing;
        if is_typing {
            self.type_key(alloc, key)?;
            return Ok(turn_typed(key));
        }
        let turn = self.apply_page_key(alloc, key)?;
        Ok(turn)
    }

    // Does what a key says while nothing is being typed.
    fn apply_page_key(&mut self, alloc: Global, key: KeyEvent) -> Result<Turn, AllocError>
        ensures step { OnOk result (IsKeyStep key (state_of self.old) (state_of self.new)) }
        ensures turn { IfOk result (λ turn. turn ≡ turn_asked (after_key key self.old.page).page (after_key key self.old.page).ask) }
        ensures text { OnOk result (HasSameText self.old self.new) }
    {
        let ask = self.page.apply_key(key);
        let turn = self.do_asked(alloc, ask)?;
        Ok(turn)
    }

    // Does what is asked for.
    fn do_asked(&mut self, alloc: Global, ask: Ask) -> Result<Turn, AllocError>
        ensures step { OnOk result (IsAsked ask (state_of self.old) (state_of self.new)) }
        ensures turn { IfOk result (λ turn. turn ≡ turn_asked self.old.page ask) }
        ensures text { OnOk result (HasSameText self.old self.new) }
    {
        let turn = turn_asked(&self.page, ask);
        self.answer(alloc, ask)?;
        Ok(turn)
    }

    // Does what is asked for in the session itself.
    fn answer(&mut self, alloc: Global, ask: Ask) -> Result<(), AllocError>
        ensures step { OnOk result (IsAsked ask (state_of self.old) (state_of self.new)) }
        ensures text { OnOk result (HasSameText self.old self.new) }
    {
        match ask {
            Ask::Search => self.begin_search(alloc, false),
            Ask::SearchBack => self.begin_search(alloc, true),
            Ask::Next => self.find(alloc, self.is_backward),
            Ask::Previous => self.find(alloc, !self.is_backward),
            Ask::NextHeader => {
                self.go_to_next_header();
                Ok(())
            }
            Ask::PreviousHeader => {
                self.go_to_previous_header();
                Ok(())
            }
            Ask::Forget => {
                self.forget();
                Ok(())
            }
            Ask::Size | Ask::Quit | Ask::NextFile | Ask::PreviousFile => Ok(()),
            Ask::Reload | Ask::Edit => Ok(()),
            Ask::Help | Ask::Links | Ask::Contents | Ask::Nothing => Ok(()),
        }
    }
}

// How a session goes on after what is asked for on this page.
fn turn_asked(page: &Page, ask: Ask) -> Turn
    ensures { result ≡ turn_asked page.now ask }
{
    match ask {
        Ask::Size => Turn::AsksSize,
        Ask::Quit => Turn::Ends(End::Quits),
        Ask::NextFile => Turn::Ends(End::NextFile(page.row_number())),
        Ask::PreviousFile => Turn::Ends(End::PreviousFile(page.row_number())),
        Ask::Reload => Turn::Ends(End::Reload(page.row_number())),
        Ask::Edit => Turn::Ends(End::Edit(page.row_number())),
        Ask::Help => Turn::Opens(Overlay::Help),
        Ask::Links => Turn::Opens(Overlay::Links),
        Ask::Contents => Turn::Opens(Overlay::Contents),
        _ => Turn::Goes,
    }
}

// How it goes on after a key while something is being typed.
fn turn_typed(key: KeyEvent) -> Turn
    ensures { result ≡ turn_typed key }
{
    if is_break(key) {
        Turn::Ends(End::Quits)
    } else {
        Turn::Goes
    }
}
