//! What is typed to be sought.

ghost use Rattle.std.specs.Prelude.{◌≡◌, IfOk, OnOk, chars, string_bytes};
ghost use Rattle.mad_pager.specs.Sessions.{begun_recall, begun_search, char_key, char_typed, earlier, further_back, pasted, pasted_code, recalled, remembered, state_of, text_typed, typed, typed_text, wanted, HasSameText, IsSought, IsTypeStep};

use crate::places::field_row;
use crate::session::Session;
use mad_characters::char_columns;
use mad_field::InputField;
use mad_patterns::Sought;
use mad_term::{Event, KeyCode, KeyEvent, KeyModifiers};
use std::alloc::{AllocError, Global};

impl Session<'_> {
    // An empty field is there to type in what is to be sought, backwards or not.
    pub(crate) fn begin_search(&mut self, alloc: Global, backward: bool) -> Result<(), AllocError>
        ensures done { OnOk result (state_of self.new ≡ begun_search backward (state_of self.old)) }
        ensures text { OnOk result (HasSameText self.old self.new) }
    {
        let field = InputField::new(alloc, field_row(self.page.columns, self.page.rows))?;
        self.field = field;
        self.is_typing = true;
        self.types_back = backward;
        self.back = 0;
        Ok(())
    }

    // Does what a key says while something is being typed: Enter seeks it, Esc gives it up, Up and Down bring what was sought before. A character that takes
    // no column is dropped.
    pub(crate) fn type_key(&mut self, alloc: Global, key: KeyEvent) -> Result<(), AllocError>
        ensures step { OnOk result (IsTypeStep key.code key (state_of self.old) (state_of self.new)) }
        ensures text { OnOk result (HasSameText self.old self.new) }
    {
        match key.code {
            KeyCode::Enter => self.seek_typed(alloc),
            KeyCode::Esc => {
                self.is_typing = false;
                Ok(())
            }
            KeyCode::Up => {
                let back = self.further_back();
                self.recall(alloc, back)
            }
            KeyCode::Down => {
                let back = self.back.saturating_sub(1);
                self.recall(alloc, back)
            }
            KeyCode::Char(c) => self.type_char(c, key),
            _ => self.edit(key),
        }
    }

    // Does what the key of a character says in the field. One that takes no column is dropped.
    fn type_char(&mut self, c: char, key: KeyEvent) -> Result<(), AllocError>
        ensures done { OnOk result (state_of self.new ≡ char_typed c key (state_of self.old)) }
        ensures text { OnOk result (HasSameText self.old self.new) }
    {
        if char_columns(c) == 0 {
            return Ok(());
        }
        self.edit(key)
    }

    /// Does what an event of a pasted text says: a character is typed, while something is being typed. Nothing else does anything.
    ///
    /// # Errors
    ///
    /// Out of memory is the only error.
    pub fn paste(&mut self, event: Event) -> Result<(), AllocError>
        ensures done { OnOk result (state_of self.new ≡ pasted event (state_of self.old)) }
        ensures text { OnOk result (HasSameText self.old self.new) }
    {
        match event {
            Event::Key(key) if self.is_typing => self.paste_key(key),
            _ => Ok(()),
        }
    }

    // Types a character that is pasted. Other keys do nothing.
    fn paste_key(&mut self, key: KeyEvent) -> Result<(), AllocError>
        ensures done { OnOk result (state_of self.new ≡ pasted_code key.code key (state_of self.old)) }
        ensures text { OnOk result (HasSameText self.old self.new) }
    {
        match key.code {
            KeyCode::Char(c) => self.type_char(c, key),
            _ => Ok(()),
        }
    }

    // Reads and seeks what was typed, or, where nothing was, what was sought last.
    fn seek_typed(&mut self, alloc: Global) -> Result<(), AllocError>
        ensures step { OnOk result (IsSought (state_of self.old) (state_of self.new)) }
        ensures text { OnOk result (HasSameText self.old self.new) }
    {
        let backward = self.types_back;
        let sought = self.wanted(alloc)?;
        let reading = Sought::read(alloc, sought.as_str())?;
        self.remember(alloc, sought.as_str())?;
        self.sought = sought;
        self.reading = reading;
        self.is_backward = backward;
        self.found = None;
        self.is_typing = false;
        self.find(alloc, backward)?;
        Ok(())
    }

    // What is to be sought: what is typed, or, where nothing is, what was sought last.
    fn wanted(&self, alloc: Global) -> Result<String, AllocError>
        ensures { IfOk result (λ s. string_bytes s ≡ wanted (state_of self.now)) }
    {
        let typed = self.typed_text()?;
        if typed.is_empty() {
            return copy_of(alloc, self.earlier(1));
        }
        Ok(typed)
    }

    // The text that was sought so many searches ago, 1 for the last one: for 0, and where none was, no text.
    fn earlier(&self, back: usize) -> &str
        ensures { result.now ≡ earlier (state_of self.now).past back }
    {
        match self.past.get(self.past.len().saturating_sub(back)) {
            Some(text) => text.as_str(),
            None => "",
        }
    }

    // How many searches ago the text before the one in the field was sought; where none was before it, that one.
    fn further_back(&self) -> usize
        ensures { result ≡ further_back (state_of self.now) }
    {
        self.back.saturating_add(1).min(self.past.len())
    }

    // Keeps what is sought from now on. The same text twice in a row counts as one.
    fn remember(&mut self, alloc: Global, text: &str) -> Result<(), AllocError>
        ensures done { OnOk result (state_of self.new ≡ record (state_of self.old) { past = remembered text.now (state_of self.old).past }) }
        ensures text { OnOk result (HasSameText self.old self.new) }
    {
        if self.earlier(1) == text {
            return Ok(());
        }
        let copy = copy_of(alloc, text)?;
        self.past.push(copy)?;
        Ok(())
    }

    // Types the text of so many searches ago into an empty field.
    fn recall(&mut self, alloc: Global, back: usize) -> Result<(), AllocError>
        ensures done { OnOk result (state_of self.new ≡ recalled back (state_of self.old)) }
        ensures text { OnOk result (HasSameText self.old self.new) }
    {
        let text = copy_of(alloc, self.earlier(back))?;
        self.begin_recall(alloc, back)?;
        self.type_text(text.as_str())
    }

    // An empty field is there, for the text of so many searches ago.
    fn begin_recall(&mut self, alloc: Global, back: usize) -> Result<(), AllocError>
        ensures done { OnOk result (state_of self.new ≡ begun_recall back (state_of self.old)) }
        ensures text { OnOk result (HasSameText self.old self.new) }
    {
        let field = InputField::new(alloc, field_row(self.page.columns, self.page.rows))?;
        self.field = field;
        self.back = back;
        Ok(())
    }

    // Types characters, one after another.
    fn type_text(&mut self, text: &str) -> Result<(), AllocError>
        ensures done { OnOk result (state_of self.new ≡ text_typed (chars text.now) (state_of self.old)) }
        ensures text { OnOk result (HasSameText self.old self.new) }
    {
        for c in text.chars() {
            self.type_char(c, char_key(c))?;
        }
        Ok(())
    }

    // What is typed so far.
    pub(crate) fn typed_text(&self) -> Result<String, AllocError>
        ensures { IfOk result (λ s. string_bytes s ≡ typed_text (state_of self.now)) }
    {
        self.field.get_content()
    }

    // Does what a key says in the field: one with another modifier than Shift says nothing.
    fn edit(&mut self, key: KeyEvent) -> Result<(), AllocError>
        ensures done { OnOk result (state_of self.new ≡ record (state_of self.old) { field = typed key self.old.field }) }
        ensures text { OnOk result (HasSameText self.old self.new) }
    {
        if key.modifiers == KeyModifiers::NONE {
            self.field.apply_keycode_event(key.code, false)?;
            return Ok(());
        }
        if key.modifiers == KeyModifiers::SHIFT {
            self.field.apply_keycode_event(key.code, true)?;
            return Ok(());
        }
        Ok(())
    }
}

// The key of a character, without modifiers.
fn char_key(c: char) -> KeyEvent
    ensures { result ≡ char_key c }
{
    KeyEvent {
        code: KeyCode::Char(c),
        modifiers: KeyModifiers::NONE,
    }
}

// A copy of a text.
fn copy_of(alloc: Global, text: &str) -> Result<String, AllocError>
    ensures { IfOk result (λ s. string_bytes s ≡ text.now) }
{
    let mut copy = String::new(alloc);
    copy.push_str(text)?;
    Ok(copy)
}
