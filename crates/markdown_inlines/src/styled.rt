//! A text, and how it looks.

ghost use Rattle.std.specs.Prelude.{◌≡◌, ◌++◌, [], ◌∷◌, IfOk, OnOk, map, replicate, reverse};
ghost use Rattle.markdown_inlines.specs.Parts.{shown_text};
ghost use Rattle.markdown_inlines.specs.Styled.{shown_with, goes_on, spelled_of, IsStyled};

use crate::looks::{Look, is_same_look};
use crate::plain::push_shown;
use std::alloc::{AllocError, Global};

/// A run of a text that looks the same. It ends where the next one begins, or with the text.
#[derive(Debug, Clone, Copy)]
pub struct TextRun {
    /// Where in the text it begins.
    pub start: usize,
    pub look: Look,
}

/// A text as runs that look different.
#[derive(Drop)]
pub struct Styled {
    pub text: String,
    pub runs: Vec<TextRun>,
}

impl Styled {
    /// No text.
    pub fn new(alloc: Global) -> Styled
        ensures nothing { spelled_of result ≡ [] }
        ensures styled { IsStyled result }
    {
        Styled {
            text: String::new(alloc),
            runs: Vec::new(alloc),
        }
    }

    /// No text, with room for so many bytes.
    ///
    /// # Errors
    ///
    /// Out of memory is the only error.
    pub fn with_capacity(alloc: Global, bytes: usize) -> Result<Styled, AllocError>
        ensures nothing { IfOk result (λ styled. spelled_of styled ≡ []) }
        ensures styled { IfOk result (λ styled. IsStyled styled) }
    {
        let text = String::with_capacity(alloc, bytes)?;
        Ok(Styled {
            text,
            runs: Vec::new(alloc),
        })
    }

    // Whether the last run looks like this.
    fn goes_on(&self, look: &Look) -> bool
        ensures { result ≡ goes_on look.now (reverse self.now.runs.items) }
    {
        let count = self.runs.len();
        if count == 0 {
            return false;
        }
        is_same_look(&self.runs[count - 1].look, look)
    }

    /// One more character, as it is.
    ///
    /// # Errors
    ///
    /// Out of memory is the only error.
    pub fn push(&mut self, c: char, look: &Look) -> Result<(), AllocError>
        requires { IsStyled self.old }
        ensures pushed { OnOk result (spelled_of self.new ≡ spelled_of self.old ++ shown_with look.now c ∷ []) }
        ensures styled { OnOk result (IsStyled self.new) }
    {
        if self.goes_on(look) {
            self.text.push(c)?;
            return Ok(());
        }
        self.runs.push(TextRun {
            start: self.text.len(),
            look: *look,
        })?;
        self.text.push(c)?;
        Ok(())
    }

    /// One more text, of which each character is made printable.
    ///
    /// # Errors
    ///
    /// Out of memory is the only error.
    pub fn push_text(&mut self, text: &str, look: &Look) -> Result<(), AllocError>
        requires { IsStyled self.old }
        ensures pushed { OnOk result (spelled_of self.new ≡ spelled_of self.old ++ map (shown_with look.now) (shown_text text.now)) }
        ensures styled { OnOk result (IsStyled self.new) }
    {
        if text.is_empty() {
            return Ok(());
        }
        if self.goes_on(look) {
            push_shown(&mut self.text, text)?;
            return Ok(());
        }
        self.runs.push(TextRun {
            start: self.text.len(),
            look: *look,
        })?;
        push_shown(&mut self.text, text)?;
        Ok(())
    }

    /// The same character, so many times.
    ///
    /// # Errors
    ///
    /// Out of memory is the only error.
    pub fn push_times(&mut self, c: char, times: usize, look: &Look) -> Result<(), AllocError>
        requires { IsStyled self.old }
        ensures pushed { OnOk result (spelled_of self.new ≡ spelled_of self.old ++ map (shown_with look.now) (replicate times c)) }
        ensures styled { OnOk result (IsStyled self.new) }
    {
        let mut left = times;
        while left > 0 {
            self.push(c, look)?;
            left -= 1;
        }
        Ok(())
    }
}
