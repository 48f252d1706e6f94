//! A character in a style.

ghost use Rattle.std.specs.Prelude.{◌≡◌, IfOk, IsErrOf, encode_utf8, string_bytes};
ghost use Rattle.std.specs.List.{repeat};
ghost use Rattle.mad_term.specs.Draws.{Draws};
ghost use Rattle.mad_term.specs.declared.errors.Error.TheVariants.{Memory};
ghost use Rattle.mad_term.specs.Styles.{IsStyle};

use crate::compound_styles::CompoundStyle;
use crate::styled_texts::StyledText;
use mad_term::{Color, Error, Out};
use std::alloc::{AllocError, Global};
use std::fmt;

/// A character in a style: a bullet, a prefix of quotes, a rule, a side of a scroll bar.
#[derive(Clone, Copy, Debug, PartialEq)]
pub struct StyledChar {
    compound_style: CompoundStyle,
    nude_char: char,
}

impl StyledChar {
    ghost use Rattle.mad_style.specs.CompoundStyles.{unstyled};
    ghost use Rattle.mad_style.specs.Repeats.{repeat_style, styled_char_bytes, char_repeat_bytes};
    ghost use Rattle.mad_style.specs.StyledChars.{char_in, char_on, char_style, char_alone, shown_as, styled_char, colored_char};

    /// A character in a style.
    pub fn new(compound_style: CompoundStyle, nude_char: char) -> StyledChar
        ensures { result ≡ styled_char compound_style nude_char }
    {
        Self {
            compound_style,
            nude_char,
        }
    }

    /// A character in no style.
    pub fn nude(nude_char: char) -> StyledChar
        ensures { result ≡ styled_char unstyled nude_char }
    {
        Self::new(CompoundStyle::default(), nude_char)
    }

    /// A character in a foreground.
    pub fn from_fg_char(fg: Color, nude_char: char) -> StyledChar
        ensures { result ≡ colored_char fg nude_char }
    {
        Self::new(CompoundStyle::with_fg(fg), nude_char)
    }

    /// The character alone.
    pub fn nude_char(&self) -> char
        ensures { result ≡ char_alone self.now }
    {
        self.nude_char
    }

    /// The character alone.
    pub const fn get_char(&self) -> char
        ensures { result ≡ char_alone self.now }
    {
        self.nude_char
    }

    /// Puts another character in the place of this one; its style stays.
    pub fn set_char(&mut self, nude_char: char)
        ensures { self.new ≡ shown_as self.old nude_char }
    {
        self.nude_char = nude_char;
    }

    /// The foreground, if it is set.
    pub const fn get_fg(&self) -> Option<Color>
        ensures { result ≡ (char_style self.now).object_style.foreground_color }
    {
        self.compound_style.get_fg()
    }

    /// Sets the foreground.
    pub fn set_fg(&mut self, color: Color)
        ensures { self.new ≡ char_in color self.old }
    {
        self.compound_style.set_fg(color);
    }

    /// The background, if it is set.
    pub const fn get_bg(&self) -> Option<Color>
        ensures { result ≡ (char_style self.now).object_style.background_color }
    {
        self.compound_style.get_bg()
    }

    /// Sets the background.
    pub fn set_bg(&mut self, color: Color)
        ensures { self.new ≡ char_on color self.old }
    {
        self.compound_style.set_bg(color);
    }

    /// The style of the character.
    pub fn compound_style(&self) -> &CompoundStyle
        ensures { result.now ≡ char_style self.now }
    {
        &self.compound_style
    }

    /// Puts another style in the place of this one; the character stays.
    pub fn set_compound_style(&mut self, compound_style: CompoundStyle)
        ensures { self.new ≡ styled_char compound_style (char_alone self.old) }
    {
        self.compound_style = compound_style;
    }

    /// The character `count` times in its style; at 0 an empty text without style.
    ///
    /// # Errors
    ///
    /// Out of memory.
    pub fn repeated(&self, alloc: Global, count: usize) -> Result<StyledText, AllocError>
        ensures style { IfOk result (λ text. text.style ≡ repeat_style (char_style self.now) count) }
        ensures content { IfOk result (λ text. string_bytes text.content ≡ repeat count (encode_utf8 (char_alone self.now))) }
    {
        let style = if count == 0 {
            CompoundStyle::default().object_style
        } else {
            self.compound_style.object_style
        };
        let mut buffer = [0; 4];
        let content = self
            .nude_char
            .encode_utf8(&mut buffer)
            .repeat(alloc, count)?;
        Ok(StyledText { style, content })
    }

    /// Writes the character `count` times in its style, as one piece; nothing at all if `count` is 0.
    ///
    /// # Errors
    ///
    /// A fault of the device, or out of memory before anything went out.
    pub fn queue_repeat<O: Out>(
        &self,
        alloc: Global,
        out: &mut O,
        count: usize,
    ) -> Result<(), Error>
        ensures writes { Draws (O.seen out.old) (char_repeat_bytes self.now count) result (O.seen out.new) }
        ensures early { IsErrOf result Memory → O.seen out.new ≡ O.seen out.old }
        ensures bytes { IsStyle (char_style self.now).object_style }
    {
        self.compound_style
            .repeat_char(alloc, out, self.nude_char, count)
    }

    /// Writes the character in its style, as one piece.
    ///
    /// # Errors
    ///
    /// A fault of the device, or out of memory before anything went out.
    pub fn queue<O: Out>(&self, alloc: Global, out: &mut O) -> Result<(), Error>
        ensures writes { Draws (O.seen out.old) (styled_char_bytes self.now) result (O.seen out.new) }
        ensures early { IsErrOf result Memory → O.seen out.new ≡ O.seen out.old }
        ensures bytes { IsStyle (char_style self.now).object_style }
    {
        let mut buffer = [0; 4];
        self.compound_style
            .queue(alloc, out, self.nude_char.encode_utf8(&mut buffer))
    }
}

impl fmt::Display for StyledChar {
    ghost use Rattle.std.specs.Prelude.{Some};
    ghost use Rattle.mad_style.specs.Repeats.{styled_char_bytes};

    ghost output = { λ c. Some (styled_char_bytes c) };

    /// Writes the character in its style, as one piece.
    fn fmt<W: fmt::Write>(&self, f: &mut fmt::Formatter<W>) -> fmt::Result {
        let mut buffer = [0; 4];
        let piece = self
            .compound_style
            .apply_to(self.nude_char.encode_utf8(&mut buffer));
        write!(f, "{piece}")
    }
}
