//! The writing of texts in a compound's style, to a device. What goes out is made whole first, and then put.

ghost use Rattle.std.specs.Prelude.{◌≡◌, ◌∷◌, [], ◌++◌, IsErrOf, encode_utf8};
ghost use Rattle.mad_term.specs.Commands.{clear_bytes};
ghost use Rattle.mad_term.specs.Draws.{Draws};
ghost use Rattle.mad_term.specs.declared.errors.Error.TheVariants.{Memory};
ghost use Rattle.mad_term.specs.Styles.{foreground_bytes, background_bytes, present_bytes, piece_bytes, IsStyle};

use crate::compound_styles::CompoundStyle;
use crate::styled_chars::StyledChar;
use mad_term::{
    ClearType, Error, Out, StyledContent, push_background, push_clear, put_text, queue_repeated,
    queue_styled,
};
use std::alloc::Global;

impl CompoundStyle {
    ghost use Rattle.mad_style.specs.Repeats.{repeat_bytes};
    ghost use Rattle.mad_style.specs.StyledChars.{styled_char};

    /// A text in this style, as a piece.
    pub fn apply_to<'t>(&self, text: &'t str) -> StyledContent<'t>
        ensures style { result.style ≡ self.now.object_style }
        ensures content { result.content.now ≡ text.now }
    {
        StyledContent {
            style: self.object_style,
            content: text,
        }
    }

    /// A character in this style.
    pub fn style_char(self, nude_char: char) -> StyledChar
        ensures { result ≡ styled_char self nude_char }
    {
        StyledChar::new(self, nude_char)
    }

    /// Writes a text in this style, as one piece. An empty text writes the style's commands too.
    ///
    /// # Errors
    ///
    /// A fault of the device, or out of memory before anything went out.
    pub fn queue<O: Out>(&self, alloc: Global, out: &mut O, text: &str) -> Result<(), Error>
        ensures writes { Draws (O.seen out.old) (piece_bytes self.now.object_style text.now) result (O.seen out.new) }
        ensures early { IsErrOf result Memory → O.seen out.new ≡ O.seen out.old }
        ensures bytes { IsStyle self.now.object_style }
    {
        queue_styled(alloc, out, self.object_style, text)
    }

    /// Writes a text in this style, as [`CompoundStyle::queue`] does.
    ///
    /// # Errors
    ///
    /// A fault of the device, or out of memory before anything went out.
    pub fn queue_str<O: Out>(&self, alloc: Global, out: &mut O, text: &str) -> Result<(), Error>
        ensures writes { Draws (O.seen out.old) (piece_bytes self.now.object_style text.now) result (O.seen out.new) }
        ensures early { IsErrOf result Memory → O.seen out.new ≡ O.seen out.old }
        ensures bytes { IsStyle self.now.object_style }
    {
        self.queue(alloc, out, text)
    }

    /// Writes the command of the foreground, if it is set. Nothing is reset: what is written next has it too.
    ///
    /// # Errors
    ///
    /// A fault of the device, or out of memory before anything went out.
    #[tactic(auto, using(mad_term::proofs::Traces::took_none))]
    pub fn queue_fg<O: Out>(&self, alloc: Global, out: &mut O) -> Result<(), Error>
        ensures writes { Draws (O.seen out.old) (present_bytes foreground_bytes self.now.object_style.foreground_color) result (O.seen out.new) }
        ensures early { IsErrOf result Memory → O.seen out.new ≡ O.seen out.old }
    {
        match self.get_fg() {
            Some(color) => mad_term::queue_fg(alloc, out, color),
            None => Ok(()),
        }
    }

    /// Writes the command of the background, if it is set. Nothing is reset: what is written next has it too.
    ///
    /// # Errors
    ///
    /// A fault of the device, or out of memory before anything went out.
    #[tactic(auto, using(mad_term::proofs::Traces::took_none))]
    pub fn queue_bg<O: Out>(&self, alloc: Global, out: &mut O) -> Result<(), Error>
        ensures writes { Draws (O.seen out.old) (present_bytes background_bytes self.now.object_style.background_color) result (O.seen out.new) }
        ensures early { IsErrOf result Memory → O.seen out.new ≡ O.seen out.old }
    {
        match self.get_bg() {
            Some(color) => mad_term::queue_bg(alloc, out, color),
            None => Ok(()),
        }
    }

    /// Erases a part of the screen, which gets the background, if it is set. Nothing is reset.
    ///
    /// # Errors
    ///
    /// A fault of the device, or out of memory before anything went out.
    #[tactic(auto, using(mad_term::proofs::QueueExits::memory_first))]
    pub fn clear<O: Out>(
        &self,
        alloc: Global,
        out: &mut O,
        clear_type: ClearType,
    ) -> Result<(), Error>
        ensures writes { Draws (O.seen out.old) (present_bytes background_bytes self.now.object_style.background_color ++ clear_bytes clear_type) result (O.seen out.new) }
        ensures early { IsErrOf result Memory → O.seen out.new ≡ O.seen out.old }
    {
        let mut bytes = String::new(alloc);
        if let Some(color) = self.get_bg() {
            push_background(&mut bytes, color)?;
        }
        push_clear(&mut bytes, clear_type)?;
        put_text(out, &bytes)
    }

    /// Writes a text `count` times in this style, as one piece; nothing at all if `count` is 0.
    ///
    /// # Errors
    ///
    /// A fault of the device, or out of memory before anything went out.
    pub fn repeat_string<O: Out>(
        &self,
        alloc: Global,
        out: &mut O,
        text: &str,
        count: usize,
    ) -> Result<(), Error>
        ensures writes { Draws (O.seen out.old) (repeat_bytes self.now text.now count) result (O.seen out.new) }
        ensures early { IsErrOf result Memory → O.seen out.new ≡ O.seen out.old }
        ensures bytes { IsStyle self.now.object_style }
    {
        queue_repeated(alloc, out, self.object_style, text, count)
    }

    /// Writes a character `count` times in this style, as one piece; nothing at all if `count` is 0.
    ///
    /// # Errors
    ///
    /// A fault of the device, or out of memory before anything went out.
    pub fn repeat_char<O: Out>(
        &self,
        alloc: Global,
        out: &mut O,
        c: char,
        count: usize,
    ) -> Result<(), Error>
        ensures writes { Draws (O.seen out.old) (repeat_bytes self.now (encode_utf8 c) count) result (O.seen out.new) }
        ensures early { IsErrOf result Memory → O.seen out.new ≡ O.seen out.old }
        ensures bytes { IsStyle self.now.object_style }
    {
        let mut buffer = [0; 4];
        self.repeat_string(alloc, out, c.encode_utf8(&mut buffer), count)
    }

    /// Writes `count` spaces in this style, as one piece; nothing at all if `count` is 0.
    ///
    /// # Errors
    ///
    /// A fault of the device, or out of memory before anything went out.
    pub fn repeat_space<O: Out>(
        &self,
        alloc: Global,
        out: &mut O,
        count: usize,
    ) -> Result<(), Error>
        ensures writes { Draws (O.seen out.old) (repeat_bytes self.now (32 ∷ []) count) result (O.seen out.new) }
        ensures early { IsErrOf result Memory → O.seen out.new ≡ O.seen out.old }
        ensures bytes { IsStyle self.now.object_style }
    {
        self.repeat_string(alloc, out, " ", count)
    }
}
