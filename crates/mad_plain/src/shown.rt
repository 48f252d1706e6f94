//! What is shown of a line, whole and as far as it has been read.

ghost use Rattle.std.specs.Prelude.{◌≡◌, true, length, chars, string_bytes};
ghost use Rattle.std.specs.Cow.{cow_str_bytes};
ghost use Rattle.mad_plain.specs.Runs.{are_within};

use crate::pens::{Pen, plain_pen};
use crate::runs::StyleRun;
use std::alloc::{AllocError, Global};
use std::borrow::CowStr;

/// What a line shows: its characters, and the styles of their runs. Past the last run they are plain.
#[derive(Drop)]
pub struct PlainLine<'a> {
    pub text: CowStr<'a, Global>,
    pub runs: Vec<StyleRun>,
    ghost ordered: { are_within 0 runs.items (length (chars (cow_str_bytes text))) ≡ true },
}

/// Characters and their styles. The last run is open.
#[derive(Drop)]
pub(crate) struct ShownLine {
    pub(crate) text: String,
    pub(crate) runs: Vec<StyleRun>,
    pub(crate) style: Pen,
    pub(crate) count: usize,
    ghost counted: { count ≡ length (chars (string_bytes text)) },
    ghost ordered: { are_within 0 runs.items count ≡ true },
}

impl ShownLine {
    ghost use Rattle.std.specs.Prelude.{◌++◌, ◌∷◌, [], IfOk, OnOk};
    ghost use Rattle.std.specs.List.{repeat};
    ghost use Rattle.mad_plain.specs.Pens.{plain_pen};
    ghost use Rattle.mad_plain.specs.Runs.{styled};
    ghost use Rattle.std.specs.Cow.{IsOwnedStr};
    ghost use Rattle.mad_plain.specs.Shown.{shown_so_far, shown_of};

    /// Nothing yet.
    pub(crate) fn new(alloc: Global, capacity: usize) -> Result<ShownLine, AllocError>
        ensures { IfOk result (λ line. shown_so_far line ≡ []) }
    {
        Ok(ShownLine {
            text: String::with_capacity(alloc, capacity)?,
            runs: Vec::new(alloc),
            style: plain_pen(),
            count: 0,
        })
    }

    // Ends the open run, and begins one in this style.
    pub(crate) fn turn(&mut self, style: Pen) -> Result<(), AllocError>
        ensures same { OnOk result (shown_so_far self.new ≡ shown_so_far self.old) }
        ensures style { OnOk result (self.new.style ≡ style) }
    {
        if style == self.style {
            return Ok(());
        }
        if self.count == 0 {
            self.style = style;
            return Ok(());
        }
        self.runs.push(StyleRun {
            style: self.style,
            end: self.count,
        })?;
        self.style = style;
        Ok(())
    }

    // One more character in the style of the open run.
    fn push_char(&mut self, c: char) -> Result<(), AllocError>
        ensures { OnOk result (shown_so_far self.new ≡ shown_so_far self.old ++ styled self.old.style c ∷ []) }
    {
        self.text.push(c)?;
        self.count += 1;
        Ok(())
    }

    /// One more character.
    pub(crate) fn push(&mut self, style: Pen, c: char) -> Result<(), AllocError>
        ensures { OnOk result (shown_so_far self.new ≡ shown_so_far self.old ++ styled style c ∷ []) }
    {
        self.turn(style)?;
        self.push_char(c)
    }

    /// So many blanks.
    pub(crate) fn push_blanks(&mut self, style: Pen, count: usize) -> Result<(), AllocError>
        ensures { OnOk result (shown_so_far self.new ≡ shown_so_far self.old ++ repeat count (styled style 32 ∷ [])) }
    {
        let mut left = count;
        while left > 0 {
            self.push(style, ' ')?;
            left -= 1;
        }
        Ok(())
    }

    /// The line, whole.
    pub(crate) fn end(self) -> Result<PlainLine<'static>, AllocError>
        ensures owned { IfOk result (λ line. IsOwnedStr line.text) }
        ensures shown { IfOk result (λ line. shown_of line ≡ shown_so_far self) }
    {
        let mut line = self;
        line.turn(plain_pen())?;
        let ShownLine { text, runs, .. } = line;
        Ok(PlainLine {
            text: CowStr::Owned(text),
            runs,
        })
    }
}
