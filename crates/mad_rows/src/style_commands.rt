//! The commands of a style, which are made once for all its texts.

ghost use Rattle.std.specs.Prelude.{◌≡◌, ◌++◌, OnOk, string_bytes};
ghost use Rattle.mad_term.specs.Styles.{IsUnstyled, piece_bytes};

use mad_term::{ContentStyle, StyleOpening, closing_text};
use std::alloc::{AllocError, Global};
use std::marker::Model;

/// The commands of the style that was written last.
#[derive(Drop)]
pub struct StyleCommands {
    style: ContentStyle,
    opening: String,
}

impl Model for StyleCommands {
    ghost use Rattle.std.specs.Prelude.{◌≡◌, string_bytes};
    ghost use Rattle.mad_term.specs.Styles.{opening_bytes};
    ghost use Rattle.mad_term.specs.declared.styles.ContentStyle.{ContentStyle};

    ghost Value = { ContentStyle };

    ghost view = { λ c. c.style };

    ghost invariant = { λ c. string_bytes c.opening ≡ opening_bytes c.style };
}

impl StyleCommands {
    /// Those of a style that sets nothing.
    pub fn new(alloc: Global) -> Self
        ensures { IsUnstyled result }
    {
        StyleCommands {
            style: ContentStyle::default(),
            opening: String::new(alloc),
        }
    }

    /// Puts a text in a style after the rows that are there.
    ///
    /// # Errors
    ///
    /// Out of memory. What the rows then end with is open.
    pub(crate) fn append(
        &mut self,
        rows: &mut String,
        style: ContentStyle,
        text: &str,
    ) -> Result<(), AllocError>
        ensures { OnOk result (string_bytes rows.new ≡ string_bytes rows.old ++ piece_bytes style text.now) }
    {
        self.know(style)?;
        append_three(rows, &self.opening, text, closing_text(style))
    }

    // Makes the commands of a style, where they aren't there.
    fn know(&mut self, style: ContentStyle) -> Result<(), AllocError>
        ensures { OnOk result (self.new ≡ style) }
    {
        if self.style == style {
            return Ok(());
        }
        let mut opening = String::new(*self.opening.allocator());
        let commands = StyleOpening(style);
        write!(opening, "{commands}")?;
        self.opening = opening;
        self.style = style;
        Ok(())
    }
}

/// Puts a text between commands after the rows that are there.
///
/// # Errors
///
/// Out of memory.
pub fn append_three(
    rows: &mut String,
    opening: &str,
    text: &str,
    closing: &str,
) -> Result<(), AllocError>
    ensures { OnOk result (string_bytes rows.new ≡ string_bytes rows.old ++ (opening.now ++ (text.now ++ closing.now))) }
{
    rows.push_str(opening)?;
    rows.push_str(text)?;
    rows.push_str(closing)
}
