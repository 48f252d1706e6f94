//! How a line looks, and on which side it is.

ghost use Rattle.std.specs.Prelude.{◌≡◌, ◌∷◌, [], IsErrOf, encode_utf8};
ghost use Rattle.mad_term.specs.Draws.{Draws};
ghost use Rattle.mad_term.specs.declared.errors.Error.TheVariants.{Memory};
ghost use Rattle.mad_term.specs.Styles.{IsStyle};

use crate::compound_styles::CompoundStyle;
use mad_md::Alignment;
use mad_term::{Attribute, Color, Error, Out};
use std::alloc::Global;

/// The least width, in columns, in which a line is wrapped, and the least that margins leave.
pub const LEAST_WIDTH: usize = 3;

/// How the text of a line looks, on which side it is, and how many columns stay free on its left
/// and on its right.
#[derive(Clone, Copy, Debug, PartialEq)]
pub struct LineStyle {
    /// How its text looks.
    pub compound_style: CompoundStyle,
    /// On which side its text is.
    pub align: Alignment,
    /// The columns that stay free left of it.
    pub left_margin: usize,
    /// The columns that stay free right of it.
    pub right_margin: usize,
}

impl Default for LineStyle {
    ghost use Rattle.mad_style.specs.LineStyles.{unstyled_line};

    ghost is_default = { λ style. style ≡ unstyled_line };

    /// The style in which nothing is set.
    fn default() -> Self {
        Self::from(CompoundStyle::default())
    }
}

impl From<CompoundStyle> for LineStyle {
    ghost use Rattle.mad_md.specs.declared.alignment.Alignment.TheVariants.{Unspecified};
    ghost use Rattle.mad_style.specs.LineStyles.{unmargined};

    ghost from_gives = { λ compound_style style. style ≡ unmargined compound_style Unspecified };

    fn from(compound_style: CompoundStyle) -> Self {
        Self::new(compound_style, Alignment::Unspecified)
    }
}

impl LineStyle {
    ghost use Rattle.mad_style.specs.CompoundStyles.{attribute_added};
    ghost use Rattle.mad_style.specs.LineStyles.{line_in, line_on, unmargined, margins_at};
    ghost use Rattle.mad_style.specs.Repeats.{repeat_bytes};

    /// A style without margins.
    pub fn new(compound_style: CompoundStyle, align: Alignment) -> Self
        ensures { result ≡ unmargined compound_style align }
    {
        Self {
            compound_style,
            align,
            left_margin: 0,
            right_margin: 0,
        }
    }

    /// The left and the right margin of a line of `available_width` columns: none where they would leave less
    /// than [`LEAST_WIDTH`], and else both. Without a width there is room for both.
    pub fn margins_in(&self, available_width: Option<usize>) -> (usize, usize)
        ensures { result ≡ margins_at self.now available_width }
    {
        if let Some(width) = available_width {
            // Margins may be so large that their sum is no `usize`.
            let needed = self.left_margin as u128 + self.right_margin as u128 + LEAST_WIDTH as u128;
            if (width as u128) < needed {
                return (0, 0);
            }
        }
        (self.left_margin, self.right_margin)
    }

    /// Sets the foreground.
    pub fn set_fg(&mut self, color: Color)
        ensures { self.new ≡ line_in color self.old }
    {
        self.compound_style.set_fg(color);
    }

    /// Sets the background.
    pub fn set_bg(&mut self, color: Color)
        ensures { self.new ≡ line_on color self.old }
    {
        self.compound_style.set_bg(color);
    }

    /// Sets the foreground and the background.
    pub fn set_fgbg(&mut self, fg: Color, bg: Color)
        ensures { self.new ≡ line_on bg (line_in fg self.old) }
    {
        self.compound_style.set_fgbg(fg, bg);
    }

    /// Puts an attribute in.
    pub fn add_attr(&mut self, attr: Attribute)
        ensures { self.new ≡ record self.old { compound_style = attribute_added self.old.compound_style attr } }
    {
        self.compound_style.add_attr(attr);
    }

    /// Writes a text `count` times in this style, as one piece; nothing at all if `count` is 0.
    ///
    /// # Errors
    ///
    /// A fault of the device, or out of memory before anything went out.
    pub fn repeat_string<O: Out>(
        &self,
        alloc: Global,
        out: &mut O,
        text: &str,
        count: usize,
    ) -> Result<(), Error>
        ensures writes { Draws (O.seen out.old) (repeat_bytes self.now.compound_style text.now count) result (O.seen out.new) }
        ensures early { IsErrOf result Memory → O.seen out.new ≡ O.seen out.old }
        ensures bytes { IsStyle self.now.compound_style.object_style }
    {
        self.compound_style.repeat_string(alloc, out, text, count)
    }

    /// Writes a character `count` times in this style, as one piece; nothing at all if `count` is 0.
    ///
    /// # Errors
    ///
    /// A fault of the device, or out of memory before anything went out.
    pub fn repeat_char<O: Out>(
        &self,
        alloc: Global,
        out: &mut O,
        c: char,
        count: usize,
    ) -> Result<(), Error>
        ensures writes { Draws (O.seen out.old) (repeat_bytes self.now.compound_style (encode_utf8 c) count) result (O.seen out.new) }
        ensures early { IsErrOf result Memory → O.seen out.new ≡ O.seen out.old }
        ensures bytes { IsStyle self.now.compound_style.object_style }
    {
        self.compound_style.repeat_char(alloc, out, c, count)
    }

    /// Writes `count` spaces in this style, as one piece; nothing at all if `count` is 0.
    ///
    /// # Errors
    ///
    /// A fault of the device, or out of memory before anything went out.
    pub fn repeat_space<O: Out>(
        &self,
        alloc: Global,
        out: &mut O,
        count: usize,
    ) -> Result<(), Error>
        ensures writes { Draws (O.seen out.old) (repeat_bytes self.now.compound_style (32 ∷ []) count) result (O.seen out.new) }
        ensures early { IsErrOf result Memory → O.seen out.new ≡ O.seen out.old }
        ensures bytes { IsStyle self.now.compound_style.object_style }
    {
        self.compound_style.repeat_space(alloc, out, count)
    }
}
