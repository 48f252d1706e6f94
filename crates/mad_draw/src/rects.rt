//! Rectangles with a border.

ghost use Rattle.std.specs.Prelude.{◌≡◌, ◌≤◌, ◌+◌, ◌-◌, suc, false, OnOk, Some};
ghost use Rattle.mad_term.specs.Draws.{Draws};
ghost use Rattle.mad_term.specs.Styles.{IsStyle};
ghost use Rattle.mad_term.specs.Trace.{TookWith};
ghost use Rattle.mad_style.specs.StyledChars.{styled_char};
ghost use Rattle.mad_measure.specs.Areas.{IsWithinLimits};
ghost use Rattle.mad_draw.specs.PlacedPieces.{one_placed_bytes, placed_bytes};
ghost use Rattle.mad_draw.specs.Rects.{bland, edge, sides, rect_pieces, AreBorderChars, IsRectShown};

use crate::char_repeats::SingleChars;
use crate::parts::{Parts, put_parts};
use crate::spaces::Spaces;
use mad_measure::Area;
use mad_style::{CompoundStyle, StyledChar};
use mad_term::{Error, MoveTo, Out, put_displayed};
use std::alloc::{AllocError, Global};
use std::fmt;

/// The characters of a rectangle's border, clockwise from the top left.
#[derive(Clone, Copy, Debug)]
pub struct RectBorderStyle {
    pub top_left: char,
    pub top: char,
    pub top_right: char,
    pub right: char,
    pub bottom_right: char,
    pub bottom: char,
    pub bottom_left: char,
    pub left: char,
}

/// Half blocks, at the outside of their cells.
pub const BORDER_STYLE_HALF_WIDTH_OUTSIDE: RectBorderStyle = RectBorderStyle {
    top_left: '▛',
    top: '▀',
    top_right: '▜',
    right: '▐',
    bottom_right: '▟',
    bottom: '▄',
    bottom_left: '▙',
    left: '▌',
};

/// Lines with square corners, in the middle of their cells.
pub const BORDER_STYLE_MIDDLE_SQUARE_LINE: RectBorderStyle = RectBorderStyle {
    top_left: '┌',
    top: '─',
    top_right: '┐',
    right: '│',
    bottom_right: '┘',
    bottom: '─',
    bottom_left: '└',
    left: '│',
};

/// Lines with round corners, in the middle of their cells.
pub const BORDER_STYLE_MIDDLE_ROUND_LINE: RectBorderStyle = RectBorderStyle {
    top_left: '╭',
    top: '─',
    top_right: '╮',
    right: '│',
    bottom_right: '╯',
    bottom: '─',
    bottom_left: '╰',
    left: '│',
};

/// Spaces, so that only the background shows.
pub const BORDER_STYLE_BLAND: RectBorderStyle = RectBorderStyle {
    top_left: ' ',
    top: ' ',
    top_right: ' ',
    right: ' ',
    bottom_right: ' ',
    bottom: ' ',
    bottom_left: ' ',
    left: ' ',
};

/// A rectangle of the screen with a border.
#[derive(Debug, Drop)]
pub struct Rect {
    /// Where it is: its border is the edge of this area.
    pub area: Area,
    /// How its border, and its inside if it is filled, look.
    pub colors: CompoundStyle,
    /// Whether the inside is filled with spaces. Else its cells keep what they show.
    pub fill: bool,
    /// The characters of its border.
    pub border_style: RectBorderStyle,
}

impl Rect {
    /// A rectangle that isn't filled, its border of spaces.
    pub fn new(area: Area, colors: CompoundStyle) -> Self
        ensures { result ≡ record { area = area; colors = colors; fill = false; border_style = bland } }
    {
        Self {
            area,
            colors,
            fill: false,
            border_style: BORDER_STYLE_BLAND,
        }
    }

    /// Sets the characters of the border.
    pub fn set_border_style(&mut self, border_style: RectBorderStyle)
        ensures { self.new ≡ record self.old { border_style = border_style } }
    {
        self.border_style = border_style;
    }

    /// Sets whether the inside is filled.
    pub fn set_fill(&mut self, fill: bool)
        ensures { self.new ≡ record self.old { fill = fill } }
    {
        self.fill = fill;
    }

    /// Draws the rectangle. Its area has two columns and a row at least, and its right and bottom fit a `u16`. Nothing is
    /// flushed.
    ///
    /// # Errors
    ///
    /// A fault of the device, or out of memory. What went out by then is a beginning of the whole.
    pub fn draw<O: Out>(&self, alloc: Global, out: &mut O) -> Result<(), Error>
        requires columns { 2 ≤ self.now.area.width }
        requires rows { 1 ≤ self.now.area.height }
        requires limits { IsWithinLimits self.now.area }
        ensures writes { Draws (O.seen out.old) (placed_bytes (rect_pieces self.now)) result (O.seen out.new) }

        // What a plain terminal shows that reads it, where each border character takes one column.
        ensures shown { OnOk result (AreBorderChars self.now.border_style → TookWith (O.seen out.old) (O.seen out.new) (IsRectShown self.now)) }
    {
        know_style(self.colors);
        let top = self.top_edge();
        let bottom = self.bottom_edge();
        put_displayed(alloc, out, 0, &top)?;
        put_parts(alloc, out, &Sides { rect: self })?;
        put_displayed(alloc, out, 0, &bottom)
    }

    fn top_edge(&self) -> Edge<'_>
        ensures { result ≡ record { rect = self.entry; y = self.now.area.top; first = self.now.border_style.top_left; middle = self.now.border_style.top; last = self.now.border_style.top_right } }
    {
        Edge {
            rect: self,
            y: self.area.top,
            first: self.border_style.top_left,
            middle: self.border_style.top,
            last: self.border_style.top_right,
        }
    }

    fn bottom_edge(&self) -> Edge<'_>
        requires rows { 1 ≤ self.now.area.height }
        requires limits { IsWithinLimits self.now.area }
        ensures { result ≡ record { rect = self.entry; y = self.now.area.top + (self.now.area.height - 1); first = self.now.border_style.bottom_left; middle = self.now.border_style.bottom; last = self.now.border_style.bottom_right } }
    {
        Edge {
            rect: self,
            y: self.area.bottom() - 1,
            first: self.border_style.bottom_left,
            middle: self.border_style.bottom,
            last: self.border_style.bottom_right,
        }
    }

    // A character of the border, in the rectangle's colors.
    fn border(&self, c: char) -> StyledChar
        ensures { result ≡ styled_char self.now.colors c }
    {
        self.colors.style_char(c)
    }

    // The columns between the two sides.
    fn columns_between(&self) -> usize
        ensures { result ≡ self.now.area.width - 2 }
    {
        usize::from(self.area.width).saturating_sub(2)
    }
}

// The numbers of a style's colors are bytes.
fn know_style(style: CompoundStyle)
    ensures { IsStyle style.object_style }
{}

// An edge of a rectangle at a row, after a move to it.
#[derive(Clone, Copy)]
struct Edge<'a> {
    rect: &'a Rect,
    y: u16,
    first: char,
    middle: char,
    last: char,
}

impl fmt::Display for Edge<'_> {
    ghost output = { λ e. Some (one_placed_bytes (edge e.rect.now e.y e.first e.middle e.last)) };

    fn fmt<W: fmt::Write>(&self, f: &mut fmt::Formatter<W>) -> fmt::Result {
        let start = MoveTo(self.rect.area.left, self.y);
        let first = self.rect.border(self.first);
        let middle = SingleChars {
            c: self.rect.border(self.middle),
            count: self.rect.columns_between(),
        };
        let last = self.rect.border(self.last);
        write!(f, "{start}{first}{middle}{last}")
    }
}

// The sides of a rectangle, row by row, between its edges.
#[derive(Drop)]
struct Sides<'a> {
    rect: &'a Rect,
    ghost limits: { IsWithinLimits rect.now.area },
}

impl Parts for Sides<'_> {
    ghost count = { λ s. s.rect.now.area.height - 2 };

    ghost part = { λ s number. placed_bytes (sides s.rect.now (s.rect.now.area.top + suc number)) };

    fn count(&self) -> usize {
        usize::from(self.rect.area.height).saturating_sub(2)
    }

    fn push_part(&self, bytes: &mut String, number: usize) -> Result<(), AllocError> {
        let rect = self.rect;
        let y = rect.area.top + (number as u16 + 1);
        let start = MoveTo(rect.area.left, y);
        let left = rect.border(rect.border_style.left);
        let right = rect.border(rect.border_style.right);
        if rect.fill {
            let inside = Spaces {
                style: rect.colors,
                count: rect.columns_between(),
            };
            write!(bytes, "{start}{left}{inside}{right}")
        } else {
            let end = MoveTo(rect.area.left + rect.area.width.saturating_sub(1), y);
            write!(bytes, "{start}{left}{end}{right}")
        }
    }
}
