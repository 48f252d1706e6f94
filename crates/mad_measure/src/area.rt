//! Areas of a screen.

ghost use Rattle.std.specs.Prelude.{◌≡◌, ◌<◌, ◌≤◌, ◌+◌, ◌-◌, ◌*◌, ◌/◌, ◌^◌, ◌↔◌, min, IfSome, IsNone, IsTrue};
ghost use Rattle.mad_measure.specs.Areas.{IsWithinLimits, HasPosition};
ghost use Rattle.mad_measure.specs.Thumbs.{scrollbar_at};

use crate::scrollbars::compute_scrollbar;

/// A rectangle of the screen. Columns are counted from 0 at the left, rows from 0 at the top.
#[derive(Clone, Copy, PartialEq, Eq, Debug)]
pub struct Area {
    /// Its first column.
    pub left: u16,
    /// Its first row.
    pub top: u16,
    /// How many columns it has.
    pub width: u16,
    /// How many rows it has.
    pub height: u16,
}

impl Area {
    /// An area of five columns and one row at the top left, until the real one is known.
    pub fn uninitialized() -> Self
        ensures { result ≡ record { left = 0; top = 0; width = 5; height = 1 } }
    {
        Self {
            left: 0,
            top: 0,
            width: 5,
            height: 1,
        }
    }

    /// The area with these columns and rows. Its right and bottom have to fit a `u16`.
    pub fn new(left: u16, top: u16, width: u16, height: u16) -> Self
        requires columns { left + width < 2 ^ 16 }
        requires rows { top + height < 2 ^ 16 }
        ensures { result ≡ record { left = left; top = top; width = width; height = height } }
    {
        Self {
            left,
            top,
            width,
            height,
        }
    }

    /// Whether its right and bottom fit a `u16`, as drawing and the calls below ask.
    pub fn is_within_limits(&self) -> bool
        ensures { IsTrue result ↔ IsWithinLimits self.now }
    {
        self.left <= u16::MAX - self.width && self.top <= u16::MAX - self.height
    }

    /// The first column right of the area, whose right and bottom have to fit a `u16`.
    pub fn right(&self) -> u16
        requires { IsWithinLimits self.now }
        ensures { result ≡ self.now.left + self.now.width }
    {
        self.left + self.width
    }

    /// The first row below the area, whose right and bottom have to fit a `u16`.
    pub fn bottom(&self) -> u16
        requires { IsWithinLimits self.now }
        ensures { result ≡ self.now.top + self.now.height }
    {
        self.top + self.height
    }

    /// Whether the cell in column `x` of row `y` is in the area, whose right and bottom have to fit a `u16`.
    pub fn contains(&self, x: u16, y: u16) -> bool
        requires { IsWithinLimits self.now }
        ensures { IsTrue result ↔ HasPosition self.now x y }
    {
        self.left <= x && x < self.right() && self.top <= y && y < self.bottom()
    }

    /// Leaves `dx` columns free at the left and at the right, and `dy` rows at the top and at the bottom. The area has to have as
    /// many, and its new left and top have to fit a `u16`.
    pub fn pad(&mut self, dx: u16, dy: u16)
        requires columns { 2 * dx ≤ self.old.width }
        requires rows { 2 * dy ≤ self.old.height }
        requires left { self.old.left + dx < 2 ^ 16 }
        requires top { self.old.top + dy < 2 ^ 16 }
        ensures { self.new ≡ record { left = self.old.left + dx; top = self.old.top + dy; width = self.old.width - 2 * dx; height = self.old.height - 2 * dy } }
    {
        self.left += dx;
        self.top += dy;
        self.width -= 2 * dx;
        self.height -= 2 * dy;
    }

    /// Leaves as many columns free at both sides that `max_width` ones stay; of an odd count one more at the right. An area that has no
    /// more stays as it is. Its new left has to fit a `u16`.
    pub fn pad_for_max_width(&mut self, max_width: u16)
        requires { self.old.left + (self.old.width - max_width) / 2 < 2 ^ 16 }
        ensures { self.new ≡ record self.old { left = self.old.left + (self.old.width - max_width) / 2; width = min self.old.width max_width } }
    {
        let cut = self.width.saturating_sub(max_width);
        self.left += cut / 2;
        self.width -= cut;
    }

    /// The rows of the screen in which the thumb of a scroll bar beside the area begins and ends, as [`compute_scrollbar`] finds them:
    /// `scroll` lines of a content are hidden above. None where the content is no higher than the area.
    pub fn scrollbar(&self, scroll: usize, content_height: usize) -> Option<(usize, usize)>
        ensures bar { result ≡ scrollbar_at scroll content_height self.now.height self.now.top }
        ensures none { IsNone result ↔ content_height ≤ self.now.height }

        // Where lines are hidden above, the first row has no thumb.
        ensures scrolled { 0 < scroll → IfSome result (λ thumb. self.now.top < thumb.0) }

        // In an area of two rows or more, where the scroll leaves lines for all of them, the thumb begins in the area.
        ensures within { 2 ≤ self.now.height → scroll + self.now.height ≤ content_height → IfSome result (λ thumb. thumb.0 < self.now.top + self.now.height) }
    {
        let height = usize::from(self.height);
        compute_scrollbar(scroll, content_height, height, usize::from(self.top))
    }
}

impl Default for Area {
    ghost is_default = { λ area. area ≡ record { left = 0; top = 0; width = 5; height = 1 } };

    /// The area of [`Area::uninitialized`].
    fn default() -> Self {
        Self::uninitialized()
    }
}
