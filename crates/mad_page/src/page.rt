//! The screen, the text's rows and the one on top.

ghost use Rattle.std.specs.Prelude.{◌≡◌};
ghost use Rattle.mad_page.specs.Pages.{above, at_bar, at_end, at_percent, at_row, begun_at, below, body_rows, files_named, in_sight, is_on_bar, percent, row_number, shows_row};

/// Which files there are beside that of the text.
#[derive(Clone, Copy, Debug, PartialEq, Eq)]
pub struct Files {
    /// Whether one comes after it.
    pub has_next: bool,
    /// Whether one comes before it.
    pub has_previous: bool,
}

impl Files {
    /// None beside it.
    pub const NONE: Files = Files {
        has_next: false,
        has_previous: false,
    };

    /// Those that a word names: of several files in a row the first has a next one, the last one before it, and any other has both; a text alone
    /// has neither. None of another word than `alone`, `first`, `between` and `last`.
    pub fn named(word: &str) -> Option<Files>
        ensures { result ≡ files_named word.now }
    {
        match word {
            "alone" => Some(Files::NONE),
            "first" => Some(Files {
                has_next: true,
                has_previous: false,
            }),
            "between" => Some(Files {
                has_next: true,
                has_previous: true,
            }),
            "last" => Some(Files {
                has_next: false,
                has_previous: true,
            }),
            _ => None,
        }
    }
}

/// A text's rows on a screen, whose last row is left free.
#[derive(Clone, Copy, Debug, PartialEq, Eq)]
pub struct Page {
    /// The columns of the screen.
    pub columns: u16,
    /// Its rows, the last one too.
    pub rows: u16,
    /// How many rows the text has.
    pub height: usize,
    /// The index, from 0, of the text's row that is on top. All are allowed: past the text's last row the screen is blank.
    pub top: usize,
    /// The number that was typed for the next key; 0, where none was.
    pub count: usize,
    /// Whether the mouse holds the bar.
    pub holds_bar: bool,
    /// Whether a colon was typed, so that the next key names a file.
    pub has_colon: bool,
    /// Whether it is to be told where in the text the page is, up to the next key.
    pub tells: bool,
    /// Which files there are to name.
    pub files: Files,
}

impl Page {
    /// How many rows of the screen the text has: all but the last one.
    pub fn body_rows(&self) -> u16
        ensures { result ≡ body_rows self.now }
    {
        self.rows.saturating_sub(1)
    }

    /// How much of the text is on the screen or above it, in per cent, rounded down. Of a text without rows it is all.
    pub fn percent(&self) -> u64
        ensures { result ≡ percent self.now }
    {
        if self.height == 0 {
            return 100;
        }
        let reached = (self.top as u128 + u128::from(self.body_rows())).min(self.height as u128);
        (100 * reached / self.height as u128) as u64
    }

    /// The number of the row on top, counted from 1, or that of the text's last row, where the page is past it.
    pub fn row_number(&self) -> usize
        ensures { result ≡ row_number self.now }
    {
        self.top.saturating_add(1).min(self.height)
    }

    /// Puts the row of this number on top, counted from 1, or the text's last one; for 0 the first.
    pub fn begin_at(&mut self, number: usize)
        ensures { self.new ≡ begun_at number self.old }
    {
        self.go_to_row(number.saturating_sub(1));
    }

    /// Whether a row of the text is on the screen.
    pub fn shows_row(&self, row: usize) -> bool
        ensures { result ≡ shows_row self.now row }
    {
        row >= self.top && row - self.top < usize::from(self.body_rows())
    }

    /// Scrolls so that a row of the text is on top, where it isn't on the screen already.
    pub fn show_row(&mut self, row: usize)
        ensures { self.new ≡ in_sight self.old row }
    {
        if self.shows_row(row) {
            return;
        }
        self.top = row;
    }

    // Scrolls down by this many rows, no further than to the text's last row in the screen's last but one. A page that is further stays.
    pub(crate) fn go_down(&mut self, count: usize)
        ensures { self.new ≡ below self.old count }
    {
        self.top = self
            .top
            .max(self.top.saturating_add(count).min(self.last_top()));
    }

    // Scrolls up by this many rows, or to the text's first.
    pub(crate) fn go_up(&mut self, count: usize)
        ensures { self.new ≡ above self.old count }
    {
        self.top = self.top.saturating_sub(count);
    }

    // Scrolls so that the text's last row is in the screen's last but one, or to its first where it fits.
    pub(crate) fn go_to_end(&mut self)
        ensures { self.new ≡ at_end self.old }
    {
        self.top = self.last_top();
    }

    // Scrolls so that a row of the text is on top, or its last one.
    pub(crate) fn go_to_row(&mut self, row: usize)
        ensures { self.new ≡ at_row self.old row }
    {
        self.top = row.min(self.height.saturating_sub(1));
    }

    // Scrolls so that this per cent of the text is on the screen or above it, rounded up, and no more.
    pub(crate) fn go_to_percent(&mut self, percent: usize)
        ensures { self.new ≡ at_percent self.old percent }
    {
        let reached = (percent.min(100) as u128 * self.height as u128 + 99) / 100;
        self.top = (reached as usize).saturating_sub(usize::from(self.body_rows()));
    }

    // Whether a position of the screen is on the bar.
    pub(crate) fn is_on_bar(&self, column: u16, row: u16) -> bool
        ensures { result ≡ is_on_bar self.now column row }
    {
        self.height > usize::from(self.body_rows())
            && u32::from(column) + 1 == u32::from(self.columns)
            && row < self.body_rows()
    }

    // Scrolls to what a row of the bar stands for.
    pub(crate) fn go_to_bar(&mut self, row: u16)
        ensures { self.new ≡ at_bar self.old row }
    {
        let last_row = self.body_rows().saturating_sub(1);
        let row = u128::from(row.min(last_row));
        let top = row * self.last_top() as u128 / u128::from(last_row.max(1));
        self.top = top as usize;
    }

    // The row on top where the text's last one is in the screen's last but one.
    fn last_top(&self) -> usize
        ensures { result ≡ (at_end self.now).top }
    {
        self.height.saturating_sub(usize::from(self.body_rows()))
    }
}
