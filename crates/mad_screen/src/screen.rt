//! The plain terminal: a screen that reads bytes.

ghost use Rattle.std.specs.Prelude.{◌≡◌, ◌<◌, ◌+◌, ◌*◌, None, Some, suc, IfOk, OnOk, OnErr, IsErrOf, MatchBool, length};
ghost use Rattle.std.specs.Option.{option_copied};
ghost use Rattle.mad_screen.specs.Glyph.{look_of};
ghost use Rattle.mad_screen.specs.Grid.{IsGrid, cell_on_screen, empty_grid};
ghost use Rattle.mad_screen.specs.Pictures.{row_cells};
ghost use Rattle.mad_screen.specs.Terminal.{after_bytes, put, put_wide, go_to, erased, erase_row, erase_screen, perform};

use crate::cell::{Cell, copy_all, erase, find_head, lay, set_all};
use crate::pen::Pen;
use crate::reader::{NotPlain, Reader};
use std::alloc::{AllocError, Global};
use std::marker::Model;
use unicode_width::UnicodeWidthChar;

/// The screen of a plain terminal: rows of cells, a cursor and a pen.
///
/// It reads characters and the sequences that this library writes, exactly as they are written:
///
/// - moves, `ESC[row;columnH`, counted from one;
/// - one color or one attribute in a command, `ESC[..m`;
/// - erasures, `ESC[J`, `ESC[1J`, `ESC[2J`, `ESC[K` and `ESC[2K`.
///
/// A character takes the columns that `unicode_width` gives it, itself in the first and tails in the others. A widthless one
/// joins the first cell to the left that is no tail. Half of a wide character can be overwritten, and the other half stays.
/// Erasing leaves spaces with the pen's background alone, and the cursor where it was.
///
/// All else is undefined:
///
/// - another sequence, a number with a leading zero or a missing one, a color past 255;
/// - a move off the screen, also to the column past the last;
/// - a character without room before the right edge, a widthless one in column 0, a control character.
///
/// A screen may have no rows or no columns; every character on it is undefined.
#[derive(Debug, Drop)]
pub struct Screen {
    width: u16,
    height: u16,
    cells: Vec<Cell>,
    x: u16,
    y: u16,
    pen: Pen,
}

impl Model for Screen {
    ghost use Rattle.mad_screen.specs.Grid.{Grid, IsGrid};
    ghost use Rattle.mad_screen.specs.Glyph.{look_of};

    ghost Value = { Grid };

    ghost view = { λ s. record { width = s.width; height = s.height; cells = s.cells.items; x = s.x; y = s.y; pen = look_of s.pen } };

    ghost invariant = { λ s. IsGrid (record { width = s.width; height = s.height; cells = s.cells.items; x = s.x; y = s.y; pen = look_of s.pen }) };
}

impl Screen {
    /// An empty screen of `width` columns and `height` rows: spaces in the plain pen, the cursor at the first position.
    /// It keeps the allocator. Out of memory is the only error.
    pub fn new(alloc: Global, width: u16, height: u16) -> Result<Self, AllocError>
        ensures { IfOk result (λ screen. screen ≡ empty_grid width height) }
    {
        let pen = Pen::default();
        let count = usize::from(height) * usize::from(width);
        let mut cells = Vec::with_capacity(alloc, count)?;
        for _i in 0..count {
            cells.push(Cell::of(alloc, ' ', pen)?)?;
        }
        Ok(Screen {
            width,
            height,
            cells,
            x: 0,
            y: 0,
            pen,
        })
    }

    /// The cell in column `x` of row `y`, both counted from zero; `None` outside the screen.
    pub fn cell(&self, x: u16, y: u16) -> Option<&Cell>
        ensures { option_copied result ≡ cell_on_screen self.now x y }
    {
        if x < self.width && y < self.height {
            let at = usize::from(y) * usize::from(self.width) + usize::from(x);
            Some(&self.cells[at])
        } else {
            None
        }
    }

    /// The cursor's column and row, counted from zero. The column is the width once a row's last column was written.
    pub fn cursor(&self) -> (u16, u16)
        ensures position { result ≡ (self.now.x, self.now.y) }
        ensures on_screen { IsGrid self.now }
    {
        (self.x, self.y)
    }

    /// What the next character will be written with.
    pub fn pen(&self) -> Pen
        ensures { look_of result ≡ self.now.pen }
    {
        self.pen
    }

    /// How many columns it has. There is a cell for each column of each row.
    pub fn width(&self) -> u16
        ensures columns { result ≡ self.now.width }
        ensures full { length self.now.cells ≡ self.now.height * self.now.width }
    {
        self.width
    }

    /// How many rows it has.
    pub fn height(&self) -> u16
        ensures { result ≡ self.now.height }
    {
        self.height
    }

    /// Its cells, row by row from the top.
    pub(crate) fn cells(&self) -> &[Cell]
        ensures { result.now ≡ self.now.cells }
    {
        &self.cells
    }

    /// The cells of row `y`, counted from zero: a tail for each further column of a wide character.
    pub fn row(&self, y: u16) -> &[Cell]
        requires { y < self.now.height }
        ensures { result.now ≡ row_cells self.now y }
    {
        let width = usize::from(self.width);
        let start = usize::from(y) * width;
        &self.cells[start..start + width]
    }

    /// The allocator that its cells were made with.
    pub(crate) fn allocator(&self) -> Global {
        *self.cells.allocator()
    }

    /// Reads a text: characters in UTF-8, and the sequences that this library writes. A text that comes in parts can be
    /// read part by part, if no part ends inside a character or a sequence.
    ///
    /// It takes time that grows with the screen too, since the text is read on a copy.
    ///
    /// # Errors
    ///
    /// `Undefined` where a plain terminal can't read the text, and `Memory` for out of memory. The screen is then as it
    /// was.
    pub fn read_bytes(&mut self, bytes: &[u8]) -> Result<(), NotPlain>
        ensures read { OnOk result (after_bytes self.old bytes.now ≡ Some self.new) }
        ensures not_plain { IsErrOf result NotPlain.Undefined → after_bytes self.old bytes.now ≡ None }
        ensures err { OnErr result (self.new ≡ self.old) }
    {
        *self = self.after_bytes(Screen::new(self.allocator(), 0, 0)?, bytes)?;
        Ok(())
    }

    /// The screen that a text leads to from this one, as [`Screen::read_bytes`] reads it. It takes the memory of `spare`, and makes
    /// no cell anew where that has as many cells.
    ///
    /// # Errors
    ///
    /// `Undefined` where a plain terminal can't read the text, and `Memory` for out of memory.
    pub fn after_bytes(&self, spare: Screen, bytes: &[u8]) -> Result<Self, NotPlain>
        ensures read { IfOk result (λ screen. after_bytes self.now bytes.now ≡ Some screen) }
        ensures not_plain { IsErrOf result NotPlain.Undefined → after_bytes self.now bytes.now ≡ None }
    {
        let Ok(text) = std::str::from_utf8(bytes) else {
            return Err(NotPlain::Undefined);
        };
        let mut reader = Reader::new(self.allocator(), self.copy_onto(spare)?);
        if !reader.feed_all(text)? {
            return Err(NotPlain::Undefined);
        }
        let Some(screen) = reader.finish() else {
            return Err(NotPlain::Undefined);
        };
        Ok(screen)
    }

    // Where the cursor's row begins among the cells.
    fn row_start(&self) -> usize
        ensures { result ≡ self.now.y * self.now.width }
    {
        usize::from(self.y) * usize::from(self.width)
    }

    // A character of `tails + 1` columns. It answers whether there is room.
    fn print(&mut self, c: char, tails: usize) -> Result<bool, AllocError>
        requires { self.old.y < self.old.height }
        ensures { IfOk result (λ done. MatchBool done (put_wide (Some (suc tails)) self.old c ≡ Some self.new) (put_wide (Some (suc tails)) self.old c ≡ None)) }
    {
        if tails >= usize::from(self.width - self.x) {
            return Ok(false);
        }
        let at = self.row_start() + usize::from(self.x);
        lay(&mut self.cells, at, c, tails, self.pen)?;
        self.x += tails as u16 + 1;
        Ok(true)
    }

    // A character without width. It answers whether there is one that it can join.
    fn join(&mut self, c: char) -> Result<bool, AllocError>
        requires { self.old.y < self.old.height }
        ensures { IfOk result (λ done. MatchBool done (put_wide (Some 0) self.old c ≡ Some self.new) (put_wide (Some 0) self.old c ≡ None)) }
    {
        let start = self.row_start();
        match find_head(&self.cells, start, usize::from(self.x)) {
            None => Ok(false),
            Some(at) => {
                let cell = &mut self.cells[at];
                cell.join(c)?;
                Ok(true)
            }
        }
    }

    /// Any character. It answers whether the terminal can show it there.
    pub(crate) fn put(&mut self, c: char) -> Result<bool, AllocError>
        ensures { IfOk result (λ done. MatchBool done (put self.old c ≡ Some self.new) (put self.old c ≡ None)) }
    {
        if self.y >= self.height {
            return Ok(false);
        }
        match c.width() {
            None => Ok(false),
            Some(0) => self.join(c),
            Some(width) => self.print(c, width - 1),
        }
    }

    // Row and column, both counted from one. It answers whether they are on the screen.
    fn go_to(&mut self, numbers: &[u32]) -> bool
        ensures { MatchBool result (go_to numbers.now self.old ≡ Some self.new) (go_to numbers.now self.old ≡ None) }
    {
        match numbers {
            [row, column]
                if 1 <= *row
                    && *row <= u32::from(self.height)
                    && 1 <= *column
                    && *column <= u32::from(self.width) => {
                self.x = *column as u16 - 1;
                self.y = *row as u16 - 1;
                true
            }
            _ => false,
        }
    }

    // The pen. It answers whether the code is known.
    fn restyle(&mut self, numbers: &[u32]) -> bool
        ensures { MatchBool result (perform 109 numbers.now self.old ≡ Some self.new) (perform 109 numbers.now self.old ≡ None) }
    {
        match self.pen.restyled(numbers) {
            None => false,
            Some(pen) => {
                self.pen = pen;
                true
            }
        }
    }

    // Leaves spaces of the pen's background in the cells between two positions.
    fn erase(&mut self, from: usize, to: usize) -> Result<(), AllocError>
        ensures { OnOk result (self.new ≡ erased from to self.old) }
    {
        erase(&mut self.cells, from, to, self.pen)
    }

    // Erasing of rows. It answers whether the numbers are known.
    fn erase_screen(&mut self, numbers: &[u32]) -> Result<bool, AllocError>
        ensures { IfOk result (λ done. MatchBool done (erase_screen numbers.now self.old ≡ Some self.new) (erase_screen numbers.now self.old ≡ None)) }
    {
        let start = self.row_start();
        let after = (usize::from(self.x) + 1).min(usize::from(self.width));
        let end = usize::from(self.height) * usize::from(self.width);
        let (from, to) = match numbers {
            [] => (start + usize::from(self.x), end),
            [1] => (0, start + after),
            [2] => (0, end),
            _ => return Ok(false),
        };
        self.erase(from, to)?;
        Ok(true)
    }

    // Erasing in the cursor's row. It answers whether the numbers are known.
    fn erase_row(&mut self, numbers: &[u32]) -> Result<bool, AllocError>
        ensures { IfOk result (λ done. MatchBool done (erase_row numbers.now self.old ≡ Some self.new) (erase_row numbers.now self.old ≡ None)) }
    {
        let start = self.row_start();
        let from = match numbers {
            [] => start + usize::from(self.x),
            [2] => start,
            _ => return Ok(false),
        };
        self.erase(from, start + usize::from(self.width))?;
        Ok(true)
    }

    /// The command that a letter ends. It answers whether it is known.
    pub(crate) fn perform(&mut self, letter: char, numbers: &[u32]) -> Result<bool, AllocError>
        ensures { IfOk result (λ done. MatchBool done (perform letter numbers.now self.old ≡ Some self.new) (perform letter numbers.now self.old ≡ None)) }
    {
        match letter {
            'H' => Ok(self.go_to(numbers)),
            'm' => Ok(self.restyle(numbers)),
            'J' => self.erase_screen(numbers),
            'K' => self.erase_row(numbers),
            _ => Ok(false),
        }
    }

    /// A copy of the screen, with its cursor and its pen. Out of memory is the only error.
    pub fn copy(&self) -> Result<Self, AllocError>
        ensures { IfOk result (λ screen. screen ≡ self.now) }
    {
        Ok(Screen {
            width: self.width,
            height: self.height,
            cells: copy_all(*self.cells.allocator(), &self.cells)?,
            x: self.x,
            y: self.y,
            pen: self.pen,
        })
    }
    // A copy of the screen, on the memory of another one.
    fn copy_onto(&self, spare: Screen) -> Result<Self, AllocError>
        ensures { IfOk result (λ screen. screen ≡ self.now) }
    {
        let Screen { cells, .. } = spare;
        let mut cells = cells;
        set_all(self.allocator(), &mut cells, &self.cells)?;
        Ok(Screen {
            width: self.width,
            height: self.height,
            cells,
            x: self.x,
            y: self.y,
            pen: self.pen,
        })
    }
}
