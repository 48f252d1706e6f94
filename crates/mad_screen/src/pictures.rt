//! Screens as pictures, for people and for tests: a line of text for each row.

ghost use Rattle.std.specs.Prelude.{◌≡◌, ◌≤◌, [], IfOk, length, map};
ghost use Rattle.mad_screen.specs.Glyph.{look_of};
ghost use Rattle.mad_screen.specs.Pictures.{gets_letter, is_plain, letter_of, lettered, looks_pens, looks_screen};

use crate::cell::Cell;
use crate::pen::Pen;
use crate::screen::Screen;
use std::alloc::AllocError;
use std::fmt;

impl fmt::Display for Cell {
    ghost use Rattle.std.specs.Prelude.{Some};
    ghost use Rattle.mad_screen.specs.Pictures.{cell_text};

    ghost output = { λ cell. Some (cell_text cell) };

    /// The characters that the cell shows. A tail shows none.
    fn fmt<W: fmt::Write>(&self, f: &mut fmt::Formatter<W>) -> fmt::Result {
        for c in &self.chars {
            write!(f, "{c}")?;
        }
        Ok(())
    }
}

// Cells side by side.
#[derive(Clone, Copy)]
struct Row<'a>(&'a [Cell]);

impl fmt::Display for Row<'_> {
    ghost use Rattle.std.specs.Prelude.{Some};
    ghost use Rattle.mad_screen.specs.Pictures.{row_text};

    ghost output = { λ row. Some (row_text row.0.now) };

    fn fmt<W: fmt::Write>(&self, f: &mut fmt::Formatter<W>) -> fmt::Result {
        for cell in self.0 {
            write!(f, "{cell}")?;
        }
        Ok(())
    }
}

impl fmt::Display for Screen {
    ghost use Rattle.std.specs.Prelude.{Some};
    ghost use Rattle.mad_screen.specs.Pictures.{screen_text};

    ghost output = { λ screen. Some (screen_text screen) };

    /// The rows from the top, each as a line of text. A wide character is written once, and each blank as a space.
    fn fmt<W: fmt::Write>(&self, f: &mut fmt::Formatter<W>) -> fmt::Result {
        for y in 0..self.height() {
            let row = Row(self.row(y));
            write!(f, "{row}\n")?;
        }
        Ok(())
    }
}

/// The looks of a screen's cells as a picture: a letter for each pen, a point for the plain one.
///
/// The letters go to the pens in the order in which they first appear, row by row. The first pen that isn't the plain
/// one gets `a`, the second `b`, up to `z`. A pen that comes when all letters are taken is a question mark.
#[derive(Debug, Drop)]
pub struct Looks<'a> {
    screen: &'a Screen,
    pens: Vec<Pen>,
}

// How many letters there are.
const LETTERS: usize = 26;

// Whether a pen gets the next letter, after these pens.
fn gets_letter(pens: &[Pen], pen: Pen) -> bool
    ensures { result ≡ gets_letter (map look_of pens.now) (look_of pen) }
{
    pens.len() < LETTERS && !pen.is_plain() && !pens.contains(&pen)
}

impl Screen {
    /// The looks of its cells, as a picture.
    ///
    /// # Errors
    ///
    /// Out of memory.
    pub fn looks(&self) -> Result<Looks<'_>, AllocError>
        ensures screen { IfOk result (λ looks. looks_screen looks ≡ self.now) }
        ensures letters { IfOk result (λ looks. length (looks_pens looks) ≤ 26) }
        ensures pens { IfOk result (λ looks. map look_of (looks_pens looks) ≡ lettered [] self.now.cells) }
    {
        let mut pens = Vec::new(self.allocator());
        for cell in self.cells() {
            let pen = cell.pen;
            if gets_letter(&pens, pen) {
                pens.push(pen)?;
            }
        }
        Ok(Looks { screen: self, pens })
    }
}

impl Looks<'_> {
    /// The pens that have a letter: that of `a` first.
    pub fn pens(&self) -> &[Pen]
        ensures { result.now ≡ looks_pens self.now }
    {
        &self.pens
    }

    fn letter(&self, pen: Pen) -> char
        ensures { result ≡ letter_of (map look_of (looks_pens self.now)) (look_of pen) }
    {
        if pen.is_plain() {
            return '.';
        }
        match self.pens.iter().position(|known| *known == pen) {
            Some(index) if index < LETTERS => char::from(b'a' + index as u8),
            _ => '?',
        }
    }
}

impl fmt::Display for Looks<'_> {
    ghost use Rattle.std.specs.Prelude.{Some};
    ghost use Rattle.mad_screen.specs.Pictures.{letters_text, looks_screen};

    ghost output = { λ looks. Some (letters_text (map look_of (looks_pens looks)) (looks_screen looks)) };

    /// The letters row by row, each row as a line.
    fn fmt<W: fmt::Write>(&self, f: &mut fmt::Formatter<W>) -> fmt::Result {
        for y in 0..self.screen.height() {
            for cell in self.screen.row(y) {
                let letter = self.letter(cell.pen);
                write!(f, "{letter}")?;
            }
            write!(f, "\n")?;
        }
        Ok(())
    }
}
