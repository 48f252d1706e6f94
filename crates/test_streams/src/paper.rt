//! A terminal that scrolls. It reads what live texts write: rows, newlines, a carriage return that erases its row, moves up that do, and
//! styles, which it doesn't show. Autowrap switched on or off is nothing to it.

use std::alloc::{AllocError, Global};

const ERASE_ROW: &str = "\r\x1b[K";

const ERASE_ROW_ABOVE: &str = "\x1b[1A\x1b[K";

// What begins a command that sets a style, or switches something.
const COMMAND: &str = "\x1b[";

// Autowrap off and on, behind that.
const SWITCHES: [&str; 2] = ["?7l", "?7h"];

/// All rows that it has had, and the cursor's.
#[derive(Drop)]
pub struct Paper {
    rows: Vec<String>,
    // How many rows have scrolled off, and how many are above the cursor's.
    off: usize,
    above: usize,
    height: usize,
}

impl Paper {
    /// A blank one with so many rows.
    pub fn new(alloc: Global, height: usize) -> Result<Self, AllocError> {
        let mut rows = Vec::new(alloc);
        rows.push(String::new(alloc))?;
        Ok(Paper {
            rows,
            off: 0,
            above: 0,
            height,
        })
    }

    /// Reads a text. Answers whether it never moves above the screen.
    pub fn read(&mut self, alloc: Global, text: &str) -> Result<bool, AllocError> {
        for (number, part) in text.split(ERASE_ROW_ABOVE).enumerate() {
            if number > 0 {
                if self.above == self.off {
                    return Ok(false);
                }
                self.above = self.above.saturating_sub(1);
                self.erase();
            }
            self.read_below(alloc, part)?;
        }
        Ok(true)
    }

    // Reads a text without a move up.
    fn read_below(&mut self, alloc: Global, text: &str) -> Result<(), AllocError> {
        for (number, part) in text.split(ERASE_ROW).enumerate() {
            if number > 0 {
                self.erase();
            }
            for (number, part) in part.split(COMMAND).enumerate() {
                let text = if number > 0 {
                    after_command(part)
                } else {
                    part
                };
                for c in text.chars() {
                    self.read_character(alloc, c)?;
                }
            }
        }
        Ok(())
    }

    /// It has another size.
    pub fn resize(&mut self, height: usize) {
        self.height = height;
        self.off = self.off.max(self.least_above());
    }

    // How many rows don't fit the screen above the cursor's.
    fn least_above(&self) -> usize {
        self.above.saturating_add(1).saturating_sub(self.height)
    }

    /// The index of the cursor's row.
    pub fn cursor(&self) -> usize {
        self.above
    }

    /// Its rows from one on.
    pub fn rows_from(&self, first: usize) -> &[String] {
        self.rows.get(first..).unwrap_or(&[])
    }

    /// A row, blank where it has none of that index.
    pub fn row(&self, index: usize) -> &str {
        match self.rows.get(index) {
            Some(row) => row.as_str(),
            None => "",
        }
    }

    fn erase(&mut self) {
        if let Some(row) = self.rows.get_mut(self.above) {
            row.clear();
        }
    }

    fn read_character(&mut self, alloc: Global, c: char) -> Result<(), AllocError> {
        if c == '\n' {
            self.above = self.above.saturating_add(1);
            if self.above == self.rows.len() {
                self.rows.push(String::new(alloc))?;
            }
            self.off = self.off.max(self.least_above());
        } else if let Some(row) = self.rows.get_mut(self.above) {
            row.push(c)?;
        }
        Ok(())
    }

    /// Writes its rows up to the cursor's, those that scrolled off behind an arrow.
    pub fn tell(&self, told: &mut String) -> Result<(), AllocError> {
        for (number, row) in self.rows.iter().enumerate() {
            if number > self.above || (number == self.above && row.is_empty()) {
                return Ok(());
            }
            told.push_str(if number < self.off { "↑" } else { "" })?;
            told.push_str(row.as_str())?;
            told.push('\n')?;
        }
        Ok(())
    }
}

// What comes after a command that has begun.
fn after_command(text: &str) -> &str {
    for switch in SWITCHES {
        if let Some(rest) = text.strip_prefix(switch) {
            return rest;
        }
    }
    text.split_once('m').map_or(text, |(_, rest)| rest)
}
