//! Files of Markdown, which are the rows of the list, and what it shows of them.

use std::alloc::{AllocError, Global};
use std::fs;
use termimad::pages::PageMarks;
use termimad::{CellExtract, CompoundStyle, DressedMarkdown, Error, ListViewCell, Markdown};

/// A file of Markdown that was read.
#[derive(Drop)]
pub struct Document {
    /// Its name.
    pub name: String,
    /// What it says.
    pub markdown: DressedMarkdown,
}

/// Reads the files whose names are the lines of a file, to be shown where these stand in their pages.
pub fn read_all(rt: &HostRuntime, names: &str, marks: PageMarks) -> Result<Vec<Document>, Error> {
    let alloc = rt.alloc();
    let names = fs::read_to_string(rt, names)?;
    let mut documents = Vec::new(alloc);
    for name in names.lines() {
        let text = fs::read_to_string(rt, name)?;
        let read = Markdown::read(alloc, text.as_str())?;
        documents.push(Document {
            name: String::from_str(alloc, name)?,
            markdown: DressedMarkdown::new(alloc, read, marks)?,
        })?;
    }
    Ok(documents)
}

/// A row of the list.
#[derive(Clone, Copy)]
pub struct Row<'m>(pub &'m Document);

/// What the column shows of a document: its name.
#[derive(Drop)]
pub struct Name {
    /// The allocator.
    pub alloc: Global,
}

impl CellExtract<Row<'_>> for Name {
    ghost use Rattle.std.specs.Prelude.{◌≡◌, IfOk, string_bytes};
    ghost use Rattle.mad_style.specs.CompoundStyles.{unstyled};
    ghost use Rattle.mad_list_columns.specs.Cells.{shown_cell};

    // The name, without style.
    ghost extracts = { λ _ row result. IfOk result (λ cell. shown_cell cell ≡ record { text = string_bytes row.0.now.name; style = unstyled }) };

    fn cell(&self, row: &Row<'_>) -> Result<ListViewCell, AllocError> {
        let name = String::from_str(self.alloc, row.0.name.as_str())?;
        Ok(ListViewCell::new(name, CompoundStyle::default()))
    }
}
