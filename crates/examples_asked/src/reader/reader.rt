//! The list, the text, and what a key does.

use crate::panel::Panel;
use crate::reader::documents::{Document, Name, Row};
use std::alloc::{AllocError, Global};
use std::io::{Error as IoError, ErrorKind};
use termimad::{
    Alignment, Area, Error, KeyCode, KeyEvent, ListView, ListViewColumn, MadSkin, MarkdownView,
    NoFilter, NoOrder, Out, PageSkin,
};

/// A list of documents, and the selected one beside it.
#[derive(Drop)]
pub struct Reader<'m, 'k> {
    list: ListView<'k, Row<'m>, Name, NoFilter, NoOrder>,
    view: MarkdownView<'m>,
    is_open: bool,
}

impl<'m, 'k> Reader<'m, 'k> {
    /// A reader of these documents, the first one selected.
    pub fn new(
        alloc: Global,
        skin: &'k MadSkin,
        page_skin: &PageSkin,
        documents: &'m [Document],
    ) -> Result<Self, Error> {
        let Some(first) = documents.first() else {
            return Err(Error::from(IoError::new(ErrorKind::InvalidInput, "there are no files")));
        };
        let mut columns = Vec::new(alloc);
        let name = Name { alloc };
        columns.push(ListViewColumn::new(alloc, "file", 6, 11, name)?.with_align(Alignment::Left))?;
        let mut list = ListView::new(alloc, Area::new(0, 0, 13, 10), columns, skin);
        for document in documents {
            list.add_row(Row(document))?;
        }
        list.select_first_line();
        let area = Area::new(14, 0, 30, 10);
        Ok(Reader {
            list,
            view: MarkdownView::from(alloc, &first.markdown, area, page_skin)?,
            is_open: true,
        })
    }

    // Selects the next document, or the one before, and shows it from its first row on.
    fn select(&mut self, up: bool) -> Result<(), AllocError> {
        self.list.try_select_next(up);
        match self.list.get_selection() {
            Some(row) => self.view.set_markdown(&row.0.markdown),
            None => Ok(()),
        }
    }
}

impl Panel for Reader<'_, '_> {
    fn apply(&mut self, key: KeyEvent) -> Result<(), Error> {
        match key.code {
            KeyCode::Up => self.select(true)?,
            KeyCode::Down => self.select(false)?,
            KeyCode::Esc => self.is_open = false,
            _ => {
                self.view.apply_key_event(key);
            }
        }
        Ok(())
    }

    fn is_open(&self) -> bool {
        self.is_open
    }

    // Draws the list and the text, each where its area is on a screen.
    fn draw<O: Out>(&mut self, alloc: Global, out: &mut O) -> Result<(), Error> {
        self.list.update_dimensions();
        if self.list.area.is_within_limits() {
            self.list.write_on(alloc, out)?;
        }
        if self.view.area().is_within_limits() {
            self.view.write_on(out)?;
        }
        Ok(())
    }
}
