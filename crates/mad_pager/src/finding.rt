//! What is sought in a text, and its headers.

ghost use Rattle.std.specs.Prelude.{◌≡◌, IfOk, OnOk, Option};
ghost use Rattle.mad_pager.specs.Sessions.{at_found, at_header, forgotten, search_end, search_start, state_of, HasSameText, IsFound, IsRowAfter, IsRowBefore};
ghost use Rattle.mad_search.specs.Headers.{next_header, previous_header};

use crate::session::Session;
use mad_patterns::{Sought, next_row_in, previous_row_in};
use mad_search::{next_header, previous_header};
use std::alloc::{AllocError, Global};

impl Session<'_> {
    // Shows the next row that has a hit, or, backwards, the row before.
    pub(crate) fn find(&mut self, alloc: Global, backward: bool) -> Result<(), AllocError>
        ensures found { OnOk result (IsFound backward (state_of self.old) (state_of self.new)) }
        ensures text { OnOk result (HasSameText self.old self.new) }
    {
        if backward {
            let row = self.row_before(alloc)?;
            self.show_found(row);
            return Ok(());
        }
        let row = self.row_after(alloc)?;
        self.show_found(row);
        Ok(())
    }

    // Shows the row that a search found, if it found one.
    fn show_found(&mut self, row: Option<usize>)
        ensures shown { state_of self.new ≡ at_found row (state_of self.old) }
        ensures text { HasSameText self.old self.new }
    {
        match row {
            Some(row) => {
                self.page.show_row(row);
                self.found = Some(row);
                self.is_missing = false;
            }
            None => self.is_missing = !self.sought.is_empty(),
        }
    }

    // The next row that has a hit: after the one found last, where that is on the screen, and else from the top on.
    fn row_after(&self, alloc: Global) -> Result<Option<usize>, AllocError>
        ensures { IfOk result (IsRowAfter (state_of self.now).reading.pattern (state_of self.now)) }
    {
        let from = self.search_start();
        let Some(pattern) = self.reading.pattern() else {
            return Ok(None);
        };
        let row = next_row_in(
            alloc,
            self.laid.lines.as_slice(),
            self.laid.parts.as_slice(),
            pattern,
            from,
        )?;
        Ok(row)
    }

    // The row before that has one: before the one found last, where that is on the screen, and else before the top.
    fn row_before(&self, alloc: Global) -> Result<Option<usize>, AllocError>
        ensures { IfOk result (IsRowBefore (state_of self.now).reading.pattern (state_of self.now)) }
    {
        let end = self.search_end();
        let Some(pattern) = self.reading.pattern() else {
            return Ok(None);
        };
        let row = previous_row_in(
            alloc,
            self.laid.lines.as_slice(),
            self.laid.parts.as_slice(),
            pattern,
            end,
        )?;
        Ok(row)
    }

    // The first row that a search looks at.
    fn search_start(&self) -> usize
        ensures { result ≡ search_start (state_of self.now) }
    {
        match self.found {
            Some(row) if self.page.shows_row(row) => row.saturating_add(1),
            _ => self.page.top,
        }
    }

    // The row before which one backwards looks.
    fn search_end(&self) -> usize
        ensures { result ≡ search_end (state_of self.now) }
    {
        match self.found {
            Some(row) if self.page.shows_row(row) => row,
            _ => self.page.top,
        }
    }

    // Forgets what is sought.
    pub(crate) fn forget(&mut self)
        ensures done { state_of self.new ≡ forgotten (state_of self.old) }
        ensures text { HasSameText self.old self.new }
    {
        self.sought.clear();
        self.reading = Sought::Nothing;
        self.found = None;
        self.is_missing = false;
    }

    // Puts the next header on top, if there is one.
    pub(crate) fn go_to_next_header(&mut self)
        ensures done { state_of self.new ≡ at_header (next_header self.old.laid.lines.items self.old.laid.starts.items self.old.page.top) (state_of self.old) }
        ensures text { HasSameText self.old self.new }
    {
        let row = self.header_after();
        self.put_on_top(row);
    }

    // Puts the header before on top, if there is one.
    pub(crate) fn go_to_previous_header(&mut self)
        ensures done { state_of self.new ≡ at_header (previous_header self.old.laid.lines.items self.old.laid.starts.items self.old.page.top) (state_of self.old) }
        ensures text { HasSameText self.old self.new }
    {
        let row = self.header_before();
        self.put_on_top(row);
    }

    // The next header, below the top row.
    fn header_after(&self) -> Option<usize>
        ensures { result ≡ next_header self.now.laid.lines.items self.now.laid.starts.items self.now.page.top }
    {
        next_header(
            self.laid.lines.as_slice(),
            self.laid.starts.as_slice(),
            self.page.top,
        )
    }

    // The header before, above the top row.
    fn header_before(&self) -> Option<usize>
        ensures { result ≡ previous_header self.now.laid.lines.items self.now.laid.starts.items self.now.page.top }
    {
        previous_header(
            self.laid.lines.as_slice(),
            self.laid.starts.as_slice(),
            self.page.top,
        )
    }

    // Puts a row on top, if there is one.
    pub(crate) fn put_on_top(&mut self, row: Option<usize>)
        ensures done { state_of self.new ≡ at_header row (state_of self.old) }
        ensures text { HasSameText self.old self.new }
    {
        match row {
            Some(row) => self.page.top = row,
            None => {}
        }
    }
}
