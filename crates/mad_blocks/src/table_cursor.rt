//! A table whose lines are laid out one after another, so that only those are kept that its text has.

ghost use Rattle.std.specs.Prelude.{◌≡◌, List, IfOk, map};
ghost use Rattle.mad_md.specs.Lines.{content_of};
ghost use Rattle.mad_format.specs.CompositeWraps.{IsCompositeWrap};
ghost use Rattle.mad_format.specs.declared.line.FmtLine.{FmtLine};
ghost use Rattle.mad_blocks.specs.Layouts.{AreRead};
ghost use Rattle.mad_blocks.specs.TableCursors.{LaysTableLine, TableBecomes};
ghost use Rattle.mad_blocks.specs.Tables.{columns_count, IsTableLaidOutBy};

use crate::table_columns::{centered, columns_among, columns_from, read_widths};
use crate::table_layout::{position_at, push_table_line};
use mad_format::{FmtLine, LineSkin, put_line};
use mad_md::Line;
use mad_measure::Spacing;
use std::alloc::{AllocError, Global};
use std::mem;
use std::vec::IntoIter;

/// The lines of a table that are left, in its columns.
#[derive(Drop)]
pub struct TableCursor<'s> {
    lines: IntoIter<Line<'s>>,
    // In a table without columns, or without width, the lines stay as they are.
    stays: bool,
    widths: Vec<usize>,
    // How cells are placed in the columns below the lines that were laid out.
    columns: Vec<Spacing>,
    first: bool,
}

impl<'s> TableCursor<'s> {
    /// All lines of a table that was read, at a width in columns. Only out of memory is an error.
    pub(crate) fn new<S: LineSkin>(
        alloc: Global,
        table: Vec<Line<'s>>,
        width: usize,
        skin: &S,
    ) -> Result<Self, AllocError>
        ensures { IfOk result (λ cursor. (lines : List FmtLine) → TableBecomes (S.rules skin.now) cursor lines
            → (read : List FmtLine) × AreRead (S.rules skin.now) (map content_of table.entry.items) read × IsTableLaidOutBy IsCompositeWrap (S.rules skin.now) (columns_count read) width read lines) }
    {
        let nbcols = columns_among(&table);
        if nbcols == 0 || width == 0 {
            return Ok(TableCursor {
                lines: table.into_iter(),
                stays: true,
                widths: Vec::new(alloc),
                columns: Vec::new(alloc),
                first: true,
            });
        }
        let widths = read_widths(alloc, &table, nbcols, width, skin)?;
        let columns = centered(alloc, &widths)?;
        Ok(TableCursor {
            lines: table.into_iter(),
            stays: false,
            widths,
            columns,
            first: true,
        })
    }

    /// Lays out the next line, and puts what it becomes after the lines that are there. Says whether there was one.
    ///
    /// Only out of memory is an error. Then nothing is to be asked of the table any more.
    pub fn lay_next<S: LineSkin>(
        &mut self,
        alloc: Global,
        lines: &mut Vec<FmtLine<'s>>,
        skin: &S,
    ) -> Result<bool, AllocError>
        ensures { IfOk result (λ found. LaysTableLine (S.rules skin.now) self.old lines.old.items found self.new lines.new.items) }
    {
        let Some(read) = self.lines.next() else {
            return Ok(false);
        };
        let line = FmtLine::from(alloc, read, skin)?;
        if self.stays {
            put_line(lines, line)?;
            return Ok(true);
        }
        let position = position_at(self.first, self.lines.len() == 0);
        let above = mem::replace(&mut self.columns, Vec::new(alloc));
        self.columns = columns_from(alloc, &self.widths, above, &line)?;
        self.first = false;
        push_table_line(alloc, lines, line, &self.columns, position, skin)?;
        Ok(true)
    }
}
