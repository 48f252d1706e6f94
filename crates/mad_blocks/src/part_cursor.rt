//! The parts of a text, read and laid out one after another: tables, blocks of code, and any other line by itself.

ghost use Rattle.std.specs.Prelude.{◌≡◌, ◌++◌, ◌∷◌, [], true, false, None, IfOk, IsSome, OnOk, MatchOption};
ghost use Rattle.mad_md.specs.Lines.{content_of, contents, normal, styled_runs};
ghost use Rattle.mad_md.specs.Reading.{IsRead, resumed_text, unread_text};
ghost use Rattle.mad_md.specs.Scan.{lines_of};
ghost use Rattle.mad_blocks.specs.PartCursors.{lines_left, HasUnmarkedNext, IsNextLine, IsNextWhere, LaidPart, LaysPart, IsUnmarkedRead};
ghost use Rattle.mad_blocks.specs.TableCursors.{IsFirstTable, IsNextTable};
ghost use Rattle.mad_blocks.specs.TextParts.{is_code, is_table, is_text};
ghost use Rattle.mad_format.specs.declared.line.FmtLine.{FmtLine};

use crate::laying::{is_code_kind, push_block, push_read_at, table_width, wrap_width};
use crate::table_cursor::TableCursor;
use mad_format::{FmtComposite, FmtLine, LineSkin, put_line};
use mad_md::{Composite, Line, LineCursor, ParseOptions, Text};
use mad_style::CompositeKind;
use std::alloc::{AllocError, Global};
use std::vec::IntoIter;

/// A cursor over the parts of a text.
#[derive(Drop)]
pub struct PartCursor<'s> {
    lines: SourceLines<'s>,
    // The line that was read last, where the part before it doesn't go on with it.
    waiting: Option<Line<'s>>,
}

// The lines of a text, which are read on the way or were read before.
#[derive(Drop)]
enum SourceLines<'s> {
    Unread(LineCursor<'s>),
    Read(IntoIter<Line<'s>>),
}

impl<'s> PartCursor<'s> {
    /// A cursor before the first part of a Markdown text.
    pub fn new(src: &'s str) -> Self
        ensures start { lines_left result ≡ lines_of (unread_text false src.entry.now) }
        ensures reading { IsRead (unread_text false src.entry.now) (lines_left result) }
    {
        let cursor = LineCursor::new(src, ParseOptions::default());
        PartCursor {
            lines: SourceLines::Unread(cursor),
            waiting: None,
        }
    }

    /// A cursor before the first part of what is left of a Markdown text, where a fence is open before it or not.
    pub fn resumed(src: &'s str, fenced: bool) -> Self
        ensures { lines_left result ≡ lines_of (resumed_text fenced src.entry.now) }
    {
        PartCursor {
            lines: SourceLines::Unread(LineCursor::resumed(src, fenced)),
            waiting: None,
        }
    }

    /// A cursor before the first part of a text that was read.
    pub fn of_text(text: Text<'s>) -> Self
        ensures { lines_left result ≡ contents text.entry }
    {
        PartCursor {
            lines: SourceLines::Read(text.lines.into_iter()),
            waiting: None,
        }
    }

    /// Lays out the next part at a width in columns, if there is one, and puts its lines after those that are there. Says whether there
    /// was a part.
    ///
    /// A table is laid out at any width. Other lines are wrapped at one of three and more. Only out of memory is an error.
    pub fn lay_next<S: LineSkin>(
        &mut self,
        alloc: Global,
        lines: &mut Vec<FmtLine<'s>>,
        width: Option<usize>,
        skin: &S,
    ) -> Result<bool, AllocError>
        ensures { IfOk result (λ found. LaysPart (S.rules skin.now) width (lines_left self.old) lines.old.items found (lines_left self.new) lines.new.items) }
    {
        match self.next_line(alloc)? {
            Some(line) => {
                self.lay_part(alloc, lines, line, width, skin)?;
                Ok(true)
            }
            None => Ok(false),
        }
    }

    /// Reads the next line of a text that is read on the way, where no line waits and it is unmarked, of at most `most` bytes: see
    /// [`LineCursor::next_unmarked`]. Else nothing is read, and of a text that was read before nothing ever is. No memory is needed.
    pub fn next_unmarked(&mut self, most: usize) -> Option<&'s str>
        ensures read { MatchOption result (self.new ≡ self.old) (λ text. IsUnmarkedRead most (lines_left self.old) text.now (lines_left self.new)) }
        ensures found { IsSome result → HasUnmarkedNext most self.old }
        ensures none { result ≡ None → ¬ HasUnmarkedNext most self.old }
    {
        if self.waiting.is_some() {
            return None;
        }
        match &mut self.lines {
            SourceLines::Unread(cursor) => cursor.next_unmarked(most),
            SourceLines::Read(_) => None,
        }
    }

    /// Reads the next line, where it is a composite that isn't code; another one waits. Only out of memory is an error.
    pub fn next_text(&mut self, alloc: Global) -> Result<Option<Composite<'s>>, AllocError>
        ensures { IfOk result (λ next. IsNextWhere is_text (λ composite. normal (styled_runs composite)) (lines_left self.old) next (lines_left self.new)) }
    {
        match self.next_line(alloc)? {
            Some(Line::Normal(composite)) if !is_code_kind(CompositeKind::from(composite.style)) =>
                { Ok(Some(composite)) }
            other => {
                self.waiting = other;
                Ok(None)
            }
        }
    }

    /// Reads the next part, where it is a table, to be laid out line by line at a width in columns, if there is one. Else a line that was read
    /// waits. Only out of memory is an error.
    pub fn next_table<S: LineSkin>(
        &mut self,
        alloc: Global,
        width: Option<usize>,
        skin: &S,
    ) -> Result<Option<TableCursor<'s>>, AllocError>
        ensures { IfOk result (λ next. IsNextTable (S.rules skin.now) width (lines_left self.old) next (lines_left self.new)) }
    {
        match self.next_table_line(alloc)? {
            Some(first) => {
                let table = self.read_table(alloc, first, width, skin)?;
                Ok(Some(table))
            }
            None => Ok(None),
        }
    }

    // Lays out the part that begins with a line that was read.
    fn lay_part<S: LineSkin>(
        &mut self,
        alloc: Global,
        lines: &mut Vec<FmtLine<'s>>,
        line: Line<'s>,
        width: Option<usize>,
        skin: &S,
    ) -> Result<(), AllocError>
        ensures { OnOk result (LaidPart (S.rules skin.now) width (content_of line.entry ∷ lines_left self.old) lines.old.items (lines_left self.new) lines.new.items) }
    {
        match line {
            Line::Normal(composite) => self.lay_composite(alloc, lines, composite, width, skin),
            Line::HorizontalRule => put_line(lines, FmtLine::HorizontalRule),
            line => self.lay_table(alloc, lines, line, width, skin),
        }
    }

    // Lays out a composite that was read: the block of code that begins with it, or it alone.
    fn lay_composite<S: LineSkin>(
        &mut self,
        alloc: Global,
        lines: &mut Vec<FmtLine<'s>>,
        composite: Composite<'s>,
        width: Option<usize>,
        skin: &S,
    ) -> Result<(), AllocError>
        ensures { OnOk result (LaidPart (S.rules skin.now) width (normal (styled_runs composite.entry) ∷ lines_left self.old) lines.old.items (lines_left self.new) lines.new.items) }
    {
        if is_code_kind(CompositeKind::from(composite.style)) {
            self.lay_block(alloc, lines, composite, width, skin)
        } else {
            push_read_at(alloc, lines, composite, wrap_width(width), skin)
        }
    }

    // Lays out a block of code, whose first line was read.
    fn lay_block<S: LineSkin>(
        &mut self,
        alloc: Global,
        lines: &mut Vec<FmtLine<'s>>,
        first: Composite<'s>,
        width: Option<usize>,
        skin: &S,
    ) -> Result<(), AllocError>
        requires { is_code (normal (styled_runs first)) ≡ true }
        ensures { OnOk result (LaidPart (S.rules skin.now) width (normal (styled_runs first.entry) ∷ lines_left self.old) lines.old.items (lines_left self.new) lines.new.items) }
    {
        let mut block = Vec::new(alloc);
        block.push(FmtComposite::from(first, skin))?;
        while let Some(composite) = self.next_code(alloc)? {
            block.push(FmtComposite::from(composite, skin))?;
        }
        push_block(alloc, lines, block, width, skin)
    }

    // Lays out a table, whose first line was read.
    fn lay_table<S: LineSkin>(
        &mut self,
        alloc: Global,
        lines: &mut Vec<FmtLine<'s>>,
        first: Line<'s>,
        width: Option<usize>,
        skin: &S,
    ) -> Result<(), AllocError>
        requires { is_table (content_of first) ≡ true }
        ensures { OnOk result (LaidPart (S.rules skin.now) width (content_of first.entry ∷ lines_left self.old) lines.old.items (lines_left self.new) lines.new.items) }
    {
        let mut table = self.read_table(alloc, first, width, skin)?;
        while table.lay_next(alloc, lines, skin)? {}
        Ok(())
    }

    // The table that begins with a line that was read: its other lines are read too.
    fn read_table<S: LineSkin>(
        &mut self,
        alloc: Global,
        first: Line<'s>,
        width: Option<usize>,
        skin: &S,
    ) -> Result<TableCursor<'s>, AllocError>
        requires { is_table (content_of first) ≡ true }
        ensures { IfOk result (λ table. IsFirstTable (S.rules skin.now) width (content_of first.entry ∷ lines_left self.old) table (lines_left self.new)) }
    {
        let mut table = Vec::new(alloc);
        table.push(first)?;
        while let Some(line) = self.next_table_line(alloc)? {
            table.push(line)?;
        }
        TableCursor::new(alloc, table, table_width(width), skin)
    }

    // The next line where it is one of code; another one waits.
    fn next_code(&mut self, alloc: Global) -> Result<Option<Composite<'s>>, AllocError>
        ensures { IfOk result (λ next. IsNextWhere is_code (λ composite. normal (styled_runs composite)) (lines_left self.old) next (lines_left self.new)) }
    {
        match self.next_line(alloc)? {
            Some(Line::Normal(composite)) if is_code_kind(CompositeKind::from(composite.style)) => {
                Ok(Some(composite))
            }
            other => {
                self.waiting = other;
                Ok(None)
            }
        }
    }

    // The next line where it is one of a table; another one waits.
    fn next_table_line(&mut self, alloc: Global) -> Result<Option<Line<'s>>, AllocError>
        ensures { IfOk result (λ next. IsNextWhere is_table content_of (lines_left self.old) next (lines_left self.new)) }
    {
        match self.next_line(alloc)? {
            Some(line) if is_table_line(&line) => Ok(Some(line)),
            other => {
                self.waiting = other;
                Ok(None)
            }
        }
    }

    // The line that waits, or else the next one of the text.
    fn next_line(&mut self, alloc: Global) -> Result<Option<Line<'s>>, AllocError>
        ensures next { IfOk result (λ next. IsNextLine (lines_left self.old) next (lines_left self.new)) }
        ensures none { OnOk result (self.new.waiting ≡ None) }
    {
        if let Some(line) = self.waiting.take() {
            return Ok(Some(line));
        }
        match &mut self.lines {
            SourceLines::Unread(cursor) => cursor.next_line(alloc),
            SourceLines::Read(lines) => {
                let next = lines.next();
                if next.is_none() {
                    // Lines that were all read keep no memory.
                    *lines = Vec::new(alloc).into_iter();
                }
                Ok(next)
            }
        }
    }
}

// Whether a line that was read is a row of a table, or a rule across one.
fn is_table_line(line: &Line) -> bool
    ensures { result ≡ is_table (content_of line.now) }
{
    matches!(line, Line::TableRow(_) | Line::TableRule(_))
}
