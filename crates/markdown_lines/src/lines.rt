//! Lines of runs.

ghost use Rattle.std.specs.Prelude.{◌≡◌, ◌≤◌, ◌+◌, ◌==◌, true, [], ◌∷◌, ◌++◌, IfOk, OnOk, map, length, false, string_bytes};
ghost use Rattle.markdown_lines.specs.Glyphs.{glyph_of, runs_of};
ghost use Rattle.markdown_lines.specs.Leaf.{cell_runs};
ghost use Rattle.markdown_lines.specs.LinkNumbers.{after_links, cell_numbers};
ghost use Rattle.markdown_lines.specs.TableNumbers.{cells_numbers};
ghost use Rattle.markdown_cells.specs.Cells;
ghost use Rattle.markdown_cells.specs.Cells.{unbarred};
ghost use Rattle.markdown_lines.specs.Tables.{cells, cells_addresses};
ghost use Rattle.markdown_lines.specs.Links.{leaf_addresses};
ghost use Rattle.markdown_lines.specs.LinksOf.{defined_of};
ghost use Rattle.markdown_lines.specs.Lines.{line_said, range_of, line_within, all_within};
ghost use Rattle.std.specs.Prelude.{List, ℕ, IfSome, IsTrue, chars, drop, get_or};
ghost use Rattle.std.specs.Str.Lossy.{utf8_lossy};
ghost use Rattle.markdown_inlines.specs.Styled.{spelled_of, IsStyled};
ghost use Rattle.markdown_lines.specs.CutRows.{AreUnpictured, like, cut_rows, runs_row, whole_row, begun_rows, cut_numbers, piece_runs, piece_numbers, end_before, BeginsApart};
ghost use Rattle.markdown_lines.specs.declared.glyphs.Glyph.{Glyph};
ghost use Rattle.markdown_lines.specs.Restyled.{restyled};
ghost use Rattle.markdown_lines.specs.Printed.{ArePrinted};
ghost use Rattle.markdown_lines.specs.Said.{said, range_said};
ghost use Rattle.markdown_lines.specs.Steady.{steady_lines, AreSteadyLines};
ghost use Rattle.mad_md.specs.Flagged.{unflagged};
ghost use Rattle.mad_md.specs.Lines.{content_of, normal, table_row, table_rule, horizontal_rule};

use crate::glyphs::{Glyph, glyph_of};
use crate::leaf::read_cell;
use crate::links::Definitions;
use crate::numbers::push_number;
use crate::places::{RunFlags, RunRange};
use crate::runs::Runs;
use crate::text::make_line;
use mad_md::{Alignment, CompositeStyle, Line};
use markdown_cells::cells::{after_cell, cell_of, cell_text};
use markdown_inlines::styled::Styled;
use memchr::memchr;
use std::alloc::{AllocError, Global};

/// A line, and its runs.
#[derive(Debug, Drop)]
pub enum MarkdownLine {
    Normal(CompositeStyle, RunRange),
    /// A row of a table, by the runs of its cells.
    Row(Vec<RunRange>),
    Rule(Vec<Alignment>),
    HorizontalRule,
}

/// Lines, and the runs of all of them.
#[derive(Debug, Drop)]
pub struct Lines {
    runs: Runs,
    lines: Vec<MarkdownLine>,
    ghost within: { all_within (length (said runs)) lines.items ≡ true },
}

// Whether there is no backslash.
fn has_no_escape(cell: &[u8]) -> bool
    ensures { IsTrue result → (k : ℕ) → (get_or cell.now k 0 == 92) ≡ false }
{
    memchr(b'\\', cell).is_none()
}

// The text of a cell as it stands, where that has no backslash and is UTF-8.
fn plain_cell(cell: &[u8]) -> Option<&str>
    ensures { IfSome result (λ text. text.now ≡ utf8_lossy (unbarred [] false cell.entry.now)) }
{
    if !has_no_escape(cell) {
        return None;
    }
    let Ok(text) = str::from_utf8(cell) else {
        return None;
    };
    Some(text)
}

// The runs of a row.
fn range_of(line: &MarkdownLine) -> RunRange
    ensures { result ≡ range_of line.now }
{
    match line {
        MarkdownLine::Normal(_, range) => *range,
        MarkdownLine::Row(_) | MarkdownLine::Rule(_) | MarkdownLine::HorizontalRule => {
            RunRange { start: 0, count: 0 }
        }
    }
}

// Where the run before the one of this number ends.
pub(crate) fn end_of(styled: &Styled, index: usize) -> usize
    ensures { result ≡ end_before (drop index styled.now.runs.items) (string_bytes styled.now.text) }
{
    if index < styled.runs.as_slice().len() {
        styled.runs[index].start
    } else {
        styled.text.len()
    }
}

impl Lines {
    ghost use Rattle.markdown_lines.specs.Shown.{shown};

    /// No lines.
    pub fn new(alloc: Global) -> Lines
        ensures { shown result ≡ [] }
    {
        Lines {
            runs: Runs::new(alloc),
            lines: Vec::new(alloc),
        }
    }

    // Adds a line of runs that are there.
    fn add_line(&mut self, line: MarkdownLine) -> Result<(), AllocError>
        requires { line_within (length (said self.old.runs)) line ≡ true }
        ensures { OnOk result (shown self.new ≡ shown self.old ++ line_said (said self.old.runs) line ∷ []) }
    {
        self.lines.push(line)?;
        Ok(())
    }

    /// Adds a line of some runs.
    pub fn push_row(
        &mut self,
        style: CompositeStyle,
        from: &Runs,
        range: RunRange,
    ) -> Result<(), AllocError>
        ensures { OnOk result (shown self.new ≡ shown self.old ++ normal (record { style = style; runs = range_said (said from.now) range }) ∷ []) }
    {
        let start = self.runs.count();
        self.runs.add(from, range)?;
        let count = self.runs.count() - start;
        self.add_line(MarkdownLine::Normal(style, RunRange { start, count }))?;
        Ok(())
    }

    /// Adds a paragraph's line of these characters.
    pub fn push_glyphs(&mut self, alloc: Global, glyphs: &[Glyph]) -> Result<(), AllocError>
        ensures { OnOk result (shown self.new ≡ shown self.old ++ normal (record { style = CompositeStyle.Paragraph; runs = runs_of glyphs.now }) ∷ []) }
    {
        let start = self.runs.count();
        self.runs.push_glyphs(alloc, glyphs)?;
        let count = self.runs.count() - start;
        self.add_line(MarkdownLine::Normal(CompositeStyle::Paragraph, RunRange { start, count }))?;
        Ok(())
    }

    // Adds a run that looks like a character, and the number of its link; nothing where its text is empty.
    #[tactic(auto, using(crate::proofs::NumberLemmas::after_none))]
    fn push_piece(
        &mut self,
        numbers: &mut Vec<usize>,
        glyph: Glyph,
        text: &str,
    ) -> Result<(), AllocError>
        ensures lines { OnOk result (shown self.new ≡ shown self.old) }
        ensures runs { OnOk result (said self.new.runs ≡ said self.old.runs ++ piece_runs glyph text.now) }
        ensures numbers { OnOk result (numbers.new.items ≡ numbers.old.items ++ piece_numbers glyph text.now) }
    {
        if text.is_empty() {
            return Ok(());
        }
        push_number(numbers, 0, glyph.link)?;
        self.runs.push(glyph.flags, text)?;
        Ok(())
    }

    // Ends the row whose runs begin at this number. Says at which one those of the next row begin.
    fn end_row(&mut self, start: usize) -> Result<usize, AllocError>
        requires { start ≤ length (said self.old.runs) }
        ensures row { OnOk result (shown self.new ≡ shown self.old ++ runs_row (drop start (said self.old.runs)) ∷ []) }
        ensures runs { OnOk result (said self.new.runs ≡ said self.old.runs) }
        ensures next { IfOk result (λ next. next ≡ length (said self.old.runs)) }
    {
        let end = self.runs.count();
        let count = end - start;
        self.lines.push(MarkdownLine::Normal(
            CompositeStyle::Paragraph,
            RunRange { start, count },
        ))?;
        Ok(end)
    }

    // Adds a text that looks like a character to a row whose runs begin at this number: breaks cut it. Says at which one those of the last row begin.
    fn push_stretch(
        &mut self,
        numbers: &mut Vec<usize>,
        start: usize,
        glyph: Glyph,
        text: &str,
    ) -> Result<usize, AllocError>
        requires { start ≤ length (said self.old.runs) }
        ensures next { IfOk result (λ next. next ≤ length (said self.new.runs)) }
        ensures rows { IfOk result (λ next. (rest : List Glyph) → BeginsApart glyph rest → shown self.new ++ begun_rows (drop next (said self.new.runs)) (cut_rows rest) ≡ shown self.old ++ begun_rows (drop start (said self.old.runs)) (cut_rows (map (like glyph) (chars text.now) ++ rest))) }
        ensures numbers { OnOk result ((rest : List Glyph) → BeginsApart glyph rest → numbers.new.items ++ cut_numbers (cut_rows rest) ≡ numbers.old.items ++ cut_numbers (cut_rows (map (like glyph) (chars text.now) ++ rest))) }
    {
        let mut from = start;
        let mut rest = text;
        while let Some(at) = memchr(b'\n', rest.as_bytes()) {
            self.push_piece(numbers, glyph, &rest[..at])?;
            from = self.end_row(from)?;
            rest = &rest[at + 1..];
        }
        self.push_piece(numbers, glyph, rest)?;
        Ok(from)
    }

    /// Adds a paragraph's line for each row of a text of runs. No picture says any of it.
    pub(crate) fn push_styled(
        &mut self,
        numbers: &mut Vec<usize>,
        styled: &Styled,
    ) -> Result<(), AllocError>
        requires styled { IsStyled styled.now }
        requires unpictured { AreUnpictured styled.now.runs.items }
        ensures rows { OnOk result (shown self.new ≡ shown self.old ++ map whole_row (cut_rows (map (glyph_of false) (spelled_of styled.now)))) }
        ensures numbers { OnOk result (numbers.new.items ≡ numbers.old.items ++ cut_numbers (cut_rows (map (glyph_of false) (spelled_of styled.now)))) }
    {
        let mut start = self.runs.count();
        let mut index = 0;
        while index < styled.runs.as_slice().len() {
            let run = styled.runs[index];
            let end = end_of(styled, index + 1);
            let glyph = glyph_of(false, &run.look, ' ');
            let text = &styled.text.as_str()[run.start..end];
            start = self.push_stretch(numbers, start, glyph, text)?;
            index += 1;
        }
        self.end_row(start)?;
        Ok(())
    }

    /// Adds a line without text.
    pub fn push_empty(&mut self, style: CompositeStyle) -> Result<(), AllocError>
        ensures { OnOk result (shown self.new ≡ shown self.old ++ normal (record { style = style; runs = [] }) ∷ []) }
    {
        self.add_line(MarkdownLine::Normal(style, RunRange { start: 0, count: 0 }))?;
        Ok(())
    }

    /// Adds a line of one run without flags.
    pub fn push_text(&mut self, style: CompositeStyle, text: &str) -> Result<(), AllocError>
        ensures { OnOk result (shown self.new ≡ shown self.old ++ normal (record { style = style; runs = record { flags = unflagged; text = text.now } ∷ [] }) ∷ []) }
    {
        let start = self.runs.count();
        self.runs.push(RunFlags::NONE, text)?;
        self.add_line(MarkdownLine::Normal(style, RunRange { start, count: 1 }))?;
        Ok(())
    }

    /// How many they are.
    pub fn count(&self) -> usize
        ensures { result ≡ length (shown self.now) }
    {
        self.lines.as_slice().len()
    }

    /// Whether there are none.
    pub fn is_empty(&self) -> bool
        ensures { result ≡ (length (shown self.now) == 0) }
    {
        self.lines.as_slice().is_empty()
    }

    /// Adds a line for each of these rows, the first of them in its own style.
    pub fn push_rows(
        &mut self,
        first: CompositeStyle,
        others: CompositeStyle,
        rows: &Lines,
    ) -> Result<(), AllocError>
        ensures { OnOk result (shown self.new ≡ shown self.old ++ restyled first others (shown rows.now)) }
    {
        let mut style = first;
        let mut index = 0;
        while index < rows.lines.as_slice().len() {
            let range = range_of(&rows.lines[index]);
            self.push_row(style, &rows.runs, range)?;
            style = others;
            index += 1;
        }
        Ok(())
    }

    // Adds the runs of a cell with this text, and says which they are. It also adds where its links lead, and their numbers.
    fn push_cell_text(
        &mut self,
        alloc: Global,
        addresses: &mut Vec<String>,
        numbers: &mut Vec<usize>,
        before: usize,
        definitions: &Definitions,
        bold: bool,
        text: &str,
    ) -> Result<RunRange, AllocError>
        ensures runs { OnOk result (said self.new.runs ≡ said self.old.runs ++ cell_runs (defined_of definitions.now).labels bold text.now) }
        ensures lines { self.new.lines ≡ self.old.lines }
        ensures range { IfOk result (λ range. range ≡ record { start = length (said self.old.runs); count = length (cell_runs (defined_of definitions.now).labels bold text.now) }) }
        ensures addresses { OnOk result (map string_bytes addresses.new.items ≡ map string_bytes addresses.old.items ++ leaf_addresses (defined_of definitions.now) text.now) }
        ensures numbers { OnOk result (numbers.new.items ≡ numbers.old.items ++ after_links (length addresses.old.items + before) (cell_numbers (defined_of definitions.now).labels bold text.now)) }
    {
        let start = self.runs.count();
        read_cell(
            alloc,
            &mut self.runs,
            addresses,
            numbers,
            before,
            definitions,
            bold,
            text,
        )?;
        let end = self.runs.count();
        let count = end - start;
        Ok(RunRange { start, count })
    }

    // The same of the first cell of a row.
    fn push_first_cell(
        &mut self,
        alloc: Global,
        addresses: &mut Vec<String>,
        numbers: &mut Vec<usize>,
        before: usize,
        definitions: &Definitions,
        bold: bool,
        row: &[u8],
    ) -> Result<RunRange, AllocError>
        ensures runs { OnOk result (said self.new.runs ≡ said self.old.runs ++ cell_runs (defined_of definitions.now).labels bold (Cells.cell_text row.now)) }
        ensures lines { self.new.lines ≡ self.old.lines }
        ensures range { IfOk result (λ range. range ≡ record { start = length (said self.old.runs); count = length (cell_runs (defined_of definitions.now).labels bold (Cells.cell_text row.now)) }) }
        ensures addresses { OnOk result (map string_bytes addresses.new.items ≡ map string_bytes addresses.old.items ++ leaf_addresses (defined_of definitions.now) (Cells.cell_text row.now)) }
        ensures numbers { OnOk result (numbers.new.items ≡ numbers.old.items ++ after_links (length addresses.old.items + before) (cell_numbers (defined_of definitions.now).labels bold (Cells.cell_text row.now))) }
    {
        let cell = cell_of(row);
        match plain_cell(cell) {
            Some(plain) => {
                let found = self.push_cell_text(
                    alloc,
                    addresses,
                    numbers,
                    before,
                    definitions,
                    bold,
                    plain,
                )?;
                Ok(found)
            }
            None => {
                let bytes = cell_text(alloc, cell)?;
                let text = String::from_utf8_lossy(alloc, bytes.as_slice())?;
                let range = self.push_cell_text(
                    alloc,
                    addresses,
                    numbers,
                    before,
                    definitions,
                    bold,
                    text.as_str(),
                )?;
                Ok(range)
            }
        }
    }

    /// Adds a row of a table, and says where its links lead. It also adds the number of its link for each run that belongs to one: so many links of the
    /// table come before.
    ///
    /// # Errors
    ///
    /// Out of memory, which a number past `usize::MAX` is too.
    pub fn push_table_row(
        &mut self,
        alloc: Global,
        numbers: &mut Vec<usize>,
        before: usize,
        definitions: &Definitions,
        columns: usize,
        bold: bool,
        row: &[u8],
    ) -> Result<Vec<String>, AllocError>
        ensures row { OnOk result (shown self.new ≡ shown self.old ++ table_row (cells (defined_of definitions.now).labels bold columns row.now) ∷ []) }
        ensures addresses { IfOk result (λ addresses. map string_bytes addresses.items ≡ cells_addresses (defined_of definitions.now) columns row.now) }
        ensures numbers { OnOk result (numbers.new.items ≡ numbers.old.items ++ cells_numbers (defined_of definitions.now) bold before columns row.now) }
    {
        let mut addresses = Vec::new(alloc);
        let mut ranges = Vec::with_capacity(alloc, columns)?;
        let mut rest = row;
        let mut more = columns;
        while more > 0 {
            let range = self.push_first_cell(
                alloc,
                &mut addresses,
                numbers,
                before,
                definitions,
                bold,
                rest,
            )?;
            ranges.push(range)?;
            rest = after_cell(rest);
            more -= 1;
        }
        self.add_line(MarkdownLine::Row(ranges))?;
        Ok(addresses)
    }

    /// Adds a rule of a table.
    pub fn push_table_rule(
        &mut self,
        alloc: Global,
        alignments: &[Alignment],
    ) -> Result<(), AllocError>
        ensures { OnOk result (shown self.new ≡ shown self.old ++ table_rule alignments.now ∷ []) }
    {
        let rule = Vec::from_slice(alloc, alignments)?;
        self.add_line(MarkdownLine::Rule(rule))?;
        Ok(())
    }

    /// Adds a rule across the page.
    pub fn push_horizontal_rule(&mut self) -> Result<(), AllocError>
        ensures { OnOk result (shown self.new ≡ shown self.old ++ horizontal_rule ∷ []) }
    {
        self.add_line(MarkdownLine::HorizontalRule)?;
        Ok(())
    }

    /// The same lines, each of whose runs is steady: terminals count its columns as this project does.
    ///
    /// # Errors
    ///
    /// Out of memory is the only error.
    pub fn into_steady(self, alloc: Global) -> Result<Lines, AllocError>
        ensures lines { IfOk result (λ made. shown made ≡ steady_lines (shown self)) }
        ensures steady { IfOk result (λ made. AreSteadyLines (shown made)) }
        ensures printed { IfOk result (λ made. ArePrinted (shown self) → ArePrinted (shown made)) }
    {
        let runs = self.runs.steady(alloc)?;
        Ok(Lines {
            runs,
            lines: self.lines,
        })
    }

    /// The lines as the library has them.
    pub fn text_lines(&self, alloc: Global) -> Result<Vec<Line<'_>>, AllocError>
        ensures { IfOk result (λ made. map content_of made.items ≡ shown self.now) }
    {
        let mut made = Vec::with_capacity(alloc, self.lines.as_slice().len())?;
        let mut index = 0;
        while index < self.lines.as_slice().len() {
            let line = make_line(alloc, &self.runs, &self.lines[index])?;
            made.push(line)?;
            index += 1;
        }
        Ok(made)
    }
}
