//! A text that comes in pieces, as sections.

ghost use Rattle.std.specs.Prelude.{◌≡◌, ◌≤◌, ◌++◌, [], IfOk, OnOk, length, string_bytes};
ghost use Rattle.markdown_blocks.specs.Steps.{state_of, line_of};
ghost use Rattle.markdown_reader.specs.MarkdownSays.{markdown_says};
ghost use Rattle.markdown_reader.specs.Steady.{steady_sections};
ghost use Rattle.markdown_stream.specs.Come.{HasCome, Comes, Takes, Ends, sections_there};
ghost use Rattle.markdown_stream.specs.Held.{streaming_of};
ghost use Rattle.markdown_stream.specs.OpenSections.{open_sections};
ghost use Rattle.markdown_stream.specs.Streaming.{nothing_come, line_come, text_come, end_shown, gathered, taken_now, is_text, goes_on};

use crate::ahead::{ended_parts, read_all_ahead};
use crate::open_leaf::OpenLeaf;
use crate::showing::Showing;
use mad_stream::cut_line as cut_source_line;
use markdown_blocks::lines::cut_line;
use markdown_blocks::{BlockReader, Deed, LineRead};
use markdown_leaves::Kind;
use markdown_reader::Markdown;
use std::alloc::{AllocError, Global};
use std::mem::replace;

/// Markdown that comes in pieces, as sections. A leaf is shown as soon as it ends, and a container as soon as it begins or ends.
///
/// It keeps the lines of the open leaf, the line that has begun, the definitions so far, and what is shown until it is taken. Out of memory is
/// the only error of its methods, and it is of no use after one.
#[derive(Drop)]
pub struct SectionStream {
    reader: BlockReader,
    leaf: OpenLeaf,
    showing: Showing,
    // The line whose newline hasn't come.
    line: String,
}

impl SectionStream {
    /// A text of which nothing has come.
    ///
    /// # Errors
    ///
    /// Out of memory.
    pub fn new(alloc: Global) -> Result<SectionStream, AllocError>
        ensures come { IfOk result (λ stream. HasCome [] [] [] stream) }
        ensures empty { IfOk result (λ stream. sections_there stream ≡ []) }
    {
        let showing = Showing::new(alloc)?;
        Ok(SectionStream {
            reader: BlockReader::new(alloc),
            leaf: OpenLeaf::none(alloc),
            showing,
            line: String::new(alloc),
        })
    }

    /// Takes the next piece of the text. What its lines complete is there to be taken then.
    ///
    /// # Errors
    ///
    /// Out of memory.
    pub fn feed(&mut self, alloc: Global, text: &str) -> Result<(), AllocError>
        ensures { OnOk result (Comes self.old text.now self.new) }
    {
        let mut rest = text;
        while let Some((line, after)) = cut_source_line(rest) {
            self.end_line(alloc, line)?;
            rest = after;
        }
        self.line.push_str(rest)?;
        Ok(())
    }

    /// The text is at its end: the rest of what it shows is there to be taken. Then nothing more can come.
    ///
    /// # Errors
    ///
    /// Out of memory.
    pub fn end(&mut self, alloc: Global) -> Result<(), AllocError>
        ensures { OnOk result (Ends self.old self.new) }
    {
        self.end_line(alloc, "")?;
        self.end_leaves(alloc)?;
        Ok(())
    }

    /// Takes what is there. The numbers of its links count from its own first section.
    ///
    /// # Errors
    ///
    /// Out of memory.
    pub fn take(&mut self, alloc: Global) -> Result<Markdown, AllocError>
        ensures sections { IfOk result (λ read. markdown_says read ≡ steady_sections (sections_there self.old)) }
        ensures rest { OnOk result (Takes self.old self.new) }
        ensures empty { OnOk result (sections_there self.new ≡ []) }
    {
        let read = self.showing.take(alloc)?;
        Ok(read)
    }

    /// The line that has begun: what came behind the last newline.
    pub fn begun_line(&self) -> &[u8]
        ensures { result.now ≡ string_bytes self.now.line }
    {
        self.line.as_bytes()
    }

    /// What the leaf is that is open after the last newline.
    pub fn open_kind(&self) -> Kind
        ensures { result ≡ (streaming_of self.now).reading.gathering.kind }
    {
        self.leaf.kind()
    }

    /// What the leaf that is open shows, if the text ends with this in place of the line that has begun. A definition counts once its leaf is
    /// complete. Nothing is taken.
    ///
    /// # Errors
    ///
    /// Out of memory.
    pub fn read_open<'t>(&'t self, alloc: Global, end: &'t [u8]) -> Result<Markdown, AllocError>
        ensures { IfOk result (λ read. markdown_says read ≡ steady_sections (open_sections end.entry.now (streaming_of self.entry.now))) }
    {
        let mut reader = self.reader.copied(alloc)?;
        let mut gatherer = self.leaf.gatherer(alloc)?;
        read_all_ahead(alloc, &mut reader, &mut gatherer, end)?;
        let parts = ended_parts(alloc, &reader, gatherer)?;
        self.showing.read_next(alloc, &parts)
    }

    // The line that has begun ends so.
    fn end_line(&mut self, alloc: Global, end: &str) -> Result<(), AllocError>
        ensures line { OnOk result (string_bytes self.new.line ≡ []) }
        ensures come { OnOk result (streaming_of self.new ≡ text_come (string_bytes self.old.line ++ end.now) (streaming_of self.old)) }
    {
        self.line.push_str(end)?;
        let line = replace(&mut self.line, String::new(alloc));
        self.read_lines(alloc, line.as_bytes())?;
        Ok(())
    }

    // Reads the lines of a text, and shows the parts that they complete: a return alone ends a line, too.
    fn read_lines(&mut self, alloc: Global, text: &[u8]) -> Result<(), AllocError>
        ensures come { OnOk result (streaming_of self.new ≡ text_come text.now (streaming_of self.old)) }
        ensures line { self.new.line ≡ self.old.line }
    {
        let mut rest = text;
        while !rest.is_empty() {
            let (line, after) = cut_line(rest);
            self.read_line(alloc, line)?;
            rest = after;
        }
        Ok(())
    }

    // Reads a line, which is without its end.
    fn read_line(&mut self, alloc: Global, line: &[u8]) -> Result<(), AllocError>
        ensures come { OnOk result (streaming_of self.new ≡ line_come line.now (streaming_of self.old)) }
        ensures line { self.new.line ≡ self.old.line }
    {
        let before = self.reader.containers().len();
        let read = self.reader.read_line(line)?;
        if goes_on(before, read) {
            self.leaf.push(alloc, read.text)?;
            return Ok(());
        }
        self.gather(alloc, before, read)?;
        Ok(())
    }

    // A line was read, before which `before` containers were open.
    fn gather(&mut self, alloc: Global, before: usize, read: LineRead<'_>) -> Result<(), AllocError>
        requires fewer { read.kept ≤ before }
        requires within { read.kept ≤ length (state_of self.old.reader).containers }
        ensures come { OnOk result (streaming_of self.new ≡ gathered before (line_of read.entry) (streaming_of self.old)) }
        ensures line { self.new.line ≡ self.old.line }
    {
        let mut gatherer = self.leaf.gatherer(alloc)?;
        gatherer.read(alloc, before, self.reader.containers(), read)?;
        self.showing.show_all(alloc, &gatherer.parts)?;
        let leaf = OpenLeaf::of(alloc, gatherer)?;
        self.leaf = leaf;
        Ok(())
    }

    // All that is open ends.
    fn end_leaves(&mut self, alloc: Global) -> Result<(), AllocError>
        ensures { OnOk result ((streaming_of self.new).streamed ≡ end_shown (streaming_of self.old)) }
    {
        let mut gatherer = self.leaf.gatherer(alloc)?;
        gatherer.leave_all(alloc, self.reader.containers().len())?;
        gatherer.close(alloc)?;
        self.showing.show_all(alloc, &gatherer.parts)?;
        Ok(())
    }
}

// Whether a line has nothing but more text of the open leaf.
fn is_text(deed: Deed) -> bool
    ensures { result ≡ is_text deed }
{
    matches!(deed, Deed::GoesOn)
}

// Whether a line goes on with the open leaf, and no container begins or ends.
fn goes_on(before: usize, read: LineRead<'_>) -> bool
    ensures { result ≡ goes_on before (line_of read.entry) }
{
    read.kept == before && read.opened == 0 && is_text(read.deed)
}
