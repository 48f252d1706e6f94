//! Text in pieces, whose rows go out leaf by leaf.

ghost use Rattle.std.specs.Prelude.{◌≡◌, ◌≤◌, ℕ, List, [], None, OnOk, IfOk, length, drop};
ghost use Rattle.markdown_stream.specs.Come.{Takes, sections_there};
ghost use Rattle.markdown_stream.specs.Streams.{IsInStep, Feeds, Finishes, IsPrompt, coming, still_fresh, Begins, LaysRows, TakesPiece, EndsText, Sends};

use crate::section_stream::SectionStream;
use mad_page_skin::PageSkin;
use mad_term::{Error, Out, put_counted};
use markdown_layout::append_sections;
use markdown_lines::texts::behind_mark;
use std::alloc::{AllocError, Global};
use std::mem::replace;

/// Markdown as people write it that comes in pieces. The rows of each leaf go out as soon as it ends.
///
/// A leaf is a paragraph, a heading, a table, code, html or a rule. It ends with a line that closes it, or before the one that doesn't go on
/// with it. So of a list or a quote all that is complete is shown, however long it is. A line is complete with its newline.
///
/// A link is told by a definition that came before it or with it. One that comes later doesn't change it, since its rows went out. For the rest
/// the rows are those of the whole text ([`known_is_written_whole`]). A byte order mark at the front of the text is left out. What goes out in
/// all is the same wherever the text was cut. It takes memory for the largest leaf, for the definitions, and for the rows of a piece.
///
/// [`known_is_written_whole`]: crate::laws::known_is_written_whole
#[derive(Drop)]
pub struct MarkdownStream {
    skin: PageSkin,
    width: Option<usize>,
    // Whether nothing came yet.
    fresh: bool,
    // What came so far, whose sections were laid out; nothing before the first piece.
    sections: Option<SectionStream>,
    // Rows that the device has yet to take.
    rows: Vec<u8>,
}

impl MarkdownStream {
    /// A text of which nothing has come, to be laid out in a skin at a width, in columns, if there is one.
    pub fn new(alloc: Global, skin: &PageSkin, width: Option<usize>) -> Self
        ensures start { IsInStep [] result [] }
        ensures prompt { IsPrompt result }
        ensures skin { result.skin ≡ skin.now }
        ensures width { result.width ≡ width }
    {
        MarkdownStream {
            skin: *skin,
            width,
            fresh: true,
            sections: None,
            rows: Vec::new(alloc),
        }
    }

    /// Takes the next piece of the text, and writes the rows of all leaves that are complete now. Nothing is flushed.
    ///
    /// # Errors
    ///
    /// A fault of the device: all of the piece was taken, and what went out is a beginning of the rows. One can go on, with the next piece or
    /// with an empty one, on the same device or another: nothing is lost, and nothing is written twice. Or out of memory, before the first
    /// byte; then the stream is of no use any more.
    pub fn feed<O: Out>(&mut self, alloc: Global, out: &mut O, piece: &str) -> Result<(), Error>
        ensures fed { Feeds self.old piece.now self.new (O.seen out.old) result (O.seen out.new) }
        ensures prompt { OnOk result (IsPrompt self.new) }
    {
        self.take(alloc, piece)?;
        self.send(out)
    }

    /// The text is at its end: writes the rows of what is left. Nothing is flushed.
    ///
    /// # Errors
    ///
    /// A fault of the device: what went out in all is a beginning of the rows. Or out of memory, before the first byte.
    pub fn finish<O: Out>(self, alloc: Global, out: &mut O) -> Result<(), Error>
        ensures { (read sent : List ℕ) → IsInStep read self sent → Finishes self.skin self.width read sent (O.seen out.old) result (O.seen out.new) }
    {
        let mut stream = self;
        stream.end_text(alloc)?;
        stream.send(out)
    }

    // Takes a piece. Nothing goes out.
    fn take(&mut self, alloc: Global, piece: &str) -> Result<(), AllocError>
        ensures { OnOk result (TakesPiece self.old piece.now self.new) }
    {
        let mut sections = self.begun(alloc)?;
        sections.feed(alloc, coming(self.fresh, piece))?;
        self.lay(alloc, &mut sections)?;
        self.fresh = still_fresh(self.fresh, piece);
        self.sections = Some(sections);
        Ok(())
    }

    // What has come is all.
    fn end_text(&mut self, alloc: Global) -> Result<(), AllocError>
        ensures { OnOk result (EndsText self.old self.new) }
    {
        let mut sections = self.begun(alloc)?;
        sections.end(alloc)?;
        self.lay(alloc, &mut sections)?;
        Ok(())
    }

    // What came so far.
    fn begun(&mut self, alloc: Global) -> Result<SectionStream, AllocError>
        ensures begun { IfOk result (λ sections. Begins self.old sections) }
        ensures same { self.new ≡ record self.old { sections = None } }
    {
        match replace(&mut self.sections, None) {
            Some(sections) => Ok(sections),
            None => SectionStream::new(alloc),
        }
    }

    // Sections that are there are laid out: their rows are kept.
    fn lay(&mut self, alloc: Global, sections: &mut SectionStream) -> Result<(), AllocError>
        ensures rows { OnOk result (LaysRows (sections_there sections.old) self.old self.new) }
        ensures takes { OnOk result (Takes sections.old sections.new) }
        ensures none { OnOk result (sections_there sections.new ≡ []) }
        ensures same { self.new ≡ record self.old { rows = self.new.rows } }
    {
        let read = sections.take(alloc)?;
        let mut rows = String::new(alloc);
        append_sections(alloc, &mut rows, read.sections(), self.width, &self.skin)?;
        self.rows.extend_from_slice(rows.as_bytes())?;
        Ok(())
    }

    // The rows go out. What the device doesn't take is kept.
    fn send<O: Out>(&mut self, out: &mut O) -> Result<(), Error>
        ensures sends { Sends self.old self.new (O.seen out.old) result (O.seen out.new) }
        ensures all { OnOk result (IsPrompt self.new) }
    {
        let (taken, put) = put_counted(out, &self.rows);
        drop_front(&mut self.rows, taken);
        match put {
            Ok(()) => Ok(()),
            Err(error) => Err(Error::IO(error)),
        }
    }
}

/// What a piece adds to a text behind its byte order mark: all of it, unless nothing came before.
pub fn coming(fresh: bool, piece: &str) -> &str
    ensures { result.now ≡ coming fresh piece.entry.now }
{
    if fresh { behind_mark(piece) } else { piece }
}

/// Whether nothing came yet, once this piece came.
pub fn still_fresh(fresh: bool, piece: &str) -> bool
    ensures { result ≡ still_fresh fresh piece.now }
{
    fresh && piece.is_empty()
}

// Drops the first bytes, `count` of them.
fn drop_front(bytes: &mut Vec<u8>, count: usize)
    requires { count ≤ length bytes.old.items }
    ensures { bytes.new.items ≡ drop count bytes.old.items }
{
    bytes.rotate_left(count);
    bytes.truncate(bytes.len() - count);
}
