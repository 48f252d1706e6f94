//! Text in pieces on a terminal that scrolls: the leaf that is growing is shown too, and redrawn in place.

ghost use Rattle.std.specs.Prelude.{◌≡◌, ◌⊎◌, [], IfOk, OnOk, OnErr, IsErrOf, MatchResult, string_bytes};
ghost use Rattle.mad_term.specs.declared.errors.Error.TheVariants.{Memory};
ghost use Rattle.markdown_live.specs.LiveMarkdowns.{ArePageRows, StartsLive, TakesPiece, ShowsLeft, FeedsLive, KeepsLive, GoesOnBelow, EndsLive, HasLastRows, growing_now};

use crate::page_rows::{own_rows, page_rows, without_last};
use crate::shown_lines::shown_line;
use mad_live::LiveRows;
use mad_page_skin::PageSkin;
use mad_term::{Error, Out};
use markdown_reader::Markdown;
use markdown_stream::{SectionStream, coming, still_fresh};
use std::alloc::{AllocError, Global};

/// Markdown as people write it that comes in pieces, on a terminal that scrolls. Its rows are shown as far as it has come.
///
/// The rows of a leaf are done as soon as it ends, in quotes and items too: they scroll off and stay. Those of the leaf that is growing are
/// redrawn in place. Of these only the last ones are shown, as many as the screen has, until the leaf ends: rows that scrolled off can't be changed.
/// Of the line that has begun what decides nothing yet is kept back ([`shown_line`](crate::shown_line)).
///
/// A link is told by a definition that came before it or with it. At the end the terminal has the rows that
/// [`MarkdownStream`](markdown_stream::MarkdownStream) writes. The text's width is at most the terminal's columns less one, and nothing else writes on
/// the terminal.
#[derive(Drop)]
pub struct LiveMarkdown {
    skin: PageSkin,
    width: Option<usize>,
    // Whether nothing came yet.
    fresh: bool,
    // What came so far, whose sections were taken.
    sections: SectionStream,
    // Sections that are complete, and whose rows aren't shown as done.
    unshown: Vec<Markdown>,
    rows: LiveRows,
}

impl LiveMarkdown {
    /// A text of which nothing has come, to be laid out in a skin at a width, in columns, if there is one, on a screen that has `height` rows. The
    /// cursor is at the beginning of a blank row, below which all is blank.
    ///
    /// # Errors
    ///
    /// Out of memory.
    pub fn new(
        alloc: Global,
        skin: &PageSkin,
        width: Option<usize>,
        height: usize,
    ) -> Result<Self, AllocError>
        ensures start { IfOk result (λ live. StartsLive live) }
        ensures skin { IfOk result (λ live. live.skin ≡ skin.now) }
        ensures width { IfOk result (λ live. live.width ≡ width) }
        ensures height { IfOk result (λ live. live.rows.height ≡ height) }
    {
        let sections = SectionStream::new(alloc)?;
        Ok(LiveMarkdown {
            skin: *skin,
            width,
            fresh: true,
            sections,
            unshown: Vec::new(alloc),
            rows: LiveRows::new(alloc, height),
        })
    }

    /// Takes the next piece of the text, and shows the text so far. Nothing is flushed.
    ///
    /// # Errors
    ///
    /// A fault of the device: all of the piece was taken, and a front of the bytes that show the text so far. No row more counts as shown. Then
    /// [`LiveMarkdown::go_on_below`] goes on. Or out of memory, before anything was written; then the text is of no use any more.
    pub fn feed<O: Out>(&mut self, alloc: Global, out: &mut O, piece: &str) -> Result<(), Error>
        ensures fed { FeedsLive self.old piece.now self.new (O.seen out.old) result (O.seen out.new) ⊎ IsErrOf result Memory }
        ensures early { IsErrOf result Memory → O.seen out.new ≡ O.seen out.old }
        ensures kept { OnErr result (KeepsLive self.old piece.now self.new ⊎ IsErrOf result Memory) }
        ensures skin { self.new.skin ≡ self.old.skin }
        ensures width { self.new.width ≡ self.old.width }
        ensures height { self.new.rows.height ≡ self.old.rows.height }
    {
        if self.take(alloc, piece).is_err() {
            return Err(Error::Memory);
        }
        self.show(alloc, out)
    }

    // Takes a piece. Nothing goes out.
    fn take(&mut self, alloc: Global, piece: &str) -> Result<(), AllocError>
        ensures takes { OnOk result (TakesPiece self.old piece.now self.new) }
        ensures skin { self.new.skin ≡ self.old.skin }
        ensures width { self.new.width ≡ self.old.width }
        ensures rows { self.new.rows ≡ self.old.rows }
    {
        self.sections.feed(alloc, coming(self.fresh, piece))?;
        self.fresh = still_fresh(self.fresh, piece);
        let read = self.sections.take(alloc)?;
        self.unshown.push(read)?;
        Ok(())
    }

    // Shows the text so far.
    fn show<O: Out>(&mut self, alloc: Global, out: &mut O) -> Result<(), Error>
        ensures shows { ShowsLeft self.old self.new (O.seen out.old) result (O.seen out.new) ⊎ IsErrOf result Memory }
        ensures early { IsErrOf result Memory → O.seen out.new ≡ O.seen out.old }
        ensures err { OnErr result (self.new ≡ self.old) }
        ensures skin { self.new.skin ≡ self.old.skin }
        ensures width { self.new.width ≡ self.old.width }
        ensures height { self.new.rows.height ≡ self.old.rows.height }
    {
        let Ok(done) = page_rows(alloc, &self.unshown, self.width, &self.skin) else {
            return Err(Error::Memory);
        };
        let Ok(growing) = self.growing_rows(alloc) else {
            return Err(Error::Memory);
        };
        let rows = without_last(growing.as_bytes());
        match self.rows.show(alloc, out, done.as_bytes(), rows) {
            Ok(()) => {
                self.unshown.clear();
                Ok(())
            }
            Err(error) => Err(error),
        }
    }

    // The rows of what is growing.
    fn growing_rows(&self, alloc: Global) -> Result<String, AllocError>
        ensures { IfOk result (λ rows. ArePageRows self.now.skin self.now.width (growing_now self.now) (string_bytes rows)) }
    {
        let end = shown_line(self.sections.open_kind(), self.sections.begun_line());
        let read = self.sections.read_open(alloc, end)?;
        own_rows(alloc, &read, self.width, &self.skin)
    }

    /// Goes on below whatever stands on the terminal, at a width and on a screen that has `height` rows: on another screen, on one of another size,
    /// or after a fault of the device.
    ///
    /// What is on the screen stays. A new row begins now. The next feed, also of an empty piece, shows below it all that isn't shown as done: the
    /// leaf that is growing, and after a fault what was fed then. So nothing is lost, and the rows of one leaf may stand there twice. All below the
    /// cursor has to be blank. Nothing is flushed.
    ///
    /// # Errors
    ///
    /// A fault of the device. Then nothing has changed, and one can call it again.
    pub fn go_on_below<O: Out>(
        &mut self,
        out: &mut O,
        width: Option<usize>,
        height: usize,
    ) -> Result<(), Error>
        ensures goes_on { GoesOnBelow self.old width height self.new (O.seen out.old) result (O.seen out.new) }
        ensures without_memory { IsErrOf result Memory → ⊥ }
        ensures err { OnErr result (self.new ≡ self.old) }
        ensures skin { self.new.skin ≡ self.old.skin }
    {
        self.rows.begin_below(out, height)?;
        self.width = width;
        Ok(())
    }

    /// The text is at its end: shows all of it, in rows that won't change. Nothing is flushed.
    ///
    /// # Errors
    ///
    /// Out of memory, before anything was written. Or a fault of the device: a front of the bytes was taken that show all of the text.
    pub fn finish<O: Out>(self, alloc: Global, out: &mut O) -> Result<(), Error>
        ensures ends { EndsLive self (O.seen out.old) result (O.seen out.new) ⊎ IsErrOf result Memory }
        ensures early { IsErrOf result Memory → O.seen out.new ≡ O.seen out.old }
    {
        let mut live = self;
        let Ok(done) = live.last_rows(alloc) else {
            return Err(Error::Memory);
        };
        live.rows.show(alloc, out, done.as_bytes(), &[])
    }

    // The text is at its end: the rows of all that isn't shown as done.
    fn last_rows(&mut self, alloc: Global) -> Result<String, AllocError>
        ensures rows { IfOk result (λ rows. HasLastRows self.old (string_bytes rows)) }
        ensures rest { self.new.rows ≡ self.old.rows }
    {
        self.sections.end(alloc)?;
        let read = self.sections.take(alloc)?;
        self.unshown.push(read)?;
        let done = page_rows(alloc, &self.unshown, self.width, &self.skin)?;
        Ok(done)
    }
}
